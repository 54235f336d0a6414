ghost use Rattle.std.specs.Prelude.{[], ◌∷◌};

use snap_core::NoMemory;
use snap_core::lists::Atoms;
use snap_core::policy::{Atom, Term, Test};
use snap_diagrams::node::{Coded, Node};
use snap_diagrams::nodes::Nodes;
use snap_diagrams::numbers::Numbers;
use std::alloc::{AllocError, Global};
use std::process::Abort;
use std::test::Fail;

#[derive(Debug, Drop)]
struct Mark {
    num: u64,
}

impl Coded for Mark {
    ghost code = { λ a. a.num ∷ [] };

    fn push_code(&self, out: &mut Vec<u64>) -> Result<(), NoMemory> {
        out.push(self.num)?;
        Ok(())
    }

    fn codes_differ() {}
}

fn at(alloc: Global, atom: Atom, num: u64) -> Result<Test, AllocError> {
    Ok(Test::State {
        var: 1,
        index: Atoms::new(vec![in alloc; atom]?),
        value: Term::Num(num),
    })
}

// The number of a test of an array at an atom, before two nodes.
fn number(nodes: &mut Nodes<Mark>, atom: Atom, num: u64, ways: [u64; 2]) -> Result<u64, Fail> {
    let [yes, no] = ways;
    if yes >= nodes.count() || no >= nodes.count() {
        return Err("no such node")?;
    }
    let test = at(nodes.allocator(), atom, num)?;
    Ok(nodes.node(test, yes, no)?)
}

// Two leaves, and a test before them of an array at a number, and at a component.
fn fill(nodes: &mut Nodes<Mark>) -> Result<(), Fail> {
    nodes.leaf(Mark { num: 7 })?;
    nodes.leaf(Mark { num: 8 })?;
    number(nodes, Atom::Num(2), 5, [0, 1])?;
    number(nodes, Atom::Comp(2), 5, [0, 1])?;
    Ok(())
}

fn stand_once(rt: &impl Abort, nodes: &mut Nodes<Mark>) -> Result<(), Fail> {
    fill(nodes)?;
    assert_eq!(rt; nodes.count(), 4);
    assert_eq!(rt; nodes.leaf(Mark { num: 8 })?, 1);
    assert_eq!(rt; number(nodes, Atom::Num(2), 5, [0, 1])?, 2);
    assert_eq!(rt; number(nodes, Atom::Comp(2), 5, [0, 1])?, 3);
    assert_eq!(rt; nodes.count(), 4);
    Ok(())
}

#[test]
fn a_node_stands_once(rt: HostRuntime) -> Result<(), Fail> {
    let mut nodes = Nodes::new(rt.alloc());
    stand_once(&rt, &mut nodes)
}

fn go_one_way(rt: &impl Abort, nodes: &mut Nodes<Mark>) -> Result<(), Fail> {
    fill(nodes)?;
    assert_eq!(rt; number(nodes, Atom::Num(2), 6, [3, 3])?, 3);
    assert_eq!(rt; nodes.count(), 4);
    assert!(rt; matches!(nodes.get(3), Node::Ask { yes: 0, no: 1, .. }));
    Ok(())
}

#[test]
fn a_test_with_one_way_is_that_way(rt: HostRuntime) -> Result<(), Fail> {
    let mut nodes = Nodes::new(rt.alloc());
    go_one_way(&rt, &mut nodes)
}

fn have_those_put_last(rt: &impl Abort, alloc: Global, numbers: &mut Numbers) -> Result<(), Fail> {
    numbers.put(vec![in alloc; 1, 2]?, 5)?;
    numbers.put(vec![in alloc; 1]?, 6)?;
    numbers.put(vec![in alloc; 1, 2]?, 7)?;
    assert!(rt; numbers.get(&[1, 2]) == Some(7) && numbers.get(&[1]) == Some(6));
    assert!(rt; numbers.get(&[2]).is_none());
    Ok(())
}

#[test]
fn a_list_has_the_number_put_last(rt: HostRuntime) -> Result<(), Fail> {
    let mut numbers = Numbers::new(rt.alloc());
    have_those_put_last(&rt, rt.alloc(), &mut numbers)
}
