use snap_core::NoMemory;
use snap_core::lists::{Atoms, Name, Names, Out, Outs, Updates};
use snap_core::policy::{Atom, Op, Pol, Pred, Test, Update};
use snap_core::program::{Fields, Program};
use snap_dep::calls::groups;
use snap_dep::groups::Groups;
use snap_diagrams::leaf::{Go, Leaf};
use snap_diagrams::node::Node;
use snap_diagrams::nodes::Nodes;
use snap_faithful::images::tidied;
use snap_faithful::leaves::tidy_of;
use snap_faithful::numbering::number;
use std::alloc::Global;
use std::test::Fail;

// The leaf that drops, and reads variables or not.
fn drops(alloc: Global, reads: u64) -> Leaf {
    Leaf::Go(Go {
        outs: Outs::new(Vec::new(alloc)),
        ups: Updates::new(Vec::new(alloc)),
        reads,
        writes: 0,
    })
}

// A component, a number that it may be, and the nodes for yes and no.
type Asked = (u16, u64, u64, u64);

// Adds a test of nodes that are there.
fn ask(nodes: &mut Nodes<Leaf>, asked: Asked) -> Result<u64, NoMemory> {
    let (comp, num, yes, no) = asked;
    if yes >= nodes.count() || no >= nodes.count() {
        return Err(NoMemory);
    }
    nodes.node(Test::Value { comp, num }, yes, no)
}

// A race, the leaf that drops and reads nothing, the leaf that drops and reads, and tests behind these three.
fn arena(alloc: Global, tests: &[Asked]) -> Result<Nodes<Leaf>, NoMemory> {
    let mut nodes = Nodes::new(alloc);
    nodes.leaf(Leaf::Race)?;
    nodes.leaf(drops(alloc, 0))?;
    nodes.leaf(drops(alloc, 1))?;
    for asked in tests {
        ask(&mut nodes, *asked)?;
    }
    Ok(nodes)
}

#[test]
fn numbers_rise_from_the_root(rt: HostRuntime) -> Result<(), Fail> {
    let nodes = arena(rt.alloc(), &[(1, 5, 0, 1), (1, 6, 0, 1), (0, 7, 3, 1)])?;
    assert!(rt; nodes.count() == 6);
    // The nodes 2 and 4 aren't below the root.
    let found = number(rt.alloc(), &nodes, 5)?;
    assert!(rt; found.ids.as_slice() == [5, 3, 1, 0].as_slice());
    assert!(rt; found.numbers.as_slice() == [3, 2, 0, 1, 0, 0].as_slice());
    Ok(())
}

// The program `id` over one array.
fn one_array(alloc: Global) -> Result<Program, NoMemory> {
    Ok(Program {
        fields: Fields::ports(alloc)?,
        arrays: Names::new(vec![in alloc; Name::of(alloc, b"s")?]?),
        body: Pol::Filter(Pred::Id),
    })
}

// The groups of a program that fits its fields and arrays.
fn groups_of(alloc: Global, program: &Program) -> Result<Groups, NoMemory> {
    let count = program.arrays.items().len();
    if count > 64 || !program.body.fits(program.fields.count() as usize, count) {
        return Err(NoMemory);
    }
    groups(alloc, program)
}

fn one_group(alloc: Global) -> Result<Groups, NoMemory> {
    let program = one_array(alloc)?;
    groups_of(alloc, &program)
}

// Outs of one part each.
fn outs(alloc: Global, parts: &[(u16, Atom)]) -> Result<Outs, NoMemory> {
    let mut outs = Vec::new(alloc);
    for part in parts {
        outs.push(Out::new(vec![in alloc; *part]?))?;
    }
    Ok(Outs::new(outs))
}

fn add(alloc: Global, num: u64) -> Result<Update, NoMemory> {
    Ok(Update {
        var: 0,
        index: Atoms::new(vec![in alloc; Atom::Comp(0)]?),
        op: Op::Add(num),
    })
}

// Updates that add these numbers.
fn adds(alloc: Global, nums: &[u64]) -> Result<Updates, NoMemory> {
    let mut ups = Vec::new(alloc);
    for num in nums {
        ups.push(add(alloc, *num)?)?;
    }
    Ok(Updates::new(ups))
}

// A leaf with outs out of order and one twice, and with an update that changes nothing.
fn untidy(alloc: Global) -> Result<Leaf, NoMemory> {
    let parts = [
        (1, Atom::Num(2)),
        (0, Atom::Num(3)),
        (1, Atom::Comp(1)),
        (0, Atom::Num(3)),
    ];
    Ok(Leaf::Go(Go {
        outs: outs(alloc, &parts)?,
        ups: adds(alloc, &[0, 1])?,
        reads: 1,
        writes: 1,
    }))
}

// Whether outs have these parts.
fn have_parts(outs: &[Out], wanted: &[&[(u16, Atom)]]) -> bool {
    outs.len() == wanted.len()
        && outs
            .iter()
            .zip(wanted.iter())
            .all(|(out, parts)| out.parts() == *parts)
}

// Whether a leaf keeps a packet, sets a component of it to 3 or the other to 2, and adds 1.
fn is_tidy(leaf: &Leaf) -> bool {
    match leaf {
        Leaf::Race => false,
        Leaf::Go(go) => {
            have_parts(
                go.outs.items(),
                &[&[], &[(0, Atom::Num(3))], &[(1, Atom::Num(2))]],
            ) && adds_one(go.ups.items())
                && go.reads == 0
                && go.writes == 0
        }
    }
}

fn adds_one(ups: &[Update]) -> bool {
    match ups {
        [up] => up.op == Op::Add(1),
        _ => false,
    }
}

#[test]
fn leaves_are_tidied(rt: HostRuntime) -> Result<(), Fail> {
    let alloc = rt.alloc();
    let groups = one_group(alloc)?;
    let leaf = untidy(alloc)?;
    let tidy = tidy_of(alloc, &groups, &leaf)?;
    assert!(rt; is_tidy(&tidy));
    Ok(())
}

#[test]
fn a_test_of_one_tidied_leaf_goes(rt: HostRuntime) -> Result<(), Fail> {
    let groups = one_group(rt.alloc())?;
    let mut nodes = arena(rt.alloc(), &[(1, 5, 2, 1), (0, 7, 0, 3)])?;
    assert!(rt; nodes.count() == 5);
    // The lower test goes, since its leaves differ in what they read alone.
    let image = tidied(&mut nodes, &groups, 4)?;
    assert!(rt; image == 5 && nodes.count() == 6);
    assert!(rt; matches!(nodes.get(5), Node::Ask { yes: 0, no: 1, .. }));
    Ok(())
}
