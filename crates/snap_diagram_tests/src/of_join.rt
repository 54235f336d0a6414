ghost use Rattle.snap_diagrams.specs.Picks.{IsWellFormedDiagram};

use crate::given::{Made, drawn, leaf_at};
use snap_core::packet::Packet;
use snap_core::store::Store;
use snap_diagrams::leaf::Leaf;
use snap_diagrams::node::Node;
use snap_diagrams::nodes::Nodes;
use snap_diagrams::pruning::prune;
use std::alloc::{AllocError, Global};
use std::test::Fail;

// Whether a leaf passes the packet alone, as it is.
fn is_pass(leaf: &Leaf) -> bool {
    match leaf {
        Leaf::Race => false,
        Leaf::Go(go) => {
            go.reads == 0
                && go.writes == 0
                && go.ups.items().is_empty()
                && go.outs.items().len() == 1
                && go.outs.items().iter().all(|out| out.parts().is_empty())
        }
    }
}

// One of 18 stores and packets with three fields.
fn input(alloc: Global, number: u64) -> Result<(Store, Packet), Fail> {
    let mut store = Store::new(alloc);
    store.put(0, &[5], number % 3)?;
    let comps = vec![in alloc; number / 9, 1, 4 + number / 3 % 3]?;
    Ok((store, Packet::new(comps)))
}

// What is done with a packet.
#[derive(Clone, Copy, PartialEq, Eq)]
enum Does {
    Race,
    Pass,
    Other,
}

// What a diagram does with a store and a packet.
fn done(d: &Made, store: &Store, packet: &Packet) -> Result<Does, Fail>
    requires { IsWellFormedDiagram d.now.groups d.now.ctx d.now.nodes d.now.root }
{
    let leaf = leaf_at(d, store, packet)?;
    if matches!(leaf, Leaf::Race) {
        Ok(Does::Race)
    } else if is_pass(leaf) {
        Ok(Does::Pass)
    } else {
        Ok(Does::Other)
    }
}

// What it does with this one of the 18.
fn done_at(alloc: Global, d: &Made, number: u64) -> Result<Does, Fail>
    requires { IsWellFormedDiagram d.now.groups d.now.ctx d.now.nodes d.now.root }
{
    let (store, packet) = input(alloc, number)?;
    done(d, &store, &packet)
}

// At how many of them two parts race, and at how many a diagram passes the packet.
fn counts(alloc: Global, d: &Made) -> Result<(u64, u64), Fail>
    requires { IsWellFormedDiagram d.now.groups d.now.ctx d.now.nodes d.now.root }
{
    let (mut races, mut passes) = (0u64, 0u64);
    for number in 0..18u64 {
        match done_at(alloc, d, number)? {
            Does::Race => races = races.wrapping_add(1),
            Does::Pass => passes = passes.wrapping_add(1),
            Does::Other => (),
        }
    }
    Ok((races, passes))
}

// The same of the program with this body.
fn races_and_passes(alloc: Global, body: &str) -> Result<(u64, u64), Fail> {
    let text = format!(in alloc; "field srcport; array s; {body}")?;
    let d = drawn(alloc, text.as_str())?;
    counts(alloc, &d)
}

#[test]
fn a_clash_races_and_a_test_or_its_negation_passes(rt: HostRuntime) -> Result<(), Fail> {
    let clash = "s[srcport] = 1 + s[srcport] <- 1";
    assert_eq!(rt; races_and_passes(rt.alloc(), clash)?, (18, 0));
    let anything = "inport = 1 | !(inport = 1)";
    assert_eq!(rt; races_and_passes(rt.alloc(), anything)?, (0, 18));
    Ok(())
}

// What is tested: pairs of places of one array, or of an array each, numbers of one field, and
// pairs of fields far apart; or two numbers of fields, and pairs of places that these fields index.
#[derive(Clone, Copy)]
enum Shape {
    OneArray,
    Arrays,
    Numbers,
    FarApart,
    MayMeet,
}

// Whether an array holds 1 at two fields, the second next to the first.
fn pair(alloc: Global, array: u64, first: u64) -> Result<String, AllocError> {
    let second = first.wrapping_add(1);
    format!(in alloc; "s{array}[f{first}] = 1 & s{array}[f{second}] = 1")
}

// A part of a disjunction.
fn part(alloc: Global, shape: Shape, n: u64) -> Result<String, AllocError> {
    let first = n.wrapping_mul(2);
    match shape {
        Shape::OneArray => pair(alloc, 0, first),
        Shape::Arrays => pair(alloc, n, first),
        Shape::Numbers => format!(in alloc; "f0 = {n}"),
        Shape::FarApart => format!(in alloc; "f{n} = 1 & f{} = 1", n.wrapping_add(12)),
        Shape::MayMeet if n < 2 => format!(in alloc; "f{first} = 7"),
        Shape::MayMeet => pair(alloc, 0, first.wrapping_sub(4)),
    }
}

// The fields and arrays that parts name.
fn names(alloc: Global) -> Result<String, Fail> {
    let mut text = String::new(alloc);
    for n in 0..48u64 {
        text.push_str(format!(in alloc; "field f{n}; ")?.as_str())?;
    }
    for n in 0..24u64 {
        text.push_str(format!(in alloc; "array s{n}; ")?.as_str())?;
    }
    Ok(text)
}

// A program that passes where one part or another does.
fn any_of(alloc: Global, shape: Shape, count: u64) -> Result<String, Fail> {
    let mut text = names(alloc)?;
    text.push_str(part(alloc, shape, 0)?.as_str())?;
    for n in 1..count {
        text.push_str(" | ")?;
        text.push_str(part(alloc, shape, n)?.as_str())?;
    }
    Ok(text)
}

// How many nodes are reached.
fn count_below(nodes: &Nodes<Leaf>, root: u64) -> Result<usize, Fail> {
    let count = nodes.count() as usize;
    if root as usize >= count {
        return Err("no such node")?;
    }
    let mut reached = vec![in nodes.allocator(); false; count]?;
    reached[root as usize] = true;
    for back in 0..count {
        let id = count - 1 - back;
        if id < reached.len() && reached[id] {
            if let Node::Ask { yes, no, .. } = nodes.get(id as u64) {
                if let Some(it) = reached.get_mut(*yes as usize) {
                    *it = true;
                }
                if let Some(it) = reached.get_mut(*no as usize) {
                    *it = true;
                }
            }
        }
    }
    Ok(reached.iter().filter(|it| **it).count())
}

// The nodes of a diagram that pruning leaves as it is.
fn count_kept(d: &mut Made) -> Result<usize, Fail>
    requires { IsWellFormedDiagram d.old.groups d.old.ctx d.old.nodes d.old.root }
{
    if prune(&mut d.nodes, &d.groups, &d.ctx, d.root)? != d.root {
        return Err("pruning changes it")?;
    }
    count_below(&d.nodes, d.root)
}

// The nodes of a disjunction's diagram, which is left so.
fn nodes_of(alloc: Global, shape: Shape, count: u64) -> Result<usize, Fail> {
    let text = any_of(alloc, shape, count)?;
    let mut d = drawn(alloc, text.as_str())?;
    count_kept(&mut d)
}

// What is tested, in how many parts, and how many nodes there are.
const COUNTS: &[(Shape, u64, usize)] = &[
    (Shape::OneArray, 24, 50),
    (Shape::Arrays, 24, 50),
    (Shape::Numbers, 500, 502),
    (Shape::FarApart, 12, 8192),
    (Shape::MayMeet, 26, 52),
];

#[test]
fn disjunctions_have_few_nodes(rt: HostRuntime) -> Result<(), Fail> {
    for (shape, count, wanted) in COUNTS {
        assert_eq!(rt; nodes_of(rt.alloc(), *shape, *count)?, *wanted);
    }
    Ok(())
}
