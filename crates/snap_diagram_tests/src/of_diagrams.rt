ghost use Rattle.std.specs.Prelude.{IfOk};
ghost use Rattle.snap_diagrams.specs.Arena.{ExtendsArena};
ghost use Rattle.snap_diagrams.specs.Picks.{IsWellFormedDiagram};

use crate::given::{
    AT_THREE, AT_TWO, Asks, FOUR, Made, THREE, context, filled, leaf_at, program, test,
};
use snap_context::context::Context;
use snap_core::lists::{Out, Outs, Updates};
use snap_core::packet::Packet;
use snap_core::policy::{Atom, Term, Test};
use snap_dep::calls::groups;
use snap_dep::groups::Groups;
use snap_diagrams::bounds::{leaf_fits, test_fits};
use snap_diagrams::leaf::{Go, Leaf};
use snap_diagrams::node::Node;
use snap_diagrams::nodes::Nodes;
use snap_diagrams::only::only;
use snap_diagrams::pick::ite;
use snap_diagrams::pruning::prune;
use std::alloc::{AllocError, Global};
use std::process::Abort;
use std::test::Fail;

// Two arrays, of which the second has the lower rank: the first is written after it was read.
fn second_first(alloc: Global) -> Result<Groups, Fail> {
    let program = program(alloc, "array t; array s; s[inport] = 1; t[inport]++")?;
    Ok(groups(alloc, &program)?)
}

// The leaf that sets `outport`.
fn sets(alloc: Global, num: u64) -> Result<Leaf, AllocError> {
    let out = Out::new(vec![in alloc; (1, Atom::Num(num))]?);
    Ok(Leaf::Go(Go {
        outs: Outs::new(vec![in alloc; out]?),
        ups: Updates::new(Vec::new(alloc)),
        reads: 0,
        writes: 0,
    }))
}

// A leaf that fits, alone.
fn alone(nodes: &mut Nodes<Leaf>, groups: &Groups, ctx: &Context, leaf: &Leaf) -> Result<u64, Fail>
    ensures extends_arena { ExtendsArena nodes.old nodes.new }
    ensures diagram { IfOk result (IsWellFormedDiagram groups.now ctx.now nodes.new) }
{
    if !leaf_fits(groups, ctx, leaf) {
        return Err("the leaf doesn't fit")?;
    }
    let copy = leaf.copy(nodes.allocator())?;
    Ok(only(nodes, groups, ctx, copy)?)
}

fn mark(nodes: &mut Nodes<Leaf>, groups: &Groups, ctx: &Context, num: u64) -> Result<u64, Fail>
    ensures extends_arena { ExtendsArena nodes.old nodes.new }
    ensures diagram { IfOk result (IsWellFormedDiagram groups.now ctx.now nodes.new) }
{
    let leaf = sets(nodes.allocator(), num)?;
    alone(nodes, groups, ctx, &leaf)
}

// A diagram with a test before it, which has a mark of its own where it passes.
fn behind(
    nodes: &mut Nodes<Leaf>,
    groups: &Groups,
    ctx: &Context,
    asks: Asks,
    num: u64,
    d: u64,
) -> Result<u64, Fail>
    requires { IsWellFormedDiagram groups.now ctx.now nodes.old d }
    ensures { IfOk result (IsWellFormedDiagram groups.now ctx.now nodes.new) }
{
    let yes = mark(nodes, groups, ctx, num)?;
    let test = test(nodes.allocator(), asks)?;
    if !test_fits(groups, ctx, &test) {
        return Err("the test doesn't fit")?;
    }
    Ok(ite(nodes, groups, ctx, test, yes, d)?)
}

// Tests, each asked before those in front of it, where it passes with a mark of its own.
fn chain(
    nodes: &mut Nodes<Leaf>,
    groups: &Groups,
    ctx: &Context,
    tests: &[Asks],
) -> Result<u64, Fail>
    ensures { IfOk result (IsWellFormedDiagram groups.now ctx.now nodes.new) }
{
    let mut d = mark(nodes, groups, ctx, 0)?;
    for (at, asks) in tests.iter().enumerate() {
        d = behind(nodes, groups, ctx, *asks, at as u64 + 1, d)?;
    }
    Ok(d)
}

// The diagram of these tests under facts.
fn asked(alloc: Global, facts: &[(Asks, bool)], tests: &[Asks]) -> Result<Made, Fail>
    ensures { IfOk result (λ d. IsWellFormedDiagram d.groups d.ctx d.nodes d.root) }
{
    let groups = second_first(alloc)?;
    let ctx = context(alloc, facts)?;
    let mut nodes = Nodes::new(alloc);
    let root = chain(&mut nodes, &groups, &ctx, tests)?;
    Ok(Made {
        groups,
        ctx,
        nodes,
        root,
    })
}

// The mark to which a diagram walks.
fn marked(leaf: &Leaf) -> Option<u64> {
    match leaf {
        Leaf::Race => None,
        Leaf::Go(go) => match go.outs.items().first()?.parts().first()?.1 {
            Atom::Num(num) => Some(num),
            Atom::Comp(_) => None,
        },
    }
}

const TESTS: [Asks; 8] = [
    Asks::Is(2, 5),
    Asks::Holds(1, AT_TWO, Term::Num(1)),
    Asks::Holds(0, AT_THREE, Term::Num(1)),
    Asks::Holds(
        1,
        AT_THREE,
        Term::Plus {
            comp: 2,
            plus: 18446744073709551612,
        },
    ),
    Asks::Equal(2, 3, 1),
    Asks::Holds(0, AT_TWO, Term::Num(2)),
    Asks::Is(2, 6),
    Asks::Holds(1, AT_TWO, Term::Num(2)),
];

// The mark to which a packet with these components is led.
fn led(alloc: Global, d: &Made, second: u64, third: u64) -> Result<Option<u64>, Fail>
    requires { IsWellFormedDiagram d.now.groups d.now.ctx d.now.nodes d.now.root }
{
    let store = filled(alloc, 1, 2)?;
    let packet = Packet::new(vec![in alloc; 1, 1, second, third, 1]?);
    Ok(marked(leaf_at(d, &store, &packet)?))
}

fn decides(rt: &impl Abort, alloc: Global, d: &Made) -> Result<(), Fail>
    requires { IsWellFormedDiagram d.now.groups d.now.ctx d.now.nodes d.now.root }
{
    // Two components, and the mark of the last test that passes: worked by hand.
    for [second, third, mark] in [[5, 6, 8], [6, 5, 7], [4, 4, 4], [7, 7, 0u64]] {
        assert_eq!(rt; led(alloc, d, second, third)?, Some(mark));
    }
    Ok(())
}

#[test]
fn walks_as_its_tests_decide(rt: HostRuntime) -> Result<(), Fail> {
    let d = asked(rt.alloc(), &[], TESTS.as_slice())?;
    decides(&rt, rt.alloc(), &d)
}

fn is_cut(rt: &impl Abort, d: &mut Made) -> Result<(), Fail>
    requires { IsWellFormedDiagram d.old.groups d.old.ctx d.old.nodes d.old.root }
{
    assert!(rt; matches!(d.nodes.get(d.root), Node::Ask { .. }));
    let pruned = prune(&mut d.nodes, &d.groups, &d.ctx, d.root)?;
    assert!(rt; matches!(d.nodes.get(pruned), Node::Leaf(leaf) if marked(leaf) == Some(0)));
    Ok(())
}

#[test]
fn a_way_that_no_one_goes_is_cut(rt: HostRuntime) -> Result<(), Fail> {
    let facts = [
        (Asks::Is(3, 1), true),
        (Asks::Is(4, 2), true),
        (Asks::Holds(0, AT_TWO, THREE), true),
    ];
    let mut d = asked(rt.alloc(), &facts, &[Asks::Holds(0, AT_TWO, FOUR)])?;
    is_cut(&rt, &mut d)
}

// How many arrays are tested where every test fails.
fn failed(nodes: &Nodes<Leaf>, root: u64) -> Result<u64, Fail> {
    let mut states = 0u64;
    let mut d = root;
    for _ in 0..nodes.count() {
        if d >= nodes.count() {
            return Err("no such node")?;
        }
        match nodes.get(d) {
            Node::Leaf(_) => return Ok(states),
            Node::Ask { test, no, .. } => {
                if matches!(test, Test::State { .. }) {
                    states = states.wrapping_add(1);
                }
                d = *no;
            }
        }
    }
    Ok(states)
}

// Whether the first array holds 1 at a component's number or at one of 64 numbers, which are asked first.
fn sixty_five_places(alloc: Global) -> Result<Vec<Asks>, AllocError> {
    let mut tests = vec![in alloc; Asks::Holds(0, AT_TWO, Term::Num(1))]?;
    for num in 0..64u64 {
        tests.push(Asks::Holds(0, Atom::Num(63 - num), Term::Num(1)))?;
    }
    Ok(tests)
}

fn asked_where_two_is_one(alloc: Global) -> Result<Made, Fail>
    ensures { IfOk result (λ d. IsWellFormedDiagram d.groups d.ctx d.nodes d.root) }
{
    let tests = sixty_five_places(alloc)?;
    asked(alloc, &[(Asks::Is(2, 1), true)], &tests)
}

fn last_is_known(rt: &impl Abort, d: &mut Made) -> Result<(), Fail>
    requires { IsWellFormedDiagram d.old.groups d.old.ctx d.old.nodes d.old.root }
{
    assert_eq!(rt; failed(&d.nodes, d.root)?, 65);
    let pruned = prune(&mut d.nodes, &d.groups, &d.ctx, d.root)?;
    assert_eq!(rt; failed(&d.nodes, pruned)?, 64);
    Ok(())
}

#[test]
fn a_place_is_known_after_sixty_four_tests(rt: HostRuntime) -> Result<(), Fail> {
    let mut d = asked_where_two_is_one(rt.alloc())?;
    last_is_known(&rt, &mut d)
}
