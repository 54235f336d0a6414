//! Chains of predicates by `|` or by `&`, joined run by run.
//!
//! In a run each part begins behind the last test of the one before. Two stretches of a run have no test in common, so
//! their join has the nodes of both, and halves are joined with halves. What stands before a run is joined with the whole
//! of it: where tests lie between one another, what is known of the parts before may keep a diagram small.

ghost use Rattle.std.specs.Prelude.{◌<◌, IfOk, length, All};
ghost use Rattle.snap_diagrams.specs.Arena.{ExtendsArena};
ghost use Rattle.snap_diagrams.specs.Picks.{IsWellFormedDiagram};
ghost use Rattle.snap_compose.specs.Predicates.{IsPredicate, holds, reads_of_both};
ghost use Rattle.snap_build.specs.Chains.{joined, holding, reading, IsLink, IsLinkOf};
ghost use Rattle.snap_build.specs.Parts.{IsTold};

use snap_compose::joining::{both, either};
use snap_context::context::Context;
use snap_core::NoMemory;
use snap_dep::groups::Groups;
use snap_diagrams::leaf::Leaf;
use snap_diagrams::node::Node;
use snap_diagrams::nodes::Nodes;
use snap_diagrams::order::compare;
use snap_diagrams::pick::look;
use std::cmp::Ordering;

/// A part of a chain, or several that were joined.
#[derive(Clone, Copy)]
pub(crate) struct Link {
    /// Its diagram.
    pub diagram: u64,
    /// A node whose test none of the diagram's comes behind; a leaf where there are no tests.
    pub last: u64,
}

// Whether a node's test comes before another's. A leaf comes before each test, and nothing before a leaf.
fn is_before(nodes: &Nodes<Leaf>, groups: &Groups, ctx: &Context, a: u64, b: u64) -> bool
    requires a { IsWellFormedDiagram groups.now ctx.now nodes.now a }
    requires b { IsWellFormedDiagram groups.now ctx.now nodes.now b }
{
    match look(nodes, b) {
        Node::Leaf(_) => false,
        Node::Ask {
            test: second,
            yes: _,
            no: _,
        } => match look(nodes, a) {
            Node::Leaf(_) => true,
            Node::Ask {
                test: first,
                yes: _,
                no: _,
            } => compare(groups, first, second) == Ordering::Less,
        },
    }
}

// The one of two nodes with the later test.
fn later(nodes: &Nodes<Leaf>, groups: &Groups, ctx: &Context, a: u64, b: u64) -> u64
    requires a { IsWellFormedDiagram groups.now ctx.now nodes.now a }
    requires b { IsWellFormedDiagram groups.now ctx.now nodes.now b }
    ensures { IsWellFormedDiagram groups.now ctx.now nodes.now result }
{
    if is_before(nodes, groups, ctx, a, b) {
        b
    } else {
        a
    }
}

// Any of two predicates, or both.
fn two_joined(
    nodes: &mut Nodes<Leaf>,
    groups: &Groups,
    ctx: &Context,
    any: bool,
    a: u64,
    b: u64,
) -> Result<u64, NoMemory>
    requires a { IsWellFormedDiagram groups.now ctx.now nodes.old a }
    requires b { IsWellFormedDiagram groups.now ctx.now nodes.old b }
    requires first { IsPredicate nodes.old a }
    requires second { IsPredicate nodes.old b }
    ensures extends_arena { ExtendsArena nodes.old nodes.new }
    ensures diagram { IfOk result (IsWellFormedDiagram groups.now ctx.now nodes.new) }
    ensures told { IfOk result (IsTold ctx.now (λ m k. joined any (holds nodes.old a m k) (holds nodes.old b m k)) (reads_of_both nodes.old a b) nodes.new) }
{
    if any {
        either(nodes, groups, ctx, a, b)
    } else {
        both(nodes, groups, ctx, a, b)
    }
}

/// Any of two links, or both. Refuses for memory alone.
pub(crate) fn join_two(
    nodes: &mut Nodes<Leaf>,
    groups: &Groups,
    ctx: &Context,
    any: bool,
    a: Link,
    b: Link,
) -> Result<Link, NoMemory>
    requires a { IsLink groups.now ctx.now nodes.old a }
    requires b { IsLink groups.now ctx.now nodes.old b }
    ensures extends_arena { ExtendsArena nodes.old nodes.new }
    ensures link { IfOk result (IsLinkOf groups.now ctx.now (λ m k. joined any (holds nodes.old a.diagram m k) (holds nodes.old b.diagram m k)) (reads_of_both nodes.old a.diagram b.diagram) nodes.new) }
{
    let last = later(nodes, groups, ctx, a.last, b.last);
    let diagram = two_joined(nodes, groups, ctx, any, a.diagram, b.diagram)?;
    Ok(Link { diagram, last })
}

// Where the last run of a chain begins.
fn last_run(nodes: &Nodes<Leaf>, groups: &Groups, ctx: &Context, links: &[Link]) -> usize
    requires some { 0 < length links.now }
    requires links { All (IsLink groups.now ctx.now nodes.now) links.now }
    ensures { result < length links.now }
{
    let mut start = links.len() - 1;
    while start > 0
        && is_before(
            nodes,
            groups,
            ctx,
            links[start - 1].last,
            links[start].diagram,
        )
    {
        start -= 1;
    }
    start
}

// Where a chain is cut: before its last run, and a run in the middle. Of three links in a run the first two are joined first.
fn cut(nodes: &Nodes<Leaf>, groups: &Groups, ctx: &Context, links: &[Link]) -> usize
    requires two { 1 < length links.now }
    requires links { All (IsLink groups.now ctx.now nodes.now) links.now }
    ensures { (0 < result) × (result < length links.now) }
{
    match last_run(nodes, groups, ctx, links) {
        0 => links.len() - links.len() / 2,
        start => start,
    }
}

/// Any of a chain's links, or all. Refuses for memory alone.
pub(crate) fn join_all(
    nodes: &mut Nodes<Leaf>,
    groups: &Groups,
    ctx: &Context,
    any: bool,
    links: &[Link],
) -> Result<Link, NoMemory>
    requires some { 0 < length links.now }
    requires links { All (IsLink groups.now ctx.now nodes.old) links.now }
    ensures extends_arena { ExtendsArena nodes.old nodes.new }
    ensures link { IfOk result (IsLinkOf groups.now ctx.now (holding any nodes.old links.now) (reading nodes.old links.now) nodes.new) }
{
    if links.len() == 1 {
        return Ok(links[0]);
    }
    let (front, back) = links.split_at(cut(nodes, groups, ctx, links));
    let first = join_all(nodes, groups, ctx, any, front)?;
    let second = join_all(nodes, groups, ctx, any, back)?;
    join_two(nodes, groups, ctx, any, first, second)
}
