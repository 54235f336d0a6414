//! One diagram after another.

ghost use Rattle.std.specs.Prelude.{◌≡◌, ◌<◌, length, IfOk, OnOk};
ghost use Rattle.snap_diagrams.specs.Arena.{ExtendsArena};
ghost use Rattle.snap_diagrams.specs.Memos.{Remembers};
ghost use Rattle.snap_diagrams.specs.Diagrams.{diagram, Only};
ghost use Rattle.snap_diagrams.specs.declared.leaf.Leaf.{Leaf};
ghost use Rattle.snap_diagrams.specs.Picks.{IsWellFormedDiagram};
ghost use Rattle.snap_compose.specs.Substituted.{OnStores, outcome};
ghost use Rattle.snap_compose.specs.Marks.{AreMarked};
ghost use Rattle.snap_compose.specs.ChainMemoed.{ChainedFor, IsAskedChain};
ghost use Rattle.snap_compose.specs.Sequence.{in_sequence};
ghost use Rattle.snap_compose.specs.Spread.{IsChained};

use crate::expanding::{Expansion, next_turn};
use crate::marks::{Marks, marks_from};
use crate::separating::{go_of, separate};
use crate::spreading::{spread, spread_on};
use snap_context::context::Context;
use snap_core::NoMemory;
use snap_dep::groups::Groups;
use snap_diagrams::leaf::Leaf;
use snap_diagrams::node::Node;
use snap_diagrams::nodes::Nodes;
use snap_diagrams::pairs::Pairs;
use snap_diagrams::pick::{ite, look};

// A leaf, and then a diagram. Which packets are equal is asked only where it matters: where there are several, and the
// diagram writes something.
fn leaf_chained(
    nodes: &mut Nodes<Leaf>,
    groups: &Groups,
    ctx: &Context,
    marks: &Marks,
    a: u64,
    d: u64,
) -> Result<u64, NoMemory>
    requires a { IsWellFormedDiagram groups.now ctx.now nodes.old a }
    requires leaf { (l : Leaf) × (diagram nodes.old a ≡ Only l) }
    requires d { IsWellFormedDiagram groups.now ctx.now nodes.old d }
    requires marked { AreMarked nodes.old marks.now }
    ensures extends_arena { ExtendsArena nodes.old nodes.new }
    ensures number { IfOk result (λ r. r < length nodes.new) }
    ensures chained { IfOk result (λ r. IsChained groups.now ctx.now (diagram nodes.old d) (diagram nodes.old a) (diagram nodes.new r)) }
{
    match go_of(nodes, a)? {
        None => Ok(a),
        Some(go) => {
            if go.outs.items().len() <= 1 || !marks.of(d).writes {
                return spread(nodes, groups, ctx, marks, &go, d);
            }
            let settled = separate(nodes, groups, ctx, go)?;
            spread_on(nodes, groups, ctx, marks, settled, d)
        }
    }
}

// A diagram, and then another, which may be remembered.
#[cycle(chained)]
fn chained(
    nodes: &mut Nodes<Leaf>,
    groups: &Groups,
    ctx: &Context,
    marks: &Marks,
    memo: &mut Pairs,
    a: u64,
    d: u64,
) -> Result<u64, NoMemory>
    requires { IsAskedChain groups.now ctx.now nodes.old marks.now memo.old a d }
    ensures extends_arena { ExtendsArena nodes.old nodes.new }
    ensures number { IfOk result (λ r. r < length nodes.new) }
    ensures chained { IfOk result (λ r. IsChained groups.now ctx.now (diagram nodes.old d) (diagram nodes.old a) (diagram nodes.new r)) }
    ensures memo { OnOk result (Remembers (ChainedFor groups.now ctx.now nodes.new) memo.new) }
{
    if let Some(r) = memo.get(a, d) {
        return Ok(r);
    }
    let r = chained_anew(nodes, groups, ctx, marks, memo, a, d)?;
    memo.put(a, d, r)?;
    Ok(r)
}

#[cycle(chained)]
fn chained_anew(
    nodes: &mut Nodes<Leaf>,
    groups: &Groups,
    ctx: &Context,
    marks: &Marks,
    memo: &mut Pairs,
    a: u64,
    d: u64,
) -> Result<u64, NoMemory>
    requires { IsAskedChain groups.now ctx.now nodes.old marks.now memo.old a d }
    ensures extends_arena { ExtendsArena nodes.old nodes.new }
    ensures number { IfOk result (λ r. r < length nodes.new) }
    ensures chained { IfOk result (λ r. IsChained groups.now ctx.now (diagram nodes.old d) (diagram nodes.old a) (diagram nodes.new r)) }
    ensures memo { OnOk result (Remembers (ChainedFor groups.now ctx.now nodes.new) memo.new) }
{
    match next_turn(nodes, groups, ctx, marks, a, d)? {
        Expansion::Whole => leaf_chained(nodes, groups, ctx, marks, a, d),
        Expansion::Asked { test, yes, no } => {
            let y = chained(nodes, groups, ctx, marks, memo, yes.first, yes.second)?;
            let n = chained(nodes, groups, ctx, marks, memo, no.first, no.second)?;
            ite(nodes, groups, ctx, test, y, n)
        }
    }
}

// The marks that one diagram after another needs. Where the second is a leaf, it has no test whose turn may come before
// those of the first.
fn marks_between(nodes: &Nodes<Leaf>, a: u64, d: u64) -> Result<Marks, NoMemory>
    requires a { a < length nodes.now }
    requires d { d < length nodes.now }
    ensures { IfOk result (AreMarked nodes.now) }
{
    match look(nodes, d) {
        Node::Leaf(_) => marks_from(nodes, &[d]),
        Node::Ask { .. } => marks_from(nodes, &[a, d]),
    }
}

/// One diagram after another: the outcome is that of the sequence rule, undefined where `a`'s is, where `d`'s is on the
/// store after `a` and one of its packets, or where those of two packets clash.
/// Refuses for memory alone.
pub fn chain(
    nodes: &mut Nodes<Leaf>,
    groups: &Groups,
    ctx: &Context,
    a: u64,
    d: u64,
) -> Result<u64, NoMemory>
    requires a { IsWellFormedDiagram groups.now ctx.now nodes.old a }
    requires d { IsWellFormedDiagram groups.now ctx.now nodes.old d }
    ensures extends_arena { ExtendsArena nodes.old nodes.new }
    ensures diagram { IfOk result (IsWellFormedDiagram groups.now ctx.now nodes.new) }
    ensures outcome { IfOk result (λ r. OnStores ctx.now (λ m k. outcome nodes.new r m k ≡ in_sequence (outcome nodes.old a m k) (outcome nodes.old d))) }
{
    let marks = marks_between(nodes, a, d)?;
    let mut memo = Pairs::new(nodes.allocator());
    chained(nodes, groups, ctx, &marks, &mut memo, a, d)
}
