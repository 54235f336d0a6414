//! One of two diagrams, by a predicate.

ghost use Rattle.std.specs.Prelude.{◌≡◌, ◌<◌, ℕ, List, length, IfOk, IsTrue, OnOk};
ghost use Rattle.snap_diagrams.specs.Arena.{ExtendsArena};
ghost use Rattle.snap_diagrams.specs.Memos.{Remembers};
ghost use Rattle.snap_diagrams.specs.Contexts.{Under};
ghost use Rattle.snap_core.specs.Arrays.{Arrays};
ghost use Rattle.snap_diagrams.specs.Diagrams.{diagram, walk, answer, Only};
ghost use Rattle.snap_diagrams.specs.declared.leaf.Leaf.{Leaf};
ghost use Rattle.snap_diagrams.specs.Picks.{sizes, IsWellFormedDiagram};
ghost use Rattle.snap_compose.specs.Predicates.{IsPredicate, passed};
ghost use Rattle.snap_compose.specs.Chosen.{IsChosen, chosen_answer, chosen_leaf};
ghost use Rattle.snap_compose.specs.Joined.{logged_leaf};
ghost use Rattle.snap_compose.specs.JoinMemoed.{DecidedFor, IsAskedChoice};

use crate::joining::combine;
use crate::leaves::How;
use snap_context::context::Context;
use snap_core::NoMemory;
use snap_dep::groups::Groups;
use snap_diagrams::leaf::Leaf;
use snap_diagrams::node::Node;
use snap_diagrams::nodes::Nodes;
use snap_diagrams::pairs::Pairs;
use snap_diagrams::pick::{look, pick};
use snap_diagrams::pruning::{Decomposition, part_of};

// Whether a leaf of a predicate passes the packet.
fn leaf_passes(nodes: &Nodes<Leaf>, x: u64) -> bool
    requires { x < length nodes.now }
    ensures { (l : Leaf) → diagram nodes.now x ≡ Only l → result ≡ passed l }
{
    match look(nodes, x) {
        Node::Ask { .. } => false,
        Node::Leaf(leaf) => match leaf {
            Leaf::Race => false,
            Leaf::Go(go) => !go.outs.items().is_empty(),
        },
    }
}

// Whether a leaf of a predicate reads nothing, so that it adds nothing to what is chosen by it.
fn reads_nothing(nodes: &Nodes<Leaf>, x: u64) -> bool
    requires { x < length nodes.now }
    ensures { IsTrue result → (l : Leaf) → diagram nodes.now x ≡ Only l → (y : Leaf) → logged_leaf l y ≡ y }
{
    match look(nodes, x) {
        Node::Ask { .. } => false,
        Node::Leaf(leaf) => match leaf {
            Leaf::Race => false,
            Leaf::Go(go) => go.reads == 0,
        },
    }
}

// A choice, which may be remembered.
#[cycle(chosen)]
fn chosen(
    nodes: &mut Nodes<Leaf>,
    groups: &Groups,
    ctx: &Context,
    memo: &mut Pairs,
    x: u64,
    p: u64,
    q: u64,
) -> Result<u64, NoMemory>
    requires { IsAskedChoice groups.now ctx.now nodes.old memo.old x p q }
    ensures extends_arena { ExtendsArena nodes.old nodes.new }
    ensures number { IfOk result (λ d. d < length nodes.new) }
    ensures chosen { IfOk result (λ d. IsChosen groups.now.ranks (sizes groups.now ctx.now) (diagram nodes.old x) (diagram nodes.old p) (diagram nodes.old q) (diagram nodes.new d)) }
    ensures memo { OnOk result (Remembers (DecidedFor groups.now.ranks (sizes groups.now ctx.now) nodes.new p q) memo.new) }
{
    if let Some(d) = memo.get(x, 0) {
        return Ok(d);
    }
    let d = chosen_anew(nodes, groups, ctx, memo, x, p, q)?;
    memo.put(x, 0, d)?;
    Ok(d)
}

#[cycle(chosen)]
fn chosen_anew(
    nodes: &mut Nodes<Leaf>,
    groups: &Groups,
    ctx: &Context,
    memo: &mut Pairs,
    x: u64,
    p: u64,
    q: u64,
) -> Result<u64, NoMemory>
    requires { IsAskedChoice groups.now ctx.now nodes.old memo.old x p q }
    ensures extends_arena { ExtendsArena nodes.old nodes.new }
    ensures number { IfOk result (λ d. d < length nodes.new) }
    ensures chosen { IfOk result (λ d. IsChosen groups.now.ranks (sizes groups.now ctx.now) (diagram nodes.old x) (diagram nodes.old p) (diagram nodes.old q) (diagram nodes.new d)) }
    ensures memo { OnOk result (Remembers (DecidedFor groups.now.ranks (sizes groups.now ctx.now) nodes.new p q) memo.new) }
{
    match part_of(nodes, x)? {
        Decomposition::Whole => {
            let branch = if leaf_passes(nodes, x) { p } else { q };
            if reads_nothing(nodes, x) {
                // (to go down the branch here would make chains of choices quadratic)
                return Ok(branch);
            }
            combine(nodes, groups, ctx, How::Logged, x, branch)
        }
        Decomposition::Split { test, yes, no } => {
            let y = chosen(nodes, groups, ctx, memo, yes, p, q)?;
            let n = chosen(nodes, groups, ctx, memo, no, p, q)?;
            pick(nodes, groups, ctx, &test, y, n)
        }
    }
}

/// One of two diagrams: the answer is that of `p` where the predicate `x` is true, and else that of
/// `q`, with the reads of the predicate. Refuses for memory alone.
pub fn choose(
    nodes: &mut Nodes<Leaf>,
    groups: &Groups,
    ctx: &Context,
    x: u64,
    p: u64,
    q: u64,
) -> Result<u64, NoMemory>
    requires x { IsWellFormedDiagram groups.now ctx.now nodes.old x }
    requires predicate { IsPredicate nodes.old x }
    requires p { IsWellFormedDiagram groups.now ctx.now nodes.old p }
    requires q { IsWellFormedDiagram groups.now ctx.now nodes.old q }
    ensures extends_arena { ExtendsArena nodes.old nodes.new }
    ensures diagram { IfOk result (IsWellFormedDiagram groups.now ctx.now nodes.new) }
    ensures walks { IfOk result (λ d. (m : Arrays) (k : List ℕ) → walk (diagram nodes.new d) m k ≡ chosen_leaf (diagram nodes.old x) (diagram nodes.old p) (diagram nodes.old q) m k) }
    ensures answer { IfOk result (λ d. Under ctx.now (λ m k. answer nodes.new d m k ≡ chosen_answer nodes.old x p q m k)) }
{
    let mut memo = Pairs::new(nodes.allocator());
    chosen(nodes, groups, ctx, &mut memo, x, p, q)
}
