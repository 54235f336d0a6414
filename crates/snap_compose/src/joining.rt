//! Two diagrams combined: side by side, and predicates.

ghost use Rattle.std.specs.Prelude.{◌≡◌, ◌<◌, ℕ, List, length, IfOk, OnOk, ◌&&◌, ◌||◌};
ghost use Rattle.snap_diagrams.specs.Arena.{ExtendsArena};
ghost use Rattle.snap_diagrams.specs.Memos.{Remembers};
ghost use Rattle.snap_diagrams.specs.Contexts.{Under};
ghost use Rattle.snap_core.specs.Arrays.{Arrays};
ghost use Rattle.snap_diagrams.specs.Diagrams.{diagram, walk, answer};
ghost use Rattle.snap_diagrams.specs.Picks.{sizes, IsWellFormedDiagram};
ghost use Rattle.snap_compose.specs.Beside.{beside};
ghost use Rattle.snap_compose.specs.Predicates.{IsPredicate, holds, reads_of_both, test_answer};
ghost use Rattle.snap_compose.specs.Joined.{IsJoined, IsStart, beside_leaf, both_leaf, either_leaf};
ghost use Rattle.snap_compose.specs.JoinMemoed.{CombinedFor, IsAskedJoin};

use crate::leaves::{How, combine_leaves};
use snap_context::context::Context;
use snap_core::NoMemory;
use snap_core::policy::Test;
use snap_dep::groups::Groups;
use snap_diagrams::leaf::Leaf;
use snap_diagrams::node::Node;
use snap_diagrams::nodes::Nodes;
use snap_diagrams::pairs::Pairs;
use snap_diagrams::pick::{ask, look, lower, side};

/// How two diagrams begin: both are leaves, or a test comes first.
#[derive(Drop)]
pub enum Start {
    Leaves(Leaf),
    First(Test),
}

fn begin(
    nodes: &Nodes<Leaf>,
    groups: &Groups,
    ctx: &Context,
    how: How,
    a: u64,
    b: u64,
) -> Result<Start, NoMemory>
    requires a { IsWellFormedDiagram groups.now ctx.now nodes.now a }
    requires b { IsWellFormedDiagram groups.now ctx.now nodes.now b }
    ensures { IfOk result (IsStart how groups.now.ranks (sizes groups.now ctx.now) (diagram nodes.now a) (diagram nodes.now b)) }
{
    match look(nodes, a) {
        Node::Ask {
            test,
            yes: _,
            no: _,
        } => {
            let first = lower(nodes, groups, ctx, test, b).copy()?;
            Ok(Start::First(first))
        }
        Node::Leaf(left) => match look(nodes, b) {
            Node::Ask {
                test,
                yes: _,
                no: _,
            } => {
                let copy = test.copy()?;
                Ok(Start::First(copy))
            }
            Node::Leaf(right) => {
                let leaf = combine_leaves(nodes.allocator(), how, left, right)?;
                Ok(Start::Leaves(leaf))
            }
        },
    }
}

/// Two diagrams combined leaf by leaf. Refuses for memory alone.
pub fn combine(
    nodes: &mut Nodes<Leaf>,
    groups: &Groups,
    ctx: &Context,
    how: How,
    a: u64,
    b: u64,
) -> Result<u64, NoMemory>
    requires a { IsWellFormedDiagram groups.now ctx.now nodes.old a }
    requires b { IsWellFormedDiagram groups.now ctx.now nodes.old b }
    ensures extends_arena { ExtendsArena nodes.old nodes.new }
    ensures number { IfOk result (λ d. d < length nodes.new) }
    ensures joined { IfOk result (λ d. IsJoined groups.now.ranks (sizes groups.now ctx.now) how (diagram nodes.old a) (diagram nodes.old b) (diagram nodes.new d)) }
{
    let mut memo = Pairs::new(nodes.allocator());
    combined(nodes, groups, ctx, how, &mut memo, a, b)
}

// Two diagrams combined, which may be remembered.
#[cycle(combined)]
fn combined(
    nodes: &mut Nodes<Leaf>,
    groups: &Groups,
    ctx: &Context,
    how: How,
    memo: &mut Pairs,
    a: u64,
    b: u64,
) -> Result<u64, NoMemory>
    requires { IsAskedJoin groups.now ctx.now how nodes.old memo.old a b }
    ensures extends_arena { ExtendsArena nodes.old nodes.new }
    ensures number { IfOk result (λ d. d < length nodes.new) }
    ensures joined { IfOk result (λ d. IsJoined groups.now.ranks (sizes groups.now ctx.now) how (diagram nodes.old a) (diagram nodes.old b) (diagram nodes.new d)) }
    ensures memo { OnOk result (Remembers (CombinedFor groups.now.ranks (sizes groups.now ctx.now) how nodes.new) memo.new) }
{
    if let Some(d) = memo.get(a, b) {
        return Ok(d);
    }
    let d = combined_anew(nodes, groups, ctx, how, memo, a, b)?;
    memo.put(a, b, d)?;
    Ok(d)
}

#[cycle(combined)]
fn combined_anew(
    nodes: &mut Nodes<Leaf>,
    groups: &Groups,
    ctx: &Context,
    how: How,
    memo: &mut Pairs,
    a: u64,
    b: u64,
) -> Result<u64, NoMemory>
    requires { IsAskedJoin groups.now ctx.now how nodes.old memo.old a b }
    ensures extends_arena { ExtendsArena nodes.old nodes.new }
    ensures number { IfOk result (λ d. d < length nodes.new) }
    ensures joined { IfOk result (λ d. IsJoined groups.now.ranks (sizes groups.now ctx.now) how (diagram nodes.old a) (diagram nodes.old b) (diagram nodes.new d)) }
    ensures memo { OnOk result (Remembers (CombinedFor groups.now.ranks (sizes groups.now ctx.now) how nodes.new) memo.new) }
{
    match begin(nodes, groups, ctx, how, a, b)? {
        Start::Leaves(leaf) => nodes.leaf(leaf),
        Start::First(first) => {
            let ay = side(nodes, a, &first, true);
            let by = side(nodes, b, &first, true);
            let an = side(nodes, a, &first, false);
            let bn = side(nodes, b, &first, false);
            let y = combined(nodes, groups, ctx, how, memo, ay, by)?;
            let n = combined(nodes, groups, ctx, how, memo, an, bn)?;
            ask(nodes, groups, ctx, first, y, n)
        }
    }
}

/// Two diagrams side by side: the answer is that of the parallel rule, undefined where one is or
/// where they clash. Each store is merged by the sets of variables written.
/// Refuses for memory alone.
pub fn join(
    nodes: &mut Nodes<Leaf>,
    groups: &Groups,
    ctx: &Context,
    a: u64,
    b: u64,
) -> Result<u64, NoMemory>
    requires a { IsWellFormedDiagram groups.now ctx.now nodes.old a }
    requires b { IsWellFormedDiagram groups.now ctx.now nodes.old b }
    ensures extends_arena { ExtendsArena nodes.old nodes.new }
    ensures diagram { IfOk result (IsWellFormedDiagram groups.now ctx.now nodes.new) }
    ensures walks { IfOk result (λ d. (m : Arrays) (k : List ℕ) → walk (diagram nodes.new d) m k ≡ beside_leaf (walk (diagram nodes.old a) m k) (walk (diagram nodes.old b) m k)) }
    ensures answer { IfOk result (λ d. Under ctx.now (λ m k. answer nodes.new d m k ≡ beside (answer nodes.old a m k) (answer nodes.old b m k))) }
{
    combine(nodes, groups, ctx, How::Beside, a, b)
}

/// Two predicates, both of them, with united reads. Refuses for memory alone.
pub fn both(
    nodes: &mut Nodes<Leaf>,
    groups: &Groups,
    ctx: &Context,
    a: u64,
    b: u64,
) -> Result<u64, NoMemory>
    requires a { IsWellFormedDiagram groups.now ctx.now nodes.old a }
    requires b { IsWellFormedDiagram groups.now ctx.now nodes.old b }
    requires first { IsPredicate nodes.old a }
    requires second { IsPredicate nodes.old b }
    ensures extends_arena { ExtendsArena nodes.old nodes.new }
    ensures diagram { IfOk result (IsWellFormedDiagram groups.now ctx.now nodes.new) }
    ensures predicate { IfOk result (IsPredicate nodes.new) }
    ensures walks { IfOk result (λ d. (m : Arrays) (k : List ℕ) → walk (diagram nodes.new d) m k ≡ both_leaf (walk (diagram nodes.old a) m k) (walk (diagram nodes.old b) m k)) }
    ensures answer { IfOk result (λ d. Under ctx.now (λ m k. answer nodes.new d m k ≡ test_answer (holds nodes.old a m k && holds nodes.old b m k) (reads_of_both nodes.old a b m k) k)) }
{
    combine(nodes, groups, ctx, How::AndBoth, a, b)
}

/// Two predicates, one of them or both, with united reads. Refuses for memory alone.
pub fn either(
    nodes: &mut Nodes<Leaf>,
    groups: &Groups,
    ctx: &Context,
    a: u64,
    b: u64,
) -> Result<u64, NoMemory>
    requires a { IsWellFormedDiagram groups.now ctx.now nodes.old a }
    requires b { IsWellFormedDiagram groups.now ctx.now nodes.old b }
    requires first { IsPredicate nodes.old a }
    requires second { IsPredicate nodes.old b }
    ensures extends_arena { ExtendsArena nodes.old nodes.new }
    ensures diagram { IfOk result (IsWellFormedDiagram groups.now ctx.now nodes.new) }
    ensures predicate { IfOk result (IsPredicate nodes.new) }
    ensures walks { IfOk result (λ d. (m : Arrays) (k : List ℕ) → walk (diagram nodes.new d) m k ≡ either_leaf (walk (diagram nodes.old a) m k) (walk (diagram nodes.old b) m k)) }
    ensures answer { IfOk result (λ d. Under ctx.now (λ m k. answer nodes.new d m k ≡ test_answer (holds nodes.old a m k || holds nodes.old b m k) (reads_of_both nodes.old a b m k) k)) }
{
    combine(nodes, groups, ctx, How::OrEither, a, b)
}
