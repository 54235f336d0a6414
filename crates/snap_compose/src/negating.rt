//! Predicates turned round.

ghost use Rattle.std.specs.Prelude.{◌≡◌, ◌<◌, ℕ, List, length, IfOk, OnOk, not};
ghost use Rattle.snap_core.specs.Arrays.{Arrays};
ghost use Rattle.snap_diagrams.specs.Arena.{ExtendsArena};
ghost use Rattle.snap_diagrams.specs.Memos.{Remembers};
ghost use Rattle.snap_diagrams.specs.Bounds.{Sizes};
ghost use Rattle.snap_diagrams.specs.Diagrams.{diagram, walk, answer, Only};
ghost use Rattle.snap_diagrams.specs.declared.leaf.Leaf.{Leaf};
ghost use Rattle.snap_diagrams.specs.Picks.{IsDiagram};
ghost use Rattle.snap_compose.specs.Predicates.{IsPredicate, holds, reads, test_answer, negate_leaf, IsNegated};
ghost use Rattle.snap_compose.specs.JoinMemoed.{TurnedFor};

use crate::leaves::negate_of;
use snap_core::NoMemory;
use snap_diagrams::leaf::Leaf;
use snap_diagrams::node::Node;
use snap_diagrams::nodes::Nodes;
use snap_diagrams::pairs::Pairs;
use snap_diagrams::pick::look;
use snap_diagrams::pruning::{Decomposition, part_of};

fn leaf_negated(nodes: &Nodes<Leaf>, a: u64) -> Result<Leaf, NoMemory>
    requires { a < length nodes.now }
    ensures { IfOk result (λ r. (l : Leaf) → diagram nodes.now a ≡ Only l → r ≡ negate_leaf l) }
{
    match look(nodes, a) {
        Node::Ask { .. } => Ok(Leaf::Race),
        Node::Leaf(leaf) => negate_of(nodes.allocator(), leaf),
    }
}

// A predicate turned round, which may be remembered.
#[cycle(negated)]
fn negated(nodes: &mut Nodes<Leaf>, memo: &mut Pairs, a: u64) -> Result<u64, NoMemory>
    requires a { a < length nodes.old }
    requires memo { Remembers (TurnedFor nodes.old) memo.old }
    ensures extends_arena { ExtendsArena nodes.old nodes.new }
    ensures number { IfOk result (λ d. d < length nodes.new) }
    ensures negated { IfOk result (λ d. IsNegated (diagram nodes.old a) (diagram nodes.new d)) }
    ensures memo { OnOk result (Remembers (TurnedFor nodes.new) memo.new) }
{
    if let Some(d) = memo.get(a, 0) {
        return Ok(d);
    }
    let d = negated_anew(nodes, memo, a)?;
    memo.put(a, 0, d)?;
    Ok(d)
}

#[cycle(negated)]
fn negated_anew(nodes: &mut Nodes<Leaf>, memo: &mut Pairs, a: u64) -> Result<u64, NoMemory>
    requires a { a < length nodes.old }
    requires memo { Remembers (TurnedFor nodes.old) memo.old }
    ensures extends_arena { ExtendsArena nodes.old nodes.new }
    ensures number { IfOk result (λ d. d < length nodes.new) }
    ensures negated { IfOk result (λ d. IsNegated (diagram nodes.old a) (diagram nodes.new d)) }
    ensures memo { OnOk result (Remembers (TurnedFor nodes.new) memo.new) }
{
    match part_of(nodes, a)? {
        Decomposition::Whole => {
            let leaf = leaf_negated(nodes, a)?;
            nodes.leaf(leaf)
        }
        Decomposition::Split { test, yes, no } => {
            let y = negated(nodes, memo, yes)?;
            let n = negated(nodes, memo, no)?;
            nodes.node(test, y, n)
        }
    }
}

/// A predicate's negation, with the same reads. The tests stay, so under any groups the order does.
/// Refuses for memory alone.
pub fn negate(nodes: &mut Nodes<Leaf>, a: u64) -> Result<u64, NoMemory>
    requires a { a < length nodes.old }
    requires predicate { IsPredicate nodes.old a }
    ensures extends_arena { ExtendsArena nodes.old nodes.new }
    ensures number { IfOk result (λ d. d < length nodes.new) }
    ensures diagram { IfOk result (λ d. (ranks : List ℕ) (s : Sizes) → IsDiagram ranks s (diagram nodes.old a) → IsDiagram ranks s (diagram nodes.new d)) }
    ensures predicate { IfOk result (IsPredicate nodes.new) }
    ensures walks { IfOk result (λ d. (m : Arrays) (k : List ℕ) → walk (diagram nodes.new d) m k ≡ negate_leaf (walk (diagram nodes.old a) m k)) }
    ensures answer { IfOk result (λ d. (m : Arrays) (k : List ℕ) → answer nodes.new d m k ≡ test_answer (not (holds nodes.old a m k)) (reads nodes.old a m k) k) }
{
    let mut memo = Pairs::new(nodes.allocator());
    negated(nodes, &mut memo, a)
}
