//! Diagrams of one shape whose leaves do the same.

ghost use Rattle.std.specs.Prelude.{◌≡◌, ◌<◌, ◌≤◌, IfOk, OnOk, [], length, true};
ghost use Rattle.snap_diagrams.specs.Diagrams.{Only, diagram};
ghost use Rattle.snap_equal.specs.Inputs.{IsComparable, IsLeaf, space};
ghost use Rattle.snap_equal.specs.Leaves.{AlwaysDoSame, ArePairsKnown};

use crate::leaves::same_leaves;
use crate::stop::Stop;
use snap_context::context::Context;
use snap_core::NoMemory;
use snap_diagrams::equal::same_test;
use snap_diagrams::leaf::Leaf;
use snap_diagrams::node::Node;
use snap_diagrams::nodes::Nodes;
use snap_diagrams::numbers::Numbers;
use snap_diagrams::pick::look;

/// Whether two diagrams ask the same tests and, without any, their leaves do the same. Each pair of numbers is looked at
/// once: 1 stands for those of which that is so.
#[cycle(agree)]
pub(crate) fn agree(
    known: &mut Numbers,
    plain: &Context,
    arrays: u16,
    left: &Nodes<Leaf>,
    first: u64,
    right: &Nodes<Leaf>,
    second: u64,
) -> Result<bool, NoMemory>
    requires few { arrays ≤ 64 }
    requires plain { plain.now.facts ≡ [] }
    requires first { first < length left.now }
    requires second { second < length right.now }
    requires left { IsComparable (space plain.now arrays) (diagram left.now first) }
    requires right { IsComparable (space plain.now arrays) (diagram right.now second) }
    requires known { ArePairsKnown (length plain.now.classes) left.now right.now known.old }
    ensures agree { IfOk result (λ yes. yes ≡ true → AlwaysDoSame (length plain.now.classes) (diagram left.now first) (diagram right.now second)) }
    ensures known { OnOk result (ArePairsKnown (length plain.now.classes) left.now right.now known.new) }
{
    if let Some(number) = known.get(&[first, second]) {
        return Ok(number == 1);
    }
    let yes = agree_anew(known, plain, arrays, left, first, right, second)?;
    known.put(vec![in left.allocator(); first, second]?, yes as u64)?;
    Ok(yes)
}

#[cycle(agree)]
fn agree_anew(
    known: &mut Numbers,
    plain: &Context,
    arrays: u16,
    left: &Nodes<Leaf>,
    first: u64,
    right: &Nodes<Leaf>,
    second: u64,
) -> Result<bool, NoMemory>
    requires few { arrays ≤ 64 }
    requires plain { plain.now.facts ≡ [] }
    requires first { first < length left.now }
    requires second { second < length right.now }
    requires left { IsComparable (space plain.now arrays) (diagram left.now first) }
    requires right { IsComparable (space plain.now arrays) (diagram right.now second) }
    requires known { ArePairsKnown (length plain.now.classes) left.now right.now known.old }
    ensures agree { IfOk result (λ yes. yes ≡ true → AlwaysDoSame (length plain.now.classes) (diagram left.now first) (diagram right.now second)) }
    ensures known { OnOk result (ArePairsKnown (length plain.now.classes) left.now right.now known.new) }
{
    match look(left, first) {
        Node::Leaf(leaf) => match look(right, second) {
            Node::Ask { .. } => Ok(false),
            Node::Leaf(other) => leaves_agree(plain, arrays, left, leaf, other),
        },
        Node::Ask { test, yes, no } => match look(right, second) {
            Node::Leaf(_) => Ok(false),
            Node::Ask {
                test: t,
                yes: y,
                no: n,
            } => {
                if !same_test(test, t) {
                    return Ok(false);
                }
                Ok(
                    agree(known, plain, arrays, left, *yes, right, *y)?
                        && agree(known, plain, arrays, left, *no, right, *n)?,
                )
            }
        },
    }
}

// Whether two leaves do the same, without any test.
fn leaves_agree(
    plain: &Context,
    arrays: u16,
    nodes: &Nodes<Leaf>,
    left: &Leaf,
    right: &Leaf,
) -> Result<bool, NoMemory>
    requires few { arrays ≤ 64 }
    requires plain { plain.now.facts ≡ [] }
    requires left { IsLeaf (space plain.now arrays) left.now }
    requires right { IsLeaf (space plain.now arrays) right.now }
    ensures { IfOk result (λ yes. yes ≡ true → AlwaysDoSame (length plain.now.classes) (Only left.now) (Only right.now)) }
{
    match same_leaves(nodes.allocator(), plain, arrays, left, right) {
        Ok(yes) => Ok(yes),
        Err(Stop::Split(_)) => Ok(false),
        Err(Stop::NoMemory) => Err(NoMemory),
    }
}
