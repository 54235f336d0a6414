//! Which components and arrays a diagram tests: marks of nodes, so that pruning knows which facts matter.

ghost use Rattle.std.specs.Prelude.{◌≡◌, ◌<◌, All, IfOk, IfSome, Some, length, slice_get};
ghost use Rattle.snap_diagrams.specs.Diagrams.{diagram};
ghost use Rattle.snap_diagrams.specs.Tested.{AreTested, TestsOver};

use crate::leaf::Leaf;
use crate::node::Node;
use crate::nodes::Nodes;
use crate::pick::look;
use crate::reach::Reached;
use snap_context::tested::{Tested, either, test_tested};
use snap_core::NoMemory;

/// The mark at a place, where there is one.
pub(crate) fn noted_mark(marks: &[Option<Tested>], place: usize) -> Option<Tested>
    ensures { IfSome result (λ mark. slice_get marks.now place ≡ Some (Some mark)) }
{
    *marks.get(place)?
}

/// The mark of a number, where it has one.
pub(crate) fn mark_at(
    nodes: &Nodes<Leaf>,
    reached: &Reached,
    marks: &[Option<Tested>],
    d: u64,
) -> Option<Tested>
    requires { AreTested nodes.now reached.now.ids.items marks.now }
    ensures { IfSome result (λ mark. TestsOver mark (diagram nodes.now d)) }
{
    *marks.get(reached.place(d)?)?
}

// The mark of a number, by those of its ways.
fn next_tested(
    nodes: &Nodes<Leaf>,
    reached: &Reached,
    marks: &[Option<Tested>],
    d: u64,
) -> Option<Tested>
    requires d { d < length nodes.now }
    requires marks { AreTested nodes.now reached.now.ids.items marks.now }
    ensures { IfSome result (λ mark. TestsOver mark (diagram nodes.now d)) }
{
    match look(nodes, d) {
        Node::Leaf(_) => Some(Tested {
            comps: 0,
            arrays: 0,
        }),
        Node::Ask { test, yes, no } => {
            let yes = mark_at(nodes, reached, marks, *yes)?;
            let no = mark_at(nodes, reached, marks, *no)?;
            Some(either(test_tested(test), either(yes, no)))
        }
    }
}

/// The marks of the numbers that are reached, by their places. Each has one, since its ways stand before it; what
/// is marked may be more than is tested. Refuses for memory alone.
pub(crate) fn mark_tests(
    nodes: &Nodes<Leaf>,
    reached: &Reached,
) -> Result<Vec<Option<Tested>>, NoMemory>
    requires { All (λ d. d < length nodes.now) reached.now.ids.items }
    ensures { IfOk result (λ marks. AreTested nodes.now reached.now.ids.items marks.items) }
{
    let mut marks = Vec::with_capacity(nodes.allocator(), reached.ids.len())?;
    for id in &reached.ids {
        let next = next_tested(nodes, reached, &marks, *id);
        marks.push(next)?;
    }
    Ok(marks)
}
