//! The numbers to which a packet may come by field rows alone.

ghost use Rattle.std.specs.Prelude.{◌≡◌, ◌<◌, ◌+◌, ℕ, IfOk, Option, length, slice_index};
ghost use Rattle.snap_rows.specs.declared.tables.Row.{Row};
ghost use Rattle.snap_faithful.specs.Generated.{numbered_nodes};
ghost use Rattle.snap_make.specs.Fronts.{AreMarked, AreWithin, HasWays, IsNumbered, with_fields};

use snap_core::NoMemory;
use snap_core::policy::Test;
use snap_diagrams::leaf::Leaf;
use snap_diagrams::node::Node;
use snap_diagrams::nodes::Nodes;
use snap_faithful::numbering::Numbering;
use std::alloc::Global;

// Marks the ways of a node that tests fields.
fn mark_ways(marks: &mut Vec<bool>, node: &Node<Leaf>, numbers: &[u64])
    requires ways { HasWays (length numbers.now) node.now }
    requires numbers { AreWithin (slice_index numbers.now) (length marks.old.items) node.now }
    ensures { marks.new.items ≡ with_fields (slice_index numbers.now) node.now marks.old.items }
{
    if let Node::Ask { test, yes, no } = node {
        match test {
            Test::State { .. } => {}
            Test::Value { .. } | Test::Equal { .. } => {
                marks[numbers[*yes as usize] as usize] = true;
                marks[numbers[*no as usize] as usize] = true;
            }
        }
    }
}

// Marks the ways of a number's node, where it tests fields.
fn mark_number(marks: &mut Vec<bool>, nodes: &Nodes<Leaf>, numbering: &Numbering, number: usize)
    requires numbered { IsNumbered nodes.now numbering.now.ids.items numbering.now.numbers.items }
    requires low { number < length numbering.now.ids.items }
    requires before { AreMarked (numbered_nodes nodes.now numbering.now.ids.items (slice_index numbering.now.numbers.items)) number (length numbering.now.ids.items) marks.old.items }
    ensures { AreMarked (numbered_nodes nodes.now numbering.now.ids.items (slice_index numbering.now.numbers.items)) (number + 1) (length numbering.now.ids.items) marks.new.items }
{
    let node = nodes.get(numbering.ids[number]);
    mark_ways(marks, node, &numbering.numbers);
}

// The mark of the root, among so many.
fn root_mark(alloc: Global, many: usize) -> Result<Vec<bool>, NoMemory>
    requires { 0 < many }
    ensures { IfOk result (λ r. (nodes : ℕ → Option Row) → AreMarked nodes 0 many r.items) }
{
    let mut marks = vec![in alloc; false; many]?;
    marks[0] = true;
    Ok(marks)
}

/// Marks of the root and of the numbers that come next to a test of fields. Takes time in proportion to the numbers.
/// Refuses for memory alone.
pub(crate) fn fronts(
    alloc: Global,
    nodes: &Nodes<Leaf>,
    numbering: &Numbering,
) -> Result<Vec<bool>, NoMemory>
    requires { IsNumbered nodes.now numbering.now.ids.items numbering.now.numbers.items }
    ensures { IfOk result (λ r. AreMarked (numbered_nodes nodes.now numbering.now.ids.items (slice_index numbering.now.numbers.items)) (length numbering.now.ids.items) (length numbering.now.ids.items) r.items) }
{
    let mut marks = root_mark(alloc, numbering.ids.len())?;
    for number in 0..numbering.ids.len() {
        mark_number(&mut marks, nodes, numbering, number);
    }
    Ok(marks)
}
