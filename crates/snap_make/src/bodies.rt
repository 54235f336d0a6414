//! The bodies of rows.

ghost use Rattle.std.specs.Prelude.{◌≡◌, IfOk, length, map, slice_index};
ghost use Rattle.std.specs.List.{range_with_len};
ghost use Rattle.snap_diagrams.specs.declared.node.Node.TheVariants.{Leaf as NodeLeaf};
ghost use Rattle.snap_faithful.specs.Shown.{row_of};
ghost use Rattle.snap_make.specs.Fronts.{HasWays, IsNumbered};
ghost use Rattle.snap_make.specs.Shares.{body_of};

use snap_core::NoMemory;
use snap_core::lists::{Outs, Updates};
use snap_core::policy::Test;
use snap_diagrams::leaf::Leaf;
use snap_diagrams::node::Node;
use snap_diagrams::nodes::Nodes;
use snap_faithful::numbering::Numbering;
use snap_rows::tables::Row;
use std::alloc::Global;

fn last_row(alloc: Global, leaf: &Leaf, numbers: &[u64]) -> Result<Row, NoMemory>
    ensures { IfOk result (λ r. r ≡ row_of (slice_index numbers.now) (NodeLeaf leaf.now)) }
{
    match leaf {
        Leaf::Race => Ok(Row::Last {
            ups: Updates::new(Vec::new(alloc)),
            outs: Outs::new(Vec::new(alloc)),
        }),
        Leaf::Go(go) => Ok(Row::Last {
            ups: go.ups.copy(alloc)?,
            outs: go.outs.copy(alloc)?,
        }),
    }
}

// A node as a row.
fn node_row(alloc: Global, node: &Node<Leaf>, numbers: &[u64]) -> Result<Row, NoMemory>
    requires { HasWays (length numbers.now) node.now }
    ensures { IfOk result (λ r. r ≡ row_of (slice_index numbers.now) node.now) }
{
    match node {
        Node::Leaf(leaf) => last_row(alloc, leaf, numbers),
        Node::Ask { test, yes, no } => {
            let copy = test.copy()?;
            let (yes, no) = (numbers[*yes as usize], numbers[*no as usize]);
            match test {
                Test::State { .. } => Ok(Row::State {
                    test: copy,
                    yes,
                    no,
                }),
                Test::Value { .. } | Test::Equal { .. } => Ok(Row::Field {
                    test: copy,
                    yes,
                    no,
                }),
            }
        }
    }
}

/// The rows of all numbers, each the row of its node. Takes time in proportion to the numbers, besides what the copies
/// take. Refuses for memory alone.
pub(crate) fn bodies(
    alloc: Global,
    nodes: &Nodes<Leaf>,
    numbering: &Numbering,
) -> Result<Vec<Row>, NoMemory>
    requires { IsNumbered nodes.now numbering.now.ids.items numbering.now.numbers.items }
    ensures { IfOk result (λ r. r.items ≡ map (body_of nodes.now numbering.now.ids.items numbering.now.numbers.items) (range_with_len 0 (length numbering.now.ids.items))) }
{
    let mut bodies = Vec::with_capacity(alloc, numbering.ids.len())?;
    for number in 0..numbering.ids.len() {
        let node = nodes.get(numbering.ids[number]);
        bodies.push(node_row(alloc, node, &numbering.numbers)?)?;
    }
    Ok(bodies)
}
