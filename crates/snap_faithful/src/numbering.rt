//! Numbers for the nodes of a diagram.

ghost use Rattle.std.specs.Prelude.{◌≡◌, ◌<◌, IfOk, length, slice_index};
ghost use Rattle.snap_diagrams.specs.Arena.{IsArena, IsLower};
ghost use Rattle.snap_faithful.specs.Marked.{with_ways};
ghost use Rattle.snap_faithful.specs.Shown.{IsNumbering};

use snap_core::NoMemory;
use snap_diagrams::leaf::Leaf;
use snap_diagrams::node::Node;
use snap_diagrams::nodes::Nodes;
use std::alloc::Global;

/// Numbers for the nodes below a root: 0 is the root's, and they rise along each way, since each node of an arena stands behind its ways.
#[derive(Drop)]
pub struct Numbering {
    /// The node of each number.
    pub ids: Vec<u64>,
    /// The number of each node that is below the root; 0 for the others.
    pub numbers: Vec<u64>,
}

// Marks the ways of a node.
fn mark_ways(reached: &mut Vec<bool>, node: &Node<Leaf>)
    requires { IsLower (length reached.old.items) node.now }
    ensures { reached.new.items ≡ with_ways node.now reached.old.items }
{
    match node {
        Node::Leaf(_) => {}
        Node::Ask { test: _, yes, no } => {
            reached[*yes as usize] = true;
            reached[*no as usize] = true;
        }
    }
}

/// Numbers for the nodes below a root. Takes time and memory in proportion to the arena. Refuses for memory alone.
pub fn number(alloc: Global, nodes: &Nodes<Leaf>, root: u64) -> Result<Numbering, NoMemory>
    requires { root < length nodes.now }
    ensures numbering { IfOk result (λ r. IsNumbering nodes.now root r.ids.items (slice_index r.numbers.items)) }
    ensures arena { IsArena nodes.now }
    ensures wide { IfOk result (λ r. length r.numbers.items ≡ length nodes.now) }
{
    let count = nodes.count() as usize;
    let mut reached = vec![in alloc; false; count]?;
    let mut numbers = vec![in alloc; 0u64; count]?;
    let mut ids = Vec::new(alloc);
    reached[root as usize] = true;
    for step in 0..count {
        let id = count - 1 - step;
        if reached[id] {
            numbers[id] = ids.len() as u64;
            ids.push(id as u64)?;
            mark_ways(&mut reached, nodes.get(id as u64));
        }
    }
    Ok(Numbering { ids, numbers })
}
