//! Marks of nodes: what their diagrams name, how high they are, and whether several ways lead to them.

ghost use Rattle.std.specs.Prelude.{◌≡◌, ◌<◌, length};

use crate::names::{NOTHING, Names, either, leaf_names, test_names};
use snap_core::NoMemory;
use snap_diagrams::leaf::Leaf;
use snap_diagrams::node::Node;
use snap_diagrams::nodes::Nodes;
use snap_diagrams::pick::look;

/// What a diagram names, and how many tests stand on its longest path.
#[derive(Clone, Copy)]
struct Mark {
    names: Names,
    height: u64,
}

/// The marks of the nodes below a root, and which of them several ways lead to.
#[derive(Drop)]
pub(crate) struct Marks {
    marks: Vec<Mark>,
    joined: Vec<bool>,
}

// The mark of a number, and of none that names nothing.
fn mark_at(marks: &[Mark], id: u64) -> Mark {
    match marks.get(id as usize) {
        Some(mark) => *mark,
        None => Mark {
            names: NOTHING,
            height: 0,
        },
    }
}

// The mark of a node, by those before it.
fn next_mark(marks: &[Mark], node: &Node<Leaf>) -> Mark {
    match node {
        Node::Leaf(leaf) => Mark {
            names: leaf_names(leaf),
            height: 0,
        },
        Node::Ask { test, yes, no } => {
            let (yes, no) = (mark_at(marks, *yes), mark_at(marks, *no));
            Mark {
                names: either(test_names(test), either(yes.names, no.names)),
                height: yes.height.max(no.height).saturating_add(1),
            }
        }
    }
}

fn all_marks(nodes: &Nodes<Leaf>, root: u64) -> Result<Vec<Mark>, NoMemory>
    requires { root < length nodes.now }
{
    let _count = nodes.count();
    let mut marks = Vec::new(nodes.allocator());
    for id in 0..root + 1 {
        let next = next_mark(&marks, look(nodes, id));
        marks.push(next)?;
    }
    Ok(marks)
}

// Notes a number that is met, and one that is met again.
fn meet(once: &mut [bool], again: &mut [bool], id: usize)
    ensures { (length once.new ≡ length once.old) × (length again.new ≡ length again.old) }
{
    if id < once.len() && id < again.len() {
        if once[id] {
            again[id] = true;
        }
        once[id] = true;
    }
}

// Which numbers are ways of several tests that are reached from the root.
fn joined(nodes: &Nodes<Leaf>, root: u64) -> Result<Vec<bool>, NoMemory>
    requires { root < length nodes.now }
{
    let count = nodes.count() as usize;
    let mut reached = vec![in nodes.allocator(); false; count]?;
    let mut again = vec![in nodes.allocator(); false; count]?;
    reached[root as usize] = true;
    for back in 0..count {
        let id = count - 1 - back;
        if reached[id] {
            if let Node::Ask { yes, no, .. } = nodes.get(id as u64) {
                meet(&mut reached, &mut again, *yes as usize);
                meet(&mut reached, &mut again, *no as usize);
            }
        }
    }
    Ok(again)
}

impl Marks {
    /// The marks of the nodes below a root.
    pub(crate) fn new(nodes: &Nodes<Leaf>, root: u64) -> Result<Marks, NoMemory>
        requires { root < length nodes.now }
    {
        let marks = all_marks(nodes, root)?;
        let joined = joined(nodes, root)?;
        Ok(Marks { marks, joined })
    }

    /// What the diagram of a number names.
    pub(crate) fn names(&self, id: u64) -> Names {
        mark_at(&self.marks, id).names
    }

    /// How many tests stand on its longest path.
    pub(crate) fn height(&self, id: u64) -> u64 {
        mark_at(&self.marks, id).height
    }

    /// Whether several ways lead to it.
    pub(crate) fn is_joined(&self, id: u64) -> bool {
        self.joined.get(id as usize) == Some(&true)
    }
}
