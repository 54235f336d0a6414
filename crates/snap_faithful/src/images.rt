//! The diagram of tables, in the same arena.

ghost use Rattle.std.specs.Prelude.{◌≡◌, ◌<◌, IfOk, length, slice_index};
ghost use Rattle.snap_diagrams.specs.Arena.{ExtendsArena};
ghost use Rattle.snap_diagrams.specs.Diagrams.{diagram};
ghost use Rattle.snap_faithful.specs.Images.{WaysHaveImages};
ghost use Rattle.snap_faithful.specs.Tidied.{Tidies};

use crate::leaves::tidy_of;
use crate::numbering::number;
use snap_core::NoMemory;
use snap_dep::groups::Groups;
use snap_diagrams::leaf::Leaf;
use snap_diagrams::node::Node;
use snap_diagrams::nodes::Nodes;

fn image_at(images: &[u64], id: u64) -> u64
    requires { id < length images.now }
    ensures { result ≡ slice_index images.now id }
{
    images[id as usize]
}

// The image of a node, by those of its ways.
fn image_of(
    nodes: &mut Nodes<Leaf>,
    groups: &Groups,
    images: &[u64],
    id: u64,
) -> Result<u64, NoMemory>
    requires id { id < length nodes.old }
    requires ways { WaysHaveImages groups.now nodes.old images.now id }
    ensures extends_arena { ExtendsArena nodes.old nodes.new }
    ensures number { IfOk result (λ d. d < length nodes.new) }
    ensures tidied { IfOk result (λ d. Tidies groups.now.ranks (length groups.now.order) (diagram nodes.old id) (diagram nodes.new d)) }
{
    let alloc = nodes.allocator();
    match nodes.get(id) {
        Node::Leaf(leaf) => {
            let tidy = tidy_of(alloc, groups, leaf)?;
            nodes.leaf(tidy)
        }
        Node::Ask { test, yes, no } => {
            let copy = test.copy()?;
            let y = image_at(images, *yes);
            let n = image_at(images, *no);
            nodes.node(copy, y, n)
        }
    }
}

/// The diagram with tidied leaves; tests whose ways become one are left out. The nodes get their images from the leaves up, each
/// after those of its ways, and each once. Takes time and memory in proportion to the arena, beside what the leaves take
/// (`tidy_of`). Refuses for memory alone.
pub fn tidied(nodes: &mut Nodes<Leaf>, groups: &Groups, root: u64) -> Result<u64, NoMemory>
    requires { root < length nodes.old }
    ensures extends_arena { ExtendsArena nodes.old nodes.new }
    ensures number { IfOk result (λ d. d < length nodes.new) }
    ensures tidied { IfOk result (λ d. Tidies groups.now.ranks (length groups.now.order) (diagram nodes.old root) (diagram nodes.new d)) }
{
    let alloc = nodes.allocator();
    let numbered = number(alloc, nodes, root)?;
    let mut images = vec![in alloc; 0u64; nodes.count() as usize]?;
    let count = numbered.ids.len();
    for step in 0..count {
        let id = numbered.ids[count - 1 - step];
        let image = image_of(nodes, groups, &images, id)?;
        images[id as usize] = image;
    }
    Ok(images[root as usize])
}
