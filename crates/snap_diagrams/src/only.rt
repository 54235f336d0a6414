//! Diagrams of one leaf.

ghost use Rattle.std.specs.Prelude.{◌≡◌, IfOk};
ghost use Rattle.snap_diagrams.specs.Arena.{ExtendsArena};
ghost use Rattle.snap_diagrams.specs.Bounds.{LeafIn};
ghost use Rattle.snap_diagrams.specs.Diagrams.{diagram, Only};
ghost use Rattle.snap_diagrams.specs.Picks.{sizes, IsWellFormedDiagram};

use crate::leaf::Leaf;
use crate::nodes::Nodes;
use snap_context::context::Context;
use snap_core::NoMemory;
use snap_dep::groups::Groups;

/// The diagram of a leaf. Refuses for memory alone.
pub fn only(
    nodes: &mut Nodes<Leaf>,
    groups: &Groups,
    ctx: &Context,
    leaf: Leaf,
) -> Result<u64, NoMemory>
    requires { LeafIn (sizes groups.now ctx.now) leaf }
    ensures extends_arena { ExtendsArena nodes.old nodes.new }
    ensures is { IfOk result (λ d. diagram nodes.new d ≡ Only leaf) }
    ensures diagram { IfOk result (IsWellFormedDiagram groups.now ctx.now nodes.new) }
{
    nodes.leaf(leaf)
}
