//! What the types say of leaves.

ghost use Rattle.std.specs.Prelude.{◌≡◌, Some, ℕ, slice_get};
ghost use Rattle.std.specs.List.{All};
ghost use Rattle.snap_core.specs.declared.policy.Update.{Update};
ghost use Rattle.snap_core.specs.Laws.{OpIsSmall};
ghost use Rattle.snap_core.specs.Tests.{IsRisingOut};
ghost use Rattle.snap_diagrams.specs.declared.node.Node.{Node};
ghost use Rattle.snap_diagrams.specs.Arena.{IsArena};
ghost use Rattle.snap_diagrams.specs.declared.leaf.Leaf.{Leaf};
ghost use Rattle.snap_make.specs.Known.{IsKnown, LeafKnown};

use snap_core::bits::op_is_small;
use snap_core::lists::Out;
use snap_core::policy::Update;
use snap_diagrams::leaf::Leaf;
use snap_diagrams::node::Node;
use snap_diagrams::nodes::Nodes;

fn know_updates(ups: &[Update])
    ensures { All (λ (u : Update). OpIsSmall u.op) ups.now }
{
    for up in ups {
        op_is_small(up.op);
    }
}

fn know_outs(outs: &[Out])
    ensures { All IsRisingOut outs.now }
{
    for out in outs {
        let _parts = out.parts();
    }
}

fn know_leaf(leaf: &Leaf)
    ensures { LeafKnown leaf.now }
{
    match leaf {
        Leaf::Race => {}
        Leaf::Go(go) => {
            know_updates(go.ups.items());
            know_outs(go.outs.items());
        }
    }
}

fn know_node(node: &Node<Leaf>)
    ensures { IsKnown node.now }
{
    match node {
        Node::Leaf(leaf) => know_leaf(leaf),
        Node::Ask { .. } => {}
    }
}

/// In each leaf numbers have 64 bits, and the components of outs rise, as their types say.
pub(crate) fn know_nodes(nodes: &Nodes<Leaf>)
    ensures arena { IsArena nodes.now }
    ensures known { (d : ℕ) (n : Node Leaf) → slice_get nodes.now d ≡ Some n → IsKnown n }
{
    for id in 0..nodes.count() {
        know_node(nodes.get(id));
    }
}
