//! Whether leaves do the same.

ghost use Rattle.std.specs.Prelude.{◌≤◌, MatchResult};
ghost use Rattle.snap_equal.specs.Inputs.{IsLeaf, space};
ghost use Rattle.snap_equal.specs.Leaves.{LeavesDoSame};
ghost use Rattle.snap_equal.specs.Told.{IsStop, Decides};

use crate::outs::same_packets;
use crate::stop::Stop;
use crate::stores::same_stores;
use snap_context::context::Context;
use snap_diagrams::leaf::Leaf;
use std::alloc::Global;

/// Whether two leaves do the same.
pub(crate) fn same_leaves(
    alloc: Global,
    ctx: &Context,
    arrays: u16,
    left: &Leaf,
    right: &Leaf,
) -> Result<bool, Stop>
    requires few { arrays ≤ 64 }
    requires left { IsLeaf (space ctx.now arrays) left.now }
    requires right { IsLeaf (space ctx.now arrays) right.now }
    ensures { MatchResult result (Decides ctx.now (LeavesDoSame left.now right.now)) (IsStop ctx.now arrays) }
{
    match left {
        Leaf::Race => Ok(true),
        Leaf::Go(first) => match right {
            Leaf::Race => Ok(true),
            Leaf::Go(second) => {
                if !same_packets(alloc, ctx, first.outs.items(), second.outs.items())? {
                    return Ok(false);
                }
                same_stores(alloc, ctx, arrays, first.ups.items(), second.ups.items())
            }
        },
    }
}
