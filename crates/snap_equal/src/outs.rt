//! Whether outs make the same packets.

ghost use Rattle.std.specs.Prelude.{◌≡◌, All, MatchResult, length};
ghost use Rattle.snap_core.specs.Tests.{OutFits, after_out, results};
ghost use Rattle.snap_equal.specs.Made.{AreSpelled, Makes, MakesAll};
ghost use Rattle.snap_equal.specs.Told.{IsStop, Decides};

use crate::spelling::{atom_in, is_spelled, spellings};
use crate::stop::Stop;
use crate::terms::same_atoms;
use snap_context::context::Context;
use snap_core::lists::Out;
use snap_diagrams::numbers::Numbers;
use std::alloc::Global;

// Whether two outs make the same packet.
fn same_out(ctx: &Context, left: &Out, right: &Out) -> Result<bool, Stop>
    requires left { OutFits (length ctx.now.classes) left.now }
    requires right { OutFits (length ctx.now.classes) right.now }
    ensures { MatchResult result (Decides ctx.now (λ m k. after_out left.now k ≡ after_out right.now k)) (IsStop ctx.now 0) }
{
    let comps = ctx.comps();
    let mut open = None;
    for comp in 0..comps {
        let first = atom_in(left.parts(), comp, comps);
        let second = atom_in(right.parts(), comp, comps);
        match same_atoms(ctx, first, second) {
            Ok(true) => {}
            Ok(false) => return Ok(false),
            Err(Stop::NoMemory) => return Err(Stop::NoMemory),
            Err(Stop::Split(test)) => open = Some(test),
        }
    }
    match open {
        None => Ok(true),
        Some(test) => Err(Stop::Split(test)),
    }
}

// Whether one of the outs makes the packet that an out makes. One that is spelled as it needs no look at the others.
fn has_out(
    alloc: Global,
    ctx: &Context,
    outs: &[Out],
    spelled: &Numbers,
    out: &Out,
) -> Result<bool, Stop>
    requires outs { All (OutFits (length ctx.now.classes)) outs.now }
    requires spelled { AreSpelled ctx.now outs.now spelled.now }
    requires out { OutFits (length ctx.now.classes) out.now }
    ensures { MatchResult result (Decides ctx.now (λ m k. Makes outs.now k (after_out out.now k))) (IsStop ctx.now 0) }
{
    if is_spelled(alloc, ctx, outs, spelled, out)? {
        return Ok(true);
    }
    for other in outs {
        if same_out(ctx, other, out)? {
            return Ok(true);
        }
    }
    Ok(false)
}

// Whether each packet that outs make is made by others, whose spellings are known. What is open of one out is asked
// before the outs behind it are looked at.
fn has_each(
    alloc: Global,
    ctx: &Context,
    outs: &[Out],
    others: &[Out],
    spelled: &Numbers,
) -> Result<bool, Stop>
    requires outs { All (OutFits (length ctx.now.classes)) outs.now }
    requires others { All (OutFits (length ctx.now.classes)) others.now }
    requires spelled { AreSpelled ctx.now others.now spelled.now }
    ensures { MatchResult result (Decides ctx.now (λ m k. MakesAll outs.now others.now k)) (IsStop ctx.now 0) }
{
    for out in outs {
        if !has_out(alloc, ctx, others, spelled, out)? {
            return Ok(false);
        }
    }
    Ok(true)
}

// Whether each packet that outs make is made by others.
fn has_all(alloc: Global, ctx: &Context, outs: &[Out], others: &[Out]) -> Result<bool, Stop>
    requires outs { All (OutFits (length ctx.now.classes)) outs.now }
    requires others { All (OutFits (length ctx.now.classes)) others.now }
    ensures { MatchResult result (Decides ctx.now (λ m k. MakesAll outs.now others.now k)) (IsStop ctx.now 0) }
{
    let spelled = spellings(alloc, ctx, others)?;
    has_each(alloc, ctx, outs, others, &spelled)
}

/// Whether outs make the same set of packets.
pub(crate) fn same_packets(
    alloc: Global,
    ctx: &Context,
    left: &[Out],
    right: &[Out],
) -> Result<bool, Stop>
    requires left { All (OutFits (length ctx.now.classes)) left.now }
    requires right { All (OutFits (length ctx.now.classes)) right.now }
    ensures { MatchResult result (Decides ctx.now (λ m k. results left.now k ≡ results right.now k)) (IsStop ctx.now 0) }
{
    if !has_all(alloc, ctx, left, right)? {
        return Ok(false);
    }
    has_all(alloc, ctx, right, left)
}
