//! Updates that do the same in another order.

ghost use Rattle.std.specs.Prelude.{◌≡◌, ◌<◌, ◌≤◌, ℕ, All, IfOk, IfSome, drop, length};
ghost use Rattle.std.specs.List.{remove};
ghost use Rattle.snap_core.specs.Arrays.{Arrays, update, updates};
ghost use Rattle.snap_equal.specs.Inputs.{AreOf, IsUpdate};
ghost use Rattle.snap_equal.specs.Told.{On};

use crate::places::{commute, reads_update};
use snap_context::context::Context;
use snap_core::NoMemory;
use snap_core::policy::{Update, copy_updates};
use std::alloc::Global;

// Which of several updates does what this one does and may be done behind all others, as far as a context tells at once.
fn found_last(ctx: &Context, list: &[Update], wanted: &Update) -> Option<usize>
    requires list { All (IsUpdate (length ctx.now.classes)) list.now }
    requires wanted { IsUpdate (length ctx.now.classes) wanted.now }
    ensures below { IfSome result (λ i. i < length list.now) }
    ensures last { IfSome result (λ i. On ctx.now (λ m k. (n : Arrays) → updates n list.now k ≡ update (updates n (remove list.now i) k) wanted.now k)) }
{
    for i in (0..list.len()).rev() {
        if reads_update(ctx, &list[i], wanted) {
            return Some(i);
        }
        if !commute(ctx, wanted, &list[i]) {
            return None;
        }
    }
    None
}

/// What is left of two lists of updates without those that are done last in both: so many of the first list, and these
/// of the second.
pub(crate) fn unmatched(
    alloc: Global,
    ctx: &Context,
    left: &[Update],
    right: &[Update],
) -> Result<(usize, Vec<Update>), NoMemory>
    requires left { All (IsUpdate (length ctx.now.classes)) left.now }
    requires right { All (IsUpdate (length ctx.now.classes)) right.now }
    ensures few { IfOk result (λ r. r.0 ≤ length left.now) }
    ensures fits { IfOk result (λ r. All (IsUpdate (length ctx.now.classes)) r.1.items) }
    ensures arrays { (arrays : ℕ) → AreOf arrays right.now → IfOk result (λ r. AreOf arrays r.1.items) }
    ensures rest { IfOk result (λ r. On ctx.now (λ m k. updates m right.now k ≡ updates (updates m r.1.items k) (drop r.0 left.now) k)) }
{
    let mut count = left.len();
    let mut rest = copy_updates(alloc, right)?;
    while count > 0 {
        let last = count - 1;
        let Some(i) = found_last(ctx, &rest, &left[last]) else {
            return Ok((count, rest));
        };
        drop(rest.remove(i));
        count = last;
    }
    Ok((count, rest))
}
