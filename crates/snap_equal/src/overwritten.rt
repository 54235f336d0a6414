//! Updates whose places are surely written again, whatever they did.

ghost use Rattle.std.specs.Prelude.{◌≡◌, ℕ, All, IfOk, List, length, true};
ghost use Rattle.snap_core.specs.Arrays.{Arrays, number_after, update, updates};
ghost use Rattle.snap_equal.specs.Inputs.{AreOf, IsUpdate};
ghost use Rattle.snap_equal.specs.Told.{On};

use crate::places::reads_place;
use snap_context::context::Context;
use snap_core::NoMemory;
use snap_core::policy::{Op, Update};
use std::alloc::Global;

// Whether an operation leaves the same number whatever the old one was.
fn is_put(op: Op) -> bool
    ensures { result ≡ true → (x y : ℕ) (k : List ℕ) → number_after op x k ≡ number_after op y k }
{
    match op {
        Op::Put(_) => true,
        Op::Add(_) => false,
    }
}

// Whether one of the updates behind an update puts a number at its place, as far as a context tells at once. No update
// reads what another wrote.
fn is_overwritten(ctx: &Context, before: &Update, behind: &[Update]) -> bool
    requires before { IsUpdate (length ctx.now.classes) before.now }
    requires behind { All (IsUpdate (length ctx.now.classes)) behind.now }
    ensures { result ≡ true → On ctx.now (λ m k. (n : Arrays) → updates (update n before.now k) behind.now k ≡ updates n behind.now k) }
{
    for other in behind {
        if is_put(other.op) && reads_place(ctx, other, before) {
            return true;
        }
    }
    false
}

/// The updates without those that are surely overwritten.
pub(crate) fn standing(
    alloc: Global,
    ctx: &Context,
    all: &[Update],
) -> Result<Vec<Update>, NoMemory>
    requires { All (IsUpdate (length ctx.now.classes)) all.now }
    ensures fits { IfOk result (λ kept. All (IsUpdate (length ctx.now.classes)) kept.items) }
    ensures arrays { (arrays : ℕ) → AreOf arrays all.now → IfOk result (λ kept. AreOf arrays kept.items) }
    ensures same { IfOk result (λ kept. On ctx.now (λ m k. updates m kept.items k ≡ updates m all.now k)) }
{
    let mut kept = Vec::new(alloc);
    for i in 0..all.len() {
        let update = &all[i];
        let behind = &all[i + 1..];
        if !is_overwritten(ctx, update, behind) {
            kept.push(update.copy()?)?;
        }
    }
    Ok(kept)
}
