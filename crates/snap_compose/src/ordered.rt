//! Updates in the order in which their tests come, where it makes no difference which comes first.

ghost use Rattle.std.specs.Prelude.{◌≡◌, ℕ, IfOk, IsTrue, List};
ghost use Rattle.std.specs.List.{All};
ghost use Rattle.std.specs.List.Sorted.{IsPermutation};
ghost use Rattle.snap_core.specs.Arrays.{Arrays, updates};
ghost use Rattle.snap_core.specs.Inputs.{IsStore};
ghost use Rattle.snap_compose.specs.Additions.{Adds};
ghost use Rattle.snap_compose.specs.Fixed.{falling};

use crate::fixed::in_runs;
use snap_core::NoMemory;
use snap_core::policy::{Op, Update, copy_updates};
use snap_diagrams::order::compare_indices;
use std::alloc::Global;
use std::cmp::Ordering;

pub(crate) fn adds(update: &Update) -> bool
    ensures { IsTrue result → Adds update.now }
{
    match update.op {
        Op::Put(_) => false,
        Op::Add(_) => true,
    }
}

fn all_add(ups: &[Update]) -> bool
    ensures { IsTrue result → All Adds ups.now }
{
    ups.iter().all(|update| adds(update))
}

/// The order in which tests of two updates' places come, the other way round.
pub(crate) fn falling(a: &Update, b: &Update) -> Ordering
    ensures { result ≡ falling a.now b.now }
{
    compare_indices(b.index.items(), a.index.items())
}

/// Updates that do the same. Where all are additions, and in each run of updates at numbers, those whose places are tested
/// first come last: a test behind them asks about the last one first, and so makes few nodes.
pub(crate) fn ordered(alloc: Global, ups: &[Update]) -> Result<Vec<Update>, NoMemory>
    ensures same { IfOk result (λ o. (m : Arrays) (k : List ℕ) → IsStore m → updates m o.items k ≡ updates m ups.now k) }
    ensures permuted { IfOk result (λ o. IsPermutation ups.now o.items) }
{
    if !all_add(ups) {
        return in_runs(alloc, ups);
    }
    let mut ordered = copy_updates(alloc, ups)?;
    ordered.sort_by(|a, b| falling(a, b))?;
    Ok(ordered)
}
