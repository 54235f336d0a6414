//! Whether updates make the same of a store.

ghost use Rattle.std.specs.Prelude.{◌≡◌, ◌≤◌, None, All, IfOk, MatchResult, drop, length, take, true};
ghost use Rattle.snap_core.specs.Arrays.{updates};
ghost use Rattle.snap_core.specs.Inputs.{IsStore};
ghost use Rattle.snap_equal.specs.Held.{AgreeAlong};
ghost use Rattle.snap_equal.specs.Inputs.{AreOf, IsUpdate};
ghost use Rattle.snap_equal.specs.Told.{IsStop, On, Decides};

use crate::held::same_along;
use crate::orders::unmatched;
use crate::overwritten::standing;
use crate::places::reads_update;
use crate::stop::Stop;
use crate::tally::{difference, with_puts};
use snap_context::context::Context;
use snap_core::NoMemory;
use snap_core::bits::op_is_small;
use snap_core::laws::stays_small;
use snap_core::policy::Update;
use std::alloc::Global;

// How many updates do the same in both lists from the first on, as far as a context tells at once.
fn common(ctx: &Context, left: &[Update], right: &[Update]) -> usize
    requires left { All (IsUpdate (length ctx.now.classes)) left.now }
    requires right { All (IsUpdate (length ctx.now.classes)) right.now }
    ensures left { result ≤ length left.now }
    ensures right { result ≤ length right.now }
    ensures same { On ctx.now (λ m k. updates m (take result left.now) k ≡ updates m (take result right.now) k) }
    ensures small { On ctx.now (λ m k. IsStore (updates m (take result left.now) k)) }
{
    stays_small();
    let mut count = 0;
    while count < left.len() && count < right.len() {
        let (first, second) = (&left[count], &right[count]);
        op_is_small(first.op);
        if !reads_update(ctx, first, second) {
            return count;
        }
        count += 1;
    }
    count
}

// The updates behind so many.
fn behind(updates: &[Update], count: usize) -> &[Update]
    requires { count ≤ length updates.now }
    ensures { result.now ≡ drop count updates.now }
{
    &updates[count..]
}

// So many updates, from the first on.
fn before(updates: &[Update], count: usize) -> &[Update]
    requires { count ≤ length updates.now }
    ensures { result.now ≡ take count updates.now }
{
    &updates[..count]
}

// Whether sums add nothing anywhere.
fn add_nothing(ctx: &Context, arrays: u16, sums: &[Update]) -> Result<bool, Stop>
    requires sums { All (IsUpdate (length ctx.now.classes)) sums.now }
    requires arrays { AreOf arrays sums.now }
    ensures { MatchResult result (Decides ctx.now (λ m k. AgreeAlong None sums.now k (updates m sums.now k) m)) (IsStop ctx.now arrays) }
{
    same_along(ctx, arrays, sums, &[], sums, None)
}

// Whether updates make the same of a store. Where behind the common ones a variable is added to alone, what is added is
// counted together, so that the order of additions needs no test; at other variables the places are looked at one by one.
fn same_places(
    alloc: Global,
    ctx: &Context,
    arrays: u16,
    left: &[Update],
    right: &[Update],
) -> Result<bool, Stop>
    requires few { arrays ≤ 64 }
    requires left { All (IsUpdate (length ctx.now.classes)) left.now }
    requires right { All (IsUpdate (length ctx.now.classes)) right.now }
    requires vars_left { AreOf arrays left.now }
    requires vars_right { AreOf arrays right.now }
    ensures { MatchResult result (Decides ctx.now (λ m k. updates m left.now k ≡ updates m right.now k)) (IsStop ctx.now arrays) }
{
    let done = common(ctx, left, right);
    let first = behind(left, done);
    let second = behind(right, done);
    let mixed = with_puts(with_puts(0, first), second);
    let sums = difference(alloc, ctx, arrays, mixed, first, second)?;
    if !add_nothing(ctx, arrays, &sums)? {
        return Ok(false);
    }
    if !same_along(ctx, arrays, left, right, first, Some(mixed))? {
        return Ok(false);
    }
    same_along(ctx, arrays, left, right, second, Some(mixed))
}

// Whether updates surely make the same of a store: what is left of them without those that both do last does.
fn surely_same(
    alloc: Global,
    ctx: &Context,
    arrays: u16,
    left: &[Update],
    right: &[Update],
) -> Result<bool, NoMemory>
    requires few { arrays ≤ 64 }
    requires left { All (IsUpdate (length ctx.now.classes)) left.now }
    requires right { All (IsUpdate (length ctx.now.classes)) right.now }
    requires vars_left { AreOf arrays left.now }
    requires vars_right { AreOf arrays right.now }
    ensures { IfOk result (λ yes. yes ≡ true → On ctx.now (λ m k. updates m left.now k ≡ updates m right.now k)) }
{
    let (count, rest) = unmatched(alloc, ctx, left, right)?;
    if count == left.len() {
        return Ok(false);
    }
    match same_places(alloc, ctx, arrays, before(left, count), &rest) {
        Ok(yes) => Ok(yes),
        Err(Stop::Split(_)) => Ok(false),
        Err(Stop::NoMemory) => Err(NoMemory),
    }
}

// Whether updates make the same of a store. Those that both do last, one by one, are let go before the rest is looked at,
// so that an order that makes no difference needs no test.
fn same_standing(
    alloc: Global,
    ctx: &Context,
    arrays: u16,
    left: &[Update],
    right: &[Update],
) -> Result<bool, Stop>
    requires few { arrays ≤ 64 }
    requires left { All (IsUpdate (length ctx.now.classes)) left.now }
    requires right { All (IsUpdate (length ctx.now.classes)) right.now }
    requires vars_left { AreOf arrays left.now }
    requires vars_right { AreOf arrays right.now }
    ensures { MatchResult result (Decides ctx.now (λ m k. updates m left.now k ≡ updates m right.now k)) (IsStop ctx.now arrays) }
{
    if surely_same(alloc, ctx, arrays, left, right)? {
        return Ok(true);
    }
    same_places(alloc, ctx, arrays, left, right)
}

/// Whether updates make the same of a store. What others overwrite is let go first: beside a put all additions on its
/// array would be looked at place by place.
pub(crate) fn same_stores(
    alloc: Global,
    ctx: &Context,
    arrays: u16,
    left: &[Update],
    right: &[Update],
) -> Result<bool, Stop>
    requires few { arrays ≤ 64 }
    requires left { All (IsUpdate (length ctx.now.classes)) left.now }
    requires right { All (IsUpdate (length ctx.now.classes)) right.now }
    requires vars_left { AreOf arrays left.now }
    requires vars_right { AreOf arrays right.now }
    ensures { MatchResult result (Decides ctx.now (λ m k. updates m left.now k ≡ updates m right.now k)) (IsStop ctx.now arrays) }
{
    let first = standing(alloc, ctx, left)?;
    let second = standing(alloc, ctx, right)?;
    same_standing(alloc, ctx, arrays, &first, &second)
}
