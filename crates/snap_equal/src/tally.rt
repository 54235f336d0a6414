//! What updates add to places, counted together.

ghost use Rattle.std.specs.Prelude.{◌≡◌, ◌<◌, ◌^◌, ℕ, true, All, IfOk, IfSome, OnOk, List, false, get_or, length};
ghost use Rattle.snap_core.specs.declared.place.Place.{Place};
ghost use Rattle.snap_core.specs.Arrays.{place_at, has};
ghost use Rattle.snap_core.specs.declared.policy.Op.TheVariants.{Add};
ghost use Rattle.snap_core.specs.declared.policy.Update.{Update as UpdateData};
ghost use Rattle.snap_context.specs.Classes.{wrap};
ghost use Rattle.snap_compose.specs.Additions.{added_up};
ghost use Rattle.snap_equal.specs.Inputs.{AreOf, IsUpdate};
ghost use Rattle.snap_equal.specs.Tally.{AddOutside, IsDifference, IsSum, share_of, signed, signed_total, total};
ghost use Rattle.snap_equal.specs.Told.{On};

use crate::places::reads_place;
use snap_context::context::Context;
use snap_context::sets::is_in;
use snap_core::NoMemory;
use snap_core::policy::{Op, Update};
use std::alloc::Global;

/// Whether a number is added or taken away.
#[derive(Clone, Copy, Debug)]
enum Direction {
    Plus,
    Minus,
}

// The set of one number.
fn only(number: u16) -> u64
    requires { number < 64 }
    ensures { result ≡ 2 ^ number }
{
    1 << number
}

/// The set with the variables at which some of the updates puts a number.
pub(crate) fn with_puts(set: u64, updates: &[Update]) -> u64
    requires { AreOf 64 updates.now }
    ensures more { (v : ℕ) → has result v ≡ false → has set v ≡ false }
    ensures puts { AddOutside result updates.now }
{
    let mut arrays = set;
    for update in updates {
        match update.op {
            Op::Put(_) => arrays |= only(update.var),
            Op::Add(_) => {}
        }
    }
    arrays
}

// An addition with so much more, modulo 2^64.
fn plus(op: Op, more: u64) -> Op
    ensures { result ≡ added_up op more }
{
    match op {
        Op::Put(_) => op,
        Op::Add(num) => Op::Add(num.wrapping_add(more)),
    }
}

// A number with a sign, modulo 2^64.
fn signed(sign: Direction, num: u64) -> u64
    ensures { result ≡ signed sign num }
{
    match sign {
        Direction::Plus => num,
        Direction::Minus => 0u64.wrapping_sub(num),
    }
}

// Which of the sums is at the place of an update, as far as a context tells at once.
fn position(ctx: &Context, sums: &[Update], update: &Update) -> Option<usize>
    requires sums { All (IsUpdate (length ctx.now.classes)) sums.now }
    requires update { IsUpdate (length ctx.now.classes) update.now }
    ensures below { IfSome result (λ i. i < length sums.now) }
    ensures place { IfSome result (λ i. (d : UpdateData) → On ctx.now (λ m k. place_at (get_or sums.now i d).var (get_or sums.now i d).index k ≡ place_at update.now.var update.now.index k)) }
{
    for i in 0..sums.len() {
        if reads_place(ctx, &sums[i], update) {
            return Some(i);
        }
    }
    None
}

// Adds a number to the sum at the place of an update.
fn add(
    ctx: &Context,
    arrays: u16,
    mixed: u64,
    sums: &mut Vec<Update>,
    update: &Update,
    num: u64,
) -> Result<(), NoMemory>
    requires sums { All (IsSum mixed (length ctx.now.classes) arrays) sums.old.items }
    requires update { IsUpdate (length ctx.now.classes) update.now }
    requires var { update.now.var < arrays }
    requires outside { has mixed update.now.var ≡ false }
    ensures sums { OnOk result (All (IsSum mixed (length ctx.now.classes) arrays) sums.new.items) }
    ensures total { OnOk result (On ctx.now (λ m k. (q : Place) → total sums.new.items k q ≡ wrap (total sums.old.items k q) (share_of update.now num k q))) }
{
    match position(ctx, sums, update) {
        Some(i) => sums[i].op = plus(sums[i].op, num),
        None => {
            let index = update.index.copy()?;
            sums.push(Update {
                var: update.var,
                index,
                op: Op::Add(num),
            })?;
        }
    }
    Ok(())
}

// Adds what updates add at variables outside a set, or what they don't.
fn count(
    ctx: &Context,
    arrays: u16,
    mixed: u64,
    sums: &mut Vec<Update>,
    updates: &[Update],
    sign: Direction,
) -> Result<(), NoMemory>
    requires sums { All (IsSum mixed (length ctx.now.classes) arrays) sums.old.items }
    requires updates { All (IsUpdate (length ctx.now.classes)) updates.now }
    requires arrays { AreOf arrays updates.now }
    ensures sums { OnOk result (All (IsSum mixed (length ctx.now.classes) arrays) sums.new.items) }
    ensures total { OnOk result (On ctx.now (λ m k. (q : Place) → has mixed q.var ≡ false → total sums.new.items k q ≡ wrap (total sums.old.items k q) (signed_total sign updates.now k q))) }
{
    for update in updates {
        if is_in(mixed, update.var) {
            continue;
        }
        match update.op {
            Op::Add(num) => add(ctx, arrays, mixed, sums, update, signed(sign, num))?,
            Op::Put(_) => {}
        }
    }
    Ok(())
}

// Whether an operation adds 0.
fn is_nothing(op: Op) -> bool
    ensures { result ≡ true → op ≡ Add 0 }
{
    match op {
        Op::Put(_) => false,
        Op::Add(num) => num == 0,
    }
}

// The sums that aren't 0.
fn nonzero(
    alloc: Global,
    sums: &[Update],
    mixed: u64,
    comps: u16,
    arrays: u16,
) -> Result<Vec<Update>, NoMemory>
    requires { All (IsSum mixed comps arrays) sums.now }
    ensures sums { IfOk result (λ kept. All (IsSum mixed comps arrays) kept.items) }
    ensures total { IfOk result (λ kept. (k : List ℕ) (q : Place) → total kept.items k q ≡ total sums.now k q) }
{
    let mut kept = Vec::new(alloc);
    for sum in sums {
        if !is_nothing(sum.op) {
            kept.push(sum.copy()?)?;
        }
    }
    Ok(kept)
}

/// What some updates add beyond others, place by place, at variables outside a set.
pub(crate) fn difference(
    alloc: Global,
    ctx: &Context,
    arrays: u16,
    mixed: u64,
    left: &[Update],
    right: &[Update],
) -> Result<Vec<Update>, NoMemory>
    requires left { All (IsUpdate (length ctx.now.classes)) left.now }
    requires right { All (IsUpdate (length ctx.now.classes)) right.now }
    requires vars_left { AreOf arrays left.now }
    requires vars_right { AreOf arrays right.now }
    ensures sums { IfOk result (λ sums. All (IsSum mixed (length ctx.now.classes) arrays) sums.items) }
    ensures difference { IfOk result (λ sums. IsDifference ctx.now mixed left.now right.now sums.items) }
{
    let mut sums = Vec::new(alloc);
    count(ctx, arrays, mixed, &mut sums, left, Direction::Plus)?;
    count(ctx, arrays, mixed, &mut sums, right, Direction::Minus)?;
    nonzero(alloc, &sums, mixed, ctx.comps(), arrays)
}
