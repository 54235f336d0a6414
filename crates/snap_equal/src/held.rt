//! What places hold after updates.

ghost use Rattle.std.specs.Prelude.{◌≡◌, ◌<◌, ◌≤◌, ◌↔◌, All, IfOk, IsTrue, MatchResult, length, take, true};
ghost use Rattle.snap_core.specs.Arrays.{place_at, updates};
ghost use Rattle.snap_core.specs.Fits.{IndexFits};
ghost use Rattle.snap_core.specs.Tests.{TermFits, term_value};
ghost use Rattle.snap_context.specs.Classes.{wrap};
ghost use Rattle.snap_equal.specs.Held.{AgreeAlong, HeldFits, IsHeld, changed, held_value};
ghost use Rattle.snap_equal.specs.Inputs.{AreOf, IsUpdate};
ghost use Rattle.snap_equal.specs.Tally.{is_chosen};
ghost use Rattle.snap_equal.specs.Told.{IsStop, Decides};

use crate::places::is_at;
use crate::stop::{Stop, holds};
use crate::terms::{same_terms, shifted, term_of};
use snap_context::context::Context;
use snap_context::sets::is_in;
use snap_core::NoMemory;
use snap_core::bits::know_term;
use snap_core::lists::Atoms;
use snap_core::policy::{Op, Term, Test, Update};

/// What a place holds: a term's number, or its old number and so much more, modulo 2^64.
#[derive(Clone, Copy, Debug, PartialEq, Eq)]
pub enum PlaceValue {
    Is(Term),
    Old(u64),
}

// What a place holds after one operation more.
fn changed(held: PlaceValue, op: Op) -> PlaceValue
    ensures { result ≡ changed held op }
{
    match op {
        Op::Put(atom) => PlaceValue::Is(term_of(atom)),
        Op::Add(num) => match held {
            PlaceValue::Is(term) => PlaceValue::Is(shifted(term, num)),
            PlaceValue::Old(more) => PlaceValue::Old(more.wrapping_add(num)),
        },
    }
}

fn are_alike(left: PlaceValue, right: PlaceValue) -> bool
    ensures { IsTrue result ↔ (left ≡ right) }
{
    left == right
}

// The updates up to the last one that surely puts a number at a place, and what the place holds then. What is before
// it has no part in what the place holds.
fn last_put(
    ctx: &Context,
    updates: &[Update],
    var: u16,
    index: &Atoms,
) -> Result<(usize, PlaceValue), NoMemory>
    requires updates { All (IsUpdate (length ctx.now.classes)) updates.now }
    requires index { IndexFits (length ctx.now.classes) index.now }
    ensures few { IfOk result (λ r. r.0 ≤ length updates.now) }
    ensures held { IfOk result (λ r. IsHeld ctx.now (take r.0 updates.now) var index.now r.1) }
{
    for i in (0..updates.len()).rev() {
        let update = &updates[i];
        let Op::Put(atom) = update.op else {
            continue;
        };
        match is_at(ctx, update, var, index) {
            Ok(true) => return Ok((i + 1, PlaceValue::Is(term_of(atom)))),
            Err(Stop::NoMemory) => return Err(NoMemory),
            _ => {}
        }
    }
    Ok((0, PlaceValue::Old(0)))
}

// What a place holds after updates. Where one would leave what is held as it is, nobody asks whether it is done there.
fn held_after(
    ctx: &Context,
    updates: &[Update],
    var: u16,
    index: &Atoms,
) -> Result<PlaceValue, Stop>
    requires updates { All (IsUpdate (length ctx.now.classes)) updates.now }
    requires index { IndexFits (length ctx.now.classes) index.now }
    ensures { MatchResult result (IsHeld ctx.now updates.now var index.now) (IsStop ctx.now 0) }
{
    let (done, mut held) = last_put(ctx, updates, var, index)?;
    for i in done..updates.len() {
        let update = &updates[i];
        let next = changed(held, update.op);
        if are_alike(next, held) {
            continue;
        }
        if is_at(ctx, update, var, index)? {
            held = next;
        }
    }
    Ok(held)
}

// Whether a place holds the same number.
fn same_held(
    ctx: &Context,
    arrays: u16,
    var: u16,
    index: &Atoms,
    left: PlaceValue,
    right: PlaceValue,
) -> Result<bool, Stop>
    requires var { var < arrays }
    requires index { IndexFits (length ctx.now.classes) index.now }
    requires short { length index.now ≤ 8 }
    requires left { HeldFits (length ctx.now.classes) left }
    requires right { HeldFits (length ctx.now.classes) right }
    ensures { MatchResult result (Decides ctx.now (λ m k. held_value left (m (place_at var index.now k)) k ≡ held_value right (m (place_at var index.now k)) k)) (IsStop ctx.now arrays) }
{
    match left {
        PlaceValue::Is(term) => match right {
            PlaceValue::Is(other) => same_terms(ctx, term, other),
            PlaceValue::Old(more) => is_held(ctx, arrays, var, index, term, more),
        },
        PlaceValue::Old(more) => match right {
            PlaceValue::Is(term) => is_held(ctx, arrays, var, index, term, more),
            PlaceValue::Old(other) => Ok(more == other),
        },
    }
}

// Whether the old number of a place and so much more is a term's number.
fn is_held(
    ctx: &Context,
    arrays: u16,
    var: u16,
    index: &Atoms,
    term: Term,
    more: u64,
) -> Result<bool, Stop>
    requires var { var < arrays }
    requires index { IndexFits (length ctx.now.classes) index.now }
    requires short { length index.now ≤ 8 }
    requires term { TermFits (length ctx.now.classes) term }
    ensures { MatchResult result (Decides ctx.now (λ m k. wrap (m (place_at var index.now k)) more ≡ term_value term k)) (IsStop ctx.now arrays) }
{
    know_term(term);
    let value = shifted(term, 0u64.wrapping_sub(more));
    let index = index.copy()?;
    holds(ctx, arrays, Test::State { var, index, value })
}

// Whether updates leave the same number at a place.
fn same_at(
    ctx: &Context,
    arrays: u16,
    left: &[Update],
    right: &[Update],
    var: u16,
    index: &Atoms,
) -> Result<bool, Stop>
    requires left { All (IsUpdate (length ctx.now.classes)) left.now }
    requires right { All (IsUpdate (length ctx.now.classes)) right.now }
    requires var { var < arrays }
    requires index { IndexFits (length ctx.now.classes) index.now }
    requires short { length index.now ≤ 8 }
    ensures { MatchResult result (Decides ctx.now (λ m k. updates m left.now k (place_at var index.now k) ≡ updates m right.now k (place_at var index.now k))) (IsStop ctx.now arrays) }
{
    let first = held_after(ctx, left, var, index)?;
    let second = held_after(ctx, right, var, index)?;
    same_held(ctx, arrays, var, index, first, second)
}

// Whether a variable is looked at: each is where there is no set.
fn is_chosen(only: Option<u64>, var: u16) -> bool
    ensures { result ≡ is_chosen only var }
{
    match only {
        None => true,
        Some(set) => is_in(set, var),
    }
}

/// Whether updates leave the same numbers at the places of some, of those on the variables that are looked at.
pub(crate) fn same_along(
    ctx: &Context,
    arrays: u16,
    left: &[Update],
    right: &[Update],
    along: &[Update],
    only: Option<u64>,
) -> Result<bool, Stop>
    requires left { All (IsUpdate (length ctx.now.classes)) left.now }
    requires right { All (IsUpdate (length ctx.now.classes)) right.now }
    requires along { All (IsUpdate (length ctx.now.classes)) along.now }
    requires arrays { AreOf arrays along.now }
    ensures { MatchResult result (Decides ctx.now (λ m k. AgreeAlong only along.now k (updates m left.now k) (updates m right.now k))) (IsStop ctx.now arrays) }
{
    let mut open = None;
    for update in along {
        if !is_chosen(only, update.var) {
            continue;
        }
        match same_at(ctx, arrays, left, right, update.var, &update.index) {
            Ok(true) => {}
            Ok(false) => return Ok(false),
            Err(Stop::NoMemory) => return Err(Stop::NoMemory),
            Err(Stop::Split(test)) => open = Some(test),
        }
    }
    match open {
        None => Ok(true),
        Some(test) => Err(Stop::Split(test)),
    }
}
