//! Whether places are the same.

ghost use Rattle.std.specs.Prelude.{◌≡◌, ◌≢◌, ℕ, MatchResult, length, map, true};
ghost use Rattle.snap_core.specs.Arrays.{Arrays, number_after, place_at, update, value_of};
ghost use Rattle.snap_core.specs.Fits.{IndexFits, OpFits};
ghost use Rattle.snap_equal.specs.Inputs.{IsUpdate};
ghost use Rattle.snap_equal.specs.Told.{IsStop, On, Decides};

use crate::stop::Stop;
use crate::terms::{reads_apart, reads_same, same_atoms};
use snap_context::context::Context;
use snap_core::lists::Atoms;
use snap_core::policy::{Atom, Op, Update};

// Whether two indices are equal. Two numbers that differ decide, whatever the others are.
fn same_index(ctx: &Context, left: &[Atom], right: &[Atom]) -> Result<bool, Stop>
    requires left { IndexFits (length ctx.now.classes) left.now }
    requires right { IndexFits (length ctx.now.classes) right.now }
    ensures { MatchResult result (Decides ctx.now (λ m k. map (λ a. value_of a k) left.now ≡ map (λ a. value_of a k) right.now)) (IsStop ctx.now 0) }
{
    if left.len() != right.len() {
        return Ok(false);
    }
    let mut open = None;
    for i in 0..left.len() {
        match same_atoms(ctx, left[i], right[i]) {
            Ok(true) => {}
            Ok(false) => return Ok(false),
            Err(Stop::NoMemory) => return Err(Stop::NoMemory),
            Err(Stop::Split(test)) => open = Some(test),
        }
    }
    match open {
        None => Ok(true),
        Some(test) => Err(Stop::Split(test)),
    }
}

/// Whether an update is done at this place.
pub(crate) fn is_at(ctx: &Context, update: &Update, var: u16, index: &Atoms) -> Result<bool, Stop>
    requires update { IndexFits (length ctx.now.classes) update.now.index }
    requires index { IndexFits (length ctx.now.classes) index.now }
    ensures { MatchResult result (Decides ctx.now (λ m k. place_at update.now.var update.now.index k ≡ place_at var index.now k)) (IsStop ctx.now 0) }
{
    if update.var != var {
        return Ok(false);
    }
    same_index(ctx, update.index.items(), index.items())
}

// Whether a context tells at once that two indices are equal.
fn reads_index(ctx: &Context, left: &[Atom], right: &[Atom]) -> bool
    requires left { IndexFits (length ctx.now.classes) left.now }
    requires right { IndexFits (length ctx.now.classes) right.now }
    ensures { result ≡ true → On ctx.now (λ m k. map (λ a. value_of a k) left.now ≡ map (λ a. value_of a k) right.now) }
{
    if left.len() != right.len() {
        return false;
    }
    for i in 0..left.len() {
        if !reads_same(ctx, left[i], right[i]) {
            return false;
        }
    }
    true
}

/// Whether a context tells at once that two updates are at one place.
pub(crate) fn reads_place(ctx: &Context, left: &Update, right: &Update) -> bool
    requires left { IsUpdate (length ctx.now.classes) left.now }
    requires right { IsUpdate (length ctx.now.classes) right.now }
    ensures { result ≡ true → On ctx.now (λ m k. place_at left.now.var left.now.index k ≡ place_at right.now.var right.now.index k) }
{
    left.var == right.var && reads_index(ctx, left.index.items(), right.index.items())
}

// Whether a context tells at once that two indices differ.
fn apart_index(ctx: &Context, left: &[Atom], right: &[Atom]) -> bool
    requires left { IndexFits (length ctx.now.classes) left.now }
    requires right { IndexFits (length ctx.now.classes) right.now }
    ensures { result ≡ true → On ctx.now (λ m k. map (λ a. value_of a k) left.now ≢ map (λ a. value_of a k) right.now) }
{
    if left.len() != right.len() {
        return true;
    }
    for i in 0..left.len() {
        if reads_apart(ctx, left[i], right[i]) {
            return true;
        }
    }
    false
}

// Whether a context tells at once that two updates are at different places.
fn apart_places(ctx: &Context, left: &Update, right: &Update) -> bool
    requires left { IsUpdate (length ctx.now.classes) left.now }
    requires right { IsUpdate (length ctx.now.classes) right.now }
    ensures { result ≡ true → On ctx.now (λ m k. place_at left.now.var left.now.index k ≢ place_at right.now.var right.now.index k) }
{
    left.var != right.var || apart_index(ctx, left.index.items(), right.index.items())
}

// Whether a context tells at once that two operations at one place may change places: both add, or put the same number.
fn ops_commute(ctx: &Context, left: Op, right: Op) -> bool
    requires left { OpFits (length ctx.now.classes) left }
    requires right { OpFits (length ctx.now.classes) right }
    ensures { result ≡ true → On ctx.now (λ m k. (x : ℕ) → number_after right (number_after left x k) k ≡ number_after left (number_after right x k) k) }
{
    match left {
        Op::Put(atom) => match right {
            Op::Put(other) => reads_same(ctx, atom, other),
            Op::Add(_) => false,
        },
        Op::Add(_) => match right {
            Op::Put(_) => false,
            Op::Add(_) => true,
        },
    }
}

/// Whether a context tells at once that two updates do the same in either order.
pub(crate) fn commute(ctx: &Context, left: &Update, right: &Update) -> bool
    requires left { IsUpdate (length ctx.now.classes) left.now }
    requires right { IsUpdate (length ctx.now.classes) right.now }
    ensures { result ≡ true → On ctx.now (λ m k. (n : Arrays) → update (update n left.now k) right.now k ≡ update (update n right.now k) left.now k) }
{
    apart_places(ctx, left, right) || ops_commute(ctx, left.op, right.op)
}

// Whether a context tells at once that two operations do the same.
fn reads_op(ctx: &Context, left: Op, right: Op) -> bool
    requires left { OpFits (length ctx.now.classes) left }
    requires right { OpFits (length ctx.now.classes) right }
    ensures { result ≡ true → On ctx.now (λ m k. (x : ℕ) → number_after left x k ≡ number_after right x k) }
{
    match left {
        Op::Put(atom) => match right {
            Op::Put(other) => reads_same(ctx, atom, other),
            Op::Add(_) => false,
        },
        Op::Add(num) => match right {
            Op::Put(_) => false,
            Op::Add(other) => num == other,
        },
    }
}

/// Whether a context tells at once that two updates do the same.
pub(crate) fn reads_update(ctx: &Context, left: &Update, right: &Update) -> bool
    requires left { IsUpdate (length ctx.now.classes) left.now }
    requires right { IsUpdate (length ctx.now.classes) right.now }
    ensures { result ≡ true → On ctx.now (λ m k. (n : Arrays) → update n left.now k ≡ update n right.now k) }
{
    reads_place(ctx, left, right) && reads_op(ctx, left.op, right.op)
}
