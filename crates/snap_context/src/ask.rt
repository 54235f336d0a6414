//! Numbers that a model of a context may have.

ghost use Rattle.std.specs.Prelude.{◌≡◌, IfOk, MatchOption, length, map};
ghost use Rattle.snap_core.specs.declared.policy.Atom.TheVariants.{Num};
ghost use Rattle.snap_context.specs.Asks.{AskFits, IsGuessOrLeast, IsNever, IsSettled, test_of};

use crate::context::{Assumed, Context};
use snap_core::NoMemory;
use snap_core::lists::Atoms;
use snap_core::place::Place;
use snap_core::policy::{Atom, Term, Test};
use std::alloc::Global;

/// What is asked of a model: a component of its packet, or a place of its store.
#[derive(Drop)]
pub enum Ask {
    Component(u16),
    At(Place),
}

/// A number, and the context in which it is the answer.
#[derive(Drop)]
pub struct Settled {
    pub num: u64,
    pub ctx: Context,
}

fn atoms(alloc: Global, numbers: &[u64]) -> Result<Vec<Atom>, NoMemory>
    ensures { IfOk result (λ atoms. atoms.items ≡ map Num numbers.now) }
{
    let mut atoms = Vec::new(alloc);
    for number in numbers {
        atoms.push(Atom::Num(*number))?;
    }
    Ok(atoms)
}

// The test that the answer is a number.
fn test_for(alloc: Global, ask: &Ask, num: u64) -> Result<Test, NoMemory>
    ensures { IfOk result (λ test. test ≡ test_of ask.now num) }
{
    match ask {
        Ask::Component(comp) => Ok(Test::Value { comp: *comp, num }),
        Ask::At(place) => {
            let atoms = atoms(alloc, place.index.items())?;
            Ok(Test::State {
                var: place.var,
                index: Atoms::new(atoms),
                value: Term::Num(num),
            })
        }
    }
}

// Whether the answer may be a number.
fn attempt(alloc: Global, ctx: &Context, ask: &Ask, num: u64) -> Result<Option<Settled>, NoMemory>
    requires { AskFits (length ctx.now.classes) ask.now }
    ensures { IfOk result (λ o. MatchOption o (IsNever ctx.now ask.now num) (λ settled. IsSettled ctx.now ask.now settled × (settled.num ≡ num))) }
{
    let test = test_for(alloc, ask, num)?;
    match ctx.assume(&test, true)? {
        Assumed::More(ctx) => Ok(Some(Settled { num, ctx })),
        Assumed::Impossible => Ok(None),
    }
}

/// A number that the answer may be: the guess, or else the least one. Refuses for memory alone.
pub fn choose(alloc: Global, ctx: &Context, ask: &Ask, guess: u64) -> Result<Settled, NoMemory>
    requires { AskFits (length ctx.now.classes) ask.now }
    ensures settled { IfOk result (λ settled. IsSettled ctx.now ask.now settled) }
    ensures least { IfOk result (λ settled. IsGuessOrLeast ctx.now ask.now guess settled.num) }
{
    let _met = ctx.facts();
    if let Some(settled) = attempt(alloc, ctx, ask, guess)? {
        return Ok(settled);
    }
    for num in 0..u64::MAX {
        if let Some(settled) = attempt(alloc, ctx, ask, num)? {
            return Ok(settled);
        }
    }
    match attempt(alloc, ctx, ask, u64::MAX)? {
        Some(settled) => Ok(settled),
        None => unreachable!(),
    }
}
