//! Arrays of which facts speak of one place, and of numbers.

ghost use Rattle.std.specs.Prelude.{◌≡◌, ◌<◌, ◌⊎◌, ℕ, All, IsTrue, length, false, map, true};
ghost use Rattle.snap_core.specs.Arrays.{has};
ghost use Rattle.snap_context.specs.Classes.{atom_class, IsAtom, IsTest};
ghost use Rattle.snap_context.specs.Known.{IsAtSpot, IsSettled};

use crate::classes::{normal_at, same_index};
use crate::fact::Fact;
use crate::facts::Facts;
use crate::rooted::is_plain;
use crate::sets::is_in;
use snap_core::policy::{Atom, Term, Test};

// Whether a fact, if it is on an array, is at an index and of a number.
fn is_at(classes: &[Term], var: u16, index: &[Atom], fact: &Fact) -> bool
    requires index { All (IsAtom (length classes.now)) index.now }
    requires test { IsTest (length classes.now) fact.now.test }
    ensures { IsTrue result → IsAtSpot classes.now var (map (atom_class classes.now) index.now) fact.now }
{
    match fact.test.test() {
        Test::State {
            var: other,
            index: place,
            value,
        } => {
            *other != var
                || (same_index(classes, place.items(), index)
                    && is_plain(normal_at(classes, *value)))
        }
        _ => true,
    }
}

fn all_at(classes: &[Term], var: u16, index: &[Atom], facts: &Facts) -> bool
    requires index { All (IsAtom (length classes.now)) index.now }
    requires tests { All (λ f. IsTest (length classes.now) f.test) facts.now }
    ensures { IsTrue result → All (IsAtSpot classes.now var (map (atom_class classes.now) index.now)) facts.now }
{
    for fact in facts.iter() {
        if !is_at(classes, var, index, fact) {
            return false;
        }
    }
    true
}

// Whether the facts on an array, of which there are some, are at the index of the first.
fn is_settled(classes: &[Term], var: u16, facts: &Facts) -> bool
    requires { All (λ f. IsTest (length classes.now) f.test) facts.now }
    ensures { IsTrue result → IsSettled classes.now facts.now var }
{
    for fact in facts.iter() {
        if let Test::State {
            var: other,
            index,
            ..
        } = fact.test.test()
        {
            if *other == var {
                return all_at(classes, var, index.items(), facts);
            }
        }
    }
    false
}

// The arrays of the facts.
fn arrays_of(facts: &Facts) -> u64 {
    let mut set = 0;
    for fact in facts.iter() {
        if let Test::State { var, .. } = fact.test.test() {
            if *var < 64 {
                set |= 1 << *var;
            }
        }
    }
    set
}

fn with_array(set: u64, var: u16) -> u64
    requires { var < 64 }
    ensures { (a : ℕ) → has result a ≡ true → (has set a ≡ true) ⊎ (a ≡ var) }
{
    set | 1 << var
}

/// The arrays outside of a set of which the facts speak of one place, and of numbers.
pub(crate) fn settled(classes: &[Term], arrays: u64, facts: &Facts) -> u64
    requires { All (λ f. IsTest (length classes.now) f.test) facts.now }
    ensures { (a : ℕ) → has result a ≡ true → (a < 64) × (has arrays a ≡ false) × IsSettled classes.now facts.now a }
{
    let present = arrays_of(facts);
    let mut set = 0u64;
    for var in 0..64 {
        if is_in(present, var) && !is_in(arrays, var) && is_settled(classes, var, facts) {
            set = with_array(set, var);
        }
    }
    set
}
