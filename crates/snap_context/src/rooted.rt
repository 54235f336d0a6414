//! Sets of roots by which facts fall apart: a fact has all of its roots in the set, or none and a place of its own.

ghost use Rattle.std.specs.Prelude.{◌≡◌, ◌<◌, ◌≤◌, ℕ, All, IfSome, IsTrue, length, map, true};
ghost use Rattle.snap_core.specs.Arrays.{has};
ghost use Rattle.snap_context.specs.Classes.{atom_class, class_of, normal, IsAtom, IsTerm, IsTest};
ghost use Rattle.snap_context.specs.Known.{are_numbers, are_outside, are_within, is_number, loose, outside, tied, within, IsRooted};

use crate::classes::{atom_at, class_at, normal_at};
use crate::fact::Fact;
use crate::facts::Facts;
use crate::sets::is_in;
use snap_core::policy::{Atom, Term, Test};

// Whether a class is a number, or its root is in the set.
pub(crate) fn term_within(roots: u64, term: Term) -> bool
    ensures { result ≡ within roots term }
{
    match term {
        Term::Num(_) => true,
        Term::Plus { comp, plus: _ } => is_in(roots, comp),
    }
}

fn index_within(classes: &[Term], roots: u64, index: &[Atom]) -> bool
    requires { All (IsAtom (length classes.now)) index.now }
    ensures { result ≡ are_within roots (map (atom_class classes.now) index.now) }
{
    for atom in index {
        if !term_within(roots, atom_at(classes, *atom)) {
            return false;
        }
    }
    true
}

/// Whether all roots of a place and a term are in the set.
pub(crate) fn is_tied(classes: &[Term], roots: u64, index: &[Atom], value: Term) -> bool
    requires index { All (IsAtom (length classes.now)) index.now }
    requires value { IsTerm (length classes.now) value }
    ensures { result ≡ tied roots (map (atom_class classes.now) index.now) (normal classes.now value) }
{
    index_within(classes, roots, index) && term_within(roots, normal_at(classes, value))
}

fn is_outside(roots: u64, term: Term) -> bool
    ensures { result ≡ outside roots term }
{
    match term {
        Term::Num(_) => true,
        Term::Plus { comp, plus: _ } => !is_in(roots, comp),
    }
}

fn index_outside(classes: &[Term], roots: u64, index: &[Atom]) -> bool
    requires { All (IsAtom (length classes.now)) index.now }
    ensures { result ≡ are_outside roots (map (atom_class classes.now) index.now) }
{
    for atom in index {
        if !is_outside(roots, atom_at(classes, *atom)) {
            return false;
        }
    }
    true
}

pub(crate) fn is_plain(term: Term) -> bool
    ensures { result ≡ is_number term }
{
    match term {
        Term::Num(_) => true,
        Term::Plus { .. } => false,
    }
}

fn index_plain(classes: &[Term], index: &[Atom]) -> bool
    requires { All (IsAtom (length classes.now)) index.now }
    ensures { result ≡ are_numbers (map (atom_class classes.now) index.now) }
{
    for atom in index {
        if !is_plain(atom_at(classes, *atom)) {
            return false;
        }
    }
    true
}

// Whether none of the roots of a place and a term is in the set, and the place has one.
fn is_loose(classes: &[Term], roots: u64, index: &[Atom], value: Term) -> bool
    requires index { All (IsAtom (length classes.now)) index.now }
    requires value { IsTerm (length classes.now) value }
    ensures { result ≡ loose roots (map (atom_class classes.now) index.now) (normal classes.now value) }
{
    !index_plain(classes, index)
        && (index_outside(classes, roots, index) && is_outside(roots, normal_at(classes, value)))
}

fn fact_rooted(classes: &[Term], roots: u64, settled: u64, fact: &Fact) -> bool
    requires { IsTest (length classes.now) fact.now.test }
    ensures { IsTrue result → IsRooted classes.now roots settled fact.now }
{
    match fact.test.test() {
        Test::State { var, index, value } => {
            is_in(settled, *var)
                || is_tied(classes, roots, index.items(), *value)
                || is_loose(classes, roots, index.items(), *value)
        }
        _ => true,
    }
}

fn facts_rooted(classes: &[Term], roots: u64, settled: u64, facts: &Facts) -> bool
    requires { All (λ f. IsTest (length classes.now) f.test) facts.now }
    ensures { IsTrue result → All (IsRooted classes.now roots settled) facts.now }
{
    for fact in facts.iter() {
        if !fact_rooted(classes, roots, settled, fact) {
            return false;
        }
    }
    true
}

// Whether the classes of some components have their roots in the set.
fn classes_within(classes: &[Term], comps: u64, roots: u64) -> bool
    requires { length classes.now ≤ 64 }
    ensures { IsTrue result → (c : ℕ) → c < length classes.now → has comps c ≡ true → within roots (class_of classes.now c) ≡ true }
{
    for comp in 0..classes.len() as u16 {
        if is_in(comps, comp) && !term_within(roots, class_at(classes, comp)) {
            return false;
        }
    }
    true
}

// The set with a class's root.
fn with_root(roots: u64, class: Term) -> u64 {
    match class {
        Term::Num(_) => roots,
        Term::Plus { comp, plus: _ } => {
            if comp < 64 {
                roots | (1 << comp)
            } else {
                roots
            }
        }
    }
}

// The set with the roots of a place and a term.
fn with_roots(classes: &[Term], roots: u64, index: &[Atom], value: Term) -> u64
    requires index { All (IsAtom (length classes.now)) index.now }
    requires value { IsTerm (length classes.now) value }
{
    let mut set = with_root(roots, normal_at(classes, value));
    for atom in index {
        set = with_root(set, atom_at(classes, *atom));
    }
    set
}

// The set with the roots of the facts that aren't loose.
fn widened(classes: &[Term], roots: u64, settled: u64, facts: &Facts) -> u64
    requires { All (λ f. IsTest (length classes.now) f.test) facts.now }
{
    let mut set = roots;
    for fact in facts.iter() {
        if let Test::State { var, index, value } = fact.test.test() {
            if !is_in(settled, *var) && !is_loose(classes, set, index.items(), *value) {
                set = with_roots(classes, set, index.items(), *value);
            }
        }
    }
    set
}

// The roots of some components.
fn roots_of(classes: &[Term], comps: u64) -> u64
    requires { length classes.now ≤ 64 }
{
    let mut set = 0;
    for comp in 0..classes.len() as u16 {
        if is_in(comps, comp) {
            set = with_root(set, class_at(classes, comp));
        }
    }
    set
}

/// A set with the roots of some components by which the facts fall apart. Each round but the last adds
/// a root.
pub(crate) fn rooted(classes: &[Term], comps: u64, settled: u64, facts: &Facts) -> Option<u64>
    requires few { length classes.now ≤ 64 }
    requires tests { All (λ f. IsTest (length classes.now) f.test) facts.now }
    ensures facts { IfSome result (λ roots. All (IsRooted classes.now roots settled) facts.now) }
    ensures classes { IfSome result (λ roots. (c : ℕ) → c < length classes.now → has comps c ≡ true → within roots (class_of classes.now c) ≡ true) }
{
    let mut roots = roots_of(classes, comps);
    for _ in 0..66 {
        if facts_rooted(classes, roots, settled, facts) && classes_within(classes, comps, roots) {
            return Some(roots);
        }
        roots = widened(classes, roots, settled, facts);
    }
    None
}
