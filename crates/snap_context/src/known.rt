//! What a context knows about some components and arrays, as a list of numbers.

ghost use Rattle.std.specs.Prelude.{◌≡◌, ◌≤◌, ◌∷◌, ◌++◌, ℕ, All, IfOk, IfSome, IsTrue, List, OnOk, length, map};
ghost use Rattle.snap_context.specs.Classes.{atom_class, normal, IsAtom, IsTerm, IsTest};
ghost use Rattle.snap_core.specs.Terms.{term_code};
ghost use Rattle.snap_context.specs.Known.{all_known, apart_of, classes_key, difference, held_of, known, normal_key, normals_key, some_key, spot_key, HasWords, IsSpelled, IsWord, Normal, Differ};
ghost use Rattle.snap_core.specs.declared.policy.Term.TheVariants.{Plus};

use crate::classes::{atom_at, class_at, normal_at};
use crate::fact::Fact;
use crate::facts::Facts;
use crate::rooted::{is_tied, rooted, term_within};
use crate::sets::is_in;
use crate::settled::settled;
use snap_core::NoMemory;
use snap_core::policy::{Atom, Term, Test};
use std::alloc::Global;

// Room for most keys.
const MANY_WORDS: usize = 128;

// Adds the numbers of a class.
fn push_term(key: &mut Vec<u64>, term: Term) -> Result<(), NoMemory>
    ensures { OnOk result (key.new.items ≡ key.old.items ++ term_code term) }
{
    match term {
        Term::Num(num) => {
            key.push(0)?;
            key.push(num)?;
        }
        Term::Plus { comp, plus } => {
            key.push(1)?;
            key.push(comp as u64)?;
            key.push(plus)?;
        }
    }
    Ok(())
}

// Adds the numbers of an index's classes.
fn push_spot(key: &mut Vec<u64>, classes: &[Term], index: &[Atom]) -> Result<(), NoMemory>
    requires { All (IsAtom (length classes.now)) index.now }
    ensures { OnOk result (key.new.items ≡ key.old.items ++ spot_key (map (atom_class classes.now) index.now)) }
{
    for atom in index {
        push_term(key, atom_at(classes, *atom))?;
    }
    key.push(2)?;
    Ok(())
}

// Adds what a place holds or doesn't, where its roots are in the set.
fn push_held(
    key: &mut Vec<u64>,
    classes: &[Term],
    roots: u64,
    var: u16,
    index: &[Atom],
    value: Term,
    yes: bool,
) -> Result<(), NoMemory>
    requires index { All (IsAtom (length classes.now)) index.now }
    requires value { IsTerm (length classes.now) value }
    ensures { OnOk result (key.new.items ≡ key.old.items ++ some_key (held_of roots var (map (atom_class classes.now) index.now) (normal classes.now value) yes)) }
{
    if is_tied(classes, roots, index, value) {
        key.push(1)?;
        key.push(var as u64)?;
        push_spot(key, classes, index)?;
        push_term(key, normal_at(classes, value))?;
        key.push(yes as u64)?;
    }
    Ok(())
}

// Adds a component, and what it differs from.
fn push_differ(key: &mut Vec<u64>, comp: u16, other: Term) -> Result<(), NoMemory>
    ensures { OnOk result (key.new.items ≡ key.old.items ++ normal_key (Differ (Plus comp 0) other)) }
{
    key.push(0)?;
    push_term(key, Term::Plus { comp, plus: 0 })?;
    push_term(key, other)
}

// Adds two terms that differ, spelled as one of their components, the lesser of two, and what it differs from.
// Nothing where the terms alone tell that they do.
fn push_difference(key: &mut Vec<u64>, left: Term, right: Term) -> Result<(), NoMemory>
    ensures { OnOk result (key.new.items ≡ key.old.items ++ some_key (difference left right)) }
{
    match left {
        Term::Num(num) => match right {
            Term::Num(_) => Ok(()),
            Term::Plus { comp, plus } => push_differ(key, comp, Term::Num(num.wrapping_sub(plus))),
        },
        Term::Plus { comp, plus } => match right {
            Term::Num(num) => push_differ(key, comp, Term::Num(num.wrapping_sub(plus))),
            Term::Plus {
                comp: other,
                plus: more,
            } => {
                if comp == other {
                    return Ok(());
                }
                if comp < other {
                    let to = Term::Plus {
                        comp: other,
                        plus: more.wrapping_sub(plus),
                    };
                    return push_differ(key, comp, to);
                }
                let to = Term::Plus {
                    comp,
                    plus: plus.wrapping_sub(more),
                };
                push_differ(key, other, to)
            }
        },
    }
}

// Adds two classes that differ, where their roots are in the set. The classes tell those that don't.
fn push_apart(
    key: &mut Vec<u64>,
    roots: u64,
    left: Term,
    right: Term,
    yes: bool,
) -> Result<(), NoMemory>
    ensures { OnOk result (key.new.items ≡ key.old.items ++ some_key (apart_of roots yes left right)) }
{
    if !yes && term_within(roots, left) && term_within(roots, right) {
        push_difference(key, left, right)?;
    }
    Ok(())
}

fn push_fact(
    key: &mut Vec<u64>,
    classes: &[Term],
    roots: u64,
    settled: u64,
    fact: &Fact,
) -> Result<(), NoMemory>
    requires { IsTest (length classes.now) fact.now.test }
    ensures { OnOk result (key.new.items ≡ key.old.items ++ some_key (known classes.now roots settled fact.now.test fact.now.yes)) }
{
    match fact.test.test() {
        Test::State { var, index, value } => {
            if is_in(settled, *var) {
                return Ok(());
            }
            push_held(key, classes, roots, *var, index.items(), *value, fact.yes)
        }
        Test::Value { comp, num } => {
            let left = normal_at(
                classes,
                Term::Plus {
                    comp: *comp,
                    plus: 0,
                },
            );
            push_apart(key, roots, left, Term::Num(*num), fact.yes)
        }
        Test::Equal { left, right, plus } => {
            let first = normal_at(
                classes,
                Term::Plus {
                    comp: *left,
                    plus: 0,
                },
            );
            let second = normal_at(
                classes,
                Term::Plus {
                    comp: *right,
                    plus: *plus,
                },
            );
            push_apart(key, roots, first, second, fact.yes)
        }
    }
}

// Whether the words from the number `next` on come before those from `last` to `next`, or there are none.
fn falls(key: &[u64], last: usize, next: usize) -> bool {
    match (key.get(last..next), key.get(next..)) {
        (Some(former), Some(latter)) => latter.is_empty() || latter < former,
        _ => false,
    }
}

// Adds the facts whose roots are in a set, by the classes, without those on settled arrays. Whether each
// comes before the one added before it: the newest fact is mostly the last by its words.
fn push_facts(
    key: &mut Vec<u64>,
    classes: &[Term],
    roots: u64,
    settled: u64,
    facts: &Facts,
) -> Result<bool, NoMemory>
    requires { All (λ f. IsTest (length classes.now) f.test) facts.now }
    ensures { OnOk result (key.new.items ≡ key.old.items ++ normals_key (all_known classes.now roots settled facts.now)) }
{
    let mut falling = true;
    let mut last = key.len();
    for fact in facts.iter() {
        let next = key.len();
        push_fact(key, classes, roots, settled, fact)?;
        falling = falling && falls(key, last, next);
        if key.len() > next {
            last = next;
        }
    }
    Ok(falling)
}

// The words of each fact whose roots are in a set, by the classes, without those on settled arrays.
fn words_of(
    alloc: Global,
    classes: &[Term],
    roots: u64,
    settled: u64,
    facts: &Facts,
) -> Result<Vec<Vec<u64>>, NoMemory>
    requires { All (λ f. IsTest (length classes.now) f.test) facts.now }
    ensures { IfOk result (λ words. HasWords words.items (all_known classes.now roots settled facts.now)) }
{
    let mut words = Vec::new(alloc);
    for fact in facts.iter() {
        let mut word = Vec::new(alloc);
        push_fact(&mut word, classes, roots, settled, fact)?;
        if word.len() > 0 {
            words.push(word)?;
        }
    }
    Ok(words)
}

fn same_words(a: &[u64], b: &[u64]) -> bool
    ensures { IsTrue result → a.now ≡ b.now }
{
    a == b
}

// Adds words, but those that are equal to the ones before.
fn push_words(key: &mut Vec<u64>, words: &[Vec<u64>]) -> Result<(), NoMemory>
    requires { All IsWord words.now }
    ensures { OnOk result ((ns : List Normal) × HasWords words.now ns × (key.new.items ≡ key.old.items ++ normals_key ns)) }
{
    for i in 0..words.len() {
        if i == 0 || !same_words(&words[i], &words[i - 1]) {
            key.extend_from_slice(&words[i])?;
        }
    }
    Ok(())
}

// Adds the classes of the components of a set.
fn push_classes(key: &mut Vec<u64>, classes: &[Term], comps: u64) -> Result<(), NoMemory>
    requires { length classes.now ≤ 64 }
    ensures { OnOk result (key.new.items ≡ key.old.items ++ classes_key comps 0 classes.now) }
{
    for comp in 0..classes.len() as u16 {
        if is_in(comps, comp) {
            push_term(key, class_at(classes, comp))?;
        }
    }
    Ok(())
}

// The label, and the classes of the components of a set.
fn first_words(
    alloc: Global,
    classes: &[Term],
    label: u64,
    comps: u64,
) -> Result<Vec<u64>, NoMemory>
    requires { length classes.now ≤ 64 }
    ensures { IfOk result (λ key. key.items ≡ label ∷ classes_key comps 0 classes.now) }
{
    let mut key = Vec::with_capacity(alloc, MANY_WORDS)?;
    key.push(label)?;
    push_classes(&mut key, classes, comps)?;
    Ok(key)
}

/// The label, and behind it what classes and facts tell about the components and arrays of two sets:
/// the same whatever the order of the facts, and however often each is told. None where no set of roots
/// was found by which the facts fall apart.
pub(crate) fn known(
    alloc: Global,
    classes: &[Term],
    facts: &Facts,
    label: u64,
    comps: u64,
    arrays: u64,
) -> Result<Option<Vec<u64>>, NoMemory>
    requires few { length classes.now ≤ 64 }
    requires tests { All (λ f. IsTest (length classes.now) f.test) facts.now }
    ensures { IfOk result (λ o. IfSome o (λ key. (q : List ℕ) × (key.items ≡ label ∷ q) × IsSpelled (record { facts = facts.now; classes = classes.now }) comps arrays q)) }
{
    let settled = settled(classes, arrays, facts);
    let Some(roots) = rooted(classes, comps, settled, facts) else {
        return Ok(None);
    };
    let mut key = first_words(alloc, classes, label, comps)?;
    if push_facts(&mut key, classes, roots, settled, facts)? {
        return Ok(Some(key));
    }
    let mut words = words_of(alloc, classes, roots, settled, facts)?;
    words.sort_unstable_by(|former, latter| latter.cmp(former));
    let mut sorted = first_words(alloc, classes, label, comps)?;
    push_words(&mut sorted, &words)?;
    Ok(Some(sorted))
}
