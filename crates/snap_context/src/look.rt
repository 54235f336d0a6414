//! Which rules facts break beside the classes.

ghost use Rattle.std.specs.Prelude.{◌≡◌, ◌↔◌, ◌≤◌, ◌⊎◌, true, false, length, All, IsTrue, MatchOption, MatchResult};
ghost use Rattle.snap_core.specs.declared.policy.Term.{Term};
ghost use Rattle.snap_context.specs.Meets.{Meets};
ghost use Rattle.snap_context.specs.Classes.{FactRule, IsClass, IsTest, PairRule, Says, is_state, left_of, right_of};
ghost use Rattle.snap_context.specs.Closing.{AllRules, Compares, IsBreach, MeetsOne, MeetsTwo, MeetsWith, RulesFor, RulesOf, RulesWith, Stays};

use crate::classes::{changed, normal_at, same_index};
use crate::fact::Fact;
use crate::facts::Facts;
use crate::terms::same_term;
use crate::tested::{have_common, test_tested};
use snap_core::policy::{Term, Test};

/// A broken rule: two classes that the facts make equal, or a contradiction.
#[derive(Clone, Copy)]
pub enum Breach {
    Join { left: Term, right: Term },
    Contradiction,
}

// Whether two classes are equal where the answer says so.
fn compare(left: Term, right: Term, yes: bool) -> Result<(), Breach>
    ensures { MatchResult result (λ _. Says yes left right) (Compares left right yes) }
{
    if yes {
        if same_term(left, right) {
            Ok(())
        } else {
            Err(Breach::Join { left, right })
        }
    } else if same_term(left, right) {
        Err(Breach::Contradiction)
    } else {
        Ok(())
    }
}

// The two terms that a value or equal test compares.
fn sides(test: &Test) -> Option<(Term, Term)>
    ensures { MatchOption result (is_state test.now ≡ true) (λ (s : Term × Term). (s.0 ≡ left_of test.now) × (s.1 ≡ right_of test.now) × (is_state test.now ≡ false)) }
{
    match test {
        Test::Value { comp, num } => {
            let left = Term::Plus {
                comp: *comp,
                plus: 0,
            };
            Some((left, Term::Num(*num)))
        }
        Test::Equal { left, right, plus } => {
            let left = Term::Plus {
                comp: *left,
                plus: 0,
            };
            let right = Term::Plus {
                comp: *right,
                plus: *plus,
            };
            Some((left, right))
        }
        Test::State { .. } => None,
    }
}

fn look_alone(classes: &[Term], fact: &Fact) -> Result<(), Breach>
    requires classes { All (IsClass classes.now) classes.now }
    requires test { IsTest (length classes.now) fact.now.test }
    ensures { MatchResult result (λ _. FactRule classes.now fact.now) (IsBreach (MeetsOne fact.now) classes.now) }
{
    match sides(fact.test.test()) {
        Some((left, right)) => {
            let left = normal_at(classes, left);
            let right = normal_at(classes, right);
            compare(left, right, fact.yes)
        }
        None => Ok(()),
    }
}

// Whether a fact is on a place.
fn is_on_place(fact: &Fact) -> bool
    ensures { result ≡ is_state fact.now.test }
{
    match fact.test.test() {
        Test::State { .. } => true,
        Test::Value { .. } | Test::Equal { .. } => false,
    }
}

// Whether a fact says what a place holds.
fn says_what_is_held(fact: &Fact) -> bool
    ensures { IsTrue result ↔ ((fact.now.yes ≡ true) × (is_state fact.now.test ≡ true)) }
{
    fact.yes && is_on_place(fact)
}

// Where the first fact says what a place holds, the second must agree.
fn look_pair(classes: &[Term], first: &Fact, second: &Fact) -> Result<(), Breach>
    requires classes { All (IsClass classes.now) classes.now }
    requires first { IsTest (length classes.now) first.now.test }
    requires second { IsTest (length classes.now) second.now.test }
    ensures { MatchResult result (λ _. PairRule classes.now first.now second.now) (IsBreach (MeetsTwo first.now second.now) classes.now) }
{
    if !first.yes {
        return Ok(());
    }
    let Test::State { var, index, value } = first.test.test() else {
        return Ok(());
    };
    let Test::State {
        var: other_var,
        index: other_index,
        value: other_value,
    } = second.test.test()
    else {
        return Ok(());
    };
    if *var != *other_var || !same_index(classes, index.items(), other_index.items()) {
        return Ok(());
    }
    let left = normal_at(classes, *value);
    let right = normal_at(classes, *other_value);
    compare(left, right, second.yes)
}

fn look_one(classes: &[Term], fact: &Fact, facts: &Facts) -> Result<(), Breach>
    requires classes { All (IsClass classes.now) classes.now }
    requires test { IsTest (length classes.now) fact.now.test }
    requires tests { All (λ f. IsTest (length classes.now) f.test) facts.now }
    ensures { MatchResult result (λ _. RulesFor classes.now fact.now facts.now) (IsBreach (MeetsWith fact.now facts.now) classes.now) }
{
    look_alone(classes, fact)?;
    if !says_what_is_held(fact) {
        return Ok(());
    }
    for other in facts.iter() {
        look_pair(classes, fact, other)?;
    }
    Ok(())
}

// Looks at a fact beside itself and facts.
fn look_beside(classes: &[Term], facts: &Facts, fact: &Fact) -> Result<(), Breach>
    requires classes { All (IsClass classes.now) classes.now }
    requires test { IsTest (length classes.now) fact.now.test }
    requires tests { All (λ f. IsTest (length classes.now) f.test) facts.now }
    ensures { MatchResult result (λ _. RulesWith classes.now facts.now fact.now) (IsBreach (MeetsWith fact.now facts.now) classes.now) }
{
    look_one(classes, fact, facts)?;
    if !is_on_place(fact) {
        return Ok(());
    }
    for other in facts.iter() {
        look_pair(classes, other, fact)?;
    }
    Ok(())
}

// Looks at a new fact, alone and beside facts that keep the rules.
pub(crate) fn look_new(classes: &[Term], facts: &Facts, fact: &Fact) -> Result<(), Breach>
    requires classes { All (IsClass classes.now) classes.now }
    requires test { IsTest (length classes.now) fact.now.test }
    requires tests { All (λ f. IsTest (length classes.now) f.test) facts.now }
    requires rules { RulesOf classes.now facts.now }
    ensures { MatchResult result (λ _. AllRules classes.now facts.now fact.now) (IsBreach (MeetsWith fact.now facts.now) classes.now) }
{
    look_beside(classes, facts, fact)
}

// Looks again at the facts about components whose classes aren't those that they were. The others
// keep the rules as they did.
fn look_old(first: &[Term], classes: &[Term], facts: &Facts) -> Result<(), Breach>
    requires classes { All (IsClass classes.now) classes.now }
    requires few { length classes.now ≤ 64 }
    requires same { length first.now ≡ length classes.now }
    requires tests { All (λ f. IsTest (length classes.now) f.test) facts.now }
    ensures { MatchResult result (λ _. All (λ f. Stays first.now classes.now f.test ⊎ RulesWith classes.now facts.now f) facts.now) (IsBreach (Meets facts.now) classes.now) }
{
    let changed = changed(first, classes);
    let mut left = facts;
    'looking: while let Some((fact, before)) = left.newest() {
        if !have_common(left.tested().comps, changed) {
            return Ok(());
        }
        if have_common(test_tested(fact.test.test()).comps, changed) {
            look_beside(classes, facts, fact)?;
        }
        left = before;
    }
    Ok(())
}

// Looks at facts that kept the rules with the first classes, and a new one.
pub(crate) fn look(
    first: &[Term],
    classes: &[Term],
    facts: &Facts,
    fact: &Fact,
) -> Result<(), Breach>
    requires classes { All (IsClass classes.now) classes.now }
    requires few { length classes.now ≤ 64 }
    requires same { length first.now ≡ length classes.now }
    requires test { IsTest (length classes.now) fact.now.test }
    requires tests { All (λ f. IsTest (length classes.now) f.test) facts.now }
    requires rules { RulesOf first.now facts.now }
    ensures { MatchResult result (λ _. AllRules classes.now facts.now fact.now) (IsBreach (MeetsWith fact.now facts.now) classes.now) }
{
    look_old(first, classes, facts)?;
    look_new(classes, facts, fact)
}
