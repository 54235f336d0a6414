//! Closing classes under facts.

ghost use Rattle.std.specs.Prelude.{◌≡◌, ◌≤◌, All, IfOk, MatchBool, MatchOption, length};
ghost use Rattle.snap_context.specs.Classes.{IsClass, IsTest};
ghost use Rattle.snap_context.specs.Closing.{IsBroken, IsClosed, MeetsWith, RulesOf};

use crate::classes::merge;
use crate::fact::Fact;
use crate::facts::Facts;
use crate::look::{Breach, look, look_new};
use snap_core::NoMemory;
use snap_core::policy::Term;
use std::alloc::Global;

// Draws all conclusions of the facts, or finds that they contradict each other. Until two classes
// are made one, only the new fact can break a rule, and then facts whose classes changed.
fn close(first: &[Term], classes: &mut [Term], facts: &Facts, fact: &Fact) -> bool
    requires first { classes.old ≡ first.now }
    requires few { length classes.old ≤ 64 }
    requires classes { All (IsClass classes.old) classes.old }
    requires test { IsTest (length classes.old) fact.now.test }
    requires tests { All (λ f. IsTest (length classes.old) f.test) facts.now }
    requires rules { RulesOf classes.old facts.now }
    ensures { MatchBool result (IsClosed facts.now fact.now classes.old classes.new) (IsBroken (MeetsWith fact.now facts.now) classes.old) }
{
    let mut found = look_new(classes, facts, fact);
    'closing: while let Err(breach) = found {
        let Breach::Join { left, right } = breach else {
            return false;
        };
        if !merge(classes, left, right) {
            return false;
        }
        found = look(first, classes, facts, fact);
    }
    true
}

// The classes with all conclusions of a new fact, or none where it contradicts the facts.
pub(crate) fn closed(
    alloc: Global,
    classes: &[Term],
    facts: &Facts,
    fact: &Fact,
) -> Result<Option<Vec<Term>>, NoMemory>
    requires few { length classes.now ≤ 64 }
    requires classes { All (IsClass classes.now) classes.now }
    requires test { IsTest (length classes.now) fact.now.test }
    requires tests { All (λ f. IsTest (length classes.now) f.test) facts.now }
    requires rules { RulesOf classes.now facts.now }
    ensures { IfOk result (λ o. MatchOption o (IsBroken (MeetsWith fact.now facts.now) classes.now) (λ new. IsClosed facts.now fact.now classes.now new.items)) }
{
    let mut new = Vec::from_slice(alloc, classes)?;
    if close(classes, new.as_mut_slice(), facts, fact) {
        Ok(Some(new))
    } else {
        Ok(None)
    }
}
