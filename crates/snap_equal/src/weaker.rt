//! Contexts of those facts that bear on what diagrams name.

ghost use Rattle.std.specs.Prelude.{IfOk, IfSome, length};
ghost use Rattle.snap_context.specs.declared.context.Assumed.TheVariants.{More};
ghost use Rattle.snap_context.specs.Answers.{IsAssumed};
ghost use Rattle.snap_context.specs.Classes.{IsTest};
ghost use Rattle.snap_equal.specs.Weaker.{IsWeaker};

use crate::names::{Names, index_names, term_names, test_names};
use snap_context::context::{Assumed, Context};
use snap_context::fact::Fact;
use snap_context::facts::Facts;
use snap_context::sets::is_in;
use snap_core::NoMemory;
use snap_core::policy::Test;
use std::alloc::Global;

// The most facts of such a context: each is assumed anew.
const MOST_KEPT: usize = 64;

// Whether a test may bear on what is named: by a component, or at an array's place that only numbers tell.
fn bears(names: Names, test: &Test) -> bool {
    match test {
        Test::Value { .. } | Test::Equal { .. } => test_names(test).comps & names.comps != 0,
        Test::State { var, index, value } => {
            let at = index_names(index);
            is_in(names.arrays, *var) && (at == 0 || (at | term_names(*value)) & names.comps != 0)
        }
    }
}

// The names with the components of all facts that bear on them.
fn with_facts(names: Names, facts: &Facts) -> Names {
    let mut wider = names;
    for fact in facts.iter() {
        let test = fact.test.test();
        if bears(wider, test) {
            wider.comps |= test_names(test).comps;
        }
    }
    wider
}

// The names with all that facts tie to them.
fn tied(names: Names, facts: &Facts) -> Names {
    let mut names = names;
    for _ in 0..64 {
        let wider = with_facts(names, facts);
        if wider.comps == names.comps {
            return names;
        }
        names = wider;
    }
    names
}

// How many facts bear on what is named, as far as it matters.
fn kept(names: Names, facts: &Facts) -> usize {
    facts
        .iter()
        .filter(|fact| bears(names, fact.test.test()))
        .take(MOST_KEPT + 1)
        .count()
}

// The context with one fact more, unless nothing meets it.
fn with_fact(ctx: &Context, fact: &Fact) -> Result<Option<Context>, NoMemory>
    requires { IsTest (length ctx.now.classes) fact.now.test }
    ensures { IfOk result (λ o. IfSome o (λ more. IsAssumed ctx.now fact.now.test fact.now.yes (More more))) }
{
    match ctx.assume(fact.test.test(), fact.yes)? {
        Assumed::Impossible => Ok(None),
        Assumed::More(more) => Ok(Some(more)),
    }
}

/// The context of those facts that bear on what is named, unless these are many. What it drops may bear too: what holds
/// under it holds under the whole context, and the other way round it may not.
pub(crate) fn weaker(
    alloc: Global,
    ctx: &Context,
    names: Names,
) -> Result<Option<Context>, NoMemory>
    ensures { IfOk result (λ o. IfSome o (IsWeaker ctx.now)) }
{
    let facts = ctx.facts();
    let names = tied(names, facts);
    if ctx.comps() > 64 || kept(names, facts) > MOST_KEPT {
        return Ok(None);
    }
    let mut weak = Context::empty(alloc, ctx.comps())?;
    for fact in facts.iter() {
        if bears(names, fact.test.test()) {
            let Some(more) = with_fact(&weak, fact)? else {
                return Ok(None);
            };
            weak = more;
        }
    }
    Ok(Some(weak))
}
