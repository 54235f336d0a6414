//! Which diagrams nothing can be dead in, whatever comes before them.

ghost use Rattle.std.specs.Prelude.{◌↔◌, ◌<◌, All, IfOk, IsTrue, length, true};
ghost use Rattle.snap_context.specs.declared.fact.Fact.{Fact};
ghost use Rattle.snap_diagrams.specs.Contexts.{Met};
ghost use Rattle.snap_diagrams.specs.Diagrams.{diagram};
ghost use Rattle.snap_diagrams.specs.Forgotten.{IsPast};
ghost use Rattle.snap_diagrams.specs.Order.{IsRanked};
ghost use Rattle.snap_diagrams.specs.Picks.{IsWellFormedDiagram};
ghost use Rattle.snap_diagrams.specs.Places.{ComesBefore};
ghost use Rattle.snap_diagrams.specs.Pruned.{IsLive};
ghost use Rattle.snap_diagrams.specs.Quiet.{BeginsElsewhere, IsClear, IsMarked, IsQuiet, SameSubject, StandsBefore};

use crate::equal::same_index;
use crate::leaf::Leaf;
use crate::node::Node;
use crate::nodes::Nodes;
use crate::order::compare;
use crate::pick::look;
use crate::reach::Reached;
use crate::survey::Survey;
use snap_context::context::Context;
use snap_context::fact::Fact;
use snap_context::facts::Facts;
use snap_core::NoMemory;
use snap_core::policy::Test;
use snap_dep::groups::Groups;
use std::cmp::Ordering;

// Whether two tests are of one component, or of one place.
fn same_subject(a: &Test, b: &Test) -> bool
    ensures { IsTrue result ↔ SameSubject a.now b.now }
{
    match a {
        Test::Value { comp, num: _ } => match b {
            Test::Value { comp: c, num: _ } => *comp == *c,
            _ => false,
        },
        Test::Equal { .. } => false,
        Test::State {
            var,
            index,
            value: _,
        } => match b {
            Test::State {
                var: v,
                index: i,
                value: _,
            } => *var == *v && same_index(index.items(), i.items()),
            _ => false,
        },
    }
}

// Whether a diagram begins with another subject.
pub(crate) fn begins_elsewhere(nodes: &Nodes<Leaf>, test: &Test, d: u64) -> bool
    requires { d < length nodes.now }
    ensures { IsTrue result → BeginsElsewhere test.now (diagram nodes.now d) }
{
    match look(nodes, d) {
        Node::Leaf(_) => true,
        Node::Ask {
            test: other,
            yes: _,
            no: _,
        } => !same_subject(test, other),
    }
}

// Whether a number is noted as that of a quiet diagram.
fn is_noted(nodes: &Nodes<Leaf>, survey: &Survey, reached: &Reached, quiet: &[bool], d: u64) -> bool
    requires { IsMarked survey.now nodes.now reached.now.ids.items quiet.now }
    ensures { IsTrue result → IsQuiet survey.now (diagram nodes.now d) }
{
    match reached.place(d) {
        Some(place) => quiet.get(place) == Some(&true),
        None => false,
    }
}

// Whether a node is quiet, by its ways.
fn is_quiet(nodes: &Nodes<Leaf>, survey: &Survey, reached: &Reached, quiet: &[bool], d: u64) -> bool
    requires d { d < length nodes.now }
    requires quiet { IsMarked survey.now nodes.now reached.now.ids.items quiet.now }
    ensures { IsTrue result → IsQuiet survey.now (diagram nodes.now d) }
{
    match look(nodes, d) {
        Node::Leaf(_) => true,
        Node::Ask { test, yes, no } => {
            if !is_noted(nodes, survey, reached, quiet, *yes) {
                return false;
            }
            if !is_noted(nodes, survey, reached, quiet, *no) {
                return false;
            }
            survey.is_fine(test) && begins_elsewhere(nodes, test, *yes)
        }
    }
}

/// Which of the numbers that are reached are of quiet diagrams, by their places. Those that are marked are; no clause
/// says which are marked, or that any is. Refuses for memory alone.
pub(crate) fn quiet_ones(
    nodes: &Nodes<Leaf>,
    survey: &Survey,
    reached: &Reached,
) -> Result<Vec<bool>, NoMemory>
    requires survey { IsClear survey.now }
    requires reached { All (λ d. d < length nodes.now) reached.now.ids.items }
    ensures { IfOk result (λ quiet. IsMarked survey.now nodes.now reached.now.ids.items quiet.items) }
{
    let mut quiet = Vec::with_capacity(nodes.allocator(), reached.ids.len())?;
    for id in &reached.ids {
        let next = is_quiet(nodes, survey, reached, &quiet, *id);
        quiet.push(next)?;
    }
    Ok(quiet)
}

/// Whether a fact is on a test before this one, and on another subject if it passes.
pub(crate) fn comes_before(groups: &Groups, fact: &Fact, test: &Test) -> bool
    requires { IsRanked (length groups.now.ranks) test.now }
    ensures { IsTrue result → ComesBefore groups.now.ranks test.now fact.now }
{
    let before = fact.test.test();
    if !has_rank(groups, before) || compare(groups, before, test) != Ordering::Less {
        return false;
    }
    !fact.yes || !same_subject(before, test)
}

/// Whether a fact is on a test before this one, and on another subject.
pub(crate) fn is_past(groups: &Groups, fact: &Fact, test: &Test) -> bool
    requires { IsRanked (length groups.now.ranks) test.now }
    ensures { IsTrue result → IsPast groups.now.ranks test.now fact.now }
{
    comes_before(groups, fact, test) && !same_subject(fact.test.test(), test)
}

// Whether a fact is fine besides.
fn stands_before(groups: &Groups, survey: &Survey, fact: &Fact, test: &Test) -> bool
    requires { IsRanked (length groups.now.ranks) test.now }
    ensures { IsTrue result → StandsBefore groups.now.ranks survey.now test.now fact.now }
{
    survey.is_fine(fact.test.test()) && comes_before(groups, fact, test)
}

// Whether all facts are so.
fn all_before(groups: &Groups, survey: &Survey, facts: &Facts, test: &Test) -> bool
    requires { IsRanked (length groups.now.ranks) test.now }
    ensures { IsTrue result → All (StandsBefore groups.now.ranks survey.now test.now) facts.now }
{
    for fact in facts.iter() {
        if !stands_before(groups, survey, fact, test) {
            return false;
        }
    }
    true
}

/// Whether each way of each test of a diagram is met under a context, as far as marks tell.
pub(crate) fn stays(
    nodes: &Nodes<Leaf>,
    groups: &Groups,
    ctx: &Context,
    survey: &Survey,
    reached: &Reached,
    quiet: &[bool],
    d: u64,
) -> bool
    requires d { IsWellFormedDiagram groups.now ctx.now nodes.now d }
    requires marked { IsMarked survey.now nodes.now reached.now.ids.items quiet.now }
    ensures { IsTrue result → IsLive (Met ctx.now) (diagram nodes.now d) }
{
    let _arena = nodes.count();
    let facts = ctx.facts();
    if !is_noted(nodes, survey, reached, quiet, d) {
        return false;
    }
    if d > MOST || facts.len() as u64 > MOST || ctx.comps() > 64 {
        return false;
    }
    match look(nodes, d) {
        Node::Leaf(_) => true,
        Node::Ask {
            test,
            yes: _,
            no: _,
        } => all_before(groups, survey, facts, test),
    }
}

// Facts and tests of which the model of a context is known to hold twice as many.
const MOST: u64 = 2_147_483_648;

fn has_rank(groups: &Groups, test: &Test) -> bool
    ensures { IsTrue result → IsRanked (length groups.now.ranks) test.now }
{
    match test {
        Test::Value { .. } => true,
        Test::Equal { .. } => true,
        Test::State { var, .. } => (*var as usize) < groups.count(),
    }
}
