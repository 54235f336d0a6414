//! What a context can forget before a diagram: facts at places of numbers that none of its tests can be at. So contexts that
//! differ in such facts alone become one, where several ways lead to the diagram.

ghost use Rattle.std.specs.Prelude.{◌≡◌, ◌≢◌, ◌∷◌, ◌↔◌, IfOk, IfSome, IsTrue, List, OnOk, [], length};
ghost use Rattle.std.specs.List.{All};
ghost use Rattle.snap_core.specs.declared.policy.Atom.TheVariants.{Num as Number};
ghost use Rattle.snap_context.specs.declared.fact.Fact.{Fact as AFact};
ghost use Rattle.snap_context.specs.Classes.{index_of, var_of};
ghost use Rattle.snap_context.specs.Known.{IsFixed};
ghost use Rattle.snap_context.specs.Lean.{AreParted, IsBeside};
ghost use Rattle.snap_diagrams.specs.Diagrams.{diagram};
ghost use Rattle.snap_diagrams.specs.Forgotten.{AreDealt, AreMissed, Simulates, IsForgotten, IsLeaner, IsMissed};
ghost use Rattle.snap_diagrams.specs.Memoed.{IsPlan};
ghost use Rattle.snap_diagrams.specs.Order.{IsRanked};
ghost use Rattle.snap_diagrams.specs.Picks.{IsWellFormedDiagram};

use crate::equal::same_index;
use crate::leaf::Leaf;
use crate::node::Node;
use crate::nodes::Nodes;
use crate::pick::look;
use crate::places::is_elsewhere;
use crate::pruning::PruningPlan;
use crate::quiet::is_past;
use crate::tested::mark_at;
use snap_context::context::Context;
use snap_context::fact::Fact;
use snap_context::plain::{is_fixed, is_plain};
use snap_context::sets::is_in;
use snap_context::tested::Tested;
use snap_core::NoMemory;
use snap_core::policy::{Atom, Term, Test};
use snap_dep::groups::Groups;
use std::alloc::Global;

fn is_number(atom: Atom, num: u64) -> bool
    ensures { IsTrue result ↔ (atom ≡ Number num) }
{
    atom == Atom::Num(num)
}

fn has_no(index: &[Atom], num: u64) -> bool
    ensures { IsTrue result → All (λ a. a ≢ Number num) index.now }
{
    index.iter().all(|atom| !is_number(*atom, num))
}

fn is_missed(index: &[Atom], class: Term) -> bool
    ensures { IsTrue result → IsMissed index.now class }
{
    match class {
        Term::Num(num) => has_no(index, num),
        Term::Plus { .. } => false,
    }
}

// Whether each component of a set has a number, and the index has none of these.
fn are_missed(ctx: &Context, comps: u64, index: &[Atom]) -> bool
    ensures { IsTrue result → AreMissed ctx.now.classes comps index.now }
{
    for comp in 0..ctx.comps() {
        if is_in(comps, comp) && !is_missed(index, ctx.class(comp)) {
            return false;
        }
    }
    true
}

// Whether a test is of a place whose index has none of these numbers.
fn misses(ctx: &Context, comps: u64, test: &Test) -> bool
    ensures { IsTrue result → AreMissed ctx.now.classes comps (index_of test.now) }
{
    match test {
        Test::State { index, .. } => are_missed(ctx, comps, index.items()),
        Test::Value { .. } | Test::Equal { .. } => false,
    }
}

// Whether no test from this one on, about what a mark tells, can be at the place of a fact.
fn is_done(groups: &Groups, ctx: &Context, mark: Tested, fact: &Fact, test: &Test) -> bool
    requires { IsRanked (length groups.now.ranks) test.now }
    ensures { IsTrue result → Simulates groups.now.ranks ctx.now.classes mark test.now fact.now }
{
    let before = fact.test.test();
    if !is_plain(before) {
        return false;
    }
    is_elsewhere(mark.arrays, before)
        || (is_past(groups, fact, test) && misses(ctx, mark.comps, before))
}

fn is_any_done(groups: &Groups, ctx: &Context, mark: Tested, test: &Test) -> bool
    requires { IsRanked (length groups.now.ranks) test.now }
{
    for fact in ctx.facts().iter() {
        if is_done(groups, ctx, mark, fact, test) {
            return true;
        }
    }
    false
}

// Puts a fact to those that stay, or to those that go.
fn deal(
    groups: &Groups,
    ctx: &Context,
    mark: Tested,
    test: &Test,
    fact: &Fact,
    stay: &mut Vec<Fact>,
    gone: &mut Vec<Fact>,
) -> Result<(), NoMemory>
    requires rank { IsRanked (length groups.now.ranks) test.now }
    requires done { All (Simulates groups.now.ranks ctx.now.classes mark test.now) gone.old.items }
    ensures done { OnOk result (All (Simulates groups.now.ranks ctx.now.classes mark test.now) gone.new.items) }
    ensures dealt { OnOk result ((left others facts : List AFact) → left ≡ fact.now ∷ others → AreDealt left facts stay.old.items gone.old.items → AreDealt others facts stay.new.items gone.new.items) }
{
    let copy = fact.copy()?;
    if is_done(groups, ctx, mark, fact, test) {
        gone.push(copy)?;
        return Ok(());
    }
    stay.push(copy)?;
    Ok(())
}

// Deals the facts out to those that stay and those that go.
fn deal_all(
    groups: &Groups,
    ctx: &Context,
    mark: Tested,
    test: &Test,
    stay: &mut Vec<Fact>,
    gone: &mut Vec<Fact>,
) -> Result<(), NoMemory>
    requires rank { IsRanked (length groups.now.ranks) test.now }
    requires stay { stay.old.items ≡ [] }
    requires gone { gone.old.items ≡ [] }
    ensures done { OnOk result (All (Simulates groups.now.ranks ctx.now.classes mark test.now) gone.new.items) }
    ensures parted { OnOk result (AreParted ctx.now.facts stay.new.items gone.new.items) }
{
    for fact in ctx.facts().iter() {
        deal(groups, ctx, mark, test, fact, stay, gone)?;
    }
    Ok(())
}

// Whether a place of an array is another one than a test's, and is spelled by numbers.
fn is_other_place(test: &Test, var: u16, index: &[Atom]) -> bool
    ensures { IsTrue result → var ≡ var_of test.now → All IsFixed index.now × (index.now ≢ index_of test.now) }
{
    match test {
        Test::State {
            var: own,
            index: place,
            value: _,
        } => var != *own || (is_fixed(index) && !same_index(index, place.items())),
        Test::Value { .. } | Test::Equal { .. } => false,
    }
}

fn is_beside(fact: &Fact, other: &Fact) -> bool
    ensures { IsTrue result → IsBeside fact.now other.now }
{
    match other.test.test() {
        Test::State {
            var,
            index,
            value: _,
        } => is_other_place(fact.test.test(), *var, index.items()),
        Test::Value { .. } | Test::Equal { .. } => true,
    }
}

fn is_beside_all(fact: &Fact, stay: &[Fact]) -> bool
    ensures { IsTrue result → All (IsBeside fact.now) stay.now }
{
    stay.iter().all(|other| is_beside(fact, other))
}

// Whether the facts that stay are on other arrays than those that go, or at other numbers.
fn are_beside(gone: &[Fact], stay: &[Fact]) -> bool
    ensures { IsTrue result → All (λ f. All (IsBeside f) stay.now) gone.now }
{
    gone.iter().all(|fact| is_beside_all(fact, stay))
}

// The context without the facts that are done before a test, if there are any.
fn leaner(
    alloc: Global,
    groups: &Groups,
    ctx: &Context,
    mark: Tested,
    test: &Test,
) -> Result<Option<Context>, NoMemory>
    requires { IsRanked (length groups.now.ranks) test.now }
    ensures { IfOk result (λ o. IfSome o (λ lean. IsLeaner groups.now.ranks ctx.now lean mark test.now)) }
{
    let _context = ctx.facts();
    if !is_any_done(groups, ctx, mark, test) {
        return Ok(None);
    }
    let mut stay = Vec::new(alloc);
    let mut gone = Vec::new(alloc);
    deal_all(groups, ctx, mark, test, &mut stay, &mut gone)?;
    if !are_beside(&gone, &stay) {
        return Ok(None);
    }
    Ok(Some(ctx.with_only(stay)?))
}

// Whether several ways lead to a number.
fn is_joined(plan: &PruningPlan, d: u64) -> bool {
    match plan.reached.place(d) {
        Some(place) => plan.joins.get(place) == Some(&true),
        None => false,
    }
}

/// The context without facts that no test of a diagram bears on, where several ways lead to the diagram and there
/// are such facts. None may be answered wherever. Refuses for memory alone.
pub(crate) fn forgotten(
    nodes: &Nodes<Leaf>,
    groups: &Groups,
    ctx: &Context,
    plan: &PruningPlan,
    d: u64,
) -> Result<Option<Context>, NoMemory>
    requires d { IsWellFormedDiagram groups.now ctx.now nodes.now d }
    requires plan { IsPlan plan.now nodes.now }
    ensures { IfOk result (λ o. IfSome o (λ lean. IsForgotten groups.now.ranks ctx.now lean (diagram nodes.now d))) }
{
    if !is_joined(plan, d) {
        return Ok(None);
    }
    let Some(mark) = mark_at(nodes, &plan.reached, &plan.tested, d) else {
        return Ok(None);
    };
    match look(nodes, d) {
        Node::Leaf(_) => Ok(None),
        Node::Ask {
            test,
            yes: _,
            no: _,
        } => leaner(nodes.allocator(), groups, ctx, mark, test),
    }
}
