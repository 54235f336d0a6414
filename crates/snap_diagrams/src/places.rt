//! Diagrams that test places alone: nothing is dead in them where a context leaves what is spelled differently different.

ghost use Rattle.std.specs.Prelude.{◌≡◌, ◌<◌, All, IfOk, IsTrue, false, length, true};
ghost use Rattle.snap_core.specs.Arrays.{has};
ghost use Rattle.snap_core.specs.declared.policy.Atom.TheVariants.{Comp as Component};
ghost use Rattle.snap_core.specs.declared.policy.Term.TheVariants.{Plus};
ghost use Rattle.snap_context.specs.Classes.{atom_class, class_of, is_state, var_of, IsAtom, IsTerm, IsTest};
ghost use Rattle.snap_context.specs.Known.{IsAmong, TermOver};
ghost use Rattle.snap_diagrams.specs.Contexts.{Met};
ghost use Rattle.snap_diagrams.specs.Diagrams.{diagram};
ghost use Rattle.snap_diagrams.specs.Order.{IsRanked};
ghost use Rattle.snap_diagrams.specs.Picks.{IsWellFormedDiagram};
ghost use Rattle.snap_diagrams.specs.Places.{AreApart, AreKept, ArePlaced, AsksPlaces, AtomIsOwn, AtomIsWithin, IsAlone, IsOutside, IsOwn, IsWithin, StandsAside, TermIsOwn};
ghost use Rattle.snap_diagrams.specs.Pruned.{IsLive};
ghost use Rattle.snap_diagrams.specs.Tested.{AreTested};

use crate::leaf::Leaf;
use crate::node::Node;
use crate::nodes::Nodes;
use crate::pick::look;
use crate::quiet::{begins_elsewhere, comes_before};
use crate::reach::Reached;
use crate::tested::mark_at;
use snap_context::context::Context;
use snap_context::fact::Fact;
use snap_context::facts::Facts;
use snap_context::sets::{bit, is_in};
use snap_context::tested::Tested;
use snap_core::NoMemory;
use snap_core::policy::{Atom, Term, Test};
use snap_dep::groups::Groups;

/// Bounds of how places are spelled: no number in an index is below `low` or above `high`, and each component in a
/// term is in `terms`, a bit each. With no numbers `low` is above `high`.
#[derive(Clone, Copy)]
pub struct Spelling {
    pub low: u64,
    pub high: u64,
    pub terms: u64,
}

impl Spelling {
    fn note_atom(&mut self, atom: Atom) {
        if let Atom::Num(num) = atom {
            self.low = self.low.min(num);
            self.high = self.high.max(num);
        }
    }

    // Takes note of a test.
    fn note(&mut self, test: &Test) {
        if let Test::State {
            var: _,
            index,
            value,
        } = test
        {
            for atom in index.items() {
                self.note_atom(*atom);
            }
            if let Term::Plus { comp, plus: _ } = *value {
                self.terms |= bit(comp);
            }
        }
    }
}

/// How the nodes that are reached spell the places that they test. No clause says so: marks look at it again.
pub(crate) fn spelling_of(nodes: &Nodes<Leaf>, reached: &Reached) -> Spelling
    requires { All (λ d. d < length nodes.now) reached.now.ids.items }
{
    let mut spelling = Spelling {
        low: u64::MAX,
        high: 0,
        terms: 0,
    };
    for id in &reached.ids {
        if let Node::Ask { test, .. } = nodes.get(*id) {
            spelling.note(test);
        }
    }
    spelling
}

fn atom_is_within(spelling: Spelling, atom: Atom) -> bool
    ensures { IsTrue result → AtomIsWithin spelling atom }
{
    match atom {
        Atom::Num(num) => spelling.low <= num && num <= spelling.high,
        Atom::Comp(_) => true,
    }
}

fn index_is_within(spelling: Spelling, index: &[Atom]) -> bool
    ensures { IsTrue result → All (AtomIsWithin spelling) index.now }
{
    index.iter().all(|atom| atom_is_within(spelling, *atom))
}

fn term_is_within(spelling: Spelling, term: Term) -> bool
    ensures { IsTrue result → TermOver spelling.terms term }
{
    match term {
        Term::Num(_) => true,
        Term::Plus { comp, plus: _ } => is_in(spelling.terms, comp),
    }
}

// Whether a test is of a place that is spelled so.
fn is_within(spelling: Spelling, test: &Test) -> bool
    ensures { IsTrue result → IsWithin spelling test.now }
{
    match test {
        Test::State {
            var: _,
            index,
            value,
        } => index_is_within(spelling, index.items()) && term_is_within(spelling, *value),
        Test::Value { .. } | Test::Equal { .. } => false,
    }
}

// Whether a number is noted as that of a diagram that tests places alone.
fn is_noted(
    nodes: &Nodes<Leaf>,
    reached: &Reached,
    spelling: Spelling,
    marks: &[bool],
    d: u64,
) -> bool
    requires { ArePlaced spelling nodes.now reached.now.ids.items marks.now }
    ensures { IsTrue result → AsksPlaces spelling (diagram nodes.now d) }
{
    match reached.place(d) {
        Some(place) => marks.get(place) == Some(&true),
        None => false,
    }
}

// Whether a node's diagram tests places alone, by its ways.
fn asks_places(
    nodes: &Nodes<Leaf>,
    reached: &Reached,
    spelling: Spelling,
    marks: &[bool],
    d: u64,
) -> bool
    requires d { d < length nodes.now }
    requires marks { ArePlaced spelling nodes.now reached.now.ids.items marks.now }
    ensures { IsTrue result → AsksPlaces spelling (diagram nodes.now d) }
{
    match look(nodes, d) {
        Node::Leaf(_) => true,
        Node::Ask { test, yes, no } => {
            if !is_noted(nodes, reached, spelling, marks, *yes) {
                return false;
            }
            if !is_noted(nodes, reached, spelling, marks, *no) {
                return false;
            }
            is_within(spelling, test) && begins_elsewhere(nodes, test, *yes)
        }
    }
}

/// Which of the numbers that are reached are of diagrams that test places alone, spelled as told, each of them for
/// no more once it holds what was asked, by their places. No clause says that any is marked. Refuses for memory alone.
pub(crate) fn mark_places(
    nodes: &Nodes<Leaf>,
    reached: &Reached,
    spelling: Spelling,
) -> Result<Vec<bool>, NoMemory>
    requires { All (λ d. d < length nodes.now) reached.now.ids.items }
    ensures { IfOk result (λ marks. ArePlaced spelling nodes.now reached.now.ids.items marks.items) }
{
    let mut marks = Vec::with_capacity(nodes.allocator(), reached.ids.len())?;
    for id in &reached.ids {
        let next = asks_places(nodes, reached, spelling, &marks, *id);
        marks.push(next)?;
    }
    Ok(marks)
}

// Whether a component is its own class.
fn is_own(ctx: &Context, comp: u16) -> bool
    requires { comp < length ctx.now.classes }
    ensures { IsTrue result → class_of ctx.now.classes comp ≡ Plus comp 0 }
{
    match ctx.class(comp) {
        Term::Num(_) => false,
        Term::Plus { comp: root, plus } => root == comp && plus == 0,
    }
}

// The components of a set that aren't their own classes: they have numbers, or are bound to others.
fn bound_ones(ctx: &Context, comps: u64) -> u64
    ensures { AreKept ctx.now.classes comps result }
{
    let _few = ctx.facts();
    let mut bound = 0;
    for comp in 0..ctx.comps() {
        if is_in(comps, comp) && !is_own(ctx, comp) {
            bound |= bit(comp);
        }
    }
    bound
}

fn class_of_atom(ctx: &Context, atom: Atom) -> Term
    requires { IsAtom (length ctx.now.classes) atom }
    ensures { result ≡ atom_class ctx.now.classes atom }
{
    match atom {
        Atom::Num(num) => Term::Num(num),
        Atom::Comp(comp) => ctx.class(comp),
    }
}

// Whether a component has another class than an atom, or is that atom.
fn is_apart_from(ctx: &Context, atom: Atom, comp: u16) -> bool
    requires atom { IsAtom (length ctx.now.classes) atom }
    requires comp { comp < length ctx.now.classes }
    ensures { IsTrue result → class_of ctx.now.classes comp ≡ atom_class ctx.now.classes atom → atom ≡ Component comp }
{
    atom == Atom::Comp(comp) || ctx.class(comp) != class_of_atom(ctx, atom)
}

// Whether no bound component has the class of an atom, unless it is that atom.
fn is_alone(ctx: &Context, bound: u64, atom: Atom) -> bool
    requires { IsAtom (length ctx.now.classes) atom }
    ensures { IsTrue result → IsAlone ctx.now.classes bound atom }
{
    if bound == 0 {
        return true;
    }
    for comp in 0..ctx.comps() {
        if is_in(bound, comp) && !is_apart_from(ctx, atom, comp) {
            return false;
        }
    }
    true
}

fn is_outside(spelling: Spelling, class: Term) -> bool
    ensures { IsTrue result → IsOutside spelling class }
{
    match class {
        Term::Num(num) => num < spelling.low || spelling.high < num,
        Term::Plus { .. } => true,
    }
}

// Whether a component of a set has no bound one's class but its own.
fn is_set_apart(ctx: &Context, comps: u64, bound: u64, comp: u16) -> bool
    requires { comp < length ctx.now.classes }
    ensures { IsTrue result → has comps comp ≡ true → IsAlone ctx.now.classes bound (Component comp) }
{
    !is_in(comps, comp) || is_alone(ctx, bound, Atom::Comp(comp))
}

// Whether a bound component's number is in no index, and it is in no term.
fn is_unspelled(ctx: &Context, bound: u64, spelling: Spelling, comp: u16) -> bool
    requires { comp < length ctx.now.classes }
    ensures { IsTrue result → has bound comp ≡ true → IsOutside spelling (class_of ctx.now.classes comp) × (has spelling.terms comp ≡ false) }
{
    !is_in(bound, comp) || (is_outside(spelling, ctx.class(comp)) && !is_in(spelling.terms, comp))
}

// Whether the components of a set are told apart from bound ones, and these from all that is spelled.
fn are_apart(ctx: &Context, comps: u64, bound: u64, spelling: Spelling) -> bool
    ensures { IsTrue result → AreApart ctx.now.classes comps bound spelling }
{
    if bound == 0 {
        return true;
    }
    for comp in 0..ctx.comps() {
        if !is_set_apart(ctx, comps, bound, comp) || !is_unspelled(ctx, bound, spelling, comp) {
            return false;
        }
    }
    true
}

// Whether an atom is a number, its own class or bound, and no bound one has its class.
fn atom_is_own(ctx: &Context, bound: u64, atom: Atom) -> bool
    requires { IsAtom (length ctx.now.classes) atom }
    ensures { IsTrue result → AtomIsOwn ctx.now.classes bound atom }
{
    match atom {
        Atom::Num(_) => is_alone(ctx, bound, atom),
        Atom::Comp(comp) => {
            (is_in(bound, comp) || is_own(ctx, comp)) && is_alone(ctx, bound, atom)
        }
    }
}

fn term_is_own(ctx: &Context, term: Term) -> bool
    requires { IsTerm (length ctx.now.classes) term }
    ensures { IsTrue result → TermIsOwn ctx.now.classes term }
{
    match term {
        Term::Num(_) => true,
        Term::Plus { comp, plus: _ } => is_own(ctx, comp),
    }
}

fn index_is_own(ctx: &Context, bound: u64, index: &[Atom]) -> bool
    requires { All (IsAtom (length ctx.now.classes)) index.now }
    ensures { IsTrue result → All (AtomIsOwn ctx.now.classes bound) index.now }
{
    index.iter().all(|atom| atom_is_own(ctx, bound, *atom))
}

// Whether a test is of a place that is told apart from places that are spelled otherwise.
fn test_is_own(ctx: &Context, bound: u64, test: &Test) -> bool
    requires { IsTest (length ctx.now.classes) test.now }
    ensures { IsTrue result → IsOwn ctx.now.classes bound test.now }
{
    match test {
        Test::State {
            var: _,
            index,
            value,
        } => index_is_own(ctx, bound, index.items()) && term_is_own(ctx, *value),
        Test::Value { .. } | Test::Equal { .. } => false,
    }
}

/// Whether a test is surely on no array of a set.
pub(crate) fn is_elsewhere(arrays: u64, test: &Test) -> bool
    ensures { IsTrue result → is_state test.now ≡ true → ¬ (IsAmong arrays (var_of test.now)) }
{
    match test {
        Test::State { var, .. } => *var < 64 && !is_in(arrays, *var),
        Test::Value { .. } | Test::Equal { .. } => true,
    }
}

// Whether a fact is on no array of a set, or its place is told apart from others and it comes before
// a test.
fn stands_aside(
    groups: &Groups,
    ctx: &Context,
    bound: u64,
    arrays: u64,
    fact: &Fact,
    test: &Test,
) -> bool
    requires rank { IsRanked (length groups.now.ranks) test.now }
    requires fact { IsTest (length ctx.now.classes) fact.now.test }
    ensures { IsTrue result → StandsAside groups.now.ranks ctx.now.classes bound arrays test.now fact.now }
{
    is_elsewhere(arrays, fact.test.test())
        || (test_is_own(ctx, bound, fact.test.test()) && comes_before(groups, fact, test))
}

// Whether all facts do.
fn all_aside(
    groups: &Groups,
    ctx: &Context,
    bound: u64,
    arrays: u64,
    facts: &Facts,
    test: &Test,
) -> bool
    requires rank { IsRanked (length groups.now.ranks) test.now }
    requires facts { All (λ f. IsTest (length ctx.now.classes) f.test) facts.now }
    ensures { IsTrue result → All (StandsAside groups.now.ranks ctx.now.classes bound arrays test.now) facts.now }
{
    for fact in facts.iter() {
        if !stands_aside(groups, ctx, bound, arrays, fact, test) {
            return false;
        }
    }
    true
}

// Facts and tests of which the model of a context is known to hold twice as many.
const MOST: u64 = 2_147_483_648;

/// Whether a diagram tests places alone, behind all facts on its arrays, and places and terms that are spelled
/// differently there differ, as far as marks tell: then each way of each test is met under the context.
pub(crate) fn stays_free(
    nodes: &Nodes<Leaf>,
    groups: &Groups,
    ctx: &Context,
    reached: &Reached,
    spelling: Spelling,
    marks: &[bool],
    tested: &[Option<Tested>],
    d: u64,
) -> bool
    requires d { IsWellFormedDiagram groups.now ctx.now nodes.now d }
    requires placed { ArePlaced spelling nodes.now reached.now.ids.items marks.now }
    requires tested { AreTested nodes.now reached.now.ids.items tested.now }
    ensures { IsTrue result → IsLive (Met ctx.now) (diagram nodes.now d) }
{
    let _arena = nodes.count();
    let facts = ctx.facts();
    if !is_noted(nodes, reached, spelling, marks, d) {
        return false;
    }
    if d > MOST || facts.len() as u64 > MOST {
        return false;
    }
    let Some(mark) = mark_at(nodes, reached, tested, d) else {
        return false;
    };
    let bound = bound_ones(ctx, mark.comps);
    if !are_apart(ctx, mark.comps, bound, spelling) {
        return false;
    }
    match look(nodes, d) {
        Node::Leaf(_) => true,
        Node::Ask {
            test,
            yes: _,
            no: _,
        } => all_aside(groups, ctx, bound, mark.arrays, facts, test),
    }
}
