//! What a diagram's leaves set and update: a look before one part comes after another, so that what isn't touched is
//! left as it is.

ghost use Rattle.std.specs.Prelude.{◌≡◌, ◌<◌, List, All, true, false, IfOk, IfSome, IsTrue, length};
ghost use Rattle.snap_core.specs.declared.policy.Update.{Update};
ghost use Rattle.snap_diagrams.specs.declared.node.Node.{Node};
ghost use Rattle.snap_diagrams.specs.declared.leaf.Leaf.{Leaf};
ghost use Rattle.snap_diagrams.specs.Diagrams.{Diagram, diagram};
ghost use Rattle.snap_diagrams.specs.Reached.{AreNoted};
ghost use Rattle.snap_compose.specs.Marks.{either_mark, AreLogged, AreMarked, AtomMissed, IsMarkedBy, IsMissed, LeafMarked, LogsUpdates, SetsAmong, TermMissed, TestMarked, TestMissed, UpdatesAmong};

use snap_context::sets::{bit, is_in};
use snap_core::NoMemory;
use snap_core::lists::{Atoms, Out};
use snap_core::policy::{Atom, Term, Test, Update};
use snap_diagrams::leaf::Leaf;
use snap_diagrams::node::Node;
use snap_diagrams::nodes::Nodes;
use snap_diagrams::pick::look;
use snap_diagrams::reach::{Reached, reach_from};

/// The components that a diagram's leaves set, the variables that they update and those that the diagram tests, a bit
/// each, whether a leaf logs a write, and whether leaves log all that they update.
#[derive(Clone, Copy)]
pub struct Mark {
    pub sets: u64,
    pub updates: u64,
    pub tests: u64,
    pub writes: bool,
    pub framed: bool,
}

// Whether a set of 64 bits tells that a number isn't in it.
fn misses(set: u64, number: u16) -> bool
    ensures { IsTrue result → IsMissed set number }
{
    number < 64 && !is_in(set, number)
}

fn misses_atom(mark: Mark, atom: Atom) -> bool
    ensures { IsTrue result → AtomMissed mark atom }
{
    match atom {
        Atom::Num(_) => true,
        Atom::Comp(comp) => misses(mark.sets, comp),
    }
}

fn misses_term(mark: Mark, term: Term) -> bool
    ensures { IsTrue result → TermMissed mark term }
{
    match term {
        Term::Num(_) => true,
        Term::Plus { comp, plus: _ } => misses(mark.sets, comp),
    }
}

fn misses_index(mark: Mark, index: &Atoms) -> bool
    ensures { IsTrue result → All (AtomMissed mark) index.now }
{
    index.items().iter().all(|atom| misses_atom(mark, *atom))
}

/// Whether the leaves leave as it is what a test asks.
pub fn misses_test(mark: Mark, test: &Test) -> bool
    ensures { IsTrue result → TestMissed mark test.now }
{
    match test {
        Test::Value { comp, num: _ } => misses(mark.sets, *comp),
        Test::Equal {
            left,
            right,
            plus: _,
        } => misses(mark.sets, *left) && misses(mark.sets, *right),
        Test::State { var, index, value } => {
            misses(mark.updates, *var) && misses_index(mark, index) && misses_term(mark, *value)
        }
    }
}

/// Whether a diagram tests none of the arrays that updates change.
pub fn misses_updates(mark: Mark, updates: &[Update]) -> bool
    ensures { IsTrue result → All (λ (u : Update). IsMissed mark.tests u.var) updates.now }
{
    updates.iter().all(|update| misses(mark.tests, update.var))
}

fn either(a: Mark, b: Mark) -> Mark
    ensures { result ≡ either_mark a b }
{
    Mark {
        sets: a.sets | b.sets,
        updates: a.updates | b.updates,
        tests: a.tests | b.tests,
        writes: a.writes || b.writes,
        framed: a.framed && b.framed,
    }
}

// The components that an out sets.
fn set_by(out: &Out) -> u64
    ensures { SetsAmong result out.now }
{
    let mut set = 0;
    for part in out.parts() {
        set |= bit(part.0);
    }
    set
}

fn set_by_all(outs: &[Out]) -> u64
    ensures { All (SetsAmong result) outs.now }
{
    let mut set = 0;
    for out in outs {
        set |= set_by(out);
    }
    set
}

// The variables that updates change.
fn updated_by(updates: &[Update]) -> u64
    ensures { UpdatesAmong result updates.now }
{
    let mut set = 0;
    for update in updates {
        set |= bit(update.var);
    }
    set
}

// Whether all variables that updates change are in a set.
fn are_logged(set: u64, updates: &[Update]) -> bool
    ensures { IsTrue result → AreLogged set updates.now }
{
    updates.iter().all(|update| is_in(set, update.var))
}

fn leaf_mark(leaf: &Leaf) -> Mark
    ensures { LeafMarked result leaf.now }
{
    match leaf {
        Leaf::Race => Mark {
            sets: 0,
            updates: 0,
            tests: 0,
            writes: false,
            framed: true,
        },
        Leaf::Go(go) => Mark {
            sets: set_by_all(go.outs.items()),
            updates: updated_by(go.ups.items()),
            tests: 0,
            writes: go.writes != 0,
            framed: are_logged(go.writes, go.ups.items()),
        },
    }
}

fn test_mark(test: &Test) -> Mark
    ensures { TestMarked result test.now }
{
    let tests = match test {
        Test::State { var, .. } => bit(*var),
        _ => 0,
    };
    Mark {
        sets: 0,
        updates: 0,
        tests,
        writes: false,
        framed: true,
    }
}

// The mark that says nothing is missed.
fn anything() -> Mark
    ensures { (d : Diagram) → IsMarkedBy result d }
{
    Mark {
        sets: u64::MAX,
        updates: u64::MAX,
        tests: u64::MAX,
        writes: true,
        framed: false,
    }
}

// The mark that is noted for a number, where one is.
fn noted_mark(reached: &Reached, noted: &[Mark], d: u64) -> Option<Mark>
    ensures { IfSome result (λ mark. (ns : List (Node Leaf)) → AreNoted IsMarkedBy ns reached.now.ids.items noted.now → IsMarkedBy mark (diagram ns d)) }
{
    noted.get(reached.place(d)?).copied()
}

// The mark of a number, as far as one is noted.
fn mark_at(reached: &Reached, noted: &[Mark], d: u64) -> Mark
    ensures { (ns : List (Node Leaf)) → AreNoted IsMarkedBy ns reached.now.ids.items noted.now → IsMarkedBy result (diagram ns d) }
{
    match noted_mark(reached, noted, d) {
        Some(mark) => mark,
        None => anything(),
    }
}

// The mark of a number, by those of its ways.
fn next_mark(nodes: &Nodes<Leaf>, reached: &Reached, noted: &[Mark], d: u64) -> Mark
    requires d { d < length nodes.now }
    requires noted { AreNoted IsMarkedBy nodes.now reached.now.ids.items noted.now }
    ensures { IsMarkedBy result (diagram nodes.now d) }
{
    match look(nodes, d) {
        Node::Leaf(leaf) => leaf_mark(leaf),
        Node::Ask { test, yes, no } => {
            let ways = either(mark_at(reached, noted, *yes), mark_at(reached, noted, *no));
            either(test_mark(test), ways)
        }
    }
}

/// Marks of the numbers that are reached from some.
#[derive(Drop)]
pub struct Marks {
    reached: Reached,
    // By the places of the numbers.
    noted: Vec<Mark>,
}

impl Marks {
    /// The mark of a number. Where it isn't reached, nothing is missed.
    pub fn of(&self, d: u64) -> Mark
        ensures { (ns : List (Node Leaf)) → AreMarked ns self.now → IsMarkedBy result (diagram ns d) }
    {
        mark_at(&self.reached, &self.noted, d)
    }

    /// Whether each leaf that is reached from a number logs all that it updates, as far as the mark tells.
    pub fn logs_updates(&self, d: u64) -> bool
        ensures { IsTrue result → (ns : List (Node Leaf)) → AreMarked ns self.now → LogsUpdates (diagram ns d) }
    {
        self.of(d).framed
    }
}

// The marks of the numbers that are reached, by their places.
fn mark_each(nodes: &Nodes<Leaf>, reached: &Reached) -> Result<Vec<Mark>, NoMemory>
    requires { All (λ d. d < length nodes.now) reached.now.ids.items }
    ensures { IfOk result (λ noted. AreNoted IsMarkedBy nodes.now reached.now.ids.items noted.items) }
{
    let mut noted = Vec::with_capacity(nodes.allocator(), reached.ids.len())?;
    for id in &reached.ids {
        let next = next_mark(nodes, reached, &noted, *id);
        noted.push(next)?;
    }
    Ok(noted)
}

/// The marks of the numbers that are reached from these. Refuses for memory alone.
pub fn marks_from(nodes: &Nodes<Leaf>, roots: &[u64]) -> Result<Marks, NoMemory>
    requires { All (λ d. d < length nodes.now) roots.now }
    ensures { IfOk result (AreMarked nodes.now) }
{
    let reached = reach_from(nodes, roots)?;
    let noted = mark_each(nodes, &reached)?;
    Ok(Marks { reached, noted })
}
