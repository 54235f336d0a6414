//! What a diagram tests: a look before pruning, so that what can't be dead is left as it is.

ghost use Rattle.std.specs.Prelude.{◌↔◌, ◌<◌, All, IfOk, IsTrue, length, slice_get};
ghost use Rattle.snap_diagrams.specs.Quiet.{AtomIsFree, IndexIsFine, IsClear, IsFine, SeenClear};
ghost use Rattle.snap_core.specs.Terms.{IsNumber};

use crate::leaf::Leaf;
use crate::node::Node;
use crate::nodes::Nodes;
use crate::reach::Reached;
use crate::spots::{TestedPlace, is_at, note_spot, spots_apart};
use snap_context::sets::is_in;
use snap_core::NoMemory;
use snap_core::bits::{know_index, know_term};
use snap_core::lists::Atoms;
use snap_core::policy::{Atom, Term, Test};
use std::alloc::Global;

/// At which places an array is tested.
#[derive(Drop)]
pub enum Seen {
    /// At these, each for numbers or for one term, and no two turn out to be one.
    Few(Vec<TestedPlace>),
    /// At others too.
    Many,
}

/// The components that are tested for numbers, a bit each, and the places of each array.
#[derive(Drop)]
pub struct Survey {
    pub values: u64,
    pub arrays: Vec<Seen>,
}

// The most places that are remembered of an array: they are compared in pairs.
const MOST_SPOTS: usize = 128;

impl Survey {
    // Nothing was tested.
    fn new(alloc: Global, arrays: usize) -> Result<Survey, NoMemory> {
        let mut seen = Vec::with_capacity(alloc, arrays)?;
        for _ in 0..arrays {
            seen.push(Seen::Few(Vec::new(alloc)))?;
        }
        Ok(Survey {
            values: 0,
            arrays: seen,
        })
    }

    // Takes note of a test.
    fn note(&mut self, test: &Test) -> Result<(), NoMemory> {
        match test {
            Test::Value { comp, num: _ } => {
                if *comp < 64 {
                    self.values |= 1 << *comp;
                }
            }
            Test::Equal { .. } => {}
            Test::State { var, index, value } => self.note_place(*var as usize, index, *value)?,
        }
        Ok(())
    }

    fn note_place(&mut self, var: usize, index: &Atoms, term: Term) -> Result<(), NoMemory> {
        if var >= self.arrays.len() {
            return Ok(());
        }
        let Seen::Few(spots) = &mut self.arrays[var] else {
            return Ok(());
        };
        if !note_spot(spots, index, term)? || spots.len() > MOST_SPOTS {
            self.arrays[var] = Seen::Many;
        }
        Ok(())
    }

    fn is_free(&self, atom: Atom) -> bool
        ensures { IsTrue result ↔ AtomIsFree self.now atom }
    {
        match atom {
            Atom::Num(_) => true,
            Atom::Comp(comp) => !is_in(self.values, comp),
        }
    }

    fn are_free(&self, index: &Atoms) -> bool
        ensures { IsTrue result ↔ All (AtomIsFree self.now) index.now }
    {
        index.items().iter().all(|atom| self.is_free(*atom))
    }

    fn has_place(&self, var: u16, index: &Atoms, term: Term) -> bool
        ensures { IsTrue result → IndexIsFine self.now (slice_get self.now.arrays.items var) index.now term }
    {
        match self.arrays.get(var as usize) {
            Some(Seen::Few(spots)) => is_at(spots, index, term),
            Some(Seen::Many) => is_number(term) && self.are_free(index),
            None => false,
        }
    }

    /// Whether a test is of a number or of its place's one term, at a subject that no other turns out
    /// to be.
    pub(crate) fn is_fine(&self, test: &Test) -> bool
        ensures { IsTrue result → IsFine self.now test.now }
    {
        match test {
            Test::Value { comp, num } => {
                let _num = *num;
                is_in(self.values, *comp)
            }
            Test::Equal { .. } => false,
            Test::State { var, index, value } => {
                know_term(*value);
                know_index(index.items());
                self.has_place(*var, index, *value)
            }
        }
    }
}

fn is_number(term: Term) -> bool
    ensures { IsTrue result → IsNumber term }
{
    match term {
        Term::Num(_) => true,
        Term::Plus { .. } => false,
    }
}

// The places of an array, where no two turn out to be one.
fn judged(values: u64, seen: Seen) -> Seen
    ensures { SeenClear values result }
{
    match seen {
        Seen::Few(spots) => {
            if spots_apart(values, &spots) {
                Seen::Few(spots)
            } else {
                Seen::Many
            }
        }
        Seen::Many => Seen::Many,
    }
}

fn all_judged(alloc: Global, values: u64, arrays: Vec<Seen>) -> Result<Vec<Seen>, NoMemory>
    ensures { IfOk result (λ arrays. All (SeenClear values) arrays.items) }
{
    let mut all = Vec::new(alloc);
    for seen in arrays {
        all.push(judged(values, seen))?;
    }
    Ok(all)
}

/// What the tests of the nodes that are reached are. Places of an array that may turn out to be one aren't told
/// apart; no clause says that others are. Refuses for memory alone.
pub(crate) fn look_over(
    nodes: &Nodes<Leaf>,
    arrays: usize,
    reached: &Reached,
) -> Result<Survey, NoMemory>
    requires { All (λ d. d < length nodes.now) reached.now.ids.items }
    ensures { IfOk result IsClear }
{
    let alloc = nodes.allocator();
    let mut survey = Survey::new(alloc, arrays)?;
    for id in &reached.ids {
        if let Node::Ask { test, .. } = nodes.get(*id) {
            survey.note(test)?;
        }
    }
    let arrays = all_judged(alloc, survey.values, survey.arrays)?;
    Ok(Survey {
        values: survey.values,
        arrays,
    })
}
