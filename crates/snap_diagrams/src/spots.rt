//! Places of one array that no store and packet make one.

ghost use Rattle.std.specs.Prelude.{◌≡◌, ◌↔◌, IsTrue};
ghost use Rattle.std.specs.List.{All};

use crate::equal::same_index;
use snap_context::sets::is_in;
use snap_core::NoMemory;
use snap_core::lists::Atoms;
use snap_core::policy::{Atom, Term};

/// What a place is tested for.
#[derive(Clone, Copy)]
pub enum Asked {
    /// Numbers.
    Numbers,
    /// One term.
    Only(Term),
}

/// A place, and what it is tested for.
#[derive(Drop)]
pub struct TestedPlace {
    pub index: Atoms,
    pub asked: Asked,
}

ghost use Rattle.snap_diagrams.specs.declared.spots.TestedPlace.{TestedPlace};
ghost use Rattle.snap_diagrams.specs.Spots.{AskedFor, AtomsApart, IndicesApart, IsAt, SpotsApart};

fn same_term(a: Term, b: Term) -> bool
    ensures { IsTrue result ↔ (a ≡ b) }
{
    a == b
}

impl Asked {
    fn is_for(self, term: Term) -> bool
        ensures { IsTrue result → AskedFor self term }
    {
        match self {
            Asked::Numbers => match term {
                Term::Num(_) => true,
                Term::Plus { .. } => false,
            },
            Asked::Only(other) => same_term(term, other),
        }
    }

    fn by(term: Term) -> Asked
        ensures { AskedFor result term }
    {
        match term {
            Term::Num(_) => Asked::Numbers,
            Term::Plus { .. } => Asked::Only(term),
        }
    }
}

// Takes note of a test of a place. Not where the place is tested for something else.
pub(crate) fn note_spot(
    spots: &mut Vec<TestedPlace>,
    index: &Atoms,
    term: Term,
) -> Result<bool, NoMemory> {
    for spot in spots.iter() {
        if same_index(spot.index.items(), index.items()) {
            return Ok(spot.asked.is_for(term));
        }
    }
    spots.push(TestedPlace {
        index: index.copy()?,
        asked: Asked::by(term),
    })?;
    Ok(true)
}

fn is_spot(spot: &TestedPlace, index: &Atoms, term: Term) -> bool
    ensures { IsTrue result → ((spot.now.index ≡ index.now) × AskedFor spot.now.asked term) }
{
    same_index(spot.index.items(), index.items()) && spot.asked.is_for(term)
}

// Whether a place is among the spots, and tested for the term.
pub(crate) fn is_at(spots: &[TestedPlace], index: &Atoms, term: Term) -> bool
    ensures { IsTrue result → IsAt spots.now index.now term }
{
    for i in 0..spots.len() {
        if is_spot(&spots[i], index, term) {
            return true;
        }
    }
    false
}

fn atoms_apart(values: u64, a: Atom, b: Atom) -> bool
    ensures { IsTrue result → AtomsApart values a b }
{
    match a {
        Atom::Num(num) => match b {
            Atom::Num(other) => num != other,
            Atom::Comp(comp) => !is_in(values, comp),
        },
        Atom::Comp(comp) => match b {
            Atom::Num(_) => !is_in(values, comp),
            Atom::Comp(other) => comp != other && !(is_in(values, comp) && is_in(values, other)),
        },
    }
}

fn indices_apart(values: u64, a: &[Atom], b: &[Atom]) -> bool
    ensures { IsTrue result → IndicesApart values a.now b.now }
{
    if a.len() != b.len() {
        return true;
    }
    for i in 0..a.len() {
        if atoms_apart(values, a[i], b[i]) {
            return true;
        }
    }
    false
}

fn is_apart(values: u64, before: &[TestedPlace], spot: &TestedPlace) -> bool
    ensures { IsTrue result → All (λ (other : TestedPlace). IndicesApart values other.index spot.now.index) before.now }
{
    before.iter().all(|other| indices_apart(values, other.index.items(), spot.index.items()))
}

/// Whether no two of the places turn out to be one, where the components of a set have numbers.
pub(crate) fn spots_apart(values: u64, spots: &[TestedPlace]) -> bool
    ensures { IsTrue result → SpotsApart values spots.now }
{
    for i in 0..spots.len() {
        if !is_apart(values, &spots[..i], &spots[i]) {
            return false;
        }
    }
    true
}
