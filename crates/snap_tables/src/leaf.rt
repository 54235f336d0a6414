//! Stages, updates and outs of leaves.

ghost use Rattle.std.specs.Prelude.{◌≡◌, IfOk, MatchOption};
ghost use Rattle.snap_rows.specs.Form.{atom_cmp};
ghost use Rattle.snap_tables.specs.Pieces.{is_adjacent};
ghost use Rattle.snap_tables.specs.Reading.{words_left};
ghost use Rattle.snap_tables.specs.Rows.{AreOutsSaid, AreStagesTaken, AreUpdatesTaken, IsNoOuts, IsNoStages, IsNoUpdates, parts_less, rank_among, rises_from, stands_apart};

use crate::piece::{Counts, take_all};
use crate::taken::no_words;
use snap_core::NoMemory;
use snap_core::lists::{Out, Outs, Updates};
use snap_core::policy::{Atom, Update};
use snap_rows::lists::Stages;
use snap_rows::tables::{ArrayAt, Stage};
use std::alloc::Global;
use std::cmp::Ordering;

fn atom_cmp(a: Atom, b: Atom) -> Ordering
    ensures { result ≡ atom_cmp a b }
{
    match (a, b) {
        (Atom::Num(a), Atom::Num(b)) => a.cmp(&b),
        (Atom::Num(_), Atom::Comp(_)) => Ordering::Less,
        (Atom::Comp(_), Atom::Num(_)) => Ordering::Greater,
        (Atom::Comp(a), Atom::Comp(b)) => a.cmp(&b),
    }
}

// Whether the parts of an out stand below those of another.
fn parts_below(a: &[(u16, Atom)], b: &[(u16, Atom)]) -> bool
    ensures { result ≡ parts_less a.now b.now }
{
    let mut left = a;
    let mut right = b;
    while let Some((x, more)) = left.split_first() {
        let Some((y, others)) = right.split_first() else {
            return false;
        };
        match x.0.cmp(&y.0).then(atom_cmp(x.1, y.1)) {
            Ordering::Less => return true,
            Ordering::Greater => return false,
            Ordering::Equal => {}
        }
        left = more;
        right = others;
    }
    !right.is_empty()
}

// Whether each out stands below the next.
fn outs_rise(outs: &[Out]) -> bool
    ensures { result ≡ is_adjacent parts_less outs.now }
{
    let Some((first, behind)) = outs.split_first() else {
        return true;
    };
    let mut last = first;
    let mut rest = behind;
    while let Some((next, more)) = rest.split_first() {
        if !parts_below(last.parts(), next.parts()) {
            return false;
        }
        last = next;
        rest = more;
    }
    true
}

// Whether stages next to each other have different switches.
fn alternate(stages: &[Stage]) -> bool
    ensures { result ≡ is_adjacent stands_apart stages.now }
{
    let Some((first, behind)) = stages.split_first() else {
        return true;
    };
    let mut last = first;
    let mut rest = behind;
    while let Some((next, more)) = rest.split_first() {
        if last.at == next.at {
            return false;
        }
        last = next;
        rest = more;
    }
    true
}

fn rank_among(arrays: &[ArrayAt], var: u16) -> u16
    ensures { result ≡ rank_among arrays.now var }
{
    match arrays.get(var as usize) {
        Some(array) => array.rank,
        None => 0,
    }
}

// Whether the ranks of updates never fall.
fn ranks_rise(arrays: &[ArrayAt], updates: &[Update]) -> bool
    ensures { result ≡ rises_from arrays.now 0 updates.now }
{
    let mut last = 0;
    let mut rest = updates;
    while let Some((next, more)) = rest.split_first() {
        let rank = rank_among(arrays, next.var);
        if rank < last {
            return false;
        }
        last = rank;
        rest = more;
    }
    true
}

/// The outs that all words say.
pub(crate) fn outs_said(
    alloc: Global,
    counts: Counts,
    rest: Option<&[u8]>,
) -> Result<Option<Outs>, NoMemory>
    ensures { IfOk result (λ said. MatchOption said (IsNoOuts counts (words_left rest.entry)) (λ outs. AreOutsSaid counts (words_left rest.entry) outs)) }
{
    match take_all::<Out>(alloc, counts, rest)? {
        None => Ok(None),
        Some((outs, left)) => {
            if !outs_rise(&outs) {
                return Ok(None);
            }
            if !no_words(left) {
                return Ok(None);
            }
            Ok(Some(Outs::new(outs)))
        }
    }
}

/// The stages at the front of words, and the words behind them.
pub(crate) fn take_stages<'a>(
    alloc: Global,
    counts: Counts,
    rest: Option<&'a [u8]>,
) -> Result<Option<(Stages, Option<&'a [u8]>)>, NoMemory>
    ensures { IfOk result (λ said. MatchOption said (IsNoStages counts (words_left rest.entry)) (λ pair. AreStagesTaken counts (words_left rest.entry) pair.0 (words_left pair.1))) }
{
    match take_all::<Stage>(alloc, counts, rest)? {
        None => Ok(None),
        Some((stages, left)) => {
            if !alternate(&stages) {
                return Ok(None);
            }
            if stages.len() > 65_535 {
                return Ok(None);
            }
            Ok(Some((Stages::new(stages), left)))
        }
    }
}

/// The updates of rising ranks at the front of words, and the words behind them.
pub(crate) fn take_ranked<'a>(
    alloc: Global,
    counts: Counts,
    arrays: &[ArrayAt],
    rest: Option<&'a [u8]>,
) -> Result<Option<(Updates, Option<&'a [u8]>)>, NoMemory>
    ensures { IfOk result (λ said. MatchOption said (IsNoUpdates counts arrays.now (words_left rest.entry)) (λ pair. AreUpdatesTaken counts arrays.now (words_left rest.entry) pair.0 (words_left pair.1))) }
{
    match take_all::<Update>(alloc, counts, rest)? {
        None => Ok(None),
        Some((updates, left)) => {
            if !ranks_rise(arrays, &updates) {
                return Ok(None);
            }
            Ok(Some((Updates::new(updates), left)))
        }
    }
}
