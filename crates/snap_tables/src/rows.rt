//! Updates and tests, taken from the front of a line's words.

ghost use Rattle.std.specs.Prelude.{◌≡◌, ◌-◌, Some, None, IfOk, MatchOption};
ghost use Rattle.snap_tables.specs.Reading.{begins_update, atom_said, by_taken, equal_taken, index_said, op_said, state_taken, taken, term_said, update_taken, value_taken, words_left};

use crate::reader::{atom_said, index_said, next_word, term_said};
use crate::scan::is_text;
use crate::taken::{take_below, take_u64};
use snap_core::NoMemory;
use snap_core::lists::Atoms;
use snap_core::policy::{Atom, Op, Term, Test, Update};
use std::alloc::Global;

fn op_said(word: &[u8]) -> Option<bool>
    ensures { result ≡ op_said word.now }
{
    if is_text(word, b"put") {
        Some(true)
    } else if is_text(word, b"add") {
        Some(false)
    } else {
        None
    }
}

fn take_op<'a>(rest: Option<&'a [u8]>) -> Option<(bool, Option<&'a [u8]>)>
    ensures { MatchOption result (taken op_said (words_left rest.entry) ≡ None) (λ pair. taken op_said (words_left rest.entry) ≡ Some (pair.0, words_left pair.1)) }
{
    let (word, behind) = next_word(rest)?;
    match op_said(word) {
        None => None,
        Some(is_put) => Some((is_put, behind)),
    }
}

fn take_atom<'a>(comps: u16, rest: Option<&'a [u8]>) -> Option<(Atom, Option<&'a [u8]>)>
    ensures { MatchOption result (taken (atom_said comps) (words_left rest.entry) ≡ None) (λ pair. taken (atom_said comps) (words_left rest.entry) ≡ Some (pair.0, words_left pair.1)) }
{
    let (word, behind) = next_word(rest)?;
    match atom_said(comps, word) {
        None => None,
        Some(atom) => Some((atom, behind)),
    }
}

fn take_term<'a>(comps: u16, rest: Option<&'a [u8]>) -> Option<(Term, Option<&'a [u8]>)>
    ensures { MatchOption result (taken (term_said comps) (words_left rest.entry) ≡ None) (λ pair. taken (term_said comps) (words_left rest.entry) ≡ Some (pair.0, words_left pair.1)) }
{
    let (word, behind) = next_word(rest)?;
    match term_said(comps, word) {
        None => None,
        Some(term) => Some((term, behind)),
    }
}

fn take_index<'a>(
    alloc: Global,
    comps: u16,
    rest: Option<&'a [u8]>,
) -> Result<Option<(Atoms, Option<&'a [u8]>)>, NoMemory>
    ensures { IfOk result (λ said. MatchOption said (taken (index_said comps) (words_left rest.entry) ≡ None) (λ pair. taken (index_said comps) (words_left rest.entry) ≡ Some (pair.0, words_left pair.1))) }
{
    let Some((word, behind)) = next_word(rest) else {
        return Ok(None);
    };
    match index_said(alloc, comps, word)? {
        None => Ok(None),
        Some(index) => Ok(Some((index, behind))),
    }
}

// What an update does.
fn take_by<'a>(comps: u16, is_put: bool, rest: Option<&'a [u8]>) -> Option<(Op, Option<&'a [u8]>)>
    ensures { MatchOption result (by_taken comps is_put (words_left rest.entry) ≡ None) (λ pair. by_taken comps is_put (words_left rest.entry) ≡ Some (pair.0, words_left pair.1)) }
{
    if is_put {
        match take_atom(comps, rest) {
            None => None,
            Some((atom, behind)) => Some((Op::Put(atom), behind)),
        }
    } else {
        match take_u64(rest) {
            None => None,
            Some((number, behind)) => {
                if 0 < number {
                    Some((Op::Add(number), behind))
                } else {
                    None
                }
            }
        }
    }
}

/// An update.
pub(crate) fn take_update<'a>(
    alloc: Global,
    comps: u16,
    arrays: u16,
    rest: Option<&'a [u8]>,
) -> Result<Option<(Update, Option<&'a [u8]>)>, NoMemory>
    ensures { IfOk result (λ said. MatchOption said (update_taken comps arrays (words_left rest.entry) ≡ None) (λ pair. update_taken comps arrays (words_left rest.entry) ≡ Some (pair.0, words_left pair.1))) }
{
    let Some((is_put, rest)) = take_op(rest) else {
        return Ok(None);
    };
    let Some((var, rest)) = take_below(arrays, rest) else {
        return Ok(None);
    };
    let Some((index, rest)) = take_index(alloc, comps, rest)? else {
        return Ok(None);
    };
    let Some((op, rest)) = take_by(comps, is_put, rest) else {
        return Ok(None);
    };
    Ok(Some((Update { var, index, op }, rest)))
}

// The test of a component and a number.
pub(crate) fn take_value<'a>(comps: u16, rest: Option<&'a [u8]>) -> Option<(Test, Option<&'a [u8]>)>
    ensures { MatchOption result (value_taken comps (words_left rest.entry) ≡ None) (λ pair. value_taken comps (words_left rest.entry) ≡ Some (pair.0, words_left pair.1)) }
{
    let (comp, rest) = take_below(comps, rest)?;
    let (num, rest) = take_u64(rest)?;
    Some((Test::Value { comp, num }, rest))
}

// The test of two components.
pub(crate) fn take_equal<'a>(comps: u16, rest: Option<&'a [u8]>) -> Option<(Test, Option<&'a [u8]>)>
    ensures { MatchOption result (equal_taken comps (words_left rest.entry) ≡ None) (λ pair. equal_taken comps (words_left rest.entry) ≡ Some (pair.0, words_left pair.1)) }
{
    let (left, rest) = take_below(comps, rest)?;
    let (right, rest) = take_below(comps, rest)?;
    let (plus, rest) = take_u64(rest)?;
    if left < right {
        Some((Test::Equal { left, right, plus }, rest))
    } else {
        None
    }
}

// The state test.
pub(crate) fn take_state<'a>(
    alloc: Global,
    comps: u16,
    arrays: u16,
    rest: Option<&'a [u8]>,
) -> Result<Option<(Test, Option<&'a [u8]>)>, NoMemory>
    ensures { IfOk result (λ said. MatchOption said (state_taken comps arrays (words_left rest.entry) ≡ None) (λ pair. state_taken comps arrays (words_left rest.entry) ≡ Some (pair.0, words_left pair.1))) }
{
    let Some((var, rest)) = take_below(arrays, rest) else {
        return Ok(None);
    };
    let Some((index, rest)) = take_index(alloc, comps, rest)? else {
        return Ok(None);
    };
    let Some((value, rest)) = take_term(comps, rest) else {
        return Ok(None);
    };
    Ok(Some((Test::State { var, index, value }, rest)))
}

/// Whether an update comes next.
pub(crate) fn begins_update(rest: Option<&[u8]>) -> bool
    ensures { result ≡ begins_update (words_left rest.entry) }
{
    match next_word(rest) {
        None => false,
        Some((word, _)) => op_said(word).is_some(),
    }
}
