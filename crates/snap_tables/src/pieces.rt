//! The pieces of rows: parts of outs, updates, outs and stages.

ghost use Rattle.std.specs.Prelude.{◌≡◌, true};
ghost use Rattle.snap_tables.specs.Pieces.{is_adjacent};
ghost use Rattle.snap_tables.specs.Reading.{words_left};
ghost use Rattle.snap_tables.specs.Rows.{is_part_word, opens_part, opens_with, part_less};

use crate::piece::{Counts, Piece, take_all};
use crate::reader::{next_word, part_said};
use crate::rows::{begins_update, take_update};
use crate::taken::{opened, take_below};
use snap_core::NoMemory;
use snap_core::lists::{Out, Updates};
use snap_core::policy::{Atom, Update};
use snap_rows::tables::Stage;
use std::alloc::Global;
use std::cmp::Ordering;

// Whether the first word is this one.
pub(crate) fn begins_with(keyword: &[u8], rest: Option<&[u8]>) -> bool
    ensures { result ≡ opens_with keyword.now (words_left rest.entry) }
{
    opened(keyword, rest).is_some()
}

fn is_part_word(word: &[u8]) -> bool
    ensures { result ≡ is_part_word word.now }
{
    match word.split_first() {
        None => false,
        Some((first, _)) => *first == b'c',
    }
}

fn begins_part(rest: Option<&[u8]>) -> bool
    ensures { result ≡ opens_part (words_left rest.entry) }
{
    match next_word(rest) {
        None => false,
        Some((word, _)) => is_part_word(word),
    }
}

impl Piece for (u16, Atom) {
    ghost use Rattle.snap_tables.specs.Laws.{IsPart};
    ghost use Rattle.snap_tables.specs.Rows.{never, opens_part, part_words};

    ghost spelled = { λ p. part_words p };

    ghost fits = { λ k p. IsPart k.comps p };

    ghost opens = { λ ws. opens_part ws };

    ghost goes_on = { λ ws. never ws };

    fn begins(rest: Option<&[u8]>) -> bool {
        begins_part(rest)
    }

    fn take<'a>(
        alloc: Global,
        counts: Counts,
        rest: Option<&'a [u8]>,
    ) -> Result<Option<(Self, Option<&'a [u8]>)>, NoMemory> {
        let Some((word, behind)) = next_word(rest) else {
            return Ok(None);
        };
        match part_said(counts.comps, word) {
            None => Ok(None),
            Some(part) => Ok(Some((part, behind))),
        }
    }
}

impl Piece for Update {
    ghost use Rattle.snap_tables.specs.Laws.{IsUpdateOf};
    ghost use Rattle.snap_tables.specs.Reading.{begins_update};
    ghost use Rattle.snap_tables.specs.Rows.{never};
    ghost use Rattle.snap_tables.specs.Text.{update_words};

    ghost spelled = { λ u. update_words u };

    ghost fits = { λ k u. IsUpdateOf k.comps k.arrays u };

    ghost opens = { λ ws. begins_update ws };

    ghost goes_on = { λ ws. never ws };

    fn begins(rest: Option<&[u8]>) -> bool {
        begins_update(rest)
    }

    fn take<'a>(
        alloc: Global,
        counts: Counts,
        rest: Option<&'a [u8]>,
    ) -> Result<Option<(Self, Option<&'a [u8]>)>, NoMemory> {
        take_update(alloc, counts.comps, counts.arrays, rest)
    }
}

// Whether the components of parts rise.
fn parts_rise(parts: &[(u16, Atom)]) -> bool
    ensures { result ≡ is_adjacent part_less parts.now }
{
    let Some((first, behind)) = parts.split_first() else {
        return true;
    };
    let mut last = first;
    let mut rest = behind;
    while let Some((next, more)) = rest.split_first() {
        if next.0 <= last.0 {
            return false;
        }
        last = next;
        rest = more;
    }
    true
}

impl Piece for Out {
    ghost use Rattle.snap_tables.specs.Rows.{IsOut, opens_out, opens_part};
    ghost use Rattle.snap_tables.specs.Text.{out_words};

    ghost spelled = { λ o. out_words o };

    ghost fits = { λ k o. IsOut k o };

    ghost opens = { λ ws. opens_out ws };

    ghost goes_on = { λ ws. opens_part ws };

    fn begins(rest: Option<&[u8]>) -> bool {
        begins_with(b"out", rest)
    }

    fn take<'a>(
        alloc: Global,
        counts: Counts,
        rest: Option<&'a [u8]>,
    ) -> Result<Option<(Self, Option<&'a [u8]>)>, NoMemory> {
        let Some(behind) = opened(b"out", rest) else {
            return Ok(None);
        };
        match take_all::<(u16, Atom)>(alloc, counts, behind)? {
            None => Ok(None),
            Some((parts, left)) => {
                if !parts_rise(&parts) {
                    return Ok(None);
                }
                Ok(Some((Out::new(parts), left)))
            }
        }
    }
}

impl Piece for Stage {
    ghost use Rattle.snap_tables.specs.Reading.{begins_update};
    ghost use Rattle.snap_tables.specs.Rows.{IsStage, opens_stage};
    ghost use Rattle.snap_tables.specs.Text.{stage_words};

    ghost spelled = { λ s. stage_words s };

    ghost fits = { λ k s. IsStage k s };

    ghost opens = { λ ws. opens_stage ws };

    ghost goes_on = { λ ws. begins_update ws };

    fn begins(rest: Option<&[u8]>) -> bool {
        begins_with(b"at", rest)
    }

    fn take<'a>(
        alloc: Global,
        counts: Counts,
        rest: Option<&'a [u8]>,
    ) -> Result<Option<(Self, Option<&'a [u8]>)>, NoMemory> {
        let Some(behind) = opened(b"at", rest) else {
            return Ok(None);
        };
        let Some((at, behind)) = take_below(counts.switches, behind) else {
            return Ok(None);
        };
        match take_all::<Update>(alloc, counts, behind)? {
            None => Ok(None),
            Some((ups, left)) => {
                if ups.is_empty() {
                    return Ok(None);
                }
                let ups = Updates::new(ups);
                Ok(Some((Stage { at, ups }, left)))
            }
        }
    }
}
