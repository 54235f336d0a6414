//! Pieces of a line: words that stand together.

ghost use Rattle.std.specs.Prelude.{◌≡◌, ℕ, Bool, List, IfOk};
ghost use Rattle.snap_tables.specs.Pieces.{TakesMany, TakesOne};
ghost use Rattle.snap_tables.specs.Reading.{words_left};

use snap_core::NoMemory;
use std::alloc::Global;

/// How many components, arrays and switches there are: numbers in a row are below these.
#[derive(Clone, Copy)]
pub(crate) struct Counts {
    pub comps: u16,
    pub arrays: u16,
    pub switches: u16,
}

/// A piece of a line, which is taken from the front of its words.
pub(crate) trait Piece: Sized + Drop {
    ghost use Rattle.snap_tables.specs.declared.piece.Counts.{Counts};

    /// Its words.
    ghost spelled: { Self → List (List ℕ) };

    /// Whether it is in form.
    ghost fits: { Counts → Self → Type 0 };

    /// Whether words begin as such a piece does.
    ghost opens: { List (List ℕ) → Bool };

    /// Whether words behind a piece go on with more of it.
    ghost goes_on: { List (List ℕ) → Bool };

    /// Whether words begin as such a piece does.
    fn begins(rest: Option<&[u8]>) -> bool
        ensures { result ≡ opens (words_left rest.entry) };

    /// The piece at the front of words, and the words behind it.
    fn take<'a>(
        alloc: Global,
        counts: Counts,
        rest: Option<&'a [u8]>,
    ) -> Result<Option<(Self, Option<&'a [u8]>)>, NoMemory>
        ensures { IfOk result (TakesOne spelled (fits counts) goes_on (words_left rest.entry)) };
}

/// The pieces at the front of words, as many as begin, and the words behind them.
pub(crate) fn take_all<'a, T: Piece>(
    alloc: Global,
    counts: Counts,
    rest: Option<&'a [u8]>,
) -> Result<Option<(Vec<T>, Option<&'a [u8]>)>, NoMemory>
    ensures { IfOk result (TakesMany T.spelled (T.fits counts) T.opens T.goes_on (words_left rest.entry)) }
{
    let mut pieces = Vec::new(alloc);
    let mut left = rest;
    while T::begins(left) {
        match T::take(alloc, counts, left)? {
            None => return Ok(None),
            Some((piece, behind)) => {
                pieces.push(piece)?;
                left = behind;
            }
        }
    }
    Ok(Some((pieces, left)))
}
