//! Rows that were read, remembered by their texts: rows of one number are mostly equal, and then share their bodies.

ghost use Rattle.std.specs.Prelude.{◌≡◌, ◌+◌, ◌<◌, ◌^◌, [], IfOk, IfSome, OnOk};
ghost use Rattle.snap_tables.specs.Known.{AreSaid, AreSaidBehind, IsBody, IsBodyIn, IsSaidAt, WhereSaid};
ghost use Rattle.snap_tables.specs.Reading.{words_left};

use crate::draft::TablesDraft;
use crate::item::Body;
use crate::piece::Counts;
use crate::row::row_of;
use crate::scan::is_text;
use snap_core::NoMemory;
use std::alloc::Global;

// There are at most so many places for each row that is remembered, and a few more.
const SPREAD: usize = 4;

const FEW: usize = 256;

/// The text of a row behind its number, and what it says.
#[derive(Drop)]
pub(crate) struct Said<'a> {
    pub text: &'a [u8],
    pub place: usize,
}

/// Rows that were read, one for each low number: the last of its rows.
#[derive(Drop)]
pub(crate) struct Known<'a> {
    // Where the row of a number stands. What stands there may belong to another number, since only its text counts.
    places: Vec<usize>,
    rows: Vec<Said<'a>>,
}

impl<'a> Known<'a> {
    /// No rows. Takes no memory.
    pub(crate) fn none(alloc: Global) -> Known<'a>
        ensures { result.rows.items ≡ [] }
    {
        Known {
            places: Vec::new(alloc),
            rows: Vec::new(alloc),
        }
    }

    /// Forgets all rows.
    pub(crate) fn forget(&mut self)
        ensures { self.new.rows.items ≡ [] }
    {
        self.rows.clear();
    }

    // The row of a number.
    fn row(&self, number: u64) -> Option<&Said<'a>>
        ensures { WhereSaid self.now.rows.items (λ v k ranked rows.
            IfSome result (λ row. IsSaidAt v k ranked rows (words_left (Some row.now.text)) row.now.place)) }
    {
        let place = self.places.get(number as usize)?;
        self.rows.get(*place)
    }

    // The place of a row that these words say, where the row of a number has the same ones.
    fn shared(&self, number: u64, rest: Option<&[u8]>) -> Option<usize>
        ensures { WhereSaid self.now.rows.items (λ v k ranked rows. IfSome result (IsSaidAt v k ranked rows (words_left rest.entry))) }
    {
        let text = rest?;
        let row = self.row(number)?;
        if is_text(row.text, text) {
            Some(row.place)
        } else {
            None
        }
    }

    // Puts a row, instead of the one at the place of its number, where one stands there.
    fn put(&mut self, number: usize, row: Said<'a>) -> Result<(), NoMemory>
        requires { number + 1 < 2 ^ 64 }
        ensures { WhereSaid self.old.rows.items (λ v k ranked rows.
            IsSaidAt v k ranked rows (words_left (Some row.entry.text)) row.entry.place → OnOk result (AreSaid v k ranked rows self.new.rows.items)) }
    {
        if self.places.len() <= number {
            self.places.resize(number + 1, usize::MAX)?;
        }
        let place = self.places[number];
        if place < self.rows.len() {
            self.rows[place] = row;
        } else {
            self.places[number] = self.rows.len();
            self.rows.push(row)?;
        }
        Ok(())
    }

    // Remembers that these words say what stands in the row at a place, where the number is low.
    fn remember(
        &mut self,
        number: u64,
        rest: Option<&'a [u8]>,
        place: usize,
    ) -> Result<(), NoMemory>
        ensures { WhereSaid self.old.rows.items (λ v k ranked rows.
            IsSaidAt v k ranked rows (words_left rest.entry) place → OnOk result (AreSaid v k ranked rows self.new.rows.items)) }
    {
        let Some(text) = rest else {
            return Ok(());
        };
        let number = number as usize;
        if number < self.rows.len().saturating_mul(SPREAD).saturating_add(FEW) {
            self.put(number, Said { text, place })?;
        }
        Ok(())
    }

    /// The body of the row of a number that all words say. The same words of the number's last row say the same body.
    pub(crate) fn body_of(
        &mut self,
        alloc: Global,
        draft: &TablesDraft,
        counts: Counts,
        number: u64,
        rest: Option<&'a [u8]>,
    ) -> Result<Option<Body>, NoMemory>
        requires { AreSaid draft.now.version counts draft.now.arrays.items draft.now.rows self.old.rows.items }
        ensures said { IfOk result (IsBodyIn draft.now counts (words_left rest.entry)) }
        ensures placed { IfOk result (λ said. IfSome said (IsBody draft.now.rows)) }
        ensures known { IfOk result (λ said. IfSome said (AreSaidBehind draft.now counts self.new.rows.items)) }
    {
        if let Some(place) = self.shared(number, rest) {
            return Ok(Some(Body::Same(place)));
        }
        let Some(row) = row_of(alloc, draft.version, counts, &draft.arrays, rest)? else {
            return Ok(None);
        };
        self.remember(number, rest, draft.rows.len())?;
        Ok(Some(Body::Own(row)))
    }
}
