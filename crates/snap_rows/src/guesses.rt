//! Where rows probably stand, so that most are found at the first look.

use crate::lists::{Lent, Rows};
use snap_core::NoMemory;
use std::alloc::Global;

// There are at most so many guesses for each row, and a few more.
const SPREAD: usize = 4;

const FEW: usize = 256;

/// For each switch the places of its rows, by number. A guess may be wrong: whoever makes it looks there, and where the
/// row isn't there, searches. So numbers that lie far apart take no more memory than rows do.
#[derive(Drop)]
pub(crate) struct Guesses {
    // What lies between a number at a switch and where its guess stands.
    shifts: Vec<u64>,
    places: Vec<usize>,
}

impl Guesses {
    /// The guesses for rows that rise by switch and number.
    pub(crate) fn of(alloc: Global, rows: &Rows) -> Result<Guesses, NoMemory> {
        let mut guesses = Guesses {
            shifts: Vec::new(alloc),
            places: Vec::with_capacity(alloc, rows.len())?,
        };
        for place in 0..rows.len() {
            guesses.add(rows.at(place), place)?;
        }
        Ok(guesses)
    }

    /// Where the row of a switch and number probably stands.
    pub(crate) fn place(&self, at: u16, number: u64) -> usize {
        self.near(self.shift(at), number)
    }

    /// The shift of a switch, by which its rows are found.
    #[inline(always)]
    pub(crate) fn shift(&self, at: u16) -> u64 {
        self.shifts.get(at as usize).copied().unwrap_or(0)
    }

    /// Where the row of a number probably stands at the switch of this shift.
    #[inline(always)]
    pub(crate) fn near(&self, shift: u64, number: u64) -> usize {
        let guess = number.wrapping_add(shift) as usize;
        self.places.get(guess).copied().unwrap_or(0)
    }

    // Adds a row that stands behind those that were added.
    fn add(&mut self, row: Lent<'_>, place: usize) -> Result<(), NoMemory> {
        if self.shifts.len() <= row.at as usize {
            let shift = (self.places.len() as u64).wrapping_sub(row.number);
            self.shifts.resize(row.at as usize + 1, shift)?;
        }
        let guess = row.number.wrapping_add(self.shift(row.at)) as usize;
        if guess < place.saturating_mul(SPREAD).saturating_add(FEW) {
            return self.put(guess, place);
        }
        Ok(())
    }

    // Puts a place where a guess stands.
    fn put(&mut self, guess: usize, place: usize) -> Result<(), NoMemory> {
        if self.places.len() == guess {
            self.places.push(place)?;
            return Ok(());
        }
        if self.places.len() < guess {
            self.places.resize(guess.saturating_add(1), place)?;
        }
        if let Some(held) = self.places.get_mut(guess) {
            *held = place;
        }
        Ok(())
    }
}
