//! Following leads from the ports to all rows that they reach.

ghost use Rattle.std.specs.Prelude.{◌≡◌, ◌⊎◌, ◌<◌, ℕ, None, Some, true, false, IfOk, OnOk, IsSome, Contains, length, get_or, slice_get};
ghost use Rattle.std.specs.List.{All};
ghost use Rattle.snap_rows.specs.declared.tables.RowAt.{RowAt};
ghost use Rattle.snap_rows.specs.declared.tables.Rule.{Rule};
ghost use Rattle.snap_rows.specs.Bodies.{lent};
ghost use Rattle.snap_rows.specs.Entries.{row_at};
ghost use Rattle.snap_rows.specs.Following.{IsMarked, IsNextMarked, ArePortsMarked, IsFollowed, Grows, AreMarked};
ghost use Rattle.snap_rows.specs.Form.{IsWellFormed};
ghost use Rattle.snap_rows.specs.Leads.{IsNumberAfter};
ghost use Rattle.snap_rows.specs.Rules.{IsFirstSpot};
ghost use Rattle.snap_rows.specs.Ways.{Reached};

use crate::guesses::Guesses;
use crate::lists::Lent;
use crate::look::row_place;
use crate::rules::leads::led_next;
use crate::rules::loops::unmarked;
use crate::tables::{Row, Tables};
use snap_core::NoMemory;
use std::alloc::Global;

/// The rows that are known to be reached, by place, and the places of those whose leads are still to be followed.
#[derive(Drop)]
struct Search {
    marks: Vec<bool>,
    left: Vec<usize>,
}

impl Search {
    // Marks the row of a switch and number.
    fn mark(
        &mut self,
        tables: &Tables,
        guesses: &Guesses,
        at: u16,
        number: u64,
    ) -> Result<(), NoMemory>
        requires form { IsWellFormed tables.now }
        requires long { length self.old.marks.items ≡ length tables.now.rows }
        requires row { IsSome (row_at tables.now at number) }
        requires reached { Reached tables.now at number }
        ensures grows { OnOk result (Grows tables.now self.old.marks.items self.old.left.items self.new.marks.items self.new.left.items) }
        ensures marked { OnOk result (IsMarked tables.now self.new.marks.items at number) }
    {
        let guess = guesses.place(at, number);
        match row_place(&tables.rows, guess, at, number) {
            Some(place) => self.mark_place(tables, place),
            None => unreachable!(),
        }
    }

    // Marks the row at a place.
    fn mark_place(&mut self, tables: &Tables, place: usize) -> Result<(), NoMemory>
        requires long { length self.old.marks.items ≡ length tables.now.rows }
        requires place { place < length tables.now.rows }
        requires reached { (r : RowAt) → slice_get tables.now.rows place ≡ Some r → Reached tables.now r.at r.number }
        ensures grows { OnOk result (Grows tables.now self.old.marks.items self.old.left.items self.new.marks.items self.new.left.items) }
        ensures marked { OnOk result (get_or self.new.marks.items place false ≡ true) }
    {
        if !self.marks[place] {
            self.left.push(place)?;
            self.marks[place] = true;
        }
        Ok(())
    }

    fn mark_both(
        &mut self,
        tables: &Tables,
        guesses: &Guesses,
        at: u16,
        yes: u64,
        no: u64,
    ) -> Result<(), NoMemory>
        requires form { IsWellFormed tables.now }
        requires long { length self.old.marks.items ≡ length tables.now.rows }
        requires rows { (k : ℕ) → (k ≡ yes) ⊎ (k ≡ no) → IsSome (row_at tables.now at k) }
        requires reached { (k : ℕ) → (k ≡ yes) ⊎ (k ≡ no) → Reached tables.now at k }
        ensures grows { OnOk result (Grows tables.now self.old.marks.items self.old.left.items self.new.marks.items self.new.left.items) }
        ensures marked { OnOk result ((k : ℕ) → (k ≡ yes) ⊎ (k ≡ no) → IsMarked tables.now self.new.marks.items at k) }
    {
        self.mark(tables, guesses, at, yes)?;
        self.mark(tables, guesses, at, no)
    }

    // Marks the rows of the numbers to which a test row leads.
    fn mark_numbers(
        &mut self,
        tables: &Tables,
        guesses: &Guesses,
        at: u16,
        row: &Row,
    ) -> Result<(), NoMemory>
        requires form { IsWellFormed tables.now }
        requires long { length self.old.marks.items ≡ length tables.now.rows }
        requires rows { (k : ℕ) → IsNumberAfter row.now k → IsSome (row_at tables.now at k) }
        requires reached { (k : ℕ) → IsNumberAfter row.now k → Reached tables.now at k }
        ensures grows { OnOk result (Grows tables.now self.old.marks.items self.old.left.items self.new.marks.items self.new.left.items) }
        ensures marked { OnOk result ((k : ℕ) → IsNumberAfter row.now k → IsMarked tables.now self.new.marks.items at k) }
    {
        match row {
            Row::Field { yes, no, .. } => self.mark_both(tables, guesses, at, *yes, *no),
            Row::State { yes, no, .. } => self.mark_both(tables, guesses, at, *yes, *no),
            Row::Go { .. } => Ok(()),
            Row::Leaf { .. } => Ok(()),
            Row::Stop => Ok(()),
            Row::Last { .. } => Ok(()),
        }
    }

    // Marks the rows of a number at switches.
    fn mark_all(
        &mut self,
        tables: &Tables,
        guesses: &Guesses,
        switches: &[u16],
        number: u64,
    ) -> Result<(), NoMemory>
        requires form { IsWellFormed tables.now }
        requires long { length self.old.marks.items ≡ length tables.now.rows }
        requires rows { All (λ x. IsSome (row_at tables.now x number)) switches.now }
        requires reached { All (λ x. Reached tables.now x number) switches.now }
        ensures grows { OnOk result (Grows tables.now self.old.marks.items self.old.left.items self.new.marks.items self.new.left.items) }
        ensures marked { OnOk result (All (λ x. IsMarked tables.now self.new.marks.items x number) switches.now) }
    {
        for at in switches {
            self.mark(tables, guesses, *at, number)?;
        }
        Ok(())
    }

    // Marks the rows to which a row leads at once. The list is room for the switches that it leads to.
    fn follow(
        &mut self,
        tables: &Tables,
        guesses: &Guesses,
        entry: Lent<'_>,
        over: &mut Vec<u16>,
    ) -> Result<(), NoMemory>
        requires form { IsWellFormed tables.now }
        requires loops { IsFirstSpot tables.now Rule.Loop None }
        requires missing { IsFirstSpot tables.now Rule.Missing None }
        requires long { length self.old.marks.items ≡ length tables.now.rows }
        requires entry { Contains tables.now.rows (lent entry) }
        requires reached { Reached tables.now entry.at entry.number }
        ensures grows { OnOk result (Grows tables.now self.old.marks.items self.old.left.items self.new.marks.items self.new.left.items) }
        ensures marked { OnOk result (IsNextMarked tables.now self.new.marks.items (lent entry.entry)) }
    {
        self.mark_numbers(tables, guesses, entry.at, entry.row)?;
        led_next(tables, entry.at, entry.row, over)?;
        self.mark_all(tables, guesses, over, entry.number)
    }
}

// The search that has come to the ports.
fn from_ports(alloc: Global, tables: &Tables, guesses: &Guesses) -> Result<Search, NoMemory>
    requires form { IsWellFormed tables.now }
    requires missing { IsFirstSpot tables.now Rule.Missing None }
    ensures long { IfOk result (λ search. length search.marks.items ≡ length tables.now.rows) }
    ensures followed { IfOk result (λ search. IsFollowed tables.now search.marks.items search.left.items) }
    ensures ports { IfOk result (λ search. ArePortsMarked tables.now search.marks.items) }
{
    let mut search = Search {
        marks: unmarked(alloc, tables.rows.len())?,
        left: Vec::new(alloc),
    };
    for port in tables.ports.items() {
        search.mark(tables, guesses, port.at, 0)?;
    }
    Ok(search)
}

/// Marks, by place, exactly the rows that are reached from the ports.
pub(crate) fn reached_rows(
    alloc: Global,
    tables: &Tables,
    guesses: &Guesses,
) -> Result<Vec<bool>, NoMemory>
    requires form { IsWellFormed tables.now }
    requires loops { IsFirstSpot tables.now Rule.Loop None }
    requires kind { IsFirstSpot tables.now Rule.Kind None }
    requires missing { IsFirstSpot tables.now Rule.Missing None }
    ensures long { IfOk result (λ marks. length marks.items ≡ length tables.now.rows) }
    ensures marked { IfOk result (λ marks. AreMarked tables.now marks.items) }
{
    let mut search = from_ports(alloc, tables, guesses)?;
    let mut over = Vec::new(alloc);
    while let Some(place) = search.left.pop() {
        search.follow(tables, guesses, tables.rows.at(place), &mut over)?;
    }
    Ok(search.marks)
}
