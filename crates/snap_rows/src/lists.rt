//! The lists of tables, which contracts see as lists.

ghost use Rattle.std.specs.Prelude.{◌≡◌, ◌<◌, ◌++◌, ◌∷◌, [], Some, OnOk, length, map, option_map, slice_get};
ghost use Rattle.std.specs.List.{All};
ghost use Rattle.snap_rows.specs.Bodies.{IsPlaced, lent, placed};
ghost use Rattle.snap_rows.specs.declared.tables.RowAt.{RowAt};

use crate::tables::{ArrayAt, Hop, Row, RowAt, Stage};
use snap_core::NoMemory;
use snap_core::lists::List;
use std::marker::Model;

/// The stages of a leaf, in order.
pub type Stages = List<Stage>;

/// Arrays, each with its switch. An array's number is its position.
pub type ArraysAt = List<ArrayAt>;

/// Next hops.
pub type Hops = List<Hop>;

/// A row that is lent.
#[derive(Clone, Copy)]
pub struct Lent<'a> {
    pub at: u16,
    pub number: u64,
    pub row: &'a Row,
}

/// A row by the place of its body. The number comes first, since fields lie in this order: so a row takes 16 bytes.
#[derive(Clone, Copy)]
pub struct Placed {
    pub number: u64,
    pub at: u16,
    pub body: u32,
}

/// Rows of all switches, of which many may have one body.
#[derive(Drop)]
pub struct Rows {
    bodies: Vec<Row>,
    rows: Vec<Placed>,
}

impl Model for Rows {
    ghost use Rattle.std.specs.Prelude.{List, map};
    ghost use Rattle.std.specs.List.{All};
    ghost use Rattle.snap_rows.specs.declared.tables.RowAt.{RowAt};
    ghost use Rattle.snap_rows.specs.Bodies.{IsPlaced, placed};

    ghost Value = { List RowAt };

    ghost view = { λ a. map (placed a.bodies.items) a.rows.items };

    ghost invariant = { λ a. All (IsPlaced a.bodies.items) a.rows.items };
}

impl Rows {
    /// Rows with these bodies. Takes no memory.
    pub fn new(bodies: Vec<Row>, rows: Vec<Placed>) -> Rows
        requires { All (IsPlaced bodies.items) rows.items }
        ensures { result ≡ map (placed bodies.items) rows.items }
    {
        Rows { bodies, rows }
    }

    /// How many there are. Takes no memory.
    pub fn len(&self) -> usize
        ensures { result ≡ length self.now }
    {
        self.rows.len()
    }

    /// Lends the bodies, and the rows by the places of theirs. Takes no memory.
    pub fn parts(&self) -> (&[Row], &[Placed])
        ensures are { self.now ≡ map (placed result.0.now) result.1.now }
        ensures placed { All (IsPlaced result.0.now) result.1.now }
    {
        (&self.bodies, &self.rows)
    }

    /// Lends the row at a place. Takes no memory.
    #[inline(always)]
    pub fn get(&self, place: usize) -> Option<Lent<'_>>
        ensures { option_map lent result ≡ slice_get self.now place }
    {
        if place < self.rows.len() {
            Some(self.at(place))
        } else {
            None
        }
    }

    /// Lends the row at a place that has one. Takes no memory.
    #[inline(always)]
    pub fn at(&self, place: usize) -> Lent<'_>
        requires { place < length self.now }
        ensures { slice_get self.now place ≡ Some (lent result) }
    {
        let row = self.rows[place];
        Lent {
            at: row.at,
            number: row.number,
            row: &self.bodies[row.body as usize],
        }
    }

    /// Puts a row behind them. Refuses for memory alone, also where there are 2^32 bodies.
    pub fn push(&mut self, row: RowAt) -> Result<(), NoMemory>
        ensures { OnOk result (self.new ≡ self.old ++ row ∷ []) }
    {
        if u32::MAX as usize <= self.bodies.len() {
            return Err(NoMemory);
        }
        let body = self.bodies.len() as u32;
        self.bodies.push(row.row)?;
        self.rows.push(Placed {
            number: row.number,
            at: row.at,
            body,
        })?;
        Ok(())
    }

    /// Puts a row behind them, with the body of the one at a place. Refuses for memory alone.
    pub fn push_as(&mut self, at: u16, number: u64, place: usize) -> Result<(), NoMemory>
        requires { place < length self.old }
        ensures { OnOk result ((r : RowAt) → slice_get self.old place ≡ Some r → self.new ≡ self.old ++ record r { at = at; number = number } ∷ []) }
    {
        let body = self.rows[place].body;
        self.rows.push(Placed { number, at, body })?;
        Ok(())
    }

    /// Ends the lists without slack.
    pub fn shrink(&mut self)
        ensures { self.new ≡ self.old }
    {
        self.bodies.shrink_to_fit();
        self.rows.shrink_to_fit();
    }
}
