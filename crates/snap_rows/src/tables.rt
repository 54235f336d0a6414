//! The lists of tables.

use crate::lists::{ArraysAt, Hops, Rows, Stages};
use snap_core::lists::{Name, Names, Outs, Updates};
use snap_core::policy::Test;
use snap_core::ports::{Links, Ports};
use snap_core::program::Fields;

/// An array, its switch, and in version 2 its rank.
#[derive(Drop)]
pub struct ArrayAt {
    pub name: Name,
    pub at: u16,
    pub rank: u16,
}

/// The next switch on the way from a switch to another.
#[derive(Clone, Copy)]
pub struct Hop {
    pub from: u16,
    pub target: u16,
    pub next: u16,
}

/// Updates that one switch does.
#[derive(Drop)]
pub struct Stage {
    pub at: u16,
    pub ups: Updates,
}

/// What a switch does with a number.
#[derive(Drop)]
pub enum Row {
    /// A test of fields: on with the number `yes` or `no`.
    Field { test: Test, yes: u64, no: u64 },
    /// A test of an array at this switch: on with the number `yes` or `no`.
    State { test: Test, yes: u64, no: u64 },
    /// The number is decided at another switch. Version 1.
    Go { to: u16 },
    /// The end: the updates of the stages, each at its switch, and then the outs. Version 1.
    Leaf { stages: Stages, outs: Outs },
    /// The number isn't decided here. Version 2.
    Stop,
    /// The end: updates by rising rank, and then the outs. Version 2.
    Last { ups: Updates, outs: Outs },
}

/// A row, its switch and its number.
#[derive(Drop)]
pub struct RowAt {
    pub at: u16,
    pub number: u64,
    pub row: Row,
}

/// The tables of all switches. A switch's number is its position in `switches`.
#[derive(Drop)]
pub struct Tables {
    /// 1, where a number is decided at one switch; or 2, where each rank of arrays is visited once.
    pub version: u8,
    pub fields: Fields,
    pub switches: Names,
    pub arrays: ArraysAt,
    pub links: Links,
    pub ports: Ports,
    pub hops: Hops,
    pub rows: Rows,
}

/// A rule of tables, in the order in which they are told.
#[derive(Clone, Copy, Debug, PartialEq, Eq)]
pub enum Rule {
    /// Each next hop is a neighbour.
    Link,
    /// From each switch the next hops towards a target reach it.
    Loop,
    /// Rows of one number are equal, or say where it is decided; in version 2 they stand where it is due.
    Kind,
    /// Arrays stand where they are asked and updated; in version 2 a rank stands at one switch, and none is left out.
    Owner,
    /// Yes and no are above their row's number.
    Rise,
    /// After a state row comes no field row and none of lesser rank. Version 2 alone.
    Order,
    /// Each pair of switch and number to which a port or row leads has a row.
    Missing,
    /// To each row a chain of leads comes from a port.
    Spare,
}

/// An entry of tables, by its position in its list, counted from 0.
#[derive(Clone, Copy)]
pub enum Spot {
    Hop(u32),
    Port(u32),
    Row(u64),
    Array(u32),
}

/// Why tables are not valid.
#[derive(Clone, Copy)]
pub enum Refused {
    /// The first broken rule, at the first entry that breaks it.
    Broken { rule: Rule, spot: Spot },
    /// There wasn't memory for the work.
    NoMemory,
}
