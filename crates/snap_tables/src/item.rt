//! Entries of tables.

use snap_core::lists::Name;
use snap_core::ports::PortAt;
use snap_core::program::Field;
use snap_rows::tables::{ArrayAt, Hop, Row, RowAt};

/// An entry of tables, which has a line of their text. The names of arrays and switches stand for themselves; a link
/// joins two switches, the lesser one first.
#[derive(Drop)]
pub enum Item {
    Field(Field),
    Switch(Name),
    Array(ArrayAt),
    Link((u16, u16)),
    Port(PortAt),
    Hop(Hop),
    Row(RowAt),
}

/// What stands in a row: a body of its own, or that of the row at a place.
#[derive(Drop)]
pub(crate) enum Body {
    Own(Row),
    Same(usize),
}

/// The row that comes next.
#[derive(Drop)]
pub(crate) struct NextRow {
    pub at: u16,
    pub number: u64,
    pub body: Body,
}
