//! Faithful tables.

ghost use Rattle.snap_faithful.specs.Facts.{FactsMakeFaithful};
ghost use Rattle.snap_faithful.specs.OneRow.{AnotherLeafIsNot, OneRowIsFaithful};

/// **Facts that make tables of version 2 faithful.** They have the shape that the program, the topology and the placement ask for, they
/// mean the program, the program never races, its numbers have 64 bits, and the tables are live and reduced.
pub fn facts_make_faithful()
    ensures { FactsMakeFaithful }
{}

/// There are faithful tables, and with another leaf they aren't faithful.
pub fn some_are_faithful()
    ensures one_row { OneRowIsFaithful }
    ensures another { AnotherLeafIsNot }
{}
