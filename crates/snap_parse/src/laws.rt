//! Laws of parsing, each the contract of a call that does nothing.

ghost use Rattle.snap_parse.specs.Laws.{YieldsAlways, YieldsOnce};

/// Tokens have one tree at most, or are unexpected or too deep at one place, and no two of these.
pub fn parsing_is_deterministic()
    ensures { YieldsOnce }
{}

/// Tokens without a tree are unexpected, or too deep, at some place.
pub fn parsing_is_total()
    ensures { YieldsAlways }
{}
