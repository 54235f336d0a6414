//! Laws of tokens, each the contract of a call that does nothing.

ghost use Rattle.snap_lex.specs.Laws.{FindsAlways, FindsOnce};

/// A text spells one list of tokens at most, or has a bad byte or a bad number at one place, and no two of these.
pub fn lexing_is_deterministic()
    ensures { FindsOnce }
{}

/// A text that spells no tokens has a bad byte or a bad number.
pub fn lexing_is_total()
    ensures { FindsAlways }
{}
