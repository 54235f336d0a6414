//! Which tests are of places that no packet moves.

ghost use Rattle.std.specs.Prelude.{IsTrue};
ghost use Rattle.std.specs.List.{All};
ghost use Rattle.snap_context.specs.Known.{IsFixed};
ghost use Rattle.snap_context.specs.Lean.{IsPlain};

use crate::rooted;
use snap_core::policy::{Atom, Test};

fn is_number(atom: Atom) -> bool
    ensures { IsTrue result → IsFixed atom }
{
    match atom {
        Atom::Num(_) => true,
        Atom::Comp(_) => false,
    }
}

/// Whether an index is of numbers alone. No clause says where it isn't told to be. Takes no memory.
pub fn is_fixed(index: &[Atom]) -> bool
    ensures { IsTrue result → All IsFixed index.now }
{
    index.iter().all(|atom| is_number(*atom))
}

/// Whether a test is of a place of numbers, for a number. No clause says where it isn't told to be. Takes no memory.
pub fn is_plain(test: &Test) -> bool
    ensures { IsTrue result → IsPlain test.now }
{
    match test {
        Test::State {
            var: _,
            index,
            value,
        } => is_fixed(index.items()) && rooted::is_plain(*value),
        Test::Value { .. } | Test::Equal { .. } => false,
    }
}
