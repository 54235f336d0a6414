//! Whether a test can be asked of contexts.

ghost use Rattle.std.specs.Prelude.{◌≤◌, ◌↔◌, IsTrue, length};
ghost use Rattle.snap_core.specs.Fits.{IndexFits};
ghost use Rattle.snap_core.specs.Tests.{TermFits, TestFits};
ghost use Rattle.snap_context.specs.Classes.{index_of};

use snap_core::lists::Atoms;
use snap_core::policy::{Term, Test};

fn index_fits(index: &Atoms, comps: u16) -> bool
    ensures { IsTrue result ↔ (IndexFits comps index.now × (length index.now ≤ 8)) }
{
    index.items().len() <= 8 && index.items().iter().all(|atom| atom.fits(comps as usize))
}

fn term_fits(term: Term, comps: u16) -> bool
    ensures { IsTrue result ↔ TermFits comps term }
{
    match term {
        Term::Num(_) => true,
        Term::Plus { comp, .. } => comp < comps,
    }
}

/// Whether a test can be asked of contexts over so many components: each that it names is below their number, and an
/// index has at most 8 atoms. Takes no memory.
pub fn fits(test: &Test, comps: u16) -> bool
    ensures { IsTrue result ↔ (TestFits comps test.now × (length (index_of test.now) ≤ 8)) }
{
    match test {
        Test::Value { comp, .. } => *comp < comps,
        Test::Equal { left, right, .. } => *left < comps && *right < comps,
        Test::State { index, value, .. } => { index_fits(index, comps) && term_fits(*value, comps) }
    }
}
