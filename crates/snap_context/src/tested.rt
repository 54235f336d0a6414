//! Which components and arrays tests are about.

ghost use Rattle.std.specs.Prelude.{◌≡◌};
ghost use Rattle.std.specs.List.{All};
ghost use Rattle.snap_core.specs.Arrays.{meets};
ghost use Rattle.snap_context.specs.Known.{AtomOver, TermOver, TestOver};
ghost use Rattle.snap_core.specs.Ranges.{TestInRange};
ghost use Rattle.snap_context.specs.Tested.{either_tested};

use crate::sets::bit;
use snap_core::bits::know_test;
use snap_core::lists::Atoms;
use snap_core::policy::{Atom, Term, Test};

/// Components and arrays, a bit each.
#[derive(Clone, Copy)]
pub struct Tested {
    pub comps: u64,
    pub arrays: u64,
}

/// The components and arrays of both.
pub fn either(a: Tested, b: Tested) -> Tested
    ensures { result ≡ either_tested a b }
{
    Tested {
        comps: a.comps | b.comps,
        arrays: a.arrays | b.arrays,
    }
}

fn atom_tested(atom: Atom) -> u64
    ensures { AtomOver result atom }
{
    match atom {
        Atom::Num(_) => 0,
        Atom::Comp(comp) => bit(comp),
    }
}

fn index_tested(index: &Atoms) -> u64
    ensures { All (AtomOver result) index.now }
{
    let mut set = 0;
    for atom in index.items() {
        set |= atom_tested(*atom);
    }
    set
}

fn term_tested(term: Term) -> u64
    ensures { TermOver result term }
{
    match term {
        Term::Num(_) => 0,
        Term::Plus { comp, plus: _ } => bit(comp),
    }
}

/// What a test is about.
pub fn test_tested(test: &Test) -> Tested
    ensures over { TestOver result.comps result.arrays test.now }
    ensures range { TestInRange test.now }
{
    know_test(test);
    match test {
        Test::Value { comp, num: _ } => Tested {
            comps: bit(*comp),
            arrays: 0,
        },
        Test::Equal {
            left,
            right,
            plus: _,
        } => Tested {
            comps: bit(*left) | bit(*right),
            arrays: 0,
        },
        Test::State { var, index, value } => Tested {
            comps: index_tested(index) | term_tested(*value),
            arrays: bit(*var),
        },
    }
}

// Whether two sets have a number in common.
pub(crate) fn have_common(a: u64, b: u64) -> bool
    ensures { result ≡ meets a b }
{
    a & b != 0
}
