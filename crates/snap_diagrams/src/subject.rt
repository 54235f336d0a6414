//! What a test tells of others on its subject.

ghost use Rattle.std.specs.Prelude.{◌≡◌, ◌≢◌, ℕ, List, IfSome, IfNone, IsTrue};
ghost use Rattle.snap_core.specs.Arrays.{Arrays};
ghost use Rattle.snap_core.specs.Tests.{passes};
ghost use Rattle.snap_diagrams.specs.Subjects.{Excludes, AreApart};

use crate::equal::{same_index, same_test};
use snap_core::policy::{Term, Test};

// Whether two terms differ on every packet.
fn apart(a: Term, b: Term) -> bool
    ensures { IsTrue result → AreApart a b }
{
    match a {
        Term::Num(n) => match b {
            Term::Num(o) => n != o,
            Term::Plus { .. } => false,
        },
        Term::Plus { comp, plus } => match b {
            Term::Num(_) => false,
            Term::Plus { comp: c, plus: p } => comp == c && plus != p,
        },
    }
}

// Whether two tests ask another number of one subject: a component, two components, or a place and
// the component of the term.
fn excludes(a: &Test, b: &Test) -> bool
    ensures { IsTrue result → Excludes a.now b.now }
{
    match a {
        Test::Value { comp, num } => match b {
            Test::Value { comp: c, num: n } => *comp == *c && *num != *n,
            _ => false,
        },
        Test::Equal { left, right, plus } => match b {
            Test::Equal {
                left: l,
                right: r,
                plus: p,
            } => *left == *l && *right == *r && *plus != *p,
            _ => false,
        },
        Test::State { var, index, value } => match b {
            Test::State {
                var: v,
                index: i,
                value: t,
            } => *var == *v && same_index(index.items(), i.items()) && apart(*value, *t),
            _ => false,
        },
    }
}

/// What a test answers where another has an answer, as far as their subjects tell: the answer itself
/// where they are the same, and no where the other passes and asks another number of one subject. None may be
/// answered wherever the tests differ.
pub(crate) fn entailed(test: &Test, yes: bool, other: &Test) -> Option<bool>
    ensures some { IfSome result (λ b. (m : Arrays) (k : List ℕ) → passes test.now m k ≡ yes → passes other.now m k ≡ b) }
    ensures none { IfNone result (test.now ≢ other.now) }
{
    if same_test(test, other) {
        return Some(yes);
    }
    if yes && excludes(test, other) {
        return Some(false);
    }
    None
}
