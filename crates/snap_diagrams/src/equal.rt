//! Equal tests.

ghost use Rattle.std.specs.Prelude.{◌≡◌, ◌↔◌, IsTrue};

use snap_core::policy::{Atom, Term, Test};

/// Whether two indices are spelled the same.
pub fn same_index(a: &[Atom], b: &[Atom]) -> bool
    ensures { IsTrue result ↔ (a.now ≡ b.now) }
{
    a == b
}

fn same_term(a: Term, b: Term) -> bool
    ensures { IsTrue result ↔ (a ≡ b) }
{
    a == b
}

/// Whether two tests are the same.
pub fn same_test(a: &Test, b: &Test) -> bool
    ensures { IsTrue result ↔ (a.now ≡ b.now) }
{
    match a {
        Test::Value { comp, num } => match b {
            Test::Value { comp: c, num: n } => *comp == *c && *num == *n,
            _ => false,
        },
        Test::Equal { left, right, plus } => match b {
            Test::Equal {
                left: l,
                right: r,
                plus: p,
            } => *left == *l && *right == *r && *plus == *p,
            _ => false,
        },
        Test::State { var, index, value } => match b {
            Test::State {
                var: v,
                index: i,
                value: t,
            } => *var == *v && same_index(index.items(), i.items()) && same_term(*value, *t),
            _ => false,
        },
    }
}
