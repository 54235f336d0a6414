//! Terms with offsets, and terms put in the place of others.

ghost use Rattle.std.specs.Prelude.{◌≡◌, ◌↔◌, IsTrue};
ghost use Rattle.snap_context.specs.Classes.{shift};
ghost use Rattle.snap_context.specs.Closing.{replace};

use snap_core::policy::Term;

// The term with this much more, modulo 2^64.
pub(crate) fn shifted(term: Term, by: u64) -> Term
    ensures { result ≡ shift term by }
{
    match term {
        Term::Num(num) => Term::Num(num.wrapping_add(by)),
        Term::Plus { comp, plus } => Term::Plus {
            comp,
            plus: plus.wrapping_add(by),
        },
    }
}

// The term after a root became another term.
pub(crate) fn replaced(term: Term, root: u16, to: Term) -> Term
    ensures { result ≡ replace root to term }
{
    match term {
        Term::Num(num) => Term::Num(num),
        Term::Plus { comp, plus } => {
            if comp == root {
                shifted(to, plus)
            } else {
                Term::Plus { comp, plus }
            }
        }
    }
}

pub(crate) fn same_term(left: Term, right: Term) -> bool
    ensures { IsTrue result ↔ (left ≡ right) }
{
    left == right
}
