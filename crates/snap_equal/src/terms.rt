//! Whether terms and atoms have the same number.

ghost use Rattle.std.specs.Prelude.{◌≡◌, ◌≢◌, ◌↔◌, ℕ, IsTrue, List, MatchResult, length, true};
ghost use Rattle.snap_core.specs.Arrays.{value_of};
ghost use Rattle.snap_core.specs.Fits.{AtomFits};
ghost use Rattle.snap_core.specs.Tests.{TermFits, term_value};
ghost use Rattle.snap_context.specs.Classes.{shift};
ghost use Rattle.snap_compose.specs.PulledBack.{term_of};
ghost use Rattle.snap_equal.specs.Told.{IsStop, On, Decides};

use crate::stop::{Stop, holds};
use snap_context::context::Context;
use snap_core::bits::know_term;
use snap_core::policy::{Atom, Term, Test};

/// The term with this much more, modulo 2^64.
pub(crate) fn shifted(term: Term, by: u64) -> Term
    ensures { result ≡ shift term by }
{
    match term {
        Term::Num(num) => Term::Num(num.wrapping_add(by)),
        Term::Plus { comp, plus } => Term::Plus {
            comp,
            plus: plus.wrapping_add(by),
        },
    }
}

/// An atom as a term.
pub(crate) fn term_of(atom: Atom) -> Term
    ensures { result ≡ term_of atom }
{
    match atom {
        Atom::Num(num) => Term::Num(num),
        Atom::Comp(comp) => Term::Plus { comp, plus: 0 },
    }
}

/// A term by the class of its component: what a context tells of it at once.
pub(crate) fn read(ctx: &Context, term: Term) -> Term
    requires { TermFits (length ctx.now.classes) term }
    ensures value { On ctx.now (λ m k. term_value result k ≡ term_value term k) }
    ensures fits { TermFits (length ctx.now.classes) result }
{
    match term {
        Term::Num(_) => term,
        Term::Plus { comp, plus } => shifted(ctx.class(comp), plus),
    }
}

fn are_spelled_same(left: Term, right: Term) -> bool
    ensures { IsTrue result ↔ (left ≡ right) }
{
    left == right
}

/// Whether two terms are equal. What the classes of their components tell needs no test.
pub(crate) fn same_terms(ctx: &Context, left: Term, right: Term) -> Result<bool, Stop>
    requires left { TermFits (length ctx.now.classes) left }
    requires right { TermFits (length ctx.now.classes) right }
    ensures { MatchResult result (Decides ctx.now (λ m k. term_value left k ≡ term_value right k)) (IsStop ctx.now 0) }
{
    let first = read(ctx, left);
    let second = read(ctx, right);
    if are_spelled_same(first, second) {
        Ok(true)
    } else {
        ask_terms(ctx, first, second)
    }
}

// Whether two terms are equal, by a test where one of them has a component.
fn ask_terms(ctx: &Context, left: Term, right: Term) -> Result<bool, Stop>
    requires left { TermFits (length ctx.now.classes) left }
    requires right { TermFits (length ctx.now.classes) right }
    ensures { MatchResult result (Decides ctx.now (λ m k. term_value left k ≡ term_value right k)) (IsStop ctx.now 0) }
{
    know_term(left);
    know_term(right);
    match left {
        Term::Num(num) => match right {
            Term::Num(other) => Ok(num == other),
            Term::Plus { comp, plus } => {
                let num = num.wrapping_sub(plus);
                holds(ctx, 0, Test::Value { comp, num })
            }
        },
        Term::Plus { comp, plus } => match right {
            Term::Num(num) => {
                let num = num.wrapping_sub(plus);
                holds(ctx, 0, Test::Value { comp, num })
            }
            Term::Plus {
                comp: other,
                plus: more,
            } => {
                let plus = more.wrapping_sub(plus);
                holds(
                    ctx,
                    0,
                    Test::Equal {
                        left: comp,
                        right: other,
                        plus,
                    },
                )
            }
        },
    }
}

/// Whether two atoms are equal.
pub(crate) fn same_atoms(ctx: &Context, left: Atom, right: Atom) -> Result<bool, Stop>
    requires left { AtomFits (length ctx.now.classes) left }
    requires right { AtomFits (length ctx.now.classes) right }
    ensures { MatchResult result (Decides ctx.now (λ m k. value_of left k ≡ value_of right k)) (IsStop ctx.now 0) }
{
    same_terms(ctx, term_of(left), term_of(right))
}

/// Whether a context tells at once that two atoms are equal.
pub(crate) fn reads_same(ctx: &Context, left: Atom, right: Atom) -> bool
    requires left { AtomFits (length ctx.now.classes) left }
    requires right { AtomFits (length ctx.now.classes) right }
    ensures { result ≡ true → On ctx.now (λ m k. value_of left k ≡ value_of right k) }
{
    are_spelled_same(read(ctx, term_of(left)), read(ctx, term_of(right)))
}

// Whether two terms are different numbers.
fn are_other_numbers(left: Term, right: Term) -> bool
    ensures { result ≡ true → (k : List ℕ) → term_value left k ≢ term_value right k }
{
    match left {
        Term::Num(num) => match right {
            Term::Num(other) => num != other,
            Term::Plus { .. } => false,
        },
        Term::Plus { .. } => false,
    }
}

/// Whether a context tells at once that two atoms differ.
pub(crate) fn reads_apart(ctx: &Context, left: Atom, right: Atom) -> bool
    requires left { AtomFits (length ctx.now.classes) left }
    requires right { AtomFits (length ctx.now.classes) right }
    ensures { result ≡ true → On ctx.now (λ m k. value_of left k ≢ value_of right k) }
{
    are_other_numbers(read(ctx, term_of(left)), read(ctx, term_of(right)))
}
