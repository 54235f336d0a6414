//! The order of tests.

ghost use Rattle.std.specs.Prelude.{◌≡◌, ◌<◌, ◌++◌, ℕ, List, length};
ghost use Rattle.std.specs.Ordering.{nat_cmp, ordering_then};
ghost use Rattle.std.specs.Cmp.Lexicographic.{slice_cmp};
ghost use Rattle.snap_core.specs.Terms.{term_code};
ghost use Rattle.snap_diagrams.specs.Codes.{atom_code, index_code};
ghost use Rattle.snap_core.specs.declared.policy.Test.TheVariants.{Value, Equal, State};
ghost use Rattle.snap_diagrams.specs.Order.{test_cmp, IsRanked};

use snap_core::lists::Atoms;
use snap_core::policy::{Atom, Term, Test};
use snap_dep::groups::Groups;
use std::cmp::Ordering;

fn compare_atoms(a: Atom, b: Atom) -> Ordering
    ensures { result ≡ slice_cmp nat_cmp (atom_code a) (atom_code b) }
{
    match a {
        Atom::Num(num) => match b {
            Atom::Num(other) => num.cmp(&other),
            Atom::Comp(_) => Ordering::Less,
        },
        Atom::Comp(comp) => match b {
            Atom::Num(_) => Ordering::Greater,
            Atom::Comp(other) => comp.cmp(&other),
        },
    }
}

/// Compares two indices atom by atom, numbers before components: of two that begin alike, the shorter comes first.
pub fn compare_indices(a: &[Atom], b: &[Atom]) -> Ordering
    ensures { (s t : List ℕ) → slice_cmp nat_cmp (index_code a.now ++ s) (index_code b.now ++ t) ≡ ordering_then result (slice_cmp nat_cmp s t) }
{
    match a.split_first() {
        None => {
            if b.is_empty() {
                Ordering::Equal
            } else {
                Ordering::Less
            }
        }
        Some((first, more)) => match b.split_first() {
            None => Ordering::Greater,
            Some((other, others)) => {
                compare_atoms(*first, *other).then(compare_indices(more, others))
            }
        },
    }
}

fn compare_terms(a: Term, b: Term) -> Ordering
    ensures { result ≡ slice_cmp nat_cmp (term_code a) (term_code b) }
{
    match a {
        Term::Num(num) => match b {
            Term::Num(other) => num.cmp(&other),
            Term::Plus { .. } => Ordering::Less,
        },
        Term::Plus { comp, plus } => match b {
            Term::Num(_) => Ordering::Greater,
            Term::Plus {
                comp: other,
                plus: more,
            } => comp.cmp(&other).then(plus.cmp(&more)),
        },
    }
}

fn compare_values(a: (u16, u64), b: (u16, u64)) -> Ordering
    ensures { (ranks : List ℕ) → result ≡ test_cmp ranks (Value a.0 a.1) (Value b.0 b.1) }
{
    a.0.cmp(&b.0).then(a.1.cmp(&b.1))
}

fn compare_equals(a: (u16, u16, u64), b: (u16, u16, u64)) -> Ordering
    ensures { (ranks : List ℕ) → result ≡ test_cmp ranks (Equal a.0 a.1 a.2) (Equal b.0 b.1 b.2) }
{
    a.0.cmp(&b.0).then(a.1.cmp(&b.1)).then(a.2.cmp(&b.2))
}

fn compare_states(
    groups: &Groups,
    a: (u16, Term),
    index: &Atoms,
    b: (u16, Term),
    other: &Atoms,
) -> Ordering
    requires a { a.0 < length groups.now.ranks }
    requires b { b.0 < length groups.now.ranks }
    ensures { result ≡ test_cmp groups.now.ranks (State a.0 index.now a.1) (State b.0 other.now b.1) }
{
    groups
        .rank(a.0)
        .cmp(&groups.rank(b.0))
        .then(a.0.cmp(&b.0))
        .then(compare_indices(index.items(), other.items()))
        .then(compare_terms(a.1, b.1))
}

/// Compares two tests: by kind, a state test next by the rank of its variable, then by the parts.
pub fn compare(groups: &Groups, a: &Test, b: &Test) -> Ordering
    requires a { IsRanked (length groups.now.ranks) a.now }
    requires b { IsRanked (length groups.now.ranks) b.now }
    ensures { result ≡ test_cmp groups.now.ranks a.now b.now }
{
    match a {
        Test::Value { comp, num } => match b {
            Test::Value { comp: c, num: n } => compare_values((*comp, *num), (*c, *n)),
            Test::Equal { .. } => Ordering::Less,
            Test::State { .. } => Ordering::Less,
        },
        Test::Equal { left, right, plus } => match b {
            Test::Value { .. } => Ordering::Greater,
            Test::Equal {
                left: l,
                right: r,
                plus: p,
            } => compare_equals((*left, *right, *plus), (*l, *r, *p)),
            Test::State { .. } => Ordering::Less,
        },
        Test::State { var, index, value } => match b {
            Test::Value { .. } => Ordering::Greater,
            Test::Equal { .. } => Ordering::Greater,
            Test::State {
                var: v,
                index: i,
                value: t,
            } => compare_states(groups, (*var, *value), index, (*v, *t), i),
        },
    }
}
