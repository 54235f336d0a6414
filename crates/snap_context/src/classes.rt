//! Classes of components: for each a number, or a root with an offset.

ghost use Rattle.std.specs.Prelude.{◌≡◌, ◌<◌, ◌≤◌, ◌↔◌, All, IfOk, IsTrue, MatchBool, None, Some, length, map};
ghost use Rattle.snap_context.specs.Classes.{atom_class, class_of, normal, IsAtom, IsTerm};
ghost use Rattle.snap_context.specs.Closing.{merged, put, AgreeOutside};
ghost use Rattle.snap_context.specs.View.{AreFirst};

use crate::sets::bit;
use crate::terms::{replaced, same_term, shifted};
use snap_core::NoMemory;
use snap_core::policy::{Atom, Term};
use std::alloc::Global;

// Each component is a root.
pub(crate) fn first_classes(alloc: Global, comps: u16) -> Result<Vec<Term>, NoMemory>
    ensures { IfOk result (λ classes. AreFirst comps classes.items) }
{
    let mut classes = Vec::new(alloc);
    for comp in 0..comps {
        classes.push(Term::Plus { comp, plus: 0 })?;
    }
    Ok(classes)
}

pub(crate) fn class_at(classes: &[Term], comp: u16) -> Term
    requires { comp < length classes.now }
    ensures { result ≡ class_of classes.now comp }
{
    classes[comp as usize]
}

pub(crate) fn normal_at(classes: &[Term], term: Term) -> Term
    requires { IsTerm (length classes.now) term }
    ensures { result ≡ normal classes.now term }
{
    match term {
        Term::Num(num) => Term::Num(num),
        Term::Plus { comp, plus } => shifted(class_at(classes, comp), plus),
    }
}

pub(crate) fn atom_at(classes: &[Term], atom: Atom) -> Term
    requires { IsAtom (length classes.now) atom }
    ensures { result ≡ atom_class classes.now atom }
{
    match atom {
        Atom::Num(num) => Term::Num(num),
        Atom::Comp(comp) => class_at(classes, comp),
    }
}

// The components whose class isn't the same among both.
pub(crate) fn changed(first: &[Term], classes: &[Term]) -> u64
    requires few { length classes.now ≤ 64 }
    requires same { length first.now ≡ length classes.now }
    ensures { AgreeOutside result first.now classes.now }
{
    let mut set = 0;
    for comp in 0..classes.len() as u16 {
        if !same_term(class_at(first, comp), class_at(classes, comp)) {
            set |= bit(comp);
        }
    }
    set
}

// Whether two indices are of one place, as far as the classes tell.
pub(crate) fn same_index(classes: &[Term], first: &[Atom], second: &[Atom]) -> bool
    requires first { All (IsAtom (length classes.now)) first.now }
    requires second { All (IsAtom (length classes.now)) second.now }
    ensures { IsTrue result ↔ (map (atom_class classes.now) first.now ≡ map (atom_class classes.now) second.now) }
{
    if first.len() != second.len() {
        return false;
    }
    for i in 0..first.len() {
        if !same_term(atom_at(classes, first[i]), atom_at(classes, second[i])) {
            return false;
        }
    }
    true
}

pub(crate) fn put_root(classes: &mut [Term], root: u16, to: Term)
    ensures { classes.new ≡ put classes.old root to }
{
    for class in classes.iter_mut() {
        *class = replaced(*class, root, to);
    }
}

// Makes two terms of the classes equal, where that can be.
pub(crate) fn merge(classes: &mut [Term], left: Term, right: Term) -> bool
    ensures { MatchBool result (merged classes.old left right ≡ Some classes.new) (merged classes.old left right ≡ None) }
{
    match left {
        Term::Num(num) => match right {
            Term::Num(other) => num == other,
            Term::Plus { comp: root, plus } => {
                put_root(classes, root, Term::Num(num.wrapping_sub(plus)));
                true
            }
        },
        Term::Plus { comp: root, plus } => match right {
            Term::Num(num) => {
                put_root(classes, root, Term::Num(num.wrapping_sub(plus)));
                true
            }
            Term::Plus {
                comp: other,
                plus: more,
            } => {
                if root == other {
                    return plus == more;
                }
                let to = Term::Plus {
                    comp: other,
                    plus: more.wrapping_sub(plus),
                };
                put_root(classes, root, to);
                true
            }
        },
    }
}
