//! Values, tests and updates behind an out, in front of it.

ghost use Rattle.std.specs.Prelude.{◌≡◌, ◌==◌, ◌<◌, map, IfOk};
ghost use Rattle.snap_core.specs.Arrays.{value_of};
ghost use Rattle.snap_core.specs.Fits.{AtomFits};
ghost use Rattle.snap_core.specs.declared.policy.Test.TheVariants as test;
ghost use Rattle.snap_core.specs.Tests.{OutFits, TermFits, after_out, passes, term_value};
ghost use Rattle.snap_context.specs.Classes.{shift};
ghost use Rattle.snap_diagrams.specs.Bounds.{Sizes, TestIn};
ghost use Rattle.snap_compose.specs.PulledBack.{atom_after, early_atom, early_term, early_update, term_of, IsEarly};

use snap_core::NoMemory;
use snap_core::lists::{Atoms, Out};
use snap_core::policy::{Atom, Op, Term, Test, Update};
use std::alloc::Global;

/// A truth over stores and packets: its value, or the test that decides it.
#[derive(Drop)]
pub enum Early {
    Known(bool),
    Ask(Test),
}

/// The atom whose value a component has after an out.
pub fn atom_after(out: &Out, comp: u16) -> Atom
    ensures { result ≡ atom_after out.now comp }
{
    let mut atom = Atom::Comp(comp);
    for part in out.parts() {
        if part.0 == comp {
            atom = part.1;
        }
    }
    atom
}

/// An atom behind an out.
pub fn atom_before(out: &Out, atom: Atom) -> Atom
    ensures { result ≡ early_atom out.now atom }
{
    match atom {
        Atom::Num(num) => Atom::Num(num),
        Atom::Comp(comp) => atom_after(out, comp),
    }
}

/// Index atoms behind an out. Refuses for memory alone.
pub fn index_before(alloc: Global, out: &Out, index: &Atoms) -> Result<Atoms, NoMemory>
    ensures { IfOk result (λ before. before ≡ map (early_atom out.now) index.now) }
{
    let mut before = Vec::with_capacity(alloc, index.items().len())?;
    for atom in index.items() {
        before.push(atom_before(out, *atom))?;
    }
    Ok(Atoms::new(before))
}

/// A term with this much more, modulo 2^64.
pub fn shifted(term: Term, by: u64) -> Term
    ensures { result ≡ shift term by }
{
    match term {
        Term::Num(num) => Term::Num(num.wrapping_add(by)),
        Term::Plus { comp, plus } => Term::Plus {
            comp,
            plus: plus.wrapping_add(by),
        },
    }
}

/// An atom as a term.
pub fn as_term(atom: Atom) -> Term
    ensures { result ≡ term_of atom }
{
    match atom {
        Atom::Num(num) => Term::Num(num),
        Atom::Comp(comp) => Term::Plus { comp, plus: 0 },
    }
}

/// A term behind an out.
pub fn term_before(out: &Out, term: Term) -> Term
    ensures { result ≡ early_term out.now term }
{
    match term {
        Term::Num(num) => Term::Num(num),
        Term::Plus { comp, plus } => shifted(as_term(atom_after(out, comp)), plus),
    }
}

/// An update behind an out. Refuses for memory alone.
pub fn update_before(alloc: Global, out: &Out, update: &Update) -> Result<Update, NoMemory>
    ensures { IfOk result (λ before. before ≡ early_update out.now update.now) }
{
    let index = index_before(alloc, out, &update.index)?;
    let op = match update.op {
        Op::Put(atom) => Op::Put(atom_before(out, atom)),
        Op::Add(num) => Op::Add(num),
    };
    Ok(Update {
        var: update.var,
        index,
        op,
    })
}

// Whether a component is a number.
fn comp_is(comp: u16, num: u64) -> Early
    ensures { (s : Sizes) → comp < s.comps → IsEarly s (λ m k. passes (test.Value comp num) m k) result }
{
    Early::Ask(Test::Value { comp, num })
}

// Whether a component is another with an offset.
fn comps_are(left: u16, right: u16, plus: u64) -> Early
    ensures { (s : Sizes) → left < s.comps → right < s.comps → IsEarly s (λ m k. passes (test.Equal left right plus) m k) result }
{
    if left == right {
        return Early::Known(plus == 0);
    }
    if left < right {
        return Early::Ask(Test::Equal { left, right, plus });
    }
    Early::Ask(Test::Equal {
        left: right,
        right: left,
        plus: plus.wrapping_neg(),
    })
}

/// Whether an atom has the value of a term.
pub fn same_value(left: Atom, right: Term) -> Early
    ensures { (s : Sizes) → AtomFits s.comps left → TermFits s.comps right → IsEarly s (λ m k. value_of left k == term_value right k) result }
{
    match left {
        Atom::Num(num) => match right {
            Term::Num(other) => Early::Known(num == other),
            Term::Plus { comp, plus } => comp_is(comp, num.wrapping_sub(plus)),
        },
        Atom::Comp(comp) => match right {
            Term::Num(num) => comp_is(comp, num),
            Term::Plus { comp: other, plus } => comps_are(comp, other, plus),
        },
    }
}

/// A test behind an out. Refuses for memory alone.
pub fn test_before(alloc: Global, out: &Out, test: &Test) -> Result<Early, NoMemory>
    ensures { IfOk result (λ e. (s : Sizes) → OutFits s.comps out.now → TestIn s test.now → IsEarly s (λ m k. passes test.now m (after_out out.now k)) e) }
{
    match test {
        Test::Value { comp, num } => Ok(same_value(atom_after(out, *comp), Term::Num(*num))),
        Test::Equal { left, right, plus } => {
            let term = shifted(as_term(atom_after(out, *right)), *plus);
            Ok(same_value(atom_after(out, *left), term))
        }
        Test::State { var, index, value } => Ok(Early::Ask(Test::State {
            var: *var,
            index: index_before(alloc, out, index)?,
            value: term_before(out, *value),
        })),
    }
}
