//! The core language: predicates and policies.

ghost use Rattle.std.specs.Prelude.{◌≡◌, ◌↔◌, IfOk, IsTrue};
ghost use Rattle.snap_core.specs.Fits.{AtomFits, OpFits, IndexFits, UpdateFits, PredFits, PolFits};

use crate::NoMemory;
use crate::lists::{Atoms, Updates};
use std::alloc::Global;

/// A number, or a component of the packet.
#[derive(Clone, Copy, Debug, PartialEq, Eq, PartialOrd, Ord)]
pub enum Atom {
    Num(u64),
    Comp(u16),
}

/// A number, or a component of the packet with an offset.
#[derive(Clone, Copy, Debug, PartialEq, Eq, PartialOrd, Ord)]
pub enum Term {
    Num(u64),
    Plus { comp: u16, plus: u64 },
}

/// A test of a diagram.
#[derive(Drop)]
pub enum Test {
    Value { comp: u16, num: u64 },
    Equal { left: u16, right: u16, plus: u64 },
    State { var: u16, index: Atoms, value: Term },
}

/// What an update makes of the number at its place.
#[derive(Clone, Copy, Debug, PartialEq, Eq, PartialOrd, Ord)]
pub enum Op {
    Put(Atom),
    Add(u64),
}

/// An update of the number at one place.
#[derive(Drop)]
pub struct Update {
    pub var: u16,
    pub index: Atoms,
    pub op: Op,
}

/// A predicate over the store and the packet.
#[derive(Drop)]
pub enum Pred {
    Id,
    Drop,
    Field { comp: u16, num: u64 },
    State { var: u16, index: Atoms, value: Atom },
    Not(Box<Pred>),
    And(Box<Pred>, Box<Pred>),
    Or(Box<Pred>, Box<Pred>),
}

/// A policy.
#[derive(Drop)]
pub enum Pol {
    Filter(Pred),
    Set { comp: u16, from: Atom },
    Change(Update),
    Par(Box<Pol>, Box<Pol>),
    Seq(Box<Pol>, Box<Pol>),
    If(Pred, Box<Pol>, Box<Pol>),
    Atomic(Box<Pol>),
}

impl Atom {
    /// Whether a component is below this number.
    pub fn fits(self, comps: usize) -> bool
        ensures { IsTrue result ↔ AtomFits comps self }
    {
        match self {
            Atom::Num(_) => true,
            Atom::Comp(comp) => (comp as usize) < comps,
        }
    }
}

fn index_fits(index: &Atoms, comps: usize) -> bool
    ensures { IsTrue result ↔ IndexFits comps index.now }
{
    index.items().iter().all(|atom| atom.fits(comps))
}

impl Pred {
    /// Whether each component and each variable is below these numbers.
    pub fn fits(&self, comps: usize, arrays: usize) -> bool
        ensures { IsTrue result ↔ PredFits comps arrays self.now }
    {
        match self {
            Pred::Id | Pred::Drop => true,
            Pred::Field { comp, .. } => (*comp as usize) < comps,
            Pred::State { var, index, value } => {
                (*var as usize) < arrays && index_fits(index, comps) && value.fits(comps)
            }
            Pred::Not(part) => part.fits(comps, arrays),
            Pred::And(left, right) => left.fits(comps, arrays) && right.fits(comps, arrays),
            Pred::Or(left, right) => left.fits(comps, arrays) && right.fits(comps, arrays),
        }
    }
}

impl Op {
    /// Whether each component is below this number. Takes no memory.
    pub fn fits(self, comps: usize) -> bool
        ensures { IsTrue result ↔ OpFits comps self }
    {
        match self {
            Op::Put(atom) => atom.fits(comps),
            Op::Add(_) => true,
        }
    }
}

impl Update {
    /// Whether each component and each variable is below these numbers. Takes no memory.
    pub fn fits(&self, comps: usize, arrays: usize) -> bool
        ensures { IsTrue result ↔ UpdateFits comps arrays self.now }
    {
        (self.var as usize) < arrays && index_fits(&self.index, comps) && self.op.fits(comps)
    }
}

impl Pol {
    /// Whether each component and each variable is below these numbers.
    pub fn fits(&self, comps: usize, arrays: usize) -> bool
        ensures { IsTrue result ↔ PolFits comps arrays self.now }
    {
        match self {
            Pol::Filter(pred) => pred.fits(comps, arrays),
            Pol::Set { comp, from } => (*comp as usize) < comps && from.fits(comps),
            Pol::Change(update) => update.fits(comps, arrays),
            Pol::Par(left, right) => left.fits(comps, arrays) && right.fits(comps, arrays),
            Pol::Seq(first, second) => first.fits(comps, arrays) && second.fits(comps, arrays),
            Pol::If(test, yes, no) => {
                test.fits(comps, arrays) && yes.fits(comps, arrays) && no.fits(comps, arrays)
            }
            Pol::Atomic(part) => part.fits(comps, arrays),
        }
    }
}

impl Update {
    /// The same update. Refuses for memory alone.
    pub fn copy(&self) -> Result<Update, NoMemory>
        ensures { IfOk result (λ copy. copy ≡ self.now) }
    {
        Ok(Update {
            var: self.var,
            index: self.index.copy()?,
            op: self.op,
        })
    }
}

/// The same updates.
pub fn copy_updates(alloc: Global, updates: &[Update]) -> Result<Vec<Update>, NoMemory>
    ensures { IfOk result (λ copies. copies.items ≡ updates.now) }
{
    let mut copies = Vec::with_capacity(alloc, updates.len())?;
    for update in updates {
        copies.push(update.copy()?)?;
    }
    Ok(copies)
}

impl Updates {
    /// The same updates. Refuses for memory alone.
    pub fn copy(&self, alloc: Global) -> Result<Updates, NoMemory>
        ensures { IfOk result (λ copy. copy ≡ self.now) }
    {
        Ok(Updates::new(copy_updates(alloc, self.items())?))
    }
}

impl Test {
    /// The same test. Refuses for memory alone.
    pub fn copy(&self) -> Result<Test, NoMemory>
        ensures { IfOk result (λ copy. copy ≡ self.now) }
    {
        Ok(match self {
            Test::Value { comp, num } => Test::Value {
                comp: *comp,
                num: *num,
            },
            Test::Equal { left, right, plus } => Test::Equal {
                left: *left,
                right: *right,
                plus: *plus,
            },
            Test::State { var, index, value } => Test::State {
                var: *var,
                index: index.copy()?,
                value: *value,
            },
        })
    }
}
