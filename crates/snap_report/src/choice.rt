//! Choices among the numbers of one component.

ghost use Rattle.std.specs.Prelude.{◌≡◌, ◌<◌, ◌++◌, [], ◌∷◌, IfOk, IfSome, OnOk, length, slice_get, unwrap_or};
ghost use Rattle.snap_core.specs.declared.policy.Pol.{size-Pol};
ghost use Rattle.snap_report.specs.Choices.{IsChoice, IsTest, picked, seen};

use snap_core::NoMemory;
use snap_core::cases::Cases;
use snap_core::packet::Packet;
use snap_core::policy::{Pol, Pred};
use std::alloc::Global;

// So few tests are made one by one.
const FEW: usize = 3;

/// A run of tests of one component, each in the `else` of the one before: a case says the place of its branch.
#[derive(Drop)]
pub(crate) struct Choice<'a> {
    comp: u16,
    cases: Cases,
    branches: Vec<&'a Pol>,
    rest: &'a Pol,
}

// A test whether a component is a number, and where it leads.
#[derive(Clone, Copy)]
struct ValueTest<'a> {
    comp: u16,
    num: u64,
    yes: &'a Pol,
    no: &'a Pol,
}

impl<'a> Choice<'a> {
    /// The choice that a policy makes, if it is one among many numbers. Refuses for memory alone.
    pub(crate) fn of(alloc: Global, pol: &'a Pol) -> Result<Option<Choice<'a>>, NoMemory>
        ensures { IfOk result (λ o. IfSome o (IsChoice pol.now)) }
    {
        let Some(first) = value_test(pol) else {
            return Ok(None);
        };
        let (mut cases, mut branches) = (Vec::new(alloc), Vec::new(alloc));
        let mut rest = pol;
        while let Some(next) = test_of(first.comp, rest) {
            put(&mut cases, &mut branches, next)?;
            rest = next.no;
        }
        if cases.len() <= FEW {
            return Ok(None);
        }
        Ok(Some(Choice {
            comp: first.comp,
            cases: Cases::of(cases)?,
            branches,
            rest,
        }))
    }

    /// The branch of a packet. Takes no memory.
    #[inline(always)]
    pub(crate) fn pick(&self, packet: &Packet) -> &'a Pol
        requires { self.now.comp < length packet.now }
        ensures { result.now ≡ picked self.now packet.now }
    {
        match self.cases.get(packet.get(self.comp)) {
            Some(place) => self.branch(place),
            None => self.rest,
        }
    }

    // The branch at a place.
    #[inline(always)]
    fn branch(&self, place: u64) -> &'a Pol
        ensures { result.now ≡ unwrap_or (slice_get (seen self.now.branches.items) place) self.now.rest.now }
    {
        match self.branches.get(place as usize) {
            Some(branch) => branch,
            None => self.rest,
        }
    }
}

// Puts a case and its branch behind the others.
fn put<'a>(
    cases: &mut Vec<(u64, u64)>,
    branches: &mut Vec<&'a Pol>,
    test: ValueTest<'a>,
) -> Result<(), NoMemory>
    ensures cases { OnOk result (cases.new.items ≡ cases.old.items ++ (test.entry.num, length branches.old.items) ∷ []) }
    ensures branches { OnOk result (branches.new.items ≡ branches.old.items ++ test.entry.yes ∷ []) }
{
    cases.push((test.num, branches.len() as u64))?;
    branches.push(test.yes)?;
    Ok(())
}

// The test of this component that a policy is.
fn test_of(comp: u16, pol: &Pol) -> Option<ValueTest<'_>>
    ensures test { IfSome result (λ t. IsTest pol.now comp t.num t.yes.now t.no.now) }
    ensures less { IfSome result (λ t. size-Pol t.no.now < size-Pol pol.now) }
{
    match value_test(pol) {
        Some(test) if test.comp == comp => Some(test),
        _ => None,
    }
}

// The test that a policy is.
fn value_test(pol: &Pol) -> Option<ValueTest<'_>>
    ensures test { IfSome result (λ t. IsTest pol.now t.comp t.num t.yes.now t.no.now) }
    ensures less { IfSome result (λ t. size-Pol t.no.now < size-Pol pol.now) }
{
    let Pol::If(test, yes, no) = pol else {
        return None;
    };
    let Pred::Field { comp, num } = test else {
        return None;
    };
    Some(ValueTest {
        comp: *comp,
        num: *num,
        yes,
        no,
    })
}
