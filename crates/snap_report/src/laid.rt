//! Policies laid out to be run on many packets.

ghost use Rattle.std.specs.Prelude.{◌≡◌, ◌++◌, [], ◌∷◌, Some, None, Err, IfOk, OnOk, length};
ghost use Rattle.snap_core.specs.Arrays.{Arrays};
ghost use Rattle.snap_core.specs.Cells.{arrays_of};
ghost use Rattle.snap_core.specs.Fits.{PolFits};
ghost use Rattle.snap_core.specs.Meaning.{eval};
ghost use Rattle.snap_core.specs.Packets.{AllLong};
ghost use Rattle.snap_core.specs.Runs.{after_first, ran_with, set_after};
ghost use Rattle.snap_report.specs.Choices.{ComesTo, IsPart};
ghost use Rattle.snap_report.specs.declared.laid.Part.{Part as PartData};

use crate::choice::Choice;
use snap_core::NoMemory;
use snap_core::copies::Effect;
use snap_core::eval::{run_after, run_on};
use snap_core::outcome::EvalFault;
use snap_core::packet::Packet;
use snap_core::policy::Pol;
use snap_core::run::Ran;
use snap_core::store::Store;
use std::alloc::Global;
use std::marker::Model;

// A part of a sequence. Where it is a choice among many numbers, that is done in one step.
#[derive(Drop)]
struct Part<'a> {
    pol: &'a Pol,
    choice: Option<Choice<'a>>,
}

impl<'a> Part<'a> {
    fn of(alloc: Global, pol: &'a Pol) -> Result<Part<'a>, NoMemory>
        ensures pol { IfOk result (λ part. part.pol.now ≡ pol.now) }
        ensures part { IfOk result IsPart }
    {
        let choice = Choice::of(alloc, pol)?;
        Ok(Part { pol, choice })
    }

    // What the part comes to on a packet.
    #[inline(always)]
    fn branch(&self, packet: &Packet) -> &'a Pol
        requires part { IsPart self.now }
        requires fits { PolFits (length packet.now) 64 self.now.pol.now }
        ensures { ComesTo self.now.pol.now result.now packet.now }
    {
        match &self.choice {
            Some(choice) => choice.pick(packet),
            None => self.pol,
        }
    }

    // The part on a packet in place.
    fn run_on(
        &self,
        alloc: Global,
        store: &mut Store,
        packet: &mut Packet,
    ) -> Result<Ran, EvalFault>
        requires part { IsPart self.now }
        requires fits { PolFits (length packet.old) 64 self.now.pol.now }
        ensures ok { IfOk result (λ r. eval self.now.pol.now (arrays_of store.old) packet.old ≡ Some (ran_with (arrays_of store.new) packet.new r)) }
        ensures undefined { result ≡ Err EvalFault.Undefined → eval self.now.pol.now (arrays_of store.old) packet.old ≡ None }
        ensures lengths { IfOk result (λ r. AllLong (length packet.old) (set_after r.flow packet.new)) }
        ensures length { length packet.new ≡ length packet.old }
    {
        run_on(alloc, self.branch(packet), store, packet)
    }

    // The part on what a run left.
    fn run_after(
        &self,
        alloc: Global,
        store: &mut Store,
        packet: &mut Packet,
        before: Ran,
    ) -> Result<Ran, EvalFault>
        requires part { IsPart self.now }
        requires fits { PolFits (length packet.old) 64 self.now.pol.now }
        requires lengths { AllLong (length packet.old) (set_after before.flow packet.old) }
        ensures ok { IfOk result (λ r. after_first self.now.pol.now (ran_with (arrays_of store.old) packet.old before) ≡ Some (ran_with (arrays_of store.new) packet.new r)) }
        ensures undefined { result ≡ Err EvalFault.Undefined → after_first self.now.pol.now (ran_with (arrays_of store.old) packet.old before) ≡ None }
        ensures lengths { IfOk result (λ r. AllLong (length packet.old) (set_after r.flow packet.new)) }
        ensures length { length packet.new ≡ length packet.old }
    {
        let pol = self.branch_after(&before, packet);
        run_after(alloc, pol, store, packet, before)
    }

    // What the part comes to on what a run left: each packet of several is led through it by itself.
    #[inline(always)]
    fn branch_after(&self, before: &Ran, packet: &Packet) -> &'a Pol
        requires part { IsPart self.now }
        requires fits { PolFits (length packet.now) 64 self.now.pol.now }
        ensures fits { PolFits (length packet.now) 64 result.now }
        ensures same { (m : Arrays) → after_first self.now.pol.now (ran_with m packet.now before.now) ≡ after_first result.now (ran_with m packet.now before.now) }
    {
        match before.flow {
            Effect::Same => self.branch(packet),
            Effect::Many(_) => self.pol,
        }
    }
}

/// A policy laid out to be run on many packets, seen as that policy: a first part, and those behind it in order.
#[derive(Drop)]
pub struct Laid<'a> {
    whole: &'a Pol,
    first: Part<'a>,
    later: Vec<Part<'a>>,
}

impl<'a> Model for Laid<'a> {
    ghost use Rattle.std.specs.Prelude.{All};
    ghost use Rattle.std.specs.Coded.{codes};
    ghost use Rattle.snap_core.specs.declared.policy.Pol.{Pol};
    ghost use Rattle.snap_core.specs.contracts.policy.Pol as policy;
    ghost use Rattle.snap_report.specs.Choices.{AreParts, IsPart};

    ghost Value = { Pol };

    ghost coded = { Prim.hlevel (codes, policy.the_row.coded) };

    ghost view = { λ a. a.whole.now };

    ghost invariant = { λ a. IsPart a.first × All IsPart a.later.items × AreParts a.first.pol.now a.later.items a.whole.now };
}

/// Lays a policy out. Refuses for memory alone.
pub fn lay(alloc: Global, pol: &Pol) -> Result<Laid<'_>, NoMemory>
    ensures { IfOk result (λ laid. laid ≡ pol.now) }
{
    let mut later = Vec::new(alloc);
    let mut first = pol;
    while let Pol::Seq(before, last) = first {
        put_part(alloc, &mut later, last)?;
        first = before;
    }
    later.reverse();
    let whole = pol;
    let first = Part::of(alloc, first)?;
    Ok(Laid {
        whole,
        first,
        later,
    })
}

// Puts a part behind the others.
fn put_part<'a>(alloc: Global, parts: &mut Vec<Part<'a>>, pol: &'a Pol) -> Result<(), NoMemory>
    ensures { OnOk result ((x : PartData) × (parts.new.items ≡ parts.old.items ++ x ∷ []) × (x.pol.now ≡ pol.now) × IsPart x) }
{
    parts.push(Part::of(alloc, pol)?)?;
    Ok(())
}

/// Evaluates a policy that is laid out on a store and a packet, both in place, as `run_on` evaluates the policy itself. Where
/// the answer is an error, the store and the packet hold some of the changes.
///
/// # Errors
///
/// `Undefined` where the policy is undefined on these, `NoMemory` for want of memory.
pub fn run_laid_on(
    alloc: Global,
    laid: &Laid<'_>,
    store: &mut Store,
    packet: &mut Packet,
) -> Result<Ran, EvalFault>
    requires { PolFits (length packet.old) 64 laid.now }
    ensures ok { IfOk result (λ r. eval laid.now (arrays_of store.old) packet.old ≡ Some (ran_with (arrays_of store.new) packet.new r)) }
    ensures undefined { result ≡ Err EvalFault.Undefined → eval laid.now (arrays_of store.old) packet.old ≡ None }
    ensures lengths { IfOk result (λ r. AllLong (length packet.old) (set_after r.flow packet.new)) }
    ensures length { length packet.new ≡ length packet.old }
{
    let mut ran = laid.first.run_on(alloc, store, packet)?;
    for part in &laid.later {
        ran = part.run_after(alloc, store, packet, ran)?;
    }
    Ok(ran)
}
