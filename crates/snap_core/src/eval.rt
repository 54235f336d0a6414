//! Evaluation.

ghost use Rattle.std.specs.Prelude.{◌≡◌, ◌<◌, ◌≤◌, ◌^◌, IfOk, IfErr, if◌then◌else◌, true, false, None, Some, Err, max, length, bit_or, All};
ghost use Rattle.snap_core.specs.Arrays.{Arrays, place_at};
ghost use Rattle.snap_core.specs.Cells.{arrays_of};
ghost use Rattle.snap_core.specs.Fits.{AtomFits, IndexFits, PredFits, PolFits, UpdateFits, VarsBelow};
ghost use Rattle.snap_core.specs.declared.policy.Pol.{size-Pol};
ghost use Rattle.snap_core.specs.declared.policy.Pol.TheVariants.{Filter, Set, Change};
ghost use Rattle.snap_core.specs.Meaning.{truth, vars_of, eval};
ghost use Rattle.snap_core.specs.declared.run.Logs.{Logs as LogsData};
ghost use Rattle.snap_core.specs.Outcomes.{meaning_of};
ghost use Rattle.snap_core.specs.Packets.{AllLong, listed, no_packets, with_packets};
ghost use Rattle.snap_core.specs.Runs.{after_first, both_of, choice_of, each_of, flown, meaning_with, ran_with, sequence_of, set_after, set_in, within};

use crate::NoMemory;
use crate::atoms::{fill_index, index_on};
use crate::copies::Effect;
use crate::lists::Atoms;
use crate::outcome::{EvalFault, Outcome};
use crate::packet::Packet;
use crate::packets::Packets;
use crate::policy::{Atom, Pol, Pred, Update};
use crate::run::{Logs, Ran, Run};
use crate::store::Store;
use arrayvec::ArrayVec;
use std::alloc::Global;

/// The meaning of a policy on a store and a packet. It copies the store; `run` changes it in place.
pub fn eval(alloc: Global, pol: &Pol, store: &Store, packet: &Packet) -> Result<Outcome, EvalFault>
    requires { PolFits (length packet.now) 64 pol.now }
    ensures ok { IfOk result (λ o. eval pol.now (arrays_of store.now) packet.now ≡ Some (meaning_of o)) }
    ensures undefined { result ≡ Err EvalFault.Undefined → eval pol.now (arrays_of store.now) packet.now ≡ None }
    ensures lengths { IfOk result (λ o. AllLong (length packet.now) o.packets) }
{
    let mut after = store.copy()?;
    let run = run(alloc, pol, &mut after, packet.copy()?)?;
    Ok(Outcome {
        store: after,
        packets: run.copies.into_set(alloc)?,
        reads: run.reads,
        writes: run.writes,
    })
}

/// Evaluates a policy on a store and a packet. The store becomes what the policy makes of it; where the answer is an
/// error it holds some of the changes.
///
/// Parts side by side begin one after the other, each where the one before left the store: a part that reads or writes
/// what an earlier one wrote clashes with it, and any other doesn't see the difference.
#[cycle(eval)]
pub fn run(alloc: Global, pol: &Pol, store: &mut Store, packet: Packet) -> Result<Run, EvalFault>
    requires { PolFits (length packet) 64 pol.now }
    ensures ok { IfOk result (λ r. eval pol.now (arrays_of store.old) packet ≡ Some (meaning_with (arrays_of store.new) r)) }
    ensures undefined { result ≡ Err EvalFault.Undefined → eval pol.now (arrays_of store.old) packet ≡ None }
    ensures lengths { IfOk result (λ r. AllLong (length packet) (set_in r.copies)) }
{
    let mut packet = packet;
    let ran = run_on(alloc, pol, store, &mut packet)?;
    Ok(Run {
        copies: ran.flow.copies(packet),
        reads: ran.reads,
        writes: ran.writes,
    })
}

/// The same on a packet that is changed in place, so that a packet that goes on alone takes no memory. Where the answer
/// is an error the packet holds some of the changes, as the store does; where packets stand in the answer it is one that
/// counts for nothing.
#[cycle(eval)]
pub fn run_on(
    alloc: Global,
    pol: &Pol,
    store: &mut Store,
    packet: &mut Packet,
) -> Result<Ran, EvalFault>
    requires { PolFits (length packet.old) 64 pol.now }
    ensures ok { IfOk result (λ r. eval pol.now (arrays_of store.old) packet.old ≡ Some (ran_with (arrays_of store.new) packet.new r)) }
    ensures undefined { result ≡ Err EvalFault.Undefined → eval pol.now (arrays_of store.old) packet.old ≡ None }
    ensures lengths { IfOk result (λ r. AllLong (length packet.old) (set_after r.flow packet.new)) }
    ensures length { length packet.new ≡ length packet.old }
{
    let mut logs = Logs {
        reads: 0,
        writes: 0,
    };
    let flow = pass(alloc, pol, store, packet, &mut logs)?;
    Ok(Ran {
        flow,
        reads: logs.reads,
        writes: logs.writes,
    })
}

/// Evaluates a policy on each packet that a run in place left, side by side, from the store as the run left it. So a
/// sequence is done part by part: what a run of its first part left, a run of the next one takes over. Errors leave the
/// store and the packet as those of `run_on` do.
pub fn run_after(
    alloc: Global,
    pol: &Pol,
    store: &mut Store,
    packet: &mut Packet,
    before: Ran,
) -> Result<Ran, EvalFault>
    requires fits { PolFits (length packet.old) 64 pol.now }
    requires lengths { AllLong (length packet.old) (set_after before.flow packet.old) }
    ensures ok { IfOk result (λ r. after_first pol.now (ran_with (arrays_of store.old) packet.old before) ≡ Some (ran_with (arrays_of store.new) packet.new r)) }
    ensures undefined { result ≡ Err EvalFault.Undefined → after_first pol.now (ran_with (arrays_of store.old) packet.old before) ≡ None }
    ensures lengths { IfOk result (λ r. AllLong (length packet.old) (set_after r.flow packet.new)) }
    ensures length { length packet.new ≡ length packet.old }
{
    let mut logs = Logs {
        reads: before.reads,
        writes: before.writes,
    };
    let flow = each(alloc, pol, store, packet, &mut logs, before.flow)?;
    Ok(Ran {
        flow,
        reads: logs.reads,
        writes: logs.writes,
    })
}

// The same within a run, whose logs grow.
#[cycle(eval)]
fn pass(
    alloc: Global,
    pol: &Pol,
    store: &mut Store,
    packet: &mut Packet,
    logs: &mut Logs,
) -> Result<Effect, EvalFault>
    requires { PolFits (length packet.old) 64 pol.now }
    ensures ok { IfOk result (λ f. within logs.old (eval pol.now (arrays_of store.old) packet.old) ≡ Some (flown (arrays_of store.new) f packet.new logs.new)) }
    ensures undefined { result ≡ Err EvalFault.Undefined → eval pol.now (arrays_of store.old) packet.old ≡ None }
    ensures lengths { IfOk result (λ f. AllLong (length packet.old) (set_after f packet.new)) }
    ensures length { length packet.new ≡ length packet.old }
{
    match pol {
        Pol::Filter(pred) => filter(alloc, pred, store, packet, logs),
        Pol::Set { comp, from } => Ok(set(*comp, *from, packet)),
        Pol::Change(update) => change(update, store, packet, logs),
        Pol::Par(left, right) => both(alloc, left, right, store, packet, logs),
        Pol::Seq(first, second) => sequence(alloc, first, second, store, packet, logs),
        Pol::If(test, yes, no) => {
            let branch = last_branch(alloc, test, yes, no, store, packet, logs)?;
            pass(alloc, branch, store, packet, logs)
        }
        Pol::Atomic(part) => pass(alloc, part, store, packet, logs),
    }
}

// Two policies side by side.
#[inline(never)]
#[cycle(eval)]
fn both(
    alloc: Global,
    left: &Pol,
    right: &Pol,
    store: &mut Store,
    packet: &Packet,
    logs: &mut Logs,
) -> Result<Effect, EvalFault>
    requires left { PolFits (length packet.now) 64 left.now }
    requires right { PolFits (length packet.now) 64 right.now }
    ensures ok { IfOk result (λ f. within logs.old (both_of left.now right.now (arrays_of store.old) packet.now) ≡ Some (flown (arrays_of store.new) f packet.now logs.new)) }
    ensures undefined { result ≡ Err EvalFault.Undefined → both_of left.now right.now (arrays_of store.old) packet.now ≡ None }
    ensures lengths { IfOk result (λ f. AllLong (length packet.now) (set_after f packet.now)) }
{
    let done = run_both(alloc, left, right, store, packet)?;
    Ok(done.within(alloc, logs)?)
}

// Both as a run of their own.
#[cycle(eval)]
fn run_both(
    alloc: Global,
    left: &Pol,
    right: &Pol,
    store: &mut Store,
    packet: &Packet,
) -> Result<Run, EvalFault>
    requires left { PolFits (length packet.now) 64 left.now }
    requires right { PolFits (length packet.now) 64 right.now }
    ensures ok { IfOk result (λ r. both_of left.now right.now (arrays_of store.old) packet.now ≡ Some (meaning_with (arrays_of store.new) r)) }
    ensures undefined { result ≡ Err EvalFault.Undefined → both_of left.now right.now (arrays_of store.old) packet.now ≡ None }
    ensures lengths { IfOk result (λ r. AllLong (length packet.now) (set_in r.copies)) }
{
    let left = run(alloc, left, store, packet.copy()?)?;
    let right = run(alloc, right, store, packet.copy()?)?;
    left.beside(alloc, right)
}

// A policy, and another on each packet that it gives.
#[cycle(eval)]
fn sequence(
    alloc: Global,
    first: &Pol,
    second: &Pol,
    store: &mut Store,
    packet: &mut Packet,
    logs: &mut Logs,
) -> Result<Effect, EvalFault>
    requires first { PolFits (length packet.old) 64 first.now }
    requires second { PolFits (length packet.old) 64 second.now }
    ensures ok { IfOk result (λ f. within logs.old (sequence_of first.now second.now (arrays_of store.old) packet.old) ≡ Some (flown (arrays_of store.new) f packet.new logs.new)) }
    ensures undefined { result ≡ Err EvalFault.Undefined → sequence_of first.now second.now (arrays_of store.old) packet.old ≡ None }
    ensures lengths { IfOk result (λ f. AllLong (length packet.old) (set_after f packet.new)) }
    ensures length { length packet.new ≡ length packet.old }
{
    let flow = pass(alloc, first, store, packet, logs)?;
    each(alloc, second, store, packet, logs, flow)
}

// The branch at the end of a chain of choices, as `if .. else if .. else` makes it.
fn last_branch<'a>(
    alloc: Global,
    test: &Pred,
    yes: &'a Pol,
    no: &'a Pol,
    store: &Store,
    packet: &Packet,
    logs: &mut Logs,
) -> Result<&'a Pol, NoMemory>
    requires test { PredFits (length packet.now) 64 test.now }
    requires yes { PolFits (length packet.now) 64 yes.now }
    requires no { PolFits (length packet.now) 64 no.now }
    ensures fits { IfOk result (λ p. PolFits (length packet.now) 64 p.now) }
    ensures same { IfOk result (λ p. within logs.old (choice_of test.now yes.now no.now (arrays_of store.now) packet.now) ≡ within logs.new (eval p.now (arrays_of store.now) packet.now)) }
    ensures inner { IfOk result (λ p. size-Pol p.now ≤ max (size-Pol yes.now) (size-Pol no.now)) }
{
    let mut pol = picked_branch(alloc, test, yes, no, store, packet, logs)?;
    while let Pol::If(test, yes, no) = pol {
        pol = picked_branch(alloc, test, yes, no, store, packet, logs)?;
    }
    Ok(pol)
}

// The branch that a test picks. What the test reads is logged.
fn picked_branch<'a>(
    alloc: Global,
    test: &Pred,
    yes: &'a Pol,
    no: &'a Pol,
    store: &Store,
    packet: &Packet,
    logs: &mut Logs,
) -> Result<&'a Pol, NoMemory>
    requires { PredFits (length packet.now) 64 test.now }
    ensures picked { IfOk result (λ p. p.now ≡ (if truth test.now (arrays_of store.now) packet.now then yes.now else no.now)) }
    ensures reads { logs.new.reads ≡ bit_or logs.old.reads (vars_of test.now) }
    ensures writes { logs.new.writes ≡ logs.old.writes }
{
    if tested(alloc, test, store, packet, logs)? {
        Ok(yes)
    } else {
        Ok(no)
    }
}

// Whether a predicate is true. What it reads is logged.
fn tested(
    alloc: Global,
    pred: &Pred,
    store: &Store,
    packet: &Packet,
    logs: &mut Logs,
) -> Result<bool, NoMemory>
    requires { PredFits (length packet.now) 64 pred.now }
    ensures answer { IfOk result (λ answer. answer ≡ truth pred.now (arrays_of store.now) packet.now) }
    ensures reads { logs.new.reads ≡ bit_or logs.old.reads (vars_of pred.now) }
    ensures writes { logs.new.writes ≡ logs.old.writes }
{
    if let Pred::Field { comp, num } = pred {
        return Ok(packet.get(*comp) == *num);
    }
    logs.reads |= read_by(pred);
    holds(alloc, pred, store, packet)
}

// A policy on each packet that another gave, side by side.
#[cycle(eval)]
fn each(
    alloc: Global,
    pol: &Pol,
    store: &mut Store,
    packet: &mut Packet,
    logs: &mut Logs,
    flow: Effect,
) -> Result<Effect, EvalFault>
    requires fits { PolFits (length packet.old) 64 pol.now }
    requires lengths { AllLong (length packet.old) (set_after flow packet.old) }
    ensures ok { IfOk result (λ f. within logs.old (each_of pol.now (arrays_of store.old) (listed (set_after flow packet.old))) ≡ Some (flown (arrays_of store.new) f packet.new logs.new)) }
    ensures undefined { result ≡ Err EvalFault.Undefined → each_of pol.now (arrays_of store.old) (listed (set_after flow packet.old)) ≡ None }
    ensures lengths { IfOk result (λ f. AllLong (length packet.old) (set_after f packet.new)) }
    ensures length { length packet.new ≡ length packet.old }
{
    match flow {
        Effect::Same => pass(alloc, pol, store, packet, logs),
        Effect::Many(packets) => on_all(alloc, pol, store, packet, logs, packets),
    }
}

// A policy on each of these packets, which may be equal, side by side.
#[inline(never)]
#[cycle(eval)]
fn on_all(
    alloc: Global,
    pol: &Pol,
    store: &mut Store,
    packet: &Packet,
    logs: &mut Logs,
    packets: Vec<Packet>,
) -> Result<Effect, EvalFault>
    requires fits { PolFits (length packet.now) 64 pol.now }
    requires lengths { AllLong (length packet.now) (with_packets no_packets packets.items) }
    ensures ok { IfOk result (λ f. within logs.old (each_of pol.now (arrays_of store.old) (listed (with_packets no_packets packets.items))) ≡ Some (flown (arrays_of store.new) f packet.now logs.new)) }
    ensures undefined { result ≡ Err EvalFault.Undefined → each_of pol.now (arrays_of store.old) (listed (with_packets no_packets packets.items)) ≡ None }
    ensures lengths { IfOk result (λ f. AllLong (length packet.now) (set_after f packet.now)) }
{
    let comps = packet.comps().len();
    let packets = Packets::from_list(alloc, packets)?;
    let done = side_by_side(alloc, pol, store, packets.list(), comps)?;
    Ok(done.within(alloc, logs)?)
}

// A policy on each of these packets, side by side.
#[cycle(eval)]
fn side_by_side(
    alloc: Global,
    pol: &Pol,
    store: &mut Store,
    packets: &[Packet],
    comps: usize,
) -> Result<Run, EvalFault>
    requires fits { PolFits comps 64 pol.now }
    requires lengths { All (λ k. length k ≡ comps) packets.now }
    ensures ok { IfOk result (λ r. each_of pol.now (arrays_of store.old) packets.now ≡ Some (meaning_with (arrays_of store.new) r)) }
    ensures undefined { result ≡ Err EvalFault.Undefined → each_of pol.now (arrays_of store.old) packets.now ≡ None }
    ensures lengths { IfOk result (λ r. AllLong comps (set_in r.copies)) }
{
    let mut all = Run::blank(alloc);
    for packet in packets {
        let one = run(alloc, pol, store, packet.copy()?)?;
        all = all.beside(alloc, one)?;
    }
    Ok(all)
}

fn filter(
    alloc: Global,
    pred: &Pred,
    store: &Store,
    packet: &Packet,
    logs: &mut Logs,
) -> Result<Effect, EvalFault>
    requires { PredFits (length packet.now) 64 pred.now }
    ensures ok { IfOk result (λ f. within logs.old (eval (Filter pred.now) (arrays_of store.now) packet.now) ≡ Some (flown (arrays_of store.now) f packet.now logs.new)) }
    ensures memory { IfErr result (λ e. e ≡ EvalFault.NoMemory) }
    ensures lengths { IfOk result (λ f. AllLong (length packet.now) (set_after f packet.now)) }
{
    if tested(alloc, pred, store, packet, logs)? {
        Ok(Effect::Same)
    } else {
        Ok(Effect::Many(Vec::new(alloc)))
    }
}

fn set(comp: u16, from: Atom, packet: &mut Packet) -> Effect
    requires comp { comp < length packet.old }
    requires from { AtomFits (length packet.old) from }
    ensures ok { (m : Arrays) (l : LogsData) → within l (eval (Set comp from) m packet.old) ≡ Some (flown m result packet.new l) }
    ensures lengths { AllLong (length packet.old) (set_after result packet.new) }
    ensures length { length packet.new ≡ length packet.old }
{
    let number = from.value(packet);
    packet.set(comp, number);
    Effect::Same
}

fn change(
    update: &Update,
    store: &mut Store,
    packet: &Packet,
    logs: &mut Logs,
) -> Result<Effect, EvalFault>
    requires { UpdateFits (length packet.now) 64 update.now }
    ensures ok { IfOk result (λ f. within logs.old (eval (Change update.now) (arrays_of store.old) packet.now) ≡ Some (flown (arrays_of store.new) f packet.now logs.new)) }
    ensures memory { IfErr result (λ e. e ≡ EvalFault.NoMemory) }
    ensures lengths { IfOk result (λ f. AllLong (length packet.now) (set_after f packet.now)) }
{
    store.update(packet, update)?;
    logs.writes |= bit(update.var);
    Ok(Effect::Same)
}

// The set of one variable.
fn bit(var: u16) -> u64
    requires { var < 64 }
    ensures { result ≡ 2 ^ var }
{
    1 << var
}

// Whether a predicate is true.
fn holds(alloc: Global, pred: &Pred, store: &Store, packet: &Packet) -> Result<bool, NoMemory>
    requires { PredFits (length packet.now) 64 pred.now }
    ensures { IfOk result (λ answer. answer ≡ truth pred.now (arrays_of store.now) packet.now) }
{
    match pred {
        Pred::Id => Ok(true),
        Pred::Drop => Ok(false),
        Pred::Field { comp, num } => Ok(packet.get(*comp) == *num),
        Pred::State { var, index, value } => {
            let number = number_at(alloc, *var, index, store, packet)?;
            Ok(number == value.value(packet))
        }
        Pred::Not(part) => {
            let answer = holds(alloc, part, store, packet)?;
            Ok(!answer)
        }
        Pred::And(left, right) => {
            if holds(alloc, left, store, packet)? {
                holds(alloc, right, store, packet)
            } else {
                Ok(false)
            }
        }
        Pred::Or(left, right) => {
            if holds(alloc, left, store, packet)? {
                Ok(true)
            } else {
                holds(alloc, right, store, packet)
            }
        }
    }
}

/// The number at the place that index atoms give on a packet.
pub(crate) fn number_at(
    alloc: Global,
    var: u16,
    index: &Atoms,
    store: &Store,
    packet: &Packet,
) -> Result<u64, NoMemory>
    requires { IndexFits (length packet.now) index.now }
    ensures { IfOk result (λ number. number ≡ arrays_of store.now (place_at var index.now packet.now)) }
{
    match index.items() {
        [atom] => Ok(store.get(var, &[atom.value(packet)])),
        _ => number_at_any(alloc, var, index, store, packet),
    }
}

// The same for an index of any number of atoms.
fn number_at_any(
    alloc: Global,
    var: u16,
    index: &Atoms,
    store: &Store,
    packet: &Packet,
) -> Result<u64, NoMemory>
    requires { IndexFits (length packet.now) index.now }
    ensures { IfOk result (λ number. number ≡ arrays_of store.now (place_at var index.now packet.now)) }
{
    let mut short = ArrayVec::new();
    if fill_index(index, packet, &mut short) {
        return Ok(store.get(var, short.as_slice()));
    }
    let long = index_on(alloc, index, packet)?;
    Ok(store.get(var, &long))
}

// The variables that stand in a predicate, a bit each.
fn read_by(pred: &Pred) -> u64
    requires { VarsBelow 64 pred.now }
    ensures { result ≡ vars_of pred.now }
{
    match pred {
        Pred::Id | Pred::Drop | Pred::Field { .. } => 0,
        Pred::State { var, .. } => 1 << *var,
        Pred::Not(part) => read_by(part),
        Pred::And(left, right) => read_by(left) | read_by(right),
        Pred::Or(left, right) => read_by(left) | read_by(right),
    }
}
