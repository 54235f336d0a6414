//! A packet that came in goes on in its own memory until it is delivered, or parted into copies.

ghost use Rattle.std.specs.Prelude.{◌≡◌, ◌<◌, ◌∷◌, List, [], IfOk, OnOk, IsSome, length};
ghost use Rattle.std.specs.List.{All};
ghost use Rattle.snap_core.specs.Tests.{OutFits};
ghost use Rattle.snap_rows.specs.declared.head.Sent.{Sent};
ghost use Rattle.snap_rows.specs.Entries.{port_at, row_at};
ghost use Rattle.snap_rows.specs.Form.{comps, switch_count};
ghost use Rattle.snap_rows.specs.Home.{AtHome};
ghost use Rattle.snap_rows.specs.Network.{Happening};
ghost use Rattle.snap_rows.specs.Stepping.{FateArrives, FateFits};
ghost use Rattle.snap_net.specs.Travels.{Hears};
ghost use Rattle.snap_net.specs.Passing.{EndsPassing, FliesTo, GoOut, HearsSent, IsPlain, PartsInto, StepsSo, entering, lost_in, reached, sent_in, PassesThrough};

use crate::watch::Watch;
use snap_core::NoMemory;
use snap_core::lists::Out;
use snap_core::packet::Packet;
use snap_core::store::Store;
use snap_rows::admit::Every;
use snap_rows::fork::{Spread, apply_out, spread_out};
use snap_rows::head::{Fate, Head, Sent};
use snap_rows::plan::step;
use snap_rows::valid::Valid;
use std::alloc::Global;

/// What went out of a packet that came in.
#[derive(Drop)]
pub enum Passed {
    /// It alone, as it now is.
    Alone,
    /// These copies, one after another; so many packets were for no port.
    Parted { copies: Vec<Sent>, lost: u64 },
}

// Where a packet makes the first step that crosses no link, and what becomes of it there.
#[derive(Clone, Copy)]
struct End<'a> {
    at: u16,
    fate: Fate<'a>,
}

// Makes the step of a copy at a switch.
#[inline(always)]
fn step_in<'a>(
    alloc: Global,
    tables: &'a Valid,
    stores: &mut Vec<Store>,
    at: u16,
    packet: &Packet,
    head: Head,
) -> Result<Fate<'a>, NoMemory>
    requires stores { length stores.old.items ≡ switch_count tables.now }
    requires at { at < switch_count tables.now }
    requires packet { length packet.now ≡ comps tables.now }
    requires home { AtHome tables.now at head }
    ensures steps { IfOk result (StepsSo tables.now at packet.now head stores.old.items stores.new.items) }
    ensures plain { IfOk result IsPlain }
    ensures fits { IfOk result (FateFits tables.now at) }
    ensures arrives { IfOk result (FateArrives tables.now at) }
    ensures count { length stores.new.items ≡ length stores.old.items }
{
    step(
        alloc,
        tables,
        &Every,
        at,
        &mut stores[at as usize],
        packet,
        head,
    )
}

// The switch at which a copy next does more than to cross a link, after a step at a switch that sends it towards a target.
#[inline(always)]
fn reached(tables: &Valid, at: u16, target: u16, head: Head) -> u16
    ensures { result ≡ reached tables.now at target head }
{
    match head {
        Head::Out { .. } => target,
        Head::Visit { .. } => target,
        Head::Walk { .. } => tables.next(at, target),
        Head::Stage { .. } => tables.next(at, target),
    }
}

// Makes the steps of a packet that came in up to the first that crosses no link. The stores change.
fn fly<'a, W: Watch>(
    alloc: Global,
    tables: &'a Valid,
    stores: &mut Vec<Store>,
    number: u64,
    from: u16,
    packet: &Packet,
    watch: &mut W,
) -> Result<End<'a>, NoMemory>
    requires stores { length stores.old.items ≡ switch_count tables.now }
    requires from { from < switch_count tables.now }
    requires packet { length packet.now ≡ comps tables.now }
    requires home { IsSome (row_at tables.now from 0) }
    ensures lands { IfOk result (λ end. FliesTo (W.saw tables.now) tables.now (entering number from packet.now) watch.old watch.new stores.old.items stores.new.items end.at end.fate) }
    ensures ends { IfOk result (λ end. (end.at < switch_count tables.now) × EndsPassing end.fate × FateFits tables.now end.at end.fate) }
    ensures count { length stores.new.items ≡ length stores.old.items }
{
    let _known = tables.tables();
    let mut at = from;
    let mut head = Head::Walk { node: 0 };
    loop {
        let fate = step_in(alloc, tables, stores, at, packet, head)?;
        match fate {
            Fate::Seek { target, head: next } => {
                watch.cross(tables, number, at, target, next, packet)?;
                at = reached(tables, at, target, next);
                head = next;
            }
            Fate::Deliver { .. } => return Ok(End { at, fate }),
            Fate::Fork { .. } => return Ok(End { at, fate }),
            Fate::Stay { .. } => unreachable!(),
            Fate::Wait { .. } => unreachable!(),
        }
    }
}

// Tells of copies that go out, one after another.
fn go_out_all<W: Watch>(
    tables: &Valid,
    number: u64,
    at: u16,
    copies: &[Sent],
    watch: &mut W,
) -> Result<(), NoMemory>
    requires at { at < switch_count tables.now }
    requires ports { All (λ (x : Sent). IsSome (port_at tables.now x.port)) copies.now }
    requires packets { All (λ (x : Sent). length x.packet ≡ comps tables.now) copies.now }
    ensures { OnOk result ((gs : List Happening) → GoOut tables.now number at copies.now gs → Hears (W.saw tables.now) watch.old watch.new gs) }
{
    for sent in copies {
        watch.go_out(tables, number, at, sent.port, &sent.packet)?;
    }
    Ok(())
}

// What goes out of a packet of which any outs make copies.
#[inline(never)]
fn part_all<W: Watch>(
    alloc: Global,
    tables: &Valid,
    number: u64,
    at: u16,
    outs: &[Out],
    packet: &Packet,
    watch: &mut W,
) -> Result<Passed, NoMemory>
    requires at { at < switch_count tables.now }
    requires packet { length packet.now ≡ comps tables.now }
    requires outs { All (OutFits (comps tables.now)) outs.now }
    ensures { IfOk result (λ passed. PartsInto tables.now number at outs.now packet.now (W.saw tables.now) watch.old watch.new (sent_in packet.now passed) (lost_in passed)) }
{
    let spread = spread_out(alloc, tables, outs, packet)?;
    go_out_all(tables, number, at, &spread.copies, watch)?;
    let Spread { copies, lost } = spread;
    Ok(Passed::Parted { copies, lost })
}

// Makes a packet what one out makes of it, and tells of it if it goes out.
#[inline(always)]
fn part_one<W: Watch>(
    alloc: Global,
    tables: &Valid,
    number: u64,
    at: u16,
    out: &Out,
    packet: &mut Packet,
    watch: &mut W,
) -> Result<Passed, NoMemory>
    requires at { at < switch_count tables.now }
    requires packet { length packet.old ≡ comps tables.now }
    requires out { OutFits (comps tables.now) out.now }
    ensures parts { IfOk result (λ passed. PartsInto tables.now number at (out.now ∷ []) packet.old (W.saw tables.now) watch.old watch.new (sent_in packet.new passed) (lost_in passed)) }
    ensures long { length packet.new ≡ length packet.old }
{
    let goes = apply_out(tables, out, packet)?;
    match goes {
        Some(port) => {
            watch.go_out(tables, number, at, port, packet)?;
            Ok(Passed::Alone)
        }
        None => Ok(Passed::Parted {
            copies: Vec::new(alloc),
            lost: 1,
        }),
    }
}

// Makes of a packet what outs make of it: one copy takes the packet's own memory.
#[inline(always)]
fn part<W: Watch>(
    alloc: Global,
    tables: &Valid,
    number: u64,
    at: u16,
    outs: &[Out],
    packet: &mut Packet,
    watch: &mut W,
) -> Result<Passed, NoMemory>
    requires at { at < switch_count tables.now }
    requires packet { length packet.old ≡ comps tables.now }
    requires outs { All (OutFits (comps tables.now)) outs.now }
    ensures parts { IfOk result (λ passed. PartsInto tables.now number at outs.now packet.old (W.saw tables.now) watch.old watch.new (sent_in packet.new passed) (lost_in passed)) }
    ensures long { length packet.new ≡ length packet.old }
{
    if outs.len() == 1 {
        return part_one(alloc, tables, number, at, &outs[0], packet, watch);
    }
    part_all(alloc, tables, number, at, outs, packet, watch)
}

/// Makes all steps of a packet that came in at a switch, and then those of the copies into which it is parted: answers what
/// went out. The stores change, and the packet in its own memory. Refuses for memory alone.
pub(crate) fn carry<W: Watch>(
    alloc: Global,
    tables: &Valid,
    stores: &mut Vec<Store>,
    number: u64,
    from: u16,
    packet: &mut Packet,
    watch: &mut W,
) -> Result<Passed, NoMemory>
    requires stores { length stores.old.items ≡ switch_count tables.now }
    requires from { from < switch_count tables.now }
    requires packet { length packet.old ≡ comps tables.now }
    requires home { IsSome (row_at tables.now from 0) }
    ensures comes { IfOk result (λ passed. PassesThrough tables.now number from packet.old stores.old.items stores.new.items (HearsSent (W.saw tables.now) number watch.old watch.new packet.new passed)) }
    ensures sent { IfOk result (λ passed. All (λ k. length k ≡ comps tables.now) (sent_in packet.new passed)) }
    ensures long { length packet.new ≡ length packet.old }
    ensures count { length stores.new.items ≡ length stores.old.items }
{
    let _known = tables.tables();
    let end = fly(alloc, tables, stores, number, from, packet, watch)?;
    match end.fate {
        Fate::Fork { outs } => part(alloc, tables, number, end.at, outs, packet, watch),
        Fate::Deliver { .. } => Ok(Passed::Alone),
        Fate::Seek { .. } => unreachable!(),
        Fate::Stay { .. } => unreachable!(),
        Fate::Wait { .. } => unreachable!(),
    }
}
