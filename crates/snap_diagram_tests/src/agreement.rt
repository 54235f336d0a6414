//! What a leaf does, beside what evaluation does.

ghost use Rattle.std.specs.Prelude.{All, IsTrue, length};
ghost use Rattle.snap_core.specs.Fits.{UpdateReads};
ghost use Rattle.snap_core.specs.Tests.{OutFits};

use snap_core::NoMemory;
use snap_core::eval::eval;
use snap_core::lists::Out;
use snap_core::outcome::{EvalFault, Outcome};
use snap_core::outs::after_all;
use snap_core::packet::Packet;
use snap_core::packets::Packets;
use snap_core::place::Entry;
use snap_core::policy::{Pol, Update};
use snap_core::store::Store;
use snap_diagrams::bounds::outs_fit;
use snap_diagrams::leaf::Leaf;
use std::alloc::Global;
use std::test::Fail;

pub(crate) fn updates_fit(updates: &[Update], packet: &Packet) -> bool
    ensures { IsTrue result → All (UpdateReads (length packet.now)) updates.now }
{
    let comps = packet.comps().len();
    updates.iter().all(|update| update.fits(comps, 64))
}

pub(crate) fn outs_fit_packet(outs: &[Out], packet: &Packet) -> bool
    ensures { IsTrue result → All (OutFits (length packet.now)) outs.now }
{
    let comps = packet.comps().len();
    comps <= 64 && outs_fit(outs, comps as u16)
}

fn same_entries(left: &[Entry], right: &[Entry]) -> bool {
    if left.len() != right.len() {
        return false;
    }
    for (a, b) in left.iter().zip(right.iter()) {
        if a.place.var != b.place.var
            || a.place.index.items() != b.place.index.items()
            || a.value != b.value
        {
            return false;
        }
    }
    true
}

// Whether a store lists these entries.
fn lists(store: &Store, entries: &[Entry]) -> Result<bool, NoMemory> {
    let listed = store.entries()?;
    Ok(same_entries(&listed, entries))
}

// Whether two stores list the same entries.
fn same_stores(left: &Store, right: &Store) -> Result<bool, NoMemory> {
    let listed = right.entries()?;
    lists(left, &listed)
}

fn same_packets(left: &Packets, right: &Packets) -> bool {
    if left.list().len() != right.list().len() {
        return false;
    }
    for (a, b) in left.list().iter().zip(right.list().iter()) {
        if a.comps() != b.comps() {
            return false;
        }
    }
    true
}

// Whether outs make these packets.
fn makes(alloc: Global, outs: &[Out], packet: &Packet, wanted: &Packets) -> Result<bool, Fail> {
    if !outs_fit_packet(outs, packet) {
        return Err("the outs don't fit")?;
    }
    let made = after_all(alloc, outs, packet)?;
    Ok(same_packets(&made, wanted))
}

// Whether a store is this one behind updates.
fn becomes(
    store: &mut Store,
    updates: &[Update],
    packet: &Packet,
    wanted: &Store,
) -> Result<bool, Fail> {
    if !updates_fit(updates, packet) {
        return Err("the updates don't fit")?;
    }
    store.apply(packet, updates)?;
    Ok(same_stores(store, wanted)?)
}

// Whether a copy of a store is.
fn leaves(
    store: &Store,
    updates: &[Update],
    packet: &Packet,
    wanted: &Store,
) -> Result<bool, Fail> {
    let mut copy = store.copy()?;
    becomes(&mut copy, updates, packet, wanted)
}

// Whether what a leaf does is this outcome.
fn gives(
    alloc: Global,
    leaf: &Leaf,
    outcome: &Outcome,
    store: &Store,
    packet: &Packet,
) -> Result<bool, Fail> {
    match leaf {
        Leaf::Race => Ok(false),
        Leaf::Go(go) => Ok(
            go.reads == outcome.reads
                && go.writes == outcome.writes
                && makes(alloc, go.outs.items(), packet, &outcome.packets)?
                && leaves(store, go.ups.items(), packet, &outcome.store)?,
        ),
    }
}

/// Whether what a leaf does is what evaluation does, a race exactly where that is undefined.
pub(crate) fn agrees(
    alloc: Global,
    leaf: &Leaf,
    pol: &Pol,
    store: &Store,
    packet: &Packet,
) -> Result<bool, Fail> {
    if !pol.fits(packet.comps().len(), 64) {
        return Err("the policy doesn't fit")?;
    }
    match eval(alloc, pol, store, packet) {
        Err(EvalFault::NoMemory) => Err("out of memory")?,
        Err(EvalFault::Undefined) => Ok(matches!(leaf, Leaf::Race)),
        Ok(outcome) => gives(alloc, leaf, &outcome, store, packet),
    }
}
