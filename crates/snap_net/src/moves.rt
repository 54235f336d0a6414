//! What becomes of a copy in a step: all of it, or nothing.

ghost use Rattle.std.specs.Prelude.{◌≡◌, ◌<◌, ◌+◌, Some, IfOk, IsTrue, OnOk, OnErr, length, slice_get, All};
ghost use Rattle.snap_core.specs.Arrays.{updates};
ghost use Rattle.snap_core.specs.Fits.{UpdateReads};
ghost use Rattle.snap_core.specs.Tests.{OutFits};
ghost use Rattle.snap_rows.specs.declared.tables.Tables.{Tables};
ghost use Rattle.snap_rows.specs.declared.head.Fate.TheVariants.{Seek, Stay, Wait};
ghost use Rattle.snap_rows.specs.Form.{comps, switch_count};
ghost use Rattle.snap_rows.specs.Home.{AtHome};
ghost use Rattle.snap_rows.specs.Stepping.{FateFits};
ghost use Rattle.snap_rows.specs.Actions.{Forward, Deliver};
ghost use Rattle.snap_net.specs.declared.flying.Flying.{Flying};
ghost use Rattle.snap_net.specs.Flights.{spliced};
ghost use Rattle.snap_net.specs.Shown.{HasFrame, SameArrays, store_of};
ghost use Rattle.snap_net.specs.Moves.{AreHome, Changed, copies_in_flight, HasGone, HasMoved, HasParted, HasUpdated, IsFrameBy, MakesStep};

use crate::encode::encode;
use crate::flights::Flights;
use crate::flying::Flying;
use crate::happened::{Framed, Moved};
use snap_core::NoMemory;
use snap_core::lists::Out;
use snap_core::packet::Packet;
use snap_core::store::Store;
use snap_rows::admit::Admit;
use snap_rows::dues::Dues;
use snap_rows::fork::{Spread, spread_out};
use snap_rows::head::{Fate, Head, Sent};
use snap_rows::plan::fate;
use snap_rows::valid::Valid;
use std::alloc::Global;

// Does updates at the switch of a copy.
fn update_at(
    alloc: Global,
    stores: &mut Vec<Store>,
    copy: &Flying,
    ups: &Dues<'_>,
) -> Result<(), NoMemory>
    requires at { copy.now.at < length stores.old.items }
    requires reads { All (UpdateReads (length copy.now.packet)) ups.now }
    ensures ok { OnOk result (Changed stores.old.items stores.new.items copy.now.at (updates (store_of stores.old.items copy.now.at) ups.now copy.now.packet)) }
    ensures err { OnErr result (SameArrays stores.old.items stores.new.items) }
{
    ups.apply_whole(alloc, &mut stores[copy.at as usize], &copy.packet)
}

// Does updates at the switch of copy k.
#[inline(always)]
fn update_for(
    alloc: Global,
    stores: &mut Vec<Store>,
    flying: &Flights,
    k: usize,
    ups: &Dues<'_>,
) -> Result<(), NoMemory>
    requires k { k < length flying.now }
    requires at { (c : Flying) → slice_get flying.now k ≡ Some c → c.at < length stores.old.items }
    requires reads { (c : Flying) → slice_get flying.now k ≡ Some c → All (UpdateReads (length c.packet)) ups.now }
    ensures ok { OnOk result (HasUpdated stores.old.items flying.now k ups.now stores.new.items) }
    ensures err { OnErr result (SameArrays stores.old.items stores.new.items) }
{
    update_at(alloc, stores, flying.get(k), ups)
}

// Forwards copy k.
fn forward(flying: &mut Flights, k: usize, to: u16, head: Head) -> Moved
    requires { k < length flying.old }
    ensures { HasMoved flying.old k (Forward to head) flying.new result }
{
    let copy = flying.get(k);
    let number = copy.number;
    let from = copy.at;
    flying.send(k, to, head);
    Moved::Forwarded { number, from, to }
}

// Delivers copy k.
fn deliver(flying: &mut Flights, k: usize, port: u32) -> Moved
    requires { k < length flying.old }
    ensures { HasMoved flying.old k (Deliver port) flying.new result }
{
    let gone = flying.remove(k);
    Moved::Delivered {
        number: gone.number,
        port,
        packet: gone.packet,
    }
}

// Puts copies behind copy k. The last one is put first, so that each goes to the same place.
fn put_copies(
    flying: &mut Flights,
    k: usize,
    number: u64,
    at: u16,
    copies: Vec<Sent>,
) -> Result<(), NoMemory>
    requires { k < length flying.old }
    ensures ok { OnOk result (flying.new ≡ spliced flying.old (k + 1) 0 (copies_in_flight number at copies.items)) }
    ensures err { OnErr result (flying.new ≡ flying.old) }
{
    let before = flying.count();
    let mut left = copies;
    while let Some(sent) = left.pop() {
        let copy = Flying {
            number,
            at,
            head: Head::Out { port: sent.port },
            packet: sent.packet,
        };
        if let Err(fault) = flying.insert_behind(k, copy) {
            flying.cut(k + 1, flying.count() - before);
            return Err(fault);
        }
    }
    Ok(())
}

// Does updates at the switch of copy k, and puts copies in its place.
#[inline(never)]
fn replace(
    alloc: Global,
    stores: &mut Vec<Store>,
    flying: &mut Flights,
    k: usize,
    ups: &Dues<'_>,
    copies: Vec<Sent>,
) -> Result<Flying, NoMemory>
    requires k { k < length flying.old }
    requires at { (c : Flying) → slice_get flying.old k ≡ Some c → c.at < length stores.old.items }
    requires reads { (c : Flying) → slice_get flying.old k ≡ Some c → All (UpdateReads (length c.packet)) ups.now }
    ensures updated { OnOk result (HasUpdated stores.old.items flying.old k ups.now stores.new.items) }
    ensures gone { IfOk result (λ gone. (slice_get flying.old k ≡ Some gone) × (flying.new ≡ spliced flying.old k 1 (copies_in_flight gone.number gone.at copies.items))) }
    ensures err { OnErr result ((flying.new ≡ flying.old) × SameArrays stores.old.items stores.new.items) }
{
    let count = copies.len();
    let before = flying.count();
    let from = flying.get(k);
    let number = from.number;
    let at = from.at;
    put_copies(flying, k, number, at, copies)?;
    if let Err(fault) = update_at(alloc, stores, flying.get(k), ups) {
        flying.cut(k + 1, count);
        return Err(fault);
    }
    Ok(flying.remove(k))
}

// Sends copy k to the next hop towards a switch.
fn seek(tables: &Valid, flying: &mut Flights, k: usize, target: u16, head: Head) -> Moved
    requires { k < length flying.old }
    ensures { HasGone tables.now flying.old k (Seek target head) flying.new result }
{
    let to = tables.next(flying.get(k).at, target);
    forward(flying, k, to, head)
}

// Keeps copy k where it is, for its visit of a rank.
fn stay(flying: &mut Flights, k: usize, rank: u16, node: u64) -> Moved
    requires { k < length flying.old }
    ensures { (t : Tables) → HasGone t flying.old k (Stay rank node) flying.new result }
{
    let copy = flying.get(k);
    let number = copy.number;
    let at = copy.at;
    flying.send(k, at, Head::Visit { rank, node });
    Moved::Stayed { number, rank }
}

// Keeps copy k as it is, before its visit of a rank.
fn wait(flying: &Flights, k: usize, rank: u16) -> Moved
    requires { k < length flying.now }
    ensures { (t : Tables) → HasGone t flying.now k (Wait rank) flying.now result }
{
    Moved::Waited {
        number: flying.get(k).number,
        rank,
    }
}

// Does updates at the switch of copy k, and puts the copies that outs make of its packet in its place.
fn part(
    alloc: Global,
    tables: &Valid,
    stores: &mut Vec<Store>,
    flying: &mut Flights,
    k: usize,
    ups: &Dues<'_>,
    outs: &[Out],
) -> Result<Moved, NoMemory>
    requires k { k < length flying.old }
    requires at { (c : Flying) → slice_get flying.old k ≡ Some c → c.at < length stores.old.items }
    requires packet { (c : Flying) → slice_get flying.old k ≡ Some c → length c.packet ≡ comps tables.now }
    requires reads { (c : Flying) → slice_get flying.old k ≡ Some c → All (UpdateReads (length c.packet)) ups.now }
    requires outs { All (OutFits (comps tables.now)) outs.now }
    ensures updated { OnOk result (HasUpdated stores.old.items flying.old k ups.now stores.new.items) }
    ensures parted { IfOk result (HasParted tables.now flying.old k outs.now flying.new) }
    ensures err { OnErr result ((flying.new ≡ flying.old) × SameArrays stores.old.items stores.new.items) }
{
    let Spread { copies, lost } = spread_out(alloc, tables, outs, &flying.get(k).packet)?;
    let count = copies.len() as u64;
    let gone = replace(alloc, stores, flying, k, ups, copies)?;
    Ok(Moved::Forked {
        number: gone.number,
        copies: count,
        lost,
    })
}

// Does updates at the switch of copy k, and puts what becomes of the copy in its place.
fn fulfil(
    alloc: Global,
    tables: &Valid,
    stores: &mut Vec<Store>,
    flying: &mut Flights,
    k: usize,
    ups: &Dues<'_>,
    fate: Fate<'_>,
) -> Result<Moved, NoMemory>
    requires k { k < length flying.old }
    requires at { (c : Flying) → slice_get flying.old k ≡ Some c → c.at < length stores.old.items }
    requires packet { (c : Flying) → slice_get flying.old k ≡ Some c → length c.packet ≡ comps tables.now }
    requires reads { (c : Flying) → slice_get flying.old k ≡ Some c → All (UpdateReads (length c.packet)) ups.now }
    requires fits { (c : Flying) → slice_get flying.old k ≡ Some c → FateFits tables.now c.at fate }
    ensures updated { OnOk result (HasUpdated stores.old.items flying.old k ups.now stores.new.items) }
    ensures gone { IfOk result (HasGone tables.now flying.old k fate.entry flying.new) }
    ensures err { OnErr result ((flying.new ≡ flying.old) × SameArrays stores.old.items stores.new.items) }
{
    match fate {
        Fate::Fork { outs } => part(alloc, tables, stores, flying, k, ups, outs),
        Fate::Seek { target, head } => {
            update_for(alloc, stores, flying, k, ups)?;
            Ok(seek(tables, flying, k, target, head))
        }
        Fate::Deliver { port } => {
            update_for(alloc, stores, flying, k, ups)?;
            Ok(deliver(flying, k, port))
        }
        Fate::Stay { rank, node } => {
            update_for(alloc, stores, flying, k, ups)?;
            Ok(stay(flying, k, rank, node))
        }
        Fate::Wait { rank } => {
            update_for(alloc, stores, flying, k, ups)?;
            Ok(wait(flying, k, rank))
        }
    }
}

// The frame of a copy that crosses a link, if it is wanted; empty otherwise.
fn frame_of(
    alloc: Global,
    fate: Fate<'_>,
    packet: &Packet,
    framed: bool,
) -> Result<Vec<u8>, NoMemory>
    ensures { IfOk result (λ bytes. IsTrue framed → IsFrameBy fate.entry packet.now bytes.items) }
{
    if framed {
        if let Fate::Seek { target: _, head } = fate {
            return encode(alloc, head, packet);
        }
    }
    Ok(Vec::new(alloc))
}

/// Makes a step of copy k, as far as its visits are admitted: all of it, or nothing. `framed` asks for the frame.
pub(crate) fn step_in<A: Admit>(
    alloc: Global,
    tables: &Valid,
    admit: &A,
    stores: &mut Vec<Store>,
    flying: &mut Flights,
    k: usize,
    framed: bool,
) -> Result<Framed, NoMemory>
    requires stores { length stores.old.items ≡ switch_count tables.now }
    requires k { k < length flying.old }
    requires places { All (λ (c : Flying). c.at < switch_count tables.now) flying.old }
    requires packets { All (λ (c : Flying). length c.packet ≡ comps tables.now) flying.old }
    requires homes { All (λ (c : Flying). AtHome tables.now c.at c.head) flying.old }
    ensures made { IfOk result (λ told. MakesStep (A.admits admit.now) tables.now k stores.old.items flying.old stores.new.items flying.new told.moved) }
    ensures frame { IfOk result (λ told. IsTrue framed → HasFrame flying.new k told.moved told.frame.items) }
    ensures homes { OnOk result (AreHome tables.now flying.new) }
    ensures err { OnErr result ((flying.new ≡ flying.old) × SameArrays stores.old.items stores.new.items) }
{
    let _known = tables.tables();
    let copy = flying.get(k);
    let mut ups = Dues::new(alloc);
    let fate = fate(
        alloc,
        tables,
        admit,
        copy.at,
        &stores[copy.at as usize],
        &copy.packet,
        copy.head,
        &mut ups,
    )?;
    let frame = frame_of(alloc, fate, &copy.packet, framed)?;
    let moved = fulfil(alloc, tables, stores, flying, k, &ups, fate)?;
    Ok(Framed { moved, frame })
}
