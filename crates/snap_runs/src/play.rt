//! A run of the network in the order of a schedule.

ghost use Rattle.std.specs.Prelude.{◌≡◌, ◌≤◌, ◌<◌, ◌+◌, ◌++◌, ◌∷◌, [], ℕ, Some, true, false, length, reverse, slice_get, OnOk, IfSome, MatchOption, if◌then◌else◌};
ghost use Rattle.snap_core.specs.Fields.{count};
ghost use Rattle.snap_runs.specs.Playing.{HasNoted, IsLong, PutsBlocks};
ghost use Rattle.snap_runs.specs.Tallies.{IsThere, line_after, number_by};

use crate::frames::Frames;
use crate::ready::Ready;
use crate::runner::Playable;
use crate::tail::put_end;
use crate::tally::Tally;
use crate::tracer::fields_of;
use snap_core::NoMemory;
use snap_core::program::Fields;
use snap_net::happened::Moved;
use snap_net::net::{InjectFault, Net, StepFault, open_net};
use snap_rows::valid::Valid;
use std::alloc::Global;

/// A network in a run, a tally of each packet that was injected, and the packets that wait, the next one last.
#[derive(Drop)]
pub(crate) struct Play {
    alloc: Global,
    net: Net,
    hops: bool,
    tallies: Vec<Tally>,
    waiting: Vec<Ready>,
}

impl Playable for Play {
    ghost use Rattle.snap_core.specs.Arrays.{zero_arrays};
    ghost use Rattle.snap_rows.specs.Network.{Net as NetState, Happening, Leads, start};
    ghost use Rattle.snap_runs.specs.Playing.{Plays, left_in};
    ghost use Rattle.snap_runs.specs.Schedules.{IsScheduleReport};

    ghost State = { NetState };

    ghost Told = { Happening };

    ghost net = { λ s. s };

    ghost leads = { Leads };

    ghost begin = { λ tables. start tables zero_arrays };

    ghost can_run = { λ tables. Unit {0} };

    ghost plays = { Plays };

    ghost left = { left_in };

    ghost count = { λ play. play.net.injected };

    ghost reports = { IsScheduleReport };

    fn open(
        alloc: Global,
        tables: Valid,
        hops: bool,
        packets: Vec<Ready>,
    ) -> Result<Self, NoMemory> {
        let net = open_net(alloc, tables)?;
        let waiting = reversed(packets);
        Ok(Play {
            alloc,
            net,
            hops,
            tallies: Vec::new(alloc),
            waiting,
        })
    }

    fn left(&self) -> usize {
        self.waiting.len()
    }

    fn flying(&self) -> usize {
        self.net.flying()
    }

    fn inject(&mut self) -> Result<bool, NoMemory> {
        let Some(ready) = next_packet(&mut self.waiting) else {
            return Ok(false);
        };
        match self.net.inject(ready.port, ready.packet) {
            Ok(_) => {}
            Err(InjectFault::NoMemory) => return Err(NoMemory),
            // The port is one of the tables'.
            Err(InjectFault::NoPort) => unreachable!(),
        }
        let tally = Tally::new(self.alloc);
        self.tallies.push(tally)?;
        Ok(true)
    }

    fn step(&mut self, place: u64) -> Result<bool, NoMemory> {
        let place = place as usize;
        if place >= self.net.flying() {
            return Ok(false);
        }
        let moved = match self.net.advance(place) {
            Ok(moved) => moved,
            Err(StepFault::NoMemory) => return Err(NoMemory),
            // There is such a copy.
            Err(StepFault::NoCopy) => unreachable!(),
        };
        note_step(
            &mut self.tallies,
            self.hops,
            Frames::Plain,
            &self.net,
            place,
            moved,
        )?;
        Ok(true)
    }

    fn report(&mut self) -> Result<Vec<u8>, NoMemory> {
        let mut out = Vec::new(self.alloc);
        put_blocks(&mut out, fields_of(&self.net), &mut self.tallies)?;
        put_end(&mut out, &self.net)?;
        Ok(out)
    }
}

/// Puts the blocks of packets, as their tallies tell them, which it takes out. Refuses for memory alone.
pub fn put_blocks(
    out: &mut Vec<u8>,
    fields: &Fields,
    tallies: &mut Vec<Tally>,
) -> Result<(), NoMemory>
    requires long { (i : ℕ) (y : Tally) → slice_get tallies.old.items i ≡ Some y → IsLong (count fields.now) y }
    requires few { length tallies.old.items ≤ 67108864 }
    ensures { OnOk result (PutsBlocks fields.now tallies.old.items out.old.items out.new.items) }
{
    reverse_tallies(tallies);
    let mut number = 0u64;
    while let Some(mut tally) = next_tally(tallies) {
        number += 1;
        tally.put_block(out, fields, number)?;
    }
    Ok(())
}

/// Notes a step of the copy at a place in its packet's tally, with the line of the link that it has crossed if hops are told.
/// Refuses for memory alone.
pub fn note_step(
    tallies: &mut Vec<Tally>,
    hops: bool,
    frames: Frames,
    net: &Net,
    place: usize,
    moved: Moved,
) -> Result<(), NoMemory>
    requires number { number_by moved < length tallies.old.items }
    requires there { IsThere net.now.flying place moved }
    ensures { OnOk result (HasNoted (if hops then line_after frames net.now.tables.switches net.now.flying place moved else []) moved tallies.old.items tallies.new.items) }
{
    let number = number_of(&moved);
    let tally = &mut tallies[number as usize];
    if hops {
        tally.note_hop(frames, net, place, moved)
    } else {
        tally.note(moved)
    }
}

/// The packets with the next one last.
pub fn reversed(mut packets: Vec<Ready>) -> Vec<Ready>
    ensures { result.items ≡ reverse packets.items }
{
    packets.reverse();
    packets
}

// Turns the tallies, so that the first one stands last.
fn reverse_tallies(tallies: &mut Vec<Tally>)
    ensures { tallies.new.items ≡ reverse tallies.old.items }
{
    tallies.reverse();
}

fn next_tally(tallies: &mut Vec<Tally>) -> Option<Tally>
    ensures next { MatchOption result (tallies.old.items ≡ []) (λ tally. tallies.old.items ≡ tallies.new.items ++ tally ∷ []) }
    ensures fewer { IfSome result (λ _. length tallies.new.items < length tallies.old.items) }
{
    tallies.pop()
}

/// Takes the next packet, which is the last, if there is one.
pub fn next_packet(waiting: &mut Vec<Ready>) -> Option<Ready>
    ensures { MatchOption result (waiting.old.items ≡ []) (λ ready. waiting.old.items ≡ waiting.new.items ++ ready ∷ []) }
{
    waiting.pop()
}

// The number of the packet whose copy has made a step.
fn number_of(moved: &Moved) -> u64
    ensures { result ≡ number_by moved.now }
{
    match moved {
        Moved::Forwarded { number, .. } => *number,
        Moved::Delivered { number, .. } => *number,
        Moved::Forked { number, .. } => *number,
        Moved::Stayed { number, .. } => *number,
        Moved::Waited { number, .. } => *number,
    }
}
