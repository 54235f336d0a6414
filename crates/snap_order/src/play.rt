//! A run in order: the network, what has happened to each packet, and the packets that wait.

ghost use Rattle.std.specs.Prelude.{◌≡◌, ◌≤◌, List, Bool, IfOk, OnOk, length};
ghost use Rattle.std.specs.List.{All};
ghost use Rattle.snap_rows.specs.declared.tables.Tables.{Tables};
ghost use Rattle.snap_net.specs.Shown.{IsNetView};
ghost use Rattle.snap_runs.specs.Runner.{IsPlaying};
ghost use Rattle.snap_order.specs.Ordered.{Ordered, OrderedHappening, happenings};
ghost use Rattle.snap_order.specs.Playing.{NumberIsBelow, Plays};
ghost use Rattle.snap_order.specs.Rounding.{AreThere, HasRounded, NoteTurns, width};
ghost use Rattle.snap_order.specs.Shown.{IsOrderedNetView};
ghost use Rattle.snap_order.specs.Reports.{IsRunReport};

use crate::gate::Gate;
use crate::net::{OrderedNet, open_ordered};
use crate::round::{Rounded, round};
use snap_core::NoMemory;
use snap_net::happened::Moved;
use snap_net::net::{InjectFault, Net, StepFault};
use snap_rows::valid::Valid;
use snap_runs::frames::Frames;
use snap_runs::play::{next_packet, note_step, put_blocks, reversed};
use snap_runs::ready::Ready;
use snap_runs::runner::Playable;
use snap_runs::tail::put_end;
use snap_runs::tally::Tally;
use std::alloc::Global;
use std::collections::VecDeque;
use std::thread::Threads;

/// An ordered network in a run, a tally of each packet that was injected, and the packets that wait, the next one last.
#[derive(Drop)]
pub(crate) struct OrderedPlay {
    alloc: Global,
    net: OrderedNet,
    hops: bool,
    tallies: Vec<Tally>,
    waiting: Vec<Ready>,
}

impl OrderedPlay {
    /// Makes the round of this number, by so many workers.
    pub(crate) fn round<R: Threads + Sync, G: Gate>(
        self,
        rt: &R,
        number: u64,
        workers: u16,
        gate: &G,
    ) -> Result<OrderedPlay, NoMemory>
        requires playing { IsPlaying Plays self }
        requires workers { (1 ≤ workers) × (workers ≤ 64) }
        ensures rounded { IfOk result (HasRounded self) }
        ensures count { IfOk result (λ new. new.net.net.injected ≡ self.net.net.injected) }
    {
        let OrderedPlay {
            alloc,
            net,
            hops,
            tallies,
            waiting,
        } = self;
        let _known = net.flying();
        let mut tallies = tallies;
        let rounded = round(rt, net, number, workers, gate)?;
        let Rounded { net, done } = rounded;
        match note_turns(&mut tallies, hops, net.network(), done) {
            Ok(()) => Ok(OrderedPlay {
                alloc,
                net,
                hops,
                tallies,
                waiting,
            }),
            Err(fault) => {
                drop(net);
                Err(fault)
            }
        }
    }

    /// The report of the run. It takes the tallies.
    pub(crate) fn tell_all(&mut self) -> Result<Vec<u8>, NoMemory>
        requires playing { IsPlaying Plays self.old }
        requires few { self.old.net.net.injected ≤ 67108864 }
        ensures { IfOk result (λ text. (t : Tables) (hops : Bool) (s : Ordered) (us : List OrderedHappening) → Plays t hops s us self.old → IsRunReport t hops s.net.injected s.net (happenings us) text.items) }
    {
        let mut out = Vec::new(self.alloc);
        put_blocks(
            &mut out,
            &self.net.tables().tables().fields,
            &mut self.tallies,
        )?;
        put_end(&mut out, self.net.network())?;
        Ok(out)
    }
}

impl Playable for OrderedPlay {
    ghost use Rattle.snap_core.specs.Arrays.{zero_arrays};
    ghost use Rattle.snap_order.specs.Ordered.{LeadsInOrder, begin};
    ghost use Rattle.snap_order.specs.Playing.{left_in};
    ghost use Rattle.snap_order.specs.Runs.{IsScheduleReport};

    ghost State = { Ordered };

    ghost Told = { OrderedHappening };

    ghost net = { λ s. s.net };

    ghost leads = { LeadsInOrder };

    ghost begin = { λ tables. begin tables zero_arrays };

    ghost can_run = { λ tables. tables.version ≡ 2 };

    ghost plays = { Plays };

    ghost left = { left_in };

    ghost count = { λ play. play.net.net.injected };

    ghost reports = { IsScheduleReport };

    fn open(
        alloc: Global,
        tables: Valid,
        hops: bool,
        packets: Vec<Ready>,
    ) -> Result<Self, NoMemory> {
        let net = open_ordered(alloc, tables)?;
        let waiting = reversed(packets);
        Ok(OrderedPlay {
            alloc,
            net,
            hops,
            tallies: Vec::new(alloc),
            waiting,
        })
    }

    fn left(&self) -> usize {
        self.waiting.len()
    }

    fn flying(&self) -> usize
        ensures shown { (t : Tables) (hops : Bool) (s : Ordered) (us : List OrderedHappening) → Plays t hops s us self.now → result ≡ length s.net.flying }
        ensures count { result ≡ length self.now.net.net.flying }
        ensures held { IsNetView self.now.net.net }
        ensures ordered { IsOrderedNetView self.now.net }
    {
        self.net.flying()
    }

    fn inject(&mut self) -> Result<bool, NoMemory> {
        let Some(ready) = next_packet(&mut self.waiting) else {
            return Ok(false);
        };
        match self.net.inject(ready.port, ready.packet) {
            Ok(_) => {}
            Err(InjectFault::NoMemory) => return Err(NoMemory),
            // The port is one of the tables'.
            Err(InjectFault::NoPort) => unreachable!(),
        }
        let tally = Tally::new(self.alloc);
        self.tallies.push(tally)?;
        Ok(true)
    }

    fn step(&mut self, place: u64) -> Result<bool, NoMemory> {
        let place = place as usize;
        if place >= self.net.flying() {
            return Ok(false);
        }
        let moved = match self.net.advance(place) {
            Ok(moved) => moved,
            Err(StepFault::NoMemory) => return Err(NoMemory),
            // There is such a copy.
            Err(StepFault::NoCopy) => unreachable!(),
        };
        let net = self.net.network();
        note_step(
            &mut self.tallies,
            self.hops,
            Frames::Numbered,
            net,
            place,
            moved,
        )?;
        Ok(true)
    }

    fn report(&mut self) -> Result<Vec<u8>, NoMemory> {
        self.tell_all()
    }
}

// Notes what the steps of a round tell, one after another: each has left its copies behind those of the one before.
fn note_turns(
    tallies: &mut Vec<Tally>,
    hops: bool,
    net: &Net,
    done: Vec<Moved>,
) -> Result<(), NoMemory>
    requires below { All (NumberIsBelow (length tallies.old.items)) done.items }
    requires there { AreThere 0 net.now.flying done.items }
    ensures { OnOk result (NoteTurns hops net.now.tables.switches net.now.flying 0 done.items tallies.old.items tallies.new.items) }
{
    let _known = net.flying();
    let mut left = VecDeque::from(done);
    let mut place = 0usize;
    while let Some(moved) = left.pop_front() {
        let more = width(&moved);
        note_step(tallies, hops, Frames::Numbered, net, place, moved)?;
        place += more;
    }
    Ok(())
}

// How many copies stand in the place of one after its step.
fn width(moved: &Moved) -> usize
    ensures { result ≡ width moved.now }
{
    match moved {
        Moved::Forwarded { .. } => 1,
        Moved::Delivered { .. } => 0,
        Moved::Forked { copies, .. } => *copies as usize,
        Moved::Stayed { .. } => 1,
        Moved::Waited { .. } => 1,
    }
}
