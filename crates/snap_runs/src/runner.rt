//! The run of a network over a packets file, in the order of a schedule.

ghost use Rattle.std.specs.Prelude.{◌≡◌, ◌≤◌, ◌<◌, ◌+◌, ◌^◌, [], ℕ, Bool, List, length, IfOk, IfSome, IsErrOf, MatchResult, OnOk};
ghost use Rattle.std.specs.List.{All};
ghost use Rattle.snap_io.specs.Causes.{NoneFell, Rose};
ghost use Rattle.snap_io.specs.Files.{file_of};
ghost use Rattle.snap_rows.specs.declared.tables.Tables.{Tables};
ghost use Rattle.snap_runs.specs.Playing.{IsReady, packets_in};
ghost use Rattle.snap_runs.specs.Runner.{HasDone, HasInjected, HasRun, HasStepped, IsFresh, IsPlaying, IsReportOf, RefusesLineBy, StopsBy, WritesLines, schedule_refusal};
ghost use Rattle.snap_runs.specs.Schedules.{lines_of};

use crate::event::{Instruction, next_line, read_order};
use crate::ready::{Ready, read_packets};
use crate::schedule::ScheduleFault;
use snap_core::NoMemory;
use snap_io::{ReadRefusal, Shelf, Sink, read_whole, write_whole};
use snap_report::TraceFault;
use snap_report::switch::MOST_BYTES;
use snap_rows::valid::Valid;
use std::alloc::Global;

/// A network in a run, and the packets that wait: what lines order is done to it.
pub trait Playable: Sized + Drop {
    ghost use Rattle.snap_rows.specs.Network.{Net, Event};

    /// The states of its network.
    ghost State: { Type 0 };

    /// What is told of an event.
    ghost Told: { Type 0 };

    /// What a state has beside the order of events.
    ghost net: { State → Net };

    /// Over these tables an event leads from one state to another, and this is told.
    ghost leads: { Tables → State → Event → State → List Told → Type 0 };

    /// The state before the first event.
    ghost begin: { Tables → State };

    /// It can run these tables.
    ghost can_run: { Tables → Type 0 };

    /// With these tables, and hops told or not, events have led to this state, with this told.
    ghost plays: { Tables → Bool → State → List Told → Self → Type 0 };

    /// The packets that wait, the next one first.
    ghost left: { Self → List (List ℕ) };

    /// How many packets were injected.
    ghost count: { Self → ℕ };

    /// With these tables, and hops told or not, packets and lines tell this report.
    ghost reports: { Tables → Bool → List (List ℕ) → List (List ℕ) → List ℕ → Type 0 };

    /// Before the first event.
    fn open(alloc: Global, tables: Valid, hops: bool, packets: Vec<Ready>) -> Result<Self, NoMemory>
        requires tables { can_run tables }
        requires ready { All (IsReady tables) packets.items }
        ensures plays { IfOk result (plays tables hops (begin tables) []) }
        ensures left { IfOk result (λ play. left play ≡ packets_in packets.items) }
        ensures count { IfOk result (λ play. count play ≡ 0) };

    /// The number of packets that wait. Takes no memory.
    fn left(&self) -> usize
        ensures { result ≡ length (left self.now) };

    /// The number of copies in flight. Takes no memory.
    fn flying(&self) -> usize
        ensures shown { (t : Tables) (hops : Bool) (s : State) (told : List Told) → plays t hops s told self.now → result ≡ length (net s).flying };

    /// Injects the next packet. False: none is left.
    fn inject(&mut self) -> Result<bool, NoMemory>
        requires playing { IsPlaying plays self.old }
        requires room { count self.old < 2 ^ 63 }
        ensures injected { IfOk result (HasInjected leads plays left self.old self.new) }
        ensures count { OnOk result (count self.new ≤ count self.old + 1) };

    /// Makes a step of the copy at a place. False: there is no such copy.
    fn step(&mut self, place: u64) -> Result<bool, NoMemory>
        requires playing { IsPlaying plays self.old }
        ensures stepped { IfOk result (HasStepped leads plays left net place self.old self.new) }
        ensures count { OnOk result (count self.new ≡ count self.old) };

    /// The report of a run after which nothing is left. It may take what it tells of.
    fn report(&mut self) -> Result<Vec<u8>, NoMemory>
        requires playing { IsPlaying plays self.old }
        requires few { count self.old ≤ 67108864 }
        ensures { IfOk result (λ text. IsReportOf net leads begin plays left reports self.old text.items) };
}

/// Writes the report of a network with these tables, over the packets file and the schedule with these names: exactly the
/// events that the schedule's lines order, with the packets in the order of their file.
///
/// The packets file is read to its end first, and then the schedule; nothing goes out before all lines are done.
///
/// # Errors
///
/// As those of `schedule::scheduled`.
pub fn write_schedule<P: Playable, S: Shelf, K: Sink>(
    alloc: Global,
    shelf: &mut S,
    packets: &[u8],
    schedule: &[u8],
    tables: Valid,
    hops: bool,
    sink: &mut K,
) -> Result<(), ScheduleFault>
    requires tables { P.can_run tables }
    ensures report { IfSome (S.files shelf.old) (λ files. WritesLines (P.reports tables hops) (RefusesLineBy P.net (P.leads tables) (P.begin tables))
        tables (file_of files packets.now) (file_of files schedule.now) result (K.taken sink.old) (K.taken sink.new)) }
    ensures no_write { IsErrOf result (ScheduleFault.Packets TraceFault.Write) → ⊥ }
    ensures read_packets { IsErrOf result (ScheduleFault.Packets TraceFault.Read) → Rose (S.faults shelf.old packets.now) (S.faults shelf.new packets.now) }
    ensures defined { (packet : ℕ) → IsErrOf result (ScheduleFault.Packets (TraceFault.Undefined packet)) → ⊥ }
    ensures read { IsErrOf result ScheduleFault.Read → Rose (S.faults shelf.old schedule.now) (S.faults shelf.new schedule.now) }
    ensures write { IsErrOf result ScheduleFault.Write → Rose (K.faults sink.old) (K.faults sink.new) }
    ensures files { S.files shelf.new ≡ S.files shelf.old }
    ensures later { NoneFell (S.faults shelf.old) (S.faults shelf.new) }
    ensures sink_later { K.faults sink.old ≤ K.faults sink.new }
{
    let ready = match read_packets(alloc, shelf, packets, &tables) {
        Ok(ready) => ready,
        Err(fault) => return Err(ScheduleFault::Packets { fault }),
    };
    let text = match read_whole(alloc, shelf, schedule, MOST_BYTES) {
        Ok(text) => text,
        Err(refusal) => return Err(refused(refusal)),
    };
    let report = match played::<P>(alloc, tables, hops, ready, &text) {
        Ok(report) => report,
        Err(fault) => return Err(fault),
    };
    match write_whole(sink, &report) {
        Ok(()) => Ok(()),
        Err(_) => Err(ScheduleFault::Write),
    }
}

// Why the schedule isn't read.
fn refused(refusal: ReadRefusal) -> ScheduleFault
    ensures { result ≡ schedule_refusal refusal }
{
    match refusal {
        ReadRefusal::Failed => ScheduleFault::Read,
        ReadRefusal::TooLong => ScheduleFault::TooLong,
        ReadRefusal::NoMemory => ScheduleFault::NoMemory,
    }
}

// The report of the run of these packets, in the order of a schedule.
fn played<P: Playable>(
    alloc: Global,
    tables: Valid,
    hops: bool,
    packets: Vec<Ready>,
    schedule: &[u8],
) -> Result<Vec<u8>, ScheduleFault>
    requires tables { P.can_run tables }
    requires ready { All (IsReady tables) packets.items }
    requires few { length schedule.now ≤ 67108864 }
    ensures { MatchResult result (λ text. P.reports tables hops (packets_in packets.items) (lines_of schedule.now) text.items)
        (StopsBy (RefusesLineBy P.net (P.leads tables) (P.begin tables) (packets_in packets.items) (lines_of schedule.now))) }
{
    let mut play = P::open(alloc, tables, hops, packets)?;
    match run(&mut play, schedule) {
        Ok(()) => Ok(play.report()?),
        Err(fault) => Err(fault),
    }
}

// Does the lines of a schedule, one after another. `Line` names the first that isn't in form or can't be done, or the one
// behind the last where a packet or a copy is left.
fn run<P: Playable>(play: &mut P, schedule: &[u8]) -> Result<(), ScheduleFault>
    requires fresh { IsFresh P.net P.leads P.begin P.plays P.left play.old }
    requires none { P.count play.old ≡ 0 }
    requires few { length schedule.now ≤ 67108864 }
    ensures ran { (t : Tables) (hops : Bool) → P.plays t hops (P.begin t) [] play.old
        → HasRun P.net P.leads P.begin P.plays P.left t hops (P.left play.old) (lines_of schedule.now) play.new result }
    ensures count { OnOk result (P.count play.new ≤ 67108864) }
{
    let mut rest = schedule;
    let mut number = 0u64;
    while let Some((line, behind)) = next_line(rest) {
        number += 1;
        if !obey(play, line)? {
            return Err(ScheduleFault::Line { line: number });
        }
        rest = behind;
    }
    if play.left() > 0 {
        return Err(ScheduleFault::Line { line: number + 1 });
    }
    if play.flying() > 0 {
        return Err(ScheduleFault::Line { line: number + 1 });
    }
    Ok(())
}

// Does what a line orders. False: it isn't in form, or can't be done.
fn obey<P: Playable>(play: &mut P, line: &[u8]) -> Result<bool, NoMemory>
    requires playing { IsPlaying P.plays play.old }
    requires room { P.count play.old < 2 ^ 63 }
    ensures done { IfOk result (HasDone P.net P.leads P.begin P.plays P.left line.now play.old play.new) }
    ensures count { OnOk result (P.count play.new ≤ P.count play.old + 1) }
{
    match read_order(line) {
        None => Ok(false),
        Some(Instruction::Skip) => Ok(true),
        Some(Instruction::Inject) => play.inject(),
        Some(Instruction::Step(place)) => play.step(place),
    }
}
