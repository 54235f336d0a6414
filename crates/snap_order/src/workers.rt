//! The run in order over a packets file, by rounds that several workers make.

ghost use Rattle.std.specs.Prelude.{◌≡◌, ◌≤◌, ◌+◌, [], ℕ, Bool, List, length, IfOk, IfSome, IsErrOf};
ghost use Rattle.std.specs.List.{All};
ghost use Rattle.snap_io.specs.Causes.{NoneFell, Rose};
ghost use Rattle.snap_io.specs.Files.{file_of};
ghost use Rattle.snap_rows.specs.declared.tables.Tables.{Tables};
ghost use Rattle.snap_runs.specs.Playing.{IsReady, packets_in};
ghost use Rattle.snap_order.specs.Playing.{left_in};
ghost use Rattle.snap_order.specs.Rounding.{IsPaced, PlaysRounds};
ghost use Rattle.snap_order.specs.Rounds.{IsRoundReport, WritesRounds};

use crate::gate::Gate;
use crate::play::OrderedPlay;
use snap_core::NoMemory;
use snap_io::{Shelf, Sink, write_whole};
use snap_report::TraceFault;
use snap_rows::valid::Valid;
use snap_runs::ready::{Ready, read_packets};
use snap_runs::runner::Playable;
use std::alloc::Global;
use std::thread::Threads;

/// Writes the report of the ordered network with these tables over the packets file with this name, by the schedule of
/// rounds: the next packet is injected, where one is left, and then each copy in flight makes a step, until no packet is
/// left and nothing is in flight. So many workers, from 1 to 64, make the steps of a round; the report is the same whatever
/// their number. Rounds are numbered from 1. With `hops` a line tells each link that a copy crosses, by a frame that begins
/// with the packet's number.
///
/// The packets file is read to its end first; nothing goes out before the run is over.
///
/// # Errors
///
/// `Packets` at the first line that isn't in form, is too long, or names no port of the tables; `Limit` where the file has
/// too many lines or bytes; `Read` only where the shelf's count of faults at the packets file rose, and `NoMemory` for want
/// of memory: nothing has gone out. `Write` only where the sink's count of faults rose: some first bytes of the report have
/// gone out. Never `Undefined`.
pub fn trace_workers<R: Threads + Sync, S: Shelf, K: Sink, G: Gate>(
    rt: &R,
    alloc: Global,
    shelf: &mut S,
    packets: &[u8],
    tables: Valid,
    hops: bool,
    workers: u16,
    gate: &G,
    sink: &mut K,
) -> Result<(), TraceFault>
    requires version { tables.version ≡ 2 }
    requires workers { (1 ≤ workers) × (workers ≤ 64) }
    ensures report { IfSome (S.files shelf.old) (λ files.
        WritesRounds tables hops (file_of files packets.now) result (K.taken sink.old) (K.taken sink.new)) }
    ensures read { IsErrOf result TraceFault.Read → Rose (S.faults shelf.old packets.now) (S.faults shelf.new packets.now) }
    ensures defined { (packet : ℕ) → IsErrOf result (TraceFault.Undefined packet) → ⊥ }
    ensures write { IsErrOf result TraceFault.Write → Rose (K.faults sink.old) (K.faults sink.new) }
    ensures files { S.files shelf.new ≡ S.files shelf.old }
    ensures later { NoneFell (S.faults shelf.old) (S.faults shelf.new) }
    ensures sink_later { K.faults sink.old ≤ K.faults sink.new }
{
    let ready = read_packets(alloc, shelf, packets, &tables)?;
    let report = worked(rt, alloc, tables, hops, ready, workers, gate)?;
    write_whole(sink, &report)?;
    Ok(())
}

// The report of the run of these packets.
fn worked<R: Threads + Sync, G: Gate>(
    rt: &R,
    alloc: Global,
    tables: Valid,
    hops: bool,
    packets: Vec<Ready>,
    workers: u16,
    gate: &G,
) -> Result<Vec<u8>, NoMemory>
    requires version { tables.version ≡ 2 }
    requires workers { (1 ≤ workers) × (workers ≤ 64) }
    requires ready { All (IsReady tables) packets.items }
    requires few { length packets.items ≤ 1000000 }
    ensures { IfOk result (λ text. IsRoundReport tables hops (packets_in packets.items) text.items) }
{
    let play = OrderedPlay::open(alloc, tables, hops, packets)?;
    let begun = begin_all(rt, play, workers, gate)?;
    let mut ended = end_all(rt, begun.play, begun.rounds, workers, gate)?;
    ended.tell_all()
}

// A run, and how many rounds were made in it.
#[derive(Drop)]
struct Begun {
    play: OrderedPlay,
    rounds: u64,
}

// Injects the packets that wait, with a round after each.
fn begin_all<R: Threads + Sync, G: Gate>(
    rt: &R,
    start: OrderedPlay,
    workers: u16,
    gate: &G,
) -> Result<Begun, NoMemory>
    requires workers { (1 ≤ workers) × (workers ≤ 64) }
    requires paced { IsPaced start }
    requires few { start.net.net.injected + length (left_in start) ≤ 1000000 }
    ensures ran { IfOk result (λ begun. (t : Tables) (hops : Bool) (ks : List (List ℕ)) → PlaysRounds t hops ks start → PlaysRounds t hops ks begun.play) }
    ensures none { IfOk result (λ begun. left_in begun.play ≡ []) }
    ensures few { IfOk result (λ begun. begun.play.net.net.injected ≤ 1000000) }
{
    let mut play = start;
    let mut rounds = 0u64;
    while play.left() > 0 {
        play.inject()?;
        let _known = play.flying();
        rounds = rounds.wrapping_add(1);
        play = play.round(rt, rounds, workers, gate)?;
    }
    Ok(Begun { play, rounds })
}

// Makes rounds until nothing is in flight, behind so many.
fn end_all<R: Threads + Sync, G: Gate>(
    rt: &R,
    start: OrderedPlay,
    behind: u64,
    workers: u16,
    gate: &G,
) -> Result<OrderedPlay, NoMemory>
    requires workers { (1 ≤ workers) × (workers ≤ 64) }
    requires paced { IsPaced start }
    requires none { left_in start ≡ [] }
    ensures ran { IfOk result (λ ended. (t : Tables) (hops : Bool) (ks : List (List ℕ)) → PlaysRounds t hops ks start → PlaysRounds t hops ks ended) }
    ensures none { IfOk result (λ ended. left_in ended ≡ []) }
    ensures rests { IfOk result (λ ended. ended.net.net.flying ≡ []) }
    ensures count { IfOk result (λ ended. ended.net.net.injected ≡ start.net.net.injected) }
{
    let mut play = start;
    let mut rounds = behind;
    while play.flying() > 0 {
        rounds = rounds.wrapping_add(1);
        play = play.round(rt, rounds, workers, gate)?;
    }
    Ok(play)
}
