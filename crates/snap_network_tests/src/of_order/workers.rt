//! Runs by rounds of worked tables, by one worker and by several.

ghost use Rattle.std.specs.Prelude.{◌≤◌};

use super::{REPORT, two_owners};
use crate::texts::{shelf, sink};
use snap_core::NoMemory;
use snap_io::{MemoryShelf, MemorySink};
use snap_order::gate::{Gate, NoGate};
use snap_order::workers::trace_workers;
use snap_report::TraceFault;
use std::alloc::{AllocError, Global};
use std::sync::atomic::{AtomicU64, Ordering};
use std::test::Fail;
use std::thread::Threads;

// So many rounds are noted.
const ROUNDS: usize = 8;

// How often switches a and b were passed in each round.
#[derive(Drop)]
struct Notes {
    passed: Vec<AtomicU64>,
}

// Where the passes of a switch in a round are counted.
fn place_of(round: u64, at: u16) -> usize {
    round.wrapping_mul(2).wrapping_add(at as u64) as usize
}

impl Notes {
    fn new(alloc: Global) -> Result<Notes, AllocError> {
        let mut passed = Vec::with_capacity(alloc, 2 * ROUNDS)?;
        for _ in 0..2 * ROUNDS {
            passed.push(AtomicU64::new(0))?;
        }
        Ok(Notes { passed })
    }

    fn count(&self, round: u64, at: u16) -> u64 {
        match self.passed.get(place_of(round, at)) {
            Some(count) => count.load(Ordering::SeqCst),
            None => 0,
        }
    }
}

impl Gate for Notes {
    fn pass(&self, round: u64, at: u16) {
        if let Some(count) = self.passed.get(place_of(round, at)) {
            count.fetch_add(1, Ordering::SeqCst);
        }
    }
}

// A run by so many workers over the packets of a shelf.
fn run_over<R: Threads + Sync, G: Gate>(
    rt: &R,
    alloc: Global,
    shelf: &mut MemoryShelf,
    hops: bool,
    workers: u16,
    gate: &G,
    sink: &mut MemorySink,
) -> Result<(), TraceFault>
    requires { (1 ≤ workers) × (workers ≤ 64) }
{
    let tables = two_owners(alloc)?;
    trace_workers(rt, alloc, shelf, b"q", tables, hops, workers, gate, sink)
}

// What so many workers write of two packets at port 1.
fn report_into<R: Threads + Sync, G: Gate>(
    rt: &R,
    alloc: Global,
    workers: u16,
    gate: &G,
    sink: &mut MemorySink,
) -> Result<(), TraceFault>
    requires { (1 ≤ workers) × (workers ≤ 64) }
{
    let mut shelf = shelf(alloc, b"1\n1\n", b"")?;
    run_over(rt, alloc, &mut shelf, false, workers, gate, sink)
}

// Whether so many workers report two packets at port 1 as one big switch does.
fn report_alike<R: Threads + Sync, G: Gate>(
    rt: &R,
    alloc: Global,
    workers: u16,
    gate: &G,
) -> Result<bool, NoMemory>
    requires { (1 ≤ workers) × (workers ≤ 64) }
{
    let mut sink = sink(alloc)?;
    let ended = report_into(rt, alloc, workers, gate, &mut sink);
    Ok(ended == Ok(()) && sink.bytes() == REPORT)
}

// The first packet goes from a to b, forks there, and comes back; the second one round behind it.
const PASSED: [[u64; 2]; 7] = [[0, 0], [1, 0], [1, 1], [0, 1], [1, 1], [1, 0], [0, 0]];

#[test]
fn switches_with_copies_are_passed(rt: HostRuntime) -> Result<(), Fail> {
    let notes = Notes::new(rt.alloc())?;
    assert!(rt; report_alike(&rt, rt.alloc(), 2, &notes)?);
    for round in 0..PASSED.len() {
        assert_eq!(rt; notes.count(round as u64, 0), PASSED[round][0]);
        assert_eq!(rt; notes.count(round as u64, 1), PASSED[round][1]);
    }
    Ok(())
}

// So many turns a worker waits for another.
const TURNS: u64 = 100_000_000;

// Makes a worker wait in rounds 2 and 4 until the other switch has been passed, and counts the waits that were in vain.
#[derive(Drop)]
struct Meeting {
    notes: Notes,
    missed: AtomicU64,
}

impl Meeting {
    // Whether the other switch is passed in time.
    fn is_met(&self, round: u64, at: u16) -> bool {
        let other = if at == 0 { 1 } else { 0 };
        for _ in 0..TURNS {
            if self.notes.count(round, other) > 0 {
                return true;
            }
        }
        false
    }
}

impl Gate for Meeting {
    fn pass(&self, round: u64, at: u16) {
        self.notes.pass(round, at);
        if (round == 2 || round == 4) && !self.is_met(round, at) {
            self.missed.fetch_add(1, Ordering::SeqCst);
        }
    }
}

// In rounds 2 and 4 both switches hold a copy, and their workers meet. A round on one thread waits in vain: it leaves a worker
// alone at its gate. No clause speaks of that, so no prover refuses it; this test does.
#[test]
fn workers_meet(rt: HostRuntime) -> Result<(), Fail> {
    let gate = Meeting {
        notes: Notes::new(rt.alloc())?,
        missed: AtomicU64::new(0),
    };
    assert!(rt; report_alike(&rt, rt.alloc(), 2, &gate)?);
    assert_eq!(rt; gate.missed.load(Ordering::SeqCst), 0);
    Ok(())
}

// However many workers there are.
#[test]
fn workers_report_alike(rt: HostRuntime) -> Result<(), Fail> {
    assert!(rt; report_alike(&rt, rt.alloc(), 1, &NoGate)?);
    assert!(rt; report_alike(&rt, rt.alloc(), 2, &NoGate)?);
    assert!(rt; report_alike(&rt, rt.alloc(), 64, &NoGate)?);
    Ok(())
}

// A line that names no port is refused before anything goes out.
#[test]
fn packets_are_read_first(rt: HostRuntime) -> Result<(), Fail> {
    let alloc = rt.alloc();
    let mut sink = sink(alloc)?;
    let mut shelf = shelf(alloc, b"1\n9\n", b"")?;
    let ended = run_over(&rt, alloc, &mut shelf, true, 2, &NoGate, &mut sink);
    assert_eq!(rt; ended, Err(TraceFault::Packets { line: 2 }));
    assert_eq!(rt; sink.bytes().len(), 0);
    Ok(())
}
