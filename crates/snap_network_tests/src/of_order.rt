//! Runs in order of worked tables.

ghost use Rattle.std.specs.Prelude.{◌≡◌, IfOk};

mod steps;
mod workers;

use crate::texts::{TWO_OWNERS, shelf, sink, valid};
use snap_core::NoMemory;
use snap_io::{MemoryShelf, MemorySink};
use snap_order::schedule::schedule_ordered;
use snap_order::trace::trace_ordered;
use snap_report::TraceFault;
use snap_rows::valid::Valid;
use snap_runs::schedule::ScheduleFault;
use std::alloc::Global;
use std::test::Fail;

fn two_owners(alloc: Global) -> Result<Valid, NoMemory>
    ensures { IfOk result (λ tables. tables.version ≡ 2) }
{
    let tables = valid(alloc, TWO_OWNERS)?;
    if tables.tables().version == 2 {
        Ok(tables)
    } else {
        Err(NoMemory)
    }
}

// What one big switch reports of two packets at port 1.
const REPORT: &[u8] = b"packet 1\n\
    out inport=1 outport=1\n\
    lost 0\n\
    packet 2\n\
    out inport=1 outport=1\n\
    lost 0\n\
    array s 0 = 1\n\
    end\n";

// A run over the packets and by the schedule of a shelf.
fn run_by(
    alloc: Global,
    shelf: &mut MemoryShelf,
    hops: bool,
    sink: &mut MemorySink,
) -> Result<(), ScheduleFault> {
    let tables = two_owners(alloc)?;
    schedule_ordered(alloc, shelf, b"q", b"s", tables, hops, sink)
}

// The second packet waits at `s` until the first has been there, and then at `t`.
#[test]
fn steps_that_wait_are_done(rt: HostRuntime) -> Result<(), Fail> {
    let schedule: &[u8] =
        b"inject\ninject\nstep 1\nstep 0\nstep 1\nstep 1\nstep 0\nstep 1\nstep 0\nstep 0\nstep 0\nstep 0\n";
    let mut sink = sink(rt.alloc())?;
    let mut shelf = shelf(rt.alloc(), b"1\n1\n", schedule)?;
    let ended = run_by(rt.alloc(), &mut shelf, false, &mut sink);
    assert_eq!(rt; ended, Ok(()));
    assert_eq!(rt; sink.bytes(), REPORT);
    Ok(())
}

// Each packet is left in flight, so the schedule ends too early.
#[test]
fn copies_in_flight_are_left(rt: HostRuntime) -> Result<(), Fail> {
    let mut sink = sink(rt.alloc())?;
    let mut shelf = shelf(rt.alloc(), b"1\n", b"inject\nstep 0\n")?;
    let ended = run_by(rt.alloc(), &mut shelf, true, &mut sink);
    assert_eq!(rt; ended, Err(ScheduleFault::Line { line: 3 }));
    assert_eq!(rt; sink.bytes().len(), 0);
    Ok(())
}

// A run over the packets of a shelf, with hops.
fn run_over(
    alloc: Global,
    shelf: &mut MemoryShelf,
    sink: &mut MemorySink,
) -> Result<(), TraceFault> {
    let tables = two_owners(alloc)?;
    trace_ordered(alloc, shelf, b"q", tables, true, sink)
}

// The frames of hops begin with the packet's number, 0 and then 1.
#[test]
fn frames_are_numbered(rt: HostRuntime) -> Result<(), Fail> {
    let mut sink = sink(rt.alloc())?;
    let mut shelf = shelf(rt.alloc(), b"1\n1\n9\n", b"")?;
    let ended = run_over(rt.alloc(), &mut shelf, &mut sink);
    assert_eq!(rt; ended, Err(TraceFault::Packets { line: 3 }));
    let blocks: &[u8] = b"packet 1\n\
        hop a b 0000000000000000040001000000000000000100000000000000010000000000000000\n\
        hop b a 0000000000000000030000000100000000000000010000000000000001\n\
        out inport=1 outport=1\n\
        lost 0\n\
        packet 2\n\
        hop a b 0000000000000001040001000000000000000200000000000000010000000000000000\n\
        hop b a 0000000000000001030000000100000000000000010000000000000001\n\
        out inport=1 outport=1\n\
        lost 0\n";
    assert_eq!(rt; sink.bytes(), blocks);
    Ok(())
}
