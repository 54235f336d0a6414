use crate::texts::{FIRST_COME, shelf, sink, valid};
use snap_io::{MemoryShelf, MemorySink};
use snap_report::TraceFault;
use snap_runs::trace::trace;
use std::alloc::Global;
use std::test::Fail;

// A run over the packets of a shelf.
fn run_over(
    alloc: Global,
    shelf: &mut MemoryShelf,
    hops: bool,
    sink: &mut MemorySink,
) -> Result<(), TraceFault> {
    let tables = valid(alloc, FIRST_COME)?;
    trace(alloc, shelf, b"q", tables, hops, sink)
}

// A run over these packets.
fn run(alloc: Global, packets: &[u8], hops: bool, sink: &mut MemorySink) -> Result<(), TraceFault> {
    let mut shelf = shelf(alloc, packets, b"")?;
    run_over(alloc, &mut shelf, hops, sink)
}

#[test]
fn hops_are_told(rt: HostRuntime) -> Result<(), Fail> {
    let mut sink = sink(rt.alloc())?;
    let ended = run(rt.alloc(), b"1\n2\n", true, &mut sink);
    assert_eq!(rt; ended, Ok(()));
    let report: &[u8] = b"packet 1\n\
        hop a b 01000000000000000000000000000000010000000000000000\n\
        hop b a 030000000100000000000000010000000000000001\n\
        out inport=1 outport=1\n\
        lost 0\n\
        packet 2\n\
        out inport=2 outport=2\n\
        lost 0\n\
        array s 0 = 1\n\
        end\n";
    assert_eq!(rt; sink.bytes(), report);
    Ok(())
}

#[test]
fn packets_come_in_at_ports(rt: HostRuntime) -> Result<(), Fail> {
    let mut sink = sink(rt.alloc())?;
    let ended = run(rt.alloc(), b"1\n# no packet\n2\n9\n1\n", false, &mut sink);
    assert_eq!(rt; ended, Err(TraceFault::Packets { line: 4 }));
    let blocks: &[u8] = b"packet 1\n\
        out inport=1 outport=1\n\
        lost 0\n\
        packet 2\n\
        out inport=2 outport=2\n\
        lost 0\n";
    assert_eq!(rt; sink.bytes(), blocks);
    Ok(())
}
