ghost use Rattle.std.specs.Prelude.{◌≡◌, ◌∷◌, [], IfOk};
ghost use Rattle.snap_runs.specs.Changing.{HaveShapeOf, IsRising};

use crate::texts::{FIRST_COME, MOVED, shelf, sink, valid};
use snap_core::NoMemory;
use snap_io::{MemoryShelf, MemorySink};
use snap_report::TraceFault;
use snap_rows::valid::Valid;
use snap_runs::change::{Change, read_changes};
use snap_runs::later::Later;
use snap_runs::shape::same_shape;
use snap_runs::trace_changes::trace_changes;
use std::alloc::Global;
use std::test::Fail;

// Tables that come into force behind one packet.
fn behind_one(alloc: Global, tables: Valid) -> Result<Vec<Later>, NoMemory>
    ensures { IfOk result (λ later. later.items ≡ record { after = 1; tables = tables } ∷ []) }
{
    let mut later = Vec::new(alloc);
    later.push(Later { after: 1, tables })?;
    Ok(later)
}

// The tables with the array at the first switch, which come into force behind one packet.
fn moved(alloc: Global, first: &Valid) -> Result<Vec<Later>, NoMemory>
    ensures shapes { IfOk result (λ later. HaveShapeOf first.now later.items) }
    ensures rising { IfOk result (λ later. IsRising later.items) }
{
    let tables = valid(alloc, MOVED)?;
    if same_shape(&tables, first) {
        behind_one(alloc, tables)
    } else {
        Err(NoMemory)
    }
}

// A run over the packets of a shelf while the array moves.
fn run_over(
    alloc: Global,
    shelf: &mut MemoryShelf,
    sink: &mut MemorySink,
) -> Result<(), TraceFault> {
    let first = valid(alloc, FIRST_COME)?;
    let later = moved(alloc, &first)?;
    trace_changes(alloc, shelf, b"q", first, later, false, sink)
}

const MOVED_REPORT: &[u8] = b"packet 1\n\
    out inport=1 outport=1\n\
    lost 0\n\
    packet 2\n\
    out inport=2 outport=2\n\
    lost 0\n\
    packet 3\n\
    out inport=1 outport=2\n\
    lost 0\n\
    array s 0 = 1\n\
    end\n";

#[test]
fn an_array_is_moved(rt: HostRuntime) -> Result<(), Fail> {
    let mut sink = sink(rt.alloc())?;
    let mut shelf = shelf(rt.alloc(), b"1\n2\n1\n", b"")?;
    let ended = run_over(rt.alloc(), &mut shelf, &mut sink);
    assert_eq!(rt; ended, Ok(()));
    assert_eq!(rt; sink.bytes(), MOVED_REPORT);
    Ok(())
}

// Whether changes are these: behind how many packets, in which line, and of which name.
fn are(changes: &[Change], wanted: &[(u64, u64, &[u8])]) -> bool {
    changes.len() == wanted.len()
        && changes.iter().zip(wanted.iter()).all(|(change, (after, line, name))| {
            change.after == *after && change.line == *line && change.name.items() == *name
        })
}

#[test]
fn lines_say_changes(rt: HostRuntime) -> Result<(), Fail> {
    let changes = read_changes(rt.alloc(), b"# none\nafter 0 x\n \nafter  007\ty\r\n")?;
    assert!(rt; are(&changes, &[(0, 2, b"x"), (7, 4, b"y")]));
    Ok(())
}
