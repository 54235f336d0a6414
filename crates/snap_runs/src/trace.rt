//! The plain run of tables over a packets file.

ghost use Rattle.std.specs.Prelude.{◌≡◌, ◌≤◌, ℕ, IfSome, IsErrOf};
ghost use Rattle.snap_io.specs.Causes.{NoneFell, Rose};
ghost use Rattle.snap_io.specs.Files.{file_of};
ghost use Rattle.snap_runs.specs.Plain.{WritesTrace, WritesTraceBy};

use crate::frames::Frames;
use crate::tracer::Tracer;
use snap_io::{Shelf, Sink};
use snap_report::TraceFault;
use snap_report::runner::run_over;
use snap_rows::valid::Valid;
use std::alloc::Global;

/// Writes the report of the network with these tables over the packets file with this name (`docs/FORMATS.md`,
/// "Reports"): each packet is injected once the one before has finished, and its block is written before the next read.
/// With `hops` a line tells each link that a copy crosses.
///
/// # Errors
///
/// `Packets` at the first line that isn't in form, has more than `MOST_LINE` bytes, or names no port of the tables;
/// `Limit` where the file has more than `MOST_LINES` lines or `MOST_BYTES` bytes: the blocks of the packets before have
/// gone out. `Read` only where the shelf's count of faults at the packets file rose, `Write` only where the sink's rose,
/// `NoMemory` for want of memory: some first bytes of the report have gone out. Never `Undefined`.
pub fn trace<S: Shelf, K: Sink>(
    alloc: Global,
    shelf: &mut S,
    packets: &[u8],
    tables: Valid,
    hops: bool,
    sink: &mut K,
) -> Result<(), TraceFault>
    ensures report { IfSome (S.files shelf.old) (λ files.
        WritesTrace tables hops (file_of files packets.now) result (K.taken sink.old) (K.taken sink.new)) }
    ensures read { IsErrOf result TraceFault.Read → Rose (S.faults shelf.old packets.now) (S.faults shelf.new packets.now) }
    ensures defined { (packet : ℕ) → IsErrOf result (TraceFault.Undefined packet) → ⊥ }
    ensures write { IsErrOf result TraceFault.Write → Rose (K.faults sink.old) (K.faults sink.new) }
    ensures files { S.files shelf.new ≡ S.files shelf.old }
    ensures later { NoneFell (S.faults shelf.old) (S.faults shelf.new) }
    ensures sink_later { K.faults sink.old ≤ K.faults sink.new }
{
    trace_by(alloc, shelf, packets, tables, hops, Frames::Plain, sink)
}

/// The same, with frames of this kind in the lines of hops.
///
/// # Errors
///
/// As those of `trace`.
pub fn trace_by<S: Shelf, K: Sink>(
    alloc: Global,
    shelf: &mut S,
    packets: &[u8],
    tables: Valid,
    hops: bool,
    frames: Frames,
    sink: &mut K,
) -> Result<(), TraceFault>
    ensures report { IfSome (S.files shelf.old) (λ files.
        WritesTraceBy frames tables hops (file_of files packets.now) result (K.taken sink.old) (K.taken sink.new)) }
    ensures read { IsErrOf result TraceFault.Read → Rose (S.faults shelf.old packets.now) (S.faults shelf.new packets.now) }
    ensures defined { (packet : ℕ) → IsErrOf result (TraceFault.Undefined packet) → ⊥ }
    ensures write { IsErrOf result TraceFault.Write → Rose (K.faults sink.old) (K.faults sink.new) }
    ensures files { S.files shelf.new ≡ S.files shelf.old }
    ensures later { NoneFell (S.faults shelf.old) (S.faults shelf.new) }
    ensures sink_later { K.faults sink.old ≤ K.faults sink.new }
{
    let mut tracer = Tracer::new(alloc, tables, hops, frames)?;
    run_over(alloc, &mut tracer, shelf, packets, sink)
}
