//! The plain run in order over a packets file.

ghost use Rattle.std.specs.Prelude.{◌≡◌, ◌≤◌, ℕ, IfSome, IsErrOf};
ghost use Rattle.snap_io.specs.Causes.{NoneFell, Rose};
ghost use Rattle.snap_io.specs.Files.{file_of};
ghost use Rattle.snap_order.specs.Runs.{WritesTrace};

use snap_io::{Shelf, Sink};
use snap_report::TraceFault;
use snap_rows::valid::Valid;
use snap_runs::frames::Frames;
use snap_runs::trace::trace_by;
use std::alloc::Global;

/// Writes the report of the ordered network with these tables over the packets file with this name: each packet is injected
/// once the one before has finished, and its block is written before the next read. With `hops` a line tells each link that
/// a copy crosses, by a frame that begins with the packet's number.
///
/// Where packets come one after another nobody waits, so this is the run of the network without order (`laws`,
/// `plain_runs_take_turns`), and takes its time and memory.
///
/// # Errors
///
/// As those of `snap_runs::trace::trace`.
pub fn trace_ordered<S: Shelf, K: Sink>(
    alloc: Global,
    shelf: &mut S,
    packets: &[u8],
    tables: Valid,
    hops: bool,
    sink: &mut K,
) -> Result<(), TraceFault>
    requires version { tables.version ≡ 2 }
    ensures report { IfSome (S.files shelf.old) (λ files.
        WritesTrace tables hops (file_of files packets.now) result (K.taken sink.old) (K.taken sink.new)) }
    ensures read { IsErrOf result TraceFault.Read → Rose (S.faults shelf.old packets.now) (S.faults shelf.new packets.now) }
    ensures defined { (packet : ℕ) → IsErrOf result (TraceFault.Undefined packet) → ⊥ }
    ensures write { IsErrOf result TraceFault.Write → Rose (K.faults sink.old) (K.faults sink.new) }
    ensures files { S.files shelf.new ≡ S.files shelf.old }
    ensures later { NoneFell (S.faults shelf.old) (S.faults shelf.new) }
    ensures sink_later { K.faults sink.old ≤ K.faults sink.new }
{
    let _known = tables.tables();
    trace_by(alloc, shelf, packets, tables, hops, Frames::Numbered, sink)
}
