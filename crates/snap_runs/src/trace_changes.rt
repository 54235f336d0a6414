//! The run over a packets file, with tables that change.

ghost use Rattle.std.specs.Prelude.{◌≡◌, ◌≤◌, ℕ, IfSome, IsErrOf};
ghost use Rattle.snap_io.specs.Causes.{NoneFell, Rose};
ghost use Rattle.snap_io.specs.Files.{file_of};
ghost use Rattle.snap_runs.specs.Changing.{HaveShapeOf, IsRising};
ghost use Rattle.snap_runs.specs.ChangedFiles.{WritesChanged};

use crate::later::Later;
use crate::mover::Mover;
use snap_io::{Shelf, Sink};
use snap_report::TraceFault;
use snap_report::runner::run_over;
use snap_rows::valid::Valid;
use std::alloc::Global;

/// Writes the report of the network with these tables over the packets file with this name, as `crate::trace` does,
/// where the tables change on the way: once so many packets have finished, and before the next is injected, later tables
/// come into force, and the network goes on with the same whole store. A packet comes in at the ports of the tables that
/// are in force then, and its block names their switches.
///
/// # Errors
///
/// Those of `crate::trace`: `Packets` also where a packet names no port of the tables in force, and `NoMemory` also for
/// want of memory for a change.
pub fn trace_changes<S: Shelf, K: Sink>(
    alloc: Global,
    shelf: &mut S,
    packets: &[u8],
    first: Valid,
    later: Vec<Later>,
    hops: bool,
    sink: &mut K,
) -> Result<(), TraceFault>
    requires shapes { HaveShapeOf first later.items }
    requires rising { IsRising later.items }
    ensures report { IfSome (S.files shelf.old) (λ files.
        WritesChanged first later.items hops (file_of files packets.now) result (K.taken sink.old) (K.taken sink.new)) }
    ensures read { IsErrOf result TraceFault.Read → Rose (S.faults shelf.old packets.now) (S.faults shelf.new packets.now) }
    ensures defined { (packet : ℕ) → IsErrOf result (TraceFault.Undefined packet) → ⊥ }
    ensures write { IsErrOf result TraceFault.Write → Rose (K.faults sink.old) (K.faults sink.new) }
    ensures files { S.files shelf.new ≡ S.files shelf.old }
    ensures later { NoneFell (S.faults shelf.old) (S.faults shelf.new) }
    ensures sink_later { K.faults sink.old ≤ K.faults sink.new }
{
    let mut mover = Mover::new(alloc, first, later, hops)?;
    mover.make_due()?;
    run_over(alloc, &mut mover, shelf, packets, sink)
}
