//! The run in order over a packets file, by a schedule.

ghost use Rattle.std.specs.Prelude.{◌≡◌, ◌≤◌, ℕ, IfSome, IsErrOf};
ghost use Rattle.snap_io.specs.Causes.{NoneFell, Rose};
ghost use Rattle.snap_io.specs.Files.{file_of};
ghost use Rattle.snap_report.specs.declared.fault.TraceFault.{TraceFault};
ghost use Rattle.snap_order.specs.Runs.{WritesSchedule};

use crate::play::OrderedPlay;
use snap_io::{Shelf, Sink};
use snap_rows::valid::Valid;
use snap_runs::runner::write_schedule;
use snap_runs::schedule::ScheduleFault;
use std::alloc::Global;

/// Writes the report of the ordered network with these tables, over the packets file and the schedule with these names:
/// exactly the events that the schedule's lines order, with the packets in the order of their file. A step that waits can
/// be done. With `hops` a line tells each link that a copy crosses, by a frame that begins with the packet's number.
///
/// The packets file is read to its end first, and then the schedule; nothing goes out before all lines are done.
///
/// # Errors
///
/// As those of `snap_runs::schedule::scheduled`.
pub fn schedule_ordered<S: Shelf, K: Sink>(
    alloc: Global,
    shelf: &mut S,
    packets: &[u8],
    schedule: &[u8],
    tables: Valid,
    hops: bool,
    sink: &mut K,
) -> Result<(), ScheduleFault>
    requires version { tables.version ≡ 2 }
    ensures files { S.files shelf.new ≡ S.files shelf.old }
    ensures later { NoneFell (S.faults shelf.old) (S.faults shelf.new) }
    ensures sink_later { K.faults sink.old ≤ K.faults sink.new }
    ensures report { IfSome (S.files shelf.old) (λ files.
        WritesSchedule tables hops (file_of files packets.now) (file_of files schedule.now) result (K.taken sink.old) (K.taken sink.new)) }
    ensures no_write { IsErrOf result (ScheduleFault.Packets TraceFault.Write) → ⊥ }
    ensures read_packets { IsErrOf result (ScheduleFault.Packets TraceFault.Read) → Rose (S.faults shelf.old packets.now) (S.faults shelf.new packets.now) }
    ensures defined { (packet : ℕ) → IsErrOf result (ScheduleFault.Packets (TraceFault.Undefined packet)) → ⊥ }
    ensures read { IsErrOf result ScheduleFault.Read → Rose (S.faults shelf.old schedule.now) (S.faults shelf.new schedule.now) }
    ensures write { IsErrOf result ScheduleFault.Write → Rose (K.faults sink.old) (K.faults sink.new) }
{
    write_schedule::<OrderedPlay, S, K>(alloc, shelf, packets, schedule, tables, hops, sink)
}
