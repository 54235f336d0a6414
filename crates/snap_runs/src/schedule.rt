//! The run of tables over a packets file, in the order of a schedule.

ghost use Rattle.std.specs.Prelude.{◌≡◌, ◌≤◌, ℕ, IfSome, IsErrOf};
ghost use Rattle.snap_io.specs.Causes.{NoneFell, Rose};
ghost use Rattle.snap_io.specs.Files.{file_of};
ghost use Rattle.snap_runs.specs.Schedules.{WritesSchedule};
ghost use Rattle.snap_runs.specs.declared.schedule.ScheduleFault.TheVariants as fault;

use crate::play::Play;
use crate::runner::write_schedule;
use snap_core::NoMemory;
use snap_io::{Shelf, Sink};
use snap_report::TraceFault;
use snap_rows::valid::Valid;
use std::alloc::Global;
use thiserror::Error;

/// Why the report of a schedule isn't written. Lines are counted from 1.
#[derive(Clone, Copy, Debug, PartialEq, Eq, Error)]
pub enum ScheduleFault {
    /// The packets file isn't read to its end: `Read`, `Packets`, `Limit` or `NoMemory`, as `trace` has them.
    #[error("the packets file isn't read to its end")]
    Packets { fault: TraceFault },

    /// The shelf failed at the schedule.
    #[error("the schedule can't be read")]
    Read,

    /// The schedule has more than `MOST_BYTES` bytes.
    #[error("the schedule has too many bytes")]
    TooLong,

    /// This line isn't in form or can't be done, or the schedule ends before it and a packet or a copy is left.
    #[error("line {line} of the schedule can't be done")]
    Line { line: u64 },

    /// The sink failed.
    #[error("the report can't be written")]
    Write,

    /// Memory was refused.
    #[error("out of memory")]
    NoMemory,
}

impl From<NoMemory> for ScheduleFault {
    ghost from_gives = { λ _ e. e ≡ fault.NoMemory };

    fn from(_: NoMemory) -> Self {
        ScheduleFault::NoMemory
    }
}

/// Writes the report of the network with these tables, over the packets file and the schedule with these names
/// (`docs/FORMATS.md`, "Schedules"): exactly the events that the schedule's lines order, with the packets in the order
/// of their file. With `hops` a line tells each link that a copy crosses.
///
/// The packets file is read to its end first, and then the schedule; nothing goes out before all lines are done.
///
/// # Errors
///
/// `Packets` where the packets file isn't read to its end, with what `trace` would answer. `TooLong` where the schedule has
/// more than `MOST_BYTES` bytes, `Line` at the first line that isn't in form or can't be done, or behind the last line where
/// a packet or a copy in flight is left. `Read` only where the shelf's count of faults at the schedule rose, `Write` only
/// where the sink's rose: some first bytes of the report have gone out. After each other error nothing has gone out.
pub fn scheduled<S: Shelf, K: Sink>(
    alloc: Global,
    shelf: &mut S,
    packets: &[u8],
    schedule: &[u8],
    tables: Valid,
    hops: bool,
    sink: &mut K,
) -> Result<(), ScheduleFault>
    ensures report { IfSome (S.files shelf.old) (λ files.
        WritesSchedule tables hops (file_of files packets.now) (file_of files schedule.now) result (K.taken sink.old) (K.taken sink.new)) }
    ensures no_write { IsErrOf result (ScheduleFault.Packets TraceFault.Write) → ⊥ }
    ensures read_packets { IsErrOf result (ScheduleFault.Packets TraceFault.Read) → Rose (S.faults shelf.old packets.now) (S.faults shelf.new packets.now) }
    ensures defined { (packet : ℕ) → IsErrOf result (ScheduleFault.Packets (TraceFault.Undefined packet)) → ⊥ }
    ensures read { IsErrOf result ScheduleFault.Read → Rose (S.faults shelf.old schedule.now) (S.faults shelf.new schedule.now) }
    ensures write { IsErrOf result ScheduleFault.Write → Rose (K.faults sink.old) (K.faults sink.new) }
    ensures files { S.files shelf.new ≡ S.files shelf.old }
    ensures later { NoneFell (S.faults shelf.old) (S.faults shelf.new) }
    ensures sink_later { K.faults sink.old ≤ K.faults sink.new }
{
    write_schedule::<Play, S, K>(alloc, shelf, packets, schedule, tables, hops, sink)
}
