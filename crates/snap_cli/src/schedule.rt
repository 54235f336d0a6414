//! `trace --schedule`: the report of the events that a schedule orders.

ghost use Rattle.std.specs.Prelude.{◌≡◌, IfSome};
ghost use Rattle.snap_cli.specs.Causes.{ReadsAndWrites};
ghost use Rattle.snap_cli.specs.RunSteps.{refusal_of_schedule};
ghost use Rattle.snap_cli.specs.TraceSteps.{MeetsSchedule};
ghost use Rattle.snap_cli.specs.Statuses.{EndsWith, statuses_of_trace};
ghost use Rattle.snap_words.specs.Commands.{schedule};

use crate::obs::refusal_of_run;
use crate::refusal::Refusal;
use snap_core::program::Which;
use snap_io::{Shelf, Sink};
use snap_report::switch::MOST_BYTES;
use snap_rows::valid::Valid;
use snap_runs::schedule::{ScheduleFault, scheduled};
use std::alloc::Global;

/// Writes the report of tables that were read, over the packets file, in the order of the schedule with this name.
pub(crate) fn report_scheduled<'a, S: Shelf, O: Sink>(
    alloc: Global,
    tables: Valid,
    packets: &'a [u8],
    lines: &'a [u8],
    hops: bool,
    shelf: &mut S,
    out: &mut O,
) -> Result<(), Refusal<'a>>
    ensures meets { IfSome (S.files shelf.old) (λ files. MeetsSchedule files tables hops packets.entry lines.entry result (O.taken out.old) (O.taken out.new)) }
    ensures devices { ReadsAndWrites (S.files shelf.old) (S.files shelf.new) (S.faults shelf.old) (S.faults shelf.new)
        (O.faults out.old) (O.faults out.new) result }
    ensures statuses { EndsWith (statuses_of_trace (schedule lines.entry.now)) result }
{
    match scheduled(alloc, shelf, packets, lines, tables, hops, out) {
        Ok(()) => Ok(()),
        Err(fault) => Err(refusal_of_schedule(packets, lines, fault)),
    }
}

/// The refusal of a run over files with these names.
pub(crate) fn refusal_of_schedule<'a>(
    packets: &'a [u8],
    lines: &'a [u8],
    fault: ScheduleFault,
) -> Refusal<'a>
    ensures { result ≡ refusal_of_schedule packets.entry lines.entry fault }
{
    match fault {
        ScheduleFault::Packets { fault } => refusal_of_run(packets, fault),
        ScheduleFault::Read => Refusal::Read { name: lines },
        ScheduleFault::TooLong => Refusal::Limit {
            which: Which::Bytes,
            count: MOST_BYTES + 1,
        },
        ScheduleFault::Line { line } => Refusal::Schedule { line },
        ScheduleFault::Write => Refusal::Write,
        ScheduleFault::NoMemory => Refusal::NoMemory,
    }
}
