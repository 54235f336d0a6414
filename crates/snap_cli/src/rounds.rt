//! `trace --ordered --workers`: the report of a run by rounds, in which several workers make the steps.

ghost use Rattle.std.specs.Prelude.{◌≡◌, IfSome};
ghost use Rattle.snap_cli.specs.Causes.{ReadsAndWrites};
ghost use Rattle.snap_cli.specs.RoundsSteps.{MeetsByRounds, MeetsRounds};
ghost use Rattle.snap_cli.specs.Statuses.{EndsWith, statuses_of_trace};
ghost use Rattle.snap_words.specs.Commands.{rounds, plain};

use crate::in_order::has_turns;
use crate::obs::refusal_of_run;
use crate::refusal::Refusal;
use snap_io::{Shelf, Sink};
use snap_order::gate::NoGate;
use snap_order::workers::trace_workers;
use snap_rows::valid::Valid;
use snap_words::count::Count;
use std::alloc::Global;
use std::thread::Threads;

/// Writes the report of tables that were read, over the packets file, by rounds that so many workers make. `VersionOne`
/// where the tables are of that version.
pub(crate) fn report_by_rounds<'a, R: Threads + Sync, S: Shelf, O: Sink>(
    rt: &R,
    alloc: Global,
    tables: Valid,
    packets: &'a [u8],
    workers: Count,
    hops: bool,
    shelf: &mut S,
    out: &mut O,
) -> Result<(), Refusal<'a>>
    ensures meets { IfSome (S.files shelf.old) (λ files.
        MeetsByRounds files tables hops packets.entry result (O.taken out.old) (O.taken out.new)) }
    ensures devices { ReadsAndWrites (S.files shelf.old) (S.files shelf.new) (S.faults shelf.old) (S.faults shelf.new)
        (O.faults out.old) (O.faults out.new) result }
    ensures statuses { EndsWith (statuses_of_trace (rounds workers.value)) result }
{
    if has_turns(&tables) {
        report_rounds(rt, alloc, tables, packets, workers, hops, shelf, out)
    } else {
        Err(Refusal::VersionOne)
    }
}

// Writes the report of tables of version 2.
fn report_rounds<'a, R: Threads + Sync, S: Shelf, O: Sink>(
    rt: &R,
    alloc: Global,
    tables: Valid,
    packets: &'a [u8],
    workers: Count,
    hops: bool,
    shelf: &mut S,
    out: &mut O,
) -> Result<(), Refusal<'a>>
    requires version { tables.version ≡ 2 }
    ensures meets { IfSome (S.files shelf.old) (λ files.
        MeetsRounds files tables hops packets.entry result (O.taken out.old) (O.taken out.new)) }
    ensures devices { ReadsAndWrites (S.files shelf.old) (S.files shelf.new) (S.faults shelf.old) (S.faults shelf.new)
        (O.faults out.old) (O.faults out.new) result }
    ensures statuses { EndsWith (statuses_of_trace plain) result }
{
    match trace_workers(
        rt,
        alloc,
        shelf,
        packets,
        tables,
        hops,
        workers.value,
        &NoGate,
        out,
    ) {
        Ok(()) => Ok(()),
        Err(fault) => Err(refusal_of_run(packets, fault)),
    }
}
