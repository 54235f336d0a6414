//! `trace --ordered`: the report of a run in which each rank's packets take turns.

ghost use Rattle.std.specs.Prelude.{◌≡◌, IfSome, IsTrue, None, Some, false, option_map};
ghost use Rattle.snap_cli.specs.Causes.{ReadsAndWrites};
ghost use Rattle.snap_cli.specs.InOrderSteps.{MeetsInOrder, MeetsTurns};
ghost use Rattle.snap_cli.specs.Statuses.{EndsWith, statuses_of_trace};
ghost use Rattle.snap_words.specs.Commands.{in_order, plain, schedule};

use crate::obs::refusal_of_run;
use crate::refusal::Refusal;
use crate::schedule::refusal_of_schedule;
use snap_io::{Shelf, Sink};
use snap_order::schedule::schedule_ordered;
use snap_order::trace::trace_ordered;
use snap_rows::valid::Valid;
use std::alloc::Global;

/// Writes the report of tables that were read, over the packets file, where each rank's packets take turns: one packet
/// after the other, or in the order of the schedule with this name. `VersionOne` where the tables are of that version.
pub(crate) fn report_ordered<'a, S: Shelf, O: Sink>(
    alloc: Global,
    tables: Valid,
    packets: &'a [u8],
    lines: Option<&'a [u8]>,
    hops: bool,
    shelf: &mut S,
    out: &mut O,
) -> Result<(), Refusal<'a>>
    ensures meets { IfSome (S.files shelf.old) (λ files.
        MeetsInOrder files tables hops packets.entry lines.entry result (O.taken out.old) (O.taken out.new)) }
    ensures devices { ReadsAndWrites (S.files shelf.old) (S.files shelf.new) (S.faults shelf.old) (S.faults shelf.new)
        (O.faults out.old) (O.faults out.new) result }
    ensures statuses { EndsWith (statuses_of_trace (in_order (option_map (λ s. s.now) lines.entry))) result }
{
    if has_turns(&tables) {
        report_turns(alloc, tables, packets, lines, hops, shelf, out)
    } else {
        Err(Refusal::VersionOne)
    }
}

/// Whether packets can take turns in the tables: they are of version 2.
pub(crate) fn has_turns(tables: &Valid) -> bool
    ensures two { IsTrue result → tables.now.version ≡ 2 }
    ensures one { result ≡ false → tables.now.version ≡ 1 }
{
    tables.tables().version == 2
}

// Writes the report of tables of version 2.
fn report_turns<'a, S: Shelf, O: Sink>(
    alloc: Global,
    tables: Valid,
    packets: &'a [u8],
    lines: Option<&'a [u8]>,
    hops: bool,
    shelf: &mut S,
    out: &mut O,
) -> Result<(), Refusal<'a>>
    requires version { tables.version ≡ 2 }
    ensures meets { IfSome (S.files shelf.old) (λ files.
        MeetsTurns files tables hops packets.entry lines.entry result (O.taken out.old) (O.taken out.new)) }
    ensures devices { ReadsAndWrites (S.files shelf.old) (S.files shelf.new) (S.faults shelf.old) (S.faults shelf.new)
        (O.faults out.old) (O.faults out.new) result }
    ensures statuses { EndsWith (statuses_of_trace (in_order (option_map (λ s. s.now) lines.entry))) result }
{
    match lines {
        None => report_each(alloc, tables, packets, hops, shelf, out),
        Some(lines) => report_lines(alloc, tables, packets, lines, hops, shelf, out),
    }
}

// Writes it for one packet after the other.
fn report_each<'a, S: Shelf, O: Sink>(
    alloc: Global,
    tables: Valid,
    packets: &'a [u8],
    hops: bool,
    shelf: &mut S,
    out: &mut O,
) -> Result<(), Refusal<'a>>
    requires version { tables.version ≡ 2 }
    ensures meets { IfSome (S.files shelf.old) (λ files.
        MeetsTurns files tables hops packets.entry None result (O.taken out.old) (O.taken out.new)) }
    ensures devices { ReadsAndWrites (S.files shelf.old) (S.files shelf.new) (S.faults shelf.old) (S.faults shelf.new)
        (O.faults out.old) (O.faults out.new) result }
    ensures statuses { EndsWith (statuses_of_trace plain) result }
{
    match trace_ordered(alloc, shelf, packets, tables, hops, out) {
        Ok(()) => Ok(()),
        Err(fault) => Err(refusal_of_run(packets, fault)),
    }
}

// Writes it for the events of a schedule.
fn report_lines<'a, S: Shelf, O: Sink>(
    alloc: Global,
    tables: Valid,
    packets: &'a [u8],
    lines: &'a [u8],
    hops: bool,
    shelf: &mut S,
    out: &mut O,
) -> Result<(), Refusal<'a>>
    requires version { tables.version ≡ 2 }
    ensures meets { IfSome (S.files shelf.old) (λ files.
        MeetsTurns files tables hops packets.entry (Some lines.entry) result (O.taken out.old) (O.taken out.new)) }
    ensures devices { ReadsAndWrites (S.files shelf.old) (S.files shelf.new) (S.faults shelf.old) (S.faults shelf.new)
        (O.faults out.old) (O.faults out.new) result }
    ensures statuses { EndsWith (statuses_of_trace (schedule lines.entry.now)) result }
{
    match schedule_ordered(alloc, shelf, packets, lines, tables, hops, out) {
        Ok(()) => Ok(()),
        Err(fault) => Err(refusal_of_schedule(packets, lines, fault)),
    }
}
