//! The command `trace`: the report of the network that runs tables.

ghost use Rattle.std.specs.Prelude.{IfSome};
ghost use Rattle.snap_words.specs.Commands.{plain, trace};
ghost use Rattle.snap_words.specs.Said.{shown_order};
ghost use Rattle.snap_io.specs.Files.{file_of};
ghost use Rattle.snap_cli.specs.Causes.{ReadsAndWrites};
ghost use Rattle.snap_cli.specs.Deserved.{Meets};
ghost use Rattle.snap_cli.specs.TraceSteps.{MeetsOrder, MeetsTrace};
ghost use Rattle.snap_cli.specs.Statuses.{EndsWith, statuses_of_trace};

use crate::changes::report_changed;
use crate::in_order::report_ordered;
use crate::obs::refusal_of_run;
use crate::refusal::Refusal;
use crate::rounds::report_by_rounds;
use crate::schedule::report_scheduled;
use crate::tables::load_tables;
use snap_io::{Shelf, Sink};
use snap_rows::valid::Valid;
use snap_runs::trace::trace;
use snap_words::command::Order;
use std::alloc::Global;
use std::thread::Threads;

/// Writes the report of the network: the tables over the packets file, in this order. With `hops` a line tells each link
/// that a copy crosses.
pub(crate) fn report<'a, R: Threads + Sync, S: Shelf, O: Sink>(
    rt: &R,
    alloc: Global,
    tables: &'a [u8],
    packets: &'a [u8],
    hops: bool,
    order: Order<'a>,
    shelf: &mut S,
    out: &mut O,
) -> Result<(), Refusal<'a>>
    ensures meets { IfSome (S.files shelf.old) (λ files.
        Meets files (trace tables.entry.now packets.entry.now hops (shown_order order.entry)) result (O.taken out.old) (O.taken out.new)) }
    ensures devices { ReadsAndWrites (S.files shelf.old) (S.files shelf.new) (S.faults shelf.old) (S.faults shelf.new)
        (O.faults out.old) (O.faults out.new) result }
    ensures statuses { EndsWith (statuses_of_trace (shown_order order.entry)) result }
{
    let tables = load_tables(alloc, shelf, tables)?;
    report_in_order(rt, alloc, tables, packets, hops, order, shelf, out)
}

// Writes the report of tables that were read, in this order.
fn report_in_order<'a, R: Threads + Sync, S: Shelf, O: Sink>(
    rt: &R,
    alloc: Global,
    tables: Valid,
    packets: &'a [u8],
    hops: bool,
    order: Order<'a>,
    shelf: &mut S,
    out: &mut O,
) -> Result<(), Refusal<'a>>
    ensures meets { IfSome (S.files shelf.old) (λ files.
        MeetsOrder files tables hops packets.entry order.entry result (O.taken out.old) (O.taken out.new)) }
    ensures devices { ReadsAndWrites (S.files shelf.old) (S.files shelf.new) (S.faults shelf.old) (S.faults shelf.new)
        (O.faults out.old) (O.faults out.new) result }
    ensures statuses { EndsWith (statuses_of_trace (shown_order order.entry)) result }
{
    match order {
        Order::Plain => report_of(alloc, tables, packets, hops, shelf, out),
        Order::Schedule { file } => {
            report_scheduled(alloc, tables, packets, file, hops, shelf, out)
        }
        Order::Changes { file } => report_changed(alloc, tables, packets, file, hops, shelf, out),
        Order::InOrder { schedule } => {
            report_ordered(alloc, tables, packets, schedule, hops, shelf, out)
        }
        Order::Rounds { workers } => {
            report_by_rounds(rt, alloc, tables, packets, workers, hops, shelf, out)
        }
    }
}

// Writes the report of tables that were read, each packet on its own.
fn report_of<'a, S: Shelf, O: Sink>(
    alloc: Global,
    tables: Valid,
    packets: &'a [u8],
    hops: bool,
    shelf: &mut S,
    out: &mut O,
) -> Result<(), Refusal<'a>>
    ensures meets { IfSome (S.files shelf.old) (λ files.
        MeetsTrace tables hops packets.entry (file_of files packets.entry.now) result (O.taken out.old) (O.taken out.new)) }
    ensures devices { ReadsAndWrites (S.files shelf.old) (S.files shelf.new) (S.faults shelf.old) (S.faults shelf.new)
        (O.faults out.old) (O.faults out.new) result }
    ensures statuses { EndsWith (statuses_of_trace plain) result }
{
    match trace(alloc, shelf, packets, tables, hops, out) {
        Ok(()) => Ok(()),
        Err(fault) => Err(refusal_of_run(packets, fault)),
    }
}
