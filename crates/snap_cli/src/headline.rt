//! The headline: what is compiled and then traced is what one big switch does.

ghost use Rattle.std.specs.Prelude.{List, Option, ℕ};
ghost use Rattle.snap_words.specs.Commands.{in_order, plain, rounds, schedule};
ghost use Rattle.snap_cli.specs.Headline.{CallsTraceAsOneSwitch, SingleOwnerPlacementsTraceInForkOrder, SingleOwnerTablesTraceInForkOrder, RoundsTraceAlike, RoundsTraceAsOneSwitch, RoundsTraceAsPlain, SchedulesTraceAsOneSwitch, TracesAsOneSwitch, TracesByOrder, TurnsTraceAsOneSwitch, TurnsTraceAsPlain};
ghost use Rattle.snap_cli.specs.Upgrades.{ChangesTraceAsOneSwitch, UpgradesTraceAsOneSwitch};

use crate::laws::{
    answers_exactly, changes_exactly, compiles_exactly, rounds_exactly, schedules_exactly,
    spells_one_program, traces_exactly, turns_exactly,
};
use snap_core::laws::has_one_listing;
use snap_order::laws::{
    rounds_are_deterministic, runs_in_order_are_short, runs_in_order_report_one_switch,
};
use snap_refinement::change_laws::{
    said_changes_rise, turns_report_without_hops, upgraded_runs_are_short,
    upgraded_runs_report_one_switch,
};
use snap_refinement::laws::{
    orders_have_one_report, runs_are_short, sequential_runs_report_one_switch,
    single_owner_runs_report_in_fork_order,
};
use snap_runs::laws::{
    runs_report_without_hops, sequential_schedules_run_sequentially, spelled_packets_fit,
};

/// **A call of `compile` answered 0, and a call of `trace` with its output as the file of tables answered 0, in any order of
/// events and with hops or without. Then what the second wrote is the report of a run in that order. Without the hops it is what
/// one big switch does with the packets in the order in which they take effect, and no copy makes more than (groups + 1) times
/// the greatest distance hops, or where `compile` had `--on-demand` (2 groups + 1) times.** They take effect as they come in in
/// plain runs, with `--ordered`, by rounds, and by a schedule that is sequential; and by any schedule as they fork where the
/// tables are single-owner.
pub fn runs_trace_as_one_switch()
    ensures each { TracesByOrder plain }
    ensures schedules { (lines : List ℕ) → TracesByOrder (schedule lines) }
    ensures turns { (lines : Option (List ℕ)) → TracesByOrder (in_order lines) }
    ensures by_rounds { (workers : ℕ) → TracesByOrder (rounds workers) }
{
    answers_exactly();
    compiles_exactly();
    traces_exactly();
    schedules_exactly();
    turns_exactly();
    rounds_exactly();
    spelled_packets_fit();
    runs_report_without_hops();
    orders_have_one_report();
    sequential_schedules_run_sequentially();
    sequential_runs_report_one_switch();
    single_owner_runs_report_in_fork_order();
    runs_are_short();
    runs_in_order_report_one_switch();
    rounds_are_deterministic();
    runs_in_order_are_short();
}

/// **So `trace` without options writes what one big switch does:** for each packet of the packets file its block, with exactly
/// the packets that one big switch, from empty arrays over the packets so far, delivers at ports of the topology, in rising order,
/// and the number of the others; and then exactly the places of its arrays.
pub fn traces_as_one_switch()
    ensures { TracesAsOneSwitch }
{
    orders_have_one_report();
    runs_trace_as_one_switch();
}

/// **So it is by the words of both calls**, `compile PROGRAM TOPOLOGY PLACEMENT` with `--on-demand` in front of the names or
/// without, and `trace TABLES PACKETS`, where each name is a word that can name a file.
pub fn calls_trace_as_one_switch()
    ensures { CallsTraceAsOneSwitch }
{
    traces_as_one_switch();
}

/// **So does `trace --schedule`, where the schedule is sequential:** each packet is injected when no copy is in flight.
pub fn schedules_trace_as_one_switch()
    ensures { SchedulesTraceAsOneSwitch }
{
    orders_have_one_report();
    runs_trace_as_one_switch();
}

/// **And whatever packets overlap, where all arrays stand at one switch,** or on demand those that a packet can meet, it writes
/// what one big switch does with the packets in the order in which they fork, each block at its packet's number. With `--hops` the
/// hops of that run stand there too.
pub fn single_owner_schedules_trace_as_one_switch()
    ensures placed { SingleOwnerPlacementsTraceInForkOrder }
    ensures tables { SingleOwnerTablesTraceInForkOrder }
{
    answers_exactly();
    compiles_exactly();
    runs_trace_as_one_switch();
}

/// **So does `trace --ordered`, whatever packets overlap:** in the order of each schedule that can be done to an end, and
/// without a schedule. What it wrote is, byte for byte, what `trace` without `--ordered` writes, one packet after the other.
pub fn turns_trace_as_one_switch()
    ensures report { TurnsTraceAsOneSwitch }
    ensures as_plain { TurnsTraceAsPlain }
{
    answers_exactly();
    compiles_exactly();
    traces_exactly();
    turns_exactly();
    has_one_listing();
    spelled_packets_fit();
    sequential_runs_report_one_switch();
    runs_in_order_report_one_switch();
    orders_have_one_report();
    runs_trace_as_one_switch();
}

/// **So does `trace --ordered --workers`, for every number of workers:** what it wrote is, byte for byte, what `trace` without
/// `--ordered` writes, one packet after the other. Different numbers of workers write the same, with hops too, and whatever the
/// tables.
pub fn rounds_trace_as_one_switch()
    ensures report { RoundsTraceAsOneSwitch }
    ensures as_plain { RoundsTraceAsPlain }
    ensures alike { RoundsTraceAlike }
{
    answers_exactly();
    compiles_exactly();
    traces_exactly();
    rounds_exactly();
    has_one_listing();
    spelled_packets_fit();
    sequential_runs_report_one_switch();
    runs_in_order_report_one_switch();
    orders_have_one_report();
    runs_trace_as_one_switch();
}

/// **The first file of tables and those that the changes name are what calls of `compile` wrote, each for a program file, a
/// topology and a placement of its own, with `--on-demand` or without, and a call of `trace --changes` answered 0, with hops or
/// without. Then what it wrote is the report of a run with these changes. Without the hops it is what one big switch does whose
/// program changes:** each packet is evaluated by the program in force for it, from the arrays that the packets before left, at the
/// ports of the tables that are in force. And no copy makes more than (groups + 1) times the greatest distance hops, or under tables of version 1 (2 groups + 1)
/// times.
pub fn upgrades_trace_as_one_switch()
    ensures { UpgradesTraceAsOneSwitch }
{
    answers_exactly();
    compiles_exactly();
    changes_exactly();
    spelled_packets_fit();
    said_changes_rise();
    turns_report_without_hops();
    upgraded_runs_report_one_switch();
    upgraded_runs_are_short();
}

/// **So it is with `trace --changes`, where the first file of tables and those that the changes name are what calls of
/// `compile` wrote for one and the same program file,** each for its own topology and placement: what it wrote is what one
/// big switch does over all packets, each at the ports of the tables that are in force when it comes in.
pub fn changes_trace_as_one_switch()
    ensures { ChangesTraceAsOneSwitch }
{
    spells_one_program();
    upgrades_trace_as_one_switch();
}
