//! Laws of runs of faithful tables.

ghost use Rattle.snap_refinement.specs.InOrder.{InOrderItIsTheReport, SingleOwnerRunsReportInForkOrder, OrdersHaveOneReport, TheReportIsInOrder};
ghost use Rattle.snap_refinement.specs.Laws.{SequentialRunsReportOneSwitch, PlainRunsAreShort, PlainRunsReportOneSwitch, RunsAreShort};
ghost use Rattle.snap_refinement.specs.SwitchRuns.{OneSwitchRuns};

use snap_core::laws::has_one_listing;

/// **Each run of faithful tables to an end, in which each packet comes in when no other is on its way, reports exactly
/// what one big switch does.** The plain run is such a run.
pub fn sequential_runs_report_one_switch()
    ensures sequential { SequentialRunsReportOneSwitch }
    ensures plain { PlainRunsReportOneSwitch }
{}

/// **Where all arrays stand at one switch, each run of faithful tables to an end reports exactly what one big switch does over
/// the packets in the order in which they fork,** whatever packets overlap.
pub fn single_owner_runs_report_in_fork_order()
    ensures { SingleOwnerRunsReportInForkOrder }
{}

/// In each order of the packets one big switch has one report, and in the order of their numbers that is its report over the
/// packets as they stand.
pub fn orders_have_one_report()
    ensures one { OrdersHaveOneReport }
    ensures in_order { InOrderItIsTheReport }
    ensures is_in_order { TheReportIsInOrder }
{
    has_one_listing();
}

/// **Each copy makes few hops, whatever the order of the events**: at most (groups + 1) times the diameter over tables of
/// version 2, and (2 groups + 1) times over those of version 1.
pub fn runs_are_short()
    ensures all { RunsAreShort }
    ensures plain { PlainRunsAreShort }
{}

/// One big switch is a system of transitions like the network, whose states are arrays alone: what it makes of packets is
/// where its run leads, and what that tells.
pub fn one_big_switch_runs()
    ensures { OneSwitchRuns }
{}
