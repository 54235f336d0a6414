//! Laws of the ordered network.

ghost use Rattle.snap_order.specs.Hands.{SharesMakeARound};
ghost use Rattle.snap_order.specs.Laws.{FaithfulKeepsOrder};
ghost use Rattle.snap_order.specs.OneRounds.{RoundReportsAreOne, RoundsRunToEnds};
ghost use Rattle.snap_order.specs.OneRun.{PlainBlocksAreOne, PlainReportsAreOne, StepsAreOne};
ghost use Rattle.snap_order.specs.OneSchedule.{RefusedLinesAreOne, RefusedLinesAreTold, ReportedOrRefused, ScheduleReportsAreOne};
ghost use Rattle.snap_order.specs.OneSwitch.{PlainRunsInOrderReportOneSwitch, RunsByRoundsReportOneSwitch, RunsInOrderReportOneSwitch, SchedulesInOrderReportOneSwitch};
ghost use Rattle.snap_order.specs.PlainTurns.{PlainRunsTakeTurns};
ghost use Rattle.snap_order.specs.Progress.{RunsInOrderCanEnd, SomeCopyGoesOn, StepsInOrderCanBeMade};
ghost use Rattle.snap_order.specs.ShortTurns.{PlainRunsInOrderAreShort, RunsInOrderAreShort};

/// **Overlap in order.** Over faithful tables of version 2, whatever the order of events: each array is as one big switch leaves it after
/// the packets that its rank has handled; a run to an end agrees with one big switch over the packets in the order of their
/// injection; a copy makes at most (groups + 1) times the diameter hops; a step waits exactly where the copy is before a
/// visit of a rank that has handled fewer packets than came before it; and the copy that hasn't forked and has the least
/// number doesn't wait.
pub fn faithful_is_serializable()
    ensures { FaithfulKeepsOrder }
{}

/// **Each run in order of faithful tables of version 2 to an end reports exactly what one big switch does** over the packets in
/// the order of their injection, whatever the order of the events. The plain run in order is such a run, and so are that of a
/// schedule that is done to its end and that by rounds.
pub fn runs_in_order_report_one_switch()
    ensures all { RunsInOrderReportOneSwitch }
    ensures plain { PlainRunsInOrderReportOneSwitch }
    ensures schedules { SchedulesInOrderReportOneSwitch }
    ensures rounds { RunsByRoundsReportOneSwitch }
{}

/// **No packet is stuck.** Over valid tables of version 2, whatever was injected and in whatever order: a step of each copy in
/// flight can be made, which may be that it waits; where copies are in flight, one of them can make a step in which it doesn't
/// wait; and steps alone lead to a state with none in flight.
pub fn steps_in_order_can_be_made()
    ensures each { StepsInOrderCanBeMade }
    ensures some { SomeCopyGoesOn }
    ensures ends { RunsInOrderCanEnd }
{}

/// **In a plain run nobody waits**: over valid tables of version 2 the plain run of the network is a run in order, step by step,
/// with the same stores and copies, and the same happens.
pub fn plain_runs_take_turns()
    ensures { PlainRunsTakeTurns }
{}

/// Where tables are in form, an event leads to one state, and the same happens. So packets have one report in the plain run
/// in order, and the same blocks.
pub fn plain_reports_are_one()
    ensures steps { StepsAreOne }
    ensures reports { PlainReportsAreOne }
    ensures blocks { PlainBlocksAreOne }
{}

/// Where tables are in form, a schedule's lines tell one report of a run in order, or are refused at one line, and not both; and
/// a call that writes their report tells of that line, and of no other.
pub fn schedules_are_deterministic()
    ensures reports { ScheduleReportsAreOne }
    ensures lines { RefusedLinesAreOne }
    ensures apart { ReportedOrRefused }
    ensures told { RefusedLinesAreTold }
{}

/// **Each copy of a run in order makes at most (groups + 1) times the diameter hops**, whatever the order of the events.
pub fn runs_in_order_are_short()
    ensures all { RunsInOrderAreShort }
    ensures plain { PlainRunsInOrderAreShort }
{}

/// Where tables are in form, packets have one report by rounds. The run by rounds is a run in order of these packets to an
/// end.
pub fn rounds_are_deterministic()
    ensures reports { RoundReportsAreOne }
    ensures runs { RoundsRunToEnds }
{}

/// Steps at the switches of different workers commute: what each worker makes of the copies at its own switches, put in the
/// order of the copies, is a round.
pub fn shares_commute()
    ensures { SharesMakeARound }
{}
