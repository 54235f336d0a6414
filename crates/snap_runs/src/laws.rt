//! Laws of runs over packets, and of their reports.

ghost use Rattle.snap_runs.specs.Laws.{SequentialSchedulesRunSequentially, PlainBlocksAreOne, PlainReportsAreOne, PlainRunsAreOne, RefusedLinesAreOne, RefusedLinesAreTold, ReportedOrRefused, RunBlocksAreOne, RunReportsAreOne, RunsReportWithoutHops, ScheduleReportsAreOne, ScheduledRunsAreOne, SchedulesKeepOrder, SpelledForIsSpelled, SpelledPacketsFit};

/// A run has one report, and its happenings have the same blocks.
pub fn run_reports_are_one()
    ensures reports { RunReportsAreOne }
    ensures blocks { RunBlocksAreOne }
{}

/// A run with a report has one without hops, whichever way the frames of hops are told.
pub fn runs_report_without_hops()
    ensures { RunsReportWithoutHops }
{}

/// The plain run of packets through tables in form is one, and so it has one report and the same blocks.
pub fn plain_reports_are_one()
    ensures runs { PlainRunsAreOne }
    ensures reports { PlainReportsAreOne }
    ensures blocks { PlainBlocksAreOne }
{}

/// Where tables are in form, the run that a schedule's lines tell is one. So lines tell one report, or are refused at one
/// line, and not both; and a call that writes their report tells of that line, and of no other.
pub fn schedules_are_deterministic()
    ensures runs { ScheduledRunsAreOne }
    ensures reports { ScheduleReportsAreOne }
    ensures lines { RefusedLinesAreOne }
    ensures apart { ReportedOrRefused }
    ensures told { RefusedLinesAreTold }
{}

/// A schedule that injects each packet with no copy in flight tells a sequential run; and packets are injected in the order of
/// their file.
pub fn sequential_schedules_run_sequentially()
    ensures sequential { SequentialSchedulesRunSequentially }
    ensures order { SchedulesKeepOrder }
{}

/// Each packet that a file spells has the tables' components, each of 64 bits; and a file that is read to its end spells the
/// packets of the fields.
pub fn spelled_packets_fit()
    ensures fit { SpelledPacketsFit }
    ensures whole { SpelledForIsSpelled }
{}
