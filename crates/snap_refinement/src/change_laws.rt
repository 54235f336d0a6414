//! Laws of runs with changes.

ghost use Rattle.snap_refinement.specs.InForce.{TurnsAreInForce};
ghost use Rattle.snap_refinement.specs.ChangeLaws.{ChangedBlocksAreOne, ChangedReportsAreOne, ChangedRunsAreShort, ChangedRunsReportOneSwitch, OneProgramReportsOneSwitch, OneSwitchIsReported, PieceIsOneSwitch, PiecesFollow, SaidChangesRise, TurnsReportWithoutHops, UpgradedRunsAreShort, UpgradedRunsReportOneSwitch};

/// The changes that a changes file says come behind rising numbers of packets.
pub fn said_changes_rise()
    ensures { SaidChangesRise }
{}

/// In a run with changes packets have one report, and the same blocks.
pub fn changed_reports_are_one()
    ensures reports { ChangedReportsAreOne }
    ensures blocks { ChangedBlocksAreOne }
{}

/// The turns of a run with a report have one without hops.
pub fn turns_report_without_hops()
    ensures { TurnsReportWithoutHops }
{}

/// Where all tables are faithful to one program, each for a topology and a placement of its own, each run with changes
/// reports exactly what one big switch does over all packets, at the ports that are in force when a packet comes in.
pub fn changed_runs_report_one_switch()
    ensures { ChangedRunsReportOneSwitch }
{}

/// No copy makes more hops than (groups + 1) times the diameter of the topology that is in force, where the tables in force are
/// of version 2, and (2 groups + 1) times it where they are of version 1. Changes may mix both.
pub fn changed_runs_are_short()
    ensures { ChangedRunsAreShort }
{}

/// While one program is in force one big switch whose program changes is one big switch of that program, and packets behind
/// others begin with the arrays that those left.
pub fn pieces_are_one_switch()
    ensures piece { PieceIsOneSwitch }
    ensures follow { PiecesFollow }
    ensures report { OneProgramReportsOneSwitch }
    ensures reported { OneSwitchIsReported }
{}

/// Where the tables in force are always faithful to the program in force, each for a topology and a placement of its own, and
/// all have the same fields and names of arrays, each run with changes reports exactly what one big switch does whose program
/// changes, at the ports that are in force when a packet comes in.
pub fn upgraded_runs_report_one_switch()
    ensures { UpgradedRunsReportOneSwitch }
{}

/// No copy makes more hops than (groups + 1) times the diameter of the topology that is in force, where the tables in force are
/// of version 2, and (2 groups + 1) times it where they are of version 1, by the groups of the program that is in force.
pub fn upgraded_runs_are_short()
    ensures { UpgradedRunsAreShort }
{}

/// Each packet of a run with changes goes through the tables that are in force for its number.
pub fn turns_are_in_force()
    ensures { TurnsAreInForce }
{}
