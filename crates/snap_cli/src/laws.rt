//! Laws of what words and files deserve, each the contract of a call that does nothing but name the laws below it.

ghost use Rattle.snap_cli.specs.Answering.{ChangesAnswer, TracesAnswer};
ghost use Rattle.snap_cli.specs.Laws.{AnswersExactly, ChangesExactly, ChecksExactly, CompilesExactly, DemosExactly, DeservesOneEnding, DeservesOneText, EqualsExactly, PlacementsAreSpelled, RoundsExactly, SchedulesExactly, SourcesAreSpelled, SpellsOneProgram, TracesExactly, TurnsExactly};

use crate::deps::has_one_text;
use snap_core::laws::has_one_listing;
use snap_dep::laws::{has_one_rank, tied_is_equivalence};
use snap_lex::laws::lexing_is_deterministic;
use snap_order::laws as turns;
use snap_parse::laws::parsing_is_deterministic;
use snap_placement::laws::printed_is_read;
use snap_refinement::change_laws::changed_reports_are_one;
use snap_runs::laws::{plain_reports_are_one, schedules_are_deterministic};
use snap_tables::laws::reading_is_deterministic;

/// A text spells one program at most, or is refused for one reason at one place, and not both.
pub fn spells_one_program()
    ensures { SpellsOneProgram }
{
    lexing_is_deterministic();
    parsing_is_deterministic();
}

/// A text is read as a program, and as a topology, exactly where it spells them, as the headline says it.
pub fn sources_are_spelled()
    ensures { SourcesAreSpelled }
{}

/// A command deserves one ending at most on its files, but that any store and packet on which a program races, or two
/// differ, may be told, and one text, but that `compile` may write each faithful tables.
pub fn answers_are_deterministic()
    ensures ending { DeservesOneEnding }
    ensures text { DeservesOneText }
{
    spells_one_program();
    has_one_listing();
    has_one_text();
    tied_is_equivalence();
    has_one_rank();
    reading_is_deterministic();
    plain_reports_are_one();
    schedules_are_deterministic();
    changed_reports_are_one();
    turns::plain_reports_are_one();
    turns::schedules_are_deterministic();
    turns::rounds_are_deterministic();
}

/// Where no device failed and memory was there, a call's status, output and message are those of the one ending that
/// its words and files deserve.
pub fn answers_exactly()
    ensures { AnswersExactly }
{
    answers_are_deterministic();
}

/// Where no device failed and memory was there, `check` of a program answers 0 just where evaluation is undefined on no
/// store and packet, and 10 just where it is on some.
pub fn checks_exactly()
    ensures { ChecksExactly }
{
    spells_one_program();
    answers_exactly();
}

/// Where no device failed and memory was there, `equal` of two programs that are declared alike and never race answers 0
/// just where they mean the same, and 18 just where they don't on some store and packet.
pub fn equals_exactly()
    ensures { EqualsExactly }
{
    spells_one_program();
    answers_exactly();
}

/// Where no device failed and memory was there, `compile` of a program, a topology with routes and a placement answers 0 just
/// where the program never races, with the text of faithful tables written, of version 2 or with `--on-demand` of version 1, and
/// 10 just where it races, with nothing written.
pub fn compiles_exactly()
    ensures { CompilesExactly }
{
    spells_one_program();
    answers_exactly();
}

/// Where no device failed and memory was there, `trace` of tables that a file spells answers 0 just where all lines of the
/// packets file are in form, with the report of the plain run of its packets written. Else it answers what the first line
/// that isn't is refused with, with the blocks of the packets before it written.
pub fn traces_exactly()
    ensures { TracesExactly }
{
    reading_is_deterministic();
    answers_exactly();
}

/// Where no device failed and memory was there, `trace` of tables that a file spells, in the order of a schedule, answers 0
/// just where all lines of the packets file are in form and all lines of the schedule can be done to an end, with the report
/// of exactly their events written. Else nothing is written, and it answers 13 where a line of the schedule is the first
/// that can't be done, or the schedule ends too early.
pub fn schedules_exactly()
    ensures { SchedulesExactly }
{
    reading_is_deterministic();
    answers_exactly();
}

/// Where no device failed and memory was there, `trace` of tables that a file spells, with the changes of a file, answers 0
/// just where the changes are in form, each names valid tables of the shape of the first, and all lines of the packets
/// file are in form, and has then written the report of the run with these changes. Where the changes or their tables
/// are refused nothing has gone out; at a line of packets that isn't in form the blocks of the packets before it have.
pub fn changes_exactly()
    ensures { ChangesExactly }
{
    reading_is_deterministic();
    answers_exactly();
}

/// Where no device failed and memory was there, `trace --ordered` of tables that a file spells answers 16 just where they are
/// of version 1, with nothing written; and else 0 just where all lines of the packets file are in form and all lines of the
/// schedule, if there is one, can be done to an end, with the report of that run in order written.
pub fn turns_exactly()
    ensures { TurnsExactly }
{
    reading_is_deterministic();
    answers_exactly();
}

/// Where no device failed and memory was there, `trace --ordered --workers` of tables that a file spells answers 16 just where
/// they are of version 1, and else 0 just where all lines of the packets file are in form, with the report of the run by
/// rounds written. Where it answers something else nothing is written. So it is for every number of workers.
pub fn rounds_exactly()
    ensures { RoundsExactly }
{
    reading_is_deterministic();
    answers_exactly();
}

/// **Where `compile` answered 0, `trace` of its output answers 0 too, or 14 where memory is short, unless a device failed,** if
/// all lines of the packets file are in form and each packet names a port of the topology: one packet after another, in the
/// order of each schedule that can be done to an end, and where `compile` had no `--on-demand` with `--ordered` and by rounds too. With
/// `--changes` so it is, with `--on-demand` or without, where the changes file is in form, each file of tables that it names is
/// what `compile` wrote for a program declared like the first, and each packet names a port of the topology that is in force for it.
pub fn traces_answer()
    ensures orders { TracesAnswer }
    ensures changes { ChangesAnswer }
{
    spells_one_program();
    answers_exactly();
    compiles_exactly();
}

/// Where no device failed and memory was there, `demo` answers 0 with the summary written.
pub fn demos_exactly()
    ensures { DemosExactly }
{
    answers_exactly();
}

/// Where what `place` writes for a program, a topology and a demand stands in a file beside the same program and topology,
/// `compile` reads it as that placement, if it is no longer than a placement's file may be.
pub fn placements_are_spelled()
    ensures { PlacementsAreSpelled }
{
    printed_is_read();
}
