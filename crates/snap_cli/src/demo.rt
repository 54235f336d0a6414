//! The command `demo`: a program that is compiled and run over packets, and what came of it.

ghost use Rattle.std.specs.Prelude.{◌≤◌};
ghost use Rattle.snap_io.specs.Files.{Files};
ghost use Rattle.snap_words.specs.Commands.{demo};
ghost use Rattle.snap_cli.specs.Causes.{OnlyWrites};
ghost use Rattle.snap_cli.specs.Demo.{MeetsSummary};
ghost use Rattle.snap_cli.specs.Deserved.{Meets};
ghost use Rattle.snap_cli.specs.Statuses.{EndsWith, statuses_of};

use crate::refusal::Refusal;
use snap_demo::summary::summary;
use snap_io::{Sink, write_whole};
use snap_words::count::Count;
use std::alloc::Global;

/// Writes the summary of the demonstration with so many switches. No file is read.
pub(crate) fn report<'a, O: Sink>(
    alloc: Global,
    switches: Count,
    out: &mut O,
) -> Result<(), Refusal<'a>>
    ensures meets { (files : Files) → Meets files (demo switches.value) result (O.taken out.old) (O.taken out.new) }
    ensures devices { OnlyWrites (O.faults out.old) (O.faults out.new) result }
    ensures statuses { EndsWith (statuses_of (demo switches.value)) result }
{
    write_summary(alloc, switches.value, out)
}

fn write_summary<'a, O: Sink>(alloc: Global, switches: u16, out: &mut O) -> Result<(), Refusal<'a>>
    requires some { 1 ≤ switches }
    requires few { switches ≤ 64 }
    ensures meets { MeetsSummary switches result (O.taken out.old) (O.taken out.new) }
    ensures devices { OnlyWrites (O.faults out.old) (O.faults out.new) result }
{
    match summary(alloc, switches) {
        Ok(text) => match write_whole(out, &text) {
            Ok(()) => Ok(()),
            Err(_) => Err(Refusal::Write),
        },
        Err(_) => Err(Refusal::NoMemory),
    }
}
