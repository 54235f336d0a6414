//! The command `check`: whether the parts of a program race on some store and packet.

ghost use Rattle.std.specs.Prelude.{IfSome};
ghost use Rattle.snap_core.specs.Programs.{IsWellFormed};
ghost use Rattle.snap_words.specs.Commands.{check};
ghost use Rattle.snap_cli.specs.Causes.{OnlyWrites, ReadsAndWrites};
ghost use Rattle.snap_cli.specs.Check.{Judges, MeetsCheck};
ghost use Rattle.snap_cli.specs.Deserved.{Meets};
ghost use Rattle.snap_cli.specs.Statuses.{EndsWith, statuses_of};

use crate::diagram::diagram;
use crate::program::load_program;
use crate::refusal::Refusal;
use snap_build::laws::whole_programs_never_race;
use snap_core::program::Program;
use snap_io::{Shelf, Sink, write_whole};
use std::alloc::Global;

/// Writes `ok` where no store and packet make a program's parts race; else the refusal tells such a store and packet.
pub(crate) fn report<'a, S: Shelf, O: Sink>(
    alloc: Global,
    program: &'a [u8],
    shelf: &mut S,
    out: &mut O,
) -> Result<(), Refusal<'a>>
    ensures meets { IfSome (S.files shelf.old) (λ files.
        Meets files (check program.entry.now) result (O.taken out.old) (O.taken out.new)) }
    ensures devices { ReadsAndWrites (S.files shelf.old) (S.files shelf.new) (S.faults shelf.old) (S.faults shelf.new)
        (O.faults out.old) (O.faults out.new) result }
    ensures statuses { EndsWith (statuses_of (check program.entry.now)) result }
{
    let program = load_program(alloc, shelf, program)?;
    answer(alloc, &program, out)
}

// Writes the answer of a program that was read.
fn answer<'a, O: Sink>(alloc: Global, program: &Program, out: &mut O) -> Result<(), Refusal<'a>>
    requires { IsWellFormed program.now }
    ensures meets { MeetsCheck program.now result (O.taken out.old) (O.taken out.new) }
    ensures devices { OnlyWrites (O.faults out.old) (O.faults out.new) result }
{
    judge(alloc, program)?;
    match write_whole(out, b"ok\n") {
        Ok(()) => Ok(()),
        Err(_) => Err(Refusal::Write),
    }
}

// Whether a program's parts race.
fn judge<'a>(alloc: Global, program: &Program) -> Result<(), Refusal<'a>>
    requires { IsWellFormed program.now }
    ensures { Judges program.now result }
{
    whole_programs_never_race();
    let _ = diagram(alloc, program)?;
    Ok(())
}
