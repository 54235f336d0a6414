//! The command `obs`: the report of one big switch.

ghost use Rattle.std.specs.Prelude.{◌≡◌, ◌∷◌, [], IfSome};
ghost use Rattle.snap_words.specs.Commands.{obs};
ghost use Rattle.snap_core.specs.Programs.{IsBounded};
ghost use Rattle.snap_io.specs.Files.{file_of};
ghost use Rattle.snap_cli.specs.Causes.{ReadsAndWrites};
ghost use Rattle.snap_cli.specs.Deserved.{Meets};
ghost use Rattle.snap_cli.specs.Obs.{MeetsRun};
ghost use Rattle.snap_cli.specs.Steps.{refusal_of_run};
ghost use Rattle.snap_cli.specs.Statuses.{EndsWith, statuses_of};

use crate::program::load_program;
use crate::refusal::Refusal;
use snap_core::program::Program;
use snap_io::{Shelf, Sink};
use snap_report::TraceFault;
use snap_report::switch::one_switch;
use std::alloc::Global;

/// Writes the report of one big switch: the program over the packets file.
pub(crate) fn report<'a, S: Shelf, O: Sink>(
    alloc: Global,
    program: &'a [u8],
    packets: &'a [u8],
    shelf: &mut S,
    out: &mut O,
) -> Result<(), Refusal<'a>>
    ensures meets { IfSome (S.files shelf.old) (λ files.
        Meets files (obs program.entry.now packets.entry.now) result (O.taken out.old) (O.taken out.new)) }
    ensures devices { ReadsAndWrites (S.files shelf.old) (S.files shelf.new) (S.faults shelf.old) (S.faults shelf.new)
        (O.faults out.old) (O.faults out.new) result }
    ensures statuses { EndsWith (statuses_of (obs program.entry.now packets.entry.now)) result }
{
    let program = load_program(alloc, shelf, program)?;
    report_of(alloc, &program, packets, shelf, out)
}

// Writes the report of a program that was read.
fn report_of<'a, S: Shelf, O: Sink>(
    alloc: Global,
    program: &Program,
    packets: &'a [u8],
    shelf: &mut S,
    out: &mut O,
) -> Result<(), Refusal<'a>>
    requires { IsBounded program.now }
    ensures meets { IfSome (S.files shelf.old) (λ files.
        MeetsRun program.now packets.entry.now (file_of files packets.entry.now) result (O.taken out.old) (O.taken out.new)) }
    ensures devices { ReadsAndWrites (S.files shelf.old) (S.files shelf.new) (S.faults shelf.old) (S.faults shelf.new)
        (O.faults out.old) (O.faults out.new) result }
    ensures statuses { EndsWith (2 ∷ 6 ∷ 12 ∷ 15 ∷ []) result }
{
    match one_switch(alloc, shelf, packets, program, out) {
        Ok(()) => Ok(()),
        Err(fault) => Err(refusal_of_run(packets, fault)),
    }
}

/// The refusal of a run over the packets file with this name.
pub(crate) fn refusal_of_run(packets: &[u8], fault: TraceFault) -> Refusal<'_>
    ensures { result ≡ refusal_of_run packets.entry fault }
{
    match fault {
        TraceFault::Read => Refusal::Read { name: packets },
        TraceFault::Write => Refusal::Write,
        TraceFault::Limit { which, count } => Refusal::Limit { which, count },
        TraceFault::Packets { line } => Refusal::Packets { line },
        TraceFault::Undefined { packet } => Refusal::Undefined { packet },
        TraceFault::NoMemory => Refusal::NoMemory,
    }
}
