//! The diagram of a program that was read.

ghost use Rattle.std.specs.Prelude.{IfErr, IfOk, length};
ghost use Rattle.snap_core.specs.Cells.{arrays_of};
ghost use Rattle.snap_core.specs.Laws.{PutsSmall};
ghost use Rattle.snap_core.specs.Programs.{IsWellFormed};
ghost use Rattle.snap_dep.specs.Ranks.{IsGrouping};
ghost use Rattle.snap_build.specs.Whole.{IsRaceOf, IsWhole};
ghost use Rattle.snap_cli.specs.Check.{HasWhole, IsRaceTold};

use crate::pair::pair_text;
use crate::refusal::Refusal;
use snap_build::building::{BuildFault, Built, build};
use snap_core::packet::Packet;
use snap_core::program::Program;
use snap_core::store::Store;
use snap_dep::calls::groups;
use snap_dep::groups::Groups;
use std::alloc::Global;

/// The diagram of a program, or the refusal that tells a store and a packet on which its parts race. Its text is made
/// here, before the status is settled.
pub(crate) fn diagram<'a>(alloc: Global, program: &Program) -> Result<Built, Refusal<'a>>
    requires { IsWellFormed program.now }
    ensures whole { IfOk result (λ b. HasWhole program.now b.nodes b.root) }
    ensures race { IfErr result (IsRaceTold program.now) }
{
    let groups = groups(alloc, program)?;
    diagram_of(alloc, program, &groups)
}

/// The same with the program's groups.
pub(crate) fn diagram_of<'a>(
    alloc: Global,
    program: &Program,
    groups: &Groups,
) -> Result<Built, Refusal<'a>>
    requires form { IsWellFormed program.now }
    requires groups { IsGrouping program.now.body (length program.now.arrays) groups.now }
    ensures whole { IfOk result (λ b. IsWhole program.now groups.now b.nodes b.root) }
    ensures small { IfOk result (λ b. PutsSmall program.now.body) }
    ensures race { IfErr result (IsRaceTold program.now) }
{
    match build(alloc, program, groups) {
        Ok(built) => Ok(built),
        Err(BuildFault::Race { store, packet }) => Err(race(alloc, program, &store, &packet)),
        Err(BuildFault::NoMemory) => Err(Refusal::NoMemory),
    }
}

// The refusal of a program that races on a store and a packet.
fn race<'a>(alloc: Global, program: &Program, store: &Store, packet: &Packet) -> Refusal<'a>
    requires { IsRaceOf program.now (arrays_of store.now) packet.now }
    ensures { IsRaceTold program.now result }
{
    match pair_text(alloc, b"snapc: race\n", program, store, packet) {
        Ok(text) => Refusal::Race { text },
        Err(_) => Refusal::NoMemory,
    }
}
