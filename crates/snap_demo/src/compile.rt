//! The tables of the program.

ghost use Rattle.std.specs.Prelude.{◌≡◌, ◌≤◌, IfOk, length};
ghost use Rattle.snap_core.specs.Laws.{PutsSmall};
ghost use Rattle.snap_core.specs.Programs.{IsWellFormed};
ghost use Rattle.snap_dep.specs.Dependencies.{Tied};
ghost use Rattle.snap_build.specs.Whole.{IsWhole};
ghost use Rattle.snap_faithful.specs.Faithful.{Faithful};
ghost use Rattle.snap_demo.specs.Row.{stated_places, stated_topology};
ghost use Rattle.snap_demo.specs.Serial.{IsSerial};
ghost use Rattle.snap_demo.specs.Stated.{IsStated};

use crate::network::{placement, row_routes, topology};
use crate::serial::serial_never_races;
use snap_build::building::{BuildFault, Built, build};
use snap_core::NoMemory;
use snap_core::program::Program;
use snap_dep::calls::groups;
use snap_dep::groups::Groups;
use snap_make::tables::tables;
use snap_rows::valid::Valid;
use std::alloc::Global;

/// The tables of the program for so many switches in a row.
pub(crate) fn compile(alloc: Global, program: &Program, switches: u16) -> Result<Valid, NoMemory>
    requires some { 1 ≤ switches }
    requires few { switches ≤ 64 }
    requires stated { IsStated switches program.now }
    requires form { IsWellFormed program.now }
    requires serial { IsSerial program.now.body }
    requires apart { Tied program.now.body 0 1 → ⊥ }
    ensures { IfOk result (Faithful program.now (stated_topology switches) (stated_places switches)) }
{
    let topology = topology(alloc, switches)?;
    let routes = row_routes(alloc, &topology, switches)?;
    let placement = placement(alloc, switches)?;
    let groups = groups(alloc, program)?;
    let built = diagram(alloc, program, &groups)?;
    tables(
        alloc, program, built, &groups, &topology, &placement, &routes,
    )
}

// The diagram of a program that never races.
fn diagram(alloc: Global, program: &Program, groups: &Groups) -> Result<Built, NoMemory>
    requires form { IsWellFormed program.now }
    requires serial { IsSerial program.now.body }
    requires groups { length groups.now.ranks ≡ length program.now.arrays }
    ensures whole { IfOk result (λ b. IsWhole program.now groups.now b.nodes b.root) }
    ensures small { IfOk result (λ b. PutsSmall program.now.body) }
{
    serial_never_races();
    match build(alloc, program, groups) {
        Ok(built) => Ok(built),
        Err(BuildFault::NoMemory) => Err(NoMemory),
        Err(BuildFault::Race { .. }) => unreachable!(),
    }
}
