//! From a text to its placement.

ghost use Rattle.std.specs.Prelude.{◌≢◌, Err, IfErr, IfOk, MatchResult, Ok, length};
ghost use Rattle.snap_dep.specs.Ranks.{IsGrouping};
ghost use Rattle.snap_topology.specs.Form.{IsWellFormed};
ghost use Rattle.snap_placement.specs.Answer.{GivesSwitches, IsAnswer};
ghost use Rattle.snap_placement.specs.Order.{TellsLeast};

use crate::document::{shaped, table_of};
use crate::placement::{PlaceFault, Placement};
use crate::resolve::resolve;
use snap_core::program::Program;
use snap_dep::groups::Groups;
use snap_topology::topology::Topology;
use std::alloc::Global;

/// Reads a placement from a TOML document: a table from the names of the program's arrays to names of switches.
///
/// Each array has a place, and tied ones have the same. The groups are those of the program. The first fault, in the order of
/// `PlaceFault`, is answered; want of memory may be answered at any time.
pub fn read(
    alloc: Global,
    text: &[u8],
    program: &Program,
    groups: &Groups,
    topology: &Topology,
) -> Result<Placement, PlaceFault>
    requires groups { IsGrouping program.now.body (length program.now.arrays) groups.now }
    requires form { IsWellFormed topology.now }
    ensures answer { MatchResult result (λ p. IsAnswer program.now topology.now text.now (Ok p))
        (λ e. e ≢ PlaceFault.NoMemory → IsAnswer program.now topology.now text.now (Err e)) }
    ensures least { IfErr result (TellsLeast program.now.arrays text.now) }
    ensures switches { IfOk result (GivesSwitches program.now topology.now) }
{
    let _count = groups.count();
    let table = table_of(alloc, text)?;
    let entries = shaped(alloc, &table)?;
    let owners = resolve(
        alloc,
        entries.as_slice(),
        program.arrays.items(),
        groups,
        topology.switches.items(),
    )?;
    Ok(Placement::new(owners))
}
