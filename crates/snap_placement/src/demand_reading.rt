//! From a text to its demand.

ghost use Rattle.std.specs.Prelude.{IfErr, IfOk, length};
ghost use Rattle.snap_dep.specs.Ranks.{IsGrouping};
ghost use Rattle.snap_topology.specs.Form.{IsWellFormed};
ghost use Rattle.snap_placement.specs.DemandAnswer.{IsAnswer, TellsLeast, Answers};
ghost use Rattle.snap_placement.specs.Placements.{IsDemand};

use crate::demand::{Demand, DemandFault};
use crate::demand_document::{listing_of, table_of};
use crate::demand_resolve::resolve;
use snap_core::program::Program;
use snap_dep::groups::Groups;
use snap_topology::topology::Topology;
use std::alloc::Global;

/// Reads a demand from a TOML document with the keys `demand` and `allowed`.
///
/// `demand` is an array of arrays of two ports, from 1 to 4294967295, and a weight from 0 to 4294967295. `allowed` is a table
/// from names of arrays to arrays of switch names; an array without an entry may stand anywhere, and a group where all its arrays
/// may. The groups are those of the program. The first fault, in the order of `DemandFault`, is answered; want of memory may be
/// answered at any time.
pub fn read_demand(
    alloc: Global,
    text: &[u8],
    program: &Program,
    groups: &Groups,
    topology: &Topology,
) -> Result<Demand, DemandFault>
    requires groups { IsGrouping program.now.body (length program.now.arrays) groups.now }
    requires form { IsWellFormed topology.now }
    ensures answer { Answers (IsAnswer program.now groups.now topology.now text.now) result }
    ensures least { IfErr result (TellsLeast program.now.arrays text.now) }
    ensures demand { IfOk result (IsDemand groups.now topology.now) }
{
    let table = table_of(alloc, text)?;
    let listing = listing_of(alloc, &table)?;
    resolve(
        alloc,
        listing,
        program.arrays.items(),
        groups,
        topology.switches.items(),
        topology.ports.items(),
    )
}
