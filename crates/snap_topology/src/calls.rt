//! The routes of a topology.

ghost use Rattle.std.specs.Prelude.{IfErr, IfOk};
ghost use Rattle.snap_topology.specs.Form.{IsWellFormed};
ghost use Rattle.snap_topology.specs.Faults.{IsCause};
ghost use Rattle.snap_topology.specs.Tables.{AreRoutes, IsUnreachable};

use crate::graph::graph;
use crate::hops::diameter_of;
use crate::rows::all_routes;
use crate::table::{RouteFault, Routes};
use crate::topology::Topology;
use std::alloc::Global;

/// The distances, next hops and diameter of a topology in form, as `crate::read` gives it.
///
/// `Unreachable` comes exactly where no walk joins two switches, with the least such pair, and `NoMemory` for want of
/// memory. Links are used both ways.
pub fn routes(alloc: Global, topology: &Topology) -> Result<Routes, RouteFault>
    requires { IsWellFormed topology.now }
    ensures routes { IfOk result (AreRoutes topology.now) }
    ensures unreachable { IfErr result (IsCause (IsUnreachable topology.now)) }
{
    let count = topology.switches.items().len();
    let graph = graph(alloc, topology.links.items(), count as u16)?;
    let rows = all_routes(alloc, graph.as_slice())?;
    let diameter = diameter_of(rows.as_slice());
    Ok(Routes::new(rows, diameter))
}
