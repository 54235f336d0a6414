//! The topology of a file, with its routes.

ghost use Rattle.std.specs.Prelude.{◌∷◌, [], IfErr, IfOk, IfSome};
ghost use Rattle.snap_io.specs.Files.{file_of};
ghost use Rattle.snap_topology.specs.Form.{IsWellFormed};
ghost use Rattle.snap_topology.specs.Tables.{AreRoutes};
ghost use Rattle.snap_cli.specs.Causes.{OnlyReads};
ghost use Rattle.snap_cli.specs.NetworkSteps.{GivesNetwork};
ghost use Rattle.snap_cli.specs.Statuses.{RefusesWith};

use crate::refusal::Refusal;
use crate::routes::refusal_of_routes;
use crate::topology::load_topology;
use snap_io::Shelf;
use snap_topology::calls::routes;
use snap_topology::table::Routes;
use snap_topology::topology::Topology;
use std::alloc::Global;

/// A topology and its routes.
#[derive(Drop)]
pub(crate) struct Network {
    pub(crate) topology: Topology,
    pub(crate) routes: Routes,
}

/// Reads the topology of a file, and its routes.
pub(crate) fn load_network<'a, S: Shelf>(
    alloc: Global,
    shelf: &mut S,
    name: &'a [u8],
) -> Result<Network, Refusal<'a>>
    ensures gives { IfSome (S.files shelf.old) (λ files. GivesNetwork name.entry.now (file_of files name.entry.now) result) }
    ensures topology { IfOk result (λ n. IsWellFormed n.topology) }
    ensures routes { IfOk result (λ n. AreRoutes n.topology n.routes) }
    ensures devices { OnlyReads (S.files shelf.old) (S.files shelf.new) (S.faults shelf.old) (S.faults shelf.new) result }
    ensures statuses { IfErr result (RefusesWith (2 ∷ 6 ∷ 7 ∷ 8 ∷ [])) }
{
    let topology = load_topology(alloc, shelf, name)?;
    match routes(alloc, &topology) {
        Ok(routes) => Ok(Network { topology, routes }),
        Err(fault) => Err(refusal_of_routes(topology.switches, fault)),
    }
}
