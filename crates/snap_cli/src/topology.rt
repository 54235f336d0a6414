//! The topology of a file.

ghost use Rattle.std.specs.Prelude.{◌≡◌, ◌∷◌, [], IfErr, IfOk, IfSome};
ghost use Rattle.snap_io.specs.Files.{file_of};
ghost use Rattle.snap_topology.specs.Form.{IsWellFormed};
ghost use Rattle.snap_cli.specs.Causes.{OnlyReads};
ghost use Rattle.snap_cli.specs.RoutesSteps.{GivesTopology, refusal_of_topology};
ghost use Rattle.snap_cli.specs.Statuses.{RefusesWith};

use crate::refusal::{Refusal, TopologyFault};
use crate::text::load_text;
use snap_io::Shelf;
use snap_topology::topology::{TopoFault, Topology};
use std::alloc::Global;

/// The most bytes of a topology's file.
pub const MOST_TOPOLOGY: u64 = 1_048_576;

/// Reads a topology's file, and the topology that it spells.
pub(crate) fn load_topology<'a, S: Shelf>(
    alloc: Global,
    shelf: &mut S,
    name: &'a [u8],
) -> Result<Topology, Refusal<'a>>
    ensures gives { IfSome (S.files shelf.old) (λ files. GivesTopology name.entry.now (file_of files name.entry.now) result) }
    ensures form { IfOk result IsWellFormed }
    ensures devices { OnlyReads (S.files shelf.old) (S.files shelf.new) (S.faults shelf.old) (S.faults shelf.new) result }
    ensures statuses { IfErr result (RefusesWith (2 ∷ 6 ∷ 7 ∷ [])) }
{
    let text = load_text(alloc, shelf, name, MOST_TOPOLOGY)?;
    match snap_topology::read(alloc, &text) {
        Ok(topology) => Ok(topology),
        Err(fault) => Err(refusal_of_topology(fault)),
    }
}

fn refusal_of_topology<'a>(fault: TopoFault) -> Refusal<'a>
    ensures { result ≡ refusal_of_topology fault }
{
    match fault {
        TopoFault::NotToml => refusal_of(TopologyFault::NotToml),
        TopoFault::Shape { rule } => refusal_of(TopologyFault::Shape { rule }),
        TopoFault::Limit { which, count } => Refusal::Limit { which, count },
        TopoFault::Twice { name } => refusal_of(TopologyFault::SwitchTwice { name }),
        TopoFault::Unknown { name } => refusal_of(TopologyFault::UnknownSwitch { name }),
        TopoFault::NoMemory => Refusal::NoMemory,
    }
}

fn refusal_of<'a>(fault: TopologyFault) -> Refusal<'a>
    ensures { result ≡ Refusal.Topology fault }
{
    Refusal::Topology { fault }
}
