//! The command `place`: a placement of least cost.

ghost use Rattle.std.specs.Prelude.{◌≡◌, ◌∷◌, [], IfErr, IfOk, IfSome, length};
ghost use Rattle.snap_core.specs.Programs.{IsWellFormed};
ghost use Rattle.snap_dep.specs.Ranks.{IsGrouping};
ghost use Rattle.snap_topology.specs.Form.{IsWellFormed as IsTopology};
ghost use Rattle.snap_topology.specs.Tables.{AreRoutes};
ghost use Rattle.snap_placement.specs.Placements.{IsDemand};
ghost use Rattle.snap_words.specs.Commands.{place};
ghost use Rattle.snap_cli.specs.Causes.{BlamesNoDevice, OnlyReads, ReadsAndWrites};
ghost use Rattle.snap_cli.specs.Deserved.{Meets};
ghost use Rattle.snap_cli.specs.Place.{IsBestText, refusal_of_demand};
ghost use Rattle.snap_cli.specs.PlaceSteps.{GivesPlacement, Places};
ghost use Rattle.snap_cli.specs.Statuses.{EndsWith, RefusesWith, statuses_of};

use crate::inputs::load_inputs;
use crate::network::Network;
use crate::refusal::{NoDemand, Refusal};
use snap_core::NoMemory;
use snap_core::lists::Names;
use snap_core::program::Program;
use snap_dep::calls::groups;
use snap_dep::groups::Groups;
use snap_io::{Shelf, Sink, write_whole};
use snap_placement::demand::{Demand, DemandFault};
use snap_placement::{print, read_demand, seek};
use std::alloc::Global;

/// Writes the placement of least cost for a program, a topology and a demand.
pub(crate) fn report<'a, S: Shelf, O: Sink>(
    alloc: Global,
    program: &'a [u8],
    topology: &'a [u8],
    demand: &'a [u8],
    shelf: &mut S,
    out: &mut O,
) -> Result<(), Refusal<'a>>
    ensures meets { IfSome (S.files shelf.old) (λ files.
        Meets files (place program.entry.now topology.entry.now demand.entry.now) result (O.taken out.old) (O.taken out.new)) }
    ensures devices { ReadsAndWrites (S.files shelf.old) (S.files shelf.new) (S.faults shelf.old) (S.faults shelf.new)
        (O.faults out.old) (O.faults out.new) result }
    ensures statuses { EndsWith (statuses_of (place program.entry.now topology.entry.now demand.entry.now)) result }
{
    let text = load_placement(alloc, program, topology, demand, shelf)?;
    match write_whole(out, &text) {
        Ok(()) => Ok(()),
        Err(_) => Err(Refusal::Write),
    }
}

// The text of the placement.
fn load_placement<'a, S: Shelf>(
    alloc: Global,
    program: &'a [u8],
    topology: &'a [u8],
    demand: &'a [u8],
    shelf: &mut S,
) -> Result<Vec<u8>, Refusal<'a>>
    ensures gives { IfSome (S.files shelf.old) (λ files. GivesPlacement files program.entry.now topology.entry.now demand.entry.now result) }
    ensures devices { OnlyReads (S.files shelf.old) (S.files shelf.new) (S.faults shelf.old) (S.faults shelf.new) result }
    ensures statuses { IfErr result (RefusesWith (2 ∷ 4 ∷ 5 ∷ 6 ∷ 7 ∷ 8 ∷ 19 ∷ [])) }
{
    let inputs = load_inputs(alloc, program, topology, demand, shelf)?;
    placement_of(alloc, inputs.program, &inputs.network, &inputs.text)
}

// The text of the placement for the demand that a text spells.
fn placement_of<'a>(
    alloc: Global,
    program: Program,
    network: &Network,
    text: &[u8],
) -> Result<Vec<u8>, Refusal<'a>>
    requires program { IsWellFormed program }
    requires topology { IsTopology network.now.topology }
    requires routes { AreRoutes network.now.topology network.now.routes }
    ensures places { Places program network.now.topology network.now.routes text.now result }
    ensures devices { IfErr result BlamesNoDevice }
{
    let groups = groups(alloc, &program)?;
    match read_demand(alloc, text, &program, &groups, &network.topology) {
        Ok(demand) => {
            let text = best_text(alloc, &program, &groups, network, &demand)?;
            Ok(text)
        }
        Err(fault) => Err(refusal_of_demand(program.arrays, fault)),
    }
}

// The refusal of a text that spells no demand of a program with these arrays.
fn refusal_of_demand<'a>(arrays: Names, fault: DemandFault) -> Refusal<'a>
    ensures { result ≡ refusal_of_demand arrays fault }
{
    let fault = match fault {
        DemandFault::NotToml => NoDemand::NotToml,
        DemandFault::Shape { rule } => NoDemand::Shape { rule },
        DemandFault::Limit { which, count } => return Refusal::Limit { which, count },
        DemandFault::NoPort { port } => NoDemand::NoPort { port },
        DemandFault::NoVariable { name } => NoDemand::NoArray { name },
        DemandFault::NoSwitch { name } => NoDemand::NoSwitch { name },
        DemandFault::Nowhere { var } => NoDemand::Nowhere { arrays, array: var },
        DemandFault::NoMemory => return Refusal::NoMemory,
    };
    Refusal::Demand { fault }
}

// The text of the best placement for a demand.
fn best_text(
    alloc: Global,
    program: &Program,
    groups: &Groups,
    network: &Network,
    demand: &Demand,
) -> Result<Vec<u8>, NoMemory>
    requires groups { IsGrouping program.now.body (length program.now.arrays) groups.now }
    requires topology { IsTopology network.now.topology }
    requires routes { AreRoutes network.now.topology network.now.routes }
    requires demand { IsDemand groups.now network.now.topology demand.now }
    ensures { IfOk result (λ text.
        IsBestText program.now groups.now network.now.topology network.now.routes demand.now text.items) }
{
    let best = seek(alloc, groups, &network.topology, &network.routes, demand)?;
    print(
        alloc,
        &program.arrays,
        &network.topology.switches,
        best.owners.items(),
        best.cost,
    )
}
