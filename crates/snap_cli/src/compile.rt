//! The command `compile`: tables that make the network behave as the program says.
//!
//! What is held to the end of the call is forgotten and not freed: the process ends with it, and of what a small program
//! costs it would be a good part.

ghost use Rattle.std.specs.Prelude.{◌≡◌, ◌∷◌, [], IfErr, IfOk, IfSome, length};
ghost use Rattle.snap_build.specs.Whole.{IsWhole};
ghost use Rattle.snap_core.specs.Laws.{PutsSmall};
ghost use Rattle.snap_core.specs.Programs.{IsWellFormed};
ghost use Rattle.snap_dep.specs.Ranks.{IsGrouping};
ghost use Rattle.snap_placement.specs.Answer.{GivesSwitches};
ghost use Rattle.snap_tables.specs.ReadBack.{IsReadBack};
ghost use Rattle.snap_topology.specs.Form.{IsWellFormed as IsTopology};
ghost use Rattle.snap_topology.specs.Tables.{AreRoutes};
ghost use Rattle.snap_words.specs.Commands.{compile};
ghost use Rattle.snap_cli.specs.Causes.{BlamesNoDevice, OnlyReads, OnlyWrites, ReadsAndWrites};
ghost use Rattle.snap_cli.specs.Compile.{AreMade};
ghost use Rattle.snap_cli.specs.CompileSteps.{Compiles, GivesTables, MakesTables, WritesTables};
ghost use Rattle.snap_cli.specs.Deserved.{Meets};
ghost use Rattle.snap_cli.specs.PlacementOf.{refusal_of_placement};
ghost use Rattle.snap_cli.specs.Statuses.{EndsWith, RefusesWith, statuses_of};

use crate::diagram::diagram_of;
use crate::inputs::load_inputs;
use crate::network::Network;
use crate::refusal::{NoPlacement, Refusal};
use snap_build::building::Built;
use snap_core::NoMemory;
use snap_core::lists::Names;
use snap_core::program::Program;
use snap_dep::calls::groups;
use snap_dep::groups::Groups;
use snap_io::{Shelf, Sink};
use snap_make::on_demand::on_demand as tables_on_demand;
use snap_make::tables::proved_tables;
use snap_placement::placement::{PlaceFault, Placement};
use snap_rows::proved::Proved;
use snap_tables::fault::PrintFault;
use snap_tables::print::print_proved;
use std::alloc::Global;
use std::mem::forget;

/// Writes tables that are faithful to a program, a topology and a placement: of version 2, or on demand of version 1.
pub(crate) fn report<'a, S: Shelf, O: Sink>(
    alloc: Global,
    program: &'a [u8],
    topology: &'a [u8],
    placement: &'a [u8],
    on_demand: bool,
    shelf: &mut S,
    out: &mut O,
) -> Result<(), Refusal<'a>>
    ensures meets { IfSome (S.files shelf.old) (λ files.
        Meets files (compile program.entry.now topology.entry.now placement.entry.now on_demand) result (O.taken out.old) (O.taken out.new)) }
    ensures devices { ReadsAndWrites (S.files shelf.old) (S.files shelf.new) (S.faults shelf.old) (S.faults shelf.new)
        (O.faults out.old) (O.faults out.new) result }
    ensures statuses { EndsWith (statuses_of (compile program.entry.now topology.entry.now placement.entry.now on_demand)) result }
{
    let tables = load_tables(alloc, program, topology, placement, on_demand, shelf)?;
    let written = write_tables(alloc, &tables, out);
    forget(tables);
    written
}

// Writes the text of tables.
fn write_tables<'a, O: Sink>(alloc: Global, tables: &Proved, out: &mut O) -> Result<(), Refusal<'a>>
    ensures writes { WritesTables tables.now result (O.taken out.old) (O.taken out.new) }
    ensures back { IsReadBack tables.now }
    ensures devices { OnlyWrites (O.faults out.old) (O.faults out.new) result }
{
    match print_proved(alloc, tables, out) {
        Ok(()) => Ok(()),
        Err(PrintFault::Write) => Err(Refusal::Write),
        Err(PrintFault::NoMemory) => Err(Refusal::NoMemory),
    }
}

// The tables for three files.
fn load_tables<'a, S: Shelf>(
    alloc: Global,
    program: &'a [u8],
    topology: &'a [u8],
    placement: &'a [u8],
    on_demand: bool,
    shelf: &mut S,
) -> Result<Proved, Refusal<'a>>
    ensures gives { IfSome (S.files shelf.old) (λ files. GivesTables files program.entry.now topology.entry.now placement.entry.now on_demand result) }
    ensures devices { OnlyReads (S.files shelf.old) (S.files shelf.new) (S.faults shelf.old) (S.faults shelf.new) result }
    ensures statuses { IfErr result (RefusesWith (2 ∷ 4 ∷ 5 ∷ 6 ∷ 7 ∷ 8 ∷ 9 ∷ 10 ∷ [])) }
{
    let inputs = load_inputs(alloc, program, topology, placement, shelf)?;
    let made = tables_of(
        alloc,
        inputs.program,
        &inputs.network,
        &inputs.text,
        on_demand,
    );
    forget(inputs.network);
    made
}

// The tables of a program on a topology with the placement that a text spells.
fn tables_of<'a>(
    alloc: Global,
    program: Program,
    network: &Network,
    text: &[u8],
    on_demand: bool,
) -> Result<Proved, Refusal<'a>>
    requires program { IsWellFormed program }
    requires topology { IsTopology network.now.topology }
    requires routes { AreRoutes network.now.topology network.now.routes }
    ensures compiles { Compiles program network.now.topology text.now on_demand result }
    ensures devices { IfErr result BlamesNoDevice }
{
    let groups = groups(alloc, &program)?;
    match snap_placement::read(alloc, text, &program, &groups, &network.topology) {
        Ok(placement) => {
            let made = make(alloc, &program, &groups, network, &placement, on_demand);
            forget(program);
            forget(groups);
            forget(placement);
            made
        }
        Err(fault) => Err(refusal_of_placement(program.arrays, fault)),
    }
}

// The refusal of a text that spells no placement of these arrays.
fn refusal_of_placement<'a>(arrays: Names, fault: PlaceFault) -> Refusal<'a>
    ensures { result ≡ refusal_of_placement arrays fault }
{
    let fault = match fault {
        PlaceFault::NotToml => NoPlacement::NotToml,
        PlaceFault::Shape { rule } => NoPlacement::Shape { rule },
        PlaceFault::NoVariable { name } => NoPlacement::NoArray { name },
        PlaceFault::Missing { var } => NoPlacement::NoPlace { arrays, array: var },
        PlaceFault::NoSwitch { var } => NoPlacement::NoSwitch { arrays, array: var },
        PlaceFault::Apart { a, b } => NoPlacement::Apart { arrays, a, b },
        PlaceFault::NoMemory => return Refusal::NoMemory,
    };
    Refusal::Placement { fault }
}

// The tables of a program with these groups.
fn make<'a>(
    alloc: Global,
    program: &Program,
    groups: &Groups,
    network: &Network,
    placement: &Placement,
    on_demand: bool,
) -> Result<Proved, Refusal<'a>>
    requires program { IsWellFormed program.now }
    requires groups { IsGrouping program.now.body (length program.now.arrays) groups.now }
    requires topology { IsTopology network.now.topology }
    requires routes { AreRoutes network.now.topology network.now.routes }
    requires placement { GivesSwitches program.now network.now.topology placement.now }
    ensures makes { MakesTables program.now network.now.topology placement.now on_demand result }
    ensures devices { IfErr result BlamesNoDevice }
{
    let mut built = diagram_of(alloc, program, groups)?;
    let made = tables_from(
        alloc, program, &mut built, groups, network, placement, on_demand,
    );
    forget(built);
    Ok(made?)
}

// The tables of a program with this diagram, of the version that is asked for.
fn tables_from(
    alloc: Global,
    program: &Program,
    built: &mut Built,
    groups: &Groups,
    network: &Network,
    placement: &Placement,
    on_demand: bool,
) -> Result<Proved, NoMemory>
    requires form { IsWellFormed program.now }
    requires small { PutsSmall program.now.body }
    requires groups { IsGrouping program.now.body (length program.now.arrays) groups.now }
    requires whole { IsWhole program.now groups.now built.old.nodes built.old.root }
    requires topology { IsTopology network.now.topology }
    requires routes { AreRoutes network.now.topology network.now.routes }
    requires placement { GivesSwitches program.now network.now.topology placement.now }
    ensures { IfOk result (λ t. AreMade program.now network.now.topology placement.now on_demand t) }
{
    let topology = &network.topology;
    let routes = &network.routes;
    if on_demand {
        tables_on_demand(alloc, program, built, groups, topology, placement, routes)
    } else {
        proved_tables(alloc, program, built, groups, topology, placement, routes)
    }
}
