//! Tables of a program's diagram.

ghost use Rattle.std.specs.Prelude.{◌≡◌, ◌<◌, IfOk, OnOk, length, map};
ghost use Rattle.std.specs.List.{All, range_with_len};
ghost use Rattle.snap_rows.specs.Bodies.{IsPlaced, placed};
ghost use Rattle.snap_core.specs.Laws.{PutsSmall};
ghost use Rattle.snap_core.specs.Programs.{IsWellFormed as IsProgramWellFormed};
ghost use Rattle.snap_diagrams.specs.Arena.{IsArena};
ghost use Rattle.snap_build.specs.Whole.{IsWhole};
ghost use Rattle.snap_dep.specs.Ranks.{IsGrouping};
ghost use Rattle.snap_faithful.specs.Faithful.{Faithful};
ghost use Rattle.snap_placement.specs.Answer.{GivesSwitches};
ghost use Rattle.snap_topology.specs.Tables.{AreRoutes};
ghost use Rattle.snap_topology.specs.Form.{IsWellFormed};
ghost use Rattle.snap_make.specs.Fronts.{IsNumbered};
ghost use Rattle.snap_make.specs.Shares.{AreRows, AreShares, body_of, with_stop};
ghost use Rattle.snap_make.specs.Tidy.{IsTidy};

use crate::bodies::bodies;
use crate::fronts::fronts;
use crate::known::know_nodes;
use crate::outline::outline;
use crate::shares::shares;
use snap_build::building::Built;
use snap_core::NoMemory;
use snap_core::program::Program;
use snap_dep::groups::Groups;
use snap_diagrams::leaf::Leaf;
use snap_diagrams::nodes::Nodes;
use snap_faithful::images::tidied;
use snap_faithful::numbering::{Numbering, number};
use snap_placement::placement::Placement;
use snap_rows::lists::{Placed, Rows};
use snap_rows::proved::Proved;
use snap_rows::tables::{Row, Tables};
use snap_rows::valid::Valid;
use snap_topology::table::Routes;
use snap_topology::topology::Topology;
use std::alloc::Global;

// The rows of a numbered diagram with these bodies.
fn numbered_shares(
    alloc: Global,
    outline: &Tables,
    nodes: &Nodes<Leaf>,
    numbering: &Numbering,
    bodies: &[Row],
) -> Result<Vec<Placed>, NoMemory>
    requires numbered { IsNumbered nodes.now numbering.now.ids.items numbering.now.numbers.items }
    requires bodies { bodies.now ≡ map (body_of nodes.now numbering.now.ids.items numbering.now.numbers.items) (range_with_len 0 (length numbering.now.ids.items)) }
    requires few { length outline.now.switches < 65536 }
    ensures placed { IfOk result (λ r. All (IsPlaced (with_stop bodies.now)) r.items) }
    ensures rows { IfOk result (λ r. AreShares outline.now nodes.now numbering.now.ids.items numbering.now.numbers.items bodies.now (map (placed (with_stop bodies.now)) r.items)) }
{
    let fronts = fronts(alloc, nodes, numbering)?;
    shares(alloc, outline, bodies, &fronts)
}

// Puts `stop` for each number behind the bodies of all: so each body stands at one number, and its words are made once.
fn push_stops(bodies: &mut Vec<Row>) -> Result<(), NoMemory>
    ensures { OnOk result (bodies.new.items ≡ with_stop bodies.old.items) }
{
    for _ in 0..bodies.len() {
        bodies.push(Row::Stop)?;
    }
    Ok(())
}

// The rows of the numbers below a root.
fn rows(alloc: Global, outline: &Tables, nodes: &Nodes<Leaf>, root: u64) -> Result<Rows, NoMemory>
    requires root { root < length nodes.now }
    requires few { length outline.now.switches < 65536 }
    ensures arena { IsArena nodes.now }
    ensures rows { IfOk result (λ r. AreRows outline.now nodes.now root r) }
{
    let numbering = number(alloc, nodes, root)?;
    let mut bodies = bodies(alloc, nodes, &numbering)?;
    let shares = numbered_shares(alloc, outline, nodes, &numbering, &bodies)?;
    push_stops(&mut bodies)?;
    Ok(Rows::new(bodies, shares))
}

// Tables faithful to a program with this tidied diagram.
fn tidy_tables(
    alloc: Global,
    program: &Program,
    built: &Built,
    groups: &Groups,
    topology: &Topology,
    placement: &Placement,
    routes: &Routes,
) -> Result<Proved, NoMemory>
    requires form { IsProgramWellFormed program.now }
    requires small { PutsSmall program.now.body }
    requires groups { IsGrouping program.now.body (length program.now.arrays) groups.now }
    requires tidy { IsTidy program.now groups.now built.now.nodes built.now.root }
    requires topology { IsWellFormed topology.now }
    requires routes { AreRoutes topology.now routes.now }
    requires placement { GivesSwitches program.now topology.now placement.now }
    ensures { IfOk result (λ t. Faithful program.now topology.now placement.now t × (t.version ≡ 2)) }
{
    let mut tables = outline(alloc, 2, program, groups, topology, placement, routes)?;
    tables.rows = rows(alloc, &tables, &built.nodes, built.root)?;
    Ok(Proved::new(tables))
}

/// Tables of version 2 that are faithful to a program with this diagram, for a topology with these routes and a placement
/// of the program's arrays (`docs/MEANING.md`, "Faithful tables").
///
/// The nodes below the root are numbered from 0 at the root, rising along each way. The diagram is changed, and no clause
/// says how. Refuses for memory alone.
pub fn proved_tables(
    alloc: Global,
    program: &Program,
    built: &mut Built,
    groups: &Groups,
    topology: &Topology,
    placement: &Placement,
    routes: &Routes,
) -> Result<Proved, NoMemory>
    requires form { IsProgramWellFormed program.now }
    requires small { PutsSmall program.now.body }
    requires groups { IsGrouping program.now.body (length program.now.arrays) groups.now }
    requires whole { IsWhole program.now groups.now built.old.nodes built.old.root }
    requires topology { IsWellFormed topology.now }
    requires routes { AreRoutes topology.now routes.now }
    requires placement { GivesSwitches program.now topology.now placement.now }
    ensures { IfOk result (λ t. Faithful program.now topology.now placement.now t × (t.version ≡ 2)) }
{
    know_nodes(&built.nodes);
    built.root = tidied(&mut built.nodes, groups, built.root)?;
    tidy_tables(alloc, program, built, groups, topology, placement, routes)
}

/// The same, so that packets can be traced. Refuses for memory alone.
pub fn tables(
    alloc: Global,
    program: &Program,
    mut built: Built,
    groups: &Groups,
    topology: &Topology,
    placement: &Placement,
    routes: &Routes,
) -> Result<Valid, NoMemory>
    requires form { IsProgramWellFormed program.now }
    requires small { PutsSmall program.now.body }
    requires groups { IsGrouping program.now.body (length program.now.arrays) groups.now }
    requires whole { IsWhole program.now groups.now built.nodes built.root }
    requires topology { IsWellFormed topology.now }
    requires routes { AreRoutes topology.now routes.now }
    requires placement { GivesSwitches program.now topology.now placement.now }
    ensures { IfOk result (λ t. Faithful program.now topology.now placement.now t × (t.version ≡ 2)) }
{
    let proved = proved_tables(
        alloc, program, &mut built, groups, topology, placement, routes,
    )?;
    proved.valid(alloc)
}
