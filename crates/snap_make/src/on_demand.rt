//! Tables on demand: packets visit only the switches that they need.

ghost use Rattle.std.specs.Prelude.{◌≡◌, ◌<◌, IfOk, length};
ghost use Rattle.snap_diagrams.specs.Arena.{IsArena};
ghost use Rattle.snap_core.specs.Laws.{PutsSmall};
ghost use Rattle.snap_core.specs.Programs.{IsWellFormed as IsProgramWellFormed};
ghost use Rattle.snap_build.specs.Whole.{IsWhole};
ghost use Rattle.snap_dep.specs.Ranks.{IsGrouping};
ghost use Rattle.snap_faithful.specs.Faithful.{Faithful};
ghost use Rattle.snap_placement.specs.Answer.{GivesSwitches};
ghost use Rattle.snap_topology.specs.Tables.{AreRoutes};
ghost use Rattle.snap_topology.specs.Form.{IsWellFormed};
ghost use Rattle.snap_make.specs.Demands.{IsSetting};
ghost use Rattle.snap_make.specs.Demanded.{AreNumberedRows, CanBeNumbered};
ghost use Rattle.snap_make.specs.Tidy.{IsTidy};

use crate::bodies::bodies;
use crate::demanded::demanded_rows;
use crate::known::know_nodes;
use crate::outline::outline;
use snap_build::building::Built;
use snap_core::NoMemory;
use snap_core::program::Program;
use snap_dep::groups::Groups;
use snap_diagrams::leaf::Leaf;
use snap_diagrams::nodes::Nodes;
use snap_faithful::images::tidied;
use snap_faithful::numbering::number;
use snap_placement::placement::Placement;
use snap_rows::lists::Rows;
use snap_rows::proved::Proved;
use snap_rows::tables::Tables;
use snap_topology::table::Routes;
use snap_topology::topology::Topology;
use std::alloc::Global;

// The rows of the numbers below a root.
fn rows(
    alloc: Global,
    outline: &Tables,
    routes: &Routes,
    nodes: &Nodes<Leaf>,
    root: u64,
) -> Result<Rows, NoMemory>
    requires root { root < length nodes.now }
    requires setting { IsSetting outline.now routes.now }
    requires nodes { CanBeNumbered outline.now nodes.now root }
    ensures arena { IsArena nodes.now }
    ensures rows { IfOk result (λ r. AreNumberedRows outline.now nodes.now root r) }
{
    let numbering = number(alloc, nodes, root)?;
    let bodies = bodies(alloc, nodes, &numbering)?;
    demanded_rows(alloc, outline, routes, &bodies)
}

// Tables on demand, faithful to a program with this tidied diagram.
fn tidy_on_demand(
    alloc: Global,
    program: &Program,
    built: &Built,
    groups: &Groups,
    topology: &Topology,
    placement: &Placement,
    routes: &Routes,
) -> Result<Proved, NoMemory>
    requires form { IsProgramWellFormed program.now }
    requires small { PutsSmall program.now.body }
    requires groups { IsGrouping program.now.body (length program.now.arrays) groups.now }
    requires tidy { IsTidy program.now groups.now built.now.nodes built.now.root }
    requires topology { IsWellFormed topology.now }
    requires routes { AreRoutes topology.now routes.now }
    requires placement { GivesSwitches program.now topology.now placement.now }
    ensures { IfOk result (λ t. Faithful program.now topology.now placement.now t × (t.version ≡ 1)) }
{
    let mut tables = outline(alloc, 1, program, groups, topology, placement, routes)?;
    tables.rows = rows(alloc, &tables, routes, &built.nodes, built.root)?;
    Ok(Proved::new(tables))
}

/// Tables of version 1 that are faithful to a program with this diagram, for a topology with these routes and a placement
/// of the program's arrays (`docs/MEANING.md`, "Faithful tables"): a packet goes only where its program needs it.
///
/// The nodes below the root are numbered from 0 at the root, rising along each way. The diagram is changed, and no clause
/// says how. Refuses for memory alone.
pub fn on_demand(
    alloc: Global,
    program: &Program,
    built: &mut Built,
    groups: &Groups,
    topology: &Topology,
    placement: &Placement,
    routes: &Routes,
) -> Result<Proved, NoMemory>
    requires form { IsProgramWellFormed program.now }
    requires small { PutsSmall program.now.body }
    requires groups { IsGrouping program.now.body (length program.now.arrays) groups.now }
    requires whole { IsWhole program.now groups.now built.old.nodes built.old.root }
    requires topology { IsWellFormed topology.now }
    requires routes { AreRoutes topology.now routes.now }
    requires placement { GivesSwitches program.now topology.now placement.now }
    ensures { IfOk result (λ t. Faithful program.now topology.now placement.now t × (t.version ≡ 1)) }
{
    know_nodes(&built.nodes);
    built.root = tidied(&mut built.nodes, groups, built.root)?;
    tidy_on_demand(alloc, program, built, groups, topology, placement, routes)
}
