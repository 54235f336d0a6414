ghost use Rattle.std.specs.Prelude.{length};
ghost use Rattle.snap_dep.specs.Ranks.{IsGrouping};
ghost use Rattle.snap_topology.specs.Tables.{AreRoutes};
ghost use Rattle.snap_topology.specs.Form.{IsWellFormed as IsTopology};

use crate::given::{Setting, three_arrays};
use snap_placement::best::Best;
use snap_topology::calls::routes;
use snap_topology::table::Routes;
use std::alloc::Global;
use std::test::Fail;

/// A demand, what the best placement costs, and its three switches, where no arrays are tied.
const BEST: [(&str, u64, [u16; 3]); 6] = [
    ("demand = []\n[allowed]", 0, [0, 0, 0]),
    ("demand = [[5, 3, 0]]\n[allowed]", 0, [0, 0, 0]),
    ("demand = [[5, 3, 2]]\n[allowed]", 4, [0, 0, 0]),
    (
        "demand = [[1, 6, 10], [6, 1, 10]]\n[allowed]\nblacklist = [\"s2\"]",
        40,
        [1, 1, 1],
    ),
    (
        "demand = [[1, 6, 10], [6, 1, 10]]\n[allowed]\nblacklist = [\"s2\"]\norphan = [\"s4\", \"s1\"]",
        60,
        [0, 0, 1],
    ),
    (
        "demand = [[6, 6, 4294967295], [6, 6, 4294967295]]\n[allowed]\nsusp-client = [\"s1\"]",
        34359738360,
        [0, 0, 0],
    ),
];

// The best placement in the square, by its routes.
fn best_by(alloc: Global, setting: &Setting, routes: &Routes, demand: &str) -> Result<Best, Fail>
    requires groups { IsGrouping setting.now.program.body (length setting.now.program.arrays) setting.now.groups }
    requires form { IsTopology setting.now.topology }
    requires routes { AreRoutes setting.now.topology routes.now }
{
    let (groups, topology) = (&setting.groups, &setting.topology);
    let text = demand.as_bytes();
    let demand = snap_placement::read_demand(alloc, text, &setting.program, groups, topology)?;
    Ok(snap_placement::seek(alloc, groups, topology, routes, &demand)?)
}

// The best placement in the square.
fn best(alloc: Global, demand: &str) -> Result<Best, Fail> {
    let setting = three_arrays(alloc)?;
    let routes = routes(alloc, &setting.topology)?;
    best_by(alloc, &setting, &routes, demand)
}

#[test]
fn finds_the_placement_of_least_cost(rt: HostRuntime) -> Result<(), Fail> {
    for (text, cost, owners) in BEST {
        let best = best(rt.alloc(), text)?;
        assert_eq!(rt; best.cost, cost, "{text}");
        assert_eq!(rt; best.owners.items(), owners.as_slice(), "{text}");
    }
    Ok(())
}
