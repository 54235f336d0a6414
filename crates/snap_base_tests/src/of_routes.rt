ghost use Rattle.std.specs.Prelude.{◌≡◌, IfOk};
ghost use Rattle.snap_topology.specs.Tables.{switch_count};

use crate::given::SQUARE;
use snap_topology::calls::routes;
use snap_topology::table::{RouteFault, Routes};
use std::alloc::Global;
use std::test::Fail;

const PART: &str = "switches = [\"a\", \"b\", \"c\"]\nlinks = [[\"a\", \"b\"]]\n[ports]";

// Two switches of the square, their distance and the next hop.
const WAYS: [(u16, u16, u32, u16); 5] = [
    (0, 3, 2, 1),
    (3, 0, 2, 1),
    (1, 2, 2, 0),
    (2, 1, 2, 0),
    (0, 1, 1, 1),
];

// The routes of the square.
fn square_routes(alloc: Global) -> Result<Routes, Fail>
    ensures { IfOk result (λ routes. switch_count routes ≡ 4) }
{
    let topology = snap_topology::read(alloc, SQUARE.as_bytes())?;
    if topology.switches.items().len() != 4 {
        return Err("not four switches")?;
    }
    Ok(routes(alloc, &topology)?)
}

// The distance of two of four switches and the next hop, where they differ.
fn way(routes: &Routes, a: u16, b: u16) -> Option<(u32, u16)>
    requires { switch_count routes.now ≡ 4 }
{
    if a < 4 && b < 4 && a != b {
        Some((routes.distance(a, b), routes.next(a, b)))
    } else {
        None
    }
}

#[test]
fn routes_of_a_square(rt: HostRuntime) -> Result<(), Fail> {
    let routes = square_routes(rt.alloc())?;
    assert_eq!(rt; routes.diameter(), 2);
    for (a, b, distance, next) in WAYS {
        assert!(rt; way(&routes, a, b) == Some((distance, next)));
    }
    Ok(())
}

#[test]
fn tells_the_first_two_apart(rt: HostRuntime) -> Result<(), Fail> {
    let alloc = rt.alloc();
    let topology = snap_topology::read(alloc, PART.as_bytes())?;
    match routes(alloc, &topology) {
        Ok(_routes) => Err("there are routes")?,
        Err(fault) => assert_eq!(rt; fault, RouteFault::Unreachable { a: 0, b: 2 }),
    }
    Ok(())
}
