//! The switches on the ways to a target.

ghost use Rattle.std.specs.Prelude.{◌≡◌, ◌<◌, ◌≤◌};
ghost use Rattle.snap_topology.specs.Tables.{switch_count};
ghost use Rattle.snap_make.specs.Marks.{ComesNearer, MarksLine, MarksWay, MarksWays};

use crate::switches::Switches;
use snap_topology::table::Routes;

// With the switches behind `at` on the way to the target, up to the first that is there.
fn way(here: Switches, routes: &Routes, at: u16, target: u16) -> Switches
    requires few { switch_count routes.now ≤ 256 }
    requires at { at < switch_count routes.now }
    requires target { target < switch_count routes.now }
    requires nearer { ComesNearer routes.now }
    ensures { MarksWay routes.now target at here result }
{
    if at == target {
        return here;
    }
    let on = routes.next(at, target);
    if here.has(on) {
        return here;
    }
    way(here.with(on), routes, on, target)
}

/// With the switches on the ways to the target from all that are there. Takes time in proportion to the switches.
pub(crate) fn ways(here: Switches, routes: &Routes, switches: u16, target: u16) -> Switches
    requires few { switch_count routes.now ≤ 256 }
    requires switches { switch_count routes.now ≡ switches }
    requires target { target < switch_count routes.now }
    requires nearer { ComesNearer routes.now }
    ensures { MarksWays routes.now target here result }
{
    let mut marks = here;
    for at in 0..switches {
        if marks.has(at) {
            marks = way(marks, routes, at, target);
        }
    }
    marks
}

/// With the switches behind `at` on the way to the target, all of them.
pub(crate) fn line(here: Switches, routes: &Routes, at: u16, target: u16) -> Switches
    requires few { switch_count routes.now ≤ 256 }
    requires at { at < switch_count routes.now }
    requires target { target < switch_count routes.now }
    requires nearer { ComesNearer routes.now }
    ensures { MarksLine routes.now target at here result }
{
    if at == target {
        return here;
    }
    let on = routes.next(at, target);
    line(here.with(on), routes, on, target)
}
