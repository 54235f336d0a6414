//! Which switches have a row of each number.

ghost use Rattle.std.specs.Prelude.{◌≡◌, ◌<◌, ◌+◌, ◌≤◌, ◌==◌, ℕ, IfOk, length, slice_get};
ghost use Rattle.std.specs.List.{All, list_any};
ghost use Rattle.snap_core.specs.declared.ports.PortAt.{PortAt};
ghost use Rattle.snap_rows.specs.Form.{switch_count};
ghost use Rattle.snap_make.specs.Demands.{AddsToBoth, AreDemanded, AreWaysBelow, GoesAlong, HandsOn, IsSetting, Settles};
ghost use Rattle.snap_make.specs.Marks.{IsOnWalk, MarksWalk, has_switch};
ghost use Rattle.snap_faithful.specs.OnDemand.{HasNodes, place_of};

use crate::rows::{place, var_of};
use crate::switches::Switches;
use crate::ways::{line, ways};
use snap_core::NoMemory;
use snap_core::policy::Update;
use snap_core::ports::PortAt;
use snap_rows::tables::{Row, Tables};
use snap_topology::table::Routes;
use std::alloc::Global;

// The number of switches.
fn count(tables: &Tables) -> u16
    requires { switch_count tables.now ≤ 256 }
    ensures { result ≡ switch_count tables.now }
{
    tables.switches.items().len() as u16
}

// With the switches on the walk from one to the places of updates, one after another.
fn walk(here: Switches, tables: &Tables, routes: &Routes, from: u16, ups: &[Update]) -> Switches
    requires setting { IsSetting tables.now routes.now }
    requires from { from < switch_count tables.now }
    ensures { MarksWalk routes.now (place_of tables.now) from ups.now here result }
{
    let mut marks = here;
    let mut at = from;
    for up in ups {
        let to = place(tables, up.var);
        marks = line(marks, routes, at, to);
        at = to;
    }
    marks
}

// With all through which packets come from these switches to do updates.
fn through_leaf(here: Switches, tables: &Tables, routes: &Routes, ups: &[Update]) -> Switches
    requires setting { IsSetting tables.now routes.now }
    ensures { Settles routes.now (λ w v. IsOnWalk routes.now (place_of tables.now) w ups.now v) here result }
{
    if ups.len() == 0 {
        return here;
    }
    let switches = count(tables);
    let first = place(tables, ups[0].var);
    let come = ways(here, routes, switches, first);
    if !come.has(first) {
        return come;
    }
    let done = walk(come, tables, routes, first, ups);
    ways(done, routes, switches, first)
}

// With all through which packets come from these switches with a number of this node.
fn settled(here: Switches, tables: &Tables, routes: &Routes, body: &Row) -> Switches
    requires setting { IsSetting tables.now routes.now }
    ensures { Settles routes.now (GoesAlong routes.now (place_of tables.now) body.now) here result }
{
    match body {
        Row::State { test, .. } => {
            let target = place(tables, var_of(test));
            ways(here, routes, count(tables), target)
        }
        Row::Last { ups, .. } => through_leaf(here, tables, routes, ups.items()),
        Row::Field { .. } => here,
        Row::Go { .. } => here,
        Row::Leaf { .. } => here,
        Row::Stop => here,
    }
}

// Adds switches to those of two numbers.
fn add_to_both(marks: &mut Vec<Switches>, yes: u64, no: u64, more: &Switches)
    requires yes { yes < length marks.old.items }
    requires no { no < length marks.old.items }
    ensures { AddsToBoth yes no more.now marks.old.items marks.new.items }
{
    marks[yes as usize] = marks[yes as usize].with_all(more);
    marks[no as usize] = marks[no as usize].with_all(more);
}

// Marks the pairs to which a number with this node leads from these switches.
fn hand_on(marks: &mut Vec<Switches>, tables: &Tables, body: &Row, here: &Switches)
    requires places { (v : ℕ) → place_of tables.now v < 256 }
    requires ways { AreWaysBelow (length marks.old.items) body.now }
    ensures { HandsOn (place_of tables.now) body.now here.now marks.old.items marks.new.items }
{
    match body {
        Row::Field { yes, no, .. } => add_to_both(marks, *yes, *no, here),
        Row::State { test, yes, no } => {
            let at = place(tables, var_of(test));
            if here.has(at) {
                add_to_both(marks, *yes, *no, &Switches::none().with(at));
            }
        }
        Row::Last { .. } => {}
        Row::Go { .. } => {}
        Row::Leaf { .. } => {}
        Row::Stop => {}
    }
}

// Marks what a number leads to.
fn mark(marks: &mut Vec<Switches>, tables: &Tables, routes: &Routes, bodies: &[Row], number: usize)
    requires setting { IsSetting tables.now routes.now }
    requires nodes { HasNodes tables.now (slice_get bodies.now) }
    requires low { number < length bodies.now }
    requires before { AreDemanded tables.now (slice_get bodies.now) (length bodies.now) number marks.old.items }
    ensures { AreDemanded tables.now (slice_get bodies.now) (length bodies.now) (number + 1) marks.new.items }
{
    let body = &bodies[number];
    let here = settled(marks[number], tables, routes, body);
    marks[number] = here;
    hand_on(marks, tables, body, &here);
}

// The switches of the ports.
fn at_ports(ports: &[PortAt]) -> Switches
    requires few { All (λ (p : PortAt). p.at < 256) ports.now }
    ensures { (v : ℕ) → has_switch result v ≡ list_any (λ (p : PortAt). v == p.at) ports.now }
{
    let mut marks = Switches::none();
    for port in ports {
        marks = marks.with(port.at);
    }
    marks
}

/// For each number the switches that have a row of it, where a packet goes only where its program needs it. Takes time
/// in proportion to the numbers, and for each state test and leaf to the switches and the walks between its updates.
/// Refuses for memory alone.
pub fn demands(
    alloc: Global,
    tables: &Tables,
    routes: &Routes,
    bodies: &[Row],
) -> Result<Vec<Switches>, NoMemory>
    requires setting { IsSetting tables.now routes.now }
    requires nodes { HasNodes tables.now (slice_get bodies.now) }
    requires root { 0 < length bodies.now }
    ensures { IfOk result (λ r. AreDemanded tables.now (slice_get bodies.now) (length bodies.now) (length bodies.now) r.items) }
{
    let mut marks = vec![in alloc; Switches::none(); bodies.len()]?;
    marks[0] = at_ports(tables.ports.items());
    for number in 0..bodies.len() {
        mark(&mut marks, tables, routes, bodies, number);
    }
    Ok(marks)
}
