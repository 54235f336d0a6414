//! The rows of switches in tables on demand.

ghost use Rattle.std.specs.Prelude.{◌≡◌, ◌<◌, ◌≤◌, ◌+◌, ◌^◌, IfOk, OnOk, length, map, slice_get};
ghost use Rattle.std.specs.List.{All};
ghost use Rattle.snap_faithful.specs.Planned.{IsNodeKind};
ghost use Rattle.snap_rows.specs.Bodies.{IsPlaced};
ghost use Rattle.snap_make.specs.Demands.{IsSetting};
ghost use Rattle.snap_faithful.specs.OnDemand.{HasNodes, place_of, staged};
ghost use Rattle.snap_make.specs.Demanded.{AreDemandedRows, demanded, gone, place_on, with_gone};
ghost use Rattle.snap_make.specs.Pairs.{at_switch, at_switches};
ghost use Rattle.snap_make.specs.Shares.{Adds, entries};

use crate::demands::demands;
use crate::rows::{place, staged, var_of};
use crate::switches::Switches;
use snap_core::NoMemory;
use snap_rows::lists::{Placed, Rows};
use snap_rows::tables::{Row, Tables};
use snap_topology::table::Routes;
use std::alloc::Global;

// The bodies of numbers with these nodes.
fn staged_all(alloc: Global, tables: &Tables, nodes: &[Row]) -> Result<Vec<Row>, NoMemory>
    requires { All IsNodeKind nodes.now }
    ensures { IfOk result (λ r. r.items ≡ map (staged (place_of tables.now)) nodes.now) }
{
    let mut bodies = Vec::with_capacity(alloc, nodes.len())?;
    for node in nodes {
        bodies.push(staged(alloc, tables, node)?)?;
    }
    Ok(bodies)
}

// Where the body stands of the row of a switch for a number with this one: that of its number, or behind those of all
// numbers that by which packets go on to the switch of the tested array.
fn place_on(tables: &Tables, at: u16, body: &Row, number: u32, elsewhere: u32) -> u32
    ensures { result ≡ place_on (place_of tables.now) at body.now number elsewhere }
{
    match body {
        Row::State { test, .. } => {
            if place(tables, var_of(test)) == at {
                number
            } else {
                elsewhere
            }
        }
        Row::Field { .. } | Row::Go { .. } | Row::Leaf { .. } | Row::Stop | Row::Last { .. } => {
            number
        }
    }
}

// What stands where a number with this body isn't decided. Only a test of an array is decided at one switch alone.
fn gone(tables: &Tables, body: &Row) -> Row
    ensures { result ≡ gone (place_of tables.now) body.now }
{
    let to = match body {
        Row::State { test, .. } => place(tables, var_of(test)),
        Row::Field { .. } | Row::Go { .. } | Row::Leaf { .. } | Row::Stop | Row::Last { .. } => 0,
    };
    Row::Go { to }
}

// Puts `go` for each number behind the bodies of all: so each body stands at one number, and its words are made once.
fn push_gone(tables: &Tables, bodies: &mut Vec<Row>) -> Result<(), NoMemory>
    ensures { OnOk result (bodies.new.items ≡ with_gone (place_of tables.now) bodies.old.items) }
{
    for number in 0..bodies.len() {
        let row = gone(tables, &bodies[number]);
        bodies.push(row)?;
    }
    Ok(())
}

// Adds the rows of a switch.
fn push_rows(
    rows: &mut Vec<Placed>,
    tables: &Tables,
    at: u16,
    bodies: &[Row],
    marks: &[Switches],
) -> Result<(), NoMemory>
    requires low { at < 256 }
    requires wide { length marks.now ≡ length bodies.now }
    requires few { length bodies.now + length bodies.now < 2 ^ 32 }
    requires placed { All (IsPlaced (with_gone (place_of tables.now) bodies.now)) rows.old.items }
    ensures placed { OnOk result (All (IsPlaced (with_gone (place_of tables.now) bodies.now)) rows.new.items) }
    ensures rows { OnOk result (Adds (with_gone (place_of tables.now) bodies.now) rows.old.items
        (at_switch (demanded tables.now bodies.now marks.now at) at (length bodies.now)) rows.new.items) }
{
    for number in 0..bodies.len() {
        if marks[number].has(at) {
            let elsewhere = (bodies.len() + number) as u32;
            rows.push(Placed {
                number: number as u64,
                at,
                body: place_on(tables, at, &bodies[number], number as u32, elsewhere),
            })?;
        }
    }
    Ok(())
}

// The rows of all marked pairs, by switch and number.
fn shares(
    alloc: Global,
    tables: &Tables,
    bodies: &[Row],
    marks: &[Switches],
) -> Result<Vec<Placed>, NoMemory>
    requires wide { length marks.now ≡ length bodies.now }
    requires few { length tables.now.switches ≤ 256 }
    ensures placed { IfOk result (λ r. All (IsPlaced (with_gone (place_of tables.now) bodies.now)) r.items) }
    ensures rows { IfOk result (λ r. entries (with_gone (place_of tables.now) bodies.now) r.items ≡ at_switches (demanded tables.now bodies.now marks.now) (length tables.now.switches) (length bodies.now)) }
{
    if u32::MAX as usize / 2 <= bodies.len() {
        return Err(NoMemory);
    }
    let mut rows = Vec::new(alloc);
    for at in 0..tables.switches.items().len() {
        push_rows(&mut rows, tables, at as u16, bodies, marks)?;
    }
    Ok(rows)
}

/// Of numbers with these nodes the rows of all pairs of switch and number to which packets come. Takes
/// time in proportion to the numbers for each switch, besides what their ways and the copies take. Refuses for memory
/// alone.
pub(crate) fn demanded_rows(
    alloc: Global,
    tables: &Tables,
    routes: &Routes,
    nodes: &[Row],
) -> Result<Rows, NoMemory>
    requires setting { IsSetting tables.now routes.now }
    requires nodes { HasNodes tables.now (slice_get nodes.now) }
    requires root { 0 < length nodes.now }
    ensures { IfOk result (λ r. AreDemandedRows tables.now nodes.now r) }
{
    let marks = demands(alloc, tables, routes, nodes)?;
    let mut bodies = staged_all(alloc, tables, nodes)?;
    let rows = shares(alloc, tables, &bodies, &marks)?;
    push_gone(tables, &mut bodies)?;
    Ok(Rows::new(bodies, rows))
}
