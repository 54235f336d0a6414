//! The rows of switches.

ghost use Rattle.std.specs.Prelude.{◌≡◌, ◌⊎◌, ◌<◌, ◌+◌, ◌^◌, ◌||◌, List, IfOk, IfSome, OnOk, Some, None, is_some, length, not, option_and_then, option_map, slice_get, unwrap_or, if◌then◌else◌};
ghost use Rattle.std.specs.List.{All};
ghost use Rattle.snap_rows.specs.declared.tables.ArrayAt.{ArrayAt};
ghost use Rattle.snap_rows.specs.declared.tables.Row.{Row};
ghost use Rattle.snap_rows.specs.declared.tables.Row.TheVariants as row;
ghost use Rattle.snap_rows.specs.Bodies.{IsPlaced};
ghost use Rattle.snap_rows.specs.Entries.{var_of};
ghost use Rattle.snap_faithful.specs.Planned.{row_for};
ghost use Rattle.snap_make.specs.Pairs.{at_switch, at_switches};
ghost use Rattle.snap_make.specs.Shares.{Adds, entries, shown, with_stop};
ghost use Rattle.snap_make.specs.Sites.{IsSite};

use crate::rows::var_of;
use crate::sites::{Site, is_within, site_at};
use snap_core::NoMemory;
use snap_rows::lists::Placed;
use snap_rows::tables::{ArrayAt, Row, Tables};
use std::alloc::Global;

fn rank_of(arrays: &[ArrayAt], var: u16) -> usize
    ensures { result ≡ unwrap_or (option_map (λ (a : ArrayAt). a.rank) (slice_get arrays.now var)) 0 }
{
    match arrays.get(var as usize) {
        Some(array) => array.rank as usize,
        None => 0,
    }
}

// Where the body of a row stands: by its number, where it is due.
fn place_of(due: bool, stops: bool, number: u32, stop: u32) -> Option<u32>
    ensures { result ≡ (if due then Some number else if stops then Some stop else None) }
{
    if due {
        Some(number)
    } else if stops {
        Some(stop)
    } else {
        None
    }
}

// Where the body stands of the row of a switch for a number with this one, if it has any.
fn place_at(
    tables: &Tables,
    site: Site,
    body: &Row,
    front: bool,
    number: u32,
    stop: u32,
) -> Option<u32>
    requires { IsSite tables.now site }
    ensures within { IfSome result (λ i. (i ≡ number) ⊎ (i ≡ stop)) }
    ensures row { (all : List Row) → slice_get all number ≡ Some body.now → slice_get all stop ≡ Some row.Stop → row_for tables.now site.at front (Some body.now) ≡ option_and_then (slice_get all) result }
{
    match body {
        Row::Field { .. } => place_of(site.port, false, number, stop),
        Row::State { test, .. } => {
            let rank = rank_of(tables.arrays.items(), var_of(test));
            let due = is_within(site.least, rank);
            place_of(due, site.port && front, number, stop)
        }
        Row::Last { .. } => place_of(site.leaves, site.port && front, number, stop),
        Row::Go { .. } | Row::Leaf { .. } | Row::Stop => None,
    }
}

// Whether a switch has neither a port nor arrays that packets visit.
fn is_unused(site: Site) -> bool
    ensures { result ≡ not (site.port || is_some site.least) }
{
    !(site.port || site.least.is_some())
}

// Adds the rows of a switch. Behind the bodies of all numbers stands `stop` for each of them.
fn push_rows(
    rows: &mut Vec<Placed>,
    tables: &Tables,
    site: Site,
    bodies: &[Row],
    fronts: &[bool],
) -> Result<(), NoMemory>
    requires site { IsSite tables.now site }
    requires wide { length fronts.now ≡ length bodies.now }
    requires few { length bodies.now + length bodies.now < 2 ^ 32 }
    requires placed { All (IsPlaced (with_stop bodies.now)) rows.old.items }
    ensures placed { OnOk result (All (IsPlaced (with_stop bodies.now)) rows.new.items) }
    ensures rows { OnOk result (Adds (with_stop bodies.now) rows.old.items
        (at_switch (shown tables.now bodies.now fronts.now site.at) site.at (length bodies.now)) rows.new.items) }
{
    if is_unused(site) {
        return Ok(());
    }
    for number in 0..bodies.len() {
        let own = number as u32;
        let stop = (bodies.len() + number) as u32;
        if let Some(body) = place_at(tables, site, &bodies[number], fronts[number], own, stop) {
            rows.push(Placed {
                number: number as u64,
                at: site.at,
                body,
            })?;
        }
    }
    Ok(())
}

/// The rows of all switches, by switch and number, of these bodies of numbers and a `stop` for each number behind them.
/// Takes time in proportion to the bodies for each switch with a port or an array. Refuses for memory alone.
pub(crate) fn shares(
    alloc: Global,
    tables: &Tables,
    bodies: &[Row],
    fronts: &[bool],
) -> Result<Vec<Placed>, NoMemory>
    requires wide { length fronts.now ≡ length bodies.now }
    requires few { length tables.now.switches < 65536 }
    ensures placed { IfOk result (λ r. All (IsPlaced (with_stop bodies.now)) r.items) }
    ensures rows { IfOk result (λ r. entries (with_stop bodies.now) r.items ≡ at_switches (shown tables.now bodies.now fronts.now) (length tables.now.switches) (length bodies.now)) }
{
    if u32::MAX as usize / 2 <= bodies.len() {
        return Err(NoMemory);
    }
    let mut rows = Vec::new(alloc);
    for at in 0..tables.switches.items().len() {
        let site = site_at(tables, at as u16);
        push_rows(&mut rows, tables, site, bodies, fronts)?;
    }
    Ok(rows)
}
