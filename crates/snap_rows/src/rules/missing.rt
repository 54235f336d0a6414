//! The rule that each pair of switch and number to which an entry leads has a row.

ghost use Rattle.std.specs.Prelude.{◌≡◌, ◌↔◌, ◌<◌, ℕ, None, Some, IfOk, IfSome, IfNone, IsSome, IsTrue};
ghost use Rattle.std.specs.List.{All};
ghost use Rattle.snap_rows.specs.declared.tables.Row.{Row};
ghost use Rattle.snap_rows.specs.declared.tables.Rule.{Rule};
ghost use Rattle.snap_rows.specs.declared.tables.Spot.{Spot};
ghost use Rattle.snap_rows.specs.Entries.{row_at};
ghost use Rattle.snap_rows.specs.Form.{IsWellFormed, IsRowWellFormed, switch_count};
ghost use Rattle.snap_rows.specs.Leads.{HaveRows, HaveNext};
ghost use Rattle.snap_rows.specs.Rules.{Keeps, IsFirstSpot};

use crate::guesses::Guesses;
use crate::lists::Lent;
use crate::rules::leads::{has_row, led_next, led_over, numbers_have_rows};
use crate::tables::{Spot, Tables};
use snap_core::NoMemory;
use std::alloc::Global;

// Whether a number has a row at each of these switches.
fn all_have_rows(tables: &Tables, guesses: &Guesses, switches: &[u16], number: u64) -> bool
    requires { IsWellFormed tables.now }
    ensures { IsTrue result ↔ All (λ x. IsSome (row_at tables.now x number)) switches.now }
{
    switches
        .iter()
        .all(|at| has_row(tables, guesses, *at, number))
}

// Whether each pair to which a row leads has a row. The list is room for the switches that it leads over.
fn leads_have_rows(
    tables: &Tables,
    guesses: &Guesses,
    entry: Lent<'_>,
    over: &mut Vec<u16>,
) -> Result<bool, NoMemory>
    requires form { IsWellFormed tables.now }
    requires loops { IsFirstSpot tables.now Rule.Loop None }
    requires at { entry.at < switch_count tables.now }
    requires row { IsRowWellFormed tables.now entry.row.now }
    ensures { IfOk result (λ all. IsTrue all ↔ HaveRows tables.now entry.entry.at entry.entry.number entry.entry.row.now) }
{
    if !numbers_have_rows(tables, guesses, entry.at, entry.row) {
        return Ok(false);
    }
    led_over(tables, entry.at, entry.row, over)?;
    Ok(all_have_rows(tables, guesses, over, entry.number))
}

// Whether each pair to which a row leads at once has a row. The list is room for the switches that it leads to.
fn next_have_rows(
    tables: &Tables,
    guesses: &Guesses,
    entry: Lent<'_>,
    over: &mut Vec<u16>,
) -> Result<bool, NoMemory>
    requires form { IsWellFormed tables.now }
    requires loops { IsFirstSpot tables.now Rule.Loop None }
    requires at { entry.at < switch_count tables.now }
    requires row { IsRowWellFormed tables.now entry.row.now }
    ensures { IfOk result (λ all. IsTrue all → HaveNext tables.now entry.entry.at entry.entry.number entry.entry.row.now) }
{
    if !numbers_have_rows(tables, guesses, entry.at, entry.row) {
        return Ok(false);
    }
    led_next(tables, entry.at, entry.row, over)?;
    Ok(all_have_rows(tables, guesses, over, entry.number))
}

// Whether each pair to which a row leads at once has a row, for all rows. Then each pair to which a row leads has one.
fn all_next_have_rows(alloc: Global, tables: &Tables, guesses: &Guesses) -> Result<bool, NoMemory>
    requires form { IsWellFormed tables.now }
    requires loops { IsFirstSpot tables.now Rule.Loop None }
    ensures { IfOk result (λ all. IsTrue all → (w n : ℕ) (b : Row) → row_at tables.now w n ≡ Some b → HaveNext tables.now w n b) }
{
    let mut over = Vec::new(alloc);
    for place in 0..tables.rows.len() {
        if !next_have_rows(tables, guesses, tables.rows.at(place), &mut over)? {
            return Ok(false);
        }
    }
    Ok(true)
}

// The first port at whose switch number 0 has no row.
fn port_spot(tables: &Tables, guesses: &Guesses) -> Option<Spot>
    requires { IsWellFormed tables.now }
    ensures some { IfSome result (λ s. IsFirstSpot tables.now Rule.Missing (Some s)) }
    ensures none { IfNone result ((i : ℕ) → Keeps tables.now Rule.Missing (Spot.Port i)) }
{
    for (at, port) in tables.ports.items().iter().enumerate() {
        if !has_row(tables, guesses, port.at, 0) {
            return Some(Spot::Port(at as u32));
        }
    }
    None
}

// The first row that leads to a pair without a row, where all ports have theirs.
fn row_spot(alloc: Global, tables: &Tables, guesses: &Guesses) -> Result<Option<Spot>, NoMemory>
    requires form { IsWellFormed tables.now }
    requires loops { IsFirstSpot tables.now Rule.Loop None }
    requires ports { (i : ℕ) → Keeps tables.now Rule.Missing (Spot.Port i) }
    ensures { IfOk result (IsFirstSpot tables.now Rule.Missing) }
{
    let mut over = Vec::new(alloc);
    for at in 0..tables.rows.len() {
        if !leads_have_rows(tables, guesses, tables.rows.at(at), &mut over)? {
            return Ok(Some(Spot::Row(at as u64)));
        }
    }
    Ok(None)
}

// The same. All leads of a row are listed only where it is known that one of them has no row.
fn row_spot_if_any(
    alloc: Global,
    tables: &Tables,
    guesses: &Guesses,
) -> Result<Option<Spot>, NoMemory>
    requires form { IsWellFormed tables.now }
    requires loops { IsFirstSpot tables.now Rule.Loop None }
    requires kind { IsFirstSpot tables.now Rule.Kind None }
    requires ports { (i : ℕ) → Keeps tables.now Rule.Missing (Spot.Port i) }
    ensures { IfOk result (IsFirstSpot tables.now Rule.Missing) }
{
    if all_next_have_rows(alloc, tables, guesses)? {
        return Ok(None);
    }
    row_spot(alloc, tables, guesses)
}

/// The first port or row that leads to a pair without a row. Next hops lead to their targets.
pub(crate) fn missing_spot(
    alloc: Global,
    tables: &Tables,
    guesses: &Guesses,
) -> Result<Option<Spot>, NoMemory>
    requires form { IsWellFormed tables.now }
    requires loops { IsFirstSpot tables.now Rule.Loop None }
    requires kind { IsFirstSpot tables.now Rule.Kind None }
    ensures { IfOk result (IsFirstSpot tables.now Rule.Missing) }
{
    match port_spot(tables, guesses) {
        Some(spot) => Ok(Some(spot)),
        None => row_spot_if_any(alloc, tables, guesses),
    }
}
