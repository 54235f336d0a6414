//! Where rows lead: to numbers at their own switch, and to other switches with their own number.

ghost use Rattle.std.specs.Prelude.{◌≡◌, ◌⊎◌, ◌↔◌, ◌++◌, ◌<◌, ℕ, suc, List, [], ◌∷◌, None, Some, OnOk, IsSome, IsTrue, Contains, map};
ghost use Rattle.std.specs.List.{All};
ghost use Rattle.snap_rows.specs.declared.tables.Rule.{Rule};
ghost use Rattle.snap_rows.specs.declared.tables.Stage.{Stage};
ghost use Rattle.snap_rows.specs.declared.tables.Row.TheVariants.{Leaf};
ghost use Rattle.snap_rows.specs.Entries.{Parts, row_at, rank_at, rank_of, var_of};
ghost use Rattle.snap_rows.specs.Form.{IsWellFormed, IsRowWellFormed, IsLeafStageWellFormed, switch_count};
ghost use Rattle.snap_rows.specs.Leads.{IsNumberAfter, AreLedOver, AreLedNext};
ghost use Rattle.snap_rows.specs.Rules.{IsFirstSpot};
ghost use Rattle.snap_rows.specs.Ways.{Way, Route, OwnsBelow};

use crate::guesses::Guesses;
use crate::look::{next, rank_at, rank_of_test, ranks, row};
use crate::tables::{Row, Stage, Tables};
use snap_core::NoMemory;
use snap_core::policy::Test;

/// Whether a switch has a row of a number.
pub(crate) fn has_row(tables: &Tables, guesses: &Guesses, at: u16, number: u64) -> bool
    requires { IsWellFormed tables.now }
    ensures { IsTrue result ↔ IsSome (row_at tables.now at number) }
{
    let guess = guesses.place(at, number);
    row(&tables.rows, guess, at, number).is_some()
}

fn has_both(tables: &Tables, guesses: &Guesses, at: u16, yes: u64, no: u64) -> bool
    requires { IsWellFormed tables.now }
    ensures { IsTrue result ↔ ((k : ℕ) → (k ≡ yes) ⊎ (k ≡ no) → IsSome (row_at tables.now at k)) }
{
    has_row(tables, guesses, at, yes) && has_row(tables, guesses, at, no)
}

/// Whether the numbers to which a test row leads have rows at its switch.
pub(crate) fn numbers_have_rows(tables: &Tables, guesses: &Guesses, at: u16, row: &Row) -> bool
    requires { IsWellFormed tables.now }
    ensures { IsTrue result ↔ ((k : ℕ) → IsNumberAfter row.now k → IsSome (row_at tables.now at k)) }
{
    match row {
        Row::Field { yes, no, .. } => has_both(tables, guesses, at, *yes, *no),
        Row::State { yes, no, .. } => has_both(tables, guesses, at, *yes, *no),
        Row::Go { .. } => true,
        Row::Leaf { .. } => true,
        Row::Stop => true,
        Row::Last { .. } => true,
    }
}

// Puts the owner of a rank at the end.
fn add_owner(tables: &Tables, rank: u16, owners: &mut Vec<u16>) -> Result<(), NoMemory>
    ensures { OnOk result ((x : ℕ) → (Contains owners.old.items x ⊎ (rank_at tables.now rank ≡ Some x)) ↔ Contains owners.new.items x) }
{
    if let Some(owner) = rank_at(tables.arrays.items(), rank) {
        owners.push(owner)?;
    }
    Ok(())
}

// The owners of the ranks below one, in place of what the list held.
fn owners(tables: &Tables, below: u16, owners: &mut Vec<u16>) -> Result<(), NoMemory>
    ensures { OnOk result ((x : ℕ) → OwnsBelow tables.now below x ↔ Contains owners.new.items x) }
{
    owners.clear();
    for rank in 0..below {
        add_owner(tables, rank, owners)?;
    }
    Ok(())
}

// The owners of the ranks up to that of a state test, in place of what the list held; none in version 1.
fn owners_up_to(tables: &Tables, test: &Test, over: &mut Vec<u16>) -> Result<(), NoMemory>
    requires { IsWellFormed tables.now }
    ensures { OnOk result ((x : ℕ) → ((tables.now.version ≡ 2) × OwnsBelow tables.now (suc (rank_of tables.now (var_of test.now))) x) ↔ Contains over.new.items x) }
{
    if tables.version != 2 {
        over.clear();
        return Ok(());
    }
    owners(tables, rank_of_test(tables, test) + 1, over)?;
    Ok(())
}

// Puts the switches after one on the way to a target at the end.
fn add_way(tables: &Tables, from: u16, target: u16, way: &mut Vec<u16>) -> Result<(), NoMemory>
    requires form { IsWellFormed tables.now }
    requires loops { IsFirstSpot tables.now Rule.Loop None }
    requires from { from < switch_count tables.now }
    requires target { target < switch_count tables.now }
    ensures { OnOk result ((ws : List ℕ) × Way tables.now target from ws × (way.new.items ≡ way.old.items ++ ws)) }
{
    let mut here = from;
    for step in 0..tables.switches.items().len() {
        if here == target {
            return Ok(());
        }
        here = next(tables, here, target);
        way.push(here)?;
    }
    unreachable!()
}

// The switches after one on the way to the switches of stages, one after another, in place of what the list held.
fn route(tables: &Tables, at: u16, stages: &[Stage], way: &mut Vec<u16>) -> Result<(), NoMemory>
    requires form { IsWellFormed tables.now }
    requires loops { IsFirstSpot tables.now Rule.Loop None }
    requires at { at < switch_count tables.now }
    requires stages { All (IsLeafStageWellFormed tables.now) stages.now }
    ensures { OnOk result (Route tables.now at (map (λ (s : Stage). s.at) stages.now) way.new.items) }
{
    way.clear();
    let mut here = at;
    for stage in stages {
        add_way(tables, here, stage.at, way)?;
        here = stage.at;
    }
    Ok(())
}

// One switch alone, in place of what the list held.
fn one_over(at: u16, over: &mut Vec<u16>) -> Result<(), NoMemory>
    ensures { OnOk result (over.new.items ≡ at ∷ []) }
{
    over.clear();
    over.push(at)?;
    Ok(())
}

/// The switches to which a row leads with its own number, in place of what the list held: where it has room for them,
/// this takes no memory.
pub(crate) fn led_over(
    tables: &Tables,
    at: u16,
    row: &Row,
    over: &mut Vec<u16>,
) -> Result<(), NoMemory>
    requires form { IsWellFormed tables.now }
    requires loops { IsFirstSpot tables.now Rule.Loop None }
    requires at { at < switch_count tables.now }
    requires row { IsRowWellFormed tables.now row.now }
    ensures { OnOk result (AreLedOver tables.now at row.now over.new.items) }
{
    match row {
        Row::Field { .. } => {
            over.clear();
            Ok(())
        }
        Row::State { test, .. } => owners_up_to(tables, test, over),
        Row::Go { to } => one_over(next(tables, at, *to), over),
        Row::Leaf { stages, .. } => route(tables, at, stages.items(), over),
        Row::Stop => owners(tables, 1, over),
        Row::Last { .. } => owners(tables, ranks(tables.arrays.items()), over),
    }
}

// The switches to which a leaf with these stages leads at once, in place of what the list held.
fn leaf_next(
    tables: &Tables,
    at: u16,
    stages: &[Stage],
    over: &mut Vec<u16>,
) -> Result<(), NoMemory>
    requires form { IsWellFormed tables.now }
    requires loops { IsFirstSpot tables.now Rule.Loop None }
    requires at { at < switch_count tables.now }
    requires stages { All (IsLeafStageWellFormed tables.now) stages.now }
    ensures { OnOk result ((outs : List Parts) → AreLedNext tables.now at (Leaf stages.now outs) over.new.items) }
{
    if stages.len() > 0 && stages[0].at != at {
        return one_over(next(tables, at, stages[0].at), over);
    }
    route(tables, at, stages, over)
}

/// The switches to which a row leads at once with its own number, in place of what the list held: where it has room for
/// them, this takes no memory. A way of many stages is listed once for each number, at the switch of its first stage.
pub(crate) fn led_next(
    tables: &Tables,
    at: u16,
    row: &Row,
    over: &mut Vec<u16>,
) -> Result<(), NoMemory>
    requires form { IsWellFormed tables.now }
    requires loops { IsFirstSpot tables.now Rule.Loop None }
    requires at { at < switch_count tables.now }
    requires row { IsRowWellFormed tables.now row.now }
    ensures { OnOk result (AreLedNext tables.now at row.now over.new.items) }
{
    match row {
        Row::Leaf { stages, .. } => leaf_next(tables, at, stages.items(), over),
        Row::Field { .. } => led_over(tables, at, row, over),
        Row::State { .. } => led_over(tables, at, row, over),
        Row::Go { .. } => led_over(tables, at, row, over),
        Row::Stop => led_over(tables, at, row, over),
        Row::Last { .. } => led_over(tables, at, row, over),
    }
}
