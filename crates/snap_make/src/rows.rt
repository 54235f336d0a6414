//! The bodies of numbers in version 1, and where their arrays stand.

ghost use Rattle.std.specs.Prelude.{◌≡◌, ◌<◌, IfOk, length};
ghost use Rattle.snap_rows.specs.Entries.{var_of};
ghost use Rattle.snap_faithful.specs.Planned.{IsNodeKind};
ghost use Rattle.snap_faithful.specs.OnDemand.{place_of, staged, stages_of};
ghost use Rattle.snap_make.specs.Runs.{IsRun};

use snap_core::NoMemory;
use snap_core::lists::Updates;
use snap_core::policy::{Test, Update, copy_updates};
use snap_rows::lists::Stages;
use snap_rows::tables::{Row, Stage, Tables};
use std::alloc::Global;

/// The switch of an array; 0 where there is none.
pub fn place(tables: &Tables, var: u16) -> u16
    ensures { result ≡ place_of tables.now var }
{
    match tables.arrays.items().get(var as usize) {
        Some(array) => array.at,
        None => 0,
    }
}

/// The array of a state test; 0 for a test of fields.
pub fn var_of(test: &Test) -> u16
    ensures { result ≡ var_of test.now }
{
    match test {
        Test::State { var, .. } => *var,
        Test::Value { .. } | Test::Equal { .. } => 0,
    }
}

// Where the updates end that are at the switch of the one at `start`.
fn end_of_run(tables: &Tables, ups: &[Update], start: usize) -> usize
    requires { start < length ups.now }
    ensures { IsRun (place_of tables.now) ups.now start result }
{
    let at = place(tables, ups[start].var);
    for end in start + 1..ups.len() {
        let here = place(tables, ups[end].var);
        if here != at {
            return end;
        }
    }
    ups.len()
}

// The stages of updates: neighbours at one switch are one stage.
fn stages(alloc: Global, tables: &Tables, ups: &[Update]) -> Result<Vec<Stage>, NoMemory>
    ensures { IfOk result (λ r. r.items ≡ stages_of (place_of tables.now) ups.now) }
{
    let mut stages = Vec::new(alloc);
    let mut start = 0;
    while start < ups.len() {
        let end = end_of_run(tables, ups, start);
        stages.push(Stage {
            at: place(tables, ups[start].var),
            ups: Updates::new(copy_updates(alloc, &ups[start..end])?),
        })?;
        start = end;
    }
    Ok(stages)
}

/// The body of a number with this node: the updates of a leaf in stages. Refuses for memory alone.
pub fn staged(alloc: Global, tables: &Tables, node: &Row) -> Result<Row, NoMemory>
    requires { IsNodeKind node.now }
    ensures { IfOk result (λ r. r ≡ staged (place_of tables.now) node.now) }
{
    match node {
        Row::Field { test, yes, no } => Ok(Row::Field {
            test: test.copy()?,
            yes: *yes,
            no: *no,
        }),
        Row::State { test, yes, no } => Ok(Row::State {
            test: test.copy()?,
            yes: *yes,
            no: *no,
        }),
        Row::Last { ups, outs } => Ok(Row::Leaf {
            stages: Stages::new(stages(alloc, tables, ups.items())?),
            outs: outs.copy(alloc)?,
        }),
        Row::Go { .. } => unreachable!(),
        Row::Leaf { .. } => unreachable!(),
        Row::Stop => unreachable!(),
    }
}
