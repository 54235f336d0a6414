//! Whether tables of version 1 are single-owner: from the highest number down, where the chains from each number stand.

ghost use Rattle.std.specs.Prelude.{◌≡◌, ◌↔◌, IfOk, IsTrue};
ghost use Rattle.snap_rows.specs.Entries.{owner_of, var_of};
ghost use Rattle.snap_rows.specs.Form.{IsWellFormed};
ghost use Rattle.snap_rows.specs.SingleOwner.{IsSingleOwner};
ghost use Rattle.snap_rows.specs.Rules.{IsValid};
ghost use Rattle.snap_rows.specs.Standing.{beside, beside_owner, both, of_stages, of_node, standing_in, Splits};

use crate::rules::kind::is_field;
use crate::rules::nodes::nodes;
use crate::tables::{Row, Stage, Tables};
use snap_core::NoMemory;
use snap_core::policy::Test;
use std::alloc::Global;
use std::collections::BTreeMap;

/// At how many switches the chains from a number stand.
#[derive(Clone, Copy, Debug, PartialEq, Eq)]
pub(crate) enum Standing {
    Nowhere,
    At(u16),
    Apart,
}

// A switch beside others.
fn beside(at: u16, others: Standing) -> Standing
    ensures { result ≡ beside at others }
{
    match others {
        Standing::Nowhere => Standing::At(at),
        Standing::At(other) => {
            if at == other {
                Standing::At(at)
            } else {
                Standing::Apart
            }
        }
        Standing::Apart => Standing::Apart,
    }
}

fn both(left: Standing, right: Standing) -> Standing
    ensures { result ≡ both left right }
{
    match left {
        Standing::Nowhere => right,
        Standing::At(at) => beside(at, right),
        Standing::Apart => Standing::Apart,
    }
}

fn beside_owner(owner: Option<u16>, others: Standing) -> Standing
    ensures { result ≡ beside_owner owner others }
{
    match owner {
        Some(at) => beside(at, others),
        None => Standing::Nowhere,
    }
}

// Stages next to each other have different switches.
fn of_stages(stages: &[Stage]) -> Standing
    ensures { result ≡ of_stages stages.now }
{
    match stages {
        [] => Standing::Nowhere,
        [only] => Standing::At(only.at),
        _ => Standing::Apart,
    }
}

// The switch of a state test's array.
fn owner(tables: &Tables, test: &Test) -> Option<u16>
    ensures { result ≡ owner_of tables.now (var_of test.now) }
{
    let var = match test {
        Test::State { var, .. } => *var,
        Test::Value { .. } | Test::Equal { .. } => 0,
    };
    tables
        .arrays
        .items()
        .get(var as usize)
        .map(|array| array.at)
}

fn standing_of(known: &BTreeMap<u64, Standing>, number: u64) -> Standing
    ensures { result ≡ standing_in known.now number }
{
    match known.get(&number) {
        Some(standing) => *standing,
        None => Standing::Nowhere,
    }
}

// Where the chains from a number with this node stand, where that of greater numbers is known.
fn of_node(tables: &Tables, known: &BTreeMap<u64, Standing>, node: &Row) -> Standing
    ensures { result ≡ of_node tables.now (standing_in known.now) node.now }
{
    match node {
        Row::Field { yes, no, .. } => both(standing_of(known, *yes), standing_of(known, *no)),
        Row::State { test, yes, no } => {
            let after = both(standing_of(known, *yes), standing_of(known, *no));
            beside_owner(owner(tables, test), after)
        }
        Row::Leaf { stages, .. } => of_stages(stages.items()),
        Row::Go { .. } | Row::Stop | Row::Last { .. } => Standing::Nowhere,
    }
}

// Whether a row that stands at a switch itself stands apart from what comes after it.
fn splits(node: &Row, standing: Standing) -> bool
    ensures { IsTrue result ↔ Splits node.now standing }
{
    match standing {
        Standing::Apart => !is_field(node),
        Standing::Nowhere => false,
        Standing::At(_) => false,
    }
}

/// Whether tables of version 1 are single-owner. The answer is no at the first row that stands apart from what comes after
/// it: in valid tables a chain from number 0 comes to each row.
pub(crate) fn is_single_owner_one(alloc: Global, tables: &Tables) -> Result<bool, NoMemory>
    requires form { IsWellFormed tables.now }
    requires valid { IsValid tables.now }
    requires version { tables.now.version ≡ 1 }
    ensures { IfOk result (λ single_owner. IsTrue single_owner ↔ IsSingleOwner tables.now) }
{
    let nodes = nodes(alloc, tables, 0)?;
    let mut rest = nodes.into_map();
    let mut known = BTreeMap::new(alloc);
    while let Some((number, at)) = rest.pop_last() {
        let node = tables.rows.at(at).row;
        let standing = of_node(tables, &known, node);
        if splits(node, standing) {
            return Ok(false);
        }
        known.insert(number, standing)?;
    }
    Ok(true)
}
