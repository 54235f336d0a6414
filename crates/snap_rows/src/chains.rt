//! Chains of tests of one component, each taken in one step.

ghost use Rattle.std.specs.Prelude.{◌≡◌, ◌<◌, Some, IfOk, OnOk, IfSome, length, unwrap_or};
ghost use Rattle.snap_core.specs.declared.policy.Test.TheVariants.{Value};
ghost use Rattle.snap_rows.specs.declared.tables.Row.TheVariants.{Field};
ghost use Rattle.snap_rows.specs.declared.tables.Tables.{Tables};
ghost use Rattle.snap_rows.specs.Chains.{picked, IsChain, AreChains};
ghost use Rattle.snap_rows.specs.Entries.{node_of};
ghost use Rattle.snap_rows.specs.Form.{IsWellFormed};
ghost use Rattle.snap_rows.specs.Rules.{IsValid};
ghost use Rattle.snap_rows.specs.Standing.{AreNodesFrom, place_in};

use crate::rules::nodes::{Numbered, node};
use crate::tables::{Row, Tables};
use snap_core::NoMemory;
use snap_core::cases::Cases;
use snap_core::packet::Packet;
use snap_core::policy::Test;
use std::alloc::Global;

// A shorter run is taken test by test.
const FEW: usize = 4;

// Greater numbers begin no chain, and no chain is longer.
const MOST: usize = 65_535;

// Where no chain begins.
const NOWHERE: u16 = u16::MAX;

/// Value tests of one component, each the `no` of the one before it, from a first number on: where each value of the
/// component leads, and where all others do.
#[derive(Drop)]
pub(crate) struct Chain {
    first: u64,
    comp: u16,
    cases: Cases,
    rest: u64,
}

impl Chain {
    /// The number to which it leads a packet.
    #[inline(always)]
    pub(crate) fn pick(&self, packet: &Packet) -> u64
        requires { self.now.comp < length packet.now }
        ensures { result ≡ picked self.now packet.now }
    {
        self.cases.get(packet.get(self.comp)).unwrap_or(self.rest)
    }
}

/// Chains, and by number where the one that begins there probably stands. Whoever looks there looks at its first
/// number.
#[derive(Drop)]
pub(crate) struct Chains {
    places: Vec<u16>,
    chains: Vec<Chain>,
}

impl Chains {
    /// The chains of valid tables.
    pub(crate) fn of(alloc: Global, tables: &Tables, nodes: &Numbered) -> Result<Chains, NoMemory>
        requires form { IsWellFormed tables.now }
        requires valid { IsValid tables.now }
        requires nodes { AreNodesFrom tables.now 0 (place_in nodes.now) }
        ensures { IfOk result (AreChains tables.now) }
    {
        let below = tables.rows.len().min(MOST);
        let ways = ways(alloc, tables, nodes, below)?;
        let mut chains = Chains {
            places: Vec::with_capacity(alloc, below)?,
            chains: Vec::new(alloc),
        };
        for number in 0..below {
            let chain = chain_from(alloc, tables, nodes, &ways, number as u64)?;
            chains.add(chain)?;
        }
        Ok(chains)
    }

    /// The chain that begins at a number. Takes no memory.
    #[inline(always)]
    pub(crate) fn at(&self, number: u64) -> Option<&Chain>
        ensures { (t : Tables) → AreChains t self.now → IfSome result (λ c. IsChain t c.now × (c.now.first ≡ number)) }
    {
        let place = *self.places.get(number as usize)?;
        let chain = self.chains.get(place as usize)?;
        if chain.first == number {
            Some(chain)
        } else {
            None
        }
    }

    // Adds the chain of the next number.
    fn add(&mut self, chain: Option<Chain>) -> Result<(), NoMemory>
        ensures { OnOk result ((t : Tables) → AreChains t self.old → IfSome chain (IsChain t) → AreChains t self.new) }
    {
        match chain {
            Some(chain) => {
                self.places.push(self.chains.len().min(MOST) as u16)?;
                self.chains.push(chain)?;
            }
            None => self.places.push(NOWHERE)?,
        }
        Ok(())
    }
}

/// A test whether a component is a number, and where it leads.
#[derive(Clone, Copy)]
struct Step {
    comp: u16,
    num: u64,
    yes: u64,
    no: u64,
}

fn step_of(row: &Row) -> Option<Step>
    ensures { IfSome result (λ s. row.now ≡ Field (Value s.comp s.num) s.yes s.no) }
{
    match row {
        Row::Field { test, yes, no } => match test {
            Test::Value { comp, num } => Some(Step {
                comp: *comp,
                num: *num,
                yes: *yes,
                no: *no,
            }),
            Test::Equal { .. } => None,
            Test::State { .. } => None,
        },
        Row::State { .. } => None,
        Row::Go { .. } => None,
        Row::Leaf { .. } => None,
        Row::Stop => None,
        Row::Last { .. } => None,
    }
}

// The value test of a number.
fn step_at(tables: &Tables, nodes: &Numbered, number: u64) -> Option<Step>
    requires { AreNodesFrom tables.now 0 (place_in nodes.now) }
    ensures { IfSome result (λ s. node_of tables.now number ≡ Some (Field (Value s.comp s.num) s.yes s.no)) }
{
    match node(tables, nodes, number) {
        Some(row) => step_of(row),
        None => None,
    }
}

// How many ways lead to each number, as far as it matters: the next test of one run counts once, all else twice.
fn ways(alloc: Global, tables: &Tables, nodes: &Numbered, below: usize) -> Result<Vec<u8>, NoMemory>
    requires { AreNodesFrom tables.now 0 (place_in nodes.now) }
{
    let mut ways = vec![in alloc; 0; below]?;
    count_way(&mut ways, 0, 2);
    for number in 0..below {
        count_ways(tables, nodes, &mut ways, number as u64);
    }
    Ok(ways)
}

// Counts the ways from a number.
fn count_ways(tables: &Tables, nodes: &Numbered, ways: &mut Vec<u8>, number: u64)
    requires { AreNodesFrom tables.now 0 (place_in nodes.now) }
{
    let Some(row) = node(tables, nodes, number) else {
        return;
    };
    match row {
        Row::Field { yes, no, .. } => {
            let same = is_next(tables, nodes, row, *no);
            count_way(ways, *yes, 2);
            count_way(ways, *no, if same { 1 } else { 2 });
        }
        Row::State { yes, no, .. } => {
            count_way(ways, *yes, 2);
            count_way(ways, *no, 2);
        }
        Row::Go { .. } => {}
        Row::Leaf { .. } => {}
        Row::Stop => {}
        Row::Last { .. } => {}
    }
}

fn count_way(ways: &mut Vec<u8>, number: u64, count: u8) {
    if let Some(held) = ways.get_mut(number as usize) {
        *held = held.saturating_add(count);
    }
}

// Whether a row and the test of a number are value tests of one component.
fn is_next(tables: &Tables, nodes: &Numbered, row: &Row, number: u64) -> bool
    requires { AreNodesFrom tables.now 0 (place_in nodes.now) }
{
    match (step_of(row), step_at(tables, nodes, number)) {
        (Some(step), Some(next)) => step.comp == next.comp,
        _ => false,
    }
}

// Whether a chain may begin at a number. All others but those of great numbers stand in the run of another.
fn is_head(ways: &[u8], number: u64) -> bool {
    ways.get(number as usize).copied().unwrap_or(2) > 1
}

// The next test of a chain of some length: none at another head, at another test, and where it is long.
fn next_step(
    tables: &Tables,
    nodes: &Numbered,
    ways: &[u8],
    comp: u16,
    count: usize,
    number: u64,
) -> Option<Step>
    requires { AreNodesFrom tables.now 0 (place_in nodes.now) }
    ensures { IfSome result (λ s. (count < MOST) × (node_of tables.now number ≡ Some (Field (Value comp s.num) s.yes s.no))) }
{
    if count >= MOST || is_head(ways, number) {
        return None;
    }
    match step_at(tables, nodes, number) {
        Some(step) if step.comp == comp => Some(step),
        _ => None,
    }
}

// The chain of a number, if one begins there.
fn chain_from(
    alloc: Global,
    tables: &Tables,
    nodes: &Numbered,
    ways: &[u8],
    first: u64,
) -> Result<Option<Chain>, NoMemory>
    requires form { IsWellFormed tables.now }
    requires valid { IsValid tables.now }
    requires nodes { AreNodesFrom tables.now 0 (place_in nodes.now) }
    ensures { IfOk result (λ o. IfSome o (IsChain tables.now)) }
{
    if !is_head(ways, first) {
        return Ok(None);
    }
    let Some(step) = step_at(tables, nodes, first) else {
        return Ok(None);
    };
    let mut cases = Vec::new(alloc);
    cases.push((step.num, step.yes))?;
    let mut rest = step.no;
    while let Some(next) = next_step(tables, nodes, ways, step.comp, cases.len(), rest) {
        cases.push((next.num, next.yes))?;
        rest = next.no;
    }
    if cases.len() < FEW {
        return Ok(None);
    }
    Ok(Some(Chain {
        first,
        comp: step.comp,
        cases: Cases::of(cases)?,
        rest,
    }))
}
