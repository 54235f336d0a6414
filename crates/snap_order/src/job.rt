//! What a worker has in a round, and its work.

ghost use Rattle.std.specs.Prelude.{◌≡◌, ◌<◌, ◌/◌, IfOk, OnOk, length};
ghost use Rattle.snap_rows.specs.Entries.{ranks};
ghost use Rattle.snap_order.specs.Hands.{InPlace, IsTwo, StepsBy, part_of};
ghost use Rattle.snap_order.specs.Jobs.{HasWorked, IsJob, WorkedOn};

use crate::gate::Gate;
use crate::hand::{Stepped, step_here};
use snap_core::NoMemory;
use snap_core::store::Store;
use snap_net::flying::Flying;
use snap_rows::valid::Valid;
use std::alloc::Global;
use std::collections::VecDeque;

/// What a worker has in a round: all that its switches hold.
#[derive(Drop)]
pub(crate) struct Job {
    /// How many jobs there are.
    pub workers: u16,
    /// The stores of its switches: that of `at` has the place `at / workers`.
    pub stores: Vec<Store>,
    /// How many packets ranks have handled; of other switches' ranks what was handled before the round. Empty before it works.
    pub counts: Vec<u64>,
    /// Its copies that have made no step, in the order of the list of all.
    pub copies: VecDeque<Flying>,
    /// What its steps gave.
    pub done: VecDeque<Stepped>,
    /// Memory was short: some copies have made no step.
    pub is_short: bool,
}

/// Makes a step of each copy of a job. The gate is told of each switch that holds one, once, before the first step.
pub(crate) fn work<G: Gate>(
    alloc: Global,
    tables: &Valid,
    counts: &[u64],
    number: u64,
    gate: &G,
    job: &mut Job,
)
    requires tables { IsTwo tables.now }
    requires counts { length counts.now ≡ ranks tables.now }
    requires job { IsJob tables.now job.old }
    ensures { HasWorked tables.now counts.now job.old job.new }
{
    job.is_short = step_all(alloc, tables, counts, number, gate, job).is_err();
}

// Makes a step of each copy of a job.
fn step_all<G: Gate>(
    alloc: Global,
    tables: &Valid,
    counts: &[u64],
    number: u64,
    gate: &G,
    job: &mut Job,
) -> Result<(), NoMemory>
    requires tables { IsTwo tables.now }
    requires counts { length counts.now ≡ ranks tables.now }
    requires job { IsJob tables.now job.old }
    ensures { OnOk result (WorkedOn tables.now counts.now job.old job.new) }
{
    pass_all(switches_of(alloc, &job.copies)?, number, gate);
    job.counts = copied(alloc, counts)?;
    let workers = job.workers;
    while let Some(copy) = job.copies.pop_front() {
        let stepped = step_in(
            alloc,
            tables,
            workers,
            &mut job.stores,
            &mut job.counts,
            copy,
        )?;
        job.done.push_back(stepped)?;
    }
    Ok(())
}

// Makes a step of a copy of a job that has these stores and numbers.
fn step_in(
    alloc: Global,
    tables: &Valid,
    workers: u16,
    stores: &mut Vec<Store>,
    counts: &mut Vec<u64>,
    copy: Flying,
) -> Result<Stepped, NoMemory>
    requires tables { IsTwo tables.now }
    requires workers { 0 < workers }
    requires store { copy.at / workers < length stores.old.items }
    requires counts { length counts.old.items ≡ ranks tables.now }
    requires place { InPlace tables.now copy }
    ensures long { OnOk result (length stores.new.items ≡ length stores.old.items) }
    ensures steps { IfOk result (StepsBy tables.now workers copy (part_of workers stores.old.items counts.old.items) (part_of workers stores.new.items counts.new.items)) }
{
    let place = (copy.at / workers) as usize;
    step_here(alloc, tables, &mut stores[place], counts, copy)
}

// The same numbers.
fn copied(alloc: Global, counts: &[u64]) -> Result<Vec<u64>, NoMemory>
    ensures { IfOk result (λ copy. copy.items ≡ counts.now) }
{
    Ok(counts.to_vec(alloc)?)
}

// The switches of copies.
fn switches_of(alloc: Global, copies: &VecDeque<Flying>) -> Result<Vec<u16>, NoMemory> {
    let mut switches = Vec::with_capacity(alloc, copies.len())?;
    for copy in copies {
        switches.push(copy.at)?;
    }
    Ok(switches)
}

/// Tells the gate of each of these switches, once.
pub(crate) fn pass_all<G: Gate>(switches: Vec<u16>, number: u64, gate: &G) {
    let mut switches = switches;
    switches.sort_unstable();
    switches.dedup();
    for at in switches {
        gate.pass(number, at);
    }
}
