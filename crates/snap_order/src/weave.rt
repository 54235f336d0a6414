//! What the workers of a round made, put together in the order of the copies.

ghost use Rattle.std.specs.Prelude.{◌≡◌, ◌≢◌, ◌<◌, ◌%◌, ℕ, List, None, Some, ◌∷◌, IfOk, IfSome, false, true, get_or, length, map};
ghost use Rattle.snap_rows.specs.Entries.{rank_at, ranks};
ghost use Rattle.snap_net.specs.declared.flying.Flying.{Flying};
ghost use Rattle.snap_order.specs.declared.job.Job.{Job};
ghost use Rattle.snap_order.specs.Weaving.{AreWoven, HasCounts, queues_of};

use crate::hand::Stepped;
use crate::job::Job;
use snap_core::NoMemory;
use snap_net::flying::Flying;
use snap_net::happened::Moved;
use snap_rows::valid::Valid;
use std::alloc::Global;

/// What the steps of a round gave, and the copies that they left, both in the order of the copies that stepped.
#[derive(Drop)]
pub(crate) struct Web {
    pub done: Vec<Moved>,
    pub flying: Vec<Flying>,
}

/// Puts together what the steps of copies gave, which stood at these switches.
pub(crate) fn weave(
    alloc: Global,
    workers: u16,
    switches: &[u16],
    jobs: &mut Vec<Job>,
) -> Result<Web, NoMemory>
    requires workers { 0 < workers }
    requires jobs { length jobs.old.items ≡ workers }
    ensures { IfOk result (λ web. (cs : List Flying) → map (λ (c : Flying). c.at) cs ≡ switches.now → AreWoven workers cs (queues_of jobs.old.items) web) }
{
    let mut done = Vec::with_capacity(alloc, switches.len())?;
    let mut flying = Vec::with_capacity(alloc, switches.len())?;
    for at in switches {
        let Some(stepped) = next_of(jobs, (*at % workers) as usize) else {
            // Each copy has made its step, so only memory can be short.
            return Err(NoMemory);
        };
        let Stepped { moved, left } = stepped;
        let mut left = left;
        done.push(moved)?;
        flying.append(&mut left)?;
    }
    Ok(Web { done, flying })
}

// Takes out what the first step of a job gave.
fn next_of(jobs: &mut Vec<Job>, rest: usize) -> Option<Stepped>
    requires { rest < length jobs.old.items }
    ensures first { IfSome result (λ stepped. queues_of jobs.old.items rest ≡ stepped ∷ queues_of jobs.new.items rest) }
    ensures others { (j : ℕ) → j ≢ rest → queues_of jobs.new.items j ≡ queues_of jobs.old.items j }
    ensures long { length jobs.new.items ≡ length jobs.old.items }
{
    jobs[rest].done.pop_front()
}

/// Whether memory was short for a job.
pub(crate) fn is_short(jobs: &[Job]) -> bool
    ensures { result ≡ false → (j : ℕ) (d : Job) → j < length jobs.now → (get_or jobs.now j d).is_short ≡ false }
{
    for job in jobs {
        if job.is_short {
            return true;
        }
    }
    false
}

/// Counts what the ranks have handled, by the jobs of the switches that own them.
pub(crate) fn count_all(tables: &Valid, workers: u16, jobs: &[Job], counts: &mut Vec<u64>)
    requires workers { 0 < workers }
    requires jobs { length jobs.now ≡ workers }
    requires counts { length counts.old.items ≡ ranks tables.now }
    ensures counts { (r : ℕ) → r < ranks tables.now → HasCounts tables.now workers jobs.now r (get_or counts.old.items r 0) (get_or counts.new.items r 0) }
    ensures long { length counts.new.items ≡ length counts.old.items }
{
    for rank in 0..tables.ranks() {
        let before = counts[rank as usize];
        counts[rank as usize] = count_of(tables, workers, jobs, rank, before);
    }
}

// How many packets a rank has handled, which had handled so many before.
fn count_of(tables: &Valid, workers: u16, jobs: &[Job], rank: u16, before: u64) -> u64
    requires workers { 0 < workers }
    requires jobs { length jobs.now ≡ workers }
    ensures { HasCounts tables.now workers jobs.now rank before result }
{
    match tables.rank_at(rank) {
        Some(at) => count_in(&jobs[(at % workers) as usize], rank, before),
        None => before,
    }
}

// The number that a job counts for a rank, if it counts.
fn count_in(job: &Job, rank: u16, before: u64) -> u64
    ensures { result ≡ get_or job.now.counts.items rank before }
{
    match job.counts.get(rank as usize) {
        Some(count) => *count,
        None => before,
    }
}
