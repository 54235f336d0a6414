//! A network in parts: what each worker gets for a round.

ghost use Rattle.std.specs.Prelude.{◌≡◌, ◌≢◌, ◌<◌, ℕ, [], ◌∷◌, ◌++◌, OnOk, IfOk, get_or, length, slice_set};
ghost use Rattle.snap_order.specs.declared.job.Job.{Job};
ghost use Rattle.snap_order.specs.Dealing.{AreDealt, AreExchanged, ArePlaces, IsDealt, SameButCopies, SameButStores};

use crate::job::Job;
use snap_core::NoMemory;
use snap_core::store::Store;
use snap_net::flying::Flying;
use snap_net::net::empty_stores;
use std::alloc::Global;
use std::collections::VecDeque;
use std::mem;

// Jobs of so many workers, without copies, with places for the stores of so many switches.
fn open_jobs(alloc: Global, workers: u16, switches: usize) -> Result<Vec<Job>, NoMemory>
    ensures { IfOk result (λ jobs. AreDealt workers switches [] jobs.items) }
{
    let mut jobs = Vec::with_capacity(alloc, workers as usize)?;
    for rest in 0..workers {
        jobs.push(open_job(alloc, workers, rest, switches)?)?;
    }
    Ok(jobs)
}

// The job of a remainder, without copies, with places for the stores of its switches.
fn open_job(alloc: Global, workers: u16, rest: u16, switches: usize) -> Result<Job, NoMemory>
    requires { rest < workers }
    ensures { IfOk result (IsDealt workers rest switches []) }
{
    let stores = empty_stores(alloc, places(workers, rest, switches))?;
    Ok(Job {
        workers,
        stores,
        counts: Vec::new(alloc),
        copies: VecDeque::new(alloc),
        done: VecDeque::new(alloc),
        is_short: false,
    })
}

// How many of so many switches have numbers of this remainder.
fn places(workers: u16, rest: u16, switches: usize) -> usize
    requires { rest < workers }
    ensures { ArePlaces workers rest switches result }
{
    switches
        .saturating_sub(rest as usize)
        .div_ceil(workers as usize)
}

/// Jobs of so many workers with the copies at their switches, and places for the stores of these.
pub(crate) fn deal(
    alloc: Global,
    workers: u16,
    switches: usize,
    copies: Vec<Flying>,
) -> Result<Vec<Job>, NoMemory>
    requires { 0 < workers }
    ensures { IfOk result (λ jobs. AreDealt workers switches copies.items jobs.items) }
{
    let mut jobs = open_jobs(alloc, workers, switches)?;
    let mut left = VecDeque::from(copies);
    while let Some(copy) = left.pop_front() {
        let rest = (copy.at % workers) as usize;
        take(&mut jobs, rest, copy)?;
    }
    Ok(jobs)
}

// Gives a job a copy.
fn take(jobs: &mut Vec<Job>, rest: usize, copy: Flying) -> Result<(), NoMemory>
    requires { rest < length jobs.old.items }
    ensures same { OnOk result ((j : ℕ) (d : Job) → j < length jobs.old.items → SameButCopies (get_or jobs.old.items j d) (get_or jobs.new.items j d)) }
    ensures here { OnOk result ((d : Job) → (get_or jobs.new.items rest d).copies.items ≡ (get_or jobs.old.items rest d).copies.items ++ copy ∷ []) }
    ensures others { OnOk result ((j : ℕ) (d : Job) → j ≢ rest → get_or jobs.new.items j d ≡ get_or jobs.old.items j d) }
    ensures long { length jobs.new.items ≡ length jobs.old.items }
{
    jobs[rest].copies.push_back(copy)?;
    Ok(())
}

/// Exchanges the store of each switch with that in its place at the switch's job.
pub(crate) fn exchange(workers: u16, stores: &mut Vec<Store>, jobs: &mut Vec<Job>)
    requires workers { 0 < workers }
    requires jobs { length jobs.old.items ≡ workers }
    requires places { (j : ℕ) (d : Job) → j < workers → ArePlaces workers j (length stores.old.items) (length (get_or jobs.old.items j d).stores.items) }
    ensures exchanged { AreExchanged workers (length stores.old.items) stores.old.items jobs.old.items stores.new.items jobs.new.items }
{
    let workers = workers as usize;
    for at in 0..stores.len() {
        swap_at(stores, at, jobs, at % workers, at / workers);
    }
}

// Exchanges the store of a switch with that in a place at a job.
fn swap_at(stores: &mut Vec<Store>, at: usize, jobs: &mut Vec<Job>, rest: usize, place: usize)
    requires at { at < length stores.old.items }
    requires rest { rest < length jobs.old.items }
    requires place { (d : Job) → place < length (get_or jobs.old.items rest d).stores.items }
    ensures stores { (d : Job) → stores.new.items ≡ slice_set stores.old.items at (get_or (get_or jobs.old.items rest d).stores.items place []) }
    ensures here { (d : Job) → (get_or jobs.new.items rest d).stores.items ≡ slice_set (get_or jobs.old.items rest d).stores.items place (get_or stores.old.items at []) }
    ensures same { (j : ℕ) (d : Job) → j < length jobs.old.items → SameButStores (get_or jobs.old.items j d) (get_or jobs.new.items j d) }
    ensures others { (j : ℕ) (d : Job) → j ≢ rest → get_or jobs.new.items j d ≡ get_or jobs.old.items j d }
    ensures long { length jobs.new.items ≡ length jobs.old.items }
{
    mem::swap(&mut stores[at], &mut jobs[rest].stores[place]);
}
