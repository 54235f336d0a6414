//! A network whose stores and copies are with its workers.

ghost use Rattle.std.specs.Prelude.{◌≡◌, ◌<◌, ℕ, IfOk, false, get_or, length};
ghost use Rattle.std.specs.List.{AllZip};
ghost use Rattle.snap_net.specs.Shown.{IsNetView};
ghost use Rattle.snap_order.specs.declared.job.Job.{Job};
ghost use Rattle.snap_order.specs.Jobs.{AreReady, HasWorked};
ghost use Rattle.snap_order.specs.Lending.{IsLent, held_again, IsHeldAgain, IsWorkedAt};
ghost use Rattle.snap_order.specs.Rounding.{IsRoundDone};
ghost use Rattle.snap_order.specs.Shown.{IsOrderedNetView, OrderedNetView};

use crate::deal::{deal, exchange};
use crate::gate::Gate;
use crate::job::Job;
use crate::net::{OrderedNet, OrderedParts, from_parts};
use crate::round::Rounded;
use crate::team::work_all;
use crate::weave::{Web, count_all, is_short, weave};
use snap_core::NoMemory;
use snap_core::store::Store;
use snap_net::parts::Parts;
use snap_rows::valid::Valid;
use std::alloc::Global;
use std::thread::Threads;

/// An ordered network in a round: its jobs have the copies and the stores, and here are empty stores in their place.
#[derive(Drop)]
pub(crate) struct Lent {
    pub tables: Valid,
    pub injected: u64,
    pub counts: Vec<u64>,
    pub stores: Vec<Store>,
    pub jobs: Vec<Job>,
}

/// Gives each of so many workers the copies and the stores of its switches.
pub(crate) fn lend(alloc: Global, net: OrderedNet, workers: u16) -> Result<Lent, NoMemory>
    requires { 0 < workers }
    ensures { IfOk result (λ lent. IsLent workers net lent.tables lent.injected lent.counts.items lent.stores.items lent.jobs.items) }
{
    let _known = net.flying();
    let taken = net.into_parts()?;
    let OrderedParts { parts, counts } = taken;
    let Parts {
        tables,
        stores,
        injected,
        flying,
    } = parts;
    match deal(alloc, workers, stores.len(), flying) {
        Ok(jobs) => {
            let mut stores = stores;
            let mut jobs = jobs;
            exchange(workers, &mut stores, &mut jobs);
            Ok(Lent {
                tables,
                injected,
                counts,
                stores,
                jobs,
            })
        }
        Err(fault) => {
            drop(tables);
            Err(fault)
        }
    }
}

/// Has all jobs done at once.
pub(crate) fn work_out<R: Threads + Sync, G: Gate>(
    rt: &R,
    alloc: Global,
    lent: Lent,
    number: u64,
    gate: &G,
) -> Result<Lent, NoMemory>
    requires { AreReady lent.tables lent.counts.items lent.jobs.items }
    ensures tables { IfOk result (λ done. done.tables ≡ lent.tables) }
    ensures injected { IfOk result (λ done. done.injected ≡ lent.injected) }
    ensures counts { IfOk result (λ done. done.counts.items ≡ lent.counts.items) }
    ensures stores { IfOk result (λ done. done.stores.items ≡ lent.stores.items) }
    ensures worked { IfOk result (λ done. AllZip (HasWorked lent.tables lent.counts.items) lent.jobs.items done.jobs.items) }
    ensures enough { IfOk result (λ done. (j : ℕ) (d : Job) → j < length done.jobs.items → (get_or done.jobs.items j d).is_short ≡ false) }
{
    let mut lent = lent;
    work_all(
        rt,
        alloc,
        &lent.tables,
        &lent.counts,
        number,
        gate,
        lent.jobs.as_mut_slice(),
    );
    if is_short(&lent.jobs) {
        return Err(NoMemory);
    }
    Ok(lent)
}

/// Puts the network together again, and what the steps gave of the copies that stood at these switches.
pub(crate) fn reassemble(
    alloc: Global,
    lent: Lent,
    workers: u16,
    switches: &[u16],
) -> Result<Rounded, NoMemory>
    requires workers { 0 < workers }
    requires worked { (v : OrderedNetView) × IsWorkedAt workers switches.now lent v }
    ensures done { IfOk result (λ rounded. (v : OrderedNetView) → IsWorkedAt workers switches.now lent v → IsRoundDone v rounded.net rounded.done.items) }
    ensures tables { IfOk result (λ rounded. rounded.net.net.tables ≡ lent.tables) }
    ensures injected { IfOk result (λ rounded. rounded.net.net.injected ≡ lent.injected) }
{
    let mut lent = lent;
    match gather(alloc, &mut lent, workers, switches) {
        Ok(web) => rejoin(alloc, lent, web),
        Err(fault) => {
            drop(lent);
            Err(fault)
        }
    }
}

// Takes the stores and the counts back from the jobs, and what the steps gave of the copies that stood at these switches:
// with it the network can be put together, and the round is made.
fn gather(alloc: Global, lent: &mut Lent, workers: u16, switches: &[u16]) -> Result<Web, NoMemory>
    requires workers { 0 < workers }
    requires worked { (v : OrderedNetView) × IsWorkedAt workers switches.now lent.old v }
    ensures held { IfOk result (λ web. IsNetView (held_again lent.new web)) }
    ensures ordered { IfOk result (λ web. IsOrderedNetView (record { net = held_again lent.new web; counts = lent.new.counts.items })) }
    ensures done { IfOk result (λ web. (v new : OrderedNetView) → IsWorkedAt workers switches.now lent.old v → IsHeldAgain lent.new web new → IsRoundDone v new web.done.items) }
    ensures tables { lent.new.tables ≡ lent.old.tables }
    ensures injected { lent.new.injected ≡ lent.old.injected }
{
    exchange(workers, &mut lent.stores, &mut lent.jobs);
    count_all(&lent.tables, workers, &lent.jobs, &mut lent.counts);
    let web = weave(alloc, workers, switches, &mut lent.jobs)?;
    Ok(web)
}

// Puts the network together from what was gathered. The jobs have nothing more of it.
fn rejoin(alloc: Global, lent: Lent, web: Web) -> Result<Rounded, NoMemory>
    requires held { IsNetView (held_again lent web) }
    requires ordered { IsOrderedNetView (record { net = held_again lent web; counts = lent.counts.items }) }
    ensures { IfOk result (λ rounded. IsHeldAgain lent web rounded.net × (rounded.done.items ≡ web.done.items)) }
{
    let Lent {
        tables,
        injected,
        counts,
        stores,
        jobs,
    } = lent;
    drop(jobs);
    let Web { done, flying } = web;
    let parts = Parts {
        tables,
        stores,
        injected,
        flying,
    };
    let net = from_parts(alloc, OrderedParts { parts, counts })?;
    Ok(Rounded { net, done })
}
