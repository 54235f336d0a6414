//! A round of the ordered network.

ghost use Rattle.std.specs.Prelude.{◌≡◌, ◌≤◌, ◌<◌, IfOk, map};
ghost use Rattle.snap_net.specs.declared.flying.Flying.{Flying};
ghost use Rattle.snap_order.specs.Rounding.{IsRoundDone};

use crate::gate::Gate;
use crate::job::pass_all;
use crate::lent::{lend, reassemble, work_out};
use crate::net::OrderedNet;
use snap_core::NoMemory;
use snap_net::happened::Moved;
use snap_net::net::StepFault;
use std::thread::Threads;

/// An ordered network after a round, and what each step of the round gave, in their order.
#[derive(Drop)]
pub struct Rounded {
    pub net: OrderedNet,
    pub done: Vec<Moved>,
}

/// Makes a round: each copy in flight makes a step, in the order of the list. A copy that a fork makes in the round isn't
/// taken in it.
///
/// The switches whose numbers have the same remainder by `workers` form a job. Jobs run at once, on threads that are joined
/// before the call returns, and own what their switches hold. A job without copies takes no thread, and where one job has
/// them all none is started. Refuses for memory alone.
pub fn round<R: Threads + Sync, G: Gate>(
    rt: &R,
    net: OrderedNet,
    number: u64,
    workers: u16,
    gate: &G,
) -> Result<Rounded, NoMemory>
    requires workers { (1 ≤ workers) × (workers ≤ 64) }
    ensures done { IfOk result (λ rounded. IsRoundDone net rounded.net rounded.done.items) }
    ensures tables { IfOk result (λ rounded. rounded.net.net.tables ≡ net.net.tables) }
    ensures injected { IfOk result (λ rounded. rounded.net.net.injected ≡ net.net.injected) }
{
    if are_apart(&net, workers) {
        return share_out(rt, net, number, workers, gate);
    }
    let mut net = net;
    match pass_and_step(&mut net, number, gate) {
        Ok(done) => Ok(Rounded { net, done }),
        Err(fault) => {
            drop(net);
            Err(fault)
        }
    }
}

// Makes a round by this thread alone: it comes to each switch of the copies, and makes their steps.
fn pass_and_step<G: Gate>(
    net: &mut OrderedNet,
    number: u64,
    gate: &G,
) -> Result<Vec<Moved>, NoMemory>
    ensures done { IfOk result (λ done. IsRoundDone net.old net.new done.items) }
    ensures tables { net.new.net.tables ≡ net.old.net.tables }
    ensures injected { net.new.net.injected ≡ net.old.net.injected }
{
    let switches = switches_of(net)?;
    pass_all(switches, number, gate);
    step_all(net)
}

// Whether copies are at switches of different jobs.
fn are_apart(net: &OrderedNet, workers: u16) -> bool
    requires { 0 < workers }
{
    for k in 1..net.flying() {
        if net.network().copy(k).at % workers != net.network().copy(0).at % workers {
            return true;
        }
    }
    false
}

// Makes a round by jobs.
fn share_out<R: Threads + Sync, G: Gate>(
    rt: &R,
    net: OrderedNet,
    number: u64,
    workers: u16,
    gate: &G,
) -> Result<Rounded, NoMemory>
    requires workers { (1 ≤ workers) × (workers ≤ 64) }
    ensures done { IfOk result (λ rounded. IsRoundDone net rounded.net rounded.done.items) }
    ensures tables { IfOk result (λ rounded. rounded.net.net.tables ≡ net.net.tables) }
    ensures injected { IfOk result (λ rounded. rounded.net.net.injected ≡ net.net.injected) }
{
    let alloc = net.alloc();
    match switches_of(&net) {
        Ok(switches) => {
            let lent = lend(alloc, net, workers)?;
            let worked = work_out(rt, alloc, lent, number, gate)?;
            reassemble(alloc, worked, workers, &switches)
        }
        Err(fault) => {
            drop(net);
            Err(fault)
        }
    }
}

// Makes a step of each copy in flight, in the order of the list.
fn step_all(net: &mut OrderedNet) -> Result<Vec<Moved>, NoMemory>
    ensures done { IfOk result (λ done. IsRoundDone net.old net.new done.items) }
    ensures tables { net.new.net.tables ≡ net.old.net.tables }
    ensures injected { net.new.net.injected ≡ net.old.net.injected }
{
    let mut done = Vec::new(net.alloc());
    let mut place = 0;
    while place < net.flying() {
        // So many copies haven't been taken.
        let left = net.flying() - place - 1;
        let moved = match net.advance(place) {
            Ok(moved) => moved,
            Err(StepFault::NoMemory) => return Err(NoMemory),
            // There is such a copy.
            Err(StepFault::NoCopy) => unreachable!(),
        };
        done.push(moved)?;
        place = net.flying() - left;
    }
    Ok(done)
}

// The switches of the copies, in the order of the list.
fn switches_of(net: &OrderedNet) -> Result<Vec<u16>, NoMemory>
    ensures { IfOk result (λ switches. switches.items ≡ map (λ (c : Flying). c.at) net.now.net.flying) }
{
    let mut switches = Vec::with_capacity(net.alloc(), net.flying())?;
    for k in 0..net.flying() {
        switches.push(net.network().copy(k).at)?;
    }
    Ok(switches)
}
