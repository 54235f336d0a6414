//! Steps in order of worked tables.

ghost use Rattle.std.specs.Prelude.{◌≡◌, ◌∷◌, ◌<◌, ◌+◌, [], IfOk, OnOk};
ghost use Rattle.snap_rows.specs.Form.{comps};

use super::two_owners;
use snap_core::NoMemory;
use snap_core::packet::Packet;
use snap_net::happened::Happened;
use snap_net::net::StepFault;
use snap_order::net::{OrderedNet, open_ordered};
use snap_order::turned::OrderedHappened;
use std::alloc::Global;
use std::test::Fail;

/// What is told of a step, the packet's number first.
#[derive(Clone, Copy, Debug, PartialEq, Eq)]
enum Told {
    /// Over a link, in a frame of so many bytes.
    Forwarded(u64, usize),

    /// Out at a port, or into copies.
    Moved,

    /// For its visit of this rank.
    Visited(u64, u16),

    /// Before its visit of this rank.
    Waited(u64, u16),
}

fn of_moved(happened: &Happened) -> Told {
    match happened {
        Happened::Forwarded { number, frame, .. } => Told::Forwarded(*number, frame.len()),
        Happened::Delivered { .. } => Told::Moved,
        Happened::Forked { .. } => Told::Moved,
    }
}

fn summary(turned: &OrderedHappened) -> Told {
    match turned {
        OrderedHappened::Moved(happened) => of_moved(happened),
        OrderedHappened::Visited { number, rank } => Told::Visited(*number, *rank),
        OrderedHappened::Waited { number, rank } => Told::Waited(*number, *rank),
    }
}

fn packet(alloc: Global) -> Result<Packet, NoMemory>
    ensures { IfOk result (λ k. k ≡ 1 ∷ 0 ∷ []) }
{
    Ok(Packet::new(vec![in alloc; 1, 0]?))
}

// A packet comes in at port 1.
fn inject(alloc: Global, net: &mut OrderedNet) -> Result<(), Fail>
    requires packet { comps net.old.net.tables ≡ 2 }
    requires room { net.old.net.injected < 9 }
    ensures tables { net.new.net.tables ≡ net.old.net.tables }
    ensures count { OnOk result (net.new.net.injected ≡ net.old.net.injected + 1) }
{
    let packet = packet(alloc)?;
    if net.inject(1, packet).is_err() {
        return Err("nothing came in")?;
    }
    Ok(())
}

// The first step of the second packet waits, and so does its second one.
const STEPS: &[(usize, Told)] = &[
    (1, Told::Waited(1, 0)),
    (0, Told::Forwarded(0, 27)),
    (1, Told::Forwarded(1, 27)),
    (1, Told::Waited(1, 1)),
    (0, Told::Moved),
    (0, Told::Forwarded(0, 21)),
];

fn told_of(net: &mut OrderedNet, k: usize) -> Result<Told, StepFault> {
    let turned = net.step(k)?;
    Ok(summary(&turned))
}

// Whether the steps of copies tell this, and there is no third copy.
fn tells(net: &mut OrderedNet) -> Result<bool, StepFault> {
    for (k, told) in STEPS {
        if told_of(net, *k)? != *told {
            return Ok(false);
        }
    }
    Ok(net.step(2).is_err())
}

fn two_come_in(alloc: Global, net: &mut OrderedNet) -> Result<bool, Fail>
    requires { net.old.net.injected ≡ 0 }
{
    if net.tables().tables().fields.count() != 2 {
        return Err("a packet of two components doesn't fit")?;
    }
    inject(alloc, net)?;
    inject(alloc, net)?;
    Ok(tells(net)?)
}

fn stepped(alloc: Global) -> Result<bool, Fail> {
    let mut net = open_ordered(alloc, two_owners(alloc)?)?;
    two_come_in(alloc, &mut net)
}

#[test]
fn steps_tell_frames_and_turns(rt: HostRuntime) -> Result<(), Fail> {
    assert!(rt; stepped(rt.alloc())?);
    Ok(())
}
