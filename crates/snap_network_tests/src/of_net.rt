//! Runs of worked tables.

ghost use Rattle.std.specs.Prelude.{◌≡◌, ◌<◌, ◌∷◌, [], IfOk, IsTrue};
ghost use Rattle.snap_rows.specs.Form.{comps};

use crate::texts::{FIRST_COME, PARTING, THREE_WAYS, TWO_OWNERS_1, valid};
use snap_core::NoMemory;
use snap_core::packet::Packet;
use snap_core::place::Entry;
use snap_net::happened::{Happened, Moved};
use snap_net::net::{InjectFault, Net, StepFault, open_net};
use snap_net::passing::Passed;
use snap_net::watch::Unwatched;
use std::alloc::Global;
use std::test::Fail;

/// What is told of a step, the packet's number first.
#[derive(Clone, Copy, Debug, PartialEq, Eq)]
enum Told {
    /// From this switch to that one.
    Forwarded(u64, u16, u16),

    /// At this port, with this `outport`.
    Delivered(u64, u32, u64),

    /// Into so many copies, and so many are lost.
    Forked(u64, u64, u64),

    /// For its visit of this rank.
    Stayed(u64, u16),

    /// Before its visit of this rank.
    Waited(u64, u16),
}

fn summary(moved: &Moved) -> Told {
    match moved {
        Moved::Forwarded { number, from, to } => Told::Forwarded(*number, *from, *to),
        Moved::Delivered {
            number,
            port,
            packet,
        } => Told::Delivered(*number, *port, outport(packet)),
        Moved::Forked {
            number,
            copies,
            lost,
        } => Told::Forked(*number, *copies, *lost),
        Moved::Stayed { number, rank } => Told::Stayed(*number, *rank),
        Moved::Waited { number, rank } => Told::Waited(*number, *rank),
    }
}

fn outport(packet: &Packet) -> u64 {
    packet.comps().get(1).copied().unwrap_or(0)
}

fn packet(alloc: Global, port: u64) -> Result<Packet, NoMemory>
    ensures { IfOk result (λ k. k ≡ port ∷ 0 ∷ []) }
{
    Ok(Packet::new(vec![in alloc; port, 0]?))
}

// A network of the tables of a text.
fn opened(alloc: Global, text: &[u8]) -> Result<Net, NoMemory> {
    open_net(alloc, valid(alloc, text)?)
}

// Whether packets have two components, and few were injected.
fn takes_two(net: &Net) -> bool
    ensures comps { IsTrue result → comps net.now.tables ≡ 2 }
    ensures few { IsTrue result → net.now.injected < 9 }
{
    net.tables().tables().fields.count() == 2 && net.injected() < 9
}

// The number of a packet that comes in at a port, if there is that port.
fn inject(alloc: Global, net: &mut Net, port: u32) -> Result<Option<u64>, Fail> {
    if !takes_two(net) {
        return Err("a packet of two components doesn't fit")?;
    }
    let packet = packet(alloc, port as u64)?;
    match net.inject(port, packet) {
        Ok(number) => Ok(Some(number)),
        Err(InjectFault::NoPort) => Ok(None),
        Err(InjectFault::NoMemory) => Err(NoMemory)?,
    }
}

// What is told of a step of copy k.
fn told_of(net: &mut Net, k: usize) -> Result<Told, StepFault> {
    let moved = net.advance(k)?;
    Ok(summary(&moved))
}

// Steps of these copies, and what is told of them.
fn steps(alloc: Global, net: &mut Net, copies: &[usize]) -> Result<Vec<Told>, Fail> {
    let mut all = Vec::new(alloc);
    for k in copies {
        all.push(told_of(net, *k)?)?;
    }
    Ok(all)
}

// Steps of the first copy until none is in flight.
fn finish(net: &mut Net) -> Result<(), StepFault> {
    for _ in 0..9 {
        if net.flying() == 0 {
            break;
        }
        net.advance(0)?;
    }
    Ok(())
}

// The number at place 0 of the first array.
fn first_number(net: &Net) -> Option<u64> {
    if net.tables().tables().arrays.items().is_empty() {
        return None;
    }
    Some(net.array(0, &[0]))
}

// Whether a step of the first copy takes it over a link in this frame, or over none.
fn gives(net: &mut Net, bytes: &[u8]) -> Result<bool, StepFault> {
    match net.step(0)? {
        Happened::Forwarded { frame, .. } => Ok(frame.as_slice() == bytes),
        _ => Ok(bytes.is_empty()),
    }
}

const TO_B: &[u8] = &[
    1, 0, 0, 0, 0, 0, 0, 0, 0, 0, 0, 0, 0, 0, 0, 0, 1, 0, 0, 0, 0, 0, 0, 0, 0,
];

const TO_A: &[u8] = &[
    3, 0, 0, 0, 1, 0, 0, 0, 0, 0, 0, 0, 1, 0, 0, 0, 0, 0, 0, 0, 1,
];

// Whether the steps of the first copy give these frames, one after another.
fn give(net: &mut Net, frames: &[&[u8]]) -> Result<bool, StepFault> {
    for bytes in frames {
        if !gives(net, *bytes)? {
            return Ok(false);
        }
    }
    Ok(true)
}

// Whether the steps of a first packet give these frames, and the number that is left then.
fn framed(alloc: Global, net: &mut Net, frames: &[&[u8]]) -> Result<(bool, Option<u64>), Fail> {
    inject(alloc, net, 1)?;
    let are_given = give(net, frames)?;
    Ok((are_given, first_number(net)))
}

fn first_frames(alloc: Global) -> Result<(bool, Option<u64>), Fail> {
    let mut net = opened(alloc, FIRST_COME)?;
    framed(alloc, &mut net, &[TO_B, &[], TO_A, &[]])
}

#[test]
fn a_packet_carries_its_head(rt: HostRuntime) -> Result<(), Fail> {
    assert!(rt; first_frames(rt.alloc())? == (true, Some(1)));
    Ok(())
}

// Ports, of which the first isn't there, and the numbers that packets get there.
const NUMBERS: [(u32, Option<u64>); 3] = [(9, None), (1, Some(0)), (2, Some(1))];

fn numbers_are_given(alloc: Global, net: &mut Net) -> Result<bool, Fail> {
    for (port, number) in NUMBERS {
        if inject(alloc, net, port)? != number {
            return Ok(false);
        }
    }
    Ok(true)
}

fn are_numbered(alloc: Global) -> Result<bool, Fail> {
    let mut net = opened(alloc, FIRST_COME)?;
    numbers_are_given(alloc, &mut net)
}

#[test]
fn packets_are_numbered(rt: HostRuntime) -> Result<(), Fail> {
    assert!(rt; are_numbered(rt.alloc())?);
    Ok(())
}

// Whether a third copy of two can't make a step.
fn refuses_a_third(alloc: Global, net: &mut Net) -> Result<bool, Fail> {
    inject(alloc, net, 1)?;
    inject(alloc, net, 2)?;
    Ok(net.advance(2).is_err() && net.step(2).is_err())
}

fn lacks_a_third(alloc: Global) -> Result<bool, Fail> {
    let mut net = opened(alloc, FIRST_COME)?;
    refuses_a_third(alloc, &mut net)
}

#[test]
fn copies_that_are_not_there_make_no_step(rt: HostRuntime) -> Result<(), Fail> {
    assert!(rt; lacks_a_third(rt.alloc())?);
    Ok(())
}

// The number of an entry that is alone, and at place 0 of the first array.
fn number_alone(entries: &[Entry]) -> Option<u64> {
    match entries {
        [entry] => {
            if entry.place.var == 0 && entry.place.index.items() == [0].as_slice() {
                Some(entry.value)
            } else {
                None
            }
        }
        _ => None,
    }
}

// The number that is left at place 0 of the first array, where nothing is in flight and no other number is left.
fn left(net: &Net) -> Result<Option<u64>, NoMemory> {
    if net.flying() > 0 {
        return Ok(None);
    }
    let entries = net.entries()?;
    Ok(number_alone(&entries))
}

// What is told of steps, and the number that is left behind them.
#[derive(Drop)]
struct Run {
    told: Vec<Told>,
    left: Option<u64>,
}

// Two packets come in at these ports, and these copies make steps.
fn overlapped(
    alloc: Global,
    net: &mut Net,
    ports: (u32, u32),
    copies: &[usize],
) -> Result<Run, Fail> {
    inject(alloc, net, ports.0)?;
    inject(alloc, net, ports.1)?;
    let told = steps(alloc, net, copies)?;
    Ok(Run {
        told,
        left: left(net)?,
    })
}

// The same in a network of these tables.
fn stepped(alloc: Global, text: &[u8], ports: (u32, u32), copies: &[usize]) -> Result<Run, Fail> {
    let mut net = opened(alloc, text)?;
    overlapped(alloc, &mut net, ports, copies)
}

const TURNS: [Told; 6] = [
    Told::Forked(1, 1, 0),
    Told::Forwarded(0, 0, 1),
    Told::Forked(0, 1, 0),
    Told::Forwarded(1, 1, 0),
    Told::Delivered(1, 1, 1),
    Told::Delivered(0, 2, 2),
];

#[test]
fn overlapping_packets_take_turns_by_steps(rt: HostRuntime) -> Result<(), Fail> {
    let run = stepped(rt.alloc(), FIRST_COME, (1, 2), &[1, 0, 0, 1, 1, 0])?;
    assert!(rt; run.told.as_slice() == TURNS.as_slice());
    assert!(rt; run.left == Some(1));
    Ok(())
}

const LAST: [Told; 2] = [Told::Delivered(0, 1, 1), Told::Delivered(1, 1, 1)];

#[test]
fn two_owners_may_be_seen_in_no_order(rt: HostRuntime) -> Result<(), Fail> {
    let run = stepped(rt.alloc(), TWO_OWNERS_1, (1, 1), &[0, 1, 0, 1, 0, 1, 0, 0])?;
    assert!(rt; run.told.ends_with(LAST.as_slice()));
    assert!(rt; run.left == Some(2));
    Ok(())
}

// The number that is left by packets that come in at these ports, one after another.
fn left_behind(alloc: Global, net: &mut Net, ports: &[u32]) -> Result<Option<u64>, Fail> {
    for port in ports {
        inject(alloc, net, *port)?;
        finish(net)?;
    }
    Ok(left(net)?)
}

fn one_after_another(alloc: Global) -> Result<Option<u64>, Fail> {
    let mut net = opened(alloc, TWO_OWNERS_1)?;
    left_behind(alloc, &mut net, &[1, 1])
}

#[test]
fn two_owners_are_seen_in_order_one_after_another(rt: HostRuntime) -> Result<(), Fail> {
    assert!(rt; one_after_another(rt.alloc())? == Some(1));
    Ok(())
}

const EQUAL_COPIES: [Told; 6] = [
    Told::Forked(0, 1, 1),
    Told::Forked(1, 2, 1),
    Told::Delivered(1, 2, 2),
    Told::Forwarded(1, 1, 0),
    Told::Delivered(0, 1, 1),
    Told::Delivered(1, 1, 1),
];

#[test]
fn equal_copies_of_a_fork_are_one(rt: HostRuntime) -> Result<(), Fail> {
    let run = stepped(rt.alloc(), THREE_WAYS, (1, 2), &[0, 1, 2, 1, 0, 0])?;
    assert!(rt; run.told.as_slice() == EQUAL_COPIES.as_slice());
    Ok(())
}

// Whether nothing is in flight.
fn rests(net: &Net) -> bool
    ensures { IsTrue result → net.now.flying ≡ [] }
{
    net.flying() == 0
}

// What went out of a packet, by the `outport`s, and how many copies were for no port.
#[derive(Drop)]
struct Gone {
    outs: Vec<u64>,
    lost: u64,
}

// What went out of a packet that now is this one.
fn outs_of(alloc: Global, passed: &Passed, packet: &Packet) -> Result<Gone, NoMemory> {
    let mut outs = Vec::new(alloc);
    match passed {
        Passed::Alone => {
            outs.push(outport(packet))?;
            Ok(Gone { outs, lost: 0 })
        }
        Passed::Parted { copies, lost } => {
            for sent in copies {
                outs.push(outport(&sent.packet))?;
            }
            Ok(Gone { outs, lost: *lost })
        }
    }
}

// What goes out of a packet that comes in at a port.
fn pass(alloc: Global, net: &mut Net, port: u32) -> Result<Gone, Fail> {
    if !takes_two(net) || !rests(net) {
        return Err("a packet of two components doesn't fit")?;
    }
    let mut packet = packet(alloc, port as u64)?;
    match net.pass(port, &mut packet, &mut Unwatched) {
        Ok(passed) => Ok(outs_of(alloc, &passed, &packet)?),
        Err(InjectFault::NoPort) => Err("there is no such port")?,
        Err(InjectFault::NoMemory) => Err(NoMemory)?,
    }
}

// Ports, the `outport`s of what goes out of a packet from there, and how many copies are lost.
const PASSING: [(u32, &[u64], u64); 3] = [(1, &[1], 0), (2, &[], 1), (3, &[1, 2], 1)];

// Whether this goes out of packets one after another, and each leaves its `inport` alone.
fn pass_so(alloc: Global, net: &mut Net) -> Result<bool, Fail> {
    for (port, outs, lost) in PASSING {
        let gone = pass(alloc, net, port)?;
        if gone.outs.as_slice() != outs || gone.lost != lost || left(net)? != Some(port as u64) {
            return Ok(false);
        }
    }
    Ok(true)
}

fn passed_so(alloc: Global) -> Result<bool, Fail> {
    let mut net = opened(alloc, PARTING)?;
    pass_so(alloc, &mut net)
}

#[test]
fn packets_pass_alone_and_parted(rt: HostRuntime) -> Result<(), Fail> {
    assert!(rt; passed_so(rt.alloc())?);
    Ok(())
}
