ghost use Rattle.snap_diagrams.specs.Picks.{IsWellFormedDiagram};

use crate::agreement::{outs_fit_packet, updates_fit};
use crate::given::{Made, drawn, leaf_at};
use snap_core::lists::Out;
use snap_core::outs::after_all;
use snap_core::packet::Packet;
use snap_core::store::Store;
use snap_diagrams::leaf::{Go, Leaf};
use std::alloc::Global;
use std::test::Fail;

const FORKED: &str = "(id + outport <- 2); s[inport]++";

const TESTED: &str =
    "s[srcport] <- dstport; s[inport]++; if s[srcport] = 0 then outport <- 1 else outport <- 2";

const BEHIND_AN_OUT: &str =
    "outport <- srcport; if outport = 9 then outport <- 1 else outport <- 2";

// What comes of a packet: its `outport`, and the numbers at `s[inport]` and at `s[srcport]`.
type Gives = (u64, u64, u64);

// Bodies, the packet's `inport`, `outport`, `srcport` and `dstport`, and what comes of it, nothing where two parts race.
const ROWS: &[(&str, [u64; 4], Option<Gives>)] = &[
    // Equal copies are one, and others race.
    (
        "(id + srcport <- 1); s[inport]++",
        [1, 2, 1, 0],
        Some((2, 1, 1)),
    ),
    (FORKED, [1, 2, 0, 0], Some((2, 1, 0))),
    (FORKED, [1, 3, 0, 0], None),
    // A test sees the updates before it, and what outs set.
    (TESTED, [7, 0, 7, 18446744073709551615], Some((1, 0, 0))),
    (TESTED, [7, 0, 8, 5], Some((2, 1, 5))),
    (BEHIND_AN_OUT, [4, 5, 9, 0], Some((1, 0, 0))),
    (BEHIND_AN_OUT, [4, 9, 5, 0], Some((2, 0, 0))),
];

// The `outport` of the packet that these are.
fn outport(packets: &[Packet]) -> Result<u64, Fail> {
    match packets {
        [one] => Ok(one.comps().get(1).copied().unwrap_or(0)),
        _ => Err("not one packet")?,
    }
}

// The `outport` that outs give a packet.
fn sent(alloc: Global, outs: &[Out], packet: &Packet) -> Result<u64, Fail> {
    if !outs_fit_packet(outs, packet) {
        return Err("the outs don't fit")?;
    }
    let packets = after_all(alloc, outs, packet)?;
    outport(packets.list())
}

// What a leaf makes of a store and the packet with these components.
fn made(
    alloc: Global,
    go: &Go,
    store: &mut Store,
    packet: &Packet,
    comps: [u64; 4],
) -> Result<Gives, Fail> {
    if !updates_fit(go.ups.items(), packet) {
        return Err("the updates don't fit")?;
    }
    store.apply(packet, go.ups.items())?;
    Ok((
        sent(alloc, go.outs.items(), packet)?,
        store.get(0, &[comps[0]]),
        store.get(0, &[comps[2]]),
    ))
}

// What the leaf does to which they are led.
fn led(
    alloc: Global,
    d: &Made,
    store: &mut Store,
    packet: &Packet,
    comps: [u64; 4],
) -> Result<Option<Gives>, Fail>
    requires { IsWellFormedDiagram d.now.groups d.now.ctx d.now.nodes d.now.root }
{
    match leaf_at(d, store, packet)? {
        Leaf::Race => Ok(None),
        Leaf::Go(go) => Ok(Some(made(alloc, go, store, packet, comps)?)),
    }
}

// What a diagram makes of the packet before there are numbers.
fn gives(alloc: Global, d: &Made, comps: [u64; 4]) -> Result<Option<Gives>, Fail>
    requires { IsWellFormedDiagram d.now.groups d.now.ctx d.now.nodes d.now.root }
{
    let packet = Packet::new(comps.as_slice().to_vec(alloc)?);
    let mut store = Store::new(alloc);
    led(alloc, d, &mut store, &packet, comps)
}

// What the program with this body makes of it.
fn gives_of(alloc: Global, body: &str, comps: [u64; 4]) -> Result<Option<Gives>, Fail> {
    let text = format!(in alloc; "field srcport; field dstport; array s; {body}")?;
    let d = drawn(alloc, text.as_str())?;
    gives(alloc, &d, comps)
}

#[test]
fn chains_give_what_was_worked_by_hand(rt: HostRuntime) -> Result<(), Fail> {
    for (body, comps, wanted) in ROWS {
        assert_eq!(rt; gives_of(rt.alloc(), *body, *comps)?, *wanted, "{body}");
    }
    Ok(())
}

// How many nodes are made for the program with this text.
fn count(alloc: Global, text: &str) -> Result<u64, Fail> {
    let d = drawn(alloc, text)?;
    Ok(d.nodes.count())
}

// Five monitors, and then an egress of 100 prefixes.
fn monitored_egress(alloc: Global) -> Result<String, Fail> {
    let mut text = String::from_str(
        alloc,
        "field net; array m1; array m2; array m3; array m4; array m5; ",
    )?;
    for n in 1..6u64 {
        let monitor = format!(in alloc; "if inport = {n} then m{n}[outport]++ else id; ")?;
        text.push_str(monitor.as_str())?;
    }
    for n in 1..101u64 {
        let prefix = format!(in alloc; "if net = {n} then outport <- {n} else ")?;
        text.push_str(prefix.as_str())?;
    }
    text.push_str("id")?;
    Ok(text)
}

#[test]
fn monitors_before_an_egress_have_few_nodes(rt: HostRuntime) -> Result<(), Fail> {
    let text = monitored_egress(rt.alloc())?;
    assert!(rt; count(rt.alloc(), text.as_str())? < 10000);
    Ok(())
}

// Whether the fields of indices rise, or fall.
#[derive(Clone, Copy)]
enum Order {
    Rising,
    Falling,
}

// 24 additions to one array, at a field each, and then a test of the array at another one.
fn tested_behind_24(alloc: Global, order: Order) -> Result<String, Fail> {
    let mut text = String::from_str(alloc, "array s; ")?;
    for n in 0..25u64 {
        text.push_str(format!(in alloc; "field f{n}; ")?.as_str())?;
    }
    for n in 0..24u64 {
        let at = match order {
            Order::Rising => n,
            Order::Falling => 23 - n,
        };
        text.push_str(format!(in alloc; "s[f{at}]++; ")?.as_str())?;
    }
    text.push_str("if s[f24] = 30 then outport <- 1 else outport <- 2")?;
    Ok(text)
}

#[test]
fn a_test_behind_24_updates_has_few_nodes(rt: HostRuntime) -> Result<(), Fail> {
    for order in [Order::Rising, Order::Falling] {
        let text = tested_behind_24(rt.alloc(), order)?;
        assert!(rt; count(rt.alloc(), text.as_str())? < 2 * 24 * 24);
    }
    Ok(())
}
