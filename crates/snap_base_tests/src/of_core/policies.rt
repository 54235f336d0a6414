use crate::given::program;
use snap_core::copies::Effect;
use snap_core::eval::{eval, run_on};
use snap_core::outcome::{EvalFault, Outcome};
use snap_core::packet::Packet;
use snap_core::policy::Pol;
use snap_core::store::Store;
use std::alloc::Global;
use std::test::Fail;

// ---- bodies over the components `inport`, `outport`, `srcport` and `dstport` and over the array `s`, which has number 0
const RACE: &str = "s[srcport] = 1 + s[srcport] <- 1";

const COPY_SRCPORT: &str = "(id + srcport <- 1); s[inport]++";

const COPY_OUTPORT: &str = "(id + outport <- 2); s[inport]++";

const WRITTEN: &str = "s[inport] <- srcport; if s[inport] = 5 then outport <- 1 else outport <- 2";

const MOVED: &str = "srcport <- 5; outport <- srcport";

const DROP_FIRST: &str = "drop; s[inport]++";

const DROP_LAST: &str = "s[inport]++; drop";

// A later test sees an update that was written before another one.
const PENDING: &str =
    "s[srcport] <- dstport; s[inport]++; if s[srcport] = 0 then outport <- 1 else outport <- 2";

// What an evaluation gives: how many packets, the first one's `outport`, and the number at `s[inport]`.
type Gives = (usize, u64, u64);

// What each body gives, worked by hand: the number at `s[7]` before, the components of the packet, and what is given,
// nothing where it is undefined.
const GIVEN: [(&str, u64, [u64; 4], Option<Gives>); 19] = [
    (RACE, 0, [7, 2, 7, 0], None),
    (RACE, 1, [7, 2, 7, 0], None),
    (RACE, 1, [7, 2, 8, 0], None),
    (RACE, 5, [0, 0, 0, 0], None),
    (COPY_SRCPORT, 0, [7, 2, 1, 0], Some((1, 2, 1))),
    (COPY_SRCPORT, 4, [7, 2, 1, 0], Some((1, 2, 5))),
    (COPY_SRCPORT, 4, [7, 2, 3, 0], None),
    (COPY_OUTPORT, 0, [7, 2, 5, 0], Some((1, 2, 1))),
    (COPY_OUTPORT, 0, [7, 1, 5, 0], None),
    (COPY_OUTPORT, 0, [7, 0, 5, 0], None),
    (COPY_OUTPORT, 9, [3, u64::MAX, 5, 0], None),
    (WRITTEN, 6, [7, 9, 5, 0], Some((1, 1, 5))),
    (WRITTEN, 5, [7, 9, 6, 0], Some((1, 2, 6))),
    (WRITTEN, 5, [7, 9, 0, 0], Some((1, 2, 0))),
    (MOVED, 3, [7, 9, 8, 0], Some((1, 5, 3))),
    (DROP_FIRST, 3, [7, 2, 5, 0], Some((0, 0, 3))),
    (DROP_LAST, 3, [7, 2, 5, 0], Some((0, 0, 4))),
    (DROP_LAST, u64::MAX, [7, 2, 5, 0], Some((0, 0, 0))),
    (PENDING, 0, [7, 0, 7, u64::MAX], Some((1, 1, 0))),
];

fn gives(outcome: &Outcome, inport: u64) -> Gives {
    let packets = outcome.packets.list();
    let outport = match packets.first() {
        Some(first) => first.comps().get(1).copied(),
        None => None,
    };
    (
        packets.len(),
        outport.unwrap_or(0),
        outcome.store.get(0, &[inport]),
    )
}

// Evaluates on the packet with these components, over the store in which `s[7]` holds `seven`.
fn evaluated(alloc: Global, pol: &Pol, seven: u64, comps: [u64; 4]) -> Result<Option<Gives>, Fail> {
    let mut store = Store::new(alloc);
    store.put(0, &[7], seven)?;
    let packet = Packet::new(comps.as_slice().to_vec(alloc)?);
    if !pol.fits(packet.comps().len(), 64) {
        return Err("the policy doesn't fit")?;
    }
    match eval(alloc, pol, &store, &packet) {
        Ok(outcome) => Ok(Some(gives(&outcome, comps[0]))),
        Err(EvalFault::Undefined) => Ok(None),
        Err(EvalFault::NoMemory) => Err("out of memory")?,
    }
}

// Bodies that a packet leaves alone: the number at `s[7]` before, the components of the packet, and what they become.
const ALONE: [(&str, u64, [u64; 4], [u64; 4]); 4] = [
    (MOVED, 3, [7, 9, 8, 0], [7, 5, 5, 0]),
    (WRITTEN, 6, [7, 9, 5, 0], [7, 1, 5, 0]),
    (WRITTEN, 5, [7, 9, 6, 0], [7, 2, 6, 0]),
    (PENDING, 0, [7, 0, 7, u64::MAX], [7, 1, 7, u64::MAX]),
];

// Whether a packet leaves a policy alone, in its own memory, with these components.
fn becomes(
    alloc: Global,
    pol: &Pol,
    seven: u64,
    comps: [u64; 4],
    wanted: [u64; 4],
) -> Result<bool, Fail> {
    let mut store = Store::new(alloc);
    store.put(0, &[7], seven)?;
    let mut packet = Packet::new(comps.as_slice().to_vec(alloc)?);
    if !pol.fits(packet.comps().len(), 64) {
        return Err("the policy doesn't fit")?;
    }
    match run_on(alloc, pol, &mut store, &mut packet) {
        Ok(ran) => Ok(matches!(ran.flow, Effect::Same) && packet.comps() == wanted.as_slice()),
        Err(EvalFault::Undefined) => Ok(false),
        Err(EvalFault::NoMemory) => Err("out of memory")?,
    }
}

// What a body gives.
fn given(alloc: Global, body: &str, seven: u64, comps: [u64; 4]) -> Result<Option<Gives>, Fail> {
    let text = format!(in alloc; "field srcport; field dstport; array s; {body}")?;
    let program = program(alloc, text.as_str())?;
    evaluated(alloc, &program.body, seven, comps)
}

// Whether a packet leaves a body alone, with these components.
fn left_alone(
    alloc: Global,
    body: &str,
    seven: u64,
    comps: [u64; 4],
    wanted: [u64; 4],
) -> Result<bool, Fail> {
    let text = format!(in alloc; "field srcport; field dstport; array s; {body}")?;
    let program = program(alloc, text.as_str())?;
    becomes(alloc, &program.body, seven, comps, wanted)
}

#[test]
fn policies_give_what_was_worked_by_hand(rt: HostRuntime) -> Result<(), Fail> {
    for (body, seven, comps, wanted) in GIVEN {
        assert_eq!(rt; given(rt.alloc(), body, seven, comps)?, wanted, "{body}");
    }
    Ok(())
}

#[test]
fn a_packet_that_goes_on_alone_is_changed_in_place(rt: HostRuntime) -> Result<(), Fail> {
    for (body, seven, comps, wanted) in ALONE {
        assert!(rt;
            left_alone(rt.alloc(), body, seven, comps, wanted)?,
            "{body}"
        );
    }
    Ok(())
}
