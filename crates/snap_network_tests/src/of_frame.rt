use snap_core::packet::Packet;
use snap_net::decode::{HeadFault, decode};
use snap_net::encode::encode;
use snap_rows::head::Head;
use std::alloc::Global;
use std::test::Fail;

const WALK: &[u8] = &[
    1, 0, 0, 0, 0, 0, 0, 0, 0, 0, 0, 0, 0, 0, 0, 0, 1, 0, 0, 0, 0, 0, 0, 0, 0,
];

const STAGE: &[u8] = &[
    2, 0, 0, 0, 0, 0, 0, 0, 3, 0, 0, 0, 0, 0, 0, 0, 0, 0, 1, 0, 0, 0, 0, 0, 0, 0, 0,
];

const OUT: &[u8] = &[
    3, 0, 0, 0, 1, 0, 0, 0, 0, 0, 0, 0, 1, 0, 0, 0, 0, 0, 0, 0, 1,
];

const OUT_AND_A_BYTE: &[u8] = &[
    3, 0, 0, 0, 1, 0, 0, 0, 0, 0, 0, 0, 1, 0, 0, 0, 0, 0, 0, 0, 1, 0,
];

const VISIT: &[u8] = &[
    4, 0, 1, 0, 0, 0, 0, 0, 0, 0, 2, 0, 0, 0, 0, 0, 0, 0, 1, 0, 0, 0, 0, 0, 0, 0, 0,
];

// Whether a frame spells this head and packet.
fn is_read(alloc: Global, frame: &[u8], head: Head, packet: &Packet) -> Result<bool, HeadFault> {
    let (back, copy) = decode(alloc, frame, 2)?;
    Ok(back == head && copy.comps() == packet.comps())
}

// Whether a head and a packet at port 1 are written as this frame, and read from it.
fn is_spelled(alloc: Global, head: Head, outport: u64, bytes: &[u8]) -> Result<bool, Fail> {
    let packet = Packet::new(vec![in alloc; 1u64, outport]?);
    let frame = encode(alloc, head, &packet)?;
    Ok(frame.as_slice() == bytes && is_read(alloc, bytes, head, &packet)?)
}

#[test]
fn frames_spell_heads_and_packets(rt: HostRuntime) -> Result<(), Fail> {
    let cases = [
        (Head::Walk { node: 0 }, 0u64, WALK),
        (Head::Stage { leaf: 3, stage: 0 }, 0, STAGE),
        (Head::Out { port: 1 }, 1, OUT),
        (Head::Visit { rank: 1, node: 2 }, 0, VISIT),
    ];
    for (head, outport, bytes) in cases {
        assert!(rt; is_spelled(rt.alloc(), head, outport, bytes)?, "{head:?}");
    }
    Ok(())
}

#[test]
fn other_bytes_are_no_frames(rt: HostRuntime) {
    let alloc = rt.alloc();
    let cases: [(&[u8], HeadFault); 5] = [
        (&[], HeadFault::Short),
        (&[5], HeadFault::BadTag),
        (&[0], HeadFault::BadTag),
        (&[3, 0, 0, 0, 1], HeadFault::Short),
        (OUT_AND_A_BYTE, HeadFault::Long),
    ];
    for (bytes, want) in cases {
        let fault = match decode(alloc, bytes, 2) {
            Ok(_) => None,
            Err(fault) => Some(fault),
        };
        assert!(rt; fault == Some(want), "{bytes:?}");
    }
}
