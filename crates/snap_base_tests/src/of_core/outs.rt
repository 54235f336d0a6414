use snap_core::lists::Out;
use snap_core::packet::Packet;
use snap_core::policy::Atom;
use std::alloc::Global;
use std::test::Fail;

// What an out that swaps two components makes of a packet in place.
fn swapped(alloc: Global) -> Result<Packet, Fail> {
    let mut packet = Packet::new(vec![in alloc; 5, 7, 9]?);
    let out = Out::new(vec![in alloc; (0, Atom::Comp(1)), (1, Atom::Comp(0))]?);
    out.change(&mut packet)?;
    Ok(packet)
}

// What an out of nine parts, which moves each component by one place, makes of a packet in place.
fn moved(alloc: Global) -> Result<Packet, Fail> {
    let mut packet = Packet::new(vec![in alloc; 9, 8, 7, 6, 5, 4, 3, 2, 1, 0]?);
    let out = Out::new(vec![in alloc;
        (0, Atom::Comp(1)),
        (1, Atom::Comp(2)),
        (2, Atom::Comp(3)),
        (3, Atom::Comp(4)),
        (4, Atom::Comp(5)),
        (5, Atom::Comp(6)),
        (6, Atom::Comp(7)),
        (7, Atom::Comp(8)),
        (8, Atom::Comp(9)),
    ]?);
    out.change(&mut packet)?;
    Ok(packet)
}

#[test]
fn an_out_reads_a_packet_as_it_was(rt: HostRuntime) -> Result<(), Fail> {
    let packet = swapped(rt.alloc())?;
    assert!(rt; packet.comps() == [7, 5, 9].as_slice());
    let packet = moved(rt.alloc())?;
    assert!(rt; packet.comps() == [8, 7, 6, 5, 4, 3, 2, 1, 0, 0].as_slice());
    Ok(())
}

#[test]
fn a_packet_is_made_zero(rt: HostRuntime) -> Result<(), Fail> {
    let mut packet = Packet::new(vec![in rt.alloc(); 5, 7]?);
    packet.reset();
    assert!(rt; packet.comps() == [0, 0].as_slice());
    packet.set(1, 3);
    assert!(rt; packet.comps() == [0, 3].as_slice());
    Ok(())
}
