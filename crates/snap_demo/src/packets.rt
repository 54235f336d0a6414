//! The packets.

ghost use Rattle.std.specs.Prelude.{◌≡◌, ◌<◌, ◌≤◌, ◌+◌, ◌*◌, ◌%◌, IfOk};
ghost use Rattle.snap_demo.specs.Packets.{packet_of};

use snap_core::NoMemory;
use snap_core::packet::Packet;
use std::alloc::Global;

/// How many packets run for each switch.
pub(crate) const PACKETS: u64 = 100;

/// The port at which this packet comes in: each in turn.
pub(crate) fn port_of(switches: u16, number: u64) -> u32
    requires { 1 ≤ switches }
    ensures { result ≡ number % switches + 1 }
{
    (number % switches as u64) as u32 + 1
}

/// This packet. Keys run through all numbers below 100.
pub(crate) fn packet_of(alloc: Global, switches: u16, number: u64) -> Result<Packet, NoMemory>
    requires some { 1 ≤ switches }
    requires few { number < 1000000 }
    ensures { IfOk result (λ packet. packet ≡ packet_of switches number) }
{
    let mut comps = Vec::new(alloc);
    comps.push(port_of(switches, number) as u64)?;
    comps.push(0)?;
    comps.push(7 * number % 100)?;
    Ok(Packet::new(comps))
}
