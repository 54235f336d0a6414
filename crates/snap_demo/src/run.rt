//! The packets, one after another through the network.

ghost use Rattle.std.specs.Prelude.{◌≡◌, ◌≤◌, ◌<◌, ◌+◌, ◌^◌, [], IfOk, IsSome, OnOk, length, slice_index};
ghost use Rattle.snap_core.specs.Arrays.{zero_arrays};
ghost use Rattle.snap_rows.specs.Entries.{port_at};
ghost use Rattle.snap_rows.specs.Form.{comps};
ghost use Rattle.snap_rows.specs.Network.{start};
ghost use Rattle.snap_net.specs.Shown.{Represents};
ghost use Rattle.snap_demo.specs.Packets.{stated_packets};
ghost use Rattle.snap_demo.specs.Row.{ports};
ghost use Rattle.snap_demo.specs.Runs.{HasRun, RunsOn};

use crate::counts::PacketCounts;
use crate::packets::{PACKETS, packet_of, port_of};
use snap_core::NoMemory;
use snap_core::packet::Packet;
use snap_net::net::{InjectFault, Net};
use snap_net::watch::Unwatched;
use std::alloc::Global;

/// Runs all packets, and counts what happened to them.
pub(crate) fn run(alloc: Global, net: &mut Net, switches: u16) -> Result<PacketCounts, NoMemory>
    requires some { 1 ≤ switches }
    requires few { switches ≤ 64 }
    requires comps { comps net.old.tables ≡ 3 }
    requires ports { net.old.tables.ports ≡ ports switches }
    requires injected { net.old.injected ≡ 0 }
    requires start { Represents net.old (start net.old.tables zero_arrays) }
    ensures run { IfOk result (HasRun (stated_packets switches) net.new) }
    ensures tables { net.new.tables ≡ net.old.tables }
{
    let mut counts = PacketCounts {
        delivered: 0,
        lost: 0,
    };
    for number in 0..PACKETS * switches as u64 {
        let packet = packet_of(alloc, switches, number)?;
        run_packet(net, &mut counts, port_of(switches, number), packet)?;
    }
    Ok(counts)
}

// Lets a packet through the network, and counts what went out.
fn run_packet(
    net: &mut Net,
    counts: &mut PacketCounts,
    port: u32,
    mut packet: Packet,
) -> Result<(), NoMemory>
    requires rests { net.old.flying ≡ [] }
    requires packet { length packet ≡ comps net.old.tables }
    requires port { slice_index packet 0 ≡ port }
    requires there { IsSome (port_at net.old.tables port) }
    requires room { net.old.injected + 1 < 2 ^ 64 }
    ensures on { OnOk result (RunsOn packet net.old counts.old net.new counts.new) }
    ensures rests { net.new.flying ≡ [] }
    ensures tables { net.new.tables ≡ net.old.tables }
    ensures injected { OnOk result (net.new.injected ≡ net.old.injected + 1) }
{
    let passed = match net.pass(port, &mut packet, &mut Unwatched) {
        Ok(passed) => passed,
        Err(InjectFault::NoMemory) => return Err(NoMemory),
        Err(InjectFault::NoPort) => unreachable!(),
    };
    counts.add(&passed)?;
    Ok(())
}
