//! A step at a switch.

ghost use Rattle.std.specs.Prelude.{◌≡◌, length};
ghost use Rattle.snap_rows.specs.Form.{comps};

use crate::texts::{MOVED, valid};
use snap_core::NoMemory;
use snap_core::packet::Packet;
use snap_core::store::Store;
use snap_rows::handle::handle;
use snap_rows::head::{Action, Head};
use snap_rows::valid::Valid;
use std::alloc::Global;
use std::test::Fail;

/// What a fork leaves: copies, packets that are lost, and the number at place 0 of the first array.
#[derive(Clone, Copy, Debug, PartialEq, Eq)]
struct Outcome {
    copies: u64,
    lost: u64,
    number: u64,
}

// What the switch of a port leaves of a packet that comes in there, where its store was empty.
fn forked(
    alloc: Global,
    tables: &Valid,
    port: u32,
    packet: &Packet,
) -> Result<Option<Outcome>, NoMemory>
    requires { length packet.now ≡ comps tables.now }
{
    let _known = tables.tables();
    let Some(at) = tables.port_at(port as u64) else {
        return Ok(None);
    };
    let mut store = Store::new(alloc);
    let action = handle(
        alloc,
        tables,
        at,
        &mut store,
        packet,
        Head::Walk { node: 0 },
    )?;
    let Action::Fork { copies, lost } = action else {
        return Ok(None);
    };
    Ok(Some(Outcome {
        copies: copies.len() as u64,
        lost,
        number: store.get(0, &[0]),
    }))
}

fn first_forked(alloc: Global) -> Result<Option<Outcome>, Fail> {
    let tables = valid(alloc, MOVED)?;
    let packet = Packet::new(vec![in alloc; 1, 0]?);
    if packet.comps().len() != tables.tables().fields.count() as usize {
        return Err("the packet has other components")?;
    }
    Ok(forked(alloc, &tables, 1, &packet)?)
}

const ONE: Outcome = Outcome {
    copies: 1,
    lost: 0,
    number: 1,
};

#[test]
fn a_switch_handles_a_packet_at_once(rt: HostRuntime) -> Result<(), Fail> {
    assert!(rt; first_forked(rt.alloc())? == Some(ONE));
    Ok(())
}
