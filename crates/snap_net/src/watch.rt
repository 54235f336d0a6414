//! What is told of the links that copies cross.

ghost use Rattle.std.specs.Prelude.{◌≡◌, ◌<◌, List, IsSome, OnOk, length};
ghost use Rattle.snap_rows.specs.declared.tables.Tables.{Tables};
ghost use Rattle.snap_rows.specs.Entries.{port_at};
ghost use Rattle.snap_rows.specs.Form.{comps, switch_count};
ghost use Rattle.snap_rows.specs.Network.{Happening};
ghost use Rattle.snap_rows.specs.Stepping.{AimsAt};
ghost use Rattle.snap_net.specs.Travels.{HearsOut, HearsWay};

use snap_core::NoMemory;
use snap_core::packet::Packet;
use snap_rows::head::Head;
use snap_rows::valid::Valid;

/// Is told of the links that the copies of a packet cross.
pub trait Watch {
    /// In the network of these tables these crossings were told to the first one, which became this one.
    ghost saw: { Tables → Self → List Happening → Self → Type 0 };

    /// A copy of packet `number`, counted from 0, crosses the link from a switch to the next hop towards another with this
    /// head, and those behind it to that switch if the head says it. Refuses for memory alone.
    fn cross(
        &mut self,
        tables: &Valid,
        number: u64,
        from: u16,
        target: u16,
        head: Head,
        packet: &Packet,
    ) -> Result<(), NoMemory>
        requires from { from < switch_count tables.now }
        requires target { target < switch_count tables.now }
        requires aims { AimsAt tables.now from head target }
        requires packet { length packet.now ≡ comps tables.now }
        ensures { OnOk result (HearsWay (saw tables.now) tables.now number head packet.now from target self.old self.new) };

    /// A copy of packet `number`, counted from 0, goes out at a port, by the links from a switch to that of the port.
    /// Refuses for memory alone.
    fn go_out(
        &mut self,
        tables: &Valid,
        number: u64,
        from: u16,
        port: u32,
        packet: &Packet,
    ) -> Result<(), NoMemory>
        requires from { from < switch_count tables.now }
        requires port { IsSome (port_at tables.now port) }
        requires packet { length packet.now ≡ comps tables.now }
        ensures { OnOk result (HearsOut (saw tables.now) tables.now number port packet.now from self.old self.new) };
}

/// Is told nothing, so that no way is looked up for it.
#[derive(Clone, Copy)]
pub struct Unwatched;

impl Watch for Unwatched {
    ghost saw = { λ tables first crossings now. Unit {0} };

    #[inline(always)]
    fn cross(
        &mut self,
        _tables: &Valid,
        _number: u64,
        _from: u16,
        _target: u16,
        _head: Head,
        _packet: &Packet,
    ) -> Result<(), NoMemory> {
        Ok(())
    }

    #[inline(always)]
    fn go_out(
        &mut self,
        _tables: &Valid,
        _number: u64,
        _from: u16,
        _port: u32,
        _packet: &Packet,
    ) -> Result<(), NoMemory> {
        Ok(())
    }
}
