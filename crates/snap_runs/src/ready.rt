//! Packets that can be injected.

ghost use Rattle.std.specs.Prelude.{◌≡◌, ◌≢◌, ◌≤◌, ◌++◌, ◌∷◌, ℕ, [], length, IfErr, IfOk, IfSome, IsErrOf, MatchResult, OnErr, OnOk};
ghost use Rattle.std.specs.List.{All};
ghost use Rattle.snap_io.specs.Causes.{NoneFell, Rose};
ghost use Rattle.snap_io.specs.Files.{file_of};
ghost use Rattle.snap_rows.specs.Form.{comps};
ghost use Rattle.snap_report.specs.PacketLines.{bad};
ghost use Rattle.snap_report.specs.Reading.{FitsLine, said_of};
ghost use Rattle.snap_runs.specs.Plain.{at_ports};
ghost use Rattle.snap_runs.specs.Playing.{AreAll, HasRead, IsReady, TakesLine};
ghost use Rattle.snap_runs.specs.Schedules.{RefusesPackets};

use snap_core::NoMemory;
use snap_core::packet::Packet;
use snap_io::Shelf;
use snap_report::packets::PacketLines;
use snap_report::{Line, TraceFault};
use snap_rows::valid::Valid;
use std::alloc::Global;

/// A packet that can be injected at a port, which is its first component.
#[derive(Drop)]
pub struct Ready {
    pub port: u32,
    pub packet: Packet,
}

/// The packets of the file with this name, which is read to its end. Each comes in at a port of the tables.
///
/// # Errors
///
/// As those of `trace`: `Read`, `Packets`, `Limit` and `NoMemory`.
pub fn read_packets<S: Shelf>(
    alloc: Global,
    shelf: &mut S,
    name: &[u8],
    tables: &Valid,
) -> Result<Vec<Ready>, TraceFault>
    ensures whole { IfSome (S.files shelf.old) (λ files. MatchResult result
        (λ packets. AreAll tables.now (file_of files name.now) packets.items)
        (RefusesPackets tables.now (file_of files name.now))) }
    ensures ready { IfOk result (λ packets. All (IsReady tables.now) packets.items) }
    ensures few { IfOk result (λ packets. length packets.items ≤ 1000000) }
    ensures not_write { IsErrOf result TraceFault.Write → ⊥ }
    ensures read { IsErrOf result TraceFault.Read → Rose (S.faults shelf.old name.now) (S.faults shelf.new name.now) }
    ensures defined { (packet : ℕ) → IsErrOf result (TraceFault.Undefined packet) → ⊥ }
    ensures files { S.files shelf.new ≡ S.files shelf.old }
    ensures later { NoneFell (S.faults shelf.old) (S.faults shelf.new) }
{
    let mut packets = Vec::new(alloc);
    read_until(alloc, shelf, name, tables, &mut packets)?;
    Ok(packets)
}

// Reads the packets of the file with this name, up to its end or to what stops it; the packets of the lines before are there.
fn read_until<S: Shelf>(
    alloc: Global,
    shelf: &mut S,
    name: &[u8],
    tables: &Valid,
    packets: &mut Vec<Ready>,
) -> Result<(), TraceFault>
    requires none { packets.old.items ≡ [] }
    ensures whole { IfSome (S.files shelf.old) (λ files. HasRead tables.now (file_of files name.now) packets.new.items result) }
    ensures ready { All (IsReady tables.now) packets.new.items }
    ensures few { length packets.new.items ≤ 1000000 }
    ensures not_write { IsErrOf result TraceFault.Write → ⊥ }
    ensures read { IsErrOf result TraceFault.Read → Rose (S.faults shelf.old name.now) (S.faults shelf.new name.now) }
    ensures defined { (packet : ℕ) → IsErrOf result (TraceFault.Undefined packet) → ⊥ }
    ensures files { S.files shelf.new ≡ S.files shelf.old }
    ensures later { NoneFell (S.faults shelf.old) (S.faults shelf.new) }
{
    let fields = &tables.tables().fields;
    let mut reader = PacketLines::new(alloc, name, fields)?;
    while let Some(line) = reader.next(shelf, fields)? {
        take_line(tables, packets, line, reader.packet(), reader.read())?;
    }
    Ok(())
}

// Takes a line of this number, whose packet this is.
fn take_line(
    tables: &Valid,
    packets: &mut Vec<Ready>,
    line: Line,
    packet: &Packet,
    number: u64,
) -> Result<(), TraceFault>
    requires { FitsLine (comps tables.now) packet.now line }
    ensures ok { OnOk result (TakesLine tables.now packet.now line packets.old.items packets.new.items) }
    ensures err { IfErr result (λ fault. fault ≢ TraceFault.NoMemory → (fault ≡ TraceFault.Packets number) × (at_ports tables.now (said_of packet.now line) ≡ bad)) }
    ensures refused { OnErr result (packets.new.items ≡ packets.old.items) }
{
    let Line::Inject { port } = line else {
        return Ok(());
    };
    if tables.port_at(port as u64).is_none() {
        return Err(TraceFault::Packets { line: number });
    }
    put(packets, port, packet)?;
    Ok(())
}

fn put(packets: &mut Vec<Ready>, port: u32, packet: &Packet) -> Result<(), NoMemory>
    ensures ok { OnOk result (packets.new.items ≡ packets.old.items ++ record { port = port; packet = packet.now } ∷ []) }
    ensures err { OnErr result (packets.new.items ≡ packets.old.items) }
{
    let packet = packet.copy()?;
    packets.push(Ready { port, packet })?;
    Ok(())
}
