//! Writing frames.

ghost use Rattle.std.specs.Prelude.{◌≡◌, ◌++◌, ◌∷◌, OnOk, IfOk};
ghost use Rattle.std.specs.Int.{to_be_bytes};
ghost use mir.Syntax.{w16, w64};
ghost use Rattle.snap_net.specs.Frames.{head_bytes, packet_bytes, frame};

use snap_core::NoMemory;
use snap_core::packet::Packet;
use snap_rows::head::Head;
use std::alloc::Global;

// The most bytes of a head.
const MOST_HEAD: usize = 11;

// Adds a tag and a number of eight bytes.
fn put_long(out: &mut Vec<u8>, tag: u8, number: u64) -> Result<(), NoMemory>
    ensures { OnOk result (out.new.items ≡ out.old.items ++ (tag ∷ to_be_bytes w64 number)) }
{
    out.push(tag)?;
    out.extend_from_slice(&number.to_be_bytes())?;
    Ok(())
}

// Adds a tag and a number of two bytes.
fn put_short(out: &mut Vec<u8>, tag: u8, number: u16) -> Result<(), NoMemory>
    ensures { OnOk result (out.new.items ≡ out.old.items ++ (tag ∷ to_be_bytes w16 number)) }
{
    out.push(tag)?;
    out.extend_from_slice(&number.to_be_bytes())?;
    Ok(())
}

// Adds the bytes of a head.
fn put_head(out: &mut Vec<u8>, head: Head) -> Result<(), NoMemory>
    ensures { OnOk result (out.new.items ≡ out.old.items ++ head_bytes head) }
{
    match head {
        Head::Walk { node } => put_long(out, 1, node)?,
        Head::Stage { leaf, stage } => {
            put_long(out, 2, leaf)?;
            out.extend_from_slice(&stage.to_be_bytes())?;
        }
        Head::Out { port } => {
            out.push(3)?;
            out.extend_from_slice(&port.to_be_bytes())?;
        }
        Head::Visit { rank, node } => {
            put_short(out, 4, rank)?;
            out.extend_from_slice(&node.to_be_bytes())?;
        }
    }
    Ok(())
}

// Adds the bytes of a packet.
fn put_packet(out: &mut Vec<u8>, packet: &Packet) -> Result<(), NoMemory>
    ensures { OnOk result (out.new.items ≡ out.old.items ++ packet_bytes packet.now) }
{
    for comp in packet.comps() {
        out.extend_from_slice(&comp.to_be_bytes())?;
    }
    Ok(())
}

/// The frame of a head and a packet. Refuses for memory alone.
pub fn encode(alloc: Global, head: Head, packet: &Packet) -> Result<Vec<u8>, NoMemory>
    ensures { IfOk result (λ bytes. bytes.items ≡ frame head packet.now) }
{
    let mut out = Vec::with_capacity(alloc, MOST_HEAD + 8 * packet.comps().len())?;
    put_head(&mut out, head)?;
    put_packet(&mut out, packet)?;
    Ok(out)
}
