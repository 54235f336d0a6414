//! The lines of the links that copies cross.

ghost use Rattle.std.specs.Prelude.{◌≡◌, ◌<◌, ◌≤◌, ◌++◌, codes, drop, IfOk, IfSome, OnOk};
ghost use Rattle.hex.specs.Hex.{encode_lower};
ghost use Rattle.snap_runs.specs.Crossings.{link_of};
ghost use Rattle.snap_runs.specs.Reports.{lead_of};

use crate::digits::put_digits_before;
use crate::frames::{Frames, put_lead};
use snap_core::NoMemory;
use snap_core::lists::Names;
use snap_core::packet::Packet;
use snap_net::encode::encode;
use snap_report::front::{put_byte_before, put_bytes_before};
use snap_report::report::name_at;
use snap_rows::head::Head;
use snap_rows::valid::Valid;
use std::alloc::Global;

/// What stands behind the names in a line of a link: the digits of a frame, and the line's end. They stand at the end of a
/// buffer that has room for the names before them; what is longer is kept apart.
#[derive(Drop)]
pub(crate) struct Tail {
    buffer: [u8; 256],
    begin: usize,
    long: Vec<u8>,
    ghost within: { begin ≤ 256 },
}

impl Tail {
    ghost use Rattle.std.specs.Prelude.{ℕ, List};
    ghost use Rattle.snap_rows.specs.Form.{switch_count};
    ghost use Rattle.snap_runs.specs.Crossings.{PutsWay, digits_of};
    ghost use Rattle.snap_runs.specs.Links.{tail_text};
    ghost use Rattle.snap_runs.specs.Tallies.{name_in};

    /// A tail with no digits yet. Takes no memory.
    #[inline(always)]
    pub(crate) fn new(alloc: Global) -> Tail {
        Tail {
            buffer: [0u8; 256],
            begin: 256,
            long: Vec::new(alloc),
        }
    }

    /// Makes it the tail of the lines of the links that a copy of packet `number` crosses with this head.
    #[inline(always)]
    pub(crate) fn spell(
        &mut self,
        alloc: Global,
        frames: Frames,
        number: u64,
        head: Head,
        packet: &Packet,
    ) -> Result<(), NoMemory>
        ensures { OnOk result (tail_text self.new ≡ digits_of frames number head packet.now ++ codes "\n") }
    {
        let end = put_byte_before(&mut self.buffer, 256, b'\n');
        match put_digits_before(&mut self.buffer, end, frames, number, head, packet) {
            Some(begin) => {
                self.begin = begin;
                self.long.clear();
            }
            None => {
                let frame = encode(alloc, head, packet)?;
                self.begin = 256;
                self.long = long_tail(alloc, frames, number, &frame)?;
            }
        }
        Ok(())
    }

    /// Puts the line of a link with this tail.
    #[inline(always)]
    pub(crate) fn put_line(
        &mut self,
        out: &mut Vec<u8>,
        switches: &Names,
        from: u16,
        to: u16,
    ) -> Result<(), NoMemory>
        ensures line { OnOk result (out.new.items ≡ out.old.items ++ (link_of (name_in switches.now from) (name_in switches.now to) ++ tail_text self.old)) }
        ensures tail { tail_text self.new ≡ tail_text self.old }
    {
        let from = name_at(switches, from);
        let to = name_at(switches, to);
        match put_link_before(&mut self.buffer, self.begin, from, to) {
            Some(begin) => out.extend_from_slice(&self.buffer[begin..])?,
            None => put_long_line(out, from, to, &self.buffer[self.begin..])?,
        }
        if !self.long.is_empty() {
            out.extend_from_slice(&self.long)?;
        }
        Ok(())
    }

    /// Puts the lines of the links along next hops to a switch with this tail.
    #[inline(always)]
    pub(crate) fn put_way(
        &mut self,
        out: &mut Vec<u8>,
        tables: &Valid,
        from: u16,
        to: u16,
    ) -> Result<(), NoMemory>
        requires from { from < switch_count tables.now }
        requires to { to < switch_count tables.now }
        ensures { OnOk result ((digits : List ℕ) → tail_text self.old ≡ digits ++ codes "\n" → PutsWay tables.now digits from to out.old.items out.new.items) }
    {
        let switches = &tables.tables().switches;
        let mut at = from;
        while at != to {
            let next = tables.next(at, to);
            self.put_line(out, switches, at, next)?;
            at = next;
        }
        Ok(())
    }
}

/// The tail of the line of a link that a copy of the packet with this number crosses by this frame, whatever its length.
#[inline(never)]
pub(crate) fn long_tail(
    alloc: Global,
    frames: Frames,
    number: u64,
    frame: &[u8],
) -> Result<Vec<u8>, NoMemory>
    ensures { IfOk result (λ tail. tail.items ≡ encode_lower (lead_of frames number ++ frame.now) ++ codes "\n") }
{
    let mut bytes = Vec::new(alloc);
    put_lead(&mut bytes, frames, number)?;
    bytes.extend_from_slice(frame)?;
    let mut tail = hex::encode(alloc, &bytes)?.into_bytes();
    tail.push(b'\n')?;
    Ok(tail)
}

/// Puts the line of a link between switches with these names, whatever its length.
#[inline(never)]
pub(crate) fn put_long_line(
    out: &mut Vec<u8>,
    from: &[u8],
    to: &[u8],
    tail: &[u8],
) -> Result<(), NoMemory>
    ensures { OnOk result (out.new.items ≡ out.old.items ++ (link_of from.now to.now ++ tail.now)) }
{
    out.extend_from_slice(b"hop ")?;
    out.extend_from_slice(from)?;
    out.push(b' ')?;
    out.extend_from_slice(to)?;
    out.push(b' ')?;
    out.extend_from_slice(tail)?;
    Ok(())
}

// Puts `hop FROM TO ` before the text that begins at `end`, and returns where the text begins then, if there is room.
#[inline(always)]
fn put_link_before(buffer: &mut [u8; 256], end: usize, from: &[u8], to: &[u8]) -> Option<usize>
    requires { end ≤ 256 }
    ensures begin { IfSome result (λ begin. begin ≤ end) }
    ensures text { IfSome result (λ begin. drop begin buffer.new ≡ link_of from.now to.now ++ drop end buffer.old) }
    ensures rest { drop end buffer.new ≡ drop end buffer.old }
{
    if end < from.len() + 6 || end - from.len() - 6 < to.len() {
        return None;
    }
    let begin = put_byte_before(buffer, end, b' ');
    let begin = put_bytes_before(buffer, begin, to);
    let begin = put_byte_before(buffer, begin, b' ');
    let begin = put_bytes_before(buffer, begin, from);
    Some(put_bytes_before(buffer, begin, b"hop "))
}
