//! What is noted of one packet while its copies are in flight.

ghost use Rattle.std.specs.Prelude.{◌≡◌, ◌<◌, ◌≤◌, ◌+◌, ◌++◌, [], ◌∷◌, drop, length, slice_get, IfSome, OnOk};
ghost use Rattle.std.specs.List.{All};
ghost use Rattle.std.specs.List.Sorted.{IsPermutation, IsSorted};
ghost use Rattle.snap_core.specs.Fields.{count};
ghost use Rattle.snap_core.specs.Packets.{packet_cmp};
ghost use Rattle.snap_rows.specs.Form.{switch_count};
ghost use Rattle.snap_runs.specs.Crossings.{PutsWay, digits_of, line_text};
ghost use Rattle.snap_runs.specs.Reports.{packet_line};
ghost use Rattle.snap_report.specs.Reports.{out_lines, lost_line};
ghost use Rattle.snap_runs.specs.Tallies.{delivered_by, IsBlockText, IsThere, line_after, line_of, lost_by, packets_sent, PutsBlock};

use crate::frames::Frames;
use crate::links::{Tail, long_tail, put_long_line};
use snap_core::NoMemory;
use snap_core::packet::Packet;
use snap_core::program::Fields;
use snap_net::encode::encode;
use snap_net::happened::Moved;
use snap_net::net::Net;
use snap_net::watch::Watch;
use snap_report::front::{put_byte_before, put_bytes_before, put_number_before};
use snap_report::report::{
    name_at, put_head, put_head_before, put_number, put_out, put_outs_before,
};
use snap_rows::head::{Head, Sent};
use snap_rows::valid::Valid;
use std::alloc::Global;
use std::cmp::Ordering;
use std::slice;

/// What has happened to one packet: the packets that were delivered of it, how many were lost, and the lines of the
/// links that its copies crossed, where they are told.
#[derive(Drop)]
pub struct Tally {
    alloc: Global,
    frames: Frames,
    delivered: Vec<Packet>,
    lost: u64,
    hops: Vec<u8>,
}

impl Tally {
    /// Nothing has happened, and frames are told as they are. Takes no memory.
    pub fn new(alloc: Global) -> Tally
        ensures delivered { result.delivered.items ≡ [] }
        ensures lost { result.lost ≡ 0 }
        ensures hops { result.hops.items ≡ [] }
    {
        Tally {
            alloc,
            frames: Frames::Plain,
            delivered: Vec::new(alloc),
            lost: 0,
            hops: Vec::new(alloc),
        }
    }

    /// Forgets the lines of links, and tells those that come by frames of this kind. Takes no memory.
    #[inline(always)]
    pub(crate) fn begin(&mut self, frames: Frames)
        ensures frames { self.new.frames ≡ frames }
        ensures hops { self.new.hops.items ≡ [] }
    {
        self.frames = frames;
        self.hops.clear();
    }

    /// Notes a step. Refuses for memory alone.
    pub fn note(&mut self, moved: Moved) -> Result<(), NoMemory>
        ensures delivered { OnOk result (self.new.delivered.items ≡ self.old.delivered.items ++ delivered_by moved) }
        ensures lost { OnOk result (self.new.lost ≡ self.old.lost + lost_by moved) }
        ensures hops { self.new.hops.items ≡ self.old.hops.items }
    {
        match moved {
            Moved::Forwarded { .. } => Ok(()),
            Moved::Delivered { packet, .. } => self.deliver(packet),
            Moved::Forked { lost, .. } => self.lose(lost),
            Moved::Stayed { .. } => Ok(()),
            Moved::Waited { .. } => Ok(()),
        }
    }

    /// Notes a step, with the line of the link that the copy has crossed which now stands at a place of the network.
    /// Refuses for memory alone.
    pub fn note_hop(
        &mut self,
        frames: Frames,
        net: &Net,
        place: usize,
        moved: Moved,
    ) -> Result<(), NoMemory>
        requires { IsThere net.now.flying place moved }
        ensures delivered { OnOk result (self.new.delivered.items ≡ self.old.delivered.items ++ delivered_by moved) }
        ensures lost { OnOk result (self.new.lost ≡ self.old.lost + lost_by moved) }
        ensures hops { OnOk result (self.new.hops.items ≡ self.old.hops.items ++ line_after frames net.now.tables.switches net.now.flying place moved) }
    {
        match moved {
            Moved::Forwarded { from, .. } => self.put_hop(frames, net, place, from),
            Moved::Delivered { packet, .. } => self.deliver(packet),
            Moved::Forked { lost, .. } => self.lose(lost),
            Moved::Stayed { .. } => Ok(()),
            Moved::Waited { .. } => Ok(()),
        }
    }

    // Puts the line of the link from a switch that the copy at a place has crossed.
    fn put_hop(
        &mut self,
        frames: Frames,
        net: &Net,
        place: usize,
        from: u16,
    ) -> Result<(), NoMemory>
        requires { place < length net.now.flying }
        ensures delivered { self.new.delivered.items ≡ self.old.delivered.items }
        ensures lost { self.new.lost ≡ self.old.lost }
        ensures line { OnOk result (self.new.hops.items ≡ self.old.hops.items ++ line_of frames net.now.tables.switches from (slice_get net.now.flying place)) }
    {
        let copy = net.copy(place);
        let switches = &net.tables().tables().switches;
        let frame = encode(self.alloc, copy.head, &copy.packet)?;
        let tail = long_tail(self.alloc, frames, copy.number, &frame)?;
        put_long_line(
            &mut self.hops,
            name_at(switches, from),
            name_at(switches, copy.at),
            &tail,
        )
    }

    // Puts the lines of the links along next hops to a switch, which a copy of packet `number` crosses with this head. All have
    // one frame.
    fn put_way(
        &mut self,
        tables: &Valid,
        number: u64,
        from: u16,
        to: u16,
        head: Head,
        packet: &Packet,
    ) -> Result<(), NoMemory>
        requires from { from < switch_count tables.now }
        requires to { to < switch_count tables.now }
        ensures frames { self.new.frames ≡ self.old.frames }
        ensures lines { OnOk result (PutsWay tables.now (digits_of self.old.frames number head packet.now) from to self.old.hops.items self.new.hops.items) }
    {
        if from == to {
            return Ok(());
        }
        self.make_room()?;
        let mut tail = Tail::new(self.alloc);
        tail.spell(self.alloc, self.frames, number, head, packet)?;
        tail.put_way(&mut self.hops, tables, from, to)
    }

    // Puts the line of a link, which a copy of packet `number` crosses with this head.
    fn put_link(
        &mut self,
        tables: &Valid,
        number: u64,
        from: u16,
        to: u16,
        head: Head,
        packet: &Packet,
    ) -> Result<(), NoMemory>
        ensures frames { self.new.frames ≡ self.old.frames }
        ensures line { OnOk result (self.new.hops.items ≡ self.old.hops.items ++ line_text tables.now.switches (digits_of self.old.frames number head packet.now) from to) }
    {
        self.make_room()?;
        let mut tail = Tail::new(self.alloc);
        tail.spell(self.alloc, self.frames, number, head, packet)?;
        tail.put_line(&mut self.hops, &tables.tables().switches, from, to)
    }

    // Takes room for the lines of a few links at once.
    #[inline(always)]
    fn make_room(&mut self) -> Result<(), NoMemory>
        ensures frames { self.new.frames ≡ self.old.frames }
        ensures hops { self.new.hops.items ≡ self.old.hops.items }
    {
        if self.hops.is_empty() {
            self.hops.reserve(1000)?;
        }
        Ok(())
    }

    fn deliver(&mut self, packet: Packet) -> Result<(), NoMemory>
        ensures delivered { OnOk result (self.new.delivered.items ≡ self.old.delivered.items ++ packet ∷ []) }
        ensures lost { self.new.lost ≡ self.old.lost }
        ensures hops { self.new.hops.items ≡ self.old.hops.items }
    {
        self.delivered.push(packet)?;
        Ok(())
    }

    fn deliver_each(&mut self, copies: Vec<Sent>) -> Result<(), NoMemory>
        ensures delivered { OnOk result (self.new.delivered.items ≡ self.old.delivered.items ++ packets_sent copies.items) }
        ensures lost { self.new.lost ≡ self.old.lost }
        ensures hops { self.new.hops.items ≡ self.old.hops.items }
    {
        for sent in copies {
            self.deliver(sent.packet)?;
        }
        Ok(())
    }

    // The count of so many packets wouldn't fit memory.
    fn lose(&mut self, lost: u64) -> Result<(), NoMemory>
        ensures delivered { self.new.delivered.items ≡ self.old.delivered.items }
        ensures lost { OnOk result (self.new.lost ≡ self.old.lost + lost) }
        ensures hops { self.new.hops.items ≡ self.old.hops.items }
    {
        self.lost = self.lost.checked_add(lost).ok_or(NoMemory)?;
        Ok(())
    }

    /// Puts the block of the packet with this number, counted from 1. Its packets are sorted for that.
    /// Refuses for memory alone.
    pub fn put_block(
        &mut self,
        out: &mut Vec<u8>,
        fields: &Fields,
        number: u64,
    ) -> Result<(), NoMemory>
        requires { All (λ k. length k ≡ count fields.now) self.old.delivered.items }
        ensures { OnOk result (IsBlockText fields.now number self.old out.old.items out.new.items) }
    {
        self.sort_packets()?;
        put_lines(out, fields, number, &self.hops, &self.delivered, self.lost)?;
        Ok(())
    }

    /// Puts the block of the packet with this number, counted from 1, of which this one alone went out, behind the lines of its
    /// links. Refuses for memory alone.
    #[inline(always)]
    pub(crate) fn put_alone(
        &self,
        out: &mut Vec<u8>,
        fields: &Fields,
        number: u64,
        packet: &Packet,
    ) -> Result<(), NoMemory>
        requires { length packet.now ≡ count fields.now }
        ensures { OnOk result (PutsBlock fields.now number self.now.hops.items (packet.now ∷ []) 0 out.old.items out.new.items) }
    {
        put_lines(out, fields, number, &self.hops, slice::from_ref(packet), 0)
    }

    /// Puts the block of the packet with this number, counted from 1, of which these copies went out and so many were lost,
    /// behind the lines of its links. Refuses for memory alone.
    #[inline(never)]
    pub(crate) fn put_parted(
        &mut self,
        out: &mut Vec<u8>,
        fields: &Fields,
        number: u64,
        copies: Vec<Sent>,
        lost: u64,
    ) -> Result<(), NoMemory>
        requires { All (λ k. length k ≡ count fields.now) (packets_sent copies.items) }
        ensures { OnOk result (PutsBlock fields.now number self.old.hops.items (packets_sent copies.items) lost out.old.items out.new.items) }
    {
        self.delivered.clear();
        self.lost = lost;
        self.deliver_each(copies)?;
        self.put_block(out, fields, number)
    }

    // Puts the packets in rising order.
    fn sort_packets(&mut self) -> Result<(), NoMemory>
        ensures rising { OnOk result (IsSorted packet_cmp self.new.delivered.items) }
        ensures same { IsPermutation self.old.delivered.items self.new.delivered.items }
        ensures lost { self.new.lost ≡ self.old.lost }
        ensures hops { self.new.hops.items ≡ self.old.hops.items }
    {
        sort(self.alloc, self.delivered.as_mut_slice())?;
        Ok(())
    }
}

impl Watch for Tally {
    ghost use Rattle.snap_runs.specs.Crossings.{SeesLines};

    ghost saw = { SeesLines };

    fn cross(
        &mut self,
        tables: &Valid,
        number: u64,
        from: u16,
        target: u16,
        head: Head,
        packet: &Packet,
    ) -> Result<(), NoMemory> {
        match head {
            Head::Out { .. } => self.put_way(tables, number, from, target, head, packet),
            Head::Visit { .. } => self.put_way(tables, number, from, target, head, packet),
            Head::Walk { .. } => {
                let to = tables.next(from, target);
                self.put_link(tables, number, from, to, head, packet)
            }
            Head::Stage { .. } => {
                let to = tables.next(from, target);
                self.put_link(tables, number, from, to, head, packet)
            }
        }
    }

    fn go_out(
        &mut self,
        tables: &Valid,
        number: u64,
        from: u16,
        port: u32,
        packet: &Packet,
    ) -> Result<(), NoMemory> {
        let _known = tables.tables();
        match tables.port_at(port as u64) {
            Some(to) => self.put_way(tables, number, from, to, Head::Out { port }, packet),
            None => Ok(()),
        }
    }
}

// Puts the lines of a block, with the packets in this order: mostly all at once.
#[inline(always)]
fn put_lines(
    out: &mut Vec<u8>,
    fields: &Fields,
    number: u64,
    hops: &[u8],
    packets: &[Packet],
    lost: u64,
) -> Result<(), NoMemory>
    requires { All (λ k. length k ≡ count fields.now) packets.now }
    ensures { OnOk result (out.new.items ≡ out.old.items ++ (packet_line number ++ hops.now ++ out_lines fields.now packets.now ++ lost_line lost)) }
{
    let mut buffer = [0u8; 256];
    match put_rest_before(&mut buffer, 256, fields, packets, lost) {
        Some(begin) => put_behind_hops(out, number, hops, &mut buffer, begin),
        None => put_long(out, fields, number, hops, packets, lost),
    }
}

// Puts the lines of a block, whatever their length.
#[inline(never)]
fn put_long(
    out: &mut Vec<u8>,
    fields: &Fields,
    number: u64,
    hops: &[u8],
    packets: &[Packet],
    lost: u64,
) -> Result<(), NoMemory>
    requires { All (λ k. length k ≡ count fields.now) packets.now }
    ensures { OnOk result (out.new.items ≡ out.old.items ++ (packet_line number ++ hops.now ++ out_lines fields.now packets.now ++ lost_line lost)) }
{
    put_head(out, number)?;
    out.extend_from_slice(hops)?;
    put_outs(out, fields, packets)?;
    put_lost(out, lost)
}

// Puts the lines of a block, of which the buffer has those behind the hops from `begin` on.
#[inline(always)]
fn put_behind_hops(
    out: &mut Vec<u8>,
    number: u64,
    hops: &[u8],
    buffer: &mut [u8; 256],
    begin: usize,
) -> Result<(), NoMemory>
    requires { begin ≤ 256 }
    ensures { OnOk result (out.new.items ≡ out.old.items ++ (packet_line number ++ hops.now ++ drop begin buffer.old)) }
{
    if hops.is_empty() && begin >= 28 {
        let begin = put_head_before(buffer, begin, number);
        out.extend_from_slice(&buffer[begin..])?;
    } else {
        put_head(out, number)?;
        out.extend_from_slice(hops)?;
        out.extend_from_slice(&buffer[begin..])?;
    }
    Ok(())
}

// Puts the lines of a block behind its hops before the text that begins at `end`, and returns where the text begins then,
// if there is room.
#[inline(always)]
fn put_rest_before(
    buffer: &mut [u8; 256],
    end: usize,
    fields: &Fields,
    packets: &[Packet],
    lost: u64,
) -> Option<usize>
    requires long { All (λ k. length k ≡ count fields.now) packets.now }
    requires within { end ≤ 256 }
    requires room { 26 ≤ end }
    ensures begin { IfSome result (λ begin. begin ≤ end) }
    ensures text { IfSome result (λ begin. drop begin buffer.new ≡ out_lines fields.now packets.now ++ lost_line lost ++ drop end buffer.old) }
{
    let begin = put_lost_before(buffer, end, lost);
    put_outs_before(buffer, begin, fields, packets)
}

// Puts the line of the packets that were lost before the text that begins at `end`, and returns where the text begins
// then.
#[inline(always)]
fn put_lost_before(buffer: &mut [u8; 256], end: usize, lost: u64) -> usize
    requires within { end ≤ 256 }
    requires room { 26 ≤ end }
    ensures begin { result ≤ end }
    ensures text { drop result buffer.new ≡ lost_line lost ++ drop end buffer.old }
{
    let begin = put_byte_before(buffer, end, b'\n');
    let begin = put_number_before(buffer, begin, lost);
    put_bytes_before(buffer, begin, b"lost ")
}

// Puts packets in rising order.
fn sort(alloc: Global, packets: &mut [Packet]) -> Result<(), NoMemory>
    ensures rising { OnOk result (IsSorted packet_cmp packets.new) }
    ensures same { IsPermutation packets.old packets.new }
    ensures len { length packets.new ≡ length packets.old }
{
    if packets.len() < 2 {
        return Ok(());
    }
    packets.sort_by(alloc, |left, right| compare(left, right))?;
    Ok(())
}

fn compare(left: &Packet, right: &Packet) -> Ordering
    ensures { result ≡ packet_cmp left.now right.now }
{
    left.comps().cmp(right.comps())
}

// Puts the lines of packets that went out.
fn put_outs(out: &mut Vec<u8>, fields: &Fields, packets: &[Packet]) -> Result<(), NoMemory>
    requires { All (λ k. length k ≡ count fields.now) packets.now }
    ensures { OnOk result (out.new.items ≡ out.old.items ++ out_lines fields.now packets.now) }
{
    for packet in packets {
        put_out(out, fields, packet)?;
    }
    Ok(())
}

// Puts the line of the packets that were lost.
fn put_lost(out: &mut Vec<u8>, lost: u64) -> Result<(), NoMemory>
    ensures { OnOk result (out.new.items ≡ out.old.items ++ lost_line lost) }
{
    out.extend_from_slice(b"lost ")?;
    put_number(out, lost)?;
    out.push(b'\n')?;
    Ok(())
}
