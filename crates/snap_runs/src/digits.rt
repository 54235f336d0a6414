//! The digits of frames, put together at the end of a buffer on the stack.

ghost use Rattle.std.specs.Prelude.{◌≡◌, ◌<◌, ◌≤◌, ◌+◌, ◌*◌, ◌++◌, drop, length, slice_index, IfSome};
ghost use Rattle.hex.specs.Hex.{encode_lower, lower_digits};
ghost use Rattle.snap_net.specs.Frames.{head_bytes, packet_bytes};
ghost use Rattle.snap_runs.specs.Crossings.{bytes_of, digits_of};
ghost use Rattle.snap_runs.specs.Reports.{lead_of};

use crate::frames::Frames;
use snap_core::packet::Packet;
use snap_report::front::{put_byte_before, put_bytes_before};
use snap_rows::head::Head;

// The most components of a packet whose frame is put together here.
const MOST_COMPS: usize = 13;

/// Puts the digits of the frame of a copy of packet `number` with this head, with what is told before it, before the text that
/// begins at `end`, and returns where the text begins then, if the packet has few components.
#[inline(always)]
pub(crate) fn put_digits_before(
    buffer: &mut [u8; 256],
    end: usize,
    frames: Frames,
    number: u64,
    head: Head,
    packet: &Packet,
) -> Option<usize>
    requires within { end ≤ 256 }
    requires room { 246 ≤ end }
    ensures begin { IfSome result (λ begin. begin ≤ end) }
    ensures text { IfSome result (λ begin. drop begin buffer.new ≡ digits_of frames number head packet.now ++ drop end buffer.old) }
    ensures long { length buffer.new ≡ 256 }
{
    let mut frame = [0u8; 256];
    let begin = put_frame_before(&mut frame, frames, number, head, packet)?;
    Some(put_spelled_before(buffer, end, &frame[begin..]))
}

// Puts the bytes of such a frame, with what is told before it, at the buffer's end, and returns where they begin, if the packet
// has few components.
#[inline(always)]
fn put_frame_before(
    buffer: &mut [u8; 256],
    frames: Frames,
    number: u64,
    head: Head,
    packet: &Packet,
) -> Option<usize>
    ensures begin { IfSome result (λ begin. begin ≤ 256) }
    ensures few { IfSome result (λ begin. 133 ≤ begin) }
    ensures text { IfSome result (λ begin. drop begin buffer.new ≡ bytes_of frames number head packet.now) }
{
    if packet.comps().len() > MOST_COMPS {
        return None;
    }
    let begin = put_packet_before(buffer, 256, packet);
    let begin = put_head_before(buffer, begin, head);
    Some(put_lead_before(buffer, begin, frames, number))
}

// Puts the bytes of a packet before the text that begins at `end`, and returns where the text begins then.
#[inline(always)]
fn put_packet_before(buffer: &mut [u8; 256], end: usize, packet: &Packet) -> usize
    requires within { end ≤ 256 }
    requires room { 8 * length packet.now ≤ end }
    ensures begin { result + 8 * length packet.now ≡ end }
    ensures text { drop result buffer.new ≡ packet_bytes packet.now ++ drop end buffer.old }
{
    let comps = packet.comps();
    let mut begin = end;
    for i in (0..comps.len()).rev() {
        begin = put_bytes_before(buffer, begin, &comps[i].to_be_bytes());
    }
    begin
}

// Puts the bytes of a head, eleven at most, before the text that begins at `end`, and returns where the text begins then.
#[inline(always)]
fn put_head_before(buffer: &mut [u8; 256], end: usize, head: Head) -> usize
    requires within { end ≤ 256 }
    requires room { 11 ≤ end }
    ensures begin { result ≤ end }
    ensures short { end ≤ result + 11 }
    ensures text { drop result buffer.new ≡ head_bytes head ++ drop end buffer.old }
{
    match head {
        Head::Walk { node } => {
            let begin = put_bytes_before(buffer, end, &node.to_be_bytes());
            put_byte_before(buffer, begin, 1)
        }
        Head::Stage { leaf, stage } => {
            let begin = put_bytes_before(buffer, end, &stage.to_be_bytes());
            let begin = put_bytes_before(buffer, begin, &leaf.to_be_bytes());
            put_byte_before(buffer, begin, 2)
        }
        Head::Out { port } => {
            let begin = put_bytes_before(buffer, end, &port.to_be_bytes());
            put_byte_before(buffer, begin, 3)
        }
        Head::Visit { rank, node } => {
            let begin = put_bytes_before(buffer, end, &node.to_be_bytes());
            let begin = put_bytes_before(buffer, begin, &rank.to_be_bytes());
            put_byte_before(buffer, begin, 4)
        }
    }
}

// Puts what is told before the frames of the packet with this number before the text that begins at `end`, and returns
// where the text begins then.
#[inline(always)]
fn put_lead_before(buffer: &mut [u8; 256], end: usize, frames: Frames, number: u64) -> usize
    requires within { end ≤ 256 }
    requires room { 8 ≤ end }
    ensures begin { result ≤ end }
    ensures short { end ≤ result + 8 }
    ensures text { drop result buffer.new ≡ lead_of frames number ++ drop end buffer.old }
{
    match frames {
        Frames::Plain => end,
        Frames::Numbered => put_bytes_before(buffer, end, &number.to_be_bytes()),
    }
}

// Puts two digits for each byte before the text that begins at `end`, and returns where the text begins then.
#[inline(always)]
fn put_spelled_before(buffer: &mut [u8; 256], end: usize, bytes: &[u8]) -> usize
    requires within { end ≤ 256 }
    requires room { 2 * length bytes.now ≤ end }
    ensures begin { result + 2 * length bytes.now ≡ end }
    ensures text { drop result buffer.new ≡ encode_lower bytes.now ++ drop end buffer.old }
{
    let begin = end - 2 * bytes.len();
    spell(bytes, &mut buffer[begin..end]);
    begin
}

// Writes two digits for each byte.
#[inline(always)]
fn spell(bytes: &[u8], digits: &mut [u8])
    requires { length digits.old ≡ 2 * length bytes.now }
    ensures { digits.new ≡ encode_lower bytes.now }
{
    for i in 0..bytes.len() {
        let byte = bytes[i];
        digits[2 * i] = digit(byte / 16);
        digits[2 * i + 1] = digit(byte % 16);
    }
}

// The digit of a number below 16: with no table and no branch, so that many are made at once.
#[inline(always)]
fn digit(number: u8) -> u8
    requires { number < 16 }
    ensures { result ≡ slice_index lower_digits number }
{
    b'0' + number + u8::from(number > 9) * (b'a' - b'0' - 10)
}
