//! The texts of a report, put behind one another in a buffer.

ghost use Rattle.std.specs.Prelude.{◌≡◌, ◌<◌, ◌≤◌, ◌+◌, ◌-◌, ◌++◌, [], codes, decimal, drop, length, slice_get, unwrap_or, IfNone, IfSome, OnOk};
ghost use Rattle.snap_core.specs.Fields.{PrefixFits, count, width};
ghost use Rattle.snap_core.specs.Packets.{AllLong};
ghost use Rattle.snap_core.specs.Runs.{set_after};
ghost use Rattle.snap_report.specs.Reports.{address_text, all_lines, block, field_text, fields_text, index_text, listed_line, out_line, out_lines, place_line, split_text, value_text};
ghost use Rattle.std.specs.List.{All, flat_map};

use crate::front::{
    digit, put_address_before, put_byte_before, put_bytes_before, put_number_before,
};
use itoa::Buffer;
use snap_core::NoMemory;
use snap_core::copies::Effect;
use snap_core::lists::Names;
use snap_core::packet::Packet;
use snap_core::packets::Packets;
use snap_core::place::Listed;
use snap_core::program::{Field, Fields};
use std::alloc::Global;
use std::slice;

/// Puts a number in digits behind the buffer. Most are short, as the parts of an address.
/// Refuses for memory alone.
pub fn put_number(out: &mut Vec<u8>, number: u64) -> Result<(), NoMemory>
    ensures { OnOk result (out.new.items ≡ out.old.items ++ decimal number) }
{
    if number < 10 {
        out.push(digit(number))?;
    } else if number < 100 {
        out.extend_from_slice(&[digit(number / 10), digit(number % 10)])?;
    } else if number < 1000 {
        let front = number / 10;
        out.extend_from_slice(&[digit(front / 10), digit(front % 10), digit(number % 10)])?;
    } else {
        let mut digits = Buffer::new();
        out.extend_from_slice(digits.format(number).as_bytes())?;
    }
    Ok(())
}

// Puts `NET:HOST` before the text that begins at `end`, and returns where the text begins then.
#[inline(never)]
fn put_pair_before(buffer: &mut [u8; 256], end: usize, net: u64, host: u64) -> usize
    requires within { end ≤ 256 }
    requires room { 41 ≤ end }
    ensures begin { result ≤ end }
    ensures short { end ≤ result + 41 }
    ensures text { drop result buffer.new ≡ decimal net ++ codes ":" ++ decimal host ++ drop end buffer.old }
{
    let begin = put_number_before(buffer, end, host);
    let begin = put_byte_before(buffer, begin, b':');
    put_number_before(buffer, begin, net)
}

// The address that the two numbers of a field split behind this prefix make, if they fit.
#[inline(always)]
fn address_of(prefix: u8, net: u64, host: u64) -> Option<u32>
    requires { prefix ≤ 31 }
    ensures some { IfSome result (λ address. split_text prefix net host ≡ address_text address) }
    ensures none { IfNone result (split_text prefix net host ≡ decimal net ++ codes ":" ++ decimal host) }
{
    let hosts = 1u64 << (32 - prefix);
    if net < 1u64 << prefix && host < hosts {
        Some((net * hosts + host) as u32)
    } else {
        None
    }
}

// Puts the value of a field split behind this prefix before the text that begins at `end`, and returns where the text
// begins then.
#[inline(always)]
fn put_split_before(buffer: &mut [u8; 256], end: usize, prefix: u8, net: u64, host: u64) -> usize
    requires prefix { prefix ≤ 31 }
    requires within { end ≤ 256 }
    requires room { 41 ≤ end }
    ensures begin { result ≤ end }
    ensures short { end ≤ result + 41 }
    ensures text { drop result buffer.new ≡ split_text prefix net host ++ drop end buffer.old }
{
    match address_of(prefix, net, host) {
        Some(address) => put_address_before(buffer, end, address),
        None => put_pair_before(buffer, end, net, host),
    }
}

// Puts the value of a field whose components begin at `comp` before the text that begins at `end`, and returns where the
// text begins then.
#[inline(always)]
fn put_value_before(
    buffer: &mut [u8; 256],
    end: usize,
    prefix: Option<u8>,
    comp: u16,
    packet: &Packet,
) -> usize
    requires comps { comp + width prefix ≤ length packet.now }
    requires few { length packet.now ≤ 64 }
    requires prefix { PrefixFits prefix }
    requires within { end ≤ 256 }
    requires room { 41 ≤ end }
    ensures begin { result ≤ end }
    ensures short { end ≤ result + 41 }
    ensures text { drop result buffer.new ≡ value_text prefix comp packet.now ++ drop end buffer.old }
{
    match prefix {
        None => put_number_before(buffer, end, packet.get(comp)),
        Some(prefix) => {
            put_split_before(buffer, end, prefix, packet.get(comp), packet.get(comp + 1))
        }
    }
}

// Puts ` NAME=VALUE` of one field before the text that begins at `end`, and returns where the text begins then.
#[inline(always)]
fn put_field_before(
    buffer: &mut [u8; 256],
    end: usize,
    field: &Field,
    comp: u16,
    packet: &Packet,
) -> usize
    requires comps { comp + width field.now.prefix ≤ length packet.now }
    requires few { length packet.now ≤ 64 }
    requires prefix { PrefixFits field.now.prefix }
    requires within { end ≤ 256 }
    requires room { length field.now.name + 43 ≤ end }
    ensures begin { result ≤ end }
    ensures text { drop result buffer.new ≡ field_text field.now comp packet.now ++ drop end buffer.old }
{
    let begin = put_value_before(buffer, end, field.prefix, comp, packet);
    let begin = put_byte_before(buffer, begin, b'=');
    let begin = put_bytes_before(buffer, begin, field.name.items());
    put_byte_before(buffer, begin, b' ')
}

// Puts fields of a packet, whose components end before `behind`, before the text that begins at `end`, and returns where
// the text begins then, if there is room.
#[inline(never)]
fn put_fields_before(
    buffer: &mut [u8; 256],
    end: usize,
    fields: &[Field],
    behind: u16,
    packet: &Packet,
) -> Option<usize>
    requires prefixes { All (λ f. PrefixFits f.prefix) fields.now }
    requires comps { count fields.now ≤ behind }
    requires packet { behind ≤ length packet.now }
    requires few { length packet.now ≤ 64 }
    requires within { end ≤ 256 }
    ensures begin { IfSome result (λ begin. begin ≤ end) }
    ensures text { IfSome result (λ begin. drop begin buffer.new ≡ fields_text (behind - count fields.now) fields.now packet.now ++ drop end buffer.old) }
{
    let mut comp = behind;
    let mut begin = end;
    for i in (0..fields.len()).rev() {
        let field = &fields[i];
        if begin < field.name.items().len() + 43 {
            return None;
        }
        comp -= field.width();
        begin = put_field_before(buffer, begin, field, comp, packet);
    }
    Some(begin)
}

// Puts all fields of a packet before the text that begins at `end`, and returns where the text begins then, if there is
// room.
#[inline(always)]
fn put_all_before(
    buffer: &mut [u8; 256],
    end: usize,
    fields: &Fields,
    packet: &Packet,
) -> Option<usize>
    requires packet { length packet.now ≡ count fields.now }
    requires within { end ≤ 256 }
    ensures begin { IfSome result (λ begin. begin ≤ end) }
    ensures text { IfSome result (λ begin. drop begin buffer.new ≡ fields_text 0 fields.now packet.now ++ drop end buffer.old) }
{
    let list = fields.list();
    put_fields_before(buffer, end, list, packet.comps().len() as u16, packet)
}

// Puts the line of a packet that goes out before the text that begins at `end`, and returns where the text begins then,
// if there is room.
fn put_out_before(
    buffer: &mut [u8; 256],
    end: usize,
    fields: &Fields,
    packet: &Packet,
) -> Option<usize>
    requires packet { length packet.now ≡ count fields.now }
    requires within { end ≤ 256 }
    ensures begin { IfSome result (λ begin. begin ≤ end) }
    ensures text { IfSome result (λ begin. drop begin buffer.new ≡ out_line fields.now packet.now ++ drop end buffer.old) }
{
    if end == 0 {
        return None;
    }
    let begin = put_byte_before(buffer, end, b'\n');
    let begin = put_all_before(buffer, begin, fields, packet)?;
    if begin < 3 {
        return None;
    }
    Some(put_bytes_before(buffer, begin, b"out"))
}

/// Puts the lines of packets that went out before the text that begins at `end`, and returns where the text begins then,
/// if there is room.
pub fn put_outs_before(
    buffer: &mut [u8; 256],
    end: usize,
    fields: &Fields,
    packets: &[Packet],
) -> Option<usize>
    requires long { All (λ k. length k ≡ count fields.now) packets.now }
    requires within { end ≤ 256 }
    ensures begin { IfSome result (λ begin. begin ≤ end) }
    ensures text { IfSome result (λ begin. drop begin buffer.new ≡ out_lines fields.now packets.now ++ drop end buffer.old) }
{
    let mut begin = end;
    for i in (0..packets.len()).rev() {
        begin = put_out_before(buffer, begin, fields, &packets[i])?;
    }
    Some(begin)
}

// Puts an address.
fn put_address(out: &mut Vec<u8>, address: u32) -> Result<(), NoMemory>
    ensures { OnOk result (out.new.items ≡ out.old.items ++ address_text address) }
{
    let address = u64::from(address);
    put_number(out, address >> 24)?;
    out.push(b'.')?;
    put_number(out, (address >> 16) % 256)?;
    out.push(b'.')?;
    put_number(out, (address >> 8) % 256)?;
    out.push(b'.')?;
    put_number(out, address % 256)
}

// Puts `NET:HOST`.
fn put_pair(out: &mut Vec<u8>, net: u64, host: u64) -> Result<(), NoMemory>
    ensures { OnOk result (out.new.items ≡ out.old.items ++ (decimal net ++ codes ":" ++ decimal host)) }
{
    put_number(out, net)?;
    out.push(b':')?;
    put_number(out, host)
}

// Puts the value of a field split behind this prefix.
fn put_split(out: &mut Vec<u8>, prefix: u8, net: u64, host: u64) -> Result<(), NoMemory>
    requires { prefix ≤ 31 }
    ensures { OnOk result (out.new.items ≡ out.old.items ++ split_text prefix net host) }
{
    match address_of(prefix, net, host) {
        Some(address) => put_address(out, address),
        None => put_pair(out, net, host),
    }
}

// Puts the value of a field whose components begin at `comp`.
fn put_value(
    out: &mut Vec<u8>,
    prefix: Option<u8>,
    comp: u16,
    packet: &Packet,
) -> Result<(), NoMemory>
    requires comps { comp + width prefix ≤ length packet.now }
    requires few { length packet.now ≤ 64 }
    requires prefix { PrefixFits prefix }
    ensures { OnOk result (out.new.items ≡ out.old.items ++ value_text prefix comp packet.now) }
{
    match prefix {
        None => put_number(out, packet.get(comp)),
        Some(prefix) => put_split(out, prefix, packet.get(comp), packet.get(comp + 1)),
    }
}

// Puts ` NAME=VALUE` of one field, whatever its length.
#[inline(never)]
fn put_long_field(
    out: &mut Vec<u8>,
    field: &Field,
    comp: u16,
    packet: &Packet,
) -> Result<(), NoMemory>
    requires comps { comp + width field.now.prefix ≤ length packet.now }
    requires few { length packet.now ≤ 64 }
    requires prefix { PrefixFits field.now.prefix }
    ensures { OnOk result (out.new.items ≡ out.old.items ++ field_text field.now comp packet.now) }
{
    out.push(b' ')?;
    out.extend_from_slice(field.name.items())?;
    out.push(b'=')?;
    put_value(out, field.prefix, comp, packet)
}

// Puts ` NAME=VALUE` of one field.
fn put_field(out: &mut Vec<u8>, field: &Field, comp: u16, packet: &Packet) -> Result<(), NoMemory>
    requires comps { comp + width field.now.prefix ≤ length packet.now }
    requires few { length packet.now ≤ 64 }
    requires prefix { PrefixFits field.now.prefix }
    ensures { OnOk result (out.new.items ≡ out.old.items ++ field_text field.now comp packet.now) }
{
    let mut buffer = [0u8; 256];
    let behind = comp + field.width();
    match put_fields_before(&mut buffer, 256, slice::from_ref(field), behind, packet) {
        Some(begin) => put_from(out, &buffer, begin),
        None => put_long_field(out, field, comp, packet),
    }
}

// Puts all fields of a packet one after another, and the end of their line.
#[inline(never)]
fn put_each_field(out: &mut Vec<u8>, fields: &Fields, packet: &Packet) -> Result<(), NoMemory>
    requires { length packet.now ≡ count fields.now }
    ensures { OnOk result (out.new.items ≡ out.old.items ++ (fields_text 0 fields.now packet.now ++ codes "\n")) }
{
    let mut comp = 0u16;
    for field in fields.list() {
        put_field(out, field, comp, packet)?;
        comp += field.width();
    }
    out.push(b'\n')?;
    Ok(())
}

/// Puts all fields of a packet in order of declaration, each as ` NAME=VALUE`, and the end of their line.
/// Refuses for memory alone.
pub fn put_fields(out: &mut Vec<u8>, fields: &Fields, packet: &Packet) -> Result<(), NoMemory>
    requires { length packet.now ≡ count fields.now }
    ensures { OnOk result (out.new.items ≡ out.old.items ++ (fields_text 0 fields.now packet.now ++ codes "\n")) }
{
    let mut buffer = [0u8; 256];
    let end = put_byte_before(&mut buffer, 256, b'\n');
    match put_all_before(&mut buffer, end, fields, packet) {
        Some(begin) => put_from(out, &buffer, begin),
        None => put_each_field(out, fields, packet),
    }
}

// Puts what a buffer has from `begin` on.
fn put_from(out: &mut Vec<u8>, buffer: &[u8; 256], begin: usize) -> Result<(), NoMemory>
    requires { begin ≤ 256 }
    ensures { OnOk result (out.new.items ≡ out.old.items ++ drop begin buffer.now) }
{
    out.extend_from_slice(&buffer[begin..])?;
    Ok(())
}

/// Puts the line of a packet that goes out. Refuses for memory alone.
pub fn put_out(out: &mut Vec<u8>, fields: &Fields, packet: &Packet) -> Result<(), NoMemory>
    requires { length packet.now ≡ count fields.now }
    ensures { OnOk result (out.new.items ≡ out.old.items ++ out_line fields.now packet.now) }
{
    let mut buffer = [0u8; 256];
    match put_out_before(&mut buffer, 256, fields, packet) {
        Some(begin) => put_from(out, &buffer, begin),
        None => put_long_out(out, fields, packet),
    }
}

// Puts the line of a packet that goes out, whatever its length.
fn put_long_out(out: &mut Vec<u8>, fields: &Fields, packet: &Packet) -> Result<(), NoMemory>
    requires { length packet.now ≡ count fields.now }
    ensures { OnOk result (out.new.items ≡ out.old.items ++ out_line fields.now packet.now) }
{
    out.extend_from_slice(b"out")?;
    put_each_field(out, fields, packet)
}

/// Puts the first line of the block of the packet with this number before the text that begins at `end`, and returns
/// where the text begins then.
pub fn put_head_before(buffer: &mut [u8; 256], end: usize, number: u64) -> usize
    requires within { end ≤ 256 }
    requires room { 28 ≤ end }
    ensures begin { result ≤ end }
    ensures text { drop result buffer.new ≡ codes "packet " ++ decimal number ++ codes "\n" ++ drop end buffer.old }
{
    let begin = put_byte_before(buffer, end, b'\n');
    let begin = put_number_before(buffer, begin, number);
    put_bytes_before(buffer, begin, b"packet ")
}

/// Puts the first line of the block of the packet with this number. Refuses for memory alone.
pub fn put_head(out: &mut Vec<u8>, number: u64) -> Result<(), NoMemory>
    ensures { OnOk result (out.new.items ≡ out.old.items ++ (codes "packet " ++ decimal number ++ codes "\n")) }
{
    let mut buffer = [0u8; 256];
    let begin = put_head_before(&mut buffer, 256, number);
    put_from(out, &buffer, begin)
}

// Puts the block of the packet with this number, which became this set of packets.
fn put_block(
    out: &mut Vec<u8>,
    fields: &Fields,
    number: u64,
    packets: &Packets,
) -> Result<(), NoMemory>
    requires { AllLong (count fields.now) packets.now }
    ensures { OnOk result (out.new.items ≡ out.old.items ++ block (all_lines fields.now) number packets.now) }
{
    put_head(out, number)?;
    for packet in packets.list() {
        put_out(out, fields, packet)?;
    }
    Ok(())
}

// Puts the block of the packet with this number, which became this packet alone, before the text that begins at `end`, and
// returns where the text begins then, if there is room.
fn put_one_before(
    buffer: &mut [u8; 256],
    end: usize,
    fields: &Fields,
    number: u64,
    packet: &Packet,
) -> Option<usize>
    requires packet { length packet.now ≡ count fields.now }
    requires within { end ≤ 256 }
    ensures begin { IfSome result (λ begin. begin ≤ end) }
    ensures text { IfSome result (λ begin. drop begin buffer.new ≡ codes "packet " ++ decimal number ++ codes "\n" ++ out_line fields.now packet.now ++ drop end buffer.old) }
{
    let begin = put_out_before(buffer, end, fields, packet)?;
    if begin < 28 {
        return None;
    }
    Some(put_head_before(buffer, begin, number))
}

// Puts the block of the packet with this number, which became this packet alone, whatever its length.
#[inline(never)]
fn put_long_one(
    out: &mut Vec<u8>,
    fields: &Fields,
    number: u64,
    packet: &Packet,
) -> Result<(), NoMemory>
    requires { length packet.now ≡ count fields.now }
    ensures { OnOk result (out.new.items ≡ out.old.items ++ (codes "packet " ++ decimal number ++ codes "\n" ++ out_line fields.now packet.now)) }
{
    put_head(out, number)?;
    put_out(out, fields, packet)
}

// Puts the block of the packet with this number, which became this packet alone.
fn put_one(out: &mut Vec<u8>, fields: &Fields, number: u64, packet: &Packet) -> Result<(), NoMemory>
    requires { length packet.now ≡ count fields.now }
    ensures { OnOk result (out.new.items ≡ out.old.items ++ (codes "packet " ++ decimal number ++ codes "\n" ++ out_line fields.now packet.now)) }
{
    let mut buffer = [0u8; 256];
    match put_one_before(&mut buffer, 256, fields, number, packet) {
        Some(begin) => put_from(out, &buffer, begin),
        None => put_long_one(out, fields, number, packet),
    }
}

/// Puts the block of the packet with this number, which became this packet alone, or others.
pub(crate) fn put_flow(
    alloc: Global,
    out: &mut Vec<u8>,
    fields: &Fields,
    number: u64,
    packet: &Packet,
    flow: Effect,
) -> Result<(), NoMemory>
    requires { AllLong (count fields.now) (set_after flow packet.now) }
    ensures { OnOk result (out.new.items ≡ out.old.items ++ block (all_lines fields.now) number (set_after flow packet.now)) }
{
    match flow {
        Effect::Same => put_one(out, fields, number, packet),
        Effect::Many(packets) => {
            let packets = Packets::from_list(alloc, packets)?;
            put_block(out, fields, number, &packets)
        }
    }
}

// Puts the numbers of an index.
fn put_index(out: &mut Vec<u8>, index: &[u64]) -> Result<(), NoMemory>
    ensures { OnOk result (out.new.items ≡ out.old.items ++ index_text index.now) }
{
    for number in index {
        out.push(b' ')?;
        put_number(out, *number)?;
    }
    Ok(())
}

// Puts the numbers of an index before the text that begins at `end`, and returns where the text begins then, if there is
// room.
#[inline(always)]
fn put_index_before(buffer: &mut [u8; 256], end: usize, index: &[u64]) -> Option<usize>
    requires within { end ≤ 256 }
    ensures begin { IfSome result (λ begin. begin ≤ end) }
    ensures text { IfSome result (λ begin. drop begin buffer.new ≡ index_text index.now ++ drop end buffer.old) }
{
    let mut begin = end;
    for i in (0..index.len()).rev() {
        if begin < 21 {
            return None;
        }
        begin = put_number_before(buffer, begin, index[i]);
        begin = put_byte_before(buffer, begin, b' ');
    }
    Some(begin)
}

// Puts ` = VALUE` and the end of the line before the text that begins at `end`, and returns where the text begins then.
#[inline(always)]
fn put_equal_before(buffer: &mut [u8; 256], end: usize, value: u64) -> usize
    requires within { end ≤ 256 }
    requires room { 24 ≤ end }
    ensures begin { result ≤ end }
    ensures text { drop result buffer.new ≡ codes " = " ++ decimal value ++ codes "\n" ++ drop end buffer.old }
{
    let begin = put_byte_before(buffer, end, b'\n');
    let begin = put_number_before(buffer, begin, value);
    put_bytes_before(buffer, begin, b" = ")
}

/// Puts the line of a place before the text that begins at `end`, and returns where the text begins then, if there is
/// room.
#[inline(always)]
pub(crate) fn put_place_before(
    buffer: &mut [u8; 256],
    end: usize,
    name: &[u8],
    index: &[u64],
    value: u64,
) -> Option<usize>
    requires within { end ≤ 256 }
    requires room { 24 ≤ end }
    ensures begin { IfSome result (λ begin. begin ≤ end) }
    ensures text { IfSome result (λ begin. drop begin buffer.new ≡ place_line name.now index.now value ++ drop end buffer.old) }
{
    let begin = put_equal_before(buffer, end, value);
    let begin = put_index_before(buffer, begin, index)?;
    if begin < name.len() + 6 {
        return None;
    }
    let begin = put_bytes_before(buffer, begin, name);
    Some(put_bytes_before(buffer, begin, b"array "))
}

// Puts the line of a place, whatever its length.
#[inline(never)]
fn put_long_place(out: &mut Vec<u8>, name: &[u8], index: &[u64], value: u64) -> Result<(), NoMemory>
    ensures { OnOk result (out.new.items ≡ out.old.items ++ place_line name.now index.now value) }
{
    out.extend_from_slice(b"array ")?;
    out.extend_from_slice(name)?;
    put_index(out, index)?;
    out.extend_from_slice(b" = ")?;
    put_number(out, value)?;
    out.push(b'\n')?;
    Ok(())
}

/// Puts the line of a place of the array with this name, which holds this value.
/// Refuses for memory alone.
pub fn put_place(out: &mut Vec<u8>, name: &[u8], index: &[u64], value: u64) -> Result<(), NoMemory>
    ensures { OnOk result (out.new.items ≡ out.old.items ++ place_line name.now index.now value) }
{
    let mut buffer = [0u8; 256];
    match put_place_before(&mut buffer, 256, name, index, value) {
        Some(begin) => put_from(out, &buffer, begin),
        None => put_long_place(out, name, index, value),
    }
}

// Puts the line of a place that isn't 0.
fn put_listed(out: &mut Vec<u8>, names: &Names, entry: &Listed<'_>) -> Result<(), NoMemory>
    ensures { OnOk result (out.new.items ≡ out.old.items ++ listed_line names.now entry.now) }
{
    put_place(out, name_at(names, entry.var), entry.index, entry.value)
}

/// Puts the lines of places that aren't 0, one each. Refuses for memory alone.
pub fn put_arrays(out: &mut Vec<u8>, names: &Names, entries: &[Listed<'_>]) -> Result<(), NoMemory>
    ensures { OnOk result (out.new.items ≡ out.old.items ++ flat_map (listed_line names.now) entries.now) }
{
    for entry in entries {
        put_listed(out, names, entry)?;
    }
    Ok(())
}

/// The name of this number, or nothing where there is none.
pub fn name_at(names: &Names, var: u16) -> &[u8]
    ensures { result.now ≡ unwrap_or (slice_get names.now var) [] }
{
    match names.items().get(var as usize) {
        Some(name) => name.items(),
        None => &[],
    }
}
