//! Texts of a line or a few that grow at their front, at the end of a buffer on the stack: what a vector takes at once
//! costs less than its parts, each of which asks for room.

ghost use Rattle.std.specs.Prelude.{◌≡◌, ◌<◌, ◌≤◌, ◌+◌, ◌++◌, ◌∷◌, decimal, drop, length};
ghost use Rattle.snap_report.specs.Reports.{address_text};

use itoa::Buffer;

/// A digit, which stands for a number below 10.
pub(crate) fn digit(number: u64) -> u8
    requires { number < 10 }
    ensures { result ≡ 48 + number }
{
    b'0' + number as u8
}

/// Puts a byte before the text that begins at `end`, and returns where the text begins then.
#[inline(always)]
pub fn put_byte_before(buffer: &mut [u8; 256], end: usize, byte: u8) -> usize
    requires within { end ≤ 256 }
    requires room { 0 < end }
    ensures begin { result + 1 ≡ end }
    ensures text { drop result buffer.new ≡ byte ∷ drop end buffer.old }
{
    let begin = end - 1;
    buffer[begin] = byte;
    begin
}

/// Puts bytes before the text that begins at `end`, and returns where the text begins then.
#[inline(always)]
pub fn put_bytes_before(buffer: &mut [u8; 256], end: usize, bytes: &[u8]) -> usize
    requires within { end ≤ 256 }
    requires room { length bytes.now ≤ end }
    ensures begin { result + length bytes.now ≡ end }
    ensures text { drop result buffer.new ≡ bytes.now ++ drop end buffer.old }
{
    let begin = end - bytes.len();
    buffer[begin..end].copy_from_slice(bytes);
    begin
}

/// Puts a number in digits, twenty at most, before the text that begins at `end`, and returns where the text begins then.
#[inline(always)]
pub fn put_number_before(buffer: &mut [u8; 256], end: usize, number: u64) -> usize
    requires within { end ≤ 256 }
    requires room { 20 ≤ end }
    ensures begin { result ≤ end }
    ensures short { end ≤ result + 20 }
    ensures text { drop result buffer.new ≡ decimal number ++ drop end buffer.old }
{
    if number < 100_000 {
        put_digits_before(buffer, end, number)
    } else {
        put_long_before(buffer, end, number)
    }
}

// Puts a number of many digits before the text that begins at `end`, and returns where the text begins then.
#[inline(never)]
fn put_long_before(buffer: &mut [u8; 256], end: usize, number: u64) -> usize
    requires within { end ≤ 256 }
    requires room { length (decimal number) ≤ end }
    ensures begin { result + length (decimal number) ≡ end }
    ensures text { drop result buffer.new ≡ decimal number ++ drop end buffer.old }
{
    let mut digits = Buffer::new();
    put_bytes_before(buffer, end, digits.format(number).as_bytes())
}

// Puts the digits of a number before the text that begins at `end`, one after another, and returns where the text begins
// then. For numbers of few digits that is the shortest way.
#[inline(always)]
fn put_digits_before(buffer: &mut [u8; 256], end: usize, number: u64) -> usize
    requires within { end ≤ 256 }
    requires room { length (decimal number) ≤ end }
    ensures begin { result + length (decimal number) ≡ end }
    ensures text { drop result buffer.new ≡ decimal number ++ drop end buffer.old }
{
    let mut left = number;
    let mut begin = end;
    while left >= 10 {
        begin = put_byte_before(buffer, begin, digit(left % 10));
        left /= 10;
    }
    put_byte_before(buffer, begin, digit(left))
}

// Puts a number of one byte in digits before the text that begins at `end`, and returns where the text begins then. With
// no loop, since most have one digit or two.
#[inline(always)]
fn put_octet_before(buffer: &mut [u8; 256], end: usize, octet: u64) -> usize
    requires octet { octet < 256 }
    requires within { end ≤ 256 }
    requires room { 3 ≤ end }
    ensures begin { result ≤ end }
    ensures short { end ≤ result + 3 }
    ensures text { drop result buffer.new ≡ decimal octet ++ drop end buffer.old }
{
    if octet < 10 {
        put_byte_before(buffer, end, digit(octet))
    } else if octet < 100 {
        let begin = put_byte_before(buffer, end, digit(octet % 10));
        put_byte_before(buffer, begin, digit(octet / 10))
    } else {
        let front = octet / 10;
        let begin = put_byte_before(buffer, end, digit(octet % 10));
        let begin = put_byte_before(buffer, begin, digit(front % 10));
        put_byte_before(buffer, begin, digit(front / 10))
    }
}

/// Puts an address before the text that begins at `end`, and returns where the text begins then.
pub(crate) fn put_address_before(buffer: &mut [u8; 256], end: usize, address: u32) -> usize
    requires within { end ≤ 256 }
    requires room { 15 ≤ end }
    ensures begin { result ≤ end }
    ensures short { end ≤ result + 15 }
    ensures text { drop result buffer.new ≡ address_text address ++ drop end buffer.old }
{
    let address = u64::from(address);
    let begin = put_octet_before(buffer, end, address % 256);
    let begin = put_byte_before(buffer, begin, b'.');
    let begin = put_octet_before(buffer, begin, (address >> 8) % 256);
    let begin = put_byte_before(buffer, begin, b'.');
    let begin = put_octet_before(buffer, begin, (address >> 16) % 256);
    let begin = put_byte_before(buffer, begin, b'.');
    put_octet_before(buffer, begin, address >> 24)
}
