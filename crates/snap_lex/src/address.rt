// Addresses: four groups of digits, joined by dots.

ghost use Rattle.std.specs.Prelude.{◌≡◌, ◌↔◌, ◌≤◌, ◌<◌, IsTrue, true};
ghost use Rattle.snap_lex.specs.Lexemes.{IsAddress, HasDots, is_group, digit_of, is_digit};
ghost use Rattle.snap_lex.specs.Scanning.{IsBehindGroup, IsFirstDot};

use crate::bytes::is_digit;

// The value of a digit.
fn digit(b: u8) -> u16
    requires { is_digit b ≡ true }
    ensures value { result ≡ digit_of b }
    ensures small { result ≤ 9 }
{
    u16::from(b - b'0')
}

// Whether these are one to three digits of value at most 255.
fn is_group(bytes: &[u8]) -> bool
    ensures { result ≡ is_group bytes.now }
{
    match bytes {
        [a] => is_digit(*a),
        [a, b] => is_digit(*a) && is_digit(*b),
        [a, b, c] => {
            is_digit(*a)
                && is_digit(*b)
                && is_digit(*c)
                && digit(*a) * 100 + digit(*b) * 10 + digit(*c) <= 255
        }
        _ => false,
    }
}

// Where the first dot stands.
fn dot_at(bytes: &[u8]) -> Option<usize>
    ensures { IsFirstDot bytes.now result }
{
    bytes.iter().position(|b| *b == b'.')
}

// What stands behind a group and a dot.
fn behind_group(bytes: &[u8]) -> Option<&[u8]>
    ensures { IsBehindGroup bytes.now result }
{
    let dot = dot_at(bytes)?;
    if is_group(&bytes[..dot]) {
        Some(&bytes[dot + 1..])
    } else {
        None
    }
}

// Whether the bytes are an address.
pub(crate) fn is_address(bytes: &[u8]) -> bool
    ensures { IsTrue result ↔ IsAddress bytes.now }
{
    has_dots(bytes, 3)
}

// Whether the bytes are groups joined by this many dots.
fn has_dots(bytes: &[u8], dots: u8) -> bool
    ensures { IsTrue result ↔ HasDots dots bytes.now }
{
    if dots == 0 {
        is_group(bytes)
    } else {
        match behind_group(bytes) {
            Some(rest) => has_dots(rest, dots - 1),
            None => false,
        }
    }
}
