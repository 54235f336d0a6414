//! The values of a split field at the front of a text, before a blank or the end. Mostly they are an address, which is
//! read there without a look for its end first.

ghost use Rattle.std.specs.Prelude.{◌≡◌, ◌≤◌, ◌<◌, ◌+◌, ◌∷◌, [], IfSome, length};
ghost use Rattle.snap_report.specs.Ahead.{IsAddressFront, IsOctetAhead, IsSplitFront};
ghost use Rattle.snap_report.specs.Cuts.{IsUntilBlank};

use crate::words::{is_blank, split_address, split_value, until_blank};

/// The values of the two components of a field split behind this prefix, which stand at the front of a text, and the
/// text behind them.
pub(crate) fn split_front(prefix: u8, text: &[u8]) -> (Option<(u64, u64)>, &[u8])
    requires { prefix ≤ 31 }
    ensures front { IsSplitFront prefix text.now result.0 result.1.now }
    ensures shorter { length result.1.now ≤ length text.now }
{
    match address_front(text) {
        Some((address, behind)) => (Some(split_address(prefix, address)), behind),
        None => {
            let (value, behind) = until_blank(text);
            (split_value(prefix, value), behind)
        }
    }
}

// The address up to the first blank of a text, and the text behind that.
fn address_front(text: &[u8]) -> Option<(u32, &[u8])>
    ensures front { IfSome result (λ pair. IsAddressFront text.now pair.0 pair.1.now) }
    ensures shorter { IfSome result (λ pair. length pair.1.now ≤ length text.now) }
{
    let (first, rest) = part(text)?;
    let (second, rest) = part(rest)?;
    let (third, rest) = part(rest)?;
    let (fourth, rest) = octet(rest)?;
    let behind = behind_end(rest)?;
    Some((
        ((first * 256 + second) * 256 + third) * 256 + fourth,
        behind,
    ))
}

// The text behind a blank at its front, or the end.
#[inline(always)]
fn behind_end(text: &[u8]) -> Option<&[u8]>
    ensures end { IfSome result (λ behind. IsUntilBlank text.now [] behind.now) }
    ensures shorter { IfSome result (λ behind. length behind.now ≤ length text.now) }
{
    match text.split_first() {
        Some((byte, behind)) => { if is_blank(*byte) { Some(behind) } else { None } }
        None => Some(text),
    }
}

// A part of an address at the front of a text, and the text behind its dot.
#[inline(always)]
fn part(text: &[u8]) -> Option<(u32, &[u8])>
    ensures ahead { IfSome result (λ pair. IsOctetAhead text.now pair.0 (46 ∷ pair.1.now)) }
    ensures small { IfSome result (λ pair. pair.0 ≤ 255) }
    ensures shorter { IfSome result (λ pair. length pair.1.now < length text.now) }
{
    let (number, rest) = octet(text)?;
    let (byte, behind) = rest.split_first()?;
    if *byte == b'.' {
        Some((number, behind))
    } else {
        None
    }
}

// The number that up to three digits at the front of a text spell, if it is at most 255, and the text behind them.
#[inline(always)]
fn octet(text: &[u8]) -> Option<(u32, &[u8])>
    ensures ahead { IfSome result (λ pair. IsOctetAhead text.now pair.0 pair.1.now) }
    ensures small { IfSome result (λ pair. pair.0 ≤ 255) }
    ensures shorter { IfSome result (λ pair. length pair.1.now < length text.now) }
{
    let (first, rest) = digit(text)?;
    let Some((second, rest)) = digit(rest) else {
        return Some((first, rest));
    };
    let front = first * 10 + second;
    let Some((third, rest)) = digit(rest) else {
        return Some((front, rest));
    };
    let whole = front * 10 + third;
    if whole <= 255 {
        Some((whole, rest))
    } else {
        None
    }
}

// The digit at the front of a text, and the text behind it.
#[inline(always)]
fn digit(text: &[u8]) -> Option<(u32, &[u8])>
    ensures digit { IfSome result (λ pair. text.now ≡ (48 + pair.0) ∷ pair.1.now) }
    ensures small { IfSome result (λ pair. pair.0 ≤ 9) }
{
    let (byte, rest) = text.split_first()?;
    if byte.is_ascii_digit() {
        Some((u32::from(*byte - b'0'), rest))
    } else {
        None
    }
}
