//! The words of a line, and the values that they spell.

ghost use Rattle.std.specs.Prelude.{◌≡◌, ◌==◌, ◌+◌, ◌-◌, ◌^◌, ◌/◌, ◌%◌, ◌<◌, ◌≤◌, [], ◌∷◌, length, IfSome, MatchOption, position};
ghost use Rattle.snap_report.specs.PacketLines.{BeginsWord, both_numbers, ends_with_return, is_blank, is_inked, plain_value, split_value, without_return, words_of};
ghost use Rattle.snap_core.specs.Figures.{parts_at};
ghost use Rattle.snap_report.specs.Cuts.{HasNoName, IsNameFront, IsUntilBlank, is_mark};

use snap_core::figures::{address, number};
use snap_core::parts::split_at_first;

/// Whether a byte divides words: a space or a tab. Most bytes are passed over by the first test.
pub(crate) fn is_blank(byte: u8) -> bool
    ensures { result ≡ is_blank byte }
{
    if byte > b' ' {
        return false;
    }
    byte == b' ' || byte == b'\t'
}

/// A line without the CR at its end.
pub fn without_return(line: &[u8]) -> &[u8]
    ensures { result.now ≡ without_return line.now }
{
    if ends_with_return(line) {
        &line[..line.len() - 1]
    } else {
        line
    }
}

fn ends_with_return(line: &[u8]) -> bool
    ensures { result ≡ ends_with_return line.now }
{
    match line.last() {
        Some(byte) => *byte == b'\r',
        None => false,
    }
}

/// The first word of a text, and the text behind it. None where the text has no word.
pub fn next_word(text: &[u8]) -> Option<(&[u8], &[u8])>
    ensures word { MatchOption result (words_of text.now ≡ []) (λ pair. words_of text.now ≡ pair.0.now ∷ words_of pair.1.now) }
    ensures shorter { IfSome result (λ pair. length pair.1.now < length text.now) }
{
    match behind_blanks(text) {
        Some(front) => Some(split_word(front)),
        None => None,
    }
}

/// A text from its first word on.
pub(crate) fn behind_blanks(text: &[u8]) -> Option<&[u8]>
    ensures words { MatchOption result (words_of text.now ≡ []) (λ front. words_of text.now ≡ words_of front.now) }
    ensures begins { IfSome result (λ front. BeginsWord front.now) }
    ensures shorter { IfSome result (λ front. length front.now ≤ length text.now) }
{
    match first_inked(text) {
        Some(begin) => Some(&text[begin..]),
        None => None,
    }
}

// The word at the front of a text that begins with one, and the text behind it.
fn split_word(text: &[u8]) -> (&[u8], &[u8])
    requires { BeginsWord text.now }
    ensures word { words_of text.now ≡ result.0.now ∷ words_of result.1.now }
    ensures shorter { length result.1.now < length text.now }
{
    until_blank(text)
}

/// The name before the first `=` of the word at the front of a text, and the text behind the `=`.
pub(crate) fn split_name(text: &[u8]) -> Option<(&[u8], &[u8])>
    requires { BeginsWord text.now }
    ensures name { MatchOption result (HasNoName text.now) (λ pair. IsNameFront text.now pair.0.now pair.1.now) }
    ensures shorter { IfSome result (λ pair. length pair.1.now < length text.now) }
{
    match first_mark(text) {
        Some(at) => {
            if text[at] == b'=' {
                Some((&text[..at], &text[at + 1..]))
            } else {
                None
            }
        }
        None => None,
    }
}

/// A text up to its first blank, and the text behind that.
pub(crate) fn until_blank(text: &[u8]) -> (&[u8], &[u8])
    ensures until { IsUntilBlank text.now result.0.now result.1.now }
    ensures lengths { length result.0.now + length result.1.now ≤ length text.now }
{
    match first_blank(text) {
        Some(end) => (&text[..end], &text[end + 1..]),
        None => (text, &[]),
    }
}

// The first byte that ends a name.
fn first_mark(text: &[u8]) -> Option<usize>
    ensures { result ≡ position is_mark text.now }
{
    text.iter().position(|byte| is_mark(*byte))
}

/// Whether a byte ends a name: `=`, or a blank. Most bytes are passed over by the first test.
pub(crate) fn is_mark(byte: u8) -> bool
    ensures { result ≡ is_mark byte }
{
    if byte > b'=' {
        return false;
    }
    byte == b'=' || is_blank(byte)
}

fn first_blank(text: &[u8]) -> Option<usize>
    ensures { result ≡ position is_blank text.now }
{
    text.iter().position(|byte| is_blank(*byte))
}

fn first_inked(text: &[u8]) -> Option<usize>
    ensures { result ≡ position is_inked text.now }
{
    text.iter().position(|byte| !is_blank(*byte))
}

/// The value of a plain field or of a component: a number or an address.
pub(crate) fn plain_value(text: &[u8]) -> Option<u64>
    ensures { result ≡ plain_value text.now }
{
    match number(text) {
        Some(number) => Some(number),
        None => match address(text) {
            Some(address) => Some(u64::from(address)),
            None => None,
        },
    }
}

/// The values of the two components of a field split behind this prefix: an address, or `NET:HOST`.
pub(crate) fn split_value(prefix: u8, text: &[u8]) -> Option<(u64, u64)>
    requires { prefix ≤ 31 }
    ensures { result ≡ split_value prefix text.now }
{
    match address(text) {
        Some(address) => Some(split_address(prefix, address)),
        None => both_numbers(text),
    }
}

/// The values of the two components of a field split behind this prefix, of an address.
pub(crate) fn split_address(prefix: u8, address: u32) -> (u64, u64)
    requires { prefix ≤ 31 }
    ensures { result ≡ (address / 2 ^ (32 - prefix), address % 2 ^ (32 - prefix)) }
{
    let host_size = 1u64 << (32 - prefix);
    let address = u64::from(address);
    (address / host_size, address % host_size)
}

// `NET:HOST`.
fn both_numbers(text: &[u8]) -> Option<(u64, u64)>
    ensures { result ≡ both_numbers (parts_at 58 text.now) }
{
    let (net, host) = split_at_first(text, b':')?;
    match split_at_first(host, b':') {
        Some(_) => None,
        None => {
            let net = number(net)?;
            let host = number(host)?;
            Some((net, host))
        }
    }
}
