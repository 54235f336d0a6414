//! Lines and numbers at the front of a text, found in one pass.

ghost use Rattle.std.specs.Prelude.{◌≡◌, ◌==◌, ◌∷◌, ◌<◌, [], None, Some, length, IfSome, MatchOption};
ghost use Rattle.std.specs.Str.{bytes_eq};
ghost use Rattle.snap_core.specs.Figures.{parts_by};
ghost use Rattle.snap_tables.specs.Reading.{is_space, opened, taken, u64_said, words_left};
ghost use Rattle.snap_tables.specs.Scan.{IsNumberFront};

use crate::reader::is_padded;
use memchr::memchr;

/// Whether two texts are equal. Few bytes are compared in a few steps.
pub(crate) fn is_text(text: &[u8], other: &[u8]) -> bool
    ensures { result ≡ bytes_eq text.now other.now }
{
    let mut left = text;
    let mut right = other;
    while let Some((x, more)) = left.split_first() {
        let Some((y, others)) = right.split_first() else {
            return false;
        };
        if *x != *y {
            return false;
        }
        left = more;
        right = others;
    }
    right.is_empty()
}

/// The words behind this word, where it stands in front of a text.
#[tactic(auto, using(crate::proofs::Scanning::opened_next, crate::proofs::Scanning::opened_other, crate::proofs::Scanning::opened_blank, crate::proofs::Scanning::opened_all, crate::proofs::Scanning::opened_longer))]
pub(crate) fn behind_word<'a>(keyword: &[u8], text: &'a [u8]) -> Option<Option<&'a [u8]>>
    ensures { MatchOption result (opened keyword.now (parts_by is_space text.now) ≡ None) (λ left. opened keyword.now (parts_by is_space text.now) ≡ Some (words_left left)) }
{
    let mut left = keyword;
    let mut rest = text;
    while let Some((letter, letters)) = left.split_first() {
        let (byte, bytes) = rest.split_first()?;
        if *letter != *byte || *letter == b' ' {
            return None;
        }
        left = letters;
        rest = bytes;
    }
    match rest.split_first() {
        None => Some(None),
        Some((byte, bytes)) if *byte == b' ' => Some(Some(bytes)),
        Some(_) => None,
    }
}

/// The line at the front of a text, and the text behind it.
pub(crate) fn split_line(text: &[u8]) -> Option<(&[u8], &[u8])>
    ensures parts { MatchOption result (parts_by (λ b. b == 10) text.now ≡ text.now ∷ [])
        (λ pair. parts_by (λ b. b == 10) text.now ≡ pair.0.now ∷ parts_by (λ b. b == 10) pair.1.now) }
    ensures shorter { IfSome result (λ pair. length pair.1.now < length text.now) }
{
    match memchr(b'\n', text) {
        Some(at) => Some((&text[..at], &text[at + 1..])),
        None => None,
    }
}

// Below this a number and one more digit have 64 bits.
const TENTH: u64 = u64::MAX / 10;

// How many digits stand in front of a text's first blank or its end, if these are all that stand there, and what they
// are worth, if it is surely of 64 bits.
#[tactic(auto, using(crate::proofs::Scanning::front_more))]
#[inline(always)]
fn digits_front(text: &[u8]) -> Option<(usize, u64)>
    ensures { IfSome result (λ pair. IsNumberFront text.now pair.0 pair.1) }
{
    let mut number = 0u64;
    for (at, byte) in text.iter().enumerate() {
        if *byte == b' ' {
            return Some((at, number));
        }
        if !byte.is_ascii_digit() {
            return None;
        }
        if TENTH <= number {
            return None;
        }
        number = number * 10 + u64::from(*byte - b'0');
    }
    Some((text.len(), number))
}

// The number that so many digits are worth, and the words behind it.
#[tactic(auto, using(crate::proofs::Scanning::front_taken, crate::proofs::Scanning::front_last))]
#[inline(always)]
fn words_behind<'a>(text: &'a [u8], at: usize, number: u64) -> Option<(u64, Option<&'a [u8]>)>
    requires { IsNumberFront text.now at number }
    ensures { IfSome result (λ pair. taken u64_said (parts_by is_space text.now) ≡ Some (pair.0, words_left pair.1)) }
{
    if at == 0 || is_padded(&text[..at]) {
        return None;
    }
    if at < text.len() {
        Some((number, Some(&text[at + 1..])))
    } else {
        Some((number, None))
    }
}

/// The number of 64 bits that stands in front of a text, and the words behind it; nothing is said where another word
/// stands there.
#[inline(always)]
pub(crate) fn number_front<'a>(text: &'a [u8]) -> Option<(u64, Option<&'a [u8]>)>
    ensures { IfSome result (λ pair. taken u64_said (parts_by is_space text.now) ≡ Some (pair.0, words_left pair.1)) }
{
    let (at, number) = digits_front(text)?;
    words_behind(text, at, number)
}
