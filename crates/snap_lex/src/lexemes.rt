// The longest word, figure and comment at the front of some bytes.

ghost use Rattle.std.specs.Prelude.{◌≡◌, ◌≢◌, ◌<◌, ◌≤◌, ◌↔◌, IsTrue, ℕ, true, false, length, slice_index, drop};
ghost use Rattle.snap_lex.specs.Lexemes.{IsWord, IsFigure, IsComment, AreDigits, is_blank, is_digit, is_letter};
ghost use Rattle.snap_lex.specs.Scanning.{IsKeyOf, IsSignAt, IsTokenAt};

use crate::address::is_address;
use crate::bytes::{is_digit, is_figure_part, is_joint, is_letter, is_part};
use crate::{Key, Kind, LexFault, Sign};

// The bytes behind the first n.
pub(crate) fn behind(bytes: &[u8], n: usize) -> &[u8]
    requires { n ≤ length bytes.now }
    ensures { result.now ≡ drop n bytes.now }
{
    &bytes[n..]
}

// How many bytes the word has.
pub(crate) fn word_len(bytes: &[u8]) -> usize
    requires some { 0 < length bytes.now }
    requires first { is_letter (slice_index bytes.now 0) ≡ true }
    ensures word { IsWord bytes.now result }
    ensures longest { (m : ℕ) → IsWord bytes.now m → m ≤ result }
{
    let mut n = 1;
    while n < bytes.len() {
        if is_part(bytes[n]) {
            n += 1;
        } else if is_joint(bytes[n]) && n + 1 < bytes.len() && is_part(bytes[n + 1]) {
            n += 2;
        } else {
            return n;
        }
    }
    n
}

// How many bytes the figure has.
pub(crate) fn figure_len(bytes: &[u8]) -> usize
    requires some { 0 < length bytes.now }
    requires first { is_digit (slice_index bytes.now 0) ≡ true }
    ensures figure { IsFigure bytes.now result }
    ensures longest { (m : ℕ) → IsFigure bytes.now m → m ≤ result }
{
    let mut n = 1;
    while n < bytes.len() && is_figure_part(bytes[n]) {
        n += 1;
    }
    n
}

// How many bytes the comment has.
pub(crate) fn comment_len(bytes: &[u8]) -> usize
    requires some { 0 < length bytes.now }
    requires first { slice_index bytes.now 0 ≡ 35 }
    ensures { IsComment bytes.now result }
{
    let mut n = 1;
    while n < bytes.len() && bytes[n] != b'\n' {
        n += 1;
    }
    n
}

// The keyword that the word is.
pub(crate) fn key_of(word: &[u8]) -> Option<Key>
    ensures { IsKeyOf word.now result }
{
    match word {
        b"field" => Some(Key::Field),
        b"array" => Some(Key::Array),
        b"const" => Some(Key::Const),
        b"let" => Some(Key::Let),
        b"if" => Some(Key::If),
        b"then" => Some(Key::Then),
        b"else" => Some(Key::Else),
        b"id" => Some(Key::Id),
        b"drop" => Some(Key::Drop),
        b"atomic" => Some(Key::Atomic),
        b"True" => Some(Key::True),
        b"False" => Some(Key::False),
        _ => None,
    }
}

// Whether the first n bytes are digits.
pub(crate) fn are_digits(bytes: &[u8], n: usize) -> bool
    requires { n ≤ length bytes.now }
    ensures { IsTrue result ↔ AreDigits bytes.now n }
{
    for i in 0..n {
        if !is_digit(bytes[i]) {
            return false;
        }
    }
    true
}

// The longest sign, and its length.
pub(crate) fn sign_at(bytes: &[u8]) -> Option<(Sign, usize)>
    requires { 0 < length bytes.now }
    ensures { IsSignAt bytes.now result }
{
    match bytes {
        [b'+', b'+', ..] => Some((Sign::PlusPlus, 2)),
        [b'-', b'-', ..] => Some((Sign::MinusMinus, 2)),
        [b'<', b'-', ..] => Some((Sign::Arrow, 2)),
        [b'+', b'=', ..] => Some((Sign::PlusEquals, 2)),
        [b'-', b'=', ..] => Some((Sign::MinusEquals, 2)),
        [b'[', ..] => Some((Sign::OpenSquare, 1)),
        [b']', ..] => Some((Sign::CloseSquare, 1)),
        [b'(', ..] => Some((Sign::OpenRound, 1)),
        [b')', ..] => Some((Sign::CloseRound, 1)),
        [b'{', ..] => Some((Sign::OpenCurly, 1)),
        [b'}', ..] => Some((Sign::CloseCurly, 1)),
        [b'=', ..] => Some((Sign::Equals, 1)),
        [b'!', ..] => Some((Sign::Not, 1)),
        [b'&', ..] => Some((Sign::And, 1)),
        [b'|', ..] => Some((Sign::Or, 1)),
        [b'+', ..] => Some((Sign::Plus, 1)),
        [b';', ..] => Some((Sign::Semicolon, 1)),
        [b'/', ..] => Some((Sign::Slash, 1)),
        _ => None,
    }
}

// The token at the front, and its length.
pub(crate) fn token_at(bytes: &[u8], at: u32) -> Result<(Kind, usize), LexFault>
    requires some { 0 < length bytes.now }
    requires no_blank { is_blank (slice_index bytes.now 0) ≡ false }
    requires no_comment { slice_index bytes.now 0 ≢ 35 }
    ensures { IsTokenAt at bytes.now result }
{
    if is_letter(bytes[0]) {
        let n = word_len(bytes);
        match key_of(&bytes[..n]) {
            Some(key) => Ok((Kind::Key(key), n)),
            None => Ok((Kind::Word, n)),
        }
    } else if is_digit(bytes[0]) {
        let n = figure_len(bytes);
        if are_digits(bytes, n) {
            Ok((Kind::Number, n))
        } else if is_address(&bytes[..n]) {
            Ok((Kind::Address, n))
        } else {
            Err(LexFault::BadNumber { at })
        }
    } else {
        match sign_at(bytes) {
            Some((sign, n)) => Ok((Kind::Sign(sign), n)),
            None => Err(LexFault::BadByte { at }),
        }
    }
}
