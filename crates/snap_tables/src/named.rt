//! Lines that declare names.

ghost use Rattle.std.specs.Prelude.{◌≡◌, Some, None, MatchOption};
ghost use Rattle.snap_core.specs.Names.{is_name};
ghost use Rattle.snap_core.specs.Figures.{parts_by};
ghost use Rattle.snap_core.specs.Names.{is_switch_name};
ghost use Rattle.snap_tables.specs.Reading.{Gives, array_said, declared_said, field_said, is_slash, is_space, name_said, no_words, number_said, opened, rank_taken, switch_said, taken, words_left};

use crate::reader::{next_word, number_said};
use crate::taken::{no_words, opened, take_below};
use snap_core::names::{is_name, is_switch_name};
use snap_core::parts::split_at_first;

// Whether bytes are a name of a field or array.
fn spells_name(word: &[u8]) -> bool
    ensures { result ≡ is_name word.now }
{
    match std::str::from_utf8(word) {
        Ok(text) => is_name(text),
        Err(_) => false,
    }
}

/// A name of a field or array.
pub(crate) fn take_name<'a>(rest: Option<&'a [u8]>) -> Option<(&'a [u8], Option<&'a [u8]>)>
    ensures { MatchOption result (taken (name_said is_name) (words_left rest.entry) ≡ None) (λ pair. taken (name_said is_name) (words_left rest.entry) ≡ Some (pair.0.now, words_left pair.1)) }
{
    let (word, behind) = next_word(rest)?;
    if spells_name(word) {
        Some((word, behind))
    } else {
        None
    }
}

/// The switch name that a line spells.
pub(crate) fn switch_said<'a>(line: &'a [u8]) -> Option<&'a [u8]>
    ensures { MatchOption result (switch_said (parts_by is_space line.now) ≡ None) (λ name. switch_said (parts_by is_space line.now) ≡ Some name.now) }
{
    let rest = opened(b"switch", Some(line))?;
    let (word, rest) = next_word(rest)?;
    if is_switch_name(word) && no_words(rest) {
        Some(word)
    } else {
        None
    }
}

// The rank of an array, in version 2.
fn take_rank<'a>(version: u8, rest: Option<&'a [u8]>) -> Option<(u16, Option<&'a [u8]>)>
    ensures { MatchOption result (rank_taken version (words_left rest.entry) ≡ None) (λ pair. rank_taken version (words_left rest.entry) ≡ Some (pair.0, words_left pair.1)) }
{
    if version == 2 {
        take_below(64, rest)
    } else {
        Some((0, rest))
    }
}

/// The name, switch and rank of the array that a line spells.
pub(crate) fn array_said<'a>(
    version: u8,
    switches: u16,
    line: &'a [u8],
) -> Option<(&'a [u8], u16, u16)>
    ensures { Gives result (array_said version switches (parts_by is_space line.now)) (λ a. record { name = a.0.now; at = a.1; rank = a.2 }) }
{
    let rest = opened(b"array", Some(line))?;
    let (name, rest) = take_name(rest)?;
    let (at, rest) = take_below(switches, rest)?;
    let (rank, rest) = take_rank(version, rest)?;
    if no_words(rest) {
        Some((name, at, rank))
    } else {
        None
    }
}

// The name and prefix length of a field.
fn declared_said<'a>(word: &'a [u8]) -> Option<(&'a [u8], Option<u8>)>
    ensures { MatchOption result (declared_said (parts_by is_slash word.now) ≡ None) (λ f. declared_said (parts_by is_slash word.now) ≡ Some (record { name = f.0.now; prefix = f.1 })) }
{
    match split_at_first(word, b'/') {
        None => {
            if spells_name(word) {
                Some((word, None))
            } else {
                None
            }
        }
        Some((name, prefix)) => match split_at_first(prefix, b'/') {
            Some(_) => None,
            None => {
                if !spells_name(name) {
                    return None;
                }
                match number_said(31, prefix) {
                    Some(number) if 0 < number => Some((name, Some(number as u8))),
                    _ => None,
                }
            }
        },
    }
}

fn take_declared<'a>(rest: Option<&'a [u8]>) -> Option<(&'a [u8], Option<u8>, Option<&'a [u8]>)>
    ensures { Gives result (taken (λ w. declared_said (parts_by is_slash w)) (words_left rest.entry))
        (λ f. (record { name = f.0.now; prefix = f.1 }, words_left f.2)) }
{
    let (word, behind) = next_word(rest)?;
    match declared_said(word) {
        None => None,
        Some((name, prefix)) => Some((name, prefix, behind)),
    }
}

/// The name and prefix length of the field that a line spells.
pub(crate) fn field_said<'a>(line: &'a [u8]) -> Option<(&'a [u8], Option<u8>)>
    ensures { MatchOption result (field_said (parts_by is_space line.now) ≡ None) (λ f. field_said (parts_by is_space line.now) ≡ Some (record { name = f.0.now; prefix = f.1 })) }
{
    let rest = opened(b"field", Some(line))?;
    let (name, prefix, rest) = take_declared(rest)?;
    if no_words(rest) {
        Some((name, prefix))
    } else {
        None
    }
}
