//! The lines of a changes file.

ghost use Rattle.std.specs.Prelude.{◌≡◌, ◌≢◌, ◌+◌, ◌<◌, ◌≤◌, ◌^◌, Ok, Err, Some, MatchResult, MatchOption, None, IfSome, OnOk};
ghost use Rattle.snap_runs.specs.ChangeLines.{after_words, change_by, changes_of, is_file_name, is_skipped};
ghost use Rattle.snap_runs.specs.Moving.{AddsChange, TakesChange};
ghost use Rattle.snap_runs.specs.declared.change.ChangesFault.TheVariants as fault;

use crate::event::next_line;
use snap_core::NoMemory;
use snap_core::figures::number_up_to;
use snap_core::lists::Name;
use snap_core::program::Which;
use snap_report::words::{next_word, without_return};
use std::alloc::{AllocFailed, Global};
use thiserror::Error;

/// The greatest number of packets behind which tables may change.
pub const MOST_AFTER: u64 = 1_000_000;

/// How many changes a file may have.
pub const MOST_CHANGES: usize = 16;

/// A change of tables: behind so many packets those of this file come into force. Lines are counted from 1.
#[derive(Drop)]
pub struct Change {
    pub after: u64,
    pub line: u64,
    pub name: Name,
}

/// Why changes aren't read.
#[derive(Clone, Copy, Debug, PartialEq, Eq, Error)]
pub enum ChangesFault {
    /// This line isn't in form, or its number isn't above that of the change before.
    #[error("line {line} of the changes isn't in form")]
    Line { line: u64 },

    /// There are more changes than `MOST_CHANGES`.
    #[error("there are too many changes")]
    Limit { which: Which, count: u64 },

    /// Memory was refused.
    #[error("out of memory")]
    NoMemory,
}

impl From<NoMemory> for ChangesFault {
    ghost from_gives = { λ _ e. e ≡ fault.NoMemory };

    fn from(_: NoMemory) -> Self {
        ChangesFault::NoMemory
    }
}

impl<T: Drop> From<AllocFailed<T>> for ChangesFault {
    ghost from_gives = { λ _ e. e ≡ fault.NoMemory };

    fn from(_: AllocFailed<T>) -> Self {
        ChangesFault::NoMemory
    }
}

// The changes of the lines that were read, and what may come next.
#[derive(Drop)]
struct Read {
    changes: Vec<Change>,
    lines: u64,
    least: u64,
}

/// The changes that a changes file says (`docs/FORMATS.md`, "Changes").
///
/// # Errors
///
/// `Line` at the first line that isn't in form or whose number isn't above that of the change before it, or `Limit` at the
/// 17th change, whichever comes first; and `NoMemory`.
pub fn read_changes(alloc: Global, text: &[u8]) -> Result<Vec<Change>, ChangesFault>
    ensures { MatchResult result (λ changes. changes_of text.now ≡ Ok changes.items) (λ e. e ≢ ChangesFault.NoMemory → changes_of text.now ≡ Err e) }
{
    let mut read = Read {
        changes: Vec::new(alloc),
        lines: 0,
        least: 0,
    };
    let mut rest = text;
    while let Some((line, behind)) = next_line(rest) {
        read.take_line(alloc, line)?;
        rest = behind;
    }
    Ok(read.changes)
}

impl Read {
    // Takes one line more.
    fn take_line(&mut self, alloc: Global, line: &[u8]) -> Result<(), ChangesFault>
        requires lines { self.old.lines + 1 < 2 ^ 64 }
        ensures takes { TakesChange line.now self.old self.new result }
        ensures lines { OnOk result (self.new.lines ≡ self.old.lines + 1) }
    {
        self.lines += 1;
        if is_skipped(line) {
            return Ok(());
        }
        let Some((after, name)) = read_change(line) else {
            return Err(ChangesFault::Line { line: self.lines });
        };
        if after < self.least {
            return Err(ChangesFault::Line { line: self.lines });
        }
        self.take_change(alloc, after, name)
    }

    // Takes the change of the last line.
    fn take_change(&mut self, alloc: Global, after: u64, name: &[u8]) -> Result<(), ChangesFault>
        requires { after ≤ 1000000 }
        ensures adds { AddsChange after name.now self.old self.new result }
        ensures lines { self.new.lines ≡ self.old.lines }
    {
        if self.changes.len() == MOST_CHANGES {
            return Err(ChangesFault::Limit {
                which: Which::Changes,
                count: MOST_CHANGES as u64 + 1,
            });
        }
        let name = Name::of(alloc, name)?;
        self.changes.push(Change {
            after,
            line: self.lines,
            name,
        })?;
        self.least = after + 1;
        Ok(())
    }
}

// Whether a line says nothing.
fn is_skipped(line: &[u8]) -> bool
    ensures { result ≡ is_skipped line.now }
{
    line.is_empty() || line[0] == b'#' || next_word(without_return(line)).is_none()
}

// What a line says that isn't skipped, or nothing where it isn't in form.
fn read_change(line: &[u8]) -> Option<(u64, &[u8])>
    ensures says { MatchOption result (change_by line.now ≡ None) (λ said. change_by line.now ≡ Some (said.0, said.1.now)) }
    ensures small { IfSome result (λ said. said.0 ≤ 1000000) }
{
    let (word, rest) = next_word(without_return(line))?;
    let (figures, rest) = next_word(rest)?;
    let (name, rest) = next_word(rest)?;
    after_words(word, figures, name, next_word(rest).is_some())
}

// The change of a line with three words or more.
fn after_words<'a>(
    word: &[u8],
    figures: &[u8],
    name: &'a [u8],
    more: bool,
) -> Option<(u64, &'a [u8])>
    ensures says { MatchOption result (after_words word.now figures.now name.now more ≡ None) (λ said. after_words word.now figures.now name.now more ≡ Some (said.0, said.1.now)) }
    ensures small { IfSome result (λ said. said.0 ≤ 1000000) }
{
    if more || word != b"after".as_slice() || !is_file_name(name) {
        return None;
    }
    match number_up_to(MOST_AFTER, figures) {
        Some(after) => Some((after, name)),
        None => None,
    }
}

// Whether a word is the name of a file.
fn is_file_name(name: &[u8]) -> bool
    ensures { result ≡ is_file_name name.now }
{
    match name.first() {
        Some(byte) => *byte != b'-' && !name.contains(&b'\r'),
        None => false,
    }
}
