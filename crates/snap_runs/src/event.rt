//! Lines of a schedule.

ghost use Rattle.std.specs.Prelude.{◌≡◌, ◌<◌, ◌∷◌, [], length, IfSome, MatchOption};
ghost use Rattle.snap_runs.specs.Schedules.{lines_of, order_by, step_order};

use snap_core::figures::number;
use snap_core::parts::split_at_first;
use snap_report::words::{next_word, without_return};

/// What a line of a schedule orders.
#[derive(Clone, Copy)]
pub enum Instruction {
    /// Nothing: the line has no words, or begins with `#`.
    Skip,
    /// The next packet of the packets file is injected.
    Inject,
    /// The copy at this place, counted from 0, makes a step.
    Step(u64),
}

/// What a line orders (`docs/FORMATS.md`, "Schedules"), or nothing where it isn't in form. The line has no LF.
pub fn read_order(line: &[u8]) -> Option<Instruction>
    ensures { result ≡ order_by line.now }
{
    if line.first() == Some(&b'#') {
        return Some(Instruction::Skip);
    }
    let Some((word, rest)) = next_word(without_return(line)) else {
        return Some(Instruction::Skip);
    };
    match next_word(rest) {
        None if word == b"inject".as_slice() => Some(Instruction::Inject),
        None => None,
        Some((figures, behind)) => step_order(word, figures, next_word(behind).is_some()),
    }
}

// The order of a line with two words or more.
fn step_order(word: &[u8], figures: &[u8], more: bool) -> Option<Instruction>
    ensures { result ≡ step_order word.now figures.now more }
{
    if more || word != b"step".as_slice() {
        return None;
    }
    match number(figures) {
        Some(place) => Some(Instruction::Step(place)),
        None => None,
    }
}

/// The first line of a text, and the text behind it. None where no text is left.
pub fn next_line(text: &[u8]) -> Option<(&[u8], &[u8])>
    ensures line { MatchOption result (lines_of text.now ≡ []) (λ pair. lines_of text.now ≡ pair.0.now ∷ lines_of pair.1.now) }
    ensures shorter { IfSome result (λ pair. length pair.1.now < length text.now) }
{
    if text.is_empty() {
        return None;
    }
    match split_at_first(text, b'\n') {
        Some(pair) => Some(pair),
        None => Some((text, &[])),
    }
}
