//! The tokens of a program text.
#![tactic(auto)]

ghost use Rattle.std.specs.Prelude.{◌≡◌, ◌≤◌, ℕ, List, length, IfOk, Err};
ghost use Rattle.snap_lex.specs.Lexemes.{SpellsTokens, IsBadByte, IsBadNumber};
ghost use Rattle.snap_lex.specs.Scanning.{Scans, GivesTokens, GivesLexFault};
ghost use Rattle.snap_lex.specs.declared.LexFault.TheVariants.{BadByte, BadNumber};

mod address;
mod bytes;
pub mod laws;
mod lexemes;

use bytes::is_blank;
use lexemes::{behind, comment_len, token_at};
use std::alloc::{AllocFailed, Global};
use thiserror::Error;

/// A keyword.
#[derive(Clone, Copy, Debug, PartialEq, Eq)]
pub enum Key {
    Field,
    Array,
    Const,
    Let,
    If,
    Then,
    Else,
    Id,
    Drop,
    Atomic,
    True,
    False,
}

/// A sign.
#[derive(Clone, Copy, Debug, PartialEq, Eq)]
pub enum Sign {
    /// `++`
    PlusPlus,
    /// `--`
    MinusMinus,
    /// `<-`
    Arrow,
    /// `[`
    OpenSquare,
    /// `]`
    CloseSquare,
    /// `(`
    OpenRound,
    /// `)`
    CloseRound,
    /// `{`
    OpenCurly,
    /// `}`
    CloseCurly,
    /// `=`
    Equals,
    /// `!`
    Not,
    /// `&`
    And,
    /// `|`
    Or,
    /// `+`
    Plus,
    /// `;`
    Semicolon,
    /// `/`
    Slash,
    /// `+=`
    PlusEquals,
    /// `-=`
    MinusEquals,
}

/// What a token is: a name, digits, four numbers joined by dots, a keyword or a sign.
#[derive(Clone, Copy, Debug, PartialEq, Eq)]
pub enum Kind {
    Word,
    Number,
    Address,
    Key(Key),
    Sign(Sign),
}

/// A token. Its text is the slice of the program text from byte `from` to before byte `to`.
#[derive(Clone, Copy, Debug, PartialEq, Eq)]
pub struct Token {
    pub kind: Kind,
    pub from: u32,
    pub to: u32,
}

/// Why a text spells no tokens.
#[derive(Clone, Copy, Debug, PartialEq, Eq, Error)]
pub enum LexFault {
    /// No token begins at this byte.
    #[error("bad byte at {at}")]
    BadByte { at: u32 },
    /// The word of digits, letters, `_` and `.` that begins here is neither a number nor an address.
    #[error("bad number at {at}")]
    BadNumber { at: u32 },
    /// There wasn't enough memory.
    #[error("out of memory")]
    NoMemory,
}

impl<T: Drop> From<AllocFailed<T>> for LexFault {
    ghost use Rattle.snap_lex.specs.declared.LexFault.TheVariants.{NoMemory};

    ghost from_gives = { λ _ e. e ≡ NoMemory };

    fn from(_e: AllocFailed<T>) -> LexFault {
        LexFault::NoMemory
    }
}

/// The greatest length of a program text, in bytes.
pub const MAX_TEXT: usize = 262144;

/// The tokens that the text spells, by longest match, with blanks and comments left out.
///
/// # Errors
///
/// `BadByte` and `BadNumber` exactly where the text's first fault is that, at its place; `NoMemory` for want of memory.
pub fn tokens(alloc: Global, text: &[u8]) -> Result<Vec<Token>, LexFault>
    requires { length text.now ≤ MAX_TEXT }
    // The text spells the tokens, and no others.
    ensures ok { IfOk result (λ v. SpellsTokens text.now v.items) }
    ensures only { (ts : List Token) → SpellsTokens text.now ts → GivesTokens result ts }

    // Each refusal has its cause at its place, and comes where the cause is.
    ensures bad_byte { (at : ℕ) → result ≡ Err (BadByte at) → IsBadByte text.now at }
    ensures bad_number { (at : ℕ) → result ≡ Err (BadNumber at) → IsBadNumber text.now at }
    ensures bad_byte_comes { (at : ℕ) → IsBadByte text.now at → GivesLexFault result (BadByte at) }
    ensures bad_number_comes { (at : ℕ) → IsBadNumber text.now at → GivesLexFault result (BadNumber at) }
{
    scan(alloc, text)
}

// The tokens up to the end, or the first place where none begins.
fn scan(alloc: Global, text: &[u8]) -> Result<Vec<Token>, LexFault>
    requires { length text.now ≤ MAX_TEXT }
    ensures { Scans text.now result }
{
    let mut out = Vec::new(alloc);
    let mut at = 0;
    while at < text.len() {
        let rest = behind(text, at);
        if is_blank(rest[0]) {
            at += 1;
        } else if rest[0] == b'#' {
            at += comment_len(rest);
        } else {
            let (kind, size) = token_at(rest, at as u32)?;
            out.push(Token {
                kind,
                from: at as u32,
                to: (at + size) as u32,
            })?;
            at += size;
        }
    }
    Ok(out)
}
