//! The program of a file.

ghost use Rattle.std.specs.Prelude.{◌≡◌, ◌≤◌, ◌∷◌, [], IfErr, IfOk, IfSome, length};
ghost use Rattle.snap_core.specs.Programs.{IsBounded, IsWellFormed};
ghost use Rattle.snap_io.specs.Files.{file_of};
ghost use Rattle.snap_cli.specs.Causes.{BlamesNoDevice, OnlyReads};
ghost use Rattle.snap_cli.specs.Spots.{spot_of};
ghost use Rattle.snap_cli.specs.Steps.{GivesProgram, SpellsProgram, refusal_of_names, refusal_of_tokens, refusal_of_tree};
ghost use Rattle.snap_cli.specs.Statuses.{RefusesWith};

use crate::refusal::{NamingFault, Refusal, SyntaxFault};
use crate::spot::spot_at;
use crate::text::load_text;
use snap_core::program::Program;
use snap_io::Shelf;
use snap_lex::{LexFault, tokens};
use snap_names::{NameFault, resolve};
use snap_parse::{ParseFault, parse};
use std::alloc::Global;

/// The most bytes of a program's text.
pub const MOST_PROGRAM: u64 = 262_144;

/// Reads a program's file, and the program that its text spells.
pub(crate) fn load_program<'a, S: Shelf>(
    alloc: Global,
    shelf: &mut S,
    name: &'a [u8],
) -> Result<Program, Refusal<'a>>
    ensures gives { IfSome (S.files shelf.old) (λ files. GivesProgram name.entry.now (file_of files name.entry.now) result) }
    ensures bounded { IfOk result IsBounded }
    ensures form { IfOk result IsWellFormed }
    ensures devices { OnlyReads (S.files shelf.old) (S.files shelf.new) (S.faults shelf.old) (S.faults shelf.new) result }
    ensures statuses { IfErr result (RefusesWith (2 ∷ 4 ∷ 5 ∷ 6 ∷ [])) }
{
    let text = load_text(alloc, shelf, name, MOST_PROGRAM)?;
    read_program(alloc, &text)
}

/// The program that a text spells.
pub(crate) fn read_program<'a>(alloc: Global, text: &[u8]) -> Result<Program, Refusal<'a>>
    requires { length text.now ≤ 262144 }
    ensures gives { SpellsProgram text.now result }
    ensures bounded { IfOk result IsBounded }
    ensures form { IfOk result IsWellFormed }
    ensures devices { IfErr result BlamesNoDevice }
{
    let tokens = match tokens(alloc, text) {
        Ok(tokens) => tokens,
        Err(fault) => return Err(refusal_of_tokens(text, fault)),
    };
    let source = match parse(alloc, text, &tokens) {
        Ok(source) => source,
        Err(fault) => return Err(refusal_of_tree(text, fault)),
    };
    match resolve(alloc, text, &source) {
        Ok(program) => Ok(program),
        Err(fault) => Err(refusal_of_names(text, fault)),
    }
}

fn refusal_of_tokens<'a>(text: &[u8], fault: LexFault) -> Refusal<'a>
    requires { length text.now ≤ 262144 }
    ensures { result ≡ refusal_of_tokens text.now fault }
{
    match fault {
        LexFault::BadByte { at } => Refusal::Syntax {
            fault: SyntaxFault::BadByte,
            spot: spot_at(text, at),
        },
        LexFault::BadNumber { at } => Refusal::Syntax {
            fault: SyntaxFault::BadNumber,
            spot: spot_at(text, at),
        },
        LexFault::NoMemory => Refusal::NoMemory,
    }
}

fn refusal_of_tree<'a>(text: &[u8], fault: ParseFault) -> Refusal<'a>
    requires { length text.now ≤ 262144 }
    ensures { result ≡ refusal_of_tree text.now fault }
{
    match fault {
        ParseFault::Unexpected { at } => Refusal::Syntax {
            fault: SyntaxFault::UnexpectedToken,
            spot: spot_at(text, at),
        },
        ParseFault::TooDeep { at } => Refusal::Syntax {
            fault: SyntaxFault::TooDeep,
            spot: spot_at(text, at),
        },
        ParseFault::NoMemory => Refusal::NoMemory,
    }
}

fn refusal_of_names<'a>(text: &[u8], fault: NameFault) -> Refusal<'a>
    requires { length text.now ≤ 262144 }
    ensures { result ≡ refusal_of_names text.now fault }
{
    match fault {
        NameFault::Unknown { at } => naming(text, NamingFault::UnknownName, at),
        NameFault::Twice { at } => naming(text, NamingFault::DeclaredTwice, at),
        NameFault::Kind { at } => naming(text, NamingFault::WrongKind, at),
        NameFault::Arity { at } => naming(text, NamingFault::WrongArity, at),
        NameFault::Wide { at } => naming(text, NamingFault::TooWide, at),
        NameFault::Prefix { at } => naming(text, NamingFault::WrongPrefix, at),
        NameFault::Limit { which, count } => Refusal::Limit { which, count },
        NameFault::NoMemory => Refusal::NoMemory,
    }
}

fn naming<'a>(text: &[u8], fault: NamingFault, at: u32) -> Refusal<'a>
    requires { length text.now ≤ 262144 }
    ensures { result ≡ Refusal.Naming fault (spot_of text.now at) }
{
    Refusal::Naming {
        fault,
        spot: spot_at(text, at),
    }
}
