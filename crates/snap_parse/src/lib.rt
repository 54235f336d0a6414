//! The tree of a program.
#![tactic(auto)]

ghost use Rattle.std.specs.Prelude.{◌≡◌, ◌≤◌, ℕ, length, IfOk, Err};
ghost use Rattle.snap_lex.specs.declared.TheConstants.{MAX_TEXT};
ghost use Rattle.snap_parse.specs.Tree.{SourceTree, source_tree};
ghost use Rattle.snap_parse.specs.Grammar.{DerivesWithin, IsUnexpected, IsTooDeep};
ghost use Rattle.snap_parse.specs.Parsing.{GivesTree, GivesFault};
ghost use Rattle.snap_parse.specs.declared.fault.ParseFault.TheVariants.{Unexpected, TooDeep};
ghost use Rattle.snap_parse.specs.declared.cursor.TheConstants.{MAX_DEPTH};

mod cursor;
mod declarations;
pub mod fault;
pub mod laws;
mod policies;
pub mod tree;
mod values;

pub use cursor::MAX_DEPTH;
use cursor::Parser;
pub use fault::ParseFault;
use snap_lex::Token;
use std::alloc::Global;
pub use tree::{
    Both, Choice, Decl, Either, Literal, Policy, Sequence, Single, Source, Span, Value,
};

/// The tree that the text's tokens derive.
///
/// The depth at a token is the number of `if`, `!`, `(` and `{` that are begun and not ended there. An `if` and a `!`
/// end with their choice or single.
///
/// # Errors
///
/// `Unexpected` and `TooDeep` exactly where the first token that fits no tree is refused for that, at its place;
/// `NoMemory` for want of memory.
pub fn parse(alloc: Global, text: &[u8], tokens: &[Token]) -> Result<Source, ParseFault>
    requires { length text.now ≤ MAX_TEXT }
    // The tree is derived, and no other is.
    ensures ok { IfOk result (λ s. DerivesWithin MAX_DEPTH tokens.now (source_tree s)) }
    ensures only { (s : SourceTree) → DerivesWithin MAX_DEPTH tokens.now s → GivesTree result s }

    // Each refusal has its cause at its place, and comes where the cause is.
    ensures unexpected { (at : ℕ) → result ≡ Err (Unexpected at) → IsUnexpected MAX_DEPTH (length text.now) tokens.now at }
    ensures too_deep { (at : ℕ) → result ≡ Err (TooDeep at) → IsTooDeep MAX_DEPTH tokens.now at }
    ensures unexpected_comes { (at : ℕ) → IsUnexpected MAX_DEPTH (length text.now) tokens.now at → GivesFault result (Unexpected at) }
    ensures too_deep_comes { (at : ℕ) → IsTooDeep MAX_DEPTH tokens.now at → GivesFault result (TooDeep at) }
{
    let parser = Parser {
        alloc,
        end: text.len() as u32,
    };
    parser.program(tokens)
}
