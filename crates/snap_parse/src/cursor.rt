// Reading tokens one by one.

ghost use Rattle.std.specs.Prelude.{◌≡◌, ◌+◌, ◌≤◌, ◌∷◌, [], MatchResult};
ghost use Rattle.snap_parse.specs.Tree.{span_of};
ghost use Rattle.snap_parse.specs.Machine.{place};
ghost use Rattle.snap_parse.specs.Reading.{ReadsKind, IsNextIf};

use crate::fault::ParseFault;
use crate::tree::Span;
use snap_lex::{Kind, Token};
use std::alloc::Global;

/// The greatest depth of a program.
pub const MAX_DEPTH: u32 = 128;

// Where the token stands.
pub(crate) fn span(token: Token) -> Span
    ensures { result ≡ span_of token }
{
    Span {
        from: token.from,
        to: token.to,
    }
}

// The depth inside of what the token at `at` begins.
pub(crate) fn deeper(depth: u32, at: u32) -> Result<u32, ParseFault>
    requires { depth ≤ MAX_DEPTH }
    ensures { MatchResult result (λ inner. (inner ≡ depth + 1) × (inner ≤ MAX_DEPTH)) (λ e. (depth ≡ MAX_DEPTH) × (e ≡ ParseFault.TooDeep at)) }
{
    if depth < MAX_DEPTH {
        Ok(depth + 1)
    } else {
        Err(ParseFault::TooDeep { at })
    }
}

// The next token, if it's of this kind, and those behind it.
pub(crate) fn next_if<'a>(tokens: &'a [Token], kind: Kind) -> Option<(Token, &'a [Token])>
    ensures { IsNextIf kind tokens.now result }
{
    let (token, rest) = tokens.split_first()?;
    if token.kind == kind {
        Some((*token, rest))
    } else {
        None
    }
}

/// Where the tree's memory comes from, and where the text ends.
#[derive(Clone, Copy)]
pub struct Parser {
    pub alloc: Global,
    pub end: u32,
}

impl Parser {
    // The next token and those behind it; at the end, that it's unexpected.
    pub(crate) fn next<'a>(&self, tokens: &'a [Token]) -> Result<(Token, &'a [Token]), ParseFault>
        ensures { MatchResult result (λ x. tokens.now ≡ x.0 ∷ (x.1).now) (λ e. (tokens.now ≡ []) × (e ≡ ParseFault.Unexpected self.now.end)) }
    {
        match tokens.split_first() {
            Some((token, rest)) => Ok((*token, rest)),
            None => Err(ParseFault::Unexpected { at: self.end }),
        }
    }

    // Where the next token begins, or the text ends.
    pub(crate) fn place(&self, tokens: &[Token]) -> u32
        ensures { result ≡ place self.now.end tokens.now }
    {
        match tokens.first() {
            Some(token) => token.from,
            None => self.end,
        }
    }

    // The next token, which must be of this kind, and those behind it.
    pub(crate) fn expect<'a>(
        &self,
        tokens: &'a [Token],
        kind: Kind,
    ) -> Result<(Token, &'a [Token]), ParseFault>
        ensures { ReadsKind self.now.end kind tokens.now result }
    {
        let (token, rest) = self.next(tokens)?;
        if token.kind == kind {
            Ok((token, rest))
        } else {
            Err(ParseFault::Unexpected { at: token.from })
        }
    }
}
