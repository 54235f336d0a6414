// Declarations, and the whole program.

ghost use Rattle.std.specs.Prelude.{[]};
ghost use Rattle.snap_parse.specs.Machine.{run, at_decl, in_field, in_array, in_constant, in_let};
ghost use Rattle.snap_parse.specs.Reading.{ReadsDecl, ReadsDeclaration, Shortens, ShortensIfSome, Answers};
ghost use Rattle.snap_parse.specs.declared.cursor.TheConstants.{MAX_DEPTH};

use crate::cursor::{Parser, next_if, span};
use crate::fault::ParseFault;
use crate::tree::{Decl, Source};
use snap_lex::{Key, Kind, Sign, Token};

impl Parser {
    // Declarations and a policy, and nothing behind it.
    pub(crate) fn program(&self, tokens: &[Token]) -> Result<Source, ParseFault>
        ensures { Answers result (run MAX_DEPTH self.now.end (at_decl []) tokens.now) }
    {
        let mut decls = Vec::new(self.alloc);
        let mut rest = tokens;
        while let Some((decl, after)) = self.declaration(rest)? {
            decls.push(decl)?;
            rest = after;
        }
        let (policy, rest) = self.policy(rest, 0)?;
        if rest.is_empty() {
            Ok(Source { decls, policy })
        } else {
            Err(ParseFault::Unexpected {
                at: self.place(rest),
            })
        }
    }

    // A declaration, if one begins here.
    fn declaration<'a>(
        &self,
        tokens: &'a [Token],
    ) -> Result<Option<(Decl, &'a [Token])>, ParseFault>
        ensures shortens { ShortensIfSome tokens.now result }
        ensures reads { ReadsDeclaration MAX_DEPTH self.now.end tokens.now result }
    {
        if let Some((token, rest)) = next_if(tokens, Kind::Key(Key::Field)) {
            let found = self.field(token.from, rest)?;
            Ok(Some(found))
        } else if let Some((token, rest)) = next_if(tokens, Kind::Key(Key::Array)) {
            let found = self.array(token.from, rest)?;
            Ok(Some(found))
        } else if let Some((token, rest)) = next_if(tokens, Kind::Key(Key::Const)) {
            let found = self.constant(token.from, rest)?;
            Ok(Some(found))
        } else if let Some((token, rest)) = next_if(tokens, Kind::Key(Key::Let)) {
            let found = self.binding(token.from, rest)?;
            Ok(Some(found))
        } else {
            Ok(None)
        }
    }

    // What stands behind the `field` at `at`.
    fn field<'a>(&self, at: u32, tokens: &'a [Token]) -> Result<(Decl, &'a [Token]), ParseFault>
        ensures shortens { Shortens tokens.now result }
        ensures reads { ReadsDecl MAX_DEPTH self.now.end (λ ds. in_field ds at) tokens.now result }
    {
        let (word, rest) = self.expect(tokens, Kind::Word)?;
        let name = span(word);
        match next_if(rest, Kind::Sign(Sign::Slash)) {
            Some((_, rest)) => {
                let (length, rest) = self.expect(rest, Kind::Number)?;
                let (_, rest) = self.expect(rest, Kind::Sign(Sign::Semicolon))?;
                let prefix = Some(span(length));
                Ok((Decl::Field { at, name, prefix }, rest))
            }
            None => {
                let (_, rest) = self.expect(rest, Kind::Sign(Sign::Semicolon))?;
                let prefix = None;
                Ok((Decl::Field { at, name, prefix }, rest))
            }
        }
    }

    // What stands behind the `array` at `at`.
    fn array<'a>(&self, at: u32, tokens: &'a [Token]) -> Result<(Decl, &'a [Token]), ParseFault>
        ensures shortens { Shortens tokens.now result }
        ensures reads { ReadsDecl MAX_DEPTH self.now.end (λ ds. in_array ds at) tokens.now result }
    {
        let (word, rest) = self.expect(tokens, Kind::Word)?;
        let (_, rest) = self.expect(rest, Kind::Sign(Sign::Semicolon))?;
        Ok((
            Decl::Array {
                at,
                name: span(word),
            },
            rest,
        ))
    }

    // What stands behind the `const` at `at`.
    fn constant<'a>(&self, at: u32, tokens: &'a [Token]) -> Result<(Decl, &'a [Token]), ParseFault>
        ensures shortens { Shortens tokens.now result }
        ensures reads { ReadsDecl MAX_DEPTH self.now.end (λ ds. in_constant ds at) tokens.now result }
    {
        let (word, rest) = self.expect(tokens, Kind::Word)?;
        let (_, rest) = self.expect(rest, Kind::Sign(Sign::Equals))?;
        let (value, rest) = self.literal(rest)?;
        let (_, rest) = self.expect(rest, Kind::Sign(Sign::Semicolon))?;
        let name = span(word);
        Ok((Decl::Const { at, name, value }, rest))
    }

    // What stands behind the `let` at `at`.
    fn binding<'a>(&self, at: u32, tokens: &'a [Token]) -> Result<(Decl, &'a [Token]), ParseFault>
        ensures shortens { Shortens tokens.now result }
        ensures reads { ReadsDecl MAX_DEPTH self.now.end (λ ds. in_let ds at) tokens.now result }
    {
        let (word, rest) = self.expect(tokens, Kind::Word)?;
        let (open, rest) = self.expect(rest, Kind::Sign(Sign::OpenCurly))?;
        let (body, rest) = self.enclosed(open.from, rest, Kind::Sign(Sign::CloseCurly), 0)?;
        let name = span(word);
        Ok((Decl::Let { at, name, body }, rest))
    }
}
