// Literals, values and places.

ghost use Rattle.std.specs.Prelude.{◌≡◌};
ghost use Rattle.snap_parse.specs.Tree.{span_of};
ghost use Rattle.snap_parse.specs.Machine.{literal_of};
ghost use Rattle.snap_parse.specs.Reading.{ReadsLiteral, ReadsValue, ReadsAddress, ReadsPlaces, Shortens, KeepsOrShortens};
ghost use Rattle.snap_parse.specs.declared.cursor.TheConstants.{MAX_DEPTH};

use crate::cursor::{Parser, next_if, span};
use crate::fault::ParseFault;
use crate::tree::{Literal, Span, Value};
use snap_lex::{Key, Kind, Sign, Token};

// The literal that the token is.
fn literal_of(token: Token) -> Option<Literal>
    ensures { result ≡ literal_of token.kind (span_of token) }
{
    match token.kind {
        Kind::Number => Some(Literal::Number(span(token))),
        Kind::Address => Some(Literal::Address(span(token))),
        Kind::Key(Key::True) => Some(Literal::True(span(token))),
        Kind::Key(Key::False) => Some(Literal::False(span(token))),
        _ => None,
    }
}

impl Parser {
    // A literal.
    pub(crate) fn literal<'a>(
        &self,
        tokens: &'a [Token],
    ) -> Result<(Literal, &'a [Token]), ParseFault>
        ensures { ReadsLiteral self.now.end tokens.now result }
    {
        let (token, rest) = self.next(tokens)?;
        match literal_of(token) {
            Some(literal) => Ok((literal, rest)),
            None => Err(ParseFault::Unexpected { at: token.from }),
        }
    }

    // A value.
    pub(crate) fn value<'a>(&self, tokens: &'a [Token]) -> Result<(Value, &'a [Token]), ParseFault>
        ensures shortens { Shortens tokens.now result }
        ensures reads { ReadsValue MAX_DEPTH self.now.end tokens.now result }
    {
        let (token, rest) = self.next(tokens)?;
        match token.kind {
            Kind::Word => Ok((Value::Name(span(token)), rest)),
            Kind::Address => self.behind_address(span(token), rest),
            _ => {
                let (literal, rest) = self.literal(tokens)?;
                Ok((Value::Literal(literal), rest))
            }
        }
    }

    // A value that begins with this address: the address, or `address/length`.
    fn behind_address<'a>(
        &self,
        address: Span,
        tokens: &'a [Token],
    ) -> Result<(Value, &'a [Token]), ParseFault>
        ensures shortens { KeepsOrShortens tokens.now result }
        ensures reads { ReadsAddress MAX_DEPTH self.now.end address tokens.now result }
    {
        match next_if(tokens, Kind::Sign(Sign::Slash)) {
            Some((_, rest)) => {
                let (token, rest) = self.expect(rest, Kind::Number)?;
                let length = span(token);
                Ok((Value::Prefix { address, length }, rest))
            }
            None => Ok((Value::Literal(Literal::Address(address)), tokens)),
        }
    }

    // The values in a name's places, from behind the first `[`.
    pub(crate) fn places<'a>(
        &self,
        tokens: &'a [Token],
    ) -> Result<(Vec<Value>, &'a [Token]), ParseFault>
        ensures shortens { KeepsOrShortens tokens.now result }
        ensures reads { ReadsPlaces MAX_DEPTH self.now.end tokens.now result }
    {
        let mut places = Vec::new(self.alloc);
        let mut rest = tokens;
        'places: loop {
            let (value, behind) = self.value(rest)?;
            let (_, after) = self.expect(behind, Kind::Sign(Sign::CloseSquare))?;
            places.push(value)?;
            match next_if(after, Kind::Sign(Sign::OpenSquare)) {
                Some((_, inside)) => rest = inside,
                None => return Ok((places, after)),
            }
        }
    }
}
