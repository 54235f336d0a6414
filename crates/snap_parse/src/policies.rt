// Policies by recursive descent: a function for each line of the grammar, which gives the tree and the tokens behind it.

ghost use Rattle.std.specs.Prelude.{◌≤◌};
ghost use Rattle.snap_parse.specs.Reading.{ReadsPolicy, ReadsSequence, ReadsChoice, ReadsBranches, ReadsEither, ReadsBoth, ReadsSingle, ReadsNegation, ReadsEnclosed, ReadsNamed, ReadsPlaced, Shortens, KeepsOrShortens};
ghost use Rattle.snap_parse.specs.declared.cursor.TheConstants.{MAX_DEPTH};

use crate::cursor::{Parser, deeper, next_if, span};
use crate::fault::ParseFault;
use crate::tree::{Both, Choice, Either, Policy, Sequence, Single, Span, Value};
use snap_lex::{Key, Kind, Sign, Token};

impl Parser {
    #[cycle(parser)]
    pub(crate) fn policy<'a>(
        &self,
        tokens: &'a [Token],
        depth: u32,
    ) -> Result<(Policy, &'a [Token]), ParseFault>
        requires { depth ≤ MAX_DEPTH }
        ensures shortens { Shortens tokens.now result }
        ensures reads { ReadsPolicy MAX_DEPTH self.now.end depth tokens.now result }
    {
        let at = self.place(tokens);
        let mut parts = Vec::new(self.alloc);
        let mut rest = tokens;
        'parts: loop {
            let (part, after) = self.sequence(rest, depth)?;
            parts.push(part)?;
            match next_if(after, Kind::Sign(Sign::Plus)) {
                Some((_, behind)) => rest = behind,
                None => return Ok((Policy { at, parts }, after)),
            }
        }
    }

    #[cycle(parser)]
    fn sequence<'a>(
        &self,
        tokens: &'a [Token],
        depth: u32,
    ) -> Result<(Sequence, &'a [Token]), ParseFault>
        requires { depth ≤ MAX_DEPTH }
        ensures shortens { Shortens tokens.now result }
        ensures reads { ReadsSequence MAX_DEPTH self.now.end depth tokens.now result }
    {
        let at = self.place(tokens);
        let mut parts = Vec::new(self.alloc);
        let mut rest = tokens;
        'parts: loop {
            let (part, after) = self.choice(rest, depth)?;
            parts.push(part)?;
            match next_if(after, Kind::Sign(Sign::Semicolon)) {
                Some((_, behind)) => rest = behind,
                None => return Ok((Sequence { at, parts }, after)),
            }
        }
    }

    #[cycle(parser)]
    fn choice<'a>(
        &self,
        tokens: &'a [Token],
        depth: u32,
    ) -> Result<(Choice, &'a [Token]), ParseFault>
        requires { depth ≤ MAX_DEPTH }
        ensures shortens { Shortens tokens.now result }
        ensures reads { ReadsChoice MAX_DEPTH self.now.end depth tokens.now result }
    {
        match next_if(tokens, Kind::Key(Key::If)) {
            Some((token, rest)) => self.branches(token.from, rest, depth),
            None => {
                let (either, rest) = self.either(tokens, depth)?;
                Ok((Choice::Plain(either), rest))
            }
        }
    }

    // What stands behind the `if` at `at`.
    #[cycle(parser)]
    fn branches<'a>(
        &self,
        at: u32,
        tokens: &'a [Token],
        depth: u32,
    ) -> Result<(Choice, &'a [Token]), ParseFault>
        requires { depth ≤ MAX_DEPTH }
        ensures shortens { KeepsOrShortens tokens.now result }
        ensures reads { ReadsBranches MAX_DEPTH self.now.end at depth tokens.now result }
    {
        let inner = deeper(depth, at)?;
        let (test, rest) = self.either(tokens, inner)?;
        let (_, rest) = self.expect(rest, Kind::Key(Key::Then))?;
        let (yes, rest) = self.policy(rest, inner)?;
        let (_, rest) = self.expect(rest, Kind::Key(Key::Else))?;
        let (no, rest) = self.choice(rest, inner)?;
        let yes = Box::new(self.alloc, yes)?;
        let no = Box::new(self.alloc, no)?;
        Ok((Choice::If { at, test, yes, no }, rest))
    }

    #[cycle(parser)]
    fn either<'a>(
        &self,
        tokens: &'a [Token],
        depth: u32,
    ) -> Result<(Either, &'a [Token]), ParseFault>
        requires { depth ≤ MAX_DEPTH }
        ensures shortens { Shortens tokens.now result }
        ensures reads { ReadsEither MAX_DEPTH self.now.end depth tokens.now result }
    {
        let at = self.place(tokens);
        let mut parts = Vec::new(self.alloc);
        let mut rest = tokens;
        'parts: loop {
            let (part, after) = self.both(rest, depth)?;
            parts.push(part)?;
            match next_if(after, Kind::Sign(Sign::Or)) {
                Some((_, behind)) => rest = behind,
                None => return Ok((Either { at, parts }, after)),
            }
        }
    }

    #[cycle(parser)]
    fn both<'a>(&self, tokens: &'a [Token], depth: u32) -> Result<(Both, &'a [Token]), ParseFault>
        requires { depth ≤ MAX_DEPTH }
        ensures shortens { Shortens tokens.now result }
        ensures reads { ReadsBoth MAX_DEPTH self.now.end depth tokens.now result }
    {
        let at = self.place(tokens);
        let mut parts = Vec::new(self.alloc);
        let mut rest = tokens;
        'parts: loop {
            let (part, after) = self.single(rest, depth)?;
            parts.push(part)?;
            match next_if(after, Kind::Sign(Sign::And)) {
                Some((_, behind)) => rest = behind,
                None => return Ok((Both { at, parts }, after)),
            }
        }
    }

    #[cycle(parser)]
    fn single<'a>(
        &self,
        tokens: &'a [Token],
        depth: u32,
    ) -> Result<(Single, &'a [Token]), ParseFault>
        requires { depth ≤ MAX_DEPTH }
        ensures shortens { Shortens tokens.now result }
        ensures reads { ReadsSingle MAX_DEPTH self.now.end depth tokens.now result }
    {
        if let Some((token, rest)) = next_if(tokens, Kind::Sign(Sign::Not)) {
            self.negation(token.from, rest, depth)
        } else if let Some((token, rest)) = next_if(tokens, Kind::Sign(Sign::OpenRound)) {
            let at = token.from;
            let (policy, rest) = self.enclosed(at, rest, Kind::Sign(Sign::CloseRound), depth)?;
            let body = Box::new(self.alloc, policy)?;
            Ok((Single::Group { at, body }, rest))
        } else if let Some((token, rest)) = next_if(tokens, Kind::Key(Key::Id)) {
            Ok((Single::Id { at: token.from }, rest))
        } else if let Some((token, rest)) = next_if(tokens, Kind::Key(Key::Drop)) {
            Ok((Single::Drop { at: token.from }, rest))
        } else if let Some((token, rest)) = next_if(tokens, Kind::Key(Key::Atomic)) {
            let at = token.from;
            let (open, rest) = self.expect(rest, Kind::Sign(Sign::OpenRound))?;
            let close = Kind::Sign(Sign::CloseRound);
            let (atom, rest) = self.enclosed(open.from, rest, close, depth)?;
            let body = Box::new(self.alloc, atom)?;
            Ok((Single::Atomic { at, body }, rest))
        } else {
            let (word, rest) = self.expect(tokens, Kind::Word)?;
            self.named(span(word), rest)
        }
    }

    // What stands behind the `!` at `at`.
    #[cycle(parser)]
    fn negation<'a>(
        &self,
        at: u32,
        tokens: &'a [Token],
        depth: u32,
    ) -> Result<(Single, &'a [Token]), ParseFault>
        requires { depth ≤ MAX_DEPTH }
        ensures shortens { KeepsOrShortens tokens.now result }
        ensures reads { ReadsNegation MAX_DEPTH self.now.end at depth tokens.now result }
    {
        let inner = deeper(depth, at)?;
        let (part, rest) = self.single(tokens, inner)?;
        let part = Box::new(self.alloc, part)?;
        Ok((Single::Not { at, part }, rest))
    }

    // A policy between the bracket at `at`, which was read before, and the closing one.
    #[cycle(parser)]
    pub(crate) fn enclosed<'a>(
        &self,
        at: u32,
        tokens: &'a [Token],
        close: Kind,
        depth: u32,
    ) -> Result<(Policy, &'a [Token]), ParseFault>
        requires { depth ≤ MAX_DEPTH }
        ensures shortens { KeepsOrShortens tokens.now result }
        ensures reads { ReadsEnclosed MAX_DEPTH self.now.end at close depth tokens.now result }
    {
        let inner = deeper(depth, at)?;
        let (policy, rest) = self.policy(tokens, inner)?;
        let (_, rest) = self.expect(rest, close)?;
        Ok((policy, rest))
    }

    // What begins with this name.
    fn named<'a>(
        &self,
        name: Span,
        tokens: &'a [Token],
    ) -> Result<(Single, &'a [Token]), ParseFault>
        ensures shortens { KeepsOrShortens tokens.now result }
        ensures reads { ReadsNamed MAX_DEPTH self.now.end name tokens.now result }
    {
        if let Some((_, rest)) = next_if(tokens, Kind::Sign(Sign::Equals)) {
            let (value, rest) = self.value(rest)?;
            Ok((Single::Test { name, value }, rest))
        } else if let Some((_, rest)) = next_if(tokens, Kind::Sign(Sign::Arrow)) {
            let (value, rest) = self.value(rest)?;
            Ok((Single::Set { name, value }, rest))
        } else if let Some((_, rest)) = next_if(tokens, Kind::Sign(Sign::OpenSquare)) {
            let (places, rest) = self.places(rest)?;
            self.placed(name, places, rest)
        } else {
            Ok((Single::Name(name), tokens))
        }
    }

    // What begins with this name and these places.
    fn placed<'a>(
        &self,
        name: Span,
        places: Vec<Value>,
        tokens: &'a [Token],
    ) -> Result<(Single, &'a [Token]), ParseFault>
        ensures shortens { KeepsOrShortens tokens.now result }
        ensures reads { ReadsPlaced MAX_DEPTH self.now.end name places.items tokens.now result }
    {
        if let Some((_, rest)) = next_if(tokens, Kind::Sign(Sign::Equals)) {
            let (value, rest) = self.value(rest)?;
            Ok((
                Single::ArrayTest {
                    name,
                    places,
                    value,
                },
                rest,
            ))
        } else if let Some((_, rest)) = next_if(tokens, Kind::Sign(Sign::Arrow)) {
            let (value, rest) = self.value(rest)?;
            Ok((
                Single::ArraySet {
                    name,
                    places,
                    value,
                },
                rest,
            ))
        } else if let Some((_, rest)) = next_if(tokens, Kind::Sign(Sign::PlusPlus)) {
            Ok((Single::Up { name, places }, rest))
        } else if let Some((_, rest)) = next_if(tokens, Kind::Sign(Sign::MinusMinus)) {
            Ok((Single::Down { name, places }, rest))
        } else if let Some((_, rest)) = next_if(tokens, Kind::Sign(Sign::PlusEquals)) {
            let (value, rest) = self.value(rest)?;
            Ok((
                Single::ArrayAdd {
                    name,
                    places,
                    value,
                },
                rest,
            ))
        } else if let Some((_, rest)) = next_if(tokens, Kind::Sign(Sign::MinusEquals)) {
            let (value, rest) = self.value(rest)?;
            Ok((
                Single::ArraySub {
                    name,
                    places,
                    value,
                },
                rest,
            ))
        } else {
            Ok((Single::Bare { name, places }, tokens))
        }
    }
}
