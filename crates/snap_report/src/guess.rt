//! A guess which field a word names: most lines name fields in the order of their declaration.

ghost use Rattle.std.specs.Prelude.{◌≡◌, ◌+◌, ◌<◌, ◌^◌, length, Some, IfSome, MatchOption};
ghost use Rattle.snap_core.specs.Fields.{FoundFits, count};
ghost use Rattle.snap_report.specs.Cuts.{IsNameFront};
ghost use Rattle.snap_report.specs.Guesses.{Sets, SetsNothing, StandsAt, whole_of};
ghost use Rattle.snap_report.specs.PacketLines.{BeginsWord};

use crate::words::{is_mark, split_name};
use snap_core::program::{Field, Fields, Found};

/// A place in the list of fields, and the first component of the field that stands there.
#[derive(Clone, Copy)]
pub(crate) struct Guess {
    place: usize,
    comp: u16,
}

// The text behind a name and `=` at the front of a text. Each byte is looked at once.
fn behind_name<'a>(text: &'a [u8], name: &[u8]) -> Option<&'a [u8]>
    ensures front { IfSome result (λ rest. IsNameFront text.now name.now rest.now) }
    ensures shorter { IfSome result (λ rest. length rest.now < length text.now) }
{
    let end = name.len();
    if text.len() <= end {
        return None;
    }
    for at in 0..end {
        if text[at] != name[at] || is_mark(text[at]) {
            return None;
        }
    }
    if text[end] == b'=' {
        Some(&text[end + 1..])
    } else {
        None
    }
}

// What the name of a field stands for, whose components begin at `comp`.
fn whole(field: &Field, comp: u16) -> Found
    requires { comp + 1 < 2 ^ 16 }
    ensures { result ≡ whole_of comp field.now.prefix }
{
    match field.prefix {
        None => Found::Plain(comp),
        Some(prefix) => Found::Split {
            net: comp,
            host: comp + 1,
            prefix,
        },
    }
}

impl Guess {
    /// The first field behind the ports, which lines don't name.
    pub(crate) fn first(fields: &Fields) -> Guess
        ensures { StandsAt fields.now result }
    {
        let ports = &fields.list()[..2];
        Guess {
            place: ports.len(),
            comp: 2,
        }
    }

    /// What the name stands for that the word at the front of a text begins with, and the text behind the name and `=`.
    /// Where a field at the guess or behind it has the name, the guess stands behind that field from then on.
    pub(crate) fn find<'a>(&mut self, fields: &Fields, text: &'a [u8]) -> Option<(Found, &'a [u8])>
        requires stands { StandsAt fields.now self.old }
        requires begins { BeginsWord text.now }
        ensures stands { StandsAt fields.now self.new }
        ensures found { MatchOption result (SetsNothing fields.now text.now) (λ pair. Sets fields.now text.now pair.0 pair.1.now) }
        ensures fits { IfSome result (λ pair. FoundFits (count fields.now) (Some pair.0)) }
        ensures shorter { IfSome result (λ pair. length pair.1.now < length text.now) }
    {
        match self.find_ahead(fields, text) {
            Some(found) => Some(found),
            None => find_anywhere(fields, text),
        }
    }

    // The same, if a field at the guess or behind it has the name.
    fn find_ahead<'a>(&mut self, fields: &Fields, text: &'a [u8]) -> Option<(Found, &'a [u8])>
        requires { StandsAt fields.now self.old }
        ensures stands { StandsAt fields.now self.new }
        ensures found { IfSome result (λ pair. Sets fields.now text.now pair.0 pair.1.now) }
        ensures fits { IfSome result (λ pair. FoundFits (count fields.now) (Some pair.0)) }
        ensures shorter { IfSome result (λ pair. length pair.1.now < length text.now) }
    {
        let list = fields.list();
        let mut place = self.place;
        let mut comp = self.comp;
        while place < list.len() {
            let field = &list[place];
            let begin = comp;
            place += 1;
            comp += field.width();
            if let Some(rest) = behind_name(text, field.name.items()) {
                *self = Guess { place, comp };
                return Some((whole(field, begin), rest));
            }
        }
        None
    }
}

// The same, of a field or a component wherever it is declared.
fn find_anywhere<'a>(fields: &Fields, text: &'a [u8]) -> Option<(Found, &'a [u8])>
    requires { BeginsWord text.now }
    ensures found { MatchOption result (SetsNothing fields.now text.now) (λ pair. Sets fields.now text.now pair.0 pair.1.now) }
    ensures fits { IfSome result (λ pair. FoundFits (count fields.now) (Some pair.0)) }
    ensures shorter { IfSome result (λ pair. length pair.1.now < length text.now) }
{
    let (name, rest) = split_name(text)?;
    let found = fields.find(name)?;
    Some((found, rest))
}
