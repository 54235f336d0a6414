//! A packet while the words of its line are read.

use crate::ahead::split_front;
use crate::guess::Guess;
use crate::words::{behind_blanks, plain_value, until_blank};
use snap_core::NoMemory;
use snap_core::packet::Packet;
use snap_core::program::{Fields, Found};
use std::alloc::Global;

/// A packet as far as it is read, and the set of components that were named, a bit each. Lines are read into it one after
/// another.
#[derive(Drop)]
pub struct PacketDraft {
    pub(crate) packet: Packet,
    named: u64,
}

impl PacketDraft {
    ghost use Rattle.std.specs.Prelude.{◌≡◌, ◌<◌, ◌≤◌, length, IfOk, IfSome, MatchOption, Some, None};
    ghost use Rattle.snap_core.specs.Fields.{FoundFits, count};
    ghost use Rattle.snap_report.specs.Drafts.{IsNotSet, IsSet, draft_of, with_text};
    ghost use Rattle.snap_report.specs.Guesses.{StandsAt};
    ghost use Rattle.snap_report.specs.PacketLines.{BeginsWord, draft_at_first, with_number};

    /// Room for the packets of lines, whose components these fields are. Refuses for memory alone.
    pub fn new(alloc: Global, fields: &Fields) -> Result<PacketDraft, NoMemory>
        ensures { IfOk result (λ draft. length draft.packet ≡ count fields.now) }
    {
        let comps = vec![in alloc; 0u64; fields.count() as usize]?;
        Ok(PacketDraft {
            packet: Packet::new(comps),
            named: 1,
        })
    }

    /// The packet of the line that was read last, if that was one. Takes no memory.
    pub fn packet(&self) -> &Packet
        ensures { result.now ≡ self.now.packet }
    {
        &self.packet
    }

    /// Before a word has named anything. `inport` counts as named.
    pub(crate) fn reset(&mut self, fields: &Fields)
        requires { length self.old.packet ≡ count fields.now }
        ensures draft { draft_of self.new ≡ draft_at_first fields.now }
        ensures comps { (length self.new.packet ≡ count fields.now) × (2 ≤ length self.new.packet) × (length self.new.packet ≤ 64) }
    {
        let _bounds = fields.count();
        self.packet.reset();
        self.named = 1;
    }

    /// Names the components that the words of a text set.
    #[inline(never)]
    pub(crate) fn set_words(&mut self, fields: &Fields, text: &[u8]) -> Option<()>
        requires comps { length self.old.packet ≡ count fields.now }
        requires few { length self.old.packet ≤ 64 }
        ensures same { length self.new.packet ≡ length self.old.packet }
        ensures set { MatchOption result
            (with_text fields.now text.now self.old ≡ None)
            (λ _. with_text fields.now text.now self.old ≡ Some (draft_of self.new)) }
    {
        let mut rest = text;
        let mut guess = Guess::first(fields);
        while let Some(front) = behind_blanks(rest) {
            rest = self.set_word(fields, &mut guess, front)?;
        }
        Some(())
    }

    // Names what the word at the front of a text sets, and returns the text behind the word.
    fn set_word<'a>(
        &mut self,
        fields: &Fields,
        guess: &mut Guess,
        text: &'a [u8],
    ) -> Option<&'a [u8]>
        requires begins { BeginsWord text.now }
        requires stands { StandsAt fields.now guess.old }
        requires comps { length self.old.packet ≡ count fields.now }
        requires few { length self.old.packet ≤ 64 }
        ensures same { length self.new.packet ≡ length self.old.packet }
        ensures set { MatchOption result
            (with_text fields.now text.now self.old ≡ None)
            (λ behind. with_text fields.now text.now self.old ≡ with_text fields.now behind.now self.new) }
        ensures stands { StandsAt fields.now guess.new }
        ensures shorter { IfSome result (λ behind. length behind.now < length text.now) }
    {
        match guess.find(fields, text) {
            // A value with another `=` in it is no number and no address, and is refused as such.
            Some((found, value)) => self.set_value(found, value),
            None => None,
        }
    }

    // Sets what a name stands for to the value at the front of a text, and returns the text behind the value.
    fn set_value<'a>(&mut self, found: Found, text: &'a [u8]) -> Option<&'a [u8]>
        requires fits { FoundFits (length self.old.packet) (Some found) }
        requires few { length self.old.packet ≤ 64 }
        ensures same { length self.new.packet ≡ length self.old.packet }
        ensures set { MatchOption result
            (IsNotSet found text.now (draft_of self.old))
            (λ behind. IsSet found text.now behind.now (draft_of self.old) (draft_of self.new)) }
        ensures shorter { IfSome result (λ behind. length behind.now ≤ length text.now) }
    {
        match found {
            Found::Plain(comp) => {
                let (value, behind) = until_blank(text);
                let number = plain_value(value)?;
                self.set_number(comp, number)?;
                Some(behind)
            }
            Found::Split { net, host, prefix } => {
                let (numbers, behind) = split_front(prefix, text);
                let (of_net, of_host) = numbers?;
                self.set_number(net, of_net)?;
                self.set_number(host, of_host)?;
                Some(behind)
            }
        }
    }

    // Sets one component, which was not named before.
    fn set_number(&mut self, comp: u16, number: u64) -> Option<()>
        requires within { comp < length self.old.packet }
        requires few { length self.old.packet ≤ 64 }
        ensures same { length self.new.packet ≡ length self.old.packet }
        ensures set { MatchOption result
            (with_number comp number (draft_of self.old) ≡ None)
            (λ _. with_number comp number (draft_of self.old) ≡ Some (draft_of self.new)) }
    {
        if (self.named >> comp) & 1 == 1 {
            return None;
        }
        self.named |= 1 << comp;
        self.packet.set(comp, number);
        Some(())
    }
}
