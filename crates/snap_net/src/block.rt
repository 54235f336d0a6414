//! Copies that stand next to each other in the list of all.

ghost use Rattle.std.specs.Prelude.{◌≡◌, ◌<◌, ◌+◌, [], ◌∷◌, ◌++◌, Some, IfOk, OnOk, OnErr, length, slice_get};
ghost use Rattle.snap_net.specs.declared.flying.Flying.{Flying};
ghost use Rattle.snap_net.specs.Flights.{spliced, SendsCopy};

use crate::flying::Flying;
use snap_core::NoMemory;
use snap_rows::head::Head;
use std::alloc::Global;
use std::marker::Model;

/// Copies that stand next to each other in the list of all.
#[derive(Drop)]
pub(crate) struct Block {
    copies: Vec<Flying>,
}

impl Model for Block {
    ghost use Rattle.std.specs.Prelude.{List};
    ghost use Rattle.snap_net.specs.declared.flying.Flying.{Flying};

    ghost Value = { List Flying };

    ghost view = { λ a. a.copies.items };
}

impl Block {
    pub(crate) fn new(alloc: Global) -> Block
        ensures { result ≡ [] }
    {
        Block {
            copies: Vec::new(alloc),
        }
    }

    pub(crate) fn count(&self) -> usize
        ensures { result ≡ length self.now }
    {
        self.copies.len()
    }

    pub(crate) fn get(&self, place: usize) -> &Flying
        requires { place < length self.now }
        ensures { slice_get self.now place ≡ Some result.now }
    {
        &self.copies[place]
    }

    /// Puts a copy at the end.
    #[inline(always)]
    pub(crate) fn push(&mut self, copy: Flying) -> Result<(), NoMemory>
        ensures ok { OnOk result (self.new ≡ self.old ++ copy ∷ []) }
        ensures err { OnErr result (self.new ≡ self.old) }
    {
        self.copies.push(copy)?;
        Ok(())
    }

    /// Puts a copy behind another.
    pub(crate) fn insert_behind(&mut self, place: usize, copy: Flying) -> Result<(), NoMemory>
        requires { place < length self.old }
        ensures ok { OnOk result (self.new ≡ spliced self.old (place + 1) 0 (copy ∷ [])) }
        ensures err { OnErr result (self.new ≡ self.old) }
    {
        self.copies.insert(place + 1, copy)?;
        Ok(())
    }

    /// Sends a copy to a switch, with a head.
    pub(crate) fn send(&mut self, place: usize, to: u16, head: Head)
        requires { place < length self.old }
        ensures { SendsCopy self.old place to head self.new }
    {
        let copy = &mut self.copies[place];
        copy.at = to;
        copy.head = head;
    }

    /// Takes a copy out.
    #[inline(always)]
    pub(crate) fn remove(&mut self, place: usize) -> Flying
        requires { place < length self.old }
        ensures copy { slice_get self.old place ≡ Some result }
        ensures left { self.new ≡ spliced self.old place 1 [] }
    {
        self.copies.remove(place)
    }

    /// Hands out the second half.
    pub(crate) fn split(&mut self) -> Result<Block, NoMemory>
        ensures ok { IfOk result (λ half. self.new ++ half ≡ self.old) }
        ensures err { OnErr result (self.new ≡ self.old) }
    {
        let copies = self.copies.split_off(self.copies.len() / 2)?;
        Ok(Block { copies })
    }

    /// Hands out the copies. Takes no memory.
    pub(crate) fn into_copies(self) -> Vec<Flying>
        ensures { result.items ≡ self }
    {
        let Block { copies } = self;
        copies
    }
}
