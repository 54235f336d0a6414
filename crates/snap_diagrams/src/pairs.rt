//! Numbers that are found by two numbers.

ghost use Rattle.std.specs.Prelude.{◌≡◌, [], ◌∷◌, List, ℕ, OnOk, OnErr, Some, reverse, if◌then◌else◌};
ghost use Rattle.std.specs.Str.{bytes_eq};
ghost use Rattle.snap_core.specs.Cells.{cell};
ghost use Rattle.snap_diagrams.specs.Memos.{paired};

use arrayvec::ArrayVec;
use snap_core::NoMemory;
use std::alloc::Global;
use std::collections::HashMap;
use std::marker::Model;

/// Numbers of nodes by two others each: what a call remembers. A look-up takes no memory. Most calls remember few, so the
/// first four stand in the value; of what stands for the same two there, the last counts.
#[derive(Drop)]
pub struct Pairs {
    first: ArrayVec<((u64, u64), u64), 4>,
    numbers: HashMap<(u64, u64), u64>,
}

impl Model for Pairs {
    ghost use Rattle.std.specs.Prelude.{reverse};
    ghost use Rattle.snap_core.specs.Cells.{Cells, beside};
    ghost use Rattle.snap_diagrams.specs.Memos.{paired};

    ghost Value = { Cells };

    ghost view = { λ a. beside (paired a.numbers.entries) (paired (reverse a.first.items)) };
}

impl Pairs {
    /// No numbers.
    pub fn new(alloc: Global) -> Pairs
        ensures { result ≡ [] }
    {
        Pairs {
            first: ArrayVec::new(),
            numbers: HashMap::new(alloc),
        }
    }

    /// The number for two, if there is one.
    pub fn get(&self, a: u64, b: u64) -> Option<u64>
        ensures { result ≡ cell self.now (a ∷ b ∷ []) }
    {
        match self.numbers.get(&(a, b)) {
            Some(number) => Some(*number),
            None => newest(&self.first, a, b),
        }
    }

    /// Puts the number for two, and changes no other. Refuses for memory alone.
    pub fn put(&mut self, a: u64, b: u64, number: u64) -> Result<(), NoMemory>
        ensures ok { OnOk result ((q : List ℕ) → cell self.new q ≡ (if bytes_eq (a ∷ b ∷ []) q then Some number else cell self.old q)) }
        ensures err { OnErr result (self.new ≡ self.old) }
    {
        if self.numbers.is_empty() && !self.first.is_full() {
            self.first.push(((a, b), number));
        } else {
            self.numbers.insert((a, b), number)?;
        }
        Ok(())
    }
}

// The last number for two of those in a list.
fn newest(pairs: &[((u64, u64), u64)], a: u64, b: u64) -> Option<u64>
    ensures { result ≡ cell (paired (reverse pairs.now)) (a ∷ b ∷ []) }
{
    let mut found = None;
    for pair in pairs {
        if a == pair.0.0 && b == pair.0.1 {
            found = Some(pair.1);
        }
    }
    found
}
