//! Numbers that are found by lists of numbers.

ghost use Rattle.std.specs.Prelude.{◌≡◌, [], List, ℕ, OnOk, OnErr, Some, if◌then◌else◌};
ghost use Rattle.std.specs.Str.{bytes_eq};
ghost use Rattle.snap_core.specs.Cells.{cell};

use snap_core::NoMemory;
use std::alloc::Global;
use std::collections::HashMap;
use std::marker::Model;

/// The numbers of nodes by their codes, or by what they were made of. They are found by a hash. Whoever writes a program
/// can make hashes meet, we reason (it wasn't measured) of about as many nodes as it has tests, since the numbers of a node's
/// ways go into its code before its test.
#[derive(Drop)]
pub struct Numbers {
    numbers: HashMap<Vec<u64>, u64>,
}

impl Model for Numbers {
    ghost use Rattle.snap_core.specs.Cells.{Cells, cells_of};

    ghost Value = { Cells };

    ghost view = { λ a. cells_of a.numbers.entries };
}

impl Numbers {
    /// No numbers.
    pub fn new(alloc: Global) -> Numbers
        ensures { result ≡ [] }
    {
        Numbers {
            numbers: HashMap::new(alloc),
        }
    }

    /// The number for a list, if there is one.
    pub fn get(&self, code: &[u64]) -> Option<u64>
        ensures { result ≡ cell self.now code.now }
    {
        self.numbers.get(code).copied()
    }

    /// Puts the number for a list, and changes no other. Refuses for memory alone.
    pub fn put(&mut self, code: Vec<u64>, number: u64) -> Result<(), NoMemory>
        ensures ok { OnOk result ((q : List ℕ) → cell self.new q ≡ (if bytes_eq code.items q then Some number else cell self.old q)) }
        ensures err { OnErr result (self.new ≡ self.old) }
    {
        self.numbers.insert(code, number)?;
        Ok(())
    }
}
