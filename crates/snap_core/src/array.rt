//! One array of a store.

ghost use Rattle.std.specs.Prelude.{◌≡◌, ◌<◌, ◌≤◌, ◌+◌, ◌++◌, ◌&&◌, [], List, map, ℕ, OnOk, OnErr, IfOk, IsOk, IsTrue, None, Some, is_some, length, unwrap_or, if◌then◌else◌};
ghost use Rattle.std.specs.List.{IsDistinct};
ghost use Rattle.std.specs.Map.{keys_of};
ghost use Rattle.std.specs.Str.{bytes_eq};
ghost use Rattle.snap_core.specs.Cells.{cell, either, without, written};
ghost use Rattle.snap_core.specs.Listing.{entries_of, entry_of};

use crate::NoMemory;
use crate::patch::Patch;
use crate::place::Listed;
use crate::table::Table;
use crate::write::Write;
use std::alloc::Global;
use std::marker::Model;

/// The cells of one array, each a number with its index, and the room for more. They are found by a hash, but those
/// whose group is crowded stand in order: whatever the indices are, a look-up reads one group and goes down one tree.
#[derive(Drop)]
pub(crate) struct Array {
    alloc: Global,
    table: Table,
    crowded: Patch,
}

impl Model for Array {
    ghost use Rattle.std.specs.Prelude.{ℕ};
    ghost use Rattle.snap_core.specs.Cells.{Cells, beside};

    ghost Value = { Cells × ℕ };

    ghost view = { λ a. (beside a.table.0 a.crowded, a.table.1) };
}

impl Array {
    pub(crate) fn new(alloc: Global) -> Array
        ensures { result.0 ≡ [] }
    {
        Array {
            alloc,
            table: Table::new(alloc),
            crowded: Patch::new(alloc),
        }
    }

    /// The number in the cell at an index, if there is one.
    #[inline(always)]
    pub(crate) fn get(&self, index: &[u64]) -> Option<u64>
        ensures { result ≡ cell self.now.0 index.now }
    {
        match self.table.get(index) {
            Some(number) => Some(number),
            None => self.crowded.get(index),
        }
    }

    pub(crate) fn copy(&self) -> Result<Array, NoMemory>
        ensures { IfOk result (λ copy. copy.0 ≡ self.now.0) }
    {
        let table = self.table.copy()?;
        let crowded = self.crowded.copy()?;
        Ok(Array {
            alloc: self.alloc,
            table,
            crowded,
        })
    }

    /// Writes to the cell at an index, and answers what it held; a cell that is made held 0.
    pub(crate) fn write(&mut self, index: &[u64], write: Write) -> Result<u64, NoMemory>
        ensures before { IfOk result (λ before. before ≡ unwrap_or (cell self.old.0 index.now) 0) }
        ensures ok { OnOk result ((q : List ℕ) → cell self.new.0 q ≡ (if bytes_eq index.now q then Some (written write (unwrap_or (cell self.old.0 index.now) 0)) else cell self.old.0 q)) }
        ensures err { OnErr result ((q : List ℕ) → cell self.new.0 q ≡ cell self.old.0 q) }
        ensures there { IsTrue (is_some (cell self.old.0 index.now)) → IsOk result }
    {
        if let Some(before) = self.table.write(index, write) {
            return Ok(before);
        }
        if let Some(before) = self.crowded.write(index, write) {
            return Ok(before);
        }
        self.make(index, write.number(0))?;
        Ok(0)
    }

    // Makes a cell at an index that has none.
    fn make(&mut self, index: &[u64], value: u64) -> Result<(), NoMemory>
        requires { cell self.old.0 index.now ≡ None }
        ensures ok { OnOk result ((q : List ℕ) → cell self.new.0 q ≡ (if bytes_eq index.now q then Some value else cell self.old.0 q)) }
        ensures err { OnErr result ((q : List ℕ) → cell self.new.0 q ≡ cell self.old.0 q) }
    {
        let key = Vec::from_slice(self.alloc, index)?;
        self.table.spread()?;
        let group = self.table.group(index);
        if self.table.is_crowded(group) {
            self.crowded.put(key, value)
        } else {
            self.table.put(group, key, value)
        }
    }

    /// Makes a cell for each number of a patch, and takes memory for as many more. No number changes.
    pub(crate) fn reserve(&mut self, patch: &Patch) -> Result<(), NoMemory>
        ensures numbers { (q : List ℕ) → unwrap_or (cell self.new.0 q) 0 ≡ unwrap_or (cell self.old.0 q) 0 }
        ensures room { OnOk result (length patch.now ≤ self.new.1) }
    {
        for index in patch.cells().keys() {
            let number = self.get(index).unwrap_or(0);
            self.write(index, Write::Number(number))?;
        }
        self.table.reserve(patch.len())
    }

    /// Puts the numbers of a patch, for which there is room.
    pub(crate) fn take(&mut self, patch: Patch)
        requires { length patch ≤ self.old.1 }
        ensures { (q : List ℕ) → cell self.new.0 q ≡ either (cell patch q) (cell self.old.0 q) }
    {
        for (index, value) in patch.into_cells() {
            self.place(index, value);
        }
    }

    // Puts a number into the cell at an index; where there is none, there is room for it.
    fn place(&mut self, index: Vec<u64>, value: u64)
        requires { 0 < self.old.1 }
        ensures cells { (q : List ℕ) → cell self.new.0 q ≡ (if bytes_eq index.items q then Some value else cell self.old.0 q) }
        ensures room { self.old.1 ≤ self.new.1 + 1 }
    {
        if self.write_crowded(&index, value) {
            return;
        }
        let group = self.table.group(&index);
        let put: Result<_, _> = self.table.put(group, index, value);
        put.unwrap();
    }

    // Puts a number into the cell at an index, if there is one that stands in order, and says whether there is.
    fn write_crowded(&mut self, index: &[u64], value: u64) -> bool
        ensures cells { (q : List ℕ) → cell self.new.0 q ≡ (if result && bytes_eq index.now q then Some value else cell self.old.0 q) }
        ensures room { self.new.1 ≡ self.old.1 }
    {
        match self.table.get(index) {
            Some(_) => false,
            None => self.crowded.write(index, Write::Number(value)).is_some(),
        }
    }

    /// The number of cells, or more.
    pub(crate) fn len(&self) -> usize
        ensures { length self.now.0 ≤ result }
    {
        self.table.len() + self.crowded.len()
    }

    /// Adds the cells that don't hold 0 to a list, in no order.
    pub(crate) fn list<'a>(&'a self, var: u16, listed: &mut Vec<Listed<'a>>) -> Result<(), NoMemory>
        ensures items { OnOk result (map entry_of listed.new.items ≡ map entry_of listed.old.items ++ entries_of var self.now.0) }
        ensures distinct { OnOk result (IsDistinct bytes_eq (keys_of self.now.0)) }
    {
        self.table.list(var, listed)?;
        list_beside(&self.table, &self.crowded, var, listed)
    }
}

// Adds the cells that stand in order and don't hold 0.
fn list_beside<'a>(
    table: &Table,
    crowded: &'a Patch,
    var: u16,
    listed: &mut Vec<Listed<'a>>,
) -> Result<(), NoMemory>
    ensures items { OnOk result (map entry_of listed.new.items ≡ map entry_of listed.old.items ++ entries_of var (without table.now.0 crowded.now)) }
    ensures distinct { IsDistinct bytes_eq (keys_of crowded.now) }
{
    for (index, value) in crowded.cells() {
        if table.get(index).is_none() {
            if *value != 0 {
                listed.push(Listed::new(var, index, *value))?;
            }
        }
    }
    Ok(())
}
