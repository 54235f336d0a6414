//! Cells found by a hash of their index.

ghost use Rattle.std.specs.Prelude.{◌≡◌, ◌<◌, ◌≤◌, ◌+◌, ◌^◌, ◌++◌, ◌&&◌, [], List, map, ℕ, OnOk, OnErr, IfOk, IsOk, None, Some, length, is_some, unwrap_or, if◌then◌else◌};
ghost use Rattle.std.specs.List.{IsDistinct};
ghost use Rattle.std.specs.Map.{keys_of};
ghost use Rattle.std.specs.Str.{bytes_eq};
ghost use Rattle.snap_core.specs.Cells.{cell, written};
ghost use Rattle.snap_core.specs.Listing.{entries_of, entry_of};

use crate::NoMemory;
use crate::place::Listed;
use crate::write::Write;
use std::alloc::Global;
use std::collections::HashMap;
use std::hash::BuildHasher;
use std::marker::Model;

// The std map finds a key in one of a power of two of groups, each with twelve lanes, and goes on to the next where
// the group is full. A group that at most twelve keys begin at is never full.
const LANES: u8 = 12;

// How many keys a group may have on average. Then one among some thousand finds its group full.
const LOAD: usize = 4;

// How many groups the std map has for each group that is counted here: it fills nine lanes of a group.
const ROOM: usize = 9;

/// Cells found by a hash of their index, and the room for more. Whoever picks the indices can make their hashes equal:
/// `is_crowded` tells of an index to be kept elsewhere, so that each look-up reads one group.
#[derive(Drop)]
pub(crate) struct Table {
    alloc: Global,
    cells: HashMap<Vec<u64>, u64>,
    // How many keys begin at each group: none, or a power of two.
    loads: Vec<u8>,
}

impl Model for Table {
    ghost use Rattle.std.specs.Prelude.{ℕ};
    ghost use Rattle.std.specs.HashMap.{spare};
    ghost use Rattle.snap_core.specs.Cells.{Cells, cells_of};

    ghost Value = { Cells × ℕ };

    ghost view = { λ a. (cells_of a.cells.entries, spare a.cells) };
}

impl Table {
    pub(crate) fn new(alloc: Global) -> Table
        ensures { result.0 ≡ [] }
    {
        Table {
            alloc,
            cells: HashMap::new(alloc),
            loads: Vec::new(alloc),
        }
    }

    /// The number in the cell at an index, if there is one.
    pub(crate) fn get(&self, index: &[u64]) -> Option<u64>
        ensures { result ≡ cell self.now.0 index.now }
    {
        self.cells.get(index).copied()
    }

    pub(crate) fn copy(&self) -> Result<Table, NoMemory>
        ensures { IfOk result (λ copy. copy.0 ≡ self.now.0) }
    {
        let cells = self.cells.clone()?;
        let loads = self.loads.clone()?;
        Ok(Table {
            alloc: self.alloc,
            cells,
            loads,
        })
    }

    /// Writes to the cell at an index, if there is one, and answers what it held.
    pub(crate) fn write(&mut self, index: &[u64], write: Write) -> Option<u64>
        ensures before { result ≡ cell self.old.0 index.now }
        ensures cells { (q : List ℕ) → cell self.new.0 q ≡ (if is_some result && bytes_eq index.now q then Some (written write (unwrap_or result 0)) else cell self.old.0 q) }
    {
        let cell = self.cells.get_mut(index)?;
        let before = *cell;
        *cell = write.number(before);
        Some(before)
    }

    /// Puts a number into the cell at an index of this group; the cell is made where there is none.
    pub(crate) fn put(&mut self, group: usize, index: Vec<u64>, value: u64) -> Result<(), NoMemory>
        ensures ok { OnOk result ((q : List ℕ) → cell self.new.0 q ≡ (if bytes_eq index.items q then Some value else cell self.old.0 q)) }
        ensures err { OnErr result (self.new.0 ≡ self.old.0) }
        ensures room { 0 < self.old.1 → IsOk result }
        ensures kept { self.old.1 ≤ self.new.1 + 1 }
    {
        let before = self.cells.insert(index, value)?;
        if before.is_none() {
            count(&mut self.loads, group);
        }
        Ok(())
    }

    /// Takes memory for more cells.
    pub(crate) fn reserve(&mut self, more: usize) -> Result<(), NoMemory>
        ensures cells { (q : List ℕ) → cell self.new.0 q ≡ cell self.old.0 q }
        ensures err { OnErr result (self.new.0 ≡ self.old.0) }
        ensures room { OnOk result (more ≤ self.new.1) }
        ensures kept { self.old.1 ≤ self.new.1 }
    {
        self.cells.reserve(more)?;
        Ok(())
    }

    /// The number of cells.
    pub(crate) fn len(&self) -> usize
        ensures length { result ≡ length self.now.0 }
        ensures small { result < 2 ^ 63 }
    {
        self.cells.len()
    }

    /// Adds the cells that don't hold 0 to a list, in no order.
    pub(crate) fn list<'a>(&'a self, var: u16, listed: &mut Vec<Listed<'a>>) -> Result<(), NoMemory>
        ensures items { OnOk result (map entry_of listed.new.items ≡ map entry_of listed.old.items ++ entries_of var self.now.0) }
        ensures distinct { IsDistinct bytes_eq (keys_of self.now.0) }
    {
        for (index, value) in &self.cells {
            if *value != 0 {
                listed.push(Listed::new(var, index, *value))?;
            }
        }
        Ok(())
    }

    /// The group that an index begins at.
    pub(crate) fn group(&self, index: &[u64]) -> usize {
        group(&self.cells, self.loads.len(), index)
    }

    /// Whether a new cell of this group belongs elsewhere, since as many keys as the group has lanes begin there.
    pub(crate) fn is_crowded(&self, group: usize) -> bool {
        match self.loads.get(group) {
            Some(load) => *load >= LANES,
            None => false,
        }
    }

    /// Makes more groups where there are few for the cells.
    pub(crate) fn spread(&mut self) -> Result<(), NoMemory>
        ensures cells { (q : List ℕ) → cell self.new.0 q ≡ cell self.old.0 q }
        ensures err { OnErr result (self.new.0 ≡ self.old.0) }
    {
        if self.cells.len() / LOAD < self.loads.len() {
            return Ok(());
        }
        let groups = self.loads.len().saturating_mul(2).max(1);
        let room = groups.saturating_mul(ROOM).saturating_sub(self.cells.len());
        let loads = counted(self.alloc, groups, &self.cells)?;
        self.cells.reserve(room)?;
        self.loads = loads;
        Ok(())
    }
}

// The group that a key begins at.
fn group(cells: &HashMap<Vec<u64>, u64>, groups: usize, index: &[u64]) -> usize {
    let hash = cells.hasher().hash_one(index);
    ((hash ^ (hash >> 32)) & 0xffff_ffff) as usize & groups.saturating_sub(1)
}

// How many keys begin at each group.
fn counted(
    alloc: Global,
    groups: usize,
    cells: &HashMap<Vec<u64>, u64>,
) -> Result<Vec<u8>, NoMemory> {
    let mut loads = Vec::with_capacity(alloc, groups)?;
    loads.resize(groups, 0)?;
    for index in cells.keys() {
        count(&mut loads, group(cells, groups, index));
    }
    Ok(loads)
}

// Counts one more key that begins at a group.
fn count(loads: &mut [u8], group: usize) {
    if let Some(load) = loads.get_mut(group) {
        *load = load.saturating_add(1);
    }
}
