//! Changes of one array.

ghost use Rattle.std.specs.Prelude.{◌≡◌, ◌<◌, ◌^◌, ◌&&◌, [], List, ℕ, OnOk, OnErr, IfOk, Some, length, is_some, unwrap_or, if◌then◌else◌};
ghost use Rattle.std.specs.Str.{bytes_eq};
ghost use Rattle.snap_core.specs.Cells.{cell, cells_of, written};

use crate::NoMemory;
use crate::write::Write;
use std::alloc::Global;
use std::collections::BTreeMap;
use std::marker::Model;

/// The changed cells of one array, each a number with its index.
#[derive(Drop)]
pub(crate) struct Patch {
    cells: BTreeMap<Vec<u64>, u64>,
}

impl Model for Patch {
    ghost use Rattle.snap_core.specs.Cells.{Cells, cells_of};

    ghost Value = { Cells };

    ghost view = { λ a. cells_of a.cells.entries };
}

impl Patch {
    pub(crate) fn new(alloc: Global) -> Patch
        ensures { result ≡ [] }
    {
        Patch {
            cells: BTreeMap::new(alloc),
        }
    }

    /// The number in the cell at an index, if there is one.
    pub(crate) fn get(&self, index: &[u64]) -> Option<u64>
        ensures { result ≡ cell self.now index.now }
    {
        self.cells.get(index).copied()
    }

    /// Puts a number into the cell at an index, which is made where there is none.
    pub(crate) fn put(&mut self, index: Vec<u64>, value: u64) -> Result<(), NoMemory>
        ensures ok { OnOk result ((q : List ℕ) → cell self.new q ≡ (if bytes_eq index.items q then Some value else cell self.old q)) }
        ensures err { OnErr result (self.new ≡ self.old) }
    {
        self.cells.insert(index, value)?;
        Ok(())
    }

    /// Writes to the cell at an index, if there is one, and answers what it held.
    pub(crate) fn write(&mut self, index: &[u64], write: Write) -> Option<u64>
        ensures before { result ≡ cell self.old index.now }
        ensures cells { (q : List ℕ) → cell self.new q ≡ (if is_some result && bytes_eq index.now q then Some (written write (unwrap_or result 0)) else cell self.old q) }
    {
        let cell = self.cells.get_mut(index)?;
        let before = *cell;
        *cell = write.number(before);
        Some(before)
    }

    pub(crate) fn copy(&self) -> Result<Patch, NoMemory>
        ensures { IfOk result (λ copy. copy ≡ self.now) }
    {
        let cells = self.cells.clone()?;
        Ok(Patch { cells })
    }

    /// The number of cells.
    pub(crate) fn len(&self) -> usize
        ensures length { result ≡ length self.now }
        ensures small { result < 2 ^ 63 }
    {
        self.cells.len()
    }

    pub(crate) fn cells(&self) -> &BTreeMap<Vec<u64>, u64>
        ensures { cells_of result.now.entries ≡ self.now }
    {
        &self.cells
    }

    pub(crate) fn into_cells(self) -> BTreeMap<Vec<u64>, u64>
        ensures { cells_of result.entries ≡ self }
    {
        self.cells
    }
}
