//! Stores: the numbers of the state variables.

ghost use Rattle.std.specs.Prelude.{◌≡◌, ◌<◌, ◌≤◌, ◌+◌, ◌%◌, ◌^◌, ◌==◌, false, All, ℕ, OnOk, OnErr, IfOk, IsOk, IsTrue, is_some, if◌then◌else◌, map, take, drop, length, nat_lt, unwrap_or};
ghost use Rattle.std.specs.List.Sorted.{IsPermutation, IsSorted};
ghost use Rattle.snap_core.specs.declared.place.Place.{Place};
ghost use Rattle.snap_core.specs.Arrays.{update, updates, put, with_array, zero_arrays};
ghost use Rattle.snap_core.specs.Cells.{cell, array_at, arrays_of, overlaid, changed_at, room_at, written};
ghost use Rattle.snap_core.specs.CellsKept.{cell_at, HasCellsOf};
ghost use Rattle.snap_core.specs.Fits.{UpdateReads};
ghost use Rattle.snap_core.specs.Listing.{IsListing, ListsArray, entry_of, listed_cmp};

use crate::NoMemory;
use crate::array::Array;
use crate::atoms::{fill_index, index_on};
use crate::changes::Changes;
use crate::packet::Packet;
use crate::patch::Patch;
use crate::place::{Entry, Listed};
use crate::policy::Update;
use crate::write::Write;
use arrayvec::ArrayVec;
use std::alloc::Global;
use std::marker::Model;
use std::mem;

// How many updates are done in place, each in a call of its own.
const FEW: usize = 16;

/// The numbers of all places, seen by `arrays_of` as the number at each place.
#[derive(Drop)]
pub struct Store {
    alloc: Global,
    // By number, up to the greatest that was written to: at most 65,536.
    arrays: Vec<Array>,
}

impl Model for Store {
    ghost use Rattle.std.specs.Prelude.{◌≤◌, ◌^◌, length};
    ghost use Rattle.snap_core.specs.Cells.{Kept};

    ghost Value = { Kept };

    ghost view = { λ a. a.arrays.items };

    ghost invariant = { λ a. length a.arrays.items ≤ 2 ^ 16 };
}

impl Store {
    /// Empty arrays: each place holds 0. Takes no memory.
    pub fn new(alloc: Global) -> Store
        ensures { arrays_of result ≡ zero_arrays }
    {
        Store {
            alloc,
            arrays: Vec::new(alloc),
        }
    }

    /// The number at a place.
    pub fn get(&self, var: u16, index: &[u64]) -> u64
        ensures { result ≡ arrays_of self.now (record { var = var; index = index.now }) }
    {
        match self.arrays.get(var as usize) {
            Some(array) => array.get(index).unwrap_or(0),
            None => 0,
        }
    }

    /// Changes the number at one place, and no other.
    pub fn put(&mut self, var: u16, index: &[u64], value: u64) -> Result<(), NoMemory>
        ensures ok { OnOk result (arrays_of self.new ≡ put (arrays_of self.old) (record { var = var; index = index.now }) value) }
        ensures err { OnErr result (arrays_of self.new ≡ arrays_of self.old) }
    {
        self.write(var, index, Write::Number(value))?;
        Ok(())
    }

    /// A store that holds the same. Refuses for memory alone.
    pub fn copy(&self) -> Result<Store, NoMemory>
        ensures { IfOk result (λ copy. arrays_of copy ≡ arrays_of self.now) }
    {
        let mut arrays = Vec::with_capacity(self.alloc, self.arrays.len())?;
        for array in &self.arrays {
            arrays.push(array.copy()?)?;
        }
        Ok(Store {
            alloc: self.alloc,
            arrays,
        })
    }

    /// Adds to the number at one place, modulo 2^64.
    pub fn add(&mut self, var: u16, index: &[u64], value: u64) -> Result<(), NoMemory>
        ensures ok { OnOk result (let p : Place = record { var = var; index = index.now } in arrays_of self.new ≡ put (arrays_of self.old) p ((arrays_of self.old p + value) % 2 ^ 64)) }
        ensures err { OnErr result (arrays_of self.new ≡ arrays_of self.old) }
    {
        self.write(var, index, Write::More(value))?;
        Ok(())
    }

    // Writes to the cell at a place, which is made where there is none, and answers what the place held.
    fn write(&mut self, var: u16, index: &[u64], write: Write) -> Result<u64, NoMemory>
        ensures before { IfOk result (λ before. before ≡ arrays_of self.old (record { var = var; index = index.now })) }
        ensures ok { OnOk result (let p : Place = record { var = var; index = index.now } in arrays_of self.new ≡ put (arrays_of self.old) p (written write (arrays_of self.old p))) }
        ensures cell { OnOk result (IsTrue (is_some (cell_at self.new (record { var = var; index = index.now })))) }
        ensures err { OnErr result (arrays_of self.new ≡ arrays_of self.old) }
        ensures kept { HasCellsOf self.old self.new }
        ensures there { IsTrue (is_some (cell_at self.old (record { var = var; index = index.now }))) → IsOk result }
    {
        reach(self.alloc, &mut self.arrays, var)?;
        self.arrays[var as usize].write(index, write)
    }

    // Puts back the number that a place held, which has a cell.
    fn put_back(&mut self, var: u16, index: &[u64], value: u64)
        requires { IsTrue (is_some (cell_at self.old (record { var = var; index = index.now }))) }
        ensures arrays { arrays_of self.new ≡ put (arrays_of self.old) (record { var = var; index = index.now }) value }
        ensures kept { HasCellsOf self.old self.new }
    {
        let put: Result<_, _> = self.write(var, index, Write::Number(value));
        put.unwrap();
    }

    /// Does one update, or nothing.
    pub fn update(&mut self, packet: &Packet, change: &Update) -> Result<(), NoMemory>
        requires { UpdateReads (length packet.now) change.now }
        ensures ok { OnOk result (arrays_of self.new ≡ update (arrays_of self.old) change.now packet.now) }
        ensures err { OnErr result (arrays_of self.new ≡ arrays_of self.old) }
    {
        match change.index.items() {
            [atom] => {
                let index = [atom.value(packet)];
                self.write(change.var, &index, change.op.write(packet))?;
                Ok(())
            }
            _ => self.update_any(packet, change),
        }
    }

    // The same of an index of any number of atoms.
    fn update_any(&mut self, packet: &Packet, change: &Update) -> Result<(), NoMemory>
        requires { UpdateReads (length packet.now) change.now }
        ensures ok { OnOk result (arrays_of self.new ≡ update (arrays_of self.old) change.now packet.now) }
        ensures err { OnErr result (arrays_of self.new ≡ arrays_of self.old) }
    {
        let written = change.op.write(packet);
        let mut short = ArrayVec::new();
        if fill_index(&change.index, packet, &mut short) {
            self.write(change.var, short.as_slice(), written)?;
        } else {
            let long = index_on(self.alloc, &change.index, packet)?;
            self.write(change.var, &long, written)?;
        }
        Ok(())
    }

    /// Does all updates in order, or none.
    pub fn apply(&mut self, packet: &Packet, changes: &[Update]) -> Result<(), NoMemory>
        requires { All (UpdateReads (length packet.now)) changes.now }
        ensures ok { OnOk result (arrays_of self.new ≡ updates (arrays_of self.old) changes.now packet.now) }
        ensures err { OnErr result (arrays_of self.new ≡ arrays_of self.old) }
    {
        if changes.len() <= FEW {
            return self.apply_few(packet, changes);
        }
        let done = self.after_updates(packet, changes)?;
        self.apply_changes(done)
    }

    // Does updates in order, or none: where memory for a later one is refused, the first is undone. Each is done in
    // place, and the calls are as deep as the updates are many.
    fn apply_few(&mut self, packet: &Packet, changes: &[Update]) -> Result<(), NoMemory>
        requires { All (UpdateReads (length packet.now)) changes.now }
        ensures ok { OnOk result (arrays_of self.new ≡ updates (arrays_of self.old) changes.now packet.now) }
        ensures err { OnErr result (arrays_of self.new ≡ arrays_of self.old) }
        ensures kept { HasCellsOf self.old self.new }
    {
        let Some((first, rest)) = changes.split_first() else {
            return Ok(());
        };
        let numbers = index_on(self.alloc, &first.index, packet)?;
        let index = numbers.as_slice();
        let before = self.write(first.var, index, first.op.write(packet))?;
        if let Err(refused) = self.apply_few(packet, rest) {
            self.put_back(first.var, index, before);
            return Err(refused);
        }
        Ok(())
    }

    // What updates in order change.
    fn after_updates(&self, packet: &Packet, changes: &[Update]) -> Result<Changes, NoMemory>
        requires { All (UpdateReads (length packet.now)) changes.now }
        ensures { IfOk result (λ done. overlaid (arrays_of self.now) done ≡ updates (arrays_of self.now) changes.now packet.now) }
    {
        let mut done = Changes::new(self.alloc);
        for change in changes {
            done.update(self, packet, change)?;
        }
        Ok(done)
    }

    // Does all changes, or none.
    fn apply_changes(&mut self, changes: Changes) -> Result<(), NoMemory>
        ensures ok { OnOk result (arrays_of self.new ≡ overlaid (arrays_of self.old) changes) }
        ensures err { OnErr result (arrays_of self.new ≡ arrays_of self.old) }
    {
        self.make_room(&changes)?;
        for (var, patch) in changes.into_patches() {
            self.take(var, patch);
        }
        Ok(())
    }

    // Takes memory for all cells that changes have.
    fn make_room(&mut self, changes: &Changes) -> Result<(), NoMemory>
        ensures same { arrays_of self.new ≡ arrays_of self.old }
        ensures room { OnOk result ((s : ℕ) → length (changed_at changes.now s) ≤ room_at self.new s) }
    {
        let patches = changes.patches();
        for var in patches.keys() {
            if let Some(patch) = patches.get(var) {
                self.reserve(*var, patch)?;
            }
        }
        Ok(())
    }

    // Takes memory for the numbers of a patch of one variable.
    fn reserve(&mut self, var: u16, patch: &Patch) -> Result<(), NoMemory>
        ensures same { arrays_of self.new ≡ arrays_of self.old }
        ensures room { OnOk result (length patch.now ≤ room_at self.new var) }
        ensures kept { (s : ℕ) → (var == s) ≡ false → room_at self.old s ≤ room_at self.new s }
    {
        reach(self.alloc, &mut self.arrays, var)?;
        self.arrays[var as usize].reserve(patch)
    }

    // Puts the numbers of a patch, for which there is room.
    fn take(&mut self, var: u16, patch: Patch)
        requires { length patch ≤ room_at self.old var }
        ensures arrays { (p : Place) → arrays_of self.new p ≡ (if var == p.var then unwrap_or (cell patch p.index) (arrays_of self.old p) else arrays_of self.old p) }
        ensures kept { (s : ℕ) → (var == s) ≡ false → room_at self.new s ≡ room_at self.old s }
    {
        if let Some(array) = self.arrays.get_mut(var as usize) {
            array.take(patch);
        }
    }

    /// Exchanges one array with another store, whatever the two hold of it. Refuses for memory alone, which is asked for
    /// where one of them never held a number of this array or of a later one, and then leaves both as they were.
    pub fn swap_array(&mut self, var: u16, other: &mut Store) -> Result<(), NoMemory>
        ensures here { OnOk result (arrays_of self.new ≡ with_array (arrays_of self.old) (arrays_of other.old) var) }
        ensures there { OnOk result (arrays_of other.new ≡ with_array (arrays_of other.old) (arrays_of self.old) var) }
        ensures err { OnErr result ((arrays_of self.new ≡ arrays_of self.old) × (arrays_of other.new ≡ arrays_of other.old)) }
    {
        if !self.reaches(var) && !other.reaches(var) {
            return Ok(());
        }
        reach(self.alloc, &mut self.arrays, var)?;
        reach(other.alloc, &mut other.arrays, var)?;
        mem::swap(
            &mut self.arrays[var as usize],
            &mut other.arrays[var as usize],
        );
        Ok(())
    }

    // Whether there may be a number of this array.
    fn reaches(&self, var: u16) -> bool
        ensures { result ≡ nat_lt var (length self.now) }
    {
        (var as usize) < self.arrays.len()
    }

    /// The places that don't hold 0, rising by variable and then by index, with their numbers.
    pub fn entries(&self) -> Result<Vec<Entry>, NoMemory>
        ensures { IfOk result (λ entries. IsListing (arrays_of self.now) entries.items) }
    {
        let listed = self.listing()?;
        let mut entries = Vec::with_capacity(self.alloc, listed.len())?;
        for each in &listed {
            entries.push(each.entry(self.alloc)?)?;
        }
        Ok(entries)
    }

    /// The same without copies of the indices.
    pub fn listing(&self) -> Result<Vec<Listed<'_>>, NoMemory>
        ensures { IfOk result (λ listed. IsListing (arrays_of self.now) (map entry_of listed.items)) }
    {
        let mut listed = Vec::with_capacity(self.alloc, self.cells())?;
        for var in 0..self.arrays.len() {
            self.list_array(var as u16, &mut listed)?;
        }
        Ok(listed)
    }

    /// Lists the places of one array that don't hold 0 behind what is listed, rising by index. A refusal for memory may
    /// leave some of them there.
    pub fn list_array<'a>(&'a self, var: u16, listed: &mut Vec<Listed<'a>>) -> Result<(), NoMemory>
        ensures { OnOk result (ListsArray var (arrays_of self.now) (map entry_of listed.old.items) (map entry_of listed.new.items)) }
    {
        if !self.reaches(var) {
            return Ok(());
        }
        let before = listed.len();
        self.arrays[var as usize].list(var, listed)?;
        sort_from(listed, before);
        Ok(())
    }

    /// The number of cells, as room for a listing: each place that doesn't hold 0 has one.
    pub fn cells(&self) -> usize {
        let lengths = self.arrays.iter().map(|array| array.len());
        lengths.fold(0, |sum: usize, length| sum.saturating_add(length))
    }
}

// Makes arrays without cells up to the one of this number.
fn reach(alloc: Global, arrays: &mut Vec<Array>, var: u16) -> Result<(), NoMemory>
    ensures within { OnOk result (var < length arrays.new.items) }
    ensures there { var < length arrays.old.items → IsOk result }
    ensures most { length arrays.old.items ≤ 2 ^ 16 → length arrays.new.items ≤ 2 ^ 16 }
    ensures cells { (s : ℕ) → (array_at arrays.new.items s).0 ≡ (array_at arrays.old.items s).0 }
    ensures room { (s : ℕ) → room_at arrays.old.items s ≤ room_at arrays.new.items s }
{
    while arrays.len() <= var as usize {
        arrays.push(Array::new(alloc))?;
    }
    Ok(())
}

// Puts the listed places from one on in order.
fn sort_from(listed: &mut Vec<Listed<'_>>, from: usize)
    requires { from ≤ length listed.old.items }
    ensures before { take from listed.new.items ≡ take from listed.old.items }
    ensures same { IsPermutation (drop from listed.old.items) (drop from listed.new.items) }
    ensures sorted { IsSorted listed_cmp (drop from listed.new.items) }
{
    sort(&mut listed[from..]);
}

// Puts listed places in order.
fn sort(listed: &mut [Listed<'_>])
    ensures same { IsPermutation listed.old listed.new }
    ensures sorted { IsSorted listed_cmp listed.new }
{
    listed.sort_unstable_by(|left, right| left.compare(right));
}
