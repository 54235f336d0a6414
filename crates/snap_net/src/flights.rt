//! The list of copies in flight, in blocks: its edits cost about the square root of its length.

ghost use Rattle.std.specs.Prelude.{◌≡◌, ◌<◌, ◌≤◌, ◌+◌, [], ◌∷◌, ◌++◌, Some, IfOk, OnOk, OnErr, length, slice_get};
ghost use Rattle.snap_net.specs.declared.flying.Flying.{Flying};
ghost use Rattle.snap_net.specs.Flights.{SendsCopy, joined, spliced};
ghost use Rattle.snap_net.specs.Spots.{IsSpot, number_at};

use crate::block::Block;
use crate::flying::Flying;
use snap_core::NoMemory;
use snap_rows::head::Head;
use std::alloc::Global;
use std::collections::VecDeque;
use std::marker::Model;

// A block with so many copies is split before one is put behind another.
const MOST: usize = 1024;

/// Copies in flight, seen as a list.
#[derive(Drop)]
pub(crate) struct Flights {
    alloc: Global,
    count: usize,
    blocks: Vec<Block>,
}

impl Model for Flights {
    ghost use Rattle.std.specs.Prelude.{◌≡◌, List, length};
    ghost use Rattle.snap_net.specs.declared.flying.Flying.{Flying};

    ghost Value = { List Flying };

    ghost use Rattle.snap_net.specs.Flights.{joined};

    ghost view = { λ a. joined a.blocks.items };

    ghost invariant = { λ a. a.count ≡ length (joined a.blocks.items) };
}

// A place in a block.
#[derive(Clone, Copy)]
struct Slot {
    block: usize,
    place: usize,
}

// Where a copy of the list is, looked for from the nearer end.
#[inline(always)]
fn spot_of(blocks: &[Block], count: usize, k: usize) -> Slot
    requires count { count ≡ length (joined blocks.now) }
    requires k { k < count }
    ensures { IsSpot blocks.now k result }
{
    if k <= count / 2 {
        spot_from_front(blocks, k)
    } else {
        spot_from_back(blocks, count, k)
    }
}

fn spot_from_front(blocks: &[Block], k: usize) -> Slot
    requires { k < length (joined blocks.now) }
    ensures { IsSpot blocks.now k result }
{
    let mut place = k;
    for i in 0..blocks.len() {
        let count = blocks[i].count();
        if place < count {
            return Slot { block: i, place };
        }
        place -= count;
    }
    unreachable!()
}

#[inline(never)]
fn spot_from_back(blocks: &[Block], count: usize, k: usize) -> Slot
    requires count { count ≡ length (joined blocks.now) }
    requires k { k < count }
    ensures { IsSpot blocks.now k result }
{
    let mut before = count;
    for i in (0..blocks.len()).rev() {
        before -= blocks[i].count();
        if before <= k {
            return Slot {
                block: i,
                place: k - before,
            };
        }
    }
    unreachable!()
}

// The copy at a spot.
fn copy_at(blocks: &[Block], spot: Slot) -> &Flying
    requires { IsSpot blocks.now (number_at blocks.now spot) spot }
    ensures { slice_get (joined blocks.now) (number_at blocks.now spot) ≡ Some result.now }
{
    blocks[spot.block].get(spot.place)
}

// Moves the second half of a block into a block behind it.
fn split(blocks: &mut Vec<Block>, i: usize) -> Result<(), NoMemory>
    requires { i < length blocks.old.items }
    ensures { joined blocks.new.items ≡ joined blocks.old.items }
{
    blocks.reserve(1)?;
    let half = blocks[i].split()?;
    blocks.insert(i + 1, half).unwrap();
    Ok(())
}

// Where a copy of the list is, in a block that has room for another.
fn roomy_spot(blocks: &mut Vec<Block>, count: usize, k: usize) -> Result<Slot, NoMemory>
    requires count { count ≡ length (joined blocks.old.items) }
    requires k { k < count }
    ensures same { joined blocks.new.items ≡ joined blocks.old.items }
    ensures spot { IfOk result (IsSpot blocks.new.items k) }
{
    let spot = spot_of(blocks, count, k);
    if blocks[spot.block].count() < MOST {
        return Ok(spot);
    }
    split(blocks, spot.block)?;
    Ok(spot_of(blocks, count, k))
}

// Puts a copy behind the one at a spot.
fn insert_at(blocks: &mut Vec<Block>, spot: Slot, copy: Flying) -> Result<(), NoMemory>
    requires { IsSpot blocks.old.items (number_at blocks.old.items spot) spot }
    ensures ok { OnOk result (joined blocks.new.items ≡ spliced (joined blocks.old.items) (number_at blocks.old.items spot + 1) 0 (copy ∷ [])) }
    ensures err { OnErr result (joined blocks.new.items ≡ joined blocks.old.items) }
{
    blocks[spot.block].insert_behind(spot.place, copy)
}

// Sends the copy at a spot to a switch.
fn send_at(blocks: &mut Vec<Block>, spot: Slot, to: u16, head: Head)
    requires { IsSpot blocks.old.items (number_at blocks.old.items spot) spot }
    ensures { SendsCopy (joined blocks.old.items) (number_at blocks.old.items spot) to head (joined blocks.new.items) }
{
    blocks[spot.block].send(spot.place, to, head);
}

// Takes out the copy at a spot.
#[inline(always)]
fn remove_at(blocks: &mut Vec<Block>, spot: Slot) -> Flying
    requires { IsSpot blocks.old.items (number_at blocks.old.items spot) spot }
    ensures copy { slice_get (joined blocks.old.items) (number_at blocks.old.items spot) ≡ Some result }
    ensures left { joined blocks.new.items ≡ spliced (joined blocks.old.items) (number_at blocks.old.items spot) 1 [] }
{
    let gone = blocks[spot.block].remove(spot.place);
    drop_empty(blocks, spot.block);
    gone
}

// Drops a block that is empty, if it isn't the only one.
#[inline(always)]
fn drop_empty(blocks: &mut Vec<Block>, i: usize)
    requires { i < length blocks.old.items }
    ensures { joined blocks.new.items ≡ joined blocks.old.items }
{
    if blocks[i].count() == 0 && blocks.len() > 1 {
        blocks.remove(i);
    }
}

// Puts a copy at the end of the last block, or into a block of its own.
#[inline(always)]
fn push_at_end(alloc: Global, blocks: &mut Vec<Block>, copy: Flying) -> Result<(), NoMemory>
    ensures ok { OnOk result (joined blocks.new.items ≡ joined blocks.old.items ++ copy ∷ []) }
    ensures err { OnErr result (joined blocks.new.items ≡ joined blocks.old.items) }
{
    if let Some(last) = blocks.last_mut() {
        if last.count() < MOST {
            return last.push(copy);
        }
    }
    let mut block = Block::new(alloc);
    block.push(copy)?;
    blocks.push(block)?;
    Ok(())
}

impl Flights {
    /// No copies. Takes no memory.
    pub(crate) fn new(alloc: Global) -> Flights
        ensures { result ≡ [] }
    {
        Flights {
            alloc,
            count: 0,
            blocks: Vec::new(alloc),
        }
    }

    /// How many copies there are. Takes no memory.
    pub(crate) fn count(&self) -> usize
        ensures { result ≡ length self.now }
    {
        self.count
    }

    /// The copy of this number in the list, counted from 0. Takes no memory.
    pub(crate) fn get(&self, k: usize) -> &Flying
        requires { k < length self.now }
        ensures { slice_get self.now k ≡ Some result.now }
    {
        let spot = spot_of(&self.blocks, self.count, k);
        copy_at(&self.blocks, spot)
    }

    /// Puts a copy at the end of the list.
    #[inline(always)]
    pub(crate) fn push(&mut self, copy: Flying) -> Result<(), NoMemory>
        ensures ok { OnOk result (self.new ≡ self.old ++ copy ∷ []) }
        ensures err { OnErr result (self.new ≡ self.old) }
    {
        let count = self.count.checked_add(1).ok_or(NoMemory)?;
        push_at_end(self.alloc, &mut self.blocks, copy)?;
        self.count = count;
        Ok(())
    }

    /// Puts a copy right behind copy k.
    pub(crate) fn insert_behind(&mut self, k: usize, copy: Flying) -> Result<(), NoMemory>
        requires { k < length self.old }
        ensures ok { OnOk result (self.new ≡ spliced self.old (k + 1) 0 (copy ∷ [])) }
        ensures err { OnErr result (self.new ≡ self.old) }
    {
        let count = self.count.checked_add(1).ok_or(NoMemory)?;
        let spot = roomy_spot(&mut self.blocks, self.count, k)?;
        insert_at(&mut self.blocks, spot, copy)?;
        self.count = count;
        Ok(())
    }

    /// Sends copy k to a switch, with a head. Takes no memory.
    pub(crate) fn send(&mut self, k: usize, to: u16, head: Head)
        requires { k < length self.old }
        ensures { SendsCopy self.old k to head self.new }
    {
        let spot = spot_of(&self.blocks, self.count, k);
        send_at(&mut self.blocks, spot, to, head);
    }

    /// Takes copy k out of the list. Takes no memory.
    #[inline(always)]
    pub(crate) fn remove(&mut self, k: usize) -> Flying
        requires { k < length self.old }
        ensures copy { slice_get self.old k ≡ Some result }
        ensures left { self.new ≡ spliced self.old k 1 [] }
    {
        let spot = spot_of(&self.blocks, self.count, k);
        let gone = remove_at(&mut self.blocks, spot);
        self.count -= 1;
        gone
    }

    /// Takes so many copies out of the list, from a place on. Takes no memory.
    pub(crate) fn cut(&mut self, from: usize, count: usize)
        requires { from + count ≤ length self.old }
        ensures { self.new ≡ spliced self.old from count [] }
    {
        for i in 0..count {
            self.remove(from);
        }
    }

    /// Hands out the copies, in the order of the list.
    pub(crate) fn into_copies(self) -> Result<Vec<Flying>, NoMemory>
        ensures { IfOk result (λ copies. copies.items ≡ self) }
    {
        let Flights {
            alloc,
            count,
            blocks,
        } = self;
        let mut copies = Vec::with_capacity(alloc, count)?;
        let mut rest = VecDeque::from(blocks);
        while let Some(block) = rest.pop_front() {
            let mut part = block.into_copies();
            copies.append(&mut part)?;
        }
        Ok(copies)
    }

    /// The list of these copies.
    pub(crate) fn from_copies(alloc: Global, copies: Vec<Flying>) -> Result<Flights, NoMemory>
        ensures { IfOk result (λ flights. flights ≡ copies.items) }
    {
        let mut flights = Flights::new(alloc);
        let mut rest = VecDeque::from(copies);
        while let Some(copy) = rest.pop_front() {
            flights.push(copy)?;
        }
        Ok(flights)
    }
}
