//! The network.

ghost use Rattle.std.specs.Prelude.{◌≡◌, ◌≢◌, ◌≤◌, ◌<◌, ◌+◌, ◌^◌, None, Some, ℕ, IfOk, IfErr, OnOk, OnErr, IsSome, IsTrue, [], length, map, slice_get, slice_index, All};
ghost use Rattle.snap_core.specs.Arrays.{zero_arrays};
ghost use Rattle.snap_core.specs.Cells.{arrays_of};
ghost use Rattle.snap_core.specs.Listing.{IsListing, entry_of};
ghost use Rattle.snap_rows.specs.Entries.{port_at};
ghost use Rattle.snap_rows.specs.Form.{comps, array_count, switch_count};
ghost use Rattle.snap_rows.specs.Network.{Net as State, start, global_store, Inject, Step};
ghost use Rattle.snap_net.specs.declared.flying.Flying.{Flying};
ghost use Rattle.snap_net.specs.Passing.{Passes, sent_in, HearsSent};
ghost use Rattle.snap_net.specs.Shown.{HasFrame, IsNetView, Represents, Simulates, Nothing, IsObservedAs, TellsMoved, Same, store_of};
ghost use Rattle.snap_net.specs.Parts.{held_of};
ghost use Rattle.snap_net.specs.Moves.{StepsAt};
ghost use Rattle.snap_net.specs.declared.net.InjectFault.{InjectFault};
ghost use Rattle.snap_net.specs.declared.net.StepFault.{StepFault};

use crate::flights::Flights;
use crate::flying::Flying;
use crate::happened::{Framed, Happened, Moved};
use crate::moves::step_in;
use crate::parts::Parts;
use crate::passing::{Passed, carry};
use crate::rehousing::move_arrays;
use crate::watch::Watch;
use snap_core::NoMemory;
use snap_core::packet::Packet;
use snap_core::place::{Entry, Listed};
use snap_core::store::Store;
use snap_rows::admit::{Admit, Every};
use snap_rows::head::Head;
use snap_rows::valid::Valid;
use std::alloc::Global;
use std::marker::Model;

/// Why nothing is injected.
#[derive(Clone, Copy, Debug, PartialEq, Eq)]
pub enum InjectFault {
    /// The tables have no such port.
    NoPort,
    /// Memory was refused.
    NoMemory,
}

/// Why no step is made.
#[derive(Clone, Copy, Debug, PartialEq, Eq)]
pub enum StepFault {
    /// So many copies aren't in flight.
    NoCopy,
    /// Memory was refused.
    NoMemory,
}

/// Tables with the stores of their switches and the copies in flight: a state of the network, seen without the counts
/// of hops and steps that each copy has made.
#[derive(Drop)]
pub struct Net {
    alloc: Global,
    tables: Valid,
    stores: Vec<Store>,
    injected: u64,
    flying: Flights,
}

impl Model for Net {
    ghost use Rattle.snap_net.specs.Shown.{NetView, IsNetView};

    ghost Value = { NetView };

    ghost view = { λ a. record { tables = a.tables; stores = a.stores.items; injected = a.injected; flying = a.flying } };

    ghost invariant = { λ a. IsNetView (record { tables = a.tables; stores = a.stores.items; injected = a.injected; flying = a.flying }) };
}

impl From<NoMemory> for InjectFault {
    ghost use Rattle.snap_net.specs.declared.net.InjectFault.TheVariants.{NoMemory as Wanting};

    ghost from_gives = { λ _ fault. fault ≡ Wanting };

    fn from(_: NoMemory) -> InjectFault {
        InjectFault::NoMemory
    }
}

impl From<NoMemory> for StepFault {
    ghost use Rattle.snap_net.specs.declared.net.StepFault.TheVariants.{NoMemory as Wanting};

    ghost from_gives = { λ _ fault. fault ≡ Wanting };

    fn from(_: NoMemory) -> StepFault {
        StepFault::NoMemory
    }
}

/// A network with empty stores and nothing in flight. Refuses for memory alone.
pub fn open_net(alloc: Global, tables: Valid) -> Result<Net, NoMemory>
    ensures tables { IfOk result (λ net. net.tables ≡ tables) }
    ensures injected { IfOk result (λ net. net.injected ≡ 0) }
    ensures start { IfOk result (λ net. Represents net (start tables zero_arrays)) }
{
    let stores = empty_stores(alloc, tables.tables().switches.items().len())?;
    Ok(Net {
        alloc,
        tables,
        stores,
        injected: 0,
        flying: Flights::new(alloc),
    })
}

/// So many empty stores. Refuses for memory alone.
pub fn empty_stores(alloc: Global, count: usize) -> Result<Vec<Store>, NoMemory>
    ensures count { IfOk result (λ stores. length stores.items ≡ count) }
    ensures empty { IfOk result (λ stores. (w : ℕ) → store_of stores.items w ≡ zero_arrays) }
{
    let mut stores = Vec::with_capacity(alloc, count)?;
    for i in 0..count {
        stores.push(Store::new(alloc))?;
    }
    Ok(stores)
}

impl Net {
    /// Lends the tables. Takes no memory.
    pub fn tables(&self) -> &Valid
        ensures tables { result.now ≡ self.now.tables }
        ensures held { IsNetView self.now }
    {
        &self.tables
    }

    /// The number of copies in flight. Takes no memory.
    pub fn flying(&self) -> usize
        ensures shown { (s : State) → Represents self.now s → result ≡ length s.flying }
        ensures held { result ≡ length self.now.flying }
        ensures is_held { IsNetView self.now }
    {
        self.flying.count()
    }

    /// The number of packets that were injected. Takes no memory.
    pub fn injected(&self) -> u64
        ensures { result ≡ self.now.injected }
    {
        self.injected
    }

    /// Lends copy k, counted from 0. Takes no memory.
    pub fn copy(&self, k: usize) -> &Flying
        requires { k < length self.now.flying }
        ensures { slice_get self.now.flying k ≡ Some result.now }
    {
        self.flying.get(k)
    }

    /// Lends the store of a switch. Takes no memory.
    pub fn store(&self, at: u16) -> &Store
        requires { at < switch_count self.now.tables }
        ensures { arrays_of result.now ≡ store_of self.now.stores at }
    {
        let _known = self.tables();
        &self.stores[at as usize]
    }

    /// Adds a copy of a packet, whose `inport` is the port, at that port's switch, and answers the packet's number,
    /// counted from 0. A refusal leaves the network as it was.
    ///
    /// # Errors
    ///
    /// `NoPort` exactly where the tables have no such port; `NoMemory` for want of memory.
    pub fn inject(&mut self, port: u32, packet: Packet) -> Result<u64, InjectFault>
        requires packet { length packet ≡ comps self.old.tables }
        requires port { slice_index packet 0 ≡ port }
        requires room { self.old.injected + 1 < 2 ^ 64 }
        ensures done { IfOk result (λ number. (number ≡ self.old.injected) × Simulates self.old (Inject port packet) self.new Nothing) }
        ensures tables { self.new.tables ≡ self.old.tables }
        ensures count { OnOk result (self.new.injected ≡ self.old.injected + 1) }
        ensures no_port { IfErr result (λ fault. fault ≢ InjectFault.NoMemory → port_at self.old.tables port ≡ None) }
        ensures has_port { IfOk result (λ _. IsSome (port_at self.old.tables port)) }
        ensures refused { OnErr result (self.new ≡ self.old) }
    {
        let at = match self.tables.port_at(port as u64) {
            Some(at) => at,
            None => return Err(InjectFault::NoPort),
        };
        let number = self.injected;
        self.flying.push(Flying {
            number,
            at,
            head: Head::Walk { node: 0 },
            packet,
        })?;
        self.injected = number + 1;
        Ok(number)
    }

    /// A packet comes in where nothing is in flight, and its copies make their steps, the first one at a time, until each is
    /// delivered: answers what went out. The packet is changed in its own memory, and stands in no list meanwhile. Where memory
    /// is short only the tables and the count of packets are sure to stay.
    ///
    /// # Errors
    ///
    /// As `inject`.
    pub fn pass<W: Watch>(
        &mut self,
        port: u32,
        packet: &mut Packet,
        watch: &mut W,
    ) -> Result<Passed, InjectFault>
        requires rests { self.old.flying ≡ [] }
        requires packet { length packet.old ≡ comps self.old.tables }
        requires port { slice_index packet.old 0 ≡ port }
        requires room { self.old.injected + 1 < 2 ^ 64 }
        ensures passes { IfOk result (λ passed. Passes port packet.old self.old self.new (HearsSent (W.saw self.old.tables) self.old.injected watch.old watch.new packet.new passed)) }
        ensures sent { IfOk result (λ passed. All (λ k. length k ≡ comps self.old.tables) (sent_in packet.new passed)) }
        ensures long { length packet.new ≡ length packet.old }
        ensures rests { self.new.flying ≡ [] }
        ensures tables { self.new.tables ≡ self.old.tables }
        ensures count { OnOk result (self.new.injected ≡ self.old.injected + 1) }
        ensures same_count { OnErr result (self.new.injected ≡ self.old.injected) }
        ensures no_port { IfErr result (λ fault. fault ≢ InjectFault.NoMemory → port_at self.old.tables port ≡ None) }
        ensures has_port { IfOk result (λ _. IsSome (port_at self.old.tables port)) }
    {
        let at = match self.tables.port_at(port as u64) {
            Some(at) => at,
            None => return Err(InjectFault::NoPort),
        };
        let number = self.injected;
        let passed = carry(
            self.alloc,
            &self.tables,
            &mut self.stores,
            number,
            at,
            packet,
            watch,
        )?;
        self.injected = number + 1;
        Ok(passed)
    }

    /// Makes a step of copy k, counted from 0, as far as its visits are admitted, and tells the frame that crosses a link, if
    /// `framed` asks for it. A refusal leaves the network as it was, but for room that its stores took. Refuses for memory alone.
    pub fn step_admitted<A: Admit>(
        &mut self,
        k: usize,
        admit: &A,
        framed: bool,
    ) -> Result<Framed, NoMemory>
        requires { k < length self.old.flying }
        ensures stepped { IfOk result (λ told. StepsAt (A.admits admit.now) self.old k self.new told.moved) }
        ensures frame { IfOk result (λ told. IsTrue framed → HasFrame self.new.flying k told.moved told.frame.items) }
        ensures tables { self.new.tables ≡ self.old.tables }
        ensures injected { self.new.injected ≡ self.old.injected }
        ensures refused { OnErr result (Same self.old self.new) }
    {
        let told = step_in(
            self.alloc,
            &self.tables,
            admit,
            &mut self.stores,
            &mut self.flying,
            k,
            framed,
        )?;
        Ok(told)
    }

    /// Makes a step of copy k, counted from 0, without order, and tells the frame that crosses a link. A refusal leaves the
    /// network as it was, but for room that its stores took.
    ///
    /// # Errors
    ///
    /// `NoCopy` exactly where there is no such copy; `NoMemory` for want of memory.
    pub fn step(&mut self, k: usize) -> Result<Happened, StepFault>
        ensures done { IfOk result (λ happened. Simulates self.old (Step k) self.new (IsObservedAs happened)) }
        ensures tables { self.new.tables ≡ self.old.tables }
        ensures injected { self.new.injected ≡ self.old.injected }
        ensures copy { IfErr result (λ fault. fault ≡ StepFault.NoCopy → length self.old.flying ≤ k) }
        ensures has_copy { length self.old.flying ≤ k → IfErr result (λ fault. fault ≡ StepFault.NoCopy) }
        ensures refused { OnErr result (Same self.old self.new) }
    {
        if k >= self.flying.count() {
            return Err(StepFault::NoCopy);
        }
        let told = self.step_admitted(k, &Every, true)?;
        Ok(Happened::of(told))
    }

    /// The same without the frame.
    ///
    /// # Errors
    ///
    /// As `step`.
    pub fn advance(&mut self, k: usize) -> Result<Moved, StepFault>
        ensures done { IfOk result (λ moved. Simulates self.old (Step k) self.new (TellsMoved moved)) }
        ensures tables { self.new.tables ≡ self.old.tables }
        ensures injected { self.new.injected ≡ self.old.injected }
        ensures copy { IfErr result (λ fault. fault ≡ StepFault.NoCopy → length self.old.flying ≤ k) }
        ensures has_copy { length self.old.flying ≤ k → IfErr result (λ fault. fault ≡ StepFault.NoCopy) }
        ensures refused { OnErr result (Same self.old self.new) }
    {
        if k >= self.flying.count() {
            return Err(StepFault::NoCopy);
        }
        let told = self.step_admitted(k, &Every, false)?;
        Ok(told.moved)
    }

    /// The number at a place of the whole store: each array is taken at its switch. Takes no memory.
    pub fn array(&self, var: u16, index: &[u64]) -> u64
        requires { var < array_count self.now.tables }
        ensures { (s : State) → Represents self.now s → result ≡ global_store self.now.tables s (record { var = var; index = index.now }) }
    {
        let at = self.tables.owner_of(var);
        self.stores[at as usize].get(var, index)
    }

    /// The places of the whole store that don't hold 0, rising by variable and then by index, with their numbers. Each array
    /// is listed at its switch. Refuses for memory alone.
    pub fn listing(&self) -> Result<Vec<Listed<'_>>, NoMemory>
        ensures { IfOk result (λ listed. (s : State) → Represents self.now s → IsListing (global_store self.now.tables s) (map entry_of listed.items)) }
    {
        let cells = self.stores.iter().map(|store| store.cells());
        let room = cells.fold(0, |sum: usize, count| sum.saturating_add(count));
        let mut all = Vec::with_capacity(self.alloc, room)?;
        let count = self.tables.tables().arrays.items().len();
        for var in 0..count as u16 {
            let at = self.tables.owner_of(var);
            self.stores[at as usize].list_array(var, &mut all)?;
        }
        Ok(all)
    }

    /// The same with indices of their own. Refuses for memory alone.
    pub fn entries(&self) -> Result<Vec<Entry>, NoMemory>
        ensures { IfOk result (λ entries. (s : State) → Represents self.now s → IsListing (global_store self.now.tables s) entries.items) }
    {
        let listed = self.listing()?;
        let mut entries = Vec::with_capacity(self.alloc, listed.len())?;
        for each in &listed {
            entries.push(each.entry(self.alloc)?)?;
        }
        Ok(entries)
    }

    /// Puts other tables in the place of these: each array moves to its switch of those, so the whole store stays, and
    /// nothing is in flight. Refuses for memory alone; the arrays that had moved by then are lost.
    pub fn rehouse(&mut self, tables: Valid) -> Result<(), NoMemory>
        requires { array_count tables ≡ array_count self.old.tables }
        ensures tables { OnOk result (self.new.tables ≡ tables) }
        ensures flying { OnOk result (self.new.flying ≡ []) }
        ensures stores { OnOk result ((s : State) → Represents self.old s → Represents self.new (record (start tables (global_store self.old.tables s)) { injected = s.injected })) }
        ensures injected { self.new.injected ≡ self.old.injected }
        ensures err { OnErr result ((self.new.tables ≡ self.old.tables) × (self.new.flying ≡ self.old.flying)) }
    {
        let _known = self.tables();
        let mut stores = empty_stores(self.alloc, tables.tables().switches.items().len())?;
        move_arrays(&self.tables, &mut self.stores, &tables, &mut stores)?;
        self.tables = tables;
        self.stores = stores;
        self.flying = Flights::new(self.alloc);
        Ok(())
    }

    /// Takes the network apart. Refuses for memory alone.
    pub fn into_parts(self) -> Result<Parts, NoMemory>
        ensures held { IsNetView self }
        ensures parts { IfOk result (λ parts. held_of parts ≡ self) }
    {
        let _known = self.tables();
        let Net {
            alloc: _,
            tables,
            stores,
            injected: packets,
            flying,
        } = self;
        let flying = flying.into_copies()?;
        Ok(Parts {
            tables,
            stores,
            injected: packets,
            flying,
        })
    }

    /// Puts a network together. Refuses for memory alone.
    pub fn from_parts(alloc: Global, parts: Parts) -> Result<Net, NoMemory>
        requires { IsNetView (held_of parts) }
        ensures { IfOk result (λ net. net ≡ held_of parts) }
    {
        let Parts {
            tables,
            stores,
            injected: packets,
            flying,
        } = parts;
        let flying = Flights::from_copies(alloc, flying)?;
        Ok(Net {
            alloc,
            tables,
            stores,
            injected: packets,
            flying,
        })
    }
}
