//! The ordered network.

ghost use Rattle.std.specs.Prelude.{◌≡◌, ◌≢◌, ◌≤◌, ◌<◌, ◌+◌, ◌^◌, ℕ, List, None, IfOk, IfErr, OnOk, OnErr, IsSome, IsTrue, get_or, length, slice_index};
ghost use Rattle.snap_core.specs.Arrays.{zero_arrays};
ghost use Rattle.snap_core.specs.Listing.{IsListing};
ghost use Rattle.snap_core.specs.declared.program.Program.{Program};
ghost use Rattle.snap_topology.specs.declared.topology.Topology.{Topology};
ghost use Rattle.snap_rows.specs.Entries.{port_at, ranks};
ghost use Rattle.snap_rows.specs.Form.{array_count, comps};
ghost use Rattle.snap_rows.specs.Network.{Inject, Step, global_store};
ghost use Rattle.snap_net.specs.declared.net.InjectFault.{InjectFault};
ghost use Rattle.snap_net.specs.declared.net.StepFault.{StepFault};
ghost use Rattle.snap_net.specs.Parts.{held_of};
ghost use Rattle.snap_net.specs.Shown.{HasFrame, IsNetView};
ghost use Rattle.snap_faithful.specs.Faithful.{Faithful};
ghost use Rattle.snap_order.specs.Laws.{KeepsOrder};
ghost use Rattle.snap_order.specs.Ordered.{Ordered, begin};
ghost use Rattle.snap_order.specs.Shown.{SimulatesInOrder, IsOrderedNetView, NoTurn, SameInOrder, RepresentsInOrder, TellsFrame, TellsTurn};

use crate::counts::{InOrder, count, first_rank, handled, rank_behind};
use crate::turned::OrderedHappened;
use snap_core::NoMemory;
use snap_core::packet::Packet;
use snap_core::place::Entry;
use snap_net::happened::{Framed, Moved};
use snap_net::net::{InjectFault, Net, StepFault, open_net};
use snap_net::parts::Parts;
use snap_rows::valid::Valid;
use std::alloc::Global;
use std::marker::Model;

/// A network in which each rank handles the packets in the order of their injection, with how many each has handled: a
/// state of the ordered network, seen without the counts of hops and steps that each copy has made.
#[derive(Drop)]
pub struct OrderedNet {
    alloc: Global,
    net: Net,
    counts: Vec<u64>,
}

impl Model for OrderedNet {
    ghost use Rattle.snap_order.specs.Shown.{OrderedNetView, IsOrderedNetView};

    ghost Value = { OrderedNetView };

    ghost view = { λ a. record { net = a.net; counts = a.counts.items } };

    ghost invariant = { λ a. IsOrderedNetView (record { net = a.net; counts = a.counts.items }) };
}

/// An ordered network of tables of version 2, with empty stores and nothing in flight. What it does over faithful tables,
/// whatever the order of events, is the law of `laws::faithful_is_serializable`. Refuses for memory alone.
pub fn open_ordered(alloc: Global, tables: Valid) -> Result<OrderedNet, NoMemory>
    requires version { tables.version ≡ 2 }
    ensures tables { IfOk result (λ net. net.net.tables ≡ tables) }
    ensures injected { IfOk result (λ net. net.net.injected ≡ 0) }
    ensures begin { IfOk result (λ net. RepresentsInOrder net (begin tables zero_arrays)) }
    ensures order { (p : Program) (topology : Topology) (places : List ℕ) → Faithful p topology places tables → KeepsOrder p topology tables }
{
    match no_counts(alloc, &tables) {
        Ok(counts) => {
            let net = open_net(alloc, tables)?;
            Ok(OrderedNet { alloc, net, counts })
        }
        Err(fault) => {
            drop(tables);
            Err(fault)
        }
    }
}

// A count for each rank of the tables, where none has handled a packet.
fn no_counts(alloc: Global, tables: &Valid) -> Result<Vec<u64>, NoMemory>
    ensures long { IfOk result (λ counts. length counts.items ≡ ranks tables.now) }
    ensures none { IfOk result (λ counts. (r : ℕ) → get_or counts.items r 0 ≡ 0) }
{
    let counts = vec![in alloc; 0u64; tables.ranks() as usize]?;
    Ok(counts)
}

/// What an ordered network holds, in parts.
#[derive(Drop)]
pub(crate) struct OrderedParts {
    pub parts: Parts,
    pub counts: Vec<u64>,
}

/// Puts an ordered network together.
pub(crate) fn from_parts(alloc: Global, parts: OrderedParts) -> Result<OrderedNet, NoMemory>
    requires held { IsNetView (held_of parts.parts) }
    requires ordered { IsOrderedNetView (record { net = held_of parts.parts; counts = parts.counts.items }) }
    ensures net { IfOk result (λ net. net.net ≡ held_of parts.parts) }
    ensures counts { IfOk result (λ net. net.counts ≡ parts.counts.items) }
{
    let OrderedParts { parts, counts } = parts;
    let net = Net::from_parts(alloc, parts)?;
    Ok(OrderedNet { alloc, net, counts })
}

impl OrderedNet {
    /// Lends the tables. Takes no memory.
    pub fn tables(&self) -> &Valid
        ensures tables { result.now ≡ self.now.net.tables }
    {
        self.net.tables()
    }

    /// Lends the network itself. Takes no memory.
    pub(crate) fn network(&self) -> &Net
        ensures { result.now ≡ self.now.net }
    {
        &self.net
    }

    /// The allocator.
    pub(crate) fn alloc(&self) -> Global {
        self.alloc
    }

    /// The number of copies in flight. Takes no memory.
    pub fn flying(&self) -> usize
        ensures shown { (s : Ordered) → RepresentsInOrder self.now s → result ≡ length s.net.flying }
        ensures held { result ≡ length self.now.net.flying }
        ensures is_held { IsNetView self.now.net }
        ensures is_ordered { IsOrderedNetView self.now }
    {
        self.net.flying()
    }

    /// The number of packets that a rank has handled. Takes no memory.
    pub fn handled(&self, rank: u16) -> u64
        requires { rank < ranks self.now.net.tables }
        ensures { (s : Ordered) → RepresentsInOrder self.now s → result ≡ s.handled rank }
    {
        handled(&self.counts, rank)
    }

    /// The number at a place of the whole store: each array is taken at its switch. Takes no memory.
    pub fn array(&self, var: u16, index: &[u64]) -> u64
        requires { var < array_count self.now.net.tables }
        ensures { (s : Ordered) → RepresentsInOrder self.now s → result ≡ global_store self.now.net.tables s.net (record { var = var; index = index.now }) }
    {
        self.net.array(var, index)
    }

    /// The places of the whole store that don't hold 0, rising by variable and then by index, with their numbers.
    /// Refuses for memory alone.
    pub fn entries(&self) -> Result<Vec<Entry>, NoMemory>
        ensures { IfOk result (λ entries. (s : Ordered) → RepresentsInOrder self.now s → IsListing (global_store self.now.net.tables s.net) entries.items) }
    {
        self.net.entries()
    }

    /// Adds a copy of a packet, whose `inport` is the port, at that port's switch, and answers the packet's number,
    /// counted from 0. A refusal leaves the network as it was.
    ///
    /// # Errors
    ///
    /// `NoPort` exactly where the tables have no such port; `NoMemory` for want of memory.
    pub fn inject(&mut self, port: u32, packet: Packet) -> Result<u64, InjectFault>
        requires packet { length packet ≡ comps self.old.net.tables }
        requires port { slice_index packet 0 ≡ port }
        requires room { self.old.net.injected + 1 < 2 ^ 64 }
        ensures done { IfOk result (λ number. (number ≡ self.old.net.injected) × SimulatesInOrder self.old (Inject port packet) self.new NoTurn) }
        ensures tables { self.new.net.tables ≡ self.old.net.tables }
        ensures count { OnOk result (self.new.net.injected ≡ self.old.net.injected + 1) }
        ensures no_port { IfErr result (λ fault. fault ≢ InjectFault.NoMemory → port_at self.old.net.tables port ≡ None) }
        ensures has_port { IfOk result (λ _. IsSome (port_at self.old.net.tables port)) }
        ensures refused { OnErr result (self.new ≡ self.old) }
    {
        self.net.inject(port, packet)
    }

    /// Makes a step of copy k, counted from 0, and tells the frame that crosses a link. A copy before a visit makes it only
    /// where the rank has handled just the packets before its own, and then those after it of which that holds too: `Waited`
    /// where it can't make the first, `Visited` where it can't make a later one at this switch. A refusal leaves the network
    /// as it was, but for room that its stores took.
    ///
    /// # Errors
    ///
    /// `NoCopy` exactly where there is no such copy; `NoMemory` for want of memory.
    pub fn step(&mut self, k: usize) -> Result<OrderedHappened, StepFault>
        ensures done { IfOk result (λ turned. SimulatesInOrder self.old (Step k) self.new (TellsFrame turned)) }
        ensures tables { self.new.net.tables ≡ self.old.net.tables }
        ensures injected { self.new.net.injected ≡ self.old.net.injected }
        ensures copy { IfErr result (λ fault. fault ≡ StepFault.NoCopy → length self.old.net.flying ≤ k) }
        ensures has_copy { length self.old.net.flying ≤ k → IfErr result (λ fault. fault ≡ StepFault.NoCopy) }
        ensures refused { OnErr result (SameInOrder self.old self.new) }
    {
        if k >= self.net.flying() {
            return Err(StepFault::NoCopy);
        }
        let told = self.step_and_count(k, true)?;
        Ok(OrderedHappened::of(told))
    }

    /// The same without the frame: `Stayed` in the place of `Visited`.
    ///
    /// # Errors
    ///
    /// As `step`.
    pub fn advance(&mut self, k: usize) -> Result<Moved, StepFault>
        ensures done { IfOk result (λ moved. SimulatesInOrder self.old (Step k) self.new (TellsTurn moved)) }
        ensures tables { self.new.net.tables ≡ self.old.net.tables }
        ensures injected { self.new.net.injected ≡ self.old.net.injected }
        ensures copy { IfErr result (λ fault. fault ≡ StepFault.NoCopy → length self.old.net.flying ≤ k) }
        ensures has_copy { length self.old.net.flying ≤ k → IfErr result (λ fault. fault ≡ StepFault.NoCopy) }
        ensures refused { OnErr result (SameInOrder self.old self.new) }
    {
        if k >= self.net.flying() {
            return Err(StepFault::NoCopy);
        }
        let told = self.step_and_count(k, false)?;
        Ok(told.moved)
    }

    // Makes a step of copy k, and counts its packet at the ranks that it visits. `framed` asks for the frame.
    fn step_and_count(&mut self, k: usize, framed: bool) -> Result<Framed, NoMemory>
        requires { k < length self.old.net.flying }
        ensures done { IfOk result (λ told. SimulatesInOrder self.old (Step k) self.new (TellsTurn told.moved)) }
        ensures frame { IfOk result (λ told. IsTrue framed → HasFrame self.new.net.flying k told.moved told.frame.items) }
        ensures tables { self.new.net.tables ≡ self.old.net.tables }
        ensures injected { self.new.net.injected ≡ self.old.net.injected }
        ensures refused { OnErr result (SameInOrder self.old self.new) }
    {
        let _known = self.net.tables();
        let copy = self.net.copy(k);
        let number = copy.number;
        let first = first_rank(self.net.tables(), copy.head);
        let next = number.checked_add(1).ok_or(NoMemory)?;
        let admit = InOrder {
            counts: &self.counts,
            number,
        };
        let told = self.net.step_admitted(k, &admit, framed)?;
        let behind = rank_behind(&self.net, k, first, &told.moved);
        count(&mut self.counts, first, behind, next);
        Ok(told)
    }

    /// Takes the network apart.
    pub(crate) fn into_parts(self) -> Result<OrderedParts, NoMemory>
        ensures net { IfOk result (λ parts. held_of parts.parts ≡ self.net) }
        ensures counts { IfOk result (λ parts. parts.counts.items ≡ self.counts) }
    {
        let OrderedNet {
            alloc: _,
            net,
            counts,
        } = self;
        let parts = net.into_parts()?;
        Ok(OrderedParts { parts, counts })
    }
}
