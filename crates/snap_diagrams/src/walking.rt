//! Walks: the leaf of a store and a packet, with no memory taken.

ghost use Rattle.std.specs.Prelude.{◌≡◌, ◌<◌, ◌≤◌, length, map, take};
ghost use Rattle.snap_core.specs.Arrays.{value_of};
ghost use Rattle.snap_core.specs.Cells.{arrays_of};
ghost use Rattle.snap_core.specs.Fits.{IndexFits};
ghost use Rattle.snap_core.specs.Tests.{passes};
ghost use Rattle.snap_diagrams.specs.Bounds.{Sizes, IsIn, TestIn};
ghost use Rattle.snap_diagrams.specs.Diagrams.{diagram, walk};

use crate::leaf::Leaf;
use crate::node::Node;
use crate::nodes::Nodes;
use crate::pick::look;
use snap_core::packet::Packet;
use snap_core::policy::{Atom, Test};
use snap_core::store::Store;

// Puts the numbers of an index in front.
fn fill(numbers: &mut [u64], index: &[Atom], packet: &Packet)
    requires room { length index.now ≤ length numbers.old }
    requires fits { IndexFits (length packet.now) index.now }
    ensures numbers { take (length index.now) numbers.new ≡ map (λ a. value_of a packet.now) index.now }
    ensures same { length numbers.new ≡ length numbers.old }
{
    for (at, atom) in index.iter().enumerate() {
        numbers[at] = atom.value(packet);
    }
}

// Whether a store and a packet pass a test.
fn passes_at(test: &Test, store: &Store, packet: &Packet) -> bool
    requires { (s : Sizes) × (s.comps ≡ length packet.now) × TestIn s test.now }
    ensures { result ≡ passes test.now (arrays_of store.now) packet.now }
{
    match test {
        Test::Value { comp, num } => packet.get(*comp) == *num,
        Test::Equal { left, right, plus } => {
            packet.get(*left) == packet.get(*right).wrapping_add(*plus)
        }
        Test::State { var, index, value } => {
            let mut numbers = [0u64; 8];
            let index = index.items();
            fill(&mut numbers, index, packet);
            store.get(*var, &numbers[..index.len()]) == value.value(packet)
        }
    }
}

/// The leaf to which a diagram walks.
pub fn walk<'a>(nodes: &'a Nodes<Leaf>, d: u64, store: &Store, packet: &Packet) -> &'a Leaf
    requires d { d < length nodes.now }
    requires bounds { (s : Sizes) × (s.comps ≡ length packet.now) × IsIn s (diagram nodes.now d) }
    ensures { result.now ≡ walk (diagram nodes.now d) (arrays_of store.now) packet.now }
{
    match look(nodes, d) {
        Node::Leaf(leaf) => leaf,
        Node::Ask { test, yes, no } => {
            if passes_at(test, store, packet) {
                walk(nodes, *yes, store, packet)
            } else {
                walk(nodes, *no, store, packet)
            }
        }
    }
}
