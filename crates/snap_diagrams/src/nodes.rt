//! Lists of nodes.

ghost use Rattle.std.specs.Prelude.{◌≡◌, ◌≢◌, ◌<◌, IfOk, OnErr, length, slice_get, Some, ℕ};
ghost use Rattle.snap_diagrams.specs.declared.node.Node.TheVariants.{Ask, Leaf};
ghost use Rattle.snap_diagrams.specs.Arena.{IsArena, IsLower, ExtendsArena, IsNoted};

use crate::node::{Coded, Node, put_code};
use crate::numbers::Numbers;
use snap_core::NoMemory;
use snap_core::policy::Test;
use std::alloc::Global;
use std::marker::Model;

/// Nodes, each by its number. None stands twice, children have lower numbers, and the two ways of a
/// test differ. A number that was given out keeps its node.
#[derive(Drop)]
pub struct Nodes<L: Coded> {
    alloc: Global,
    nodes: Vec<Node<L>>,
    numbers: Numbers,
    // The code of the node that is looked for, so that a look-up takes no memory.
    sought: Vec<u64>,
}

impl<L: Coded> Model for Nodes<L> {
    ghost use Rattle.std.specs.Prelude.{List};
    ghost use Rattle.snap_diagrams.specs.declared.node.Node.{Node};
    ghost use Rattle.snap_diagrams.specs.Arena.{IsNumbered};

    ghost Value = { List (Node L) };

    ghost view = { λ a. a.nodes.items };

    ghost invariant = { λ a. IsNumbered L.code a.nodes.items a.numbers };
}

impl<L: Coded + Drop> Nodes<L> {
    /// No nodes.
    pub fn new(alloc: Global) -> Nodes<L>
        ensures { length result ≡ 0 }
    {
        Nodes {
            alloc,
            nodes: Vec::new(alloc),
            numbers: Numbers::new(alloc),
            sought: Vec::new(alloc),
        }
    }

    /// From where the nodes take memory.
    pub fn allocator(&self) -> Global {
        self.alloc
    }

    /// How many nodes there are: the numbers below this one are theirs.
    pub fn count(&self) -> u64
        ensures count { result ≡ length self.now }
        ensures arena { IsArena self.now }
    {
        self.nodes.len() as u64
    }

    /// The number of a test with its two ways: the old one where the node is there, else the list's
    /// next. Where the ways are one, that way itself. Refuses for memory alone.
    pub fn node(&mut self, test: Test, yes: u64, no: u64) -> Result<u64, NoMemory>
        requires yes { yes < length self.old }
        requires no { no < length self.old }
        ensures both { IfOk result (λ d. yes ≡ no → (d ≡ yes) × (self.new ≡ self.old)) }
        ensures ok { IfOk result (λ d. yes ≢ no → IsNoted self.old (Ask test yes no) self.new d) }
        ensures lower { IfOk result (λ d. yes ≢ no → (yes < d) × (no < d)) }
        ensures number { IfOk result (λ d. d < length self.new) }
        ensures err { OnErr result (self.new ≡ self.old) }
        ensures extends_arena { ExtendsArena self.old self.new }
    {
        if yes == no {
            return Ok(yes);
        }
        self.note(Node::Ask { test, yes, no })
    }

    /// The number of a leaf: the old one where it is there, else the list's next.
    /// Refuses for memory alone.
    pub fn leaf(&mut self, leaf: L) -> Result<u64, NoMemory>
        ensures ok { IfOk result (λ d. IsNoted self.old (Leaf leaf) self.new d) }
        ensures number { IfOk result (λ d. d < length self.new) }
        ensures err { OnErr result (self.new ≡ self.old) }
        ensures extends_arena { ExtendsArena self.old self.new }
    {
        self.note(Node::Leaf(leaf))
    }

    /// The node of a number.
    pub fn get(&self, id: u64) -> &Node<L>
        requires { id < length self.now }
        ensures at { slice_get self.now id ≡ Some result.now }
        ensures lower { IsLower id result.now }
        ensures once { (e : ℕ) → slice_get self.now e ≡ Some result.now → e ≡ id }
    {
        &self.nodes[id as usize]
    }

    // The number of a node, which is added if it isn't there.
    fn note(&mut self, node: Node<L>) -> Result<u64, NoMemory>
        requires { IsLower (length self.old) node }
        ensures ok { IfOk result (λ d. IsNoted self.old node self.new d) }
        ensures lower { IfOk result (λ d. IsLower d node) }
        ensures err { OnErr result (self.new ≡ self.old) }
        ensures extends_arena { ExtendsArena self.old self.new }
    {
        put_code(&mut self.sought, &node)?;
        L::codes_differ();
        match self.numbers.get(&self.sought) {
            Some(id) => Ok(id),
            None => {
                let code = Vec::from_slice(self.alloc, &self.sought)?;
                let count = self.nodes.len();
                self.nodes.push(node)?;
                if let Err(fault) = self.numbers.put(code, count as u64) {
                    self.nodes.truncate(count);
                    return Err(fault);
                }
                Ok(count as u64)
            }
        }
    }
}
