//! Nodes.

ghost use Rattle.std.specs.Prelude.{◌≡◌, ◌++◌, OnOk, List, ℕ};
ghost use Rattle.snap_diagrams.specs.Codes.{node_code};

use crate::codes::{push_one, push_test, push_three};
use snap_core::NoMemory;
use snap_core::policy::Test;

/// A test with the numbers of its two ways, or a leaf.
#[derive(Drop)]
pub enum Node<L> {
    Ask { test: Test, yes: u64, no: u64 },
    Leaf(L),
}

/// What has a list of numbers of its own, by which it is found.
pub trait Coded {
    ghost code: { Self → List ℕ };

    /// Adds the numbers. Refuses for memory alone.
    fn push_code(&self, out: &mut Vec<u64>) -> Result<(), NoMemory>
        ensures { OnOk result (out.new.items ≡ out.old.items ++ code self.now) };

    /// Different ones have different numbers.
    fn codes_differ()
        ensures { (a b : Self) → code a ≡ code b → a ≡ b };
}

// Makes a list a node's numbers.
pub(crate) fn put_code<L: Coded>(code: &mut Vec<u64>, node: &Node<L>) -> Result<(), NoMemory>
    ensures { OnOk result (code.new.items ≡ node_code L.code node.now) }
{
    code.clear();
    match node {
        Node::Ask { test, yes, no } => {
            push_three(code, 1, *yes, *no)?;
            push_test(code, test)
        }
        Node::Leaf(leaf) => {
            push_one(code, 0)?;
            leaf.push_code(code)
        }
    }
}
