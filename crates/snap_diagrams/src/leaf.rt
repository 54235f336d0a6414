//! Leaves of diagrams.

ghost use Rattle.std.specs.Prelude.{◌≡◌, IfOk};

use snap_core::NoMemory;
use snap_core::lists::{Outs, Updates};
use std::alloc::Global;

/// What a leaf does: its ways out, its updates, and the variables read and written, a bit each.
#[derive(Drop)]
pub struct Go {
    pub outs: Outs,
    pub ups: Updates,
    pub reads: u64,
    pub writes: u64,
}

/// A leaf.
#[derive(Drop)]
pub enum Leaf {
    /// Two parts race.
    Race,
    Go(Go),
}

impl Go {
    /// The same outcome. Refuses for memory alone.
    pub fn copy(&self, alloc: Global) -> Result<Go, NoMemory>
        ensures { IfOk result (λ copy. copy ≡ self.now) }
    {
        Ok(Go {
            outs: self.outs.copy(alloc)?,
            ups: self.ups.copy(alloc)?,
            reads: self.reads,
            writes: self.writes,
        })
    }
}

impl Leaf {
    /// The same leaf. Refuses for memory alone.
    pub fn copy(&self, alloc: Global) -> Result<Leaf, NoMemory>
        ensures { IfOk result (λ copy. copy ≡ self.now) }
    {
        match self {
            Leaf::Race => Ok(Leaf::Race),
            Leaf::Go(go) => Ok(Leaf::Go(go.copy(alloc)?)),
        }
    }
}
