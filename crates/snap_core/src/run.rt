//! What an evaluation in place gives.

ghost use Rattle.std.specs.Prelude.{◌≡◌, IfOk, Some, None, Err, List, ℕ};
ghost use Rattle.snap_core.specs.Arrays.{Arrays};
ghost use Rattle.snap_core.specs.Packets.{no_packets};
ghost use Rattle.snap_core.specs.Meaning.{clash, logged};
ghost use Rattle.snap_core.specs.Runs.{after_both, begun_behind, flown, meaning_with};

use crate::NoMemory;
use crate::copies::{Copies, Effect};
use crate::outcome::EvalFault;
use std::alloc::Global;

/// The variables that were read and written so far, a bit each.
#[derive(Clone, Copy)]
pub(crate) struct Logs {
    pub(crate) reads: u64,
    pub(crate) writes: u64,
}

/// The packets, and the variables that were read and written, a bit each.
#[derive(Drop)]
pub struct Run {
    pub copies: Copies,
    pub reads: u64,
    pub writes: u64,
}

/// What became of a packet that was changed in place, and the variables that were read and written, a bit each.
#[derive(Drop)]
pub struct Ran {
    pub flow: Effect,
    pub reads: u64,
    pub writes: u64,
}

impl Run {
    /// Nothing was done, and no packet goes on.
    pub(crate) fn blank(alloc: Global) -> Run
        ensures { (m : Arrays) → meaning_with m result ≡ record { arrays = m; packets = no_packets; reads = 0; writes = 0 } }
    {
        Run {
            copies: Copies::none(alloc),
            reads: 0,
            writes: 0,
        }
    }

    // Whether one writes what the other reads or writes.
    fn clashes(&self, other: &Run) -> bool
        ensures { (m n : Arrays) → result ≡ clash (meaning_with m self.now) (meaning_with n other.now) }
    {
        self.writes & (other.reads | other.writes) != 0
            || other.writes & (self.reads | self.writes) != 0
    }

    /// This and another that began where this one left the arrays. It is undefined where they clash.
    pub(crate) fn beside(self, alloc: Global, other: Run) -> Result<Run, EvalFault>
        ensures ok { (m n : Arrays) → IfOk result (λ both. begun_behind (meaning_with m self) (meaning_with n other) ≡ Some (meaning_with n both)) }
        ensures undefined { (m n : Arrays) → result ≡ Err EvalFault.Undefined → begun_behind (meaning_with m self) (meaning_with n other) ≡ None }
    {
        if self.clashes(&other) {
            return Err(EvalFault::Undefined);
        }
        Ok(self.join(alloc, other)?)
    }

    // Both, which don't clash.
    fn join(self, alloc: Global, other: Run) -> Result<Run, NoMemory>
        ensures { (m n : Arrays) → IfOk result (λ both. meaning_with n both ≡ after_both (meaning_with m self) (meaning_with n other)) }
    {
        Ok(Run {
            copies: self.copies.join(alloc, other.copies)?,
            reads: self.reads | other.reads,
            writes: self.writes | other.writes,
        })
    }

    /// What the run gives within another, which has these logs.
    pub(crate) fn within(self, alloc: Global, logs: &mut Logs) -> Result<Effect, NoMemory>
        ensures { (m : Arrays) (k : List ℕ) → IfOk result (λ flow. flown m flow k logs.new ≡ logged logs.old.reads logs.old.writes (meaning_with m self)) }
    {
        logs.reads |= self.reads;
        logs.writes |= self.writes;
        Ok(Effect::Many(self.copies.into_vec(alloc)?))
    }
}
