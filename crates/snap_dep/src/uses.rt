//! The variables that a policy uses, and the dependencies between them.

ghost use Rattle.std.specs.Prelude.{◌≡◌, ◌≤◌, ◌↔◌, ◌⊎◌, ℕ, length, bit_or};
ghost use Rattle.snap_core.specs.Meaning.{vars_of};
ghost use Rattle.snap_core.specs.Fits.{VarsBelow};
ghost use Rattle.snap_dep.specs.Dependencies.{Reads, Writes, Depends, UsesBelow};
ghost use Rattle.snap_dep.specs.Relations.{Relates, IsSetOf};

use crate::relation::{only, relate};
use snap_core::policy::{Pol, Pred};

// The variables that a policy reads, and those that it writes.
#[derive(Clone, Copy)]
pub(crate) struct Used {
    pub(crate) reads: u64,
    pub(crate) writes: u64,
}

impl Used {
    // What either of two policies uses.
    fn or(self, other: Used) -> Used
        ensures reads { result.reads ≡ bit_or self.reads other.reads }
        ensures writes { result.writes ≡ bit_or self.writes other.writes }
    {
        Used {
            reads: self.reads | other.reads,
            writes: self.writes | other.writes,
        }
    }
}

// The variables that stand in a predicate.
fn tested(pred: &Pred) -> u64
    requires { VarsBelow 64 pred.now }
    ensures { result ≡ vars_of pred.now }
{
    match pred {
        Pred::Id | Pred::Drop | Pred::Field { .. } => 0,
        Pred::State { var, .. } => only(*var as usize),
        Pred::Not(part) => tested(part),
        Pred::And(left, right) => tested(left) | tested(right),
        Pred::Or(left, right) => tested(left) | tested(right),
    }
}

// Adds the dependencies of a policy to a relation, and tells what it uses.
pub(crate) fn depend(pol: &Pol, rows: &mut [u64]) -> Used
    requires small { length rows.old ≤ 64 }
    requires below { UsesBelow (length rows.old) pol.now }
    ensures reads { IsSetOf (Reads pol.now) result.reads }
    ensures writes { IsSetOf (Writes pol.now) result.writes }
    ensures rows { (s t : ℕ) → Relates rows.new s t ↔ (Relates rows.old s t ⊎ Depends pol.now s t) }
{
    match pol {
        Pol::Filter(pred) => Used {
            reads: tested(pred),
            writes: 0,
        },
        Pol::Set { .. } => Used {
            reads: 0,
            writes: 0,
        },
        Pol::Change(update) => Used {
            reads: 0,
            writes: only(update.var as usize),
        },
        Pol::Par(left, right) => {
            let one = depend(left, rows);
            let other = depend(right, rows);
            one.or(other)
        }
        Pol::Seq(first, second) => {
            let before = depend(first, rows);
            let after = depend(second, rows);
            relate(rows, before.reads, after.writes);
            before.or(after)
        }
        Pol::If(test, yes, no) => {
            let reads = tested(test);
            let one = depend(yes, rows);
            let other = depend(no, rows);
            relate(rows, reads, one.writes | other.writes);
            Used { reads, writes: 0 }.or(one.or(other))
        }
        Pol::Atomic(part) => {
            let used = depend(part, rows);
            let all = used.reads | used.writes;
            relate(rows, all, all);
            used
        }
    }
}
