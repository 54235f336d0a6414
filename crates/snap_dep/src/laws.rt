//! Laws of dependencies and ranks.

ghost use Rattle.std.specs.Prelude.{ℕ};
ghost use Rattle.snap_core.specs.declared.policy.Pol.{Pol};
ghost use Rattle.snap_dep.specs.Dependencies.{TiedIsEquivalence, UsesBelow};
ghost use Rattle.snap_dep.specs.Locality.{KeepsAgreement, ActsByRank};
ghost use Rattle.snap_dep.specs.Ranks.{HasOneRank};

/// Tied variables form classes.
pub fn tied_is_equivalence()
    ensures { (p : Pol) → TiedIsEquivalence p }
{}

/// The rank takes each group once, and is the only one that does so by its rule.
pub fn has_one_rank()
    ensures { (p : Pol) (n : ℕ) → UsesBelow n p → HasOneRank p n }
{}

/// From arrays that agree on a set of variables closed under what they depend on come arrays that agree on it.
pub fn evaluation_is_noninterfering()
    ensures { KeepsAgreement }
{}

/// **The law of ranks.** Where evaluation is always defined, the variables of a group after it are as after evaluation on arrays
/// in which each variable of greater rank is 0.
pub fn acts_by_rank()
    ensures { ActsByRank }
{}
