// How large parts of a program are. Numbers from 4294967295 on are kept as 4294967295.

ghost use Rattle.std.specs.Prelude.{◌≡◌, ◌+◌, ◌*◌};
ghost use Rattle.snap_names.specs.Core.{core_test, core_policy, test_nodes, test_weight, nodes, weight};
ghost use Rattle.snap_names.specs.Declarations.{capped};

use snap_core::policy::{Pol, Pred};

/// The greatest number that is kept.
pub(crate) const MOST_KEPT: u64 = 4294967295;

/// A sum, kept.
pub(crate) fn sum(a: u64, b: u64) -> u64
    ensures { result ≡ capped (a + b) }
{
    a.saturating_add(b).min(MOST_KEPT)
}

/// A product, kept.
pub(crate) fn product(a: u64, b: u64) -> u64
    ensures { result ≡ capped (a * b) }
{
    a.saturating_mul(b).min(MOST_KEPT)
}

/// The core nodes of a predicate.
pub(crate) fn test_nodes(test: &Pred) -> u64
    ensures { result ≡ capped (test_nodes (core_test test.now)) }
{
    match test {
        Pred::Id | Pred::Drop | Pred::Field { .. } | Pred::State { .. } => 1,
        Pred::Not(part) => sum(1, test_nodes(part)),
        Pred::And(left, right) => sum(sum(1, test_nodes(left)), test_nodes(right)),
        Pred::Or(left, right) => sum(sum(1, test_nodes(left)), test_nodes(right)),
    }
}

/// The weight of a predicate.
pub(crate) fn test_weight(test: &Pred) -> u64
    ensures { result ≡ capped (test_weight (core_test test.now)) }
{
    match test {
        Pred::Id | Pred::Drop => 1,
        Pred::Field { .. } | Pred::State { .. } => 2,
        Pred::Not(part) => test_weight(part),
        Pred::And(left, right) => sum(test_weight(left), test_weight(right)),
        Pred::Or(left, right) => sum(test_weight(left), test_weight(right)),
    }
}

/// The core nodes of a policy.
pub(crate) fn nodes(policy: &Pol) -> u64
    ensures { result ≡ capped (nodes (core_policy policy.now)) }
{
    match policy {
        Pol::Filter(test) => test_nodes(test),
        Pol::Set { .. } | Pol::Change(_) => 1,
        Pol::Par(left, right) => sum(sum(1, nodes(left)), nodes(right)),
        Pol::Seq(first, second) => sum(sum(1, nodes(first)), nodes(second)),
        Pol::If(test, yes, no) => sum(sum(sum(1, test_nodes(test)), nodes(yes)), nodes(no)),
        Pol::Atomic(part) => sum(1, nodes(part)),
    }
}

/// The weight of a policy.
pub(crate) fn weight(policy: &Pol) -> u64
    ensures { result ≡ capped (weight (core_policy policy.now)) }
{
    match policy {
        Pol::Filter(test) => test_weight(test),
        Pol::Set { .. } | Pol::Change(_) => 1,
        Pol::Par(left, right) => product(weight(left), weight(right)),
        Pol::Seq(first, second) => product(weight(first), weight(second)),
        Pol::If(test, yes, no) => sum(sum(test_weight(test), weight(yes)), weight(no)),
        Pol::Atomic(part) => weight(part),
    }
}
