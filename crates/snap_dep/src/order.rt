//! The groups of tied variables, in the order of their ranks.

ghost use Rattle.std.specs.Prelude.{◌≡◌, ◌≤◌, ◌<◌, ◌↔◌, ℕ, IsTrue, IfOk, MatchOption, All, length, slice_index};
ghost use Rattle.snap_core.specs.declared.policy.Pol.{Pol};
ghost use Rattle.snap_dep.specs.Dependencies.{Reaches, Tied};
ghost use Rattle.snap_dep.specs.Ranks.{IsGroup, IsRank, IsRankIn, ForChains};
ghost use Rattle.snap_dep.specs.Relations.{IsRelation, IsSetOf, IsFree};

use crate::relation::{are_tied, has_var, only, without};
use snap_core::NoMemory;
use std::alloc::Global;

// Whether a variable is the least of those that are tied to it.
fn is_group(rows: &[u64], var: usize) -> bool
    requires small { length rows.now ≤ 64 }
    requires within { var < length rows.now }
    ensures { (p : Pol) → IsRelation (Reaches p) rows.now → IsTrue result ↔ IsGroup p (length rows.now) var }
{
    for other in 0..var {
        if are_tied(rows, other, var) {
            return false;
        }
    }
    true
}

// The set of the groups, each by its least variable.
fn all_groups(rows: &[u64]) -> u64
    requires { length rows.now ≤ 64 }
    ensures { (p : Pol) → IsRelation (Reaches p) rows.now → IsSetOf (IsGroup p (length rows.now)) result }
{
    let mut groups = 0;
    for var in 0..rows.len() {
        if is_group(rows, var) {
            groups |= only(var);
        }
    }
    groups
}

// Whether a variable of the set is one to which no other of the set is related.
fn is_free(rows: &[u64], set: u64, var: usize) -> bool
    requires small { length rows.now ≤ 64 }
    requires within { var < length rows.now }
    ensures { IsTrue result ↔ IsFree rows.now set var }
{
    has_var(set, var) && rows[var] & without(set, var) == 0
}

// The least such variable.
fn first_free(rows: &[u64], set: u64) -> Option<usize>
    requires { length rows.now ≤ 64 }
    ensures { MatchOption result ((v : ℕ) → v < length rows.now → ¬ (IsFree rows.now set v))
        (λ var. (var < length rows.now) × IsFree rows.now set var × ((v : ℕ) → v < var → ¬ (IsFree rows.now set v))) }
{
    for next in 0..rows.len() {
        if is_free(rows, set, next) {
            return Some(next);
        }
    }
    None
}

// The groups in the order of their ranks.
pub(crate) fn by_rank(alloc: Global, rows: &[u64]) -> Result<Vec<u16>, NoMemory>
    requires { length rows.now ≤ 64 }
    ensures below { IfOk result (λ order. All (λ g. g < length rows.now) order.items) }
    ensures rank { IfOk result (λ order. ForChains rows.now (λ p. IsRank p (length rows.now) order.items)) }
{
    let mut left = all_groups(rows);
    let mut order = Vec::new(alloc);
    while let Some(next) = first_free(rows, left) {
        order.push(next as u16)?;
        left = without(left, next);
    }
    Ok(order)
}

// The place in the order of the group of a variable.
fn rank_in(rows: &[u64], order: &[u16], var: usize) -> usize
    requires small { length rows.now ≤ 64 }
    requires within { var < length rows.now }
    requires below { All (λ g. g < length rows.now) order.now }
    ensures { ForChains rows.now (λ p. IsRank p (length rows.now) order.now
        → (result < length order.now) × Tied p (slice_index order.now result) var) }
{
    for (rank, group) in order.iter().enumerate() {
        if are_tied(rows, *group as usize, var) {
            return rank;
        }
    }
    order.len()
}

// The rank of each variable.
pub(crate) fn ranks(alloc: Global, rows: &[u64], order: &[u16]) -> Result<Vec<usize>, NoMemory>
    requires small { length rows.now ≤ 64 }
    requires below { All (λ g. g < length rows.now) order.now }
    ensures count { IfOk result (λ ranks. length ranks.items ≡ length rows.now) }
    ensures ranks { IfOk result (λ ranks. ForChains rows.now (λ p. IsRank p (length rows.now) order.now
        → IsRankIn p (length rows.now) order.now (slice_index ranks.items))) }
{
    let mut ranks = Vec::with_capacity(alloc, rows.len())?;
    for var in 0..rows.len() {
        ranks.push(rank_in(rows, order, var))?;
    }
    Ok(ranks)
}
