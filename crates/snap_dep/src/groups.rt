//! Groups of tied variables.

ghost use Rattle.std.specs.Prelude.{◌≡◌, ◌==◌, ◌<◌, ◌≤◌, All, length, slice_index};
ghost use Rattle.snap_dep.specs.Ranks.{rank_of};
ghost use Rattle.snap_dep.specs.Relations.{IsSetOf};

use crate::relation::only;
use std::marker::Model;

/// The groups of a program's variables, in the order of their ranks. A group goes by the least of its variables.
#[derive(Drop)]
pub struct Groups {
    ranks: Vec<usize>,
    order: Vec<u16>,
}

impl Model for Groups {
    ghost use Rattle.snap_dep.specs.Ranks.{Grouping, IsRanked};

    ghost Value = { Grouping };

    ghost view = { λ a. record { ranks = a.ranks.items; order = a.order.items } };

    ghost invariant = { λ a. IsRanked (record { ranks = a.ranks.items; order = a.order.items }) };
}

impl Groups {
    ghost use Rattle.snap_dep.specs.Ranks.{IsRanked};

    // The ranks of at most 64 variables, and the groups.
    pub(crate) fn new(ranks: Vec<usize>, order: Vec<u16>) -> Groups
        requires few { length ranks.items ≤ 64 }
        requires below { All (λ rank. rank < length order.items) ranks.items }
        ensures { result ≡ record { ranks = ranks.items; order = order.items } }
    {
        Groups { ranks, order }
    }

    /// The number of variables, at most 64.
    pub fn count(&self) -> usize
        ensures count { result ≡ length self.now.ranks }
        ensures ranked { IsRanked self.now }
    {
        self.ranks.len()
    }

    /// The groups in the order of their ranks, each by the least of its variables.
    pub fn order(&self) -> &[u16]
        ensures { result.now ≡ self.now.order }
    {
        &self.order
    }

    /// The rank of a variable: the place of its group in the order.
    pub fn rank(&self, var: u16) -> usize
        requires { var < length self.now.ranks }
        ensures rank { result ≡ rank_of self.now var }
        ensures below { result < length self.now.order }
    {
        self.ranks[var as usize]
    }

    /// The group of a variable.
    pub fn group(&self, var: u16) -> u16
        requires { var < length self.now.ranks }
        ensures { result ≡ slice_index self.now.order (rank_of self.now var) }
    {
        self.order[self.ranks[var as usize]]
    }

    /// Whether two variables are in one group.
    pub fn tied(&self, a: u16, b: u16) -> bool
        requires a_within { a < length self.now.ranks }
        requires b_within { b < length self.now.ranks }
        ensures { result ≡ (rank_of self.now a == rank_of self.now b) }
    {
        self.ranks[a as usize] == self.ranks[b as usize]
    }

    /// The variables of a rank, a bit each.
    pub fn members(&self, rank: usize) -> u64
        ensures { IsSetOf (λ v. (v < length self.now.ranks) × (rank_of self.now v ≡ rank)) result }
    {
        let ranks = &self.ranks;
        let mut members = 0;
        for var in 0..ranks.len() {
            if ranks[var] == rank {
                members |= only(var);
            }
        }
        members
    }
}
