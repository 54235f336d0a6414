//! How many packets each rank has handled, and the visits that are in order by that.

ghost use Rattle.std.specs.Prelude.{◌≡◌, ◌≤◌, ◌==◌, get_or, length};
ghost use Rattle.snap_runs.specs.Tallies.{IsThere};
ghost use Rattle.snap_order.specs.Turning.{HasCounted, behind_after, fate_behind, first_of, next_rank};

use snap_net::happened::Moved;
use snap_net::net::Net;
use snap_rows::admit::Admit;
use snap_rows::head::{Fate, Head};
use snap_rows::valid::Valid;

/// How many packets a rank has handled.
pub(crate) fn handled(counts: &[u64], rank: u16) -> u64
    ensures { result ≡ get_or counts.now rank 0 }
{
    match counts.get(rank as usize) {
        Some(count) => *count,
        None => 0,
    }
}

/// Counts so many packets at the ranks from one on that are below another.
pub(crate) fn count(counts: &mut Vec<u64>, rank: u16, behind: u16, number: u64)
    requires order { rank ≤ behind }
    requires within { behind ≤ length counts.old.items }
    ensures { HasCounted counts.old.items rank behind number counts.new.items }
{
    for j in rank..behind {
        counts[j as usize] = number;
    }
}

/// Admits the visits of a packet that are in order: of each rank that has handled just the packets before it.
#[derive(Clone, Copy)]
pub(crate) struct InOrder<'a> {
    pub counts: &'a [u64],
    pub number: u64,
}

impl<'a> Admit for InOrder<'a> {
    ghost admits = { λ a rank. get_or a.counts.now rank 0 == a.number };

    #[inline(always)]
    fn admits(&self, rank: u16) -> bool {
        handled(self.counts, rank) == self.number
    }
}

/// The rank of the visit to which a head comes first, or behind all.
pub(crate) fn first_rank(tables: &Valid, head: Head) -> u16
    ensures { result ≡ first_of tables.now head }
{
    match head {
        Head::Walk { .. } => 0,
        Head::Visit { rank, .. } => rank,
        Head::Stage { .. } => tables.ranks(),
        Head::Out { .. } => tables.ranks(),
    }
}

/// The rank for whose visit a head goes on, or else this one.
pub(crate) fn next_rank(first: u16, head: Head) -> u16
    ensures { result ≡ next_rank first head }
{
    match head {
        Head::Visit { rank, .. } => rank,
        Head::Walk { .. } => first,
        Head::Stage { .. } => first,
        Head::Out { .. } => first,
    }
}

/// The rank behind the visits that copy k has made in a step from a rank on.
pub(crate) fn rank_behind(net: &Net, k: usize, first: u16, moved: &Moved) -> u16
    requires { IsThere net.now.flying k moved.now }
    ensures { result ≡ behind_after net.now.tables first net.now.flying k moved.now }
{
    match moved {
        Moved::Forwarded { .. } => next_rank(first, net.copy(k).head),
        Moved::Delivered { .. } => first,
        Moved::Forked { .. } => net.tables().ranks(),
        Moved::Stayed { rank, .. } => *rank,
        Moved::Waited { .. } => first,
    }
}

/// The rank behind the visits of a step from a rank on, of which this came.
pub(crate) fn fate_behind(tables: &Valid, first: u16, fate: Fate<'_>) -> u16
    ensures { result ≡ fate_behind tables.now first fate.entry }
{
    match fate {
        Fate::Seek { target: _, head } => next_rank(first, head),
        Fate::Deliver { .. } => first,
        Fate::Fork { .. } => tables.ranks(),
        Fate::Stay { rank, .. } => rank,
        Fate::Wait { .. } => first,
    }
}
