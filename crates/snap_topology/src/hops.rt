//! Next hops towards a switch.

ghost use Rattle.std.specs.Prelude.{◌≡◌, ◌⊎◌, ◌<◌, ◌≤◌, ℕ, Contains, IfOk, MatchOption, length};
ghost use Rattle.std.specs.List.Sorted.{IsNonDecreasing};
ghost use Rattle.snap_topology.specs.Graphs.{IsGraph};
ghost use Rattle.snap_topology.specs.Hops.{AreDistances, HasDistance, IsLeastNearer, IsToward, NoneNearer};
ghost use Rattle.snap_topology.specs.Tables.{row_by};

use crate::graph::Neighbours;
use crate::table::Toward;
use snap_core::NoMemory;
use std::alloc::Global;

/// Of some switches in order the first that is nearer than a distance.
fn first_nearer(switches: &[u16], distances: &[u32], distance: u32) -> Option<u16>
    requires below { (m : ℕ) → Contains switches.now m → m < length distances.now }
    requires rise { IsNonDecreasing switches.now }
    ensures { MatchOption result (NoneNearer switches.now distances.now distance) (IsLeastNearer switches.now distances.now distance) }
{
    for switch in switches {
        if distances[*switch as usize] < distance {
            return Some(*switch);
        }
    }
    None
}

/// The distance of each switch to the target with its next hop, and that of the target itself.
///
/// Neighbours differ by at most one in their distances, so the first that is nearer is the nearest.
pub(crate) fn hops_toward(
    alloc: Global,
    graph: &[Neighbours],
    distances: &[u32],
    target: u16,
) -> Result<Vec<(u32, u16)>, NoMemory>
    requires graph { IsGraph graph.now }
    requires distances { AreDistances graph.now target distances.now }
    ensures { IfOk result (λ hops. IsToward graph.now target (row_by hops.items)) }
{
    let mut hops = Vec::with_capacity(alloc, graph.len())?;
    for (at, neighbours) in graph.iter().enumerate() {
        let distance = distances[at];
        let next = first_nearer(neighbours.items(), distances, distance).unwrap_or(target);
        hops.push((distance, next))?;
    }
    Ok(hops)
}

/// The greatest of the distances of some hops.
pub(crate) fn greatest(hops: &[(u32, u16)]) -> u32
    ensures reached { (result ≡ 0) ⊎ Contains (row_by hops.now).distances result }
    ensures bound { (d : ℕ) → Contains (row_by hops.now).distances d → d ≤ result }
{
    let mut most = 0;
    for (distance, _) in hops {
        most = most.max(*distance);
    }
    most
}

/// The greatest distance of some rows.
pub(crate) fn diameter_of(rows: &[Toward]) -> u32
    ensures reached { (result ≡ 0) ⊎ HasDistance rows.now result }
    ensures bound { (d : ℕ) → HasDistance rows.now d → d ≤ result }
{
    let mut most = 0;
    for row in rows {
        most = most.max(greatest(row.hops()));
    }
    most
}
