//! The routes to each switch.

ghost use Rattle.std.specs.Prelude.{◌≡◌, ◌<◌, ◌^◌, ℕ, Some, IfErr, IfOk, OnOk, length, map};
ghost use Rattle.snap_topology.specs.Faults.{IsCause};
ghost use Rattle.snap_topology.specs.Graphs.{Adjacent, IsGraph};
ghost use Rattle.snap_topology.specs.Hops.{IsFirstAway, IsFirstUnreached, IsToward};
ghost use Rattle.snap_topology.specs.Tables.{row_in};
ghost use Rattle.snap_topology.specs.Walks.{IsFirstApart};

use crate::graph::Neighbours;
use crate::hops::hops_toward;
use crate::search::distances_to;
use crate::table::{RouteFault, Toward};
use std::alloc::Global;

/// The distances to the target, where each is known.
fn settle(distances: &[Option<u32>], target: u16, known: &mut Vec<u32>) -> Result<(), RouteFault>
    requires { length distances.now < 2 ^ 16 }
    ensures ok { OnOk result (map (λ d. Some d) known.new.items ≡ distances.now) }
    ensures unreached { IfErr result (IsCause (λ a b. (a ≡ target) × IsFirstUnreached distances.now b)) }
{
    known.clear();
    for (switch, distance) in distances.iter().enumerate() {
        let Some(distance) = distance else {
            return Err(RouteFault::Unreachable {
                a: target,
                b: switch as u16,
            });
        };
        known.push(*distance)?;
    }
    Ok(())
}

/// The routes to the target. The last four are room for the search, and what stands in them doesn't count.
fn toward(
    alloc: Global,
    graph: &[Neighbours],
    target: u16,
    distances: &mut [Option<u32>],
    known: &mut Vec<u32>,
    level: &mut Vec<u16>,
    next: &mut Vec<u16>,
) -> Result<Toward, RouteFault>
    requires graph { IsGraph graph.now }
    requires count { length distances.old ≡ length graph.now }
    requires target { target < length graph.now }
    ensures ok { IfOk result (IsToward graph.now target) }
    ensures away { IfErr result (IsCause (λ a b. (a ≡ target) × IsFirstAway graph.now target b)) }
{
    distances_to(graph, target, distances, level, next)?;
    settle(distances, target, known)?;
    Ok(Toward::new(hops_toward(alloc, graph, known.as_slice(), target)?))
}

/// The routes to each switch, or the first two switches that no walk joins.
pub(crate) fn all_routes(alloc: Global, graph: &[Neighbours]) -> Result<Vec<Toward>, RouteFault>
    requires { IsGraph graph.now }
    ensures count { IfOk result (λ rows. length rows.items ≡ length graph.now) }
    ensures rows { IfOk result (λ rows. (b : ℕ) → b < length graph.now → IsToward graph.now b (row_in rows.items b)) }
    ensures apart { IfErr result (IsCause (IsFirstApart (Adjacent graph.now) (length graph.now))) }
{
    let mut distances = vec![in alloc; None; graph.len()]?;
    let mut known = Vec::with_capacity(alloc, graph.len())?;
    let mut level = Vec::with_capacity(alloc, graph.len())?;
    let mut next = Vec::with_capacity(alloc, graph.len())?;
    let mut rows = Vec::with_capacity(alloc, graph.len())?;
    for target in 0..graph.len() {
        rows.push(toward(
            alloc,
            graph,
            target as u16,
            distances.as_mut_slice(),
            &mut known,
            &mut level,
            &mut next,
        )?)?;
    }
    Ok(rows)
}
