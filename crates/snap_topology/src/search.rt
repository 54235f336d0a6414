//! The distances to a switch, by levels.

ghost use Rattle.std.specs.Prelude.{◌≡◌, ◌<◌, ◌≤◌, ◌+◌, ℕ, [], All, Contains, IfOk, length};
ghost use Rattle.std.specs.List.{flat_map};
ghost use Rattle.snap_topology.specs.Graphs.{IsGraph, neighbours_of};
ghost use Rattle.snap_topology.specs.Search.{Reaches, Settles, unreached};

use crate::graph::Neighbours;
use snap_core::NoMemory;
use std::mem;

/// Reaches those of some switches that were not reached, at this distance, and adds them to the level.
fn reach(
    switches: &[u16],
    distance: u32,
    distances: &mut [Option<u32>],
    level: &mut Vec<u16>,
) -> Result<(), NoMemory>
    requires { All (λ v. v < length distances.old) switches.now }
    ensures { IfOk result (λ _. Reaches switches.now distance distances.old distances.new level.old.items level.new.items) }
{
    for switch in switches {
        let at = *switch as usize;
        if distances[at].is_none() {
            distances[at] = Some(distance);
            level.push(*switch)?;
        }
    }
    Ok(())
}

/// Reaches the switches next to a level, and leaves them alone in the next level. Of the others at most `left` are not
/// reached, so once there are as many in the next level no more is looked for.
fn next_level(
    graph: &[Neighbours],
    level: &[u16],
    distance: u32,
    left: usize,
    distances: &mut [Option<u32>],
    next: &mut Vec<u16>,
) -> Result<(), NoMemory>
    requires graph { IsGraph graph.now }
    requires count { length distances.old ≡ length graph.now }
    requires level { (v : ℕ) → Contains level.now v → v < length graph.now }
    requires left { unreached distances.old ≤ left }
    ensures { IfOk result (λ _. Reaches (flat_map (neighbours_of graph.now) level.now) distance distances.old distances.new [] next.new.items) }
{
    next.clear();
    for switch in level {
        if next.len() < left {
            let switches = graph[*switch as usize].items();
            reach(switches, distance, distances, next)?;
        }
    }
    Ok(())
}

/// The distance of each switch to the target, or `None` where no walk leads there. The two lists are room for the
/// search; what stands in them and in the distances doesn't count.
pub(crate) fn distances_to(
    graph: &[Neighbours],
    target: u16,
    distances: &mut [Option<u32>],
    level: &mut Vec<u16>,
    next: &mut Vec<u16>,
) -> Result<(), NoMemory>
    requires graph { IsGraph graph.now }
    requires count { length distances.old ≡ length graph.now }
    requires target { target < length graph.now }
    ensures { IfOk result (λ _. Settles graph.now target distances.new) }
{
    distances.fill(None);
    let mut distance = 0;
    level.clear();
    reach(&[target], distance, distances, level)?;
    let mut left = graph.len() - level.len();
    'levels: while !level.is_empty() {
        distance += 1;
        next_level(graph, level.as_slice(), distance, left, distances, next)?;
        left -= next.len();
        mem::swap(level, next);
    }
    Ok(())
}
