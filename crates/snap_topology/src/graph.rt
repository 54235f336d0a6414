//! A topology as the list of each switch's neighbours.

ghost use Rattle.std.specs.Prelude.{◌≡◌, ◌<◌, ◌↔◌, ℕ, Contains, IfOk, length};
ghost use Rattle.std.specs.List.Sorted.{IsNonDecreasing};
ghost use Rattle.snap_topology.specs.Graphs.{Adjacent, neighbours_of};
ghost use Rattle.snap_topology.specs.Walks.{Linked};

use snap_core::NoMemory;
use snap_core::lists::List;
use std::alloc::Global;

/// The neighbours of a switch, in order.
pub(crate) type Neighbours = List<u16>;

/// The switches to which links join a switch, in order.
fn neighbours_of(alloc: Global, links: &[(u16, u16)], switch: u16) -> Result<Neighbours, NoMemory>
    ensures linked { IfOk result (λ ms. (m : ℕ) → Contains ms m ↔ Linked links.now switch m) }
    ensures rise { IfOk result (λ ms. IsNonDecreasing ms) }
{
    let mut switches = Vec::new(alloc);
    for (a, b) in links {
        if *a == switch {
            switches.push(*b)?;
        }
        if *b == switch {
            switches.push(*a)?;
        }
    }
    switches.sort_unstable();
    Ok(Neighbours::new(switches))
}

/// The neighbours of each of `count` switches.
pub(crate) fn graph(
    alloc: Global,
    links: &[(u16, u16)],
    count: u16,
) -> Result<Vec<Neighbours>, NoMemory>
    ensures count { IfOk result (λ graph. length graph.items ≡ count) }
    ensures linked { IfOk result (λ graph. (a m : ℕ) → a < count → Adjacent graph.items a m ↔ Linked links.now a m) }
    ensures rise { IfOk result (λ graph. (a : ℕ) → a < count → IsNonDecreasing (neighbours_of graph.items a)) }
{
    let mut graph = Vec::with_capacity(alloc, count as usize)?;
    for switch in 0..count {
        graph.push(neighbours_of(alloc, links, switch)?)?;
    }
    Ok(graph)
}
