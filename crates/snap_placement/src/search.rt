//! The search for a placement of least cost.

ghost use Rattle.std.specs.Prelude.{◌≡◌, ◌≤◌, ◌<◌, ◌^◌, ◌∷◌, ℕ, All, IfOk, length, slice_index};
ghost use Rattle.snap_dep.specs.Ranks.{rank_of};
ghost use Rattle.snap_topology.specs.Form.{IsWellFormed};
ghost use Rattle.snap_topology.specs.Tables.{AreRoutes, distance_of, switch_count};
ghost use Rattle.snap_placement.specs.Costs.{cost_of};
ghost use Rattle.snap_placement.specs.Placements.{AreGroups, IsBestOf, IsDemand, places_of};
ghost use Rattle.snap_placement.specs.Steps.{AreNear, Follows, IsBest, choices, over, path};

use crate::best::{Best, Owners};
use crate::demand::{Allowed, Demand, Switches};
use crate::plan::{PlacementPlan, cheapest, over, plan_ways};
use crate::price::{direct_cost, end_costs};
use crate::trips::{End, Trip, total_weight, trips};
use snap_core::NoMemory;
use snap_dep::groups::Groups;
use snap_topology::table::Routes;
use snap_topology::topology::Topology;
use std::alloc::Global;

/// The switch of each group, by rank, and what the placement costs.
#[derive(Drop)]
struct Stops {
    cost: u64,
    switches: Vec<u16>,
}

/// The next switch from a switch.
fn next(stage: &Switches, at: u16) -> u16
    requires { at < length stage.now }
    ensures { result ≡ slice_index stage.now at }
{
    stage.items()[at as usize]
}

/// The way from a switch through the next ones.
fn follow(alloc: Global, first: u16, nexts: &[Switches]) -> Result<Vec<u16>, NoMemory>
    requires { Follows nexts.now first }
    ensures { IfOk result (λ way. way.items ≡ first ∷ path nexts.now first) }
{
    let mut way = vec![in alloc; first; 1]?;
    let mut at = first;
    for stage in nexts {
        at = next(stage, at);
        way.push(at)?;
    }
    Ok(way)
}

/// The stops of the way from a first switch, with what it costs to go on over that one.
fn stops_from(
    alloc: Global,
    near: &[u64],
    plan: &PlacementPlan,
    first: u16,
) -> Result<Stops, NoMemory>
    requires near { first < length near.now }
    requires onward { first < length plan.now.costs.items }
    requires fits { over near.now plan.now.costs.items first < 2 ^ 64 }
    requires rows { Follows plan.now.nexts.items first }
    ensures way { IfOk result (λ found. found.switches.items ≡ first ∷ path plan.now.nexts.items first) }
    ensures cost { IfOk result (λ found. found.cost ≡ over near.now plan.now.costs.items first) }
{
    let cost = over(near, &plan.costs, first);
    let switches = follow(alloc, first, &plan.nexts)?;
    Ok(Stops { cost, switches })
}

/// The best switches for the groups, of which there is at least one.
fn best_stops(
    alloc: Global,
    routes: &Routes,
    trips: &[Trip],
    order: &[u16],
    allowed: &Allowed,
    count: u16,
) -> Result<Stops, NoMemory>
    requires few { length trips.now ≤ 2 ^ 16 }
    requires from { All (λ t. t.from < count) trips.now }
    requires to { All (λ t. t.to < count) trips.now }
    requires some { 1 ≤ length order.now }
    requires groups { length order.now ≤ 64 }
    requires arrays { All (λ v. v < length allowed.now) order.now }
    requires places { All (λ v. 1 ≤ length (places_of allowed.now v)) order.now }
    requires below { All (λ v. All (λ m. m < count) (places_of allowed.now v)) order.now }
    requires count { count ≡ switch_count routes.now }
    requires switches { count ≤ 2 ^ 8 }
    requires near { AreNear routes.now }
    ensures best { IfOk result (λ found. IsBest (cost_of (distance_of routes.now) trips.now) (choices order.now allowed.now) found.switches.items) }
    ensures cost { IfOk result (λ found. found.cost ≡ cost_of (distance_of routes.now) trips.now found.switches.items) }
{
    let total = total_weight(trips);
    let near = end_costs(alloc, routes, trips, End::From, count)?;
    let plan = plan_ways(alloc, routes, trips, total, order, allowed, count)?;
    let first = cheapest(allowed.of(order[0]), &near, &plan.costs);
    stops_from(alloc, &near, &plan, first)
}

/// The switch of each variable, where each group has its switch.
fn owners(alloc: Global, groups: &Groups, stops: &[u16]) -> Result<Vec<u16>, NoMemory>
    requires { length stops.now ≡ length groups.now.order }
    ensures count { IfOk result (λ owners. length owners.items ≡ length groups.now.ranks) }
    ensures each { IfOk result (λ owners. (v : ℕ) → v < length groups.now.ranks → slice_index owners.items v ≡ slice_index stops.now (rank_of groups.now v)) }
{
    let mut owners = Vec::new(alloc);
    for var in 0..groups.count() {
        owners.push(stops[groups.rank(var as u16)])?;
    }
    Ok(owners)
}

/// The switches of the groups; where there are none, the flows go straight.
fn all_stops(
    alloc: Global,
    routes: &Routes,
    trips: &[Trip],
    order: &[u16],
    allowed: &Allowed,
    count: u16,
) -> Result<Stops, NoMemory>
    requires few { length trips.now ≤ 2 ^ 16 }
    requires from { All (λ t. t.from < count) trips.now }
    requires to { All (λ t. t.to < count) trips.now }
    requires groups { length order.now ≤ 64 }
    requires arrays { All (λ v. v < length allowed.now) order.now }
    requires places { All (λ v. 1 ≤ length (places_of allowed.now v)) order.now }
    requires below { All (λ v. All (λ m. m < count) (places_of allowed.now v)) order.now }
    requires count { count ≡ switch_count routes.now }
    requires switches { count ≤ 2 ^ 8 }
    requires near { AreNear routes.now }
    ensures best { IfOk result (λ found. IsBest (cost_of (distance_of routes.now) trips.now) (choices order.now allowed.now) found.switches.items) }
    ensures cost { IfOk result (λ found. found.cost ≡ cost_of (distance_of routes.now) trips.now found.switches.items) }
{
    if order.is_empty() {
        return Ok(Stops {
            cost: direct_cost(routes, trips),
            switches: Vec::new(alloc),
        });
    }
    best_stops(alloc, routes, trips, order, allowed, count)
}

/// The allowed placement of least cost, and of several the one whose list of switches, by rank, is first.
///
/// The groups are those of a program, the routes those of the topology, and the demand is for both, as `read_demand` gives it.
/// The cost of a placement is the sum over the flows of weight times length, where a flow goes from its first port through the
/// switches of all groups, by rank, to its second port. Refuses for memory alone.
pub fn seek(
    alloc: Global,
    groups: &Groups,
    topology: &Topology,
    routes: &Routes,
    demand: &Demand,
) -> Result<Best, NoMemory>
    requires groups { AreGroups groups.now }
    requires form { IsWellFormed topology.now }
    requires routes { AreRoutes topology.now routes.now }
    requires demand { IsDemand groups.now topology.now demand.now }
    ensures { IfOk result (IsBestOf groups.now topology.now routes.now demand.now) }
{
    let _arrays = groups.count();
    let count = topology.switches.items().len() as u16;
    let trips = trips(alloc, topology.ports.items(), demand.flows.items())?;
    let found = all_stops(
        alloc,
        routes,
        &trips,
        groups.order(),
        &demand.allowed,
        count,
    )?;
    let owners = owners(alloc, groups, &found.switches)?;
    Ok(Best {
        cost: found.cost,
        owners: Owners::new(owners),
    })
}
