//! What trips cost up to the first group and after the last one, summed by switch.

ghost use Rattle.std.specs.Prelude.{◌≡◌, ◌≤◌, ◌*◌, ◌<◌, ◌^◌, ℕ, All, IfOk, [], length, slice_index};
ghost use Rattle.std.specs.List.{sum_by};
ghost use Rattle.snap_topology.specs.Tables.{distance_of, switch_count};
ghost use Rattle.snap_placement.specs.Costs.{cost_of};
ghost use Rattle.snap_placement.specs.Steps.{AreNear, end_of, leg, weighed};

use crate::trips::{End, Trip};
use snap_core::NoMemory;
use snap_topology::table::Routes;
use std::alloc::Global;

/// The weights of the trips, summed by the switch of one end.
fn summed(alloc: Global, trips: &[Trip], end: End, count: usize) -> Result<Vec<u64>, NoMemory>
    requires few { length trips.now ≤ 2 ^ 16 }
    requires below { All (λ t. end_of end t < count) trips.now }
    ensures count { IfOk result (λ sums. length sums.items ≡ count) }
    ensures sums { IfOk result (λ sums. (f : ℕ → ℕ) → weighed f 0 sums.items ≡ sum_by (λ t. t.weight * f (end_of end t)) trips.now) }
{
    let mut sums = vec![in alloc; 0u64; count]?;
    for trip in trips {
        let at = trip.end(end) as usize;
        sums[at] += trip.load();
    }
    Ok(sums)
}

/// The distance between an end of trips and a switch, in the direction of the trips.
fn leg(routes: &Routes, end: End, at: u16, switch: u16) -> u32
    requires at { at < switch_count routes.now }
    requires switch { switch < switch_count routes.now }
    ensures { result ≡ leg routes.now end at switch }
{
    match end {
        End::From => routes.distance(at, switch),
        End::To => routes.distance(switch, at),
    }
}

/// What sums of weights cost from, or to, one switch.
fn cost_at(routes: &Routes, end: End, sums: &[u64], switch: u16) -> u64
    requires count { length sums.now ≡ switch_count routes.now }
    requires few { length sums.now ≤ 2 ^ 8 }
    requires switch { switch < switch_count routes.now }
    requires fits { weighed (λ at. leg routes.now end at switch) 0 sums.now < 2 ^ 64 }
    ensures { result ≡ weighed (λ at. leg routes.now end at switch) 0 sums.now }
{
    let mut cost = 0;
    for (at, weight) in sums.iter().enumerate() {
        cost += *weight * u64::from(leg(routes, end, at as u16, switch));
    }
    cost
}

/// What the trips cost from where they begin to each switch, or from each switch to where they end.
pub(crate) fn end_costs(
    alloc: Global,
    routes: &Routes,
    trips: &[Trip],
    end: End,
    count: u16,
) -> Result<Vec<u64>, NoMemory>
    requires few { length trips.now ≤ 2 ^ 16 }
    requires weight { sum_by (λ t. t.weight) trips.now < 2 ^ 48 }
    requires below { All (λ t. end_of end t < count) trips.now }
    requires count { count ≡ switch_count routes.now }
    requires switches { count ≤ 2 ^ 8 }
    requires near { AreNear routes.now }
    ensures count { IfOk result (λ costs. length costs.items ≡ count) }
    ensures small { IfOk result (λ costs. (at : ℕ) → at < count → slice_index costs.items at ≤ 2 ^ 56) }
    ensures costs { IfOk result (λ costs. (at : ℕ) → at < count → slice_index costs.items at ≡ sum_by (λ t. t.weight * leg routes.now end (end_of end t) at) trips.now) }
{
    let sums = summed(alloc, trips, end, count as usize)?;
    let mut costs = Vec::new(alloc);
    for switch in 0..count {
        costs.push(cost_at(routes, end, &sums, switch))?;
    }
    Ok(costs)
}

/// What the trips cost where nothing stands between.
pub(crate) fn direct_cost(routes: &Routes, trips: &[Trip]) -> u64
    requires few { length trips.now ≤ 2 ^ 16 }
    requires from { All (λ t. end_of End.From t < switch_count routes.now) trips.now }
    requires to { All (λ t. end_of End.To t < switch_count routes.now) trips.now }
    requires near { AreNear routes.now }
    ensures { result ≡ cost_of (distance_of routes.now) trips.now [] }
{
    let mut cost = 0;
    for trip in trips {
        cost += u64::from(trip.weight) * u64::from(routes.distance(trip.from, trip.to));
    }
    cost
}
