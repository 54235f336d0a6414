//! The best way on from each switch, rank by rank from the last.

ghost use Rattle.std.specs.Prelude.{◌≡◌, ◌≤◌, ◌+◌, ◌*◌, ◌<◌, ◌^◌, ℕ, All, Contains, IfOk, drop, length, slice_index};
ghost use Rattle.std.specs.List.{sum_by};
ghost use Rattle.snap_topology.specs.Tables.{distance_of, switch_count};
ghost use Rattle.snap_placement.specs.Placements.{places_of};
ghost use Rattle.snap_placement.specs.Steps.{AreNear, IsCheapest, IsPlan, IsStage, choices, cost_over, is_before, is_cheaper, over};

use crate::demand::{Allowed, Switches};
use crate::price::end_costs;
use crate::trips::{End, Trip};
use snap_core::NoMemory;
use snap_topology::table::Routes;
use std::alloc::Global;

/// The next switch from each switch, and what the way on from there costs.
#[derive(Drop)]
pub(crate) struct RankPlan {
    pub(crate) nexts: Switches,
    pub(crate) costs: Vec<u64>,
}

/// The next switch from each switch, rank by rank, and what the whole way on costs.
#[derive(Drop)]
pub(crate) struct PlacementPlan {
    pub(crate) nexts: Vec<Switches>,
    pub(crate) costs: Vec<u64>,
}

/// The cost of going on over a switch.
pub(crate) fn over(near: &[u64], onward: &[u64], at: u16) -> u64
    requires near { at < length near.now }
    requires onward { at < length onward.now }
    requires fits { over near.now onward.now at < 2 ^ 64 }
    ensures { result ≡ over near.now onward.now at }
{
    near[at as usize] + onward[at as usize]
}

/// Whether a switch comes before another, by what they cost and then by number.
fn is_before(cost: u64, other_cost: u64, switch: u16, other: u16) -> bool
    ensures { result ≡ is_before cost other_cost switch other }
{
    cost < other_cost || (cost == other_cost && switch < other)
}

fn is_cheaper(near: &[u64], onward: &[u64], a: u16, b: u16) -> bool
    requires near_a { a < length near.now }
    requires onward_a { a < length onward.now }
    requires fits_a { over near.now onward.now a < 2 ^ 64 }
    requires near_b { b < length near.now }
    requires onward_b { b < length onward.now }
    requires fits_b { over near.now onward.now b < 2 ^ 64 }
    ensures { result ≡ is_cheaper (over near.now onward.now) a b }
{
    is_before(over(near, onward, a), over(near, onward, b), a, b)
}

/// The cheapest of some switches, and the one of least number among the cheapest.
pub(crate) fn cheapest(switches: &[u16], near: &[u64], onward: &[u64]) -> u16
    requires some { 1 ≤ length switches.now }
    requires near { (m : ℕ) → Contains switches.now m → m < length near.now }
    requires onward { (m : ℕ) → Contains switches.now m → m < length onward.now }
    requires fits { (m : ℕ) → Contains switches.now m → over near.now onward.now m < 2 ^ 64 }
    ensures { IsCheapest (over near.now onward.now) switches.now result }
{
    let mut best = switches[0];
    for switch in switches {
        if is_cheaper(near, onward, *switch, best) {
            best = *switch;
        }
    }
    best
}

/// The cost of going from a switch on over another, where a unit of distance costs `total`.
fn cost_over(routes: &Routes, total: u64, onward: &[u64], at: u16, to: u16) -> u64
    requires total { total < 2 ^ 48 }
    requires at { at < switch_count routes.now }
    requires to { to < switch_count routes.now }
    requires onward { length onward.now ≡ switch_count routes.now }
    requires fits { slice_index onward.now to ≤ 2 ^ 63 }
    requires near { AreNear routes.now }
    ensures { result ≡ cost_over routes.now total onward.now at to }
{
    total * u64::from(routes.distance(at, to)) + onward[to as usize]
}

/// The cheapest next switch from a switch, and what the way on over it costs.
fn next_from(routes: &Routes, at: u16, allowed: &[u16], total: u64, onward: &[u64]) -> (u16, u64)
    requires total { total < 2 ^ 48 }
    requires at { at < switch_count routes.now }
    requires some { 1 ≤ length allowed.now }
    requires allowed { All (λ m. m < switch_count routes.now) allowed.now }
    requires onward { length onward.now ≡ switch_count routes.now }
    requires fits { (x : ℕ) → x < switch_count routes.now → slice_index onward.now x ≤ 2 ^ 63 }
    requires near { AreNear routes.now }
    ensures next { IsCheapest (cost_over routes.now total onward.now at) allowed.now result.0 }
    ensures cost { result.1 ≡ cost_over routes.now total onward.now at result.0 }
{
    let mut best = allowed[0];
    let mut least = cost_over(routes, total, onward, at, best);
    for switch in allowed {
        let cost = cost_over(routes, total, onward, at, *switch);
        if is_before(cost, least, *switch, best) {
            best = *switch;
            least = cost;
        }
    }
    (best, least)
}

/// The cheapest next switch from each switch.
fn stage_before(
    alloc: Global,
    routes: &Routes,
    allowed: &[u16],
    total: u64,
    onward: &[u64],
    count: u16,
) -> Result<RankPlan, NoMemory>
    requires total { total < 2 ^ 48 }
    requires some { 1 ≤ length allowed.now }
    requires allowed { All (λ m. m < count) allowed.now }
    requires onward { length onward.now ≡ count }
    requires fits { (x : ℕ) → x < count → slice_index onward.now x ≤ 2 ^ 63 }
    requires count { count ≡ switch_count routes.now }
    requires near { AreNear routes.now }
    ensures { IfOk result (λ made. IsStage routes.now total count allowed.now onward.now made.nexts made.costs.items) }
{
    let mut nexts = Vec::with_capacity(alloc, count as usize)?;
    let mut costs = Vec::with_capacity(alloc, count as usize)?;
    for at in 0..count {
        let (next, cost) = next_from(routes, at, allowed, total, onward);
        nexts.push(next)?;
        costs.push(cost)?;
    }
    Ok(RankPlan {
        nexts: Switches::new(nexts),
        costs,
    })
}

/// The best way on from each switch, behind the first of the groups. The trips weigh `total`.
pub(crate) fn plan_ways(
    alloc: Global,
    routes: &Routes,
    trips: &[Trip],
    total: u64,
    order: &[u16],
    allowed: &Allowed,
    count: u16,
) -> Result<PlacementPlan, NoMemory>
    requires total { total ≡ sum_by (λ t. t.weight) trips.now }
    requires light { total < 2 ^ 48 }
    requires few { length trips.now ≤ 2 ^ 16 }
    requires ends { All (λ t. t.to < count) trips.now }
    requires some { 1 ≤ length order.now }
    requires groups { length order.now ≤ 64 }
    requires arrays { All (λ v. v < length allowed.now) order.now }
    requires places { All (λ v. 1 ≤ length (places_of allowed.now v)) order.now }
    requires below { All (λ v. All (λ m. m < count) (places_of allowed.now v)) order.now }
    requires count { count ≡ switch_count routes.now }
    requires switches { count ≤ 2 ^ 8 }
    requires near { AreNear routes.now }
    ensures plan { IfOk result (λ plan. IsPlan (distance_of routes.now) trips.now (drop 1 (choices order.now allowed.now)) count plan.nexts.items plan.costs.items) }
    ensures small { IfOk result (λ plan. (x : ℕ) → x < count → slice_index plan.costs.items x ≤ 2 ^ 63) }
{
    let mut nexts = Vec::new(alloc);
    let mut costs = end_costs(alloc, routes, trips, End::To, count)?;
    let mut left = order.len();
    'ranks: while left > 1 {
        left -= 1;
        let made = stage_before(alloc, routes, allowed.of(order[left]), total, &costs, count)?;
        nexts.insert(0, made.nexts)?;
        costs = made.costs;
    }
    Ok(PlacementPlan { nexts, costs })
}
