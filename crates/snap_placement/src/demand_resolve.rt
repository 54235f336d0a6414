//! The demand of a listing, or its first fault.

ghost use Rattle.std.specs.Prelude.{◌≡◌, ◌<◌, ◌≤◌, ◌^◌, ℕ, Err, IfOk, MatchResult, None, Ok, Some, [], length, map, slice_index_or};
ghost use Rattle.std.specs.List.{IsDistinct};
ghost use Rattle.std.specs.List.Sorted.{IsStrictlySortedBy};
ghost use Rattle.std.specs.Ordering.{nat_cmp};
ghost use Rattle.std.specs.Str.{bytes_eq};
ghost use Rattle.snap_core.specs.declared.ports.PortAt.{PortAt};
ghost use Rattle.snap_placement.specs.declared.demand.Demand.{Demand};
ghost use Rattle.snap_placement.specs.declared.demand.DemandFault.{DemandFault};
ghost use Rattle.snap_placement.specs.DemandAnswer.{no_port, no_switch, no_variable, too_many, Answers, IsAnswerFor, Tells};
ghost use Rattle.snap_placement.specs.Faults.{AnswersWith, FindsPlaces, KnowsParts};
ghost use Rattle.snap_placement.specs.DemandListing.{entry_texts, spelled_by};
ghost use Rattle.snap_placement.specs.Marks.{AreMarks};

use crate::demand::{Allowed, Demand, DemandFault, Flow, Flows, MOST_DEMANDS, Switches};
use crate::demand_listing::{AllowedAt, DemandListing};
use crate::marks::{Marks, all_marks, all_places, numbers_of};
use crate::trips::switch_at;
use snap_core::lists::Name;
use snap_core::ports::PortAt;
use snap_core::program::Which;
use snap_dep::groups::Groups;
use snap_topology::names::is_among;
use std::alloc::Global;

/// Refuses too many flows.
fn within_limit(flows: &[Flow]) -> Result<(), DemandFault>
    ensures { MatchResult result (λ _. too_many flows.now ≡ None) (λ e. too_many flows.now ≡ Some e) }
{
    let count = flows.len();
    if count > MOST_DEMANDS {
        return Err(DemandFault::Limit {
            which: Which::Demands,
            count: count as u64,
        });
    }
    Ok(())
}

/// Refuses a port that isn't there. The ports rise.
fn known_ports(ports: &[PortAt], flows: &[Flow]) -> Result<(), DemandFault>
    requires { IsStrictlySortedBy nat_cmp (map (λ (p : PortAt). p.port) ports.now) }
    ensures { MatchResult result (λ _. no_port ports.now flows.now ≡ None) (λ e. no_port ports.now flows.now ≡ Some e) }
{
    for flow in flows {
        if switch_at(ports, flow.from).is_none() {
            return Err(DemandFault::NoPort { port: flow.from });
        }
        if switch_at(ports, flow.to).is_none() {
            return Err(DemandFault::NoPort { port: flow.to });
        }
    }
    Ok(())
}

/// Refuses a name that is no array.
fn known_names(alloc: Global, arrays: &[Name], entries: &[AllowedAt]) -> Result<(), DemandFault>
    ensures { Tells (no_variable arrays.now (entry_texts entries.now)) result }
{
    for entry in entries {
        if !is_among(arrays, entry.name.as_bytes()) {
            return Err(DemandFault::NoVariable {
                name: Name::of(alloc, entry.name.as_bytes())?,
            });
        }
    }
    Ok(())
}

/// Refuses the first fault of flows and entries, switch names aside.
fn all_known(
    alloc: Global,
    flows: &[Flow],
    entries: &[AllowedAt],
    arrays: &[Name],
    ports: &[PortAt],
) -> Result<(), DemandFault>
    requires { IsStrictlySortedBy nat_cmp (map (λ (p : PortAt). p.port) ports.now) }
    ensures { KnowsParts ports.now arrays.now flows.now (entry_texts entries.now) result }
{
    within_limit(flows)?;
    known_ports(ports, flows)?;
    known_names(alloc, arrays, entries)
}

/// Marks where each array may stand, by the entries and the switches' names.
fn marks_of(
    alloc: Global,
    entries: &[AllowedAt],
    arrays: &[Name],
    switches: &[Name],
) -> Result<Vec<Marks>, DemandFault>
    requires { IsDistinct bytes_eq switches.now }
    ensures count { IfOk result (λ marks. length marks.items ≡ length arrays.now) }
    ensures widths { IfOk result (λ marks. (v : ℕ) → v < length arrays.now → length (slice_index_or marks.items v []) ≡ length switches.now) }
    ensures marks { IfOk result (λ marks. AreMarks (length switches.now) switches.now arrays.now (entry_texts entries.now) marks.items) }
    ensures fault { Tells (no_switch switches.now arrays.now (entry_texts entries.now)) result }
{
    let numbers = numbers_of(alloc, switches)?;
    all_marks(alloc, &numbers, entries, arrays, switches.len())
}

/// The switches at which each variable's group may stand, by the entries.
fn places_of(
    alloc: Global,
    entries: &[AllowedAt],
    arrays: &[Name],
    groups: &Groups,
    switches: &[Name],
) -> Result<Vec<Switches>, DemandFault>
    requires names { IsDistinct bytes_eq switches.now }
    requires switches { length switches.now ≤ 2 ^ 8 }
    requires count { length groups.now.ranks ≡ length arrays.now }
    ensures { FindsPlaces groups.now arrays.now switches.now (entry_texts entries.now) result }
{
    let marks = marks_of(alloc, entries, arrays, switches)?;
    all_places(alloc, groups, &marks, switches.len())
}

/// The switches at which each variable's group may stand, where a listing has no fault.
fn places_for(
    alloc: Global,
    listing: &DemandListing,
    arrays: &[Name],
    groups: &Groups,
    switches: &[Name],
    ports: &[PortAt],
) -> Result<Vec<Switches>, DemandFault>
    requires rise { IsStrictlySortedBy nat_cmp (map (λ (p : PortAt). p.port) ports.now) }
    requires names { IsDistinct bytes_eq switches.now }
    requires switches { length switches.now ≤ 2 ^ 8 }
    requires count { length groups.now.ranks ≡ length arrays.now }
    ensures { AnswersWith listing.now.flows.items (IsAnswerFor groups.now ports.now arrays.now switches.now (spelled_by listing.now)) result }
{
    let flows = listing.flows.as_slice();
    let entries = listing.allowed.as_slice();
    all_known(alloc, flows, entries, arrays, ports)?;
    places_of(alloc, entries, arrays, groups, switches)
}

/// The demand of a listing, or its first fault.
pub(crate) fn resolve(
    alloc: Global,
    listing: DemandListing,
    arrays: &[Name],
    groups: &Groups,
    switches: &[Name],
    ports: &[PortAt],
) -> Result<Demand, DemandFault>
    requires rise { IsStrictlySortedBy nat_cmp (map (λ (p : PortAt). p.port) ports.now) }
    requires names { IsDistinct bytes_eq switches.now }
    requires switches { length switches.now ≤ 2 ^ 8 }
    requires count { length groups.now.ranks ≡ length arrays.now }
    ensures { Answers (IsAnswerFor groups.now ports.now arrays.now switches.now (spelled_by listing)) result }
{
    let places = places_for(alloc, &listing, arrays, groups, switches, ports)?;
    Ok(Demand {
        flows: Flows::new(listing.flows),
        allowed: Allowed::new(places),
    })
}
