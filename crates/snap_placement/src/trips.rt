//! Flows between switches.

ghost use Rattle.std.specs.Prelude.{◌≡◌, ◌≤◌, ◌*◌, ◌<◌, ◌^◌, IfOk, IfSome, Some, length, map};
ghost use Rattle.std.specs.List.{sum_by};
ghost use Rattle.std.specs.List.Sorted.{IsStrictlySortedBy};
ghost use Rattle.std.specs.Ordering.{nat_cmp};
ghost use Rattle.snap_core.specs.declared.ports.PortAt.{PortAt};
ghost use Rattle.snap_core.specs.Ports.{port_in};
ghost use Rattle.snap_placement.specs.Costs.{trip_of};
ghost use Rattle.snap_placement.specs.Steps.{end_of};

use crate::demand::Flow;
use snap_core::NoMemory;
use snap_core::ports::PortAt;
use std::alloc::Global;

/// A flow from a switch to a switch, with its weight.
#[derive(Clone, Copy)]
pub(crate) struct Trip {
    pub(crate) from: u16,
    pub(crate) to: u16,
    pub(crate) weight: u32,
}

/// Where a trip begins, or where it ends.
#[derive(Clone, Copy)]
pub(crate) enum End {
    From,
    To,
}

impl Trip {
    pub(crate) fn end(&self, end: End) -> u16
        ensures { result ≡ end_of end self.now }
    {
        match end {
            End::From => self.from,
            End::To => self.to,
        }
    }

    pub(crate) fn load(&self) -> u64
        ensures weight { result ≡ self.now.weight }
        ensures small { result < 2 ^ 32 }
    {
        u64::from(self.weight)
    }
}

// The switch at which a port is, where it stands as far behind the first port as its number is above that one's: so each
// does where numbers have no gaps.
fn switch_near(ports: &[PortAt], port: u32) -> Option<u16>
    requires { IsStrictlySortedBy nat_cmp (map (λ (p : PortAt). p.port) ports.now) }
    ensures { IfSome result (λ at. port_in ports.now port ≡ Some at) }
{
    let first = ports.first()?;
    let place = port.checked_sub(first.port)?;
    let entry = ports.get(place as usize)?;
    if entry.port == port {
        Some(entry.at)
    } else {
        None
    }
}

/// The switch at which a port is. The ports rise.
pub(crate) fn switch_at(ports: &[PortAt], port: u32) -> Option<u16>
    requires { IsStrictlySortedBy nat_cmp (map (λ (p : PortAt). p.port) ports.now) }
    ensures { result ≡ port_in ports.now port }
{
    if let Some(at) = switch_near(ports, port) {
        return Some(at);
    }
    match ports.binary_search_by_key(&port, |entry| entry.port) {
        Ok(at) => Some(ports[at].at),
        Err(_) => None,
    }
}

/// A flow between the switches of its ports.
fn trip_of(ports: &[PortAt], flow: Flow) -> Trip
    requires { IsStrictlySortedBy nat_cmp (map (λ (p : PortAt). p.port) ports.now) }
    ensures { result ≡ trip_of ports.now flow }
{
    Trip {
        from: switch_at(ports, flow.from).unwrap_or(0),
        to: switch_at(ports, flow.to).unwrap_or(0),
        weight: flow.weight,
    }
}

/// Flows between the switches of their ports.
pub(crate) fn trips(alloc: Global, ports: &[PortAt], flows: &[Flow]) -> Result<Vec<Trip>, NoMemory>
    requires { IsStrictlySortedBy nat_cmp (map (λ (p : PortAt). p.port) ports.now) }
    ensures { IfOk result (λ trips. trips.items ≡ map (trip_of ports.now) flows.now) }
{
    let mut trips = Vec::with_capacity(alloc, flows.len())?;
    for flow in flows {
        trips.push(trip_of(ports, *flow))?;
    }
    Ok(trips)
}

/// The weight of all trips, of which there are at most 65,536.
pub(crate) fn total_weight(trips: &[Trip]) -> u64
    requires { length trips.now ≤ 2 ^ 16 }
    ensures total { result ≡ sum_by (λ t. t.weight) trips.now }
    ensures small { result < 2 ^ 48 }
{
    let mut total = 0;
    for trip in trips {
        total += u64::from(trip.weight);
    }
    total
}
