//! What stands at a switch.

ghost use Rattle.std.specs.Prelude.{◌≡◌, ◌==◌, ◌&&◌, ◌||◌, ℕ, nat_le, true, if◌then◌else◌};
ghost use Rattle.std.specs.List.{list_any};
ghost use Rattle.snap_core.specs.declared.ports.PortAt.{PortAt};
ghost use Rattle.snap_rows.specs.declared.tables.ArrayAt.{ArrayAt};
ghost use Rattle.snap_rows.specs.Entries.{ranks_in};
ghost use Rattle.snap_make.specs.Sites.{IsSite, is_within};

use snap_core::ports::PortAt;
use snap_rows::tables::{ArrayAt, Tables};

/// A switch, and what decides which rows it has.
#[derive(Clone, Copy)]
pub(crate) struct Site {
    pub(crate) at: u16,
    /// A port is there.
    pub(crate) port: bool,
    /// The least rank of its arrays; none also where no switch has a port, for then no packet comes to it.
    pub(crate) least: Option<u16>,
    /// Packets come to it with all their visits done.
    pub(crate) leaves: bool,
}

fn has_port(ports: &[PortAt], at: u16) -> bool
    ensures { result ≡ list_any (λ (p : PortAt). p.at == at) ports.now }
{
    for port in ports {
        if port.at == at {
            return true;
        }
    }
    false
}

// The number of ranks.
fn ranks(arrays: &[ArrayAt]) -> usize
    ensures { result ≡ ranks_in arrays.now }
{
    let mut most = 0usize;
    for array in arrays {
        let next = array.rank as usize + 1;
        if next > most {
            most = next;
        }
    }
    most
}

// The lesser of a rank, if there is any, and another.
fn lesser(least: Option<u16>, rank: u16) -> Option<u16>
    ensures { (q : ℕ) → is_within result q ≡ (is_within least q || nat_le rank q) }
{
    match least {
        Some(least) if least <= rank => Some(least),
        _ => Some(rank),
    }
}

// The least rank of the arrays at a switch.
fn least_rank(arrays: &[ArrayAt], at: u16) -> Option<u16>
    ensures { (q : ℕ) → is_within result q ≡ list_any (λ (a : ArrayAt). (a.at == at) && nat_le a.rank q) arrays.now }
{
    let mut least = None;
    for array in arrays {
        if array.at == at {
            least = lesser(least, array.rank);
        }
    }
    least
}

// The least rank for whose visits packets come to a switch.
fn visited_from(ports: &[PortAt], arrays: &[ArrayAt], at: u16) -> Option<u16>
    ensures { (q : ℕ) → is_within result q ≡ (list_any (λ (p : PortAt). true) ports.now && list_any (λ (a : ArrayAt). (a.at == at) && nat_le a.rank q) arrays.now) }
{
    if ports.len() == 0 {
        None
    } else {
        least_rank(arrays, at)
    }
}

// Whether packets come to a switch with all their visits done.
fn is_last(port: bool, least: Option<u16>, ranks: usize) -> bool
    ensures { result ≡ (if ranks == 0 then port else is_within least ranks) }
{
    if ranks == 0 {
        port
    } else {
        is_within(least, ranks)
    }
}

/// Whether a rank, if there is any, is at most this one.
pub(crate) fn is_within(least: Option<u16>, rank: usize) -> bool
    ensures { result ≡ is_within least rank }
{
    match least {
        Some(least) => least as usize <= rank,
        None => false,
    }
}

/// What stands at a switch. Takes time in proportion to the ports and the arrays.
pub(crate) fn site_at(tables: &Tables, at: u16) -> Site
    ensures at { result.at ≡ at }
    ensures site { IsSite tables.now result }
{
    let ports = tables.ports.items();
    let arrays = tables.arrays.items();
    let port = has_port(ports, at);
    let least = visited_from(ports, arrays, at);
    let ranks = ranks(arrays);
    let leaves = is_last(port, least, ranks);
    Site {
        at,
        port,
        least,
        leaves,
    }
}
