//! A topology, and why a text is none.

ghost use Rattle.std.specs.Prelude.{◌≡◌};

use snap_core::NoMemory;
use snap_core::lists::{Name, Names};
use snap_core::ports::{Links, Ports};
use snap_core::program::Which;
use std::alloc::{AllocError, AllocFailed};
use thiserror::Error;

/// The most switches of a topology.
pub const MOST_SWITCHES: usize = 256;

/// The most links of a topology, as listed.
pub const MOST_LINKS: usize = 4096;

/// The most ports of a topology.
pub const MOST_PORTS: usize = 1024;

/// Switches, the links between them, and the ports at them.
///
/// What `read` gives is in form: the names are different switch names, each link stands once with the lesser number
/// first, links and ports rise, all numbers of switches are below the count, and the limits hold.
#[derive(Drop)]
pub struct Topology {
    /// The names of the switches. A switch's number is the position of its name, from 0.
    pub switches: Names,
    pub links: Links,
    pub ports: Ports,
}

/// Why a text is no topology. The first that holds, in this order, is answered.
#[derive(Debug, Drop, Error)]
pub enum TopoFault {
    /// The bytes are not UTF-8, or no TOML document.
    #[error("not TOML")]
    NotToml,
    /// The shape of the document is wrong: its keys (1), `switches` (2), `links` (3) or `ports` (4).
    #[error("shape {rule}")]
    Shape { rule: u8 },
    /// There are too many switches, links as listed, or ports.
    #[error("{count} are too many")]
    Limit { which: Which, count: u64 },
    /// The first switch that stands earlier in the list.
    #[error("switch twice")]
    Twice { name: Name },
    /// The first name in the links as listed, or else in the ports by rising number, that is no switch.
    #[error("unknown switch")]
    Unknown { name: Name },
    /// Memory ran out.
    #[error("out of memory")]
    NoMemory,
}

impl From<AllocError> for TopoFault {
    ghost use Rattle.snap_topology.specs.declared.topology.TopoFault.TheVariants.{NoMemory};

    ghost from_gives = { λ _ e. e ≡ NoMemory };

    fn from(_: AllocError) -> TopoFault {
        TopoFault::NoMemory
    }
}

impl<T: Drop> From<AllocFailed<T>> for TopoFault {
    ghost use Rattle.snap_topology.specs.declared.topology.TopoFault.TheVariants.{NoMemory};

    ghost from_gives = { λ _ e. e ≡ NoMemory };

    fn from(_: AllocFailed<T>) -> TopoFault {
        TopoFault::NoMemory
    }
}

impl From<NoMemory> for TopoFault {
    ghost use Rattle.snap_topology.specs.declared.topology.TopoFault.TheVariants.{NoMemory};

    ghost from_gives = { λ _ e. e ≡ NoMemory };

    fn from(_: NoMemory) -> TopoFault {
        TopoFault::NoMemory
    }
}
