//! Demands, and why a text is none.

ghost use Rattle.std.specs.Prelude.{◌≡◌, ◌<◌, [], length, slice_index_or};

use snap_core::NoMemory;
use snap_core::lists::{List, Name};
use snap_core::program::Which;
use std::alloc::{AllocError, AllocFailed};
use std::marker::Model;
use thiserror::Error;

/// The most flows of a demand.
pub const MOST_DEMANDS: usize = 65_536;

/// A flow from a port to a port, with its weight.
#[derive(Clone, Copy)]
pub struct Flow {
    pub from: u32,
    pub to: u32,
    pub weight: u32,
}

/// Flows, in the order of a file.
pub type Flows = List<Flow>;

/// Numbers of switches.
pub type Switches = List<u16>;

/// Switches for each variable of a program.
#[derive(Drop)]
pub struct Allowed {
    places: Vec<Switches>,
}

impl Model for Allowed {
    ghost use Rattle.std.specs.Prelude.{List, ℕ};

    ghost Value = { List (List ℕ) };

    ghost view = { λ a. a.places.items };
}

impl Allowed {
    /// The list of these places. Takes no memory.
    pub fn new(places: Vec<Switches>) -> Allowed
        ensures { result ≡ places.items }
    {
        Allowed { places }
    }

    /// The switches of a variable. Takes no memory.
    pub fn of(&self, var: u16) -> &[u16]
        requires { var < length self.now }
        ensures { result.now ≡ slice_index_or self.now var [] }
    {
        self.places[var as usize].items()
    }
}

/// What is to flow, and where the groups of a program may stand.
#[derive(Drop)]
pub struct Demand {
    pub flows: Flows,
    /// By variable: the numbers of the switches at which its group may stand, rising.
    pub allowed: Allowed,
}

/// Why a text is no demand. The first that holds, in this order, is answered.
#[derive(Debug, Drop, Error)]
pub enum DemandFault {
    /// The bytes are not UTF-8, or no TOML document.
    #[error("not TOML")]
    NotToml,
    /// The keys aren't exactly `allowed` and `demand` (1), or the one of `demand` (2) or of `allowed` (3) isn't of its form.
    #[error("shape {rule}")]
    Shape { rule: u8 },
    /// There are too many flows.
    #[error("{count} are too many")]
    Limit { which: Which, count: u64 },
    /// The first port, as read, that the topology doesn't have.
    #[error("no port {port}")]
    NoPort { port: u32 },
    /// The least name, in byte order, that is no array of the program.
    #[error("no array")]
    NoVariable { name: Name },
    /// The first name, by variable and then as read, that is no switch.
    #[error("no switch")]
    NoSwitch { name: Name },
    /// The first array whose group may stand nowhere.
    #[error("nowhere {var}")]
    Nowhere { var: u16 },
    /// Memory ran out.
    #[error("out of memory")]
    NoMemory,
}

impl From<AllocError> for DemandFault {
    ghost use Rattle.snap_placement.specs.declared.demand.DemandFault.TheVariants.{NoMemory};

    ghost from_gives = { λ _ e. e ≡ NoMemory };

    fn from(_: AllocError) -> DemandFault {
        DemandFault::NoMemory
    }
}

impl<T: Drop> From<AllocFailed<T>> for DemandFault {
    ghost use Rattle.snap_placement.specs.declared.demand.DemandFault.TheVariants.{NoMemory};

    ghost from_gives = { λ _ e. e ≡ NoMemory };

    fn from(_: AllocFailed<T>) -> DemandFault {
        DemandFault::NoMemory
    }
}

impl From<NoMemory> for DemandFault {
    ghost use Rattle.snap_placement.specs.declared.demand.DemandFault.TheVariants.{NoMemory};

    ghost from_gives = { λ _ e. e ≡ NoMemory };

    fn from(_: NoMemory) -> DemandFault {
        DemandFault::NoMemory
    }
}
