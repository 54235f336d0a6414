//! A placement, and why a text is none.

ghost use Rattle.std.specs.Prelude.{◌≡◌, ◌<◌, length, slice_index};

use snap_core::NoMemory;
use snap_core::lists::Name;
use std::alloc::{AllocError, AllocFailed};
use std::marker::Model;
use thiserror::Error;

/// The switch of each variable of a program.
#[derive(Drop)]
pub struct Placement {
    owners: Vec<u16>,
}

impl Model for Placement {
    ghost use Rattle.std.specs.Prelude.{List, ℕ};

    ghost Value = { List ℕ };

    ghost view = { λ a. a.owners.items };
}

impl Placement {
    /// The switch of each variable, in order. Takes no memory.
    pub fn new(owners: Vec<u16>) -> Placement
        ensures { result ≡ owners.items }
    {
        Placement { owners }
    }

    /// The number of the switch at which a variable is. Takes no memory.
    pub fn owner(&self, var: u16) -> u16
        requires { var < length self.now }
        ensures { result ≡ slice_index self.now var }
    {
        self.owners[var as usize]
    }
}

/// Why a text is no placement. The first that holds, in this order, is answered.
#[derive(Debug, Drop, Error)]
pub enum PlaceFault {
    /// The bytes are not UTF-8, or no TOML document.
    #[error("not TOML")]
    NotToml,
    /// A key isn't spelled like a name of a program (1), or a value is no switch name (2).
    #[error("shape {rule}")]
    Shape { rule: u8 },
    /// The first placed name, in byte order, that is no array of the program.
    #[error("no array")]
    NoVariable { name: Name },
    /// The first array without a place.
    #[error("no place for {var}")]
    Missing { var: u16 },
    /// The first array whose place is no switch.
    #[error("no switch for {var}")]
    NoSwitch { var: u16 },
    /// The first two tied arrays at different switches.
    #[error("apart {a} {b}")]
    Apart { a: u16, b: u16 },
    /// Memory ran out.
    #[error("out of memory")]
    NoMemory,
}

impl From<AllocError> for PlaceFault {
    ghost use Rattle.snap_placement.specs.declared.placement.PlaceFault.TheVariants.{NoMemory};

    ghost from_gives = { λ _ e. e ≡ NoMemory };

    fn from(_: AllocError) -> PlaceFault {
        PlaceFault::NoMemory
    }
}

impl<T: Drop> From<AllocFailed<T>> for PlaceFault {
    ghost use Rattle.snap_placement.specs.declared.placement.PlaceFault.TheVariants.{NoMemory};

    ghost from_gives = { λ _ e. e ≡ NoMemory };

    fn from(_: AllocFailed<T>) -> PlaceFault {
        PlaceFault::NoMemory
    }
}

impl From<NoMemory> for PlaceFault {
    ghost use Rattle.snap_placement.specs.declared.placement.PlaceFault.TheVariants.{NoMemory};

    ghost from_gives = { λ _ e. e ≡ NoMemory };

    fn from(_: NoMemory) -> PlaceFault {
        PlaceFault::NoMemory
    }
}
