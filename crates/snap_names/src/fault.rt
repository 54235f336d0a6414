// Why a tree has no core program.

ghost use Rattle.std.specs.Prelude.{◌≡◌};
ghost use Rattle.snap_names.specs.declared.fault.NameFault.TheVariants.{NoMemory};

use snap_core::program::Which;
use std::alloc::{AllocError, AllocFailed};
use thiserror::Error;

/// Why a tree has no core program: the first broken naming rule in text order, and at one token the first in the order
/// below; or a count that passes its limit.
#[derive(Clone, Copy, Debug, PartialEq, Eq, Error)]
pub enum NameFault {
    /// The name at `at` isn't declared before it.
    #[error("unknown name at {at}")]
    Unknown { at: u32 },
    /// The declaration of the name at `at` declares a name that is declared before it.
    #[error("declared twice at {at}")]
    Twice { at: u32 },
    /// A name doesn't fit its place, a value doesn't fit its field, or an operand that begins at `at` is no predicate.
    #[error("wrong kind at {at}")]
    Kind { at: u32 },
    /// The array at `at` has another number of atoms than at its first use.
    #[error("wrong number of indices at {at}")]
    Arity { at: u32 },
    /// The number at `at` is above 18446744073709551615.
    #[error("number too wide at {at}")]
    Wide { at: u32 },
    /// The length of a split field at `at` isn't from 1 to 31, or the prefix whose address stands at `at` isn't
    /// compared with a split field of its length.
    #[error("wrong prefix at {at}")]
    Prefix { at: u32 },
    /// No naming rule is broken, and this count is the first to pass its limit, in the order components, arrays, atoms,
    /// nodes, weight. A count above 4294967295 is given as 4294967295.
    #[error("limit passed: {count}")]
    Limit { which: Which, count: u64 },
    /// There wasn't enough memory.
    #[error("out of memory")]
    NoMemory,
}

impl From<AllocError> for NameFault {
    ghost from_gives = { λ _ e. e ≡ NoMemory };

    fn from(_e: AllocError) -> NameFault {
        NameFault::NoMemory
    }
}

impl<T: Drop> From<AllocFailed<T>> for NameFault {
    ghost from_gives = { λ _ e. e ≡ NoMemory };

    fn from(_e: AllocFailed<T>) -> NameFault {
        NameFault::NoMemory
    }
}

impl From<snap_core::NoMemory> for NameFault {
    ghost from_gives = { λ _ e. e ≡ NoMemory };

    fn from(_e: snap_core::NoMemory) -> NameFault {
        NameFault::NoMemory
    }
}
