// Why a token list has no tree.

ghost use Rattle.std.specs.Prelude.{◌≡◌};
ghost use Rattle.snap_parse.specs.declared.fault.ParseFault.TheVariants.{NoMemory};

use std::alloc::{AllocError, AllocFailed};
use thiserror::Error;

/// Why a token list has no tree.
#[derive(Clone, Copy, Debug, PartialEq, Eq, Error)]
pub enum ParseFault {
    /// No program has the token that begins at `at` here; or the text ends, at `at`, before the program does.
    #[error("unexpected token at {at}")]
    Unexpected { at: u32 },
    /// The token that begins at `at` makes the depth pass the limit.
    #[error("too deep at {at}")]
    TooDeep { at: u32 },
    /// There wasn't enough memory.
    #[error("out of memory")]
    NoMemory,
}

impl From<AllocError> for ParseFault {
    ghost from_gives = { λ _ e. e ≡ NoMemory };

    fn from(_e: AllocError) -> ParseFault {
        ParseFault::NoMemory
    }
}

impl<T: Drop> From<AllocFailed<T>> for ParseFault {
    ghost from_gives = { λ _ e. e ≡ NoMemory };

    fn from(_e: AllocFailed<T>) -> ParseFault {
        ParseFault::NoMemory
    }
}
