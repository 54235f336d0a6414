//! Why a run ends before its report is whole.

ghost use Rattle.snap_report.specs.declared.fault.TraceFault.TheVariants as fault;

use snap_core::NoMemory;
use snap_core::program::Which;
use snap_io::WriteFailed;
use std::alloc::AllocError;
use thiserror::Error;

/// Why a run ends before its report is whole. Lines and packets are counted from 1.
#[derive(Clone, Copy, Debug, PartialEq, Eq, Error)]
pub enum TraceFault {
    /// The shelf failed at the packets file.
    #[error("the packets can't be read")]
    Read,

    /// The sink failed.
    #[error("the report can't be written")]
    Write,

    /// The file has more bytes or lines than it may: the limit and one more.
    #[error("too many")]
    Limit { which: Which, count: u64 },

    /// This line isn't in form, or too long.
    #[error("line {line} isn't in form")]
    Packets { line: u64 },

    /// Evaluation is undefined first at this packet.
    #[error("packet {packet} is undefined")]
    Undefined { packet: u64 },

    /// Memory was refused.
    #[error("out of memory")]
    NoMemory,
}

impl From<NoMemory> for TraceFault {
    ghost use Rattle.std.specs.Prelude.{◌≡◌};

    ghost from_gives = { λ _ e. e ≡ fault.NoMemory };

    fn from(_: NoMemory) -> Self {
        TraceFault::NoMemory
    }
}

impl From<AllocError> for TraceFault {
    ghost use Rattle.std.specs.Prelude.{◌≡◌};

    ghost from_gives = { λ _ e. e ≡ fault.NoMemory };

    fn from(_: AllocError) -> Self {
        TraceFault::NoMemory
    }
}

impl From<WriteFailed> for TraceFault {
    ghost use Rattle.std.specs.Prelude.{◌≡◌};

    ghost from_gives = { λ _ e. e ≡ fault.Write };

    fn from(_: WriteFailed) -> Self {
        TraceFault::Write
    }
}
