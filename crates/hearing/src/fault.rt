//! The faults that end `hear`.

ghost use Rattle.std.specs.Prelude.{◌≡◌};
ghost use Rattle.hearing.specs.declared.fault.HearFault.TheVariants as fault;

use std::alloc::{AllocError, AllocFailed};
use std::io;
use terms::Memory;
use thiserror::Error;

/// Why `hear` ended before its work was done.
#[derive(Debug, Drop, Error)]
pub enum HearFault {
    /// There is no such member.
    #[error("me")]
    Me,
    /// A line of the input, counted from 1, isn't one.
    #[error("line {0}")]
    Line(u64),
    /// A read of the input or a write of the output failed.
    #[error("stream")]
    Stream,
    /// Memory was refused.
    #[error("memory")]
    Memory,
}

impl From<Memory> for HearFault {
    ghost from_gives = { λ _ ends. ends ≡ fault.Memory };

    fn from(_refused: Memory) -> HearFault {
        HearFault::Memory
    }
}

impl From<AllocError> for HearFault {
    ghost from_gives = { λ _ ends. ends ≡ fault.Memory };

    fn from(_refused: AllocError) -> HearFault {
        HearFault::Memory
    }
}

impl<T: Drop> From<AllocFailed<T>> for HearFault {
    ghost from_gives = { λ _ ends. ends ≡ fault.Memory };

    fn from(_refused: AllocFailed<T>) -> HearFault {
        HearFault::Memory
    }
}

impl From<io::Error> for HearFault {
    ghost use Rattle.hearing.specs.Faults.{IsHearFaultOf};

    ghost from_gives = { λ error ends. IsHearFaultOf error ends };

    fn from(error: io::Error) -> HearFault {
        if error.kind() == io::ErrorKind::OutOfMemory {
            HearFault::Memory
        } else {
            HearFault::Stream
        }
    }
}
