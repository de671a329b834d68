//! Why a question wasn't played to its end.

ghost use Rattle.std.specs.Prelude.{◌≡◌};
ghost use Rattle.chances.specs.declared.fault.PlayFault.TheVariants as faults;

use questions::CoreFault;
use std::alloc::{AllocError, AllocFailed};
use terms::Memory;
use thiserror::Error;

/// Why a question wasn't played to its end, or has no end that may be.
#[derive(Clone, Copy, Debug, PartialEq, Eq, Error)]
pub enum PlayFault {
    /// More members lie than may.
    #[error("liars")]
    Liars,
    /// Two correct members decided differently, in the run of this seed.
    #[error("two answers at seed {0}")]
    TwoAnswers(u64),
    /// Deliveries ended before all correct members had decided, and links still had something.
    #[error("unfinished")]
    Unfinished,
    /// A core refused an event.
    #[error("core {0}")]
    Core(CoreFault),
    /// An allocation failed.
    #[error("memory")]
    Memory,
}

impl From<CoreFault> for PlayFault {
    ghost use Rattle.chances.specs.Faults.{of_core};

    ghost from_gives = { λ fault given. given ≡ of_core fault };

    fn from(fault: CoreFault) -> PlayFault {
        match fault {
            CoreFault::Memory => PlayFault::Memory,
            other => PlayFault::Core(other),
        }
    }
}

impl From<Memory> for PlayFault {
    ghost from_gives = { λ _ given. given ≡ faults.Memory };

    fn from(_refused: Memory) -> PlayFault {
        PlayFault::Memory
    }
}

impl From<AllocError> for PlayFault {
    ghost from_gives = { λ _ given. given ≡ faults.Memory };

    fn from(_refused: AllocError) -> PlayFault {
        PlayFault::Memory
    }
}

impl<T: Drop> From<AllocFailed<T>> for PlayFault {
    ghost from_gives = { λ _ given. given ≡ faults.Memory };

    fn from(_refused: AllocFailed<T>) -> PlayFault {
        PlayFault::Memory
    }
}
