//! Why a simulation has no outcome.
ghost use Rattle.std.specs.Prelude.{◌≡◌};
ghost use Rattle.sim.specs.declared.faults.SimFault.TheVariants.{Memory as OutOfMemory};

use std::alloc::{AllocError, AllocFailed};
use terms::Memory;
use thiserror::Error;

/// Why a simulation has no outcome. The text of each is its name.
#[derive(Clone, Copy, Debug, PartialEq, Eq, Error)]
pub enum SimFault {
    /// 1: the liars' numbers don't rise, or one names no member, or they are more than t.
    #[error("BadLiars")]
    BadLiars,
    /// 2: there isn't one disk for each member, or one isn't empty.
    #[error("BadDisks")]
    BadDisks,
    /// 3: before the first event a correct member's disk failed, by a fuse that was in it.
    #[error("Device")]
    Device,
    /// 4: there was no memory.
    #[error("Memory")]
    Memory,
    /// 5: a member's journal has no room for the records of an answer. No script of a cluster
    /// within the limits brings it about: a correct member says each kind at most once at a place
    /// and decides a question at most once, which is at most 75,501,568 records, and with the
    /// header and the batches' counts these stay far below 2^31 bytes.
    #[error("Full")]
    Full,
}

impl From<AllocError> for SimFault {
    ghost from_gives = { λ _ fault. fault ≡ OutOfMemory };

    fn from(_refused: AllocError) -> SimFault {
        SimFault::Memory
    }
}

impl<T: Drop> From<AllocFailed<T>> for SimFault {
    ghost from_gives = { λ _ fault. fault ≡ OutOfMemory };

    fn from(_refused: AllocFailed<T>) -> SimFault {
        SimFault::Memory
    }
}

impl From<Memory> for SimFault {
    ghost from_gives = { λ _ fault. fault ≡ OutOfMemory };

    fn from(_refused: Memory) -> SimFault {
        SimFault::Memory
    }
}
