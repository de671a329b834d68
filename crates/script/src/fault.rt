//! Why a text is no script.

ghost use Rattle.std.specs.Prelude.{◌≡◌};
ghost use Rattle.script.specs.declared.fault.ScriptFault.TheVariants as fault;

use std::alloc::{AllocError, AllocFailed};
use terms::{Memory, SizeFault};
use thiserror::Error;

/// Why a text is no script: the first thing that is wrong, read from the top. Nothing of the script
/// is given then.
#[derive(Clone, Copy, Debug, PartialEq, Eq, Error)]
pub enum ScriptFault {
    /// 1: this line, counted from 1, isn't one. Where the text ends before its first five lines, it
    /// is the line behind the last one.
    #[error("line {0}")]
    Line(u64),
    /// 2: with this many events there are more than [`MOST_EVENTS`](sim::MOST_EVENTS).
    #[error("events")]
    Events,
    /// 3: the first three lines make no size.
    #[error("size {0}")]
    Size(SizeFault),
    /// 4: memory was refused.
    #[error("memory")]
    Memory,
}

impl From<SizeFault> for ScriptFault {
    ghost from_gives = { λ size given. given ≡ fault.Size size };

    fn from(size: SizeFault) -> ScriptFault {
        ScriptFault::Size(size)
    }
}

impl From<Memory> for ScriptFault {
    ghost from_gives = { λ _ given. given ≡ fault.Memory };

    fn from(_refused: Memory) -> ScriptFault {
        ScriptFault::Memory
    }
}

impl From<AllocError> for ScriptFault {
    ghost from_gives = { λ _ given. given ≡ fault.Memory };

    fn from(_refused: AllocError) -> ScriptFault {
        ScriptFault::Memory
    }
}

impl<T: Drop> From<AllocFailed<T>> for ScriptFault {
    ghost from_gives = { λ _ given. given ≡ fault.Memory };

    fn from(_refused: AllocFailed<T>) -> ScriptFault {
        ScriptFault::Memory
    }
}
