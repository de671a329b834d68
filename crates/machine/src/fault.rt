//! Why a member doesn't run, or ends badly.

use terms::Memory;
use thiserror::Error;

/// Why a member doesn't run, or ends with something to tell. The text of each is what a program
/// prints of it.
#[derive(Clone, Copy, Debug, PartialEq, Eq, Error)]
pub enum RunFault {
    /// One of the two listeners can't be had: another process has its address, or the member has
    /// none. Nothing was started.
    #[error("listen")]
    Listen,
    /// The operator failed: what was said to it couldn't be written, or what it says couldn't be
    /// read.
    #[error("stream")]
    Stream,
    /// The run came to its end, and the member was stopped by then: its disk failed, its journal is
    /// full, or it was refused memory.
    #[error("stopped")]
    Stopped,
    /// More than t members have heard more of this member than its journal holds: it lost its
    /// journal, or runs on an old copy, and would say things twice. It is stopped. The cure is to
    /// leave it down for good: the others go on without it.
    #[error("forgotten")]
    Forgotten,
    /// The run came to its end, and what the book heard of the links isn't what their sessions
    /// handed in. That is a fault of this program, which its contracts rule out of each call, and
    /// the run as a whole compares. What was saved is in the journal.
    #[error("torn")]
    Torn,
    /// Memory, or a thread, was refused at the start.
    #[error("memory")]
    Memory,
}

impl From<Memory> for RunFault {
    ghost use Rattle.std.specs.Prelude.{◌≡◌};
    ghost use Rattle.machine.specs.declared.fault.RunFault.TheVariants as ends;

    ghost from_gives = { λ _ given. given ≡ ends.Memory };

    fn from(_refused: Memory) -> RunFault {
        RunFault::Memory
    }
}
