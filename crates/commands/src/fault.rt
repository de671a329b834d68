//! The faults that end a command. The program prints the text of a fault after `bracha: ` and ends
//! with status 1.

ghost use Rattle.std.specs.Prelude.{◌≡◌};
ghost use Rattle.commands.specs.declared.fault.DumpFault.TheVariants as dump;
ghost use Rattle.commands.specs.declared.fault.MigrationFault.TheVariants as migrate;
ghost use Rattle.commands.specs.declared.fault.SimulateFault.TheVariants as simulate;
ghost use Rattle.commands.specs.declared.fault.TalkFault.TheVariants as talk;
ghost use Rattle.migration.specs.declared.fault.MigrateFault.TheVariants as unmoved;

use journal::JournalFault;
use migration::MigrateFault;
use script::ScriptFault;
use sim::SimFault;
use std::alloc::{AllocError, AllocFailed};
use std::io;
use terms::{Memory, SizeFault};
use thiserror::Error;

/// Why `init` made no journal.
#[derive(Clone, Copy, Debug, PartialEq, Eq, Error)]
pub enum InitFault {
    /// The file has bytes already.
    #[error("journal NotEmpty")]
    NotEmpty,
    /// The disk failed.
    #[error("journal Device")]
    Device,
}

impl From<JournalFault> for InitFault {
    ghost use Rattle.commands.specs.Faults.{of_create};

    ghost from_gives = { λ fault ends. ends ≡ of_create fault };

    fn from(fault: JournalFault) -> InitFault {
        match fault {
            JournalFault::NotEmpty => InitFault::NotEmpty,
            _ => InitFault::Device,
        }
    }
}

/// Why `dump` printed no journal, or `check` found none.
#[derive(Debug, Drop, Error)]
pub enum DumpFault {
    /// The journal couldn't be opened or read.
    #[error("journal {0}")]
    Journal(JournalFault),
    /// A write of the output failed.
    #[error("stream")]
    Stream,
    /// Memory was refused.
    #[error("memory")]
    Memory,
}

impl From<JournalFault> for DumpFault {
    ghost use Rattle.commands.specs.Faults.{of_opening};

    ghost from_gives = { λ fault ends. ends ≡ of_opening fault };

    fn from(fault: JournalFault) -> DumpFault {
        match fault {
            JournalFault::Memory => DumpFault::Memory,
            other => DumpFault::Journal(other),
        }
    }
}

impl From<AllocError> for DumpFault {
    ghost from_gives = { λ _ ends. ends ≡ dump.Memory };

    fn from(_refused: AllocError) -> DumpFault {
        DumpFault::Memory
    }
}

impl From<io::Error> for DumpFault {
    ghost use Rattle.commands.specs.Faults.{IsDumpFaultOf};

    ghost from_gives = { λ error ends. IsDumpFaultOf error ends };

    fn from(error: io::Error) -> DumpFault {
        if error.kind() == io::ErrorKind::OutOfMemory {
            DumpFault::Memory
        } else {
            DumpFault::Stream
        }
    }
}

/// Why `migrate` brought no journal over.
#[derive(Debug, Drop, Error)]
pub enum MigrationFault {
    /// The journal wasn't brought over, and the new file is to be thrown away.
    #[error("migrate {0}")]
    Migrate(MigrateFault),
    /// The new file is whole, but a write of the output failed.
    #[error("stream")]
    Stream,
}

impl From<MigrateFault> for MigrationFault {
    ghost from_gives = { λ fault ends. ends ≡ migrate.Migrate fault };

    fn from(fault: MigrateFault) -> MigrationFault {
        MigrationFault::Migrate(fault)
    }
}

impl From<AllocError> for MigrationFault {
    ghost from_gives = { λ _ ends. ends ≡ migrate.Migrate unmoved.Memory };

    fn from(_refused: AllocError) -> MigrationFault {
        MigrationFault::Migrate(MigrateFault::Memory)
    }
}

impl From<io::Error> for MigrationFault {
    ghost from_gives = { λ _ ends. ends ≡ migrate.Stream };

    fn from(_failed: io::Error) -> MigrationFault {
        MigrationFault::Stream
    }
}

/// Why `simulate` printed no outcome.
#[derive(Debug, Drop, Error)]
pub enum SimulateFault {
    /// A line of the script, counted from 1, isn't one.
    #[error("line {0}")]
    Line(u64),
    /// The script has too many events.
    #[error("events")]
    Events,
    /// Its numbers make no size.
    #[error("size {0}")]
    Size(SizeFault),
    /// The script can't be run.
    #[error("sim {0}")]
    Sim(SimFault),
    /// A write of the output failed.
    #[error("stream")]
    Stream,
    /// Memory was refused.
    #[error("memory")]
    Memory,
}

impl From<ScriptFault> for SimulateFault {
    ghost use Rattle.commands.specs.Faults.{of_script};

    ghost from_gives = { λ fault ends. ends ≡ of_script fault };

    fn from(fault: ScriptFault) -> SimulateFault {
        match fault {
            ScriptFault::Line(number) => SimulateFault::Line(number),
            ScriptFault::Events => SimulateFault::Events,
            ScriptFault::Size(size) => SimulateFault::Size(size),
            ScriptFault::Memory => SimulateFault::Memory,
        }
    }
}

impl From<SimFault> for SimulateFault {
    ghost use Rattle.commands.specs.Faults.{of_sim};

    ghost from_gives = { λ fault ends. ends ≡ of_sim fault };

    fn from(fault: SimFault) -> SimulateFault {
        match fault {
            SimFault::Memory => SimulateFault::Memory,
            other => SimulateFault::Sim(other),
        }
    }
}

impl From<Memory> for SimulateFault {
    ghost from_gives = { λ _ ends. ends ≡ simulate.Memory };

    fn from(_refused: Memory) -> SimulateFault {
        SimulateFault::Memory
    }
}

impl From<AllocError> for SimulateFault {
    ghost from_gives = { λ _ ends. ends ≡ simulate.Memory };

    fn from(_refused: AllocError) -> SimulateFault {
        SimulateFault::Memory
    }
}

impl From<io::Error> for SimulateFault {
    ghost use Rattle.commands.specs.Faults.{IsSimulateFaultOf};

    ghost from_gives = { λ error ends. IsSimulateFaultOf error ends };

    fn from(error: io::Error) -> SimulateFault {
        if error.kind() == io::ErrorKind::OutOfMemory {
            SimulateFault::Memory
        } else {
            SimulateFault::Stream
        }
    }
}

/// Why a client has no reply.
#[derive(Clone, Copy, Debug, PartialEq, Eq, Error)]
pub enum TalkFault {
    /// The member can't be reached, or the connection ended before a whole reply came.
    #[error("no answer")]
    NoAnswer,
    /// A write of the output failed.
    #[error("stream")]
    Stream,
    /// Memory was refused.
    #[error("memory")]
    Memory,
}

impl From<AllocError> for TalkFault {
    ghost from_gives = { λ _ ends. ends ≡ talk.Memory };

    fn from(_refused: AllocError) -> TalkFault {
        TalkFault::Memory
    }
}

impl<T: Drop> From<AllocFailed<T>> for TalkFault {
    ghost from_gives = { λ _ ends. ends ≡ talk.Memory };

    fn from(_refused: AllocFailed<T>) -> TalkFault {
        TalkFault::Memory
    }
}

impl From<io::Error> for TalkFault {
    ghost use Rattle.commands.specs.Faults.{IsTalkFaultOf};

    ghost from_gives = { λ error ends. IsTalkFaultOf error ends };

    fn from(error: io::Error) -> TalkFault {
        if error.kind() == io::ErrorKind::OutOfMemory {
            TalkFault::Memory
        } else {
            TalkFault::Stream
        }
    }
}
