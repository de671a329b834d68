//! The faults that end an audit.

ghost use Rattle.std.specs.Prelude.{◌≡◌};
ghost use Rattle.transcripts.specs.declared.fault.AuditFault.TheVariants as fault;

use std::alloc::AllocFailed;
use std::io;
use terms::Memory;
use thiserror::Error;

/// Why a transcript wasn't audited. The program prints the text of a fault after `bracha: `.
#[derive(Debug, Drop, Error)]
pub enum AuditFault {
    /// This line, counted from 1, is missing, or isn't the next one of a transcript for that size.
    #[error("line {0}")]
    Line(u64),
    /// A write of the output failed.
    #[error("stream")]
    Stream,
    /// Memory was refused.
    #[error("memory")]
    Memory,
}

impl From<Memory> for AuditFault {
    ghost from_gives = { λ _ ends. ends ≡ fault.Memory };

    fn from(_refused: Memory) -> AuditFault {
        AuditFault::Memory
    }
}

impl<T: Drop> From<AllocFailed<T>> for AuditFault {
    ghost from_gives = { λ _ ends. ends ≡ fault.Memory };

    fn from(_refused: AllocFailed<T>) -> AuditFault {
        AuditFault::Memory
    }
}

impl From<io::Error> for AuditFault {
    ghost use Rattle.transcripts.specs.Faults.{IsAuditFaultOf};

    ghost from_gives = { λ error ends. IsAuditFaultOf error ends };

    fn from(error: io::Error) -> AuditFault {
        if error.kind() == io::ErrorKind::OutOfMemory {
            AuditFault::Memory
        } else {
            AuditFault::Stream
        }
    }
}
