//! Why a journal refuses.
ghost use Rattle.std.specs.Prelude.{◌≡◌};
ghost use Rattle.journal.specs.declared.fault.JournalFault.TheVariants.{Device, Memory};

use disk::DeviceFault;
use std::alloc::{AllocError, AllocFailed};
use thiserror::Error;

/// Why a journal wasn't made, opened or added to. Of several faults in a file the first one is
/// answered: batch by batch, and within a batch what is cut short comes before a bad record. The
/// text of each is its name.
#[derive(Clone, Copy, Debug, PartialEq, Eq, Error)]
pub enum JournalFault {
    /// 1: the file has bytes already. Nothing was written.
    #[error("NotEmpty")]
    NotEmpty,
    /// 2: the file has fewer than 24 bytes, or those are no header. One of version 1 is
    /// `OldVersion`.
    #[error("BadHeader")]
    BadHeader,
    /// 3: the file has the header of another cluster, size or member.
    #[error("OtherHeader")]
    OtherHeader,
    /// 4: a batch is of no record, or one of its records isn't well formed for the header.
    #[error("BadRecord")]
    BadRecord,
    /// 5: the file ends where a gate, or what stands behind an open gate, should be.
    #[error("CutShort")]
    CutShort,
    /// 6: the disk failed. A journal that answers it is stopped: what it was adding may be in the
    /// file, or not.
    #[error("Device")]
    Device,
    /// 7: there was no memory. Nothing was written.
    #[error("Memory")]
    Memory,
    /// 8: the journal is stopped, since it answered `Device`. Nothing was written.
    #[error("Stopped")]
    Stopped,
    /// 9: the closed gate behind the batch would stand past byte 2^31. Nothing was written.
    #[error("Full")]
    Full,
    /// 10: the file is of version 1: it has 24 bytes or more, and begins with `BRACHAJ1`. Nothing
    /// was written.
    #[error("OldVersion")]
    OldVersion,
}

impl From<AllocError> for JournalFault {
    ghost from_gives = { λ _ e. e ≡ Memory };

    fn from(_: AllocError) -> Self {
        JournalFault::Memory
    }
}

impl<T: Drop> From<AllocFailed<T>> for JournalFault {
    ghost from_gives = { λ _ e. e ≡ Memory };

    fn from(_: AllocFailed<T>) -> Self {
        JournalFault::Memory
    }
}

impl From<DeviceFault> for JournalFault {
    ghost from_gives = { λ _ e. e ≡ Device };

    fn from(_: DeviceFault) -> Self {
        JournalFault::Device
    }
}
