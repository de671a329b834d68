//! Why a journal isn't brought over.
ghost use Rattle.std.specs.Prelude.{◌≡◌};
ghost use Rattle.migration.specs.declared.fault.MigrateFault.TheVariants.{OldDevice, Memory};
ghost use Rattle.migration.specs.Faults.{new_fault_of};

use disk::DeviceFault;
use journal::JournalFault;
use std::alloc::{AllocError, AllocFailed};
use thiserror::Error;

/// Why a journal wasn't brought over. The new file is to be thrown away then, save one that is
/// `NotEmpty`. The text of each is its name.
#[derive(Clone, Copy, Debug, PartialEq, Eq, Error)]
pub enum MigrateFault {
    /// 1: the new file has bytes already. Nothing was written.
    #[error("NotEmpty")]
    NotEmpty,
    /// 2: the old file has fewer than 24 bytes, or those are no header of version 1.
    #[error("NotOld")]
    NotOld,
    /// 3: the old file has the header of another cluster, size or member.
    #[error("OtherHeader")]
    OtherHeader,
    /// 4: a batch of the old file is of no record, or one of its records isn't well formed for the
    /// header.
    #[error("BadRecord")]
    BadRecord,
    /// 5: the old file ends where a gate, or what stands behind an open gate, should be.
    #[error("CutShort")]
    CutShort,
    /// 6: the old file's disk failed.
    #[error("OldDevice")]
    OldDevice,
    /// 7: the new file's disk failed.
    #[error("NewDevice")]
    NewDevice,
    /// 8: there was no memory.
    #[error("Memory")]
    Memory,
    /// 9: the closed gate behind a batch of the new file would stand past byte 2^31.
    #[error("Full")]
    Full,
}

impl From<AllocError> for MigrateFault {
    ghost from_gives = { λ _ e. e ≡ Memory };

    fn from(_: AllocError) -> Self {
        MigrateFault::Memory
    }
}

impl<T: Drop> From<AllocFailed<T>> for MigrateFault {
    ghost from_gives = { λ _ e. e ≡ Memory };

    fn from(_: AllocFailed<T>) -> Self {
        MigrateFault::Memory
    }
}

/// The fault is of the old file's disk alone.
impl From<DeviceFault> for MigrateFault {
    ghost from_gives = { λ _ e. e ≡ OldDevice };

    fn from(_: DeviceFault) -> Self {
        MigrateFault::OldDevice
    }
}

/// The fault is of the new file alone.
impl From<JournalFault> for MigrateFault {
    ghost from_gives = { λ fault e. e ≡ new_fault_of fault };

    fn from(fault: JournalFault) -> Self {
        match fault {
            JournalFault::NotEmpty => MigrateFault::NotEmpty,
            JournalFault::Memory => MigrateFault::Memory,
            JournalFault::Full => MigrateFault::Full,
            JournalFault::BadHeader
            | JournalFault::OtherHeader
            | JournalFault::BadRecord
            | JournalFault::CutShort
            | JournalFault::Device
            | JournalFault::Stopped
            | JournalFault::OldVersion => MigrateFault::NewDevice,
        }
    }
}
