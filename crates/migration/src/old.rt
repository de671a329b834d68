//! A journal's file of version 1. It is read, and never written.
ghost use Rattle.std.specs.Prelude.{◌≡◌, ◌⊎◌, ◌+◌, ◌<◌, ◌≤◌, ℕ, List, IsErrOf, IfOk, IfErr, OnOk};
ghost use Rattle.terms_prelude.specs.Terms.{Header};
ghost use Rattle.disk.specs.Model.{MayLeave, LeavesOnly};
ghost use Rattle.journal.specs.WellFormed.{AreWellFormedFor};
ghost use Rattle.journal.specs.Outcomes.{WasRead};
ghost use Rattle.migration.specs.Old.{HasOldHeader, HoldsOld, RefusesOld, IsOfOldFile};
ghost use Rattle.migration.specs.OldOutcomes.{HandsOldBack};
ghost use Rattle.migration.specs.Faults.{IsFaultOfPeeking, old_fault_of};
ghost use Rattle.migration.specs.declared.fault.MigrateFault.TheVariants.{Memory};

use crate::MigrateFault;
use disk::Disk;
use journal::{JournalFault, read_batches};
use std::alloc::Global;
use terms::{Header, Record};

mod header;
mod record;

use header::{HEADER, header_of};
use record::Version1;

/// The header that a file of version 1 begins with, by two calls of the device: `len`, and one read
/// of the first 24 bytes, or of all where there are fewer. It takes no memory, and changes no byte.
///
/// - `NotOld`: the file begins with no header of that version.
/// - `OldDevice`: the disk failed.
pub fn peek_old<D: Disk>(disk: &mut D) -> Result<Header, MigrateFault>
    ensures header { D.keeps disk.new →
        IfOk result (λ header. HasOldHeader header (D.state disk.old).seen) }
    ensures not_old { D.keeps disk.new → IsErrOf result MigrateFault.NotOld →
        (header : Header) → HasOldHeader header (D.state disk.old).seen → ⊥ }
    ensures same { D.keeps disk.new → D.state disk.new ≡ D.state disk.old }
    ensures any_moment { D.keeps disk.new →
        LeavesOnly D.moment D.since disk.old disk.new (MayLeave (D.state disk.old)) }
    ensures two_calls { D.keeps disk.new → IsErrOf result MigrateFault.OldDevice
        ⊎ (D.moment disk.new ≡ D.moment disk.old + 2) }

    ensures device { IsErrOf result MigrateFault.OldDevice →
        D.failures disk.old < D.failures disk.new }
    ensures only { IfErr result IsFaultOfPeeking }
    ensures later { D.failures disk.old ≤ D.failures disk.new }
    ensures kept { D.keeps disk.new → D.keeps disk.old }
{
    let len = disk.len()?;
    let mut bytes = [0; HEADER];
    disk.read_at(0, &mut bytes[..len.min(HEADER)])?;
    if len < HEADER {
        return Err(MigrateFault::NotOld);
    }
    match header_of(&bytes) {
        Some(header) => Ok(header),
        None => Err(MigrateFault::NotOld),
    }
}

/// The records that the file holds, by three calls of the device: `sync`, `len` and one read of all
/// bytes.
pub(crate) fn load<D: Disk>(
    alloc: Global,
    disk: &mut D,
    header: &Header,
) -> Result<Vec<Record>, MigrateFault>
    ensures held { D.keeps disk.new →
        IfOk result (λ records. HoldsOld header.now records.items (D.state disk.old).seen) }
    ensures well_formed { IfOk result (λ records. AreWellFormedFor header.now records.items) }
    ensures read { OnOk result (WasRead D.Disk disk.old disk.new) }
    ensures fault { IfErr result (λ fault. HandsOldBack D.Disk disk.old header.now fault disk.new) }
{
    let bytes = fetch(alloc, disk)?;
    read_old(alloc, header, &bytes)
}

/// All the bytes, once they are on the disk.
fn fetch<D: Disk>(alloc: Global, disk: &mut D) -> Result<Vec<u8>, MigrateFault>
    ensures bytes { D.keeps disk.new →
        IfOk result (λ bytes. bytes.items ≡ (D.state disk.old).seen) }
    ensures read { OnOk result (WasRead D.Disk disk.old disk.new) }
    ensures fault { IfErr result
        (λ fault. (header : Header) → HandsOldBack D.Disk disk.old header fault disk.new) }
{
    disk.sync()?;
    let len = disk.len()?;
    let mut bytes = vec![in alloc; 0; len]?;
    disk.read_at(0, &mut bytes)?;
    Ok(bytes)
}

/// The records that a file of these bytes holds, by this header.
///
/// - `NotOld`, `OtherHeader`, `CutShort` or `BadRecord`: the first thing that is wrong with it.
/// - `Memory`: there was none for the records.
pub fn read_old(alloc: Global, header: &Header, bytes: &[u8]) -> Result<Vec<Record>, MigrateFault>
    ensures held { IfOk result (λ records. HoldsOld header.now records.items bytes.now) }
    ensures well_formed { IfOk result (λ records. AreWellFormedFor header.now records.items) }
    ensures refused { IfErr result
        (λ fault. IsOfOldFile fault → RefusesOld header.now fault bytes.now) }
    ensures only { IfErr result (λ fault. IsOfOldFile fault ⊎ (fault ≡ Memory)) }
{
    let Some((front, behind)) = bytes.split_first_chunk::<HEADER>() else {
        return Err(MigrateFault::NotOld);
    };
    match header_of(front) {
        Some(found) if found == *header => match read_batches::<Version1>(alloc, header, behind) {
            Ok((_, records)) => Ok(records),
            Err(fault) => Err(old_fault(fault)),
        },
        Some(_) => Err(MigrateFault::OtherHeader),
        None => Err(MigrateFault::NotOld),
    }
}

/// The fault that bytes behind a header of version 1 have.
fn old_fault(fault: JournalFault) -> MigrateFault
    ensures { result ≡ old_fault_of fault }
{
    match fault {
        JournalFault::BadRecord => MigrateFault::BadRecord,
        JournalFault::CutShort => MigrateFault::CutShort,
        JournalFault::Memory => MigrateFault::Memory,
        JournalFault::NotEmpty
        | JournalFault::BadHeader
        | JournalFault::OtherHeader
        | JournalFault::Device
        | JournalFault::Stopped
        | JournalFault::Full
        | JournalFault::OldVersion => MigrateFault::OldDevice,
    }
}
