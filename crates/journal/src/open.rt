//! Making a journal's file, and reading it.
ghost use Rattle.std.specs.Prelude.{◌≡◌, ◌≢◌, ◌⊎◌, ◌+◌, ◌<◌, ◌≤◌, ℕ, List, [], ◌∷◌, ◌++◌, drop, length, IsErr, IsErrOf, IfOk, IfErr, OnOk, OnErr};
ghost use Rattle.terms_prelude.specs.Terms.{Header};
ghost use Rattle.disk.specs.Model.{State, MayLeave, LeavesOnly, at_rest, after_write};
ghost use Rattle.journal.specs.Texts.{header_text};
ghost use Rattle.journal.specs.File.{HasHeader, Holds, IsOldVersion, RefusesFile, IsHeld};
ghost use Rattle.journal.specs.Faults.{IsFaultOfCreate, IsFaultOfPeek, IsOfFile};
ghost use Rattle.journal.specs.Outcomes.{WasRead, HandsBack, SparesBytes};
ghost use Rattle.journal.specs.declared.fault.JournalFault.TheVariants.{Device, Memory};

use crate::JournalFault;
use crate::header::{HEADER, header_of, is_old, new_file};
use crate::layout::Version2;
use crate::read::read_batches;
use disk::Disk;
use std::alloc::Global;
use terms::{Header, Record};

/// Writes a journal of no records into an empty file, by three calls of the device: `len`, one
/// write of 25 bytes, and `sync`. It takes no memory.
///
/// - `NotEmpty`: the file has bytes already. Nothing was written.
/// - `Device`: the disk failed. The file may have any of the bytes.
pub fn create<D: Disk>(disk: &mut D, header: &Header) -> Result<(), JournalFault>
    ensures file { D.keeps disk.new →
        OnOk result (D.state disk.new ≡ at_rest (header_text header.now ++ 0 ∷ [])) }
    ensures created { D.keeps disk.new → OnOk result (Holds header.now [] (D.state disk.new).seen) }
    ensures durable { D.keeps disk.new → OnOk result (
        (file : List ℕ) → MayLeave (D.state disk.new) file → Holds header.now [] file) }

    // A crash at any moment leaves nothing but what it might have left before, or might leave after
    // the one write.
    ensures any_moment { D.keeps disk.new → LeavesOnly D.moment D.since disk.old disk.new
        (MayLeave (after_write (D.state disk.old) 0 (header_text header.now ++ 0 ∷ []))) }
    ensures three_calls { D.keeps disk.new →
        OnOk result (D.moment disk.new ≡ D.moment disk.old + 3) }

    ensures was_empty { D.keeps disk.new → OnOk result (length (D.state disk.old).seen ≡ 0) }
    ensures not_empty { D.keeps disk.new → IsErrOf result JournalFault.NotEmpty →
        0 < length (D.state disk.old).seen }
    ensures not_empty_same { D.keeps disk.new → IsErrOf result JournalFault.NotEmpty →
        D.state disk.new ≡ D.state disk.old }
    // A file that has bytes is never written, whichever the fault.
    ensures spared { SparesBytes D.Disk disk.old disk.new }
    ensures device { IsErrOf result JournalFault.Device →
        D.failures disk.old < D.failures disk.new }
    ensures only { IfErr result IsFaultOfCreate }
    ensures later { D.failures disk.old ≤ D.failures disk.new }
    ensures kept { D.keeps disk.new → D.keeps disk.old }
{
    write_new(disk, &new_file(header))?;
    Ok(())
}

/// Writes these bytes into an empty file, by three calls of the device: `len`, one write, and
/// `sync`.
pub(crate) fn write_new<D: Disk>(disk: &mut D, bytes: &[u8]) -> Result<(), JournalFault>
    ensures file { D.keeps disk.new → OnOk result (D.state disk.new ≡ at_rest bytes.now) }
    ensures any_moment { D.keeps disk.new → LeavesOnly D.moment D.since disk.old disk.new
        (MayLeave (after_write (D.state disk.old) 0 bytes.now)) }
    ensures three_calls { D.keeps disk.new →
        OnOk result (D.moment disk.new ≡ D.moment disk.old + 3) }
    ensures quiet { OnOk result (D.failures disk.new ≡ D.failures disk.old) }

    ensures was_empty { D.keeps disk.new → OnOk result (length (D.state disk.old).seen ≡ 0) }
    ensures not_empty { D.keeps disk.new → IsErrOf result JournalFault.NotEmpty →
        0 < length (D.state disk.old).seen }
    ensures not_empty_same { D.keeps disk.new → IsErrOf result JournalFault.NotEmpty →
        D.state disk.new ≡ D.state disk.old }
    // A file that has bytes is never written, whichever the fault.
    ensures spared { SparesBytes D.Disk disk.old disk.new }
    ensures device { IsErrOf result JournalFault.Device →
        D.failures disk.old < D.failures disk.new }
    ensures only { IfErr result IsFaultOfCreate }
    ensures later { D.failures disk.old ≤ D.failures disk.new }
    ensures kept { D.keeps disk.new → D.keeps disk.old }
{
    if disk.len()? != 0 {
        return Err(JournalFault::NotEmpty);
    }
    disk.write_at(0, bytes)?;
    Ok(disk.sync()?)
}

/// The header that a file begins with, by two calls of the device: `len`, and one read of the first
/// 24 bytes, or of all where there are fewer. It takes no memory, and changes no byte.
///
/// - `BadHeader`: the file begins with no header, and isn't of version 1.
/// - `OldVersion`: the file is of version 1.
/// - `Device`: the disk failed.
pub fn peek<D: Disk>(disk: &mut D) -> Result<Header, JournalFault>
    ensures header { D.keeps disk.new →
        IfOk result (λ header. HasHeader header (D.state disk.old).seen) }
    ensures bad_header { D.keeps disk.new → IsErrOf result JournalFault.BadHeader →
        (header : Header) → HasHeader header (D.state disk.old).seen → ⊥ }
    ensures not_old { D.keeps disk.new → IsErrOf result JournalFault.BadHeader →
        IsOldVersion (D.state disk.old).seen → ⊥ }
    ensures old_version { D.keeps disk.new → IsErrOf result JournalFault.OldVersion →
        IsOldVersion (D.state disk.old).seen }
    ensures same { D.keeps disk.new → D.state disk.new ≡ D.state disk.old }
    ensures any_moment { D.keeps disk.new →
        LeavesOnly D.moment D.since disk.old disk.new (MayLeave (D.state disk.old)) }
    ensures two_calls { D.keeps disk.new → IsErrOf result JournalFault.Device
        ⊎ (D.moment disk.new ≡ D.moment disk.old + 2) }

    ensures device { IsErrOf result JournalFault.Device →
        D.failures disk.old < D.failures disk.new }
    ensures only { IfErr result IsFaultOfPeek }
    ensures later { D.failures disk.old ≤ D.failures disk.new }
    ensures kept { D.keeps disk.new → D.keeps disk.old }
{
    let len = disk.len()?;
    let mut bytes = [0; HEADER];
    disk.read_at(0, &mut bytes[..len.min(HEADER)])?;
    if len < HEADER {
        return Err(JournalFault::BadHeader);
    }
    match header_of(&bytes) {
        Some(header) => Ok(header),
        None if is_old(&bytes) => Err(JournalFault::OldVersion),
        None => Err(JournalFault::BadHeader),
    }
}

/// The place of the closed gate, and the records before it, of a file all of which is on the disk
/// from then on.
pub(crate) fn load<D: Disk>(
    alloc: Global,
    disk: &mut D,
    header: &Header,
) -> Result<(usize, Vec<Record>), JournalFault>
    ensures held { D.keeps disk.new →
        IfOk result (λ held. IsHeld (D.state disk.new) header.now held.0 held.1.items) }
    ensures read { OnOk result (WasRead D.Disk disk.old disk.new) }
    ensures fault { IfErr result (λ fault. HandsBack D.Disk disk.old header.now fault disk.new) }
{
    let bytes = fetch(alloc, disk)?;
    read_file(alloc, header, &bytes)
}

/// All the bytes, once they are on the disk.
pub(crate) fn fetch<D: Disk>(alloc: Global, disk: &mut D) -> Result<Vec<u8>, JournalFault>
    ensures bytes { D.keeps disk.new →
        IfOk result (λ bytes. bytes.items ≡ (D.state disk.old).seen) }
    ensures read { OnOk result (WasRead D.Disk disk.old disk.new) }
    ensures fault { IfErr result
        (λ fault. (header : Header) → HandsBack D.Disk disk.old header fault disk.new) }
{
    disk.sync()?;
    let len = disk.len()?;
    let mut bytes = vec![in alloc; 0; len]?;
    disk.read_at(0, &mut bytes)?;
    Ok(bytes)
}

/// Reads a journal's bytes, as a file of it has them: the place of its closed gate, and the records
/// before it, oldest first. A disk is no part of it, so it is for who keeps a journal's bytes
/// elsewhere; [`Journal::adopt`](crate::Journal::adopt) reads one from a disk.
///
/// Refused with the first fault in the file: [`JournalFault::BadHeader`], where it begins as no
/// journal does, and [`JournalFault::OldVersion`], where as one of version 1;
/// [`JournalFault::OtherHeader`], where it is another member's; [`JournalFault::CutShort`] and
/// [`JournalFault::BadRecord`]. [`JournalFault::Memory`]: there was none for the records.
pub fn read_file(
    alloc: Global,
    header: &Header,
    bytes: &[u8],
) -> Result<(usize, Vec<Record>), JournalFault>
    ensures held { IfOk result (λ held. IsHeld (at_rest bytes.now) header.now held.0 held.1.items) }
    ensures refused { IfErr result
        (λ fault. IsOfFile fault → RefusesFile header.now fault bytes.now) }
    ensures only { IfErr result (λ fault. IsOfFile fault ⊎ (fault ≡ Memory)) }
{
    let behind = behind_header(header, bytes)?;
    let (gate, records) = read_batches::<Version2>(alloc, header, behind)?;
    Ok((HEADER + gate, records))
}

/// The bytes behind the header, which is to be this one.
pub(crate) fn behind_header<'a>(header: &Header, bytes: &'a [u8]) -> Result<&'a [u8], JournalFault>
    ensures header { OnOk result (HasHeader header.now bytes.now) }
    ensures behind { IfOk result (λ behind. behind.now ≡ drop 24 bytes.now) }
    ensures refused { IfErr result (λ fault. RefusesFile header.now fault bytes.now) }
    ensures only { IfErr result IsOfFile }
{
    let Some((front, behind)) = bytes.split_first_chunk::<HEADER>() else {
        return Err(JournalFault::BadHeader);
    };
    match header_of(front) {
        Some(found) if found == *header => Ok(behind),
        Some(_) => Err(JournalFault::OtherHeader),
        None if is_old(front) => Err(JournalFault::OldVersion),
        None => Err(JournalFault::BadHeader),
    }
}
