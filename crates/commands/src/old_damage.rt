//! The places at which the bytes of a journal of version 1 go wrong.

ghost use Rattle.std.specs.Prelude.{◌≡◌, ◌<◌, ◌++◌, ◌∷◌, [], drop, take, false, true, length, IfOk, IfSome, IsNone, List};
ghost use Rattle.terms_prelude.specs.Terms.{Header, Record};
ghost use Rattle.migration.specs.declared.fault.MigrateFault.{MigrateFault};
ghost use Rattle.migration.specs.Old.{HasOldHeader, HoldsOld, IsOldHeader, RefusesOld, old_header_text};
ghost use Rattle.commands.specs.OldDamage.{BeginsWithOldBatch, IsOldBadAlone, IsOldBadPlace, IsOldBadRecord, IsOldChunk, IsOldGoodUpTo, IsOldPlaceOf, IsOldSkipped, NoOldBatch, NoOldChunk};

use crate::damage::{HEAD, HEADER, batch_of, count_at, disk_of, file_of};
use migration::{MigrateFault, peek_old, read_old};
use std::alloc::Global;
use terms::{Header, Memory};

/// The length of a record.
const RECORD: usize = 7;

/// Finds the byte, counted from 0, at which the file of a journal of version 1 goes wrong by this
/// fault: its start for the faults of the header; for those of a batch the place behind the last
/// whole batch, or, if a record isn't well formed, that of the first such record. Returns None for
/// a fault that isn't the old file's.
///
/// [`Memory`]: memory was refused.
pub fn old_fault_place(
    alloc: Global,
    fault: MigrateFault,
    file: &[u8],
) -> Result<Option<usize>, Memory>
    ensures { IfOk result (IsOldPlaceOf fault file.now) }
{
    match fault {
        MigrateFault::NotOld | MigrateFault::OtherHeader => Ok(Some(0)),
        MigrateFault::BadRecord => Ok(Some(bad_place(alloc, file)?)),
        MigrateFault::CutShort => Ok(Some(good_length(alloc, file)?)),
        MigrateFault::NotEmpty
        | MigrateFault::OldDevice
        | MigrateFault::NewDevice
        | MigrateFault::Memory
        | MigrateFault::Full => Ok(None),
    }
}

/// Finds the place behind the whole batches of the file, or that of the first record behind it that
/// is refused alone.
fn bad_place(alloc: Global, file: &[u8]) -> Result<usize, Memory>
    ensures { IfOk result (IsOldBadPlace file.now) }
{
    let end = good_length(alloc, file)?;
    let Some(header) = header_of(alloc, file)? else {
        return Ok(end);
    };
    match bad_record(alloc, &header, file, end)? {
        Some(place) => Ok(place),
        None => Ok(end),
    }
}

/// Counts the bytes of the file that are its header and whole batches. Returns 0 if it begins with
/// no header.
fn good_length(alloc: Global, file: &[u8]) -> Result<usize, Memory>
    ensures good { IfOk result
        (λ place. (header : Header) → HasOldHeader header file.now →
        IsOldGoodUpTo header place file.now) }
    ensures none { IfOk result
        (λ place. ((header : Header) → HasOldHeader header file.now → ⊥) → place ≡ 0) }
{
    let Some(header) = header_of(alloc, file)? else {
        return Ok(0);
    };
    let (front, behind) = file.split_at(HEADER.min(file.len()));
    let rest = behind_batches(alloc, &header, front, behind)?;
    Ok(file.len() - rest.len())
}

/// Returns the header with which the file begins, if it begins with one.
fn header_of(alloc: Global, file: &[u8]) -> Result<Option<Header>, Memory>
    ensures some { IfOk result (λ found. IfSome found (λ header. HasOldHeader header file.now)) }
    ensures none { IfOk result
        (λ found. IsNone found → (header : Header) → HasOldHeader header file.now → ⊥) }
{
    let mut disk = disk_of(alloc, file)?;
    match peek_old(&mut disk) {
        Ok(header) => Ok(Some(header)),
        Err(MigrateFault::NotOld) => Ok(None),
        Err(_) => Err(Memory),
    }
}

/// Skips the batches with which these bytes begin.
fn behind_batches<'a>(
    alloc: Global,
    header: &Header,
    front: &[u8],
    bytes: &'a [u8],
) -> Result<&'a [u8], Memory>
    requires lawful { IsOldHeader header.now }
    requires front { front.now ≡ old_header_text header.now }
    ensures { IfOk result (λ rest. IsOldSkipped header.now bytes.now rest.now) }
{
    let mut rest = bytes;
    while let Some(behind) = behind_batch(alloc, header, front, rest)? {
        rest = behind;
    }
    Ok(rest)
}

/// Skips the batch with which these bytes begin, if they begin with one that has a gate behind it.
fn behind_batch<'a>(
    alloc: Global,
    header: &Header,
    front: &[u8],
    bytes: &'a [u8],
) -> Result<Option<&'a [u8]>, Memory>
    requires lawful { IsOldHeader header.now }
    requires front { front.now ≡ old_header_text header.now }
    ensures some { IfOk result
        (λ found. IfSome found (λ behind. BeginsWithOldBatch header.now bytes.now behind.now)) }
    ensures shorter { IfOk result
        (λ found. IfSome found (λ behind. length behind.now < length bytes.now)) }
    ensures none { IfOk result (λ found. IsNone found → NoOldBatch header.now bytes.now) }
{
    let Some((batch, behind)) = split_batch(bytes) else {
        return Ok(None);
    };
    if is_journal(alloc, header, front, batch)? {
        Ok(Some(behind))
    } else {
        Ok(None)
    }
}

/// Splits off the bytes that are a batch by its gate and its count, if there are such: the gate is
/// open, and no byte is missing up to the next gate.
fn split_batch(bytes: &[u8]) -> Option<(&[u8], &[u8])>
    ensures some { IfSome result
        (λ parts. IsOldChunk parts.0.now × (bytes.now ≡ parts.0.now ++ parts.1.now)
        × (length parts.1.now < length bytes.now) × (0 < length parts.1.now)) }
    ensures none { IsNone result → NoOldChunk bytes.now }
{
    let [gate, high, low, behind @ ..] = bytes else {
        return None;
    };
    if *gate == 0 {
        return None;
    }
    let records = RECORD * (usize::from(*high) * 256 + usize::from(*low));
    if behind.len() <= records {
        return None;
    }
    Some(bytes.split_at(HEAD + records))
}

/// Finds the first record that is refused alone, in the batch that begins at `end`.
fn bad_record(
    alloc: Global,
    header: &Header,
    file: &[u8],
    end: usize,
) -> Result<Option<usize>, Memory>
    ensures { IfOk result (λ found. IfSome found (IsOldBadRecord header.now end file.now)) }
{
    let front = &file[..HEADER.min(file.len())];
    for index in 0..count_at(file, end) {
        let place = end.saturating_add(HEAD + RECORD * index);
        let Some(record) = record_at(file, place) else {
            return Ok(None);
        };
        if is_bad_alone(alloc, header, front, record)? {
            return Ok(Some(place));
        }
    }
    Ok(None)
}

/// Returns the bytes of a record at that place of the file, if there are as many.
fn record_at(file: &[u8], place: usize) -> Option<&[u8]>
    ensures { IfSome result (λ bytes. bytes.now ≡ take 7 (drop place file.now)) }
{
    let behind = &file[place.min(file.len())..];
    if behind.len() < RECORD {
        return None;
    }
    Some(&behind[..RECORD])
}

/// Checks whether a batch of these bytes alone is refused.
fn is_bad_alone(alloc: Global, header: &Header, front: &[u8], bytes: &[u8]) -> Result<bool, Memory>
    ensures { IfOk result (λ bad. bad ≡ true → IsOldBadAlone header.now front.now bytes.now) }
{
    let batch = batch_of(alloc, bytes)?;
    let good = is_journal(alloc, header, front, &batch)?;
    Ok(!good)
}

/// Checks whether the file of this header's bytes, these and a closed gate is a journal of version
/// 1.
fn is_journal(alloc: Global, header: &Header, front: &[u8], bytes: &[u8]) -> Result<bool, Memory>
    ensures yes { IfOk result
        (λ is. is ≡ true → (records : List Record)
        × HoldsOld header.now records (front.now ++ bytes.now ++ 0 ∷ [])) }
    ensures no { IfOk result
        (λ is. is ≡ false → (fault : MigrateFault)
        × RefusesOld header.now fault (front.now ++ bytes.now ++ 0 ∷ [])) }
{
    let file = file_of(alloc, front, bytes)?;
    match read_old(alloc, header, &file) {
        Ok(_) => Ok(true),
        Err(MigrateFault::Memory) => Err(Memory),
        Err(_) => Ok(false),
    }
}
