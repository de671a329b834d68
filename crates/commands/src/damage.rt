//! The place in a journal at which its bytes go wrong, and the bytes there.

ghost use Rattle.std.specs.Prelude.{◌≡◌, ◌<◌, ◌++◌, ◌∷◌, [], ℕ, drop, take, false, true, length, IfOk, IfSome, IsNone, List, string_bytes};
ghost use Rattle.disk.specs.Memory.{memory_state};
ghost use Rattle.terms_prelude.specs.Terms.{Header, Record};
ghost use Rattle.journal.specs.declared.fault.JournalFault.{JournalFault};
ghost use Rattle.journal.specs.File.{HasHeader, Holds, RefusesFile};
ghost use Rattle.journal.specs.Texts.{header_text};
ghost use Rattle.journal.specs.WellFormed.{IsHeader};
ghost use Rattle.commands.specs.Damage.{BeginsWithBatch, IsBadAlone, IsBadPlace, IsBadRecord, IsChunk, IsGoodUpTo, IsPlaceOf, IsSkipped, NoBatch, NoChunk, byte_word, hex_words, shown_bytes};

use disk::{Disk, MemDisk};
use journal::{Journal, JournalFault};
use std::alloc::{AllocError, Global};
use terms::{Header, Memory};

/// The length of a journal's header.
pub(crate) const HEADER: usize = 24;

/// The length of a batch's gate and its count.
pub(crate) const HEAD: usize = 3;

/// The length of a record.
const RECORD: usize = 6;

/// The number of bytes that are shown.
const SHOWN: usize = 16;

/// Returns how many records the batch has that begins at that place, by its count.
pub(crate) fn count_at(file: &[u8], place: usize) -> usize
    ensures { result < 65536 }
{
    match &file[place.min(file.len())..] {
        [_, high, low, ..] => usize::from(*high) * 256 + usize::from(*low),
        _ => 0,
    }
}

/// The place of the byte, counted from 0, at which a journal's file goes wrong by this fault: its
/// start for the faults of the header and a file that should have been empty; for those of a batch
/// the place behind the last whole batch, or, where a record isn't well formed, that of the first
/// such record. None for a fault that isn't the file's.
///
/// [`Memory`]: memory was refused.
pub fn fault_place(alloc: Global, fault: JournalFault, file: &[u8]) -> Result<Option<usize>, Memory>
    ensures { IfOk result (IsPlaceOf fault file.now) }
{
    match fault {
        JournalFault::NotEmpty
        | JournalFault::BadHeader
        | JournalFault::OtherHeader
        | JournalFault::OldVersion => Ok(Some(0)),
        JournalFault::BadRecord => Ok(Some(bad_place(alloc, file)?)),
        JournalFault::CutShort => Ok(Some(good_length(alloc, file)?)),
        JournalFault::Device | JournalFault::Memory | JournalFault::Stopped | JournalFault::Full =>
            Ok(None),
    }
}

/// The place behind the whole batches of a file, or of the first record behind it that is refused
/// alone.
fn bad_place(alloc: Global, file: &[u8]) -> Result<usize, Memory>
    ensures { IfOk result (IsBadPlace file.now) }
{
    let end = good_length(alloc, file)?;
    let Some(header) = header_of(alloc, file)? else {
        return Ok(end);
    };
    match bad_record(alloc, &header, file, end)? {
        Some(place) => Ok(place),
        None => Ok(end),
    }
}

/// Returns how many bytes of a journal's file, from its start, are its header and whole batches. 0
/// where it begins with no header.
fn good_length(alloc: Global, file: &[u8]) -> Result<usize, Memory>
    ensures good { IfOk result
        (λ place. (header : Header) → HasHeader header file.now →
        IsGoodUpTo header place file.now) }
    ensures none { IfOk result
        (λ place. ((header : Header) → HasHeader header file.now → ⊥) → place ≡ 0) }
{
    let Some(header) = header_of(alloc, file)? else {
        return Ok(0);
    };
    let (front, behind) = file.split_at(HEADER.min(file.len()));
    let rest = behind_batches(alloc, &header, front, behind)?;
    Ok(file.len() - rest.len())
}

/// Returns what stands behind the batches with which these bytes begin.
fn behind_batches<'a>(
    alloc: Global,
    header: &Header,
    front: &[u8],
    bytes: &'a [u8],
) -> Result<&'a [u8], Memory>
    requires lawful { IsHeader header.now }
    requires front { front.now ≡ header_text header.now }
    ensures { IfOk result (λ rest. IsSkipped header.now bytes.now rest.now) }
{
    let mut rest = bytes;
    while let Some(behind) = behind_batch(alloc, header, front, rest)? {
        rest = behind;
    }
    Ok(rest)
}

/// Returns what stands behind the batch with which these bytes begin, if they begin with one that
/// has a gate behind it.
fn behind_batch<'a>(
    alloc: Global,
    header: &Header,
    front: &[u8],
    bytes: &'a [u8],
) -> Result<Option<&'a [u8]>, Memory>
    requires lawful { IsHeader header.now }
    requires front { front.now ≡ header_text header.now }
    ensures some { IfOk result
        (λ found. IfSome found (λ behind. BeginsWithBatch header.now bytes.now behind.now)) }
    ensures shorter { IfOk result
        (λ found. IfSome found (λ behind. length behind.now < length bytes.now)) }
    ensures none { IfOk result (λ found. IsNone found → NoBatch header.now bytes.now) }
{
    let Some((batch, behind)) = split_batch(bytes) else {
        return Ok(None);
    };
    if is_journal(alloc, header, front, batch)? {
        Ok(Some(behind))
    } else {
        Ok(None)
    }
}

/// The bytes that are a batch by its gate and its count, if these begin so, and what stands behind
/// them: there is an open gate, and no byte is missing up to the next gate.
fn split_batch(bytes: &[u8]) -> Option<(&[u8], &[u8])>
    ensures some { IfSome result
        (λ parts. IsChunk parts.0.now × (bytes.now ≡ parts.0.now ++ parts.1.now)
        × (length parts.1.now < length bytes.now) × (0 < length parts.1.now)) }
    ensures none { IsNone result → NoChunk bytes.now }
{
    let [gate, high, low, behind @ ..] = bytes else {
        return None;
    };
    if *gate == 0 {
        return None;
    }
    let records = RECORD * (usize::from(*high) * 256 + usize::from(*low));
    if behind.len() <= records {
        return None;
    }
    Some(bytes.split_at(HEAD + records))
}

/// The place of the first record that is refused alone, of the batch that begins behind that place.
fn bad_record(
    alloc: Global,
    header: &Header,
    file: &[u8],
    end: usize,
) -> Result<Option<usize>, Memory>
    ensures { IfOk result (λ found. IfSome found (IsBadRecord header.now end file.now)) }
{
    let front = &file[..HEADER.min(file.len())];
    for index in 0..count_at(file, end) {
        let place = end.saturating_add(HEAD + RECORD * index);
        let Some(record) = record_at(file, place) else {
            return Ok(None);
        };
        if is_bad_alone(alloc, header, front, record)? {
            return Ok(Some(place));
        }
    }
    Ok(None)
}

/// The bytes of a record at that place of the file, if there are as many.
fn record_at(file: &[u8], place: usize) -> Option<&[u8]>
    ensures { IfSome result (λ bytes. bytes.now ≡ take 6 (drop place file.now)) }
{
    let behind = &file[place.min(file.len())..];
    if behind.len() < RECORD {
        return None;
    }
    Some(&behind[..RECORD])
}

/// Returns `true` if a batch of these bytes alone is refused.
fn is_bad_alone(alloc: Global, header: &Header, front: &[u8], bytes: &[u8]) -> Result<bool, Memory>
    ensures { IfOk result (λ bad. bad ≡ true → IsBadAlone header.now front.now bytes.now) }
{
    let batch = batch_of(alloc, bytes)?;
    let good = is_journal(alloc, header, front, &batch)?;
    Ok(!good)
}

/// Returns `true` if the file of this header's bytes, these and a closed gate is a journal.
fn is_journal(alloc: Global, header: &Header, front: &[u8], bytes: &[u8]) -> Result<bool, Memory>
    ensures yes { IfOk result
        (λ is. is ≡ true → (records : List Record)
        × Holds header.now records (front.now ++ bytes.now ++ 0 ∷ [])) }
    ensures no { IfOk result
        (λ is. is ≡ false → (fault : JournalFault)
        × RefusesFile header.now fault (front.now ++ bytes.now ++ 0 ∷ [])) }
{
    let file = file_of(alloc, front, bytes)?;
    let disk = disk_of(alloc, &file)?;
    match Journal::open(alloc, disk, header) {
        Ok(_) => Ok(true),
        Err(JournalFault::Memory) | Err(JournalFault::Device) => Err(Memory),
        Err(_) => Ok(false),
    }
}

/// The header with which the file begins, if it begins with one.
pub(crate) fn header_of(alloc: Global, file: &[u8]) -> Result<Option<Header>, Memory>
    ensures some { IfOk result (λ found. IfSome found (λ header. HasHeader header file.now)) }
    ensures none { IfOk result
        (λ found. IsNone found → (header : Header) → HasHeader header file.now → ⊥) }
{
    let mut disk = disk_of(alloc, file)?;
    match journal::peek(&mut disk) {
        Ok(header) => Ok(Some(header)),
        Err(JournalFault::BadHeader) => Ok(None),
        Err(JournalFault::OldVersion) => Ok(None),
        Err(_) => Err(Memory),
    }
}

/// A disk in memory whose file has these bytes.
pub(crate) fn disk_of(alloc: Global, bytes: &[u8]) -> Result<MemDisk, Memory>
    ensures { IfOk result (λ disk. (memory_state disk).seen ≡ bytes.now) }
{
    let mut disk = MemDisk::new(alloc);
    match disk.write_at(0, bytes) {
        Ok(()) => Ok(disk),
        Err(_) => Err(Memory),
    }
}

/// The header's bytes, these, and a closed gate.
pub(crate) fn file_of(alloc: Global, front: &[u8], bytes: &[u8]) -> Result<Vec<u8>, AllocError>
    ensures { IfOk result (λ file. file.items ≡ front.now ++ bytes.now ++ 0 ∷ []) }
{
    let mut file = Vec::new(alloc);
    file.extend_from_slice(front)?;
    file.extend_from_slice(bytes)?;
    file.push(0)?;
    Ok(file)
}

/// A gate, the count 1, and these bytes.
pub(crate) fn batch_of(alloc: Global, bytes: &[u8]) -> Result<Vec<u8>, AllocError>
    ensures { IfOk result (λ batch. batch.items ≡ 1 ∷ 0 ∷ 1 ∷ bytes.now) }
{
    let mut batch = Vec::new(alloc);
    batch.extend_from_slice(&[1, 0, 1])?;
    batch.extend_from_slice(bytes)?;
    Ok(batch)
}

/// The bytes at a place of a file, for people: `bytes 01 00 01`, with ` ..` behind the sixteenth
/// where there are more, or `end of file`.
pub fn bytes_at(alloc: Global, file: &[u8], place: usize) -> Result<String, AllocError>
    ensures { IfOk result (λ text. string_bytes text ≡ shown_bytes (drop place file.now)) }
{
    let bytes = &file[place.min(file.len())..];
    if bytes.is_empty() {
        return String::from_str(alloc, "end of file");
    }
    if bytes.len() > SHOWN {
        return format!(in alloc; "bytes{} ..", hex_words(alloc, &bytes[..SHOWN])?);
    }
    format!(in alloc; "bytes{}", hex_words(alloc, bytes)?)
}

/// The bytes, each in two lower case hexadecimal digits behind a blank.
fn hex_words(alloc: Global, bytes: &[u8]) -> Result<String, AllocError>
    ensures { IfOk result (λ text. string_bytes text ≡ hex_words bytes.now) }
{
    let mut text = String::new(alloc);
    for byte in bytes {
        text.push_str(byte_word(alloc, *byte)?.as_str())?;
    }
    Ok(text)
}

/// A byte in two lower case hexadecimal digits, behind a blank.
fn byte_word(alloc: Global, byte: u8) -> Result<String, AllocError>
    ensures { IfOk result (λ text. string_bytes text ≡ byte_word byte) }
{
    format!(in alloc; " {byte:02x}")
}
