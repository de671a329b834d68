//! The owner of a journal's file, in words.

ghost use Rattle.std.specs.Prelude.{◌≡◌, ◌==◌, IfOk, IfSome, IsNone, codes, string_bytes};
ghost use Rattle.commands.specs.Owners.{IsHeadless, IsJournalOf, IsLongOwner, IsNoJournal, IsOtherOwner, IsOwner, IsRefused, differences, header_words, long_words, other_words, owner_words, unless};

use crate::damage::{disk_of, header_of};
use journal::{Journal, JournalFault};
use std::alloc::{AllocError, Global};
use terms::{Header, Memory};

/// Returns whose journal the file is, where the one of this header was asked for, and in what they
/// differ: `of cluster 7 n 4 t 1 questions 1 member 1, and not of cluster 8 n 4 t 1 questions 1
/// member 1: cluster`. None where the file begins with no header.
///
/// [`Memory`]: memory was refused.
pub fn other_owner(alloc: Global, file: &[u8], asked: &Header) -> Result<Option<String>, Memory>
    ensures some { IfOk result
        (λ found. IfSome found (λ text. IsOtherOwner file.now asked.now (string_bytes text))) }
    ensures none { IfOk result (λ found. IsNone found → IsHeadless file.now) }
{
    let Some(found) = header_of(alloc, file)? else {
        return Ok(None);
    };
    Ok(Some(other_words(alloc, &found, asked)?))
}

/// Returns the words for a journal that is of the one header and not of the other.
fn other_words(alloc: Global, found: &Header, asked: &Header) -> Result<String, AllocError>
    ensures { IfOk result (λ text. string_bytes text ≡ other_words found.now asked.now) }
{
    format!(in alloc;
        "of {}, and not of {}:{}",
        header_words(alloc, found)?,
        header_words(alloc, asked)?,
        differences(alloc, found, asked)?
    )
}

/// The cluster, its size and the member of a header.
fn header_words(alloc: Global, header: &Header) -> Result<String, AllocError>
    ensures { IfOk result (λ text. string_bytes text ≡ header_words header.now) }
{
    let size = header.size();
    format!(in alloc;
        "cluster {} n {} t {} questions {} member {}",
        header.cluster(),
        size.n(),
        size.t(),
        size.questions(),
        header.me()
    )
}

/// In what the headers differ, each behind a blank.
fn differences(alloc: Global, one: &Header, other: &Header) -> Result<String, AllocError>
    ensures { IfOk result (λ text. string_bytes text ≡ differences one.now other.now) }
{
    let (size, asked) = (one.size(), other.size());
    format!(in alloc;
        "{}{}{}{}{}",
        unless(one.cluster() == other.cluster(), " cluster"),
        unless(size.n() == asked.n(), " n"),
        unless(size.t() == asked.t(), " t"),
        unless(size.questions() == asked.questions(), " questions"),
        unless(one.me() == other.me(), " member")
    )
}

/// Returns whose journal the file is, and of how many records: `the journal of member 1 of cluster
/// 7 with 3 records`. None where it is none.
///
/// [`Memory`]: memory was refused.
pub fn owner(alloc: Global, file: &[u8]) -> Result<Option<String>, Memory>
    ensures some { IfOk result
        (λ found. IfSome found (λ text. IsOwner file.now (string_bytes text))) }
    ensures none { IfOk result (λ found. IsNone found → IsNoJournal file.now) }
{
    let Some(header) = header_of(alloc, file)? else {
        return Ok(None);
    };
    let Some(count) = count_in(alloc, &header, file)? else {
        return Ok(None);
    };
    Ok(Some(owner_words(alloc, &header, count)?))
}

/// Returns how many records the journal in the file has, if it is one of that header.
fn count_in(alloc: Global, header: &Header, file: &[u8]) -> Result<Option<usize>, Memory>
    ensures some { IfOk result (λ found. IfSome found (IsJournalOf file.now header.now)) }
    ensures none { IfOk result (λ found. IsNone found → IsRefused file.now header.now) }
{
    let disk = disk_of(alloc, file)?;
    match Journal::open(alloc, disk, header) {
        Ok((_, records)) => Ok(Some(records.len())),
        Err(JournalFault::Memory) | Err(JournalFault::Device) => Err(Memory),
        Err(_) => Ok(None),
    }
}

/// Returns whose journal it is, and of how many records.
fn owner_words(alloc: Global, header: &Header, count: usize) -> Result<String, AllocError>
    ensures { IfOk result (λ text. string_bytes text ≡ owner_words header.now count) }
{
    format!(in alloc;
        "the journal of member {} of cluster {} with {} record{}",
        header.me(),
        header.cluster(),
        count,
        unless(count == 1, "s")
    )
}

/// The word, or nothing where that is so.
fn unless(so: bool, word: &'static str) -> &'static str
    ensures { result.now ≡ unless so word.now }
{
    if so { "" } else { word }
}

/// Returns whose journal a file of that many bytes is, by these first ones of it, where it is too
/// long for its records to be counted: `begins as the journal of member 1 of cluster 7 and has
/// 20000025 bytes`. None where they begin with no header.
///
/// [`Memory`]: memory was refused.
pub fn long_owner(alloc: Global, front: &[u8], length: u64) -> Result<Option<String>, Memory>
    ensures some { IfOk result
        (λ found. IfSome found (λ text. IsLongOwner front.now length (string_bytes text))) }
    ensures none { IfOk result (λ found. IsNone found → IsHeadless front.now) }
{
    let Some(header) = header_of(alloc, front)? else {
        return Ok(None);
    };
    Ok(Some(long_words(alloc, &header, length)?))
}

/// Returns whose journal a file of that many bytes begins as.
fn long_words(alloc: Global, header: &Header, length: u64) -> Result<String, AllocError>
    ensures { IfOk result (λ text. string_bytes text ≡ long_words header.now length) }
{
    format!(in alloc;
        "begins as the journal of member {} of cluster {} and has {} bytes",
        header.me(),
        header.cluster(),
        length
    )
}
