//! What an opening answers to a journal's file, whole, cut and changed.
//!
//! `file DIGITS` is a file's bytes, and `more DIGITS` lengthens it. `open N T QUESTIONS ME` opens
//! it for a member of cluster 7: the records, or the fault. `open` opens it for the member that its
//! header names, and answers the count of records. `header` tells that member. `set PLACE DIGITS`
//! opens it with that byte at that place, `cut LENGTH` opens its front. `cuts` opens every front,
//! and `bytes PLACE` the file with each value at that place: each answers its runs, a first number,
//! a last one, and what is answered to all of them. `place FAULT` answers the byte at which the
//! file goes wrong by that fault, or `none`, `old place FAULT` the same of a journal of version 1,
//! and `shown PLACE` the bytes from a place on, as people see them.

use crate::values::header_named;
use commands::{bytes_at as shown, fault_place, old_fault_place};
use disk::{Disk, MemDisk};
use journal::{Journal, JournalFault, peek};
use migration::MigrateFault;
use std::alloc::{AllocError, Global};
use terms::Header;
use test_words::{Runs, bytes_of, disk_of, header_text, journal_fault, records_text};

/// A journal's file.
#[derive(Drop)]
pub struct File {
    alloc: Global,
    bytes: Vec<u8>,
}

impl File {
    /// Of no byte.
    pub fn new(alloc: Global) -> File {
        File {
            alloc,
            bytes: Vec::new(alloc),
        }
    }

    /// Plays a row.
    pub fn told(&mut self, action: &str) -> Option<String> {
        match action.split_once(' ') {
            Some((word, rest)) => self.given(word, rest),
            None => self.plain(action),
        }
    }

    /// Plays a row of a word and values.
    fn given(&mut self, word: &str, values: &str) -> Option<String> {
        match word {
            "file" => self.put(values),
            "more" => self.add(values),
            "open" => opened(self.alloc, values, &self.bytes),
            "place" => place_of(self.alloc, values, &self.bytes),
            "old" => old_place_of(self.alloc, values, &self.bytes),
            "shown" => shown(self.alloc, &self.bytes, values.parse().ok()?).ok(),
            "set" => self.set(values),
            "bytes" => self.bytes_at(values.parse().ok()?),
            _ => None,
        }
    }

    /// Returns what is answered with a byte changed.
    fn set(&mut self, values: &str) -> Option<String> {
        let (at, digits) = values.split_once(' ')?;
        let (at, byte) = (at.parse().ok()?, byte_of(self.alloc, digits)?);
        let header = self.header().ok()?;
        let answer = with_byte(
            self.alloc,
            Some(header),
            self.bytes.as_mut_slice(),
            at,
            byte,
        );
        answer_text(self.alloc, answer).ok()
    }

    /// Returns what is answered with each value at a place.
    fn bytes_at(&mut self, at: usize) -> Option<String> {
        let header = self.header().ok()?;
        bytes_at(self.alloc, header, self.bytes.as_mut_slice(), at).ok()
    }

    /// Plays a row of one word.
    fn plain(&mut self, word: &str) -> Option<String> {
        match word {
            "file" => self.put(""),
            "header" => self.header_text(),
            "open" => answer_text(self.alloc, opening(self.alloc, None, &self.bytes)).ok(),
            "cuts" => cuts(self.alloc, self.header().ok()?, &self.bytes).ok(),
            _ => None,
        }
    }

    /// Puts in these bytes.
    fn put(&mut self, digits: &str) -> Option<String> {
        self.bytes.clear();
        self.add(digits)
    }

    /// Lengthens it.
    fn add(&mut self, digits: &str) -> Option<String> {
        let bytes = bytes_of(self.alloc, digits)?;
        self.bytes.extend_from_slice(&bytes).ok()?;
        Some(String::new(self.alloc))
    }

    /// The member that its header names, or the fault.
    fn header_text(&self) -> Option<String> {
        match self.header() {
            Ok(header) => header_text(self.alloc, &header),
            Err(fault) => format!(in self.alloc; "{fault}").ok(),
        }
    }

    /// The header of its first bytes.
    fn header(&self) -> Result<Header, JournalFault> {
        peek(&mut disk_of(self.alloc, &self.bytes)?)
    }
}

/// The records that an opening gives to a member of cluster 7, or its fault.
fn opened(alloc: Global, values: &str, bytes: &[u8]) -> Option<String> {
    let header = header_named(alloc, values)?;
    match Journal::open(alloc, disk_of(alloc, bytes).ok()?, &header) {
        Ok((_, records)) => records_text(alloc, "", records.as_slice()).ok(),
        Err(fault) => format!(in alloc; "{fault}").ok(),
    }
}

/// The byte of two digits.
fn byte_of(alloc: Global, digits: &str) -> Option<u8> {
    match bytes_of(alloc, digits)?.as_slice() {
        [byte] => Some(*byte),
        _ => None,
    }
}

/// Tells the byte at which a file goes wrong by a fault of its opening.
fn place_of(alloc: Global, fault: &str, bytes: &[u8]) -> Option<String> {
    let place = fault_place(alloc, journal_fault(fault)?, bytes).ok()?;
    place_text(alloc, place)
}

/// Tells the byte at which a file of version 1 goes wrong by a fault of its migration.
fn old_place_of(alloc: Global, values: &str, bytes: &[u8]) -> Option<String> {
    let fault = values.strip_prefix("place ")?;
    let place = old_fault_place(alloc, migrate_fault(fault)?, bytes).ok()?;
    place_text(alloc, place)
}

/// Reads the name of a fault of a migration.
fn migrate_fault(name: &str) -> Option<MigrateFault> {
    match name {
        "NotEmpty" => Some(MigrateFault::NotEmpty),
        "NotOld" => Some(MigrateFault::NotOld),
        "OtherHeader" => Some(MigrateFault::OtherHeader),
        "BadRecord" => Some(MigrateFault::BadRecord),
        "CutShort" => Some(MigrateFault::CutShort),
        "OldDevice" => Some(MigrateFault::OldDevice),
        "NewDevice" => Some(MigrateFault::NewDevice),
        "Memory" => Some(MigrateFault::Memory),
        "Full" => Some(MigrateFault::Full),
        _ => None,
    }
}

/// Writes a place, or that there is none.
fn place_text(alloc: Global, place: Option<usize>) -> Option<String> {
    match place {
        Some(place) => format!(in alloc; "{place}").ok(),
        None => format!(in alloc; "none").ok(),
    }
}

/// The answers to the file, cut to each length.
fn cuts(alloc: Global, header: Header, bytes: &[u8]) -> Result<String, AllocError> {
    let mut runs = Runs::new(alloc);
    for len in 0..bytes.len() {
        let (front, _) = bytes.split_at(len);
        take(alloc, &mut runs, opening(alloc, Some(header), front))?;
    }
    runs.finish()
}

/// The answers to the file with each value at a place.
fn bytes_at(
    alloc: Global,
    header: Header,
    bytes: &mut [u8],
    at: usize,
) -> Result<String, AllocError> {
    let mut runs = Runs::new(alloc);
    for byte in 0..256u16 {
        let answer = with_byte(alloc, Some(header), bytes, at, byte as u8);
        take(alloc, &mut runs, answer)?;
    }
    runs.finish()
}

/// The file's answer with that byte at a place, which has its own again then.
fn with_byte(
    alloc: Global,
    header: Option<Header>,
    bytes: &mut [u8],
    at: usize,
    byte: u8,
) -> Answer {
    let Some(own) = bytes.get(at).copied() else {
        return opening(alloc, header, bytes);
    };
    bytes[at] = byte;
    let answer = opening(alloc, header, bytes);
    bytes[at] = own;
    answer
}

/// Returns what an opening of a file of these bytes answers: for that header, or for its own.
fn opening(alloc: Global, header: Option<Header>, bytes: &[u8]) -> Answer {
    let mut disk = disk_of(alloc, bytes)?;
    let header = match header {
        Some(header) => header,
        None => peek(&mut disk)?,
    };
    let (_, records) = Journal::open(alloc, disk, &header)?;
    Ok(records.len())
}

/// Adds an answer to the runs.
fn take(alloc: Global, runs: &mut Runs, answer: Answer) -> Result<(), AllocError> {
    runs.take(answer_text(alloc, answer)?)
}

/// Returns what is said of an answer.
fn answer_text(alloc: Global, answer: Answer) -> Result<String, AllocError> {
    match answer {
        Ok(count) => format!(in alloc; "{count}"),
        Err(fault) => format!(in alloc; "{fault}"),
    }
}

/// The number of records that an opening gives, or its fault.
type Answer = Result<usize, JournalFault>;
