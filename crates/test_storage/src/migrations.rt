//! Bringing a journal of version 1 over: what is answered, the new file's bytes, and what a crash
//! at each call leaves of it.
//!
//! `old DIGITS` is the old file; `more DIGITS` lengthens it, `more DIGITS TIMES` so many times.
//! `peek` tells the member that its header names. `migrate` brings it over into an empty file for
//! that member, `migrate N T QUESTIONS ME` for a member of cluster 7, and `migrate over DIGITS`
//! into a file that has these bytes: the number of records, or the fault. `cuts` brings every front
//! of it over, and `bytes PLACE` the file with each value at that place, for the member that the
//! whole one names: each answers its runs.
//!
//! `stop begin CALLS PICK` lets so many calls of the new disk pass in beginning; `stop new CALLS
//! PICK` and `stop old CALLS PICK` let so many of that disk pass in finishing. Then comes a crash
//! of the new disk with that pick. What is answered is how it ended, and what opening the new file
//! then gives: the number of its records, or the fault. `stops new PICK` and the like do it with
//! every number of calls until it doesn't fail: the runs of answers.
//!
//! `new` is the new file's bytes, `part PLACE LEN` some of them, `len` its length, `open` its
//! records, and `again` what beginning another one there answers.

use crate::values::{header_named, pick_named};
use disk::{Disk, MemDisk, Pick};
use journal::{Journal, JournalFault};
use migration::{MigrateFault, begin, peek_old, stage};
use std::alloc::{AllocError, Global};
use terms::Header;
use test_words::{Runs, bytes_of, disk_of, header_text, records_text};

/// An old file, and the new one.
#[derive(Drop)]
pub struct Migration {
    alloc: Global,
    old: Vec<u8>,
    new: Option<MemDisk>,
}

impl Migration {
    /// Of no byte, and no new file.
    pub fn new(alloc: Global) -> Migration {
        Migration {
            alloc,
            old: Vec::new(alloc),
            new: None,
        }
    }

    /// Plays a row.
    pub fn told(&mut self, action: &str) -> Option<String> {
        match action.split_once(' ') {
            Some((word, rest)) => self.given(word, rest),
            None => self.plain(action),
        }
    }

    /// Plays a row of a word and values.
    fn given(&mut self, word: &str, values: &str) -> Option<String> {
        match word {
            "stop" => self.stop_so(values),
            "stops" => self.stops_so(values),
            "old" => self.put(values),
            "more" => self.lengthen(values),
            "migrate" => self.migrate_so(values),
            "bytes" => self.bytes_at(values.parse().ok()?),
            "part" => self.part(values),
            _ => None,
        }
    }

    /// Stops it at a call of a disk, with a pick behind it.
    fn stop_so(&mut self, values: &str) -> Option<String> {
        let (fused, rest) = values.split_once(' ')?;
        let (calls, pick) = rest.split_once(' ')?;
        let (fused, pick) = (fused_of(fused)?, pick_named(self.alloc, pick)?);
        let (_, said) = self.stop(fused, calls.parse().ok()?, pick)?;
        Some(said)
    }

    /// Stops it at every call of a disk, with a pick behind it.
    fn stops_so(&mut self, values: &str) -> Option<String> {
        let (fused, pick) = values.split_once(' ')?;
        self.stops(fused_of(fused)?, pick_named(self.alloc, pick)?)
    }

    /// Stops it at every call in turn.
    fn stops(&mut self, fused: Fused, pick: Pick) -> Option<String> {
        let mut runs = Runs::new(self.alloc);
        for calls in 0..1000u64 {
            let (failed, said) = self.stop(fused, calls, pick)?;
            runs.take(said).ok()?;
            if !failed {
                return runs.finish().ok();
            }
        }
        None
    }

    /// Stops it, and crashes: whether it failed, and what is said of it.
    fn stop(&mut self, fused: Fused, calls: u64, pick: Pick) -> Option<(bool, String)> {
        let header = self.header()?.ok()?;
        let (answer, disk) = stopped(self.alloc, &self.old, &header, fused, calls)?;
        let (opened, disk) = opened(self.alloc, disk.crash(pick).ok()?, &header);
        self.new = Some(disk);
        Some((answer.is_err(), stop_text(self.alloc, answer, opened)?))
    }

    /// Lengthens the old file, once or so many times.
    fn lengthen(&mut self, values: &str) -> Option<String> {
        let (digits, times) = values.split_once(' ').unwrap_or((values, "1"));
        self.add(digits, times.parse().ok()?)
    }

    /// Brings it over into a file of these bytes, or for a member of cluster 7.
    fn migrate_so(&mut self, values: &str) -> Option<String> {
        match values.strip_prefix("over ") {
            Some(digits) => self.migrate_over(digits),
            None => self.migrate_for(values),
        }
    }

    /// Brings it over into a file of these bytes, for the member that it names.
    fn migrate_over(&mut self, digits: &str) -> Option<String> {
        let header = self.header()?.ok()?;
        let bytes = bytes_of(self.alloc, digits)?;
        match disk_of(self.alloc, &bytes) {
            Ok(new) => self.migrate(new, &header),
            Err(_) => None,
        }
    }

    /// Brings it over into an empty file, for a member of cluster 7.
    fn migrate_for(&mut self, values: &str) -> Option<String> {
        let header = header_named(self.alloc, values)?;
        self.migrate(MemDisk::new(self.alloc), &header)
    }

    /// The answers to the old file with each value at a place.
    fn bytes_at(&mut self, at: usize) -> Option<String> {
        let header = self.header()?.ok()?;
        bytes_at(self.alloc, self.old.as_mut_slice(), at, &header)
    }

    /// Some of the bytes of the new file.
    fn part(&mut self, values: &str) -> Option<String> {
        let (at, len) = values.split_once(' ')?;
        let (at, len) = (at.parse().ok()?, len.parse().ok()?);
        part(self.alloc, &self.content()?, at, len)
    }

    /// Plays a row of one word.
    fn plain(&mut self, word: &str) -> Option<String> {
        match word {
            "old" => self.put(""),
            "peek" => self.peek(),
            "migrate" => self.migrate_own(),
            "cuts" => cuts(self.alloc, &self.old, &self.header()?.ok()?),
            word => self.of_new(word),
        }
    }

    /// Puts these bytes in as the old file.
    fn put(&mut self, digits: &str) -> Option<String> {
        self.old.clear();
        self.add(digits, 1)
    }

    /// Lengthens the old file, so many times.
    fn add(&mut self, digits: &str, times: u64) -> Option<String> {
        let bytes = bytes_of(self.alloc, digits)?;
        for _ in 0..times {
            self.old.extend_from_slice(&bytes).ok()?;
        }
        Some(String::new(self.alloc))
    }

    /// The member that the old file names, or the fault.
    fn peek(&self) -> Option<String> {
        match self.header()? {
            Ok(header) => header_text(self.alloc, &header),
            Err(fault) => format!(in self.alloc; "{fault}").ok(),
        }
    }

    /// Brings it over into an empty file, for the member that it names.
    fn migrate_own(&mut self) -> Option<String> {
        match self.header()? {
            Ok(header) => self.migrate(MemDisk::new(self.alloc), &header),
            Err(fault) => format!(in self.alloc; "{fault}").ok(),
        }
    }

    /// Brings it over to a disk, for a member.
    fn migrate(&mut self, new: MemDisk, header: &Header) -> Option<String> {
        let (answer, disk) = brought_over(self.alloc, &self.old, new, header);
        self.new = disk;
        answer_text(self.alloc, answer).ok()
    }

    /// Plays a row of one word, of which the new file knows.
    fn of_new(&mut self, word: &str) -> Option<String> {
        match word {
            "again" => self.again(),
            "open" => self.open(),
            "new" => hex::encode(self.alloc, self.content()?.as_slice()).ok(),
            "len" => format!(in self.alloc; "{}", self.content()?.len()).ok(),
            _ => None,
        }
    }

    /// Begins another file in place of the new one.
    fn again(&mut self) -> Option<String> {
        let header = self.header()?.ok()?;
        match begin(self.alloc, self.new.take()?, &header) {
            Ok(_) => Some(String::new(self.alloc)),
            Err(fault) => format!(in self.alloc; "{fault}").ok(),
        }
    }

    /// The records of the new file, or the fault.
    fn open(&mut self) -> Option<String> {
        let header = self.header()?.ok()?;
        match Journal::open(self.alloc, self.new.take()?, &header) {
            Ok((_, records)) => records_text(self.alloc, "", records.as_slice()).ok(),
            Err(fault) => format!(in self.alloc; "{fault}").ok(),
        }
    }

    /// The header that the old file begins with.
    fn header(&self) -> Option<Result<Header, MigrateFault>> {
        let mut disk = disk_of(self.alloc, &self.old).ok()?;
        Some(peek_old(&mut disk))
    }

    /// The bytes of the new file.
    fn content(&mut self) -> Option<Vec<u8>> {
        content(self.alloc, self.new.as_mut()?)
    }
}

/// The digits of so many of the bytes from a place on.
fn part(alloc: Global, bytes: &[u8], at: usize, len: usize) -> Option<String> {
    let (_, behind) = bytes.split_at_checked(at)?;
    let (part, _) = behind.split_at_checked(len)?;
    hex::encode(alloc, part).ok()
}

/// The disk of that name.
fn fused_of(name: &str) -> Option<Fused> {
    match name {
        "begin" => Some(Fused::Begin),
        "new" => Some(Fused::New),
        "old" => Some(Fused::Old),
        _ => None,
    }
}

/// Brings an old file over where a fuse lets so many calls of a disk pass. Returns how it ended,
/// and the new disk that is left.
fn stopped(
    alloc: Global,
    old: &[u8],
    header: &Header,
    fused: Fused,
    calls: u64,
) -> Option<(Answer, MemDisk)> {
    let (mut from, mut to) = (disk_of(alloc, old).ok()?, MemDisk::new(alloc));
    match fused {
        Fused::Begin => to.fuse(Some(calls)),
        // three calls begin it
        Fused::New => to.fuse(Some(calls.saturating_add(3))),
        Fused::Old => from.fuse(Some(calls)),
    }
    Some(carried(alloc, &mut from, to, header))
}

/// The disk that a fuse is put in, and when.
#[derive(Clone, Copy)]
enum Fused {
    /// The new one, when it is begun.
    Begin,
    /// The new one, when it is finished.
    New,
    /// The old one, then.
    Old,
}

/// Brings an old disk over to a new one, which comes back also where that fails.
fn carried(alloc: Global, from: &mut MemDisk, to: MemDisk, header: &Header) -> (Answer, MemDisk) {
    let staging = match stage(alloc, to, header) {
        Ok(staging) => staging,
        Err((fault, disk)) => return (Err(fault), disk),
    };
    match staging.carry(alloc, from) {
        Ok((journal, count)) => (Ok(count), journal.into_disk()),
        Err((fault, disk)) => (Err(fault), disk),
    }
}

/// Returns how it ended, and what opening the new file gives then.
fn stop_text(alloc: Global, answer: Answer, opened: Opening) -> Option<String> {
    let ended = answer_text(alloc, answer).ok()?;
    match opened {
        Ok(count) => format!(in alloc; "{ended} {count}").ok(),
        Err(fault) => format!(in alloc; "{ended} {fault}").ok(),
    }
}

/// Opens a disk, and gives it back.
fn opened(alloc: Global, disk: MemDisk, header: &Header) -> (Opening, MemDisk) {
    match Journal::adopt(alloc, disk, header) {
        Ok((journal, records)) => (Ok(records.len()), journal.into_disk()),
        Err((fault, disk)) => (Err(fault), disk),
    }
}

/// The number of records that an opening gives, or its fault.
type Opening = Result<usize, JournalFault>;

/// The answers to an old file with each value at a place.
fn bytes_at(alloc: Global, old: &mut [u8], at: usize, header: &Header) -> Option<String> {
    let mut runs = Runs::new(alloc);
    for byte in 0..256u16 {
        let answer = with_byte(alloc, old, at, byte as u8, header);
        take(alloc, &mut runs, answer)?;
    }
    runs.finish().ok()
}

/// The answer to an old file with that byte at a place, which has its own again then.
fn with_byte(alloc: Global, old: &mut [u8], at: usize, byte: u8, header: &Header) -> Answer {
    let Some(own) = old.get(at).copied() else {
        return attempt(alloc, old, header);
    };
    old[at] = byte;
    let answer = attempt(alloc, old, header);
    old[at] = own;
    answer
}

/// The answers to every front of an old file.
fn cuts(alloc: Global, old: &[u8], header: &Header) -> Option<String> {
    let mut runs = Runs::new(alloc);
    for len in 0..old.len() {
        let (front, _) = old.split_at(len);
        take(alloc, &mut runs, attempt(alloc, front, header))?;
    }
    runs.finish().ok()
}

/// Adds an answer to the runs.
fn take(alloc: Global, runs: &mut Runs, answer: Answer) -> Option<()> {
    runs.take(answer_text(alloc, answer).ok()?).ok()
}

/// Returns what is said of an answer.
fn answer_text(alloc: Global, answer: Answer) -> Result<String, AllocError> {
    match answer {
        Ok(count) => format!(in alloc; "{count}"),
        Err(fault) => format!(in alloc; "{fault}"),
    }
}

/// Brings an old file over into an empty one.
fn attempt(alloc: Global, old: &[u8], header: &Header) -> Answer {
    let (answer, _) = brought_over(alloc, old, MemDisk::new(alloc), header);
    answer
}

/// Brings an old file over into a new one that has these bytes.
fn brought_over(
    alloc: Global,
    old: &[u8],
    new: MemDisk,
    header: &Header,
) -> (Answer, Option<MemDisk>) {
    let Ok(mut from) = disk_of(alloc, old) else {
        return (Err(MigrateFault::OldDevice), None);
    };
    let staging = match begin(alloc, new, header) {
        Ok(staging) => staging,
        Err(fault) => return (Err(fault), None),
    };
    match staging.finish(alloc, &mut from) {
        Ok((journal, count)) => (Ok(count), Some(journal.into_disk())),
        Err(fault) => (Err(fault), None),
    }
}

/// The number of records that were brought over, or the fault.
type Answer = Result<u64, MigrateFault>;

/// All bytes of a disk.
fn content(alloc: Global, disk: &mut MemDisk) -> Option<Vec<u8>> {
    let len = disk.len().ok()?;
    let mut bytes = vec![in alloc; 0; len].ok()?;
    match disk.read_at(0, bytes.as_mut_slice()) {
        Ok(()) => Some(bytes),
        Err(_) => None,
    }
}
