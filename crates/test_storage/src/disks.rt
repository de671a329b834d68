//! A disk in memory: its calls, its fuse, and what crashes leave of it.
//!
//! `new` is an empty one. `len` answers the length, `read PLACE COUNT` the bytes, `write PLACE
//! DIGITS` nothing, `sync` nothing; each `device` where it fails. Those of another place than the
//! start, and a read of some bytes, ask for the length before, which is a call as well, and answer
//! `past` where the file ends before. `many COUNT DIGITS` writes so often at the end, with a sync
//! each time. `fuse CALLS` lets so many calls pass, and `fuse out` all. `crash kept`, `crash lost`
//! and `crash fill BYTE` are a crash. `look` takes the fuse out, and answers all bytes; `fused`
//! answers whether a fuse is in, and `empty` whether there is no byte.

use crate::values::pick_named;
use disk::{DeviceFault, Disk, MemDisk};
use std::alloc::Global;
use test_words::bytes_of;

/// A disk, where there is one.
#[derive(Drop)]
pub struct Disks {
    alloc: Global,
    disk: Option<MemDisk>,
}

impl Disks {
    /// Of no disk yet.
    pub fn new(alloc: Global) -> Disks {
        Disks { alloc, disk: None }
    }

    /// Plays a row.
    pub fn told(&mut self, action: &str) -> Option<String> {
        match action.split_once(' ') {
            Some((word, rest)) => self.given(word, rest),
            None => self.plain(action),
        }
    }

    /// Plays a row of a word and values.
    fn given(&mut self, word: &str, values: &str) -> Option<String> {
        match word {
            "crash" => self.crash(values),
            word => call(self.alloc, self.disk.as_mut()?, word, values),
        }
    }

    /// Puts in what a crash leaves of the disk.
    fn crash(&mut self, pick: &str) -> Option<String> {
        let pick = pick_named(self.alloc, pick)?;
        let left = self.disk.take()?.crash(pick).ok()?;
        self.put(left)
    }

    /// Plays a row of one word.
    fn plain(&mut self, word: &str) -> Option<String> {
        match word {
            "new" => self.put(MemDisk::new(self.alloc)),
            word => asked(self.alloc, self.disk.as_mut()?, word),
        }
    }

    /// Puts in another disk.
    fn put(&mut self, disk: MemDisk) -> Option<String> {
        self.disk = Some(disk);
        Some(String::new(self.alloc))
    }
}

/// Returns what a disk answers to a word.
fn asked(alloc: Global, disk: &mut MemDisk, word: &str) -> Option<String> {
    match word {
        "len" => len_text(alloc, disk),
        "sync" => told_of(alloc, disk.sync().map(|_| Came::Well)),
        "look" => all_text(alloc, disk),
        "fused" => format!(in alloc; "{}", disk.is_fused()).ok(),
        "empty" => format!(in alloc; "{}", disk.is_empty()).ok(),
        _ => None,
    }
}

/// The length, or why it isn't told.
fn len_text(alloc: Global, disk: &mut MemDisk) -> Option<String> {
    match disk.len() {
        Ok(len) => format!(in alloc; "{len}").ok(),
        Err(_) => told_of(alloc, Ok(Came::Failed)),
    }
}

/// All bytes. The fuse is out then.
fn all_text(alloc: Global, disk: &mut MemDisk) -> Option<String> {
    disk.fuse(None);
    let len = disk.len().ok()?;
    let mut bytes = vec![in alloc; 0; len].ok()?;
    match disk.read_at(0, &mut bytes) {
        Ok(()) => hex::encode(alloc, &bytes).ok(),
        Err(_) => None,
    }
}

/// Returns what a disk answers to a word and values.
fn call(alloc: Global, disk: &mut MemDisk, word: &str, values: &str) -> Option<String> {
    match word {
        "fuse" => fuse(alloc, disk, values),
        "read" => read_so(alloc, disk, values),
        "write" => write_so(alloc, disk, values),
        "many" => many(alloc, disk, values),
        _ => None,
    }
}

/// Lets so many calls pass, or all.
fn fuse(alloc: Global, disk: &mut MemDisk, calls: &str) -> Option<String> {
    match calls {
        "out" => disk.fuse(None),
        calls => disk.fuse(Some(calls.parse().ok()?)),
    }
    Some(String::new(alloc))
}

/// The bytes that a read of a place and a count gives, or why it doesn't.
fn read_so(alloc: Global, disk: &mut MemDisk, values: &str) -> Option<String> {
    let (place, count) = values.split_once(' ')?;
    read_text(alloc, disk, place.parse().ok()?, count.parse().ok()?)
}

/// The bytes that a read gives, or why it doesn't.
fn read_text(alloc: Global, disk: &mut MemDisk, place: usize, count: usize) -> Option<String> {
    let mut buf = vec![in alloc; 0; count].ok()?;
    match read(disk, place, &mut buf) {
        Ok(Came::Well) => hex::encode(alloc, &buf).ok(),
        came => told_of(alloc, came),
    }
}

/// Fills a buffer from a place on.
fn read(disk: &mut MemDisk, place: usize, buf: &mut [u8]) -> Result<Came, DeviceFault> {
    if place == 0 && buf.is_empty() {
        disk.read_at(0, buf)?;
        return Ok(Came::Well);
    }
    let len = disk.len()?;
    if len < place || len - place < buf.len() {
        return Ok(Came::Past);
    }
    disk.read_at(place, buf)?;
    Ok(Came::Well)
}

/// Returns what a write of bytes at a place answers.
fn write_so(alloc: Global, disk: &mut MemDisk, values: &str) -> Option<String> {
    let (place, digits) = values.split_once(' ').unwrap_or((values, ""));
    let place = place.parse().ok()?;
    let bytes = bytes_of(alloc, digits)?;
    told_of(alloc, write(disk, place, &bytes))
}

/// Writes at a place.
fn write(disk: &mut MemDisk, place: usize, bytes: &[u8]) -> Result<Came, DeviceFault> {
    if place == 0 {
        disk.write_at(0, bytes)?;
        return Ok(Came::Well);
    }
    if disk.len()? < place {
        return Ok(Came::Past);
    }
    disk.write_at(place, bytes)?;
    Ok(Came::Well)
}

/// Returns what is said of a call that gives nothing else.
fn told_of(alloc: Global, came: Result<Came, DeviceFault>) -> Option<String> {
    match came.unwrap_or(Came::Failed) {
        Came::Well => Some(String::new(alloc)),
        Came::Past => format!(in alloc; "past").ok(),
        Came::Failed => format!(in alloc; "{DeviceFault}").ok(),
    }
}

/// What a call comes to.
#[derive(Clone, Copy)]
enum Came {
    /// It passed.
    Well,
    /// The file ends before the place.
    Past,
    /// The disk failed.
    Failed,
}

/// Writes bytes at the end, as often as the values say.
fn many(alloc: Global, disk: &mut MemDisk, values: &str) -> Option<String> {
    let (count, digits) = values.split_once(' ')?;
    let count = count.parse().ok()?;
    let bytes = bytes_of(alloc, digits)?;
    append_many(alloc, disk, count, &bytes)
}

/// Writes so often at the end.
fn append_many(alloc: Global, disk: &mut MemDisk, count: u32, bytes: &[u8]) -> Option<String> {
    for _ in 0..count {
        append(disk, bytes).ok()?;
    }
    Some(String::new(alloc))
}

/// Writes at the end, and syncs.
fn append(disk: &mut MemDisk, bytes: &[u8]) -> Result<(), DeviceFault> {
    let end = disk.len()?;
    disk.write_at(end, bytes)?;
    disk.sync()
}
