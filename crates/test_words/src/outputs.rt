//! Readers and writers of jobs: bytes that end, or that end with a failure, and a list that has
//! room for all, or for so many.

use std::alloc::Global;
use std::io::{self, BufRead, Read, Write};

/// A reader of bytes, which fails behind them where it is torn.
#[derive(Drop)]
pub struct Input<'a> {
    bytes: &'a [u8],
    torn: bool,
}

impl<'a> Input<'a> {
    /// Of these bytes.
    pub fn new(bytes: &'a [u8], torn: bool) -> Input<'a> {
        Input { bytes, torn }
    }
}

impl<'a> Read for Input<'a> {
    fn read(&mut self, buf: &mut [u8]) -> io::Result<usize> {
        if self.torn && self.bytes.is_empty() {
            return Err(io::Error::from(io::ErrorKind::BrokenPipe));
        }
        self.bytes.read(buf)
    }
}

impl<'a> BufRead for Input<'a> {
    fn fill_buf(&mut self) -> io::Result<&[u8]> {
        if self.torn && self.bytes.is_empty() {
            return Err(io::Error::from(io::ErrorKind::BrokenPipe));
        }
        Ok(self.bytes)
    }

    fn consume(&mut self, amount: usize) {
        self.bytes.consume(amount);
    }
}

/// How much a writer takes.
#[derive(Clone, Copy)]
pub enum Room {
    /// All.
    Ample,
    /// So many bytes, one at a time; then it fails.
    Few(usize),
    /// Nothing, without a failure.
    Shut,
}

/// A writer that keeps what it takes, and how much of that was told.
#[derive(Drop)]
pub struct Output {
    /// What it took.
    pub taken: Vec<u8>,
    /// How much it takes.
    pub room: Room,
    told: usize,
}

impl Output {
    /// That took nothing yet, and takes all.
    pub fn new(alloc: Global) -> Output {
        Output {
            taken: Vec::new(alloc),
            room: Room::Ample,
            told: 0,
        }
    }

    /// Took nothing, and takes all.
    pub fn clear(&mut self) {
        self.taken.clear();
        self.room = Room::Ample;
        self.told = 0;
    }

    /// Returns `true` if all was told.
    pub fn is_told(&self) -> bool {
        self.told >= self.taken.len()
    }

    /// The next line, which is told then: none where there is no other.
    pub fn line(&mut self, alloc: Global) -> Option<String> {
        let rest = self.rest();
        let len = rest.iter().position(|byte| *byte == b'\n')?;
        let (line, _) = rest.split_at(len.min(rest.len()));
        let line = Vec::from_slice(alloc, line).ok()?;
        self.told = self.told.saturating_add(len).saturating_add(1);
        String::from_utf8(line).ok()
    }

    /// Returns what wasn't told yet.
    fn rest(&self) -> &[u8] {
        let (_, rest) = self
            .taken
            .as_slice()
            .split_at(self.told.min(self.taken.len()));
        rest
    }

    /// Returns what it took, in digits. All is told then.
    pub fn digits(&mut self, alloc: Global) -> Option<String> {
        self.told = self.taken.len();
        hex::encode(alloc, &self.taken).ok()
    }

    /// Returns what it took, as text.
    pub fn text(&self) -> Option<&str> {
        str::from_utf8(&self.taken).ok()
    }

    /// Returns how many of so many bytes it takes now: none where it fails.
    fn takes(&self, count: usize) -> Option<usize> {
        match self.room {
            Room::Ample => Some(count),
            Room::Few(room) if self.taken.len() < room => Some(count.min(1)),
            Room::Few(_) => None,
            Room::Shut => Some(0),
        }
    }
}

impl Write for Output {
    fn write(&mut self, buf: &[u8]) -> io::Result<usize> {
        let Some(count) = self.takes(buf.len()) else {
            return Err(io::Error::from(io::ErrorKind::BrokenPipe));
        };
        let count = count.min(buf.len());
        let (taken, _) = buf.split_at(count);
        self.taken.extend_from_slice(taken)?;
        Ok(count)
    }

    fn flush(&mut self) -> io::Result<()> {
        Ok(())
    }
}
