//! Streams in memory, as rows prepare them for the next session.
ghost use Rattle.links.specs.Mem.{told_by, is_closed_mem};

use links::{MemStream, Stream, StreamFault};
use member::Sealed;
use std::alloc::Global;
use test_words::{bytes_of, words_of};

/// A stream in memory whose writes take nothing from a call on.
#[derive(Drop)]
pub struct Scant {
    /// What it gives, takes and has taken.
    pub inner: MemStream,
    calls: u64,
    none_from: u64,
}

impl Scant {
    /// One that takes what the stream in memory does.
    pub fn new(alloc: Global) -> Scant {
        Scant {
            inner: MemStream::new(alloc),
            calls: 0,
            none_from: u64::MAX,
        }
    }
}

impl Stream for Scant {
    ghost told = { λ scant. told_by scant.inner };

    ghost is_closed = { λ scant. is_closed_mem scant.inner };

    fn read(&mut self, buf: &mut [u8]) -> Result<usize, StreamFault> {
        self.calls = self.calls.saturating_add(1);
        self.inner.read(buf)
    }

    fn write(&mut self, bytes: &[u8]) -> Result<usize, StreamFault> {
        if self.calls >= self.none_from {
            self.inner.take_at_most(0);
        }
        self.calls = self.calls.saturating_add(1);
        self.inner.write(bytes)
    }

    fn note_sent(&mut self, items: &[Sealed]) {
        self.inner.note_sent(items);
    }

    fn close(&mut self) {
        self.inner.close();
    }
}

/// Returns `true` if the row prepares the next stream.
pub fn prepares(alloc: Global, row: &str) -> bool {
    prepare(alloc, &mut Scant::new(alloc), row).is_some()
}

/// Prepares the next stream: none if the row says nothing of it.
pub fn prepare(alloc: Global, scant: &mut Scant, row: &str) -> Option<()> {
    match row.strip_prefix("line ") {
        Some(line) => give_line(alloc, &mut scant.inner, line),
        None => prepare_by(alloc, scant, &words_of(alloc, row)?),
    }
}

/// Gives the stream a text and the end of a line.
fn give_line(alloc: Global, stream: &mut MemStream, line: &str) -> Option<()> {
    let line = format!(in alloc; "{line}\n").ok()?;
    stream.give(line.as_bytes()).ok()
}

/// Prepares the next stream as the words say: none if they say nothing of it.
fn prepare_by(alloc: Global, scant: &mut Scant, words: &[&str]) -> Option<()> {
    let (word, rest) = words.split_first()?;
    match *word {
        "take" => take(&mut scant.inner, rest),
        "fail" => fail(&mut scant.inner, rest),
        "none" => take_none(scant, rest),
        "give" => give(alloc, &mut scant.inner, rest),
        "pieces" => pieces(alloc, &mut scant.inner, rest),
        _ => None,
    }
}

/// Lets the writes of the stream take so many bytes at most.
fn take(stream: &mut MemStream, words: &[&str]) -> Option<()> {
    let [most] = words else {
        return None;
    };
    stream.take_at_most(most.parse().ok()?);
    Some(())
}

/// Lets a call of the stream fail, or all from that one on.
fn fail(stream: &mut MemStream, words: &[&str]) -> Option<()> {
    match words {
        [call] => stream.fail_at(call.parse().ok()?).ok(),
        ["from", call] => {
            stream.fail_from(call.parse().ok()?);
            Some(())
        }
        _ => None,
    }
}

/// Lets the writes of the stream take nothing from a call on.
fn take_none(scant: &mut Scant, words: &[&str]) -> Option<()> {
    let ["from", call] = words else {
        return None;
    };
    scant.none_from = call.parse().ok()?;
    Some(())
}

/// Gives the stream bytes, once or so many times over.
fn give(alloc: Global, stream: &mut MemStream, words: &[&str]) -> Option<()> {
    match words {
        [digits] => stream.give(&bytes_of(alloc, digits)?).ok(),
        [digits, times] => {
            let times = times.parse().ok()?;
            give_times(alloc, stream, &bytes_of(alloc, digits)?, times)
        }
        _ => None,
    }
}

/// Gives the stream bytes so many times over, at once.
fn give_times(alloc: Global, stream: &mut MemStream, bytes: &[u8], times: u32) -> Option<()> {
    let mut all = Vec::new(alloc);
    for _ in 0..times {
        all.extend_from_slice(bytes).ok()?;
    }
    stream.give(&all).ok()
}

/// Gives the stream bytes in pieces of so many, by the words of a row.
fn pieces(alloc: Global, stream: &mut MemStream, words: &[&str]) -> Option<()> {
    let [count, digits] = words else {
        return None;
    };
    let count = count.parse().ok()?;
    give_pieces(stream, &bytes_of(alloc, digits)?, count)
}

/// Gives the stream bytes in pieces of so many.
fn give_pieces(stream: &mut MemStream, bytes: &[u8], count: usize) -> Option<()> {
    for piece in bytes.chunks(count.max(1)) {
        stream.give(piece).ok()?;
    }
    Some(())
}
