//! The bytes of a file in memory, and what a crash may leave of them.
ghost use Rattle.std.specs.Prelude.{◌≡◌, ◌+◌, ◌<◌, ◌≤◌, ◌^◌, ◌++◌, [], length, take, drop, OnOk, OnErr};
ghost use Rattle.std.specs.Vec.{vec_len, vec_capacity};
ghost use Rattle.disk.specs.Model.{at_rest, overwritten, after_write};
ghost use Rattle.disk.specs.System.{placed};
ghost use Rattle.disk.specs.Replay.{after_failed_write};
ghost use Rattle.disk.specs.Under.{laid_back};
ghost use Rattle.disk.specs.Crash.{left};

use crate::Pick;
use crate::crash::fill;
use std::alloc::{AllocError, Global};

/// A file, written in place. Beside its bytes it keeps what lay under those that were written since
/// the last sync that succeeded, and where; a sync forgets both.
#[derive(Drop)]
pub(crate) struct Content {
    seen: Vec<u8>,
    /// The number of bytes it had at the last sync that succeeded.
    synced: usize,
    /// The place and the length of each write since then, also of one that failed.
    written: Vec<(usize, usize)>,
    /// The bytes that each of these writes found within that length, each with its place, the last
    /// write last.
    under: Vec<(usize, u8)>,
    ghost within: { synced ≤ length seen.items },
}

impl Content {
    ghost use Rattle.disk.specs.Content.{content_state};

    /// An empty file. It takes no memory.
    pub(crate) fn empty(alloc: Global) -> Content
        ensures { content_state result ≡ at_rest [] }
    {
        Content {
            seen: Vec::new(alloc),
            synced: 0,
            written: Vec::new(alloc),
            under: Vec::new(alloc),
        }
    }

    /// Returns what a read gives.
    pub(crate) fn seen(&self) -> &[u8]
        ensures { result.now ≡ (content_state self.now).seen }
    {
        &self.seen
    }

    /// Fills the buffer with what a read gives from a place on.
    pub(crate) fn read(&self, at: usize, buf: &mut [u8])
        requires { at + length buf.old ≤ length (content_state self.now).seen }
        ensures { buf.new ≡ take (length buf.old) (drop at (content_state self.now).seen) }
    {
        let end = at + buf.len();
        buf.copy_from_slice(&self.seen[at..end]);
    }

    /// Writes the bytes at a place, over what is there and past the end. Where memory is refused
    /// nothing changes.
    pub(crate) fn write(&mut self, at: usize, bytes: &[u8]) -> Result<(), AllocError>
        requires { at ≤ length (content_state self.old).seen }
        ensures ok { OnOk result
            (content_state self.new ≡ after_write (content_state self.old) at bytes.now) }
        ensures err { OnErr result (content_state self.new ≡ content_state self.old) }
    {
        let inside = bytes.len().min(self.seen.len() - at);
        let covered = bytes.len().min(self.synced.saturating_sub(at));
        // What may be refused comes first.
        self.under.reserve(covered)?;
        self.written.reserve(1)?;
        self.seen.extend_from_slice(&bytes[inside..])?;
        keep(&mut self.under, at, &self.seen[at..at + covered]);
        self.written.push_reserved((at, bytes.len()));
        put_over(&mut self.seen, at, &bytes[..inside]);
        Ok(())
    }

    /// A write of that length at a place that fails: the bytes stay. Where memory is refused
    /// nothing changes.
    pub(crate) fn fail_write(&mut self, at: usize, len: usize) -> Result<(), AllocError>
        ensures ok { OnOk result
            (content_state self.new ≡ after_failed_write (content_state self.old) at len) }
        ensures err { OnErr result (content_state self.new ≡ content_state self.old) }
    {
        Ok(self.written.push((at, len))?)
    }

    /// All of it is on the disk. It takes no memory.
    pub(crate) fn sync(&mut self)
        ensures { content_state self.new ≡ at_rest (content_state self.old).seen }
    {
        self.synced = self.seen.len();
        self.written.clear();
        self.under.clear();
    }

    /// The file that a crash leaves, in the place of this one, all on the disk. It takes no memory.
    pub(crate) fn crash(&mut self, pick: Pick)
        ensures { content_state self.new ≡ at_rest (left (content_state self.old) pick) }
    {
        self.leave(pick);
        self.sync();
    }

    /// The bytes become those that a crash leaves.
    fn leave(&mut self, pick: Pick)
        ensures { (content_state self.new).seen ≡ left (content_state self.old) pick }
    {
        match pick {
            Pick::Kept => {}
            Pick::Lost => self.undo(),
            Pick::Fill(byte) => fill(&mut self.seen, self.synced, &self.written, byte),
        }
    }

    /// The bytes become those of the last sync that succeeded.
    fn undo(&mut self)
        ensures { (content_state self.new).seen ≡ (content_state self.old).synced }
    {
        self.seen.truncate(self.synced);
        lay_back(&mut self.seen, &mut self.under);
    }
}

/// Puts these bytes over what is at a place.
fn put_over(file: &mut [u8], at: usize, bytes: &[u8])
    requires { at + length bytes.now ≤ length file.old }
    ensures { file.new ≡ overwritten file.old at bytes.now }
{
    file[at..at + bytes.len()].copy_from_slice(bytes);
}

/// Keeps these bytes with their places, from that one on.
fn keep(under: &mut Vec<(usize, u8)>, at: usize, bytes: &[u8])
    requires place { at + length bytes.now < 2 ^ 64 }
    requires room { vec_len under.old + length bytes.now ≤ vec_capacity under.old }
    ensures { under.new.items ≡ under.old.items ++ placed at bytes.now }
{
    for (i, byte) in bytes.iter().enumerate() {
        under.push_reserved((at + i, *byte));
    }
}

/// Lays each byte back at its place, the last first.
fn lay_back(file: &mut [u8], under: &mut Vec<(usize, u8)>)
    ensures { file.new ≡ laid_back under.old.items file.old }
{
    while let Some((place, byte)) = under.pop() {
        if place < file.len() {
            file[place] = byte;
        }
    }
}
