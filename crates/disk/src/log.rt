//! A file in memory with the calls that it answered, of which its state is the replay.
ghost use Rattle.std.specs.Prelude.{◌≡◌, ◌≤◌, [], length, take, drop, ◌+◌, OnOk, OnErr};
ghost use Rattle.disk.specs.Replay.{state_of, begun, listed, write_if, sync_if, Call};
ghost use Rattle.disk.specs.Replay.Call.{Still, Wrote, Failed, Synced};
ghost use Rattle.disk.specs.Content.{content_state};
ghost use Rattle.disk.specs.Crash.{left};

use crate::Pick;
use crate::content::Content;
use crate::history::{Deed, History};
use ghost_record::GhostRecord;
use std::alloc::{AllocError, Global};
use std::marker::Model;

/// A file, and each call since its begin. The calls are known to clauses alone.
#[derive(Drop)]
pub struct LoggedFile {
    content: Content,
    history: GhostRecord<History>,
}

impl Model for LoggedFile {
    ghost use Rattle.std.specs.Prelude.{◌≡◌};
    ghost use Rattle.disk.specs.Replay.{FilePast, state_of};
    ghost use Rattle.disk.specs.Content.{content_state};

    ghost Value = { FilePast };

    ghost view = { λ log. log.history.value };

    ghost invariant = { λ log. content_state log.content ≡ state_of log.history.value };
}

impl LoggedFile {
    /// No call yet, on an empty file. It takes no memory.
    pub(crate) fn empty(alloc: Global) -> LoggedFile
        ensures { result ≡ begun [] }
    {
        LoggedFile {
            content: Content::empty(alloc),
            history: GhostRecord::new(),
        }
    }

    /// Returns what a read gives.
    pub(crate) fn seen(&self) -> &[u8]
        ensures { result.now ≡ (state_of self.now).seen }
    {
        self.content.seen()
    }

    /// Fills the buffer with what a read gives from a place on.
    pub(crate) fn read(&self, at: usize, buf: &mut [u8])
        requires { at + length buf.old ≤ length (state_of self.now).seen }
        ensures { buf.new ≡ take (length buf.old) (drop at (state_of self.now).seen) }
    {
        self.content.read(at, buf);
    }

    /// A write, which is done where it passes. One that does not counts as written.
    pub(crate) fn write(&mut self, at: usize, bytes: &[u8], passes: bool) -> Result<(), AllocError>
        requires { at ≤ length (state_of self.old).seen }
        ensures ok { OnOk result (self.new ≡ listed self.old (write_if passes at bytes.now)) }
        ensures err { OnErr result (self.new ≡ self.old) }
    {
        if passes {
            self.do_write(at, bytes)
        } else {
            self.fail_write(at, bytes.len())
        }
    }

    /// A write that passes.
    fn do_write(&mut self, at: usize, bytes: &[u8]) -> Result<(), AllocError>
        requires { at ≤ length (state_of self.old).seen }
        ensures ok { OnOk result (self.new ≡ listed self.old (Wrote at bytes.now)) }
        ensures err { OnErr result (self.new ≡ self.old) }
    {
        self.content.write(at, bytes)?;
        self.history = self.history.then(&Deed::Wrote(at, bytes));
        Ok(())
    }

    /// A write that fails.
    fn fail_write(&mut self, at: usize, len: usize) -> Result<(), AllocError>
        ensures ok { OnOk result (self.new ≡ listed self.old (Failed at len)) }
        ensures err { OnErr result (self.new ≡ self.old) }
    {
        self.content.fail_write(at, len)?;
        self.history = self.history.then(&Deed::Failed(at, len));
        Ok(())
    }

    /// A sync, which is done where it passes. It takes no memory.
    pub(crate) fn sync(&mut self, passes: bool)
        ensures { self.new ≡ listed self.old (sync_if passes) }
    {
        if passes {
            self.do_sync();
        } else {
            self.look();
        }
    }

    /// A sync that passes.
    fn do_sync(&mut self)
        ensures { self.new ≡ listed self.old Synced }
    {
        self.content.sync();
        self.history = self.history.then(&Deed::Synced);
    }

    /// A call that changes nothing. It takes no memory.
    pub(crate) fn look(&mut self)
        ensures { self.new ≡ listed self.old Still }
    {
        self.history = self.history.then(&Deed::Looked);
    }

    /// A crash, after which there was no call yet. It takes no memory.
    pub(crate) fn crash(&mut self, pick: Pick)
        ensures { self.new ≡ begun (left (state_of self.old) pick) }
    {
        self.content.crash(pick);
        self.history = self.history.then(&Deed::Began(self.content.seen()));
    }
}
