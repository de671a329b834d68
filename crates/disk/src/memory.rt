//! A disk in memory. It is written in place, and can be told to fail.
ghost use Rattle.std.specs.Prelude.{◌≡◌, ◌↔◌, ◌+◌, [], length, is_some, IsOk, IsErr, IsTrue, IfOk, OnOk, OnErr};
ghost use Rattle.disk.specs.Model.{at_rest, MayLeave, CountsFailures};
ghost use Rattle.disk.specs.Fuse.{lets_pass, burnt, CountsFault};
ghost use Rattle.disk.specs.Laws.{counts_now, only_now, may_leave_seen};
ghost use Rattle.disk.specs.Crash.{left};

use crate::failures::{Failure, Failures};
use crate::log::LoggedFile;
use crate::{DeviceFault, Disk, Pick};
use ghost_record::GhostRecord;
use std::alloc::{AllocError, Global};

/// A disk in memory, which keeps the model. A call fails where its fuse stops it, and a write also
/// where memory is refused: no other call takes any.
///
/// It holds the file's bytes, and what lay under those that were written since the last sync that
/// succeeded.
#[derive(Drop)]
pub struct MemDisk {
    log: LoggedFile,
    fuse: Option<u64>,
    failures: GhostRecord<Failures>,
}

impl MemDisk {
    ghost use Rattle.disk.specs.Memory.{memory_begun, memory_state, memory_moment, memory_failures, fuse_left, with_fuse};

    /// An empty file, with no fuse in. It takes no memory.
    pub fn new(alloc: Global) -> MemDisk
        ensures state { memory_state result ≡ at_rest [] }
        ensures moment { memory_moment result ≡ 0 }
        ensures failures { memory_failures result ≡ 0 }
        ensures fuse { fuse_left result ≡ None }
    {
        MemDisk::of_log(LoggedFile::empty(alloc))
    }

    /// The next calls of the device pass, as many as this, and all after them fail. None takes the
    /// fuse out. This is no call of the device, and takes no memory.
    pub fn fuse(&mut self, calls: Option<u64>)
        ensures { self.new ≡ with_fuse self.old calls }
    {
        self.fuse = calls;
    }

    /// Returns `true` if a fuse is in, also one that lets no call pass any more.
    pub fn is_fused(&self) -> bool
        ensures { result ≡ is_some (fuse_left self.now) }
    {
        self.fuse.is_some()
    }

    /// Returns `true` if its file is empty: reads give no byte. This is no call of the device, and
    /// takes no memory.
    pub fn is_empty(&self) -> bool
        ensures { IsTrue result ↔ (length (memory_state self.now).seen ≡ 0) }
    {
        self.log.seen().is_empty()
    }

    /// The disk after a crash, which leaves one of the files that it may: the one that the pick
    /// names. All of it is on the disk, no call was made of it, and the fuse is out. It takes no
    /// memory, and is always Ok.
    pub fn crash(mut self, pick: Pick) -> Result<MemDisk, AllocError>
        ensures state { IfOk result
            (λ disk. memory_state disk ≡ at_rest (left (memory_state self) pick)) }
        ensures may_leave { IfOk result
            (λ disk. MayLeave (memory_state self) (memory_state disk).seen) }
        ensures as_it_began { IfOk result
            (λ disk. memory_state disk ≡ at_rest (memory_begun disk)) }
        ensures moment { IfOk result (λ disk. memory_moment disk ≡ 0) }
        ensures failures { IfOk result (λ disk. memory_failures disk ≡ 0) }
        ensures fuse { IfOk result (λ disk. fuse_left disk ≡ None) }
        ensures ok { IsOk result }
    {
        self.log.crash(pick);
        Ok(MemDisk::of_log(self.log))
    }

    /// A disk with this past, with no fuse in.
    fn of_log(log: LoggedFile) -> MemDisk
        ensures log { result.log ≡ log }
        ensures fuse { fuse_left result ≡ None }
        ensures failures { memory_failures result ≡ 0 }
    {
        MemDisk {
            log,
            fuse: None,
            failures: GhostRecord::new(),
        }
    }

    /// Returns `true` if the fuse lets the next call pass.
    fn passes(&self) -> bool
        ensures { result ≡ lets_pass (fuse_left self.now) }
    {
        self.fuse != Some(0)
    }

    /// The answer to a call that was listed, which takes from the fuse.
    fn answer(&mut self) -> Result<(), DeviceFault>
        ensures log { self.new.log ≡ self.old.log }
        ensures ok { IsOk result ↔ IsTrue (lets_pass (fuse_left self.old)) }
        ensures burnt { fuse_left self.new ≡ burnt (fuse_left self.old) }
        ensures cause { CountsFailures (memory_failures self.old)
            (memory_failures self.new) result }
        ensures counted { CountsFault (memory_failures self.old) (memory_failures self.new) result }
    {
        let passes = self.passes();
        self.burn();
        if passes { Ok(()) } else { self.fail() }
    }

    /// A call that fails.
    fn fail(&mut self) -> Result<(), DeviceFault>
        ensures log { self.new.log ≡ self.old.log }
        ensures err { IsErr result }
        ensures fuse { fuse_left self.new ≡ fuse_left self.old }
        ensures cause { CountsFailures (memory_failures self.old)
            (memory_failures self.new) result }
        ensures counted { CountsFault (memory_failures self.old) (memory_failures self.new) result }
    {
        self.failures = self.failures.then(&Failure);
        Err(DeviceFault)
    }

    /// One call that the fuse counts.
    fn burn(&mut self)
        ensures { self.new ≡ with_fuse self.old (burnt (fuse_left self.old)) }
    {
        if let Some(calls) = self.fuse {
            self.fuse = Some(calls.saturating_sub(1));
        }
    }
}

impl Disk for MemDisk {
    ghost use Rattle.std.specs.Prelude.{◌⊎◌, ◌+◌, ◌≤◌, take, drop};
    ghost use Rattle.disk.specs.Model.{Elapses, FailedWrite, after_write};
    ghost use Rattle.disk.specs.Fuse.{Burns};
    ghost use Rattle.disk.specs.Memory.{memory_state, memory_moment, memory_since, memory_failures, memory_begun, fuse_left};

    ghost keeps = { λ _. Unit {0} };

    ghost begun = { memory_begun };

    ghost state = { memory_state };

    ghost moment = { memory_moment };

    ghost since = { memory_since };

    ghost failures = { memory_failures };

    ghost counts_now = { λ disk t file keeps le may. counts_now disk.log.start disk.log.calls t file
        le may };

    ghost only_now = { λ disk file keeps left. only_now disk.log.start disk.log.calls file left };

    ghost may_leave_seen = { λ disk keeps. may_leave_seen disk.log.start disk.log.calls };

    fn len(&mut self) -> Result<usize, DeviceFault>
        ensures answer { IfOk result (λ n. n ≡ length (memory_state self.old).seen) }
        ensures same { memory_state self.new ≡ memory_state self.old }
        ensures time { Elapses (memory_moment self.old) (memory_moment self.new)
            (memory_since self.old) (memory_since self.new) (memory_state self.old)
            (memory_state self.new) result }
        ensures listed { memory_moment self.new ≡ memory_moment self.old + 1 }
        ensures fuse { Burns (memory_moment self.old) (memory_moment self.new)
            (fuse_left self.old) (fuse_left self.new) result }
        ensures begun { memory_begun self.new ≡ memory_begun self.old }
        ensures cause { CountsFailures (memory_failures self.old)
            (memory_failures self.new) result }
        ensures counted { CountsFault (memory_failures self.old) (memory_failures self.new) result }
    {
        self.log.look();
        self.answer()?;
        Ok(self.log.seen().len())
    }

    fn read_at(&mut self, at: usize, buf: &mut [u8]) -> Result<(), DeviceFault>
        requires { at + length buf.old ≤ length (memory_state self.old).seen }
        ensures answer { OnOk result
            (buf.new ≡ take (length buf.old) (drop at (memory_state self.old).seen)) }
        ensures same { memory_state self.new ≡ memory_state self.old }
        ensures time { Elapses (memory_moment self.old) (memory_moment self.new)
            (memory_since self.old) (memory_since self.new) (memory_state self.old)
            (memory_state self.new) result }
        ensures listed { memory_moment self.new ≡ memory_moment self.old + 1 }
        ensures fuse { Burns (memory_moment self.old) (memory_moment self.new)
            (fuse_left self.old) (fuse_left self.new) result }
        ensures begun { memory_begun self.new ≡ memory_begun self.old }
        ensures cause { CountsFailures (memory_failures self.old)
            (memory_failures self.new) result }
        ensures counted { CountsFault (memory_failures self.old) (memory_failures self.new) result }
    {
        self.log.look();
        self.answer()?;
        self.log.read(at, buf);
        Ok(())
    }

    fn write_at(&mut self, at: usize, bytes: &[u8]) -> Result<(), DeviceFault>
        requires { at ≤ length (memory_state self.old).seen }
        ensures written { OnOk result
            (memory_state self.new ≡ after_write (memory_state self.old) at bytes.now) }
        ensures torn { OnErr result ((memory_moment self.new ≡ memory_moment self.old)
            ⊎ FailedWrite at (length bytes.now) (memory_state self.old) (memory_state self.new)) }
        ensures stopped { OnErr result
            ((memory_state self.new).seen ≡ (memory_state self.old).seen) }
        ensures time { Elapses (memory_moment self.old) (memory_moment self.new)
            (memory_since self.old) (memory_since self.new) (memory_state self.old)
            (memory_state self.new) result }
        ensures fuse { Burns (memory_moment self.old) (memory_moment self.new)
            (fuse_left self.old) (fuse_left self.new) result }
        ensures begun { memory_begun self.new ≡ memory_begun self.old }
        ensures cause { CountsFailures (memory_failures self.old)
            (memory_failures self.new) result }
        ensures counted { CountsFault (memory_failures self.old) (memory_failures self.new) result }
    {
        let passes = self.passes();
        match self.log.write(at, bytes, passes) {
            Ok(()) => self.answer(),
            Err(_) => self.fail(),
        }
    }

    fn sync(&mut self) -> Result<(), DeviceFault>
        ensures synced { OnOk result
            (memory_state self.new ≡ at_rest (memory_state self.old).seen) }
        ensures failed { OnErr result (memory_state self.new ≡ memory_state self.old) }
        ensures time { Elapses (memory_moment self.old) (memory_moment self.new)
            (memory_since self.old) (memory_since self.new) (memory_state self.old)
            (memory_state self.new) result }
        ensures listed { memory_moment self.new ≡ memory_moment self.old + 1 }
        ensures fuse { Burns (memory_moment self.old) (memory_moment self.new)
            (fuse_left self.old) (fuse_left self.new) result }
        ensures begun { memory_begun self.new ≡ memory_begun self.old }
        ensures cause { CountsFailures (memory_failures self.old)
            (memory_failures self.new) result }
        ensures counted { CountsFault (memory_failures self.old) (memory_failures self.new) result }
    {
        let passes = self.passes();
        self.log.sync(passes);
        self.answer()
    }
}
