//! A disk that is a file, by what is supposed of the file.
ghost use Rattle.std.specs.Prelude.{◌≡◌, ◌∷◌, [], true, false, IfOk, OnOk, OnErr};
ghost use Rattle.disk.specs.Model.{at_rest, CountsFailures};
ghost use Rattle.disk.specs.System.{with_told, with_read, with_written, with_synced, WroteSome};
ghost use Rattle.disk.specs.Replies.{replies_after};
ghost use Rattle.disk.specs.Laws.{counts_now, only_now, may_leave_seen};

use crate::first_error::FirstError;
use crate::named::{NamedFile, RealFile};
use crate::reply::{DiskReply, Replies};
use crate::{DeviceFault, Disk};
use ghost_record::GhostRecord;
use std::alloc::{AllocError, Global};
use std::fs::{File, OpenOptions};
use std::io;
use std::marker::{Brand, PhantomData};
use std::path::Path;
use std::rt::Files;
use std::sync::Arc;

/// Premise of a [`FileDisk`]: what is supposed of its file.
///
/// Nobody knows the bytes of a file before they are read. So a program is generic over its
/// premises, and is called at `Brand`: what is proved of it is proved of every file.
pub trait Premise {
    ghost use Rattle.disk.specs.Supposed.{FileModel};

    /// The bytes with which the file begins, and those that a failed write leaves in its range.
    ghost file: { FileModel };
}

impl Premise for Brand {
    ghost use Rattle.std.specs.Prelude.{[]};

    ghost file = { record { start = []; torn = λ _. [] } };
}

/// An open file of the operating system. One process at a time has it open: it holds the file's
/// lock for as long as it lives.
///
/// The disk keeps the model while each length and each read were those of the file that is
/// supposed, written by its own calls alone. Example: the file begins with 24 bytes, and the first
/// length is 25. From then on nothing is said of its bytes.
///
/// A read or a write that the system answers in part is continued, and a call that a signal
/// interrupts is made again. The first sync that succeeds also puts the folder on the disk, so that
/// the file is found there after a crash.
#[derive(Drop)]
pub struct FileDisk<P: Premise> {
    named: NamedFile<RealFile>,
    replies: GhostRecord<Replies>,
    supposed: PhantomData<P>,
}

impl<P: Premise> FileDisk<P> {
    ghost use Rattle.disk.specs.File.{file_failures, file_replies, file_state, is_named, file_done, folder_done};

    /// Opens a file for reading and writing. A missing one is made, empty, where `make` says so.
    ///
    /// An error is the system's: the file or its folder is missing, isn't to be read or written,
    /// isn't a file, or another disk has it open. Where it is about the folder no file was made.
    pub fn open(rt: &impl Files<File = File>, path: &str, make: bool) -> io::Result<FileDisk<P>>
        ensures failures { IfOk result (λ disk. file_failures disk ≡ 0) }
        ensures unnamed { IfOk result (λ disk. is_named disk ≡ false) }
        ensures no_call { IfOk result (λ disk. file_replies disk ≡ []) }
        ensures as_it_began { IfOk result (λ disk. file_state P.file disk ≡ at_rest P.file.start) }
    {
        let folder = File::open(rt, folder_of(path))?;
        let mut options = OpenOptions::new();
        options.read(true).write(true).create(make);
        let file = options.open(rt, path)?;
        file.try_lock()?;
        Ok(FileDisk {
            named: NamedFile::new(RealFile::new(file), RealFile::new(folder)),
            replies: GhostRecord::new(),
            supposed: PhantomData,
        })
    }

    /// Keeps the system's error at the first call that fails from now on, in what this returns.
    ///
    /// An error is that memory was refused: nothing is kept then.
    pub fn keep_first_error(&mut self, alloc: Global) -> Result<Arc<FirstError>, AllocError>
        ensures failures { file_failures self.new ≡ file_failures self.old }
        ensures done { (file_done self.new ≡ file_done self.old)
            × (folder_done self.new ≡ folder_done self.old) }
        ensures named { is_named self.new ≡ is_named self.old }
        ensures replies { file_replies self.new ≡ file_replies self.old }
        ensures state { file_state P.file self.new ≡ file_state P.file self.old }
    {
        self.named.keep_first_error(alloc)
    }

    /// Notes a call with its answer.
    fn note(&mut self, reply: &DiskReply<'_>)
        ensures named { self.new.named ≡ self.old.named }
        ensures replies { file_replies self.new ≡ replies_after (file_replies self.old) reply.now }
    {
        self.replies = self.replies.then(reply);
    }
}

impl<P: Premise> Disk for FileDisk<P> {
    ghost use Rattle.std.specs.Prelude.{◌⊎◌, ◌+◌, ◌≤◌, length, take, drop};
    ghost use Rattle.disk.specs.Model.{Elapses, FailedWrite, after_write};
    ghost use Rattle.disk.specs.Supposed.Reply.{Told, Gave, Wrote, Lost, Synced, Refused};
    ghost use Rattle.disk.specs.File.{file_failures, file_replies, is_named, file_done, folder_done};
    ghost use Rattle.disk.specs.File.{AnswersAs, file_moment, file_past, file_since, file_state};

    ghost keeps = { AnswersAs P.file };

    ghost begun = { λ _. P.file.start };

    ghost state = { file_state P.file };

    ghost moment = { file_moment P.file };

    ghost since = { file_since P.file };

    ghost failures = { file_failures };

    ghost counts_now = { λ d t file keeps le may.
        counts_now (file_past P.file d).start (file_past P.file d).calls t file le may };

    ghost only_now = { λ d file keeps left.
        only_now (file_past P.file d).start (file_past P.file d).calls file left };

    ghost may_leave_seen = { λ d keeps.
        may_leave_seen (file_past P.file d).start (file_past P.file d).calls };

    fn len(&mut self) -> Result<usize, DeviceFault>
        ensures told { IfOk result (λ n. file_done self.new ≡ with_told (file_done self.old) n) }
        ensures reply { IfOk result (λ n. file_replies self.new ≡ Told n ∷ file_replies self.old) }
        ensures refused { OnErr result (file_replies self.new ≡ Refused ∷ file_replies self.old) }
        ensures answer { AnswersAs P.file self.new →
            IfOk result (λ n. n ≡ length (file_state P.file self.old).seen) }
        ensures same { AnswersAs P.file self.new →
            file_state P.file self.new ≡ file_state P.file self.old }
        ensures time { AnswersAs P.file self.new →
            Elapses (file_moment P.file self.old) (file_moment P.file self.new)
            (file_since P.file self.old) (file_since P.file self.new)
            (file_state P.file self.old) (file_state P.file self.new) result }
        ensures kept { AnswersAs P.file self.new → AnswersAs P.file self.old }
        ensures folder { (folder_done self.new ≡ folder_done self.old)
            × (is_named self.new ≡ is_named self.old) }
        ensures cause { CountsFailures (file_failures self.old) (file_failures self.new) result }
    {
        match self.named.len() {
            Ok(length) => {
                self.note(&DiskReply::Told(length));
                Ok(length)
            }
            Err(fault) => {
                self.note(&DiskReply::Refused);
                Err(fault)
            }
        }
    }

    fn read_at(&mut self, at: usize, buf: &mut [u8]) -> Result<(), DeviceFault>
        ensures got { OnOk result (file_done self.new ≡ with_read (file_done self.old) at buf.new) }
        ensures reply { OnOk result
            (file_replies self.new ≡ Gave at buf.new ∷ file_replies self.old) }
        ensures refused { OnErr result (file_replies self.new ≡ Refused ∷ file_replies self.old) }
        ensures answer { AnswersAs P.file self.new →
            OnOk result (buf.new ≡ take (length buf.old)
            (drop at (file_state P.file self.old).seen)) }
        ensures same { AnswersAs P.file self.new →
            file_state P.file self.new ≡ file_state P.file self.old }
        ensures time { AnswersAs P.file self.new →
            Elapses (file_moment P.file self.old) (file_moment P.file self.new)
            (file_since P.file self.old) (file_since P.file self.new)
            (file_state P.file self.old) (file_state P.file self.new) result }
        ensures kept { AnswersAs P.file self.new → AnswersAs P.file self.old }
        ensures folder { (folder_done self.new ≡ folder_done self.old)
            × (is_named self.new ≡ is_named self.old) }
        ensures cause { CountsFailures (file_failures self.old) (file_failures self.new) result }
    {
        match self.named.read_at(at, buf) {
            Ok(()) => {
                self.note(&DiskReply::Gave(at, buf));
                Ok(())
            }
            Err(fault) => {
                self.note(&DiskReply::Refused);
                Err(fault)
            }
        }
    }

    fn write_at(&mut self, at: usize, bytes: &[u8]) -> Result<(), DeviceFault>
        ensures whole { OnOk result
            (file_done self.new ≡ with_written (file_done self.old) at bytes.now) }
        ensures part { OnErr result
            (WroteSome (file_done self.old) (file_done self.new) at bytes.now) }
        ensures reply { OnOk result
            (file_replies self.new ≡ Wrote at bytes.now ∷ file_replies self.old) }
        ensures lost { OnErr result
            (file_replies self.new ≡ Lost at (length bytes.now) ∷ file_replies self.old) }
        ensures written { AnswersAs P.file self.new →
            OnOk result (file_state P.file self.new
            ≡ after_write (file_state P.file self.old) at bytes.now) }
        ensures torn { AnswersAs P.file self.new →
            OnErr result ((file_moment P.file self.new ≡ file_moment P.file self.old)
            ⊎ FailedWrite at (length bytes.now) (file_state P.file self.old)
            (file_state P.file self.new)) }
        ensures time { AnswersAs P.file self.new →
            Elapses (file_moment P.file self.old) (file_moment P.file self.new)
            (file_since P.file self.old) (file_since P.file self.new)
            (file_state P.file self.old) (file_state P.file self.new) result }
        ensures kept { AnswersAs P.file self.new → AnswersAs P.file self.old }
        ensures folder { (folder_done self.new ≡ folder_done self.old)
            × (is_named self.new ≡ is_named self.old) }
        ensures cause { CountsFailures (file_failures self.old) (file_failures self.new) result }
    {
        match self.named.write_at(at, bytes) {
            Ok(()) => {
                self.note(&DiskReply::Wrote(at, bytes));
                Ok(())
            }
            Err(fault) => {
                self.note(&DiskReply::Lost(at, bytes.len()));
                Err(fault)
            }
        }
    }

    fn sync(&mut self) -> Result<(), DeviceFault>
        ensures file { OnOk result (file_done self.new ≡ with_synced (file_done self.old)) }
        ensures folder { OnOk result
            (is_named self.old ≡ false → folder_done self.new
            ≡ with_synced (folder_done self.old)) }
        ensures named { OnOk result (is_named self.new ≡ true) }
        ensures unnamed { OnErr result (is_named self.new ≡ is_named self.old) }
        ensures reply { OnOk result (file_replies self.new ≡ Synced ∷ file_replies self.old) }
        ensures refused { OnErr result (file_replies self.new ≡ Refused ∷ file_replies self.old) }
        ensures synced { AnswersAs P.file self.new →
            OnOk result (file_state P.file self.new ≡ at_rest (file_state P.file self.old).seen) }
        ensures failed { AnswersAs P.file self.new →
            OnErr result (file_state P.file self.new ≡ file_state P.file self.old) }
        ensures time { AnswersAs P.file self.new →
            Elapses (file_moment P.file self.old) (file_moment P.file self.new)
            (file_since P.file self.old) (file_since P.file self.new)
            (file_state P.file self.old) (file_state P.file self.new) result }
        ensures kept { AnswersAs P.file self.new → AnswersAs P.file self.old }
        ensures cause { CountsFailures (file_failures self.old) (file_failures self.new) result }
    {
        match self.named.sync() {
            Ok(()) => {
                self.note(&DiskReply::Synced);
                Ok(())
            }
            Err(fault) => {
                self.note(&DiskReply::Refused);
                Err(fault)
            }
        }
    }
}

/// The folder of a path, which is the working folder for a bare name.
pub(crate) fn folder_of(path: &str) -> Path<'_> {
    match Path::new(path).parent() {
        Some(folder) if !folder.as_os_str().is_empty() => folder,
        _ => Path::new("."),
    }
}
