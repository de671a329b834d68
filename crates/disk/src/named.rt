//! A file by its name, and the folder that has the name: calls that are done whole, over those of
//! the system, which may move a part and be interrupted. Behind them stand the trait of such a
//! file, and the real one, each of whose methods is one call.
ghost use Rattle.std.specs.Prelude.{◌≡◌, ◌≤◌, true, false, Ok, length, take, IfOk, OnOk, OnErr};
ghost use Rattle.disk.specs.Model.{CountsFailures};
ghost use Rattle.disk.specs.System.{Done, nothing_done, with_told, with_read, with_written, with_synced, WroteSome};

use crate::DeviceFault;
use crate::account::{Account, SystemCall};
use crate::failures::{Failure, Failures};
use crate::first_error::{FirstError, note_for};
use ghost_record::GhostRecord;
use std::alloc::{AllocError, Global};
use std::fs::File;
use std::io::{self, ErrorKind};
use std::os::unix::fs::FileExt;
use std::sync::Arc;

/// The most times that a call is made again after a signal interrupted it.
const TRIES: u32 = 1_000_000;

/// An open file, and the folder in which its name stands. Each call that fails is counted.
#[derive(Drop)]
pub(crate) struct NamedFile<F: SystemFile> {
    pub(crate) file: F,
    pub(crate) folder: F,
    /// Set if a sync has put the folder on the disk, and so the file's name.
    pub(crate) named: bool,
    pub(crate) failures: GhostRecord<Failures>,
    /// The place for the first error of the system, if somebody wants to know it.
    pub(crate) first: Option<Arc<FirstError>>,
}

impl<F: SystemFile> NamedFile<F> {
    /// A file that was just opened, with its folder.
    pub(crate) fn new(file: F, folder: F) -> NamedFile<F>
        ensures file { result.file ≡ file }
        ensures folder { result.folder ≡ folder }
        ensures unnamed { result.named ≡ false }
        ensures failures { result.failures.value ≡ 0 }
    {
        NamedFile {
            file,
            folder,
            named: false,
            failures: GhostRecord::new(),
            first: None,
        }
    }

    /// Keeps the system's error at the first call that fails from now on, in what this returns.
    pub(crate) fn keep_first_error(&mut self, alloc: Global) -> Result<Arc<FirstError>, AllocError>
        ensures file { (self.new.file ≡ self.old.file) × (self.new.folder ≡ self.old.folder) }
        ensures named { self.new.named ≡ self.old.named }
        ensures failures { self.new.failures ≡ self.old.failures }
    {
        let ours = Arc::new(alloc, FirstError::new())?;
        self.first = Some(ours.clone()?);
        Ok(ours)
    }

    /// Returns how many bytes the file has.
    pub(crate) fn len(&mut self) -> Result<usize, DeviceFault>
        ensures told { IfOk result
            (λ n. F.done self.new.file ≡ with_told (F.done self.old.file) n) }
        ensures folder { (self.new.folder ≡ self.old.folder) × (self.new.named ≡ self.old.named) }
        ensures cause { CountsFailures self.old.failures.value self.new.failures.value result }
    {
        let length = length_of(&mut self.file);
        answer(&mut self.failures, &self.first, length)
    }

    /// Fills the buffer with the bytes from a place on.
    pub(crate) fn read_at(&mut self, at: usize, buf: &mut [u8]) -> Result<(), DeviceFault>
        ensures got { OnOk result
            (F.done self.new.file ≡ with_read (F.done self.old.file) at buf.new) }
        ensures folder { (self.new.folder ≡ self.old.folder) × (self.new.named ≡ self.old.named) }
        ensures cause { CountsFailures self.old.failures.value self.new.failures.value result }
    {
        let read = read_whole(&mut self.file, at, buf);
        answer(&mut self.failures, &self.first, read)
    }

    /// Writes the bytes from a place on. After a fault a beginning of them was written.
    pub(crate) fn write_at(&mut self, at: usize, bytes: &[u8]) -> Result<(), DeviceFault>
        ensures whole { OnOk result
            (F.done self.new.file ≡ with_written (F.done self.old.file) at bytes.now) }
        ensures part { OnErr result
            (WroteSome (F.done self.old.file) (F.done self.new.file) at bytes.now) }
        ensures folder { (self.new.folder ≡ self.old.folder) × (self.new.named ≡ self.old.named) }
        ensures cause { CountsFailures self.old.failures.value self.new.failures.value result }
    {
        let written = write_whole(&mut self.file, at, bytes);
        answer(&mut self.failures, &self.first, written)
    }

    /// Puts the file on the disk, and the folder too until that has once succeeded.
    pub(crate) fn sync(&mut self) -> Result<(), DeviceFault>
        ensures file { OnOk result (F.done self.new.file ≡ with_synced (F.done self.old.file)) }
        ensures folder { OnOk result
            (self.old.named ≡ false → F.done self.new.folder
            ≡ with_synced (F.done self.old.folder)) }
        ensures named { OnOk result (self.new.named ≡ true) }
        ensures unnamed { OnErr result (self.new.named ≡ self.old.named) }
        ensures cause { CountsFailures self.old.failures.value self.new.failures.value result }
    {
        let settled = settle_both(&mut self.file, &mut self.folder, self.named);
        match answer(&mut self.failures, &self.first, settled) {
            Ok(()) => {
                self.named = true;
                Ok(())
            }
            Err(fault) => Err(fault),
        }
    }
}

/// The answer to a call of the system, whose error is kept for who wants to know it.
fn answer<T: Drop>(
    failures: &mut GhostRecord<Failures>,
    first: &Option<Arc<FirstError>>,
    done: io::Result<T>,
) -> Result<T, DeviceFault>
    ensures ok { IfOk result (λ value. done ≡ Ok value) }
    ensures err { OnErr result (OnErr done (Unit {0})) }
    ensures cause { CountsFailures failures.old.value failures.new.value result }
{
    match done {
        Ok(value) => Ok(value),
        Err(error) => {
            note_for(first, error);
            *failures = failures.then(&Failure);
            Err(DeviceFault)
        }
    }
}

/// Puts the file on the disk, and the folder where it isn't there yet.
fn settle_both<F: SystemFile>(file: &mut F, folder: &mut F, named: bool) -> io::Result<()>
    ensures file { OnOk result (F.done file.new ≡ with_synced (F.done file.old)) }
    ensures folder { OnOk result
        (named ≡ false → F.done folder.new ≡ with_synced (F.done folder.old)) }
{
    settle(file)?;
    if named {
        return Ok(());
    }
    settle(folder)
}

/// Returns how many bytes the file has.
fn length_of<F: SystemFile>(file: &mut F) -> io::Result<usize>
    ensures ok { IfOk result (λ n. F.done file.new ≡ with_told (F.done file.old) n) }
    ensures err { OnErr result (F.done file.new ≡ F.done file.old) }
{
    for _ in 0..TRIES {
        let done = file.len();
        if !is_interrupted(&done) {
            return done;
        }
    }
    Err(io::Error::from(ErrorKind::Interrupted))
}

/// Puts the file on the disk.
fn settle<F: SystemFile>(file: &mut F) -> io::Result<()>
    ensures ok { OnOk result (F.done file.new ≡ with_synced (F.done file.old)) }
    ensures err { OnErr result (F.done file.new ≡ F.done file.old) }
{
    for _ in 0..TRIES {
        let done = file.sync();
        if !is_interrupted(&done) {
            return done;
        }
    }
    Err(io::Error::from(ErrorKind::Interrupted))
}

/// Fills the buffer with the bytes from a place on. Where the file ends before, that is an error.
fn read_whole<F: SystemFile>(file: &mut F, at: usize, buf: &mut [u8]) -> io::Result<()>
    ensures ok { OnOk result (F.done file.new ≡ with_read (F.done file.old) at buf.new) }
{
    let mut done = 0;
    while done < buf.len() {
        let Some(place) = at.checked_add(done) else {
            return Err(io::Error::from(ErrorKind::InvalidInput));
        };
        let count = read_some(file, place, &mut buf[done..])?;
        if count == 0 {
            return Err(io::Error::from(ErrorKind::UnexpectedEof));
        }
        done += count;
    }
    Ok(())
}

/// Reads once, and again where a signal interrupted it.
fn read_some<F: SystemFile>(file: &mut F, at: usize, buf: &mut [u8]) -> io::Result<usize>
    ensures within { IfOk result (λ n. n ≤ length buf.new) }
    ensures ok { IfOk result
        (λ n. F.done file.new ≡ with_read (F.done file.old) at (take n buf.new)) }
    ensures err { OnErr result (F.done file.new ≡ F.done file.old) }
{
    for _ in 0..TRIES {
        let done = file.read_at(at, buf);
        if !is_interrupted(&done) {
            return done;
        }
    }
    Err(io::Error::from(ErrorKind::Interrupted))
}

/// Writes all of the bytes from a place on. After an error a beginning of them was written.
fn write_whole<F: SystemFile>(file: &mut F, at: usize, bytes: &[u8]) -> io::Result<()>
    ensures ok { OnOk result (F.done file.new ≡ with_written (F.done file.old) at bytes.now) }
    ensures err { OnErr result (WroteSome (F.done file.old) (F.done file.new) at bytes.now) }
{
    let mut place = at;
    let mut rest = bytes;
    while !rest.is_empty() {
        let count = match write_some(file, place, rest) {
            Ok(count) => count,
            Err(error) => return Err(error),
        };
        if count == 0 {
            return Err(io::Error::from(ErrorKind::WriteZero));
        }
        let Some(next) = place.checked_add(count) else {
            return Err(io::Error::from(ErrorKind::InvalidInput));
        };
        place = next;
        rest = &rest[count..];
    }
    Ok(())
}

/// Writes once, and again where a signal interrupted it.
fn write_some<F: SystemFile>(file: &mut F, at: usize, bytes: &[u8]) -> io::Result<usize>
    ensures within { IfOk result (λ n. n ≤ length bytes.now) }
    ensures ok { IfOk result
        (λ n. F.done file.new ≡ with_written (F.done file.old) at (take n bytes.now)) }
    ensures err { OnErr result (F.done file.new ≡ F.done file.old) }
{
    for _ in 0..TRIES {
        let done = file.write_at(at, bytes);
        if !is_interrupted(&done) {
            return done;
        }
    }
    Err(io::Error::from(ErrorKind::Interrupted))
}

/// Returns `true` if a signal interrupted the call.
fn is_interrupted<T>(done: &io::Result<T>) -> bool
    ensures { IfOk done.now (λ _. result ≡ false) }
{
    match done {
        Ok(_) => false,
        Err(error) => error.kind() == ErrorKind::Interrupted,
    }
}

/// An open file of the system, or a folder. A read or a write may move less than it is asked for,
/// and each call may fail, also where a signal interrupts it.
///
/// It tells, for clauses alone, what its calls did. That a file holds what was written, and keeps
/// it after a sync, is not said: that is the premise on a real file.
pub(crate) trait SystemFile {
    /// The calls on it so far.
    ghost done: { Self → Done };

    /// Returns how many bytes it has.
    fn len(&mut self) -> io::Result<usize>
        ensures ok { IfOk result (λ n. done self.new ≡ with_told (done self.old) n) }
        ensures err { OnErr result (done self.new ≡ done self.old) };

    /// Reads some bytes from a place on into the front of the buffer, and answers how many: 0 at
    /// the end.
    fn read_at(&mut self, at: usize, buf: &mut [u8]) -> io::Result<usize>
        ensures within { IfOk result (λ n. n ≤ length buf.new) }
        ensures ok { IfOk result
            (λ n. done self.new ≡ with_read (done self.old) at (take n buf.new)) }
        ensures err { OnErr result (done self.new ≡ done self.old) };

    /// Writes some of these bytes, from their front, from a place on, and answers how many.
    fn write_at(&mut self, at: usize, bytes: &[u8]) -> io::Result<usize>
        ensures within { IfOk result (λ n. n ≤ length bytes.now) }
        ensures ok { IfOk result
            (λ n. done self.new ≡ with_written (done self.old) at (take n bytes.now)) }
        ensures err { OnErr result (done self.new ≡ done self.old) };

    /// Puts it on the disk.
    fn sync(&mut self) -> io::Result<()>
        ensures ok { OnOk result (done self.new ≡ with_synced (done self.old)) }
        ensures err { OnErr result (done self.new ≡ done self.old) };
}

/// A file of the operating system. Each method is one call of it. Nothing else reaches its account:
/// the code above is generic over the file.
#[derive(Drop)]
pub(crate) struct RealFile {
    file: File,
    account: GhostRecord<Account>,
}

impl RealFile {
    ghost use Rattle.disk.specs.Real.{real_done};

    /// A file that was just opened.
    pub(crate) fn new(file: File) -> RealFile
        ensures { real_done result ≡ nothing_done }
    {
        RealFile {
            file,
            account: GhostRecord::new(),
        }
    }
}

impl SystemFile for RealFile {
    ghost use Rattle.disk.specs.Real.{real_done};

    ghost done = { real_done };

    fn len(&mut self) -> io::Result<usize> {
        let length = self.file.metadata()?.len() as usize;
        self.account = self.account.then(&SystemCall::Told(length));
        Ok(length)
    }

    fn read_at(&mut self, at: usize, buf: &mut [u8]) -> io::Result<usize> {
        let count = self.file.read_at(buf, at as u64)?;
        self.account = self.account.then(&SystemCall::Read(at, &buf[..count]));
        Ok(count)
    }

    fn write_at(&mut self, at: usize, bytes: &[u8]) -> io::Result<usize> {
        let count = self.file.write_at(bytes, at as u64)?;
        self.account = self.account.then(&SystemCall::Wrote(at, &bytes[..count]));
        Ok(count)
    }

    fn sync(&mut self) -> io::Result<()> {
        self.file.sync_all()?;
        self.account = self.account.then(&SystemCall::Synced);
        Ok(())
    }
}
