//! The mark of a sync that failed, and the disk that leaves it.
//!
//! After a write-back that failed Linux takes the pages for clean, so that reads give what no disk
//! has, and the next sync says that all is well. A file of which a sync failed is therefore not to
//! be trusted until the machine has started anew. The mark is a symbolic link beside the journal
//! whose target is the boot's id: it takes no block of the disk.

ghost use Rattle.std.specs.Prelude.{◌≡◌, ◌↔◌, ◌++◌, Some, None, codes, slice_get, string_bytes, IfErr, IfOk, IfSome, IsTrue};
ghost use Rattle.disk.specs.File.{file_failures};
ghost use Rattle.journal.specs.declared.fault.JournalFault.TheVariants.{Device};
ghost use Rattle.commands.specs.TextLines.{lines_in};
ghost use Rattle.std.specs.IoError.{error_kind};
ghost use Rattle.files.specs.Disks.{MeansNone, marked_file};
ghost use Rattle.troubles.specs.Faults.{IsMeant};
ghost use Rattle.troubles.specs.declared.fault.Fault.TheVariants as ends;

use commands::line_at;
use disk::{DeviceFault, Disk, FileDisk, Premise};
use journal::JournalFault;
use std::alloc::{AllocError, Global};
use std::os::unix;
use std::{fs, io};
use troubles::{Failure, Fault, Whereabouts};

/// The file of the system that has the boot's id.
const BOOT: &str = "/proc/sys/kernel/random/boot_id";

/// The words on a journal with a mark of this boot.
const CAUSE: &str =
    "a sync of this journal failed since the machine started: restart the machine, or copy the file past the cache to another disk (see OPERATING)";

/// The first line of a text; none where that is no UTF-8.
fn first_text(alloc: Global, text: &[u8]) -> Result<Option<String>, AllocError>
    ensures { IfOk result
        (λ found. IfSome found (λ line. slice_get (lines_in text.now) 0
        ≡ Some (string_bytes line))) }
{
    let Some(line) = line_at(text, 1) else {
        return Ok(None);
    };
    match str::from_utf8(line) {
        Ok(line) => Ok(Some(String::from_str(alloc, line)?)),
        Err(_) => Ok(None),
    }
}

/// Refuses a journal of which a sync failed in this boot.
///
/// [`Fault::Journal`] with [`JournalFault::Device`]: one did, or the system doesn't say.
pub fn refuse_unsynced(host: &HostRuntime, journal: &str) -> Result<(), Failure>
    ensures { IfErr result (λ failure. IsMeant (ends.Journal Device) failure.fault) }
{
    let (alloc, place) = (host.alloc(), Whereabouts::Open);
    let fault = Fault::Journal(JournalFault::Device);
    let mark = match Mark::of(host, journal) {
        Ok(Some(mark)) => mark,
        Ok(None) => return Ok(()),
        Err(error) => return Err(Failure::of_system(alloc, fault, BOOT, place, error)),
    };
    let path = mark.path.as_str();
    match mark.found(host) {
        Ok(Some(true)) => Err(Failure::at(alloc, fault, path, Whereabouts::Whole, &CAUSE)),
        Ok(_) => Ok(()),
        Err(error) => Err(Failure::of_system(alloc, fault, path, place, error)),
    }
}

/// Removes the mark of a journal that another boot left.
pub fn remove_old_mark(host: &HostRuntime, journal: &str) {
    if let Ok(Some(mark)) = Mark::of(host, journal) {
        if let Ok(Some(false)) = mark.found(host) {
            let _gone = fs::remove_file(host, mark.path.as_str()).is_ok();
        }
    }
}

/// The disk in a journal's file, which leaves a mark beside it before it answers that a sync
/// failed. What is said of the disk of a file holds of it.
#[derive(Drop)]
pub struct MarkedDisk<P: Premise> {
    disk: FileDisk<P>,
    host: HostRuntime,
    /// None where the system tells no id of the boot, or memory was refused.
    mark: Option<Mark>,
}

impl<P: Premise> MarkedDisk<P> {
    /// The disk of the journal's file at this path.
    pub fn new(host: &HostRuntime, disk: FileDisk<P>, journal: &str) -> MarkedDisk<P>
        ensures { marked_file result ≡ disk }
    {
        MarkedDisk {
            disk,
            host: *host,
            mark: Mark::of(host, journal).unwrap_or(None),
        }
    }

    /// Leaves the mark, where it has a place.
    fn leave_mark(&self) {
        if let Some(mark) = &self.mark {
            mark.leave(&self.host);
        }
    }
}

impl<P: Premise> Disk for MarkedDisk<P> {
    ghost use Rattle.disk.specs.File.{AnswersAs, file_moment, file_past, file_since, file_state};
    ghost use Rattle.disk.specs.Laws.{counts_now, only_now, may_leave_seen};

    ghost keeps = { λ marked. AnswersAs P.file (marked_file marked) };

    ghost begun = { λ _. P.file.start };

    ghost state = { λ marked. file_state P.file (marked_file marked) };

    ghost moment = { λ marked. file_moment P.file (marked_file marked) };

    ghost since = { λ marked. file_since P.file (marked_file marked) };

    ghost failures = { λ marked. file_failures (marked_file marked) };

    ghost counts_now = { λ d t file keeps le may. counts_now
        (file_past P.file (marked_file d)).start
        (file_past P.file (marked_file d)).calls t file le may };

    ghost only_now = { λ d file keeps left. only_now (file_past P.file (marked_file d)).start
        (file_past P.file (marked_file d)).calls file left };

    ghost may_leave_seen = { λ d keeps. may_leave_seen (file_past P.file (marked_file d)).start
        (file_past P.file (marked_file d)).calls };

    fn len(&mut self) -> Result<usize, DeviceFault> {
        self.disk.len()
    }

    fn read_at(&mut self, at: usize, buf: &mut [u8]) -> Result<(), DeviceFault> {
        self.disk.read_at(at, buf)
    }

    fn write_at(&mut self, at: usize, bytes: &[u8]) -> Result<(), DeviceFault> {
        self.disk.write_at(at, bytes)
    }

    fn sync(&mut self) -> Result<(), DeviceFault> {
        match self.disk.sync() {
            Ok(()) => Ok(()),
            Err(fault) => {
                self.leave_mark();
                Err(fault)
            }
        }
    }
}

/// The place of a journal's mark, and what it says in this boot.
#[derive(Drop)]
struct Mark {
    path: String,
    boot: String,
}

impl Mark {
    /// The mark of a journal; none where the system has no id of the boot.
    fn of(host: &HostRuntime, journal: &str) -> io::Result<Option<Mark>>
        ensures { IfOk result
            (λ mark. IfSome mark (λ mark. string_bytes mark.path ≡ journal.now
            ++ codes ".unsynced")) }
    {
        let text = match fs::read(host, BOOT) {
            Ok(text) => text,
            Err(error) if is_none(&error) => return Ok(None),
            Err(error) => return Err(error),
        };
        let Some(boot) = first_text(host.alloc(), &text)? else {
            return Ok(None);
        };
        let path = mark_path(host.alloc(), journal)?;
        Ok(Some(Mark { path, boot }))
    }

    /// Leaves the mark, in the place of one of another boot, if one is there.
    fn leave(&self, host: &HostRuntime) {
        if unix::fs::symlink(host, self.boot.as_str(), self.path.as_str()).is_ok() {
            return;
        }
        if let Ok(Some(true)) = self.found(host) {
            return;
        }
        let _gone = fs::remove_file(host, self.path.as_str()).is_ok();
        let _left = unix::fs::symlink(host, self.boot.as_str(), self.path.as_str()).is_ok();
    }

    /// Returns if the mark is there, and of which boot: `true` for this one, `false` for another.
    /// A file that is no link is no mark.
    fn found(&self, host: &HostRuntime) -> io::Result<Option<bool>> {
        match fs::read_link(host, self.path.as_str()) {
            Ok(target) => Ok(Some(is_of(target.as_str(), self.boot.as_str()))),
            Err(error) if is_none(&error) => Ok(None),
            Err(error) => Err(error),
        }
    }
}

/// Returns `true` if the error says that nothing is there, or not to be read by this user, or no
/// link: another one may pass.
fn is_none(error: &io::Error) -> bool
    ensures { IsTrue result ↔ MeansNone (error_kind error.now) }
{
    match error.kind() {
        io::ErrorKind::NotFound | io::ErrorKind::PermissionDenied | io::ErrorKind::InvalidInput =>
            true,
        _ => false,
    }
}

/// The path of the mark of a journal.
fn mark_path(alloc: Global, journal: &str) -> Result<String, AllocError>
    ensures { IfOk result (λ path. string_bytes path ≡ journal.now ++ codes ".unsynced") }
{
    format!(in alloc; "{journal}.unsynced")
}

/// Returns `true` if a mark with this target was left in the boot of this id.
fn is_of(target: &str, boot: &str) -> bool
    ensures { IsTrue result ↔ (target.now ≡ boot.now) }
{
    target == boot
}
