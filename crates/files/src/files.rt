//! The commands over the files that their words name, and over the standard streams.

ghost use Rattle.migration.specs.OldOutcomes.{IsUntouched};
ghost use Rattle.disk.specs.File.{file_state};
ghost use Rattle.disk.specs.Model.{at_rest};
ghost use Rattle.files.specs.Disks.{marked_file};
ghost use Rattle.troubles.specs.Faults.{IsMeant};
ghost use Rattle.troubles.specs.Troubles.{IsNamed, IsTold};
ghost use Rattle.troubles.specs.declared.trouble.Whereabouts.TheVariants as whereabouts;
ghost use Rattle.troubles.specs.declared.fault.Fault.TheVariants as ends;
ghost use Rattle.std.specs.Prelude.{◌≡◌, ◌≢◌, IfErr, IfOk, IfSome, codes, ⊤};

use crate::cluster::make_folder;
use crate::doors::keep_to_own_doors;
use crate::epoch_files::{
    Checked, checked_journal, first_journal, refuse_begun, refuse_forgotten_in,
};
use crate::forgotten::refuse_forgotten;
use crate::page_files::{
    Page, fault_at, keep_apart, keep_two_apart, name_of, warn_of_length, write_page,
};
use crate::presence::leads_somewhere;
use crate::rows::{check_rows, check_size};
use crate::unsynced::{MarkedDisk, refuse_unsynced};
use commands::{
    Choice, DumpFault, InitFault, MigrationFault, PagePaths, ScriptPages, Shelf, Simulation,
    SimulationEnd, check_journal, dump_count, dump_count_object, dump_lines, dump_objects,
    init_disk, migrate_disks, print_check, print_settings, show_simulation,
};
use disk::{Disk, FileDisk, FirstError, MemDisk, Premise};
use hearing::hear_lines;
use journal::JournalFault;
use migration::MigrateFault;
use settings::{Settings, strays_of};
use std::alloc::{AllocError, Global};
use std::fs::{self, OpenOptions};
use std::io::{self, BufReader, BufWriter, LineWriter, Read};
use std::sync::Arc;
use terms::{Header, Size};
use transcripts::audit_text;
use troubles::{
    Failure, Fault, ReadFile, Text, Trouble, Whereabouts, journal_failure, long_failure,
    not_old_failure, not_text, old_failure, read_file, script_failure, settings_failure,
    stray_trouble, strays_trouble, transcript_failure,
};

/// Reads lines from the standard input, and answers each as it comes.
pub fn hear_input(rt: &HostRuntime, size: Size, me: u8) -> Result<u8, Fault> {
    let mut input = BufReader::new(rt.alloc(), rt.reader())?;
    let mut output = LineWriter::new(rt.alloc(), io::writer(rt))?;
    Ok(hear_lines(rt.alloc(), size, me, &mut input, &mut output)?)
}

/// Reads the transcript in the file, of a cluster of that size, and prints whether it is proof of
/// its decision. The status is 0 for `yes` and 1 for `no`.
pub fn audit_file(rt: &HostRuntime, path: &str, size: Size) -> Result<u8, Failure>
    ensures named { IfErr result (IsNamed path.now) }
{
    let text = read_file(rt, path, Text::Transcript)?;
    match audit_text(rt.alloc(), &text, size, &mut io::writer(rt)) {
        Ok(status) => Ok(status),
        Err(fault) => Err(transcript_failure(rt.alloc(), path, &text, fault)),
    }
}

/// The settings in the file. Keys that are ignored are named on the standard error.
pub fn read_settings(rt: &HostRuntime, path: &str) -> Result<Settings, Failure>
    ensures named { IfErr result (IsNamed path.now) }
{
    let bytes = read_file(rt, path, Text::Settings)?;
    let text = match str::from_utf8(&bytes) {
        Ok(text) => text,
        Err(error) => return Err(not_text(rt.alloc(), path, error.valid_up_to())),
    };
    match Settings::parse(rt.alloc(), text) {
        Ok(settings) => {
            warn_of_strays(rt, path, text);
            Ok(settings)
        }
        Err(fault) => Err(settings_failure(rt.alloc(), path, text, fault)),
    }
}

/// The number of ignored keys that are named.
const NAMED: usize = 20;

/// Says on the standard error which keys of the text are ignored: a line for each of the first 20,
/// and one with the number of the others.
fn warn_of_strays(rt: &HostRuntime, path: &str, text: &str) {
    let Ok(strays) = strays_of(rt.alloc(), text) else {
        return;
    };
    let named = strays.len().min(NAMED);
    for stray in &strays[..named] {
        warn(rt, stray_trouble(rt.alloc(), path, text, stray));
    }
    let others = strays.len() - named;
    if others > 0 {
        warn(rt, strays_trouble(rt.alloc(), path, others));
    }
}

/// Says on the standard error what can be told.
fn warn(rt: &HostRuntime, trouble: Option<Trouble>) {
    if let Some(trouble) = trouble {
        let _unsaid = eprintln!(rt; "{trouble}");
    }
}

/// The purpose for which the file of a journal is opened.
#[derive(Clone, Copy, Debug, PartialEq, Eq)]
pub enum Purpose {
    /// To make the journal: a missing file is made, empty.
    Make,
    /// To look into it.
    Look,
    /// To run its member.
    Run,
}

/// The words on a member's journal that is missing: another one would let it say things twice.
const MISSING: &str = "no such file: `bracha init` makes one for a new member, and for no other";

/// The file of a journal, as it is told of.
#[derive(Drop)]
pub struct Source<'a> {
    pub path: &'a str,
    /// The place for the system's error at the first call of the file that fails; none where the
    /// file isn't open.
    pub first_error: Option<Arc<FirstError>>,
}

impl<'a> Source<'a> {
    /// Returns what the system said at the first call of the file that failed; none where none has.
    pub fn error(&self) -> Option<io::Error> {
        first_error_in(&self.first_error)
    }

    /// Returns the place for the system's error, for another thread.
    pub fn shared_error(&self) -> Option<Arc<FirstError>> {
        match &self.first_error {
            Some(first) => {
                let shared: Result<Arc<FirstError>, AllocError> = first.clone();
                shared.ok()
            }
            None => None,
        }
    }
}

/// Returns what the system said at the first call of a file that failed, where that is kept.
pub fn first_error_in(kept: &Option<Arc<FirstError>>) -> Option<io::Error> {
    match kept {
        Some(first) => first.get(),
        None => None,
    }
}

/// The disk in the file of a journal, which is a regular file, and what is told of it. It is as it
/// began.
pub fn open_disk<'a, P: Premise>(
    rt: &HostRuntime,
    path: &'a str,
    purpose: Purpose,
) -> Result<(MarkedDisk<P>, Source<'a>), Failure>
    ensures as_it_began { IfOk result
        (λ opened. file_state P.file (marked_file opened.0) ≡ at_rest P.file.start) }
    ensures source { IfOk result (λ opened. opened.1.path.now ≡ path.now) }
    ensures fault { IfErr result (λ failure. IsMeant ends.File failure.fault) }
    ensures named { IfErr result (IsNamed path.now) }
{
    let mut disk = open_file::<P>(rt, path, purpose)?;
    let first_error = disk.keep_first_error(rt.alloc()).ok();
    let disk = MarkedDisk::new(rt, disk, path);
    Ok((disk, Source { path, first_error }))
}

/// The disk in the file of a journal, which is a regular file.
fn open_file<P: Premise>(
    rt: &HostRuntime,
    path: &str,
    purpose: Purpose,
) -> Result<FileDisk<P>, Failure>
    ensures as_it_began { IfOk result (λ disk. file_state P.file disk ≡ at_rest P.file.start) }
    ensures fault { IfErr result (λ failure. IsMeant ends.File failure.fault) }
    ensures named { IfErr result (IsNamed path.now) }
{
    keep_to_files(rt, path)?;
    match FileDisk::<P>::open(rt, path, purpose == Purpose::Make) {
        Ok(disk) => Ok(disk),
        // Its lock is held.
        Err(error) if error.kind() == io::ErrorKind::WouldBlock => {
            let words = "another process has it";
            Err(Failure::at(rt.alloc(), Fault::File, path, Whereabouts::Open, &words))
        }
        Err(error) if purpose == Purpose::Run && error.kind() == io::ErrorKind::NotFound => {
            Err(missing(rt.alloc(), path))
        }
        Err(error) => Err(Failure::of_system(
            rt.alloc(),
            Fault::File,
            path,
            Whereabouts::Open,
            error,
        )),
    }
}

/// The disk in the file of a journal that is to be relied on: of which no sync failed since the
/// machine was started.
///
/// [`Fault::Journal`] with [`JournalFault::Device`]: one did.
pub fn open_good_disk<'a, P: Premise>(
    rt: &HostRuntime,
    path: &'a str,
    purpose: Purpose,
) -> Result<(MarkedDisk<P>, Source<'a>), Failure>
    ensures as_it_began { IfOk result
        (λ opened. file_state P.file (marked_file opened.0) ≡ at_rest P.file.start) }
    ensures source { IfOk result (λ opened. opened.1.path.now ≡ path.now) }
{
    refuse_unsynced(rt, path)?;
    let opened = open_disk::<P>(rt, path, purpose)?;
    // Who had the file until now may have left the mark meanwhile.
    refuse_unsynced(rt, path)?;
    Ok(opened)
}

/// Makes the journal that the settings in the file name.
pub fn init_file<P: Premise>(rt: &HostRuntime, path: &str) -> Result<u8, Failure> {
    let settings = read_settings(rt, path)?;
    if let Some(folder) = &settings.epochs {
        make_folder(rt, folder.as_str())?;
        refuse_forgotten_in(rt, folder.as_str(), settings.header.me())?;
        refuse_begun(rt, folder.as_str())?;
    }
    let journal = first_journal(rt.alloc(), &settings).map_err(|_| Fault::Memory)?;
    let journal = journal.as_str();
    refuse_forgotten(rt, journal, settings.header.me())?;
    let (mut disk, source) = open_good_disk::<P>(rt, journal, Purpose::Make)?;
    match init_disk(&mut disk, &settings) {
        Ok(status) => Ok(status),
        Err(fault) => {
            let found = match fault {
                InitFault::NotEmpty => JournalFault::NotEmpty,
                InitFault::Device => JournalFault::Device,
            };
            Err(failure_for(rt, &source, Fault::from(fault), found, None))
        }
    }
}

/// The most bytes of a file that are read for a second line: those of more than 2,700,000 records.
const MOST: u64 = 1 << 24;

/// The failure of the journal in the file, in which that was found, where the one of this header
/// was asked for, if one was: in the system's words where a call of the file failed, else by its
/// bytes, which are read anew, as many as are needed.
pub fn failure_for(
    rt: &HostRuntime,
    source: &Source<'_>,
    fault: Fault,
    found: JournalFault,
    asked: Option<&Header>,
) -> Failure
    ensures fault { result.fault ≡ fault }
    ensures named { IsNamed source.now.path.now result }
{
    match (found, source.error()) {
        (JournalFault::Device, Some(error)) => {
            Failure::at(rt.alloc(), fault, source.path, Whereabouts::Whole, &error)
        }
        _ => failure_by_bytes(rt, source.path, fault, found, asked),
    }
}

/// The failure of the journal in the file, in which that was found, where the one of this header
/// was asked for, if one was, by its bytes.
fn failure_by_bytes(
    rt: &HostRuntime,
    path: &str,
    fault: Fault,
    found: JournalFault,
    asked: Option<&Header>,
) -> Failure
    ensures fault { result.fault ≡ fault }
    ensures named { IsNamed path.now result }
{
    match read_needed(rt, path, found) {
        Ok(Some((bytes, length))) if found == JournalFault::NotEmpty && length > MOST => {
            long_failure(rt.alloc(), path, fault, &bytes, length)
        }
        Ok(Some((bytes, _))) => {
            let file = ReadFile {
                path,
                bytes: bytes.as_slice(),
            };
            journal_failure(rt.alloc(), &file, fault, found, asked)
        }
        _ => Failure::about(rt.alloc(), fault, path),
    }
}

/// Says what the settings in the file say, and how many records their journal has, or that of the
/// newest epoch of their chain, if the member can run on it. As an object of JSON it is said once
/// all of it is known.
pub fn check_file(rt: &HostRuntime, path: &str, json: bool) -> Result<u8, Failure> {
    let settings = read_settings(rt, path)?;
    if !json {
        print_settings(rt.alloc(), &settings, &mut io::writer(rt)).map_err(|fault| Fault::from(
            fault,
        ))?;
    }
    let Checked { path, header } = checked_journal(rt, &settings)?;
    let journal = path.as_str();
    refuse_forgotten(rt, journal, header.me())?;
    refuse_unsynced(rt, journal)?;
    let mut disk = copied_disk(rt, journal)?;
    match print_records(rt, &settings, &header, &mut disk, json) {
        Ok(status) => {
            keep_to_own_doors(rt, &settings)?;
            Ok(status)
        }
        Err(fault) => {
            let source = Source {
                path: journal,
                first_error: None,
            };
            Err(dump_failure(rt, &source, fault, Some(&header)))
        }
    }
}

/// A copy in memory of the journal's file, which is a regular one.
fn copied_disk(rt: &HostRuntime, journal: &str) -> Result<MemDisk, Failure>
    ensures named { IfErr result (IsNamed journal.now) }
{
    keep_to_files(rt, journal)?;
    let bytes = match read_unlocked(rt, journal, u64::MAX) {
        Ok(bytes) => bytes,
        Err(error) if error.kind() == io::ErrorKind::NotFound => {
            return Err(missing(rt.alloc(), journal));
        }
        Err(error) => return Err(Failure::of_system(
            rt.alloc(),
            Fault::File,
            journal,
            Whereabouts::Open,
            error,
        )),
    };
    let mut disk = MemDisk::new(rt.alloc());
    disk.write_at(0, &bytes).map_err(|_| Fault::Memory)?;
    Ok(disk)
}

/// Refuses a device or a pipe, which might be waited for or read without an end. A file is taken,
/// and so is nothing at all, and a folder, which the system refuses. [`Fault::File`]: it is one.
pub(crate) fn keep_to_files(rt: &HostRuntime, path: &str) -> Result<(), Failure>
    ensures fault { IfErr result (λ failure. IsMeant ends.File failure.fault) }
    ensures named { IfErr result (IsNamed path.now) }
{
    match fs::metadata(rt, path) {
        Ok(known) if !known.is_file() && !known.is_dir() => {
            let words = "no regular file";
            Err(Failure::at(rt.alloc(), Fault::File, path, Whereabouts::Open, &words))
        }
        _ => Ok(()),
    }
}

/// The failure of a member's journal that is missing.
fn missing(alloc: Global, path: &str) -> Failure
    ensures fault { result.fault ≡ ends.File }
    ensures told { IfSome result.trouble (IsTold path.now (λ at. at ≡ whereabouts.Open) (λ _. ⊤)) }
{
    Failure::at(alloc, Fault::File, path, Whereabouts::Open, &MISSING)
}

/// Prints how many records the journal of that header on the disk has, behind what the settings
/// say; or both as one object of JSON.
fn print_records<D: Disk>(
    rt: &HostRuntime,
    settings: &Settings,
    header: &Header,
    disk: &mut D,
    json: bool,
) -> Result<u8, DumpFault>
    ensures untouched { IsUntouched D.Disk disk.old disk.new }
{
    let mut output = io::writer(rt);
    if json {
        print_check(rt.alloc(), settings, header, disk, &mut output)
    } else {
        check_journal(rt.alloc(), header, disk, &mut output)
    }
}

/// Prints the journal in the file, or only how many records it has; as lines, or as objects of
/// JSON.
pub fn dump_file<P: Premise>(
    rt: &HostRuntime,
    path: &str,
    count: bool,
    json: bool,
) -> Result<u8, Failure>
    ensures named { IfErr result (IsNamed path.now) }
{
    let (mut disk, source) = open_disk::<P>(rt, path, Purpose::Look)?;
    match dump_disk(rt, &mut disk, count, json) {
        Ok(status) => Ok(status),
        Err(fault) => Err(dump_failure(rt, &source, fault, None)),
    }
}

/// Prints the journal on the disk, or only how many records it has; as lines, or as objects of
/// JSON. However it ends, no byte of the disk's file is changed.
fn dump_disk<D: Disk>(
    rt: &HostRuntime,
    disk: &mut D,
    count: bool,
    json: bool,
) -> Result<u8, DumpFault>
    ensures untouched { IsUntouched D.Disk disk.old disk.new }
{
    let mut output = BufWriter::new(rt.alloc(), io::writer(rt))?;
    match (count, json) {
        (false, false) => dump_lines(rt.alloc(), disk, &mut output),
        (true, false) => dump_count(rt.alloc(), disk, &mut output),
        (false, true) => dump_objects(rt.alloc(), disk, &mut output),
        (true, true) => dump_count_object(rt.alloc(), disk, &mut output),
    }
}

/// The failure of a journal that was to be printed, counted or checked; the one of this header, if
/// one was asked for. A write that failed is not the journal's.
fn dump_failure(
    rt: &HostRuntime,
    source: &Source<'_>,
    fault: DumpFault,
    asked: Option<&Header>,
) -> Failure
    ensures fault { result.fault ≡ ends.Dump fault }
    ensures named { IsNamed source.now.path.now result }
{
    match fault {
        DumpFault::Journal(found) => {
            failure_for(
                rt,
                source,
                Fault::Dump(DumpFault::Journal(found)),
                found,
                asked,
            )
        }
        other => Failure::from(Fault::Dump(other)),
    }
}

/// The words on a new file that was made in vain and couldn't be removed.
const LEFT: &str = "is no journal: remove it";

/// Brings the journal of version 1 in the file at `old` over into the one at `new`, which is made,
/// or is there and empty, and prints how many records it has. The old file is never written. After
/// a fault of the migration a new file that was made for it is gone, and one that was there is
/// left; after one of the printing it is whole. The status is 0.
///
/// [`Fault::SameFile`]: the two paths name one file.
pub fn migrate_file<P: Premise, Q: Premise>(
    rt: &HostRuntime,
    old: &str,
    new: &str,
) -> Result<u8, Failure> {
    keep_two_apart(rt, new, old)?;
    refuse_unsynced(rt, new)?;
    let (mut from, old_source) = open_good_disk::<P>(rt, old, Purpose::Look)?;
    let made = !leads_somewhere(rt, new)?;
    let (to, new_source) = open_disk::<Q>(rt, new, Purpose::Make)?;
    match migrate_disks(rt.alloc(), &mut from, to, &mut io::writer(rt)) {
        Ok(_disk) => Ok(0),
        Err((MigrationFault::Stream, _)) => {
            Err(Failure::from(Fault::Migrate(MigrationFault::Stream)))
        }
        Err((fault, _)) => {
            let failure = migration_failure(rt, &old_source, &new_source, fault);
            Err(unmade(rt, new, made, failure))
        }
    }
}

/// The failure of a journal that wasn't brought over from the old file to the new one.
fn migration_failure(
    rt: &HostRuntime,
    old: &Source<'_>,
    new: &Source<'_>,
    fault: MigrationFault,
) -> Failure {
    let alloc = rt.alloc();
    let MigrationFault::Migrate(why) = fault else {
        return Failure::from(Fault::Migrate(fault));
    };
    let fault = Fault::Migrate(fault);
    match why {
        MigrateFault::NotEmpty => failure_for(rt, new, fault, JournalFault::NotEmpty, None),
        MigrateFault::NotOld => not_old(rt, fault, old.path),
        MigrateFault::OldDevice => failure_for(rt, old, fault, JournalFault::Device, None),
        MigrateFault::NewDevice => failure_for(rt, new, fault, JournalFault::Device, None),
        MigrateFault::OtherHeader | MigrateFault::BadRecord | MigrateFault::CutShort => {
            damaged_old(rt, old.path, fault, why)
        }
        MigrateFault::Full => Failure::about(alloc, fault, new.path),
        MigrateFault::Memory => Failure::from(Fault::Memory),
    }
}

/// The failure of a file that should have been a journal of version 1, and is none.
fn not_old(rt: &HostRuntime, fault: Fault, path: &str) -> Failure
    ensures named { IsNamed path.now result }
{
    match read_unlocked(rt, path, 25) {
        Ok(front) => not_old_failure(rt.alloc(), path, fault, &front),
        Err(_) => Failure::about(rt.alloc(), fault, path),
    }
}

/// Tells of a journal of version 1 in which that was found, by its bytes, which are read anew if
/// they aren't too many.
fn damaged_old(rt: &HostRuntime, path: &str, fault: Fault, found: MigrateFault) -> Failure
    ensures fault { result.fault ≡ fault }
    ensures named { IsNamed path.now result }
{
    match read_needed(rt, path, JournalFault::BadRecord) {
        Ok(Some((bytes, _))) => old_failure(rt.alloc(), path, fault, found, &bytes),
        _ => Failure::about(rt.alloc(), fault, path),
    }
}

/// The bytes of the file from which the second line of that fault is told, and how many it has;
/// none where it is no regular file, or too long.
fn read_needed(
    rt: &HostRuntime,
    path: &str,
    found: JournalFault,
) -> io::Result<Option<(Vec<u8>, u64)>> {
    let known = fs::metadata(rt, path)?;
    match needed(found, known.len()) {
        Some(most) if known.is_file() => Ok(Some((read_unlocked(rt, path, most)?, known.len()))),
        _ => Ok(None),
    }
}

/// Returns how many bytes of a journal's file of that length the second line of that fault is told
/// from: where the header is wrong, it and one more; of a file that is too long to go through,
/// these too where they tell whose it is. None where the fault isn't the file's, or a file that is
/// too long goes wrong somewhere.
fn needed(found: JournalFault, length: u64) -> Option<u64> {
    match found {
        JournalFault::BadHeader | JournalFault::OtherHeader | JournalFault::OldVersion => Some(25),
        JournalFault::NotEmpty if length > MOST => Some(25),
        JournalFault::BadRecord | JournalFault::CutShort if length > MOST => None,
        JournalFault::NotEmpty | JournalFault::BadRecord | JournalFault::CutShort => Some(length),
        JournalFault::Device | JournalFault::Memory | JournalFault::Stopped | JournalFault::Full =>
            None,
    }
}

/// The bytes of the file to its end, or so many of them, which is opened for reading and writing as
/// `run` does it. No lock is taken, and nothing written. The file may grow meanwhile: a batch is
/// written before its gate is opened, so who has read an open gate finds the batch behind it.
fn read_unlocked(rt: &HostRuntime, path: &str, most: u64) -> io::Result<Vec<u8>> {
    let mut options = OpenOptions::new();
    let file = options.read(true).write(true).open(rt, path)?;
    let mut bytes = Vec::new(rt.alloc());
    file.take(most).read_to_end(&mut bytes)?;
    Ok(bytes)
}

/// The failure of a journal that wasn't brought over, once the file at `new` is gone, if it was
/// made for it. Where it can't be removed that is told in place of the cause.
fn unmade(rt: &HostRuntime, new: &str, made: bool, failure: Failure) -> Failure {
    if !made || is_removed(rt, new) {
        return failure;
    }
    Failure::at(rt.alloc(), failure.fault, new, Whereabouts::Whole, &LEFT)
}

/// Removes the file at a path; where that is a link the file that it leads to, and the link stays.
fn is_removed(rt: &HostRuntime, path: &str) -> bool {
    match fs::canonicalize(rt, path) {
        Ok(file) => fs::remove_file(rt, file.as_str()).is_ok(),
        Err(_) => false,
    }
}

/// Runs the script in the file, or the one on the standard input where its path is `-`, and writes
/// those pages of it that have a path, the chart with the events that are chosen. Only then the
/// verdicts are printed; they go to the standard error where a page takes the standard output.
pub fn simulate_file(
    rt: &HostRuntime,
    path: &str,
    paths: &PagePaths<'_>,
    choice: Choice,
) -> Result<u8, Failure> {
    let name = name_of(path);
    let path = script_path(path);
    check_rows(rt.alloc(), paths.chart, choice)?;
    keep_apart(rt, path, paths)?;
    let text = read_file(rt, path, Text::Script)?;
    let mut files = PageFiles {
        rt,
        paths: *paths,
        choice,
        name,
    };
    let mut output = io::writer(rt);
    let mut errors = rt.stderr();
    let script = ScriptPages {
        text: &text,
        paths: *paths,
    };
    match show_simulation(rt.alloc(), &script, &mut files, &mut output, &mut errors) {
        Ok(status) => Ok(status),
        Err(SimulationEnd::Script(fault)) => Err(script_failure(rt.alloc(), path, &text, fault)),
        Err(SimulationEnd::Page(failure)) => Err(failure),
        Err(SimulationEnd::Printing(fault)) => Err(Failure::from(Fault::from(fault))),
    }
}

/// The path of a script: that of the standard input where it is `-`.
fn script_path(path: &str) -> &str
    ensures input { path.now ≡ codes "-" → result.now ≡ codes "/dev/stdin" }
    ensures file { path.now ≢ codes "-" → result.now ≡ path.now }
{
    if path == "-" { "/dev/stdin" } else { path }
}

/// The places for the pages of a simulation: the files at these paths, or the standard output where
/// a path is `-`.
#[derive(Drop)]
struct PageFiles<'a> {
    rt: &'a HostRuntime,
    paths: PagePaths<'a>,
    choice: Choice,
    /// The name of the run.
    name: &'a str,
}

impl<'a> Shelf for PageFiles<'a> {
    type Fault = Failure;

    fn put(&mut self, _alloc: Global, simulation: &Simulation) -> Result<(), Failure> {
        check_size(self.rt.alloc(), simulation.script.size, self.choice)?;
        let trace = fault_at(self.paths.trace, Fault::Trace);
        let _no_rows = write_page(self.rt, simulation, Page::Trace, self.paths.trace, trace)?;
        let chart = fault_at(self.paths.chart, Fault::Chart);
        let page = Page::Chart(self.choice);
        let rows = write_page(self.rt, simulation, page, self.paths.chart, chart)?;
        warn_of_length(self.rt, rows, self.paths.chart);
        let play = fault_at(self.paths.play, Fault::Page);
        let page = Page::Play(self.name);
        let _no_rows = write_page(self.rt, simulation, page, self.paths.play, play)?;
        Ok(())
    }
}
