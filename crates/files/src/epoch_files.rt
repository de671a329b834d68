//! The journals of a chain's epochs, in a folder.

ghost use Rattle.commands.specs.declared.fault.InitFault.TheVariants.{NotEmpty};
ghost use Rattle.machine.specs.declared.fault.RunFault.TheVariants.{Forgotten};
ghost use Rattle.std.specs.Fmt.{decimal};
ghost use Rattle.std.specs.Prelude.{ℕ, ◌≡◌, ◌↔◌, ◌⊎◌, ◌+◌, ◌<◌, ◌^◌, ◌≤◌, ◌++◌, Some, IfErr, IfOk, IfSome, codes, string_bytes};
ghost use Rattle.terms_prelude.specs.Terms.{new_header};
ghost use Rattle.troubles.specs.Faults.{IsMeant};
ghost use Rattle.troubles.specs.declared.fault.Fault.TheVariants as ends;

use crate::files::{Purpose, Source, failure_for, keep_to_files, open_good_disk};
use crate::forgotten::refuse_forgotten;
use crate::newest::{is_noted, newest_noted};
use crate::presence::is_there;
use crate::unsynced::refuse_unsynced;
use chain::Chain;
use commands::InitFault;
use disk::Premise;
use epochs::Verdicts;
use journal::{JournalFault, create, read_file};
use numerals::number;
use settings::Settings;
use std::alloc::{AllocError, Global};
use std::fs::{self, File};
use std::io;
use terms::{Header, Memory};
use troubles::{Failure, Fault, Whereabouts};

/// Returns the path of the journal that `init` makes of these settings: that of the first epoch, if
/// the member is one of a chain.
pub(crate) fn first_journal(alloc: Global, settings: &Settings) -> Result<String, AllocError> {
    match &settings.epochs {
        Some(folder) => epoch_path(alloc, folder.as_str(), 0),
        None => settings.journal.clone(),
    }
}

/// Returns the path of an epoch's journal.
pub fn epoch_path(alloc: Global, folder: &str, epoch: u64) -> Result<String, AllocError>
    ensures { IfOk result
        (λ path. string_bytes path ≡ folder.now
        ++ (codes "/" ++ (decimal epoch ++ codes ".journal"))) }
{
    format!(in alloc; "{folder}/{epoch}.journal")
}

/// The first and the last epoch whose journals are in a folder.
#[derive(Clone, Copy, Debug, PartialEq, Eq)]
pub struct Span {
    /// The number of the first.
    pub first: u64,
    /// The number of the last.
    pub last: u64,
}

/// The words on a chain of which no journal is there.
const MISSING: &str =
    "no journal is in this folder: `bracha init` makes the first for a new member, and for no other";

/// Returns the epochs whose journals are in the folder: those before the first were put away.
///
/// [`Fault::File`]: the folder can't be read, or has none, or lacks the newest that it has had.
pub fn epochs_in(host: &HostRuntime, folder: &str) -> Result<Span, Failure>
    ensures { IfErr result (λ failure. IsMeant ends.File failure.fault) }
{
    let found = span_of(host, folder, ".journal")?;
    if let Some(epoch) = lost_of(found, newest_noted(host, folder)?) {
        let path = epoch_path(host.alloc(), folder, epoch).map_err(|_| Fault::Memory)?;
        return Err(lost(host, path.as_str()));
    }
    match found {
        Some(span) => Ok(span),
        None => Err(nothing_in(host, folder)),
    }
}

/// Returns the epoch whose journal is lost, if one is: the newest of which the folder has had a
/// journal, as is noted, where it has those of earlier epochs alone.
fn lost_of(found: Option<Span>, newest: Option<u64>) -> Option<u64>
    ensures some { IfSome result (λ epoch. newest ≡ Some epoch) }
    ensures lost { (epoch : ℕ) → newest ≡ Some epoch →
        result ≡ Some epoch ↔ IfSome found (λ span. span.last < epoch) }
{
    let newest = newest?;
    match found {
        Some(span) if span.last >= newest => None,
        _ => Some(newest),
    }
}

/// Takes the lock of a chain's folder, which one process has at a time, until what this returns is
/// dropped.
///
/// [`Fault::File`]: another process has it, or the folder can't be opened.
pub fn lock_folder(host: &HostRuntime, folder: &str) -> Result<File, Failure>
    ensures { IfErr result (λ failure. IsMeant ends.File failure.fault) }
{
    match locked(host, folder) {
        Ok(held) => Ok(held),
        Err(error) if error.kind() == io::ErrorKind::WouldBlock => {
            let words = "another process has it";
            Err(Failure::at(host.alloc(), Fault::File, folder, Whereabouts::Open, &words))
        }
        Err(error) if error.kind() == io::ErrorKind::NotFound => Err(nothing_in(host, folder)),
        Err(error) => Err(failed(host, folder, &error)),
    }
}

/// Opens the folder, and takes its lock.
fn locked(host: &HostRuntime, folder: &str) -> io::Result<File> {
    let held = File::open(host, folder)?;
    held.try_lock()?;
    Ok(held)
}

/// Returns the failure of a folder without a journal.
fn nothing_in(host: &HostRuntime, folder: &str) -> Failure
    ensures { result.fault ≡ ends.File }
{
    Failure::at(
        host.alloc(),
        Fault::File,
        folder,
        Whereabouts::Open,
        &MISSING,
    )
}

/// Refuses the folder of a chain in which a journal stands that was put aside: its member may never
/// run again.
///
/// [`Fault::Run`] with [`machine::RunFault::Forgotten`]: one stands there; [`Fault::File`]: the
/// folder can't be looked into.
pub fn refuse_forgotten_in(host: &HostRuntime, folder: &str, member: u8) -> Result<(), Failure>
    ensures { IfErr result
        (λ failure. IsMeant (ends.Run Forgotten) failure.fault
        ⊎ IsMeant ends.File failure.fault) }
{
    let Some(span) = span_of(host, folder, ".journal.forgotten")? else {
        return Ok(());
    };
    let path = epoch_path(host.alloc(), folder, span.first).map_err(|_| Fault::Memory)?;
    refuse_forgotten(host, path.as_str(), member)
}

/// Refuses to begin a chain in a folder on whose journals its member has run.
///
/// [`Fault::Init`] with [`InitFault::NotEmpty`]: it has journals of later epochs, or had some;
/// [`Fault::File`]: it can't be looked into.
pub(crate) fn refuse_begun(host: &HostRuntime, folder: &str) -> Result<(), Failure>
    ensures { IfErr result
        (λ failure. IsMeant (ends.Init NotEmpty) failure.fault
        ⊎ IsMeant ends.File failure.fault) }
{
    let Some(words) = traces_in(host, folder)? else {
        return Ok(());
    };
    let fault = Fault::Init(InitFault::NotEmpty);
    Err(Failure::at(host.alloc(), fault, folder, Whereabouts::Whole, &words))
}

/// The words on a folder whose journals are gone.
const GONE: &str = "the member has run on journals of this folder, which are gone: put them back";

/// Returns what tells that a member has run on the journals of a folder, if anything does.
///
/// [`Fault::File`]: it can't be looked into.
fn traces_in(host: &HostRuntime, folder: &str) -> Result<Option<String>, Failure>
    ensures { IfErr result (λ failure. IsMeant ends.File failure.fault) }
{
    match span_of(host, folder, ".journal")? {
        Some(Span { last, .. }) if last > 0 => later_words(host.alloc(), last),
        None if is_noted(host, folder)? => gone_words(host.alloc()),
        _ => Ok(None),
    }
}

/// Returns the words on a folder that has the journals of epochs up to this one.
fn later_words(alloc: Global, last: u64) -> Result<Option<String>, Failure>
    ensures { IfErr result (λ failure. IsMeant ends.File failure.fault) }
{
    let words = format!(in alloc;
        "journals up to that of epoch {last} are here: the member has run on them"
    );
    Ok(Some(words.map_err(|_| Fault::Memory)?))
}

/// Returns the words on a folder whose journals are gone.
fn gone_words(alloc: Global) -> Result<Option<String>, Failure>
    ensures { IfErr result (λ failure. IsMeant ends.File failure.fault) }
{
    Ok(Some(String::from_str(alloc, GONE).map_err(|_| Fault::Memory)?))
}

/// Returns the epochs of which the folder has a file with this ending; none if there is no folder.
///
/// [`Fault::File`]: it can't be looked into.
fn span_of(host: &HostRuntime, folder: &str, ending: &str) -> Result<Option<Span>, Failure>
    ensures { IfErr result (λ failure. IsMeant ends.File failure.fault) }
{
    match span_in(host, folder, ending) {
        Ok(span) => Ok(span),
        Err(error) if error.kind() == io::ErrorKind::NotFound => Ok(None),
        Err(error) => Err(failed(host, folder, &error)),
    }
}

/// Returns the epochs of which the folder has a file with this ending.
fn span_in(host: &HostRuntime, folder: &str, ending: &str) -> io::Result<Option<Span>> {
    let mut span = None;
    for entry in fs::read_dir(host, folder)? {
        let entry = entry?;
        if let Some(epoch) = epoch_named(entry.file_name(), ending) {
            span = Some(with_epoch(span, epoch));
        }
    }
    Ok(span)
}

/// Returns the epoch whose file with this ending has this name, if one's has.
pub(crate) fn epoch_named(name: &str, ending: &str) -> Option<u64> {
    number(name.strip_suffix(ending)?.as_bytes())
}

/// Returns the span with one epoch more.
fn with_epoch(span: Option<Span>, epoch: u64) -> Span {
    match span {
        Some(Span { first, last }) => Span {
            first: first.min(epoch),
            last: last.max(epoch),
        },
        None => Span {
            first: epoch,
            last: epoch,
        },
    }
}

/// The header of the journal of an epoch of these settings' chain, whose folder this is.
///
/// [`Fault::File`]: the epoch's cluster number would be above 2^64 - 1.
pub fn epoch_header(
    host: &HostRuntime,
    settings: &Settings,
    folder: &str,
    epoch: u64,
) -> Result<Header, Failure>
    ensures header { IfOk result
        (λ header. header ≡ new_header (settings.now.header.cluster + epoch)
        settings.now.header.size settings.now.header.me) }
    ensures fault { IfErr result (λ failure. IsMeant ends.File failure.fault) }
    ensures last { IfErr result
        (λ failure. failure.fault ≡ ends.File → 2 ^ 64 ≤ settings.now.header.cluster + epoch) }
{
    let own = settings.header;
    let chain = Chain::new(own.cluster(), own.size());
    let Some(cluster) = chain.cluster_of(epoch) else {
        let words = "the chain has come to its last cluster number";
        return Err(Failure::at(
            host.alloc(),
            Fault::File,
            folder,
            Whereabouts::Whole,
            &words,
        ));
    };
    match Header::new(cluster, own.size(), own.me()) {
        Some(header) => Ok(header),
        None => Err(Failure::from(Fault::Memory)),
    }
}

/// A journal that is checked: its path, and the header that it has to have.
#[derive(Drop)]
pub(crate) struct Checked {
    pub(crate) path: String,
    pub(crate) header: Header,
}

/// Returns the journal of these settings that is checked: in a chain that of the newest epoch, once
/// all others in the folder were looked into, as `run` does it.
///
/// [`Fault::Run`] with [`machine::RunFault::Forgotten`], [`Fault::File`], [`Fault::Journal`]: `run`
/// would end so.
pub(crate) fn checked_journal(host: &HostRuntime, settings: &Settings) -> Result<Checked, Failure> {
    match &settings.epochs {
        Some(folder) => newest_journal(host, settings, folder.as_str()),
        None => Ok(Checked {
            path: settings.journal.clone().map_err(|_| Fault::Memory)?,
            header: settings.header,
        }),
    }
}

/// Returns the journal of the newest epoch in the folder of a chain, once the others were looked
/// into.
fn newest_journal(
    host: &HostRuntime,
    settings: &Settings,
    folder: &str,
) -> Result<Checked, Failure> {
    refuse_forgotten_in(host, folder, settings.header.me())?;
    let Span { first, last } = epochs_in(host, folder)?;
    for epoch in first..last {
        let older = journal_of(host, settings, folder, epoch)?;
        look_into(host, older.path.as_str(), &older.header)?;
    }
    journal_of(host, settings, folder, last)
}

/// Returns the journal of an epoch.
fn journal_of(
    host: &HostRuntime,
    settings: &Settings,
    folder: &str,
    epoch: u64,
) -> Result<Checked, Failure> {
    Ok(Checked {
        path: epoch_path(host.alloc(), folder, epoch).map_err(|_| Fault::Memory)?,
        header: epoch_header(host, settings, folder, epoch)?,
    })
}

/// Makes an epoch's journal, if there is none. It is made beside its place and then renamed, so
/// that what is at its place was made whole.
///
/// [`Fault::File`], [`Fault::Journal`]: it can't be made, or the system doesn't say whether there
/// is one.
pub fn make_journal<P: Premise>(
    host: &HostRuntime,
    path: &str,
    header: &Header,
) -> Result<(), Failure> {
    if is_there(host, path)? {
        return Ok(());
    }
    let new = format!(in host.alloc(); "{path}.new").map_err(|_| Fault::Memory)?;
    if is_there(host, new.as_str())? {
        // A run ended while it made it.
        if let Err(error) = fs::remove_file(host, new.as_str()) {
            return Err(failed(host, new.as_str(), &error));
        }
    }
    create_at::<P>(host, new.as_str(), header)?;
    match fs::rename(host, new.as_str(), path) {
        Ok(()) => Ok(()),
        Err(error) => Err(failed(host, path, &error)),
    }
}

/// Makes a journal in a file that isn't there.
fn create_at<P: Premise>(host: &HostRuntime, path: &str, header: &Header) -> Result<(), Failure> {
    let (mut disk, source) = open_good_disk::<P>(host, path, Purpose::Make)?;
    match create(&mut disk, header) {
        Ok(()) => Ok(()),
        Err(fault) => Err(failure_for(host, &source, Fault::Journal(fault), fault, None)),
    }
}

/// Returns `true` if nothing has this path, and `false` too if the system doesn't say.
pub fn is_missing(host: &HostRuntime, path: &str) -> bool {
    match fs::symlink_metadata(host, path) {
        Ok(_) => false,
        Err(error) => error.kind() == io::ErrorKind::NotFound,
    }
}

/// The words on a journal that is missing while those around it are there.
const LOST: &str = "no such file: put this journal back, since its member may have spoken on it";

/// Returns what an epoch's journal says.
///
/// [`Fault::File`], [`Fault::Journal`]: it isn't there, can't be read, or a sync of it failed since
/// the machine was started.
pub fn look_into(host: &HostRuntime, path: &str, header: &Header) -> Result<Verdicts, Failure> {
    refuse_unsynced(host, path)?;
    keep_to_files(host, path)?;
    let bytes = match fs::read(host, path) {
        Ok(bytes) => bytes,
        Err(error) if error.kind() == io::ErrorKind::NotFound => return Err(lost(host, path)),
        Err(error) => return Err(failed(host, path, &error)),
    };
    match read_file(host.alloc(), header, &bytes) {
        Ok((_, records)) => match Verdicts::of_records(host.alloc(), header, &records) {
            Ok(verdicts) => Ok(verdicts),
            Err(Memory) => Err(Failure::from(Fault::Memory)),
        },
        Err(JournalFault::Memory) => Err(Failure::from(Fault::Memory)),
        Err(found) => {
            let source = Source {
                path,
                first_error: None,
            };
            let fault = Fault::Journal(found);
            Err(failure_for(host, &source, fault, found, Some(header)))
        }
    }
}

/// Returns the failure of a journal that is missing while those around it are there.
fn lost(host: &HostRuntime, path: &str) -> Failure
    ensures { result.fault ≡ ends.File }
{
    Failure::at(host.alloc(), Fault::File, path, Whereabouts::Open, &LOST)
}

/// Returns the failure of a file.
fn failed(host: &HostRuntime, path: &str, error: &io::Error) -> Failure
    ensures { result.fault ≡ ends.File }
{
    Failure::at(host.alloc(), Fault::File, path, Whereabouts::Open, error)
}
