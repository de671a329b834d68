//! The number of the newest journal that a chain's folder has had.
//!
//! A journal of a chain is made as its epoch begins. So one that was lost would be made anew, and
//! its member could say other things than before. The folder's file `newest` keeps the number of
//! the newest one, from before its member says anything on it.

ghost use Rattle.std.specs.Prelude.{◌≡◌, ◌++◌, IfErr, IfOk, codes, string_bytes};
ghost use Rattle.troubles.specs.Faults.{IsMeant};
ghost use Rattle.troubles.specs.declared.fault.Fault.TheVariants as ends;

use crate::epoch_files::epoch_named;
use crate::files::keep_to_files;
use crate::presence::is_there;
use std::alloc::{AllocError, Global};
use std::fs::{self, File};
use std::io::{self, Write};
use troubles::{Failure, Fault, Whereabouts};

/// The words on a file without a number.
const NO_NUMBER: &str =
    "no number of an epoch: write that of the newest journal which this member has had";

/// Notes that this epoch's journal is the newest that the folder has had. Nothing is written if
/// that is noted.
///
/// [`Fault::File`]: it can't be noted.
pub fn note_newest(host: &HostRuntime, folder: &str, epoch: u64) -> Result<(), Failure>
    ensures { IfErr result (λ failure. IsMeant ends.File failure.fault) }
{
    if newest_noted(host, folder)? == Some(epoch) {
        return Ok(());
    }
    let path = newest_path(host.alloc(), folder).map_err(|_| Fault::Memory)?;
    let path = path.as_str();
    match write_number(host, folder, path, epoch) {
        Ok(()) => Ok(()),
        Err(error) => Err(Failure::of_system(
            host.alloc(),
            Fault::File,
            path,
            Whereabouts::Write,
            error,
        )),
    }
}

/// Writes the number beside its place, and puts it there once the disk has it and the journal's
/// name.
fn write_number(host: &HostRuntime, folder: &str, path: &str, epoch: u64) -> io::Result<()> {
    let names = File::open(host, folder)?;
    names.sync_all()?;
    let new = format!(in host.alloc(); "{path}.new")?;
    let text = format!(in host.alloc(); "{epoch}\n")?;
    let mut file = File::create(host, new.as_str())?;
    file.write_all(text.as_bytes())?;
    file.sync_all()?;
    fs::rename(host, new.as_str(), path)?;
    names.sync_all()
}

/// Returns the epoch of the newest journal that the folder has had, if that is noted.
///
/// [`Fault::File`]: what is noted can't be read.
pub(crate) fn newest_noted(host: &HostRuntime, folder: &str) -> Result<Option<u64>, Failure>
    ensures { IfErr result (λ failure. IsMeant ends.File failure.fault) }
{
    let path = newest_path(host.alloc(), folder).map_err(|_| Fault::Memory)?;
    let path = path.as_str();
    if !is_there(host, path)? {
        return Ok(None);
    }
    keep_to_files(host, path)?;
    let text = match fs::read(host, path) {
        Ok(text) => text,
        Err(error) => {
            let place = Whereabouts::Open;
            return Err(Failure::of_system(host.alloc(), Fault::File, path, place, error));
        }
    };
    match number_in(&text) {
        Some(epoch) => Ok(Some(epoch)),
        None => Err(Failure::at(
            host.alloc(),
            Fault::File,
            path,
            Whereabouts::Whole,
            &NO_NUMBER,
        )),
    }
}

/// Returns `true` if anything is noted of a folder.
///
/// [`Fault::File`]: the system doesn't say.
pub(crate) fn is_noted(host: &HostRuntime, folder: &str) -> Result<bool, Failure>
    ensures { IfErr result (λ failure. IsMeant ends.File failure.fault) }
{
    let path = newest_path(host.alloc(), folder).map_err(|_| Fault::Memory)?;
    is_there(host, path.as_str())
}

/// The path of the file of a folder that has the number.
fn newest_path(alloc: Global, folder: &str) -> Result<String, AllocError>
    ensures { IfOk result (λ path. string_bytes path ≡ folder.now ++ codes "/newest") }
{
    format!(in alloc; "{folder}/newest")
}

/// Returns the number of this text, which is a line.
fn number_in(text: &[u8]) -> Option<u64> {
    epoch_named(str::from_utf8(text).ok()?, "\n")
}
