//! A journal that was put aside, since its member was forgotten.
//!
//! A member of which the others have heard more than its journal holds may never run again. Its
//! journal is renamed, which needs no room on the disk, and while the renamed file is there neither
//! `run` nor `init` gives the member another life.

ghost use Rattle.std.specs.Prelude.{ℕ, ◌≡◌, ◌⊎◌, ◌≤◌, ◌++◌, codes, string_bytes, IfErr, IfOk};
ghost use Rattle.std.specs.Fmt.{decimal};
ghost use Rattle.machine.specs.declared.fault.RunFault.TheVariants.{Forgotten};
ghost use Rattle.troubles.specs.Faults.{IsMeant};
ghost use Rattle.troubles.specs.declared.fault.Fault.TheVariants as ends;

use crate::presence::is_there;
use machine::RunFault;
use std::alloc::{AllocError, Global};
use std::{fs, io};
use troubles::{Failure, Fault, Trouble, Whereabouts, trouble_of};

/// Refuses the place of a journal beside which one stands that was put aside: its member may never
/// run again.
///
/// [`Fault::Run`] with [`RunFault::Forgotten`]: one stands there; [`Fault::File`]: the system
/// doesn't say whether one does.
pub fn refuse_forgotten(host: &HostRuntime, journal: &str, member: u8) -> Result<(), Failure>
    ensures { IfErr result
        (λ failure. IsMeant (ends.Run Forgotten) failure.fault
        ⊎ IsMeant ends.File failure.fault) }
{
    let path = first_path(host.alloc(), journal).map_err(|_| Fault::Memory)?;
    if !is_there(host, path.as_str())? {
        return Ok(());
    }
    Err(Failure {
        fault: Fault::Run(RunFault::Forgotten),
        trouble: told(host.alloc(), path.as_str(), member),
    })
}

/// The last number of a journal that is put aside beside others.
const LAST: u32 = 99;

/// Puts the journal of a member that was forgotten aside, and gives what is told of it.
pub fn put_aside(host: &HostRuntime, journal: &str, member: u8) -> Option<Trouble> {
    match renamed(host, journal) {
        Ok(path) => told(host.alloc(), path.as_str(), member),
        Err(error) => unmoved(host.alloc(), journal, &error),
    }
}

/// Renames the journal, and gives its new name.
fn renamed(host: &HostRuntime, journal: &str) -> io::Result<String> {
    let path = free_path(host, journal)?;
    fs::rename(host, journal, path.as_str())?;
    Ok(path)
}

/// A name for a journal that is put aside, which nothing has.
fn free_path(host: &HostRuntime, journal: &str) -> io::Result<String> {
    let first = first_path(host.alloc(), journal)?;
    if is_free(host, first.as_str()) {
        return Ok(first);
    }
    for number in 2..LAST {
        let other = other_path(host.alloc(), journal, number)?;
        if is_free(host, other.as_str()) {
            return Ok(other);
        }
    }
    Err(io::Error::from(io::ErrorKind::AlreadyExists))
}

/// The path of the first journal that was put aside.
fn first_path(alloc: Global, journal: &str) -> Result<String, AllocError>
    ensures { IfOk result (λ path. string_bytes path ≡ journal.now ++ codes ".forgotten") }
{
    format!(in alloc; "{journal}.forgotten")
}

/// Returns `true` if nothing has this name.
fn is_free(host: &HostRuntime, path: &str) -> bool {
    match fs::symlink_metadata(host, path) {
        Ok(_) => false,
        Err(error) => error.kind() == io::ErrorKind::NotFound,
    }
}

/// The path of a journal that was put aside beside others, of which it is the one of that number,
/// counted from 1.
fn other_path(alloc: Global, journal: &str, number: u32) -> Result<String, AllocError>
    ensures { IfOk result
        (λ path. string_bytes path ≡ journal.now ++ (codes ".forgotten-" ++ decimal number)) }
{
    format!(in alloc; "{journal}.forgotten-{number}")
}

/// Returns what is told of this file, which was put aside.
fn told(alloc: Global, path: &str, member: u8) -> Option<Trouble> {
    match cause(alloc, member) {
        Ok(words) => trouble_of(alloc, path, Whereabouts::Whole, &words),
        Err(_) => None,
    }
}

/// Returns what is told of a journal that was put aside, whose member this is.
fn cause(alloc: Global, member: u8) -> Result<String, AllocError>
    ensures { IfOk result (λ text. string_bytes text ≡ codes "member " ++ (decimal member ++ codes " has said more than this journal holds, which was put aside: it may never run again; leave it down, and take the file away only to give its place to a member of another cluster")) }
{
    format!(in alloc;
        "member {member} has said more than this journal holds, which was put aside: it may never run again; leave it down, and take the file away only to give its place to a member of another cluster"
    )
}

/// Returns what is told where a journal can't be put aside.
fn unmoved(alloc: Global, journal: &str, error: &io::Error) -> Option<Trouble> {
    let words = format!(in alloc;
        "it couldn't be put aside ({error}): rename it by hand, and never run this member again"
    );
    match words {
        Ok(words) => trouble_of(alloc, journal, Whereabouts::Whole, &words),
        Err(_) => None,
    }
}
