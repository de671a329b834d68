//! The addresses at which a member listens: that one host can listen at all of its own, and that
//! they are this host's.

ghost use Rattle.std.specs.Fmt.{decimal};
ghost use Rattle.std.specs.Prelude.{◌≡◌, ◌++◌, IfOk, IfSome, None, codes, string_bytes};
ghost use Rattle.files.specs.Doors.{foreign_words};
ghost use Rattle.files.specs.declared.doors.Door.TheVariants as door;
ghost use Rattle.machine.specs.declared.fault.RunFault.TheVariants as ends_of_run;
ghost use Rattle.troubles.specs.declared.fault.Fault.TheVariants as ends;

use crate::apart::{member_at_desk, overlaps, own_links};
use machine::RunFault;
use settings::{Address, Settings, address_text};
use std::alloc::{AllocError, Global};
use std::net::{IpAddr, SocketAddr, TcpListener};
use std::os::unix::fs::FileTypeExt;
use std::path::Path;
use std::{fs, io};
use troubles::{Failure, Fault, Whereabouts};

/// The key of the settings that names an address at which a member listens.
#[derive(Clone, Copy, Debug, PartialEq, Eq)]
pub enum Door {
    /// `desk`, for clients.
    Desk,
    /// `listen`, for the other members.
    Listen,
    /// This entry of `peers`, for the other members.
    Entry(u8),
}

/// Returns the key that names the address at which the member of these settings listens to the
/// others.
pub fn own_door(settings: &Settings) -> Door
    ensures listen { IfSome settings.now.listen (λ _. result ≡ door.Listen) }
    ensures entry { settings.now.listen ≡ None → result ≡ door.Entry settings.now.header.me }
{
    match settings.listen {
        Some(_) => Door::Listen,
        None => Door::Entry(settings.header.me()),
    }
}

/// Returns what is told of an address that isn't this host's: the key of the settings that names
/// it.
pub fn foreign_words(alloc: Global, door: Door) -> Result<String, AllocError>
    ensures { IfOk result (λ text. string_bytes text ≡ foreign_words door) }
{
    match door {
        Door::Desk => String::from_str(
            alloc,
            "no address of this host: `desk` is where clients are listened for",
        ),
        Door::Listen => String::from_str(
            alloc,
            "no address of this host: `listen` is where this member listens",
        ),
        Door::Entry(member) => format!(in alloc;
            "no address of this host: entry {member} of `peers` is where this member listens"
        ),
    }
}

/// Refuses settings by which this host can't listen at all addresses of its member: two of them are
/// one, two members have one, or one of them isn't this host's. An address at which somebody
/// listens already is taken.
///
/// [`Fault::Run`] with [`RunFault::Listen`]: it can't.
pub fn keep_to_own_doors(rt: &HostRuntime, settings: &Settings) -> Result<(), Failure> {
    keep_ports_apart(rt, settings)?;
    keep_members_apart(rt, settings)?;
    if let Some(own) = own_links(settings) {
        keep_to_host(rt, &own, own_door(settings))?;
    }
    keep_to_host(rt, &settings.desk, Door::Desk)?;
    match &settings.desk_socket {
        Some(path) => keep_to_socket(rt, path.as_str()),
        None => Ok(()),
    }
}

/// The most bytes of the path of a socket.
const LONGEST_PATH: usize = 107;

/// Refuses a path at which no socket can be made: it is too long or has a byte 00, its folder can't
/// be looked into or is none, or another file is there.
///
/// [`Fault::Run`] with [`RunFault::Listen`]: none can.
fn keep_to_socket(rt: &HostRuntime, path: &str) -> Result<(), Failure> {
    if path.len() > LONGEST_PATH {
        return Err(no_socket(rt, path, &"the path of a socket has at most 107 bytes"));
    }
    if path.as_bytes().contains(&0) {
        return Err(no_socket(rt, path, &"the path of a socket has no byte 00"));
    }
    match is_folder(rt, path) {
        Ok(true) => {}
        Ok(false) => return Err(no_socket(rt, path, &"its folder is a file")),
        Err(error) => return Err(no_socket(rt, path, &error)),
    }
    if is_other_file(rt, path) {
        return Err(no_socket(rt, path, &"a file is there that is no socket"));
    }
    Ok(())
}

/// The failure of a path at which no socket can be made.
fn no_socket<T: std::fmt::Display>(rt: &HostRuntime, path: &str, words: &T) -> Failure
    ensures { result.fault ≡ ends.Run ends_of_run.Listen }
{
    let fault = Fault::Run(RunFault::Listen);
    Failure::at(rt.alloc(), fault, path, Whereabouts::Listen, words)
}

/// Returns `true` if what the path is in is a folder; a bare name is in the working folder.
fn is_folder(rt: &HostRuntime, path: &str) -> io::Result<bool> {
    match Path::new(path).parent() {
        Some(folder) if !folder.as_os_str().is_empty() => {
            let known = fs::metadata(rt, folder)?;
            Ok(known.is_dir())
        }
        _ => Ok(true),
    }
}

/// Returns `true` if a file is at the path that is no socket.
fn is_other_file(rt: &HostRuntime, path: &str) -> bool {
    match fs::symlink_metadata(rt, path) {
        Ok(known) => !known.file_type().is_socket(),
        Err(_) => false,
    }
}

/// Refuses settings in which a member's desk is where its own links are, or another member's.
///
/// [`Fault::Run`] with [`RunFault::Listen`]: it is.
fn keep_ports_apart(rt: &HostRuntime, settings: &Settings) -> Result<(), Failure> {
    if let Some(own) = own_links(settings) {
        if overlaps(&settings.desk, &own) {
            let words = "the desk has the address of the links";
            return Err(listen_failure(rt, &own, words));
        }
    }
    let Some(member) = member_at_desk(settings) else {
        return Ok(());
    };
    let words = format!(in rt.alloc();
        "the desk has the address of member {member}'s links"
    ).map_err(|_| Fault::Memory)?;
    Err(listen_failure(rt, &settings.desk, words.as_str()))
}

/// Refuses settings in which two members have one address, since only one of them can listen there.
///
/// [`Fault::Run`] with [`RunFault::Listen`]: two have.
fn keep_members_apart(rt: &HostRuntime, settings: &Settings) -> Result<(), Failure> {
    let Some((one, other, address)) = twins_of(&settings.peers) else {
        return Ok(());
    };
    match clash_at(rt.alloc(), one, other, &address) {
        Ok(failure) => Err(failure),
        Err(_) => Err(Failure::from(Fault::Memory)),
    }
}

/// Two members that have one address, and the address: the second is the first member that has one
/// which another has before it.
fn twins_of(peers: &[Address]) -> Option<(usize, usize, Address)> {
    for (member, address) in peers.iter().enumerate() {
        if let Some(other) = peers[..member].iter().position(|it| *it == *address) {
            return Some((other, member, *address));
        }
    }
    None
}

/// The failure of two members that have this address.
fn clash_at(
    alloc: Global,
    one: usize,
    other: usize,
    address: &Address,
) -> Result<Failure, AllocError> {
    let at = address_text(alloc, address)?;
    let words = format!(in alloc; "members {one} and {other} have this address")?;
    let fault = Fault::Run(RunFault::Listen);
    Ok(Failure::at(alloc, fault, at.as_str(), Whereabouts::Listen, &words))
}

/// Refuses an address that isn't this host's, and that this key names.
///
/// [`Fault::Run`] with [`RunFault::Listen`]: it isn't.
fn keep_to_host(rt: &HostRuntime, address: &Address, door: Door) -> Result<(), Failure> {
    if is_of_host(rt, address) {
        return Ok(());
    }
    match foreign_words(rt.alloc(), door) {
        Ok(words) => Err(listen_failure(rt, address, words.as_str())),
        Err(_) => Err(Failure::from(Fault::Memory)),
    }
}

/// Returns `true` if the host of the address is this one: a socket is bound to it, at any port that
/// is free, and given back at once.
fn is_of_host(rt: &HostRuntime, address: &Address) -> bool {
    let at_any_port = SocketAddr::new(IpAddr::from(address.octets), 0);
    match TcpListener::bind(rt, at_any_port) {
        Ok(_listener) => true,
        Err(error) => error.kind() != io::ErrorKind::AddrNotAvailable,
    }
}

/// The failure of an address at which a member of these settings can't listen.
fn listen_failure(rt: &HostRuntime, address: &Address, words: &str) -> Failure {
    let fault = Fault::Run(RunFault::Listen);
    match address_text(rt.alloc(), address) {
        Ok(at) => Failure::at(rt.alloc(), fault, at.as_str(), Whereabouts::Listen, &words),
        Err(_) => Failure::from(Fault::Memory),
    }
}
