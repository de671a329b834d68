//! The socket of a member's desk in the file system: who may use it is said by the rights of a
//! file.

ghost use Rattle.troubles.specs.Faults.{IsMeant};
ghost use Rattle.troubles.specs.Troubles.{IsNamed};
ghost use Rattle.troubles.specs.declared.fault.Fault.TheVariants as ends;
ghost use Rattle.machine.specs.declared.fault.RunFault.TheVariants as ends_of_run;
ghost use Rattle.std.specs.Prelude.{◌≡◌, IfErr, IfOk};

use machine::RunFault;
use running::Addresses;
use settings::Settings;
use std::fs::{self, Permissions};
use std::io;
use std::os::unix::fs::{FileTypeExt, PermissionsExt};
use std::os::unix::net::{UnixListener, UnixStream};
use troubles::{Failure, Fault, Whereabouts};

/// These addresses, and what listens for clients of this machine where the settings name a path for
/// it.
///
/// The faults are those of `listen_locally`.
pub(crate) fn with_socket(
    rt: &HostRuntime,
    addresses: Addresses,
    settings: &Settings,
) -> Result<Addresses, Failure>
    ensures peers { IfOk result
        (λ it. (it.peers ≡ addresses.peers) × (it.listen ≡ addresses.listen)) }
    ensures hosts { IfOk result (λ it. it.hosts ≡ addresses.hosts) }
    ensures desk { IfOk result
        (λ it. (it.desk ≡ addresses.desk) × (it.clients ≡ addresses.clients)) }
    ensures followers { IfOk result (λ it. it.followers ≡ addresses.followers) }
    ensures patience { IfOk result (λ it. it.patience ≡ addresses.patience) }
    ensures fault { IfErr result (λ failure. failure.fault ≡ ends.Run ends_of_run.Listen) }
{
    match &settings.desk_socket {
        Some(path) => match listen_locally(rt, path.as_str()) {
            Ok(listener) => Ok(Addresses {
                local: Some(listener),
                ..addresses
            }),
            Err(failure) => Err(failure),
        },
        None => Ok(addresses),
    }
}

/// Listens for clients of this machine at that path, at a file that its owner alone can use. A
/// socket that a process left behind is taken away first.
///
/// [`Fault::Run`] with [`RunFault::Listen`]: another process listens there, another file is there,
/// or the system refuses it.
pub(crate) fn listen_locally(rt: &HostRuntime, path: &str) -> Result<UnixListener, Failure>
    ensures fault { IfErr result (λ failure. failure.fault ≡ ends.Run ends_of_run.Listen) }
    ensures named { IfErr result (IsNamed path.now) }
{
    match found_at(rt, path) {
        Found::Nothing => {}
        Found::LeftBehind => {
            let _gone = fs::remove_file(rt, path).is_ok();
        }
        Found::InUse => return Err(unheard(rt, path, &"another process listens there")),
        Found::Other => return Err(unheard(rt, path, &"a file is there that is no socket")),
    }
    match bind(rt, path) {
        Ok(listener) => Ok(listener),
        Err(error) => Err(unheard(rt, path, &error)),
    }
}

/// The failure of a desk that can't listen at that path.
fn unheard<T: std::fmt::Display>(rt: &HostRuntime, path: &str, words: &T) -> Failure
    ensures fault { result.fault ≡ ends.Run ends_of_run.Listen }
    ensures named { IsNamed path.now result }
{
    let fault = Fault::Run(RunFault::Listen);
    Failure::at(rt.alloc(), fault, path, Whereabouts::Listen, words)
}

/// A listener at that path, where nothing is: its file can be used by its owner alone.
fn bind(rt: &HostRuntime, path: &str) -> io::Result<UnixListener> {
    let listener = UnixListener::bind(rt, path)?;
    fs::set_permissions(rt, path, Permissions::from_mode(0o600))?;
    Ok(listener)
}

/// Takes the socket of these settings away, where nobody listens there any more.
pub(crate) fn leave_socket(rt: &HostRuntime, settings: &Settings) {
    if let Some(path) = &settings.desk_socket {
        if found_at(rt, path.as_str()) == Found::LeftBehind {
            let _gone = fs::remove_file(rt, path.as_str()).is_ok();
        }
    }
}

/// Returns what is at that path.
fn found_at(rt: &HostRuntime, path: &str) -> Found {
    match fs::symlink_metadata(rt, path) {
        Err(_) => Found::Nothing,
        Ok(known) if !known.file_type().is_socket() => Found::Other,
        Ok(_) => match UnixStream::connect(rt, path) {
            Err(error) if error.kind() == io::ErrorKind::ConnectionRefused => Found::LeftBehind,
            _ => Found::InUse,
        },
    }
}

/// The thing at the path of a socket that is to be made.
#[derive(Clone, Copy, Debug, PartialEq, Eq)]
enum Found {
    Nothing,
    /// A socket at which nobody listens any more.
    LeftBehind,
    /// A socket at which a process listens, or one that can't be asked.
    InUse,
    /// A file that is no socket.
    Other,
}
