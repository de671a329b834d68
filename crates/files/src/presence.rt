//! The presence of files. An error other than `no such file` says neither that a file is there
//! nor that it is missing: it is a failure.

ghost use Rattle.std.specs.Prelude.{◌≡◌, ◌≢◌, Err, IfErr, IsErr, IsOk, Ok, false, true};
ghost use Rattle.std.specs.IoError.{error_kind};
ghost use Rattle.std.specs.declared.io.Error.{Error};
ghost use Rattle.std.specs.declared.io.ErrorKind.TheVariants.{NotFound};
ghost use Rattle.troubles.specs.Faults.{IsMeant};
ghost use Rattle.troubles.specs.declared.fault.Fault.TheVariants as ends;

use std::fs::{self, Metadata};
use std::io;
use troubles::{Failure, Fault, Whereabouts};

/// Returns `true` if something has this path, be it a link that leads nowhere.
///
/// [`Fault::File`]: the system doesn't say.
pub(crate) fn is_there(host: &HostRuntime, path: &str) -> Result<bool, Failure>
    ensures { IfErr result (λ failure. IsMeant ends.File failure.fault) }
{
    is_known(host, path, fs::symlink_metadata(host, path))
}

/// Returns `true` if there is a file at this path, or where it leads.
///
/// [`Fault::File`]: the system doesn't say.
pub(crate) fn leads_somewhere(host: &HostRuntime, path: &str) -> Result<bool, Failure>
    ensures { IfErr result (λ failure. IsMeant ends.File failure.fault) }
{
    is_known(host, path, fs::metadata(host, path))
}

/// Returns `true` if that is known of a path, and `false` if nothing is there.
fn is_known(host: &HostRuntime, path: &str, known: io::Result<Metadata>) -> Result<bool, Failure>
    ensures there { IsOk known → result ≡ Ok true }
    ensures missing { (error : Error) → known ≡ Err error → error_kind error ≡ NotFound →
        result ≡ Ok false }
    ensures unknown { (error : Error) → known ≡ Err error → error_kind error ≢ NotFound →
        IsErr result }
    ensures fault { IfErr result (λ failure. IsMeant ends.File failure.fault) }
{
    match known {
        Ok(_) => Ok(true),
        Err(error) if error.kind() == io::ErrorKind::NotFound => Ok(false),
        Err(error) => Err(Failure::of_system(
            host.alloc(),
            Fault::File,
            path,
            Whereabouts::Open,
            error,
        )),
    }
}
