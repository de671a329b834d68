//! The file at the path of a journal, compared with the one that is open.

ghost use Rattle.std.specs.Prelude.{◌≡◌, ◌↔◌, IfErr, IsTrue, false, true};
ghost use Rattle.std.specs.IoError.{error_kind};
ghost use Rattle.std.specs.declared.io.ErrorKind.TheVariants.{NotFound};
ghost use Rattle.process.specs.Watches.{IsSameFile};

use std::os::unix::fs::MetadataExt;
use std::{fs, io};

/// The identity of a file for the system: the device, and the file's number on it.
#[derive(Clone, Copy, Debug)]
pub struct Identity {
    pub device: u64,
    pub number: u64,
}

/// The path of a file that is open, and which file it was when it was opened.
#[derive(Drop)]
pub struct Watched<'a> {
    path: &'a str,
    /// None where the system didn't say.
    opened: Option<Identity>,
}

impl<'a> Watched<'a> {
    ghost use Rattle.process.specs.Watches.{IsUnknown, watched_path};

    /// Returns the watch over a file that was just opened at this path.
    #[tactic(auto, unfolding(crate::specs::Watches::watched_path))]
    pub fn new(host: &HostRuntime, path: &'a str) -> Watched<'a>
        ensures { watched_path result ≡ path.now }
    {
        Watched {
            path,
            opened: identity_at(host, path).ok(),
        }
    }

    /// The path.
    #[tactic(auto, unfolding(crate::specs::Watches::watched_path))]
    pub fn path(&self) -> &'a str
        ensures { result.now ≡ watched_path self.now }
    {
        self.path
    }

    /// Returns `true` if the path names another file by now, or none. Where the system doesn't say
    /// it doesn't.
    #[tactic(auto, unfolding(crate::specs::Watches::IsUnknown))]
    pub fn is_replaced(&self, host: &HostRuntime) -> bool
        ensures { IsUnknown self.now → result ≡ false }
    {
        match self.opened {
            Some(opened) => is_gone(opened, identity_at(host, self.path)),
            None => false,
        }
    }
}

/// Returns `true` if the path of a file that was opened names this other file, or none. Where the
/// system doesn't say what it names it doesn't.
fn is_gone(opened: Identity, found: io::Result<Identity>) -> bool
    ensures same { (file : Identity) → found ≡ Ok file → IsSameFile opened file → result ≡ false }
    ensures other { (file : Identity) → found ≡ Ok file → (IsSameFile opened file → ⊥) →
        result ≡ true }
    ensures missing { IfErr found (λ error. IsTrue result ↔ (error_kind error ≡ NotFound)) }
{
    match found {
        Ok(file) => !is_same(opened, file),
        Err(error) => is_missing(&error),
    }
}

/// Returns `true` if the error is that there is no such file.
fn is_missing(error: &io::Error) -> bool
    ensures { IsTrue result ↔ (error_kind error.now ≡ NotFound) }
{
    error.kind() == io::ErrorKind::NotFound
}

/// The file that the path names.
fn identity_at(host: &HostRuntime, path: &str) -> io::Result<Identity> {
    let known = fs::metadata(host, path)?;
    Ok(Identity {
        device: known.dev(),
        number: known.ino(),
    })
}

/// Returns `true` if the two are one file.
fn is_same(one: Identity, other: Identity) -> bool
    ensures { IsTrue result ↔ IsSameFile one other }
{
    one.device == other.device && one.number == other.number
}
