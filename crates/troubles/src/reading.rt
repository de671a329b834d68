//! Files that are read whole, up to a limit.

ghost use Rattle.std.specs.Prelude.{◌≡◌, ◌≤◌, ◌<◌, ◌++◌, codes, false, length, string_bytes, true, IfErr, IfOk};
ghost use Rattle.std.specs.Fmt.{decimal};
ghost use Rattle.troubles.specs.Faults.{IsMeant};
ghost use Rattle.troubles.specs.Reading.{most_of};
ghost use Rattle.troubles.specs.Troubles.{IsNamed};
ghost use Rattle.troubles.specs.declared.fault.Fault.TheVariants as ends;

use crate::fault::Fault;
use crate::trouble::{Failure, Whereabouts};
use std::alloc::{AllocError, Global};
use std::fs::File;
use std::io::{self, Read};

/// The kind of text for which a file is read. None that is one is longer than what is read.
#[derive(Clone, Copy, Debug, PartialEq, Eq)]
pub enum Text {
    /// The settings of a member: up to 1 MiB.
    Settings,
    /// A transcript: up to 32 MiB. The longest true one, of 64 members and all 32 rounds, has 19
    /// MB.
    Transcript,
    /// A script: up to 32 MiB. That is enough for 1,000,000 events of one statement each.
    Script,
}

impl Text {
    /// Returns how many bytes of it are read at most.
    fn most(self) -> u64
        ensures { result ≡ most_of self }
    {
        match self {
            Text::Settings => 1_048_576,
            Text::Transcript | Text::Script => 33_554_432,
        }
    }
}

/// All bytes of the file, where they are no more than are read of such a text.
///
/// [`Fault::File`]: they are more, or the file can't be read.
pub fn read_file(rt: &HostRuntime, path: &str, text: Text) -> Result<Vec<u8>, Failure>
    ensures most { IfOk result (λ bytes. length bytes.items ≤ most_of text) }
    ensures fault { IfErr result (λ failure. IsMeant ends.File failure.fault) }
    ensures named { IfErr result (IsNamed path.now) }
{
    let most = text.most();
    match read_some(rt, path, most) {
        Ok(bytes) => {
            if is_longer(&bytes, most) {
                return Err(long_failure(rt.alloc(), path, most));
            }
            Ok(bytes)
        }
        Err(error) => Err(Failure::of_system(
            rt.alloc(),
            Fault::File,
            path,
            Whereabouts::Read,
            error,
        )),
    }
}

/// The bytes of the file, but no more than so many and one.
fn read_some(rt: &HostRuntime, path: &str, most: u64) -> io::Result<Vec<u8>> {
    let file = File::open(rt, path)?;
    let mut bytes = Vec::new(rt.alloc());
    file.take(most.saturating_add(1)).read_to_end(&mut bytes)?;
    Ok(bytes)
}

/// Returns `true` if there are more bytes than so many.
fn is_longer(bytes: &[u8], most: u64) -> bool
    ensures no { result ≡ false → length bytes.now ≤ most }
    ensures yes { result ≡ true → most < length bytes.now }
{
    bytes.len() as u64 > most
}

/// The failure of a file that is longer than what is read.
fn long_failure(alloc: Global, path: &str, most: u64) -> Failure
    ensures fault { IsMeant ends.File result.fault }
    ensures named { IsNamed path.now result }
{
    match long_words(alloc, most) {
        Ok(words) => Failure::at(alloc, Fault::File, path, Whereabouts::Read, &words),
        Err(_) => Failure::from(Fault::Memory),
    }
}

/// Returns what is told of a file that is longer than what is read.
fn long_words(alloc: Global, most: u64) -> Result<String, AllocError>
    ensures { IfOk result
        (λ text. string_bytes text ≡ codes "longer than "
        ++ (decimal most ++ codes " bytes, the most that is read")) }
{
    format!(in alloc; "longer than {most} bytes, the most that is read")
}
