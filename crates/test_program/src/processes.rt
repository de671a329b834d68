//! What the system says of a process, and what a member makes of it. Lines of a file of the system
//! stand with `|` between them.
//!
//! `files LINES` answers how many files the process of this `/proc/self/limits` may have open, or
//! `none`. `clients FILES N` answers how many clients a member of so many lets in at once, where
//! FILES may be `none` too, `followers FILES N` how many may follow decisions, and `lack FILES N`
//! what it says of too few files, or `enough`. `quiet VALUE` answers whether the value of
//! `BRACHA_QUIET` takes second lines away, and `loud` whether its absence does. `blocked LINES` and
//! `called LINES` answer whether the process of this `/proc/self/status` blocks a signal that ends
//! a member, and whether one waits.

use process::{
    clients_within, descriptors_lack, followers_within, is_blocked, is_called, open_limit,
};
use std::alloc::Global;
use std::env::FillError;
use std::rt::Env;
use troubles::wants_quiet;

/// Plays a row.
pub fn told(alloc: Global, action: &str) -> Option<String> {
    let (what, rest) = action.split_once(' ').unwrap_or((action, ""));
    match what {
        "loud" => format!(in alloc; "{}", wants_quiet(&Quiet(None))).ok(),
        "quiet" => format!(in alloc; "{}", wants_quiet(&Quiet(Some(rest.as_bytes())))).ok(),
        "files" => limit_of(alloc, rest),
        "blocked" => blocked(alloc, rest),
        "called" => called(alloc, rest),
        what => paired(alloc, what, rest),
    }
}

/// An environment in which `BRACHA_QUIET` has this value, if it has one, and nothing else is.
#[derive(Clone, Copy, Drop)]
struct Quiet<'a>(Option<&'a [u8]>);

impl Env for Quiet<'_> {
    fn arg(&self, _place: usize, _buf: &mut [u8]) -> Result<usize, FillError> {
        Err(FillError::NotPresent)
    }

    fn var(&self, name: &str, buf: &mut [u8]) -> Result<usize, FillError> {
        let Some(value) = self.0 else {
            return Err(FillError::NotPresent);
        };
        if name != "BRACHA_QUIET" {
            return Err(FillError::NotPresent);
        }
        match buf.get_mut(..value.len()) {
            Some(front) => {
                front.copy_from_slice(value);
                Ok(value.len())
            }
            None => Err(FillError::TooLong),
        }
    }

    fn var_at(&self, _place: usize, _buf: &mut [u8]) -> Result<usize, FillError> {
        Err(FillError::NotPresent)
    }
}

/// Returns how many files the process of these limits may have open.
fn limit_of(alloc: Global, lines: &str) -> Option<String> {
    let file = file_of(alloc, lines)?;
    match open_limit(alloc, &file) {
        Ok(files) => files_text(alloc, files),
        Err(_) => None,
    }
}

/// A number, or `none`.
fn files_text(alloc: Global, files: Option<u64>) -> Option<String> {
    match files {
        Some(files) => format!(in alloc; "{files}").ok(),
        None => format!(in alloc; "none").ok(),
    }
}

/// Returns whether the process of this status blocks a signal that ends a member.
fn blocked(alloc: Global, lines: &str) -> Option<String> {
    let file = file_of(alloc, lines)?;
    match is_blocked(alloc, &file) {
        Ok(blocked) => format!(in alloc; "{blocked}").ok(),
        Err(_) => None,
    }
}

/// Returns whether a signal that ends a member waits for the process of this status.
fn called(alloc: Global, lines: &str) -> Option<String> {
    let file = file_of(alloc, lines)?;
    match is_called(alloc, &file) {
        Ok(called) => format!(in alloc; "{called}").ok(),
        Err(_) => None,
    }
}

/// The bytes of a file of these lines.
fn file_of(alloc: Global, lines: &str) -> Option<Vec<u8>> {
    let mut bytes = Vec::from_slice(alloc, lines.as_bytes()).ok()?;
    for byte in bytes.iter_mut() {
        if *byte == b'|' {
            *byte = b'\n';
        }
    }
    Some(bytes)
}

/// Plays a row of a count of files and a size.
fn paired(alloc: Global, what: &str, rest: &str) -> Option<String> {
    let (files, n) = rest.split_once(' ')?;
    let (files, n) = (files_of(files)?, n.parse().ok()?);
    match what {
        "clients" => format!(in alloc; "{}", clients_within(files, n)).ok(),
        "followers" => format!(in alloc; "{}", followers_within(files, n)).ok(),
        "lack" => lack_of(alloc, files?, n),
        _ => None,
    }
}

/// The number of a word, or `none`.
fn files_of(word: &str) -> Option<Option<u64>> {
    match word {
        "none" => Some(None),
        number => Some(Some(number.parse().ok()?)),
    }
}

/// Returns what is said of so many files, without the end of its line, or `enough`.
fn lack_of(alloc: Global, files: u64, n: u8) -> Option<String> {
    match descriptors_lack(alloc, files, n) {
        Ok(Some(said)) => String::from_str(alloc, said.as_str().trim_end()).ok(),
        Ok(None) => format!(in alloc; "enough").ok(),
        Err(_) => None,
    }
}
