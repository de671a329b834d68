//! The system's word on this process.

use crate::limits::{descriptors_lack, open_limit};
use crate::signals::{is_blocked, is_called};
use std::fs;
use std::io::{self, Write};

/// Returns `true` if the process was started with SIGTERM or SIGINT blocked, so that one that comes
/// waits.
pub fn blocks_signals(host: &HostRuntime) -> bool {
    match status(host) {
        Ok(status) => is_blocked(host.alloc(), &status).unwrap_or(false),
        Err(_) => false,
    }
}

/// Returns `true` if SIGTERM or SIGINT waits. Where the system doesn't say so none does.
pub fn is_called_off(host: &HostRuntime) -> bool {
    match status(host) {
        Ok(status) => is_called(host.alloc(), &status).unwrap_or(false),
        Err(_) => false,
    }
}

/// The signals of this process, and much else of it.
fn status(host: &HostRuntime) -> io::Result<Vec<u8>> {
    fs::read(host, "/proc/self/status")
}

/// Returns how many files this process may have open; none where it may have any number, or the
/// system doesn't say.
pub fn most_files(host: &HostRuntime) -> Option<u64> {
    match fs::read(host, "/proc/self/limits") {
        Ok(limits) => open_limit(host.alloc(), &limits).unwrap_or(None),
        Err(_) => None,
    }
}

/// Says on the standard error that so many files are too few for a member of so many, 32 clients
/// and 1,024 followers, where that is so.
pub fn warn_of_files(host: &HostRuntime, limit: Option<u64>, n: u8) {
    let Some(limit) = limit else {
        return;
    };
    if let Ok(Some(said)) = descriptors_lack(host.alloc(), limit, n) {
        let _unsaid = host.stderr().write_all(said.as_bytes());
    }
}
