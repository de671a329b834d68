//! The system's word on a file that failed, for those who tell people of it.
use std::io;
use std::sync::{Arc, OnceLock};

/// The error of the system at the first call of a file that failed, shared by the disk and whoever
/// tells people of it. What a caller may do after a fault doesn't depend on it, so no fault has it,
/// and no promise reads it.
#[derive(Drop)]
pub struct FirstError {
    said: OnceLock<io::Error>,
}

impl FirstError {
    /// Returns the record of a file that hasn't failed yet.
    pub fn new() -> FirstError {
        FirstError {
            said: OnceLock::new(),
        }
    }

    /// Keeps what the system said, unless a call failed before.
    pub(crate) fn note(&self, error: io::Error) {
        let _kept = self.said.try_set(error).is_ok();
    }

    /// Returns what the system said; none where no call has failed.
    pub fn get(&self) -> Option<io::Error> {
        match self.said.get() {
            Some(error) => Some(*error),
            None => None,
        }
    }
}

/// Keeps what the system said where somebody wants to know it.
pub(crate) fn note_for(asker: &Option<Arc<FirstError>>, error: io::Error) {
    if let Some(first) = asker {
        first.note(error);
    }
}
