//! The end of a member's run.

use std::sync::atomic::{AtomicBool, Ordering};

/// The end of a run, which each thread looks for.
#[derive(Drop)]
pub(crate) struct Ending {
    has_begun: AtomicBool,
    /// The end came before the member spoke, and has stopped it for that alone.
    is_unheard: AtomicBool,
}

impl Ending {
    /// Creates the end of a run that goes on.
    pub(crate) fn new() -> Ending {
        Ending {
            has_begun: AtomicBool::new(false),
            is_unheard: AtomicBool::new(false),
        }
    }

    /// Begins the end.
    pub(crate) fn begin(&self) {
        self.has_begun.store(true, Ordering::SeqCst);
    }

    /// Returns `true` if the end has begun.
    pub(crate) fn has_begun(&self) -> bool {
        self.has_begun.load(Ordering::SeqCst)
    }

    /// Notes that the end came before the member spoke.
    pub(crate) fn note_unheard(&self) {
        self.is_unheard.store(true, Ordering::SeqCst);
    }

    /// Returns `true` if the end came before the member spoke.
    pub(crate) fn is_unheard(&self) -> bool {
        self.is_unheard.load(Ordering::SeqCst)
    }
}
