//! The state of a member that speaks, or only listens.

use std::sync::atomic::{AtomicBool, Ordering};
use std::sync::{Condvar, Mutex, Wait};

/// The state of a member that speaks, or only listens. While it listens, who would make it say
/// something waits.
#[derive(Drop)]
pub(crate) struct Voice {
    listens: AtomicBool,
    /// Held while `listens` changes, so that who waits misses no change.
    turn: Mutex<()>,
    changed: Condvar,
}

impl Voice {
    /// The member speaks.
    pub(crate) fn new() -> Voice {
        Voice {
            listens: AtomicBool::new(false),
            turn: Mutex::new(()),
            changed: Condvar::new(),
        }
    }

    /// Has the member only listen from now on, or speak: then who waits goes on.
    pub(crate) fn set<R: Wait>(&self, rt: &R, listens: bool) {
        let _turn = self.turn.lock(rt);
        self.listens.store(listens, Ordering::SeqCst);
        self.changed.notify_all();
    }

    /// Returns once it speaks.
    pub(crate) fn wait<R: Wait>(&self, rt: &R) {
        if !self.listens() {
            return;
        }
        let mut turn = self.turn.lock(rt);
        for _ in rt.forever() {
            if !self.listens() {
                return;
            }
            turn = self.changed.wait(rt, turn);
        }
        unreachable!()
    }

    /// Returns `true` if it only listens. It waits for nobody.
    pub(crate) fn listens(&self) -> bool {
        self.listens.load(Ordering::SeqCst)
    }
}
