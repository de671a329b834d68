//! The standard input, read aside.

use std::alloc::{AllocError, Global};
use std::io::{self, Read};
use std::rt::Stdin;
use std::sync::Arc;
use std::sync::atomic::{AtomicBool, Ordering};
use std::thread::{self, Threads};

/// The progress of a thread that reads the standard input to its end.
#[derive(Drop)]
pub struct Input {
    ended: AtomicBool,
    failed: AtomicBool,
}

impl Input {
    fn new() -> Input {
        Input {
            ended: AtomicBool::new(false),
            failed: AtomicBool::new(false),
        }
    }

    /// Returns `true` if the input has ended, or a read of it failed.
    pub fn has_ended(&self) -> bool {
        self.ended.load(Ordering::SeqCst)
    }

    /// Returns `true` if a read of the input failed.
    pub fn has_failed(&self) -> bool {
        self.failed.load(Ordering::SeqCst)
    }

    /// Reads the input to its end.
    fn drain(&self, mut input: Stdin) {
        let mut piece = [0; 512];
        for _ in 0..u64::MAX {
            match input.read(&mut piece) {
                Ok(0) => break,
                Ok(_) => {}
                Err(error) if error.kind() == io::ErrorKind::Interrupted => {}
                Err(_) => {
                    self.failed.store(true, Ordering::SeqCst);
                    break;
                }
            }
        }
        self.ended.store(true, Ordering::SeqCst);
    }
}

/// Has a thread read the standard input to its end; none where the system refuses it. Nobody waits
/// for that thread: the end of the program ends it.
pub fn read_aside<R: Threads>(rt: &R, alloc: Global, input: Stdin) -> Option<Arc<Input>> {
    let Ok(ours) = Arc::new(alloc, Input::new()) else {
        return None;
    };
    let theirs: Result<Arc<Input>, AllocError> = ours.clone();
    let Ok(theirs) = theirs else {
        return None;
    };
    match thread::spawn(rt, move || theirs.drain(input)) {
        Ok(_left) => Some(ours),
        Err(_) => None,
    }
}
