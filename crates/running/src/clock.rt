//! The clock of a run: the second that it is, and who waits for the next one.

use crate::ending::Ending;
use crate::seconds::Seconds;
use crate::timing::{CLOCK_PARTS, CLOCK_PAUSE};
use machine::Machine;
use std::sync::{Condvar, Mutex, Wait};
use std::thread;
use std::time::Duration;

/// The seconds of a run, and the peers that may be dialled again within one. Diallers wait for it.
#[derive(Drop)]
pub(crate) struct RunClock {
    /// The seconds that have passed; they count on from 0 after 2^64 - 1.
    seconds: Mutex<Seconds>,
    /// A second has passed, or a link of a peer has begun.
    ticked: Condvar,
}

impl RunClock {
    /// Begins with second 0.
    pub(crate) fn new() -> RunClock {
        RunClock {
            seconds: Mutex::new(Seconds::new()),
            ticked: Condvar::new(),
        }
    }

    /// Returns the second that it is, counted from the start of the run.
    pub(crate) fn second<R: Wait>(&self, rt: &R) -> u64 {
        self.seconds.lock(rt).second()
    }

    /// Begins the next second, and wakes who waits for it.
    pub(crate) fn tick<R: Machine>(&self, rt: &R) {
        let mut seconds = self.seconds.lock(rt);
        seconds.tick();
        self.ticked.notify_all();
    }

    /// Waits for about a second, and returns `false` if the end came in between.
    pub(crate) fn wait_second<R: Machine>(&self, rt: &R, ending: &Ending) -> bool {
        for _ in 0..CLOCK_PARTS {
            if ending.has_begun() {
                return false;
            }
            thread::sleep(rt, Duration::from_millis(CLOCK_PAUSE));
        }
        true
    }

    /// Ends the pause of the peer's dialler, once a second: a link of the peer has begun, so it is
    /// up.
    pub(crate) fn call_dialler<R: Machine>(&self, rt: &R, peer: u8) {
        let mut seconds = self.seconds.lock(rt);
        seconds.call(peer);
        self.ticked.notify_all();
    }

    /// Waits until the peer that was dialled in that second may be dialled again: in another one,
    /// or once a link of its own has begun. Returns at the end too.
    pub(crate) fn wait_to_dial<R: Machine>(&self, rt: &R, ending: &Ending, peer: u8, dialled: u64) {
        let mut seconds = self.seconds.lock(rt);
        for _ in rt.forever() {
            if seconds.is_over(peer, dialled) || ending.has_begun() {
                return;
            }
            seconds = self.ticked.wait(rt, seconds);
        }
        unreachable!()
    }
}
