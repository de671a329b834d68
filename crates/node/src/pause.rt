//! The pause before a group: begin at `Pause`.
ghost use Rattle.std.specs.Prelude.{◌≡◌, ◌≤◌, ◌*◌};

use std::thread;
use std::time::{Clock, Duration};

/// The most pauses before one group.
pub(crate) const PAUSES: u32 = 256;

/// The time that a link gives the others before it has the book hear what waits: whoever was just
/// answered hands in again meanwhile, and is saved by the same two syncs.
#[derive(Clone, Copy)]
pub(crate) struct Pause {
    micros: u64,
}

impl Pause {
    /// Returns the pause among so many members: six microseconds for each statement that a step of
    /// a question brings a member, of which there are n from each of n members, but at least 100
    /// and at most 2,000.
    pub(crate) fn among(n: u8) -> Pause
        ensures least { 100 ≤ result.micros }
        ensures most { result.micros ≤ 2000 }
        ensures between { 100 ≤ 6 * n * n → 6 * n * n ≤ 2000 → result.micros ≡ 6 * n * n }
    {
        let n = u64::from(n);
        Pause {
            micros: (6 * n * n).clamp(100, 2000),
        }
    }

    /// Pauses once.
    pub(crate) fn sleep<R: Clock>(&self, rt: &R) {
        thread::sleep(rt, Duration::from_micros(self.micros));
    }
}
