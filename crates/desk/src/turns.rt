//! The turns in which the clients of a member have transcripts made.

ghost use Rattle.std.specs.Prelude.{◌≡◌, None, Some};
ghost use Rattle.std.specs.Duration.{as_nanos};
ghost use Rattle.std.specs.Time.{instant_nanos};
ghost use Rattle.desk.specs.Rests.{IsRestBehind, left_until};

use std::sync::{Mutex, MutexGuard, Wait};
use std::thread;
use std::time::{Clock, Duration, Instant};

/// The length of the rest behind a transcript, in times of what that took.
const TIMES: u32 = 15;

/// The rest behind a transcript: the time before which no other is made, if there is one.
#[derive(Clone, Copy, Debug, PartialEq, Eq)]
pub struct Rest {
    until: Option<Instant>,
}

impl Rest {
    /// Returns no rest.
    pub fn none() -> Rest
        ensures { result.until ≡ None }
    {
        Rest { until: None }
    }

    /// Returns how much of it is left at that time.
    pub fn left(&self, now: Instant) -> Duration
        ensures { as_nanos result ≡ left_until self.now.until (instant_nanos now) }
    {
        match self.until {
            Some(until) => until.saturating_duration_since(now),
            None => Duration::ZERO,
        }
    }

    /// Returns the rest behind a transcript that was made between these times: 15 times as long as
    /// that took. There is none if the clock can't show its end.
    pub fn behind(began: Instant, ended: Instant) -> Rest
        ensures { IsRestBehind began ended result }
    {
        let took = ended.saturating_duration_since(began);
        let until = match took.checked_mul(TIMES) {
            Some(rest) => ended.checked_add(rest),
            None => None,
        };
        Rest { until }
    }
}

/// The turns in which a member's clients have transcripts made: one at a time, and a rest behind
/// each.
#[derive(Drop)]
pub struct Turns {
    rest: Mutex<Rest>,
}

impl Turns {
    /// Nobody has a turn.
    pub fn new() -> Turns {
        Turns {
            rest: Mutex::new(Rest::none()),
        }
    }

    /// Waits until no other client has its turn.
    pub(crate) fn take<'a, R: Wait>(&'a self, rt: &R) -> Turn<'a> {
        Turn {
            rest: self.rest.lock(rt),
            began: None,
        }
    }
}

/// The milliseconds of the longest wait in one piece, so that a member's end isn't held up.
const PIECE: u64 = 20;

/// A client's turn, which ends when it is given back.
#[derive(Drop)]
pub(crate) struct Turn<'a> {
    rest: MutexGuard<'a, Rest>,
    began: Option<Instant>,
}

impl Turn<'_> {
    /// Waits for a piece of the rest that is left; false where it is over.
    pub(crate) fn rests<R: Clock>(&self, rt: &R) -> bool {
        let Some(now) = time_of(rt) else {
            return false;
        };
        let left = self.rest.left(now);
        if left.is_zero() {
            return false;
        }
        thread::sleep(rt, left.min(Duration::from_millis(PIECE)));
        true
    }

    /// The transcript begins.
    pub(crate) fn begin<R: Clock>(&mut self, rt: &R) {
        self.began = time_of(rt);
    }

    /// The transcript was made: a rest begins, and the next client has its turn.
    pub(crate) fn end<R: Clock>(mut self, rt: &R) {
        if let (Some(began), Some(ended)) = (self.began, time_of(rt)) {
            *self.rest = Rest::behind(began, ended);
        }
    }
}

/// The time, if the clock tells it.
fn time_of<R: Clock>(rt: &R) -> Option<Instant> {
    match Instant::now(rt) {
        Ok(now) => Some(now),
        Err(_) => None,
    }
}
