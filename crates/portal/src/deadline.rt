//! The time that something may take.

ghost use Rattle.std.specs.Prelude.{◌≡◌, ◌*◌, IfOk};
ghost use Rattle.std.specs.Duration.{as_nanos};

use std::io;
use std::time::{Clock, Duration, Instant};

/// The end of a time that began at some moment.
#[derive(Clone, Copy, Debug, PartialEq, Eq)]
pub(crate) struct Deadline {
    start: Instant,
    whole: Duration,
}

impl Deadline {
    /// Returns the end of so many milliseconds from now on.
    pub(crate) fn new<R: Clock>(rt: &R, milliseconds: u64) -> io::Result<Deadline>
        ensures { IfOk result
            (λ deadline. as_nanos deadline.whole ≡ milliseconds * 1_000_000) }
    {
        Ok(Deadline {
            start: Instant::now(rt)?,
            whole: Duration::from_millis(milliseconds),
        })
    }

    /// Returns the end of so many milliseconds from now on, or this one if it comes first.
    /// `TimedOut` if it is over.
    pub(crate) fn within<R: Clock>(&self, rt: &R, milliseconds: u64) -> io::Result<Deadline> {
        let left = self.left(rt)?;
        Ok(Deadline {
            start: Instant::now(rt)?,
            whole: left.min(Duration::from_millis(milliseconds)),
        })
    }

    /// Returns the time that is left. `TimedOut` if none is.
    pub(crate) fn left<R: Clock>(&self, rt: &R) -> io::Result<Duration> {
        let left = self.whole.saturating_sub(self.start.elapsed(rt)?);
        if left.is_zero() {
            return Err(io::Error::from(io::ErrorKind::TimedOut));
        }
        Ok(left)
    }
}
