//! The number of lines of links that a log takes.

ghost use Rattle.std.specs.Prelude.{◌≡◌};
ghost use Rattle.running.specs.Paces.{admits, after_line, pace_at};

use crate::timing::MINUTE;

/// The most lines of the links of one member that are told in a minute.
const LINES: u8 = 20;

/// The lines of the links from and to one member that were told in the minute that began at a
/// second.
#[derive(Clone, Copy, Debug, PartialEq, Eq)]
pub(crate) struct Pace {
    /// The second at which the minute began.
    pub(crate) began: u64,
    /// The number of lines that were told in it.
    pub(crate) told: u8,
}

impl Pace {
    /// Returns `true` if one more line may be told at that second: the 20th of its minute is the
    /// last one.
    pub(crate) fn admits(self, now: u64) -> bool
        ensures { result ≡ admits self now }
    {
        self.at(now).told < LINES
    }

    /// The pace after a line at that second, which was told if it was admitted.
    pub(crate) fn after_line(self, now: u64) -> Pace
        ensures { result ≡ after_line self now }
    {
        let here = self.at(now);
        if here.told < LINES {
            Pace {
                began: here.began,
                told: here.told + 1,
            }
        } else {
            here
        }
    }

    /// The pace in the minute of that second: nothing was told yet where another one has begun.
    fn at(self, now: u64) -> Pace
        ensures { result ≡ pace_at self now }
    {
        if now.saturating_sub(self.began) >= MINUTE {
            Pace {
                began: now,
                told: 0,
            }
        } else {
            self
        }
    }
}
