//! With which version a link is dialled: begin at `Choice`.

ghost use Rattle.std.specs.Prelude.{◌≡◌};
ghost use Rattle.running.specs.Versions.{after_refusal, after_welcome, first_choice, is_told_refusal, received, tries_again, version_after_refusal, version_after_welcome, will_take_two};
ghost use Rattle.running.specs.declared.versions.Reception.TheVariants as receptions;

use crate::timing::REFUSAL_LIMIT;
use links::LinkEnd;
use wire::Version;

/// The outcome of a session that this member dialled.
#[derive(Clone, Copy, Debug, PartialEq, Eq)]
pub(crate) enum Reception {
    /// The peer welcomed it.
    Welcomed,
    /// The peer closed it before it welcomed it, perhaps for its version.
    Refused,
    /// The peer said nothing, or the own member had no memory: that tells nothing of the version.
    Unanswered,
}

impl Reception {
    /// Returns what came of a session that ended so, that many seconds after it began.
    pub(crate) fn of(end: LinkEnd, welcomed: bool, waited: u64) -> Reception
        ensures { result ≡ received end welcomed waited }
    {
        if welcomed {
            return Reception::Welcomed;
        }
        match end {
            LinkEnd::Ended | LinkEnd::Broken(_) | LinkEnd::OutOfOrder => Reception::Refused,
            LinkEnd::Lost if waited < REFUSAL_LIMIT => Reception::Refused,
            _ => Reception::Unanswered,
        }
    }

    /// Returns `true` if a log is told that the peer refused a session of that version. One of
    /// version 2 may have been refused for its version alone.
    pub(crate) fn is_told(self, version: Version) -> bool
        ensures { result ≡ is_told_refusal self version }
    {
        match version {
            Version::One => self == Reception::Refused,
            Version::Two => false,
        }
    }
}

/// The version of the next session of the link to a peer. Version 2 is tried first; once the peer
/// has welcomed it, it is tried first after each session that was welcomed, and twice in a row, for
/// good.
#[derive(Clone, Copy, Debug, PartialEq, Eq)]
pub(crate) struct Choice {
    /// The version of the next session.
    pub(crate) version: Version,
    /// The peer has welcomed version 2.
    pub(crate) takes_two: bool,
    /// The peer refused the session before.
    pub(crate) refused: bool,
}

impl Choice {
    /// The first session is of version 2.
    pub(crate) fn first() -> Choice
        ensures { result ≡ first_choice }
    {
        Choice {
            version: Version::Two,
            takes_two: false,
            refused: false,
        }
    }

    /// The choice after a session of this one's version of which that came.
    pub(crate) fn after(self, reception: Reception) -> Choice
        ensures welcomed { reception ≡ receptions.Welcomed → result ≡ after_welcome self }
        ensures refused { reception ≡ receptions.Refused → result ≡ after_refusal self }
        ensures unanswered { reception ≡ receptions.Unanswered → result ≡ self }
    {
        match reception {
            Reception::Welcomed => Choice {
                version: self.after_welcome(),
                takes_two: self.will_take_two(),
                refused: false,
            },
            Reception::Refused => Choice {
                version: self.after_refusal(),
                takes_two: self.takes_two,
                refused: true,
            },
            Reception::Unanswered => self,
        }
    }

    /// The version that is tried first after such a session.
    fn after_welcome(self) -> Version
        ensures { result ≡ version_after_welcome self }
    {
        if self.will_take_two() {
            Version::Two
        } else {
            Version::One
        }
    }

    /// Returns `true` if the peer has welcomed version 2 once a session of this choice's version is
    /// welcomed.
    fn will_take_two(self) -> bool
        ensures { result ≡ will_take_two self }
    {
        self.takes_two || self.version == Version::Two
    }

    /// The version that is tried after a refusal.
    fn after_refusal(self) -> Version
        ensures { result ≡ version_after_refusal self }
    {
        if self.tries_again() {
            return self.version;
        }
        match self.version {
            Version::One => Version::Two,
            Version::Two => Version::One,
        }
    }

    /// Returns `true` if the same version is tried once more after a refusal.
    fn tries_again(self) -> bool
        ensures { result ≡ tries_again self }
    {
        self.takes_two && !self.refused
    }
}
