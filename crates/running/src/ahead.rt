//! The members that have welcomed this one, and those that have heard more of it than its journal
//! holds.

ghost use Rattle.std.specs.Prelude.{◌≡◌, ◌<◌, ◌-◌, ◌+◌, nat_le, nat_lt, false};
ghost use Rattle.terms_prelude.specs.Terms.{One, count_below, value_is};
ghost use Rattle.votes.specs.Votes.{no_votes, value_of, with_vote};

use terms::{Size, Value};
use votes::Votes;

/// The members whose Welcome named more statements than this one has said: it lost its journal, or
/// runs on an old copy. A member that lies may say so too, but more than t members don't all lie.
#[derive(Clone, Copy, Debug, PartialEq, Eq)]
pub(crate) struct Ahead {
    /// The members that say so, as votes for One.
    votes: Votes,
    is_forgotten: bool,
}

impl Ahead {
    /// Nobody says so.
    pub(crate) fn nobody() -> Ahead {
        Ahead {
            votes: Votes::none(),
            is_forgotten: false,
        }
    }

    /// Notes that this member says so. A number that is no member's changes nothing but the answer
    /// to `is_forgotten`.
    pub(crate) fn add(&mut self, size: Size, member: u8)
        ensures noted { member < size.n → self.new.votes ≡ with_vote self.old.votes member One }
        ensures more { self.new.is_forgotten
            ≡ nat_lt size.t (count_below size.n
            (λ m. value_is (value_of false self.new.votes m) One)) }
    {
        self.votes = with_member(self.votes, size, member);
        self.is_forgotten = size.t() < self.votes.count(size, false, Value::One);
    }

    /// Returns `true` if more than t members say so.
    pub(crate) fn is_forgotten(&self) -> bool
        ensures { result ≡ self.now.is_forgotten }
    {
        self.is_forgotten
    }
}

/// The other members that have welcomed this one since it started. Once n - t - 1 have, a member
/// that has said more than its journal holds would have been told so, and this one may speak.
#[derive(Clone, Copy, Debug, PartialEq, Eq)]
pub(crate) struct Welcomes {
    /// The members that have, as votes for One.
    votes: Votes,
}

impl Welcomes {
    /// Nobody has.
    pub(crate) fn none() -> Welcomes
        ensures { result.votes ≡ no_votes }
    {
        Welcomes {
            votes: Votes::none(),
        }
    }

    /// Notes that this other member has. A number that is no member's adds none.
    pub(crate) fn add(&mut self, size: Size, member: u8)
        ensures { member < size.n → self.new.votes ≡ with_vote self.old.votes member One }
    {
        self.votes = with_member(self.votes, size, member);
    }

    /// Returns `true` if n - t - 1 other members have.
    pub(crate) fn are_enough(&self, size: Size) -> bool
        ensures { result ≡ nat_le (size.n - size.t)
            (count_below size.n (λ m. value_is (value_of false self.now.votes m) One) + 1) }
    {
        size.recall();
        let needed = u32::from(size.n() - size.t());
        needed <= u32::from(self.votes.count(size, false, Value::One)) + 1
    }
}

/// These votes and that of a member; a number that is no member's adds none.
fn with_member(votes: Votes, size: Size, member: u8) -> Votes
    ensures noted { member < size.n → result ≡ with_vote votes member One }
{
    size.recall();
    if member < size.n() {
        return votes.with(member, Value::One);
    }
    votes
}
