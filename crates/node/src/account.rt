//! The account of a book: all groups that it heard, in a list that only grows, and of which seats
//! have seen beginnings. The list stands in the proofs alone: at run time there is how many groups
//! it has.
ghost use Rattle.std.specs.Prelude.{◌≡◌, ◌<◌, ◌++◌, ◌∷◌, [], length, MatchBool, IsTrue};
ghost use mathlib.Core.List.{IsPrefix};
ghost use Rattle.member.specs.Groups.{hearing_of, hearings};
ghost use Rattle.node.specs.Accounts.{count_of};

use crate::book::Naming;
use logbook::{Gain, Offer, Plain, Play, Rule, Seen, Start, Word};
use rounds::Toss;
use std::collections::LinkedList;
use std::marker::{Model, PhantomData};
use terms::Statement;

/// A group as the account has it: statements, each with its sender and its toss.
type Group = LinkedList<(u8, Statement, u64)>;

/// The most groups that an account has.
const MOST: u64 = 1 << 62;

/// The rule of an account: its word has the number of its groups.
pub struct CountsGroups;

impl Rule<Group, u64> for CountsGroups {
    ghost use Rattle.std.specs.Prelude.{◌≡◌, []};
    ghost use base.Fml.{ftrue};
    ghost use Rattle.node.specs.Accounts.{words_of};

    ghost holds = { λ words log. words ≡ words_of log };

    ghost first = { [] };

    ghost hinted = { λ number log. Unit {0} };

    ghost shows = { λ log. [] };

    ghost keeps = { λ names log. ftrue };

    ghost moves = { λ ask before after answer. Unit {0} };
}

/// Nothing is traded for a step.
pub struct NoGain;

impl Gain<Group, u64> for NoGain {
    ghost use base.Fml.{ftrue};

    ghost after = { λ names about answer. ftrue };
}

/// The step that appends a group: several statements, or one.
pub struct Append;

impl Play<Group, u64> for Append {
    ghost use Rattle.node.specs.Accounts.{Appends};

    ghost then = { Appends };
}

impl Plain<Vec<(u8, Statement, Toss)>, Group, u64> for Append {
    ghost use Rattle.std.specs.Prelude.{None};
    ghost use Rattle.member.specs.Groups.{hearings};

    ghost ask = { λ group. hearings group.items };

    ghost state = { λ group. None };
}

impl Plain<(u8, Statement, Toss), Group, u64> for Append {
    ghost use Rattle.std.specs.Prelude.{None, ◌∷◌, []};
    ghost use Rattle.member.specs.Groups.{hearing_of};

    ghost ask = { λ one. hearing_of one ∷ [] };

    ghost state = { λ one. None };
}

/// An account without a group, which is of no board yet.
#[derive(Drop)]
pub(crate) struct EmptyAccount {
    count: Word<Group, u64, CountsGroups>,
    seen: Seen<Group, u64, CountsGroups>,
}

impl Model for EmptyAccount {
    ghost use Rattle.std.specs.Prelude.{◌≡◌, []};
    ghost use Rattle.logbook.specs.Pages.{Book};
    ghost use Rattle.node.specs.Accounts.{count_of};

    ghost Value = { Book };

    ghost view = { λ a. a.seen.book };

    ghost invariant = { λ a. (a.seen.log ≡ []) × (a.count ≡ count_of a.seen.book) };
}

impl EmptyAccount {
    /// An account without a group.
    pub(crate) fn new() -> EmptyAccount {
        let (seen, mut first, _second) = Seen::open(Start::alone(), 0, 0);
        EmptyAccount {
            count: Word::tracked(0, &mut first),
            seen,
        }
    }

    /// Its beginning, without a group, for whoever is to see it go on.
    pub(crate) fn sight(&self) -> Sight
        ensures { result ≡ record { account = self.now; log = [] } }
    {
        Sight {
            groups: 0,
            seen: self.seen.again(),
        }
    }

    /// The account of a board.
    pub(crate) fn named<J: Naming>(self) -> Account<J>
        requires { self ≡ J.names.account }
        ensures { result ≡ [] }
    {
        let EmptyAccount { count, seen } = self;
        Account {
            count,
            all: Witness {
                groups: 0,
                seen,
                of: PhantomData,
            },
        }
    }
}

/// A beginning of an account that was reached, of whichever board. Contracts see which account it
/// is, and those groups. It takes 8 bytes.
#[derive(Drop)]
pub(crate) struct Sight {
    groups: u64,
    seen: Seen<Group, u64, CountsGroups>,
}

impl Model for Sight {
    ghost use Rattle.std.specs.Prelude.{◌≡◌, length};
    ghost use Rattle.node.specs.Accounts.{SightView};

    ghost Value = { SightView };

    ghost view = { λ s. record { account = s.seen.book; log = s.seen.log } };

    ghost invariant = { λ s. s.groups ≡ length s.seen.log };
}

impl Sight {
    /// The same for one more.
    pub(crate) fn again(&self) -> Sight
        ensures { result ≡ self.now }
    {
        Sight {
            groups: self.groups,
            seen: self.seen.again(),
        }
    }

    /// Goes on to what was witnessed; false, and nothing changes, if it saw more.
    pub(crate) fn go_on<J: Naming>(&mut self, to: &Witness<J>) -> bool
        requires { self.old.account ≡ J.names.account }
        ensures account { self.new.account ≡ self.old.account }
        ensures log { MatchBool result
            ((self.new.log ≡ to.now) × IsPrefix self.old.log to.now)
            (self.new.log ≡ self.old.log) }
    {
        let mut both = self.seen.again();
        both.learn(&to.seen);
        if to.groups < self.groups {
            return false;
        }
        self.groups = to.groups;
        self.seen = to.seen.again();
        true
    }
}

/// A beginning of an account that was reached. It is known by this that those groups stand in the
/// account. It takes 8 bytes.
#[derive(Drop)]
pub(crate) struct Witness<J: Naming> {
    groups: u64,
    seen: Seen<Group, u64, CountsGroups>,
    of: PhantomData<J>,
}

impl<J: Naming> Model for Witness<J> {
    ghost use Rattle.std.specs.Prelude.{◌≡◌, List, length};
    ghost use Rattle.node.specs.Accounts.{Group};

    ghost Value = { List Group };

    ghost view = { λ w. w.seen.log };

    ghost invariant = { λ w. (w.groups ≡ length w.seen.log) × (w.seen.book ≡ J.names.account) };
}

impl<J: Naming> Witness<J> {
    /// The same for one more.
    pub(crate) fn again(&self) -> Witness<J>
        ensures { result ≡ self.now }
    {
        Witness {
            groups: self.groups,
            seen: self.seen.again(),
            of: PhantomData,
        }
    }

    /// Tells whether it goes on behind the other, which is then its beginning.
    pub(crate) fn is_longer(&self, other: &Witness<J>) -> bool
        ensures { IsTrue result → IsPrefix other.now self.now
            × (length other.now < length self.now) }
    {
        let mut both = self.seen.again();
        both.learn(&other.seen);
        other.groups < self.groups
    }

    /// Tells whether the other is a beginning of it.
    pub(crate) fn begins_with(&self, other: &Witness<J>) -> bool
        ensures { IsTrue result → IsPrefix other.now self.now }
    {
        let mut both = self.seen.again();
        both.learn(&other.seen);
        other.groups <= self.groups
    }

    /// Appends a group to the account of which this is all. False, and nothing is appended, where
    /// the account has more, or as many as it can have.
    fn append<X, M: Plain<X, Group, u64>>(
        &mut self,
        count: &Word<Group, u64, CountsGroups>,
        group: &X,
    ) -> bool
        requires { count.now ≡ count_of J.names.account }
        ensures { MatchBool result (self.new ≡ self.old ++ M.ask group.now ∷ [])
            (self.new ≡ self.old) }
    {
        let groups = self.groups;
        if groups >= MOST {
            return false;
        }
        let mut seen = self.seen.again();
        let mut offer: Offer<Group, u64, CountsGroups, NoGain> = seen.plain::<NoGain, X, M>(group);
        let mut pen = seen.no_pen();
        let found = count.compare_exchange::<Append, NoGain>(
            groups,
            groups + 1,
            &mut seen,
            &mut offer,
            &mut pen,
        );
        if found != groups {
            return false;
        }
        self.groups = groups + 1;
        self.seen = seen;
        true
    }
}

/// An account, and who has it alone lengthens it. Contracts see its groups.
#[derive(Drop)]
pub(crate) struct Account<J: Naming> {
    count: Word<Group, u64, CountsGroups>,
    all: Witness<J>,
}

impl<J: Naming> Model for Account<J> {
    ghost use Rattle.std.specs.Prelude.{◌≡◌, List};
    ghost use Rattle.node.specs.Accounts.{Group, count_of};

    ghost Value = { List Group };

    ghost view = { λ a. a.all };

    ghost invariant = { λ a. a.count ≡ count_of J.names.account };
}

impl<J: Naming> Account<J> {
    /// Appends a group; false, and nothing is appended, where it has as many as it can have.
    pub(crate) fn add(&mut self, group: &Vec<(u8, Statement, Toss)>) -> bool
        ensures { MatchBool result (self.new ≡ self.old ++ hearings group.now.items ∷ [])
            (self.new ≡ self.old) }
    {
        self.all
            .append::<Vec<(u8, Statement, Toss)>, Append>(&self.count, group)
    }

    /// Appends a statement as a group; false, and nothing is appended, where it has as many as it
    /// can have.
    pub(crate) fn add_one(&mut self, one: &(u8, Statement, Toss)) -> bool
        ensures { MatchBool result (self.new ≡ self.old ++ (hearing_of one.now ∷ []) ∷ [])
            (self.new ≡ self.old) }
    {
        self.all
            .append::<(u8, Statement, Toss), Append>(&self.count, one)
    }

    /// All of it, for who is to know that it was reached.
    pub(crate) fn witness(&self) -> Witness<J>
        ensures { result ≡ self.now }
    {
        self.all.again()
    }

    /// Tells whether what was witnessed is a beginning of it.
    pub(crate) fn begins_with(&self, other: &Witness<J>) -> bool
        ensures { IsTrue result → IsPrefix other.now self.now }
    {
        self.all.begins_with(other)
    }
}
