//! Who sent which value, in step 3 or in another.
//!
//! `none` begins, and `third` the same in step 3. `with MEMBER VALUE` adds a vote. `value MEMBER`
//! answers what the member sent, or a dash, and `count N VALUE` how many of n members sent a value.
ghost use Rattle.std.specs.Prelude.{◌<◌, IfSome};

use crate::places::name_of;
use std::alloc::Global;
use test_words::{size_of, value_of, words_of};
use votes::Votes;

/// Votes, and whether they are of step 3.
#[derive(Drop)]
pub struct Ballots {
    alloc: Global,
    third: bool,
    votes: Votes,
}

impl Ballots {
    /// Of no vote.
    pub fn new(alloc: Global) -> Ballots {
        Ballots {
            alloc,
            third: false,
            votes: Votes::none(),
        }
    }

    /// Plays a row.
    pub fn told(&mut self, action: &str) -> Option<String> {
        let words = words_of(self.alloc, action)?;
        let (word, rest) = words.as_slice().split_first()?;
        self.worded(word, rest)
    }

    /// Plays a row of this word and of those behind it.
    fn worded(&mut self, word: &str, rest: &[&str]) -> Option<String> {
        match (word, rest) {
            ("none", []) => self.begin(false),
            ("third", []) => self.begin(true),
            ("with", rest) => self.add(rest),
            ("value", rest) => self.value(rest),
            ("count", rest) => self.count(rest),
            _ => None,
        }
    }

    /// Begins, in step 3 or in another.
    fn begin(&mut self, third: bool) -> Option<String> {
        self.third = third;
        self.votes = Votes::none();
        Some(String::new(self.alloc))
    }

    /// Adds a vote.
    fn add(&mut self, words: &[&str]) -> Option<String> {
        let [member, value] = words else {
            return None;
        };
        self.votes = self.votes.with(member_of(member)?, value_of(value)?);
        Some(String::new(self.alloc))
    }

    /// Returns what a member sent.
    fn value(&self, words: &[&str]) -> Option<String> {
        let [member] = words else {
            return None;
        };
        let value = self.votes.value(self.third, member_of(member)?);
        name_of(value).to_string(self.alloc).ok()
    }

    /// Returns how many members sent a value.
    fn count(&self, words: &[&str]) -> Option<String> {
        let [n, value] = words else {
            return None;
        };
        let (size, value) = (size_of(n, "0", "1")?, value_of(value)?);
        format!(in self.alloc; "{}", self.votes.count(size, self.third, value)).ok()
    }
}

/// The number of a member, of 64.
fn member_of(word: &str) -> Option<u8>
    ensures { IfSome result (λ member. member < 64) }
{
    let member: u8 = word.parse().ok()?;
    if member < 64 { Some(member) } else { None }
}
