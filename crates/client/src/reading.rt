//! Members' words on a question.

ghost use Rattle.std.specs.Prelude.{ℕ, ◌≡◌, ◌<◌, ◌++◌, [], ◌∷◌, List, Bool, false, Option, IsTrue, IsFalse, ◌↔◌};
ghost use Rattle.terms_prelude.specs.Terms.{plain};
ghost use Rattle.client.specs.Readings.{DecidesBy, Reads, decision_with, first_word, size_of};

use terms::{Size, Value};
use votes::Votes;

/// Members' words on one question, and the decision that they make believable. It takes no memory.
#[derive(Clone, Copy, Debug, PartialEq, Eq)]
pub struct Reading {
    size: Size,
    votes: Votes,
    decision: Option<bool>,
}

impl Reading {
    /// A reading for a cluster of that size, before anybody told anything.
    #[tactic(auto, unfolding(crate::specs::Readings::Reads, crate::specs::Readings::size_of))]
    pub fn new(size: Size) -> Reading
        ensures size { size_of result ≡ size }
        ensures nothing { Reads result [] }
    {
        Reading {
            size,
            votes: Votes::none(),
            decision: None,
        }
    }

    /// Takes what a member told: that it decided the question for the bit. Of each member the first
    /// word counts; one that told another bit later lies. False where there is no such member, and
    /// then nothing changed.
    #[tactic(auto, unfolding(crate::specs::Readings::Reads, crate::specs::Readings::size_of))]
    pub fn take(&mut self, member: u8, bit: bool) -> bool
        ensures taken { IsTrue result ↔ member < (size_of self.old).n }
        ensures words { IsTrue result → (words : List (ℕ × Bool)) → Reads self.old words →
            Reads self.new (words ++ (member, bit) ∷ []) }
        ensures same { IsFalse result → self.new ≡ self.old }
        ensures size { size_of self.new ≡ size_of self.old }
    {
        if member >= self.size.n() {
            return false;
        }
        self.size.recall();
        if self.votes.value(false, member).is_none() {
            self.votes = self.votes.with(member, vote(bit));
            self.decision = decision_with(self.size, self.votes, self.decision, bit);
        }
        true
    }

    /// The first bit that more than t members told, if there is one. Where at most t members lie,
    /// it is the decision of each correct member that has one:
    /// [`crate::laws::what_is_read_is_decided`].
    #[tactic(auto, unfolding(crate::specs::Readings::Reads, crate::specs::Readings::size_of))]
    pub fn decision(&self) -> Option<bool>
        ensures { (words : List (ℕ × Bool)) → Reads self.now words →
            DecidesBy (size_of self.now) words result }
    {
        self.decision
    }

    /// The bit that the member told first, if it told one. It needs the decision's: who told
    /// another one lies, where at most t members do.
    #[tactic(auto, unfolding(crate::specs::Readings::Reads))]
    pub fn word_of(&self, member: u8) -> Option<bool>
        ensures { (words : List (ℕ × Bool)) → Reads self.now words → member < 64 →
            result ≡ first_word words member }
    {
        if member >= 64 {
            return None;
        }
        match self.votes.value(false, member) {
            Some(value) => Some(value == Value::One),
            None => None,
        }
    }
}

/// The decision, where the bit has one teller more.
fn decision_with(size: Size, votes: Votes, decision: Option<bool>, bit: bool) -> Option<bool>
    ensures { result ≡ decision_with size votes decision bit }
{
    match decision {
        Some(decided) => Some(decided),
        None => {
            if votes.count(size, false, vote(bit)) > size.t() {
                Some(bit)
            } else {
                None
            }
        }
    }
}

/// The bit as a vote.
fn vote(bit: bool) -> Value
    ensures { result ≡ plain bit }
{
    if bit { Value::One } else { Value::Zero }
}
