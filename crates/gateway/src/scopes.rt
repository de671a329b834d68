//! The questions that a gateway knows.

ghost use Rattle.std.specs.Prelude.{◌≡◌, ◌<◌, ◌≤◌};
ghost use Rattle.gateway.specs.Scopes.{after, chain_number, epoch_start, next_number, question_count, window_length};

use terms::Size;

/// The fewest questions of a chain that a gateway knows at once.
const FEWEST: usize = 8192;

/// A cluster, or a chain of clusters of one size.
#[derive(Clone, Copy, Debug, PartialEq, Eq)]
pub struct Scope {
    /// The size of the cluster, or of each of the chain.
    pub size: Size,
    /// Set if it is a chain: then a question is a slot, and there is always a next one.
    pub chain: bool,
}

impl Scope {
    /// Returns the number below which a request may name any question: that of the questions, and
    /// in a chain 2^64 - 1.
    #[tactic(auto, unfolding(crate::specs::Scopes::question_count))]
    pub fn questions(&self) -> u64
        ensures { result ≡ question_count self.now }
    {
        if self.chain {
            u64::MAX
        } else {
            u64::from(self.size.questions())
        }
    }

    /// Returns how many questions a gateway knows at once: all of a cluster; of a chain 8,192, or
    /// four epochs if they are more.
    #[tactic(auto, unfolding(crate::specs::Scopes::window_length))]
    pub fn window_length(&self) -> usize
        ensures value { result ≡ window_length self.now }
        ensures few { result ≤ 262144 }
    {
        let questions = usize::from(self.size.questions());
        if self.chain {
            FEWEST.max(4 * questions)
        } else {
            questions
        }
    }

    /// Returns the number from which one follows a member, once it told a decision of this question
    /// to one who followed it from `number` on.
    #[tactic(auto, unfolding(crate::specs::Scopes::next_number))]
    pub fn next_number(&self, number: u64, question: u64) -> u64
        ensures { result ≡ next_number self.now number question }
    {
        if self.chain {
            self.size.recall();
            chain_number(u64::from(self.size.questions()), number, question)
        } else {
            after(number)
        }
    }
}

/// Returns the number from which one follows a member of a chain, once it told a decision of this
/// slot.
fn chain_number(questions: u64, number: u64, slot: u64) -> u64
    requires { 0 < questions }
    ensures { result ≡ chain_number questions number slot }
{
    if slot / questions < number / questions {
        return number;
    }
    if slot / questions == number / questions {
        after(number)
    } else {
        after(epoch_start(questions, slot))
    }
}

/// Returns the number after this one.
fn after(number: u64) -> u64
    ensures { result ≡ after number }
{
    number.saturating_add(1)
}

/// Returns the first slot of the slot's epoch.
pub(crate) fn epoch_start(questions: u64, slot: u64) -> u64
    requires { 0 < questions }
    ensures { result ≡ epoch_start questions slot }
{
    slot / questions * questions
}
