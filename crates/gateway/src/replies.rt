//! The lines of a desk, as the gateway reads them: begin at `reply_of`.

ghost use Rattle.std.specs.Prelude.{◌≡◌, ◌∷◌, ◌++◌, ◌↔◌, ℕ, Bool, List, IfSome, IsNone, IsTrue, Some};
ghost use Rattle.numerals.specs.Numbers.{IsBelow};
ghost use Rattle.gateway.specs.Motions.{bit_text};
ghost use Rattle.gateway.specs.Replies.{AreLinks, AreQuestionAndBit, AreTwo, Says, Tells, TellsNoNumbers, TellsNoWord};
ghost use Rattle.gateway.specs.declared.replies.Reply.TheVariants.{Decided, Epochs, Have, Links, Spent, Stopped, Taken, Told, Up};

use crate::motions::bit_in;
use crate::queries::both_numbers;
use numerals::{behind, is, number, split_at_space};

/// A line of a desk.
#[derive(Clone, Copy, Debug, PartialEq, Eq)]
pub enum Reply {
    /// The member decided the question so: a line to a follower.
    Decided {
        /// The question.
        question: u64,
        /// The bit.
        bit: bool,
    },
    /// The member is up: the reply to `STATUS`.
    Up {
        /// The number of its statements.
        statements: u64,
        /// The number of its decisions.
        decided: u64,
    },
    /// The member's links: the reply to `LINKS`.
    Links {
        /// The number of links that come in.
        coming: u64,
        /// The number of links that go out.
        going: u64,
    },
    /// The epochs of a member of a chain: the reply to `EPOCHS`.
    Epochs {
        /// The first epoch that isn't closed.
        closed: u64,
        /// The newest epoch.
        newest: u64,
    },
    /// The member took a proposal.
    Taken,
    /// The member had a proposal.
    Have,
    /// The member decided the question so: a reply to `PROPOSE` or `STATE`.
    Told(bool),
    /// The member came to the last step of the question's last round: a reply to `STATE`.
    Spent,
    /// The member is stopped.
    Stopped,
    /// Any other line.
    Other,
}

/// Returns what a line of a desk says.
pub fn reply_of(line: &[u8]) -> Reply
    ensures { Says line.now result }
{
    match numbered_reply(line) {
        Some(reply) => reply,
        None => match short_reply(line) {
            Some(reply) => reply,
            None => Reply::Other,
        },
    }
}

/// Returns the reply of a line that has a decision for a follower, counts, links or epochs.
fn numbered_reply(line: &[u8]) -> Option<Reply>
    ensures some { IfSome result (Tells line.now) }
    ensures none { IsNone result → TellsNoNumbers line.now }
{
    match decided_reply(line) {
        Some(reply) => Some(reply),
        None => match up_reply(line) {
            Some(reply) => Some(reply),
            None => match links_reply(line) {
                Some(reply) => Some(reply),
                None => epochs_reply(line),
            },
        },
    }
}

/// Returns the decision that the line tells a follower.
fn decided_reply(line: &[u8]) -> Option<Reply>
    ensures some { IfSome result (Tells line.now) }
    ensures none { IsNone result → (question : ℕ) (bit : Bool) →
        Tells line.now (Decided question bit) → ⊥ }
{
    match behind(line, "DECIDED ") {
        Some(words) => match question_and_bit(words) {
            Some((question, bit)) => Some(Reply::Decided { question, bit }),
            None => None,
        },
        None => None,
    }
}

/// Returns the question and the bit that the words write.
fn question_and_bit(words: &[u8]) -> Option<(u64, bool)>
    ensures some { IfSome result (λ found. AreQuestionAndBit words.now found.0 found.1) }
    ensures exact { (question : ℕ) (bit : Bool) → AreQuestionAndBit words.now question bit →
        result ≡ Some (question, bit) }
{
    match split_at_space(words) {
        Some((digits, word)) => number_and_bit(digits, word),
        None => None,
    }
}

/// Returns the number that the digits write, and the bit that the word writes.
fn number_and_bit(digits: &[u8], word: &[u8]) -> Option<(u64, bool)>
    ensures some { IfSome result
        (λ found. IsBelow 64 digits.now found.0 × (word.now ≡ bit_text found.1)) }
    ensures exact { (question : ℕ) (bit : Bool) → IsBelow 64 digits.now question →
        word.now ≡ bit_text bit → result ≡ Some (question, bit) }
{
    match number(digits) {
        Some(question) => match bit_in(word) {
            Some(bit) => Some((question, bit)),
            None => None,
        },
        None => None,
    }
}

/// Returns the counts that the line tells.
fn up_reply(line: &[u8]) -> Option<Reply>
    ensures some { IfSome result (Tells line.now) }
    ensures none { IsNone result → (statements decided : ℕ) →
        Tells line.now (Up statements decided) → ⊥ }
{
    match behind(line, "UP ") {
        Some(words) => match two_numbers(words) {
            Some((statements, decided)) => Some(Reply::Up {
                statements,
                decided,
            }),
            None => None,
        },
        None => None,
    }
}

/// Returns the links that the line tells.
fn links_reply(line: &[u8]) -> Option<Reply>
    ensures some { IfSome result (Tells line.now) }
    ensures none { IsNone result → (coming going : ℕ) →
        Tells line.now (Links coming going) → ⊥ }
{
    match behind(line, "LINKS ") {
        Some(words) => match two_links(words) {
            Some((coming, going)) => Some(Reply::Links { coming, going }),
            None => None,
        },
        None => None,
    }
}

/// Returns the first two of the numbers that the words write.
fn two_links(words: &[u8]) -> Option<(u64, u64)>
    ensures some { IfSome result (λ found. AreLinks words.now found.0 found.1) }
    ensures exact { (coming going : ℕ) → AreLinks words.now coming going →
        result ≡ Some (coming, going) }
{
    match split_at_space(words) {
        Some((first, rest)) => links_from(first, rest),
        None => None,
    }
}

/// Returns the number that the digits write, and the first of those that the rest writes.
fn links_from(first: &[u8], rest: &[u8]) -> Option<(u64, u64)>
    ensures some { IfSome result (λ found. (second : List ℕ) × (more : List ℕ)
        × (rest.now ≡ second ++ 32 ∷ more) × IsBelow 64 first.now found.0
        × IsBelow 64 second found.1) }
    ensures exact { (coming going : ℕ) (second more : List ℕ) →
        rest.now ≡ second ++ 32 ∷ more → IsBelow 64 first.now coming →
        IsBelow 64 second going → result ≡ Some (coming, going) }
{
    match split_at_space(rest) {
        Some((second, _more)) => both_numbers(first, second),
        None => None,
    }
}

/// Returns the epochs that the line tells.
fn epochs_reply(line: &[u8]) -> Option<Reply>
    ensures some { IfSome result (Tells line.now) }
    ensures none { IsNone result → (closed newest : ℕ) →
        Tells line.now (Epochs closed newest) → ⊥ }
{
    match behind(line, "EPOCHS ") {
        Some(words) => match two_numbers(words) {
            Some((closed, newest)) => Some(Reply::Epochs { closed, newest }),
            None => None,
        },
        None => None,
    }
}

/// Returns the two numbers that the words write.
fn two_numbers(words: &[u8]) -> Option<(u64, u64)>
    ensures some { IfSome result (λ found. AreTwo words.now found.0 found.1) }
    ensures exact { (first second : ℕ) → AreTwo words.now first second →
        result ≡ Some (first, second) }
{
    match split_at_space(words) {
        Some((first, second)) => both_numbers(first, second),
        None => None,
    }
}

/// Returns the reply of a line that has no number of questions, statements, links or epochs.
fn short_reply(line: &[u8]) -> Option<Reply>
    ensures some { IfSome result (Tells line.now) }
    ensures none { IsNone result → TellsNoWord line.now }
{
    match told_reply(line) {
        Some(reply) => Some(reply),
        None => plain_reply(line),
    }
}

/// Returns the decision that the line tells to one who asked for the question.
fn told_reply(line: &[u8]) -> Option<Reply>
    ensures some { IfSome result (Tells line.now) }
    ensures none { IsNone result → (bit : Bool) → Tells line.now (Told bit) → ⊥ }
{
    match behind(line, "DECIDED ") {
        Some(word) => match bit_in(word) {
            Some(bit) => Some(Reply::Told(bit)),
            None => None,
        },
        None => None,
    }
}

/// Returns the reply of a line that has no number and no decision.
fn plain_reply(line: &[u8]) -> Option<Reply>
    ensures some { IfSome result (Tells line.now) }
    ensures taken { IsNone result → Tells line.now Taken → ⊥ }
    ensures have { IsNone result → Tells line.now Have → ⊥ }
    ensures spent { IsNone result → Tells line.now Spent → ⊥ }
    ensures stopped { IsNone result → Tells line.now Stopped → ⊥ }
{
    if is(line, "OK") {
        Some(Reply::Taken)
    } else if is(line, "STOPPED") {
        Some(Reply::Stopped)
    } else if is(line, "SPENT") {
        Some(Reply::Spent)
    } else if is_had(line) {
        Some(Reply::Have)
    } else {
        None
    }
}

/// Returns `true` if the line is that of a member that had a proposal.
fn is_had(line: &[u8]) -> bool
    ensures { IsTrue result ↔ Tells line.now Have }
{
    is(line, "HAVE 0") || is(line, "HAVE 1")
}
