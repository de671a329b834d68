//! The request of a line, whether or not there is such a question.

ghost use Rattle.std.specs.Prelude.{ℕ, ◌≡◌, ◌-◌, ◌<◌, ◌↔◌, ◌∷◌, ◌++◌, List, Bool, Option, Some, length, slice_get, IfSome, IfNone, IsTrue, MatchOption};
ghost use Rattle.desk.specs.Lines.{IsQuestion, IsWord, IsBitWord, IsProposal, IsPropose, Asks, AsksLast, AsksLonger, AsksToFollow, LineAsks, is_return, trimmed};
ghost use Rattle.desk.specs.declared.line.LineRequest.{LineRequest};

use numerals::{behind, first_space, is, number, split_at_space};

/// The most bytes of a line before the byte 10 that ends it.
pub(crate) const LONGEST: usize = 4096;

/// The request of a line.
#[derive(Clone, Copy, Debug, PartialEq, Eq)]
pub(crate) enum LineRequest {
    /// A proposal. The bit is none where another word stands in its place.
    Propose { question: u64, bit: Option<bool> },
    /// The verdict of a question.
    Ask { question: u64 },
    /// The same, once it is there.
    Await { question: u64 },
    /// The member's progress.
    Status,
    /// The statements that were heard of a question that is decided.
    Transcript { question: u64 },
    /// The number of links that are up.
    Links,
    /// To be told how a question stands.
    State { question: u64 },
}

/// Returns what a line of a client asks.
pub(crate) fn read(line: &[u8]) -> Option<LineRequest>
    ensures some { IfSome result (LineAsks line.now) }
    ensures exact { (asked : LineRequest) → LineAsks line.now asked → result ≡ Some asked }
{
    if line.len() > LONGEST {
        return None;
    }
    asked(trimmed(line))
}

/// The number from which on the line asks for decisions, if it asks for that.
pub(crate) fn follows(line: &[u8]) -> Option<u64>
    ensures some { IfSome result (AsksToFollow line.now) }
    ensures none { IfNone result ((number : ℕ) → AsksToFollow line.now number → ⊥) }
{
    match behind(trimmed(line), "FOLLOW ") {
        Some(digits) => question(digits),
        None => None,
    }
}

/// The line without its last byte where that is a 13.
pub(crate) fn trimmed(line: &[u8]) -> &[u8]
    ensures { result.now ≡ trimmed line.now }
{
    if ends_in_return(line) {
        &line[..line.len().saturating_sub(1)]
    } else {
        line
    }
}

/// Returns `true` if the line ends in a byte 13.
fn ends_in_return(line: &[u8]) -> bool
    ensures { result ≡ is_return (slice_get line.now (length line.now - 1)) }
{
    match line.last() {
        Some(byte) => *byte == b'\r',
        None => false,
    }
}

/// The number that one to five decimal digits write.
fn question(digits: &[u8]) -> Option<u64>
    ensures some { IfSome result (IsQuestion digits.now) }
    ensures exact { (question : ℕ) → IsQuestion digits.now question → result ≡ Some question }
{
    if digits.len() > 5 {
        return None;
    }
    match number(digits) {
        Some(question) => Some(question),
        None => None,
    }
}

/// The bit that the word is, none where it is another word.
fn bit(word: &[u8]) -> Option<bool>
    ensures is { IsBitWord word.now result }
    ensures exact { (bit : Option Bool) → IsBitWord word.now bit → result ≡ bit }
{
    if is(word, "0") {
        Some(false)
    } else if is(word, "1") {
        Some(true)
    } else {
        None
    }
}

/// Returns `true` if the text is one word.
fn is_word(text: &[u8]) -> bool
    ensures { IsTrue result ↔ IsWord text.now }
{
    if text.is_empty() {
        return false;
    }
    match first_space(text) {
        Some(_) => false,
        None => true,
    }
}

/// The question and the bit that a proposal has.
fn proposal(text: &[u8]) -> Option<(u64, Option<bool>)>
    ensures some { IfSome result (λ found. IsProposal text.now found.0 found.1) }
    ensures exact { (question : ℕ) (bit : Option Bool) → IsProposal text.now question bit →
        result ≡ Some (question, bit) }
{
    let Some((digits, word)) = split_at_space(text) else {
        return None;
    };
    let Some(question) = question(digits) else {
        return None;
    };
    if is_word(word) {
        Some((question, bit(word)))
    } else {
        None
    }
}

/// Returns what the text proposes.
fn proposed(text: &[u8]) -> Option<LineRequest>
    ensures some { IfSome result (λ asked. IsPropose asked × Asks text.now asked) }
    ensures exact { (asked : LineRequest) → IsPropose asked → Asks text.now asked →
        result ≡ Some asked }
{
    match behind(text, "PROPOSE ") {
        Some(rest) => match proposal(rest) {
            Some((question, bit)) => Some(LineRequest::Propose { question, bit }),
            None => None,
        },
        None => None,
    }
}

/// The request of a text that asks how a question stands, or proposes.
fn asked_last(text: &[u8]) -> Option<LineRequest>
    ensures some { IfSome result (Asks text.now) }
    ensures exact { (asked : LineRequest) → AsksLast asked → Asks text.now asked →
        result ≡ Some asked }
{
    match behind(text, "STATE ") {
        Some(digits) => match question(digits) {
            Some(question) => Some(LineRequest::State { question }),
            None => None,
        },
        None => proposed(text),
    }
}

/// Returns what the text asks.
fn asked(text: &[u8]) -> Option<LineRequest>
    ensures some { IfSome result (Asks text.now) }
    ensures exact { (asked : LineRequest) → Asks text.now asked → result ≡ Some asked }
{
    if is(text, "STATUS") {
        return Some(LineRequest::Status);
    }
    if is(text, "LINKS") {
        return Some(LineRequest::Links);
    }
    match behind(text, "ASK ") {
        Some(digits) => match question(digits) {
            Some(question) => Some(LineRequest::Ask { question }),
            None => None,
        },
        None => asked_longer(text),
    }
}

/// The request of a text that is neither `STATUS`, `LINKS` nor `ASK q`.
fn asked_longer(text: &[u8]) -> Option<LineRequest>
    ensures some { IfSome result (Asks text.now) }
    ensures exact { (asked : LineRequest) → AsksLonger asked → Asks text.now asked →
        result ≡ Some asked }
{
    match behind(text, "AWAIT ") {
        Some(digits) => match question(digits) {
            Some(question) => Some(LineRequest::Await { question }),
            None => None,
        },
        None => match behind(text, "TRANSCRIPT ") {
            Some(digits) => match question(digits) {
                Some(question) => Some(LineRequest::Transcript { question }),
                None => None,
            },
            None => asked_last(text),
        },
    }
}
