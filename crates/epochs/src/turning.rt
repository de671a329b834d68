//! A client's line that names a slot, as the desk of the slot's epoch reads it.

ghost use Rattle.std.specs.Prelude.{ℕ, ◌≡◌, ◌≤◌, ◌↔◌, ◌⊎◌, List, ◌++◌, codes, length, position, take, IfSome, IsNone, IsTrue, MatchOption, Some};
ghost use Rattle.epochs.specs.Lines.{IsBitRest, IsEnd, IsFollowLine, IsFollowed, IsSlotLine, IsWholeRest, NamesSlot, digits_in, epochs_line, is_other, question_line, said_bytes, verb_text};
ghost use Rattle.epochs.specs.declared.said.TheConstants.{MOST};
ghost use Rattle.epochs.specs.declared.turning.Verb.{Verb};

use crate::said::Said;
use itoa::Buffer;
use numerals::{behind, is, number};

/// The most decimal digits of a slot.
const DIGITS: usize = 20;

/// The words of lines that name a slot.
#[derive(Clone, Copy, Debug, PartialEq, Eq)]
pub enum Verb {
    /// `PROPOSE S v`.
    Propose,
    /// `ASK S`.
    Ask,
    /// `AWAIT S`.
    Await,
    /// `TRANSCRIPT S`.
    Transcript,
    /// `STATE S`.
    State,
}

impl Verb {
    /// Returns the word and the space behind it.
    pub fn text(self) -> &'static str
        ensures { result.now ≡ verb_text self }
    {
        match self {
            Verb::Propose => "PROPOSE ",
            Verb::Ask => "ASK ",
            Verb::Await => "AWAIT ",
            Verb::Transcript => "TRANSCRIPT ",
            Verb::State => "STATE ",
        }
    }
}

/// A line that names a slot.
#[derive(Clone, Copy, Debug, PartialEq, Eq)]
pub struct SlotLine<'a> {
    /// Its first word.
    pub verb: Verb,
    /// The slot. `None` if its digits write a number past 2^64 - 1, which no slot has.
    pub slot: Option<u64>,
    /// The bytes behind the digits.
    pub rest: &'a [u8],
}

impl SlotLine<'_> {
    /// Returns the line for the desk of the slot's epoch: the slot is written as that question of
    /// it. What is behind 1,024 bytes is dropped.
    pub fn for_question(&self, question: u16) -> Said
        ensures { said_bytes result
            ≡ take MOST (question_line self.now.verb question self.now.rest.now) }
    {
        let mut digits = Buffer::new();
        let mut said = Said::nothing();
        said.extend(self.verb.text().as_bytes());
        said.extend(digits.format(question).as_bytes());
        said.extend(self.rest);
        said
    }

    /// Returns `true` if the desk of the slot's epoch would take the line: it proposes a bit, or
    /// nothing stands behind the slot of another word.
    pub fn is_whole(&self) -> bool
        ensures { IsTrue result ↔ IsWholeRest self.now.verb self.now.rest.now }
    {
        match self.verb {
            Verb::Propose => is_bit_rest(self.rest),
            Verb::Ask | Verb::Await | Verb::Transcript | Verb::State => is_end(self.rest),
        }
    }

    /// Returns `true` if the line proposes a bit.
    pub fn proposes(&self) -> bool
        ensures { IsTrue result ↔ ((self.now.verb ≡ Verb.Propose) × IsBitRest self.now.rest.now) }
    {
        self.verb == Verb::Propose && is_bit_rest(self.rest)
    }
}

/// Returns `true` if this is a bit behind a space, and the end of a line.
fn is_bit_rest(rest: &[u8]) -> bool
    ensures { IsTrue result ↔ IsBitRest rest.now }
{
    is_bit(rest) || is_bit_and_return(rest)
}

/// Returns `true` if this is a bit behind a space.
fn is_bit(rest: &[u8]) -> bool
    ensures { IsTrue result ↔ ((rest.now ≡ codes " 0") ⊎ (rest.now ≡ codes " 1")) }
{
    is(rest, " 0") || is(rest, " 1")
}

/// Returns `true` if this is a bit behind a space, and a byte 13.
fn is_bit_and_return(rest: &[u8]) -> bool
    ensures { IsTrue result ↔ ((rest.now ≡ codes " 0\r") ⊎ (rest.now ≡ codes " 1\r")) }
{
    is(rest, " 0\r") || is(rest, " 1\r")
}

/// Returns the slot that a line names. `None` if it is no line that names one in one to 20 decimal
/// digits: the desk answers it as it stands.
pub fn slot_line(line: &[u8]) -> Option<SlotLine<'_>>
    ensures some { IfSome result (NamesSlot line.now) }
    ensures none { IsNone result → (verb : Verb) → IsSlotLine line.now verb → ⊥ }
{
    let (verb, text) = verb_of(line)?;
    let count = digits_of(text);
    if count == 0 || count > DIGITS {
        return None;
    }
    Some(SlotLine {
        verb,
        slot: number(&text[..count]),
        rest: &text[count..],
    })
}

/// Returns the word that such a line begins with, and what stands behind it.
fn verb_of(line: &[u8]) -> Option<(Verb, &[u8])>
    ensures some { IfSome result (λ found. line.now ≡ verb_text found.0 ++ found.1.now) }
    ensures exact { (verb : Verb) (text : List ℕ) → line.now ≡ verb_text verb ++ text →
        MatchOption result ⊥ (λ found. (found.0 ≡ verb) × (found.1.now ≡ text)) }
{
    if let Some(rest) = behind(line, "PROPOSE ") {
        return Some((Verb::Propose, rest));
    }
    if let Some(rest) = behind(line, "ASK ") {
        return Some((Verb::Ask, rest));
    }
    if let Some(rest) = behind(line, "AWAIT ") {
        return Some((Verb::Await, rest));
    }
    if let Some(rest) = behind(line, "TRANSCRIPT ") {
        return Some((Verb::Transcript, rest));
    }
    match behind(line, "STATE ") {
        Some(rest) => Some((Verb::State, rest)),
        None => None,
    }
}

/// Returns the number from which on a line asks for decisions, if it asks for that.
pub fn follow_line(line: &[u8]) -> Option<u64>
    ensures some { IfSome result (IsFollowLine line.now) }
    ensures exact { (number : ℕ) → IsFollowLine line.now number → result ≡ Some number }
{
    match behind(line, "FOLLOW ") {
        Some(text) => followed(text),
        None => None,
    }
}

/// Returns the number that stands behind the word of a line that asks for decisions.
fn followed(text: &[u8]) -> Option<u64>
    ensures some { IfSome result (IsFollowed text.now) }
    ensures exact { (number : ℕ) → IsFollowed text.now number → result ≡ Some number }
{
    let count = digits_of(text);
    if count > DIGITS {
        return None;
    }
    if !is_end(&text[count..]) {
        return None;
    }
    number(&text[..count])
}

/// Returns how many decimal digits these bytes begin with.
fn digits_of(text: &[u8]) -> usize
    ensures within { result ≤ length text.now }
    ensures all { result ≡ length (digits_in text.now) }
{
    match first_other(text) {
        Some(count) => count.min(text.len()),
        None => text.len(),
    }
}

/// Returns the place of the first byte that is no decimal digit.
fn first_other(text: &[u8]) -> Option<usize>
    ensures { result ≡ position is_other text.now }
{
    text.iter().position(|byte| !byte.is_ascii_digit())
}

/// Returns `true` if nothing is left of a line, or the byte 13 before its end.
fn is_end(rest: &[u8]) -> bool
    ensures { IsTrue result ↔ IsEnd rest.now }
{
    is(rest, "") || is(rest, "\r")
}

/// Returns `true` if a line asks which epochs are closed.
pub fn asks_epochs(line: &[u8]) -> bool
    ensures { IsTrue result ↔ ((line.now ≡ codes "EPOCHS") ⊎ (line.now ≡ codes "EPOCHS\r")) }
{
    is(line, "EPOCHS") || is(line, "EPOCHS\r")
}

/// Returns `true` if a line asks how a member stands, which the desk of the newest epoch answers.
pub fn asks_standing(line: &[u8]) -> bool
    ensures { IsTrue result ↔ (((line.now ≡ codes "STATUS") ⊎ (line.now ≡ codes "STATUS\r"))
        ⊎ ((line.now ≡ codes "LINKS") ⊎ (line.now ≡ codes "LINKS\r"))) }
{
    asks_status(line) || asks_links(line)
}

/// Returns `true` if a line asks how much a member has said and decided.
fn asks_status(line: &[u8]) -> bool
    ensures { IsTrue result ↔ ((line.now ≡ codes "STATUS") ⊎ (line.now ≡ codes "STATUS\r")) }
{
    is(line, "STATUS") || is(line, "STATUS\r")
}

/// Returns `true` if a line asks for a member's links.
fn asks_links(line: &[u8]) -> bool
    ensures { IsTrue result ↔ ((line.now ≡ codes "LINKS") ⊎ (line.now ≡ codes "LINKS\r")) }
{
    is(line, "LINKS") || is(line, "LINKS\r")
}

/// Returns the reply: the first epoch that isn't closed, and the newest.
pub fn epochs_reply(first: u64, newest: u64) -> Said
    ensures { said_bytes result ≡ epochs_line first newest }
{
    let mut digits = Buffer::new();
    let mut said = Said::nothing();
    said.extend(b"EPOCHS ");
    said.extend(digits.format(first).as_bytes());
    said.extend(b" ");
    said.extend(digits.format(newest).as_bytes());
    said.extend(b"\n");
    said
}
