//! Members' words on one question, and what the commands over a whole cluster print of them.

ghost use Rattle.std.specs.Prelude.{ℕ, Bool, List, [], ◌≡◌, ◌≢◌, ◌∷◌, ◌++◌, ◌↔◌, Err, IfOk, IfSome, IsNone, IsTrue, None, false, string_bytes, true};
ghost use Rattle.std.specs.Io.KnownBytes.{Appends};
ghost use Rattle.commands.specs.Surveys.{IsTranscriptOf, IsWord, TakesPart, bit_number, bit_remark, later_word, next_of, next_of_other, one_remark, remark, remarks_from, status_for, transcript_head, zero_remark};
ghost use Rattle.commands.specs.Talks.{TellsDecision, decision_object, decision_reply};
ghost use Rattle.commands.specs.declared.fault.TalkFault.TheVariants.{NoAnswer};

use crate::client::{decision_object, decision_of, decision_reply, tell};
use crate::fault::TalkFault;
use numerals::{behind, is};
use std::alloc::{AllocError, Global};
use std::io::Write;

/// A member's word on a question.
#[derive(Clone, Copy, Debug, PartialEq, Eq)]
pub enum Word {
    /// No reply came.
    Silent,
    /// The member takes part, and told no decision yet.
    Undecided,
    /// The member told this decision.
    Decided(bool),
    /// Another reply.
    Other,
}

/// The line that a member is sent after its word.
#[derive(Clone, Copy, Debug, PartialEq, Eq)]
pub enum Next {
    /// The first one, over a new connection.
    Begin,
    /// The one that waits for the decision.
    Wait,
    /// None: the member told its decision.
    End,
}

/// Returns the word that a reply of a desk is.
pub fn word_of(reply: &[u8]) -> Word
    ensures { IsWord reply.now result }
{
    match decision_of(reply) {
        Some(bit) => Word::Decided(bit),
        None => undecided_word(reply),
    }
}

/// Returns the word of a reply that tells no decision.
fn undecided_word(reply: &[u8]) -> Word
    ensures { TellsDecision reply.now None → IsWord reply.now result }
{
    if takes_part(reply) {
        Word::Undecided
    } else {
        Word::Other
    }
}

/// Returns `true` if the reply is one of a member that takes part and tells no decision.
fn takes_part(reply: &[u8]) -> bool
    ensures { IsTrue result ↔ TakesPart reply.now }
{
    is(reply, "UNDECIDED") || is(reply, "OK") || is(reply, "HAVE 0") || is(reply, "HAVE 1")
}

/// Returns a member's word once it said another one: a decision that it told stays, since of each
/// member its first counts.
pub fn later_word(word: Word, other: Word) -> Word
    ensures { result ≡ later_word word other }
{
    match word {
        Word::Decided(bit) => Word::Decided(bit),
        Word::Silent | Word::Undecided | Word::Other => other,
    }
}

/// Returns the line that a member is sent after its word, which is its reply to the first line or
/// to the one that waits.
pub fn next_of(word: Word, first: bool) -> Next
    ensures { result ≡ next_of word first }
{
    match word {
        Word::Undecided => Next::Wait,
        Word::Decided(_) => Next::End,
        Word::Silent => Next::Begin,
        Word::Other => next_of_other(first),
    }
}

/// The line after another reply: the one that waits, if the first line got it, since a member that
/// is stopped still tells what it decided.
fn next_of_other(first: bool) -> Next
    ensures { result ≡ next_of_other first }
{
    if first { Next::Wait } else { Next::Begin }
}

/// Returns the lines that tell people which members, by number, said something else than the
/// decision that is printed, or nothing.
pub fn remarks(alloc: Global, words: &[Word], decision: Option<bool>) -> Result<String, AllocError>
    ensures { IfOk result (λ text. string_bytes text ≡ remarks_from 0 words.now decision) }
{
    let mut text = String::new(alloc);
    for member in 0..words.len() {
        let line = remark(alloc, member, words[member], decision)?;
        text.push_str(line.as_str())?;
    }
    Ok(text)
}

/// The line that tells people of a member's word, if it isn't what is printed; else nothing.
fn remark(
    alloc: Global,
    member: usize,
    word: Word,
    decision: Option<bool>,
) -> Result<String, AllocError>
    ensures { IfOk result (λ text. string_bytes text ≡ remark member word decision) }
{
    match word {
        Word::Silent => format!(in alloc; "bracha: member {member} doesn't answer\n"),
        Word::Other => format!(in alloc; "bracha: member {member} has another reply\n"),
        Word::Undecided => Ok(String::new(alloc)),
        Word::Decided(bit) => bit_remark(alloc, member, bit, decision),
    }
}

/// The line of a member that says this bit, if that isn't what is printed.
fn bit_remark(
    alloc: Global,
    member: usize,
    bit: bool,
    decision: Option<bool>,
) -> Result<String, AllocError>
    ensures { IfOk result (λ text. string_bytes text ≡ bit_remark member bit decision) }
{
    if bit {
        one_remark(alloc, member, decision)
    } else {
        zero_remark(alloc, member, decision)
    }
}

/// The line of a member that says 1, if that isn't what is printed.
fn one_remark(alloc: Global, member: usize, decision: Option<bool>) -> Result<String, AllocError>
    ensures { IfOk result (λ text. string_bytes text ≡ one_remark member decision) }
{
    match decision {
        Some(true) => Ok(String::new(alloc)),
        Some(false) | None => format!(in alloc; "bracha: member {member} says 1\n"),
    }
}

/// The line of a member that says 0, if that isn't what is printed.
fn zero_remark(alloc: Global, member: usize, decision: Option<bool>) -> Result<String, AllocError>
    ensures { IfOk result (λ text. string_bytes text ≡ zero_remark member decision) }
{
    match decision {
        Some(false) => Ok(String::new(alloc)),
        Some(true) | None => format!(in alloc; "bracha: member {member} says 0\n"),
    }
}

/// Writes the decision that may be believed, or that there is none, as a line or as an object of
/// JSON. The status is 0 for a decision, and 1 else.
///
/// [`TalkFault::Stream`]: the write failed. [`TalkFault::Memory`]: memory was refused.
pub fn tell_decision<W: Write>(
    alloc: Global,
    decision: Option<bool>,
    json: bool,
    output: &mut W,
) -> Result<u8, TalkFault>
    ensures status { IfOk result (λ status. status ≡ status_for decision) }
    ensures line { json ≡ false →
        IfOk result (λ _. Appends (W.contents output.old) (W.contents output.new)
        (decision_reply decision ++ 10 ∷ [])) }
    ensures object { json ≡ true →
        IfOk result (λ _. Appends (W.contents output.old) (W.contents output.new)
        (decision_object decision ++ 10 ∷ [])) }
    ensures only { result ≢ Err NoAnswer }
{
    let mut line = Vec::new(alloc);
    line.extend_from_slice(decision_text(decision, json).as_bytes())?;
    match tell(line, output) {
        Ok(_) => Ok(status_for(decision)),
        Err(fault) => Err(fault),
    }
}

/// Returns the reply that tells the decision, or the object of JSON that says the same.
fn decision_text(decision: Option<bool>, json: bool) -> &'static str
    ensures line { json ≡ false → result.now ≡ decision_reply decision }
    ensures object { json ≡ true → result.now ≡ decision_object decision }
{
    if json {
        decision_object(decision)
    } else {
        decision_reply(decision)
    }
}

/// The status for a decision that may be believed, or for none.
fn status_for(decision: Option<bool>) -> u8
    ensures { result ≡ status_for decision }
{
    match decision {
        Some(_) => 0,
        None => 1,
    }
}

/// Returns the bit of a text that begins as a transcript of this question; none if it doesn't.
pub fn transcript_bit(alloc: Global, text: &[u8], question: u16) -> Result<Option<bool>, AllocError>
    ensures some { IfOk result
        (λ found. IfSome found (λ bit. IsTranscriptOf question (bit_number bit) text.now)) }
    ensures none { IfOk result
        (λ found. IsNone found → (bit : Bool) → IsTranscriptOf question (bit_number bit) text.now →
        ⊥) }
{
    if is_transcript_of(alloc, text, question, 0)? {
        return Ok(Some(false));
    }
    if is_transcript_of(alloc, text, question, 1)? {
        return Ok(Some(true));
    }
    Ok(None)
}

/// Returns `true` if the text begins as a transcript of the question and the bit.
fn is_transcript_of(alloc: Global, text: &[u8], question: u16, bit: u8) -> Result<bool, AllocError>
    ensures { IfOk result (λ found. IsTrue found ↔ IsTranscriptOf question bit text.now) }
{
    let head = transcript_head(alloc, question, bit)?;
    Ok(begins(text, head.as_str()))
}

/// The beginning of a transcript of the question and the bit.
fn transcript_head(alloc: Global, question: u16, bit: u8) -> Result<String, AllocError>
    ensures { IfOk result (λ text. string_bytes text ≡ transcript_head question bit) }
{
    format!(in alloc; "transcript {question} bit {bit} ")
}

/// Returns `true` if the text begins with this one.
fn begins(text: &[u8], head: &str) -> bool
    ensures { IsTrue result ↔ ((rest : List ℕ) × (text.now ≡ head.now ++ rest)) }
{
    match behind(text, head) {
        Some(_rest) => true,
        None => false,
    }
}
