//! Objects of JSON about questions.

ghost use Rattle.std.specs.Prelude.{◌≡◌, ◌≤◌, ◌++◌, List, IfOk, drop, string_bytes};
ghost use Rattle.client.specs.Readings.{first_word};
ghost use Rattle.gateway.specs.Answers.{TellsQuestion, proposal_object, question_head, escaped, escaped_byte, ready_object, refusal_object, number_item, number_items, says_text, states_front, states_head, states_object, transcript_head, transcript_object, word_item, word_items, yes_or_no};
ghost use Rattle.gateway.specs.Watches.{Watches, watch_first, watch_size, words_on};
ghost use Rattle.gateway.specs.declared.watch.Told.{Told};

use crate::queries::Position;
use crate::requests::{Refusal, word_of};
use crate::standings::{Stage, Standing, standing_fields, standing_of, states_text};
use crate::watch::Watch;
use std::alloc::{AllocError, Global};

/// Returns the object of JSON of a question that isn't before the watch's window: its state, and
/// what each member told. A decision in it is one that more than t members told; before there is
/// one the state is that of the stage.
///
/// # Errors
///
/// [`AllocError`] if an allocation failed.
pub fn question_text(
    alloc: Global,
    watch: &Watch,
    question: u64,
    stage: Stage,
) -> Result<Vec<u8>, AllocError>
    ensures { (heard : List Told) → Watches watch.now heard → watch_first watch.now ≤ question →
        IfOk result (λ bytes. TellsQuestion
        (watch_size watch.now) heard question stage bytes.items) }
{
    let standing = standing_of(watch.decision(question), stage);
    let n = watch.size().n();
    let head = question_head(alloc, question, standing)?;
    let items = word_items(alloc, watch, question, n)?;
    joined(
        alloc,
        head.as_bytes(),
        behind_first(items.as_bytes()),
        b"]}\n",
    )
}

/// Returns what stands before the members' items.
fn question_head(alloc: Global, question: u64, standing: Standing) -> Result<String, AllocError>
    ensures { IfOk result (λ text. string_bytes text ≡ question_head question standing) }
{
    format!(in alloc;
        "{{\"question\":{question},{},\"members\":[",
        standing_fields(standing)
    )
}

/// Returns the items of all members, with a comma before each.
fn word_items(alloc: Global, watch: &Watch, question: u64, n: u8) -> Result<String, AllocError>
    requires { n ≤ 64 }
    ensures { (heard : List Told) → Watches watch.now heard → watch_first watch.now ≤ question →
        IfOk result (λ text. string_bytes text
        ≡ word_items (first_word (words_on question heard)) 0 n) }
{
    let mut text = String::new(alloc);
    for member in 0..n {
        let item = word_item(alloc, member, watch.word_of(question, member))?;
        text.push_str(item.as_str())?;
    }
    Ok(text)
}

/// Returns a member's item behind a comma.
fn word_item(alloc: Global, member: u8, word: Option<bool>) -> Result<String, AllocError>
    ensures { IfOk result (λ text. string_bytes text ≡ word_item member word) }
{
    format!(in alloc; ",{{\"member\":{member},\"says\":{}}}", says_text(word))
}

/// Returns the object of JSON of a proposal: the question's state, how many members took the bit,
/// and how many had one.
///
/// # Errors
///
/// [`AllocError`] if an allocation failed.
pub fn proposal_text(
    alloc: Global,
    question: u64,
    standing: Standing,
    taken: u8,
    have: u8,
) -> Result<String, AllocError>
    ensures { IfOk result
        (λ text. string_bytes text ≡ proposal_object question standing taken have) }
{
    format!(in alloc;
        "{{\"question\":{question},{},\"taken\":{taken},\"have\":{have}}}\n",
        standing_fields(standing)
    )
}

/// Returns the object of JSON of a refusal.
///
/// # Errors
///
/// [`AllocError`] if an allocation failed.
pub fn refusal_text(alloc: Global, refusal: Refusal) -> Result<String, AllocError>
    ensures { IfOk result (λ text. string_bytes text ≡ refusal_object refusal) }
{
    format!(in alloc; "{{\"error\":\"{}\"}}\n", word_of(refusal))
}

/// A transcript that a member sent.
#[derive(Clone, Copy, Debug, PartialEq, Eq)]
pub struct Transcript<'a> {
    /// The question.
    pub question: u64,
    /// The bit that it is for.
    pub bit: bool,
    /// The member.
    pub member: u8,
    /// Set if its statements are proof of the bit.
    pub proven: bool,
    /// Its lines, each with its end.
    pub text: &'a [u8],
}

/// Returns the object of JSON of a transcript: its lines, and what an audit says of it. The lines
/// have nothing but digits, letters and blanks.
///
/// # Errors
///
/// [`AllocError`] if an allocation failed.
pub fn transcript_text(alloc: Global, told: &Transcript<'_>) -> Result<Vec<u8>, AllocError>
    ensures { IfOk result (λ bytes. bytes.items ≡ transcript_object told.now) }
{
    let head = transcript_head(alloc, told)?;
    let lines = escaped(alloc, told.text)?;
    joined(alloc, head.as_bytes(), &lines, b"\"}\n")
}

/// Returns what stands before the lines of a transcript.
fn transcript_head(alloc: Global, told: &Transcript<'_>) -> Result<String, AllocError>
    ensures { IfOk result (λ text. string_bytes text ≡ transcript_head told.now) }
{
    format!(in alloc;
        "{{\"question\":{},\"bit\":{},\"member\":{},\"audit\":\"{}\",\"transcript\":\"",
        told.question,
        says_text(Some(told.bit)),
        told.member,
        yes_or_no(told.proven)
    )
}

/// Returns the word of an audit.
fn yes_or_no(proven: bool) -> &'static str
    ensures { result.now ≡ yes_or_no proven }
{
    if proven { "yes" } else { "no" }
}

/// Returns the lines of a transcript as a text of JSON has them.
fn escaped(alloc: Global, text: &[u8]) -> Result<Vec<u8>, AllocError>
    ensures { IfOk result (λ bytes. bytes.items ≡ escaped text.now) }
{
    let mut bytes = Vec::new(alloc);
    for byte in text {
        push_escaped(&mut bytes, *byte)?;
    }
    Ok(bytes)
}

/// Appends a byte of a transcript as a text of JSON has it.
fn push_escaped(text: &mut Vec<u8>, byte: u8) -> Result<(), AllocError>
    ensures { IfOk result (λ _. text.new.items ≡ text.old.items ++ escaped_byte byte) }
{
    if byte == b'\n' {
        return text.extend_from_slice(b"\\n");
    }
    text.extend_from_slice(&[byte])
}

/// Returns JSON for what a member told.
pub(crate) fn says_text(word: Option<bool>) -> &'static str
    ensures { result.now ≡ says_text word }
{
    match word {
        None => "null",
        Some(false) => "0",
        Some(true) => "1",
    }
}

/// The moment at which states were looked at.
#[derive(Clone, Copy, Debug, PartialEq, Eq)]
pub struct Moment {
    /// The number of questions of the cluster, or of each of a chain.
    pub questions: u16,
    /// The first question that is told.
    pub from: u64,
    /// The question after the last.
    pub to: u64,
    /// The last event before the moment.
    pub after: Position,
}

/// Returns the object of JSON of these questions: a letter for each, the number of decisions in
/// each of the last seconds, and the position from which the stream goes on.
///
/// # Errors
///
/// [`AllocError`] if an allocation failed.
pub fn questions_text(
    alloc: Global,
    moment: &Moment,
    lately: &[u32],
    standings: &[Standing],
) -> Result<Vec<u8>, AllocError>
    ensures { IfOk result
        (λ bytes. bytes.items ≡ states_object moment.now lately.now standings.now) }
{
    let front = states_front(alloc, moment, lately)?;
    let letters = states_text(alloc, standings)?;
    joined(alloc, &front, &letters, b"\"}\n")
}

/// Returns what stands before the letters of questions.
fn states_front(alloc: Global, moment: &Moment, lately: &[u32]) -> Result<Vec<u8>, AllocError>
    ensures { IfOk result (λ bytes. bytes.items ≡ states_front moment.now lately.now) }
{
    let head = states_head(alloc, moment)?;
    let items = number_items(alloc, lately)?;
    joined(
        alloc,
        head.as_bytes(),
        behind_first(items.as_bytes()),
        b"],\"states\":\"",
    )
}

/// Returns what stands before the numbers of the last seconds.
fn states_head(alloc: Global, moment: &Moment) -> Result<String, AllocError>
    ensures { IfOk result (λ text. string_bytes text ≡ states_head moment.now) }
{
    format!(in alloc;
        "{{\"questions\":{},\"from\":{},\"to\":{},\"life\":\"{}\",\"after\":{},\"lately\":[",
        moment.questions, moment.from, moment.to, moment.after.life, moment.after.number
    )
}

/// Returns numbers, with a comma before each.
fn number_items(alloc: Global, numbers: &[u32]) -> Result<String, AllocError>
    ensures { IfOk result (λ text. string_bytes text ≡ number_items numbers.now) }
{
    let mut text = String::new(alloc);
    for number in numbers {
        let item = number_item(alloc, *number)?;
        text.push_str(item.as_str())?;
    }
    Ok(text)
}

/// Returns a number behind a comma.
fn number_item(alloc: Global, number: u32) -> Result<String, AllocError>
    ensures { IfOk result (λ text. string_bytes text ≡ number_item number) }
{
    format!(in alloc; ",{number}")
}

/// Returns the text without its first byte.
pub(crate) fn behind_first(bytes: &[u8]) -> &[u8]
    ensures { result.now ≡ drop 1 bytes.now }
{
    match bytes {
        [_, rest @ ..] => rest,
        _ => bytes,
    }
}

/// Returns a text of three parts.
pub(crate) fn joined(
    alloc: Global,
    front: &[u8],
    middle: &[u8],
    end: &[u8],
) -> Result<Vec<u8>, AllocError>
    ensures { IfOk result (λ bytes. bytes.items ≡ (front.now ++ middle.now) ++ end.now) }
{
    let mut bytes = Vec::new(alloc);
    bytes.extend_from_slice(front)?;
    bytes.extend_from_slice(middle)?;
    bytes.extend_from_slice(end)?;
    Ok(bytes)
}

/// Returns the object of JSON that says if the cluster can decide.
pub fn ready_text(ready: bool) -> &'static str
    ensures { result.now ≡ ready_object ready }
{
    if ready {
        "{\"ready\":true}\n"
    } else {
        "{\"ready\":false}\n"
    }
}
