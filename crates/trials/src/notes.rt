//! Notes that the judge reads off a trace: proposals and decisions, as the texts that stand there.

ghost use Rattle.std.specs.Prelude.{◌≡◌, ◌≤◌, ◌==◌, ◌++◌, drop, length, IfOk, OnOk};
ghost use Rattle.std.specs.List.{filter, flat_map, slice_split};
ghost use Rattle.std.specs.Str.{bytes_eq};
ghost use Rattle.numerals.specs.Sentences.{texts};
ghost use Rattle.trials.specs.Notes as spec;

use std::alloc::{AllocError, Global};
use std::marker::Model;

/// A proposal or a decision, with the words of the trace.
#[derive(Drop)]
pub struct Note<'a> {
    /// `true` for a decision, `false` for a proposal.
    is_decision: bool,
    member: &'a [u8],
    question: &'a [u8],
    /// `0` or `1`, or `zero` or `one` of a proposal.
    bit: &'a [u8],
}

impl<'a> Model for Note<'a> {
    ghost use Rattle.trials.specs.Notes.{NoteFields};

    ghost Value = { NoteFields };

    ghost view = { λ n.
        record {
          is_decision = n.is_decision;
          member = n.member.now;
          question = n.question.now;
          bit = n.bit.now;
        } };
}

impl<'a> Note<'a> {
    /// Returns `true` for a decision, and `false` for a proposal.
    pub fn is_decision(&self) -> bool
        ensures { result ≡ self.now.is_decision }
    {
        self.is_decision
    }

    /// Returns the word of the member.
    pub fn member(&self) -> &'a [u8]
        ensures { result.now ≡ self.now.member }
    {
        self.member
    }

    /// Returns the word of the question.
    pub fn question(&self) -> &'a [u8]
        ensures { result.now ≡ self.now.question }
    {
        self.question
    }

    /// Returns the word of the bit: `0` or `1` of a decision, `zero` or `one` of a proposal.
    pub fn bit(&self) -> &'a [u8]
        ensures { result.now ≡ self.now.bit }
    {
        self.bit
    }
}

/// Returns `true` if the word is this one.
pub fn is_word(word: &[u8], name: &str) -> bool
    ensures { result ≡ bytes_eq word.now name.now }
{
    word == name.as_bytes()
}

/// Returns the notes of a trace, in order.
pub fn notes(alloc: Global, trace: &[u8]) -> Result<Vec<Note<'_>>, AllocError>
    ensures { IfOk result (λ notes. notes.items ≡ spec.notes_of trace.now) }
{
    notes_among(alloc, &lines(alloc, trace)?)
}

/// Returns the notes of these lines, in order.
fn notes_among<'a>(alloc: Global, lines: &[&'a [u8]]) -> Result<Vec<Note<'a>>, AllocError>
    ensures { IfOk result (λ notes. notes.items ≡ flat_map spec.line_notes (texts lines.now)) }
{
    let mut notes = Vec::new(alloc);
    for line in lines {
        add_notes(alloc, &mut notes, line)?;
    }
    Ok(notes)
}

/// Returns the lines of a text, and what stands behind the last.
fn lines(alloc: Global, text: &[u8]) -> Result<Vec<&[u8]>, AllocError>
    ensures { IfOk result (λ lines. texts lines.items ≡ slice_split (λ byte. byte == 10) text.now) }
{
    text.split(|byte| *byte == b'\n').collect(alloc)
}

/// Adds the notes of a line.
fn add_notes<'a>(alloc: Global, notes: &mut Vec<Note<'a>>, line: &'a [u8]) -> Result<(), AllocError>
    ensures { OnOk result (notes.new.items ≡ notes.old.items ++ spec.line_notes line.now) }
{
    let words = words(alloc, line)?;
    add_notes_in(notes, member_in(&words), &words)
}

/// Adds the notes of these words of a line about this member.
fn add_notes_in<'a>(
    notes: &mut Vec<Note<'a>>,
    member: &'a [u8],
    words: &[&'a [u8]],
) -> Result<(), AllocError>
    ensures { OnOk result
        (notes.new.items ≡ notes.old.items ++ spec.notes_in member.now (texts words.now)) }
{
    for place in 0..words.len() {
        add_note(notes, note_at(member, behind(words, place)))?;
    }
    Ok(())
}

/// Adds the note, if there is one.
fn add_note<'a>(notes: &mut Vec<Note<'a>>, note: Option<Note<'a>>) -> Result<(), AllocError>
    ensures { OnOk result (notes.new.items ≡ notes.old.items ++ spec.one_of note.entry) }
{
    if let Some(note) = note {
        notes.push(note)?;
    }
    Ok(())
}

/// Returns the note with which these words begin, in a line about this member.
fn note_at<'a>(member: &'a [u8], words: &[&'a [u8]]) -> Option<Note<'a>>
    ensures { result ≡ spec.note_at member.now (texts words.now) }
{
    if is_decided(words) {
        return Some(Note {
            is_decision: true,
            member,
            question: word_at(words, 1),
            bit: word_at(words, 3),
        });
    }
    if is_proposed(words) {
        return Some(Note {
            is_decision: false,
            member: word_at(words, 2),
            question: word_at(words, 1),
            bit: word_at(words, 5),
        });
    }
    None
}

/// Returns `true` if the words begin with a decision: `decided QUESTION ROUND BIT`.
fn is_decided(words: &[&[u8]]) -> bool
    ensures { result ≡ spec.is_decided (texts words.now) }
{
    is_word(word_at(words, 0), "decided")
}

/// Returns `true` if the words begin with the first Initial of a member, `initial QUESTION MEMBER 1
/// 1 VALUE`.
fn is_proposed(words: &[&[u8]]) -> bool
    ensures { result ≡ spec.is_proposed (texts words.now) }
{
    is_word(word_at(words, 0), "initial")
        && is_word(word_at(words, 3), "1")
        && is_word(word_at(words, 4), "1")
}

/// Returns the words from this place on.
fn behind<'a, 'b>(words: &'b [&'a [u8]], place: usize) -> &'b [&'a [u8]]
    requires { place ≤ length words.now }
    ensures { result.now ≡ drop place words.now }
{
    &words[place..]
}

/// Returns the member whose event the line is about.
fn member_in<'a>(words: &[&'a [u8]]) -> &'a [u8]
    ensures { result.now ≡ spec.member_in (texts words.now) }
{
    if is_own(word_at(words, 1)) {
        word_at(words, 2)
    } else {
        word_at(words, 3)
    }
}

/// Returns `true` if the event names its member first.
fn is_own(event: &[u8]) -> bool
    ensures { result ≡ spec.is_own event.now }
{
    is_word(event, "propose") || is_word(event, "restart")
}

/// Returns the word of that place, or an empty one.
fn word_at<'a>(words: &[&'a [u8]], place: usize) -> &'a [u8]
    ensures { result.now ≡ spec.word_at (texts words.now) place }
{
    match words.get(place) {
        Some(word) => word,
        None => &[],
    }
}

/// Returns `true` if the byte stands between two words: a blank, a comma or a colon.
fn is_mark(byte: u8) -> bool
    ensures { result ≡ spec.is_mark byte }
{
    byte == b' ' || byte == b',' || byte == b':'
}

/// Returns what stands before, between and behind the marks of a line.
fn pieces(alloc: Global, line: &[u8]) -> Result<Vec<&[u8]>, AllocError>
    ensures { IfOk result (λ pieces. texts pieces.items ≡ slice_split spec.is_mark line.now) }
{
    line.split(|byte| is_mark(*byte)).collect(alloc)
}

/// Returns `true` if the word is no empty text.
fn is_some(word: &[u8]) -> bool
    ensures { result ≡ spec.is_some word.now }
{
    !word.is_empty()
}

/// Returns those of the pieces that aren't empty.
fn words_among<'a>(alloc: Global, pieces: &[&'a [u8]]) -> Result<Vec<&'a [u8]>, AllocError>
    ensures { IfOk result (λ words. texts words.items ≡ filter spec.is_some (texts pieces.now)) }
{
    let mut words = Vec::new(alloc);
    for piece in pieces {
        if is_some(piece) {
            words.push(*piece)?;
        }
    }
    Ok(words)
}

/// Returns the words of a line.
fn words(alloc: Global, line: &[u8]) -> Result<Vec<&[u8]>, AllocError>
    ensures { IfOk result (λ words. texts words.items ≡ spec.words_of line.now) }
{
    words_among(alloc, &pieces(alloc, line)?)
}
