//! Members' words, and what the commands over a whole cluster print of them.
//!
//! `reply LINE` answers the word that a desk's reply is, and what the member is sent after it, as a
//! reply to the first line and to the one that waits: `begin`, `wait` or `end`. `then WORD WORD`
//! answers the word that counts after both. `tell BIT WORD ..` answers what is printed of a
//! decision, which may be `none`, and of members' words: the status, the line, and the lines on the
//! standard error, with `|` before each. A WORD is `silent`, `undecided`, `other`, or the bit that
//! was told. `head Q TEXT` answers the bit of a text that begins as a transcript of question Q, or
//! `none`. `epochs REPLY/REPLY/..` answers what is printed of members that replied so to `EPOCHS`,
//! where nothing between two slashes is no reply: the status, and the lines, with `|` before each.
//! `epochs-json` answers the object.

use crate::lists::with_lines;
use commands::{
    Next, Told, Word, later_word, next_of, remarks, tell_decision, tell_epochs, told_of,
    transcript_bit, word_of,
};
use std::alloc::Global;
use test_words::Output;

/// Plays a row.
pub fn told(alloc: Global, action: &str) -> Option<String> {
    let (name, rest) = action.split_once(' ')?;
    match name {
        "reply" => replied(alloc, rest),
        "head" => headed(alloc, rest),
        "then" => followed(alloc, rest),
        "epochs" => closed(alloc, rest, false),
        "epochs-json" => closed(alloc, rest, true),
        "tell" => told_of_all(alloc, rest),
        _ => None,
    }
}

/// The answer to a reply.
fn replied(alloc: Global, reply: &str) -> Option<String> {
    let word = word_of(reply.as_bytes());
    let (first, later) = (
        next_name(next_of(word, true)),
        next_name(next_of(word, false)),
    );
    format!(in alloc; "{} {first} {later}", name_of(word)).ok()
}

/// The name of what a member is sent.
fn next_name(next: Next) -> &'static str {
    match next {
        Next::Begin => "begin",
        Next::Wait => "wait",
        Next::End => "end",
    }
}

/// The answer to a text.
fn headed(alloc: Global, row: &str) -> Option<String> {
    let (question, text) = row.split_once(' ')?;
    let question: u16 = question.parse().ok()?;
    let name = match transcript_bit(alloc, text.as_bytes(), question).ok()? {
        None => "none",
        Some(bit) => name_of(Word::Decided(bit)),
    };
    String::from_str(alloc, name).ok()
}

/// The word that counts after two.
fn followed(alloc: Global, row: &str) -> Option<String> {
    let (first, second) = row.split_once(' ')?;
    let word = later_word(word_named(first)?, word_named(second)?);
    String::from_str(alloc, name_of(word)).ok()
}

/// The name of a word.
fn name_of(word: Word) -> &'static str {
    match word {
        Word::Silent => "silent",
        Word::Undecided => "undecided",
        Word::Other => "other",
        Word::Decided(bit) => { if bit { "1" } else { "0" } }
    }
}

/// The answer to replies to `EPOCHS`.
fn closed(alloc: Global, replies: &str, json: bool) -> Option<String> {
    let words = replies_of(alloc, replies)?;
    let mut output = Output::new(alloc);
    match tell_epochs(alloc, &words, json, &mut output) {
        Ok(status) => status_text(alloc, status, output.text()?),
        Err(_) => None,
    }
}

/// The words on their epochs of members that replied so.
fn replies_of(alloc: Global, replies: &str) -> Option<Vec<Told>> {
    let mut words = Vec::new(alloc);
    for reply in replies.split('/') {
        words.push(epochs_of(alloc, reply)?).ok()?;
    }
    Some(words)
}

/// The word on its epochs of a member that replied so, or not at all.
fn epochs_of(alloc: Global, reply: &str) -> Option<Told> {
    if reply.is_empty() {
        return Some(told_of(None));
    }
    let bytes = Vec::from_slice(alloc, reply.as_bytes()).ok()?;
    Some(told_of(Some(bytes)))
}

/// A status, and the lines behind it.
fn status_text(alloc: Global, status: u8, lines: &str) -> Option<String> {
    with_lines(format!(in alloc; "{status}").ok()?, lines)
}

/// The answer to a decision and words.
fn told_of_all(alloc: Global, row: &str) -> Option<String> {
    let (decision, names) = row.split_once(' ')?;
    let decision = decision_named(decision)?;
    let said = said_of(alloc, names)?;
    match remarks(alloc, &said, decision) {
        Ok(errors) => with_lines(decision_text(alloc, decision)?, errors.as_str()),
        Err(_) => None,
    }
}

/// The words of these names.
fn said_of(alloc: Global, names: &str) -> Option<Vec<Word>> {
    let mut said = Vec::new(alloc);
    for name in names.split(' ') {
        said.push(word_named(name)?).ok()?;
    }
    Some(said)
}

/// Prints a decision: the status, and the line.
fn decision_text(alloc: Global, decision: Option<bool>) -> Option<String> {
    let mut output = Output::new(alloc);
    match tell_decision(alloc, decision, false, &mut output) {
        Ok(status) => line_text(alloc, status, output.text()?),
        Err(_) => None,
    }
}

/// A status, and the line of a text of one.
fn line_text(alloc: Global, status: u8, text: &str) -> Option<String> {
    let line = text.strip_suffix("\n")?;
    format!(in alloc; "{status} {line}").ok()
}

/// The word of that name.
fn word_named(name: &str) -> Option<Word> {
    match name {
        "silent" => Some(Word::Silent),
        "undecided" => Some(Word::Undecided),
        "other" => Some(Word::Other),
        "0" => Some(Word::Decided(false)),
        "1" => Some(Word::Decided(true)),
        _ => None,
    }
}

/// The decision of that name.
fn decision_named(name: &str) -> Option<Option<bool>> {
    match name {
        "none" => Some(None),
        "0" => Some(Some(false)),
        "1" => Some(Some(true)),
        _ => None,
    }
}
