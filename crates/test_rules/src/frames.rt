//! What a feeder makes of bytes, however they are cut.
//!
//! `size N T QUESTIONS` says for which cluster. A row of hexadecimal digits answers the messages in
//! words, each before a comma, and how the stream ends: `More`, or the fault. It is fed whole, cut
//! in two at every byte, and byte by byte; and the messages, encoded again, are to be the bytes
//! that they were read from. Several statements of one frame stand in brackets, with semicolons
//! between them, and a hello of version 2 is a `Hello-2`. `encode KIND QUESTION ORIGIN ROUND STEP
//! VALUE` answers a statement's frame, and `several` with six words for each statement the frame of
//! several, or `back`.

use crate::places::{size_in, statement_of};
use std::alloc::{AllocError, Global};
use terms::{Memory, Size, Statement};
use test_words::{bytes_of, words_of};
use wire::{Fed, Feeder, Many, Message, Version, encode};

/// A cluster's streams.
#[derive(Drop)]
pub struct Stream {
    alloc: Global,
    size: Option<Size>,
}

impl Stream {
    /// Of no cluster yet.
    pub fn new(alloc: Global) -> Stream {
        Stream { alloc, size: None }
    }

    /// Plays a row.
    pub fn told(&mut self, action: &str) -> Option<String> {
        let words = words_of(self.alloc, action)?;
        let (word, rest) = words.as_slice().split_first()?;
        self.worded(word, rest)
    }

    /// Plays a row of this word and of those behind it.
    fn worded(&mut self, word: &str, rest: &[&str]) -> Option<String> {
        match (word, rest) {
            ("size", rest) => self.begin(rest),
            ("encode", rest) => encoded(self.alloc, rest),
            ("several", rest) => several(self.alloc, rest),
            (digits, []) => self.read(digits),
            _ => None,
        }
    }

    /// Begins with a cluster of that size.
    fn begin(&mut self, words: &[&str]) -> Option<String> {
        self.size = Some(size_in(words)?);
        Some(String::new(self.alloc))
    }

    /// Returns what a feeder tells of bytes.
    fn read(&self, digits: &str) -> Option<String> {
        let size = self.size?;
        let bytes = bytes_of(self.alloc, digits)?;
        however_cut(self.alloc, size, &bytes).ok()
    }
}

/// Returns what a feeder tells of the bytes, if it tells the same however they are cut.
fn however_cut(alloc: Global, size: Size, bytes: &[u8]) -> Result<String, Memory> {
    let whole = in_pieces(alloc, size, bytes, bytes.len(), 1)?;
    for cut in 0..bytes.len() {
        let told = in_pieces(alloc, size, bytes, cut, bytes.len())?;
        if told.as_str() != whole.as_str() {
            return Ok(format!(in alloc; "cut at {cut} {told}")?);
        }
    }
    let told = in_pieces(alloc, size, bytes, 0, 1)?;
    if told.as_str() != whole.as_str() {
        return Ok(format!(in alloc; "byte by byte {told}")?);
    }
    if !is_spelled(alloc, size, bytes)? {
        return Ok(format!(in alloc; "encoded otherwise {told}")?);
    }
    Ok(whole)
}

/// Returns what a feeder tells of the bytes in pieces of that length, the first of another one.
fn in_pieces(
    alloc: Global,
    size: Size,
    bytes: &[u8],
    first: usize,
    piece: usize,
) -> Result<String, Memory> {
    let mut feeder = Feeder::new(size);
    let mut messages = Vec::new(alloc);
    let (front, mut rest) = bytes.split_at(first.min(bytes.len()));
    let mut fed = feeder.feed(front, &mut messages)?;
    for _turn in 0..bytes.len() {
        let (next, behind) = rest.split_at(piece.min(rest.len()));
        fed = feeder.feed(next, &mut messages)?;
        rest = behind;
    }
    shown(alloc, &messages, fed)
}

/// The messages in words, and how the stream ends.
fn shown(alloc: Global, messages: &[Message], fed: Fed) -> Result<String, Memory> {
    let mut text = String::new(alloc);
    for message in messages {
        let words = message_text(alloc, message)?;
        text.push_str(words.as_str())?;
        text.push_str(", ")?;
    }
    let end = end_text(alloc, fed)?;
    text.push_str(end.as_str())?;
    Ok(text)
}

/// A message in words.
fn message_text(alloc: Global, message: &Message) -> Result<String, AllocError> {
    match message {
        Message::Idle => "Idle".to_string(alloc),
        Message::Welcome { next } => format!(in alloc; "Welcome {next}"),
        Message::Hello {
            version,
            cluster,
            size,
            from,
            to,
        } => format!(in alloc;
            "{} {cluster} {} {} {} {from} {to}",
            hello_name(*version),
            size.n(),
            size.t(),
            size.questions()
        ),
        Message::Statement(said) => statement_text(alloc, *said),
        Message::Statements(several) => several_text(alloc, several.as_slice()),
    }
}

/// A hello's name, by its version.
fn hello_name(version: Version) -> &'static str {
    match version {
        Version::One => "Hello",
        Version::Two => "Hello-2",
    }
}

/// Several statements in words, in brackets and with a semicolon between them.
fn several_text(alloc: Global, several: &[Statement]) -> Result<String, AllocError> {
    let mut text = "(".to_string(alloc)?;
    for said in several {
        if text.len() > 1 {
            text.push_str("; ")?;
        }
        text.push_str(statement_text(alloc, *said)?.as_str())?;
    }
    text.push_str(")")?;
    Ok(text)
}

/// The frame of the statements that the words say, or `back` where they are too few or too many.
fn several(alloc: Global, words: &[&str]) -> Option<String> {
    match Many::new(statements_of(alloc, words)?) {
        Ok(many) => frame_of(alloc, &Message::Statements(many)),
        Err(_) => "back".to_string(alloc).ok(),
    }
}

/// The statements that the words say, six words each.
fn statements_of(alloc: Global, words: &[&str]) -> Option<Vec<Statement>> {
    let mut items = Vec::new(alloc);
    for six in words.chunks(6) {
        items.push(statement_of(six)?).ok()?;
    }
    Some(items)
}

/// A statement in words.
fn statement_text(alloc: Global, said: Statement) -> Result<String, AllocError> {
    let place = said.place();
    let (kind, value) = (said.kind(), said.value());
    let (question, origin, round) = (place.question(), place.origin(), place.round());
    format!(in alloc;
        "{kind:?} {question} {origin} {round} {} {value:?}",
        place.step()
    )
}

/// Returns how a stream ends.
fn end_text(alloc: Global, fed: Fed) -> Result<String, AllocError> {
    match fed {
        Fed::More => "More".to_string(alloc),
        Fed::Broken(fault) => format!(in alloc; "{fault}"),
    }
}

/// Whether the messages that are read of the bytes are encoded as the bytes begin.
fn is_spelled(alloc: Global, size: Size, bytes: &[u8]) -> Result<bool, Memory> {
    let mut messages = Vec::new(alloc);
    let _fed = Feeder::new(size).feed(bytes, &mut messages)?;
    let mut again = Vec::new(alloc);
    for message in &messages {
        encode(message, &mut again)?;
    }
    Ok(bytes.starts_with(&again))
}

/// The frame of the statement that the words say.
fn encoded(alloc: Global, words: &[&str]) -> Option<String> {
    let said = statement_of(words)?;
    frame_of(alloc, &Message::Statement(said))
}

/// The frame of a message.
fn frame_of(alloc: Global, message: &Message) -> Option<String> {
    let mut bytes = Vec::new(alloc);
    encode(message, &mut bytes).ok()?;
    hex::encode(alloc, &bytes).ok()
}
