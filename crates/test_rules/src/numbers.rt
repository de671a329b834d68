//! Sizes and their thresholds, places, statements and headers, and the words of lines.
//!
//! `size N T QUESTIONS` answers the numbers again, the echo quorum, the help set, the accept set
//! and the wait set, or the fault; `wide` is the same of larger numbers, and answers the size
//! alone. `place`, `statement` and `header` give back what they were made of. `number`, `number16`,
//! `number8`, `bytes`, `byte`, `split` and `is` read a text in quotes.

use crate::places::{place_of, statement_of};
use numerals::{byte, bytes, is, number, number8, number16, size_from, split_at_space};
use std::alloc::{AllocError, Global};
use terms::{Header, Place, Size, SizeFault, Statement};
use test_words::{bytes_of, size_of, words_of};

/// Plays a row.
pub fn told(alloc: Global, action: &str) -> Option<String> {
    if let Some((word, rest)) = action.split_once(" \"") {
        return quoted(alloc, word, rest);
    }
    let words = words_of(alloc, action)?;
    match words.as_slice().split_first() {
        Some((word, rest)) => worded(alloc, word, rest),
        None => None,
    }
}

/// Plays a row of a text in quotes, or of bytes.
fn quoted(alloc: Global, word: &str, rest: &str) -> Option<String> {
    match rest.strip_suffix("\"") {
        Some(text) if word == "split" => split_text(alloc, text.as_bytes()),
        Some(text) => read(alloc, word, text.as_bytes()),
        None => None,
    }
}

/// The parts of a text before and behind its first space, in quotes.
fn split_text(alloc: Global, text: &[u8]) -> Option<String> {
    let Some((before, behind)) = split_at_space(text) else {
        return format!(in alloc; "none").ok();
    };
    let before = String::from_utf8(Vec::from_slice(alloc, before).ok()?).ok()?;
    let behind = String::from_utf8(Vec::from_slice(alloc, behind).ok()?).ok()?;
    format!(in alloc; "\"{before}\" \"{behind}\"").ok()
}

/// Plays a row of this word and of those behind it.
fn worded(alloc: Global, word: &str, rest: &[&str]) -> Option<String> {
    match word {
        "size" => size(alloc, rest),
        "wide" => wide(alloc, rest),
        "place" => place(alloc, rest),
        "statement" => statement(alloc, rest),
        "header" => header(alloc, rest),
        "digits" => digits(alloc, rest),
        _ => None,
    }
}

/// Plays a row of a size of larger numbers.
fn wide(alloc: Global, words: &[&str]) -> Option<String> {
    let [n, t, questions] = words else {
        return None;
    };
    let (Ok(n), Ok(t), Ok(questions)) = (n.parse(), t.parse(), questions.parse()) else {
        return None;
    };
    size_text(alloc, size_from(n, t, questions)).ok()
}

/// Plays a row of a statement.
fn statement(alloc: Global, words: &[&str]) -> Option<String> {
    let said = statement_of(words)?;
    let place = place_text(alloc, said.place()).ok()?;
    let (kind, value) = (said.kind(), said.value());
    format!(in alloc; "{kind:?} {place} {value:?}").ok()
}

/// Plays a row of a header.
fn header(alloc: Global, words: &[&str]) -> Option<String> {
    let header = header_of(words)?;
    let (cluster, size, me) = (header.cluster(), header.size(), header.me());
    let (n, t, questions) = (size.n(), size.t(), size.questions());
    format!(in alloc; "{cluster} {n} {t} {questions} {me}").ok()
}

/// Returns the header of these words.
fn header_of(words: &[&str]) -> Option<Header> {
    let [cluster, n, t, questions, me] = words else {
        return None;
    };
    let (Ok(cluster), Ok(me)) = (cluster.parse(), me.parse()) else {
        return None;
    };
    Header::new(cluster, size_of(n, t, questions)?, me)
}

/// Plays a row of a word and the digits of a text.
fn digits(alloc: Global, words: &[&str]) -> Option<String> {
    let [word, digits] = words else {
        return None;
    };
    read(alloc, word, &bytes_of(alloc, digits)?)
}

/// Returns what is read of a text in quotes.
fn read(alloc: Global, word: &str, text: &[u8]) -> Option<String> {
    match word {
        "number" => number_text(alloc, number(text)),
        "number16" => number_text(alloc, number16(text).map(u64::from)),
        "number8" => number_text(alloc, number8(text).map(u64::from)),
        "bytes" => match bytes(alloc, text).ok()? {
            Some(bytes) => hex::encode(alloc, &bytes).ok(),
            None => format!(in alloc; "none").ok(),
        },
        "byte" => number_text(alloc, byte(alloc, text).ok()?.map(u64::from)),
        "next" => format!(in alloc; "{}", is(text, "next")).ok(),
        _ => None,
    }
}

/// A number, or `none`.
fn number_text(alloc: Global, number: Option<u64>) -> Option<String> {
    match number {
        Some(number) => format!(in alloc; "{number}").ok(),
        None => format!(in alloc; "none").ok(),
    }
}

/// Plays a row of a size.
fn size(alloc: Global, words: &[&str]) -> Option<String> {
    let [n, t, questions] = words else {
        return None;
    };
    let (Ok(n), Ok(t), Ok(questions)) = (n.parse(), t.parse(), questions.parse()) else {
        return None;
    };
    size_text(alloc, Size::new(n, t, questions)).ok()
}

/// A size's numbers and thresholds, or the fault.
fn size_text(alloc: Global, size: Result<Size, SizeFault>) -> Result<String, AllocError> {
    match size {
        Ok(size) => {
            let (n, t, questions) = (size.n(), size.t(), size.questions());
            let (echo, help) = (size.echo_quorum(), size.ready_help());
            let (accept, wait) = (size.accept(), size.wait());
            format!(in alloc; "{n} {t} {questions} {echo} {help} {accept} {wait}")
        }
        Err(fault) => format!(in alloc; "{fault}"),
    }
}

/// Plays a row of a place.
fn place(alloc: Global, words: &[&str]) -> Option<String> {
    place_text(alloc, place_of(words)?).ok()
}

/// Returns what a place of these numbers gives back.
fn place_text(alloc: Global, place: Place) -> Result<String, AllocError> {
    let (question, origin, round, step) = (
        place.question(),
        place.origin(),
        place.round(),
        place.step(),
    );
    format!(in alloc; "{question} {origin} {round} {step}")
}
