//! Words and texts that rows of several kinds have.

use member::Sealed;
use rounds::Toss;
use std::alloc::Global;
use std::str::FromStr;
use terms::{Record, Statement};
use test_words::records_text;
use wire::Version;

/// Returns the answer of a row that answers nothing.
pub fn nothing(alloc: Global) -> Option<String> {
    Some(String::new(alloc))
}

/// Returns the number that is the only word.
pub fn number_of<T: FromStr>(words: &[&str]) -> Option<T>
where
    T::Err: Drop,
{
    match words {
        [word] => word.parse().ok(),
        _ => None,
    }
}

/// Returns the version of that number.
pub fn version_of(word: &str) -> Option<Version> {
    match word {
        "1" => Some(Version::One),
        "2" => Some(Version::Two),
        _ => None,
    }
}

/// Returns `true` or `false`.
pub fn flag_text(alloc: Global, flag: bool) -> Option<String> {
    format!(in alloc; "{flag}").ok()
}

/// Returns a bit, or `none`.
pub fn bit_text(alloc: Global, bit: Option<bool>) -> Option<String> {
    match bit {
        Some(bit) => format!(in alloc; "{}", u8::from(bit)).ok(),
        None => format!(in alloc; "none").ok(),
    }
}

/// Returns the digits of a statement.
pub fn said_text(alloc: Global, said: Statement) -> Option<String> {
    records_text(alloc, "", &[Record::Said(said)]).ok()
}

/// Returns the number of a statement, and its digits.
pub fn sealed_text(alloc: Global, sealed: &Sealed) -> Option<String> {
    let said = said_text(alloc, sealed.statement())?;
    format!(in alloc; "{} {said}", sealed.number()).ok()
}

/// Returns who said a statement, its digits, and the toss that came with it.
pub fn heard_text(alloc: Global, from: u8, said: Statement, toss: Toss) -> Option<String> {
    let said = said_text(alloc, said)?;
    format!(in alloc; "{from} {said} {}", toss.0).ok()
}

/// Appends an item to a list, with a separator before it if neither is empty.
pub fn add(list: &mut String, separator: &str, item: &str) -> Option<()> {
    if !list.is_empty() && !item.is_empty() {
        list.push_str(separator).ok()?;
    }
    list.push_str(item).ok()
}

/// Returns the bytes as text, with `|` for each end of a line.
pub fn lines_text(alloc: Global, bytes: &[u8]) -> Option<String> {
    let mut text = Vec::new(alloc);
    for byte in bytes {
        text.push(if *byte == b'\n' { b'|' } else { *byte }).ok()?;
    }
    String::from_utf8(text).ok()
}
