//! What an audit says of a transcript.
//!
//! `new N T QUESTIONS` begins a text for a cluster of that size. `line TEXT` puts a line behind it,
//! `end TEXT` the same without the byte that ends it, `bytes HEX` these bytes. `audit` answers what
//! is written of the text so far, or the fault.

use crate::places::size_in;
use std::alloc::{AllocError, Global};
use terms::Size;
use test_words::{bytes_of, words_of};
use transcripts::audit_text;

/// A transcript's text so far.
#[derive(Drop)]
pub struct Audit {
    alloc: Global,
    size: Option<Size>,
    text: Vec<u8>,
}

impl Audit {
    /// Of no cluster yet.
    pub fn new(alloc: Global) -> Audit {
        Audit {
            alloc,
            size: None,
            text: Vec::new(alloc),
        }
    }

    /// Plays a row.
    pub fn told(&mut self, action: &str) -> Option<String> {
        match action.split_once(' ') {
            Some((word, rest)) => self.worded(word, rest),
            None => self.worded(action, ""),
        }
    }

    /// Plays a row of this word and of the text behind it.
    fn worded(&mut self, word: &str, rest: &str) -> Option<String> {
        match word {
            "new" => self.begin(rest),
            "line" => self.put_line(rest),
            "end" => self.put(rest.as_bytes()),
            "bytes" => self.put_digits(rest),
            "audit" => self.audit(),
            _ => None,
        }
    }

    /// Begins a text.
    fn begin(&mut self, size: &str) -> Option<String> {
        let words = words_of(self.alloc, size)?;
        self.size = Some(size_in(&words)?);
        self.text.clear();
        Some(String::new(self.alloc))
    }

    /// Puts a line behind the text.
    fn put_line(&mut self, line: &str) -> Option<String> {
        self.put(line.as_bytes())?;
        self.put(b"\n")
    }

    /// Puts bytes of digits behind the text.
    fn put_digits(&mut self, digits: &str) -> Option<String> {
        self.put(&bytes_of(self.alloc, digits)?)
    }

    /// Puts bytes behind the text.
    fn put(&mut self, bytes: &[u8]) -> Option<String> {
        self.text.extend_from_slice(bytes).ok()?;
        Some(String::new(self.alloc))
    }
    /// Audits the text.
    fn audit(&self) -> Option<String> {
        let size = self.size?;
        audited(self.alloc, &self.text, size).ok()
    }
}

/// Returns what is written of the text, without the byte that ends its line, or the fault.
fn audited(alloc: Global, text: &[u8], size: Size) -> Result<String, AllocError> {
    let mut output = Vec::new(alloc);
    match audit_text(alloc, text, size, &mut output) {
        Ok(status) => {
            let said = str::from_utf8(&output).unwrap_or("?").trim_end();
            format!(in alloc; "{said} {status}")
        }
        Err(fault) => format!(in alloc; "{fault}"),
    }
}
