//! Which line asks for what, and what the replies are.
//!
//! `size N T QUESTIONS` says for which cluster. `line TEXT` answers what a line asks for, in its
//! own words, or the refusal; `bytes DIGITS` the same of bytes. `reply NAME ..` is the line of a
//! reply.

use crate::texts::nothing;
use desk::{Command, Reply, parse};
use node::{LinkCount, QuestionState};
use std::alloc::Global;
use terms::Size;
use test_words::{bytes_of, size_of, words_of};

/// A cluster's lines.
#[derive(Drop)]
pub struct Desk {
    alloc: Global,
    size: Option<Size>,
}

impl Desk {
    /// Of no cluster yet.
    pub fn new(alloc: Global) -> Desk {
        Desk { alloc, size: None }
    }

    /// Plays a row.
    pub fn told(&mut self, action: &str) -> Option<String> {
        match action.strip_prefix("line") {
            Some(line) => self.line(line.strip_prefix(" ").unwrap_or(line).as_bytes()),
            None => self.row(&words_of(self.alloc, action)?),
        }
    }

    /// Plays a row of words.
    fn row(&mut self, words: &[&str]) -> Option<String> {
        let (word, rest) = words.split_first()?;
        match *word {
            "size" => self.begin(rest),
            "bytes" => self.bytes(rest),
            "reply" => reply_text(self.alloc, self.size?, rest),
            _ => None,
        }
    }

    /// Begins with another cluster.
    fn begin(&mut self, words: &[&str]) -> Option<String> {
        let [n, t, questions] = words else {
            return None;
        };
        self.size = Some(size_of(n, t, questions)?);
        nothing(self.alloc)
    }

    /// Returns what a line of bytes asks for.
    fn bytes(&self, words: &[&str]) -> Option<String> {
        let [digits] = words else {
            return None;
        };
        self.line(&bytes_of(self.alloc, digits)?)
    }

    /// Returns what a line asks for.
    fn line(&self, line: &[u8]) -> Option<String> {
        match parse(line, self.size?) {
            Ok(command) => command_text(self.alloc, command),
            Err(reply) => reply.to_string(self.alloc).ok(),
        }
    }
}

/// Returns the line of a reply.
fn reply_text(alloc: Global, size: Size, words: &[&str]) -> Option<String> {
    reply_of(size, words)?.to_string(alloc).ok()
}

/// Returns the reply of these words, of a member of a cluster of that size.
fn reply_of(size: Size, words: &[&str]) -> Option<Reply> {
    let (name, rest) = words.split_first()?;
    match *name {
        "Have" => Some(Reply::Have(bit_of(rest)?)),
        "Decided" => Some(Reply::Decided(bit_of(rest)?)),
        "Up" => up_of(rest),
        "Links" => links_of(size, rest),
        "State" => Some(Reply::State(state_of(rest)?)),
        name if rest.is_empty() => plain_reply_of(name),
        _ => None,
    }
}

/// Returns the reply of a member that is up.
fn up_of(words: &[&str]) -> Option<Reply> {
    let [statements, decided] = words else {
        return None;
    };
    Some(Reply::Up {
        statements: statements.parse().ok()?,
        decided: decided.parse().ok()?,
    })
}

/// Returns the reply on links.
fn links_of(size: Size, words: &[&str]) -> Option<Reply> {
    let [incoming, outgoing] = words else {
        return None;
    };
    let count = LinkCount {
        incoming: incoming.parse().ok()?,
        outgoing: outgoing.parse().ok()?,
    };
    Some(Reply::Links { count, size })
}

/// Returns the state of a question in these words.
fn state_of(words: &[&str]) -> Option<QuestionState> {
    let (name, rest) = words.split_first()?;
    match *name {
        "Unproposed" => Some(QuestionState::Unproposed),
        "Open" => open_of(rest),
        "Spent" => Some(QuestionState::Spent),
        "Decided" => Some(QuestionState::Decided(bit_of(rest)?)),
        _ => None,
    }
}

/// Returns the state of a question that is open.
fn open_of(words: &[&str]) -> Option<QuestionState> {
    let [round, step] = words else {
        return None;
    };
    Some(QuestionState::Open {
        round: round.parse().ok()?,
        step: step.parse().ok()?,
    })
}

/// Returns the bit of a row that says nothing else.
fn bit_of(words: &[&str]) -> Option<bool> {
    match words {
        [bit] => Some(*bit == "1"),
        _ => None,
    }
}

/// Returns the reply that is a name alone.
fn plain_reply_of(name: &str) -> Option<Reply> {
    match name {
        "Taken" => Some(Reply::Taken),
        "Stopped" => Some(Reply::Stopped),
        "Undecided" => Some(Reply::Undecided),
        "Thin" => Some(Reply::Thin),
        "BadLine" => Some(Reply::BadLine),
        "BadQuestion" => Some(Reply::BadQuestion),
        "BadBit" => Some(Reply::BadBit),
        "Memory" => Some(Reply::Memory),
        _ => None,
    }
}

/// The words of a command.
fn command_text(alloc: Global, command: Command) -> Option<String> {
    match command {
        Command::Propose { question, bit } => {
            format!(in alloc; "PROPOSE {question} {}", u8::from(bit)).ok()
        }
        Command::Ask { question } => format!(in alloc; "ASK {question}").ok(),
        Command::Await { question } => format!(in alloc; "AWAIT {question}").ok(),
        Command::Status => format!(in alloc; "STATUS").ok(),
        Command::Transcript { question } => format!(in alloc; "TRANSCRIPT {question}").ok(),
        Command::Links => format!(in alloc; "LINKS").ok(),
        Command::State { question } => format!(in alloc; "STATE {question}").ok(),
    }
}
