//! A core by itself, over records that rows give.
//!
//! `core N T QUESTIONS ME RECORD ..` opens one, and answers the fault where there is one. `propose
//! QUESTION BIT TOSS` and `hear FROM FRAME TOSS` answer as `lives` has it, `verdict QUESTION` the
//! round and the bit, or `none`.

use questions::{Answer, Core, CoreFault};
use std::alloc::Global;
use terms::{Record, Size};
use test_words::{answer_text, record_of, size_of, statement_of, toss_of, words_of};

/// A core, where there is one.
#[derive(Drop)]
pub struct Cores {
    alloc: Global,
    core: Option<Core>,
}

impl Cores {
    /// Of no core yet.
    pub fn new(alloc: Global) -> Cores {
        Cores { alloc, core: None }
    }

    /// Plays a row.
    pub fn told(&mut self, action: &str) -> Option<String> {
        let words = words_of(self.alloc, action)?;
        let (word, rest) = words.as_slice().split_first()?;
        self.worded(word, rest)
    }

    /// Plays a row of this word and of those behind it.
    fn worded(&mut self, word: &str, rest: &[&str]) -> Option<String> {
        match (word, &mut self.core) {
            ("core", _) => self.begin(rest),
            (word, Some(core)) => asked(self.alloc, core, word, rest),
            (_, None) => None,
        }
    }

    /// Opens a core of these words.
    fn begin(&mut self, words: &[&str]) -> Option<String> {
        let [n, t, questions, me, records @ ..] = words else {
            return None;
        };
        let size = size_of(n, t, questions)?;
        self.open(size, me.parse().ok()?, records)
    }

    /// Opens a core of these records.
    fn open(&mut self, size: Size, me: u8, records: &[&str]) -> Option<String> {
        let records = records_of(self.alloc, records)?;
        self.core = None;
        match Core::new(self.alloc, size, me, &records) {
            Ok(core) => {
                self.core = Some(core);
                Some(String::new(self.alloc))
            }
            Err(fault) => format!(in self.alloc; "{fault}").ok(),
        }
    }
}

/// Plays a row of what a core is asked.
fn asked(alloc: Global, core: &mut Core, word: &str, rest: &[&str]) -> Option<String> {
    match word {
        "propose" => proposed(alloc, core, rest),
        "hear" => heard(alloc, core, rest),
        "verdict" => verdict_text(alloc, core, rest),
        _ => None,
    }
}

/// Proposes a bit.
fn proposed(alloc: Global, core: &mut Core, words: &[&str]) -> Option<String> {
    let [question, bit, toss] = words else {
        return None;
    };
    let (Ok(question), Some(toss)) = (question.parse(), toss_of(alloc, toss)) else {
        return None;
    };
    told_of(alloc, core.propose(question, *bit == "1", toss))
}

/// Hears a statement.
fn heard(alloc: Global, core: &mut Core, words: &[&str]) -> Option<String> {
    let [from, frame, toss] = words else {
        return None;
    };
    let (Ok(from), Some(toss)) = (from.parse(), toss_of(alloc, toss)) else {
        return None;
    };
    let said = statement_of(alloc, size_of("64", "0", "4096")?, frame)?;
    told_of(alloc, core.hear(from, &said, toss))
}

/// The records of these words.
fn records_of(alloc: Global, words: &[&str]) -> Option<Vec<Record>> {
    let mut records = Vec::new(alloc);
    for word in words {
        records.push(record_of(alloc, word)?).ok()?;
    }
    Some(records)
}

/// Returns what is said of an answer, or of the fault.
fn told_of(alloc: Global, answer: Result<Answer, CoreFault>) -> Option<String> {
    match answer {
        Ok(answer) => answer_text(alloc, &answer).ok(),
        Err(fault) => format!(in alloc; "{fault}").ok(),
    }
}

/// Returns what is said of a decision.
fn verdict_text(alloc: Global, core: &Core, words: &[&str]) -> Option<String> {
    let [question] = words else {
        return None;
    };
    match core.verdict(question.parse().ok()?) {
        Some((round, bit)) => format!(in alloc; "{round} {}", u8::from(bit)).ok(),
        None => format!(in alloc; "none").ok(),
    }
}
