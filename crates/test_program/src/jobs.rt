//! Commands over texts: what goes in, how it ends, and what comes out, line by line.
//!
//! `hear N T QUESTIONS ME`, `dump`, `dump count`, `simulate`, `chart`, with a choice of rows behind
//! it (`question`, `member`, `from` and `to`, each with its number), `settings` and `check N T
//! QUESTIONS ME`, which are the parts of `check`, and `ask QUESTION`, `propose QUESTION BIT` and
//! `status`, which get the input as the reply, begin one. `< LINE` is a line of its input, `<<
//! DIGITS` are bytes of it, and `many COUNT LINE` is a line so many times. `torn` has the input end
//! with a failure, `fuse CALLS` lets so many calls of the disk pass, `room COUNT` so many bytes of
//! the output, `shut` none without a failure, and `refused` none of what a client sends. Commands
//! whose streams and disks don't fail are rows of tests/vectors.py.
//!
//! `ends` runs it and answers `0`, or the fault. Then each row `-> LINE` is a line of its output,
//! and `no more` that there is no other. `taken` answers all that was written, in digits, and
//! `sent` what a client sent. `times TEXT` answers how often a text stands in the output, `begins
//! TEXT` and `closes TEXT` whether its first line begins so and its last one ends so.
//!
//! `takes TRACE CHART` answers whether a page takes the output, and `put ASIDE TEXT` what then
//! stands in the output and the errors.

use crate::works::{Place, Work, given_work, plain_work, put, takes};
use std::alloc::Global;
use test_words::{Output, Room, bytes_of};

/// A command, its input, its output, and what a client sent.
#[derive(Drop)]
pub struct Job {
    alloc: Global,
    work: Option<Work>,
    input: Vec<u8>,
    torn: bool,
    fuse: Option<u64>,
    output: Output,
    sent: Output,
}

impl Job {
    /// Of no command yet.
    pub fn new(alloc: Global) -> Job {
        Job {
            alloc,
            work: None,
            input: Vec::new(alloc),
            torn: false,
            fuse: None,
            output: Output::new(alloc),
            sent: Output::new(alloc),
        }
    }

    /// Plays a row.
    pub fn told(&mut self, action: &str) -> Option<String> {
        if action.is_empty() {
            return self.output.line(self.alloc);
        }
        match action.split_once(' ') {
            Some((word, rest)) => self.given(word, rest),
            None => self.plain(action),
        }
    }

    /// Plays a row of a word and values.
    fn given(&mut self, word: &str, values: &str) -> Option<String> {
        match word {
            "<" => self.add(values.as_bytes(), b"\n"),
            "<<" => self.add_bytes(values),
            "many" => self.add_many(values),
            "fuse" => self.fuse(values.parse().ok()?),
            "room" => self.limit(Room::Few(values.parse().ok()?)),
            word => self.seen(word, values),
        }
    }

    /// Adds bytes to the input.
    fn add_bytes(&mut self, digits: &str) -> Option<String> {
        let bytes = bytes_of(self.alloc, digits)?;
        self.add(&bytes, &[])
    }

    /// Adds a line so many times.
    fn add_many(&mut self, row: &str) -> Option<String> {
        let (count, line) = row.split_once(' ')?;
        let count: u64 = count.parse().ok()?;
        for _ in 0..count {
            self.add(line.as_bytes(), b"\n")?;
        }
        self.nothing()
    }

    /// Adds to the input.
    fn add(&mut self, bytes: &[u8], end: &[u8]) -> Option<String> {
        self.input.extend_from_slice(bytes).ok()?;
        self.input.extend_from_slice(end).ok()?;
        self.nothing()
    }

    /// Lets so many calls of the disk pass.
    fn fuse(&mut self, calls: u64) -> Option<String> {
        self.fuse = Some(calls);
        self.nothing()
    }

    /// Plays a row that tells of the output, or begins a command.
    fn seen(&mut self, word: &str, values: &str) -> Option<String> {
        match word {
            "times" => self.times(values),
            "begins" => self.begins(values),
            "closes" => self.closes(values),
            "no" => self.none(values),
            "takes" => takes(self.alloc, values),
            "put" => put(self.alloc, values),
            word => self.begin(given_work(self.alloc, word, values)?),
        }
    }

    /// Returns how often a text stands in the output.
    fn times(&self, text: &str) -> Option<String> {
        let output = self.output.text()?;
        format!(in self.alloc; "{}", output.matches(text).count()).ok()
    }

    /// Returns whether the output begins with a text.
    fn begins(&self, text: &str) -> Option<String> {
        let output = self.output.text()?;
        format!(in self.alloc; "{}", output.starts_with(text)).ok()
    }

    /// Returns whether the output's last line ends with a text.
    fn closes(&self, text: &str) -> Option<String> {
        let front = self.output.text()?.strip_suffix("\n")?;
        format!(in self.alloc; "{}", front.ends_with(text)).ok()
    }

    /// Sees that no line of the output is left.
    fn none(&self, what: &str) -> Option<String> {
        match what {
            "more" if self.output.is_told() => self.nothing(),
            _ => None,
        }
    }

    /// Plays a row of one word.
    fn plain(&mut self, word: &str) -> Option<String> {
        match word {
            "ends" => self.run(),
            "taken" => self.output.digits(self.alloc),
            "sent" => self.sent.line(self.alloc),
            "torn" => self.tear(),
            "shut" => self.limit(Room::Shut),
            "refused" => self.refuse(),
            word => self.begin(plain_work(word)?),
        }
    }

    /// Runs it, and tells how it ends.
    fn run(&mut self) -> Option<String> {
        let place = Place {
            alloc: self.alloc,
            bytes: self.input.as_slice(),
            torn: self.torn,
            fuse: self.fuse,
        };
        place.run(self.work?, &mut self.sent, &mut self.output)
    }

    /// Lets the input end with a failure.
    fn tear(&mut self) -> Option<String> {
        self.torn = true;
        self.nothing()
    }

    /// Limits the room of the output.
    fn limit(&mut self, room: Room) -> Option<String> {
        self.output.room = room;
        self.nothing()
    }

    /// Lets nothing be taken of what a client sends.
    fn refuse(&mut self) -> Option<String> {
        self.sent.room = Room::Few(0);
        self.nothing()
    }

    /// Begins a command.
    fn begin(&mut self, work: Work) -> Option<String> {
        self.work = Some(work);
        self.input.clear();
        self.torn = false;
        self.fuse = None;
        self.output.clear();
        self.sent.clear();
        self.nothing()
    }

    /// Returns what is said of a row that answers nothing.
    fn nothing(&self) -> Option<String> {
        Some(String::new(self.alloc))
    }
}
