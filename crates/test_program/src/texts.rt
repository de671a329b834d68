//! Scripts as they are read, and traces of marks and records that rows give.
//!
//! `new` begins a text, `< LINE` is a line of it, and `many COUNT LINE` a line so many times.
//! `read` reads it, and answers the count of its events, or the fault. `liars` answers those it
//! lists, `event NUMBER` the line of an event, counted from 1, and the toss of one that has it.
//! `source` makes the events a few at a time, and answers how many are those that were read.
//!
//! `marks MARK ..` are what became of the events, `done`, `failed`, or the reason for which one was
//! skipped; `saves RECORD ..` are the records that the next one saved, as `lives` writes them.
//! `trace` writes their trace, and each row `-> LINE` is a line of it.

use crate::lists::add;
use report::write_trace;
use rounds::Toss;
use script::{Script, ScriptFault, Source, read};
use sim::{Event, Mark, Reason};
use std::alloc::Global;
use terms::Record;
use test_words::{Output, record_of};

/// A script's text, what was read of it, and what became of its events.
#[derive(Drop)]
pub struct Texts {
    alloc: Global,
    text: Vec<u8>,
    script: Option<Script>,
    marks: Vec<Mark>,
    saved: Vec<Vec<Record>>,
    output: Output,
}

impl Texts {
    /// Of no text yet.
    pub fn new(alloc: Global) -> Texts {
        Texts {
            alloc,
            text: Vec::new(alloc),
            script: None,
            marks: Vec::new(alloc),
            saved: Vec::new(alloc),
            output: Output::new(alloc),
        }
    }

    /// Plays a row.
    pub fn told(&mut self, action: &str) -> Option<String> {
        if action.is_empty() {
            return self.output.line(self.alloc);
        }
        match action.split_once(' ') {
            Some((word, rest)) => self.given(word, rest),
            None => self.plain(action),
        }
    }

    /// Plays a row of a word and values.
    fn given(&mut self, word: &str, values: &str) -> Option<String> {
        match word {
            "<" => self.add(1, values),
            "many" => self.add_many(values),
            "event" => self.event(values.parse().ok()?),
            "marks" => self.mark(values),
            "saves" => self.save(records_of(self.alloc, values)?),
            "no" => self.none(values),
            _ => None,
        }
    }

    /// Adds a line as often as the row says.
    fn add_many(&mut self, row: &str) -> Option<String> {
        let (count, line) = row.split_once(' ')?;
        self.add(count.parse().ok()?, line)
    }

    /// Adds a line so many times.
    fn add(&mut self, count: u64, line: &str) -> Option<String> {
        for _ in 0..count {
            self.text.extend_from_slice(line.as_bytes()).ok()?;
            self.text.push(b'\n').ok()?;
        }
        Some(String::new(self.alloc))
    }

    /// An event, counted from 1.
    fn event(&self, number: usize) -> Option<String> {
        let events = &self.script.as_ref()?.events;
        event_text(self.alloc, events.get(number.saturating_sub(1))?)
    }

    /// Adds marks.
    fn mark(&mut self, names: &str) -> Option<String> {
        for name in names.split(' ') {
            self.marks.push(mark_of(name)?).ok()?;
        }
        Some(String::new(self.alloc))
    }

    /// Sees that no line of the output is left.
    fn none(&self, what: &str) -> Option<String> {
        match what {
            "more" if self.output.is_told() => Some(String::new(self.alloc)),
            _ => None,
        }
    }

    /// Plays a row of one word.
    fn plain(&mut self, word: &str) -> Option<String> {
        match word {
            "new" => self.begin(),
            "read" => self.read(),
            "liars" => liars_text(self.alloc, &self.script.as_ref()?.liars),
            "source" => self.source(),
            "unmarked" => self.unmark(),
            "trace" => self.trace(),
            "saves" => self.save(Vec::new(self.alloc)),
            _ => None,
        }
    }

    /// Begins a text.
    fn begin(&mut self) -> Option<String> {
        self.text.clear();
        self.script = None;
        self.marks.clear();
        self.saved = Vec::new(self.alloc);
        self.output.clear();
        Some(String::new(self.alloc))
    }

    /// Reads the text.
    fn read(&mut self) -> Option<String> {
        self.script = None;
        match read(self.alloc, &self.text) {
            Ok(script) => {
                let count = script.events.len();
                self.script = Some(script);
                format!(in self.alloc; "{count}").ok()
            }
            Err(fault) => format!(in self.alloc; "{fault}").ok(),
        }
    }

    /// Returns what a source of the text makes.
    fn source(&self) -> Option<String> {
        let script = self.script.as_ref()?;
        match compared(self.alloc, &self.text, script) {
            Ok((same, true)) => format!(in self.alloc; "{same}").ok(),
            Ok((_, false)) => format!(in self.alloc; "another cluster").ok(),
            Err(fault) => format!(in self.alloc; "{fault}").ok(),
        }
    }

    /// Drops all marks and records.
    fn unmark(&mut self) -> Option<String> {
        self.marks.clear();
        self.saved = Vec::new(self.alloc);
        Some(String::new(self.alloc))
    }

    /// Writes the trace.
    fn trace(&mut self) -> Option<String> {
        let events = self.script.as_ref()?.events.as_slice();
        self.output.clear();
        let (marks, saved) = (self.marks.as_slice(), self.saved.as_slice());
        write_trace(self.alloc, events, marks, saved, &mut self.output).ok()?;
        Some(String::new(self.alloc))
    }

    /// Adds the records of an event.
    fn save(&mut self, records: Vec<Record>) -> Option<String> {
        self.saved.push(records).ok()?;
        Some(String::new(self.alloc))
    }
}

/// The liars of a list.
fn liars_text(alloc: Global, liars: &[u8]) -> Option<String> {
    let mut text = String::new(alloc);
    for liar in liars {
        let item = format!(in alloc; "{liar}").ok()?;
        add(&mut text, " ", item.as_str())?;
    }
    Some(text)
}

/// The records of a text.
fn records_of(alloc: Global, text: &str) -> Option<Vec<Record>> {
    let mut records = Vec::new(alloc);
    for word in text.split(' ') {
        records.push(record_of(alloc, word)?).ok()?;
    }
    Some(records)
}

/// An event's line, and its toss.
fn event_text(alloc: Global, event: &Event) -> Option<String> {
    match toss_of(event) {
        Some(toss) => format!(in alloc; "{event} {:016x}", toss.0).ok(),
        None => format!(in alloc; "{event} -").ok(),
    }
}

/// The toss of an event that has one.
fn toss_of(event: &Event) -> Option<Toss> {
    match event {
        Event::Propose { toss, .. }
        | Event::Deliver { toss, .. }
        | Event::DeliverAll { toss, .. }
        | Event::LieBytes { toss, .. } => Some(*toss),
        _ => None,
    }
}

/// Returns how many events a source of the text makes that are the script's, and whether its size
/// and its liars are.
fn compared(alloc: Global, text: &[u8], script: &Script) -> Result<(usize, bool), ScriptFault> {
    let mut source = Source::of(alloc, text)?;
    let is_alike = source.size() == script.size && source.liars() == script.liars.as_slice();
    let same = as_listed(alloc, &mut source, &script.events)?;
    Ok((same, is_alike))
}

/// Returns how many of the source's events are those of the list at their places.
fn as_listed(alloc: Global, source: &mut Source, events: &[Event]) -> Result<usize, ScriptFault> {
    let mut place = 0usize;
    let mut same = 0usize;
    'batches: while source.more(alloc)? {
        for event in source.batch() {
            if events.get(place) == Some(event) {
                same = same.saturating_add(1);
            }
            place = place.saturating_add(1);
        }
    }
    Ok(same)
}

/// The mark of that name.
pub fn mark_of(name: &str) -> Option<Mark> {
    match name {
        "done" => Some(Mark::Done),
        "failed" => Some(Mark::Failed),
        "no-such" => Some(Mark::Skipped(Reason::NoSuch)),
        "wrong-side" => Some(Mark::Skipped(Reason::WrongSide)),
        "not-up" => Some(Mark::Skipped(Reason::NotUp)),
        "running" => Some(Mark::Skipped(Reason::Running)),
        "nothing" => Some(Mark::Skipped(Reason::Nothing)),
        _ => None,
    }
}
