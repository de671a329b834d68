//! The commands that jobs run, over any reader, any writer and a disk in memory.

use commands::{
    Choice, Simulation, ask_line, check_journal, dump_count, dump_lines, print_settings,
    print_verdicts, propose_line, simulate_text, status_line, takes_output, talk,
};
use disk::MemDisk;
use hearing::hear_lines;
use numerals::size_from;
use settings::Settings;
use std::alloc::{AllocError, Global};
use std::fmt::Display;
use std::io::Write;
use terms::Header;
use test_words::{Input, Output, disk_of, header_of, words_of};

/// What runs over the input.
#[derive(Clone, Copy)]
pub enum Work {
    /// `hear`, of these numbers.
    Hear(u16, u16, u16, u8),
    /// `dump`.
    Dump,
    /// `dump --count`.
    Count,
    /// `simulate`.
    Simulate,
    /// The script's chart, with the events that are chosen.
    Chart(Choice),
    /// What `check` writes of settings.
    Settings,
    /// What `check` writes of a journal.
    Check(Header),
    /// `ask`, over a connection that gives the input.
    Ask(u16),
    /// `propose`, over such a connection.
    Propose(u16, u8),
    /// `status`, over such a connection.
    Status,
}

/// The work of a word.
pub fn plain_work(word: &str) -> Option<Work> {
    match word {
        "dump" => Some(Work::Dump),
        "simulate" => Some(Work::Simulate),
        "chart" => Some(Work::Chart(Choice::all())),
        "settings" => Some(Work::Settings),
        "status" => Some(Work::Status),
        _ => None,
    }
}

/// The work of a word and values.
pub fn given_work(alloc: Global, word: &str, values: &str) -> Option<Work> {
    match word {
        "ask" => Some(Work::Ask(values.parse().ok()?)),
        "propose" => propose_work(values),
        "dump" => dump_work(values),
        word => listed_work(alloc, word, values),
    }
}

/// The work of `propose`.
fn propose_work(values: &str) -> Option<Work> {
    let (question, bit) = values.split_once(' ')?;
    Some(Work::Propose(question.parse().ok()?, bit.parse().ok()?))
}

/// The work of `dump --count`.
fn dump_work(values: &str) -> Option<Work> {
    match values {
        "count" => Some(Work::Count),
        _ => None,
    }
}

/// The work of a word and a list of values.
fn listed_work(alloc: Global, word: &str, values: &str) -> Option<Work> {
    let values = words_of(alloc, values)?;
    work_of(word, &values)
}

/// The work of a word and these values.
fn work_of(word: &str, values: &[&str]) -> Option<Work> {
    match word {
        "hear" => hear_work(values),
        "check" => check_work(values),
        "chart" => Some(Work::Chart(choice_of(values)?)),
        _ => None,
    }
}

/// The work of `hear`.
fn hear_work(values: &[&str]) -> Option<Work> {
    let [n, t, questions, me] = values else {
        return None;
    };
    let (n, t, questions) = (n.parse().ok()?, t.parse().ok()?, questions.parse().ok()?);
    Some(Work::Hear(n, t, questions, me.parse().ok()?))
}

/// The choice of these words, pairs of a name and a number.
fn choice_of(words: &[&str]) -> Option<Choice> {
    if words.len() % 2 != 0 {
        return None;
    }
    let mut choice = Choice::all();
    for index in 0..words.len() / 2 {
        choice = with_part(choice, words[2 * index], words[2 * index + 1])?;
    }
    Some(choice)
}

/// The choice with one part more, named by a word and a number.
fn with_part(choice: Choice, name: &str, number: &str) -> Option<Choice> {
    let mut chosen = choice;
    match name {
        "question" => chosen.question = Some(number.parse().ok()?),
        "member" => chosen.member = Some(number.parse().ok()?),
        "from" => chosen.from = Some(number.parse().ok()?),
        "to" => chosen.to = Some(number.parse().ok()?),
        _ => return None,
    }
    Some(chosen)
}

/// The work of `check`.
fn check_work(values: &[&str]) -> Option<Work> {
    let [n, t, questions, me] = values else {
        return None;
    };
    Some(Work::Check(header_of(n, t, questions, me)?))
}

/// What a command runs on.
#[derive(Drop)]
pub struct Place<'a> {
    /// Its memory.
    pub alloc: Global,
    /// The bytes of its input, of its disk, or of its connection.
    pub bytes: &'a [u8],
    /// Set if the input ends with a failure.
    pub torn: bool,
    /// How many calls of the disk pass.
    pub fuse: Option<u64>,
}

impl<'a> Place<'a> {
    /// Runs a command, and tells how it ends.
    pub fn run(&self, work: Work, sent: &mut Output, output: &mut Output) -> Option<String> {
        match work {
            Work::Hear(n, t, questions, me) => self.hear((n, t, questions), me, output),
            Work::Dump => self.dump(output),
            Work::Count => self.count(output),
            Work::Simulate => ending(self.alloc, simulate_text(self.alloc, self.bytes, output)),
            Work::Chart(choice) => self.chart(choice, output),
            Work::Settings => self.settings(output),
            Work::Check(header) => self.check(&header, output),
            Work::Ask(_) | Work::Propose(_, _) | Work::Status => self.ask(work, sent, output),
        }
    }

    /// Returns what `hear` answers to the input, and how it ends.
    fn hear(&self, size: (u16, u16, u16), me: u8, output: &mut Output) -> Option<String> {
        let (n, t, questions) = size;
        let size = match size_from(n, t, questions) {
            Ok(size) => size,
            Err(fault) => return format!(in self.alloc; "size {fault}").ok(),
        };
        let mut input = Input::new(self.bytes, self.torn);
        ending(
            self.alloc,
            hear_lines(self.alloc, size, me, &mut input, output),
        )
    }

    /// Dumps the disk, and tells how that ends.
    fn dump(&self, output: &mut Output) -> Option<String> {
        let mut disk = self.disk()?;
        ending(self.alloc, dump_lines(self.alloc, &mut disk, output))
    }

    /// Counts what the disk has, and tells how that ends.
    fn count(&self, output: &mut Output) -> Option<String> {
        let mut disk = self.disk()?;
        ending(self.alloc, dump_count(self.alloc, &mut disk, output))
    }

    /// Checks the disk's journal, and tells how that ends.
    fn check(&self, header: &Header, output: &mut Output) -> Option<String> {
        let mut disk = self.disk()?;
        let checked = check_journal(self.alloc, header, &mut disk, output);
        ending(self.alloc, checked)
    }

    /// The disk.
    fn disk(&self) -> Option<MemDisk> {
        let mut disk = disk_of(self.alloc, self.bytes).ok()?;
        disk.fuse(self.fuse);
        Some(disk)
    }

    /// Draws a script's chart with the events that are chosen, and tells how that ends.
    fn chart(&self, choice: Choice, output: &mut Output) -> Option<String> {
        match Simulation::run(self.alloc, self.bytes) {
            Ok(ran) => match ran.write_chart(self.alloc, choice, output) {
                Ok(_) => format!(in self.alloc; "0").ok(),
                Err(_) => None,
            },
            Err(fault) => format!(in self.alloc; "{fault}").ok(),
        }
    }

    /// Returns what is written of settings, and how that ends.
    fn settings(&self, output: &mut Output) -> Option<String> {
        let text = str::from_utf8(self.bytes).ok()?;
        match Settings::parse(self.alloc, text) {
            Ok(settings) => {
                let printed = print_settings(self.alloc, &settings, output);
                ending(self.alloc, printed.map(|_| 0u8))
            }
            Err(fault) => format!(in self.alloc; "{fault}").ok(),
        }
    }

    /// Runs a client, and tells how it ends.
    fn ask(&self, work: Work, sent: &mut Output, output: &mut Output) -> Option<String> {
        let line = line_of(self.alloc, work).ok()?;
        self.talk(line.as_str(), sent, output)
    }

    /// Returns what a client makes of the reply to its line.
    fn talk(&self, line: &str, sent: &mut Output, output: &mut Output) -> Option<String> {
        let mut reply = Input::new(self.bytes, self.torn);
        ending(self.alloc, talk(self.alloc, line, sent, &mut reply, output))
    }
}

/// The line that a client sends: that of `status` unless it asks or proposes.
fn line_of(alloc: Global, work: Work) -> Result<String, AllocError> {
    match work {
        Work::Ask(question) => ask_line(alloc, question),
        Work::Propose(question, bit) => propose_line(alloc, question, bit),
        _ => String::from_str(alloc, status_line()),
    }
}

/// Returns how a command ends: its status, or its fault.
pub fn ending<F: Display + Drop>(alloc: Global, ended: Result<u8, F>) -> Option<String> {
    match ended {
        Ok(status) => format!(in alloc; "{status}").ok(),
        Err(fault) => format!(in alloc; "{fault}").ok(),
    }
}

/// Returns whether a trace's path or a chart's takes the output.
pub fn takes(alloc: Global, paths: &str) -> Option<String> {
    let (trace, chart) = paths.split_once(' ')?;
    format!(in alloc; "{}", takes_output(path_of(trace), path_of(chart))).ok()
}

/// The path in quotes, or none where it is `none`.
fn path_of<'a>(word: &'a str) -> Option<&'a str> {
    match word {
        "none" => None,
        path => Some(path.trim_matches('"')),
    }
}

/// Returns what stands in the output and among the errors, where verdicts are printed, or put
/// aside.
pub fn put(alloc: Global, values: &str) -> Option<String> {
    let (aside, verdicts) = values.split_once(' ')?;
    let (mut output, mut errors) = (Output::new(alloc), Output::new(alloc));
    match print_verdicts(aside == "aside", verdicts, &mut output, &mut errors) {
        Ok(_) => quoted(alloc, &output, &errors),
        Err(_) => None,
    }
}

/// Returns the output and the errors, in quotes.
fn quoted(alloc: Global, output: &Output, errors: &Output) -> Option<String> {
    let (output, errors) = (output.text()?, errors.text()?);
    format!(in alloc; "\"{output}\" \"{errors}\"").ok()
}
