//! Clusters over disks that rows prepare, and events that are played one after another.
//!
//! `disks COUNT` are so many empty disks. `fuse PLACE CALLS` lets so many calls of one pass, and
//! `used PLACE` writes a byte to it. `run N T QUESTIONS LIAR ..` runs no event over them, and
//! answers how many verdicts there are, or the fault; `open` of the same opens the cluster.
//! `propose MEMBER QUESTION BIT TOSS`, `deliver FROM TO WHICH TOSS` and `group FROM TO COUNT TOSS`
//! play an event, and answer what became of it and what it saved, as a trace has it. `verdicts`
//! answers how many there are.

use disk::{Disk, MemDisk};
use report::write_trace;
use sim::{Cluster, Event, Mark, SimFault, Which, run};
use std::alloc::Global;
use std::mem;
use terms::{Record, Size};
use test_words::{size_of, toss_of, words_of};

/// Disks, and a cluster.
#[derive(Drop)]
pub struct Played {
    alloc: Global,
    disks: Vec<MemDisk>,
    cluster: Option<Cluster>,
}

impl Played {
    /// Of no disk yet.
    pub fn new(alloc: Global) -> Played {
        Played {
            alloc,
            disks: Vec::new(alloc),
            cluster: None,
        }
    }

    /// Plays a row.
    pub fn told(&mut self, action: &str) -> Option<String> {
        match action.split_once(' ') {
            Some((word, rest)) => self.given(word, rest),
            None => self.plain(action),
        }
    }

    /// Plays a row of one word.
    fn plain(&self, word: &str) -> Option<String> {
        match word {
            "verdicts" => self.verdicts(),
            _ => None,
        }
    }

    /// Returns how many verdicts there are.
    fn verdicts(&self) -> Option<String> {
        let verdicts = self.cluster.as_ref()?.verdicts(self.alloc);
        count_text(self.alloc, verdicts.map(|verdicts| verdicts.len()))
    }

    /// Plays a row of a word and values.
    fn given(&mut self, word: &str, values: &str) -> Option<String> {
        match word {
            "disks" => self.begin(values.parse().ok()?),
            "fuse" => self.fuse(values),
            "used" => self.fill(values),
            "run" => self.run(values),
            "open" => self.open(values),
            word => self.play(word, values),
        }
    }

    /// So many empty disks.
    fn begin(&mut self, count: u8) -> Option<String> {
        self.disks = Vec::new(self.alloc);
        for _ in 0..count {
            self.disks.push(MemDisk::new(self.alloc)).ok()?;
        }
        Some(String::new(self.alloc))
    }

    /// Lets so many calls of a disk pass.
    fn fuse(&mut self, values: &str) -> Option<String> {
        let (place, calls) = values.split_once(' ')?;
        let calls = calls.parse().ok()?;
        self.disk(place)?.fuse(Some(calls));
        Some(String::new(self.alloc))
    }

    /// Writes a byte to a disk.
    fn fill(&mut self, place: &str) -> Option<String> {
        self.disk(place)?.write_at(0, &[0]).ok()?;
        Some(String::new(self.alloc))
    }

    /// The disk at a place.
    fn disk(&mut self, place: &str) -> Option<&mut MemDisk> {
        self.disks.get_mut(place.parse().ok()?)
    }

    /// Runs no event.
    fn run(&mut self, values: &str) -> Option<String> {
        let (size, liars) = cluster_named(self.alloc, values)?;
        let disks = mem::replace(&mut self.disks, Vec::new(self.alloc));
        let outcome = run(self.alloc, size, &liars, disks, &[]);
        count_text(self.alloc, outcome.map(|outcome| outcome.verdicts.len()))
    }

    /// Opens the cluster.
    fn open(&mut self, values: &str) -> Option<String> {
        let (size, liars) = cluster_named(self.alloc, values)?;
        let disks = mem::replace(&mut self.disks, Vec::new(self.alloc));
        match Cluster::open(self.alloc, size, &liars, disks) {
            Ok(cluster) => {
                self.cluster = Some(cluster);
                Some(String::new(self.alloc))
            }
            Err(fault) => format!(in self.alloc; "{fault}").ok(),
        }
    }

    /// Plays an event, and tells what became of it.
    fn play(&mut self, word: &str, values: &str) -> Option<String> {
        let cluster = self.cluster.as_mut()?;
        let event = event_named(self.alloc, word, values)?;
        match cluster.play(self.alloc, &event) {
            Ok(mark) => mark_text(self.alloc, event, mark, cluster.saved()),
            Err(fault) => format!(in self.alloc; "{fault}").ok(),
        }
    }
}

/// Returns how many there are, or the fault.
fn count_text(alloc: Global, count: Result<usize, SimFault>) -> Option<String> {
    match count {
        Ok(count) => format!(in alloc; "{count}").ok(),
        Err(fault) => format!(in alloc; "{fault}").ok(),
    }
}

/// The size and the liars of a text.
fn cluster_named(alloc: Global, text: &str) -> Option<(Size, Vec<u8>)> {
    let words = words_of(alloc, text)?;
    cluster_of(alloc, &words)
}

/// The size and the liars of these words.
fn cluster_of(alloc: Global, words: &[&str]) -> Option<(Size, Vec<u8>)> {
    let [n, t, questions, liars @ ..] = words else {
        return None;
    };
    let size = size_of(n, t, questions)?;
    Some((size, liars_of(alloc, liars)?))
}

/// The numbers of liars.
fn liars_of(alloc: Global, words: &[&str]) -> Option<Vec<u8>> {
    let mut liars = Vec::new(alloc);
    for word in words {
        liars.push(word.parse().ok()?).ok()?;
    }
    Some(liars)
}

/// Returns what became of an event and what it saved, as a trace has it.
fn mark_text(alloc: Global, event: Event, mark: Mark, saved: &[Record]) -> Option<String> {
    let events = [event];
    let saved = list_of(alloc, saved)?;
    let mut text = Vec::new(alloc);
    match write_trace(alloc, &events, &[mark], &saved, &mut text) {
        Ok(()) => line_of(alloc, &text),
        Err(_) => None,
    }
}

/// The records, as a list of their own.
fn list_of(alloc: Global, records: &[Record]) -> Option<Vec<Vec<Record>>> {
    let mut lists = Vec::new(alloc);
    lists.push(Vec::from_slice(alloc, records).ok()?).ok()?;
    Some(lists)
}

/// The line of a trace without its number.
fn line_of(alloc: Global, text: &[u8]) -> Option<String> {
    let (_, told) = str::from_utf8(text).ok()?.split_once(": ")?;
    String::from_str(alloc, told.trim_end()).ok()
}

/// The event of a word and a text of values.
fn event_named(alloc: Global, word: &str, text: &str) -> Option<Event> {
    let values = words_of(alloc, text)?;
    event_of(alloc, word, &values)
}

/// The event of a word and these values.
fn event_of(alloc: Global, word: &str, values: &[&str]) -> Option<Event> {
    match word {
        "propose" => proposal_of(alloc, values),
        "deliver" => delivery_of(alloc, values),
        "group" => group_of(alloc, values),
        _ => None,
    }
}

/// The proposal of these words.
fn proposal_of(alloc: Global, words: &[&str]) -> Option<Event> {
    let [member, question, bit, toss] = words else {
        return None;
    };
    Some(Event::Propose {
        member: member.parse().ok()?,
        question: question.parse().ok()?,
        bit: *bit == "1",
        toss: toss_of(alloc, toss)?,
    })
}

/// The delivery of these words.
fn delivery_of(alloc: Global, words: &[&str]) -> Option<Event> {
    let [from, to, which, toss] = words else {
        return None;
    };
    Some(Event::Deliver {
        from: from.parse().ok()?,
        to: to.parse().ok()?,
        which: which_of(which)?,
        toss: toss_of(alloc, toss)?,
    })
}

/// Returns which statement is delivered.
fn which_of(word: &str) -> Option<Which> {
    match word {
        "next" => Some(Which::Next),
        number => Some(Which::At(number.parse().ok()?)),
    }
}

/// The delivery of a group of these words.
fn group_of(alloc: Global, words: &[&str]) -> Option<Event> {
    let [from, to, count, toss] = words else {
        return None;
    };
    Some(Event::DeliverAll {
        from: from.parse().ok()?,
        to: to.parse().ok()?,
        count: count.parse().ok()?,
        toss: toss_of(alloc, toss)?,
    })
}
