//! The life of a member over a disk in memory: what it hears and is proposed, what its disk does,
//! and its restarts.
//!
//! `size N T QUESTIONS me M` is the member M of cluster 7, on a new disk that has its journal.
//! `open` opens it there, or once more, and answers its records; `crash kept`, `crash lost` and
//! `crash fill BYTE` open what a crash leaves. `hear FROM FRAME TOSS` and `propose QUESTION BIT
//! TOSS` answer; `all FROM FRAME TOSS, ..` hears a group, and answers all in turn. `fuse CALLS`
//! lets so many calls of the device pass, `fuse out` all. `outbox`, `verdict QUESTION`, `stopped`,
//! `stop` are as the member has it, and `len` is its file's length. `empty` is a disk of nothing,
//! and `disk DIGITS` one that has these bytes; `create` makes a journal there, and `create with
//! CALLS` where so many calls of the device pass.

use crate::values::pick_named;
use disk::{Disk, MemDisk};
use journal::create;
use member::{Member, MemberFault};
use questions::Answer;
use rounds::Toss;
use std::alloc::Global;
use std::marker::Model;
use terms::{Header, Record, Size, Statement};
use test_words::{
    answer_text, bytes_of, disk_of, header_of, records_text, statement_of, toss_of, words_of,
};

/// A member, up or down.
#[derive(Drop)]
pub struct Life {
    alloc: Global,
    header: Option<Header>,
    disk: Option<MemDisk>,
    up: Option<Up>,
}

impl Life {
    /// Of no member yet.
    pub fn new(alloc: Global) -> Life {
        Life {
            alloc,
            header: None,
            disk: None,
            up: None,
        }
    }

    /// Plays a row.
    pub fn told(&mut self, action: &str) -> Option<String> {
        match action.split_once(' ') {
            Some((word, rest)) => self.given(word, rest),
            None => self.plain(action),
        }
    }

    /// Plays a row of a word and values, of which any member and any disk knows.
    fn given(&mut self, word: &str, values: &str) -> Option<String> {
        match word {
            "hear" => self.hear(values),
            "all" => self.hear_all(values),
            "size" => self.begin(values),
            "open" => self.open_as(values),
            "crash" => self.crash(values),
            "disk" => self.restore(values),
            "create" => self.make(Some(calls_of(values)?)),
            word => self.up.as_mut()?.given(self.alloc, word, values),
        }
    }

    /// Hears a statement.
    fn hear(&mut self, event: &str) -> Option<String> {
        let event = event_of(self.alloc, event)?;
        self.up.as_mut()?.hear(self.alloc, &event)
    }

    /// A member of that header on a new disk. It is down.
    fn begin(&mut self, values: &str) -> Option<String> {
        self.header = Some(header_with(self.alloc, values)?);
        self.disk = Some(MemDisk::new(self.alloc));
        self.up = None;
        self.make(None)
    }

    /// Opens it on a disk of which so many calls pass, or as a member of another cluster.
    fn open_as(&mut self, values: &str) -> Option<String> {
        match values.strip_prefix("as ") {
            Some(cluster) => self.open_in(cluster.parse().ok()?),
            None => self.reopen(Some(calls_of(values)?)),
        }
    }

    /// Opens it as a member of that cluster.
    fn open_in(&mut self, cluster: u64) -> Option<String> {
        let header = self.header?;
        let header = Header::new(cluster, header.size(), header.me())?;
        let disk = self.take_disk()?;
        self.open(disk, &header)
    }

    /// Opens what a crash leaves.
    fn crash(&mut self, pick: &str) -> Option<String> {
        let (header, pick) = (self.header?, pick_named(self.alloc, pick)?);
        let left = self.take_disk()?.crash(pick).ok()?;
        self.open(left, &header)
    }

    /// Gives it a disk of these bytes. It is down then.
    fn restore(&mut self, digits: &str) -> Option<String> {
        let bytes = bytes_of(self.alloc, digits)?;
        match disk_of(self.alloc, &bytes) {
            Ok(disk) => self.put(disk),
            Err(_) => None,
        }
    }

    /// Plays a row of one word, of which any member and any disk knows.
    fn plain(&mut self, word: &str) -> Option<String> {
        match word {
            "all" => self.hear_all(""),
            "open" => self.reopen(None),
            "empty" => self.put(MemDisk::new(self.alloc)),
            "create" => self.make(None),
            "len" => self.len(),
            word => self.up.as_mut()?.asked(self.alloc, word),
        }
    }

    /// Hears a group.
    fn hear_all(&mut self, group: &str) -> Option<String> {
        let events = events_of(self.alloc, group)?;
        match &mut self.up {
            Some(up) => up.hear_all(self.alloc, &events),
            None => None,
        }
    }

    /// Opens it where so many calls of its disk pass.
    fn reopen(&mut self, calls: Option<u64>) -> Option<String> {
        let header = self.header?;
        let mut disk = self.take_disk()?;
        disk.fuse(calls);
        self.open(disk, &header)
    }

    /// Opens it on that disk, and tells its records or the fault. After a fault it is down.
    fn open(&mut self, disk: MemDisk, header: &Header) -> Option<String> {
        match Member::adopt(self.alloc, disk, header) {
            Ok(member) => {
                let text = records_text(self.alloc, "", member.records()).ok();
                self.up = Some(Up { member });
                text
            }
            Err((fault, disk)) => {
                self.disk = Some(disk);
                format!(in self.alloc; "{fault}").ok()
            }
        }
    }

    /// Gives it another disk. It is down then.
    fn put(&mut self, disk: MemDisk) -> Option<String> {
        self.up = None;
        self.disk = Some(disk);
        Some(String::new(self.alloc))
    }

    /// Makes its journal on the disk that is there, where so many calls of it pass, and tells the
    /// fault. It is down then.
    fn make(&mut self, calls: Option<u64>) -> Option<String> {
        let header = self.header?;
        let mut disk = self.take_disk()?;
        disk.fuse(calls);
        let made = create(&mut disk, &header);
        disk.fuse(None);
        self.disk = Some(disk);
        match made {
            Ok(()) => Some(String::new(self.alloc)),
            Err(fault) => format!(in self.alloc; "{fault}").ok(),
        }
    }

    /// The length of its file. It is down then.
    fn len(&mut self) -> Option<String> {
        let mut disk = self.take_disk()?;
        disk.fuse(None);
        let len = disk.len();
        self.disk = Some(disk);
        format!(in self.alloc; "{}", len.ok()?).ok()
    }

    /// Closes it where it is up, and takes its disk.
    fn take_disk(&mut self) -> Option<MemDisk> {
        match self.up.take() {
            Some(up) => Some(up.member.into_disk()),
            None => self.disk.take(),
        }
    }
}

/// Reads how many calls of a disk pass.
fn calls_of(values: &str) -> Option<u64> {
    values.strip_prefix("with ")?.parse().ok()
}

/// The header of a text of a size, `me`, and a member.
fn header_with(alloc: Global, values: &str) -> Option<Header> {
    let words = words_of(alloc, values)?;
    match words.as_slice() {
        [n, t, questions, "me", me] => header_of(n, t, questions, me),
        _ => None,
    }
}

/// A member that is up.
#[derive(Drop)]
struct Up {
    member: Member<MemDisk>,
}

impl Model for Up {
    ghost use Rattle.member.specs.Memory.{memory_disk};
    ghost use Rattle.member.specs.Sound.{IsSound};

    ghost Value = { Unit {0} };

    ghost view = { λ _. tt };

    ghost invariant = { λ up. IsSound memory_disk up.member };
}

impl Up {
    /// Hears a statement.
    fn hear(&mut self, alloc: Global, event: &Event) -> Option<String> {
        let (from, statement, toss) = event;
        told_of(alloc, self.member.hear(*from, statement, *toss))
    }

    /// Hears a group.
    fn hear_all(&mut self, alloc: Global, events: &[Event]) -> Option<String> {
        if events.len() > 256 {
            return None;
        }
        match self.member.hear_all(events) {
            Ok(answers) => answers_text(alloc, &answers),
            Err(fault) => format!(in alloc; "{fault}").ok(),
        }
    }

    /// Plays a row of one word.
    fn asked(&mut self, alloc: Global, word: &str) -> Option<String> {
        match word {
            "outbox" => self.outbox(alloc),
            "stopped" => format!(in alloc; "{}", self.member.is_stopped()).ok(),
            "stop" => {
                self.member.stop();
                Some(String::new(alloc))
            }
            _ => None,
        }
    }

    /// Returns what its outbox has: the number and the record of each statement.
    fn outbox(&self, alloc: Global) -> Option<String> {
        let mut text = String::new(alloc);
        for sealed in self.member.outbox() {
            let item = sealed_text(alloc, sealed.number(), sealed.statement())?;
            add(&mut text, " ", item.as_str())?;
        }
        Some(text)
    }

    /// Plays a row of a word and values.
    fn given(&mut self, alloc: Global, word: &str, values: &str) -> Option<String> {
        match word {
            "propose" => self.propose(alloc, values),
            "verdict" => self.verdict(alloc, values.parse().ok()?),
            "fuse" => self.fuse(alloc, values),
            _ => None,
        }
    }

    /// Proposes a bit to it.
    fn propose(&mut self, alloc: Global, values: &str) -> Option<String> {
        let (question, rest) = values.split_once(' ')?;
        let (bit, toss) = rest.split_once(' ')?;
        let (question, toss) = (question.parse().ok()?, toss_of(alloc, toss)?);
        told_of(alloc, self.member.propose(question, bit == "1", toss))
    }

    /// Returns what it decided.
    fn verdict(&self, alloc: Global, question: u16) -> Option<String> {
        match self.member.verdict(question) {
            Some(bit) => format!(in alloc; "{}", u8::from(bit)).ok(),
            None => format!(in alloc; "none").ok(),
        }
    }

    /// Lets so many calls of its disk pass, or all.
    fn fuse(&mut self, alloc: Global, calls: &str) -> Option<String> {
        match calls {
            "out" => self.member.fuse(None),
            calls => self.member.fuse(Some(calls.parse().ok()?)),
        }
        Some(String::new(alloc))
    }
}

/// A member's event: who says it, what is said, and the toss.
type Event = (u8, Statement, Toss);

/// Returns what is said of an answer, or of the fault.
fn told_of(alloc: Global, answer: Result<Answer, MemberFault>) -> Option<String> {
    match answer {
        Ok(answer) => answer_text(alloc, &answer).ok(),
        Err(fault) => format!(in alloc; "{fault}").ok(),
    }
}

/// Returns what is said of the answers to a group.
fn answers_text(alloc: Global, answers: &[Answer]) -> Option<String> {
    let mut text = String::new(alloc);
    for answer in answers {
        let item = answer_text(alloc, answer).ok()?;
        add(&mut text, ", ", item.as_str())?;
    }
    Some(text)
}

/// Adds an item to a list, with a gap before it unless it is the first.
fn add(text: &mut String, gap: &str, item: &str) -> Option<()> {
    if !text.is_empty() {
        text.push_str(gap).ok()?;
    }
    text.push_str(item).ok()
}

/// The number and the record of a statement.
fn sealed_text(alloc: Global, number: u64, statement: Statement) -> Option<String> {
    let record = records_text(alloc, "", &[Record::Said(statement)]).ok()?;
    format!(in alloc; "{number} {record}").ok()
}

/// The events of a group, with a comma between two.
fn events_of(alloc: Global, text: &str) -> Option<Vec<Event>> {
    let mut events = Vec::new(alloc);
    if text.is_empty() {
        return Some(events);
    }
    for event in text.split(", ") {
        events.push(event_of(alloc, event)?).ok()?;
    }
    Some(events)
}

/// Reads an event.
fn event_of(alloc: Global, text: &str) -> Option<Event> {
    let (from, rest) = text.split_once(' ')?;
    let (frame, toss) = rest.split_once(' ')?;
    let any = Size::new(64, 0, 4096).ok()?;
    let statement = statement_of(alloc, any, frame)?;
    Some((from.parse().ok()?, statement, toss_of(alloc, toss)?))
}
