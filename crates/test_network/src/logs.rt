//! What a member that runs tells its log, and the places that its peers and clients get.
//!
//! `event NAME ..` answers an event's line, and `refused CAUSE HOST COUNT CALLER ..` that of
//! refusals of a host `10.0.0.HOST`, or `refused by MEMBER COUNT`; `unheard`, `unanswered`,
//! `unknown` and `failed` are the causes for which a member can't be reached. A caller is `none`,
//! `member` of itself, or that and in what it differs. `closed HOST SLOT SILENT` is the line of a
//! client that was closed for another, `HOST` a dash where it isn't known.
//!
//! `refusals` begins with none. `count SECOND CAUSE HOST MEMBER`, or `count SECOND by PEER MEMBER`,
//! answers what is told then: of another refusal that gave its place, and of this one; each is a
//! dash, or the refusal, the member and the count. `due SECOND` answers the counts that are due.
//! `queue` begins an empty one, `put COUNT` puts so many decisions in, and `drain` answers how many
//! there are, how many are missed, and the first and the last.
//!
//! `tosser BYTE RECORDS PLACE` is the first toss of a life that begins with so many records, at a
//! place, of a seed of that byte 32 times. Rows of `src/places.rt` are answered too.

use crate::places::Places;
use crate::texts::{add, flag_text, nothing, number_of, version_of};
use links::LinkEnd;
use rounds::Tosser;
use running::{
    Caller, DialFault, Difference, LogEvent, Queue, Refusal, RefusalCount, Refusals, tosser_for,
};
use std::alloc::Global;
use std::net::IpAddr;
use test_words::words_of;
use wire::{Version, WireFault};

/// A log's parts, and the places of peers and clients.
#[derive(Drop)]
pub struct Logs {
    alloc: Global,
    refusals: Refusals,
    queue: Queue,
    places: Places,
}

impl Logs {
    /// Of nothing yet.
    pub fn new(alloc: Global) -> Logs {
        Logs {
            alloc,
            refusals: Refusals::new(),
            queue: Queue::new(alloc),
            places: Places::new(),
        }
    }

    /// Plays a row.
    pub fn told(&mut self, action: &str) -> Option<String> {
        self.row(&words_of(self.alloc, action)?)
    }

    /// Plays a row of words.
    fn row(&mut self, words: &[&str]) -> Option<String> {
        let (word, rest) = words.split_first()?;
        match *word {
            "event" => line_of(self.alloc, event_of(rest)?),
            "refused" => line_of(self.alloc, refused_of(rest)?),
            "closed" => line_of(self.alloc, closed_of(rest)?),
            "refusals" => self.begin_refusals(),
            "count" => self.count(rest),
            "due" => self.due(rest),
            "tosser" => tosser_text(self.alloc, rest),
            "queue" => self.begin_queue(),
            "put" => self.put(rest),
            "drain" => queue_text(self.alloc, &mut self.queue),
            "empty" => flag_text(self.alloc, self.queue.is_empty()),
            _ => self.places.told(self.alloc, words),
        }
    }

    /// Begins with no refusals.
    fn begin_refusals(&mut self) -> Option<String> {
        self.refusals = Refusals::new();
        nothing(self.alloc)
    }

    /// Counts a refusal, and returns what is told then.
    fn count(&mut self, words: &[&str]) -> Option<String> {
        let [now, cause, number, member] = words else {
            return None;
        };
        let refusal = refusal_of(cause, number)?;
        let caller = caller_of(&[member])?;
        let (left, line) = self.refusals.count(now.parse().ok()?, refusal, caller);
        counts_text(self.alloc, left, line)
    }

    /// Returns the counts that are due at a second.
    fn due(&mut self, words: &[&str]) -> Option<String> {
        let [now] = words else {
            return None;
        };
        let now = now.parse().ok()?;
        let mut queue = Queue::new(self.alloc);
        self.refusals.tell_due(now, &mut queue);
        due_text(self.alloc, &mut queue)
    }

    /// Begins with an empty queue.
    fn begin_queue(&mut self) -> Option<String> {
        self.queue = Queue::new(self.alloc);
        nothing(self.alloc)
    }

    /// Puts so many decisions into the queue.
    fn put(&mut self, words: &[&str]) -> Option<String> {
        let [count] = words else {
            return None;
        };
        for question in 0..count.parse().ok()? {
            self.queue.put(LogEvent::Decided(question, true));
        }
        nothing(self.alloc)
    }
}

/// Returns an event's line.
fn line_of(alloc: Global, event: LogEvent) -> Option<String> {
    format!(in alloc; "{event}").ok()
}

/// Returns the event of these words.
fn event_of(words: &[&str]) -> Option<LogEvent> {
    let (name, rest) = words.split_first()?;
    match *name {
        "Ready" => Some(LogEvent::Ready(number_of(rest)?)),
        "Decided" => decided_of(rest),
        "Stopped" => Some(LogEvent::Stopped),
        "Missed" => Some(LogEvent::Missed(number_of(rest)?)),
        "End" => Some(LogEvent::End),
        _ => link_event_of(name, rest),
    }
}

/// Returns the event of a decision.
fn decided_of(words: &[&str]) -> Option<LogEvent> {
    let [question, bit] = words else {
        return None;
    };
    Some(LogEvent::Decided(question.parse().ok()?, *bit == "1"))
}

/// Returns the event of a link, of that name.
fn link_event_of(name: &str, words: &[&str]) -> Option<LogEvent> {
    let (peer, rest) = words.split_first()?;
    let peer = peer.parse().ok()?;
    match name {
        "LinkUp" => Some(LogEvent::LinkUp(peer, version_in(rest)?)),
        "LinkUpTo" => Some(LogEvent::LinkUpTo(peer, version_in(rest)?)),
        "LinkUpAhead" => ahead_of(peer, rest),
        "LinkDown" => Some(LogEvent::LinkDown(peer, end_of(rest)?)),
        "LinkDownTo" => Some(LogEvent::LinkDownTo(peer, end_of(rest)?)),
        _ => None,
    }
}

/// Returns the version that is the only word.
fn version_in(words: &[&str]) -> Option<Version> {
    match words {
        [version] => version_of(version),
        _ => None,
    }
}

/// Returns the event of a link whose peer has heard more than this member's journal holds.
fn ahead_of(peer: u8, words: &[&str]) -> Option<LogEvent> {
    let [ahead, version] = words else {
        return None;
    };
    let (ahead, version) = (ahead.parse().ok()?, version_of(version)?);
    Some(LogEvent::LinkUpAhead(peer, ahead, version))
}

/// Returns the end of a link of these words.
fn end_of(words: &[&str]) -> Option<LinkEnd> {
    match words {
        ["Lost"] => Some(LinkEnd::Lost),
        ["OutOfOrder"] => Some(LinkEnd::OutOfOrder),
        ["Stopped"] => Some(LinkEnd::Stopped),
        ["Memory"] => Some(LinkEnd::Memory),
        ["Broken", "BadValue"] => Some(LinkEnd::Broken(WireFault::BadValue)),
        ["Broken", "BadCount"] => Some(LinkEnd::Broken(WireFault::BadCount)),
        _ => None,
    }
}

/// Returns the event of refusals of these words.
fn refused_of(words: &[&str]) -> Option<LogEvent> {
    let [cause, number, count, caller @ ..] = words else {
        return None;
    };
    Some(LogEvent::Refused(RefusalCount {
        refusal: refusal_of(cause, number)?,
        caller: caller_of(caller)?,
        count: count.parse().ok()?,
    }))
}

/// Returns the event of a client that was closed for another.
fn closed_of(words: &[&str]) -> Option<LogEvent> {
    let [host, slot, silent] = words else {
        return None;
    };
    Some(LogEvent::ClientClosed {
        host: host.parse().ok(),
        slot: slot.parse().ok()?,
        silent: silent.parse().ok()?,
    })
}

/// Returns the refusal of a cause and a host, or by a peer.
fn refusal_of(cause: &str, number: &str) -> Option<Refusal> {
    let number = number.parse().ok()?;
    let host = IpAddr::from([10, 0, 0, number]);
    match cause {
        "stranger" => Some(Refusal::From(host, LinkEnd::Stranger)),
        "busy" => Some(Refusal::From(host, LinkEnd::Busy)),
        "broken" => Some(Refusal::From(host, LinkEnd::Broken(WireFault::BadHello))),
        "by" => Some(Refusal::By(number)),
        "unsteady" => Some(Refusal::Unsteady(number)),
        "threadless" => Some(Refusal::Threadless),
        "crowded" => Some(Refusal::Crowded),
        "stalled" => Some(Refusal::Stalled(host)),
        cause => Some(Refusal::Unreachable(number, dial_fault_of(cause)?)),
    }
}

/// Returns why a member can't be reached, by one word.
fn dial_fault_of(word: &str) -> Option<DialFault> {
    match word {
        "unheard" => Some(DialFault::Refused),
        "unanswered" => Some(DialFault::NoAnswer),
        "unknown" => Some(DialFault::NoRoute),
        "failed" => Some(DialFault::Failed),
        _ => None,
    }
}

/// Returns the caller of these words: none within if they say that there is none.
fn caller_of(words: &[&str]) -> Option<Option<Caller>> {
    match words {
        ["none"] => Some(None),
        [member] => Some(Some(caller(member, None)?)),
        [member, differs @ ..] => Some(Some(caller(member, Some(difference_of(differs)?))?)),
        [] => None,
    }
}

/// Returns a caller with the number of its member.
fn caller(member: &str, differs: Option<Difference>) -> Option<Caller> {
    Some(Caller {
        member: member.parse().ok()?,
        differs,
    })
}

/// Returns in what a caller differs.
fn difference_of(words: &[&str]) -> Option<Difference> {
    let (word, rest) = words.split_first()?;
    match *word {
        "cluster" => Some(Difference::Cluster(number_of(rest)?)),
        "to" => Some(Difference::To(number_of(rest)?)),
        "host" => Some(Difference::Host),
        "version" => Some(Difference::Version(number_of(rest)?)),
        "size" => size_of(rest),
        _ => None,
    }
}

/// Returns the difference of a size.
fn size_of(words: &[&str]) -> Option<Difference> {
    let [n, t, questions] = words else {
        return None;
    };
    Some(Difference::Size {
        n: n.parse().ok()?,
        t: t.parse().ok()?,
        questions: questions.parse().ok()?,
    })
}

/// Returns what is told of two refusals.
fn counts_text(
    alloc: Global,
    left: Option<RefusalCount>,
    line: Option<RefusalCount>,
) -> Option<String> {
    let mut text = count_text(alloc, left)?;
    let line = count_text(alloc, line)?;
    add(&mut text, ", ", line.as_str())?;
    Some(text)
}

/// Returns what is told of a refusal, in words: its cause, the host's last number or the peer's,
/// the member and the count.
fn count_text(alloc: Global, told: Option<RefusalCount>) -> Option<String> {
    let Some(told) = told else {
        return format!(in alloc; "-").ok();
    };
    let (member, count) = (told.caller?.member, told.count);
    match told.refusal {
        Refusal::By(peer) => format!(in alloc; "by {peer} {member} {count}").ok(),
        Refusal::From(IpAddr::V4(host), end) => {
            let [_, _, _, last] = host.octets();
            format!(in alloc; "{end} {last} {member} {count}").ok()
        }
        _ => None,
    }
}

/// Returns the counts of refusals in a queue.
fn due_text(alloc: Global, queue: &mut Queue) -> Option<String> {
    let (events, _) = queue.drain(alloc);
    let mut text = String::new(alloc);
    for event in &events {
        let count = format!(in alloc; "{}", count_of(event)?).ok()?;
        add(&mut text, " ", count.as_str())?;
    }
    Some(text)
}

/// Returns the count of an event of refusals.
fn count_of(event: &LogEvent) -> Option<u64> {
    match event {
        LogEvent::Refused(told) => Some(told.count),
        _ => None,
    }
}

/// Returns the first toss of a life, at a place.
fn tosser_text(alloc: Global, words: &[&str]) -> Option<String> {
    let [byte, records, place] = words else {
        return None;
    };
    let (byte, records, place) = (
        byte.parse().ok()?,
        records.parse().ok()?,
        place.parse().ok()?,
    );
    let toss = tosser_for([byte; 32], records, place).toss();
    format!(in alloc; "{:016x}", toss.0).ok()
}

/// Returns what a queue has, and how many are missed.
fn queue_text(alloc: Global, queue: &mut Queue) -> Option<String> {
    let (events, missed) = queue.drain(alloc);
    let count = events.len();
    match (events.first(), events.last()) {
        (Some(first), Some(last)) => {
            format!(in alloc; "{count} missed {missed}: {first} to {last}").ok()
        }
        _ => format!(in alloc; "{count} missed {missed}").ok(),
    }
}
