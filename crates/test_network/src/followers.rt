//! A follower of decisions, over a stream that takes what its row says.
//!
//! `follows NUMBER STEPS` tells a new follower the decisions from that number on. A step is
//! `COUNT`, at which the follower is told once, and the stream takes so many bytes at most; `fail`,
//! the same with a write that fails; `+SECONDS`, after which so many seconds more have passed; or
//! `left`, from which on the client's input has ended. The answer is what the last call said, and
//! all that was written, with `|` for each end of a line.

use crate::texts::{add, lines_text, nothing};
use desk::{FollowEnd, Follower, Outlet, Telling};
use disk::MemDisk;
use links::StreamFault;
use node::{Hub, Naming};
use std::alloc::Global;
use std::sync::Wait;

/// Plays the row of a follower.
pub fn told<J: Naming, R: Wait>(
    rt: &R,
    alloc: Global,
    hub: &Hub<MemDisk, J>,
    words: &[&str],
) -> Option<String> {
    let [number, steps @ ..] = words else {
        return None;
    };
    let number = number.parse().ok()?;
    let mut stream = Taking {
        output: Vec::new(alloc),
        most: None,
        has_left: false,
    };
    let mut text = follow(rt, alloc, (hub, number), &mut stream, steps)?;
    let written = lines_text(alloc, &stream.output)?;
    add(&mut text, " ", written.as_str())?;
    Some(text)
}

/// Tells a follower from that number on, and returns what came of it last.
fn follow<J: Naming, R: Wait>(
    rt: &R,
    alloc: Global,
    (hub, number): (&Hub<MemDisk, J>, u64),
    stream: &mut Taking,
    steps: &[&str],
) -> Option<String> {
    let mut follower = Follower::new(hub, number);
    let mut last = None;
    for step in steps {
        if prepare(rt, hub, stream, step)? {
            last = Some(follower.tell(rt, hub, stream));
        }
    }
    said_text(alloc, last)
}

/// Prepares the stream and the hub as the step says, and returns `true` if the follower is to be
/// told then.
fn prepare<J: Naming, R: Wait>(
    rt: &R,
    hub: &Hub<MemDisk, J>,
    stream: &mut Taking,
    step: &str,
) -> Option<bool> {
    if let Some(seconds) = step.strip_prefix("+") {
        pass(rt, hub, seconds.parse().ok()?);
        return Some(false);
    }
    match step {
        "left" => {
            stream.has_left = true;
            Some(false)
        }
        "fail" => {
            stream.most = None;
            Some(true)
        }
        count => {
            stream.most = Some(count.parse().ok()?);
            Some(true)
        }
    }
}

/// Counts so many seconds.
fn pass<J: Naming, R: Wait>(rt: &R, hub: &Hub<MemDisk, J>, seconds: u64) {
    for _ in 0..seconds {
        hub.count_second(rt);
    }
}

/// Returns what came of the last call, if there was one.
fn said_text(alloc: Global, last: Option<Result<Telling, FollowEnd>>) -> Option<String> {
    match last {
        Some(Ok(telling)) => word_of(telling).to_string(alloc).ok(),
        Some(Err(end)) => format!(in alloc; "{end:?}").ok(),
        None => nothing(alloc),
    }
}

/// Returns the word for what a follower was told.
fn word_of(telling: Telling) -> &'static str {
    match telling {
        Telling::Nothing => "Nothing",
        Telling::Lines => "Lines",
        Telling::Part => "Part",
    }
}

/// A stream that takes so many bytes at a write.
#[derive(Drop)]
struct Taking {
    output: Vec<u8>,
    /// The most bytes that the next write takes; none if it fails.
    most: Option<usize>,
    has_left: bool,
}

impl Outlet for Taking {
    ghost written = { λ taking. taking.output.items };

    fn write(&mut self, bytes: &[u8]) -> Result<usize, StreamFault> {
        let Some(most) = self.most else {
            return Err(StreamFault);
        };
        let count = bytes.len().min(most);
        if self.output.extend_from_slice(&bytes[..count]).is_err() {
            return Err(StreamFault);
        }
        Ok(count)
    }

    fn has_ended(&mut self) -> bool {
        self.has_left
    }
}
