//! The thread that follows a member's decisions: begin at `follow_on`.

use crate::deadline::Deadline;
use crate::lines::DeskLines;
use crate::serving::Runner;
use crate::shared::{Shared, time_now};
use crate::speaker::Speaker;
use gateway::{Reply, Told, reply_of};
use std::net::TcpStream;
use std::sync::Arc;
use std::time::Duration;
use std::{io, thread};

/// The milliseconds in which a desk has to take a connection or a line.
pub(crate) const PROMPT: u64 = 2000;

/// The milliseconds after which a follower that is told nothing calls the connection dead. A desk
/// says something every five seconds.
const SILENCE: u64 = 12_000;

/// The longest rest between two connections, in milliseconds.
const LONGEST_REST: u64 = 4000;

/// The first rest.
pub(crate) const FIRST_REST: u64 = 250;

/// The greatest number from which a desk of one cluster lets one follow.
const LAST_NUMBER: u64 = 99_999;

/// Follows a member, over one connection after the other, until the gateway ends.
pub(crate) fn follow_on<R: Runner>(rt: R, shared: Arc<Shared>, member: u8) {
    let shared: &Shared = &shared;
    let mut number = None;
    let mut rest = FIRST_REST;
    for _ in 0..u64::MAX {
        let before = number;
        let _ended = follow_once(&rt, shared, member, &mut number).is_err();
        if shared.is_over() {
            return;
        }
        rest = if number != before {
            FIRST_REST
        } else {
            longer_rest(rest)
        };
        thread::sleep(&rt, Duration::from_millis(rest));
    }
}

/// Follows a member over one connection, from this number on if there is one.
fn follow_once<R: Runner>(
    rt: &R,
    shared: &Shared,
    member: u8,
    number: &mut Option<u64>,
) -> io::Result<()> {
    let mut lines = connect(rt, shared, member)?;
    let mut from = match *number {
        Some(from) => from,
        None => first_number(rt, shared, &mut lines, member)?,
    };
    let ended = follow_from(rt, shared, &mut lines, member, &mut from);
    *number = Some(from);
    ended
}

/// Returns the number from which a member is followed first: that of the first decision; in a chain
/// that of the epoch in which the window begins once more than t members are where this one is.
fn first_number<R: Runner>(
    rt: &R,
    shared: &Shared,
    lines: &mut DeskLines,
    member: u8,
) -> io::Result<u64> {
    if !shared.scope.chain {
        return Ok(0);
    }
    let closed = closed_epochs(rt, shared, lines)?;
    let slot = closed.saturating_mul(u64::from(shared.scope.size.questions()));
    let mut book = shared.book.lock(rt);
    book.reach(member, slot)?;
    Ok(book.watch().follow_from(slot))
}

/// Returns the reply to the line `EPOCHS`: the first epoch that isn't closed at the member; 0 if it
/// says none.
fn closed_epochs<R: Runner>(rt: &R, shared: &Shared, lines: &mut DeskLines) -> io::Result<u64> {
    lines.send(rt, "EPOCHS\n", Deadline::new(rt, PROMPT)?)?;
    let line = lines.next(rt, shared.alloc, Deadline::new(rt, PROMPT)?)?;
    match reply_of(&line) {
        Reply::Epochs { closed, .. } => Ok(closed),
        _ => Ok(0),
    }
}

/// Takes the decisions that a member tells from this number on, until the connection ends, and
/// counts them. One that comes after the window ends it too: the window moves no further than more
/// than t members have come.
fn follow_from<R: Runner>(
    rt: &R,
    shared: &Shared,
    lines: &mut DeskLines,
    member: u8,
    number: &mut u64,
) -> io::Result<()> {
    let line = format!(in shared.alloc; "FOLLOW {}\n", *number)?;
    lines.send(rt, line.as_str(), Deadline::new(rt, PROMPT)?)?;
    for _ in 0..u64::MAX {
        let line = lines.next(rt, shared.alloc, Deadline::new(rt, SILENCE)?)?;
        if shared.is_over() {
            return Ok(());
        }
        if let Reply::Decided { question, bit } = reply_of(&line) {
            let told = Told {
                member,
                question,
                bit,
            };
            if !hear(rt, shared, told) {
                return Ok(());
            }
            *number = number_after(shared, *number, question);
        }
    }
    Ok(())
}

/// Takes a decision that a member told. Returns `false` if it comes after the window: it is to be
/// told again.
fn hear<R: Runner>(rt: &R, shared: &Shared, told: Told) -> bool {
    let time = time_now(rt);
    let heard = shared.book.lock(rt).hear(told, time);
    shared.changed.notify_all();
    heard
}

/// Returns the number from which a member is followed, once it told a decision of this question.
fn number_after(shared: &Shared, number: u64, question: u64) -> u64 {
    let next = shared.scope.next_number(number, question);
    if shared.scope.chain {
        next
    } else {
        next.min(LAST_NUMBER)
    }
}

/// Returns the lines of a new connection to a member's desk.
pub(crate) fn connect<R: Speaker>(rt: &R, shared: &Shared, member: u8) -> io::Result<DeskLines> {
    let Some(desk) = shared.desks.get(usize::from(member)) else {
        return Err(io::Error::from(io::ErrorKind::NotFound));
    };
    let limit = Duration::from_millis(PROMPT);
    let socket = TcpStream::connect_timeout(rt, desk, limit)?;
    Ok(DeskLines::new(shared.alloc, socket))
}

/// Returns twice the rest, but no longer one than is had.
pub(crate) fn longer_rest(rest: u64) -> u64 {
    rest.saturating_mul(2).min(LONGEST_REST)
}
