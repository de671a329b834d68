//! The thread that asks a member how it is, and makes proposals to it: begin at `ask_on`.

use crate::book::Motion;
use crate::deadline::Deadline;
use crate::following::{FIRST_REST, PROMPT, connect, longer_rest};
use crate::lines::DeskLines;
use crate::ranks::Rank;
use crate::serving::Runner;
use crate::shared::{Shared, time_now};
use gateway::{MemberState, Reply, Told, reply_of};
use std::sync::Arc;
use std::time::Duration;
use std::{io, thread};

/// The milliseconds between two questions for the member's state.
const PACE: u64 = 2000;

/// The most questions that a member is asked for each time.
const MOST_STATES: u32 = 16;

/// The way through the questions of a rank, for which a member is asked in turn.
#[derive(Clone, Copy, Debug, PartialEq, Eq)]
struct Walk {
    rank: Rank,
    /// The question from which it goes on.
    next: u64,
}

/// Speaks to the member, over one connection after the other, until the gateway ends.
pub(crate) fn ask_on<R: Runner>(rt: R, shared: Arc<Shared>, member: u8) {
    let shared: &Shared = &shared;
    let mut rest = FIRST_REST;
    for _ in 0..u64::MAX {
        let begun = Deadline::new(&rt, PACE);
        let _ended = ask_once(&rt, shared, member).is_err();
        if shared.is_over() {
            return;
        }
        shared.book.lock(&rt).set_state(member, MemberState::Silent);
        shared.changed.notify_all();
        let lived = match begun {
            Ok(begun) => begun.left(&rt).is_err(),
            Err(_) => false,
        };
        rest = if lived { FIRST_REST } else { longer_rest(rest) };
        thread::sleep(&rt, Duration::from_millis(rest));
    }
}

/// Speaks to the member over one connection, until it ends.
fn ask_once<R: Runner>(rt: &R, shared: &Shared, member: u8) -> io::Result<()> {
    let mut lines = connect(rt, shared, member)?;
    let mut first = new_walk(Rank::First);
    let mut later = new_walk(Rank::Later);
    for _ in 0..u64::MAX {
        if shared.is_over() {
            return Ok(());
        }
        ask(rt, shared, &mut lines, member)?;
        let room = ask_some(rt, shared, &mut lines, member, &mut first, MOST_STATES)?;
        let _room = ask_some(rt, shared, &mut lines, member, &mut later, room)?;
        let pause = Deadline::new(rt, PACE)?;
        propose_all(rt, shared, &mut lines, member, pause)?;
    }
    Ok(())
}

/// Asks for the member's counts and links.
fn ask<R: Runner>(rt: &R, shared: &Shared, lines: &mut DeskLines, member: u8) -> io::Result<()> {
    let counts = exchange(rt, shared, lines, "STATUS\n")?;
    shared.book.lock(rt).set_reply(member, counts);
    let links = exchange(rt, shared, lines, "LINKS\n")?;
    shared.book.lock(rt).set_reply(member, links);
    shared.changed.notify_all();
    Ok(())
}

/// Asks the member how it stands with questions of a rank, for as many as there is room, and no
/// further once a proposal waits. Returns the room that is left after the last of them all.
fn ask_some<R: Runner>(
    rt: &R,
    shared: &Shared,
    lines: &mut DeskLines,
    member: u8,
    walk: &mut Walk,
    room: u32,
) -> io::Result<u32> {
    for asked in 0..room {
        let open = shared.book.lock(rt).open_from(walk.next, member, walk.rank);
        let Some(question) = open else {
            walk.next = 0;
            return Ok(room - asked);
        };
        let reply = reply_on(rt, shared, lines, question)?;
        hear_state(rt, shared, member, question, reply);
        walk.next = question.saturating_add(1);
        if shared.book.lock(rt).motion_for(member).is_some() {
            return Ok(0);
        }
    }
    Ok(0)
}

/// Returns what the member replies to one who asks for a question. A member of a chain is asked for
/// its decision alone: `STATE` would start the slot's epoch again.
fn reply_on<R: Runner>(
    rt: &R,
    shared: &Shared,
    lines: &mut DeskLines,
    question: u64,
) -> io::Result<Reply> {
    if shared.scope.chain {
        let line = format!(in shared.alloc; "ASK {question}\n")?;
        return exchange(rt, shared, lines, line.as_str());
    }
    let line = format!(in shared.alloc; "STATE {question}\n")?;
    exchange(rt, shared, lines, line.as_str())
}

/// Takes what a member replied to `STATE` or `ASK`. A decision that it tells is its word: one that
/// came late in an epoch may be told to no follower.
fn hear_state<R: Runner>(rt: &R, shared: &Shared, member: u8, question: u64, reply: Reply) {
    match reply {
        Reply::Spent => shared.book.lock(rt).set_spent(question, member),
        Reply::Told(bit) => {
            let told = Told {
                member,
                question,
                bit,
            };
            let time = time_now(rt);
            let _heard = shared.book.lock(rt).hear(told, time);
        }
        _ => return,
    }
    shared.changed.notify_all();
}

/// Makes proposals to the member as they come, until the pause is over.
fn propose_all<R: Runner>(
    rt: &R,
    shared: &Shared,
    lines: &mut DeskLines,
    member: u8,
    pause: Deadline,
) -> io::Result<()> {
    for _ in 0..u64::MAX {
        let Some(motion) = next_motion(rt, shared, member, pause) else {
            return Ok(());
        };
        propose(rt, shared, lines, member, motion)?;
    }
    Ok(())
}

/// Waits for a proposal that the member hasn't replied to, for as long as is left.
fn next_motion<R: Runner>(
    rt: &R,
    shared: &Shared,
    member: u8,
    deadline: Deadline,
) -> Option<Motion> {
    let Ok(left) = deadline.left(rt) else {
        return shared.book.lock(rt).motion_for(member);
    };
    let book = shared.book.lock(rt);
    let (book, _late) = shared.changed.wait_timeout_while(rt, book, left, |book| {
        book.motion_for(member).is_none()
    });
    book.motion_for(member)
}

/// Makes a proposal to the member.
fn propose<R: Runner>(
    rt: &R,
    shared: &Shared,
    lines: &mut DeskLines,
    member: u8,
    motion: Motion,
) -> io::Result<()> {
    let bit = u8::from(motion.bit);
    let line = format!(in shared.alloc; "PROPOSE {} {bit}\n", motion.question)?;
    let reply = exchange(rt, shared, lines, line.as_str())?;
    shared.book.lock(rt).reply(motion.number, member, reply);
    shared.changed.notify_all();
    Ok(())
}

/// Returns the reply to a line.
fn exchange<R: Runner>(
    rt: &R,
    shared: &Shared,
    lines: &mut DeskLines,
    line: &str,
) -> io::Result<Reply> {
    lines.send(rt, line, Deadline::new(rt, PROMPT)?)?;
    let reply = lines.next(rt, shared.alloc, Deadline::new(rt, PROMPT)?)?;
    Ok(reply_of(&reply))
}

/// Returns a way from the first question on.
fn new_walk(rank: Rank) -> Walk {
    Walk { rank, next: 0 }
}
