//! Sessions of links over streams in memory.

use crate::ending::Ending;
use disk::Disk;
use links::{LinkEnd, MemStream, OpenGate, read_link, write_link};
use node::{Hub, Naming, Seat, close};
use rounds::{Toss, Tosser};
use std::alloc::Global;
use std::sync::Wait;
use std::time::Clock;
use wire::Version;

/// Member 0's Initial and its Echo of it, in one frame.
const SAID: [u8; 18] = [0, 16, 4, 2, 1, 0, 0, 0, 1, 1, 1, 2, 0, 0, 0, 1, 1, 1];

/// A Welcome that asks for the statements from number 0 on.
const WELCOME: [u8; 11] = [0, 9, 2, 0, 0, 0, 0, 0, 0, 0, 0];

/// The Hello of version 2 of member 1 of the cluster 7 to member 2, and its Initial of One.
const WRITTEN: [u8; 28] = [
    0, 16, 1, 2, 0, 0, 0, 0, 0, 0, 0, 7, 4, 1, 0, 1, 1, 2, 0, 8, 3, 1, 0, 0, 1, 1, 1, 1,
];

/// A link is read that gives two statements in one frame: both were handed in, or none.
pub(crate) fn reads<D: Disk + Drop, J: Naming, R: Wait + Clock>(
    rt: &R,
    alloc: Global,
    hub: Hub<D, J>,
    mut seats: Vec<Seat<J>>,
) -> Ending {
    let Some(mut stream) = stream(alloc, &SAID) else {
        return Ending::Before;
    };
    if seats.len() != 4 {
        return Ending::Wrong("not four seats");
    }
    let seat = seats.remove(0);
    let mut tosser = Counting { last: 0 };
    let (seat, why) = read_link(
        rt,
        alloc,
        &hub,
        seat,
        &mut stream,
        Version::Two,
        &OpenGate,
        &mut tosser,
    );
    let handed = seat.next();
    let events = hub.lock(rt).events();
    let is_welcome = WELCOME.starts_with(stream.output());
    if seats.insert(0, seat).is_err() {
        return Ending::Before;
    }
    let are_settled = close(hub, seats).is_ok();
    let ending = ending_of(why);
    let wanted = if ending == Ending::Ample { 2 } else { 0 };
    let is_so = handed == wanted && events as u64 == wanted && is_welcome && are_settled;
    ending.if_so(is_so, "something else was handed in")
}

/// A tosser that counts on from its last toss.
#[derive(Drop)]
struct Counting {
    last: u64,
}

impl Tosser for Counting {
    fn toss(&mut self) -> Toss {
        self.last = self.last.wrapping_add(1);
        Toss(self.last)
    }
}

/// The one statement of an outbox is written to a peer, at a hub that is shut: what is written
/// begins the Hello and the frame.
pub(crate) fn writes<D: Disk + Drop, J: Naming, R: Wait>(
    rt: &R,
    alloc: Global,
    hub: &Hub<D, J>,
) -> Ending {
    let Some(mut stream) = stream(alloc, &WELCOME) else {
        return Ending::Before;
    };
    let proposed = hub.lock(rt).propose(0, true, Toss(5)).is_ok();
    if !proposed {
        return Ending::Before;
    }
    hub.shut(rt);
    let (why, _) = write_link(rt, alloc, hub, 2, &mut stream, Version::Two, &OpenGate);
    let ending = ending_of(why);
    let written = stream.output();
    let is_so = match ending {
        Ending::Ample => written == WRITTEN.as_slice(),
        Ending::Refused => [0, 18, 28].contains(&written.len()) && WRITTEN.starts_with(written),
        _ => WRITTEN.starts_with(written),
    };
    ending.if_so(is_so, "other bytes")
}

/// A stream with that input; none where memory is refused.
fn stream(alloc: Global, input: &[u8]) -> Option<MemStream> {
    let mut stream = MemStream::new(alloc);
    match stream.give(input) {
        Ok(()) => Some(stream),
        Err(_) => None,
    }
}

/// Returns how a session ended.
fn ending_of(why: LinkEnd) -> Ending {
    match why {
        LinkEnd::Ended => Ending::Ample,
        LinkEnd::Memory => Ending::Refused,
        LinkEnd::Stopped => Ending::Failed,
        LinkEnd::Lost => Ending::Failed,
        _ => Ending::Wrong("another end"),
    }
}
