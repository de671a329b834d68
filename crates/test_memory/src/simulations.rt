//! A whole simulation.

use crate::ending::Ending;
use disk::MemDisk;
use rounds::Toss;
use sim::{Event, SimFault, Which, run};
use std::alloc::Global;
use terms::Size;

/// A member that is alone decides for its own bit.
pub(crate) fn runs(alloc: Global) -> Ending {
    let Ok(size) = Size::new(1, 0, 1) else {
        return Ending::Wrong("no such size");
    };
    let (Some(script), Some(disks)) = (script(alloc), disks(alloc)) else {
        return Ending::Before;
    };
    match run(alloc, size, &[], disks, &script) {
        Ok(outcome) => {
            let is_so = outcome.verdicts.as_slice() == [(0, 0, 1, true)].as_slice();
            Ending::Ample.if_so(is_so && outcome.marks.len() == 19, "another outcome")
        }
        Err(SimFault::Memory) => Ending::Refused,
        Err(_) => Ending::Wrong("another fault"),
    }
}

/// The script of a member that is alone: a proposal of One, and as many deliveries of its own
/// statements as it says; none where memory is refused.
fn script(alloc: Global) -> Option<Vec<Event>> {
    let mut events = Vec::new(alloc);
    let proposal = Event::Propose {
        member: 0,
        question: 0,
        bit: true,
        toss: Toss(1),
    };
    if events.push(proposal).is_err() {
        return None;
    }
    for toss in 2..20u64 {
        let delivery = Event::Deliver {
            from: 0,
            to: 0,
            which: Which::Next,
            toss: Toss(toss),
        };
        if events.push(delivery).is_err() {
            return None;
        }
    }
    Some(events)
}

/// One empty disk; none where memory is refused.
fn disks(alloc: Global) -> Option<Vec<MemDisk>> {
    let mut disks = Vec::new(alloc);
    match disks.push(MemDisk::new(alloc)) {
        Ok(()) => Some(disks),
        Err(_) => None,
    }
}
