//! A client of a chain that follows decisions: begin at `follow`.
ghost use Rattle.std.specs.Prelude.{◌≡◌, ◌≤◌, ◌+◌, ◌^◌, IfSome, IsNone};

use crate::epoch::InChain;
use crate::life::Life;
use crate::shared::Shared;
use crate::timing::{FOLLOWER_SILENCE, MISSED_LIMIT, PASS_LIMIT, SLOT_PAUSE};
use chain::Slot;
use disk::Disk;
use epochs::{Onward, Said};
use machine::Machine;
use std::alloc::Global;
use std::io::Write;
use std::net::TcpStream;
use std::sync::Wait;
use std::thread;
use std::time::Duration;

/// The most epochs of which a follower is told late decisions.
const LEFT: usize = 16;

/// Tells a client each decision from that number on: by epochs, and within one in the order of its
/// journal. Returns the epoch in which it goes on, the newest if none is named, and the line by
/// which it does; none if its session ends.
pub(crate) fn follow<D: Disk, J: Life, R: Machine>(
    rt: &R,
    shared: &Shared<D, J>,
    chain: &InChain,
    socket: &mut TcpStream,
    from: u64,
) -> Option<(Option<u64>, Said)> {
    let mut follower = SlotFollower {
        next: from,
        left: Vec::new(shared.alloc),
        told: shared.hub.seconds(),
        since: None,
    };
    for _ in rt.forever() {
        let decided = shared.hub.decided();
        if shared.is_closing() {
            return Some((None, follower.line(shared.alloc)?));
        }
        match follower.turn(rt, shared, chain, socket)? {
            Turn::Goes => {}
            Turn::Elsewhere(epoch) => return Some((Some(epoch), follower.line(shared.alloc)?)),
            Turn::Waits => {
                if chain.board.is_over(rt, chain.epoch) {
                    return Some((None, follower.line(shared.alloc)?));
                }
                follower.tell_late(rt, shared, chain, socket)?;
                follower.tell_silence(shared, socket)?;
                follower.rest(rt, shared, chain, decided);
            }
        }
    }
    unreachable!()
}

/// A follower: the number of the decision that it is told next, and the epochs that it passed with
/// questions open.
#[derive(Drop)]
struct SlotFollower {
    next: u64,
    left: Vec<Left>,
    /// The second in which it was told something last.
    told: u64,
    /// The second since which the epoch of the next decision could be passed, if it could.
    since: Option<u64>,
}

impl SlotFollower {
    /// Tells the next decision, if there is one; none if it can't be told.
    fn turn<D: Disk, J: Life, R: Machine>(
        &mut self,
        rt: &R,
        shared: &Shared<D, J>,
        chain: &InChain,
        socket: &mut TcpStream,
    ) -> Option<Turn> {
        let next = chain.board.chain().slot_of(self.next);
        if next.epoch == chain.epoch {
            return self.turn_here(rt, shared, chain, socket);
        }
        match chain.board.onward(rt, next.epoch, next.question) {
            Onward::Tell(question, bit) => {
                let slot = Slot {
                    epoch: next.epoch,
                    question,
                };
                self.tell_next(shared, chain, socket, (slot, bit))
            }
            Onward::Move => Some(Turn::Elsewhere(next.epoch)),
            Onward::Pass => self.pass(chain, next),
            Onward::Await => self.pass_after(shared, chain, MISSED_LIMIT),
            Onward::Stay => Some(Turn::Waits),
        }
    }

    /// The same if the next decision is one of this epoch.
    fn turn_here<D: Disk, J: Life, R: Machine>(
        &mut self,
        rt: &R,
        shared: &Shared<D, J>,
        chain: &InChain,
        socket: &mut TcpStream,
    ) -> Option<Turn> {
        let next = chain.board.chain().slot_of(self.next);
        if let Some(decided) = decision_at(rt, shared, chain, (next.epoch, next.question)) {
            return self.tell_next(shared, chain, socket, decided);
        }
        if chain.board.is_passed(rt, next.epoch) {
            // The board hears once a second how quiet it is: something may have begun since.
            let is_over = chain.board.is_over(rt, next.epoch);
            return self.pass_after(shared, chain, if is_over { 0 } else { PASS_LIMIT });
        }
        self.since = None;
        Some(Turn::Waits)
    }

    /// Passes the epoch of the next place once it could be passed for so many seconds.
    fn pass_after<D: Disk, J: Life>(
        &mut self,
        shared: &Shared<D, J>,
        chain: &InChain,
        seconds: u64,
    ) -> Option<Turn> {
        let now = shared.hub.seconds();
        let since = *self.since.get_or_insert(now);
        if now.saturating_sub(since) < seconds {
            return Some(Turn::Waits);
        }
        self.pass(chain, chain.board.chain().slot_of(self.next))
    }

    /// Tells the next decision; none if it can't be told.
    fn tell_next<D: Disk, J: Life>(
        &mut self,
        shared: &Shared<D, J>,
        chain: &InChain,
        socket: &mut TcpStream,
        decided: (Slot, bool),
    ) -> Option<Turn> {
        tell(shared, chain, socket, decided)?;
        self.next = self.next.checked_add(1)?;
        self.told = shared.hub.seconds();
        self.since = None;
        Some(Turn::Goes)
    }

    /// Passes the epoch of the next place: decisions that come late are told too.
    fn pass(&mut self, chain: &InChain, next: Slot) -> Option<Turn> {
        if self.left.len() >= LEFT {
            self.left.remove(0);
        }
        let first = Slot {
            epoch: next.epoch.checked_add(1)?,
            question: 0,
        };
        let left = Left {
            epoch: next.epoch,
            place: next.question,
        };
        let _forgotten = self.left.push(left).is_err();
        self.since = None;
        self.next = chain.board.chain().number_of(first)?;
        Some(Turn::Goes)
    }

    /// Tells the decisions that came late in epochs that were passed; none if one can't be told.
    fn tell_late<D: Disk, J: Life, R: Machine>(
        &mut self,
        rt: &R,
        shared: &Shared<D, J>,
        chain: &InChain,
        socket: &mut TcpStream,
    ) -> Option<()> {
        for left in self.left.iter_mut() {
            if left.tell(rt, shared, chain, socket)? {
                self.told = shared.hub.seconds();
            }
        }
        Some(())
    }

    /// Tells an empty line, if nothing was told for long; none if it can't be told.
    fn tell_silence<D: Disk, J: Life>(
        &mut self,
        shared: &Shared<D, J>,
        socket: &mut TcpStream,
    ) -> Option<()> {
        if shared.hub.seconds().saturating_sub(self.told) < FOLLOWER_SILENCE {
            return Some(());
        }
        self.told = shared.hub.seconds();
        match socket.write_all(b"\n") {
            Ok(()) => Some(()),
            Err(_) => None,
        }
    }

    /// Waits for news of this epoch, or for a moment if the next decision is another's.
    fn rest<D: Disk, J: Life, R: Machine>(
        &self,
        rt: &R,
        shared: &Shared<D, J>,
        chain: &InChain,
        decided: u64,
    ) {
        if chain.board.chain().slot_of(self.next).epoch == chain.epoch {
            shared.hub.await_news(rt, decided);
        } else {
            thread::sleep(rt, Duration::from_millis(SLOT_PAUSE));
        }
    }

    /// Returns the line by which it goes on in another epoch.
    fn line(&self, alloc: Global) -> Option<Said> {
        let Ok(line) = format!(in alloc; "FOLLOW {}\n", self.next) else {
            return None;
        };
        let mut said = Said::nothing();
        said.extend(line.as_bytes());
        Some(said)
    }
}

/// An epoch that was passed with questions open.
#[derive(Clone, Copy, Drop)]
struct Left {
    epoch: u64,
    /// The place in its journal, counted in decisions, of the next one that is told.
    place: u16,
}

impl Left {
    /// Tells the decisions that came late, and returns `true` if there was one; none if one can't
    /// be told.
    fn tell<D: Disk, J: Life, R: Machine>(
        &mut self,
        rt: &R,
        shared: &Shared<D, J>,
        chain: &InChain,
        socket: &mut TcpStream,
    ) -> Option<bool> {
        let begun = self.place;
        for _ in begun..u16::MAX {
            let Some(decided) = decision_at(rt, shared, chain, (self.epoch, self.place)) else {
                break;
            };
            tell(shared, chain, socket, decided)?;
            self.pass_on()?;
        }
        Some(self.place != begun)
    }

    /// Goes on by a place of the same epoch, so that no decision of another is told for it.
    fn pass_on(&mut self) -> Option<()>
        ensures epoch { self.new.epoch ≡ self.old.epoch }
        ensures place { IfSome result (λ _. self.new.place ≡ 1 + self.old.place) }
        ensures none { IsNone result → 2 ^ 16 ≤ 1 + self.old.place }
    {
        self.place = self.place.checked_add(1)?;
        Some(())
    }
}

/// The end of a turn of a follower.
enum Turn {
    /// The follower was told a decision, or passed an epoch.
    Goes,
    /// There is none to tell yet.
    Waits,
    /// The next one is that of this epoch, which runs.
    Elsewhere(u64),
}

/// Returns the decision at a place of an epoch's journal, of this epoch or of one that doesn't run.
fn decision_at<D: Disk, J: Life, R: Machine>(
    rt: &R,
    shared: &Shared<D, J>,
    chain: &InChain,
    at: (u64, u16),
) -> Option<(Slot, bool)> {
    let (epoch, place) = at;
    let (question, bit) = if epoch == chain.epoch {
        let decision = shared.hub.decision(rt, u64::from(place))?;
        (decision.question, decision.bit)
    } else if chain.board.runs(rt, epoch) {
        return None;
    } else {
        chain.board.decided_at(rt, epoch, place)?
    };
    Some((Slot { epoch, question }, bit))
}

/// Tells a decision; none if it can't be told.
fn tell<D: Disk, J: Life>(
    shared: &Shared<D, J>,
    chain: &InChain,
    socket: &mut TcpStream,
    decided: (Slot, bool),
) -> Option<()> {
    let (slot, bit) = decided;
    let number = chain.board.chain().number_of(slot)?;
    write_decision(shared.alloc, socket, number, bit)
}

/// Writes the line of a decision of a slot; none if it can't be written.
fn write_decision(alloc: Global, socket: &mut TcpStream, slot: u64, bit: bool) -> Option<()> {
    let Ok(line) = format!(in alloc; "DECIDED {slot} {}\n", u8::from(bit)) else {
        return None;
    };
    match socket.write_all(line.as_bytes()) {
        Ok(()) => Some(()),
        Err(_) => None,
    }
}
