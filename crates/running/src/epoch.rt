//! The epoch of a member of a chain.

use crate::life::Life;
use crate::shared::Shared;
use disk::Disk;
use epochs::{Doors, Report, Switchboard};
use machine::Machine;
use node::{Book, QuestionState};
use std::sync::atomic::{AtomicBool, AtomicU64, Ordering};
use std::sync::{Arc, Wait};

/// The epoch of a member of a chain, and what it shares with the other epochs of the process.
#[derive(Drop)]
pub struct InChain {
    /// The state that the epochs share.
    pub board: Arc<Switchboard>,
    /// The epoch.
    pub epoch: u64,
    /// The doors at which its links and clients come in.
    pub doors: Doors,
    standing: Standing,
}

impl InChain {
    /// The epoch of that number, whose links and clients come in at these doors.
    pub fn new(board: Arc<Switchboard>, epoch: u64, doors: Doors) -> InChain {
        InChain {
            board,
            epoch,
            doors,
            standing: Standing {
                reported: AtomicU64::new(0),
                rests: AtomicBool::new(false),
                links: AtomicU64::new(0),
                was_linked: AtomicBool::new(false),
            },
        }
    }

    /// Returns the bit of a member.
    fn bit_of(member: u8) -> u64 {
        1u64.checked_shl(u32::from(member)).unwrap_or(0)
    }

    /// A link of that member is read from now on, or isn't any more.
    pub(crate) fn note_link(&self, member: u8, is_up: bool) {
        let bit = InChain::bit_of(member);
        if is_up {
            self.standing.links.fetch_or(bit, Ordering::SeqCst);
        } else {
            self.standing.links.fetch_and(!bit, Ordering::SeqCst);
        }
    }

    /// Returns `true` if the links of so many members have been read at once.
    fn was_linked(&self, needed: u8) -> bool {
        let links = self.standing.links.load(Ordering::SeqCst);
        if links.count_ones() >= u32::from(needed) {
            self.standing.was_linked.store(true, Ordering::SeqCst);
        }
        self.standing.was_linked.load(Ordering::SeqCst)
    }

    /// Returns `true` if that member is to be dialled. Where the epoch rests that is one whose link
    /// is read: it has something to say or to hear. Else two members that rest would keep one
    /// another awake.
    pub(crate) fn is_to_dial(&self, member: u8) -> bool {
        let links = self.standing.links.load(Ordering::SeqCst);
        !self.standing.rests.load(Ordering::SeqCst) || links & InChain::bit_of(member) != 0
    }
}

/// The standing of an epoch's member.
#[derive(Drop)]
struct Standing {
    /// The progress that was reported last.
    reported: AtomicU64,
    /// Nothing happens in the epoch, and nothing of it is open here.
    rests: AtomicBool,
    /// The members whose links are read, a bit for each.
    links: AtomicU64,
    /// The links of n - t members have been read at once, so that the member has heard what is left
    /// to hear.
    was_linked: AtomicBool,
}

impl<D: Disk, J: Life> Shared<D, J> {
    /// Reports how the member stands, if it is one of a chain. Its questions are gone through only
    /// while nothing happens and a newer epoch is there.
    pub(crate) fn report<R: Machine>(&self, rt: &R) {
        let Some(chain) = &self.chain else {
            return;
        };
        let decided = self.hub.decided();
        let progress = self.hub.said().wrapping_add(decided);
        let is_new = chain.standing.reported.swap(progress, Ordering::SeqCst) != progress;
        let is_behind = chain.board.newest(rt) > chain.epoch;
        let size = self.hub.header().size();
        let is_complete = decided >= u64::from(size.questions());
        // Peers that were never heard may know decisions: they run an epoch again as they have
        // room.
        let is_deaf = !is_complete && !chain.was_linked(size.wait());
        let report = Report {
            is_undone: !is_behind || is_new || is_deaf || self.is_undone(rt),
            progress,
            is_begun: decided > 0,
            is_complete,
        };
        let rests = chain.board.report(rt, chain.epoch, report);
        chain.standing.rests.store(rests, Ordering::SeqCst);
    }

    /// Returns `true` if a question was proposed to this member and isn't decided, and also if
    /// another thread has the book for so long that nobody can look.
    fn is_undone<R: Machine>(&self, rt: &R) -> bool {
        match self.try_book(rt) {
            Some(book) => has_open(&book),
            None => true,
        }
    }

    /// A link of that member is read from now on, or isn't any more.
    pub(crate) fn note_link<R: Wait>(&self, rt: &R, member: u8, is_up: bool) {
        self.hub.set_incoming(rt, member, is_up);
        if let Some(chain) = &self.chain {
            chain.note_link(member, is_up);
        }
    }

    /// Returns `true` if that member is to be dialled.
    pub(crate) fn is_to_dial(&self, member: u8) -> bool {
        match &self.chain {
            Some(chain) => chain.is_to_dial(member),
            None => true,
        }
    }
}

/// Returns `true` if a question was proposed to the member of a book and isn't decided.
fn has_open<D: Disk, J: Life>(book: &Book<D, J>) -> bool {
    for question in 0..book.header().size().questions() {
        if let Some(QuestionState::Open { .. } | QuestionState::Spent) = book.state(question) {
            return true;
        }
    }
    false
}
