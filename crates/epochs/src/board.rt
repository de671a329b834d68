//! The switchboard of a process: begin at `Switchboard`.

use crate::inbox::{Arrival, Inbox};
use crate::running::Running;
use crate::state::{Place, State};
use crate::verdicts::Verdicts;
use chain::{Ask, Chain};
use std::alloc::Global;
use std::sync::atomic::{AtomicBool, Ordering};
use std::sync::{Arc, Condvar, Mutex, Wait};
use std::time::{Clock, Duration};
use terms::Memory;

/// The quarters of a second for which an epoch goes on once it is to end.
const ENDING: u32 = 8;

/// The doors of an epoch that runs.
#[derive(Drop)]
pub struct Doors {
    /// The door of links.
    pub links: Arc<Inbox>,
    /// The door of clients.
    pub clients: Arc<Inbox>,
}

impl Doors {
    /// Both doors, with nobody at them.
    fn new(alloc: Global) -> Result<Doors, Memory> {
        let (links, clients) = (Inbox::new(alloc), Inbox::new(alloc));
        let Ok(links) = Arc::new(alloc, links) else {
            return Err(Memory);
        };
        let Ok(clients) = Arc::new(alloc, clients) else {
            return Err(Memory);
        };
        Ok(Doors { links, clients })
    }

    /// The same doors once more.
    pub fn share(&self) -> Result<Doors, Memory> {
        let links = self.links.clone()?;
        let clients = self.clients.clone()?;
        Ok(Doors { links, clients })
    }
}

/// A cause for which the member of an epoch ends, though its epoch is needed.
pub trait Halt {
    /// Returns `true` if the member is to end now. It is asked four times a second.
    fn is_due(&self) -> bool;
}

/// The standing of an epoch that runs, as its clock tells it once a second.
#[derive(Clone, Copy, Debug, PartialEq, Eq)]
pub struct Report {
    /// A question of it was proposed to this member and isn't decided here.
    pub is_undone: bool,
    /// The number of statements that were said and decisions that were made.
    pub progress: u64,
    /// A question is decided.
    pub is_begun: bool,
    /// All questions are decided.
    pub is_complete: bool,
}

/// The state that the threads of all epochs of one process share: which epochs run, who asks for
/// one, which connections wait for one, and how the questions of those that don't run were decided.
#[derive(Drop)]
pub struct Switchboard {
    alloc: Global,
    chain: Chain,
    me: u8,
    state: Mutex<State>,
    changed: Condvar,
    ended: AtomicBool,
}

impl Switchboard {
    /// The switchboard of this member of a chain, of which no epoch is known yet.
    pub fn new(alloc: Global, chain: Chain, me: u8) -> Switchboard {
        Switchboard {
            alloc,
            chain,
            me,
            state: Mutex::new(State::new(alloc)),
            changed: Condvar::new(),
            ended: AtomicBool::new(false),
        }
    }

    /// Returns the memory from which it takes its lists.
    pub fn alloc(&self) -> Global {
        self.alloc
    }

    /// Returns the chain.
    pub fn chain(&self) -> Chain {
        self.chain
    }

    /// Adds the next epoch whose journal is there, with the decisions of its questions.
    pub fn add<R: Wait>(&self, rt: &R, verdicts: Verdicts) -> Result<(), Memory> {
        let mut state = self.state.lock(rt);
        state.add(verdicts)
    }

    /// Returns how many epochs have a journal, or had one that was put away.
    pub fn made<R: Wait>(&self, rt: &R) -> u64 {
        self.state.lock(rt).made()
    }

    /// Returns the newest epoch with a proposal or a decision of this member; 0 before the first.
    pub fn newest<R: Wait>(&self, rt: &R) -> u64 {
        self.state.lock(rt).newest
    }

    /// Returns the first epoch that isn't closed here: the newest, or one before it that runs or
    /// isn't done.
    pub fn first_open<R: Wait>(&self, rt: &R) -> u64 {
        self.state.lock(rt).first_open()
    }

    /// Returns an epoch that is to run and doesn't, the oldest of these. It counts as running from
    /// now on, and these are its doors, at which those stand that waited for it.
    pub fn open_next<R: Wait>(&self, rt: &R) -> Result<Option<(u64, Doors)>, Memory> {
        if self.is_ended() {
            return Ok(None);
        }
        let mut state = self.state.lock(rt);
        let Some(epoch) = state.due(&self.chain) else {
            return Ok(None);
        };
        let doors = Doors::new(self.alloc)?;
        let kept = doors.share()?;
        state.enter(&self.chain, Running::new(epoch, kept))?;
        state.unpark(rt, epoch, &doors);
        Ok(Some((epoch, doors)))
    }

    /// The epoch's member listens and speaks from now on.
    pub fn note_ready<R: Wait>(&self, rt: &R, epoch: u64) {
        let mut state = self.state.lock(rt);
        state.note_ready(epoch);
        self.changed.notify_all();
    }

    /// Returns `true` if the member of the newest epoch listens.
    pub fn is_ready<R: Wait>(&self, rt: &R) -> bool {
        self.state.lock(rt).is_ready()
    }

    /// The epoch has ended. Its questions were decided so.
    pub fn leave<R: Wait>(&self, rt: &R, epoch: u64, verdicts: Verdicts) {
        let mut state = self.state.lock(rt);
        state.leave(rt, epoch, verdicts);
        self.changed.notify_all();
    }

    /// Hands a link to the epoch of that cluster, of which the Hello names this member as its
    /// sender. It is closed if no epoch has the number, or none that is to run.
    pub fn hand_link<R: Wait>(&self, rt: &R, cluster: u64, peer: u8, arrival: Arrival) {
        let Some(epoch) = self.chain.epoch_of(cluster) else {
            return;
        };
        let mut state = self.state.lock(rt);
        // One whose journal was put away never runs, and takes no ask's place from another.
        if peer != self.me && !state.is_gone(epoch) {
            let _unheard = state.ask(Ask { peer, epoch }).is_err();
        }
        match state.place_of(&self.chain, epoch) {
            Place::Runs(doors) => doors.links.put(rt, arrival),
            Place::IsDue => {
                state.park(epoch, true, arrival);
                self.changed.notify_all();
            }
            Place::Nowhere => {}
        }
    }

    /// Hands a client to that epoch, or to the newest if it names none. It is closed if that may
    /// not run.
    pub fn hand_client<R: Wait>(&self, rt: &R, epoch: Option<u64>, arrival: Arrival) {
        let mut state = self.state.lock(rt);
        let epoch = epoch.unwrap_or(state.newest);
        let _uncalled = state.call(epoch).is_err();
        match state.place_of(&self.chain, epoch) {
            Place::Runs(doors) => doors.clients.put(rt, arrival),
            Place::IsDue => {
                state.park(epoch, false, arrival);
                self.changed.notify_all();
            }
            Place::Nowhere => {}
        }
    }

    /// A bit was proposed in the epoch.
    pub fn note_proposal<R: Wait>(&self, rt: &R, epoch: u64) {
        let mut state = self.state.lock(rt);
        let _uncalled = state.advance(epoch).is_err();
        let _uncalled = state.call(epoch).is_err();
        self.changed.notify_all();
    }

    /// Notes how an epoch stands that runs, once a second. Returns `true` if it rests: nothing of
    /// it is open here, and nothing happens in it or all its questions are decided. If memory is
    /// refused, it doesn't rest before the next report.
    pub fn report<R: Wait>(&self, rt: &R, epoch: u64, report: Report) -> bool {
        let mut state = self.state.lock(rt);
        let rests = state.report(epoch, report).unwrap_or(false);
        state.close_late();
        self.changed.notify_all();
        rests
    }

    /// Waits until something changes, as it does once a second while an epoch runs.
    pub fn await_change<R: Wait>(&self, rt: &R) {
        let mut state = self.state.lock(rt);
        let begun = state.changes;
        for _ in rt.forever() {
            if state.changes != begun || self.is_ended() {
                return;
            }
            state = self.changed.wait(rt, state);
        }
        unreachable!()
    }

    /// Returns `true` if the epoch is to end.
    pub fn is_over<R: Wait>(&self, rt: &R, epoch: u64) -> bool {
        self.is_ended() || self.state.lock(rt).is_over(&self.chain, epoch)
    }

    /// Waits until the epoch is to end, or its member is halted. Its clients have two seconds to
    /// leave for another epoch.
    pub fn await_end<R: Wait + Clock, H: Halt>(&self, rt: &R, epoch: u64, halt: &H) {
        let mut over = 0u32;
        for _ in rt.forever() {
            if self.is_ended() || over >= ENDING || halt.is_due() {
                return;
            }
            over = if self.is_over(rt, epoch) {
                over.saturating_add(1)
            } else {
                0
            };
            self.pause(rt, Duration::from_millis(250));
        }
        unreachable!()
    }

    /// Waits for so long, or until all epochs are to end.
    fn pause<R: Wait + Clock>(&self, rt: &R, limit: Duration) {
        let state = self.state.lock(rt);
        let (_state, _late) = self
            .changed
            .wait_timeout_while(rt, state, limit, |_| { !self.is_ended() });
    }

    /// Waits until something changes, for so long at most.
    pub fn rest<R: Wait + Clock>(&self, rt: &R, limit: Duration) {
        let state = self.state.lock(rt);
        let begun = state.changes;
        let (_state, _late) = self
            .changed
            .wait_timeout_while(rt, state, limit, |state| { state.changes == begun });
    }

    /// Returns what is known of a question of an epoch that doesn't run; none of one that does.
    pub fn stored<R: Wait>(&self, rt: &R, epoch: u64, question: u16) -> Option<Stored> {
        self.state.lock(rt).stored(epoch, question)
    }

    /// Returns `true` if the epoch runs.
    pub fn runs<R: Wait>(&self, rt: &R, epoch: u64) -> bool {
        self.state.lock(rt).runs(epoch)
    }

    /// Returns `true` if the epoch is behind the newest, and no decision of it is to be waited for:
    /// it doesn't run, or nothing has happened in it for ten seconds.
    pub fn is_passed<R: Wait>(&self, rt: &R, epoch: u64) -> bool {
        self.state.lock(rt).is_passed(epoch)
    }

    /// Returns the question that was decided at this place in an epoch that doesn't run, counted in
    /// the order of its journal, and the bit.
    pub fn decided_at<R: Wait>(&self, rt: &R, epoch: u64, place: u16) -> Option<(u16, bool)> {
        self.state.lock(rt).decided_at(epoch, place)
    }

    /// Returns what a follower at another epoch's desk does, whose next decision is that at this
    /// place of the epoch, counted in the order of its journal.
    pub fn onward<R: Wait>(&self, rt: &R, epoch: u64, place: u16) -> Onward {
        self.state.lock(rt).onward(&self.chain, epoch, place)
    }

    /// Waits until all epochs are to end.
    pub fn await_all_ends<R: Wait>(&self, rt: &R) {
        for _ in rt.forever() {
            if self.is_ended() {
                return;
            }
            self.await_change(rt);
        }
        unreachable!()
    }

    /// Brings all epochs to their end.
    pub fn end<R: Wait>(&self, rt: &R) {
        self.ended.store(true, Ordering::SeqCst);
        let mut state = self.state.lock(rt);
        state.change();
        self.changed.notify_all();
    }

    /// Returns `true` if all epochs are to end.
    pub fn is_ended(&self) -> bool {
        self.ended.load(Ordering::SeqCst)
    }
}

/// The next thing that a follower does at the desk of another epoch than that of its next
/// decision.
#[derive(Clone, Copy, Debug, PartialEq, Eq)]
pub enum Onward {
    /// The follower is told this decision: the question of the epoch, and the bit.
    Tell(u16, bool),
    /// The epoch runs: the follower moves to its desk.
    Move,
    /// The epoch is passed: it doesn't run, is behind the newest, and nothing more was decided.
    Pass,
    /// The epoch is behind the newest, and nothing of it is known yet: it is to be made up for. The
    /// follower stays for a while.
    Await,
    /// The follower stays and looks again: the epoch ends, or hasn't begun.
    Stay,
}

/// The desk's word on a slot whose epoch doesn't run.
#[derive(Clone, Copy, Debug, PartialEq, Eq)]
pub enum Stored {
    /// The slot was decided for this bit.
    Decided(bool),
    /// No decision is known: the epoch has to run.
    Open,
    /// The journal of its epoch was put away.
    Gone,
    /// The epoch is past the one in front of the newest, and is begun by a proposal.
    Ahead,
    /// The epoch is so far ahead that no proposal is taken for it.
    Far,
}
