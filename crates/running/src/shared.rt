//! The state that the threads of a member share. Begin at the struct.

ghost use Rattle.std.specs.Prelude.{◌≡◌, ◌≤◌, ◌*◌, IfSome};

use crate::admission::{Admission, Chair, Guest};
use crate::ahead::{Ahead, Welcomes};
use crate::callers::Caller;
use crate::clock::RunClock;
use crate::doors::Listener;
use crate::ending::Ending;
use crate::epoch::InChain;
use crate::events::LogEvent;
use crate::followers::Followers;
use crate::hosts::{Peers, Sender};
use crate::incoming::{Seated, Seats};
use crate::life::Life;
use crate::log::Log;
use crate::logger::Logger;
use crate::places::GREETINGS;
use crate::refusals::Refusal;
use crate::timing::{
    ACCEPT_PAUSE, BOOK_PAUSE, BOOK_TRIES, LEAVE_PAUSE, LEAVE_TRIES, LOG_PAUSE, SEAT_PAUSE,
    SEAT_TRIES,
};
use crate::tossers::LockedTossers;
use desk::Turns;
use disk::Disk;
use epochs::Arrival;
use links::LinkEnd;
use machine::Machine;
use node::{Book, Hub};
use std::alloc::Global;
use std::sync::{Condvar, Mutex, MutexGuard, Wait};
use std::thread;
use std::time::Duration;

/// The state that the threads of a member share.
///
/// Its parts have the methods of what they keep: the clock's thread ticks `clock`, and diallers
/// wait for it; every thread puts what is to be told into `logger`, whose own thread tells it;
/// acceptors and sessions come and go through `admission`; and each looks for `ending`. What wants
/// several parts is a method here, or beside the threads that call it: of links in `linking`, of
/// clients in `clients` and `followers`, of an epoch in `epoch`.
#[derive(Drop)]
pub(crate) struct Shared<D: Disk, J: Life> {
    pub(crate) alloc: Global,
    /// The addresses at which the members listen, by their numbers, and the hosts from which their
    /// links are taken.
    pub(crate) peers: Peers<J>,
    pub(crate) hub: Hub<D, J>,
    pub(crate) seats: Seats<J>,
    /// The tossers of links and of the desk's slots, for the whole life.
    pub(crate) tossers: LockedTossers<J>,
    /// The turns in which clients have transcripts made.
    pub(crate) turns: Turns,
    /// The peers and clients that are in.
    pub(crate) admission: Admission,
    /// Those that follow decisions.
    pub(crate) followers: Mutex<Followers>,
    /// A follower has come, or the end.
    pub(crate) followed: Condvar,
    /// The members that have heard more of this one than its journal holds.
    pub(crate) ahead: Mutex<Ahead>,
    /// The other members that have welcomed this one.
    pub(crate) welcomes: Mutex<Welcomes>,
    /// The most seconds that the member listens before it speaks.
    pub(crate) patience: u64,
    pub(crate) ending: Ending,
    pub(crate) clock: RunClock,
    pub(crate) logger: Logger,
    /// The epoch of the member, if it is one of a chain.
    pub(crate) chain: Option<InChain>,
}

/// The beginning and the end of a run.
impl<D: Disk, J: Life> Shared<D, J> {
    /// The hub and the seats, once no thread shares them.
    pub(crate) fn into_parts(self) -> (Hub<D, J>, Seats<J>) {
        let Shared { hub, seats, .. } = self;
        (hub, seats)
    }

    /// Brings the member to its end: who waits for a tick or for the bell goes on, clients have
    /// their replies, and each socket is shut down. One that hasn't spoken yet never does.
    pub(crate) fn close<R: Machine>(&self, rt: &R) {
        self.ending.begin();
        self.clock.tick(rt);
        self.end_unheard(rt);
        self.hub.shut(rt);
        self.let_clients_leave(rt);
        self.admission.close(rt);
        self.call_teller_of_followers(rt);
    }

    /// Waits until clients may be cut off, but no longer than two seconds.
    fn let_clients_leave<R: Machine>(&self, rt: &R) {
        for _ in 0..LEAVE_TRIES {
            if self.have_clients_left(rt) {
                return;
            }
            thread::sleep(rt, Duration::from_millis(LEAVE_PAUSE));
        }
    }

    /// Returns `true` if each client has its replies, and if those of an epoch that ends have left
    /// for the newest.
    fn have_clients_left<R: Machine>(&self, rt: &R) -> bool {
        match &self.chain {
            Some(chain) if !chain.board.is_ended() => {
                !self.admission.sockets.lock(rt).have_clients()
            }
            _ => !self.admission.is_answering(),
        }
    }

    /// A member that listens still is stopped, so that who waits for it to speak says nothing.
    fn end_unheard<R: Machine>(&self, rt: &R) {
        if self.hub.is_listening() {
            self.ending.note_unheard();
            self.hub.stop(rt);
            self.hub.speak(rt);
        }
    }

    /// Wakes the thread that tells followers, if it waits for somebody to follow.
    fn call_teller_of_followers<R: Wait>(&self, rt: &R) {
        let _followers = self.followers.lock(rt);
        self.followed.notify_all();
    }

    /// The member listens before it speaks, unless it is told not to, or has nobody to listen to.
    pub(crate) fn listen<R: Machine>(&self, rt: &R) {
        self.hub.listen(rt);
        self.speak_if_due(rt);
    }

    /// A peer has welcomed the link to it, and has heard so many statements more of this member
    /// than it has said. One that more than t members are ahead of is stopped before it speaks.
    pub(crate) fn note_welcome<R: Wait>(&self, rt: &R, peer: u8, excess: u64) {
        self.hub.set_outgoing(rt, peer, true);
        let header = self.hub.header();
        if peer == header.me() {
            return;
        }
        if excess > 0 {
            self.ahead.lock(rt).add(header.size(), peer);
            self.stop_if_forgotten(rt);
        }
        self.welcomes.lock(rt).add(header.size(), peer);
        self.speak_if_due(rt);
    }

    /// Ticks and rings the bell about once a second, pays for early Initials, and gives peers up
    /// that don't greet, until the end.
    pub(crate) fn tick_on<R: Machine>(&self, rt: &R) {
        for _ in rt.forever() {
            if !self.clock.wait_second(rt, &self.ending) {
                return;
            }
            self.clock.tick(rt);
            self.admission.sockets.lock(rt).tick();
            self.logger.put_due(rt, self.clock.second(rt));
            self.hub.ring(rt);
            self.hub.count_second(rt);
            self.admission.call_waiting(rt);
            self.stop_if_forgotten(rt);
            self.speak_if_due(rt);
            self.try_log_book(rt);
            self.report(rt);
        }
        unreachable!()
    }

    /// Stops a member that has forgotten what it said, before it says more.
    fn stop_if_forgotten<R: Wait>(&self, rt: &R) {
        if self.is_forgotten(rt) {
            self.hub.stop(rt);
        }
    }

    /// Has the member speak once n - t - 1 others have welcomed it, or it has listened for long
    /// enough.
    fn speak_if_due<R: Wait>(&self, rt: &R) {
        if !self.hub.is_listening() || self.is_closing() {
            return;
        }
        let welcomed = *self.welcomes.lock(rt);
        if welcomed.are_enough(self.hub.header().size()) || self.clock.second(rt) >= self.patience {
            self.hub.speak(rt);
        }
    }

    /// Returns `true` if the member is coming to its end.
    pub(crate) fn is_closing(&self) -> bool {
        self.ending.has_begun()
    }

    /// Returns `true` if more than t members have heard more of this one than its journal holds.
    pub(crate) fn is_forgotten<R: Wait>(&self, rt: &R) -> bool {
        self.ahead.lock(rt).is_forgotten()
    }
}

/// The log: what the member's own end does to links isn't told.
impl<D: Disk, J: Life> Shared<D, J> {
    /// Logs an event of a link from a peer or to it, but none of the link from the member to
    /// itself.
    pub(crate) fn log_of_peer<R: Wait>(&self, rt: &R, peer: u8, event: LogEvent) {
        if self.is_closing() || peer == self.hub.header().me() {
            return;
        }
        let now = self.clock.second(rt);
        self.logger.put_of_link(rt, now, peer, event);
    }

    /// Logs a refusal.
    pub(crate) fn log_refusal<R: Machine>(&self, rt: &R, refusal: Refusal, caller: Option<Caller>) {
        if self.is_closing() {
            return;
        }
        let now = self.clock.second(rt);
        self.logger.count_refusal(rt, now, refusal, caller);
    }

    /// Logs what the book has that wasn't told.
    pub(crate) fn log_book<R: Machine>(&self, rt: &R) {
        if self.logger.is_off(rt) {
            return;
        }
        let book = self.hub.read(rt);
        self.look(rt, &book);
    }

    /// The same, but nothing where [`Shared::try_book`] gets no book.
    fn try_log_book<R: Machine>(&self, rt: &R) {
        if self.logger.is_off(rt) {
            return;
        }
        if let Some(book) = self.try_book(rt) {
            self.look(rt, &book);
        }
    }

    /// Tells the log what is to be told, ten times a second, until the end.
    pub(crate) fn tell_on<L: Log, R: Machine>(&self, rt: &R, log: &Mutex<L>) {
        let mut number = 0;
        for _ in rt.forever() {
            if self.ending.has_begun() {
                return;
            }
            number = self.log_decisions(rt, number);
            self.logger.tell(rt, self.alloc, log);
            thread::sleep(rt, Duration::from_millis(LOG_PAUSE));
        }
        unreachable!()
    }

    /// Logs the decisions that the member has saved, from that number on. Returns the number of the
    /// next one. It waits for no disk.
    fn log_decisions<R: Machine>(&self, rt: &R, from: u64) -> u64 {
        let decided = self.hub.decided();
        for number in from..decided {
            let Some(decision) = self.hub.decision(rt, number) else {
                return number;
            };
            if !self.logger.put_decision(rt, decision) {
                return number;
            }
        }
        decided
    }

    /// Returns the book; none if another thread has it for longer than a tenth of a second, as
    /// while its disk stalls: the clock waits no longer for that.
    pub(crate) fn try_book<R: Machine>(&self, rt: &R) -> Option<MutexGuard<'_, Book<D, J>>> {
        for _ in 0..BOOK_TRIES {
            let book = self.hub.try_lock();
            if book.is_some() {
                return book;
            }
            thread::sleep(rt, Duration::from_micros(BOOK_PAUSE));
        }
        None
    }

    /// Logs what a book has that wasn't told. That a member that has not spoken was stopped by its
    /// end is no news.
    fn look<R: Machine>(&self, rt: &R, book: &Book<D, J>) {
        if self.ending.is_unheard() {
            return;
        }
        self.logger.look(rt, book);
    }
}

/// The way in, and the way out.
impl<D: Disk, J: Life> Shared<D, J> {
    /// Returns what the next connection that is admitted has; none at the end. One that isn't
    /// admitted is closed.
    pub(crate) fn next_admitted<R: Machine, A, F: Fn(Arrival) -> Option<A>>(
        &self,
        rt: &R,
        listener: &Listener,
        admit: F,
    ) -> Option<A>
        requires { F.IsAlwaysCallable admit }
    {
        for _ in rt.forever() {
            if self.is_closing() {
                return None;
            }
            match listener.accept(rt) {
                Ok(arrival) => {
                    if let Some(admitted) = admit(arrival) {
                        return Some(admitted);
                    }
                }
                // The listener was shut down, or the system has no descriptor left.
                Err(_) => thread::sleep(rt, Duration::from_millis(ACCEPT_PAUSE)),
            }
        }
        unreachable!()
    }

    /// Takes in the socket of a peer that is to greet. It is closed where it comes from a host that
    /// may speak for no member, so that strangers take no place, where 64 are to greet already, and
    /// where its host has its share of these: 64 by the number of the members' hosts.
    pub(crate) fn admit_peer<R: Machine>(&self, rt: &R, arrival: Arrival) -> Option<Guest> {
        let host = arrival.host;
        let Some(first) = self.peers.first_of(host) else {
            self.log_refusal(rt, Refusal::From(host, LinkEnd::Stranger), None);
            return None;
        };
        let share = self.peers.share_of(GREETINGS as usize);
        self.admission.admit_peer(rt, arrival, first, share)
    }

    /// The seat of a sender that has greeted, once the session before has given it back; none where
    /// that goes on for half a second. One whose connection is dead ends in silence, and the peer
    /// dials again.
    pub(crate) fn take_seat<R: Machine>(&self, rt: &R, sender: &Sender<J>) -> Option<Seated<J>>
        ensures peer { IfSome result (λ seated. seated.seat.peer ≡ sender.now.peer) }
        ensures host { IfSome result (λ seated. seated.host ≡ sender.now.host) }
    {
        for _ in 0..SEAT_TRIES {
            let seated = self.seats.take(rt, sender);
            if seated.is_some() || self.is_closing() {
                return seated;
            }
            thread::sleep(rt, Duration::from_millis(SEAT_PAUSE));
        }
        None
    }

    /// Cuts the own link to a peer from which a link has begun or ended, unless it was dialled just
    /// now: it may be a connection that is dead, or one to an earlier life of the peer, and its
    /// writer would learn of that only when the system sends again. The dialler begins anew.
    pub(crate) fn renew_link_to<R: Machine>(&self, rt: &R, peer: u8) {
        if peer == self.hub.header().me() {
            return;
        }
        let now = self.clock.second(rt);
        let is_cut = self.admission.sockets.lock(rt).shut_old_to(peer, now);
        if is_cut {
            // Its writer may wait for the bell.
            self.hub.ring(rt);
        }
    }

    /// Ends the session of a peer that no thread can be made for, which is to be told.
    pub(crate) fn turn_away<R: Machine>(&self, rt: &R, socket: usize) {
        self.log_refusal(rt, Refusal::Threadless, None);
        self.admission.turn_away(rt, socket);
    }

    /// Takes in the socket of a client, and gives it a chair. If as many clients are in as may be,
    /// it waits until one leaves, or one has been silent for more than ten seconds, which is closed
    /// for it then. Who was silent longest goes first, and the new one is answered once that one's
    /// session has ended.
    pub(crate) fn admit_client<R: Machine>(&self, rt: &R, arrival: Arrival) -> Option<Chair> {
        let Some(slot) = self.admission.await_slot(rt, &self.ending, &self.hub) else {
            self.send_on(rt, arrival);
            return None;
        };
        if let Some(silent) = slot.displaced() {
            self.displace(rt, slot.slot(), silent);
        }
        self.admission.admit_client(rt, slot, arrival)
    }

    /// Sends a client that came too late for this epoch on to the newest. A member of no chain
    /// closes it.
    fn send_on<R: Machine>(&self, rt: &R, arrival: Arrival) {
        if let Some(chain) = &self.chain {
            chain.board.hand_client(rt, None, arrival);
        }
    }

    /// Closes the client in that slot for another, since it was silent for so many seconds, which
    /// is to be told.
    fn displace<R: Machine>(&self, rt: &R, slot: u8, silent: u64) {
        let host = self.admission.sockets.lock(rt).shut_client(slot);
        self.logger
            .put(rt, LogEvent::ClientClosed { host, slot, silent });
    }

    /// The client in that slot is heard.
    pub(crate) fn hear_client<R: Wait>(&self, rt: &R, slot: u8) {
        self.admission.hear_client(rt, slot, self.hub.seconds());
    }
}
