//! The admission of peers and clients: how many are in, and the sockets of their sessions.

use crate::ending::Ending;
use crate::places::{Entered, GREETINGS, Given, give, let_in};
use crate::quota::Quota;
use crate::slots::Slots;
use crate::sockets::Sockets;
use disk::Disk;
use epochs::{Arrival, Said};
use machine::Machine;
use node::{Hub, Naming};
use std::alloc::Global;
use std::net::IpAddr;
use std::sync::atomic::{AtomicU64, Ordering};
use std::sync::{Condvar, Mutex, Wait};

/// The places of peers that are to greet and of clients, and the open sockets.
#[derive(Drop)]
pub(crate) struct Admission {
    greetings: Mutex<Quota<GREETINGS>>,
    pub(crate) sockets: Mutex<Sockets>,
    slots: Mutex<Slots>,
    /// A client has left its slot, or a second has passed: for those that wait for one.
    left: Condvar,
    /// The number of clients that are being answered: those of whom no line is waited for.
    answering: AtomicU64,
}

impl Admission {
    /// Nobody is in yet, and so many clients are let in at once.
    pub(crate) fn new(alloc: Global, clients: u8) -> Admission {
        Admission {
            greetings: Mutex::new(Quota::new()),
            sockets: Mutex::new(Sockets::new(alloc)),
            slots: Mutex::new(Slots::new(clients)),
            left: Condvar::new(),
            answering: AtomicU64::new(0),
        }
    }

    /// Shuts each socket down, and wakes those that wait for a slot. Nobody is let in from now on.
    pub(crate) fn close<R: Machine>(&self, rt: &R) {
        self.sockets.lock(rt).close();
        self.call_waiting(rt);
    }

    /// Takes in the socket of a peer that is to greet, from the host of which that member is the
    /// first. It is closed where 64 are to greet already, and where its host has its share of
    /// these.
    pub(crate) fn admit_peer<R: Machine>(
        &self,
        rt: &R,
        arrival: Arrival,
        first: u8,
        share: usize,
    ) -> Option<Guest> {
        let Arrival { socket, host, said } = arrival;
        let entered = self.enter(rt)?;
        let admitted = self.sockets.lock(rt).enter_to_greet(socket, first, share);
        match admitted {
            Some(socket) => Some(Guest {
                socket,
                host,
                said: hello_of(&said),
                _entered: entered,
            }),
            None => {
                self.greetings.lock(rt).leave();
                None
            }
        }
    }

    /// Lets one more in that is to greet; none where 64 are to greet already.
    fn enter<R: Machine>(&self, rt: &R) -> Option<Entered> {
        let mut greetings = self.greetings.lock(rt);
        let_in(&mut greetings)
    }

    /// The peer at that socket has its seat, or is refused or gone: another may greet in its place,
    /// and ticks don't end its session.
    pub(crate) fn end_greeting<R: Machine>(&self, rt: &R, socket: usize) {
        self.sockets.lock(rt).greeted(socket);
        self.greetings.lock(rt).leave();
    }

    /// Ends the session of a peer that is still to greet.
    pub(crate) fn turn_away<R: Machine>(&self, rt: &R, socket: usize) {
        self.greetings.lock(rt).leave();
        self.sockets.lock(rt).leave(socket);
    }

    /// Waits until a client has a slot: one that is free, or that of a client that has been silent
    /// for long. None at the end.
    pub(crate) fn await_slot<D: Disk, J: Naming, R: Machine>(
        &self,
        rt: &R,
        ending: &Ending,
        hub: &Hub<D, J>,
    ) -> Option<Given> {
        let mut slots = self.slots.lock(rt);
        for _ in rt.forever() {
            if ending.has_begun() {
                return None;
            }
            let given = give(&mut slots, hub.seconds());
            if given.is_some() {
                return given;
            }
            slots = self.left.wait(rt, slots);
        }
        unreachable!()
    }

    /// Takes in the socket of a client that has a slot. It is closed, and the slot given back,
    /// where memory is refused or the end has begun.
    pub(crate) fn admit_client<R: Machine>(
        &self,
        rt: &R,
        slot: Given,
        arrival: Arrival,
    ) -> Option<Chair> {
        let Arrival { socket, said, .. } = arrival;
        let entered = self.sockets.lock(rt).enter_client(socket, slot.slot());
        match entered {
            Some(socket) => Some(Chair { slot, socket, said }),
            None => {
                self.leave_slot(rt, slot.slot());
                None
            }
        }
    }

    /// Wakes those that wait for a slot, to look again.
    pub(crate) fn call_waiting<R: Wait>(&self, rt: &R) {
        let _slots = self.slots.lock(rt);
        self.left.notify_all();
    }

    /// The client in that slot is heard, at that second.
    pub(crate) fn hear_client<R: Wait>(&self, rt: &R, slot: u8, now: u64) {
        self.slots.lock(rt).hear(slot, now);
    }

    /// A client is being answered from now on.
    pub(crate) fn begin_answering(&self) {
        let _before = self.answering.fetch_add(1, Ordering::SeqCst);
    }

    /// A client has its replies, and its next line is waited for, or its session ends.
    pub(crate) fn end_answering(&self) {
        let _before = self.answering.fetch_sub(1, Ordering::SeqCst);
    }

    /// Returns `true` if a client is being answered.
    pub(crate) fn is_answering(&self) -> bool {
        self.answering.load(Ordering::SeqCst) > 0
    }

    /// Ends a client's session: its slot is given back, and its socket closed.
    pub(crate) fn leave_chair<R: Machine>(&self, rt: &R, chair: Chair) {
        self.sockets.lock(rt).leave(chair.socket);
        self.leave_slot(rt, chair.slot.slot());
    }

    /// Gives a slot back.
    pub(crate) fn leave_slot<R: Wait>(&self, rt: &R, slot: u8) {
        let mut slots = self.slots.lock(rt);
        slots.put(slot);
        self.left.notify_all();
    }
}

/// A peer that was let in to greet: the number of its socket, and the host from which it comes.
#[derive(Clone, Copy, Drop)]
pub(crate) struct Guest {
    pub(crate) socket: usize,
    pub(crate) host: IpAddr,
    /// Its Hello, where that was read already.
    pub(crate) said: Option<[u8; 18]>,
    _entered: Entered,
}

/// The slot that a client at the desk was given, and the number of its socket.
#[derive(Clone, Copy, Drop)]
pub(crate) struct Chair {
    pub(crate) slot: Given,
    pub(crate) socket: usize,
    /// The bytes that were read of it already.
    pub(crate) said: Said,
}

/// Returns the Hello that was read already, if one was.
fn hello_of(said: &Said) -> Option<[u8; 18]> {
    let bytes = said.bytes();
    if bytes.len() != 18 {
        return None;
    }
    let mut hello = [0; 18];
    for (at, byte) in bytes.iter().enumerate() {
        if at < 18 {
            hello[at] = *byte;
        }
    }
    Some(hello)
}
