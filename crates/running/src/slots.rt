//! The places of the desk's clients.

ghost use Rattle.std.specs.Prelude.{ℕ, ◌≡◌, ◌≢◌, ◌<◌, ◌≤◌, IfSome, IfNone};
ghost use Rattle.std.specs.List.{position_from};
ghost use Rattle.running.specs.Slots.{GivesSlot, GivesWay, IsSilentLongest, NoneGivesWay, clients_let_in, has_come, has_left, is_free, is_heard, is_longer_silent, sessions_at, shut, slot_at, slot_of, unused};

use crate::timing::SLOT_SILENCE;
use crate::tossers::CLIENTS;
use std::marker::Model;

/// The number of slots.
const SLOTS: usize = CLIENTS as usize;

/// A slot that is free, and whose client nobody was.
const UNUSED: Slot = Slot {
    sessions: 0,
    heard: 0,
};

/// A slot that is given to nobody.
const SHUT: Slot = Slot {
    sessions: 2,
    heard: 0,
};

/// The slot that a client is given.
#[derive(Clone, Copy, Debug, PartialEq, Eq)]
pub enum GivenSlot {
    /// This one was free.
    Free(u8),
    /// All were taken. The client of this one is to be closed, which has been silent for so many
    /// seconds, longer than all others.
    InPlaceOf(u8, u64),
}

/// The 32 slots of clients, of which some may be shut. Contracts see the number of sessions that
/// each has, and the second in which its client was heard last.
#[derive(Drop)]
pub struct Slots {
    slots: [Slot; SLOTS],
}

impl Model for Slots {
    ghost use Rattle.std.specs.Prelude.{List};
    ghost use Rattle.running.specs.declared.slots.Slot.{Slot};

    ghost Value = { List Slot };

    ghost view = { λ it. it.slots };
}

impl Slots {
    /// Creates slots of which the first `clients` are free (at least one, at most all), and nobody
    /// was heard. The others are shut: they have two sessions that never end, so no client is given
    /// one.
    pub fn new(clients: u8) -> Slots
        ensures free { (at : ℕ) → at < clients_let_in clients → slot_at result at ≡ unused }
        ensures shut { (at : ℕ) → clients_let_in clients ≤ at → at < 32 → slot_at result at ≡ shut }
    {
        let mut slots = [UNUSED; SLOTS];
        for at in let_in(clients)..SLOTS {
            slots[at] = SHUT;
        }
        Slots { slots }
    }

    /// Gives a client that comes at that second, and counts as heard then, the first slot that is
    /// free. If none is, it gets that of the client that has been silent longest, if that is for
    /// more than ten seconds, and which isn't being closed for another already. Else it gets none,
    /// and nothing changes.
    pub fn take(&mut self, now: u64) -> Option<GivenSlot>
        ensures gives { GivesSlot now self.old result }
        ensures come { IfSome result (λ given. self.new ≡ has_come self.old (slot_of given) now) }
        ensures full { IfNone result (self.new ≡ self.old) }
    {
        if let Some(free) = first_free(&self.slots) {
            self.come(free, now);
            return Some(GivenSlot::Free(free as u8));
        }
        match gives_way(&self.slots, now) {
            Some((at, silent)) => {
                self.come(at, now);
                Some(GivenSlot::InPlaceOf(at as u8, silent))
            }
            None => None,
        }
    }

    /// Begins one more session of the slot, at that second.
    fn come(&mut self, at: usize, now: u64)
        requires within { at < 32 }
        requires few { sessions_at self.old at < 2 }
        ensures { self.new ≡ has_come self.old at now }
    {
        self.slots[at] = Slot {
            sessions: self.slots[at].sessions + 1,
            heard: now,
        };
    }

    /// Hears the client of the slot at that second. A number past the slots changes nothing.
    pub fn hear(&mut self, slot: u8, now: u64)
        ensures { self.new ≡ is_heard self.old slot now }
    {
        if slot < CLIENTS {
            self.slots[usize::from(slot)].heard = now;
        }
    }

    /// Ends a session of the slot: the slot is free, or it is that of the client for whom the other
    /// was closed. A number past the slots changes nothing.
    pub fn put(&mut self, slot: u8)
        ensures { self.new ≡ has_left self.old slot }
    {
        if slot < CLIENTS {
            let at = usize::from(slot);
            self.slots[at].sessions = self.slots[at].sessions.saturating_sub(1);
        }
    }
}

/// Returns how many clients are let in at once where so many are to be.
fn let_in(clients: u8) -> usize
    ensures { result ≡ clients_let_in clients }
{
    usize::from(clients.max(1).min(CLIENTS))
}

/// The first of these that is free.
fn first_free(slots: &[Slot; SLOTS]) -> Option<usize>
    ensures first { result ≡ position_from is_free 0 slots.now }
    ensures within { IfSome result (λ free. free < 32) }
    ensures free { IfSome result (λ free. sessions_at slots.now free ≡ 0) }
{
    slots.iter().position(|slot| slot.sessions == 0)
}

/// The one whose client is to be closed for another at that second, and for how many seconds it has
/// been silent: longest of all, and for more than ten.
fn gives_way(slots: &[Slot; SLOTS], now: u64) -> Option<(usize, u64)>
    ensures some { IfSome result (λ found. GivesWay now slots.now found.0 found.1) }
    ensures within { IfSome result (λ found. found.0 < 32) }
    ensures none { IfNone result (NoneGivesWay now slots.now) }
{
    match longest_silent(slots) {
        Some(at) => {
            let silent = now.saturating_sub(slots[at].heard);
            if silent > SLOT_SILENCE {
                return Some((at, silent));
            }
            None
        }
        None => None,
    }
}

/// The first one whose client has been silent longest; none if each that has a client is being
/// closed for another.
fn longest_silent(slots: &[Slot; SLOTS]) -> Option<usize>
    ensures some { IfSome result (λ at. IsSilentLongest slots.now at) }
    ensures within { IfSome result (λ at. at < 32) }
    ensures none { IfNone result ((at : ℕ) → at < 32 → sessions_at slots.now at ≢ 1) }
{
    let mut longest = 0;
    for at in 1..SLOTS {
        if is_longer_silent(&slots[at], &slots[longest]) {
            longest = at;
        }
    }
    if slots[longest].sessions == 1 {
        Some(longest)
    } else {
        None
    }
}

/// Returns `true` if the client of one was heard before that of the other. One that is free, or
/// whose client is being closed, has no such client.
fn is_longer_silent(one: &Slot, other: &Slot) -> bool
    ensures { result ≡ is_longer_silent one.now other.now }
{
    one.sessions == 1 && (other.sessions != 1 || one.heard < other.heard)
}

/// A slot of a client. While it has two sessions, the first of them comes to its end, and the
/// second waits for it.
#[derive(Clone, Copy, Drop)]
struct Slot {
    sessions: u8,
    /// The second in which its client was heard last.
    heard: u64,
}
