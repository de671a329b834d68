//! The places of those that are to greet, and of clients: who has one was let in by the count.

ghost use Rattle.std.specs.List.{position_from};
ghost use Rattle.std.specs.Prelude.{ℕ, ◌≡◌, ◌<◌, ◌≤◌, ◌+◌, None, Some, IfSome, IfNone};
ghost use Rattle.running.specs.Slots.{AreTaken, GivesWay, NoneGivesWay, has_come, is_free};

use crate::quota::Quota;
use crate::slots::{GivenSlot, Slots};

/// The number of connections that may be open without a Hello, or wait for their seat.
pub(crate) const GREETINGS: u32 = 64;

/// The place of a peer that is to greet. Only [`let_in`] gives one.
#[derive(Clone, Copy, Drop)]
pub(crate) struct Entered {
    _entered: (),
}

/// Lets one more in that is to greet; none where 64 are to greet already.
pub(crate) fn let_in(greetings: &mut Quota<GREETINGS>) -> Option<Entered>
    ensures some { IfSome result (λ _. (greetings.old < 64) × (greetings.new ≡ greetings.old + 1)) }
    ensures none { IfNone result ((64 ≤ greetings.old) × (greetings.new ≡ greetings.old)) }
{
    if greetings.enter() {
        Some(Entered { _entered: () })
    } else {
        None
    }
}

/// The slot that a client was given. Only [`give`] gives one.
#[derive(Clone, Copy, Drop)]
pub(crate) struct Given {
    slot: u8,
    displaced: Option<u64>,
}

impl Given {
    /// Returns its number.
    pub(crate) fn slot(self) -> u8
        ensures { result ≡ self.slot }
    {
        self.slot
    }

    /// Returns for how many seconds the client was silent that is to be closed for this one, if one
    /// is.
    pub(crate) fn displaced(self) -> Option<u64>
        ensures { result ≡ self.displaced }
    {
        self.displaced
    }
}

/// Gives a client that comes at that second a slot; none if it is to wait for one.
pub(crate) fn give(slots: &mut Slots, now: u64) -> Option<Given>
    ensures some { IfSome result (λ given. slots.new ≡ has_come slots.old given.slot now) }
    ensures free { IfSome result
        (λ given. given.displaced ≡ None → position_from is_free 0 slots.old ≡ Some given.slot) }
    ensures instead { IfSome result (λ given. (silent : ℕ) → given.displaced ≡ Some silent →
        AreTaken slots.old × GivesWay now slots.old given.slot silent) }
    ensures none { IfNone result
        ((slots.new ≡ slots.old) × AreTaken slots.old × NoneGivesWay now slots.old) }
{
    match slots.take(now) {
        Some(GivenSlot::Free(slot)) => Some(Given {
            slot,
            displaced: None,
        }),
        Some(GivenSlot::InPlaceOf(slot, silent)) => Some(Given {
            slot,
            displaced: Some(silent),
        }),
        None => None,
    }
}
