//! The places that a member's peers and clients get.
//!
//! `crowd MOST` begins one of so many followers: `comes` answers whether one more may follow, and
//! at `goes` one goes. `quota` begins one of two: `enter` answers whether one more may enter, and
//! at `leave` one leaves. `slots COUNT` are those of a member that lets so many clients in: `slot
//! SECOND` takes one, `heard SECOND SLOT` and `left SLOT` are what comes of a client. `standing` is
//! that of a link that is written, from which nothing was read; `reads` and `writes` answer how far
//! it has come then, and whether the next write brings it up.

use crate::texts::{flag_text, nothing, number_of};
use running::{Crowd, GivenSlot, Quota, Slots, Standing};
use std::alloc::Global;

/// A quota, a crowd, slots, and how far a link has come.
#[derive(Drop)]
pub struct Places {
    quota: Quota<2>,
    crowd: Crowd,
    slots: Slots,
    standing: Standing,
}

impl Places {
    /// Creates places that nobody has.
    pub fn new() -> Places {
        Places {
            quota: Quota::new(),
            crowd: Crowd::new(0),
            slots: Slots::new(32),
            standing: Standing::Greeting,
        }
    }

    /// Plays a row, and returns what is answered: none if it says nothing of places.
    pub fn told(&mut self, alloc: Global, words: &[&str]) -> Option<String> {
        let (word, rest) = words.split_first()?;
        match *word {
            "enter" => flag_text(alloc, self.quota.enter()),
            "comes" => flag_text(alloc, self.crowd.enter()),
            "slot" => slot_text(alloc, self.slots.take(number_of(rest)?)),
            "reads" => self.stands(alloc, self.standing.read()),
            "writes" => self.stands(alloc, self.standing.written()),
            word => {
                self.change(word, rest)?;
                nothing(alloc)
            }
        }
    }

    /// Returns how far the link has come.
    fn stands(&mut self, alloc: Global, standing: Standing) -> Option<String> {
        self.standing = standing;
        format!(in alloc; "{standing:?} {}", standing.comes_up()).ok()
    }

    /// Does what a row says that answers nothing.
    fn change(&mut self, word: &str, rest: &[&str]) -> Option<()> {
        match word {
            "quota" => self.quota = Quota::new(),
            "leave" => self.quota.leave(),
            "crowd" => self.crowd = Crowd::new(number_of(rest)?),
            "goes" => self.crowd.leave(),
            "slots" => self.slots = Slots::new(number_of(rest)?),
            "heard" => hear(&mut self.slots, rest)?,
            "left" => self.slots.put(number_of(rest)?),
            "standing" => self.standing = Standing::Greeting,
            _ => return None,
        }
        Some(())
    }
}

/// Returns which slot a client is given.
fn slot_text(alloc: Global, given: Option<GivenSlot>) -> Option<String> {
    match given {
        Some(GivenSlot::Free(slot)) => format!(in alloc; "free {slot}").ok(),
        Some(GivenSlot::InPlaceOf(slot, silent)) => {
            format!(in alloc; "instead {slot} silent {silent}").ok()
        }
        None => format!(in alloc; "none").ok(),
    }
}

/// Hears a client at a second.
fn hear(slots: &mut Slots, words: &[&str]) -> Option<()> {
    let [now, slot] = words else {
        return None;
    };
    slots.hear(slot.parse().ok()?, now.parse().ok()?);
    Some(())
}
