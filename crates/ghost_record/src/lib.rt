//! A value that only clauses read, and that grows by changes. No word of memory holds it.
#![tactic(auto)]

ghost use Rattle.std.specs.Prelude.{◌≡◌};
ghost use Rattle.std.specs.Borrow.{ftrue};

use std::marker::{Model, PhantomData};

/// A kind of value to be recorded. A value of it is never made: what it is stands in its `Model`.
pub trait Recorded {
    /// The value before anything has happened.
    ghost begun: { Self };
}

/// An event that changes a recorded value of the kind `V`.
pub trait Change<V> {
    /// The value after the event.
    ghost after: { V → Self → V };
}

/// A record of the kind `V`: what all changes so far have made of its value. It takes no memory,
/// and has no word at run time.
pub struct GhostRecord<V> {
    marker: PhantomData<V>,
    pub ghost value: { V },
}

impl<V> Model for GhostRecord<V> {
    ghost also_owns = { λ _. ftrue };
}

// SAFETY: it has no word of memory.
unsafe impl<V> Send for GhostRecord<V> {}

impl<V> Drop for GhostRecord<V> {
    fn drop(self) {
        let Self { marker: _ } = self;
    }
}

impl<V: Recorded> GhostRecord<V> {
    /// Nothing has happened.
    pub fn new() -> GhostRecord<V>
        ensures { result.value ≡ V.begun }
    {
        GhostRecord {
            marker: PhantomData,
        }
    }
}

impl<V> GhostRecord<V> {
    /// The record with one change more.
    #[inline(always)]
    pub fn then<K: Change<V>>(&self, _change: &K) -> GhostRecord<V>
        ensures { result.value ≡ K.after self.now.value _change.now }
    {
        GhostRecord {
            marker: PhantomData,
        }
    }
}
