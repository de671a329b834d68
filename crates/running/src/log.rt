//! Events that wait to be told, and who tells them.

ghost use Rattle.std.specs.Prelude.{◌≡◌, ◌↔◌, ◌⊎◌, ◌≤◌, ◌++◌, ◌∷◌, [], length, IsTrue};
ghost use Rattle.running.specs.Queues.{HasCome, none};

use crate::events::LogEvent;
use std::alloc::Global;
use std::marker::Model;
use std::mem;

/// A log: the events of a member are told there.
pub trait Log {
    /// Tells an event. Where it can't be told it is lost. Nothing of the member waits for it, but
    /// for its end.
    fn tell(&mut self, event: &LogEvent);
}

/// The most events that wait.
const WAITING: usize = 1024;

/// Events that wait to be told, at most 1,024, and how many came since that don't. Contracts see
/// both.
#[derive(Drop)]
pub struct Queue {
    events: Vec<LogEvent>,
    missed: u64,
}

impl Model for Queue {
    ghost use Rattle.running.specs.Queues.{Waiting};

    ghost Value = { Waiting };

    ghost view = { λ queue. record { events = queue.events.items; missed = queue.missed } };
}

impl Queue {
    /// Nothing waits. It takes no memory yet.
    pub fn new(alloc: Global) -> Queue
        ensures { result ≡ none }
    {
        Queue {
            events: Vec::new(alloc),
            missed: 0,
        }
    }

    /// The event waits from now on, or is counted as missed where 1,024 wait, or there is no
    /// memory.
    pub fn put(&mut self, event: LogEvent)
        ensures { HasCome self.old event self.new }
    {
        if self.is_full() || self.events.push(event).is_err() {
            self.missed = self.missed.saturating_add(1);
        }
    }

    /// Returns `true` if 1,024 events wait, so that the next one would be missed.
    pub fn is_full(&self) -> bool
        ensures { IsTrue result ↔ (1024 ≤ length self.now.events) }
    {
        self.events.len() >= WAITING
    }

    /// Returns `true` if nothing waits.
    pub fn is_empty(&self) -> bool
        ensures { IsTrue result ↔ (self.now ≡ none) }
    {
        self.events.is_empty() && self.missed == 0
    }

    /// Returns what waits, in order, and how many came since that don't. Nothing waits any more.
    pub fn drain(&mut self, alloc: Global) -> (Vec<LogEvent>, u64)
        ensures taken { (result.0.items ≡ self.old.events) × (result.1 ≡ self.old.missed) }
        ensures none { self.new ≡ none }
    {
        let events = mem::replace(&mut self.events, Vec::new(alloc));
        let missed = mem::replace(&mut self.missed, 0);
        (events, missed)
    }
}
