//! The events of a run that wait to be told to its log.

use crate::callers::Caller;
use crate::events::LogEvent;
use crate::log::Log;
use crate::refusals::Refusal;
use crate::watch::Telling;
use disk::Disk;
use machine::Machine;
use node::{Book, Decision, Naming};
use std::alloc::Global;
use std::sync::{Mutex, Wait};

/// The events that are to be told, if the member has a log. A thread of their own tells them, so
/// that nobody waits for the log. Without a log each call does nothing.
#[derive(Drop)]
pub(crate) struct Logger {
    telling: Mutex<Option<Telling>>,
}

impl Logger {
    /// Creates a logger without a log.
    pub(crate) fn new() -> Logger {
        Logger {
            telling: Mutex::new(None),
        }
    }

    /// Begins to tell a log.
    pub(crate) fn begin<R: Machine>(&self, rt: &R, telling: Telling) {
        *self.telling.lock(rt) = Some(telling);
    }

    /// Returns `true` if the member has no log.
    pub(crate) fn is_off<R: Machine>(&self, rt: &R) -> bool {
        self.telling.lock(rt).is_none()
    }

    /// Adds an event.
    pub(crate) fn put<R: Wait>(&self, rt: &R, event: LogEvent) {
        if let Some(telling) = &mut *self.telling.lock(rt) {
            telling.queue.put(event);
        }
    }

    /// Adds an event of a link from a peer or to it, at that second. If those of one peer come too
    /// fast, it only counts them, and tells once a minute how many there were.
    pub(crate) fn put_of_link<R: Wait>(&self, rt: &R, now: u64, peer: u8, event: LogEvent) {
        if let Some(telling) = &mut *self.telling.lock(rt) {
            telling.put_of_link(now, peer, event);
        }
    }

    /// Adds a refusal, at that second: the first of its kind at once, the others once a minute.
    pub(crate) fn count_refusal<R: Machine>(
        &self,
        rt: &R,
        now: u64,
        refusal: Refusal,
        caller: Option<Caller>,
    ) {
        if let Some(telling) = &mut *self.telling.lock(rt) {
            telling.count_refusal(now, refusal, caller);
        }
    }

    /// Adds how often refusals came that weren't told yet, and of which no line is younger than a
    /// minute at that second.
    pub(crate) fn put_due<R: Machine>(&self, rt: &R, now: u64) {
        if let Some(telling) = &mut *self.telling.lock(rt) {
            telling.tell_due(now);
        }
    }

    /// Adds what a book has that wasn't told.
    pub(crate) fn look<D: Disk, J: Naming, R: Machine>(&self, rt: &R, book: &Book<D, J>) {
        if let Some(telling) = &mut *self.telling.lock(rt) {
            telling.look(book);
        }
    }

    /// Adds a decision, if it wasn't told. Returns `false` if there is no log, or 1,024 events
    /// wait.
    pub(crate) fn put_decision<R: Wait>(&self, rt: &R, decision: Decision) -> bool {
        match &mut *self.telling.lock(rt) {
            Some(telling) => telling.put_decision(decision),
            None => false,
        }
    }

    /// Tells the log what waits to be told, and then the member's stop, if that was seen.
    pub(crate) fn tell<L: Log, R: Machine>(&self, rt: &R, alloc: Global, log: &Mutex<L>) {
        let (events, missed, stops) = self.drain(rt, alloc);
        let mut log = log.lock(rt);
        for event in &events {
            log.tell(event);
        }
        if missed > 0 {
            log.tell(&LogEvent::Missed(missed));
        }
        if stops {
            log.tell(&LogEvent::Stopped);
        }
    }

    /// Takes what waits to be told, how many events came too fast, and whether the member's stop is
    /// to be told behind them, once. It does so under one lock: a look in between would add
    /// decisions that were made before the stop.
    fn drain<R: Machine>(&self, rt: &R, alloc: Global) -> (Vec<LogEvent>, u64, bool) {
        match &mut *self.telling.lock(rt) {
            Some(telling) => {
                let (events, missed) = telling.queue.drain(alloc);
                (events, missed, telling.owes_stop())
            }
            None => (Vec::new(alloc), 0, false),
        }
    }
}
