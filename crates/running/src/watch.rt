//! The part of a member's book that was told.

ghost use Rattle.std.specs.Prelude.{◌≡◌, ◌↔◌, ◌<◌, ◌⊎◌, ◌+◌, ◌++◌, ◌||◌, ◌&&◌, not, true, false, Option, Some, None, IfOk, IsOk, IsTrue, is_some, length, slice_set};
ghost use Rattle.std.specs.Option.{option_to_list};
ghost use Rattle.member.specs.Answers.{verdict_of};
ghost use Rattle.member.specs.Readers.{member_header, member_saved, member_is_stopped};
ghost use Rattle.running.specs.Queues.{HasCome, HaveCome, none};
ghost use Rattle.running.specs.Refusals.{IsNoted, counted_by, dues, empty, events_of, held};
ghost use Rattle.running.specs.declared.refusals.Refusal.TheVariants as kinds;
ghost use Rattle.running.specs.declared.refusals.RefusalCount.{RefusalCount};
ghost use Rattle.running.specs.Watches.{HasLooked, decided_list, decision_event, decision_of, is_told};

use crate::callers::Caller;
use crate::events::LogEvent;
use crate::log::Queue;
use crate::pace::Pace;
use crate::refusals::{Refusal, Refusals, put_line};
use disk::Disk;
use node::{Book, Decision, Naming};
use std::alloc::Global;
use std::marker::Model;
use terms::Memory;

/// The decisions of a member that were told, or are of an earlier life, and whether its stop was
/// seen. Contracts see both.
#[derive(Drop)]
pub(crate) struct Watch {
    /// Set for each question whose decision needs no telling.
    told: Vec<bool>,
    stopped: bool,
}

impl Model for Watch {
    ghost use Rattle.running.specs.Watches.{Watching};

    ghost Value = { Watching };

    ghost view = { λ watch. record { told = watch.told.items; stopped = watch.stopped } };
}

impl Watch {
    /// Creates a watch to which no decision of an earlier life needs telling.
    pub(crate) fn new<D: Disk, J: Naming>(alloc: Global, book: &Book<D, J>) -> Result<Watch, Memory>
        ensures { IfOk result
            (λ watch. watch ≡ record {
              told = decided_list (member_saved book.now.member)
                  (member_header book.now.member).size.questions;
              stopped = false;
            }) }
    {
        let mut told = Vec::new(alloc);
        for question in 0..book.header().size().questions() {
            told.push(book.verdict(question).is_some())?;
        }
        Ok(Watch {
            told,
            stopped: false,
        })
    }

    /// The decision of a question, if it is to be told. It is told once.
    fn decision<D: Disk, J: Naming>(&mut self, book: &Book<D, J>, question: u16) -> Option<LogEvent>
        ensures event { result ≡ decision_of self.old (member_saved book.now.member) question }
        ensures told { self.new
            ≡ record self.old {
              told = slice_set self.old.told question
                  (is_told self.old question || is_some
                  (verdict_of (member_saved book.now.member) question));
            } }
    {
        let at = usize::from(question);
        if at >= self.told.len() || self.told[at] {
            return None;
        }
        let Some(bit) = book.verdict(question) else {
            return None;
        };
        self.told[at] = true;
        Some(LogEvent::Decided(question, bit))
    }

    /// The decision that was made of a question, if it is to be told. It is told once.
    fn note(&mut self, question: u16, bit: bool) -> Option<LogEvent>
        ensures event { result
            ≡ decision_event (is_told self.old question) question (Some bit) }
        ensures told { self.new
            ≡ record self.old { told = slice_set self.old.told question true } }
    {
        let at = usize::from(question);
        if at >= self.told.len() || self.told[at] {
            return None;
        }
        self.told[at] = true;
        Some(LogEvent::Decided(question, bit))
    }

    /// Sees whether the member is stopped.
    fn see_stop<D: Disk, J: Naming>(&mut self, book: &Book<D, J>)
        ensures { self.new
            ≡ record self.old { stopped = self.old.stopped || member_is_stopped book.now.member } }
    {
        if book.is_stopped() {
            self.stopped = true;
        }
    }
}

/// The lines that are to be told of a member, and what was told of its book.
#[derive(Drop)]
pub(crate) struct Telling {
    watch: Watch,
    refusals: Refusals,
    /// The number of lines of the links of each member that were told.
    paces: [Pace; 64],
    pub(crate) queue: Queue,
    /// Set once the member's stop was handed out to be told.
    tells_stop: bool,
}

impl Telling {
    /// Nothing is to be told yet, and of what was decided in earlier lives nothing ever.
    pub(crate) fn new<D: Disk, J: Naming>(
        alloc: Global,
        book: &Book<D, J>,
    ) -> Result<Telling, Memory>
        ensures queue { IfOk result (λ telling. telling.queue ≡ none) }
        ensures told { IfOk result
            (λ telling. telling.watch.told ≡ decided_list (member_saved book.now.member)
            (member_header book.now.member).size.questions) }
        ensures stopped { IfOk result (λ telling. telling.watch.stopped ≡ false) }
        ensures refusals { IfOk result (λ telling. telling.refusals ≡ empty) }
        ensures owed { IfOk result (λ telling. telling.tells_stop ≡ false) }
    {
        let watch = Watch::new(alloc, book)?;
        Ok(Telling {
            watch,
            refusals: Refusals::new(),
            paces: [Pace { began: 0, told: 0 }; 64],
            queue: Queue::new(alloc),
            tells_stop: false,
        })
    }

    /// An event of a link from or to that member came, at that second. It is to be told, or where
    /// it is one too many of its minute it is counted, as a refusal is.
    pub(crate) fn put_of_link(&mut self, now: u64, peer: u8, event: LogEvent)
        ensures { HasCome self.old.queue event self.new.queue
            ⊎ ((left line : Option RefusalCount)
            × IsNoted now (kinds.Unsteady peer) None self.old.refusals self.new.refusals left line
            × HaveCome self.old.queue (events_of (option_to_list left ++ option_to_list line))
            self.new.queue) }
    {
        if self.admits_line(now, peer) {
            self.queue.put(event);
        } else {
            self.count_refusal(now, Refusal::Unsteady(peer), None);
        }
    }

    /// Returns `true` if one more line of the links of that member may be told at that second,
    /// which counts it.
    fn admits_line(&mut self, now: u64, peer: u8) -> bool
        ensures queue { self.new.queue ≡ self.old.queue }
        ensures refusals { self.new.refusals ≡ self.old.refusals }
    {
        match self.paces.get_mut(usize::from(peer)) {
            Some(pace) => {
                let admits = pace.admits(now);
                *pace = pace.after_line(now);
                admits
            }
            None => true,
        }
    }

    /// A refusal came, at that second, and what the table of refusals says of it is to be told.
    pub(crate) fn count_refusal(&mut self, now: u64, refusal: Refusal, caller: Option<Caller>)
        ensures { (left line : Option RefusalCount)
            × IsNoted now refusal caller self.old.refusals self.new.refusals left line
            × HaveCome self.old.queue (events_of (option_to_list left ++ option_to_list line))
            self.new.queue }
    {
        let (left, line) = self.refusals.count(now, refusal, caller);
        put_line(&mut self.queue, left);
        put_line(&mut self.queue, line);
    }

    /// Has told how often refusals came that are held back, and whose last line is a minute old at
    /// that second.
    pub(crate) fn tell_due(&mut self, now: u64)
        ensures events { HaveCome self.old.queue
            (events_of (dues now self.old.refusals)) self.new.queue }
        ensures counts { held self.new.refusals + counted_by (dues now self.old.refusals)
            ≡ held self.old.refusals }
    {
        self.refusals.tell_due(now, &mut self.queue);
    }

    /// Has told what the book has that wasn't told: its decisions, by their questions. Once all of
    /// them wait it sees the member's stop, which is told behind what waits. What the queue has no
    /// room for is told by a later look.
    pub(crate) fn look<D: Disk, J: Naming>(&mut self, book: &Book<D, J>)
        ensures looked { HasLooked (member_saved book.now.member)
            (member_header book.now.member).size.questions (member_is_stopped book.now.member)
            self.old.watch self.new.watch self.old.queue self.new.queue }
        ensures owed { self.new.tells_stop ≡ self.old.tells_stop }
    {
        for question in 0..book.header().size().questions() {
            if self.queue.is_full() {
                return;
            }
            let decision = self.watch.decision(book, question);
            self.put(decision);
        }
        self.watch.see_stop(book);
    }

    /// Queues a decision, if it wasn't told, and returns `true`. While the queue has no room it
    /// returns `false`, and nothing changes.
    pub(crate) fn put_decision(&mut self, decision: Decision) -> bool
        ensures room { IsTrue result ↔ (length self.old.queue.events < 1024) }
        ensures queue { IsTrue result → HaveCome self.old.queue
            (option_to_list (decision_event (is_told self.old.watch decision.question)
            decision.question (Some decision.bit))) self.new.queue }
        ensures told { IsTrue result → self.new.watch
            ≡ record self.old.watch {
              told = slice_set self.old.watch.told decision.question true;
            } }
        ensures full { result ≡ false → self.new ≡ self.old }
        ensures owed { self.new.tells_stop ≡ self.old.tells_stop }
    {
        if self.queue.is_full() {
            return false;
        }
        let event = self.watch.note(decision.question, decision.bit);
        self.put(event);
        true
    }

    /// Returns `true` if the member's stop is to be told: it was seen, and this is the first call
    /// since then. It takes no place in the queue, so it is never missed.
    pub(crate) fn owes_stop(&mut self) -> bool
        ensures owed { result ≡ (self.old.watch.stopped && not self.old.tells_stop) }
        ensures told { self.new
            ≡ record self.old { tells_stop = self.old.tells_stop || self.old.watch.stopped } }
    {
        if !self.watch.stopped || self.tells_stop {
            return false;
        }
        self.tells_stop = true;
        true
    }

    /// The event is to be told, if it is one.
    fn put(&mut self, event: Option<LogEvent>)
        ensures queue { HaveCome self.old.queue (option_to_list event) self.new.queue }
        ensures watch { self.new.watch ≡ self.old.watch }
        ensures owed { self.new.tells_stop ≡ self.old.tells_stop }
    {
        if let Some(event) = event {
            self.queue.put(event);
        }
    }
}
