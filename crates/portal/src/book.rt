//! The book of a gateway: a cluster as it is known, and its events.

ghost use Rattle.std.specs.Prelude.{◌≡◌, ◌≤◌, ◌<◌, ◌==◌, ◌↔◌, List, [], ◌∷◌, IfSome, IsNone, IsTrue, None, drop, filter, find, is_some, length, not, take};
ghost use Rattle.gateway.specs.Watches.{Decides, Watches, has_word, watch_first, watch_size, words_on};
ghost use Rattle.gateway.specs.declared.watch.Told.{Told};
ghost use Rattle.portal.specs.Beginnings.{Begins, IsUnproposed};
ghost use Rattle.portal.specs.Books.{book_note};
ghost use Rattle.portal.specs.Tellings.{AreTold, ComparesTo, Hears, IsNews, IsUnknown, MayPropose, Tells, TellsContradictions, TellsDecision, events_after, last_number, ms_since};

use crate::hearing::Hearing;
use crate::notes::{Note, Notes};
use crate::ranks::{Rank, rank_of};
use crate::recent::Recent;
use gateway::{
    Event, MemberState, MemberView, Position, Refusal, Reply, Scope, Stage, Standing, Tally, Times,
    Told, Watch, standing_of,
};
use std::alloc::{AllocError, Global};

/// The most events that are kept; beyond them the older half is dropped. Who follows from an
/// earlier one loads everything anew.
const MOST_EVENTS: usize = 16_384;

/// The most proposals that are under way.
const MOST_MOTIONS: usize = 64;

/// A proposal that is being made to all members.
#[derive(Clone, Copy, Debug, PartialEq, Eq)]
pub(crate) struct Motion {
    /// Its number.
    pub(crate) number: u64,
    pub(crate) question: u64,
    pub(crate) bit: bool,
    /// The milliseconds since 1970 at which it was made.
    pub(crate) time: u64,
    /// The members that replied, a bit each.
    pub(crate) replied: u64,
    /// The number of members that took it.
    pub(crate) taken: u8,
    /// The number of members that had one, or decided.
    pub(crate) have: u8,
    /// The number of members that refused it.
    pub(crate) refused: u8,
}

impl Motion {
    /// Returns `true` if more than t members refused it, so that a correct one did, and none took
    /// it.
    pub(crate) fn is_refused(&self, t: u8) -> bool {
        self.refused > t && !self.is_heard()
    }

    /// Returns `true` if a member took it, had one, or decided.
    pub(crate) fn is_heard(&self) -> bool {
        self.taken > 0 || self.have > 0
    }
}

/// A cluster as the gateway knows it.
#[derive(Drop)]
pub(crate) struct Book {
    alloc: Global,
    scope: Scope,
    hearing: Hearing,
    notes: Notes,
    views: Vec<MemberView>,
    events: Vec<Event>,
    /// The number of events before these.
    before: u64,
    motions: Vec<Motion>,
    /// The number of proposals that were made.
    motion_count: u64,
    recent: Recent,
    decisions: u64,
    refusals: u64,
    /// The milliseconds from the proposals here to the decisions.
    times: Times,
    /// Their sum.
    sum: u64,
}

impl Book {
    /// Returns a book of a cluster or chain of which nothing is known.
    pub(crate) fn new(alloc: Global, scope: Scope) -> Result<Book, AllocError> {
        let mut views = Vec::new(alloc);
        for _ in 0..scope.size.n() {
            views.push(new_view(alloc))?;
        }
        Ok(Book {
            alloc,
            scope,
            hearing: Hearing::new(alloc, scope)?,
            notes: Notes::new(alloc, scope.window_length())?,
            views,
            events: Vec::new(alloc),
            before: 0,
            motions: Vec::new(alloc),
            motion_count: 0,
            recent: Recent::new(alloc)?,
            decisions: 0,
            refusals: 0,
            times: Times::new(alloc)?,
            sum: 0,
        })
    }

    /// Returns the events after this number, 64 at most. `None` if they aren't kept, or there was
    /// no such number.
    pub(crate) fn after(&self, number: u64) -> Option<&[Event]>
        ensures none { IsNone result ↔ IsUnknown self.now number }
        ensures some { IfSome result (λ events. events.now ≡ events_after self.now number) }
    {
        if number < self.before {
            return None;
        }
        let events = self.events.as_slice();
        let skipped = number - self.before;
        if skipped > events.len() as u64 {
            return None;
        }
        Some(first_of(from_place(events, skipped as usize)))
    }

    /// Counts a request that was refused.
    pub(crate) fn count_refusal(&mut self) {
        self.refusals = self.refusals.saturating_add(1);
    }

    /// Returns the states of questions of the window.
    pub(crate) fn standings(&self, from: u64, to: u64) -> Result<Vec<Standing>, AllocError> {
        let mut standings = Vec::new(self.alloc);
        for question in from..to {
            standings.push(self.standing(question))?;
        }
        Ok(standings)
    }

    /// Takes a decision that a member told. Returns `false` if it comes after the window of a
    /// chain: it is to be told again.
    pub(crate) fn hear(&mut self, told: Told, time: u64) -> bool {
        let _moved = self.reach(told.member, told.question).is_ok();
        match self.watch().refusal(told.question) {
            None => self.take(told, time),
            Some(Refusal::Question) => return !self.scope.chain,
            Some(_) => {}
        }
        true
    }

    /// Takes a decision that a member told of a question of the window.
    fn take(&mut self, told: Told, time: u64)
        ensures news { (heard : List Told) → Watches self.old.hearing heard →
            IsNews self.old.hearing heard told → Hears heard told time self.old self.new }
        ensures again { (heard : List Told) → Watches self.old.hearing heard →
            watch_first self.old.hearing ≤ told.question → told.member < 64 →
            IsTrue (has_word (words_on told.question heard) told.member) → self.new ≡ self.old }
    {
        if self.word_of(told.question, told.member).is_some() {
            return;
        }
        let before = self.decision(told.question);
        if !self.hearing.take(told) {
            return;
        }
        let decision = self.decision(told.question);
        self.tell(told, time, before, decision);
    }

    /// Notes what a word changed: the decision before it and with it.
    fn tell(&mut self, told: Told, time: u64, before: Option<bool>, decision: Option<bool>)
        ensures told { Tells told time before decision self.old self.new }
        ensures same { self.new.hearing ≡ self.old.hearing }
    {
        match (before, decision) {
            (None, Some(bit)) => self.decide(told.question, bit, time),
            (Some(bit), _) => self.compare(told, bit),
            (None, None) => self.note_word(told.question),
        }
    }

    /// Notes a decision that is new.
    fn decide(&mut self, question: u64, bit: bool, time: u64)
        ensures told { TellsDecision self.new.hearing question bit time self.old self.new }
        ensures same { self.new.hearing ≡ self.old.hearing }
    {
        let ms = self.time_of(question, time);
        self.count_decision(time, ms);
        self.note(Event::Decided {
            question,
            bit,
            ms,
            time,
        });
        self.note_contradictions(question);
    }

    /// Returns the milliseconds from the proposal of the question to this moment, if it was
    /// proposed here.
    fn time_of(&self, question: u64, time: u64) -> Option<u32>
        ensures { result ≡ ms_since (book_note self.now question).begun time }
    {
        match self.notes.at(question).begun {
            Some(begun) => Some(time.saturating_sub(begun).min(u64::from(u32::MAX)) as u32),
            None => None,
        }
    }

    /// Counts a decision at this time, which came so many milliseconds after its proposal, if that
    /// is known.
    fn count_decision(&mut self, time: u64, ms: Option<u32>)
        ensures rest { self.new ≡ record self.old {
          decisions = self.new.decisions;
          recent = self.new.recent;
          times = self.new.times;
          sum = self.new.sum;
        } }
    {
        self.decisions = self.decisions.saturating_add(1);
        self.recent.note(time);
        if let Some(ms) = ms {
            self.count_time(ms);
        }
    }

    /// Counts the milliseconds from a proposal to its decision.
    fn count_time(&mut self, ms: u32)
        ensures rest { self.new ≡ record self.old {
          times = self.new.times;
          sum = self.new.sum;
        } }
    {
        if self.times.note(self.alloc, ms).is_ok() {
            self.sum = self.sum.saturating_add(u64::from(ms));
        }
    }

    /// Notes what each member contradicts by the words on a question.
    fn note_contradictions(&mut self, question: u64)
        ensures told { TellsContradictions question self.old self.new }
    {
        for member in 0..self.scope.size.n() {
            self.note_contradiction(question, member);
        }
    }

    /// Notes what a member contradicts by the words on a question, if it does.
    fn note_contradiction(&mut self, question: u64, member: u8)
        ensures told { TellsContradictions question self.old self.new }
    {
        if let Some(bit) = self.watch().contradiction(question, member) {
            self.note(Event::Contradiction {
                member,
                question,
                bit,
            });
        }
    }

    /// Notes a word on a question that is decided so, if it is another one.
    #[tactic(auto, using(crate::proofs::Comings::none_told))]
    fn compare(&mut self, told: Told, bit: bool)
        ensures told { ComparesTo told bit self.old self.new }
        ensures agrees { bit ≡ told.bit → self.new ≡ self.old }
        ensures same { self.new.hearing ≡ self.old.hearing }
    {
        if bit != told.bit {
            self.note(Event::Contradiction {
                member: told.member,
                question: told.question,
                bit: told.bit,
            });
        }
    }

    /// Notes that a member told a decision of a question that isn't decided.
    fn note_word(&mut self, question: u64)
        ensures told { MayPropose question self.old self.new }
        ensures same { self.new.hearing ≡ self.old.hearing }
    {
        self.notes.mark_told(question);
        let tellers = self.watch().teller_count(question);
        self.begin_told(question, tellers);
    }

    /// Notes that a question is under way if more than t members told a decision of it: one of them
    /// is correct. What t told, liars may have made up. One that was under way, or spent, stays so.
    #[tactic(auto, using(crate::proofs::Comings::none_told))]
    fn begin_told(&mut self, question: u64, tellers: u8)
        ensures few { tellers ≤ self.old.scope.size.t → self.new ≡ self.old }
        ensures begins { self.old.scope.size.t < tellers → IsUnproposed self.old question →
            Begins self.old question self.new }
        ensures stays { (IsUnproposed self.old question → ⊥) → self.new ≡ self.old }
        ensures told { MayPropose question self.old self.new }
        ensures same { self.new.hearing ≡ self.old.hearing }
    {
        if tellers > self.scope.size.t() {
            self.begin(question);
        }
    }

    /// Notes that a member of a chain has come to a slot: the window moves ahead once more than t
    /// members have.
    pub(crate) fn reach(&mut self, member: u8, slot: u64) -> Result<(), AllocError> {
        self.hearing.reach(self.alloc, member, slot)
    }

    /// Returns the number of decisions in each of the last 60 seconds, the present one last.
    pub(crate) fn lately(&self, time: u64) -> Result<Vec<u32>, AllocError> {
        self.recent.counts(self.alloc, time)
    }

    /// Notes what a member's desk replied to `STATUS` or `LINKS`.
    pub(crate) fn set_reply(&mut self, member: u8, reply: Reply) {
        match reply {
            Reply::Up {
                statements,
                decided,
            } => {
                self.set_state(member, MemberState::Up);
                if let Some(view) = self.views.get_mut(usize::from(member)) {
                    view.statements = statements;
                    view.decided = decided;
                }
            }
            Reply::Links { coming, going } => {
                if let Some(view) = self.views.get_mut(usize::from(member)) {
                    view.coming = coming;
                    view.going = going;
                }
            }
            Reply::Stopped => self.set_state(member, MemberState::Stopped),
            Reply::Decided { .. }
            | Reply::Epochs { .. }
            | Reply::Taken
            | Reply::Have
            | Reply::Told(_)
            | Reply::Spent
            | Reply::Other => {}
        }
    }

    /// Notes the state of a member's desk. Nothing is known of the links of one that isn't up.
    pub(crate) fn set_state(&mut self, member: u8, state: MemberState) {
        if let Some(view) = self.views.get_mut(usize::from(member)) {
            if state != MemberState::Up {
                view.coming = 0;
                view.going = 0;
            }
            if view.state != state {
                view.state = state;
                self.note(Event::Member { member, state });
            }
        }
    }

    /// Returns the members, with what each contradicts.
    pub(crate) fn members(&self) -> Result<Vec<MemberView>, AllocError> {
        let mut views = Vec::new(self.alloc);
        for member in 0..self.scope.size.n() {
            let contradicts = self.watch().contradictions(self.alloc, member)?;
            let Some(view) = self.views.get(usize::from(member)) else {
                return Err(AllocError);
            };
            views.push(MemberView {
                state: view.state,
                coming: view.coming,
                going: view.going,
                statements: view.statements,
                decided: view.decided,
                first: self.watch().first(),
                contradicts,
            })?;
        }
        Ok(views)
    }

    /// Returns the times from proposals here to decisions.
    pub(crate) fn times(&self) -> &Times {
        &self.times
    }

    /// Returns the numbers for Prometheus.
    pub(crate) fn tally(&self) -> Tally {
        let (first, end) = self.window();
        let mut waiting: u64 = 0;
        for question in first..end {
            // A question that is spent may still be decided.
            if matches!(
                self.standing(question),
                Standing::Proposed | Standing::Spent
            ) {
                waiting = waiting.saturating_add(1);
            }
        }
        Tally {
            questions: end.saturating_sub(first),
            waiting,
            decisions: self.decisions,
            refusals: self.refusals,
            sum: self.sum,
        }
    }

    /// Returns the first question of the window from this one on that has this rank, and of which
    /// the member said nothing for good.
    pub(crate) fn open_from(&self, question: u64, member: u8, rank: Rank) -> Option<u64> {
        let (first, end) = self.window();
        for question in question.max(first)..end {
            if self.is_open_for(question, member, rank) {
                return Some(question);
            }
        }
        None
    }

    /// Returns the first question of the window, and the one after the last.
    fn window(&self) -> (u64, u64) {
        (self.watch().first(), self.watch().within(u64::MAX))
    }

    /// Returns `true` if the question has this rank, and the member neither told a decision of it
    /// nor was seen at its end.
    fn is_open_for(&self, question: u64, member: u8, rank: Rank) -> bool {
        let note = self.notes.at(question);
        note.spent >> (member & 63) & 1 == 0
            && rank_of(self.standing(question), note.is_told) == Some(rank)
            && self.word_of(question, member).is_none()
    }

    /// Returns the bit that a member told of a question.
    pub(crate) fn word_of(&self, question: u64, member: u8) -> Option<bool>
        ensures told { (heard : List Told) → Watches self.now.hearing heard →
            watch_first self.now.hearing ≤ question → member < 64 →
            is_some result ≡ has_word (words_on question heard) member }
        ensures past { question < watch_first self.now.hearing → result ≡ None }
    {
        self.hearing.watch().word_of(question, member)
    }

    /// Returns the state of a question.
    pub(crate) fn standing(&self, question: u64) -> Standing {
        standing_of(self.decision(question), self.stage(question))
    }

    /// Returns the stage of a question.
    pub(crate) fn stage(&self, question: u64) -> Stage {
        self.notes.at(question).stage
    }

    /// Notes that a member came to the last step of the question's last round. Once n - t did, no
    /// decision is awaited.
    pub(crate) fn set_spent(&mut self, question: u64, member: u8) {
        if self.watch().refusal(question).is_some() {
            return;
        }
        let note = self.notes.at(question);
        let spent = note.spent | 1 << (member & 63);
        self.notes.put(Note { spent, ..note });
        let count = spent.count_ones();
        self.scope.size.recall();
        if count < u32::from(self.scope.size.n() - self.scope.size.t()) {
            return;
        }
        self.end_question(question);
    }

    /// Notes that no decision of the question is awaited.
    fn end_question(&mut self, question: u64) {
        let note = self.notes.at(question);
        if note.stage != Stage::Spent {
            self.notes.put(Note {
                stage: Stage::Spent,
                ..note
            });
            self.note(Event::Spent(question));
        }
    }

    /// Begins a proposal to all members, and returns its number.
    ///
    /// # Errors
    ///
    /// [`Refusal::Past`] or [`Refusal::Question`] if the question isn't one of the window;
    /// [`Refusal::Busy`] if as many proposals are under way as are taken.
    pub(crate) fn propose(&mut self, question: u64, bit: bool, time: u64) -> Result<u64, Refusal> {
        if let Some(refusal) = self.watch().refusal(question) {
            return Err(refusal);
        }
        if self.motions.len() >= MOST_MOTIONS {
            return Err(Refusal::Busy);
        }
        let number = self.motion_count;
        let motion = Motion {
            number,
            question,
            bit,
            time,
            replied: 0,
            taken: 0,
            have: 0,
            refused: 0,
        };
        if self.motions.push(motion).is_err() {
            return Err(Refusal::Busy);
        }
        self.motion_count = number.saturating_add(1);
        self.set_begun(question, time);
        Ok(number)
    }

    /// Returns a proposal that the member hasn't replied to, if there is one.
    pub(crate) fn motion_for(&self, member: u8) -> Option<Motion> {
        self.motions
            .iter()
            .find(|motion| motion.replied >> (member & 63) & 1 == 0)
            .copied()
    }

    /// Notes what a member replied to a proposal.
    pub(crate) fn reply(&mut self, number: u64, member: u8, reply: Reply) {
        for motion in self.motions.iter_mut() {
            if motion.number == number {
                motion.replied |= 1 << (member & 63);
                match reply {
                    Reply::Taken => motion.taken = motion.taken.saturating_add(1),
                    Reply::Have | Reply::Told(_) => motion.have = motion.have.saturating_add(1),
                    Reply::Stopped => {}
                    _ => motion.refused = motion.refused.saturating_add(1),
                }
            }
        }
        if let Some(motion) = self.motion(number) {
            self.start(motion);
        }
    }

    /// Notes that the question of a proposal is under way, once a member took it or had one.
    fn start(&mut self, motion: Motion) {
        if motion.is_heard() && self.awaits(motion.question) {
            self.set_begun(motion.question, motion.time);
            self.begin(motion.question);
        }
    }

    /// Notes the time at which a question was proposed here, if it wasn't before.
    fn set_begun(&mut self, question: u64, time: u64) {
        let note = self.notes.at(question);
        if note.begun.is_none() {
            self.notes.put(Note {
                begun: Some(time),
                ..note
            });
        }
    }

    /// Notes that a question of the window is under way, if it wasn't and isn't spent.
    #[tactic(auto, using(crate::proofs::Comings::none_told))]
    fn begin(&mut self, question: u64)
        ensures begins { IsUnproposed self.old question → Begins self.old question self.new }
        ensures stays { (IsUnproposed self.old question → ⊥) → self.new ≡ self.old }
        ensures told { MayPropose question self.old self.new }
        ensures same { self.new.hearing ≡ self.old.hearing }
    {
        if self.is_unproposed(question) {
            self.set_begun_stage(question);
        }
    }

    /// Returns `true` if nothing is known of the question but what t members at most told.
    fn is_unproposed(&self, question: u64) -> bool
        ensures { IsTrue result ↔ IsUnproposed self.now question }
    {
        let note = self.notes.at(question);
        matches!(note.stage, Stage::Unproposed)
    }

    /// Notes that a question is under way.
    fn set_begun_stage(&mut self, question: u64)
        ensures { Begins self.old question self.new }
    {
        let note = self.notes.at(question);
        self.notes.put(Note {
            stage: Stage::Proposed,
            ..note
        });
        self.note(Event::Proposed(question));
    }

    /// Notes an event. If memory for it is refused, followers load everything anew.
    fn note(&mut self, event: Event)
        ensures told { AreTold (event ∷ []) self.old self.new }
        ensures rest { self.new ≡ record self.old {
          events = self.new.events;
          before = self.new.before;
        } }
    {
        self.make_room();
        self.push_event(event);
    }

    /// Drops the older half of the events if there are as many as are kept.
    #[tactic(auto, using(crate::proofs::Comings::none_told))]
    fn make_room(&mut self)
        ensures kept { AreTold [] self.old self.new }
        ensures rest { self.new ≡ record self.old {
          events = self.new.events;
          before = self.new.before;
        } }
    {
        if self.events.len() >= MOST_EVENTS {
            self.drop_older();
        }
    }

    /// Puts an event behind those that are kept. If memory for it is refused, none is kept.
    fn push_event(&mut self, event: Event)
        ensures told { AreTold (event ∷ []) self.old self.new }
        ensures rest { self.new ≡ record self.old {
          events = self.new.events;
          before = self.new.before;
        } }
    {
        if self.events.push(event).is_err() {
            self.drop_events();
            self.before = self.before.saturating_add(1);
        }
    }

    /// Drops the older half of the events; all of them if memory for the others is refused.
    fn drop_older(&mut self)
        ensures kept { AreTold [] self.old self.new }
        ensures rest { self.new ≡ record self.old {
          events = self.new.events;
          before = self.new.before;
        } }
    {
        let half = self.events.len() / 2;
        match self.events.split_off(half) {
            Ok(later) => {
                self.before = self.before.saturating_add(half as u64);
                self.events = later;
            }
            Err(_) => self.drop_events(),
        }
    }

    /// Drops all events.
    fn drop_events(&mut self)
        ensures none { self.new.events.items ≡ [] }
        ensures last { last_number self.new ≡ last_number self.old }
        ensures rest { self.new ≡ record self.old {
          events = self.new.events;
          before = self.new.before;
        } }
    {
        self.before = self.last();
        self.events = Vec::new(self.alloc);
    }

    /// Forgets the time of a proposal that no member took, if the question isn't under way.
    pub(crate) fn withdraw(&mut self, question: u64) {
        let note = self.notes.at(question);
        if note.stage == Stage::Unproposed && self.awaits(question) {
            self.notes.put(Note {
                begun: None,
                ..note
            });
        }
    }

    /// Returns `true` if the question is one of the window and isn't decided.
    pub(crate) fn awaits(&self, question: u64) -> bool {
        self.watch().refusal(question).is_none() && self.decision(question).is_none()
    }

    /// Returns the decision of a question: the bit that more than t members told.
    pub(crate) fn decision(&self, question: u64) -> Option<bool>
        ensures decides { (heard : List Told) → Watches self.now.hearing heard →
            watch_first self.now.hearing ≤ question →
            Decides (watch_size self.now.hearing) heard question result }
        ensures past { question < watch_first self.now.hearing → result ≡ None }
    {
        self.hearing.watch().decision(question)
    }

    /// Returns the watch.
    pub(crate) fn watch(&self) -> &Watch
        ensures value { result.now ≡ self.now.hearing }
        ensures stands { (heard : List Told) × Watches result.now heard }
    {
        self.hearing.watch()
    }

    /// Returns `true` while a member that answers hasn't replied to the proposal.
    pub(crate) fn is_asked(&self, number: u64) -> bool {
        match self.motion(number) {
            Some(motion) => self.reachable() & !motion.replied != 0,
            None => false,
        }
    }

    /// Returns the members whose desks answered last, a bit each.
    pub(crate) fn reachable(&self) -> u64 {
        let mut mask = 0;
        for (member, view) in self.views.iter().enumerate() {
            if view.state == MemberState::Up {
                mask |= 1 << (member & 63);
            }
        }
        mask
    }

    /// Ends a proposal, and returns it. The others stay.
    pub(crate) fn end_motion(&mut self, number: u64) -> Option<Motion>
        ensures ended { result
            ≡ find (λ motion. motion.number == number) self.old.motions.items }
        ensures stays { self.new.motions.items
            ≡ filter (λ motion. not (motion.number == number)) self.old.motions.items }
        ensures rest { self.new ≡ record self.old { motions = self.new.motions } }
    {
        let ended = self.motion(number);
        self.motions.retain(|motion| motion.number != number);
        ended
    }

    /// Returns a proposal that is under way.
    pub(crate) fn motion(&self, number: u64) -> Option<Motion>
        ensures { result ≡ find (λ motion. motion.number == number) self.now.motions.items }
    {
        for motion in &self.motions {
            if motion.number == number {
                return Some(*motion);
            }
        }
        None
    }

    /// Returns the position of the last event in this life.
    pub(crate) fn position(&self, life: u64) -> Position
        ensures { result ≡ record { life = life; number = last_number self.now } }
    {
        Position {
            life,
            number: self.last(),
        }
    }

    /// Returns the number of the last event.
    pub(crate) fn last(&self) -> u64
        ensures { result ≡ last_number self.now }
    {
        self.before.saturating_add(self.events.len() as u64)
    }
}

/// Returns a member of which nothing is known.
fn new_view(alloc: Global) -> MemberView {
    MemberView {
        state: MemberState::Silent,
        coming: 0,
        going: 0,
        statements: 0,
        decided: 0,
        first: 0,
        contradicts: Vec::new(alloc),
    }
}

/// Returns the first 64 events at most.
fn first_of(events: &[Event]) -> &[Event]
    ensures { result.now ≡ take 64 events.now }
{
    if events.len() < 64 {
        return events;
    }
    &events[..64]
}

/// Returns the events from this place on.
fn from_place(events: &[Event], place: usize) -> &[Event]
    requires { place ≤ length events.now }
    ensures { result.now ≡ drop place events.now }
{
    &events[place..]
}
