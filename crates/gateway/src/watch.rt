//! The words of members on the questions of a cluster or a chain, and the decisions that may be
//! believed.

ghost use Rattle.std.specs.Prelude.{◌≡◌, ◌<◌, ◌≤◌, ◌+◌, ◌/◌, ◌↔◌, ◌∷◌, ◌++◌, [], ℕ, Bool, List, IfErr, IfOk, IsTrue, IsFalse, OnErr, OnOk, None, drop, false, length, replicate, true, slice_get};
ghost use Rattle.client.specs.Readings.{Reads, first_word, size_of};
ghost use Rattle.gateway.specs.Heads.{IsCommonHead, count_at, moved_heads, next_first};
ghost use Rattle.gateway.specs.Scopes.{epoch_start, window_length};
ghost use Rattle.gateway.specs.Watches.{AreContradictions, Contradicts, ContradictsOn, Decides, IsInWindow, IsKept, Watches, contradiction_in, refusal_at, teller_count, watch_first, watch_heads, watch_scope, watch_size, within, words_on};
ghost use Rattle.gateway.specs.declared.watch.Told.{Told};

use crate::heads::{common_head, move_head, next_first};
use crate::requests::Refusal;
use crate::scopes::{Scope, epoch_start};
use client::Reading;
use std::alloc::{AllocError, Global};
use terms::Size;

/// A decision that a member told.
#[derive(Clone, Copy, Debug, PartialEq, Eq)]
pub struct Told {
    /// The member.
    pub member: u8,
    /// The question.
    pub question: u64,
    /// The bit.
    pub bit: bool,
}

/// Members' words on a window of questions, and the decisions that they make believable.
#[derive(Debug, Drop)]
pub struct Watch {
    scope: Scope,
    /// The first question of the window.
    first: u64,
    readings: Vec<Reading>,
    /// The slots to which the members of a chain have come.
    heads: Vec<u64>,
}

impl Watch {
    /// Returns a watch over a cluster of this size, before anybody told anything. Its window has
    /// all questions, and never moves.
    ///
    /// # Errors
    ///
    /// [`AllocError`] if an allocation failed.
    #[tactic(auto, unfolding(crate::specs::Watches::watch_scope, crate::specs::Watches::watch_size))]
    pub fn new(alloc: Global, size: Size) -> Result<Watch, AllocError>
        ensures size { IfOk result (λ watch. watch_size watch ≡ size) }
        ensures cluster { IfOk result (λ watch. (watch_scope watch).chain ≡ false) }
        ensures first { IfOk result (λ watch. watch_first watch ≡ 0) }
        ensures nothing { IfOk result (λ watch. Watches watch []) }
    {
        Watch::over(alloc, Scope { size, chain: false })
    }

    /// Returns a watch over a chain of clusters of this size, before anybody told anything. Each
    /// member is at slot 0. The window begins there, and moves ahead by [`Watch::reach`].
    ///
    /// # Errors
    ///
    /// [`AllocError`] if an allocation failed.
    #[tactic(auto, unfolding(crate::specs::Watches::watch_scope, crate::specs::Watches::watch_size))]
    pub fn of_chain(alloc: Global, size: Size) -> Result<Watch, AllocError>
        ensures size { IfOk result (λ watch. watch_size watch ≡ size) }
        ensures chain { IfOk result (λ watch. (watch_scope watch).chain ≡ true) }
        ensures first { IfOk result (λ watch. watch_first watch ≡ 0) }
        ensures heads { IfOk result (λ watch. watch_heads watch ≡ replicate size.n 0) }
        ensures nothing { IfOk result (λ watch. Watches watch []) }
    {
        Watch::over(alloc, Scope { size, chain: true })
    }

    /// Returns the size of the cluster.
    #[tactic(auto, unfolding(crate::specs::Watches::watch_size))]
    pub fn size(&self) -> Size
        ensures { result ≡ watch_size self.now }
    {
        self.scope.size
    }

    /// Returns the size of the cluster, and whether it is a chain.
    #[tactic(auto, unfolding(crate::specs::Watches::watch_scope))]
    pub fn scope(&self) -> Scope
        ensures { result ≡ watch_scope self.now }
    {
        self.scope
    }

    /// Returns the first question of the window.
    #[tactic(auto, unfolding(crate::specs::Watches::watch_first))]
    pub fn first(&self) -> u64
        ensures { result ≡ watch_first self.now }
    {
        self.first
    }

    /// Returns the reason why nothing is told of a question, if it isn't one of the window.
    #[tactic(auto, unfolding(crate::specs::Watches::watch_first, crate::specs::Watches::watch_scope))]
    pub fn refusal(&self, question: u64) -> Option<Refusal>
        ensures { result ≡ refusal_at (watch_first self.now)
            (window_length (watch_scope self.now)) question }
    {
        if question < self.first {
            return Some(Refusal::Past);
        }
        if question - self.first < self.scope.window_length() as u64 {
            None
        } else {
            Some(Refusal::Question)
        }
    }

    /// Returns the question of the window that is nearest to this one, from the first to the one
    /// after the last.
    #[tactic(auto, unfolding(crate::specs::Watches::watch_first, crate::specs::Watches::watch_scope))]
    pub fn within(&self, question: u64) -> u64
        ensures { result ≡ within (watch_first self.now)
            (window_length (watch_scope self.now)) question }
    {
        if question <= self.first {
            return self.first;
        }
        let place = (question - self.first).min(self.scope.window_length() as u64);
        self.first + place
    }

    /// Returns the number from which one follows a member of a chain that is at this slot: that of
    /// the epoch in which the window begins once more than t members are there.
    #[tactic(auto, unfolding(crate::specs::Watches::watch_first, crate::specs::Watches::watch_scope, crate::specs::Watches::watch_size))]
    pub fn follow_from(&self, slot: u64) -> u64
        ensures { result ≡ epoch_start (watch_size self.now).questions
            (next_first (watch_first self.now) (window_length (watch_scope self.now) / 4) slot) }
    {
        self.scope.size.recall();
        let questions = u64::from(self.scope.size.questions());
        let quarter = (self.scope.window_length() / 4) as u64;
        epoch_start(questions, next_first(self.first, quarter, slot))
    }

    /// Takes a decision that a member told. Of each member the first word on a question counts.
    /// Returns `false` if there is no such member, or the question isn't one of the window, and
    /// then nothing changed. The window and the members' slots stay.
    #[tactic(auto, unfolding(crate::specs::Watches::Watches, crate::specs::Watches::watch_first, crate::specs::Watches::watch_heads, crate::specs::Watches::watch_scope, crate::specs::Watches::watch_size))]
    pub fn take(&mut self, told: Told) -> bool
        ensures words { IsTrue result → (heard : List Told) → Watches self.old heard →
            Watches self.new (heard ++ told ∷ []) }
        ensures same { IsFalse result → self.new ≡ self.old }
        ensures size { watch_size self.new ≡ watch_size self.old }
        ensures scope { watch_scope self.new ≡ watch_scope self.old }
        ensures first { watch_first self.new ≡ watch_first self.old }
        ensures heads { watch_heads self.new ≡ watch_heads self.old }
        ensures taken { (heard : List Told) → Watches self.old heard →
            (IsTrue result ↔ ((told.member < (watch_size self.old).n)
            × IsInWindow self.old told.question)) }
    {
        if told.question < self.first {
            return false;
        }
        let place = told.question - self.first;
        if place >= self.readings.len() as u64 {
            return false;
        }
        let place = place as usize;
        let mut reading = self.readings[place];
        if !reading.take(told.member, told.bit) {
            return false;
        }
        self.readings[place] = reading;
        true
    }

    /// Notes that a member of a chain has come to a slot, and moves the window ahead: once the
    /// greatest slot to which more than t members have come is past the third quarter of the
    /// window, it is the first of the third. Words on the questions that stay, stay; those before
    /// are forgotten. Whatever t members say, the window moves no further than another one has
    /// come.
    ///
    /// # Errors
    ///
    /// [`AllocError`] if an allocation failed: that may be only if the window has to move ahead. It
    /// stays where it is, and the member's slot is noted all the same.
    #[tactic(auto, unfolding(crate::specs::Watches::Watches, crate::specs::Watches::watch_first, crate::specs::Watches::watch_heads, crate::specs::Watches::watch_scope, crate::specs::Watches::watch_size))]
    pub fn reach(&mut self, alloc: Global, member: u8, slot: u64) -> Result<(), AllocError>
        ensures words { (heard : List Told) → Watches self.old heard → Watches self.new heard }
        ensures scope { watch_scope self.new ≡ watch_scope self.old }
        ensures cluster { (watch_scope self.old).chain ≡ false → self.new ≡ self.old }
        ensures heads { (watch_scope self.old).chain ≡ true →
            watch_heads self.new ≡ moved_heads (watch_heads self.old) member slot }
        ensures moves { OnOk result ((watch_scope self.old).chain ≡ true →
            (head : ℕ) × IsCommonHead (watch_size self.old).t (watch_heads self.new) head
            × (watch_first self.new ≡ next_first (watch_first self.old)
            (window_length (watch_scope self.old) / 4) head)) }
        ensures stays { OnErr result (watch_first self.new ≡ watch_first self.old) }
        ensures chained { OnErr result ((watch_scope self.old).chain ≡ true) }
        ensures needed { OnErr result ((head : ℕ) →
            IsCommonHead (watch_size self.old).t (watch_heads self.new) head →
            watch_first self.old < next_first (watch_first self.old)
            (window_length (watch_scope self.old) / 4) head) }
        ensures held { watch_first self.old < watch_first self.new →
            (watch_size self.old).t < count_at (watch_heads self.new) (watch_first self.new) }
    {
        if !self.scope.chain {
            return Ok(());
        }
        move_head(&mut self.heads, member, slot);
        let head = common_head(&self.heads, self.scope.size.t());
        let quarter = (self.scope.window_length() / 4) as u64;
        let first = next_first(self.first, quarter, head);
        self.pass(alloc, first)
    }

    /// Forgets the questions before this one, and begins the window there, if it isn't there.
    #[tactic(auto, unfolding(crate::specs::Watches::Watches, crate::specs::Watches::watch_first, crate::specs::Watches::watch_heads, crate::specs::Watches::watch_scope))]
    fn pass(&mut self, alloc: Global, first: u64) -> Result<(), AllocError>
        requires { watch_first self.old ≤ first }
        ensures words { (watch_scope self.old).chain ≡ true → (heard : List Told) →
            Watches self.old heard → Watches self.new heard }
        ensures scope { watch_scope self.new ≡ watch_scope self.old }
        ensures heads { watch_heads self.new ≡ watch_heads self.old }
        ensures moves { OnOk result (watch_first self.new ≡ first) }
        ensures stays { OnErr result (self.new ≡ self.old) }
        ensures needed { OnErr result (watch_first self.old < first) }
    {
        if first == self.first {
            return Ok(());
        }
        self.forget(alloc, first)
    }

    /// Forgets the questions before this one, and begins the window there.
    #[tactic(auto, unfolding(crate::specs::Watches::Watches, crate::specs::Watches::watch_first, crate::specs::Watches::watch_heads, crate::specs::Watches::watch_scope))]
    fn forget(&mut self, alloc: Global, first: u64) -> Result<(), AllocError>
        requires { watch_first self.old ≤ first }
        ensures words { (watch_scope self.old).chain ≡ true → (heard : List Told) →
            Watches self.old heard → Watches self.new heard }
        ensures scope { watch_scope self.new ≡ watch_scope self.old }
        ensures heads { watch_heads self.new ≡ watch_heads self.old }
        ensures moves { OnOk result (watch_first self.new ≡ first) }
        ensures stays { OnErr result (self.new ≡ self.old) }
    {
        let rest = from_place(&self.readings, first - self.first);
        self.readings = filled(alloc, self.scope.size, self.readings.len(), rest)?;
        self.first = first;
        Ok(())
    }

    /// Returns the decision of the question: the first bit that more than t members told. There is
    /// none of a question before the window.
    #[tactic(auto, unfolding(crate::specs::Watches::Watches, crate::specs::Watches::watch_size))]
    pub fn decision(&self, question: u64) -> Option<bool>
        ensures decides { (heard : List Told) → Watches self.now heard →
            watch_first self.now ≤ question →
            Decides (watch_size self.now) heard question result }
        ensures past { question < watch_first self.now → result ≡ None }
    {
        match self.reading_at(question) {
            Some(reading) => reading.decision(),
            None => None,
        }
    }

    /// Returns the bit that the member told first on the question, if it told one. A member that
    /// isn't below 64 told none, and nobody told one of a question before the window.
    #[tactic(auto, unfolding(crate::specs::Watches::Watches))]
    pub fn word_of(&self, question: u64, member: u8) -> Option<bool>
        ensures told { (heard : List Told) → Watches self.now heard →
            watch_first self.now ≤ question → member < 64 →
            result ≡ first_word (words_on question heard) member }
        ensures past { question < watch_first self.now → result ≡ None }
    {
        match self.reading_at(question) {
            Some(reading) => reading.word_of(member),
            None => None,
        }
    }

    /// Returns how many members told a bit of the question. Nobody told one of a question before
    /// the window. If more than t members did, a correct one did.
    #[tactic(auto, unfolding(crate::specs::Watches::watch_size))]
    pub fn teller_count(&self, question: u64) -> u8
        ensures told { (heard : List Told) → Watches self.now heard →
            watch_first self.now ≤ question →
            result ≡ teller_count (watch_size self.now) heard question }
        ensures past { question < watch_first self.now → result ≡ 0 }
    {
        self.scope.size.recall();
        let mut count = 0;
        for member in 0..self.scope.size.n() {
            if self.word_of(question, member).is_some() {
                count += 1;
            }
        }
        count
    }

    /// Returns the reading of a question, if it is one of the window.
    #[tactic(auto, unfolding(crate::specs::Watches::watch_first))]
    fn reading_at(&self, question: u64) -> Option<Reading>
        ensures kept { (place : ℕ) → question ≡ watch_first self.now + place →
            result ≡ slice_get self.now.readings.items place }
        ensures past { question < watch_first self.now → result ≡ None }
    {
        if question < self.first {
            return None;
        }
        let place = question - self.first;
        if place >= self.readings.len() as u64 {
            return None;
        }
        Some(self.readings[place as usize])
    }

    /// Returns the bit that the member told first on the question, if more than t members told the
    /// other one. There is none of a question before the window.
    pub fn contradiction(&self, question: u64, member: u8) -> Option<bool>
        ensures told { (heard : List Told) → Watches self.now heard →
            watch_first self.now ≤ question → member < 64 →
            Contradicts (watch_size self.now) heard member question result }
        ensures past { question < watch_first self.now → result ≡ None }
    {
        contradiction_in(self.decision(question), self.word_of(question, member))
    }

    /// Returns for each question of the window, in order, the bit that the member told first, if
    /// more than t members told the other one.
    ///
    /// # Errors
    ///
    /// [`AllocError`] if an allocation failed.
    #[tactic(auto, unfolding(crate::specs::Watches::Watches, crate::specs::Watches::watch_first, crate::specs::Watches::watch_scope, crate::specs::Watches::watch_size))]
    pub fn contradictions(&self, alloc: Global, member: u8) -> Result<Vec<Option<bool>>, AllocError>
        ensures { (heard : List Told) → Watches self.now heard → member < 64 →
            IfOk result (λ found. AreContradictions (watch_size self.now) heard member
            (watch_first self.now) (window_length (watch_scope self.now)) found.items) }
    {
        let mut found = Vec::new(alloc);
        for place in 0..self.readings.len() {
            found.push(contradiction_on(&self.readings[place], member))?;
        }
        Ok(found)
    }

    /// Returns a watch over this scope, before anybody told anything.
    #[tactic(auto, unfolding(crate::specs::Watches::Watches, crate::specs::Watches::watch_scope, crate::specs::Watches::watch_first, crate::specs::Watches::watch_heads))]
    fn over(alloc: Global, scope: Scope) -> Result<Watch, AllocError>
        ensures scope { IfOk result (λ watch. watch_scope watch ≡ scope) }
        ensures first { IfOk result (λ watch. watch_first watch ≡ 0) }
        ensures heads { IfOk result (λ watch. watch_heads watch ≡ replicate scope.size.n 0) }
        ensures nothing { IfOk result (λ watch. Watches watch []) }
    {
        let readings = filled(alloc, scope.size, scope.window_length(), &[])?;
        let mut heads = Vec::new(alloc);
        heads.resize(usize::from(scope.size.n()), 0)?;
        Ok(Watch {
            scope,
            first: 0,
            readings,
            heads,
        })
    }
}

/// Returns so many readings: these, and behind them those of questions of which nobody told
/// anything.
fn filled(
    alloc: Global,
    size: Size,
    count: usize,
    kept: &[Reading],
) -> Result<Vec<Reading>, AllocError>
    requires { length kept.now ≤ count }
    ensures all { IfOk result (λ readings. length readings.items ≡ count) }
    ensures kept { IfOk result (λ readings. (place : ℕ) → (words : List (ℕ × Bool)) →
        IsKept size (slice_get kept.now place) words →
        IsKept size (slice_get readings.items place) words) }
{
    let mut readings = Vec::new(alloc);
    readings.extend_from_slice(kept)?;
    for _ in kept.len()..count {
        readings.push(Reading::new(size))?;
    }
    Ok(readings)
}

/// Returns the bit that the member told first, if more than t members told the other one.
fn contradiction_on(reading: &Reading, member: u8) -> Option<bool>
    ensures { (words : List (ℕ × Bool)) → Reads reading.now words → member < 64 →
        ContradictsOn (size_of reading.now) words member result }
{
    contradiction_in(reading.decision(), reading.word_of(member))
}

/// Returns the readings from this place on.
fn from_place(readings: &[Reading], place: u64) -> &[Reading]
    ensures { result.now ≡ drop place readings.now }
{
    if place >= readings.len() as u64 {
        return &[];
    }
    &readings[place as usize..]
}

/// Returns the bit that was told, if the decision is the other one.
fn contradiction_in(decision: Option<bool>, word: Option<bool>) -> Option<bool>
    ensures { result ≡ contradiction_in decision word }
{
    match (decision, word) {
        (Some(true), Some(false)) => Some(false),
        (Some(false), Some(true)) => Some(true),
        _ => None,
    }
}
