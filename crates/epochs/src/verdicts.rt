//! The decisions of an epoch: begin at `Verdicts`.

ghost use Rattle.std.specs.Prelude.{ℕ, ◌≡◌, ◌≢◌, ◌⊎◌, ◌<◌, ◌==◌, ◌&&◌, Bool, true, false, None, Some, [], ◌∷◌, ◌++◌, List, IfOk, IfSome, OnOk, cond, get_or, length, slice_get};
ghost use Rattle.std.specs.Option.{is_none};
ghost use Rattle.std.specs.List.{list_any};
ghost use Rattle.epochs.specs.Verdicts.{IsUntouched, SaysOf, decided_bit, first_of, has_begun, is_open, has_open, order_with, own_place, verdict_at, waits, waits_with, was_proposed};
ghost use Rattle.terms_prelude.specs.Terms.{Initial, Record, is_about};

use std::alloc::Global;
use terms::{Header, Kind, Memory, Record, Statement};

/// The decisions of an epoch's questions. Nothing is known if the epoch's journal was put
/// away.
#[derive(Drop)]
pub struct Verdicts {
    /// A cell for each question: 0 if no decision is known, 1 for the bit 0, 2 for the bit 1, 3 if
    /// it was proposed here and isn't decided.
    cells: Vec<u8>,
    /// The questions that are decided, in the order of the journal.
    order: Vec<u16>,
}

impl Verdicts {
    /// Those of an epoch whose journal was put away.
    pub fn gone(alloc: Global) -> Verdicts
        ensures cells { length result.cells.items ≡ 0 }
        ensures order { result.order.items ≡ [] }
    {
        Verdicts {
            cells: Vec::new(alloc),
            order: Vec::new(alloc),
        }
    }

    /// Those of an epoch of so many questions, of which none is decided.
    pub fn none(alloc: Global, questions: u16) -> Result<Verdicts, Memory>
        ensures { IfOk result (IsUntouched questions) }
    {
        let mut cells = Vec::new(alloc);
        cells.resize(usize::from(questions), 0u8)?;
        Ok(Verdicts {
            cells,
            order: Vec::new(alloc),
        })
    }

    /// Reads the records of an epoch's journal: of each question the first decision is known.
    pub fn of_records(
        alloc: Global,
        header: &Header,
        records: &[Record],
    ) -> Result<Verdicts, Memory>
        ensures says { IfOk result (SaysOf header.now.size.questions records.now) }
        ensures waits { IfOk result (λ verdicts. (q : ℕ) → q < header.now.size.questions →
            waits verdicts q ≡ (is_none (decided_bit records.now q)
            && was_proposed header.now.me q records.now)) }
    {
        let mut verdicts = Verdicts::none(alloc, header.size().questions())?;
        for record in records {
            verdicts.read(header.me(), *record)?;
        }
        Ok(verdicts)
    }

    /// Returns `true` if a question was proposed to this member and isn't decided.
    pub fn is_undone(&self) -> bool
        ensures { result ≡ list_any (λ cell. cell == 3) self.now.cells.items }
    {
        self.cells.iter().any(|cell| *cell == 3)
    }

    /// Returns `true` if the epoch's journal was put away.
    pub(crate) fn is_gone(&self) -> bool
        ensures kept { result ≡ false → 0 < length self.now.cells.items }
        ensures gone { result ≡ true → length self.now.cells.items ≡ 0 }
    {
        self.cells.is_empty()
    }

    /// Returns `true` if a question is decided, or was proposed to this member.
    pub(crate) fn has_begun(&self) -> bool
        ensures { result ≡ has_begun self.now }
    {
        self.is_undone() || self.order.len() > 0
    }

    /// Returns `true` if a question isn't decided.
    pub(crate) fn has_open(&self) -> bool
        ensures { result ≡ has_open self.now }
    {
        self.order.len() < self.cells.len()
    }

    /// Returns the question that was decided at this place of the journal's decisions, and its bit.
    pub(crate) fn decided_at(&self, place: u16) -> Option<(u16, bool)>
        ensures known { (question : ℕ) (bit : Bool) →
            slice_get self.now.order.items place ≡ Some question →
            verdict_at self.now question ≡ Some bit → result ≡ Some (question, bit) }
        ensures question { IfSome result
            (λ told. slice_get self.now.order.items place ≡ Some told.0) }
        ensures bit { IfSome result (λ told. verdict_at self.now told.0 ≡ Some told.1) }
    {
        let Some(question) = self.order.get(usize::from(place)) else {
            return None;
        };
        match self.of(*question) {
            Some(bit) => Some((*question, bit)),
            None => None,
        }
    }

    /// Returns the decision of the question, if it is known.
    pub(crate) fn of(&self, question: u16) -> Option<bool>
        ensures { result ≡ verdict_at self.now question }
    {
        match self.cells.get(usize::from(question)) {
            Some(1) => Some(false),
            Some(2) => Some(true),
            _ => None,
        }
    }

    /// Reads the next record of the journal of member me.
    fn read(&mut self, me: u8, next: Record) -> Result<(), Memory>
        ensures each { OnOk result
            ((q : ℕ) (later : List Record) → q < length self.old.cells.items →
            first_of (verdict_at self.new q) (decided_bit later q)
            ≡ first_of (verdict_at self.old q) (decided_bit (next ∷ later) q)) }
        ensures order { OnOk result ((later : List Record) →
            order_with self.new later ≡ order_with self.old (next ∷ later)) }
        ensures waits { OnOk result
            ((q : ℕ) (later : List Record) → q < length self.old.cells.items →
            waits_with me self.new q later ≡ waits_with me self.old q (next ∷ later)) }
        ensures size { length self.new.cells.items ≡ length self.old.cells.items }
    {
        match next {
            Record::Decided { question, bit, .. } => self.decide(question, bit),
            Record::Said(said) => {
                if is_own_proposal(me, said) {
                    self.propose(said.place().question());
                }
                Ok(())
            }
        }
    }

    /// The question was decided for this bit. Of several decisions the first counts.
    fn decide(&mut self, question: u16, bit: bool) -> Result<(), Memory>
        ensures first { (verdict_at self.old question ≡ None → ⊥) → self.new ≡ self.old }
        ensures told { (q : ℕ) (b : Bool) → verdict_at self.new q ≡ Some b →
            (verdict_at self.old q ≡ Some b) ⊎ ((q ≡ question) × (b ≡ bit)) }
        ensures decided { IfOk result
            (λ _. (q : ℕ) → q < length self.old.cells.items →
            verdict_at self.new q ≡ first_of (verdict_at self.old q)
            (cond (question == q) (Some bit) None)) }
        ensures order { OnOk result (self.new.order.items ≡ cond (is_open self.old question)
            (self.old.order.items ++ question ∷ []) self.old.order.items) }
        ensures others { (q : ℕ) → q ≢ question →
            get_or self.new.cells.items q 0 ≡ get_or self.old.cells.items q 0 }
        ensures size { length self.new.cells.items ≡ length self.old.cells.items }
    {
        if !self.is_open(question) {
            return Ok(());
        }
        self.order.push(question)?;
        if let Some(cell) = self.cells.get_mut(usize::from(question)) {
            *cell = if bit { 2 } else { 1 };
        }
        Ok(())
    }

    /// Returns `true` if it is a question of the epoch, and no decision of it is known.
    fn is_open(&self, question: u16) -> bool
        ensures { result ≡ is_open self.now question }
    {
        self.of(question).is_none() && usize::from(question) < self.cells.len()
    }

    /// The question was proposed to this member.
    fn propose(&mut self, question: u16)
        ensures order { self.new.order ≡ self.old.order }
        ensures kept { (q : ℕ) → verdict_at self.new q ≡ verdict_at self.old q }
        ensures waits { question < length self.old.cells.items →
            verdict_at self.old question ≡ None → waits self.new question ≡ true }
        ensures others { (q : ℕ) → q ≢ question →
            get_or self.new.cells.items q 0 ≡ get_or self.old.cells.items q 0 }
        ensures size { length self.new.cells.items ≡ length self.old.cells.items }
    {
        if self.of(question).is_some() {
            return;
        }
        if let Some(cell) = self.cells.get_mut(usize::from(question)) {
            *cell = 3;
        }
    }
}

/// Returns `true` if the member said by this that a bit was proposed to it.
fn is_own_proposal(me: u8, said: Statement) -> bool
    ensures { result ≡ is_about said Initial (own_place me said.place.question) }
{
    let place = said.place();
    said.kind() == Kind::Initial && place.origin() == me && place.round() == 1 && place.step() == 1
}
