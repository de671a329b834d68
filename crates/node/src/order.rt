//! Decisions in the order of the journal.
ghost use Rattle.std.specs.Prelude.{◌≡◌, ◌≤◌, ◌<◌, ◌++◌, [], ◌∷◌, ℕ, List, IfOk, length};
ghost use Rattle.terms_prelude.specs.Terms.{Record};
ghost use Rattle.node.specs.Decisions.{IsOrdered};

use std::alloc::Global;
use std::marker::Model;
use terms::{Memory, Record};

/// A decision that a member has saved.
#[derive(Clone, Copy, Debug, PartialEq, Eq)]
pub struct Decision {
    /// The question, counted from 0.
    pub question: u16,
    /// The bit that it was decided for.
    pub bit: bool,
}

/// The filling where no decision was noted yet.
const BLANK: Decision = Decision {
    question: 0,
    bit: false,
};

/// The decisions of a member in the order in which it saved them: one for each question at most.
/// Room for all is made at the beginning. Contracts see the decisions, and for how many there is
/// room.
#[derive(Drop)]
pub(crate) struct Order {
    items: Vec<Decision>,
    count: usize,
}

impl Model for Order {
    ghost use Rattle.std.specs.Prelude.{◌≤◌, length, take};
    ghost use Rattle.node.specs.Decisions.{OrderView};

    ghost Value = { OrderView };

    ghost view = { λ o.
        record { items = take o.count o.items.items; most = length o.items.items } };

    ghost invariant = { λ o. o.count ≤ length o.items.items };
}

impl Order {
    /// The decisions of these records, with room for one of each question.
    pub(crate) fn of(alloc: Global, questions: u16, records: &[Record]) -> Result<Order, Memory>
        ensures { IfOk result (λ order. IsOrdered questions records.now order) }
    {
        let mut order = Order::new(alloc, questions)?;
        for one in records {
            order.add_record(one);
        }
        Ok(order)
    }

    /// No decisions, and room for so many.
    fn new(alloc: Global, most: u16) -> Result<Order, Memory>
        ensures items { IfOk result (λ order. order.items ≡ []) }
        ensures most { IfOk result (λ order. order.most ≡ most) }
    {
        let mut items = Vec::new(alloc);
        for _ in 0..most {
            items.push(BLANK)?;
        }
        Ok(Order { items, count: 0 })
    }

    /// Adds the decision of a record, if it is one.
    pub(crate) fn add_record(&mut self, one: &Record)
        ensures { (questions : ℕ) (before : List Record) → IsOrdered questions before self.old →
            IsOrdered questions (before ++ one.now ∷ []) self.new }
    {
        if let Record::Decided { question, bit, .. } = *one {
            self.add(Decision { question, bit });
        }
    }

    /// Adds a decision, where there is room.
    fn add(&mut self, decision: Decision)
        ensures most { self.new.most ≡ self.old.most }
        ensures room { length self.old.items < self.old.most →
            self.new.items ≡ self.old.items ++ decision ∷ [] }
        ensures full { self.old.most ≤ length self.old.items → self.new.items ≡ self.old.items }
    {
        if self.count < self.items.len() {
            self.items[self.count] = decision;
            self.count += 1;
        }
    }

    /// The decisions.
    pub(crate) fn as_slice(&self) -> &[Decision]
        ensures { result.now ≡ self.now.items }
    {
        &self.items[..self.count]
    }
}
