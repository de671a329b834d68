//! The decisions of a member, question by question.
ghost use Rattle.std.specs.Prelude.{◌≡◌, ◌++◌, [], ◌∷◌, ℕ, List, IfOk, take, drop};
ghost use Rattle.terms_prelude.specs.Terms.{Record};
ghost use Rattle.member.specs.Readers.{member_header, member_saved};
ghost use Rattle.member.specs.Sound.{IsSound};
ghost use Rattle.node.specs.Tallies.{AreCounted, IsTallied, tallied};
ghost use Rattle.node.specs.Verdicts.{known_at};

use crate::order::{Decision, Order};
use disk::Disk;
use member::Member;
use std::alloc::Global;
use std::marker::Model;
use terms::{Memory, Record};

/// The verdict of each question, how many questions have one, and the decisions in order. All is
/// found at once, also where the member is stopped, which looks for each in all its records.
/// Contracts see the three.
#[derive(Drop)]
pub(crate) struct Tally {
    verdicts: Vec<Option<bool>>,
    decided: u16,
    order: Order,
}

impl Model for Tally {
    ghost use Rattle.node.specs.Tallies.{TallyView};

    ghost Value = { TallyView };

    ghost view = { λ tally.
        record { verdicts = tally.verdicts.items; decided = tally.decided; order = tally.order } };
}

impl Tally {
    /// The verdicts of a member.
    pub(crate) fn of<D: Disk>(alloc: Global, member: &Member<D>) -> Result<Tally, Memory>
        requires { IsSound D.Disk member.now }
        ensures { IfOk result
            (IsTallied (member_header member.now).size.questions (member_saved member.now)) }
    {
        let mut verdicts = Vec::new(alloc);
        let mut decided = 0;
        for question in 0..member.header().size().questions() {
            let verdict = member.verdict(question);
            if verdict.is_some() {
                decided += 1;
            }
            verdicts.push(verdict)?;
        }
        let order = Order::of(alloc, member.header().size().questions(), member.records())?;
        Ok(Tally {
            verdicts,
            decided,
            order,
        })
    }

    /// Adds the records behind the first so many, which were added before.
    pub(crate) fn add_behind(&mut self, records: &[Record], count: usize)
        ensures { (questions : ℕ) → IsTallied questions (take count records.now) self.old →
            IsTallied questions records.now self.new }
    {
        for one in behind(records, count) {
            self.add(one);
        }
    }

    /// Adds a record. Of several decisions of a question the first counts.
    fn add(&mut self, one: &Record)
        ensures { (questions : ℕ) (before : List Record) → IsTallied questions before self.old →
            IsTallied questions (before ++ one.now ∷ []) self.new }
    {
        self.order.add_record(one);
        self.count(one);
    }

    /// Counts what a record decides.
    fn count(&mut self, one: &Record)
        ensures order { self.new.order ≡ self.old.order }
        ensures counted { (questions : ℕ) (before : List Record) →
            AreCounted questions before self.old →
            AreCounted questions (before ++ one.now ∷ []) self.new }
    {
        if let Record::Decided { question, bit, .. } = *one {
            self.decide(question, bit);
        }
    }

    /// The question is decided for the bit, if it wasn't before.
    fn decide(&mut self, question: u16, bit: bool)
        ensures { self.new ≡ tallied self.old question bit }
    {
        let at = usize::from(question);
        if at < self.verdicts.len() && self.verdicts[at].is_none() {
            self.verdicts[at] = Some(bit);
            self.decided = self.decided.saturating_add(1);
        }
    }

    /// The verdict of the question; none where there is no such question.
    pub(crate) fn verdict(&self, question: u16) -> Option<bool>
        ensures { result ≡ known_at self.now.verdicts question }
    {
        match self.verdicts.get(usize::from(question)) {
            Some(verdict) => *verdict,
            None => None,
        }
    }

    /// The decisions, in the order in which they were saved.
    pub(crate) fn decisions(&self) -> &[Decision]
        ensures { result.now ≡ self.now.order.items }
    {
        self.order.as_slice()
    }

    /// Returns how many questions have a verdict.
    pub(crate) fn decided(&self) -> u16
        ensures { result ≡ self.now.decided }
    {
        self.decided
    }
}

/// The records behind the first so many, if there are more.
fn behind(records: &[Record], count: usize) -> &[Record]
    ensures { result.now ≡ drop count records.now }
{
    if records.len() <= count {
        return &[];
    }
    &records[count..]
}
