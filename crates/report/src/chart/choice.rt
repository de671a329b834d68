//! The choice of events that a chart shows.

ghost use Rattle.std.specs.Prelude.{◌≡◌, ◌↔◌, ◌≤◌, ◌⊎◌, Some, IfOk, IfSome, IsSomeAnd, IsTrue};
ghost use Rattle.terms_prelude.specs.Terms.{Statement};
ghost use Rattle.report.specs.Charts.{member_of, IsFrameOf};
ghost use Rattle.report.specs.Choices.{sender_of, question_in, has_question, saves_on, brought, group_of, AreChosen};

use crate::chart::column::{Column, member_of};
use crate::chart::lie::statement_in;
use crate::chart::{Run, follow_all, new_columns, shortest};
use crate::trace::is_skipped;
use sim::{Event, Mark, Which};
use std::alloc::{AllocError, Global};
use terms::{Record, Size, Statement};

/// The events that a chart shows: those of a question, those of a member, and those from a number
/// on and up to one. Each part that is missing leaves all events.
#[derive(Clone, Copy, Debug, PartialEq, Eq)]
pub struct Choice {
    /// The question that an event is about: a proposal on it, a statement on it that arrives, alone
    /// or in a group, a lie that is no statement on another one, or an event because of which
    /// something on it was saved. A crash, a restart, a fuse and a reset belong to every question.
    pub question: Option<u16>,
    /// The member that an event is for or comes from.
    pub member: Option<u8>,
    /// The number of the first event, counted from 1.
    pub from: Option<u32>,
    /// The number of the last event.
    pub to: Option<u32>,
}

/// The member that an event comes from, if it comes from one.
fn sender_of(event: &Event) -> Option<u8>
    ensures { result ≡ sender_of event.now }
{
    match event {
        Event::Deliver { from, .. } | Event::DeliverAll { from, .. } | Event::Reset { from, .. } =>
            Some(*from),
        Event::LieBytes { liar, .. } => Some(*liar),
        Event::Propose { .. } | Event::Fuse { .. } | Event::Crash { .. } | Event::Restart { .. } =>
            None,
    }
}

/// The question that a record is about.
fn question_in(entry: &Record) -> u16
    ensures { result ≡ question_in entry.now }
{
    match entry {
        Record::Said(statement) => statement.place().question(),
        Record::Decided { question, .. } => *question,
    }
}

/// Returns `true` if something that was saved is about the question.
fn saves_on(question: u16, saved: &[Record]) -> bool
    ensures { result ≡ saves_on question saved.now }
{
    saved.iter().any(|entry| question_in(entry) == question)
}

/// Returns `true` if a statement of the question is among these.
fn has_question(question: u16, statements: &[Statement]) -> bool
    ensures { result ≡ has_question question statements.now }
{
    statements
        .iter()
        .any(|statement| statement.place().question() == question)
}

/// The statement that a delivery brings, if it brings one.
fn brought(columns: &[Column], from: u8, to: u8, which: Which) -> Option<Statement>
    ensures { result ≡ brought columns.now from to which }
{
    match (columns.get(usize::from(from)), columns.get(usize::from(to))) {
        (Some(sender), Some(receiver)) => receiver.takes(from, sender, which),
        _ => None,
    }
}

/// Returns `true` if a delivery brings a statement on the question.
fn brings(question: u16, columns: &[Column], from: u8, to: u8, which: Which) -> bool
    ensures { IsTrue result
        ↔ IsSomeAnd (brought columns.now from to which) (λ s. s.place.question ≡ question) }
{
    match brought(columns, from, to, which) {
        Some(statement) => statement.place().question() == question,
        None => false,
    }
}

/// Returns `true` if a group brings a statement on the question.
fn brings_together(question: u16, columns: &[Column], from: u8, to: u8, count: u16) -> bool
    ensures { result ≡ has_question question (group_of columns.now from to count) }
{
    match (columns.get(usize::from(from)), columns.get(usize::from(to))) {
        (Some(sender), Some(receiver)) => {
            has_question(question, receiver.group_from(from, sender, count))
        }
        _ => false,
    }
}

/// Returns `true` if a lie is a statement on the question, or none at all.
fn may_be_about(alloc: Global, question: u16, size: Size, bytes: &[u8]) -> Result<bool, AllocError>
    ensures { IfOk result
        (λ is. IsTrue is ↔ ((s : Statement) → IsFrameOf size bytes.now s →
        s.place.question ≡ question)) }
{
    size.recall();
    match statement_in(alloc, size, bytes)? {
        Some(statement) => Ok(statement.place().question() == question),
        None => Ok(true),
    }
}

/// Returns `true` if the number is at or above a bound, if there is one.
fn is_from(from: Option<u32>, number: usize) -> bool
    ensures { IsTrue result ↔ IfSome from (λ from. from ≤ number) }
{
    match from {
        None => true,
        Some(from) => from as usize <= number,
    }
}

/// Returns `true` if the number is at or below a bound, if there is one.
fn is_up_to(to: Option<u32>, number: usize) -> bool
    ensures { IsTrue result ↔ IfSome to (λ to. number ≤ to) }
{
    match to {
        None => true,
        Some(to) => number <= to as usize,
    }
}

/// Returns `true` if the event is for the member, or comes from it.
fn is_of(member: u8, event: &Event) -> bool
    ensures { IsTrue result
        ↔ ((member_of event.now ≡ member) ⊎ (sender_of event.now ≡ Some member)) }
{
    member_of(event) == member || sender_of(event) == Some(member)
}

impl Choice {
    ghost use Rattle.std.specs.Prelude.{◌≡◌, ◌↔◌, IsTrue, None};
    ghost use Rattle.report.specs.Choices.{IsWithin, IsOfMember};

    /// Returns the choice of all events.
    pub fn all() -> Choice
        ensures { result ≡ record { question = None; member = None; from = None; to = None } }
    {
        Choice {
            question: None,
            member: None,
            from: None,
            to: None,
        }
    }

    /// Returns `true` if the number of an event is within its bounds.
    fn has_number(&self, number: usize) -> bool
        ensures { IsTrue result ↔ IsWithin self.now number }
    {
        is_from(self.from, number) && is_up_to(self.to, number)
    }

    /// Returns `true` if the event is for its member, or comes from it.
    fn has_member(&self, event: &Event) -> bool
        ensures { IsTrue result ↔ IsOfMember self.now event.now }
    {
        match self.member {
            None => true,
            Some(member) => is_of(member, event),
        }
    }

    /// Returns `true` if the event may be chosen by its number and its members.
    fn may_have(&self, number: usize, event: &Event) -> bool
        ensures { IsTrue result ↔ (IsWithin self.now number × IsOfMember self.now event.now) }
    {
        self.has_number(number) && self.has_member(event)
    }
}

/// The members of a run, as far as it has come, and what is chosen of it.
#[derive(Drop)]
struct Chooser {
    alloc: Global,
    size: Size,
    choice: Choice,
    columns: Vec<Column>,
}

impl Chooser {
    ghost use Rattle.std.specs.Prelude.{◌≡◌, ◌⊎◌, ◌↔◌, IfOk, IfSome, IsTrue, length};
    ghost use Rattle.report.specs.Choices.{saves_on, IsAbout, IsOnQuestion, IsShownEvent, IsJudged};

    /// Returns `true` if the event is about the question.
    fn is_about(&self, question: u16, event: &Event) -> Result<bool, AllocError>
        ensures { IfOk result
            (λ is. IsTrue is ↔ IsAbout self.now.size self.now.columns.items question event.now) }
    {
        match event {
            Event::Propose { question: own, .. } => Ok(*own == question),
            Event::Deliver {
                from,
                to,
                which,
                ..
            } => Ok(brings(question, &self.columns, *from, *to, *which)),
            Event::DeliverAll {
                from,
                to,
                count,
                ..
            } => Ok(brings_together(question, &self.columns, *from, *to, *count)),
            Event::LieBytes { bytes, .. } => {
                may_be_about(self.alloc, question, self.size, bytes.as_slice())
            }
            Event::Fuse { .. }
            | Event::Crash { .. }
            | Event::Restart { .. }
            | Event::Reset { .. } => Ok(true),
        }
    }

    /// Returns `true` if the event is about the question, or something on it was saved.
    fn is_on(&self, question: u16, event: &Event, saved: &[Record]) -> Result<bool, AllocError>
        ensures { IfOk result
            (λ is. IsTrue is ↔ (IsAbout self.now.size self.now.columns.items question event.now
            ⊎ IsTrue (saves_on question saved.now))) }
    {
        Ok(self.is_about(question, event)? || saves_on(question, saved))
    }

    /// Returns `true` if the event is on the question that is chosen, if one is.
    fn has_question(&self, event: &Event, saved: &[Record]) -> Result<bool, AllocError>
        ensures { IfOk result (λ is. IsTrue is ↔
            IsOnQuestion self.now.choice self.now.size self.now.columns.items event.now saved.now) }
    {
        match self.choice.question {
            None => Ok(true),
            Some(question) => self.is_on(question, event, saved),
        }
    }

    /// Returns `true` if the event of that number is chosen.
    fn has(&self, number: usize, event: &Event, saved: &[Record]) -> Result<bool, AllocError>
        ensures { IfOk result
            (λ is. IsTrue is ↔ IsShownEvent self.now.choice self.now.size self.now.columns.items
            number event.now saved.now) }
    {
        if !self.choice.may_have(number, event) {
            return Ok(false);
        }
        self.has_question(event, saved)
    }

    /// Takes the event of that number: follows it unless it was skipped, and says whether it is
    /// chosen.
    fn take(
        &mut self,
        number: usize,
        event: &Event,
        mark: Mark,
        saved: &[Record],
    ) -> Result<bool, AllocError>
        ensures stays { (self.new.choice ≡ self.old.choice) × (self.new.size ≡ self.old.size) }
        ensures judges { IfOk result
            (IsJudged self.old.choice self.old.size number event.now mark saved.now
            self.old.columns.items self.new.columns.items) }
    {
        if is_skipped(&mark) {
            return Ok(false);
        }
        let is_chosen = self.has(number, event, saved)?;
        follow_all(&mut self.columns, event, mark, saved)?;
        Ok(is_chosen)
    }
}

/// Returns which of a run's events are chosen, as far as the shortest of its lists goes.
pub(crate) fn chosen_of(
    alloc: Global,
    run: &Run<'_>,
    choice: Choice,
) -> Result<Vec<bool>, AllocError>
    ensures { IfOk result (λ chosen. AreChosen choice run.now.size run.now.liars.now
        run.now.events.now run.now.marks.now run.now.saved.now chosen.items) }
{
    let mut chooser = Chooser {
        alloc,
        size: run.size,
        choice,
        columns: new_columns(alloc, run.size.n(), run.liars)?,
    };
    let mut chosen = Vec::new(alloc);
    for (index, event) in run.events[..shortest(run)].iter().enumerate() {
        chosen.push(chooser.take(index + 1, event, run.marks[index], &run.saved[index])?)?;
    }
    Ok(chosen)
}
