//! A member of a chart, as far as the chart has come.

ghost use Rattle.std.specs.Prelude.{◌≡◌, ◌+◌, ◌-◌, ◌^◌, ◌<◌, ◌++◌, OnOk, length, take, drop};
ghost use Rattle.report.specs.Charts.{member_of, place_after, group_count, statements_said, delivered, AreMoved};

use sim::{Event, MOST_IN_GROUP, Mark, Which};
use std::alloc::{AllocError, Global};
use terms::{Record, Statement};

/// The member that an event is for.
pub(crate) fn member_of(event: &Event) -> u8
    ensures { result ≡ member_of event.now }
{
    match event {
        Event::Propose { member, .. }
        | Event::Fuse { member, .. }
        | Event::Crash { member, .. }
        | Event::Restart { member } => *member,
        Event::Deliver { to, .. }
        | Event::DeliverAll { to, .. }
        | Event::LieBytes { to, .. }
        | Event::Reset { to, .. } => *to,
    }
}

/// Returns how many statements come as one group of at most so many, of all that their sender has
/// said, over a link at that place.
fn group_count(said: usize, place: usize, count: u16) -> usize
    ensures { result ≡ group_count said place count }
{
    usize::from(count.min(MOST_IN_GROUP)).min(said.saturating_sub(place))
}

/// Returns the place of the link from a sender to the event's member after the event. A group's
/// sender had said so many statements.
fn place_after(said: usize, event: &Event, mark: Mark, sender: usize, place: usize) -> usize
    ensures { place + 1 < 2 ^ 64 → result ≡ place_after said event.now mark sender place }
{
    if matches!(mark, Mark::Skipped(_)) {
        return place;
    }
    match event {
        Event::Deliver {
            from,
            which: Which::Next,
            ..
        } if usize::from(*from) == sender => place.saturating_add(1),
        Event::DeliverAll { from, count, .. } if usize::from(*from) == sender => {
            place.saturating_add(group_count(said, place, *count))
        }
        Event::Reset { from, .. } if usize::from(*from) == sender => 0,
        Event::Restart { .. } if mark == Mark::Done => 0,
        _ => place,
    }
}

/// Moves the links from all senders to the event's member. A group's sender had said so many
/// statements.
fn move_links(said: usize, event: &Event, mark: Mark, places: &mut [usize])
    ensures { AreMoved said event.now mark places.old places.new }
{
    for (sender, place) in places.iter_mut().enumerate() {
        *place = place_after(said, event, mark, sender, *place);
    }
}

/// Adds the statements among the records.
fn add_statements(said: &mut Vec<Statement>, saved: &[Record]) -> Result<(), AllocError>
    ensures { OnOk result (said.new.items ≡ said.old.items ++ statements_said saved.now) }
{
    for record in saved {
        if let Record::Said(statement) = *record {
            said.push(statement)?;
        }
    }
    Ok(())
}

/// The statements of a group of at most so many, of all that their sender has said, over a link at
/// that place.
fn group_at(said: &[Statement], place: usize, count: u16) -> &[Statement]
    ensures { result.now ≡ take (group_count (length said.now) place count) (drop place said.now) }
{
    if place >= said.len() {
        return &said[..0];
    }
    &said[place..place + group_count(said.len(), place, count)]
}

/// Returns which statement a delivery is of, over a link that is at that place.
fn delivered(said: &[Statement], place: usize, which: Which) -> Option<Statement>
    ensures { result ≡ delivered said.now place which }
{
    match which {
        Which::Next => said.get(place).copied(),
        Which::At(number) => said.get(number as usize).copied(),
    }
}

/// A member, and what is known of it.
#[derive(Drop)]
pub(crate) struct Column {
    is_liar: bool,
    said: Vec<Statement>,
    places: Vec<usize>,
}

impl Column {
    ghost use Rattle.std.specs.Prelude.{ℕ, ◌≡◌, IfOk, OnOk, Some, length, slice_get};
    ghost use Rattle.report.specs.Charts.{group_count};
    ghost use Rattle.report.specs.Choices.{brought_over, group_over};
    ghost use Rattle.report.specs.Columns.{IsNew, Follows};

    /// A member of a cluster of n before the first event.
    pub(crate) fn new(alloc: Global, n: u8, is_liar: bool) -> Result<Column, AllocError>
        ensures { IfOk result (IsNew n is_liar) }
    {
        let mut places = Vec::new(alloc);
        places.resize(usize::from(n), 0)?;
        Ok(Column {
            is_liar,
            said: Vec::new(alloc),
            places,
        })
    }

    /// Returns the place of the link from that sender, if there is one.
    fn place_from(&self, from: u8) -> Option<usize>
        ensures { result ≡ slice_get self.now.places.items from }
    {
        self.places.get(usize::from(from)).copied()
    }

    /// Returns which statement of a sender's column is delivered here.
    pub(crate) fn takes(&self, from: u8, sender: &Column, which: Which) -> Option<Statement>
        ensures { result
            ≡ brought_over sender.now.said.items (slice_get self.now.places.items from) which }
    {
        match self.place_from(from) {
            None => None,
            Some(place) => delivered(&sender.said, place, which),
        }
    }

    /// The statements of a sender's column that come here as one group of at most so many.
    pub(crate) fn group_from<'a>(&self, from: u8, sender: &'a Column, count: u16) -> &'a [Statement]
        ensures { result.now
            ≡ group_over sender.now.said.items (slice_get self.now.places.items from) count }
    {
        match self.place_from(from) {
            None => &sender.said[..0],
            Some(place) => group_at(&sender.said, place, count),
        }
    }

    /// Returns how many statements of a sender's column come here as one group of at most so many.
    pub(crate) fn takes_together(&self, from: u8, sender: &Column, count: u16) -> usize
        ensures { (place : ℕ) → slice_get self.now.places.items from ≡ Some place →
            result ≡ group_count (length sender.now.said.items) place count }
    {
        match self.places.get(usize::from(from)) {
            Some(place) => group_count(sender.said_count(), *place, count),
            None => 0,
        }
    }

    /// Returns how many statements it has said.
    pub(crate) fn said_count(&self) -> usize
        ensures { result ≡ length self.now.said.items }
    {
        self.said.len()
    }

    /// Returns `true` if it lies.
    pub(crate) fn is_liar(&self) -> bool
        ensures { result ≡ self.now.is_liar }
    {
        self.is_liar
    }

    /// Follows an event that is for it. A group's sender had said so many statements.
    pub(crate) fn follow(
        &mut self,
        said: usize,
        event: &Event,
        mark: Mark,
        saved: &[Record],
    ) -> Result<(), AllocError>
        ensures { OnOk result (Follows said event.now mark saved.now self.old self.new) }
    {
        move_links(said, event, mark, &mut self.places);
        add_statements(&mut self.said, saved)
    }
}
