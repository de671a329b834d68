//! The events of a fair network: each link has its delivery in each pass of a shuffled deck, liars
//! lie, and members fail and come back.

ghost use Rattle.std.specs.Prelude.{◌≡◌, ◌<◌, ◌++◌, length, option_map, IfOk, OnOk};
ghost use Rattle.script.specs.Acts.{act_of};
ghost use Rattle.script.specs.Fair as fair;
ghost use Rattle.script.specs.Making.{cast_of};

use crate::correct_members;
use crate::draw::{Draw, UNDRAWN};
use disk::Pick;
use sim::{Event, MOST_IN_GROUP, Which};
use std::alloc::{AllocError, Global};
use std::marker::Model;
use terms::{Memory, Size};

/// The number of kinds of events, by member: with many members, each of them fails as seldom,
/// measured in passes of the deck.
const KINDS: u32 = 16;

/// The bound of a deal's word: below [`MOST_IN_GROUP`] it is a group, else a single delivery.
const DEALS: u32 = 288;

/// The most events of a trouble behind its first.
const SPAN: u64 = 100;

/// The bound of the events between a trouble's first and its crash, and of those between that and
/// the restart.
const PAUSES: u32 = 50;

/// A link between correct members.
#[derive(Clone, Copy, Debug, PartialEq, Eq)]
pub struct Link {
    /// The sender.
    pub from: u8,
    /// The receiver.
    pub to: u8,
}

/// The crash and the restart that a failing member still gets.
#[derive(Clone, Copy, Debug, PartialEq, Eq)]
pub struct Trouble {
    /// The member.
    pub member: u8,
    /// The state in which its crash leaves the disk.
    pub pick: Pick,
    /// The number of events of the line that are left at its crash, the crash among them.
    pub crash: u64,
    /// The number that is left at its restart.
    pub restart: u64,
}

/// The sorts of drawn events.
#[derive(Clone, Copy, Debug, PartialEq, Eq)]
pub enum Sort {
    /// A fuse, with a crash and a restart that are owed.
    Trouble,
    /// A statement of a liar.
    Lie,
    /// A proposal.
    Proposal,
    /// A delivery on the next link of the deck.
    Delivery,
}

/// All members of a cluster, by side.
#[derive(Drop)]
pub struct Members<'a> {
    size: Size,
    liars: Vec<u8>,
    correct: &'a [u8],
}

impl<'a> Model for Members<'a> {
    ghost Value = { fair.Cast };

    ghost view = { λ m. record { size = m.size; liars = m.liars.items; correct = m.correct.now } };
}

impl<'a> Members<'a> {
    /// All members of a cluster of this size, of which these are correct.
    pub fn of(alloc: Global, size: Size, correct: &'a [u8]) -> Result<Members<'a>, AllocError>
        ensures { IfOk result (λ members. members ≡ cast_of size correct.now) }
    {
        let liars = correct_members(alloc, size.n(), correct)?;
        Ok(Members {
            size,
            liars,
            correct,
        })
    }

    /// A statement of a liar to a correct member.
    fn lie(&self, alloc: Global, draw: &mut Draw) -> Result<Event, Memory>
        requires liars { 0 < length self.now.liars }
        requires correct { 0 < length self.now.correct }
        ensures { IfOk result (λ event. (act_of event, draw.new) ≡ fair.lie self.now draw.old) }
    {
        let liar = one_of(draw, &self.liars);
        let to = one_of(draw, self.correct);
        draw.lie_of(alloc, self.size, liar, to)
    }

    /// A proposal to a correct member.
    fn proposal(&self, draw: &mut Draw) -> Event
        requires { 0 < length self.now.correct }
        ensures { (act_of result, draw.new) ≡ fair.proposal self.now draw.old }
    {
        let member = one_of(draw, self.correct);
        draw.propose_to(self.size, member)
    }
}

/// The state of a fair network between two events: the links that are left in its deck, and what is
/// owed.
#[derive(Drop)]
pub struct Fair {
    deck: Vec<Link>,
    owed: Option<Trouble>,
}

impl Model for Fair {
    ghost Value = { fair.Network };

    ghost view = { λ f. record { deck = f.deck.items; owed = f.owed } };
}

impl Fair {
    /// Before the first event.
    pub fn new(alloc: Global) -> Fair
        ensures { result ≡ fair.fresh }
    {
        Fair {
            deck: Vec::new(alloc),
            owed: None,
        }
    }

    /// The event that comes where so many of the line are left, this one among them.
    #[tactic(auto, unfolding(crate::specs::Fair::event))]
    pub fn event(
        &mut self,
        alloc: Global,
        draw: &mut Draw,
        members: &Members,
        left: u64,
    ) -> Result<Event, Memory>
        ensures { IfOk result
            (λ event. ((act_of event, self.new), draw.new)
            ≡ fair.event members.now left self.old draw.old) }
    {
        if !has_some(members.correct) {
            return Ok(Event::Restart { member: 0 });
        }
        match due(left, self.owed) {
            Some(event) => {
                self.owed = still_owed(left, self.owed);
                Ok(event)
            }
            None => self.drawn_event(alloc, draw, members, left),
        }
    }

    /// A drawn event.
    fn drawn_event(
        &mut self,
        alloc: Global,
        draw: &mut Draw,
        members: &Members,
        left: u64,
    ) -> Result<Event, Memory>
        requires { 0 < length members.now.correct }
        ensures { IfOk result
            (λ event. ((act_of event, self.new), draw.new)
            ≡ fair.drawn_event members.now left self.old draw.old) }
    {
        let n = members.size.n();
        let kind = draw.below(KINDS * u32::from(n));
        let quiet = is_quiet(left, self.owed);
        match sort_of(n, kind, quiet, has_some(&members.liars)) {
            Sort::Trouble => Ok(self.trouble(draw, members.correct, left)),
            Sort::Lie => members.lie(alloc, draw),
            Sort::Proposal => Ok(members.proposal(draw)),
            Sort::Delivery => Ok(self.delivery(draw, members.correct)?),
        }
    }

    /// Trouble at a correct member, where so many events of the line are left.
    fn trouble(&mut self, draw: &mut Draw, correct: &[u8], left: u64) -> Event
        requires room { SPAN < left }
        requires correct { 0 < length correct.now }
        ensures { ((act_of result, self.new), draw.new)
            ≡ fair.trouble correct.now left self.old draw.old }
    {
        let member = one_of(draw, correct);
        let calls = draw.calls();
        let pick = draw.pick();
        let crash = left - (u64::from(draw.below(PAUSES)) + 1);
        let restart = crash - (u64::from(draw.below(PAUSES)) + 1);
        self.owed = Some(Trouble {
            member,
            pick,
            crash,
            restart,
        });
        Event::Fuse { member, calls }
    }

    /// A delivery on the next link of the deck.
    #[tactic(auto, using(crate::proofs::Decks::filled_has))]
    fn delivery(&mut self, draw: &mut Draw, correct: &[u8]) -> Result<Event, AllocError>
        requires { 0 < length correct.now }
        ensures { IfOk result
            (λ event. ((act_of event, self.new), draw.new)
            ≡ fair.delivery correct.now self.old draw.old) }
    {
        fill(&mut self.deck, correct)?;
        let link = deal(&mut self.deck, draw);
        Ok(on_link(draw, link))
    }
}

/// True if there is a member.
fn has_some(members: &[u8]) -> bool
    ensures { result ≡ fair.has_some members.now }
{
    !members.is_empty()
}

/// The event that is owed now, where so many of the line are left.
fn due(left: u64, owed: Option<Trouble>) -> Option<Event>
    ensures { option_map act_of result ≡ fair.due left owed }
{
    let Some(trouble) = owed else {
        return None;
    };
    let member = trouble.member;
    let pick = trouble.pick;
    if left == trouble.crash {
        return Some(Event::Crash { member, pick });
    }
    if left == trouble.restart {
        return Some(Event::Restart { member });
    }
    None
}

/// The trouble that is still owed behind it.
fn still_owed(left: u64, owed: Option<Trouble>) -> Option<Trouble>
    ensures { result ≡ fair.still_owed left owed }
{
    let Some(trouble) = owed else {
        return None;
    };
    if left == trouble.restart {
        return None;
    }
    Some(trouble)
}

/// True if trouble may begin.
fn is_quiet(left: u64, owed: Option<Trouble>) -> bool
    ensures { result ≡ fair.is_quiet left owed }
{
    match owed {
        None => SPAN < left,
        Some(_) => false,
    }
}

/// The sort of an event of this kind, among so many members.
fn sort_of(n: u8, kind: u32, quiet: bool, lying: bool) -> Sort
    ensures { result ≡ fair.sort_of n kind quiet lying }
{
    if kind == 0 {
        return if quiet { Sort::Trouble } else { Sort::Delivery };
    }
    if kind == 1 {
        return Sort::Proposal;
    }
    if lying && kind <= u32::from(n) {
        return Sort::Lie;
    }
    Sort::Delivery
}

/// One of these members.
#[tactic(auto, unfolding(crate::specs::Fair::one_of))]
fn one_of(draw: &mut Draw, members: &[u8]) -> u8
    requires { 0 < length members.now }
    ensures { (result, draw.new) ≡ fair.one_of members.now draw.old }
{
    members[draw.place(members.len())]
}

/// Fills the deck, where it is empty.
#[tactic(auto, using(crate::proofs::Decks::filled_empty, crate::proofs::Decks::filled_some))]
fn fill(deck: &mut Vec<Link>, members: &[u8]) -> Result<(), AllocError>
    ensures { OnOk result (deck.new.items ≡ fair.filled members.now deck.old.items) }
{
    if deck.is_empty() {
        return add_links(deck, members);
    }
    Ok(())
}

/// Adds all links between these members, by sender and then by receiver.
fn add_links(deck: &mut Vec<Link>, members: &[u8]) -> Result<(), AllocError>
    ensures { OnOk result (deck.new.items ≡ deck.old.items ++ fair.links members.now) }
{
    for from in members {
        add_links_from(deck, *from, members)?;
    }
    Ok(())
}

/// Adds the links from this member to each of these.
fn add_links_from(deck: &mut Vec<Link>, from: u8, members: &[u8]) -> Result<(), AllocError>
    ensures { OnOk result (deck.new.items ≡ deck.old.items ++ fair.links_from from members.now) }
{
    for to in members {
        deck.push(Link { from, to: *to })?;
    }
    Ok(())
}

/// Takes a link out of the deck.
#[tactic(auto, unfolding(crate::specs::Fair::deal))]
fn deal(deck: &mut Vec<Link>, draw: &mut Draw) -> Link
    requires { 0 < length deck.old.items }
    ensures { ((result, deck.new.items), draw.new) ≡ fair.deal deck.old.items draw.old }
{
    let place = draw.place(deck.len());
    deck.remove(place)
}

/// A delivery on the link: a group or a single one.
fn on_link(draw: &mut Draw, link: Link) -> Event
    ensures { (act_of result, draw.new) ≡ fair.on_link link draw.old }
{
    let Link { from, to } = link;
    let more = draw.below(DEALS);
    if more < u32::from(MOST_IN_GROUP) {
        return Event::DeliverAll {
            from,
            to,
            count: more as u16 + 1,
            toss: UNDRAWN,
        };
    }
    let which = Which::Next;
    Event::Deliver {
        from,
        to,
        which,
        toss: UNDRAWN,
    }
}
