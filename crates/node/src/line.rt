//! The line in front of the book: what several links hand in while a batch is on its way to the
//! disk is heard as one group, one statement after the other, and saved as one batch. Begin at
//! `Line`, at `hear`, whose `HeardGroup` ties an outcome to its group, and at `Group`.
ghost use Rattle.std.specs.Prelude.{◌≡◌, ◌<◌, ◌≤◌, length, [], IfErr, IfNone, IfOk, IfSome, IsTrue, List, OnErr, Result};
ghost use Rattle.member.specs.Groups.{hearings, replies_of};
ghost use Rattle.member.specs.declared.fault.MemberFault.{MemberFault};
ghost use Rattle.node.specs.Groups.{heard_from, lengthened_all};
ghost use Rattle.node.specs.Lines.{ComesOf, HasCome, OutcomeView, are_of, is_of};

use crate::account::Witness;
use crate::book::{Book, Naming, add_if_taken};
use crate::entry::Entry;
use crate::history::History;
use crate::marks::Firsts;
use crate::settle::is_same;
use disk::Disk;
use member::MemberFault;
use questions::Answer;
use rounds::Toss;
use std::alloc::Global;
use std::marker::{Model, PhantomData};
use std::mem::replace;
use terms::{Memory, Statement};

/// The most statements that a member hears as one group.
const GROUP: usize = 256;

/// The most groups in a row for which the bell isn't rung.
const QUIET: u32 = 7;

/// The most statements that most reads of a link give: a read is of 512 bytes, and each statement
/// takes seven of them. A read that ends a frame whose front came before may give up to 171.
const READ: usize = 73;

/// The outcome of statements that wait for the book: it heard them, and this is its account then;
/// or it refused them, or there was no memory to hand them in.
pub(crate) type Outcome<J> = Result<Witness<J>, MemberFault>;

/// A group and what came of it.
#[derive(Drop)]
pub(crate) struct HeardGroup<D, J: Naming> {
    group: Group,
    outcome: Outcome<J>,
    of: PhantomData<D>,
}

impl<D, J: Naming> Model for HeardGroup<D, J> {
    ghost use Rattle.member.specs.Groups.{hearings};
    ghost use Rattle.node.specs.Lines.{HasCome};

    ghost Value = { Unit {0} };

    ghost view = { λ _. tt };

    ghost invariant = { λ heard. HasCome D (hearings heard.group) heard.outcome };
}

/// A place for each link. Who serves the line takes what waits, has the book hear it as one group,
/// and leaves the answers.
#[derive(Drop)]
pub(crate) struct Line<D, J: Naming> {
    slots: Vec<Slot<D, J>>,
    /// The place with which the next group begins, so that each link has its turn.
    first: usize,
    /// The number of groups in a row for which the bell isn't rung.
    quiet: u32,
    /// Set if a link serves the line at this moment.
    pub(crate) is_busy: bool,
}

impl<D, J: Naming> Line<D, J> {
    /// A line of so many links, in which nothing waits.
    pub(crate) fn new(alloc: Global, links: u8) -> Result<Line<D, J>, Memory> {
        let mut slots = Vec::new(alloc);
        for _ in 0..links {
            slots.push(Slot::Free)?;
        }
        Ok(Line {
            slots,
            first: 0,
            quiet: 0,
            is_busy: false,
        })
    }

    /// Puts what this link hands in into its place, where it waits. A link waits for one answer at
    /// a time, and each member has a place.
    pub(crate) fn enter(&mut self, link: u8, events: Vec<(u8, Statement, Toss)>) {
        if let Some(slot) = self.slots.get_mut(usize::from(link)) {
            *slot = Slot::Waits(events);
        }
    }

    /// Returns what came of these statements of the link, if they were answered; its place is free
    /// then.
    pub(crate) fn take_answer(
        &mut self,
        link: u8,
        events: &[(Statement, Toss)],
    ) -> Option<Outcome<J>>
        ensures { IfSome result (λ outcome. HasCome D (heard_from link events.now) outcome) }
    {
        let slot = self.slots.get_mut(usize::from(link))?;
        let outcome = slot.outcome_of(link, events)?;
        *slot = Slot::Free;
        Some(outcome)
    }

    /// Returns `true` if what waits may be all that a group takes: what one more read gives might
    /// have no room in it.
    pub(crate) fn is_full(&self) -> bool {
        let mut waiting = 0usize;
        for slot in &self.slots {
            waiting = waiting.saturating_add(slot.count());
        }
        waiting > GROUP - READ
    }

    /// Takes what waits as one group, link by link: as much of it as the group has room and memory
    /// for.
    pub(crate) fn drain(&mut self, alloc: Global) -> Group {
        let mut group = Group::new(alloc);
        let links = self.slots.len();
        let first = self.first;
        for step in 0..links {
            let at = first.wrapping_add(step) % links;
            if self.move_to(&mut group, at) {
                self.first = at + 1;
            }
        }
        group
    }

    /// Moves what waits at a place into a group, if it has room; says whether it did.
    fn move_to(&mut self, group: &mut Group, at: usize) -> bool {
        let Some(slot) = self.slots.get_mut(at) else {
            return false;
        };
        match replace(slot, Slot::Away) {
            Slot::Waits(events) => match group.add(at, events) {
                Ok(()) => true,
                Err(events) => {
                    *slot = Slot::Waits(events);
                    false
                }
            },
            other => {
                *slot = other;
                false
            }
        }
    }

    /// Returns `true` if the bell is to ring for the group that was taken last: not while more
    /// waits than that had room for, which is the next group, but at most 7 times in a row. So
    /// writers are woken less often where there is much to say, and each of them has more to send.
    pub(crate) fn is_to_ring(&mut self) -> bool {
        let rings = !self.has_waiting() || self.quiet >= QUIET;
        self.quiet = if rings {
            0
        } else {
            self.quiet.saturating_add(1)
        };
        rings
    }

    /// Returns `true` if something waits.
    pub(crate) fn has_waiting(&self) -> bool {
        self.slots.iter().any(|slot| slot.waits())
    }

    /// Puts the answers of a group that was heard into the links' places. What waits for want of
    /// memory, so that it is in no group, is refused.
    pub(crate) fn answer(&mut self, heard: HeardGroup<D, J>) {
        let HeardGroup {
            group,
            outcome,
            of: _,
        } = heard;
        let Group { events: _, parts } = group;
        if parts.is_empty() {
            self.refuse();
        }
        for part in parts {
            let Part { at, events } = part;
            if let Some(slot) = self.slots.get_mut(at) {
                *slot = Slot::Answered(Answered {
                    events,
                    outcome: again(&outcome),
                    of: PhantomData,
                });
            }
        }
    }

    /// Refuses what waits for want of memory.
    fn refuse(&mut self) {
        for slot in self.slots.iter_mut() {
            slot.refuse();
        }
    }

    /// Returns whom to wake behind a group, a bit for each link, the lowest of them that of link 0:
    /// those that were answered, and the first that waits, which serves the line next.
    pub(crate) fn to_wake(&self) -> u64 {
        let mut links = 0;
        let mut bit = 1u64;
        let mut has_next = false;
        for slot in &self.slots {
            let is_next = slot.waits() && !has_next;
            if slot.is_answered() || is_next {
                links |= bit;
            }
            has_next = has_next || is_next;
            bit <<= 1;
        }
        links
    }
}

/// The place of a link in the line.
#[derive(Drop)]
enum Slot<D, J: Naming> {
    /// The link hands nothing in.
    Free,
    /// This waits for the book.
    Waits(Vec<(u8, Statement, Toss)>),
    /// The statements that waited are on their way through the book.
    Away,
    /// The book has answered.
    Answered(Answered<D, J>),
}

impl<D, J: Naming> Slot<D, J> {
    /// Returns `true` if something waits there.
    fn waits(&self) -> bool {
        matches!(self, Slot::Waits(_))
    }

    /// Returns how many statements wait there.
    fn count(&self) -> usize {
        match self {
            Slot::Waits(events) => events.len(),
            _ => 0,
        }
    }

    /// Returns `true` if the book has answered.
    fn is_answered(&self) -> bool {
        matches!(self, Slot::Answered(_))
    }

    /// Returns what came of these statements of the peer, if they were answered.
    fn outcome_of(&self, peer: u8, events: &[(Statement, Toss)]) -> Option<Outcome<J>>
        ensures { IfSome result (λ outcome. HasCome D (heard_from peer events.now) outcome) }
    {
        match self {
            Slot::Answered(answered) => answered.outcome_of(peer, events),
            _ => None,
        }
    }

    /// Refuses what waits there for want of memory.
    fn refuse(&mut self) {
        match replace(self, Slot::Away) {
            Slot::Waits(events) => {
                *self = Slot::Answered(Answered {
                    events,
                    outcome: Err(MemberFault::Memory),
                    of: PhantomData,
                });
            }
            other => *self = other,
        }
    }
}

/// The statements that a link handed in, and what came of them.
#[derive(Drop)]
struct Answered<D, J: Naming> {
    events: Vec<(u8, Statement, Toss)>,
    outcome: Outcome<J>,
    of: PhantomData<D>,
}

impl<D, J: Naming> Model for Answered<D, J> {
    ghost use Rattle.member.specs.Groups.{hearings};
    ghost use Rattle.node.specs.Lines.{HasCome};

    ghost Value = { Unit {0} };

    ghost view = { λ _. tt };

    ghost invariant = { λ answered. HasCome D (hearings answered.events.items) answered.outcome };
}

impl<D, J: Naming> Answered<D, J> {
    /// Returns what came of these statements of the peer. It is always these that were answered:
    /// they are compared so that the contract can say so.
    fn outcome_of(&self, peer: u8, events: &[(Statement, Toss)]) -> Option<Outcome<J>>
        ensures { IfSome result (λ outcome. HasCome D (heard_from peer events.now) outcome) }
    {
        if are_of(&self.events, peer, events) {
            Some(again(&self.outcome))
        } else {
            None
        }
    }
}

/// Returns `true` if these are the statements, each with its toss, as they are heard from the peer.
fn are_of(heard: &[(u8, Statement, Toss)], peer: u8, events: &[(Statement, Toss)]) -> bool
    ensures { result ≡ are_of heard.now peer events.now }
{
    let mut rest = events;
    for one in heard {
        match rest {
            [first, more @ ..] if is_of(one, peer, first) => rest = more,
            _ => return false,
        }
    }
    rest.is_empty()
}

/// Returns `true` if this is the statement with its toss, as it is heard from the peer.
fn is_of(heard: &(u8, Statement, Toss), peer: u8, event: &(Statement, Toss)) -> bool
    ensures { result ≡ is_of heard.now peer event.now }
{
    heard.0 == peer && is_same(&heard.1, &event.0) && heard.2.0 == event.1.0
}

/// The same for one more.
fn again<J: Naming>(outcome: &Outcome<J>) -> Outcome<J>
    ensures { result ≡ outcome.now }
{
    match outcome {
        Ok(after) => Ok(after.again()),
        Err(fault) => Err(*fault),
    }
}

/// Has the book hear a group, and does nothing else to it.
pub(crate) fn hear<D: Disk, J: Naming>(book: &mut Book<D, J>, group: Group) -> HeardGroup<D, J>
    ensures { (outcome : OutcomeView)
        × ComesOf book.old (hearings group) outcome book.new }
{
    match book.hear_all(&group.events) {
        Ok(_) => HeardGroup {
            group,
            outcome: Ok(book.witness()),
            of: PhantomData,
        },
        Err(fault) => HeardGroup {
            group,
            outcome: Err(fault),
            of: PhantomData,
        },
    }
}

/// The statements of one link in a group, and the place in the line where their answer belongs.
#[derive(Drop)]
struct Part {
    at: usize,
    events: Vec<(u8, Statement, Toss)>,
}

/// A group: what several links handed in, one after the other: at most 256 statements, each with
/// its sender and its toss. Contracts see all of them, and that each part is one.
#[derive(Drop)]
pub(crate) struct Group {
    events: Vec<(u8, Statement, Toss)>,
    parts: Vec<Part>,
}

impl Model for Group {
    ghost use Rattle.std.specs.Prelude.{ℕ, ◌≤◌, List, length};
    ghost use Rattle.terms_prelude.specs.Terms.{Statement};
    ghost use Rattle.rounds.specs.declared.tosses.Toss.{Toss};
    ghost use Rattle.node.specs.Parts.{AreParts};

    ghost Value = { List (ℕ × Statement × Toss) };

    ghost view = { λ group. group.events.items };

    ghost invariant = { λ group. (length group.events.items ≤ 256)
        × AreParts group.parts.items group.events.items };
}

impl Group {
    /// A group of nobody. It takes no memory.
    pub(crate) fn new(alloc: Global) -> Group
        ensures { result ≡ [] }
    {
        Group {
            events: Vec::new(alloc),
            parts: Vec::new(alloc),
        }
    }

    /// Adds what a link handed in behind what it has. Where there is no room or no memory it comes
    /// back, and the group stays.
    pub(crate) fn add(
        &mut self,
        at: usize,
        events: Vec<(u8, Statement, Toss)>,
    ) -> Result<(), Vec<(u8, Statement, Toss)>>
        ensures back { IfErr result (λ back. back ≡ events) }
        ensures same { IfErr result (λ _. self.new ≡ self.old) }
    {
        if events.len() > GROUP - self.events.len() || self.parts.reserve(1).is_err() {
            return Err(events);
        }
        if self.events.extend_from_slice(&events).is_err() {
            return Err(events);
        }
        self.parts.push_reserved(Part { at, events });
        Ok(())
    }
}

/// The statements as they are heard from the peer, once there is room for a first more for each;
/// none where there is no memory. The firsts stay.
pub(crate) fn group_with_room(
    alloc: Global,
    peer: u8,
    events: &[(Statement, Toss)],
    firsts: &mut Firsts,
) -> Option<Vec<(u8, Statement, Toss)>>
    ensures firsts { firsts.new.said ≡ firsts.old.said }
    ensures group { IfSome result (λ group. hearings group.items ≡ heard_from peer events.now) }
    ensures seats { IfSome result (λ _. length events.now ≤ firsts.new.room) }
    ensures some { IfNone result (0 < length events.now) }
{
    if !firsts.make_room(events.len()) {
        return None;
    }
    heard_from(alloc, peer, events).ok()
}

/// The statements as they are heard from the peer.
pub(crate) fn heard_from(
    alloc: Global,
    peer: u8,
    events: &[(Statement, Toss)],
) -> Result<Vec<(u8, Statement, Toss)>, Memory>
    ensures ok { IfOk result (λ group. hearings group.items ≡ heard_from peer events.now) }
    ensures some { OnErr result (0 < length events.now) }
{
    let mut group = Vec::new(alloc);
    for (statement, toss) in events {
        group.push((peer, *statement, *toss))?;
    }
    Ok(group)
}

/// Adds an entry for each statement that its answer takes, in order.
pub(crate) fn add_all_taken(
    history: &mut History,
    group: &[(u8, Statement, Toss)],
    answers: &[Answer],
)
    requires { length group.now ≤ history.old.room }
    ensures { history.new.entries
        ≡ lengthened_all history.old.entries (hearings group.now) (replies_of answers.now) }
{
    for ((from, statement, toss), answer) in group.iter().zip(answers) {
        add_if_taken(
            history,
            Entry::Heard {
                from: *from,
                statement: *statement,
                toss: *toss,
            },
            answer,
        );
    }
}
