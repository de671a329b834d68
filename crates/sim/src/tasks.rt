//! The task of one member at an event, once nothing keeps it from happening.

ghost use Rattle.std.specs.Prelude.{◌≡◌, ◌<◌, ◌≤◌, ℕ, Bool, List, Ok, IfOk, IfErr, length};
ghost use Rattle.sim.specs.Scene.{Scene, plan_of, lie_plan, delivery_of, to_group, for_correct, for_running, for_link, bytes_in};
ghost use Rattle.sim.specs.Posts.{IsCluster, AreReady, IsReady, HasSender, CanBeDone, IsGroupFor};
ghost use Rattle.sim.specs.Presences.{saved_in, group_from};
ghost use Rattle.sim.specs.declared.faults.SimFault.TheVariants as faults;
ghost use Rattle.sim.specs.declared.events.Event.TheVariants as events;
ghost use Rattle.sim.specs.declared.tasks.Instruction.TheVariants as tasks;

use crate::posts::{Delivery, Post};
use crate::{Event, Reason, SimFault, Which};
use disk::Pick;
use rounds::Toss;
use std::alloc::Global;
use terms::{Size, Statement};

/// A task of one member of the cluster.
#[derive(Clone, Copy)]
pub(crate) enum Instruction {
    /// To take a proposal.
    Propose(u16, bool, Toss),
    /// To hear this statement of that sender; the link's place is then this one.
    Deliver(u8, Statement, u64, Toss),
    /// To hear that sender's next statements as one group, at most so many.
    DeliverAll(u8, u16, Toss),
    /// To read bytes of that liar.
    Lie(u8, Toss),
    /// To set the fuse of its disk.
    Fuse(Option<u64>),
    /// To go down.
    Crash(Pick),
    /// To be opened again.
    Restart,
    /// To begin the link from that sender anew.
    Reset(u8),
}

/// The way of a statement: its sender, the member that it comes to, and the toss there.
#[derive(Clone, Copy)]
pub(crate) struct Way {
    pub(crate) from: u8,
    pub(crate) to: u8,
    pub(crate) toss: Toss,
}

/// The statements that a task brings, which are those of a group.
#[inline(always)]
pub(crate) fn brought(
    alloc: Global,
    size: Size,
    posts: &[Post],
    to: u8,
    task: &Instruction,
) -> Result<Delivery, SimFault>
    requires ready { AreReady size posts.now }
    requires within { (to < size.n) × HasSender size.n task.now }
    ensures brings { (liars : ℕ → Bool) (c : Scene) → IsCluster size liars c posts.now →
        CanBeDone size liars c to task.now → IfOk result (IsGroupFor c to task.now) }
    ensures few { IfOk result (λ group. length group.statements.items ≤ 256) }
    ensures only { IfErr result (λ fault. fault ≡ faults.Memory) }
{
    match *task {
        Instruction::DeliverAll(from, count, _) => {
            let place = posts[usize::from(to)].place(from);
            posts[usize::from(from)].group(alloc, place, count)
        }
        _ => Ok(Delivery {
            statements: Vec::new(alloc),
            place: 0,
        }),
    }
}

/// The member that an event is for and its task, or the first reason to skip the event.
#[inline(always)]
pub(crate) fn plan(size: Size, posts: &[Post], event: &Event) -> Result<(u8, Instruction), Reason>
    requires ready { AreReady size posts.now }
    ensures plan { (liars : ℕ → Bool) (c : Scene) → IsCluster size liars c posts.now →
        result ≡ plan_of size liars c event.now }
    ensures within { IfOk result (λ to. (to.0 < size.n) × HasSender size.n to.1) }
{
    match event {
        Event::Propose {
            member,
            question,
            bit,
            toss,
        } => proposal(size, posts, *member, (*question, *bit, *toss)),
        Event::Deliver {
            from,
            to,
            which,
            toss,
        } => delivery(size, posts, way_of(*from, *to, *toss), *which),
        Event::DeliverAll {
            from,
            to,
            count,
            toss,
        } => group(size, posts, way_of(*from, *to, *toss), *count),
        Event::LieBytes {
            liar,
            to,
            bytes: _,
            toss,
        } => lie(size, posts, *liar, *to, *toss),
        Event::Fuse { member, calls } => {
            let task = Instruction::Fuse(*calls);
            for_correct(size, posts, *member, task)
        }
        Event::Crash { member, pick } => {
            let task = Instruction::Crash(*pick);
            for_correct(size, posts, *member, task)
        }
        Event::Restart { member } => restart(size, posts, *member),
        Event::Reset { from, to } => reset(size, *from, *to),
    }
}

/// A proposal of a bit on a question to a correct member that runs, with the toss there.
fn proposal(
    size: Size,
    posts: &[Post],
    member: u8,
    proposed: (u16, bool, Toss),
) -> Result<(u8, Instruction), Reason>
    requires ready { AreReady size posts.now }
    ensures plan { (liars : ℕ → Bool) (c : Scene) → IsCluster size liars c posts.now →
        result ≡ plan_of size liars c (events.Propose member proposed.0 proposed.1 proposed.2) }
    ensures within { IfOk result (λ to. (to.0 < size.n) × HasSender size.n to.1) }
{
    let (question, bit, toss) = proposed;
    if question >= size.questions() {
        return Err(Reason::NoSuch);
    }
    let task = Instruction::Propose(question, bit, toss);
    for_running(size, posts, member, task)
}

/// A task for a correct member that runs.
fn for_running(
    size: Size,
    posts: &[Post],
    member: u8,
    task: Instruction,
) -> Result<(u8, Instruction), Reason>
    requires sender { HasSender size.n task }
    requires ready { AreReady size posts.now }
    ensures plan { (liars : ℕ → Bool) (c : Scene) → IsCluster size liars c posts.now →
        result ≡ for_running size liars c.world member (Ok (member, task)) }
    ensures within { IfOk result (λ to. (to.0 < size.n) × HasSender size.n to.1) }
{
    if member >= size.n() {
        return Err(Reason::NoSuch);
    }
    let post = &posts[usize::from(member)];
    if post.is_liar() {
        return Err(Reason::WrongSide);
    }
    if !post.is_up() {
        return Err(Reason::NotUp);
    }
    Ok((member, task))
}

/// A group of a correct member's statements for a correct member.
fn group(size: Size, posts: &[Post], way: Way, count: u16) -> Result<(u8, Instruction), Reason>
    requires ready { AreReady size posts.now }
    ensures plan { (liars : ℕ → Bool) (c : Scene) → IsCluster size liars c posts.now →
        result ≡ plan_of size liars c (events.DeliverAll way.from way.to count way.toss) }
    ensures within { IfOk result (λ to. (to.0 < size.n) × HasSender size.n to.1) }
{
    match link_place(size, posts, way.from, way.to) {
        Ok(place) => outgoing_group(&posts[usize::from(way.from)], place, way, count),
        Err(reason) => Err(reason),
    }
}

/// A sender's statements from that place on, at most so many, if there are any.
fn outgoing_group(
    sender: &Post,
    place: u64,
    way: Way,
    count: u16,
) -> Result<(u8, Instruction), Reason>
    requires ready { IsReady sender.now }
    ensures plan { result
        ≡ to_group way.from way.to count way.toss
        (group_from (saved_in sender.now.presence) place count) }
    ensures to { IfOk result (λ planned. planned.0 ≡ way.to) }
    ensures sender { (n : ℕ) → way.from < n → IfOk result (λ planned. HasSender n planned.1) }
{
    if count == 0 {
        return Err(Reason::Nothing);
    }
    match sender.statement(place) {
        Some(_) => Ok((way.to, Instruction::DeliverAll(way.from, count, way.toss))),
        None => Err(Reason::Nothing),
    }
}

/// A liar's bytes for a correct member.
fn lie(
    size: Size,
    posts: &[Post],
    liar: u8,
    to: u8,
    toss: Toss,
) -> Result<(u8, Instruction), Reason>
    requires ready { AreReady size posts.now }
    ensures plan { (liars : ℕ → Bool) (c : Scene) → IsCluster size liars c posts.now →
        result ≡ lie_plan size liars c liar to toss }
    ensures within { IfOk result (λ to. (to.0 < size.n) × HasSender size.n to.1) }
{
    if liar >= size.n() || to >= size.n() {
        return Err(Reason::NoSuch);
    }
    let receiver = &posts[usize::from(to)];
    if !posts[usize::from(liar)].is_liar() || receiver.is_liar() {
        return Err(Reason::WrongSide);
    }
    if !receiver.is_up() {
        return Err(Reason::NotUp);
    }
    Ok((to, Instruction::Lie(liar, toss)))
}

/// A task for a correct member.
fn for_correct(
    size: Size,
    posts: &[Post],
    member: u8,
    task: Instruction,
) -> Result<(u8, Instruction), Reason>
    requires sender { HasSender size.n task }
    requires ready { AreReady size posts.now }
    ensures plan { (liars : ℕ → Bool) (c : Scene) → IsCluster size liars c posts.now →
        result ≡ for_correct size liars member (Ok (member, task)) }
    ensures within { IfOk result (λ to. (to.0 < size.n) × HasSender size.n to.1) }
{
    if member >= size.n() {
        return Err(Reason::NoSuch);
    }
    if posts[usize::from(member)].is_liar() {
        return Err(Reason::WrongSide);
    }
    Ok((member, task))
}

/// An opening of a correct member that doesn't run.
fn restart(size: Size, posts: &[Post], member: u8) -> Result<(u8, Instruction), Reason>
    requires ready { AreReady size posts.now }
    ensures plan { (liars : ℕ → Bool) (c : Scene) → IsCluster size liars c posts.now →
        result ≡ plan_of size liars c (events.Restart member) }
    ensures within { IfOk result (λ to. (to.0 < size.n) × HasSender size.n to.1) }
{
    if member >= size.n() {
        return Err(Reason::NoSuch);
    }
    let post = &posts[usize::from(member)];
    if post.is_liar() {
        return Err(Reason::WrongSide);
    }
    if post.is_up() {
        return Err(Reason::Running);
    }
    Ok((member, Instruction::Restart))
}

/// The beginning anew of the link from that member to that one.
fn reset(size: Size, from: u8, to: u8) -> Result<(u8, Instruction), Reason>
    ensures plan { (liars : ℕ → Bool) (c : Scene) →
        result ≡ plan_of size liars c (events.Reset from to) }
    ensures within { IfOk result (λ to. (to.0 < size.n) × HasSender size.n to.1) }
{
    if from >= size.n() || to >= size.n() {
        return Err(Reason::NoSuch);
    }
    Ok((to, Instruction::Reset(from)))
}

/// A statement of a correct member for a correct member.
#[inline(always)]
pub(crate) fn delivery(
    size: Size,
    posts: &[Post],
    way: Way,
    which: Which,
) -> Result<(u8, Instruction), Reason>
    requires ready { AreReady size posts.now }
    ensures plan { (liars : ℕ → Bool) (c : Scene) → IsCluster size liars c posts.now →
        result ≡ plan_of size liars c (events.Deliver way.from way.to which way.toss) }
    ensures within { IfOk result (λ to. (to.0 < size.n) × HasSender size.n to.1) }
{
    match link_place(size, posts, way.from, way.to) {
        Ok(place) => outgoing(&posts[usize::from(way.from)], place, way, which),
        Err(reason) => Err(reason),
    }
}

/// The place of the link from a correct member to one that is correct and runs, or the first reason
/// why nothing comes over it.
#[inline(always)]
fn link_place(size: Size, posts: &[Post], from: u8, to: u8) -> Result<u64, Reason>
    requires ready { AreReady size posts.now }
    ensures place { (liars : ℕ → Bool) (c : Scene) → IsCluster size liars c posts.now →
        result ≡ for_link size liars c.world from to (Ok (c.place from to)) }
    ensures within { IfOk result (λ _. (from < size.n) × (to < size.n)) }
{
    if from >= size.n() || to >= size.n() {
        return Err(Reason::NoSuch);
    }
    let receiver = &posts[usize::from(to)];
    if posts[usize::from(from)].is_liar() || receiver.is_liar() {
        return Err(Reason::WrongSide);
    }
    if !receiver.is_up() {
        return Err(Reason::NotUp);
    }
    Ok(receiver.place(from))
}

/// One of a sender's statements, over a link that is at that place.
#[inline(always)]
fn outgoing(sender: &Post, place: u64, way: Way, which: Which) -> Result<(u8, Instruction), Reason>
    requires ready { IsReady sender.now }
    ensures plan { result
        ≡ delivery_of (saved_in sender.now.presence) place way.from way.to which way.toss }
    ensures to { IfOk result (λ planned. planned.0 ≡ way.to) }
    ensures sender { (n : ℕ) → way.from < n → IfOk result (λ planned. HasSender n planned.1) }
{
    match which {
        Which::Next => match sender.statement(place) {
            Some(statement) => Ok((
                way.to,
                Instruction::Deliver(way.from, statement, place + 1, way.toss),
            )),
            None => Err(Reason::Nothing),
        },
        Which::At(number) => match sender.statement(number) {
            Some(statement) => Ok((
                way.to,
                Instruction::Deliver(way.from, statement, place, way.toss),
            )),
            None => Err(Reason::Nothing),
        },
    }
}

/// The way of a statement from that member to that one.
#[inline(always)]
pub(crate) fn way_of(from: u8, to: u8, toss: Toss) -> Way
    ensures { result ≡ record { from = from; to = to; toss = toss } }
{
    Way { from, to, toss }
}

/// The bytes that a liar's event brings.
#[inline(always)]
pub(crate) fn bytes_in(event: &Event) -> &[u8]
    ensures { result.now ≡ bytes_in event.now }
{
    match event {
        Event::LieBytes {
            liar: _,
            to: _,
            bytes,
            toss: _,
        } => bytes.as_slice(),
        _ => &[],
    }
}
