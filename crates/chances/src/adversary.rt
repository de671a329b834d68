//! Deliveries that an adversary chooses. It brings a step to its end before it begins the next;
//! what it brings to whom and in which order is the rule of [`crate::strategy`].

ghost use Rattle.std.specs.Prelude.{ℕ, ◌≢◌, ◌≤◌, Err, OnOk, length};
ghost use Rattle.chances.specs.Tables.{Follows};
ghost use Rattle.chances.specs.declared.fault.PlayFault.TheVariants as faults;

use crate::fault::PlayFault;
use crate::steps::{STEPS, Step};
use crate::strategy;
use crate::table::Table;
use std::alloc::{AllocError, Global};
use terms::{Kind, MOST_MEMBERS, Size, Statement, Value};

/// Delivers as the adversary does, until each correct member has decided, or all steps are played.
#[tactic(auto, using(crate::proofs::Moves::none_followed, crate::proofs::Moves::follows_then))]
pub fn deliver_chosen(table: &mut Table, alloc: Global, in_order: bool) -> Result<(), PlayFault>
    ensures follows { OnOk result (Follows table.old table.new) }
    ensures liars { result ≢ Err faults.Liars }
    ensures two { (seed : ℕ) → result ≢ Err (faults.TwoAnswers seed) }
{
    for step in 0..STEPS {
        play_step(table, alloc, Step(step), in_order)?;
        drain_before(table, Step(step + 1))?;
        if table.is_decided() {
            return Ok(());
        }
    }
    Ok(())
}

/// Plays a step.
#[tactic(auto, using(crate::proofs::Moves::none_followed, crate::proofs::Moves::follows_then))]
fn play_step(table: &mut Table, alloc: Global, step: Step, in_order: bool) -> Result<(), PlayFault>
    ensures follows { OnOk result (Follows table.old table.new) }
    ensures liars { result ≢ Err faults.Liars }
    ensures two { (seed : ℕ) → result ≢ Err (faults.TwoAnswers seed) }
{
    let mut values = table.values(alloc, step)?;
    values.truncate(usize::from(MOST_MEMBERS));
    let stage = Stage {
        step,
        values: &values,
        in_order,
    };
    for kind in [Kind::Initial, Kind::Echo, Kind::Ready] {
        for to in 0..table.correct() {
            bring_all(table, alloc, &stage, kind, to)?;
        }
    }
    Ok(())
}

/// Brings the statements of this kind to the receiver, in the order of its broadcasts.
#[tactic(auto, using(crate::proofs::Moves::none_followed, crate::proofs::Moves::follows_then))]
fn bring_all(
    table: &mut Table,
    alloc: Global,
    stage: &Stage<'_>,
    kind: Kind,
    to: u8,
) -> Result<(), PlayFault>
    ensures follows { OnOk result (Follows table.old table.new) }
    ensures liars { result ≢ Err faults.Liars }
    ensures two { (seed : ℕ) → result ≢ Err (faults.TwoAnswers seed) }
{
    let order = strategy::order(alloc, table.size(), stage.step.step(), stage.values, to)?;
    for origin in &order {
        match stage.statement(kind, *origin) {
            Some(_) if kind == Kind::Initial => bring_initial(table, alloc, stage, *origin, to)?,
            Some(statement) => bring(table, alloc, stage, &statement, to)?,
            None => {}
        }
    }
    Ok(())
}

/// Brings the Initial of this origin to the receiver.
#[tactic(auto, using(crate::proofs::Moves::none_followed, crate::proofs::Moves::follows_then))]
fn bring_initial(
    table: &mut Table,
    alloc: Global,
    stage: &Stage<'_>,
    origin: u8,
    to: u8,
) -> Result<(), PlayFault>
    ensures follows { OnOk result (Follows table.old table.new) }
    ensures liars { result ≢ Err faults.Liars }
    ensures two { (seed : ℕ) → result ≢ Err (faults.TwoAnswers seed) }
{
    let Some(initial) = stage.statement(Kind::Initial, origin) else {
        return Ok(());
    };
    if origin >= table.correct() {
        return table.lie(origin, to, &initial);
    }
    for way in &ways(table, alloc, &initial, to)? {
        deliver_to(table, *way, to, stage.in_order)?;
    }
    Ok(())
}

/// Brings the Echos or the Readys of the origin's broadcast to the receiver: all of them; if links
/// keep their order, those of the liars and as many others as make the next statement or the
/// acceptance due, by the shortest ways.
#[tactic(auto, using(crate::proofs::Moves::none_followed, crate::proofs::Moves::follows_then))]
fn bring(
    table: &mut Table,
    alloc: Global,
    stage: &Stage<'_>,
    statement: &Statement,
    to: u8,
) -> Result<(), PlayFault>
    ensures follows { OnOk result (Follows table.old table.new) }
    ensures liars { result ≢ Err faults.Liars }
    ensures two { (seed : ℕ) → result ≢ Err (faults.TwoAnswers seed) }
{
    let ways = ways(table, alloc, statement, to)?;
    let mut came = usize::from(table.size().n()).saturating_sub(ways.len());
    if stage.in_order {
        tell(table, statement, to)?;
    }
    for way in &ways {
        if stage.in_order && came >= usize::from(enough(table.size(), statement.kind())) {
            return Ok(());
        }
        deliver_to(table, *way, to, stage.in_order)?;
        came = came.saturating_add(1);
    }
    Ok(())
}

/// A step in the adversary's hands.
#[derive(Drop)]
struct Stage<'a> {
    step: Step,
    /// The values of its Initials, by member.
    values: &'a [Option<Value>],
    /// `true` if each link keeps its order.
    in_order: bool,
    ghost few: { length values.now ≤ 64 },
}

impl Stage<'_> {
    /// Returns the statement of this kind on the origin's broadcast of the step.
    fn statement(&self, kind: Kind, origin: u8) -> Option<Statement> {
        match self.values.get(usize::from(origin)) {
            Some(Some(value)) => self.step.statement(kind, origin, *value),
            _ => None,
        }
    }
}

/// Returns the ways of the statement to the receiver, the shortest first.
fn ways(
    table: &Table,
    alloc: Global,
    statement: &Statement,
    to: u8,
) -> Result<Vec<Way>, AllocError> {
    let mut ways = Vec::new(alloc);
    for from in 0..table.correct() {
        let queue = table.links().queue(from, to);
        if let Some(place) = queue.iter().position(|said| said == statement) {
            ways.push(Way { place, from })?;
        }
    }
    ways.sort_unstable();
    Ok(ways)
}

/// Lets each liar tell the receiver the statement.
#[tactic(auto, using(crate::proofs::Moves::none_followed, crate::proofs::Moves::follows_then))]
fn tell(table: &mut Table, statement: &Statement, to: u8) -> Result<(), PlayFault>
    ensures follows { OnOk result (Follows table.old table.new) }
    ensures liars { result ≢ Err faults.Liars }
    ensures two { (seed : ℕ) → result ≢ Err (faults.TwoAnswers seed) }
{
    for liar in table.correct()..table.size().n() {
        table.lie(liar, to, statement)?;
    }
    Ok(())
}

/// Returns the number of members whose statement of this kind makes the next one due.
fn enough(size: Size, kind: Kind) -> u8 {
    match kind {
        Kind::Initial => 1,
        Kind::Echo => size.echo_quorum(),
        Kind::Ready => size.accept(),
    }
}

/// Delivers the statement from this sender: alone, or all of the queue up to it.
#[tactic(auto, using(crate::proofs::Moves::none_followed, crate::proofs::Moves::follows_then))]
fn deliver_to(table: &mut Table, way: Way, to: u8, in_order: bool) -> Result<(), PlayFault>
    ensures follows { OnOk result (Follows table.old table.new) }
    ensures liars { result ≢ Err faults.Liars }
    ensures two { (seed : ℕ) → result ≢ Err (faults.TwoAnswers seed) }
{
    if !in_order {
        table.deliver(way.from, to, way.place)?;
        return Ok(());
    }
    for _ in 0..=way.place {
        table.deliver(way.from, to, 0)?;
    }
    Ok(())
}

/// The part of a link's queue up to a statement.
#[derive(Clone, Copy, Debug, PartialEq, Eq, PartialOrd, Ord)]
struct Way {
    /// The place of the statement in the queue.
    place: usize,
    /// The sender.
    from: u8,
}

/// Delivers all that is on the links before the Initials of the step.
#[tactic(auto, using(crate::proofs::Moves::none_followed, crate::proofs::Moves::follows_then))]
fn drain_before(table: &mut Table, step: Step) -> Result<(), PlayFault>
    ensures follows { OnOk result (Follows table.old table.new) }
    ensures liars { result ≢ Err faults.Liars }
    ensures two { (seed : ℕ) → result ≢ Err (faults.TwoAnswers seed) }
{
    for _ in 0..u64::MAX {
        if !drain_all(table, step)? {
            return Ok(());
        }
    }
    Ok(())
}

/// Delivers once around what is on the links before the Initials of the step.
#[tactic(auto, using(crate::proofs::Moves::none_followed, crate::proofs::Moves::follows_then))]
fn drain_all(table: &mut Table, step: Step) -> Result<bool, PlayFault>
    ensures follows { OnOk result (Follows table.old table.new) }
    ensures liars { result ≢ Err faults.Liars }
    ensures two { (seed : ℕ) → result ≢ Err (faults.TwoAnswers seed) }
{
    let mut came = false;
    for from in 0..table.correct() {
        for to in 0..table.correct() {
            came |= drain(table, from, to, step)?;
        }
    }
    Ok(came)
}

/// Delivers what is on the link before its sender's Initial of the step. Returns `true` if there
/// was something.
#[tactic(auto, using(crate::proofs::Moves::none_followed, crate::proofs::Moves::follows_then))]
fn drain(table: &mut Table, from: u8, to: u8, step: Step) -> Result<bool, PlayFault>
    ensures follows { OnOk result (Follows table.old table.new) }
    ensures liars { result ≢ Err faults.Liars }
    ensures two { (seed : ℕ) → result ≢ Err (faults.TwoAnswers seed) }
{
    let mut came = false;
    for _ in 0..table.links().queue(from, to).len() {
        match table.links().queue(from, to).first() {
            Some(first) if !is_ahead(first, step) => {
                came |= table.deliver(from, to, 0)?;
            }
            _ => return Ok(came),
        }
    }
    Ok(came)
}

/// Returns `true` if the statement is an Initial of this step or a later one.
fn is_ahead(statement: &Statement, step: Step) -> bool {
    let place = statement.place();
    let at = 3 * (usize::from(place.round()) - 1) + usize::from(place.step()) - 1;
    statement.kind() == Kind::Initial && at >= step.0
}
