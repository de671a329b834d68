//! Statements that were said and aren't delivered yet.

ghost use Rattle.std.specs.Prelude.{ℕ, List, ◌≡◌, ◌≢◌, ◌<◌, ◌≤◌, ◌⊎◌, ◌↔◌, ◌++◌, ◌∷◌, [], IfOk, OnOk, OnErr, IfSome, IsNone, IsSome, length};
ghost use Rattle.chances.specs.Links.{queue_of, queue_to, receivers_of, AddsToAll, AddsToSome, TakesOut};

use std::alloc::{AllocError, Global};
use terms::Statement;

/// The links from each sender to each correct member. A link is the queue of what its sender said
/// and its receiver hasn't got, oldest first. What is taken off a queue is gone, so each statement
/// is delivered once.
#[derive(Drop)]
pub struct Links {
    /// The queues by sender, then by receiver.
    rows: Vec<Vec<Vec<Statement>>>,
}

#[tactic(auto, unfolding(crate::specs::Links::queue_of, crate::specs::Links::receivers_of))]
impl Links {
    /// Creates empty links from so many senders to so many receivers.
    pub fn new(alloc: Global, senders: u8, receivers: u8) -> Result<Links, AllocError>
        ensures empty { IfOk result (λ links. (from to : ℕ) → queue_of links from to ≡ []) }
        ensures links { IfOk result
            (λ links. (from : ℕ) → from < senders → receivers_of links from ≡ receivers) }
        ensures few { IfOk result
            (λ links. (from : ℕ) → senders ≤ from → receivers_of links from ≡ 0) }
    {
        let mut rows = Vec::new(alloc);
        for _ in 0..senders {
            rows.push(empty_row(alloc, receivers)?)?;
        }
        Ok(Links { rows })
    }

    /// Adds a statement of this sender to each of its queues. At an error some of them may have it
    /// and others not.
    pub fn say(&mut self, from: u8, statement: Statement) -> Result<(), AllocError>
        ensures said { OnOk result ((to : ℕ) → to < receivers_of self.old from →
            queue_of self.new from to ≡ queue_of self.old from to ++ statement ∷ []) }
        ensures err { OnErr result ((to : ℕ) →
            (queue_of self.new from to ≡ queue_of self.old from to)
            ⊎ (queue_of self.new from to ≡ queue_of self.old from to ++ statement ∷ [])) }
        ensures others { (sender to : ℕ) → sender ≢ from →
            queue_of self.new sender to ≡ queue_of self.old sender to }
        ensures links { (sender : ℕ) →
            receivers_of self.new sender ≡ receivers_of self.old sender }
    {
        match self.rows.get_mut(usize::from(from)) {
            Some(row) => add_to_all(row, statement),
            None => Ok(()),
        }
    }

    /// Returns what this sender said and this receiver hasn't got, oldest first.
    pub fn queue(&self, from: u8, to: u8) -> &[Statement]
        ensures { result.now ≡ queue_of self.now from to }
    {
        match self.rows.get(usize::from(from)) {
            Some(row) => match row.get(usize::from(to)) {
                Some(queue) => queue.as_slice(),
                None => &[],
            },
            None => &[],
        }
    }

    /// Takes the statement at this place, from 0, off the queue of the link.
    pub fn take(&mut self, from: u8, to: u8, place: usize) -> Option<Statement>
        ensures some { IfSome result
            (TakesOut place (queue_of self.old from to) (queue_of self.new from to)) }
        ensures there { IsSome result → to < receivers_of self.old from }
        ensures none { IsNone result ↔ length (queue_of self.old from to) ≤ place }
        ensures same { IsNone result →
            queue_of self.new from to ≡ queue_of self.old from to }
        ensures others { (sender receiver : ℕ) → (sender ≢ from) ⊎ (receiver ≢ to) →
            queue_of self.new sender receiver ≡ queue_of self.old sender receiver }
        ensures links { (sender : ℕ) →
            receivers_of self.new sender ≡ receivers_of self.old sender }
    {
        match self.rows.get_mut(usize::from(from)) {
            Some(row) => take_in(row, to, place),
            None => None,
        }
    }
}

/// Returns the empty queues of a sender to so many receivers.
fn empty_row(alloc: Global, receivers: u8) -> Result<Vec<Vec<Statement>>, AllocError>
    ensures empty { IfOk result (λ row. (to : ℕ) → queue_to row.items to ≡ []) }
    ensures count { IfOk result (λ row. length row.items ≡ receivers) }
{
    let mut row = Vec::new(alloc);
    for _ in 0..receivers {
        row.push(Vec::new(alloc))?;
    }
    Ok(row)
}

/// Adds the statement to each queue of a sender.
fn add_to_all(row: &mut Vec<Vec<Statement>>, statement: Statement) -> Result<(), AllocError>
    ensures ok { OnOk result (AddsToAll statement row.old.items row.new.items) }
    ensures err { OnErr result (AddsToSome statement row.old.items row.new.items) }
{
    for to in 0..row.len() {
        row[to].push(statement)?;
    }
    Ok(())
}

/// Takes the statement at this place off the queue to this receiver.
fn take_in(row: &mut Vec<Vec<Statement>>, to: u8, place: usize) -> Option<Statement>
    ensures some { IfSome result
        (TakesOut place (queue_to row.old.items to) (queue_to row.new.items to)) }
    ensures there { IsSome result → to < length row.old.items }
    ensures none { IsNone result ↔ length (queue_to row.old.items to) ≤ place }
    ensures same { IsNone result →
        queue_to row.new.items to ≡ queue_to row.old.items to }
    ensures others { (other : ℕ) → other ≢ to →
        queue_to row.new.items other ≡ queue_to row.old.items other }
    ensures count { length row.new.items ≡ length row.old.items }
{
    match row.get_mut(usize::from(to)) {
        Some(queue) => take_at(queue, place),
        None => None,
    }
}

/// Takes the statement at this place off a queue.
fn take_at(queue: &mut Vec<Statement>, place: usize) -> Option<Statement>
    ensures some { IfSome result (TakesOut place queue.old.items queue.new.items) }
    ensures none { IsNone result ↔ length queue.old.items ≤ place }
    ensures same { IsNone result → queue.new ≡ queue.old }
{
    if place < queue.len() {
        Some(queue.remove(place))
    } else {
        None
    }
}
