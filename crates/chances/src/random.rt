//! Deliveries in a drawn order, each link in its own.

ghost use Rattle.std.specs.Prelude.{ℕ, ◌≢◌, Err, OnOk};
ghost use Rattle.chances.specs.Tables.{Follows};
ghost use Rattle.chances.specs.declared.fault.PlayFault.TheVariants as faults;

use crate::fault::PlayFault;
use crate::steps::{STEPS, Step};
use crate::table::{Table, seed_bytes};
use rounds::{ChaChaTosser, Tosser};
use std::alloc::Global;
use terms::{Kind, Value};

/// The number of draws before the links are looked through for one that has something.
const DRAWS: u32 = 64;

/// Delivers in a drawn order until each correct member has decided, or nothing is left. The liars
/// speak of a step as soon as each correct member has said its Initial of it.
#[tactic(auto, using(crate::proofs::Moves::none_followed, crate::proofs::Moves::follows_then))]
pub fn deliver_drawn(table: &mut Table, alloc: Global, seed: u64) -> Result<(), PlayFault>
    ensures follows { OnOk result (Follows table.old table.new) }
    ensures liars { result ≢ Err faults.Liars }
    ensures two { (other : ℕ) → result ≢ Err (faults.TwoAnswers other) }
{
    let mut draw = ChaChaTosser::from_seed(seed_bytes(seed), 1);
    let mut next = Step(0);
    for _ in 0..u64::MAX {
        if table.is_decided() {
            return Ok(());
        }
        if next.0 < STEPS && table.is_said(next) {
            lie_all(table, alloc, next)?;
            next = Step(next.0 + 1);
        }
        let Some(link) = busy_link(table, &mut draw) else {
            return Ok(());
        };
        table.deliver(link.from, link.to, 0)?;
    }
    Ok(())
}

/// Lets each liar say its Initial of the step, and the Echo and the Ready of each broadcast of it.
#[tactic(auto, using(crate::proofs::Moves::none_followed, crate::proofs::Moves::follows_then))]
fn lie_all(table: &mut Table, alloc: Global, step: Step) -> Result<(), PlayFault>
    ensures follows { OnOk result (Follows table.old table.new) }
    ensures liars { result ≢ Err faults.Liars }
    ensures two { (seed : ℕ) → result ≢ Err (faults.TwoAnswers seed) }
{
    let values = table.values(alloc, step)?;
    for liar in table.correct()..table.size().n() {
        let Some(Some(value)) = values.get(usize::from(liar)) else {
            continue;
        };
        if let Some(initial) = step.statement(Kind::Initial, liar, *value) {
            table.lie_to_all(liar, &initial)?;
        }
        relay(table, step, &values, liar)?;
    }
    Ok(())
}

/// Lets a liar say the Echo and the Ready of each broadcast of the step.
#[tactic(auto, using(crate::proofs::Moves::none_followed, crate::proofs::Moves::follows_then))]
fn relay(table: &mut Table, step: Step, values: &[Option<Value>], liar: u8) -> Result<(), PlayFault>
    ensures follows { OnOk result (Follows table.old table.new) }
    ensures liars { result ≢ Err faults.Liars }
    ensures two { (seed : ℕ) → result ≢ Err (faults.TwoAnswers seed) }
{
    for (origin, value) in values.iter().take(64).enumerate() {
        let Some(value) = value else { continue };
        for kind in [Kind::Echo, Kind::Ready] {
            if let Some(statement) = step.statement(kind, origin as u8, *value) {
                table.lie_to_all(liar, &statement)?;
            }
        }
    }
    Ok(())
}

/// Returns a drawn link that has something. `None` if no link has.
fn busy_link(table: &Table, draw: &mut ChaChaTosser) -> Option<Link> {
    for _ in 0..DRAWS {
        let from = below(draw, table.size().n());
        let to = below(draw, table.correct());
        if !table.links().queue(from, to).is_empty() {
            return Some(Link { from, to });
        }
    }
    first_busy(table)
}

/// Returns a number below `bound`, or 0 if that is 0.
fn below(draw: &mut ChaChaTosser, bound: u8) -> u8 {
    if bound == 0 {
        return 0;
    }
    (draw.toss().0 % u64::from(bound)) as u8
}

/// Returns the first link that has something, by sender and then by receiver.
fn first_busy(table: &Table) -> Option<Link> {
    for from in 0..table.size().n() {
        for to in 0..table.correct() {
            if !table.links().queue(from, to).is_empty() {
                return Some(Link { from, to });
            }
        }
    }
    None
}

/// A link.
#[derive(Clone, Copy)]
struct Link {
    from: u8,
    to: u8,
}
