//! The orders of a script's lines, read before anything of it is made.

ghost use Rattle.std.specs.Prelude.{ℕ, ◌≡◌, ◌<◌, ◌≤◌, ◌+◌, ◌*◌, ◌-◌, ◌^◌, [], length, min, IfOk, IfErr, ◌⊎◌};
ghost use Rattle.sim.specs.declared.TheConstants.{MOST_EVENTS};
ghost use Rattle.terms_prelude.specs.Terms.{Size};
ghost use Rattle.script.specs.Steps.{ScriptStep, SaysStep};
ghost use Rattle.script.specs.LineWords.{words_of};
ghost use Rattle.script.specs.Orders.{order_step, numbered, made_by};
ghost use Rattle.script.specs.Making.{Made, LeadTo, BreakBy, how_many};

use crate::fault::ScriptFault;
use crate::lines::Line;
use crate::step::Order;
use sim::MOST_EVENTS;
use std::alloc::Global;

/// Returns what the lines say, up to the first fault: `Line` where a line says nothing, `Events`
/// where there would be too many events. It is the same whatever the seed is.
pub fn orders(alloc: Global, correct: &[u8], lines: &[Line]) -> Result<Vec<Order>, ScriptFault>
    ensures ok { (size : Size) (start : Made) → start.events ≡ [] →
        IfOk result (λ orders. LeadTo size correct.now start (numbered lines.now)
        (made_by size correct.now orders.items start)) }
    ensures few { (size : Size) (start : Made) → start.events ≡ [] → IfOk result (λ orders.
        length (made_by size correct.now orders.items start).events ≤ MOST_EVENTS) }
    ensures err { (size : Size) (start : Made) → start.events ≡ [] → IfErr result (λ fault.
        (fault ≡ ScriptFault.Memory) ⊎ BreakBy size correct.now start (numbered lines.now) fault) }
{
    let mut orders = Vec::new(alloc);
    let mut count = 0;
    for line in lines {
        let order = order_of(alloc, *line)?;
        count = with_order(count, &order, correct)?;
        orders.push(order)?;
    }
    Ok(orders)
}

/// Returns what the line says: `Line` where it says nothing.
fn order_of(alloc: Global, line: Line) -> Result<Order, ScriptFault>
    ensures ok { IfOk result (λ order. SaysStep (words_of line.entry.text.now) (order_step order)) }
    ensures err { IfErr result
        (λ fault. (fault ≡ ScriptFault.Memory)
        ⊎ (((step : ScriptStep) → SaysStep (words_of line.entry.text.now) step → ⊥)
        × (fault ≡ ScriptFault.Line line.entry.number))) }
{
    let words = line.words(alloc)?;
    match Order::parse(alloc, &words)? {
        Some(order) => Ok(order),
        None => Err(line.fault()),
    }
}

/// Returns how many events there are with those that the order stands for: `Events` where these are
/// too many.
fn with_order(have: u64, order: &Order, correct: &[u8]) -> Result<u64, ScriptFault>
    requires { have ≤ MOST_EVENTS }
    ensures ok { IfOk result
        (λ all. (all ≡ have + how_many (length correct.now) (order_step order.now))
        × (all ≤ MOST_EVENTS)) }
    ensures err { IfErr result
        (λ fault. (MOST_EVENTS < have + how_many (length correct.now) (order_step order.now))
        × (fault ≡ ScriptFault.Events)) }
{
    match order {
        Order::Once(_) => with_room(have, 1),
        Order::Rounds(count) => with_room(have, count.saturating_mul(links(correct))),
        Order::Random(count) => with_room(have, *count),
        Order::Fair(left, _) => with_room(have, *left),
    }
}

/// Returns how many events there are with so many more: `Events` where these are too many.
fn with_room(have: u64, more: u64) -> Result<u64, ScriptFault>
    requires { have ≤ MOST_EVENTS }
    ensures ok { IfOk result (λ all. (all ≡ have + more) × (all ≤ MOST_EVENTS)) }
    ensures err { IfErr result
        (λ fault. (MOST_EVENTS < have + more) × (fault ≡ ScriptFault.Events)) }
{
    if more <= MOST_EVENTS as u64 - have {
        Ok(have + more)
    } else {
        Err(ScriptFault::Events)
    }
}

/// Returns how many links there are between these members: 2^64 - 1 where there are more.
fn links(members: &[u8]) -> u64
    ensures { result ≡ min (length members.now * length members.now) (2 ^ 64 - 1) }
{
    (members.len() as u64).saturating_mul(members.len() as u64)
}
