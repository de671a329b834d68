//! A script whose events are made as they are asked for.

ghost use Rattle.std.specs.Prelude.{◌≡◌, ◌<◌, ◌≤◌, ◌⊎◌, ◌++◌, [], length, map, IfOk, IfErr, OnOk, IsTrue, ◌↔◌, false, true};
ghost use Rattle.sim.specs.declared.TheConstants.{MOST_EVENTS};
ghost use Rattle.script.specs.Acts.{tossed_act};
ghost use Rattle.script.specs.Making.{turns};
ghost use Rattle.script.specs.Orders.{order_step};
ghost use Rattle.script.specs.Scripts.{SaysCluster, IsFirstFault};

use crate::fault::ScriptFault;
use crate::head::{HEAD_LINES, Head};
use crate::lines::Lines;
use crate::making::Making;
use crate::orders::orders;
use crate::step::Order;
use crate::{Script, correct_members};
use sim::Event;
use std::alloc::Global;
use std::marker::Model;
use std::mem;
use std::vec::IntoIter;
use terms::Size;

/// A script whose events are made a few at a time, as they are asked for. It keeps what the text's
/// lines say, and of the events those that are the next to be played.
///
/// In contracts it is its cluster, the events of now (`batch`), those behind them (`left`), and in
/// how many turns at most these are made (`turns`).
#[derive(Drop)]
pub struct Source {
    size: Size,
    liars: Vec<u8>,
    correct: Vec<u8>,
    orders: IntoIter<Order>,
    /// The rest of the order that is carried out.
    rest: Order,
    making: Making,
}

impl Model for Source {
    ghost use Rattle.std.specs.Vec.Iter.{into_iter_items};
    ghost use Rattle.script.specs.Sources.{SourceFields, left_of, turns_of};

    ghost Value = { SourceFields };

    ghost view = { λ s. record {
      size = s.size;
      liars = s.liars.items;
      batch = s.making.events;
      left = left_of s.size s.correct.items s.rest (into_iter_items s.orders) s.making.stream;
      turns = turns_of s.rest (into_iter_items s.orders);
    } };
}

impl Source {
    /// The script that the text says, before its first event is made. All lines are read: so no
    /// fault of the text comes later.
    ///
    /// # Errors
    ///
    /// The first fault from the top, as [`read`](crate::read) has it. [`ScriptFault::Memory`] where
    /// memory was refused.
    pub fn of(alloc: Global, text: &[u8]) -> Result<Source, ScriptFault>
        ensures says { IfOk result
            (λ source. SaysCluster text.now source.size source.liars source.left) }
        ensures none { IfOk result (λ source. source.batch ≡ []) }
        ensures few { IfOk result (λ source. length source.left ≤ MOST_EVENTS) }
        ensures fault { IfErr result
            (λ fault. (fault ≡ ScriptFault.Memory) ⊎ IsFirstFault text.now fault) }
    {
        let lines = Lines::of(alloc, text)?;
        let Head { size, liars, seed } = Head::read(alloc, &lines)?;
        let correct = correct_members(alloc, size.n(), &liars)?;
        let orders = orders(alloc, &correct, lines.behind(HEAD_LINES))?;
        Ok(Source {
            size,
            liars,
            correct,
            orders: orders.into_iter(),
            rest: Order::Random(0),
            making: Making::new(alloc, seed),
        })
    }

    /// The cluster's size.
    pub fn size(&self) -> Size
        ensures { result ≡ self.now.size }
    {
        self.size
    }

    /// The members that lie, as the script lists them.
    pub fn liars(&self) -> &[u8]
        ensures { result.now ≡ self.now.liars }
    {
        &self.liars
    }

    /// Makes the next events, which may be none; false where none were left.
    ///
    /// # Errors
    ///
    /// [`ScriptFault::Memory`] where memory was refused. Then events may be lost: the source is of
    /// no more use.
    pub fn more(&mut self, alloc: Global) -> Result<bool, ScriptFault>
        ensures gives { OnOk result (self.old.left ≡ self.new.batch ++ self.new.left) }
        ensures fewer { IfOk result (λ more. more ≡ true → self.new.turns < self.old.turns) }
        ensures over { IfOk result (λ more. more ≡ false → self.old.left ≡ []) }
        ensures cluster { (self.new.size ≡ self.old.size) × (self.new.liars ≡ self.old.liars) }
        ensures memory { IfErr result (λ fault. fault ≡ ScriptFault.Memory) }
    {
        self.making.clear();
        if is_over(&self.rest) {
            return match self.orders.next() {
                Some(order) => {
                    self.rest = order;
                    Ok(true)
                }
                None => Ok(false),
            };
        }
        let order = mem::replace(&mut self.rest, Order::Random(0));
        self.rest = self
            .making
            .take_piece(alloc, self.size, &self.correct, order)?;
        Ok(true)
    }

    /// The events that were made last.
    pub fn batch(&self) -> &[Event]
        ensures { map tossed_act result.now ≡ self.now.batch }
    {
        self.making.events()
    }

    /// Moves the events that were made last behind those.
    fn move_batch(&mut self, events: &mut Vec<Event>) -> Result<(), ScriptFault>
        ensures events { OnOk result
            (map tossed_act events.new.items ≡ map tossed_act events.old.items ++ self.old.batch) }
        ensures stays { OnOk result (self.new ≡ record self.old { batch = [] }) }
        ensures memory { IfErr result (λ fault. fault ≡ ScriptFault.Memory) }
    {
        self.making.move_to(events)
    }

    /// The script of all events that are left.
    ///
    /// # Errors
    ///
    /// [`ScriptFault::Memory`] where memory was refused.
    pub fn into_script(self, alloc: Global) -> Result<Script, ScriptFault>
        ensures cluster { IfOk result
            (λ script. (script.size ≡ self.size) × (script.liars.items ≡ self.liars)) }
        ensures events { IfOk result (λ script. map tossed_act script.events.items ≡ self.left) }
        ensures memory { IfErr result (λ fault. fault ≡ ScriptFault.Memory) }
    {
        let mut source = self;
        let mut events = Vec::new(alloc);
        'batches: while source.more(alloc)? {
            source.move_batch(&mut events)?;
        }
        let Source { size, liars, .. } = source;
        Ok(Script {
            size,
            liars,
            events,
        })
    }
}

/// Returns `true` if the order stands for nothing, as a number of 0 says.
fn is_over(order: &Order) -> bool
    ensures { IsTrue result ↔ (turns (order_step order.now) ≡ 0) }
{
    match order {
        Order::Once(_) => false,
        Order::Rounds(count) => *count == 0,
        Order::Random(count) => *count == 0,
        Order::Fair(left, _) => *left == 0,
    }
}
