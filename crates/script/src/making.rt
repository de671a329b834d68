//! The events that a script's lines stand for.

ghost use Rattle.std.specs.Prelude.{ℕ, List, ◌≡◌, ◌⊎◌, ◌<◌, ◌++◌, [], map, vec_len, vec_capacity, OnOk, IfOk, IfErr};
ghost use Rattle.terms_prelude.specs.Terms.{Size};
ghost use Rattle.sim.specs.declared.events.Which.TheVariants.{Next};
ghost use Rattle.script.specs.Acts.{act_of, tossed_act};
ghost use Rattle.script.specs.Acts.Act.{Deliver};
ghost use Rattle.script.specs.Orders.{order_step};
ghost use Rattle.script.specs.Making.{Made, add, add_drawn, add_fair, adds, cast_of, draws, fairs, row, round, times, turns, after_step};

use crate::draw::Draw;
use crate::fair::{Fair, Members};
use crate::fault::ScriptFault;
use crate::step::Order;
use sim::{Event, Which};
use std::alloc::{AllocError, Global};
use std::marker::Model;
use terms::Size;

/// The number of events that are drawn at once, where they are asked for a few at a time.
const PIECE: u64 = 256;

/// The events so far, and the words behind those that were drawn.
#[derive(Drop)]
pub struct Making {
    events: Vec<Event>,
    draw: Draw,
}

impl Model for Making {
    ghost Value = { Made };

    ghost view = { λ m. record { events = map tossed_act m.events.items; stream = m.draw } };
}

impl Making {
    ghost use Rattle.script.specs.Scripts.{at_start};

    /// No events yet.
    pub fn new(alloc: Global, seed: u64) -> Making
        ensures { result ≡ at_start seed }
    {
        Making {
            events: Vec::new(alloc),
            draw: Draw::from_seed(seed),
        }
    }

    /// Adds an event.
    #[tactic(auto, unfolding(crate::specs::Making::add))]
    fn add(&mut self, event: Event) -> Result<(), ScriptFault>
        ensures ok { OnOk result (self.new ≡ add (act_of event) self.old) }
        ensures err { IfErr result (λ fault. fault ≡ ScriptFault.Memory) }
    {
        let mut event = event;
        self.draw.toss_into(&mut event);
        make_room(&mut self.events)?;
        self.events.push_reserved(event);
        Ok(())
    }

    /// Adds a drawn event.
    #[tactic(auto, unfolding(crate::specs::Making::add_drawn, crate::specs::Making::add))]
    fn add_drawn(&mut self, alloc: Global, size: Size) -> Result<(), ScriptFault>
        ensures ok { OnOk result (self.new ≡ add_drawn size self.old) }
        ensures err { IfErr result (λ fault. fault ≡ ScriptFault.Memory) }
    {
        let mut event = self.draw.event(alloc, size)?;
        self.draw.toss_into(&mut event);
        make_room(&mut self.events)?;
        self.events.push_reserved(event);
        Ok(())
    }

    /// Adds a delivery of the sender's next statement to this one.
    #[tactic(auto, unfolding(crate::specs::Making::add))]
    fn add_next(&mut self, from: u8, to: u8) -> Result<(), ScriptFault>
        ensures ok { OnOk result (self.new ≡ add (Deliver from to Next) self.old) }
        ensures err { IfErr result (λ fault. fault ≡ ScriptFault.Memory) }
    {
        let which = Which::Next;
        let toss = self.draw.toss();
        self.events.push(Event::Deliver {
            from,
            to,
            which,
            toss,
        })?;
        Ok(())
    }

    /// Adds a delivery of the sender's next statement to each of these.
    #[tactic(auto, using(crate::proofs::Counting::row_next, crate::proofs::Counting::count_one))]
    fn add_row(&mut self, from: u8, members: &[u8]) -> Result<(), ScriptFault>
        ensures ok { OnOk result (self.new ≡ adds (row from members.now) self.old) }
        ensures err { IfErr result (λ fault. fault ≡ ScriptFault.Memory) }
    {
        for to in members {
            self.add_next(from, *to)?;
        }
        Ok(())
    }

    /// Adds a delivery on each link between these members, by sender and then by receiver.
    fn add_round(&mut self, members: &[u8]) -> Result<(), ScriptFault>
        ensures ok { OnOk result (self.new ≡ adds (round members.now) self.old) }
        ensures err { IfErr result (λ fault. fault ≡ ScriptFault.Memory) }
    {
        for from in members {
            self.add_row(*from, members)?;
        }
        Ok(())
    }

    /// Adds so many drawn events.
    fn add_all_drawn(&mut self, alloc: Global, size: Size, count: u64) -> Result<(), ScriptFault>
        ensures ok { OnOk result (self.new ≡ draws size count self.old) }
        ensures err { IfErr result (λ fault. fault ≡ ScriptFault.Memory) }
    {
        for number in 0..count {
            self.add_drawn(alloc, size)?;
        }
        Ok(())
    }

    /// Adds an event of a fair network, where so many of its line are left.
    #[tactic(auto, unfolding(crate::specs::Making::add_fair, crate::specs::Making::add))]
    fn add_fair(
        &mut self,
        alloc: Global,
        members: &Members,
        left: u64,
        fair: &mut Fair,
    ) -> Result<(), ScriptFault>
        ensures ok { OnOk result
            ((fair.new, self.new) ≡ add_fair members.now left fair.old self.old) }
        ensures err { IfErr result (λ fault. fault ≡ ScriptFault.Memory) }
    {
        let mut event = fair.event(alloc, &mut self.draw, members, left)?;
        self.draw.toss_into(&mut event);
        make_room(&mut self.events)?;
        self.events.push_reserved(event);
        Ok(())
    }

    /// Adds some of so many events of a fair network, and tells how many are left.
    fn add_fairs(
        &mut self,
        alloc: Global,
        members: &Members,
        left: u64,
        fair: &mut Fair,
    ) -> Result<u64, ScriptFault>
        ensures ok { IfOk result
            (λ rest. fairs members.now rest fair.new self.new
            ≡ fairs members.now left fair.old self.old) }
        ensures fewer { IfOk result (λ rest. (left ≡ 0) ⊎ (rest < left)) }
        ensures err { IfErr result (λ fault. fault ≡ ScriptFault.Memory) }
    {
        let now = left.min(PIECE);
        for number in 0..now {
            self.add_fair(alloc, members, left - number, fair)?;
        }
        Ok(left - now)
    }

    /// Adds one of so many rounds, and gives the order of those behind it. Without members there is
    /// nothing to add.
    fn order_round(&mut self, count: u64, members: &[u8]) -> Result<Order, ScriptFault>
        ensures ok { IfOk result
            (λ rest. (size : Size) → after_step size members.now (order_step rest) self.new
            ≡ adds (times count (round members.now)) self.old) }
        ensures fewer { IfOk result (λ rest. (count ≡ 0) ⊎ (turns (order_step rest) < count)) }
        ensures err { IfErr result (λ fault. fault ≡ ScriptFault.Memory) }
    {
        if members.is_empty() {
            return Ok(Order::Random(0));
        }
        if count == 0 {
            return Ok(Order::Random(0));
        }
        self.add_round(members)?;
        Ok(Order::Rounds(count - 1))
    }

    /// Adds some of so many drawn events, and gives the order of those behind them.
    fn order_drawn(&mut self, alloc: Global, size: Size, count: u64) -> Result<Order, ScriptFault>
        ensures ok { IfOk result
            (λ rest. (correct : List ℕ) → after_step size correct (order_step rest) self.new
            ≡ draws size count self.old) }
        ensures fewer { IfOk result (λ rest. (count ≡ 0) ⊎ (turns (order_step rest) < count)) }
        ensures err { IfErr result (λ fault. fault ≡ ScriptFault.Memory) }
    {
        let now = count.min(PIECE);
        self.add_all_drawn(alloc, size, now)?;
        Ok(Order::Random(count - now))
    }

    /// Adds some of so many events of a fair network, and gives the order of those behind them.
    fn order_fair(
        &mut self,
        alloc: Global,
        members: &Members,
        left: u64,
        fair: Fair,
    ) -> Result<Order, ScriptFault>
        ensures ok { IfOk result
            (λ rest. (size : Size) (correct : List ℕ) → members.now ≡ cast_of size correct →
            after_step size correct (order_step rest) self.new
            ≡ fairs members.now left fair self.old) }
        ensures fewer { IfOk result (λ rest. (left ≡ 0) ⊎ (turns (order_step rest) < left)) }
        ensures err { IfErr result (λ fault. fault ≡ ScriptFault.Memory) }
    {
        let mut fair = fair;
        let rest = self.add_fairs(alloc, members, left, &mut fair)?;
        Ok(Order::Fair(rest, fair))
    }

    /// Adds the event.
    fn take_one(&mut self, event: Event) -> Result<Order, ScriptFault>
        ensures ok { IfOk result
            (λ rest. (size : Size) (correct : List ℕ) →
            after_step size correct (order_step rest) self.new ≡ add (act_of event) self.old) }
        ensures fewer { IfOk result (λ rest. turns (order_step rest) ≡ 0) }
        ensures err { IfErr result (λ fault. fault ≡ ScriptFault.Memory) }
    {
        self.add(event)?;
        Ok(Order::Random(0))
    }

    /// Adds the first events that the order stands for, and gives the order of those behind them:
    /// at most [`PIECE`] that are drawn, or one round.
    pub fn take_piece(
        &mut self,
        alloc: Global,
        size: Size,
        correct: &[u8],
        order: Order,
    ) -> Result<Order, ScriptFault>
        ensures ok { IfOk result
            (λ rest. after_step size correct.now (order_step rest) self.new
            ≡ after_step size correct.now (order_step order) self.old) }
        ensures fewer { IfOk result
            (λ rest. (turns (order_step order) ≡ 0)
            ⊎ (turns (order_step rest) < turns (order_step order))) }
        ensures err { IfErr result (λ fault. fault ≡ ScriptFault.Memory) }
    {
        match order {
            Order::Once(event) => self.take_one(event),
            Order::Rounds(count) => self.order_round(count, correct),
            Order::Random(count) => self.order_drawn(alloc, size, count),
            Order::Fair(left, fair) => {
                let members = Members::of(alloc, size, correct)?;
                self.order_fair(alloc, &members, left, fair)
            }
        }
    }

    /// Lets the events go. What is drawn next stays.
    pub fn clear(&mut self)
        ensures { self.new ≡ record { events = []; stream = self.old.stream } }
    {
        self.events.clear();
    }

    /// Moves the events behind those. What is drawn next stays.
    pub fn move_to(&mut self, events: &mut Vec<Event>) -> Result<(), ScriptFault>
        ensures events { OnOk result
            (map tossed_act events.new.items ≡ map tossed_act events.old.items ++ self.old.events) }
        ensures stays { OnOk result (self.new ≡ record { events = []; stream = self.old.stream }) }
        ensures memory { IfErr result (λ fault. fault ≡ ScriptFault.Memory) }
    {
        events.append(&mut self.events)?;
        Ok(())
    }

    /// The events.
    pub fn events(&self) -> &[Event]
        ensures { map tossed_act result.now ≡ self.now.events }
    {
        &self.events
    }
}

/// Makes room for an event more.
#[inline(always)]
fn make_room(events: &mut Vec<Event>) -> Result<(), AllocError>
    ensures same { events.new.items ≡ events.old.items }
    ensures room { OnOk result (vec_len events.new < vec_capacity events.new) }
{
    if events.len() < events.capacity() {
        return Ok(());
    }
    events.reserve(1)
}
