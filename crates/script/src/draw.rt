//! Words of ChaCha20, and the events that are drawn from them.

ghost use Rattle.std.specs.Prelude.{◌≡◌, ◌<◌, ◌≤◌, IfOk};
ghost use Rattle.rand_chacha.specs.ChaCha.{ChaCha};
ghost use Rattle.terms_prelude.specs.Terms.{FitsStep, IsPlain, IsOfThird};
ghost use Rattle.script.specs.Acts.{act_of, tossed_act};
ghost use Rattle.script.specs.Drawing as drawing;

use disk::Pick;
use rand_chacha::ChaCha20Rng;
use rand_core::SeedableRng;
use rand_core::utils::{self, NextWord};
use rounds::Toss;
use sim::{Event, Which};
use std::alloc::Global;
use std::marker::Model;
use terms::{Kind, Memory, Place, Size, Statement, Value};
use wire::{Message, encode};

/// The number of statements of an outbox that a drawn delivery may name, the first ones.
const NUMBERS: u32 = 64;

/// The number of drawn crashes that differ: fill with one of 256 bytes, keep all, or lose all.
const PICKS: u32 = 258;

/// The toss of an event whose toss isn't drawn yet.
pub const UNDRAWN: Toss = Toss(0);

/// The numbers drawn from a seed: stream 0 of ChaCha20, whose key is the seed in eight bytes, the
/// greatest first, and 24 zeros.
#[derive(Drop)]
pub struct Draw {
    rng: ChaCha20Rng,
}

impl Model for Draw {
    ghost Value = { ChaCha };

    ghost view = { λ d. d.rng };
}

impl Draw {
    /// Returns the numbers from the first word on.
    #[tactic(auto, unfolding(crate::specs::Drawing::stream_of_seed))]
    pub fn from_seed(seed: u64) -> Draw
        ensures { result ≡ drawing.stream_of_seed seed }
    {
        let s = seed.to_be_bytes();
        let key = [
            s[0], s[1], s[2], s[3], s[4], s[5], s[6], s[7], 0, 0, 0, 0, 0, 0, 0, 0, 0, 0, 0, 0, 0,
            0, 0, 0, 0, 0, 0, 0, 0, 0, 0, 0,
        ];
        Draw {
            rng: ChaCha20Rng::from_seed(key),
        }
    }

    /// The toss of two words, the first the low half.
    #[tactic(auto, unfolding(crate::specs::Drawing::toss))]
    pub fn toss(&mut self) -> Toss
        ensures { (result.0, self.new) ≡ drawing.toss self.old }
    {
        Toss(utils::next_u64_via_u32(&mut self.rng))
    }

    /// A word modulo this number.
    #[tactic(auto, unfolding(crate::specs::Drawing::below))]
    pub fn below(&mut self, bound: u32) -> u32
        requires { 0 < bound }
        ensures value { (result, self.new) ≡ drawing.below bound self.old }
        ensures within { result < bound }
    {
        self.rng.next_word() % bound
    }

    /// A place among so many: a word modulo their number.
    #[tactic(auto, unfolding(crate::specs::Drawing::below))]
    pub fn place(&mut self, count: usize) -> usize
        requires { 0 < count }
        ensures value { (result, self.new) ≡ drawing.below count self.old }
        ensures within { result < count }
    {
        self.rng.next_word() as usize % count
    }

    /// Returns what a crash leaves.
    pub fn pick(&mut self) -> Pick
        ensures { (result, self.new) ≡ drawing.pick self.old }
    {
        match self.below(PICKS) {
            256 => Pick::Kept,
            257 => Pick::Lost,
            byte => Pick::Fill(byte as u8),
        }
    }

    /// A fuse of 0 to 6 calls, or none.
    pub fn calls(&mut self) -> Option<u64>
        ensures { (result, self.new) ≡ drawing.calls self.old }
    {
        match self.below(8) {
            7 => None,
            calls => Some(u64::from(calls)),
        }
    }

    /// A proposal to this member.
    pub fn propose_to(&mut self, size: Size, member: u8) -> Event
        ensures { (act_of result, self.new) ≡ drawing.propose_to size member self.old }
    {
        let question = self.question(size);
        let bit = self.below(2) == 1;
        Event::Propose {
            member,
            question,
            bit,
            toss: UNDRAWN,
        }
    }

    /// A statement of this liar to this member, as a frame.
    pub fn lie_of(&mut self, alloc: Global, size: Size, liar: u8, to: u8) -> Result<Event, Memory>
        ensures { IfOk result
            (λ event. (act_of event, self.new) ≡ drawing.lie_of size liar to self.old) }
    {
        let statement = self.statement(size);
        let mut bytes = Vec::new(alloc);
        encode(&Message::Statement(statement), &mut bytes)?;
        Ok(Event::LieBytes {
            liar,
            to,
            bytes,
            toss: UNDRAWN,
        })
    }

    /// A statement of the first three rounds.
    fn statement(&mut self, size: Size) -> Statement
        ensures { (result, self.new) ≡ drawing.statement size self.old }
    {
        let kind = self.kind();
        let question = self.question(size);
        let origin = self.member(size);
        let round = 1 + self.below(3) as u8;
        let step = 1 + self.below(3) as u8;
        let value = self.value(step);
        let place = Place::new(question, origin, round, step).unwrap();
        Statement::new(kind, place, value).unwrap()
    }

    /// A kind of statement.
    fn kind(&mut self) -> Kind
        ensures { (result, self.new) ≡ drawing.kind self.old }
    {
        match self.below(3) {
            0 => Kind::Initial,
            1 => Kind::Echo,
            _ => Kind::Ready,
        }
    }

    /// A question.
    fn question(&mut self, size: Size) -> u16
        ensures { (result, self.new) ≡ drawing.question size self.old }
    {
        self.below(u32::from(size.questions())) as u16
    }

    /// A value of the step, which fits it.
    fn value(&mut self, step: u8) -> Value
        requires { (1 ≤ step) × (step ≤ 3) }
        ensures value { (result, self.new) ≡ drawing.value step self.old }
        ensures fits { FitsStep step result }
    {
        if step == 3 {
            self.sure_value()
        } else {
            self.plain_value()
        }
    }

    /// A value of the third step.
    fn sure_value(&mut self) -> Value
        ensures value { (result, self.new) ≡ drawing.sure_value self.old }
        ensures fits { IsOfThird result }
    {
        match self.below(3) {
            0 => Value::SureZero,
            1 => Value::SureOne,
            _ => Value::Unsure,
        }
    }

    /// A value of the first two steps.
    fn plain_value(&mut self) -> Value
        ensures value { (result, self.new) ≡ drawing.plain_value self.old }
        ensures fits { IsPlain result }
    {
        match self.below(2) {
            0 => Value::Zero,
            _ => Value::One,
        }
    }

    /// An event of a cluster of this size.
    #[inline(always)]
    pub fn event(&mut self, alloc: Global, size: Size) -> Result<Event, Memory>
        ensures { IfOk result (λ event. (act_of event, self.new) ≡ drawing.drawn size self.old) }
    {
        let kind = self.below(16);
        self.of_kind(alloc, size, kind)
    }

    /// An event of this kind, 0 to 15, of a cluster of this size.
    #[inline(always)]
    #[tactic(auto, unfolding(crate::specs::Drawing::act_of_kind))]
    fn of_kind(&mut self, alloc: Global, size: Size, kind: u32) -> Result<Event, Memory>
        ensures { IfOk result
            (λ event. (act_of event, self.new) ≡ drawing.act_of_kind size kind self.old) }
    {
        Ok(match kind {
            9 => self.deliver_at(size),
            10 => self.reset(size),
            11 => self.lie(alloc, size)?,
            12 => self.crash(size),
            13 => self.restart(size),
            14 => self.fuse(size),
            15 => self.propose(size),
            _ => self.deliver_next(size),
        })
    }

    /// A delivery of a statement by its number.
    fn deliver_at(&mut self, size: Size) -> Event
        ensures { (act_of result, self.new) ≡ drawing.deliver_at size self.old }
    {
        let from = self.member(size);
        let to = self.member(size);
        let which = Which::At(u64::from(self.below(NUMBERS)));
        Event::Deliver {
            from,
            to,
            which,
            toss: UNDRAWN,
        }
    }

    /// A link that starts anew.
    fn reset(&mut self, size: Size) -> Event
        ensures { (act_of result, self.new) ≡ drawing.reset size self.old }
    {
        let from = self.member(size);
        let to = self.member(size);
        Event::Reset { from, to }
    }

    /// A statement of a liar, as a frame.
    fn lie(&mut self, alloc: Global, size: Size) -> Result<Event, Memory>
        ensures { IfOk result (λ event. (act_of event, self.new) ≡ drawing.lie size self.old) }
    {
        let liar = self.member(size);
        let to = self.member(size);
        self.lie_of(alloc, size, liar, to)
    }

    /// A crash.
    fn crash(&mut self, size: Size) -> Event
        ensures { (act_of result, self.new) ≡ drawing.crash size self.old }
    {
        let member = self.member(size);
        let pick = self.pick();
        Event::Crash { member, pick }
    }

    /// A restart.
    fn restart(&mut self, size: Size) -> Event
        ensures { (act_of result, self.new) ≡ drawing.restart size self.old }
    {
        let member = self.member(size);
        Event::Restart { member }
    }

    /// A fuse.
    fn fuse(&mut self, size: Size) -> Event
        ensures { (act_of result, self.new) ≡ drawing.fuse size self.old }
    {
        let member = self.member(size);
        let calls = self.calls();
        Event::Fuse { member, calls }
    }

    /// A proposal.
    fn propose(&mut self, size: Size) -> Event
        ensures { (act_of result, self.new) ≡ drawing.propose size self.old }
    {
        let member = self.member(size);
        self.propose_to(size, member)
    }

    /// A delivery of the link's next statement.
    fn deliver_next(&mut self, size: Size) -> Event
        ensures { (act_of result, self.new) ≡ drawing.deliver_next size self.old }
    {
        let from = self.member(size);
        let to = self.member(size);
        let which = Which::Next;
        Event::Deliver {
            from,
            to,
            which,
            toss: UNDRAWN,
        }
    }

    /// A member, or an origin.
    fn member(&mut self, size: Size) -> u8
        ensures { (result, self.new) ≡ drawing.member size self.old }
    {
        self.below(u32::from(size.n())) as u8
    }

    /// Draws the event's toss, where it takes one.
    #[inline(always)]
    pub fn toss_into(&mut self, event: &mut Event)
        ensures { (tossed_act event.new, self.new) ≡ drawing.tossed (act_of event.old) self.old }
    {
        match event {
            Event::Propose { toss, .. } => *toss = self.toss(),
            Event::Deliver { toss, .. } => *toss = self.toss(),
            Event::DeliverAll { toss, .. } => *toss = self.toss(),
            Event::LieBytes { toss, .. } => *toss = self.toss(),
            _ => {}
        }
    }
}
