//! The order of one line of events.

ghost use Rattle.std.specs.Prelude.{ℕ, ◌≡◌, IfOk, IfSome, MatchOption, Some};
ghost use Rattle.disk.specs.declared.Pick.{Pick};
ghost use Rattle.script.specs.LineWords.{ArePick, IsLong};
ghost use Rattle.script.specs.Steps.{ScriptStep, One, verb_name, SaysBehind, SaysStep};
ghost use Rattle.script.specs.declared.step.Verb.{Verb};
ghost use Rattle.script.specs.Orders.{order_step, texts};

use crate::draw::UNDRAWN;
use crate::fair::Fair;
use crate::values::{bit, fuse, group_size, which};
use disk::Pick;
use numerals::{byte, bytes, is, number, number8, number16};
use sim::Event;
use std::alloc::Global;
use terms::Memory;

/// The word that a line of events begins with.
#[derive(Clone, Copy, Debug, PartialEq, Eq)]
pub enum Verb {
    /// `propose M Q B`
    Propose,
    /// `deliver A B next`, `deliver A B I`
    Deliver,
    /// `group A B K`
    Group,
    /// `lie L M HEX`
    Lie,
    /// `fuse M K`, `fuse M off`
    Fuse,
    /// `crash M kept`, `crash M lost`, `crash M fill HH`
    Crash,
    /// `restart M`
    Restart,
    /// `reset A B`
    Reset,
    /// `rounds K`
    Rounds,
    /// `random K`
    Random,
    /// `fair K`
    Fair,
}

impl Verb {
    /// The verb of this name.
    fn parse(name: &[u8]) -> Option<Verb>
        ensures some { IfSome result (λ verb. name.now ≡ verb_name verb) }
        ensures exact { (verb : Verb) → name.now ≡ verb_name verb → result ≡ Some verb }
    {
        let Ok(name) = str::from_utf8(name) else {
            return None;
        };
        match name {
            "propose" => Some(Verb::Propose),
            "deliver" => Some(Verb::Deliver),
            "group" => Some(Verb::Group),
            "lie" => Some(Verb::Lie),
            "fuse" => Some(Verb::Fuse),
            "crash" => Some(Verb::Crash),
            "restart" => Some(Verb::Restart),
            "reset" => Some(Verb::Reset),
            "rounds" => Some(Verb::Rounds),
            "random" => Some(Verb::Random),
            "fair" => Some(Verb::Fair),
            _ => None,
        }
    }
}

/// The order of a line, before tosses are drawn and lines that stand for many events are unrolled.
#[derive(Drop)]
pub enum Order {
    /// One event, whose toss isn't drawn yet.
    Once(Event),
    /// So many times a delivery on each link between correct members.
    Rounds(u64),
    /// So many drawn events.
    Random(u64),
    /// So many events of a fair network that are left, and what it has kept of those before.
    Fair(u64, Fair),
}

impl Order {
    /// Returns what the words behind the verb say.
    fn behind(alloc: Global, verb: Verb, words: &[&[u8]]) -> Result<Option<Order>, Memory>
        ensures some { IfOk result
            (λ found. IfSome found (λ order. SaysBehind verb (texts words.now)
            (order_step order))) }
        ensures exact { (step : ScriptStep) → SaysBehind verb (texts words.now) step →
            IfOk result (λ found. MatchOption found ⊥ (λ order. order_step order ≡ step)) }
    {
        match verb {
            Verb::Propose => Ok(propose(words)),
            Verb::Deliver => Ok(deliver(words)),
            Verb::Group => Ok(group(words)),
            Verb::Lie => lie(alloc, words),
            Verb::Fuse => Ok(fuse_of(words)),
            Verb::Crash => crash(alloc, words),
            Verb::Restart => Ok(restart(words)),
            Verb::Reset => Ok(reset(words)),
            Verb::Rounds => match count(words) {
                Some(count) => Ok(Some(Order::Rounds(count))),
                None => Ok(None),
            },
            Verb::Random => match count(words) {
                Some(count) => Ok(Some(Order::Random(count))),
                None => Ok(None),
            },
            Verb::Fair => Ok(fair(alloc, words)),
        }
    }

    /// Returns what the words say, or none where they are no line of events.
    pub fn parse(alloc: Global, words: &[&[u8]]) -> Result<Option<Order>, Memory>
        ensures some { IfOk result
            (λ found. IfSome found (λ order. SaysStep (texts words.now) (order_step order))) }
        ensures exact { (step : ScriptStep) → SaysStep (texts words.now) step →
            IfOk result (λ found. MatchOption found ⊥ (λ order. order_step order ≡ step)) }
    {
        let [name, behind @ ..] = words else {
            return Ok(None);
        };
        match Verb::parse(name) {
            Some(verb) => Order::behind(alloc, verb, behind),
            None => Ok(None),
        }
    }
}

/// Returns what the words behind `propose` say.
fn propose(words: &[&[u8]]) -> Option<Order>
    ensures some { IfSome result
        (λ order. SaysBehind Verb.Propose (texts words.now) (order_step order)) }
    ensures exact { (step : ScriptStep) → SaysBehind Verb.Propose (texts words.now) step →
        MatchOption result ⊥ (λ order. order_step order ≡ step) }
{
    let [m, q, b] = words else {
        return None;
    };
    Some(Order::Once(Event::Propose {
        member: number8(m)?,
        question: number16(q)?,
        bit: bit(b)?,
        toss: UNDRAWN,
    }))
}

/// Returns what the words behind `deliver` say.
fn deliver(words: &[&[u8]]) -> Option<Order>
    ensures some { IfSome result
        (λ order. SaysBehind Verb.Deliver (texts words.now) (order_step order)) }
    ensures exact { (step : ScriptStep) → SaysBehind Verb.Deliver (texts words.now) step →
        MatchOption result ⊥ (λ order. order_step order ≡ step) }
{
    let [a, b, i] = words else {
        return None;
    };
    Some(Order::Once(Event::Deliver {
        from: number8(a)?,
        to: number8(b)?,
        which: which(i)?,
        toss: UNDRAWN,
    }))
}

/// Returns what the words behind `group` say.
fn group(words: &[&[u8]]) -> Option<Order>
    ensures some { IfSome result
        (λ order. SaysBehind Verb.Group (texts words.now) (order_step order)) }
    ensures exact { (step : ScriptStep) → SaysBehind Verb.Group (texts words.now) step →
        MatchOption result ⊥ (λ order. order_step order ≡ step) }
{
    let [a, b, k] = words else {
        return None;
    };
    Some(Order::Once(Event::DeliverAll {
        from: number8(a)?,
        to: number8(b)?,
        count: group_size(k)?,
        toss: UNDRAWN,
    }))
}

/// The number that stands behind `rounds` or `random`.
fn count(words: &[&[u8]]) -> Option<u64>
    ensures some { IfSome result (One IsLong (texts words.now)) }
    ensures exact { (count : ℕ) → One IsLong (texts words.now) count → result ≡ Some count }
{
    let [k] = words else {
        return None;
    };
    number(k)
}

/// Returns what the words behind `lie` say.
fn lie(alloc: Global, words: &[&[u8]]) -> Result<Option<Order>, Memory>
    ensures some { IfOk result
        (λ found. IfSome found (λ order. SaysBehind Verb.Lie (texts words.now)
        (order_step order))) }
    ensures exact { (step : ScriptStep) → SaysBehind Verb.Lie (texts words.now) step →
        IfOk result (λ found. MatchOption found ⊥ (λ order. order_step order ≡ step)) }
{
    let [l, m, hex] = words else {
        return Ok(None);
    };
    let (Some(liar), Some(to), Some(bytes)) = (number8(l), number8(m), bytes(alloc, hex)?) else {
        return Ok(None);
    };
    Ok(Some(Order::Once(Event::LieBytes {
        liar,
        to,
        bytes,
        toss: UNDRAWN,
    })))
}

/// Returns what the words behind `fuse` say.
fn fuse_of(words: &[&[u8]]) -> Option<Order>
    ensures some { IfSome result
        (λ order. SaysBehind Verb.Fuse (texts words.now) (order_step order)) }
    ensures exact { (step : ScriptStep) → SaysBehind Verb.Fuse (texts words.now) step →
        MatchOption result ⊥ (λ order. order_step order ≡ step) }
{
    let [m, k] = words else {
        return None;
    };
    Some(Order::Once(Event::Fuse {
        member: number8(m)?,
        calls: fuse(k)?,
    }))
}

/// Returns what the words behind `crash` say.
fn crash(alloc: Global, words: &[&[u8]]) -> Result<Option<Order>, Memory>
    ensures some { IfOk result
        (λ found. IfSome found (λ order. SaysBehind Verb.Crash (texts words.now)
        (order_step order))) }
    ensures exact { (step : ScriptStep) → SaysBehind Verb.Crash (texts words.now) step →
        IfOk result (λ found. MatchOption found ⊥ (λ order. order_step order ≡ step)) }
{
    let [m, behind @ ..] = words else {
        return Ok(None);
    };
    let Some(member) = number8(m) else {
        return Ok(None);
    };
    match pick(alloc, behind)? {
        Some(pick) => Ok(Some(Order::Once(Event::Crash { member, pick }))),
        None => Ok(None),
    }
}

/// Returns what the words behind the member of a crash say.
fn pick(alloc: Global, words: &[&[u8]]) -> Result<Option<Pick>, Memory>
    ensures some { IfOk result (λ found. IfSome found (ArePick (texts words.now))) }
    ensures exact { (pick : Pick) → ArePick (texts words.now) pick →
        IfOk result (λ found. MatchOption found ⊥ (λ found. found ≡ pick)) }
{
    match words {
        [word] if is(word, "kept") => Ok(Some(Pick::Kept)),
        [word] if is(word, "lost") => Ok(Some(Pick::Lost)),
        [word, digits] if is(word, "fill") => match byte(alloc, digits)? {
            Some(byte) => Ok(Some(Pick::Fill(byte))),
            None => Ok(None),
        },
        _ => Ok(None),
    }
}

/// Returns what the words behind `restart` say.
fn restart(words: &[&[u8]]) -> Option<Order>
    ensures some { IfSome result
        (λ order. SaysBehind Verb.Restart (texts words.now) (order_step order)) }
    ensures exact { (step : ScriptStep) → SaysBehind Verb.Restart (texts words.now) step →
        MatchOption result ⊥ (λ order. order_step order ≡ step) }
{
    let [m] = words else {
        return None;
    };
    Some(Order::Once(Event::Restart {
        member: number8(m)?,
    }))
}

/// Returns what the words behind `reset` say.
fn reset(words: &[&[u8]]) -> Option<Order>
    ensures some { IfSome result
        (λ order. SaysBehind Verb.Reset (texts words.now) (order_step order)) }
    ensures exact { (step : ScriptStep) → SaysBehind Verb.Reset (texts words.now) step →
        MatchOption result ⊥ (λ order. order_step order ≡ step) }
{
    let [a, b] = words else {
        return None;
    };
    Some(Order::Once(Event::Reset {
        from: number8(a)?,
        to: number8(b)?,
    }))
}

/// Reads the words behind `fair`.
fn fair(alloc: Global, words: &[&[u8]]) -> Option<Order>
    ensures some { IfSome result
        (λ order. SaysBehind Verb.Fair (texts words.now) (order_step order)) }
    ensures exact { (step : ScriptStep) → SaysBehind Verb.Fair (texts words.now) step →
        MatchOption result ⊥ (λ order. order_step order ≡ step) }
{
    let [k] = words else {
        return None;
    };
    Some(Order::Fair(number(k)?, Fair::new(alloc)))
}
