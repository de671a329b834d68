//! Frames and the rules: values in memory, with no disk.
ghost use Rattle.std.specs.Prelude.{◌≡◌, IfSome};
ghost use Rattle.terms_prelude.specs.Terms.{new_place};
ghost use Rattle.rbc.specs.Readers.{broadcasts_size};

use crate::ending::Ending;
use crate::subject::Subject;
use questions::{Answer, Core, CoreFault};
use rbc::{Broadcasts, Heard};
use rounds::{Question, Toss};
use std::alloc::Global;
use terms::{Memory, Place, Record, Size, Statement, Value};
use validate::Steps;
use wire::{Fed, Feeder, Message, encode};

/// An Idle frame, and behind it that of the subject's Initial.
const FRAMES: [u8; 13] = [0, 1, 0, 0, 8, 3, 1, 0, 0, 0, 1, 1, 1];

/// The frame of the subject's Initial, and behind it that of the same twice in one frame.
const THREE: [u8; 28] = [
    0, 8, 3, 1, 0, 0, 0, 1, 1, 1, 0, 16, 4, 2, 1, 0, 0, 0, 1, 1, 1, 1, 0, 0, 0, 1, 1, 1,
];

/// A frame is appended to another.
pub(crate) fn encodes(alloc: Global, of: &Subject) -> Ending {
    let mut out = Vec::new(alloc);
    if encode(&Message::Idle, &mut out).is_err() {
        return Ending::Before;
    }
    let message = Message::Statement(of.initial);
    let ending = match encode(&message, &mut out) {
        Ok(()) => Ending::Ample,
        Err(Memory) if out.as_slice() != &FRAMES[..3] => return Ending::Wrong("output changed"),
        Err(Memory) => match encode(&message, &mut out) {
            Ok(()) => Ending::Refused,
            Err(Memory) => return Ending::Wrong("refused again"),
        },
    };
    ending.if_so(out.as_slice() == FRAMES.as_slice(), "other bytes")
}

/// A feeder that holds four bytes of a frame gets its rest, nine frames more and a part of another.
pub(crate) fn feeds(alloc: Global, of: &Subject) -> Ending {
    let mut piece = [0u8; 145];
    for (at, byte) in piece.iter_mut().enumerate() {
        *byte = THREE[(at + 4) % 28];
    }
    let mut feeder = Feeder::new(of.header.size());
    let mut out: Vec<Message> = Vec::new(alloc);
    if feeder.feed(&THREE[..4], &mut out).is_err() || out.push(Message::Idle).is_err() {
        return Ending::Before;
    }
    let ending = match feeder.feed(&piece, &mut out) {
        Ok(Fed::More) => Ending::Ample,
        Ok(Fed::Broken(_)) => return Ending::Wrong("broken"),
        Err(Memory) if out.len() != 1 => return Ending::Wrong("output changed"),
        Err(Memory) => match feeder.feed(&piece, &mut out) {
            Ok(Fed::More) => Ending::Refused,
            _ => return Ending::Wrong("another answer again"),
        },
    };
    ending.if_so(are_fifteen(&out, of.initial), "other messages")
}

/// Returns `true` if these are an Idle and then five times that statement alone and twice in one
/// frame.
fn are_fifteen(out: &[Message], statement: Statement) -> bool {
    out.len() == 11
        && out.iter().enumerate().skip(1).all(|(at, it)| match it {
            Message::Statement(said) => at % 2 == 1 && *said == statement,
            Message::Statements(said) => at % 2 == 0
                && said.as_slice() == [statement; 2].as_slice(),
            _ => false,
        })
}

/// News at a place that nobody spoke of, where another place has its Readys.
pub(crate) fn broadcasts_hear(alloc: Global, of: &Subject) -> Ending {
    let mut heard = Broadcasts::new(alloc, of.header.size(), 1);
    if !three_say(&mut heard, of) {
        return Ending::Before;
    }
    let ending = match heard.hear(2, &of.far) {
        Ok(Heard::News) => Ending::Ample,
        Ok(_) => return Ending::Wrong("no news"),
        Err(Memory) => match heard.hear(2, &of.far) {
            Ok(Heard::News) => Ending::Refused,
            _ => return Ending::Wrong("another answer again"),
        },
    };
    let is_first = heard.accepted(of.ready.place()) == Some(Value::One);
    let is_second = heard.hear(3, &of.far) == Ok(Heard::News)
        && heard.due(of.far.place()).ready == Some(Value::One);
    ending.if_so(is_first && is_second, "something else is known")
}

/// An own Echo at a place that nobody spoke of.
pub(crate) fn broadcasts_say(alloc: Global, of: &Subject) -> Ending {
    let mut heard = Broadcasts::new(alloc, of.header.size(), 1);
    if !three_say(&mut heard, of) {
        return Ending::Before;
    }
    let ending = match heard.say(&of.far_echo) {
        Ok(()) => Ending::Ample,
        Err(Memory) => match heard.say(&of.far_echo) {
            Ok(()) => Ending::Refused,
            Err(Memory) => return Ending::Wrong("refused again"),
        },
    };
    // Two Readys are a help set: the Echo isn't due, since it was said, and the Ready is.
    let is_heard = heard.hear(2, &of.far) == Ok(Heard::News)
        && heard.hear(3, &of.far) == Ok(Heard::News);
    let due = heard.due(of.far.place());
    let is_so = is_heard && due.echo.is_none() && due.ready == Some(Value::One);
    ending.if_so(
        is_so && heard.accepted(of.ready.place()) == Some(Value::One),
        "something else is known",
    )
}

/// Members 0, 2 and 3 say their Ready; false where memory is refused.
fn three_say(heard: &mut Broadcasts, of: &Subject) -> bool
    requires { (broadcasts_size heard.old).n ≡ 4 }
    ensures { broadcasts_size heard.new ≡ broadcasts_size heard.old }
{
    let first = heard.hear(0, &of.ready).is_ok();
    let second = heard.hear(2, &of.ready).is_ok();
    let third = heard.hear(3, &of.ready).is_ok();
    first && second && third
}

/// The first accepted value of a late step, where an early one has a value.
pub(crate) fn steps_accept(alloc: Global, of: &Subject) -> Ending {
    let (Some(early), Some(late)) = (place(1, 1), place(32, 1)) else {
        return Ending::Wrong("no such place");
    };
    let mut steps = Steps::new(alloc, of.header.size(), 0);
    if steps.accept(early, Value::One).is_err() {
        return Ending::Before;
    }
    let ending = match steps.accept(late, Value::One) {
        Ok(()) => Ending::Ample,
        Err(Memory) => match steps.accept(late, Value::One) {
            Ok(()) => Ending::Refused,
            Err(Memory) => return Ending::Wrong("refused again"),
        },
    };
    let is_so = steps.valid(early) == Some(Value::One)
        && steps.valid(late).is_none()
        && steps.tally(1, 1).one == 1;
    ending.if_so(is_so, "something else is valid")
}

/// The first accepted value of a question, by which and two more it is then decided.
pub(crate) fn question_accepts(alloc: Global) -> Ending {
    let Ok(size) = Size::new(1, 0, 1) else {
        return Ending::Wrong("no such size");
    };
    let (Some(first), Some(second), Some(third)) = (place(1, 1), place(1, 2), place(1, 3)) else {
        return Ending::Wrong("no such place");
    };
    let mut question = Question::new(alloc, size, 0, 0);
    let ending = match question.accept(first, Value::One) {
        Ok(()) => Ending::Ample,
        Err(Memory) => match question.accept(first, Value::One) {
            Ok(()) => Ending::Refused,
            Err(Memory) => return Ending::Wrong("refused again"),
        },
    };
    let is_early = question.decision_due().is_none();
    let is_taken = question.accept(second, Value::One).is_ok()
        && question.accept(third, Value::SureOne).is_ok();
    let is_decided = question.decision_due() == Some((1, true));
    ending.if_so(
        is_early && is_taken && is_decided,
        "not decided, or too early",
    )
}

/// The place of origin 0 in that round and step.
fn place(round: u8, step: u8) -> Option<Place>
    ensures { IfSome result (λ p. p ≡ new_place 0 0 round step) }
{
    Place::new(0, 0, round, step)
}

/// A core hears an Initial.
pub(crate) fn core_hears(alloc: Global, of: &Subject) -> Ending {
    let Ok(mut core) = Core::new(alloc, of.header.size(), 1, &[]) else {
        return Ending::Before;
    };
    match core.hear(0, &of.initial, Toss(5)) {
        Ok(Answer::Taken(records)) => Ending::Ample.if_so(
            are_just(&records, of.echo),
            "other records",
        ),
        Err(CoreFault::Memory) => Ending::Refused.if_so(is_failed(&mut core, of), "not failed"),
        _ => Ending::Wrong("another answer"),
    }
}

/// A core is proposed to.
pub(crate) fn core_proposes(alloc: Global, of: &Subject) -> Ending {
    let Ok(mut core) = Core::new(alloc, of.header.size(), 1, &[]) else {
        return Ending::Before;
    };
    match core.propose(0, true, Toss(5)) {
        Ok(Answer::Taken(records)) => Ending::Ample.if_so(
            are_just(&records, of.own),
            "other records",
        ),
        Err(CoreFault::Memory) => Ending::Refused.if_so(is_failed(&mut core, of), "not failed"),
        _ => Ending::Wrong("another answer"),
    }
}

/// Returns `true` if these are just that statement.
fn are_just(records: &[Record], statement: Statement) -> bool {
    records == [Record::Said(statement)].as_slice()
}

/// Returns `true` if the core is failed: it refuses to hear and to be proposed to, and has no
/// verdict.
fn is_failed(core: &mut Core, of: &Subject) -> bool {
    let hears = matches!(core.hear(0, &of.initial, Toss(6)), Err(CoreFault::Failed));
    let proposes = matches!(core.propose(0, true, Toss(7)), Err(CoreFault::Failed));
    hears && proposes && core.verdict(0).is_none()
}
