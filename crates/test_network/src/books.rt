//! What a book answers, call by call: rows of sessions that need no stream.
//!
//! `hear PEER FRAME TOSS` hands a statement in, and `all PEER FRAME TOSS FRAME TOSS ..` a group:
//! they answer what the member does, and behind it the number with which the peer goes on. `tell
//! NUMBER TOSS` has the member hear what it said by that number. `propose QUESTION BIT TOSS`
//! answers. `verdict QUESTION` is what the book has, and `ask QUESTION` what the board says to one
//! who asks for the first time, each a bit or `none`. `state QUESTION` is how it stands there:
//! `unproposed`, `open ROUND STEP`, `spent`, `decided BIT`, or `none`. `pull FROM MOST` are the
//! statements from a number on, each behind its number.
ghost use Rattle.std.specs.Prelude.{◌≤◌, length};

use crate::texts::{add, bit_text, sealed_text};
use disk::MemDisk;
use member::{MemberFault, Sealed};
use node::{Board, Hub, Naming, QuestionState, Rack};
use questions::Answer;
use rounds::Toss;
use std::alloc::Global;
use std::sync::Wait;
use terms::{Size, Statement};
use test_words::{answer_text, statement_of, toss_of};

/// Plays a row, and returns what is answered: none if it says nothing of a book.
pub fn told<J: Naming, R: Wait>(
    rt: &R,
    alloc: Global,
    (hub, rack): (&Hub<MemDisk, J>, &Rack<J>),
    words: &[&str],
) -> Option<String> {
    let (word, rest) = words.split_first()?;
    match *word {
        "hear" => hear(rt, alloc, (hub, rack), rest),
        "all" => hear_all(rt, alloc, (hub, rack), rest),
        "tell" => tell(rt, alloc, (hub, rack), rest),
        "propose" => propose(rt, alloc, hub, rest),
        "verdict" => verdict(rt, alloc, hub, rest),
        "state" => state(rt, alloc, hub, rest),
        "ask" => ask(alloc, hub.board(), rest),
        "pull" => pull(rt, alloc, hub, rest),
        _ => None,
    }
}

/// Hands a statement in.
fn hear<J: Naming, R: Wait>(
    rt: &R,
    alloc: Global,
    at: (&Hub<MemDisk, J>, &Rack<J>),
    words: &[&str],
) -> Option<String> {
    let [peer, event @ ..] = words else {
        return None;
    };
    hand_in(rt, alloc, at, peer.parse().ok()?, event_of(alloc, event)?)
}

/// Hands a group in.
fn hear_all<J: Naming, R: Wait>(
    rt: &R,
    alloc: Global,
    at: (&Hub<MemDisk, J>, &Rack<J>),
    words: &[&str],
) -> Option<String> {
    let [peer, group @ ..] = words else {
        return None;
    };
    let peer = peer.parse().ok()?;
    let group = group_of(alloc, group)?;
    hand_in_all(rt, alloc, at, peer, &group)
}

/// Returns the statements and tosses of a group.
fn group_of(alloc: Global, words: &[&str]) -> Option<Vec<(Statement, Toss)>> {
    let mut group = Vec::new(alloc);
    for pair in words.chunks(2) {
        group.push(event_of(alloc, pair)?).ok()?;
    }
    Some(group)
}

/// Returns the statement of a frame, of any size, and a toss.
fn event_of(alloc: Global, words: &[&str]) -> Option<(Statement, Toss)> {
    let [frame, toss] = words else {
        return None;
    };
    let any = Size::new(64, 0, 4096).ok()?;
    Some((statement_of(alloc, any, frame)?, toss_of(alloc, toss)?))
}

/// Hands a group in from a peer whose seat is put back.
fn hand_in_all<J: Naming, R: Wait>(
    rt: &R,
    alloc: Global,
    (hub, rack): (&Hub<MemDisk, J>, &Rack<J>),
    peer: u8,
    group: &[(Statement, Toss)],
) -> Option<String> {
    if group.len() > 256 {
        return None;
    }
    let mut seat = rack.take(rt, peer)?;
    let answers = hub.lock(rt).apply_all(&mut seat, group);
    let next = seat.next();
    rack.put(rt, seat);
    told_next(alloc, told_of_all(alloc, answers)?, next)
}

/// Returns what is said of the answers to a group, or of the fault.
fn told_of_all(alloc: Global, answers: Result<Vec<Answer>, MemberFault>) -> Option<String> {
    match answers {
        Ok(answers) => answers_text(alloc, &answers),
        Err(fault) => format!(in alloc; "{fault}").ok(),
    }
}

/// Returns what is said of each answer.
fn answers_text(alloc: Global, answers: &[Answer]) -> Option<String> {
    let mut text = String::new(alloc);
    for answer in answers {
        let told = answer_text(alloc, answer).ok()?;
        add(&mut text, ", ", told.as_str())?;
    }
    Some(text)
}

/// Hands in what the member said by a number.
fn tell<J: Naming, R: Wait>(
    rt: &R,
    alloc: Global,
    (hub, rack): (&Hub<MemDisk, J>, &Rack<J>),
    words: &[&str],
) -> Option<String> {
    let [number, toss] = words else {
        return None;
    };
    let said = said_at(rt, hub, number.parse().ok()?)?;
    let event = (said, toss_of(alloc, toss)?);
    hand_in(rt, alloc, (hub, rack), hub.header().me(), event)
}

/// Hands a statement in from a peer whose seat is put back.
fn hand_in<J: Naming, R: Wait>(
    rt: &R,
    alloc: Global,
    (hub, rack): (&Hub<MemDisk, J>, &Rack<J>),
    peer: u8,
    (said, toss): (Statement, Toss),
) -> Option<String> {
    let mut seat = rack.take(rt, peer)?;
    let answer = hub.lock(rt).apply(&mut seat, &said, toss);
    let next = seat.next();
    rack.put(rt, seat);
    told_next(alloc, told_of(alloc, answer)?, next)
}

/// Returns what was told, and behind it the number with which the peer goes on.
fn told_next(alloc: Global, told: String, next: u64) -> Option<String> {
    let space = if told.is_empty() { "" } else { " " };
    format!(in alloc; "{told}{space}next {next}").ok()
}

/// Proposes a bit.
fn propose<J: Naming, R: Wait>(
    rt: &R,
    alloc: Global,
    hub: &Hub<MemDisk, J>,
    words: &[&str],
) -> Option<String> {
    let [question, bit, toss] = words else {
        return None;
    };
    let (question, toss) = (question.parse().ok()?, toss_of(alloc, toss)?);
    let answer = hub.lock(rt).propose(question, *bit == "1", toss);
    told_of(alloc, answer)
}

/// Returns what is said of an answer, or of the fault.
fn told_of(alloc: Global, answer: Result<Answer, MemberFault>) -> Option<String> {
    match answer {
        Ok(answer) => answer_text(alloc, &answer).ok(),
        Err(fault) => format!(in alloc; "{fault}").ok(),
    }
}

/// Returns what the book has of a question.
fn verdict<J: Naming, R: Wait>(
    rt: &R,
    alloc: Global,
    hub: &Hub<MemDisk, J>,
    words: &[&str],
) -> Option<String> {
    let question = question_of(words)?;
    let verdict = hub.lock(rt).verdict(question);
    bit_text(alloc, verdict)
}

/// Returns what the board says to one who asks for the first time.
fn ask(alloc: Global, board: &Board, words: &[&str]) -> Option<String> {
    let question = question_of(words)?;
    let mut pass = board.pass().ok()?;
    bit_text(alloc, board.ask(&mut pass, question))
}

/// Returns the statements from a number on.
fn pull<J: Naming, R: Wait>(
    rt: &R,
    alloc: Global,
    hub: &Hub<MemDisk, J>,
    words: &[&str],
) -> Option<String> {
    let [from, most] = words else {
        return None;
    };
    let (from, most) = (from.parse().ok()?, most.parse().ok()?);
    let Ok(pulled) = hub.lock(rt).pull(from, most) else {
        return None;
    };
    pulled_text(alloc, &pulled)
}

/// Returns the statements, each behind its number.
fn pulled_text(alloc: Global, pulled: &[Sealed]) -> Option<String> {
    let mut text = String::new(alloc);
    for sealed in pulled {
        let item = sealed_text(alloc, sealed)?;
        add(&mut text, " ", item.as_str())?;
    }
    Some(text)
}

/// Returns the statement that the member said by that number.
pub fn said_at<J: Naming, R: Wait>(
    rt: &R,
    hub: &Hub<MemDisk, J>,
    number: u64,
) -> Option<Statement> {
    let Ok(pulled) = hub.lock(rt).pull(number, 1) else {
        return None;
    };
    match pulled.as_slice() {
        [sealed] => Some(sealed.statement()),
        _ => None,
    }
}

/// Returns the question of a row that says nothing else.
fn question_of(words: &[&str]) -> Option<u16> {
    match words {
        [question] => question.parse().ok(),
        _ => None,
    }
}

/// Returns how a question stands.
fn state<J: Naming, R: Wait>(
    rt: &R,
    alloc: Global,
    hub: &Hub<MemDisk, J>,
    words: &[&str],
) -> Option<String> {
    state_text(alloc, hub.state(rt, question_of(words)?))
}

/// Says how a question stands.
fn state_text(alloc: Global, state: Option<QuestionState>) -> Option<String> {
    match state {
        Some(QuestionState::Unproposed) => format!(in alloc; "unproposed").ok(),
        Some(QuestionState::Open { round, step }) => format!(in alloc; "open {round} {step}").ok(),
        Some(QuestionState::Spent) => format!(in alloc; "spent").ok(),
        Some(QuestionState::Decided(bit)) => format!(in alloc; "decided {}", u8::from(bit)).ok(),
        None => format!(in alloc; "none").ok(),
    }
}
