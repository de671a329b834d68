//! Questions that are played in an order, the adversary's rule, how questions end, and the judge of
//! traces.
//!
//! `play N T LIARS ORDER SEED` answers how the question ends: `decided R`, `open`, or the fault.
//! `order N T STEP RECEIVER VALUES` answers the origins in the order in which the adversary brings
//! them; VALUES has a sign for each member: `0`, `1`, `z` (sure of 0), `o` (sure of 1), `u`
//! (unsure), `-` (nothing said). `lie N T STEP VALUES` answers the sign of a liar's value. `end
//! VERDICT ..` answers how a question ends of these decisions, each `ROUND:BIT` or `-`. `table END
//! ..` answers the lines of a table, with `|` between them, each END a round or `-`.
//!
//! `judge LEAST LINES` judges a trace of these lines, with `|` between them, and answers the count
//! of decisions and what was found, or `fine`.

ghost use Rattle.std.specs.Prelude.{◌≤◌, IfSome};

use crate::lists::add;
use chances::{End, Order, Setting, end_of, play, strategy, table_text};
use std::alloc::Global;
use terms::{Size, Value};
use test_words::words_of;
use trials::{Judgement, judge};

/// Plays a row.
pub fn told(alloc: Global, action: &str) -> Option<String> {
    let (what, rest) = action.split_once(' ').unwrap_or((action, ""));
    match what {
        "judge" => judged(alloc, rest),
        what => asked(alloc, what, rest),
    }
}

/// The judgement of a trace.
fn judged(alloc: Global, rest: &str) -> Option<String> {
    let (least, lines) = rest.split_once(' ').unwrap_or((rest, ""));
    let least = least.parse().ok()?;
    let trace = lines.replace(alloc, '|', "\n").ok()?;
    match judge(alloc, trace.as_bytes(), least) {
        Ok(judgement) => judgement_text(alloc, &judgement),
        Err(_) => None,
    }
}

/// The count of decisions, and what was found.
fn judgement_text(alloc: Global, judgement: &Judgement) -> Option<String> {
    let decisions = judgement.decisions;
    match &judgement.finding {
        Some(finding) => format!(in alloc; "{decisions} {finding}").ok(),
        None => format!(in alloc; "{decisions} fine").ok(),
    }
}

/// Plays a row of words.
fn asked(alloc: Global, what: &str, rest: &str) -> Option<String> {
    let words = words_of(alloc, rest)?;
    of_words(alloc, what, &words)
}

/// Plays a row of these words.
fn of_words(alloc: Global, what: &str, words: &[&str]) -> Option<String> {
    match what {
        "play" => played(alloc, words),
        "order" => ordered(alloc, words),
        "lie" => lied(alloc, words),
        "end" => ended(alloc, words),
        "table" => tabled(alloc, words),
        _ => None,
    }
}

/// Plays a question.
fn played(alloc: Global, words: &[&str]) -> Option<String> {
    let [n, t, liars, order, seed] = words else {
        return None;
    };
    let setting = Setting {
        size: size_of(n, t)?,
        liars: liars.parse().ok()?,
        order: order_of(order)?,
    };
    let seed = seed.parse().ok()?;
    match play(alloc, &setting, seed) {
        Ok(end) => end_text(alloc, end),
        Err(fault) => format!(in alloc; "{fault}").ok(),
    }
}

/// The order of that name.
fn order_of(name: &str) -> Option<Order> {
    match name {
        "random" => Some(Order::Random),
        "adversary" => Some(Order::Adversary),
        "links" => Some(Order::Links),
        _ => None,
    }
}

/// The adversary's order.
fn ordered(alloc: Global, words: &[&str]) -> Option<String> {
    let [n, t, step, receiver, signs] = words else {
        return None;
    };
    let size = size_of(n, t)?;
    let step = step_of(step)?;
    let receiver = receiver.parse().ok()?;
    let values = values_of(alloc, signs)?;
    let order = receiver_order(alloc, size, step, &values, receiver)?;
    origins_text(alloc, &order)
}

/// The adversary's order for this receiver, of values of at most 64 members.
fn receiver_order(
    alloc: Global,
    size: Size,
    step: u8,
    values: &[Option<Value>],
    receiver: u8,
) -> Option<Vec<u8>> {
    if values.len() > 64 {
        return None;
    }
    strategy::order(alloc, size, step, values, receiver).ok()
}

/// The origins of an order.
fn origins_text(alloc: Global, order: &[u8]) -> Option<String> {
    let mut text = String::new(alloc);
    for origin in order {
        let item = format!(in alloc; "{origin}").ok()?;
        add(&mut text, " ", item.as_str())?;
    }
    Some(text)
}

/// A liar's value.
fn lied(alloc: Global, words: &[&str]) -> Option<String> {
    let [n, t, step, signs] = words else {
        return None;
    };
    let size = size_of(n, t)?;
    let step = step_of(step)?;
    let values = values_of(alloc, signs)?;
    let value = strategy::lie(size, step, &values);
    format!(in alloc; "{}", sign_of(value)).ok()
}

/// The values of these signs, at most 64.
fn values_of(alloc: Global, signs: &str) -> Option<Vec<Option<Value>>> {
    let mut values = Vec::new(alloc);
    for sign in signs.as_bytes() {
        values.push(value_of(*sign)).ok()?;
    }
    values.truncate(64);
    Some(values)
}

/// The value of a sign.
fn value_of(sign: u8) -> Option<Value> {
    match sign {
        b'0' => Some(Value::Zero),
        b'1' => Some(Value::One),
        b'z' => Some(Value::SureZero),
        b'o' => Some(Value::SureOne),
        b'u' => Some(Value::Unsure),
        _ => None,
    }
}

/// The size of these words.
fn size_of(n: &str, t: &str) -> Option<Size> {
    Size::new(n.parse().ok()?, t.parse().ok()?, 1).ok()
}

/// The step of a word, 1 to 3.
fn step_of(word: &str) -> Option<u8>
    ensures { IfSome result (λ step. (1 ≤ step) × (step ≤ 3)) }
{
    match word {
        "1" => Some(1),
        "2" => Some(2),
        "3" => Some(3),
        _ => None,
    }
}

/// The sign of a value.
fn sign_of(value: Value) -> char {
    match value {
        Value::Zero => '0',
        Value::One => '1',
        Value::SureZero => 'z',
        Value::SureOne => 'o',
        Value::Unsure => 'u',
    }
}

/// The end of a question.
fn ended(alloc: Global, words: &[&str]) -> Option<String> {
    let mut verdicts = Vec::new(alloc);
    for word in words {
        verdicts.push(verdict_of(word)?).ok()?;
    }
    end_text(alloc, end_of(&verdicts))
}

/// The decision of a word, or none.
fn verdict_of(word: &str) -> Option<Option<(u8, bool)>> {
    if word == "-" {
        return Some(None);
    }
    let (round, bit) = word.split_once(':')?;
    Some(Some((round.parse().ok()?, bit == "1")))
}

/// The text of an end.
fn end_text(alloc: Global, end: End) -> Option<String> {
    match end {
        End::Decided(round) => format!(in alloc; "decided {round}").ok(),
        End::Open => format!(in alloc; "open").ok(),
        End::TwoAnswers => format!(in alloc; "two answers").ok(),
    }
}

/// The table of these ends.
fn tabled(alloc: Global, words: &[&str]) -> Option<String> {
    let mut ends = Vec::new(alloc);
    for word in words {
        ends.push(end_named(word)?).ok()?;
    }
    match table_text(alloc, &ends) {
        Ok(text) => flat(alloc, text.as_str()),
        Err(_) => None,
    }
}

/// The end of a word.
fn end_named(word: &str) -> Option<End> {
    match word {
        "-" => Some(End::Open),
        round => Some(End::Decided(round.parse().ok()?)),
    }
}

/// The text with `|` in place of the end of a line.
fn flat(alloc: Global, text: &str) -> Option<String> {
    text.trim_end().replace(alloc, '\n', "|").ok()
}
