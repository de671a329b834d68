//! Statements and records as numbers, which take a quarter of their words.

ghost use Rattle.std.specs.Prelude.{◌≡◌, IfOk, string_bytes};
ghost use Rattle.std.specs.List.{flat_map};
ghost use Rattle.numerals.specs.Sentences.{bit_digit};
ghost use Rattle.playing.specs.Codes.{kind_digit, value_digit, statement_code, record_json, also_json, records_json};

use std::alloc::{AllocError, Global};
use terms::{Kind, Record, Statement, Value};

/// Returns the records as numbers, a comma between each two.
pub(crate) fn records_json(alloc: Global, records: &[Record]) -> Result<String, AllocError>
    ensures { IfOk result (λ text. string_bytes text ≡ records_json records.now) }
{
    match records.split_first() {
        None => Ok(String::new(alloc)),
        Some((first, others)) => {
            let first = record_json(alloc, first)?;
            format!(in alloc; "{first}{}", others_json(alloc, others)?)
        }
    }
}

/// Returns records after others.
fn others_json(alloc: Global, others: &[Record]) -> Result<String, AllocError>
    ensures { IfOk result (λ text. string_bytes text ≡ flat_map also_json others.now) }
{
    let mut text = String::new(alloc);
    for record in others {
        text.push_str(also_json(alloc, record)?.as_str())?;
    }
    Ok(text)
}

/// Returns a record after others.
fn also_json(alloc: Global, record: &Record) -> Result<String, AllocError>
    ensures { IfOk result (λ text. string_bytes text ≡ also_json «record».now) }
{
    format!(in alloc; ",{}", record_json(alloc, record)?)
}

/// Returns a record as a number: a statement's own, and below zero that of a decision.
fn record_json(alloc: Global, record: &Record) -> Result<String, AllocError>
    ensures { IfOk result (λ text. string_bytes text ≡ record_json «record».now) }
{
    match record {
        Record::Said(statement) => format!(in alloc; "{}", statement_code(*statement)),
        Record::Decided {
            question,
            round,
            bit,
        } => {
            let round = u64::from(*question) * 64 + u64::from(*round);
            format!(in alloc; "-{}", round * 2 + bit_digit(*bit))
        }
    }
}

/// Returns the number of a statement: its place, its kind and its value, each a digit of its own
/// base.
fn statement_code(statement: Statement) -> u64
    ensures { result ≡ statement_code statement }
{
    let place = statement.place();
    let origin = u64::from(place.question()) * 64 + u64::from(place.origin());
    let step = (origin * 64 + u64::from(place.round())) * 4 + u64::from(place.step());
    (step * 3 + kind_digit(statement.kind())) * 5 + value_digit(statement.value())
}

/// Returns the number of a kind, from 0 on.
fn kind_digit(kind: Kind) -> u64
    ensures { result ≡ kind_digit kind }
{
    match kind {
        Kind::Initial => 0,
        Kind::Echo => 1,
        Kind::Ready => 2,
    }
}

/// Returns the number of a value, from 0 on.
fn value_digit(value: Value) -> u64
    ensures { result ≡ value_digit value }
{
    match value {
        Value::Zero => 0,
        Value::One => 1,
        Value::SureZero => 2,
        Value::SureOne => 3,
        Value::Unsure => 4,
    }
}

/// Returns the number of a bit.
pub(crate) fn bit_digit(bit: bool) -> u64
    ensures { result ≡ bit_digit bit }
{
    if bit { 1 } else { 0 }
}
