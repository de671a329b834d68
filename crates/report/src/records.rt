//! Records in words.

ghost use Rattle.std.specs.Prelude.{◌≡◌, IfOk, string_bytes};
ghost use Rattle.report.specs.Records.{kind_word, value_word, statement_text, record_text};

use std::alloc::{AllocError, Global};
use terms::{Kind, Record, Statement, Value};

/// The word of a kind.
pub fn kind_word(kind: Kind) -> &'static str
    ensures { result.now ≡ kind_word kind }
{
    match kind {
        Kind::Initial => "initial",
        Kind::Echo => "echo",
        Kind::Ready => "ready",
    }
}

/// The words of a statement: its kind, question, origin, round, step and value.
pub fn statement_text(alloc: Global, statement: Statement) -> Result<String, AllocError>
    ensures { IfOk result (λ text. string_bytes text ≡ statement_text statement) }
{
    let place = statement.place();
    format!(in alloc;
        "{} {} {} {} {} {}",
        kind_word(statement.kind()),
        place.question(),
        place.origin(),
        place.round(),
        place.step(),
        value_word(statement.value())
    )
}

/// The word of a value.
fn value_word(value: Value) -> &'static str
    ensures { result.now ≡ value_word value }
{
    match value {
        Value::Zero => "zero",
        Value::One => "one",
        Value::SureZero => "sure-zero",
        Value::SureOne => "sure-one",
        Value::Unsure => "unsure",
    }
}

/// The words of a record: those of a statement, or `decided`, the question, the round and the bit.
pub fn record_text(alloc: Global, record: &Record) -> Result<String, AllocError>
    ensures { IfOk result (λ text. string_bytes text ≡ record_text «record».now) }
{
    match record {
        Record::Said(statement) => statement_text(alloc, *statement),
        Record::Decided {
            question,
            round,
            bit,
        } => format!(in alloc; "decided {} {} {}", *question, *round, u8::from(*bit)),
    }
}
