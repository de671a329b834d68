//! The seven bytes of a statement, as frames and journals of version 1 have them, and the bytes of
//! kinds and values.
#![tactic(auto)]

ghost use Rattle.std.specs.Prelude.{◌≡◌, ◌≢◌, MatchOption};
ghost use Rattle.terms_prelude.specs.Terms.{Kind, Value, value_code};
ghost use Rattle.statement_codec.specs.Statements.{kind_byte, statement_bytes};

use terms::{Kind, Statement, Value};

/// The byte of a kind, 1 to 3.
pub fn byte_of_kind(kind: Kind) -> u8
    ensures { result ≡ kind_byte kind }
{
    match kind {
        Kind::Initial => 1,
        Kind::Echo => 2,
        Kind::Ready => 3,
    }
}

/// The byte of a value, 0 to 4.
pub fn byte_of_value(value: Value) -> u8
    ensures { result ≡ value_code value }
{
    match value {
        Value::Zero => 0,
        Value::One => 1,
        Value::SureZero => 2,
        Value::SureOne => 3,
        Value::Unsure => 4,
    }
}

/// The kind of a byte, or none where the byte is no kind's.
pub fn kind_of(byte: u8) -> Option<Kind>
    ensures { MatchOption result ((kind : Kind) → kind_byte kind ≢ byte)
        (λ kind. kind_byte kind ≡ byte) }
{
    match byte {
        1 => Some(Kind::Initial),
        2 => Some(Kind::Echo),
        3 => Some(Kind::Ready),
        _ => None,
    }
}

/// The value of a byte, or none where the byte is no value's.
pub fn value_of(byte: u8) -> Option<Value>
    ensures { MatchOption result ((value : Value) → value_code value ≢ byte)
        (λ value. value_code value ≡ byte) }
{
    match byte {
        0 => Some(Value::Zero),
        1 => Some(Value::One),
        2 => Some(Value::SureZero),
        3 => Some(Value::SureOne),
        4 => Some(Value::Unsure),
        _ => None,
    }
}

/// The bytes of a statement: its kind, its question in two bytes with the greater one first, its
/// origin, round and step, and its value.
pub fn statement_bytes(statement: &Statement) -> [u8; 7]
    ensures { result ≡ statement_bytes statement.now }
{
    let place = statement.place();
    let [high, low] = place.question().to_be_bytes();
    [
        byte_of_kind(statement.kind()),
        high,
        low,
        place.origin(),
        place.round(),
        place.step(),
        byte_of_value(statement.value()),
    ]
}
