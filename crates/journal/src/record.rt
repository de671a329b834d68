//! A record in bytes.
ghost use Rattle.std.specs.Prelude.{◌≡◌, ◌≢◌, ◌↔◌, Bool, IsTrue, IfSome, IsNone, MatchOption};
ghost use Rattle.terms_prelude.specs.Terms.{Statement, Record, Said, Decided};
ghost use Rattle.journal.specs.Texts.{bit_byte, said_bytes, record_bytes};
ghost use Rattle.journal.specs.WellFormed.{IsStatementFor, IsDecisionFor, IsWellFormedFor};
ghost use Rattle.journal.specs.Reading.{HasBytes};

use statement_codec::{byte_of_kind, byte_of_value, kind_of, value_of};
use terms::{Header, Kind, LAST_ROUND, Place, Record, Statement};

/// The number of bytes of a record.
pub(crate) const RECORD: usize = 6;

/// The first byte of a decision.
const DECIDED: u8 = 4;

/// The record of these bytes, if they are one that is well formed for the header.
pub fn record_of(header: &Header, bytes: &[u8; 6]) -> Option<Record>
    ensures some { IfSome result
        (λ r. IsWellFormedFor header.now r × (bytes.now ≡ record_bytes r)) }
    ensures none { IsNone result → (r : Record) → IsWellFormedFor header.now r →
        bytes.now ≢ record_bytes r }
{
    header.size().recall();
    let [kind, high, low, origin, round, last] = *bytes;
    let question = u16::from_be_bytes([high, low]);
    if kind != DECIDED {
        let numbers = Numbers {
            question,
            origin,
            round,
            step: last / 16,
        };
        return said_of(header, kind, numbers, last % 16);
    }
    if origin != 0 {
        return None;
    }
    decided_of(header, question, round, last)
}

/// The statement of these numbers.
fn said_of(header: &Header, kind: u8, numbers: Numbers, value: u8) -> Option<Record>
    ensures some { IfSome result (λ r. (s : Statement) × (r ≡ Said s) × IsStatementFor header.now s
        × HasBytes s kind numbers.question numbers.origin numbers.round numbers.step value) }
    ensures none { IsNone result → (s : Statement) → IsStatementFor header.now s →
        HasBytes s kind numbers.question numbers.origin numbers.round numbers.step value → ⊥ }
{
    let Some(kind) = kind_of(kind) else {
        return None;
    };
    let Some(value) = value_of(value) else {
        return None;
    };
    let Numbers {
        question,
        origin,
        round,
        step,
    } = numbers;
    let Some(place) = Place::new(question, origin, round, step) else {
        return None;
    };
    match Statement::new(kind, place, value) {
        Some(s) if is_statement_for(header, s) => Some(Record::Said(s)),
        _ => None,
    }
}

/// The numbers of a place.
#[derive(Clone, Copy)]
struct Numbers {
    question: u16,
    origin: u8,
    round: u8,
    step: u8,
}

/// Returns `true` if the statement is one of the cluster, and an Initial is the member's own.
fn is_statement_for(header: &Header, s: Statement) -> bool
    ensures { IsTrue result ↔ IsStatementFor header.now s }
{
    let (size, place) = (header.size(), s.place());
    place.question() < size.questions()
        && place.origin() < size.n()
        && (s.kind() != Kind::Initial || place.origin() == header.me())
}

/// The decision of these numbers.
fn decided_of(header: &Header, question: u16, round: u8, bit: u8) -> Option<Record>
    ensures some { IfSome result
        (λ r. (b : Bool) × (r ≡ Decided question round b) × IsDecisionFor header.now question round
        × (bit ≡ bit_byte b)) }
    ensures none { IsNone result → IsDecisionFor header.now question round → (b : Bool) →
        bit ≢ bit_byte b }
{
    let in_cluster = question < header.size().questions();
    if in_cluster && 1 <= round && round <= LAST_ROUND && bit <= 1 {
        Some(Record::Decided {
            question,
            round,
            bit: bit == 1,
        })
    } else {
        None
    }
}

/// The bytes of a record.
#[tactic(auto, unfolding(crate::specs::Texts::record_bytes))]
pub(crate) fn record_bytes(entry: &Record) -> [u8; 6]
    ensures { result ≡ record_bytes entry.now }
{
    match *entry {
        Record::Said(s) => said_bytes(s),
        Record::Decided {
            question,
            round,
            bit,
        } => {
            let [high, low] = question.to_be_bytes();
            [DECIDED, high, low, 0, round, u8::from(bit)]
        }
    }
}

/// The bytes of a statement: its step and its value share the last one.
fn said_bytes(s: Statement) -> [u8; 6]
    ensures { result ≡ said_bytes s }
{
    s.recall();
    let place = s.place();
    let [high, low] = place.question().to_be_bytes();
    let last = 16 * place.step() + byte_of_value(s.value());
    [
        byte_of_kind(s.kind()),
        high,
        low,
        place.origin(),
        place.round(),
        last,
    ]
}
