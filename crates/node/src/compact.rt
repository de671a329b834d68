//! An entry of a history in fifteen bytes.
ghost use Rattle.std.specs.Prelude.{ℕ, ◌≡◌, ◌≢◌, List, [], ◌∷◌};
ghost use Rattle.terms_prelude.specs.Terms.{new_place};
ghost use Rattle.questions.specs.Replay.{Entry as Kept, link_part};
ghost use Rattle.questions.specs.Replay.Entry.{Heard, Proposed};
ghost use Rattle.node.specs.Compact.{packed, kind_in, value_in};
ghost use Rattle.node.specs.Entries.{noted};
ghost use Rattle.node.specs.Transcripts.{heard_on};

use crate::entry::Entry;
use rounds::Toss;
use statement_codec::{byte_of_kind, byte_of_value};
use std::marker::Model;
use terms::{Kind, Place, Statement, Value};

/// An entry, which takes just these fifteen bytes: a tag, the sender, the question with its greater
/// byte first, the origin, the round, the step, and the toss in eight bytes. The tag of a statement
/// is its kind, 1 to 3, and four times its value; that of a proposal is four times its bit.
#[derive(Drop)]
pub(crate) struct CompactEntry {
    bytes: [u8; 15],
}

impl Model for CompactEntry {
    ghost use Rattle.questions.specs.Replay.{Entry};
    ghost use Rattle.node.specs.Compact.{kept_in, IsKeptIn};

    ghost Value = { Entry };

    ghost view = { λ n. kept_in n.bytes };

    ghost invariant = { λ n. IsKeptIn n.bytes };
}

impl CompactEntry {
    /// The entry in its bytes.
    pub(crate) fn of(entry: Entry) -> CompactEntry
        ensures { result ≡ noted entry }
    {
        match entry {
            Entry::Heard {
                from,
                statement,
                toss,
            } => CompactEntry::of_heard(from, statement, toss),
            Entry::Proposed {
                question,
                bit,
                toss,
            } => CompactEntry::of_proposed(question, bit, toss),
        }
    }

    /// The bytes of a statement that was heard.
    fn of_heard(from: u8, statement: Statement, toss: Toss) -> CompactEntry
        ensures { result ≡ Heard from statement toss.0 }
    {
        statement.recall();
        let place = statement.place();
        let tag = byte_of_value(statement.value()) * 4 + byte_of_kind(statement.kind());
        let numbers = Numbers {
            question: place.question(),
            origin: place.origin(),
            round: place.round(),
            step: place.step(),
        };
        CompactEntry {
            bytes: packed(tag, from, numbers, toss),
        }
    }

    /// The bytes of a bit that was proposed.
    fn of_proposed(question: u16, bit: bool, toss: Toss) -> CompactEntry
        ensures { result ≡ Proposed question bit toss.0 }
    {
        let tag = if bit { 4 } else { 0 };
        let numbers = Numbers {
            question,
            origin: 0,
            round: 0,
            step: 0,
        };
        CompactEntry {
            bytes: packed(tag, 0, numbers, toss),
        }
    }

    /// Reads the entry's question, and nothing else of it.
    pub(crate) fn question(&self) -> u16
        ensures { (question : ℕ) → question ≢ result → heard_on question (self.now ∷ []) ≡ [] }
    {
        let [_, _, high, low, ..] = self.bytes;
        u16::from_be_bytes([high, low])
    }

    /// Reads who said the entry's statement, and nothing else of it; 0 of a proposal.
    pub(crate) fn sender(&self) -> u8
        ensures { (peer : ℕ) (more : List Kept) → peer ≢ result →
            link_part peer (self.now ∷ more) ≡ link_part peer more }
    {
        let [_, from, ..] = self.bytes;
        from
    }

    /// The entry of these bytes.
    pub(crate) fn entry(&self) -> Entry
        ensures { noted result ≡ self.now }
    {
        let [
            tag,
            from,
            high,
            low,
            origin,
            round,
            step,
            a,
            b,
            c,
            d,
            e,
            f,
            g,
            h,
        ] = self.bytes;
        let question = u16::from_be_bytes([high, low]);
        let toss = Toss(u64::from_be_bytes([a, b, c, d, e, f, g, h]));
        if tag % 4 == 0 {
            return Entry::Proposed {
                question,
                bit: tag == 4,
                toss,
            };
        }
        match Place::new(question, origin, round, step) {
            None => unreachable!(),
            Some(place) => match Statement::new(kind_in(tag), place, value_in(tag)) {
                None => unreachable!(),
                Some(statement) => Entry::Heard {
                    from,
                    statement,
                    toss,
                },
            },
        }
    }
}

/// The kind that a statement's tag has.
fn kind_in(tag: u8) -> Kind
    ensures { result ≡ kind_in tag }
{
    match tag % 4 {
        1 => Kind::Initial,
        2 => Kind::Echo,
        _ => Kind::Ready,
    }
}

/// The value that a statement's tag has.
fn value_in(tag: u8) -> Value
    ensures { result ≡ value_in tag }
{
    match tag / 4 {
        0 => Value::Zero,
        1 => Value::One,
        2 => Value::SureZero,
        3 => Value::SureOne,
        _ => Value::Unsure,
    }
}

/// The numbers of a place, or of a proposal, which has a question alone.
#[derive(Clone, Copy)]
struct Numbers {
    question: u16,
    origin: u8,
    round: u8,
    step: u8,
}

/// The bytes of an entry: its tag, the sender, the numbers of the place, and the toss.
fn packed(tag: u8, from: u8, numbers: Numbers, toss: Toss) -> [u8; 15]
    ensures { result ≡ packed tag from (new_place numbers.question numbers.origin numbers.round
        numbers.step) toss.0 }
{
    let Numbers {
        question,
        origin,
        round,
        step,
    } = numbers;
    let [high, low] = question.to_be_bytes();
    let [a, b, c, d, e, f, g, h] = toss.0.to_be_bytes();
    [
        tag, from, high, low, origin, round, step, a, b, c, d, e, f, g, h,
    ]
}
