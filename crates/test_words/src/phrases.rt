//! Words of rows, and what they stand for.

use disk::{Disk, MemDisk, Pick};
use journal::JournalFault;
use questions::Answer;
use rounds::Toss;
use std::alloc::Global;
use terms::{Header, Kind, Memory, Record, Size, Statement, Value};
use wire::{Feeder, Message, encode};

/// The words of a text, between its spaces.
pub fn words_of<'a>(alloc: Global, text: &'a str) -> Option<Vec<&'a str>> {
    text.split(' ').collect(alloc).ok()
}

/// The size of these numbers, where there is one.
pub fn size_of(n: &str, t: &str, questions: &str) -> Option<Size> {
    Size::new(n.parse().ok()?, t.parse().ok()?, questions.parse().ok()?).ok()
}

/// The header of the cluster 7, of that size and member.
pub fn header_of(n: &str, t: &str, questions: &str, me: &str) -> Option<Header> {
    Header::new(7, size_of(n, t, questions)?, me.parse().ok()?)
}

/// The cluster, the size and the member of a header.
pub fn header_text(alloc: Global, header: &Header) -> Option<String> {
    let (cluster, size, me) = (header.cluster(), header.size(), header.me());
    format!(in alloc;
        "{cluster} {} {} {} {me}",
        size.n(),
        size.t(),
        size.questions()
    )
    .ok()
}

/// The pick of these words.
pub fn pick_of(words: &[&str]) -> Option<Pick> {
    match words {
        ["kept"] => Some(Pick::Kept),
        ["lost"] => Some(Pick::Lost),
        ["fill", byte] => Some(Pick::Fill(byte.parse().ok()?)),
        _ => None,
    }
}

/// The bytes of hexadecimal digits.
pub fn bytes_of(alloc: Global, digits: &str) -> Option<Vec<u8>> {
    hex::decode(alloc, digits.as_bytes()).ok()
}

/// The kind of that name.
pub fn kind_of(name: &str) -> Option<Kind> {
    match name {
        "Initial" => Some(Kind::Initial),
        "Echo" => Some(Kind::Echo),
        "Ready" => Some(Kind::Ready),
        _ => None,
    }
}

/// The value of that name.
pub fn value_of(name: &str) -> Option<Value> {
    match name {
        "Zero" => Some(Value::Zero),
        "One" => Some(Value::One),
        "SureZero" => Some(Value::SureZero),
        "SureOne" => Some(Value::SureOne),
        "Unsure" => Some(Value::Unsure),
        _ => None,
    }
}

/// The toss of sixteen hexadecimal digits.
pub fn toss_of(alloc: Global, digits: &str) -> Option<Toss> {
    let bytes = bytes_of(alloc, digits)?;
    match bytes.as_slice() {
        [a, b, c, d, e, f, g, h] => Some(Toss(u64::from_be_bytes([
            *a, *b, *c, *d, *e, *f, *g, *h,
        ]))),
        _ => None,
    }
}

/// The statement of a frame, for a cluster of that size.
pub fn statement_of(alloc: Global, size: Size, digits: &str) -> Option<Statement> {
    let bytes = bytes_of(alloc, digits)?;
    let mut messages = Vec::new(alloc);
    let _fed = Feeder::new(size).feed(&bytes, &mut messages).ok()?;
    match messages.as_slice() {
        [Message::Statement(statement)] => Some(*statement),
        _ => None,
    }
}

/// The record of digits as [`records_text`] writes them.
pub fn record_of(alloc: Global, digits: &str) -> Option<Record> {
    let bytes = bytes_of(alloc, digits)?;
    match bytes.as_slice() {
        [4, high, low, 0, round, 0, bit] => Some(Record::Decided {
            question: u16::from_be_bytes([*high, *low]),
            round: *round,
            bit: *bit == 1,
        }),
        _ => {
            let frame = format!(in alloc; "000803{digits}").ok()?;
            let any = Size::new(64, 0, 4096).ok()?;
            Some(Record::Said(statement_of(alloc, any, frame.as_str())?))
        }
    }
}

/// A word, and behind it the records.
pub fn records_text(alloc: Global, word: &str, records: &[Record]) -> Result<String, Memory> {
    let mut text = word.to_string(alloc)?;
    for record in records {
        if text.len() > 0 {
            text.push_str(" ")?;
        }
        text.push_str(record_text(alloc, record)?.as_str())?;
    }
    Ok(text)
}

/// The digits of a record: of a statement those that a frame has, of a decision 04, the question,
/// 00, the round, 00 and the bit.
fn record_text(alloc: Global, record: &Record) -> Result<String, Memory> {
    match *record {
        Record::Said(statement) => {
            let mut bytes = Vec::new(alloc);
            encode(&Message::Statement(statement), &mut bytes)?;
            let (_, seven) = bytes.as_slice().split_at(bytes.len().min(3));
            Ok(hex::encode(alloc, seven)?)
        }
        Record::Decided {
            question,
            round,
            bit,
        } => Ok(format!(in alloc; "04{question:04x}00{round:02x}00{:02x}", u8::from(bit))?),
    }
}

/// Returns what is said of an answer.
pub fn answer_text(alloc: Global, answer: &Answer) -> Result<String, Memory> {
    match answer {
        Answer::Taken(records) => records_text(alloc, "taken", records.as_slice()),
        Answer::Repeat => records_text(alloc, "repeat", &[]),
        Answer::Foreign => records_text(alloc, "foreign", &[]),
        Answer::Have(bit) => Ok(format!(in alloc; "have {}", u8::from(*bit))?),
    }
}

/// The fault of a journal.
pub fn journal_fault(name: &str) -> Option<JournalFault> {
    match name {
        "NotEmpty" => Some(JournalFault::NotEmpty),
        "BadHeader" => Some(JournalFault::BadHeader),
        "OtherHeader" => Some(JournalFault::OtherHeader),
        "OldVersion" => Some(JournalFault::OldVersion),
        "BadRecord" => Some(JournalFault::BadRecord),
        "CutShort" => Some(JournalFault::CutShort),
        "Device" => Some(JournalFault::Device),
        "Memory" => Some(JournalFault::Memory),
        "Stopped" => Some(JournalFault::Stopped),
        "Full" => Some(JournalFault::Full),
        _ => None,
    }
}

/// A disk that has these bytes.
pub fn disk_of(alloc: Global, bytes: &[u8]) -> Result<MemDisk, JournalFault> {
    let mut disk = MemDisk::new(alloc);
    disk.write_at(0, bytes)?;
    disk.sync()?;
    Ok(disk)
}
