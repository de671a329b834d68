//! A journal as bytes, for who has a disk of his own: the words are those of the crate `journal`.

ghost use Rattle.std.specs.Prelude.{◌≡◌, ◌⊎◌, ◌≤◌, ◌∷◌, ◌++◌, [], length, IfErr, IfOk, IsErrOf};
ghost use Rattle.terms_prelude.specs.Terms.{Statement};
ghost use Rattle.journal.specs.Texts.{header_text, record_bytes, said_bytes};
ghost use Rattle.journal.specs.WellFormed.{IsHeader};
ghost use Rattle.journal.specs.Faults.{IsOfFile};
ghost use Rattle.journal.specs.File.{RefusesFile};
ghost use Rattle.journal.specs.declared.fault.JournalFault.TheVariants.{Memory};
ghost use Rattle.engine.specs.Texts.{records_bytes};
ghost use Rattle.engine.specs.Batches.{shut_batch, IsShutBatchOf, IsNoBatch, IsReadOf};

use crate::fault::EngineFault;
use crate::records;
use journal::{JournalFault, read_file};
use statement_codec::{byte_of_kind, byte_of_value};
use std::alloc::{AllocError, Global};
use terms::{Header, Record, Statement};

/// The first byte of a decision.
const DECIDED: u8 = 4;

/// The most records of a batch.
const MOST_RECORDS: usize = 65_535;

/// The file of a journal that has no records: the header, and the closed gate behind which the
/// first batch is added, at byte 24.
#[tactic(auto, unfolding(journal::specs::Texts::header_text))]
pub fn batch_head(header: &Header) -> [u8; 25]
    ensures lawful { IsHeader header.now }
    ensures text { result ≡ header_text header.now ++ 0 ∷ [] }
{
    let size = header.size();
    size.recall();
    let [c0, c1, c2, c3, c4, c5, c6, c7] = header.cluster().to_be_bytes();
    let [high, low] = size.questions().to_be_bytes();
    let (n, t, me) = (size.n(), size.t(), header.me());
    [
        b'B', b'R', b'A', b'C', b'H', b'A', b'J', b'2', c0, c1, c2, c3, c4, c5, c6, c7, n, t, high,
        low, me, 0, 0, 0, 0,
    ]
}

/// The first write of an append of 1 to 65,535 records, seven bytes each: the batch behind a closed
/// gate, with another closed gate behind it. It is written over the closed gate at the journal's
/// end, and synced; then the one byte 1 is written over its first, and synced.
///
/// [`EngineFault::BadRecords`]: the bytes are no list of 1 to 65,535 records.
/// [`EngineFault::Memory`]: there was none.
pub fn encode_batch(alloc: Global, bytes: &[u8]) -> Result<Vec<u8>, EngineFault>
    ensures batch { IfOk result (λ batch. IsShutBatchOf bytes.now batch.items) }
    ensures bad { IsErrOf result EngineFault.BadRecords → IsNoBatch bytes.now }
    ensures only { IfErr result
        (λ fault. (fault ≡ EngineFault.BadRecords) ⊎ (fault ≡ EngineFault.Memory)) }
{
    let records = match records::records_of(alloc, bytes) {
        Ok(records) => records,
        Err(fault) => return Err(fault),
    };
    let records = records.as_slice();
    if records.is_empty() {
        return Err(EngineFault::BadRecords);
    }
    if records.len() > MOST_RECORDS {
        return Err(EngineFault::BadRecords);
    }
    match shut(alloc, records) {
        Ok(batch) => Ok(batch),
        Err(_) => Err(EngineFault::Memory),
    }
}

/// The bytes of a batch behind a closed gate, and the closed gate behind it.
fn shut(alloc: Global, records: &[Record]) -> Result<Vec<u8>, AllocError>
    requires few { length records.now ≤ 65535 }
    ensures { IfOk result (λ batch. batch.items ≡ shut_batch records.now) }
{
    let [high, low] = (records.len() as u16).to_be_bytes();
    let mut batch = Vec::new(alloc);
    batch.extend_from_slice(&[0, high, low])?;
    for noted in records {
        batch.extend_from_slice(&journal_record(noted))?;
    }
    batch.push(0)?;
    Ok(batch)
}

/// The six bytes of a record in a journal.
#[tactic(auto, unfolding(journal::specs::Texts::record_bytes))]
fn journal_record(noted: &Record) -> [u8; 6]
    ensures { result ≡ record_bytes noted.now }
{
    match *noted {
        Record::Said(s) => journal_statement(s),
        Record::Decided {
            question,
            round,
            bit,
        } => {
            let [high, low] = question.to_be_bytes();
            [DECIDED, high, low, 0, round, u8::from(bit)]
        }
    }
}

/// The six bytes of a statement in a journal: its step and its value share the last one.
fn journal_statement(s: Statement) -> [u8; 6]
    ensures { result ≡ said_bytes s }
{
    s.recall();
    let place = s.place();
    let [high, low] = place.question().to_be_bytes();
    let last = 16 * place.step() + byte_of_value(s.value());
    [
        byte_of_kind(s.kind()),
        high,
        low,
        place.origin(),
        place.round(),
        last,
    ]
}

/// The content of a journal's file: the records, seven bytes each, oldest first, and the place of
/// the closed gate where the next batch is added.
#[derive(Drop)]
pub struct JournalRead {
    /// The bytes of the records.
    pub records: Vec<u8>,
    /// The place of the closed gate, counted from 0.
    pub gate: usize,
}

/// Reads a journal's file.
///
/// `BadHeader`, `OldVersion`, `OtherHeader`, `CutShort` or `BadRecord`: the first thing that is
/// wrong with the file. `Memory`: there was none.
pub fn read_batches(
    alloc: Global,
    header: &Header,
    file: &[u8],
) -> Result<JournalRead, JournalFault>
    ensures read { IfOk result (λ read. IsReadOf header.now file.now read.gate read.records.items) }
    ensures refused { IfErr result
        (λ fault. IsOfFile fault → RefusesFile header.now fault file.now) }
    ensures only { IfErr result (λ fault. IsOfFile fault ⊎ (fault ≡ Memory)) }
{
    let (gate, held) = match read_file(alloc, header, file) {
        Ok(read) => read,
        Err(fault) => return Err(fault),
    };
    match spell(alloc, held.as_slice()) {
        Ok(records) => Ok(JournalRead { records, gate }),
        Err(_) => Err(JournalFault::Memory),
    }
}

/// The bytes of the records, seven each.
fn spell(alloc: Global, records: &[Record]) -> Result<Vec<u8>, AllocError>
    ensures { IfOk result (λ bytes. bytes.items ≡ records_bytes records.now) }
{
    let mut bytes = Vec::new(alloc);
    for noted in records {
        bytes.extend_from_slice(&records::record_bytes(noted))?;
    }
    Ok(bytes)
}
