//! Reading a journal's file a batch at a time, in the memory of its bytes and of one batch: begin
//! at `Batches::read`.
ghost use Rattle.std.specs.Prelude.{◌≡◌, ◌⊎◌, ◌<◌, ◌∷◌, ◌++◌, true, false, ℕ, List, [], drop, IfOk, IfErr, OnOk};
ghost use Rattle.terms_prelude.specs.Terms.{Record, Header};
ghost use Rattle.journal.specs.declared.fault.JournalFault.TheVariants.{Memory};
ghost use Rattle.journal.specs.Faults.{IsOfFile};
ghost use Rattle.journal.specs.File.{Holds, RefusesFile};
ghost use Rattle.journal.specs.Reading.{BreaksBatches, TakesBatches};
ghost use Rattle.journal.specs.Outcomes.{WasRead, HandsBack};
ghost use Rattle.journal.specs.Left.{HasLeft, bytes_left};

use crate::JournalFault;
use crate::header::HEADER;
use crate::layout::Version2;
use crate::open::{behind_header, fetch};
use crate::read::read_batch;
use disk::Disk;
use std::alloc::Global;
use terms::{Header, Record};

/// The records of a journal's file, a batch at a time. It keeps the file's bytes, and no record.
#[derive(Drop)]
pub struct Batches {
    header: Header,
    bytes: Vec<u8>,
    /// The place at which the next batch begins, or the closed gate after the last.
    at: usize,
}

impl Batches {
    /// Reads a journal's file, by three calls of the device: `sync`, `len` and one read of all
    /// bytes. All of it is looked at before the first batch is given, so a file that holds no
    /// journal gives none.
    ///
    /// No byte of the file was changed after a fault:
    /// - `BadHeader`, `OldVersion`, `OtherHeader`, `CutShort` or `BadRecord`: the first thing that
    ///   is wrong with the file.
    /// - `Memory`: there was none for the bytes or for one batch.
    /// - `Device`: the disk failed.
    pub fn read<D: Disk>(
        alloc: Global,
        disk: &mut D,
        header: &Header,
    ) -> Result<Batches, JournalFault>
        ensures left { IfOk result (λ batches. (records : List Record) × HasLeft batches records
            × (D.keeps disk.new → Holds header.now records (D.state disk.old).seen)) }
        ensures read { OnOk result (WasRead D.Disk disk.old disk.new) }
        ensures fault { IfErr result
            (λ fault. HandsBack D.Disk disk.old header.now fault disk.new) }
    {
        let bytes = fetch(alloc, disk)?;
        check_file(alloc, header, &bytes)?;
        Ok(Batches {
            header: *header,
            bytes,
            at: HEADER,
        })
    }

    /// Puts the records of the next batch in place of those of the list, and tells whether there
    /// was one.
    ///
    /// `Memory`: there was none for the records. No other fault comes, since the file was looked
    /// at.
    #[tactic(auto, unfolding(crate::specs::Left::bytes_left))]
    pub fn next(&mut self, records: &mut Vec<Record>) -> Result<bool, JournalFault>
        ensures some { (left : List Record) → HasLeft self.old left →
            IfOk result (λ more. more ≡ true → (later : List Record)
            × (left ≡ records.new.items ++ later) × HasLeft self.new later) }
        ensures none { (left : List Record) → HasLeft self.old left →
            IfOk result (λ more. more ≡ false → left ≡ []) }
        ensures fault { (left : List Record) → HasLeft self.old left →
            IfErr result (λ fault. fault ≡ Memory) }
        ensures shorter { IfOk result
            (λ more. more ≡ true → bytes_left self.new < bytes_left self.old) }
    {
        records.clear();
        match read_batch::<Version2>(&self.header, rest_from(&self.bytes, self.at), records)? {
            Some(behind) => {
                self.at = self.bytes.len() - behind.len();
                Ok(true)
            }
            None => Ok(false),
        }
    }
}

/// Looks at a whole file.
fn check_file(alloc: Global, header: &Header, bytes: &[u8]) -> Result<(), JournalFault>
    ensures whole { OnOk result
        ((records : List Record) × (rest : List ℕ) × Holds header.now records bytes.now
        × TakesBatches header.now (drop 24 bytes.now) records (0 ∷ rest)) }
    ensures refused { IfErr result
        (λ fault. IsOfFile fault → RefusesFile header.now fault bytes.now) }
    ensures only { IfErr result (λ fault. IsOfFile fault ⊎ (fault ≡ Memory)) }
{
    let behind = behind_header(header, bytes)?;
    check(alloc, header, behind)?;
    Ok(())
}

/// Looks at all batches behind a header.
fn check(alloc: Global, header: &Header, bytes: &[u8]) -> Result<(), JournalFault>
    ensures whole { OnOk result
        ((records : List Record) × (rest : List ℕ)
        × TakesBatches header.now bytes.now records (0 ∷ rest)) }
    ensures refused { IfErr result (λ fault. BreaksBatches header.now fault bytes.now) }
{
    let mut records = Vec::new(alloc);
    let mut rest = bytes;
    'batches: loop {
        records.clear();
        match read_batch::<Version2>(header, rest, &mut records)? {
            Some(behind) => rest = behind,
            None => return Ok(()),
        }
    }
}

/// The bytes from that place on.
fn rest_from(bytes: &[u8], at: usize) -> &[u8]
    ensures { result.now ≡ drop at bytes.now }
{
    if at <= bytes.len() { &bytes[at..] } else { &[] }
}
