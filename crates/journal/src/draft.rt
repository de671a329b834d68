//! A journal's file that is written before it is one.
ghost use Rattle.std.specs.Prelude.{◌≡◌, ◌↔◌, ◌+◌, ◌*◌, ◌<◌, ◌≤◌, ◌^◌, List, [], ◌∷◌, ◌++◌, length, IsErrOf, IfOk, IfErr, OnOk};
ghost use Rattle.terms_prelude.specs.Terms.{Header};
ghost use Rattle.disk.specs.Model.{MayLeave, LeavesOnly, CountsFailures, at_rest, after_write, overwritten};
ghost use Rattle.journal.specs.Texts.{Batch, new_batch, draft_text};
ghost use Rattle.journal.specs.WellFormed.{IsHeader, AreWellFormedFor};
ghost use Rattle.journal.specs.Faults.{IsFaultOfAdding};
ghost use Rattle.journal.specs.Drafts.{IsNoJournal, IsDraftOf, HasBegun, HasNotBegun, HasCompleted, HasNotCompleted, draft_disk, draft_header, draft_gate};

use crate::JournalFault;
use crate::header::{HEADER, new_file};
use crate::journal::{Journal, Tail};
use crate::open::write_new;
use disk::{DeviceFault, Disk};
use std::alloc::Global;
use terms::{Header, Record};

/// The first byte of a journal's file.
const FIRST: u8 = b'B';

/// A journal's file but for its first byte, which is 0. Batches are added to it as to a journal.
/// Opening refuses the file until [`complete`](Draft::complete) has written that byte.
#[derive(Drop)]
pub struct Draft<D: Disk> {
    header: Header,
    tail: Tail<D>,
}

impl<D: Disk> Draft<D> {
    /// Begins one in an empty file, by three calls of the device: `len`, one write of 25 bytes, and
    /// `sync`.
    ///
    /// A fault hands the disk back:
    /// - `NotEmpty`: the file has bytes already. Nothing was written.
    /// - `Device`: the disk failed. The file may have any of the bytes.
    #[tactic(auto, unfolding(crate::specs::Drafts::draft_disk, crate::specs::Drafts::draft_header, crate::specs::Drafts::draft_gate))]
    pub fn begin(alloc: Global, mut disk: D, header: &Header) -> Result<Draft<D>, (JournalFault, D)>
        ensures begun { IfOk result (λ draft. HasBegun D.Disk disk header.now draft) }
        ensures fault { IfErr result
            (λ refused. HasNotBegun D.Disk disk header.now refused.0 refused.1) }
    {
        match write_new(&mut disk, &new_draft(header)) {
            Ok(()) => Ok(Draft {
                header: *header,
                tail: Tail::new(alloc, disk, HEADER),
            }),
            Err(fault) => Err((fault, disk)),
        }
    }

    /// Adds a batch, by four calls of the device as a journal does it. A crash at any moment of
    /// them leaves a file that opening refuses.
    ///
    /// The records are 1 to 65,535, and well formed for the header: the caller sees to it.
    ///
    /// - `Full`: the closed gate behind the batch would stand past byte 2^31. Nothing was written.
    /// - `Memory`: there was none for the bytes. Nothing was written.
    /// - `Device`: the disk failed, and the batch may be there or not. The caller adds no more.
    #[tactic(auto, unfolding(crate::specs::Drafts::draft_disk, crate::specs::Drafts::draft_header, crate::specs::Drafts::draft_gate))]
    pub fn add(&mut self, records: &[Record]) -> Result<(), JournalFault>
        requires some { 0 < length records.now }
        requires count { length records.now ≤ 65535 }
        requires well_formed { AreWellFormedFor (draft_header self.old) records.now }
        requires drafted { D.keeps (draft_disk self.old) → (batches : List Batch)
            × IsDraftOf D.state batches self.old }

        ensures added { D.keeps (draft_disk self.new) →
            OnOk result ((batches : List Batch) → IsDraftOf D.state batches self.old →
            IsDraftOf D.state (batches ++ new_batch records.now ∷ []) self.new) }
        ensures any_moment { D.keeps (draft_disk self.new) →
            LeavesOnly D.moment D.since (draft_disk self.old) (draft_disk self.new) IsNoJournal }
        ensures four_calls { D.keeps (draft_disk self.new) → OnOk result (
            D.moment (draft_disk self.new) ≡ D.moment (draft_disk self.old) + 4) }
        ensures gate { OnOk result
            (draft_gate self.new ≡ draft_gate self.old + 3 + 6 * length records.now) }
        ensures room { OnOk result (draft_gate self.old + 3 + 6 * length records.now ≤ 2 ^ 31) }
        ensures quiet { OnOk result
            (D.failures (draft_disk self.new) ≡ D.failures (draft_disk self.old)) }

        ensures only { IfErr result IsFaultOfAdding }
        ensures full { IsErrOf result JournalFault.Full
            ↔ (2 ^ 31 < draft_gate self.old + 3 + 6 * length records.now) }
        ensures device { IsErrOf result JournalFault.Device →
            D.failures (draft_disk self.old) < D.failures (draft_disk self.new) }
        ensures later { D.failures (draft_disk self.old) ≤ D.failures (draft_disk self.new) }
        ensures kept { D.keeps (draft_disk self.new) → D.keeps (draft_disk self.old) }
        ensures header { draft_header self.new ≡ draft_header self.old }
    {
        self.tail.add(records)?;
        Ok(())
    }

    /// Makes it a journal, by two calls of the device: a write of the first byte, and `sync`. From
    /// then on each file that a crash can leave holds its records. A crash at any moment of the
    /// calls leaves one that does, or one that opening refuses.
    ///
    /// [`DeviceFault`]: the disk failed, and is handed back.
    #[tactic(auto, unfolding(crate::specs::Drafts::draft_disk, crate::specs::Drafts::draft_header, crate::specs::Drafts::draft_gate, crate::specs::Readers::journal_disk, crate::specs::Readers::journal_header, crate::specs::Readers::journal_gate, crate::specs::Readers::journal_is_stopped))]
    pub fn complete(self) -> Result<Journal<D>, (DeviceFault, D)>
        ensures completed { IfOk result (λ journal. HasCompleted D.Disk self journal) }
        ensures fault { IfErr result (λ failed. HasNotCompleted D.Disk self failed.1) }
    {
        let Draft { header, mut tail } = self;
        match write_first(&mut tail.disk) {
            Ok(()) => Ok(Journal {
                header,
                tail,
                stopped: false,
            }),
            Err(fault) => Err((fault, tail.into_disk())),
        }
    }

    /// Returns the header of the journal.
    #[tactic(auto, unfolding(crate::specs::Drafts::draft_header))]
    pub fn header(&self) -> Header
        ensures { result ≡ draft_header self.now }
    {
        self.header
    }

    /// The disk, and the draft is left as it is. It makes no call of the device.
    #[tactic(auto, unfolding(crate::specs::Drafts::draft_disk))]
    pub fn into_disk(self) -> D
        ensures { result ≡ draft_disk self }
    {
        let Draft { header: _, tail } = self;
        tail.into_disk()
    }
}

/// The file of a draft that has no records.
fn new_draft(header: &Header) -> [u8; 25]
    ensures lawful { IsHeader header.now }
    ensures text { result ≡ draft_text header.now [] }
{
    let mut file = new_file(header);
    file[0] = 0;
    file
}

/// Writes the first byte of a journal over that of a file that is all on the disk.
fn write_first<D: Disk>(disk: &mut D) -> Result<(), DeviceFault>
    ensures done { D.keeps disk.new → OnOk result (
        D.state disk.new ≡ at_rest (overwritten (D.state disk.old).seen 0 (66 ∷ []))) }
    ensures any_moment { D.keeps disk.new → LeavesOnly D.moment D.since disk.old disk.new
        (MayLeave (after_write (D.state disk.old) 0 (66 ∷ []))) }
    ensures two_calls { D.keeps disk.new → OnOk result (D.moment disk.new ≡ D.moment disk.old + 2) }
    ensures kept { D.keeps disk.new → D.keeps disk.old }
    ensures cause { CountsFailures (D.failures disk.old) (D.failures disk.new) result }
{
    disk.write_at(0, &[FIRST])?;
    disk.sync()
}
