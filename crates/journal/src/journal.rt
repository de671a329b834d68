//! A journal, and the end of its file, where batches of records are added. A batch is whole on the
//! disk or not there. Begin at `Journal::append`.
ghost use Rattle.std.specs.Prelude.{◌≡◌, ◌≢◌, ◌↔◌, ◌+◌, ◌*◌, ◌<◌, ◌≤◌, ◌^◌, List, [], ◌∷◌, ◌++◌, length, take, false, IsErrOf, IfOk, IfErr, OnOk};
ghost use Rattle.terms_prelude.specs.Terms.{Record, Header};
ghost use Rattle.disk.specs.Memory.{memory_state, with_fuse};
ghost use Rattle.disk.specs.Model.{CountsFailures, LeavesOnly, at_rest, overwritten};
ghost use Rattle.journal.specs.Commit.{IsShut, IsCommit, commit_states, with_batch};
ghost use Rattle.journal.specs.Faults.{IsFaultOfAdding};
ghost use Rattle.journal.specs.Outcomes.{HasAdded, HasNotAdded, AddsAllOrNothing, HasOpened, HandsBack};
ghost use Rattle.journal.specs.Passing.{PassesThrough};
ghost use Rattle.journal.specs.Readers.{journal_disk, journal_header, journal_gate, journal_is_stopped, IsAtRest};
ghost use Rattle.journal.specs.Texts.{batch_body};
ghost use Rattle.journal.specs.WellFormed.{AreWellFormedFor};

use crate::JournalFault;
use crate::open::load;
use crate::record::{RECORD, record_bytes};
use crate::release::Release;
use crate::spare::Spare;
use disk::{DeviceFault, Disk, MemDisk};
use std::alloc::{AllocError, Global};
use terms::{Header, Record};

/// The last place at which a closed gate may stand.
const LAST_GATE: usize = 1 << 31;

/// An open journal: its records are those that opening it gave, and all that were appended since.
#[derive(Drop)]
pub struct Journal<D: Disk> {
    pub(crate) header: Header,
    pub(crate) tail: Tail<D>,
    pub(crate) stopped: bool,
}

impl<D: Disk> Journal<D> {
    /// Adds a batch, by four calls of the device: a write of the count, the records and a closed
    /// gate behind the closed gate that stands, `sync`, a write of 01 over that gate, and `sync`.
    /// An empty batch makes no call. At Ok each file that a crash can leave from then on has the
    /// batch.
    ///
    /// The records are at most 65,535, and well formed for the journal's header: the caller sees to
    /// it.
    ///
    /// - `Stopped`: the journal answered `Device` before. This is looked at first. Nothing was
    ///   written.
    /// - `Full`: the closed gate behind the batch would stand past byte 2^31. Nothing was written.
    /// - `Memory`: there was none for the bytes. Nothing was written, and the journal goes on.
    /// - `Device`: the disk failed. A crash may leave the records from before, or those and the
    ///   whole batch. The journal is stopped.
    #[tactic(auto, unfolding(crate::specs::Readers::journal_disk, crate::specs::Readers::journal_header, crate::specs::Readers::journal_gate, crate::specs::Readers::journal_is_stopped))]
    pub fn append(&mut self, records: &[Record]) -> Result<(), JournalFault>
        requires count { length records.now ≤ 65535 }
        requires well_formed { AreWellFormedFor (journal_header self.old) records.now }
        requires settled { D.keeps (journal_disk self.old) → journal_is_stopped self.old ≡ false →
            (header : Header) × (all : List Record) × IsAtRest D.state header all self.old }

        ensures added { OnOk result (HasAdded D.Disk self.old records.now self.new) }
        ensures fault { IfErr result
            (λ fault. HasNotAdded D.Disk self.old records.now fault self.new) }
        ensures batch { AddsAllOrNothing D.Disk self.old records.now self.new }
    {
        if self.stopped {
            return Err(JournalFault::Stopped);
        }
        if records.is_empty() {
            return Ok(());
        }
        match self.tail.add(records) {
            Ok(()) => Ok(()),
            Err(fault) => {
                self.stopped = matches!(fault, JournalFault::Device);
                Err(fault)
            }
        }
    }

    /// Opens a journal's file, which a crash may have left, and gives the records that it holds:
    /// [`adopt`](Journal::adopt) where the disk isn't wanted back after a fault. What is let go
    /// then is a disk that `adopt` may hand back.
    pub fn open(
        alloc: Global,
        disk: D,
        header: &Header,
    ) -> Result<(Journal<D>, Vec<Record>), JournalFault>
    where
        D: Release,
        requires released { (fault : JournalFault) (after : D) →
            HandsBack D.Disk disk header.now fault after → D.may_go after }
        ensures opened { IfOk result
            (λ opened. HasOpened D.Disk disk header.now opened.1.items opened.0) }
        // `released` speaks of the disk that is gone; this is why it is.
        ensures fault { IfErr result
            (λ fault. (after : D) × HandsBack D.Disk disk header.now fault after) }
    {
        match Journal::adopt(alloc, disk, header) {
            Ok(opened) => Ok(opened),
            Err((fault, disk)) => {
                disk.release();
                Err(fault)
            }
        }
    }

    /// Opens a journal's file, which a crash may have left, and gives the records that it holds, by
    /// three calls of the device: `sync`, `len` and one read of all bytes. From then on each file
    /// that a crash can leave holds these.
    ///
    /// A fault hands the disk back; no byte of its file was changed:
    /// - `BadHeader`, `OldVersion`, `OtherHeader`, `CutShort` or `BadRecord`: the first thing that
    ///   is wrong with the file.
    /// - `Memory`: there was none for the bytes or the records.
    /// - `Device`: the disk failed.
    #[tactic(auto, unfolding(crate::specs::Readers::journal_disk, crate::specs::Readers::journal_header, crate::specs::Readers::journal_gate, crate::specs::Readers::journal_is_stopped))]
    pub fn adopt(
        alloc: Global,
        mut disk: D,
        header: &Header,
    ) -> Result<(Journal<D>, Vec<Record>), (JournalFault, D)>
        ensures opened { IfOk result
            (λ opened. HasOpened D.Disk disk header.now opened.1.items opened.0) }
        ensures fault { IfErr result
            (λ refused. HandsBack D.Disk disk header.now refused.0 refused.1) }
    {
        match load(alloc, &mut disk, header) {
            Ok((gate, records)) => Ok((
                Journal {
                    header: *header,
                    tail: Tail::new(alloc, disk, gate),
                    stopped: false,
                },
                records,
            )),
            Err(fault) => Err((fault, disk)),
        }
    }

    /// Returns whose journal it is.
    #[tactic(auto, unfolding(crate::specs::Readers::journal_header))]
    pub fn header(&self) -> Header
        ensures { result ≡ journal_header self.now }
    {
        self.header
    }

    /// Returns `true` if a fault of the device stopped it: then each append answers `Stopped`.
    #[tactic(auto, unfolding(crate::specs::Readers::journal_is_stopped))]
    pub fn is_stopped(&self) -> bool
        ensures { result ≡ journal_is_stopped self.now }
    {
        self.stopped
    }

    /// The disk with its file, and the journal is closed. It takes no memory and makes no call of
    /// the device.
    #[tactic(auto, unfolding(crate::specs::Readers::journal_disk))]
    pub fn into_disk(self) -> D
        ensures { result ≡ journal_disk self }
    {
        let Journal {
            header: _,
            tail,
            stopped: _,
        } = self;
        tail.into_disk()
    }
}

impl Journal<MemDisk> {
    /// Sets the fuse of its disk, and changes nothing else: the next calls of the device pass, as
    /// many as this, and all after them fail. None takes the fuse out. This is no call of the
    /// device, and takes no memory.
    #[tactic(auto, unfolding(crate::specs::Readers::journal_disk, crate::specs::Readers::journal_header, crate::specs::Readers::journal_gate, crate::specs::Readers::journal_is_stopped))]
    pub fn fuse(&mut self, calls: Option<u64>)
        ensures disk { journal_disk self.new ≡ with_fuse (journal_disk self.old) calls }
        ensures settled { (header : Header) (all : List Record) →
            IsAtRest memory_state header all self.old → IsAtRest memory_state header all self.new }
        ensures header { journal_header self.new ≡ journal_header self.old }
        ensures gate { journal_gate self.new ≡ journal_gate self.old }
        ensures stopped { journal_is_stopped self.new ≡ journal_is_stopped self.old }
    {
        self.tail.disk.fuse(calls);
    }
}

/// A disk, and the place of the closed gate in its file behind which batches are added.
#[derive(Drop)]
pub(crate) struct Tail<D: Disk> {
    alloc: Global,
    pub(crate) disk: D,
    pub(crate) gate: usize,
    spare: Spare,
}

impl<D: Disk> Tail<D> {
    /// Returns the tail of this disk at this place. It takes no memory.
    pub(crate) fn new(alloc: Global, disk: D, gate: usize) -> Tail<D>
        ensures disk { result.disk ≡ disk }
        ensures gate { result.gate ≡ gate }
    {
        Tail {
            alloc,
            disk,
            gate,
            spare: Spare::none(alloc),
        }
    }

    /// Adds a batch, by four calls of the device: a write of the count, the records and a closed
    /// gate behind the closed gate that stands, `sync`, a write of 01 over that gate, and `sync`.
    ///
    /// - `Full`: the closed gate behind the batch would stand past byte 2^31. Nothing was written.
    /// - `Memory`: there was none for the bytes. Nothing was written.
    /// - `Device`: the disk failed. A crash may leave the gate closed, or the whole batch.
    pub(crate) fn add(&mut self, records: &[Record]) -> Result<(), JournalFault>
        requires few { length records.now ≤ 65535 }
        requires shut { D.keeps self.old.disk → IsShut self.old.gate (D.state self.old.disk) }

        ensures done { D.keeps self.new.disk →
            OnOk result (D.state self.new.disk
            ≡ at_rest (with_batch self.old.gate records.now (D.state self.old.disk).seen)) }
        ensures any_moment { D.keeps self.new.disk →
            LeavesOnly D.moment D.since self.old.disk self.new.disk
            (IsCommit (take self.old.gate (D.state self.old.disk).seen)
            (batch_body records.now ++ 0 ∷ [])) }
        ensures four_calls { D.keeps self.new.disk →
            OnOk result (D.moment self.new.disk ≡ D.moment self.old.disk + 4) }
        ensures calls { D.keeps self.new.disk →
            OnOk result (PassesThrough D.Disk self.old.disk
            (commit_states (D.state self.old.disk) self.old.gate (batch_body records.now ++ 0 ∷ []))
            self.new.disk) }
        ensures gate { OnOk result (self.new.gate ≡ self.old.gate + 3 + 6 * length records.now) }
        ensures room { OnOk result (self.old.gate + 3 + 6 * length records.now ≤ 2 ^ 31) }
        ensures quiet { OnOk result (D.failures self.new.disk ≡ D.failures self.old.disk) }

        ensures only { IfErr result IsFaultOfAdding }
        ensures full { IsErrOf result JournalFault.Full
            ↔ (2 ^ 31 < self.old.gate + 3 + 6 * length records.now) }
        ensures device { IsErrOf result JournalFault.Device →
            D.failures self.old.disk < D.failures self.new.disk }
        ensures same { IfErr result (λ fault. fault ≢ JournalFault.Device → self.new ≡ self.old) }
        ensures later { D.failures self.old.disk ≤ D.failures self.new.disk }
        ensures kept { D.keeps self.new.disk → D.keeps self.old.disk }
    {
        let len = 3 + RECORD * records.len();
        if self.gate > LAST_GATE - len {
            return Err(JournalFault::Full);
        }
        let bytes = encode(self.spare.take(self.alloc), records)?;
        commit(&mut self.disk, self.gate, &bytes)?;
        self.spare.keep(bytes);
        self.gate += len;
        Ok(())
    }

    /// The disk. It makes no call of the device.
    pub(crate) fn into_disk(self) -> D
        ensures { result ≡ self.disk }
    {
        let Tail {
            alloc: _,
            disk,
            gate: _,
            spare: _,
        } = self;
        disk
    }
}

/// The bytes behind a batch's gate, and the closed gate behind them, in a buffer that is empty.
fn encode(buffer: Vec<u8>, records: &[Record]) -> Result<Vec<u8>, AllocError>
    requires empty { buffer.items ≡ [] }
    requires few { length records.now ≤ 65535 }
    ensures { IfOk result (λ bytes. bytes.items ≡ batch_body records.now ++ 0 ∷ []) }
{
    let count = records.len() as u16;
    let mut bytes = buffer;
    bytes.extend_from_slice(&count.to_be_bytes())?;
    for entry in records {
        bytes.extend_from_slice(&record_bytes(entry))?;
    }
    bytes.push(0)?;
    Ok(bytes)
}

/// Puts bytes behind the closed gate at a place, and opens it. They are on the disk before the gate
/// is written.
fn commit<D: Disk>(disk: &mut D, gate: usize, body: &[u8]) -> Result<(), DeviceFault>
    requires shut { D.keeps disk.old → IsShut gate (D.state disk.old) }
    requires fits { gate + 1 + length body.now < 2 ^ 64 }
    ensures done { D.keeps disk.new →
        OnOk result (D.state disk.new ≡ at_rest
        (overwritten (overwritten (D.state disk.old).seen (gate + 1) body.now) gate (1 ∷ []))) }
    // A crash at any moment leaves the gate closed, or the bytes whole behind it.
    ensures any_moment { D.keeps disk.new → LeavesOnly D.moment D.since disk.old disk.new
        (IsCommit (take gate (D.state disk.old).seen) body.now) }
    ensures four_calls { D.keeps disk.new →
        OnOk result (D.moment disk.new ≡ D.moment disk.old + 4) }
    ensures calls { D.keeps disk.new → OnOk result (
        PassesThrough D.Disk disk.old (commit_states (D.state disk.old) gate body.now) disk.new) }
    ensures kept { D.keeps disk.new → D.keeps disk.old }
    ensures cause { CountsFailures (D.failures disk.old) (D.failures disk.new) result }
{
    disk.write_at(gate + 1, body)?;
    disk.sync()?;
    disk.write_at(gate, &[1])?;
    disk.sync()
}
