//! The new file: begun, filled with the records of the old one, and made a journal.
ghost use Rattle.std.specs.Prelude.{[], IfOk, IfErr, OnOk};
ghost use Rattle.journal.specs.WellFormed.{AreWellFormedFor};
ghost use Rattle.journal.specs.Drafts.{IsDraftOf, HasBegun, draft_disk, draft_header};
ghost use Rattle.migration.specs.Thousands.{in_thousands};
ghost use Rattle.migration.specs.Staged.{IsStaged, HasNotStaged, HasGrown, HasStopped, HasFilled, HasNotFilled, staging_disk, staging_draft};
ghost use Rattle.migration.specs.Outcomes.{HasCarried, HasNotCarried};
ghost use Rattle.migration.specs.declared.fault.MigrateFault.{MigrateFault};

use crate::MigrateFault;
use crate::old::load;
use disk::Disk;
use journal::{Draft, Journal, Release};
use std::alloc::Global;
use terms::{Header, Record};

/// The number of records of a batch of the new file: the last one has the rest.
const BATCH: usize = 1000;

/// A new file that was begun. Opening refuses it until it is finished.
#[derive(Drop)]
pub struct Staging<E: Disk> {
    draft: Draft<E>,
}

impl<E: Disk> Staging<E> {
    /// Brings the old file's records over, and makes the new file a journal:
    /// [`carry`](Staging::carry) where the new disk isn't wanted back after a fault. What is let go
    /// then is a disk that `carry` may hand back.
    pub fn finish<D: Disk>(
        self,
        alloc: Global,
        old: &mut D,
    ) -> Result<(Journal<E>, u64), MigrateFault>
    where
        E: Release,
        requires staged { E.keeps (staging_disk self) → IsStaged E.state self }
        requires released { (fault : MigrateFault) (disk : E) (after : D) →
            HasNotCarried D.Disk E.Disk self old.old fault disk after → E.may_go disk }
        ensures carried { IfOk result
            (λ done. HasCarried D.Disk E.Disk self old.old done.0 done.1 old.new) }
        // `released` speaks of the new disk that is gone; this is why it is.
        ensures fault { IfErr result
            (λ fault. (disk : E) × HasNotCarried D.Disk E.Disk self old.old fault disk old.new) }
    {
        match self.carry(alloc, old) {
            Ok(done) => Ok(done),
            Err((fault, disk)) => {
                disk.release();
                Err(fault)
            }
        }
    }

    /// Brings the old file's records over, and makes the new file a journal. The old file is read
    /// by three calls of the device, `sync`, `len` and one read of all bytes, and never written.
    /// The new one gets the records in batches of 1,000 by four calls each, the last one the rest,
    /// and then its first byte by a write and a `sync`. Gives the journal and the number of
    /// records.
    ///
    /// A crash at any moment leaves a new file that opening refuses, or one that holds exactly the
    /// old records; after Ok only the latter. A fault hands the new disk back, and its file is to
    /// be thrown away:
    /// - `NotOld`, `OtherHeader`, `CutShort` or `BadRecord`: the first thing that is wrong with the
    ///   old file.
    /// - `OldDevice`, `NewDevice`: a disk failed.
    /// - `Memory`: there was none for the bytes or the records.
    /// - `Full`: the closed gate behind a batch of the new file would stand past byte 2^31.
    #[tactic(auto, unfolding(crate::specs::Staged::staging_draft))]
    pub fn carry<D: Disk>(
        self,
        alloc: Global,
        old: &mut D,
    ) -> Result<(Journal<E>, u64), (MigrateFault, E)>
        requires staged { E.keeps (staging_disk self) → IsStaged E.state self }
        ensures carried { IfOk result
            (λ done. HasCarried D.Disk E.Disk self old.old done.0 done.1 old.new) }
        ensures fault { IfErr result
            (λ refused. HasNotCarried D.Disk E.Disk self old.old refused.0 refused.1 old.new) }
    {
        let Staging { draft } = self;
        match load(alloc, old, &draft.header()) {
            Ok(records) => match fill(draft, &records) {
                Ok(journal) => Ok((journal, records.len() as u64)),
                Err(refused) => Err(refused),
            },
            Err(fault) => Err((fault, draft.into_disk())),
        }
    }
}

/// Begins a new file: [`stage`] where the disk isn't wanted back after a fault. What is let go then
/// is a disk that `stage` may hand back.
pub fn begin<E: Disk>(alloc: Global, new: E, header: &Header) -> Result<Staging<E>, MigrateFault>
where
    E: Release,
    requires released { (fault : MigrateFault) (after : E) →
        HasNotStaged E.Disk new header.now fault after → E.may_go after }
    ensures begun { IfOk result
        (λ staging. HasBegun E.Disk new header.now (staging_draft staging)) }
    // `released` speaks of the disk that is gone; this is why it is.
    ensures fault { IfErr result
        (λ fault. (after : E) × HasNotStaged E.Disk new header.now fault after) }
{
    match stage(alloc, new, header) {
        Ok(staging) => Ok(staging),
        Err((fault, file)) => {
            file.release();
            Err(fault)
        }
    }
}

/// Begins a new file in an empty one, by three calls of the device: `len`, one write of 25 bytes
/// whose first is 0, and `sync`.
///
/// A fault hands the disk back:
/// - `NotEmpty`: the file has bytes already. Nothing was written.
/// - `NewDevice`: the disk failed. The file may have any of the bytes.
#[tactic(auto, unfolding(crate::specs::Staged::staging_draft))]
pub fn stage<E: Disk>(
    alloc: Global,
    new: E,
    header: &Header,
) -> Result<Staging<E>, (MigrateFault, E)>
    ensures begun { IfOk result
        (λ staging. HasBegun E.Disk new header.now (staging_draft staging)) }
    ensures fault { IfErr result
        (λ refused. HasNotStaged E.Disk new header.now refused.0 refused.1) }
{
    match Draft::begin(alloc, new, header) {
        Ok(draft) => Ok(Staging { draft }),
        Err((fault, disk)) => Err((MigrateFault::from(fault), disk)),
    }
}

/// Adds the records in batches, and makes the draft a journal.
fn fill<E: Disk>(mut draft: Draft<E>, records: &[Record]) -> Result<Journal<E>, (MigrateFault, E)>
    requires well_formed { AreWellFormedFor (draft_header draft) records.now }
    requires drafted { E.keeps (draft_disk draft) → IsDraftOf E.state [] draft }
    ensures filled { IfOk result (λ journal. HasFilled E.Disk draft records.now journal) }
    ensures fault { IfErr result
        (λ refused. HasNotFilled E.Disk draft records.now refused.0 refused.1) }
{
    match add_all(&mut draft, records) {
        Ok(()) => match draft.complete() {
            Ok(journal) => Ok(journal),
            Err((_, disk)) => Err((MigrateFault::NewDevice, disk)),
        },
        Err(fault) => Err((fault, draft.into_disk())),
    }
}

/// Adds the records in batches.
fn add_all<E: Disk>(draft: &mut Draft<E>, records: &[Record]) -> Result<(), MigrateFault>
    requires well_formed { AreWellFormedFor (draft_header draft.old) records.now }
    requires drafted { E.keeps (draft_disk draft.old) → IsDraftOf E.state [] draft.old }
    ensures grown { OnOk result (HasGrown E.Disk draft.old (in_thousands records.now) draft.new) }
    ensures fault { IfErr result
        (λ fault. HasStopped E.Disk draft.old records.now fault draft.new) }
{
    for batch in records.chunks(BATCH) {
        draft.add(batch)?;
    }
    Ok(())
}
