//! The command `migrate`: a journal of version 1, brought over into a new file.

ghost use Rattle.std.specs.Prelude.{ℕ, ◌≡◌, IfErr, IfOk, OnOk, string_bytes};
ghost use Rattle.std.specs.Io.KnownBytes.{Appends};
ghost use Rattle.migration.specs.OldOutcomes.{IsUntouched};
ghost use Rattle.migration.specs.declared.fault.MigrateFault.{MigrateFault};
ghost use Rattle.commands.specs.Migrations.{migrated_text, HasMigrated, HasNotMigrated};

use crate::fault::MigrationFault;
use disk::Disk;
use migration::{MigrateFault, peek_old, stage};
use std::alloc::{AllocError, Global};
use std::io::Write;

/// Brings the records of the old file, a journal of version 1, over into the new one, which is
/// empty and becomes a journal, and writes how many they are: `migrated C` in a line. The old file
/// is never written. Gives the new disk back: its file holds just these records, in whatever a
/// crash can leave of it.
///
/// A fault hands the new disk back too:
/// - [`MigrationFault::Migrate`]: it wasn't brought over, and nothing was printed; the new file is
///   to be thrown away.
/// - [`MigrationFault::Stream`]: the new file is whole, as after no fault, but a write of the line
///   failed.
pub fn migrate_disks<D: Disk, E: Disk, W: Write>(
    alloc: Global,
    old: &mut D,
    new: E,
    output: &mut W,
) -> Result<E, (MigrationFault, E)>
    ensures migrated { IfOk result
        (λ disk. (count : ℕ) × HasMigrated D.Disk E.Disk old.old old.new new count disk
        × Appends (W.contents output.old) (W.contents output.new) (migrated_text count)) }
    ensures whole_at_stream { IfErr result (λ refused. refused.0 ≡ MigrationFault.Stream →
        (count : ℕ) × HasMigrated D.Disk E.Disk old.old old.new new count refused.1) }
    ensures fault { IfErr result
        (λ refused. (why : MigrateFault) → refused.0 ≡ MigrationFault.Migrate why →
        HasNotMigrated D.Disk E.Disk old.old old.new new why refused.1) }
    ensures nothing { IfErr result
        (λ refused. (why : MigrateFault) → refused.0 ≡ MigrationFault.Migrate why →
        output.new ≡ output.old) }
    ensures untouched { IsUntouched D.Disk old.old old.new }
{
    let (disk, count) = match bring_over(alloc, old, new) {
        Ok(done) => done,
        Err((fault, disk)) => return Err((MigrationFault::Migrate(fault), disk)),
    };
    match print_migrated(alloc, count, output) {
        Ok(()) => Ok(disk),
        Err(fault) => Err((fault, disk)),
    }
}

/// Brings the records over, and gives the new disk back and the number of records.
fn bring_over<D: Disk, E: Disk>(
    alloc: Global,
    old: &mut D,
    new: E,
) -> Result<(E, u64), (MigrateFault, E)>
    ensures migrated { IfOk result
        (λ done. HasMigrated D.Disk E.Disk old.old old.new new done.1 done.0) }
    ensures fault { IfErr result
        (λ refused. HasNotMigrated D.Disk E.Disk old.old old.new new refused.0 refused.1) }
    ensures untouched { IsUntouched D.Disk old.old old.new }
{
    let header = match peek_old(old) {
        Ok(header) => header,
        Err(fault) => return Err((fault, new)),
    };
    let staging = match stage(alloc, new, &header) {
        Ok(staging) => staging,
        Err(refused) => return Err(refused),
    };
    match staging.carry(alloc, old) {
        Ok((journal, count)) => Ok((journal.into_disk(), count)),
        Err(refused) => Err(refused),
    }
}

/// Writes the line that says how many records were brought over.
fn print_migrated<W: Write>(alloc: Global, count: u64, output: &mut W) -> Result<(), MigrationFault>
    ensures all { OnOk result
        (Appends (W.contents output.old) (W.contents output.new) (migrated_text count)) }
    ensures fault { IfErr result
        (λ fault. (why : MigrateFault) → fault ≡ MigrationFault.Migrate why →
        (why ≡ MigrateFault.Memory) × (output.new ≡ output.old)) }
{
    let text = migrated_text(alloc, count)?;
    output.write_all(text.as_bytes())?;
    output.flush()?;
    Ok(())
}

/// The line that says how many records were brought over.
fn migrated_text(alloc: Global, count: u64) -> Result<String, AllocError>
    ensures { IfOk result (λ text. string_bytes text ≡ migrated_text count) }
{
    format!(in alloc; "migrated {count}\n")
}
