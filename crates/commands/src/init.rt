//! The command `init`: a journal of no records.

ghost use Rattle.std.specs.Prelude.{ℕ, List, ◌≡◌, ◌<◌, ◌+◌, ◌∷◌, ◌++◌, [], length, IfOk, OnOk, Err};
ghost use Rattle.disk.specs.Model.{MayLeave, LeavesOnly, after_write, at_rest};
ghost use Rattle.journal.specs.File.{Holds};
ghost use Rattle.journal.specs.Texts.{header_text};
ghost use Rattle.commands.specs.declared.fault.InitFault.TheVariants.{NotEmpty, Device};

use crate::fault::InitFault;
use disk::Disk;
use settings::Settings;

/// Writes a journal of no records, with the settings' header, into an empty file. The status is 0.
/// It takes no memory.
///
/// [`InitFault::NotEmpty`]: the file has bytes already, and nothing was written.
/// [`InitFault::Device`]: the disk failed, and the file may have any of the bytes.
pub fn init_disk<D: Disk>(disk: &mut D, settings: &Settings) -> Result<u8, InitFault>
    ensures status { IfOk result (λ status. status ≡ 0) }
    ensures file { D.keeps disk.new →
        OnOk result (D.state disk.new ≡ at_rest (header_text settings.now.header ++ 0 ∷ [])) }
    ensures created { D.keeps disk.new →
        OnOk result (Holds settings.now.header [] (D.state disk.new).seen) }
    ensures durable { D.keeps disk.new → OnOk result (
        (file : List ℕ) → MayLeave (D.state disk.new) file → Holds settings.now.header [] file) }
    ensures any_moment { D.keeps disk.new → LeavesOnly D.moment D.since disk.old disk.new
        (MayLeave (after_write (D.state disk.old) 0 (header_text settings.now.header ++ 0 ∷ []))) }
    ensures was_empty { D.keeps disk.new → OnOk result (length (D.state disk.old).seen ≡ 0) }

    ensures not_empty { D.keeps disk.new → result ≡ Err NotEmpty →
        0 < length (D.state disk.old).seen }
    ensures same { D.keeps disk.new → result ≡ Err NotEmpty → D.state disk.new ≡ D.state disk.old }
    ensures device { result ≡ Err Device → D.failures disk.old < D.failures disk.new }
    ensures kept { D.keeps disk.new → D.keeps disk.old }
{
    journal::create(disk, &settings.header)?;
    Ok(0)
}
