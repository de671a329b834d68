//! The command `check`: what a member's settings say, and how many records its journal has.

ghost use Rattle.std.specs.Prelude.{◌≡◌, List, length, Err, IfErr, IfOk, OnOk, codes, option_map, string_bytes};
ghost use Rattle.std.specs.List.{flat_map};
ghost use Rattle.std.specs.Io.KnownBytes.{Appends};
ghost use Rattle.journal.specs.Faults.{IsOfFile};
ghost use Rattle.journal.specs.File.{Holds, RefusesFile};
ghost use Rattle.journal.specs.declared.fault.JournalFault.{JournalFault};
ghost use Rattle.migration.specs.OldOutcomes.{IsUntouched};
ghost use Rattle.terms_prelude.specs.Terms.{Record};
ghost use Rattle.commands.specs.Checks.{option_line, options_lines, peer_line, records_line, settings_text};
ghost use Rattle.settings.specs.Texts.{address_text};
ghost use Rattle.commands.specs.Objects.{check_object};
ghost use Rattle.commands.specs.Quoting.{visible_text};
ghost use Rattle.commands.specs.Faults.{IsOfDump, IsOfPrint};

use crate::dump::{header_line, read_records};
use crate::fault::DumpFault;
use crate::objects::check_object;
use crate::quoting::Visible;
use disk::Disk;
use settings::{Address, Settings, address_text};
use std::alloc::{AllocError, Global};
use std::io::Write;
use terms::Header;

/// Writes what the settings say: the line of `dump` for whose journal it is, the journal's path,
/// the address of each member, in order, that of the desk, and `listen`, `desk-socket` and `epochs`
/// if they are given. A path is written as [`Visible`] shows it. The seed is secret, and isn't
/// written.
///
/// [`DumpFault::Stream`] and [`DumpFault::Memory`]: the write or a growth failed.
pub fn print_settings<W: Write>(
    alloc: Global,
    settings: &Settings,
    output: &mut W,
) -> Result<(), DumpFault>
    ensures all { OnOk result
        (Appends (W.contents output.old) (W.contents output.new) (settings_text settings.now)) }
    ensures only { IfErr result IsOfPrint }
{
    let text = settings_text(alloc, settings)?;
    output.write_all(text.as_bytes())?;
    output.flush()?;
    Ok(())
}

/// Returns what the settings say, but for the seed.
fn settings_text(alloc: Global, settings: &Settings) -> Result<String, AllocError>
    ensures { IfOk result (λ text. string_bytes text ≡ settings_text settings.now) }
{
    format!(in alloc;
        "{}journal {}\n{}desk {}\n{}",
        header_line(alloc, &settings.header)?,
        path_text(alloc, &settings.journal)?,
        peer_lines(alloc, &settings.peers)?,
        address_text(alloc, &settings.desk)?,
        options_lines(alloc, settings)?
    )
}

/// The lines of the peers, in order.
fn peer_lines(alloc: Global, peers: &[Address]) -> Result<String, AllocError>
    ensures { IfOk result (λ text. string_bytes text ≡ flat_map peer_line peers.now) }
{
    let mut text = String::new(alloc);
    for peer in peers {
        text.push_str(peer_line(alloc, peer)?.as_str())?;
    }
    Ok(text)
}

/// The line of a peer.
fn peer_line(alloc: Global, peer: &Address) -> Result<String, AllocError>
    ensures { IfOk result (λ text. string_bytes text ≡ peer_line peer.now) }
{
    format!(in alloc; "peer {}\n", address_text(alloc, peer)?)
}

/// The lines of the keys that may be left out.
fn options_lines(alloc: Global, settings: &Settings) -> Result<String, AllocError>
    ensures { IfOk result (λ text. string_bytes text ≡ options_lines settings.now) }
{
    let listen = listen_line(alloc, &settings.listen)?;
    let socket = socket_line(alloc, &settings.desk_socket)?;
    let epochs = epochs_line(alloc, &settings.epochs)?;
    format!(in alloc; "{listen}{socket}{epochs}")
}

/// The line of the address that is listened at, if there is one.
fn listen_line(alloc: Global, listen: &Option<Address>) -> Result<String, AllocError>
    ensures { IfOk result
        (λ text. string_bytes text ≡ option_line (codes "listen")
        (option_map address_text listen.now)) }
{
    match listen {
        Some(address) => format!(in alloc; "listen {}\n", address_text(alloc, address)?),
        None => Ok(String::new(alloc)),
    }
}

/// The line of the path of a Unix socket, if there is one.
fn socket_line(alloc: Global, socket: &Option<String>) -> Result<String, AllocError>
    ensures { IfOk result
        (λ text. string_bytes text ≡ option_line (codes "desk-socket")
        (option_map (λ path. visible_text (string_bytes path)) socket.now)) }
{
    match socket {
        Some(path) => format!(in alloc; "desk-socket {}\n", path_text(alloc, path)?),
        None => Ok(String::new(alloc)),
    }
}

/// The line of the folder of a chain's journals, if there is one.
fn epochs_line(alloc: Global, epochs: &Option<String>) -> Result<String, AllocError>
    ensures { IfOk result
        (λ text. string_bytes text ≡ option_line (codes "epochs")
        (option_map (λ path. visible_text (string_bytes path)) epochs.now)) }
{
    match epochs {
        Some(folder) => format!(in alloc; "epochs {}\n", path_text(alloc, folder)?),
        None => Ok(String::new(alloc)),
    }
}

/// Returns a path as it is shown.
fn path_text(alloc: Global, path: &String) -> Result<String, AllocError>
    ensures { IfOk result (λ text. string_bytes text ≡ visible_text (string_bytes path.now)) }
{
    let shown = Visible::of(path.as_str());
    format!(in alloc; "{shown}")
}

/// Writes how many records the journal that the disk has holds, `records N`, if a member of this
/// header can run on it. The status is 0.
///
/// [`DumpFault::Journal`]: it can't, or the disk failed; nothing was written. [`DumpFault::Stream`]
/// and [`DumpFault::Memory`]: the write or a growth failed.
pub fn check_journal<D: Disk, W: Write>(
    alloc: Global,
    header: &Header,
    disk: &mut D,
    output: &mut W,
) -> Result<u8, DumpFault>
    ensures status { IfOk result (λ status. status ≡ 0) }
    ensures all { D.keeps disk.new → OnOk result ((records : List Record)
        × Holds header.now records (D.state disk.old).seen
        × Appends (W.contents output.old) (W.contents output.new) (records_line (length records))) }
    ensures fault { D.keeps disk.new → (fault : JournalFault) →
        result ≡ Err (DumpFault.Journal fault) → IsOfFile fault →
        RefusesFile header.now fault (D.state disk.old).seen }
    ensures nothing { (fault : JournalFault) → result ≡ Err (DumpFault.Journal fault) →
        output.new ≡ output.old }
    ensures only { IfErr result IsOfDump }
    ensures untouched { IsUntouched D.Disk disk.old disk.new }
{
    let records = read_records(alloc, disk, header)?;
    let text = records_line(alloc, records.len())?;
    output.write_all(text.as_bytes())?;
    output.flush()?;
    Ok(0)
}

/// The line that says how many records there are.
fn records_line(alloc: Global, count: usize) -> Result<String, AllocError>
    ensures { IfOk result (λ text. string_bytes text ≡ records_line count) }
{
    format!(in alloc; "records {count}\n")
}

/// Writes what the settings say, but for the seed, and how many records the journal that the disk
/// has holds, if a member of this header can run on it: one object of JSON in a line. The header is
/// that of the settings, or of an epoch of their chain. The status is 0. The faults are those of
/// [`check_journal`].
pub fn print_check<D: Disk, W: Write>(
    alloc: Global,
    settings: &Settings,
    header: &Header,
    disk: &mut D,
    output: &mut W,
) -> Result<u8, DumpFault>
    ensures status { IfOk result (λ status. status ≡ 0) }
    ensures all { D.keeps disk.new →
        OnOk result ((records : List Record)
        × Holds header.now records (D.state disk.old).seen
        × Appends (W.contents output.old) (W.contents output.new)
        (check_object settings.now (length records))) }
    ensures fault { D.keeps disk.new → (fault : JournalFault) →
        result ≡ Err (DumpFault.Journal fault) → IsOfFile fault →
        RefusesFile header.now fault (D.state disk.old).seen }
    ensures nothing { (fault : JournalFault) → result ≡ Err (DumpFault.Journal fault) →
        output.new ≡ output.old }
    ensures only { IfErr result IsOfDump }
    ensures untouched { IsUntouched D.Disk disk.old disk.new }
{
    let held = read_records(alloc, disk, header)?;
    let text = check_object(alloc, settings, held.len())?;
    output.write_all(&text)?;
    output.flush()?;
    Ok(0)
}
