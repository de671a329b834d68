//! The places for the pages of a simulation.

ghost use Rattle.commands.specs.Shows.{path_text};
ghost use Rattle.troubles.specs.Faults.{AreApart, ArePagesApart, IsMeant};
ghost use Rattle.troubles.specs.declared.fault.Fault.TheVariants as ends;
ghost use Rattle.troubles.specs.Troubles.{IsNamed};
ghost use Rattle.std.specs.Prelude.{IfSome, ◌≡◌, ◌≢◌, ◌≤◌, ◌↔◌, IfErr, IsOk, IsTrue, None, Some, codes, option_map};

use commands::{Choice, PagePaths, Simulation, Template, takes_output};
use pages::{play_after, play_before};
use std::alloc::Global;
use std::fs::{self, File, Metadata};
use std::io::{self, BufWriter, Write};
use std::os::unix::fs::MetadataExt;
use std::path::Path;
use troubles::{Failure, Fault, Whereabouts};

/// A page of a simulation.
#[derive(Clone, Copy, Debug)]
pub enum Page<'a> {
    /// A line for each event.
    Trace,
    /// A sequence chart in SVG, with the events that are chosen.
    Chart(Choice),
    /// HTML that plays the run, with this name.
    Play(&'a str),
}

/// Returns the last part of a path, which names a run.
pub fn name_of(path: &str) -> &str {
    match Path::new(path).file_name() {
        Some(name) => name.to_str().unwrap_or(path),
        None => path,
    }
}

/// Writes a page of the simulation, where it has a path, into the file there, or to the standard
/// output where the path is `-`. What was in the file is replaced. The page is written as it is
/// made: where that fails a part of it may be written. The number of a chart's rows comes out, and
/// 0 for another page and for none.
pub fn write_page(
    rt: &HostRuntime,
    simulation: &Simulation,
    page: Page<'_>,
    path: Option<&str>,
    fault: Fault,
) -> Result<u64, Failure>
    ensures nothing { path.entry ≡ None → IsOk result }
    ensures faults { IfErr result (λ failure. IsMeant fault failure.fault) }
    ensures named { IfSome path.entry (λ path. IfErr result (IsNamed path.now)) }
{
    let Some(path) = path else {
        return Ok(0);
    };
    match write_at(rt, simulation, page, path) {
        Ok(rows) => Ok(rows),
        // Who read it has read enough, as `head` does: there is nothing to tell.
        Err(error) if error.kind() == io::ErrorKind::BrokenPipe => Err(Failure::from(fault)),
        Err(error) => Err(Failure::of_system(rt.alloc(), fault, path, Whereabouts::Write, error)),
    }
}

/// Writes a page into the file at that path, or to the standard output where the path is `-`.
fn write_at(
    rt: &HostRuntime,
    simulation: &Simulation,
    page: Page<'_>,
    path: &str,
) -> io::Result<u64> {
    if takes_output(Some(path), None) {
        return write_into(rt.alloc(), simulation, page, io::writer(rt));
    }
    write_into(rt.alloc(), simulation, page, File::create(rt, path)?)
}

/// Writes a page into what has room for a part of it at a time.
fn write_into<W: Write + Drop>(
    alloc: Global,
    simulation: &Simulation,
    page: Page<'_>,
    output: W,
) -> io::Result<u64> {
    let mut output = BufWriter::new(alloc, output)?;
    let rows = match page {
        Page::Trace => {
            simulation.write_trace(alloc, &mut output)?;
            0
        }
        Page::Chart(choice) => simulation.write_chart(alloc, choice, &mut output)?,
        Page::Play(name) => {
            let template = Template {
                before: play_before(),
                after: play_after(),
            };
            simulation.write_page(alloc, name, &template, &mut output)?;
            0
        }
    };
    output.flush()?;
    Ok(rows)
}

/// The fault of a page that can't be written: that of its file, or of the standard output where the
/// path is `-`.
pub fn fault_at(path: Option<&str>, of_file: Fault) -> Fault
    ensures output { option_map (λ path. path.now) path.entry ≡ Some (codes "-") →
        result ≡ ends.Stream }
    ensures file { option_map (λ path. path.now) path.entry ≢ Some (codes "-") → result ≡ of_file }
{
    if takes_output(path, None) {
        Fault::Stream
    } else {
        of_file
    }
}

/// The least number of rows of a chart that is too long for most viewers.
const LONG: u64 = 100_000;

/// Says on the standard error that the chart in the file at this path, of so many rows, is too long
/// for most viewers, if it is. Nothing is said of one on the standard output.
pub fn warn_of_length(rt: &HostRuntime, rows: u64, path: Option<&str>) {
    let Some(path) = path else {
        return;
    };
    if path == "-" || !is_too_long(rows) {
        return;
    }
    let Ok(line) = format!(in rt.alloc();
        "bracha: {path}: a chart of {rows} events is too long for most viewers: choose rows by --from, --to, --member or --question\n"
    ) else {
        return;
    };
    let mut errors = rt.stderr();
    let _unsaid = errors.write_all(line.as_bytes());
}

/// Returns `true` if a chart of so many rows is too long for most viewers.
fn is_too_long(rows: u64) -> bool
    ensures { IsTrue result ↔ 100000 ≤ rows }
{
    rows >= LONG
}

/// Refuses a path that names the file. [`Fault::SameFile`]: it does.
pub fn keep_two_apart(rt: &HostRuntime, path: &str, file: &str) -> Result<(), Fault>
    ensures { IsOk result → path.now ≢ file.now }
{
    if is_one_file(rt, path, file) {
        return Err(Fault::SameFile(String::from_str(rt.alloc(), path)?));
    }
    Ok(())
}

/// Returns `true` if the paths name one file, be it there or not.
fn is_one_file(rt: &HostRuntime, one: &str, other: &str) -> bool
    ensures { one.now ≡ other.now → IsTrue result }
{
    if one == other {
        return true;
    }
    match (fs::metadata(rt, one), fs::metadata(rt, other)) {
        (Ok(first), Ok(second)) => is_one_node(&first, &second),
        (Err(_), Err(_)) => would_be_one(rt, one, other),
        _ => false,
    }
}

/// Returns `true` if paths at which nothing is would be one file: they have one name, and one
/// folder.
fn would_be_one(rt: &HostRuntime, one: &str, other: &str) -> bool {
    match (
        fs::metadata(rt, folder_of(one)),
        fs::metadata(rt, folder_of(other)),
    ) {
        (Ok(folder), Ok(second)) => {
            is_one_node(&folder, &second)
                && Path::new(one).file_name() == Path::new(other).file_name()
        }
        _ => false,
    }
}

/// The folder of a path, which is the working folder for a bare name.
fn folder_of(path: &str) -> Path<'_> {
    match Path::new(path).parent() {
        Some(folder) if !folder.as_os_str().is_empty() => folder,
        _ => Path::new("."),
    }
}

/// Returns `true` if what is known of two files is known of one.
fn is_one_node(one: &Metadata, other: &Metadata) -> bool {
    one.dev() == other.dev() && one.ino() == other.ino()
}

/// Refuses pages that would be written over the script or over one another, before anything is
/// written. [`Fault::SameFile`]: two of the paths name one file.
pub fn keep_apart(rt: &HostRuntime, script: &str, paths: &PagePaths<'_>) -> Result<(), Fault>
    ensures { IsOk result →
        AreApart script.now (path_text paths.now.trace) (path_text paths.now.chart)
        (path_text paths.now.play) }
{
    keep_off(rt, paths.trace, script)?;
    keep_off(rt, paths.chart, script)?;
    keep_off(rt, paths.play, script)?;
    keep_pages_apart(rt, paths.trace, paths.chart)?;
    keep_pages_apart(rt, paths.trace, paths.play)?;
    keep_pages_apart(rt, paths.chart, paths.play)
}

/// Refuses two pages that would be written over one another. [`Fault::SameFile`]: their paths name
/// one file.
fn keep_pages_apart(rt: &HostRuntime, one: Option<&str>, other: Option<&str>) -> Result<(), Fault>
    ensures { IsOk result →
        ArePagesApart (option_map (λ path. path.now) one.entry)
        (option_map (λ path. path.now) other.entry) }
{
    match one {
        Some(path) => keep_off(rt, other, path),
        None => Ok(()),
    }
}

/// Refuses a page that would be written over the file. [`Fault::SameFile`]: its path names that
/// file.
fn keep_off(rt: &HostRuntime, page: Option<&str>, file: &str) -> Result<(), Fault>
    ensures { IsOk result → option_map (λ path. path.now) page.entry ≢ Some file.now }
{
    match page {
        Some(path) => keep_two_apart(rt, path, file),
        None => Ok(()),
    }
}
