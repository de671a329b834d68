//! The trace of `simulate --trace`: a line for each event of a run.

ghost use Rattle.std.specs.Prelude.{◌≡◌, IfOk, OnOk, string_bytes};
ghost use Rattle.std.specs.Io.KnownBytes.{Appends};
ghost use Rattle.std.specs.List.{flat_map};
ghost use Rattle.report.specs.Traces.{is_skipped, mark_text, also_text, saved_text, trace_line, trace_text};

use crate::records::record_text;
use sim::{Event, Mark, Reason};
use std::alloc::{AllocError, Global};
use std::io::{self, Write};
use terms::Record;

/// Returns `true` if the event was skipped.
pub fn is_skipped(mark: &Mark) -> bool
    ensures { result ≡ is_skipped mark.now }
{
    match mark {
        Mark::Skipped(_) => true,
        Mark::Done | Mark::Failed => false,
    }
}

/// Writes a line for each event, numbered from 1, as it is made: `NUMBER EVENT: MARK[: RECORD[,
/// RECORD]..]`. EVENT is the event as a line of a script, MARK is `done`, `failed`, or `skipped`
/// and the reason; the records are those that were saved because of it, each as `dump` writes it.
/// Where the lists are of unequal lengths the text goes as far as the shortest.
///
/// # Errors
///
/// Those of the writer, and [`io::ErrorKind::OutOfMemory`] where a growth failed: a part of the
/// lines may be written then.
pub fn write_trace<W: Write>(
    alloc: Global,
    events: &[Event],
    marks: &[Mark],
    saved: &[Vec<Record>],
    output: &mut W,
) -> io::Result<()>
    ensures { OnOk result
        (Appends (W.contents output.old) (W.contents output.new)
        (trace_text events.now marks.now saved.now)) }
{
    let count = events.len().min(marks.len()).min(saved.len());
    for (index, event) in events[..count].iter().enumerate() {
        let line = trace_line(alloc, index + 1, event, marks[index], &saved[index])?;
        output.write_all(line.as_bytes())?;
    }
    Ok(())
}

/// The line of the event of that number.
fn trace_line(
    alloc: Global,
    number: usize,
    event: &Event,
    mark: Mark,
    saved: &[Record],
) -> Result<String, AllocError>
    ensures { IfOk result (λ text. string_bytes text ≡ trace_line number event.now mark saved.now) }
{
    let saved = saved_text(alloc, saved)?;
    format!(in alloc; "{number} {event}: {}{saved}\n", mark_text(mark))
}

/// The records behind a colon, a comma between each two, or nothing where there are none.
fn saved_text(alloc: Global, records: &[Record]) -> Result<String, AllocError>
    ensures { IfOk result (λ text. string_bytes text ≡ saved_text records.now) }
{
    match records.split_first() {
        None => Ok(String::new(alloc)),
        Some((first, others)) => {
            let first = record_text(alloc, first)?;
            format!(in alloc; ": {first}{}", others_text(alloc, others)?)
        }
    }
}

/// Records behind others.
fn others_text(alloc: Global, others: &[Record]) -> Result<String, AllocError>
    ensures { IfOk result (λ text. string_bytes text ≡ flat_map also_text others.now) }
{
    let mut text = String::new(alloc);
    for record in others {
        text.push_str(also_text(alloc, record)?.as_str())?;
    }
    Ok(text)
}

/// A record behind others.
fn also_text(alloc: Global, record: &Record) -> Result<String, AllocError>
    ensures { IfOk result (λ text. string_bytes text ≡ also_text «record».now) }
{
    format!(in alloc; ", {}", record_text(alloc, record)?)
}

/// Returns what became of an event.
fn mark_text(mark: Mark) -> &'static str
    ensures { result.now ≡ mark_text mark }
{
    match mark {
        Mark::Done => "done",
        Mark::Failed => "failed",
        Mark::Skipped(Reason::NoSuch) => "skipped no-such",
        Mark::Skipped(Reason::WrongSide) => "skipped wrong-side",
        Mark::Skipped(Reason::NotUp) => "skipped not-up",
        Mark::Skipped(Reason::Running) => "skipped running",
        Mark::Skipped(Reason::Nothing) => "skipped nothing",
    }
}
