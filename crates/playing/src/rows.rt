//! A run's events as rows of a table in JSON: those that weren't skipped, as many as a page has.

ghost use Rattle.std.specs.Prelude.{◌≡◌, IfOk, OnOk, string_bytes};
ghost use Rattle.std.specs.Io.KnownBytes.{Appends};
ghost use Rattle.playing.specs.Rows.{failed_text, row_text, row_if, left_after, rows_text};

use crate::codes::records_json;
use report::is_skipped;
use sim::{Event, Mark, Outcome};
use std::alloc::{AllocError, Global};
use std::io::{self, Write};
use terms::Record;

/// The greatest number of events that a page has, of those that weren't skipped.
pub const MOST_ROWS: usize = 200_000;

/// Writes the rows of the events that weren't skipped, the first [`MOST_ROWS`] of them, each after
/// a comma and the end of a line.
///
/// # Errors
///
/// Those of the writer, and [`io::ErrorKind::OutOfMemory`] if a growth failed: a part of the rows
/// may be written then.
pub(crate) fn write_rows<W: Write>(
    alloc: Global,
    events: &[Event],
    outcome: &Outcome,
    output: &mut W,
) -> io::Result<()>
    ensures { OnOk result (Appends (W.contents output.old) (W.contents output.new)
        (rows_text events.now outcome.now.marks.items outcome.now.saved.items)) }
{
    let marks = outcome.marks.as_slice();
    let saved = outcome.saved.as_slice();
    let count = events.len().min(marks.len()).min(saved.len());
    let mut left = MOST_ROWS;
    for (index, event) in events[..count].iter().enumerate() {
        let row = Row {
            number: index + 1,
            event,
            mark: marks[index],
            saved: &saved[index],
        };
        left = write_row(alloc, left, &row, output)?;
    }
    Ok(())
}

/// Writes the row of an event, unless it was skipped or no row is left. Returns how many rows are
/// left after it.
fn write_row<W: Write>(
    alloc: Global,
    left: usize,
    row: &Row<'_>,
    output: &mut W,
) -> io::Result<usize>
    ensures left { IfOk result (λ now. now ≡ left_after left row.now.mark) }
    ensures written { OnOk result (Appends (W.contents output.old) (W.contents output.new)
        (row_if left row.now.number row.now.event.now row.now.mark row.now.saved.now)) }
{
    if left == 0 || is_skipped(&row.mark) {
        return Ok(left);
    }
    let text = row_text(alloc, row)?;
    output.write_all(text.as_bytes())?;
    Ok(left - 1)
}

/// Returns the row of an event: its number, the line of a script that says it, and the records that
/// were saved because of it.
fn row_text(alloc: Global, row: &Row<'_>) -> Result<String, AllocError>
    ensures { IfOk result (λ text. string_bytes text ≡
        row_text row.now.number row.now.event.now row.now.mark row.now.saved.now) }
{
    let Row {
        number,
        event,
        mark,
        saved,
    } = *row;
    let records = records_json(alloc, saved)?;
    format!(in alloc;
        ",\n[{number},\"{event}\",[{records}]{}]",
        failed_text(mark)
    )
}

/// An event of a run, with its number, counted from 1, and its outcome.
#[derive(Clone, Copy)]
struct Row<'a> {
    number: usize,
    event: &'a Event,
    mark: Mark,
    saved: &'a [Record],
}

/// Returns the last field of a row, which only events have in which a disk failed.
fn failed_text(mark: Mark) -> &'static str
    ensures { result.now ≡ failed_text mark }
{
    match mark {
        Mark::Failed => ",\"failed\"",
        Mark::Done | Mark::Skipped(_) => "",
    }
}
