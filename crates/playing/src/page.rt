//! The page that plays a run: a page's two parts, and the run's object between them.

ghost use Rattle.std.specs.Prelude.{◌≡◌, ◌++◌, IfOk, OnOk, string_bytes};
ghost use Rattle.std.specs.Io.KnownBytes.{Appends};
ghost use Rattle.playing.specs.Pages.{fields_json, run_json, page_text};

use crate::heads::{counts_json, name_json, size_json, verdict_rows};
use crate::rows::write_rows;
use sim::{Event, Outcome};
use std::alloc::{AllocError, Global};
use std::io::{self, Write};
use terms::Size;

/// A page without its run: the parts before and after the run's object.
#[derive(Clone, Copy)]
pub struct Template<'a> {
    /// The text up to the beginning of the element that holds the run.
    pub before: &'a str,
    /// The text from the end of that element on.
    pub after: &'a str,
}

/// A run of a cluster, with the name that its page shows.
#[derive(Clone, Copy)]
pub struct Run<'a> {
    /// The name, such as that of the script's file.
    pub name: &'a str,
    /// The size of the cluster.
    pub size: Size,
    /// The members that lie.
    pub liars: &'a [u8],
    /// The events, in order.
    pub events: &'a [Event],
    /// The outcome of each event, and the decisions.
    pub outcome: &'a Outcome,
}

/// The headings of the columns of decisions.
const DECIDED: &str = "\"decided\":[[\"member\",\"question\",\"round\",\"bit\"]";

/// The end of the decisions, and the headings of the columns of events.
const ROWS: &str = "],\n\"rows\":[[\"event\",\"line\",\"records\"]";

/// Writes a page that plays a run: the template, and between its parts the run as an object in
/// JSON, in which no `<` of its name stands. The object has the name, the size, the liars and the
/// counts of events, each decision that a correct member has saved, and a row for each event that
/// wasn't skipped, at most [`crate::MOST_ROWS`]: later ones are counted as left out. The page is
/// written row by row.
///
/// # Errors
///
/// Those of the writer, and [`io::ErrorKind::OutOfMemory`] if a growth failed: a part of the page
/// may be written then.
pub fn write_page<W: Write>(
    alloc: Global,
    run: &Run<'_>,
    template: &Template<'_>,
    output: &mut W,
) -> io::Result<()>
    ensures { OnOk result
        (Appends (W.contents output.old) (W.contents output.new)
        (page_text template.now.before.now template.now.after.now
        (run_json run.now.name.now run.now.size run.now.liars.now run.now.events.now
        run.now.outcome.now))) }
{
    output.write_all(template.before.as_bytes())?;
    write_run(alloc, run, output)?;
    output.write_all(template.after.as_bytes())
}

/// Writes the object of a run in JSON.
fn write_run<W: Write>(alloc: Global, run: &Run<'_>, output: &mut W) -> io::Result<()>
    ensures { OnOk result
        (Appends (W.contents output.old) (W.contents output.new)
        (run_json run.now.name.now run.now.size run.now.liars.now run.now.events.now
        run.now.outcome.now)) }
{
    let name = name_json(alloc, run.name)?;
    output.write_all(&name)?;
    let fields = fields_json(alloc, run)?;
    output.write_all(fields.as_bytes())?;
    write_rows(alloc, run.events, run.outcome, output)?;
    output.write_all(b"]}\n")
}

/// Returns what stands between a run's name and its events.
fn fields_json(alloc: Global, run: &Run<'_>) -> Result<String, AllocError>
    ensures { IfOk result
        (λ text. string_bytes text ≡ fields_json run.now.size run.now.liars.now
        run.now.outcome.now) }
{
    let size = size_json(alloc, run.size, run.liars)?;
    let counts = counts_json(alloc, &run.outcome.marks)?;
    let decided = verdict_rows(alloc, &run.outcome.verdicts)?;
    format!(in alloc; "{size}{counts}{}{decided}{}", DECIDED, ROWS)
}
