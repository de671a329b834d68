//! The chart of `simulate --chart`: the events of a run as a sequence chart in SVG.

ghost use Rattle.std.specs.Prelude.{ℕ, ◌≡◌, ◌+◌, ◌*◌, ◌/◌, ◌^◌, ◌<◌, ◌≤◌, ◌||◌, nat_lt, min, IfOk, OnOk, List, [], ◌∷◌, ◌++◌, length, slice_get, string_bytes};
ghost use Rattle.std.specs.List.{count_by};
ghost use Rattle.sim.specs.declared.TheConstants.{MOST_EVENTS};
ghost use Rattle.sim.specs.Texts.{calls_text, pick_text};
ghost use Rattle.std.specs.Io.KnownBytes.{Appends};
ghost use Rattle.report.specs.Runs.{AreRows, size_text, page_text, legend_text, picture_top, picture_end, IsChart};
ghost use Rattle.report.specs.Charts.{IsSvg};
ghost use Rattle.report.specs.Columns.{AreNew, FollowAll, said_before};
ghost use Rattle.report.specs.Drawings.{Grows};
ghost use Rattle.report.specs.Pictures.{heads, head_elements, head_text, arrow_words, lie_words, on_question, decision, listed, is_said_of, counted, said_text, said_verb, decided_text};

mod choice;
mod column;
mod drawing;
mod lie;
mod lifelines;

use crate::records::{kind_word, statement_text};
use crate::trace::is_skipped;
pub use choice::Choice;
use choice::chosen_of;
use column::{Column, member_of};
use disk::Pick;
use drawing::{Drawing, Sign, Words};
use lie::lie_label;
use lifelines::lifelines_of;
use sim::{Event, Mark, Which};
use std::alloc::{AllocError, Global};
use std::io::{self, Write};
use terms::{Kind, Record, Size};

/// The distance of a row from the one above it.
const ROW: u64 = 36;

/// The distance of the first row from the top.
const TOP: u64 = 66;

/// The distance of the lifelines' beginning from the top.
const LIFE: u64 = 34;

/// After so many rows the heads of the columns stand again.
const HEADS: u64 = 40;

/// The place at which the events' numbers end.
const NUMBERS: u64 = 40;

/// The look of the classes of the elements, on light pages and on dark ones.
const STYLE: &str =
    "<style>text{font:12px sans-serif;fill:#111;stroke:#fff;stroke-width:3px;paint-order:stroke}\
path{fill:none;stroke:#111;stroke-width:1.5}.page{fill:#fff}\
.head{font-weight:bold;text-anchor:middle}.number{text-anchor:end;fill:#777}.middle{text-anchor:middle}\
.said{fill:#1d4ed8}.note{fill:#777}.lie,.failure{fill:#c81e1e}.failure{text-anchor:end}.opened{fill:#15803d}\
.arrow,.dot{fill:#111}.liar{fill:#c81e1e;stroke:#c81e1e}\
.cross{stroke:#c81e1e;stroke-width:2.5}.ring{stroke:#c81e1e;stroke-width:2;fill:#fff}.triangle{fill:#15803d;stroke:#15803d}\
.runs{stroke:#444}.down{stroke:#aaa;stroke-dasharray:5 4}.lies{stroke:#e79a9a}\
.badge{fill:#15803d}.verdict{fill:#fff;stroke:none;font-weight:bold;text-anchor:middle}\
@media(prefers-color-scheme:dark){text{fill:#eee;stroke:#14171c}path{stroke:#eee}.page{fill:#14171c}\
.number,.note{fill:#999}.said{fill:#8ab4f8}.lie,.failure{fill:#f28b82}.opened{fill:#81c995}.arrow,.dot{fill:#eee}\
.liar{fill:#f28b82;stroke:#f28b82}.cross{stroke:#f28b82}.ring{stroke:#f28b82;fill:#14171c}\
.triangle{fill:#81c995;stroke:#81c995}.runs{stroke:#bbb}.down{stroke:#777}.lies{stroke:#a05252}.verdict{fill:#fff}}</style>";

/// The meaning of the signs, a line each.
const LEGEND: &str = "<path class=\"dot\" d=\"M40 0m-5 0a5 5 0 1 0 10 0a5 5 0 1 0 -10 0z\"/>\
<text x=\"66\" y=\"4\">a proposal comes</text>\n\
<path class=\"arrow\" d=\"M20 20H60m0 0l-8 -4v8z\"/><text x=\"66\" y=\"24\">a statement arrives: question, origin, round, step</text>\n\
<path class=\"liar\" d=\"M20 40H60m0 0l-8 -4v8z\"/><text x=\"66\" y=\"44\">bytes of a liar arrive</text>\n\
<path class=\"cross\" d=\"M40 60m-7 -7l14 14m0 -14l-14 14\"/><text x=\"66\" y=\"64\">a crash, and what it leaves</text>\n\
<path class=\"triangle\" d=\"M40 80m0 -8l8 13h-16z\"/><text x=\"66\" y=\"84\">opened again</text>\n\
<path class=\"ring\" d=\"M40 100m-7 0a7 7 0 1 0 14 0a7 7 0 1 0 -14 0z\"/><text x=\"66\" y=\"104\">the disk fails</text>\n\
<rect class=\"badge\" x=\"24\" y=\"112\" width=\"32\" height=\"17\" rx=\"8\"/><text x=\"66\" y=\"124\">a decision</text>\n\
<path class=\"down\" d=\"M20 140H60\"/><text x=\"66\" y=\"144\">down or stopped</text>\n";

/// The height of the legend.
const LEGEND_HEIGHT: u64 = 160;

/// A run of a cluster: its size, its liars, its events, and of each what became of it and what was
/// saved because of it.
#[derive(Clone, Copy)]
pub struct Run<'a> {
    /// The size of the cluster.
    pub size: Size,
    /// The members that lie.
    pub liars: &'a [u8],
    /// The events, in order.
    pub events: &'a [Event],
    /// The outcome of each event.
    pub marks: &'a [Mark],
    /// The records that were saved because of each event.
    pub saved: &'a [Vec<Record>],
}

/// Draws the events of a run that are chosen and weren't skipped as a sequence chart in SVG, each
/// in a row with its number, counted from 1, and returns how many rows there are. A member's
/// lifeline is solid while it runs, and dashed while it is down or stopped. The columns have their
/// heads at the top and again after each 40 rows; below stands what the signs mean. On a dark page
/// the picture is dark. If the lists are of unequal lengths the chart goes as far as the shortest.
///
/// Events that aren't drawn still count: an arrow carries what it carried in the run, and a
/// lifeline turns where the next row stands.
///
/// The chart is written row by row as it is drawn, so that a long one takes no memory but for the
/// lifelines and a byte for each event.
///
/// # Errors
///
/// Those of the writer, and [`io::ErrorKind::OutOfMemory`] if a growth failed: a part of the chart
/// may be written then.
pub fn write_chart<W: Write>(
    alloc: Global,
    run: &Run<'_>,
    choice: Choice,
    output: &mut W,
) -> io::Result<u64>
    ensures { length run.now.events.now ≤ MOST_EVENTS →
        IfOk result (λ rows. (text : List ℕ)
        × IsChart choice run.now.size run.now.liars.now run.now.events.now run.now.marks.now
        run.now.saved.now rows text × IsSvg text
        × Appends (W.contents output.old) (W.contents output.new) text) }
{
    let size = run.size;
    let chosen = chosen_of(alloc, run, choice)?;
    let mut lines = lifelines_of(alloc, run, &chosen)?;
    let rows = lines.rows();
    let bottom = y_of(rows);
    lines.end(size.n(), bottom)?;
    write_top(alloc, x_of(size.n()), bottom, lines.as_str(), output)?;
    write_rows(alloc, run, &chosen, output)?;
    write_bottom(alloc, bottom, output)?;
    Ok(rows)
}

/// Writes the beginning of a picture of that width, as far down as that, and the lifelines below
/// all else.
fn write_top<W: Write>(
    alloc: Global,
    width: u64,
    bottom: u64,
    lifelines: &str,
    output: &mut W,
) -> io::Result<()>
    ensures { bottom + 196 < 2 ^ 64 →
        OnOk result (Appends (W.contents output.old) (W.contents output.new)
        (picture_top width bottom lifelines.now)) }
{
    let height = bottom.saturating_add(36 + LEGEND_HEIGHT);
    let size = size_text(alloc, width, height)?;
    let page = page_text(alloc, width, height)?;
    let top = format!(in alloc; "<svg {size}{page}{lifelines}")?;
    output.write_all(top.as_bytes())
}

/// The picture's own attributes, and the size of its page.
fn size_text(alloc: Global, width: u64, height: u64) -> Result<String, AllocError>
    ensures { IfOk result (λ text. string_bytes text ≡ size_text width height) }
{
    format!(in alloc;
        "xmlns=\"http://www.w3.org/2000/svg\" width=\"{width}\" height=\"{height}\" viewBox=\"0 0 {width} {height}\">\n"
    )
}

/// Returns how the elements look, and the page below them.
fn page_text(alloc: Global, width: u64, height: u64) -> Result<String, AllocError>
    ensures { IfOk result (λ text. string_bytes text ≡ page_text width height) }
{
    format!(in alloc;
        "{}\n<rect class=\"page\" width=\"{width}\" height=\"{height}\"/>\n",
        STYLE
    )
}

/// Writes the heads of the columns, and the rows of the events that are chosen, each as soon as it
/// is drawn.
fn write_rows<W: Write>(
    alloc: Global,
    run: &Run<'_>,
    chosen: &[bool],
    output: &mut W,
) -> io::Result<()>
    ensures { length run.now.events.now ≤ MOST_EVENTS →
        OnOk result ((rows : List ℕ) × AreRows run.now.size run.now.liars.now run.now.events.now
        run.now.marks.now run.now.saved.now chosen.now rows
        × Appends (W.contents output.old) (W.contents output.new) rows) }
{
    let count = shortest(run).min(chosen.len());
    let mut canvas = Canvas::new(alloc, run.size, run.liars)?;
    canvas.write_out(output)?;
    for (index, event) in run.events[..count].iter().enumerate() {
        let number = index + 1;
        canvas.take(
            number,
            event,
            run.marks[index],
            &run.saved[index],
            chosen[index],
        )?;
        canvas.write_out(output)?;
    }
    Ok(())
}

/// Returns how many events are drawn: as many as the shortest of the lists has.
fn shortest(run: &Run<'_>) -> usize
    ensures { result
        ≡ min (min (length run.now.events.now) (length run.now.marks.now))
        (length run.now.saved.now) }
{
    run.events.len().min(run.marks.len()).min(run.saved.len())
}

/// The rows of a run, as far as they are drawn, and those of them that aren't written yet.
#[derive(Drop)]
struct Canvas {
    alloc: Global,
    size: Size,
    columns: Vec<Column>,
    events: Drawing,
    rows: u64,
}

impl Canvas {
    ghost use Rattle.std.specs.Prelude.{ℕ, ◌≡◌, ◌+◌, ◌<◌, IfOk, OnOk, Some, List, length, slice_get, string_bytes};
    ghost use Rattle.sim.specs.declared.TheConstants.{MOST_EVENTS};
    ghost use Rattle.std.specs.Io.KnownBytes.{Appends};
    ghost use Rattle.report.specs.Scenes.{DrawsOnly, IsBegun, Draws, DrawsIf};
    ghost use Rattle.report.specs.Charts.{delivered, group_count, group_text, text_if, IsLieLabel};
    ghost use Rattle.report.specs.Columns.{FollowAll};
    ghost use Rattle.report.specs.Drawings.{Element, Grows};
    ghost use Rattle.report.specs.Places.{row_y};
    ghost use Rattle.report.specs.Pictures.{Carries, CarriesGroup, IsShown, IsRow, heads, heads_again, proposal_elements, arrow_elements, far_words, lie_elements, fuse_elements, crash_elements, restart_elements, reset_elements, failure_elements, saved_elements};
    ghost use Rattle.report.specs.declared.chart.column.Column.{Column};

    /// The columns, before the first event.
    fn new(alloc: Global, size: Size, liars: &[u8]) -> Result<Canvas, AllocError>
        ensures { IfOk result (IsBegun size liars.now) }
    {
        let columns = new_columns(alloc, size.n(), liars)?;
        let mut scene = Canvas {
            alloc,
            size,
            columns,
            events: Drawing::new(alloc),
            rows: 0,
        };
        scene.show_heads(24)?;
        Ok(scene)
    }

    /// Draws the heads of the columns that far down.
    fn show_heads(&mut self, y: u64) -> Result<(), AllocError>
        ensures only { DrawsOnly self.old self.new }
        ensures drawn { OnOk result
            (Grows self.old.events self.new.events
            (heads self.old.size.n self.old.columns.items y)) }
    {
        let n = self.size.n();
        draw_heads(self.alloc, &mut self.events, n, self.columns.as_slice(), y)
    }

    /// Draws the heads again above a row, where so many rows stand without them.
    fn show_heads_again(&mut self, row: u64, y: u64) -> Result<(), AllocError>
        ensures only { DrawsOnly self.old self.new }
        ensures drawn { OnOk result (Grows self.old.events self.new.events
            (heads_again self.old.size.n self.old.columns.items row y)) }
    {
        if row > 0 && row % HEADS == 0 {
            self.show_heads(y.saturating_sub(ROW))?;
        }
        Ok(())
    }

    /// Draws an event that wasn't skipped into a row of its own.
    fn draw(
        &mut self,
        number: usize,
        event: &Event,
        mark: Mark,
        saved: &[Record],
    ) -> Result<(), AllocError>
        ensures follow { OnOk result
            (FollowAll event.now mark saved.now self.old.columns.items self.new.columns.items) }
        ensures row { OnOk result
            (self.old.rows < MOST_EVENTS → self.new.rows ≡ self.old.rows + 1) }
        ensures draws { OnOk result
            (self.old.rows < MOST_EVENTS → Draws number event.now mark saved.now self.old
            self.new) }
    {
        let row = self.rows;
        self.rows = row.saturating_add(1);
        self.show_row(row, number, event, mark, saved)?;
        self.follow(event, mark, saved)?;
        Ok(())
    }

    /// Takes an event: draws it if it is chosen, and follows it, unless it was skipped.
    fn take(
        &mut self,
        number: usize,
        event: &Event,
        mark: Mark,
        saved: &[Record],
        is_chosen: bool,
    ) -> Result<(), AllocError>
        ensures { OnOk result
            (self.old.rows < MOST_EVENTS → DrawsIf is_chosen number event.now mark saved.now
            self.old self.new) }
    {
        if is_skipped(&mark) {
            return Ok(());
        }
        if !is_chosen {
            self.follow(event, mark, saved)?;
            return Ok(());
        }
        self.draw(number, event, mark, saved)?;
        Ok(())
    }

    /// Draws the row of an event.
    fn show_row(
        &mut self,
        row: u64,
        number: usize,
        event: &Event,
        mark: Mark,
        saved: &[Record],
    ) -> Result<(), AllocError>
        ensures only { DrawsOnly self.old self.new }
        ensures drawn { OnOk result
            (row ≤ MOST_EVENTS → (elements : List Element)
            × IsRow self.old.size self.old.columns.items row (row_y row) number event.now mark
            saved.now elements × Grows self.old.events self.new.events elements) }
    {
        let y = y_of(row);
        self.show_heads_again(row, y)?;
        let number = format!(in self.alloc; "{number}")?;
        self.events
            .words(Words::Number, NUMBERS, y, number.as_str())?;
        self.show(event, mark, y)?;
        self.show_failure(member_of(event), mark, y)?;
        self.show_saved(event, saved, y)
    }

    /// Draws what happens.
    fn show(&mut self, event: &Event, mark: Mark, y: u64) -> Result<(), AllocError>
        ensures only { DrawsOnly self.old self.new }
        ensures drawn { OnOk result
            ((elements : List Element) × IsShown self.old.size self.old.columns.items event.now mark
            y elements × Grows self.old.events self.new.events elements) }
    {
        match event {
            Event::Propose {
                member,
                question,
                bit,
                ..
            } => self.show_proposal(*member, *question, *bit, y),
            Event::Deliver {
                from,
                to,
                which,
                ..
            } => self.show_delivery(*from, *to, *which, y),
            Event::DeliverAll {
                from,
                to,
                count,
                ..
            } => self.show_group(*from, *to, *count, y),
            Event::LieBytes {
                liar,
                to,
                bytes,
                ..
            } => self.show_lie(*liar, *to, bytes.as_slice(), y),
            Event::Fuse { member, calls } => self.show_fuse(*member, *calls, y),
            Event::Crash { member, pick } => self.show_crash(*member, *pick, y),
            Event::Restart { member } => self.show_restart(*member, mark, y),
            Event::Reset { from, to } => self.show_reset(*from, *to, y),
        }
    }

    /// Draws a proposal.
    fn show_proposal(
        &mut self,
        member: u8,
        question: u16,
        bit: bool,
        y: u64,
    ) -> Result<(), AllocError>
        ensures only { DrawsOnly self.old self.new }
        ensures drawn { OnOk result
            (Grows self.old.events self.new.events
            (proposal_elements self.old.size.questions member question bit y)) }
    {
        let x = x_of(member);
        let on = on_question(self.alloc, self.size.questions(), question)?;
        let words = format!(in self.alloc; "proposes {}{on}", u8::from(bit))?;
        self.events.sign(Sign::Dot, x, y)?;
        self.events.words(Words::Proposal, x, y, words.as_str())
    }

    /// Returns what a delivery carries.
    fn carried(&self, from: u8, to: u8, which: Which) -> Result<String, AllocError>
        ensures text { (sender receiver : Column) (place : ℕ) →
            slice_get self.now.columns.items from ≡ Some sender →
            slice_get self.now.columns.items to ≡ Some receiver →
            slice_get receiver.places.items from ≡ Some place →
            IfOk result (λ text. string_bytes text
            ≡ text_if (delivered sender.said.items place which)) }
        ensures carries { IfOk result
            (λ text. Carries self.now.columns.items from to which (string_bytes text)) }
    {
        let (Some(sender), Some(receiver)) = (
            self.columns.get(usize::from(from)),
            self.columns.get(usize::from(to)),
        ) else {
            return Ok(String::new(self.alloc));
        };
        match receiver.takes(from, sender, which) {
            Some(statement) => statement_text(self.alloc, statement),
            None => Ok(String::new(self.alloc)),
        }
    }

    /// Returns what a group carries: how many statements it has.
    fn carried_together(&self, from: u8, to: u8, count: u16) -> Result<String, AllocError>
        ensures text { (sender receiver : Column) (place : ℕ) →
            slice_get self.now.columns.items from ≡ Some sender →
            slice_get self.now.columns.items to ≡ Some receiver →
            slice_get receiver.places.items from ≡ Some place →
            IfOk result (λ text. string_bytes text
            ≡ group_text (group_count (length sender.said.items) place count)) }
        ensures carries { IfOk result
            (λ text. CarriesGroup self.now.columns.items from to count (string_bytes text)) }
    {
        let (Some(sender), Some(receiver)) = (
            self.columns.get(usize::from(from)),
            self.columns.get(usize::from(to)),
        ) else {
            return Ok(String::new(self.alloc));
        };
        format!(in self.alloc; "group of {}", receiver.takes_together(from, sender, count))
    }

    /// Draws a delivery.
    fn show_delivery(&mut self, from: u8, to: u8, which: Which, y: u64) -> Result<(), AllocError>
        ensures only { DrawsOnly self.old self.new }
        ensures drawn { OnOk result
            ((text : List ℕ) × Carries self.old.columns.items from to which text
            × Grows self.old.events self.new.events (arrow_elements from to text y)) }
    {
        let carried = self.carried(from, to, which)?;
        self.show_arrow(from, to, carried.as_str(), y)
    }

    /// Draws a group, which has one arrow.
    fn show_group(&mut self, from: u8, to: u8, count: u16, y: u64) -> Result<(), AllocError>
        ensures only { DrawsOnly self.old self.new }
        ensures drawn { OnOk result
            ((text : List ℕ) × CarriesGroup self.old.columns.items from to count text
            × Grows self.old.events self.new.events (arrow_elements from to text y)) }
    {
        let carried = self.carried_together(from, to, count)?;
        self.show_arrow(from, to, carried.as_str(), y)
    }

    /// Draws an arrow between correct members, and what it carries.
    fn show_arrow(&mut self, from: u8, to: u8, carried: &str, y: u64) -> Result<(), AllocError>
        ensures only { DrawsOnly self.old self.new }
        ensures drawn { OnOk result
            (Grows self.old.events self.new.events (arrow_elements from to carried.now y)) }
    {
        let (start, end) = (x_of(from), x_of(to));
        if from == to {
            self.events.turn(start, y)?;
            return self.events.words(Words::Turn, start, y, carried);
        }
        self.events.arrow(false, start, end, y)?;
        self.events
            .words(arrow_words(from < to), start, y, carried)?;
        self.show_far(arrow_words(to < from), from, to, carried, y)
    }

    /// Writes what an arrow carries at its head too, where it is long.
    fn show_far(
        &mut self,
        what: Words,
        from: u8,
        to: u8,
        carried: &str,
        y: u64,
    ) -> Result<(), AllocError>
        ensures only { DrawsOnly self.old self.new }
        ensures drawn { OnOk result
            (Grows self.old.events self.new.events (far_words what from to carried.now y)) }
    {
        if !is_long(from, to) {
            return Ok(());
        }
        self.events.words(what, x_of(to), y, carried)
    }

    /// Draws a lie.
    fn show_lie(&mut self, liar: u8, to: u8, bytes: &[u8], y: u64) -> Result<(), AllocError>
        ensures only { DrawsOnly self.old self.new }
        ensures drawn { OnOk result ((label : List ℕ) × IsLieLabel self.old.size bytes.now label ×
            Grows self.old.events self.new.events (lie_elements liar to label y)) }
    {
        let label = lie_label(self.alloc, self.size, bytes)?;
        self.show_lie_of(liar, to, label.as_str(), y)
    }

    /// Draws an arrow of a liar, and what it carries.
    fn show_lie_of(&mut self, liar: u8, to: u8, label: &str, y: u64) -> Result<(), AllocError>
        ensures only { DrawsOnly self.old self.new }
        ensures drawn { OnOk result
            (Grows self.old.events self.new.events (lie_elements liar to label.now y)) }
    {
        self.events.arrow(true, x_of(liar), x_of(to), y)?;
        self.events
            .words(lie_words(liar < to), x_of(liar), y, label)?;
        self.show_far(lie_words(to < liar), liar, to, label, y)
    }

    /// Draws a fuse that is set or taken out.
    fn show_fuse(&mut self, member: u8, calls: Option<u64>, y: u64) -> Result<(), AllocError>
        ensures only { DrawsOnly self.old self.new }
        ensures drawn { OnOk result
            (Grows self.old.events self.new.events (fuse_elements member calls y)) }
    {
        let calls = calls_text(self.alloc, calls)?;
        let words = format!(in self.alloc; "fuse {calls}")?;
        self.events
            .words(Words::Note, x_of(member), y, words.as_str())
    }

    /// Draws a crash.
    fn show_crash(&mut self, member: u8, pick: Pick, y: u64) -> Result<(), AllocError>
        ensures only { DrawsOnly self.old self.new }
        ensures drawn { OnOk result
            (Grows self.old.events self.new.events (crash_elements member pick y)) }
    {
        let left = pick_text(self.alloc, pick)?;
        let words = format!(in self.alloc; "crash {left}")?;
        self.events.sign(Sign::Cross, x_of(member), y)?;
        self.events
            .words(Words::Crash, x_of(member), y, words.as_str())
    }

    /// Draws an opening, unless it failed.
    fn show_restart(&mut self, member: u8, mark: Mark, y: u64) -> Result<(), AllocError>
        ensures only { DrawsOnly self.old self.new }
        ensures drawn { OnOk result
            (Grows self.old.events self.new.events (restart_elements member mark y)) }
    {
        if mark != Mark::Done {
            return Ok(());
        }
        self.events.sign(Sign::Triangle, x_of(member), y)?;
        self.events
            .words(Words::Restart, x_of(member), y, "restart")
    }

    /// Draws a link that starts anew.
    fn show_reset(&mut self, from: u8, to: u8, y: u64) -> Result<(), AllocError>
        ensures only { DrawsOnly self.old self.new }
        ensures drawn { OnOk result
            (Grows self.old.events self.new.events (reset_elements from to y)) }
    {
        let words = format!(in self.alloc; "reset {from}")?;
        self.events.words(Words::Note, x_of(to), y, words.as_str())
    }

    /// Draws that a disk failed, where it did.
    fn show_failure(&mut self, member: u8, mark: Mark, y: u64) -> Result<(), AllocError>
        ensures only { DrawsOnly self.old self.new }
        ensures drawn { OnOk result
            (Grows self.old.events self.new.events (failure_elements member mark y)) }
    {
        if mark != Mark::Failed {
            return Ok(());
        }
        self.events.sign(Sign::Ring, x_of(member), y)?;
        self.events
            .words(Words::Failure, x_of(member), y, "disk fails")
    }

    /// Writes what was saved because of the event.
    fn show_saved(&mut self, event: &Event, saved: &[Record], y: u64) -> Result<(), AllocError>
        ensures only { DrawsOnly self.old self.new }
        ensures drawn { OnOk result
            (Grows self.old.events self.new.events
            (saved_elements self.old.size.questions event.now saved.now y)) }
    {
        let own = member_of(event);
        let x = x_of(own);
        let said = said_text(self.alloc, said_verb(event), saved)?;
        let decided = decided_text(self.alloc, self.size.questions(), saved)?;
        if decided.is_empty() {
            return self.events.words(Words::Said, x, y, said.as_str());
        }
        self.events.badge(x, y, decided.as_str(), said.as_str())
    }

    /// Follows the event.
    fn follow(&mut self, event: &Event, mark: Mark, saved: &[Record]) -> Result<(), AllocError>
        ensures follow { OnOk result
            (FollowAll event.now mark saved.now self.old.columns.items self.new.columns.items) }
        ensures count { OnOk result
            (length self.new.columns.items ≡ length self.old.columns.items) }
        ensures rest { self.new ≡ record self.old { columns = self.new.columns } }
    {
        follow_all(&mut self.columns, event, mark, saved)
    }

    /// Writes what is drawn and wasn't written yet.
    fn write_out<W: Write>(&mut self, output: &mut W) -> io::Result<()>
        ensures only { OnOk result (DrawsOnly self.old self.new) }
        ensures written { OnOk result
            (Appends (W.contents output.old) (W.contents output.new)
            (string_bytes self.old.events.text)) }
        ensures rest { OnOk result (string_bytes self.new.events.text ≡ []) }
    {
        output.write_all(self.events.as_str().as_bytes())?;
        self.events.clear();
        Ok(())
    }
}

/// The columns of n members before the first event.
fn new_columns(alloc: Global, n: u8, liars: &[u8]) -> Result<Vec<Column>, AllocError>
    ensures { IfOk result (λ columns. AreNew n n liars.now columns.items) }
{
    let mut columns = Vec::new(alloc);
    for member in 0..n {
        let is_liar = liars.contains(&member);
        columns.push(Column::new(alloc, n, is_liar)?)?;
    }
    Ok(columns)
}

/// Draws the heads of the columns of n members that far down.
fn draw_heads(
    alloc: Global,
    events: &mut Drawing,
    n: u8,
    columns: &[Column],
    y: u64,
) -> Result<(), AllocError>
    ensures { OnOk result (Grows events.old events.new (heads n columns.now y)) }
{
    for member in 0..n {
        draw_head(alloc, events, columns, member, y)?;
    }
    Ok(())
}

/// Draws the head of a member's column that far down.
fn draw_head(
    alloc: Global,
    events: &mut Drawing,
    columns: &[Column],
    member: u8,
    y: u64,
) -> Result<(), AllocError>
    ensures { OnOk result
        (Grows events.old events.new (head_elements (slice_get columns.now member) member y)) }
{
    match columns.get(usize::from(member)) {
        None => Ok(()),
        Some(column) => {
            let name = head_text(alloc, member, column.is_liar())?;
            events.words(Words::Head, x_of(member), y, name.as_str())
        }
    }
}

/// The name of a member, and whether it lies.
fn head_text(alloc: Global, member: u8, is_liar: bool) -> Result<String, AllocError>
    ensures { IfOk result (λ text. string_bytes text ≡ head_text member is_liar) }
{
    if is_liar {
        format!(in alloc; "member {member} (lies)")
    } else {
        format!(in alloc; "member {member}")
    }
}

/// Returns the place of that member's lifeline.
fn x_of(member: u8) -> u64
    ensures { result ≡ 220 * member + 110 }
{
    220 * u64::from(member) + 110
}

/// Returns the place of the row of that number, counted from 0. After each 40 rows there is room
/// for the heads.
fn y_of(row: u64) -> u64
    ensures { row ≤ MOST_EVENTS → result ≡ 36 * (row + row / 40) + 66 }
{
    row.saturating_add(row / HEADS)
        .saturating_mul(ROW)
        .saturating_add(TOP)
}

/// The words of an arrow to the right, or else to the left.
fn arrow_words(is_rightward: bool) -> Words
    ensures { result ≡ arrow_words is_rightward }
{
    if is_rightward {
        Words::Rightward
    } else {
        Words::Leftward
    }
}

/// Returns `true` if an arrow crosses two columns or more.
fn is_long(from: u8, to: u8) -> bool
    ensures { result ≡ (nat_lt (from + 1) to || nat_lt (to + 1) from) }
{
    from.abs_diff(to) > 1
}

/// The words of a liar's arrow to the right, or else to the left.
fn lie_words(is_rightward: bool) -> Words
    ensures { result ≡ lie_words is_rightward }
{
    if is_rightward {
        Words::LieRightward
    } else {
        Words::LieLeftward
    }
}

/// Returns how many calls a fuse lets pass.
fn calls_text(alloc: Global, calls: Option<u64>) -> Result<String, AllocError>
    ensures { IfOk result (λ text. string_bytes text ≡ calls_text calls) }
{
    match calls {
        None => String::from_str(alloc, "off"),
        Some(calls) => format!(in alloc; "{calls}"),
    }
}

/// Returns what a crash leaves: `kept`, `lost`, or `fill` and the byte in two hexadecimal digits.
fn pick_text(alloc: Global, pick: Pick) -> Result<String, AllocError>
    ensures { IfOk result (λ text. string_bytes text ≡ pick_text pick) }
{
    match pick {
        Pick::Kept => String::from_str(alloc, "kept"),
        Pick::Lost => String::from_str(alloc, "lost"),
        Pick::Fill(byte) => format!(in alloc; "fill {byte:02x}"),
    }
}

/// Returns what was said, by kinds, behind the verb; nothing where nothing was.
fn said_text(alloc: Global, verb: &str, saved: &[Record]) -> Result<String, AllocError>
    ensures { 0 < length verb.now →
        IfOk result (λ text. string_bytes text ≡ said_text verb.now saved.now) }
{
    let mut text = String::new(alloc);
    for kind in [Kind::Initial, Kind::Echo, Kind::Ready] {
        add_kind(alloc, &mut text, verb, kind, count_of(kind, saved))?;
    }
    Ok(text)
}

/// Adds so many statements of a kind to a list behind a verb; nothing where there are none.
fn add_kind(
    alloc: Global,
    text: &mut String,
    verb: &str,
    kind: Kind,
    count: usize,
) -> Result<(), AllocError>
    ensures { (parts : List (List ℕ)) → 0 < length verb.now →
        string_bytes text.old ≡ listed verb.now parts →
        OnOk result (string_bytes text.new ≡ listed verb.now (parts ++ counted kind count)) }
{
    let word = kind_word(kind);
    match count {
        0 => Ok(()),
        1 => add_part(text, verb, word),
        many => {
            let part = format!(in alloc; "{many} {word}s")?;
            add_part(text, verb, part.as_str())
        }
    }
}

/// Returns how many statements of that kind are among the records.
fn count_of(kind: Kind, saved: &[Record]) -> usize
    ensures { result ≡ count_by (is_said_of kind) saved.now }
{
    saved
        .iter()
        .filter(|record| matches!(record, Record::Said(statement) if statement.kind() == kind))
        .count()
}

/// Returns what a member does with the statements that are saved because of the event.
fn said_verb(event: &Event) -> &'static str
    ensures { result.now ≡ said_verb event.now }
{
    match event {
        Event::Restart { .. } => "keeps",
        _ => "says",
    }
}

/// Returns what was decided; nothing where nothing was.
fn decided_text(alloc: Global, questions: u16, saved: &[Record]) -> Result<String, AllocError>
    ensures { IfOk result (λ text. string_bytes text ≡ decided_text questions saved.now) }
{
    let mut text = String::new(alloc);
    for record in saved {
        if let Record::Decided { question, bit, .. } = *record {
            let decision = decision(alloc, questions, question, bit)?;
            add_part(&mut text, "decides", decision.as_str())?;
        }
    }
    Ok(text)
}

/// A decision.
fn decision(alloc: Global, questions: u16, question: u16, bit: bool) -> Result<String, AllocError>
    ensures { IfOk result (λ text. string_bytes text ≡ decision questions question bit) }
{
    let on = on_question(alloc, questions, question)?;
    format!(in alloc; "{}{on}", u8::from(bit))
}

/// The question, where there are several.
fn on_question(alloc: Global, questions: u16, question: u16) -> Result<String, AllocError>
    ensures { IfOk result (λ text. string_bytes text ≡ on_question questions question) }
{
    if questions > 1 {
        format!(in alloc; " on {question}")
    } else {
        Ok(String::new(alloc))
    }
}

/// Adds a part to a list behind a verb.
fn add_part(text: &mut String, verb: &str, part: &str) -> Result<(), AllocError>
    ensures { (parts : List (List ℕ)) → 0 < length verb.now →
        string_bytes text.old ≡ listed verb.now parts →
        OnOk result (string_bytes text.new ≡ listed verb.now (parts ++ part.now ∷ [])) }
{
    let before = if text.is_empty() { verb } else { "," };
    text.push_str(before)?;
    text.push_str(" ")?;
    text.push_str(part)
}

/// Follows the event with the columns of all members.
fn follow_all(
    columns: &mut Vec<Column>,
    event: &Event,
    mark: Mark,
    saved: &[Record],
) -> Result<(), AllocError>
    ensures follow { OnOk result
        (FollowAll event.now mark saved.now columns.old.items columns.new.items) }
    ensures count { OnOk result (length columns.new.items ≡ length columns.old.items) }
{
    let said = said_before(columns, event);
    match columns.get_mut(usize::from(member_of(event))) {
        None => Ok(()),
        Some(column) => column.follow(said, event, mark, saved),
    }
}

/// Counts the statements that the sender of a group has said; other events go by no such count.
fn said_before(columns: &[Column], event: &Event) -> usize
    ensures { result ≡ said_before event.now columns.now }
{
    let Event::DeliverAll { from, .. } = event else {
        return 0;
    };
    match columns.get(usize::from(*from)) {
        Some(column) => column.said_count(),
        None => 0,
    }
}

/// Writes the end of a picture that is as far down as that: what the signs mean.
fn write_bottom<W: Write>(alloc: Global, bottom: u64, output: &mut W) -> io::Result<()>
    ensures { bottom + 36 < 2 ^ 64 →
        OnOk result (Appends (W.contents output.old) (W.contents output.new) (picture_end bottom)) }
{
    let legend = legend_text(alloc, bottom.saturating_add(36))?;
    let end = format!(in alloc; "{legend}</svg>\n")?;
    output.write_all(end.as_bytes())
}

/// Returns what the signs mean, that far down.
fn legend_text(alloc: Global, below: u64) -> Result<String, AllocError>
    ensures { IfOk result (λ text. string_bytes text ≡ legend_text below) }
{
    format!(in alloc; "<g transform=\"translate(0,{below})\">\n{}</g>\n", LEGEND)
}
