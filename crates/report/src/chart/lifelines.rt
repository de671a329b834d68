//! The members' lifelines: the pieces that each of them has, from an opening to a crash or a
//! failure.

ghost use Rattle.std.specs.Prelude.{◌≡◌, ◌+◌, ◌<◌, ◌≤◌, ◌++◌, if◌then◌else◌, IfOk, OnOk, Some, length, slice_get, string_bytes};
ghost use Rattle.sim.specs.declared.TheConstants.{MOST_EVENTS};
ghost use Rattle.report.specs.Charts.{member_of};
ghost use Rattle.report.specs.Drawings.{Grows, picture_text};
ghost use Rattle.report.specs.Lives.{runs_after, first_lives, piece_elements, last_piece, last_pieces, drawn_lines, lines_of_run};

use crate::chart::column::member_of;
use crate::chart::drawing::{Drawing, Lifeline};
use crate::chart::{LIFE, Run, shortest, x_of, y_of};
use crate::trace::is_skipped;
use sim::{Event, Mark};
use std::alloc::{AllocError, Global};

/// Returns `true` if the event's member runs after it, if it ran before or not.
fn runs_after(event: &Event, mark: Mark, runs: bool) -> bool
    ensures { result ≡ runs_after event.now mark runs }
{
    match (event, mark) {
        (_, Mark::Skipped(_)) => runs,
        (_, Mark::Failed) | (Event::Crash { .. }, Mark::Done) => false,
        (Event::Restart { .. }, Mark::Done) => true,
        (_, Mark::Done) => runs,
    }
}

/// Counts the rows after an event: one more if it is chosen.
fn rows_after(rows: u64, is_chosen: bool) -> u64
    ensures { rows < MOST_EVENTS → result ≡ (if is_chosen then rows + 1 else rows) }
{
    if is_chosen {
        rows.saturating_add(1)
    } else {
        rows
    }
}

/// A member's life: whether it lies and whether it runs, and how far down its lifeline is drawn.
#[derive(Clone, Copy)]
pub(crate) struct Life {
    is_liar: bool,
    runs: bool,
    drawn: u64,
}

impl Life {
    ghost use Rattle.std.specs.Prelude.{◌≡◌};
    ghost use Rattle.report.specs.Lives.{line_of, turns, first_life, life_after};

    /// A member that runs, before the first event.
    fn new(is_liar: bool) -> Life
        ensures { result ≡ first_life is_liar }
    {
        Life {
            is_liar,
            runs: true,
            drawn: LIFE,
        }
    }

    /// Returns how its lifeline looks.
    fn line(self) -> Lifeline
        ensures { result ≡ line_of self.is_liar self.runs }
    {
        match (self.is_liar, self.runs) {
            (true, _) => Lifeline::Lies,
            (false, true) => Lifeline::Runs,
            (false, false) => Lifeline::Down,
        }
    }

    /// Returns `true` if another piece of its lifeline begins with the event.
    fn turns(self, event: &Event, mark: Mark) -> bool
        ensures { result ≡ turns event.now mark self.runs }
    {
        if self.runs {
            !runs_after(event, mark, true)
        } else {
            runs_after(event, mark, false)
        }
    }

    /// Returns the lifeline after an event that is so far down.
    fn after(self, event: &Event, mark: Mark, y: u64) -> Life
        ensures { result ≡ life_after event.now mark y self }
    {
        if self.turns(event, mark) {
            Life {
                is_liar: self.is_liar,
                runs: !self.runs,
                drawn: y,
            }
        } else {
            self
        }
    }
}

/// The lives of n members before the first event.
fn new_lives(alloc: Global, n: u8, liars: &[u8]) -> Result<Vec<Life>, AllocError>
    ensures { IfOk result (λ lives. lives.items ≡ first_lives n liars.now) }
{
    let mut lives = Vec::new(alloc);
    for member in 0..n {
        lives.push(Life::new(liars.contains(&member)))?;
    }
    Ok(lives)
}

/// Draws the piece of a lifeline that ends at the event, if one does.
fn draw_piece(
    drawing: &mut Drawing,
    life: Life,
    event: &Event,
    mark: Mark,
    y: u64,
) -> Result<(), AllocError>
    ensures { OnOk result
        (Grows drawing.old drawing.new (piece_elements (Some life) event.now mark y)) }
{
    if !life.turns(event, mark) {
        return Ok(());
    }
    drawing.lifeline(life.line(), x_of(member_of(event)), life.drawn, y)
}

/// Draws the last piece of a member's lifeline.
fn draw_last_piece(
    drawing: &mut Drawing,
    lives: &[Life],
    member: u8,
    bottom: u64,
) -> Result<(), AllocError>
    ensures { OnOk result
        (Grows drawing.old drawing.new (last_piece (slice_get lives.now member) member bottom)) }
{
    match lives.get(usize::from(member)) {
        None => Ok(()),
        Some(life) => drawing.lifeline(life.line(), x_of(member), life.drawn, bottom),
    }
}

/// Draws the last pieces of the lifelines of n members.
fn draw_last_pieces(
    drawing: &mut Drawing,
    n: u8,
    lives: &[Life],
    bottom: u64,
) -> Result<(), AllocError>
    ensures { OnOk result (Grows drawing.old drawing.new (last_pieces n lives.now bottom)) }
{
    for member in 0..n {
        draw_last_piece(drawing, lives, member, bottom)?;
    }
    Ok(())
}

/// The lifelines of a run, as far as they are drawn.
#[derive(Drop)]
pub(crate) struct Lifelines {
    lives: Vec<Life>,
    rows: u64,
    drawing: Drawing,
}

impl Lifelines {
    ghost use Rattle.std.specs.Prelude.{◌≡◌, ◌+◌, ◌<◌, ◌++◌, IfOk, OnOk, slice_get, string_bytes};
    ghost use Rattle.sim.specs.declared.TheConstants.{MOST_EVENTS};
    ghost use Rattle.report.specs.Charts.{member_of};
    ghost use Rattle.report.specs.Drawings.{Grows, picture_text};
    ghost use Rattle.report.specs.Lives.{piece_elements, last_pieces, lives_after, first_lines, lines_behind, drawn_lines};

    /// Those of n members before the first event.
    fn new(alloc: Global, n: u8, liars: &[u8]) -> Result<Lifelines, AllocError>
        ensures { IfOk result (λ lines. drawn_lines lines ≡ first_lines n liars.now) }
    {
        Ok(Lifelines {
            lives: new_lives(alloc, n, liars)?,
            rows: 0,
            drawing: Drawing::new(alloc),
        })
    }

    /// Returns how many rows there are.
    pub(crate) fn rows(&self) -> u64
        ensures { result ≡ self.now.rows }
    {
        self.rows
    }

    /// The pieces, as they are drawn.
    pub(crate) fn as_str(&self) -> &str
        ensures { result.now ≡ string_bytes self.now.drawing.text }
    {
        self.drawing.as_str()
    }

    /// Draws the lifeline of the event's member down to it, where it looks different from there on.
    fn turn(&mut self, event: &Event, mark: Mark, y: u64) -> Result<(), AllocError>
        ensures lives { OnOk result
            (self.new.lives.items ≡ lives_after event.now mark y self.old.lives.items) }
        ensures rows { OnOk result (self.new.rows ≡ self.old.rows) }
        ensures piece { OnOk result
            (Grows self.old.drawing self.new.drawing
            (piece_elements (slice_get self.old.lives.items (member_of event.now)) event.now mark
            y)) }
    {
        let member = usize::from(member_of(event));
        if member >= self.lives.len() {
            return Ok(());
        }
        let life = self.lives[member];
        draw_piece(&mut self.drawing, life, event, mark, y)?;
        self.lives[member] = life.after(event, mark, y);
        Ok(())
    }

    /// Follows an event, which has a row of its own if it is chosen and wasn't skipped. A lifeline
    /// turns at that row, or where the next one stands.
    fn follow(&mut self, event: &Event, mark: Mark, is_chosen: bool) -> Result<(), AllocError>
        ensures { self.old.rows < MOST_EVENTS →
            OnOk result (drawn_lines self.new
            ≡ lines_behind event.now mark is_chosen (drawn_lines self.old)) }
    {
        if is_skipped(&mark) {
            return Ok(());
        }
        let y = y_of(self.rows);
        self.turn(event, mark, y)?;
        self.rows = rows_after(self.rows, is_chosen);
        Ok(())
    }

    /// Draws the last pieces, down to the bottom.
    pub(crate) fn end(&mut self, n: u8, bottom: u64) -> Result<(), AllocError>
        ensures { OnOk result
            (string_bytes self.new.drawing.text ≡ string_bytes self.old.drawing.text
            ++ picture_text (last_pieces n self.old.lives.items bottom)) }
    {
        draw_last_pieces(&mut self.drawing, n, self.lives.as_slice(), bottom)
    }
}

/// The lifelines of a run's members behind all events, but for their last pieces.
pub(crate) fn lifelines_of(
    alloc: Global,
    run: &Run<'_>,
    chosen: &[bool],
) -> Result<Lifelines, AllocError>
    ensures drawn { length run.now.events.now ≤ MOST_EVENTS →
        IfOk result (λ lines. drawn_lines lines
        ≡ lines_of_run run.now.size.n run.now.liars.now run.now.events.now run.now.marks.now
        run.now.saved.now chosen.now) }
    ensures few { length run.now.events.now ≤ MOST_EVENTS →
        IfOk result (λ lines. lines.rows ≤ length run.now.events.now) }
{
    let count = shortest(run).min(chosen.len());
    let mut lines = Lifelines::new(alloc, run.size.n(), run.liars)?;
    for (index, event) in run.events[..count].iter().enumerate() {
        lines.follow(event, run.marks[index], chosen[index])?;
    }
    Ok(lines)
}
