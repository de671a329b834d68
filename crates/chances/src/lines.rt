//! The table that `bracha rounds` prints.

ghost use Rattle.std.specs.Prelude.{◌≡◌, IfOk, string_bytes};
ghost use Rattle.chances.specs.Lines.{count_of, last_round, round_of, round_line, round_lines, is_open_behind, open_behind, sum_lines, table_text};

use crate::ends::End;
use std::alloc::{AllocError, Global};

/// Returns the number of these that ended so.
pub fn count_of(ends: &[End], wanted: End) -> usize
    ensures { result ≡ count_of wanted ends.now }
{
    ends.iter().filter(|end| **end == wanted).count()
}

/// Returns the table of these ends: for each round up to the last in which one was decided, `round
/// R: K`; then `open: K` and `questions: K`.
pub fn table_text(alloc: Global, ends: &[End]) -> Result<String, AllocError>
    ensures { IfOk result (λ text. string_bytes text ≡ table_text ends.now) }
{
    let mut text = round_lines(alloc, ends, last_round(ends))?;
    text.push_str(sum_lines(alloc, ends)?.as_str())?;
    Ok(text)
}

/// Returns the lines of the first rounds.
fn round_lines(alloc: Global, ends: &[End], rounds: u8) -> Result<String, AllocError>
    ensures { IfOk result (λ text. string_bytes text ≡ round_lines ends.now rounds) }
{
    let mut text = String::new(alloc);
    for before in 0..rounds {
        text.push_str(round_line(alloc, ends, before + 1)?.as_str())?;
    }
    Ok(text)
}

/// Returns the line of a round.
fn round_line(alloc: Global, ends: &[End], round: u8) -> Result<String, AllocError>
    ensures { IfOk result (λ text. string_bytes text ≡ round_line ends.now round) }
{
    let count = count_of(ends, End::Decided(round));
    format!(in alloc; "round {round}: {count}\n")
}

/// Returns the last round in which one of these was decided, or 0.
fn last_round(ends: &[End]) -> u8
    ensures { result ≡ last_round ends.now }
{
    let mut last = 0;
    for end in ends {
        last = last.max(round_of(*end));
    }
    last
}

/// Returns the round of the decision, or 0.
fn round_of(end: End) -> u8
    ensures { result ≡ round_of end }
{
    match end {
        End::Decided(round) => round,
        End::Open | End::TwoAnswers => 0,
    }
}

/// Returns the lines of the open ones and of all.
fn sum_lines(alloc: Global, ends: &[End]) -> Result<String, AllocError>
    ensures { IfOk result (λ text. string_bytes text ≡ sum_lines ends.now) }
{
    let open = count_of(ends, End::Open);
    let questions = ends.len();
    format!(in alloc; "open: {open}\nquestions: {questions}\n")
}

/// Returns the number of these that are open behind the round: not decided in it or before.
pub fn open_behind(ends: &[End], round: u8) -> usize
    ensures { result ≡ open_behind round ends.now }
{
    ends.iter()
        .filter(|end| is_open_behind(**end, round))
        .count()
}

/// Returns `true` if a question that ended so was open behind the round.
fn is_open_behind(end: End, round: u8) -> bool
    ensures { result ≡ is_open_behind round end }
{
    match end {
        End::Decided(last) => last > round,
        End::Open | End::TwoAnswers => true,
    }
}
