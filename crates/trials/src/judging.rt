//! The judge.

ghost use Rattle.std.specs.Prelude.{◌≡◌, ◌&&◌, ltb, IfOk};
ghost use Rattle.std.specs.List.{list_any, count_by};
ghost use Rattle.std.specs.Str.{bytes_eq};
ghost use Rattle.trials.specs.Notes.{notes_of};
ghost use Rattle.trials.specs.Judging as spec;

use crate::notes::{Note, is_word, notes};
use std::alloc::{AllocError, Global};
use thiserror::Error;

/// A thing that no run may show.
#[derive(Clone, Copy, Debug, PartialEq, Eq, Error)]
pub enum Finding {
    /// Members decided both bits on one question.
    #[error("two bits on one question")]
    TwoBits,
    /// A member decided a question again.
    #[error("a second decision of a member")]
    SecondDecision,
    /// A bit was decided that no correct member proposed.
    #[error("a bit that nobody proposed")]
    Unproposed,
    /// The run settles each question, and there are fewer decisions than members and questions.
    #[error("a question that stayed open")]
    Undecided,
}

/// The judgement of a run.
#[derive(Clone, Copy, Debug, PartialEq, Eq)]
pub struct Judgement {
    /// The number of decisions.
    pub decisions: usize,
    /// The first thing that no run may show.
    pub finding: Option<Finding>,
}

/// Judges the trace of a run, which has so many decisions at least: one for each correct member and
/// question where the run settles them, else 0.
pub fn judge(alloc: Global, trace: &[u8], least: usize) -> Result<Judgement, AllocError>
    ensures decisions { IfOk result
        (λ judgement. judgement.decisions ≡ spec.decisions (notes_of trace.now)) }
    ensures finding { IfOk result
        (λ judgement. judgement.finding ≡ spec.finding_in (notes_of trace.now) least) }
{
    let notes = notes(alloc, trace)?;
    Ok(Judgement {
        decisions: decisions(&notes),
        finding: finding_in(&notes, least),
    })
}

/// Returns what is wrong with a run of these notes, which has so many decisions at least.
fn finding_in(notes: &[Note<'_>], least: usize) -> Option<Finding>
    ensures { result ≡ spec.finding_in notes.now least }
{
    match first_fault(notes) {
        Some(finding) => Some(finding),
        None if decisions(notes) < least => Some(Finding::Undecided),
        None => None,
    }
}

/// Returns what is wrong with the first note with which something is.
fn first_fault(notes: &[Note<'_>]) -> Option<Finding>
    ensures { result ≡ spec.first_fault notes.now notes.now }
{
    for note in notes {
        match fault_of(notes, note) {
            Some(finding) => return Some(finding),
            None => {}
        }
    }
    None
}

/// Returns what is wrong with one of these notes.
fn fault_of(notes: &[Note<'_>], note: &Note<'_>) -> Option<Finding>
    ensures { result ≡ spec.fault_of notes.now note.now }
{
    if note.is_decision() {
        decision_fault(notes, note)
    } else {
        None
    }
}

/// Returns what is wrong with a decision among these notes.
fn decision_fault(notes: &[Note<'_>], note: &Note<'_>) -> Option<Finding>
    ensures { result ≡ spec.decision_fault notes.now note.now }
{
    if is_contradicted(notes, note) {
        return Some(Finding::TwoBits);
    }
    if is_repeated(notes, note) {
        return Some(Finding::SecondDecision);
    }
    if is_proposed(notes, note) {
        return None;
    }
    Some(Finding::Unproposed)
}

/// Returns `true` if one of these notes is against the decision.
fn is_contradicted(notes: &[Note<'_>], note: &Note<'_>) -> bool
    ensures { result ≡ list_any (spec.is_against note.now) notes.now }
{
    notes.iter().any(|other| is_against(note, other))
}

/// Returns `true` if the other decided another bit on the question of this decision.
fn is_against(decision: &Note<'_>, other: &Note<'_>) -> bool
    ensures { result ≡ spec.is_against decision.now other.now }
{
    other.is_decision() && other.question() == decision.question() && other.bit() != decision.bit()
}

/// Returns `true` if the decision is there more than once.
fn is_repeated(notes: &[Note<'_>], note: &Note<'_>) -> bool
    ensures { result ≡ ltb 1 (count_by (spec.is_again note.now) notes.now) }
{
    notes.iter().filter(|other| is_again(note, *other)).count() > 1
}

/// Returns `true` if the other is a decision of the same member on the same question.
fn is_again(decision: &Note<'_>, other: &Note<'_>) -> bool
    ensures { result ≡ spec.is_again decision.now other.now }
{
    other.is_decision()
        && other.question() == decision.question()
        && other.member() == decision.member()
}

/// Returns `true` if the bit of the decision was proposed.
fn is_proposed(notes: &[Note<'_>], note: &Note<'_>) -> bool
    ensures { result ≡ list_any (spec.is_behind note.now) notes.now }
{
    notes.iter().any(|other| is_behind(note, other))
}

/// Returns `true` if the other proposed the bit of this decision.
fn is_behind(decision: &Note<'_>, other: &Note<'_>) -> bool
    ensures { result ≡ spec.is_behind decision.now other.now }
{
    !other.is_decision()
        && other.question() == decision.question()
        && is_bit(decision.bit(), other.bit())
}

/// Returns `true` if both words say one bit: `0` and `zero` do, as `1` and `one`.
fn is_bit(decided: &[u8], proposed: &[u8]) -> bool
    ensures { result ≡ spec.is_bit decided.now proposed.now }
{
    is_pair(decided, "0", proposed, "zero") || is_pair(decided, "1", proposed, "one")
}

/// Returns `true` if the words are these two.
fn is_pair(decided: &[u8], bit: &str, proposed: &[u8], value: &str) -> bool
    ensures { result ≡ (bytes_eq decided.now bit.now && bytes_eq proposed.now value.now) }
{
    is_word(decided, bit) && is_word(proposed, value)
}

/// Returns the number of decisions.
fn decisions(notes: &[Note<'_>]) -> usize
    ensures { result ≡ spec.decisions notes.now }
{
    notes.iter().filter(|note| note.is_decision()).count()
}
