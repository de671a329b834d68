//! Notes on questions: stages, proposals and ends, beside what members told.

ghost use Rattle.std.specs.Prelude.{◌≡◌, ◌<◌, ◌%◌, ℕ, Some, length, slice_set};
ghost use Rattle.portal.specs.Notes.{ShareAPlace, new_note, note_in, note_on};

use gateway::Stage;
use std::alloc::{AllocError, Global};

/// A note on a question: its stage, its proposal and its end.
#[derive(Clone, Copy, Debug, PartialEq, Eq)]
pub(crate) struct Note {
    pub(crate) question: u64,
    pub(crate) stage: Stage,
    /// The milliseconds since 1970 at which it was proposed here.
    pub(crate) begun: Option<u64>,
    /// Set once a member told a decision of it before it was decided.
    pub(crate) is_told: bool,
    /// The members that came to the last step of its last round, a bit each.
    pub(crate) spent: u64,
}

/// The notes on a window of questions: a ring, in which a question takes the place of the one that
/// is a window before it.
#[derive(Drop)]
pub(crate) struct Notes {
    ring: Vec<Note>,
    ghost some: { 0 < length ring.items },
}

impl Notes {
    /// Returns notes on so many questions, at least one, of which nothing is known.
    pub(crate) fn new(alloc: Global, count: usize) -> Result<Notes, AllocError> {
        let mut ring = Vec::new(alloc);
        ring.resize(count.max(1), new_note(0))?;
        Ok(Notes { ring })
    }

    /// Marks a question as one of which a member told a decision.
    pub(crate) fn mark_told(&mut self, question: u64) {
        let note = self.at(question);
        self.put(Note {
            is_told: true,
            ..note
        });
    }

    /// Returns the note on a question.
    pub(crate) fn at(&self, question: u64) -> Note
        ensures value { result ≡ note_on self.now.ring.items question }
        ensures question { result.question ≡ question }
    {
        match self.ring.get(self.place_of(question)) {
            Some(note) => kept_note(*note, question),
            None => new_note(question),
        }
    }

    /// Puts a note in the place of its question. Those in other places stay.
    pub(crate) fn put(&mut self, note: Note)
        ensures kept { note_on self.new.ring.items note.question ≡ note }
        ensures others { (other : ℕ) →
            (ShareAPlace self.old.ring.items note.question other → ⊥) →
            note_on self.new.ring.items other ≡ note_on self.old.ring.items other }
    {
        let place = self.place_of(note.question);
        set_note(&mut self.ring, place, note);
    }

    /// Returns the place of a question in the ring.
    fn place_of(&self, question: u64) -> usize
        ensures place { result ≡ question % length self.now.ring.items }
        ensures within { result < length self.now.ring.items }
    {
        let count = self.ring.len() as u64;
        (question % count) as usize
    }
}

/// Puts a note in this place.
fn set_note(ring: &mut Vec<Note>, place: usize, note: Note)
    requires { place < length ring.old.items }
    ensures { ring.new.items ≡ slice_set ring.old.items place note }
{
    ring[place] = note;
}

/// Returns the note that is kept, if it is on this question, or one of which nothing is known.
fn kept_note(note: Note, question: u64) -> Note
    ensures { result ≡ note_in (Some note) question }
{
    if note.question == question {
        note
    } else {
        new_note(question)
    }
}

/// Returns the note on a question of which nothing is known.
fn new_note(question: u64) -> Note
    ensures { result ≡ new_note question }
{
    Note {
        question,
        stage: Stage::Unproposed,
        begun: None,
        is_told: false,
        spent: 0,
    }
}
