//! The things that a session holds: the line that is being read, and replies.

ghost use Rattle.std.specs.Prelude.{◌≡◌, ◌≤◌, []};
ghost use Rattle.desk.specs.Held.{ReadsByte};
ghost use Rattle.desk.specs.declared.line.TheConstants.{LONGEST};

use crate::line::LONGEST;
use std::marker::Model;
use transcripts::Block;

/// The bytes of a line so far, at most 4,096. Contracts see these bytes, so that a line is the same
/// in whatever pieces it came. It takes no memory.
#[derive(Drop)]
pub(crate) struct HeldLine {
    bytes: [u8; LONGEST],
    length: usize,
    ghost within: { length ≤ LONGEST },
}

impl Model for HeldLine {
    ghost use Rattle.std.specs.Prelude.{ℕ, List, take};

    ghost Value = { List ℕ };

    ghost view = { λ held. take held.length held.bytes };
}

impl HeldLine {
    /// No bytes.
    pub(crate) fn new() -> HeldLine
        ensures { result ≡ [] }
    {
        HeldLine {
            bytes: [0; LONGEST],
            length: 0,
        }
    }

    /// Reads a byte. The byte 10, and one that is too many, change nothing.
    pub(crate) fn read(&mut self, byte: u8) -> LineStep
        ensures { ReadsByte self.old byte result self.new }
    {
        if byte == b'\n' {
            return LineStep::Ends;
        }
        if self.length >= LONGEST {
            return LineStep::TooLong;
        }
        self.bytes[self.length] = byte;
        self.length += 1;
        LineStep::More
    }

    /// The bytes.
    pub(crate) fn line(&self) -> &[u8]
        ensures { result.now ≡ self.now }
    {
        &self.bytes[..self.length]
    }

    /// Begins a new line.
    pub(crate) fn clear(&mut self)
        ensures { self.new ≡ [] }
    {
        self.length = 0;
    }
}

/// The effect of a byte on the line.
#[derive(Clone, Copy, Debug, PartialEq, Eq)]
pub(crate) enum LineStep {
    /// The byte belongs to the line.
    More,
    /// The byte ends the line.
    Ends,
    /// The byte would be the 4,097th.
    TooLong,
}

/// The things that a session holds: the line that is being read, and replies that were not written
/// yet. It takes no memory.
#[derive(Drop)]
pub(crate) struct Sheet {
    pub(crate) line: HeldLine,
    pub(crate) replies: Block,
}

impl Sheet {
    /// Nothing is held.
    pub(crate) fn new() -> Sheet
        ensures line { result.line ≡ [] }
        ensures replies { result.replies.items ≡ [] }
    {
        Sheet {
            line: HeldLine::new(),
            replies: Block::new(),
        }
    }
}
