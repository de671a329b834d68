//! Decisions that are saved.
ghost use Rattle.std.specs.Prelude.{◌≡◌};

use std::marker::Model;

/// The decision of a question that its member has saved. A member alone makes it: what a client is
/// told is on the disk.
#[derive(Clone, Copy, Debug, PartialEq, Eq)]
pub struct Ruling {
    question: u16,
    bit: bool,
}

impl Model for Ruling {
    ghost use Rattle.member.specs.Fields.{RulingFields};

    ghost Value = { RulingFields };

    ghost view = { λ a. record { question = a.question; bit = a.bit } };

    ghost inverse = { λ d. record { question = d.question; bit = d.bit } };
}

impl Ruling {
    /// Rules that the question was decided for the bit.
    pub(crate) fn new(question: u16, bit: bool) -> Ruling
        ensures question { result.question ≡ question }
        ensures bit { result.bit ≡ bit }
    {
        Ruling { question, bit }
    }

    /// The question that was decided.
    pub fn question(self) -> u16
        ensures { result ≡ self.question }
    {
        self.question
    }

    /// The bit that it was decided for.
    pub fn bit(self) -> bool
        ensures { result ≡ self.bit }
    {
        self.bit
    }
}
