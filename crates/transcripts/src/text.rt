//! A transcript as a text.

ghost use Rattle.hex.specs.Hex.{encode_lower};
ghost use Rattle.wire.specs.Texts.{frame_bytes};
ghost use Rattle.wire.specs.declared.message.Message.TheVariants as message;

use crate::lines::{bit_words, frame, hex_digits};
use std::fmt;
use terms::Statement;

/// The frame of a statement in hexadecimal digits.
#[derive(Drop)]
struct FrameDigits<'a>(&'a Statement);

impl fmt::Display for FrameDigits<'_> {
    ghost use Rattle.std.specs.Prelude.{Some};

    ghost output = { λ digits. Some (encode_lower (frame_bytes (message.Statement digits.0.now))) };

    fn fmt<W: fmt::Write>(&self, f: &mut fmt::Formatter<W>) -> fmt::Result {
        let digits = hex_digits(&frame(self.0));
        match str::from_utf8(&digits) {
            Ok(text) => f.write_str(text),
            Err(_) => Err(fmt::Error),
        }
    }
}

/// The lines of a transcript. Its text has a byte 10 between two lines, and none behind the last
/// one. It takes no memory.
#[derive(Drop)]
pub struct TranscriptText<'a> {
    /// The question.
    pub question: u16,
    /// The bit that it was decided for.
    pub bit: bool,
    /// Each sender and its statement, in the order in which they were heard.
    pub pairs: &'a [(u8, Statement)],
}

impl fmt::Display for TranscriptText<'_> {
    ghost use Rattle.std.specs.Prelude.{Some};
    ghost use Rattle.transcripts.specs.Lines.{transcript_text};

    ghost output = { λ shown. Some (transcript_text shown.question shown.bit shown.pairs.now) };

    fn fmt<W: fmt::Write>(&self, f: &mut fmt::Formatter<W>) -> fmt::Result {
        let bit = bit_words(self.bit);
        write!(f, "transcript {} {bit}{}", self.question, self.pairs.len())?;
        for pair in self.pairs {
            write!(f, "\n{} {}", pair.0, FrameDigits(&pair.1))?;
        }
        Ok(())
    }
}
