//! The replies to lines.

ghost use Rattle.std.specs.Prelude.{◌≡◌, ◌-◌};

use node::{LinkCount, QuestionState, Transcript};
use std::fmt;
use terms::Size;
use transcripts::TranscriptText;

/// The reply to a line, one variant for each. Its text has no byte 10 at its end.
#[derive(Debug, PartialEq, Eq, Drop)]
pub enum Reply {
    /// The proposal was taken.
    Taken,
    /// A bit was proposed before: this one, which stands.
    Have(bool),
    /// The member is stopped.
    Stopped,
    /// The question was decided for this bit.
    Decided(bool),
    /// The question isn't decided.
    Undecided,
    /// The member goes on.
    Up {
        /// The number of statements in its outbox.
        statements: u64,
        /// The number of questions it has decided.
        decided: u16,
    },
    /// The statements that were heard of a question, which are proof of its decision. It is the
    /// only reply of several lines.
    Transcript {
        /// The question.
        question: u16,
        /// Its decision, and what was heard of it.
        transcript: Transcript,
    },
    /// The number of the member's links that are up, the one to itself among them.
    Links {
        /// Their number.
        count: LinkCount,
        /// The size of the cluster: there are n links each way, and n - t of them are needed to
        /// decide.
        size: Size,
    },
    /// The question stands so at the member.
    State(QuestionState),
    /// The question was decided in an earlier life, and what was heard since then is no proof of
    /// the decision.
    Thin,
    /// 1: there is no such line.
    BadLine,
    /// 2: there is no such question.
    BadQuestion,
    /// 3: it isn't a bit.
    BadBit,
    /// 4: memory was refused in this call. Where it was refused to the member, that is stopped from
    /// now on.
    Memory,
}

impl fmt::Display for Reply {
    ghost use Rattle.std.specs.Prelude.{Some};
    ghost use Rattle.desk.specs.Replies.{reply_text};

    ghost output = { λ reply. Some (reply_text reply) };

    fn fmt<W: fmt::Write>(&self, f: &mut fmt::Formatter<W>) -> fmt::Result {
        match self {
            Reply::Taken => f.write_str("OK"),
            Reply::Have(false) => f.write_str("HAVE 0"),
            Reply::Have(true) => f.write_str("HAVE 1"),
            Reply::Stopped => f.write_str("STOPPED"),
            Reply::Decided(false) => f.write_str("DECIDED 0"),
            Reply::Decided(true) => f.write_str("DECIDED 1"),
            Reply::Undecided => f.write_str("UNDECIDED"),
            Reply::Up {
                statements,
                decided,
            } => write!(f, "UP {statements} {decided}"),
            Reply::Transcript {
                question,
                transcript,
            } => {
                let text = TranscriptText {
                    question: *question,
                    bit: transcript.bit,
                    pairs: &transcript.heard,
                };
                write!(f, "{text}")
            }
            Reply::Links { count, size } => {
                let LinkCount { incoming, outgoing } = *count;
                write!(
                    f,
                    "LINKS {incoming} {outgoing} {} {}",
                    size.n(),
                    needed(*size)
                )
            }
            Reply::State(state) => write!(f, "{}", StateText(*state)),
            Reply::Thin => f.write_str("THIN"),
            Reply::BadLine => f.write_str("ERR 1 line"),
            Reply::BadQuestion => f.write_str("ERR 2 question"),
            Reply::BadBit => f.write_str("ERR 3 bit"),
            Reply::Memory => f.write_str("ERR 4 memory"),
        }
    }
}

/// The text that says how a question stands.
#[derive(Clone, Copy)]
struct StateText(QuestionState);

impl fmt::Display for StateText {
    ghost use Rattle.std.specs.Prelude.{Some};
    ghost use Rattle.desk.specs.Replies.{state_text};

    ghost output = { λ text. Some (state_text text.0) };

    fn fmt<W: fmt::Write>(&self, f: &mut fmt::Formatter<W>) -> fmt::Result {
        match self.0 {
            QuestionState::Unproposed => f.write_str("UNPROPOSED"),
            QuestionState::Open { round, step } => write!(f, "OPEN {round} {step}"),
            QuestionState::Spent => f.write_str("SPENT"),
            QuestionState::Decided(false) => f.write_str("DECIDED 0"),
            QuestionState::Decided(true) => f.write_str("DECIDED 1"),
        }
    }
}

/// Returns how many links each way a member of a cluster of that size needs to decide.
pub(crate) fn needed(size: Size) -> u8
    ensures { result ≡ size.n - size.t }
{
    size.recall();
    size.n() - size.t()
}
