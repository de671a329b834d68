//! The requests of clients.

ghost use Rattle.std.specs.Prelude.{◌≡◌, nat_lt, Ok, Err, if◌then◌else◌};
ghost use Rattle.desk.specs.Lines.{LineAsks};
ghost use Rattle.desk.specs.Commands.{command_for, proposal_for, AsksNothing, Parses};
ghost use Rattle.desk.specs.declared.line.LineRequest.{LineRequest};
ghost use Rattle.desk.specs.declared.reply.Reply.TheVariants.{BadLine, BadQuestion};

use crate::line::{LineRequest, read};
use crate::reply::Reply;
use terms::Size;

/// A client's request, one variant for each line.
#[derive(Clone, Copy, Debug, PartialEq, Eq)]
pub enum Command {
    /// To propose a bit for a question.
    Propose {
        /// The question, counted from 0. One that [`parse`] gives is there; [`crate::answer`]
        /// refuses one that isn't.
        question: u16,
        /// The bit.
        bit: bool,
    },
    /// The verdict of a question.
    Ask {
        /// The question, counted from 0, as in a proposal.
        question: u16,
    },
    /// The same, once there is one, or after ten seconds without.
    Await {
        /// The question, counted from 0, as in a proposal.
        question: u16,
    },
    /// The number of statements in the member's outbox, and of questions it has decided.
    Status,
    /// The statements that were heard of a question that is decided.
    Transcript {
        /// The question, counted from 0, as in a proposal.
        question: u16,
    },
    /// The number of the member's links that are up.
    Links,
    /// To be told how a question stands at the member.
    State {
        /// The question, counted from 0, as in a proposal.
        question: u16,
    },
}

/// The command that a line is, for a cluster of that size. The line is what stood before the byte
/// 10 that ended it, or before the end of the input; one byte 13 at its end is dropped. It takes no
/// memory.
///
/// Refused with the first that holds: [`Reply::BadLine`], where the line has more than 4,096 bytes
/// or is none of `PROPOSE q v`, `ASK q`, `AWAIT q`, `STATE q`, `STATUS`, `TRANSCRIPT q` and
/// `LINKS`, with one space between two words and one to five decimal digits for q;
/// [`Reply::BadQuestion`], where there is no such question; [`Reply::BadBit`], where v is neither
/// `0` nor `1`.
pub fn parse(line: &[u8], size: Size) -> Result<Command, Reply>
    ensures asked { (asked : LineRequest) → LineAsks line.now asked →
        result ≡ command_for size.questions asked }
    ensures none { AsksNothing line.now → result ≡ Err BadLine }
    ensures either { Parses size.questions line.now result }
{
    match read(line) {
        Some(asked) => command_for(asked, size.questions()),
        None => Err(Reply::BadLine),
    }
}

/// The command for what a line asks.
fn command_for(asked: LineRequest, questions: u16) -> Result<Command, Reply>
    ensures { result ≡ command_for questions asked }
{
    match asked {
        LineRequest::Status => Ok(Command::Status),
        LineRequest::Links => Ok(Command::Links),
        LineRequest::Ask { question } => match below(question, questions) {
            Ok(question) => Ok(Command::Ask { question }),
            Err(refusal) => Err(refusal),
        },
        LineRequest::Await { question } => match below(question, questions) {
            Ok(question) => Ok(Command::Await { question }),
            Err(refusal) => Err(refusal),
        },
        LineRequest::Transcript { question } => match below(question, questions) {
            Ok(question) => Ok(Command::Transcript { question }),
            Err(refusal) => Err(refusal),
        },
        LineRequest::State { question } => match below(question, questions) {
            Ok(question) => Ok(Command::State { question }),
            Err(refusal) => Err(refusal),
        },
        LineRequest::Propose { question, bit } => match below(question, questions) {
            Ok(question) => match bit {
                Some(bit) => Ok(Command::Propose { question, bit }),
                None => Err(Reply::BadBit),
            },
            Err(refusal) => Err(refusal),
        },
    }
}

/// The question, if there are so many.
fn below(question: u64, questions: u16) -> Result<u16, Reply>
    ensures { result ≡ (if nat_lt question questions then Ok question else Err BadQuestion) }
{
    if question < u64::from(questions) {
        Ok(question as u16)
    } else {
        Err(Reply::BadQuestion)
    }
}
