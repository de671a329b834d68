//! The state of a question at a member.
ghost use Rattle.std.specs.Prelude.{◌≡◌, IfNone, IfSome};
ghost use Rattle.node.specs.States.{IsStateOf, state_at};
ghost use Rattle.node.specs.Verdicts.{SeesOn};

use crate::board::Pass;
use crate::book::{Book, Naming};
use disk::Disk;

/// The state of a question at a member.
#[derive(Clone, Copy, Debug, PartialEq, Eq)]
pub enum QuestionState {
    /// No bit was proposed for it to this member, which said no Initial of its own.
    Unproposed,
    /// Open: the last of the Initials that the member said is of this round and step.
    Open {
        /// The round, 1 to 32.
        round: u8,
        /// The step, 1 to 3.
        step: u8,
    },
    /// Open, and the member said its Initial of round 32 step 3: it says no more of its own. It
    /// still answers others, and decides if they say enough.
    Spent,
    /// Decided for this bit.
    Decided(bool),
}

/// The state of a question that isn't decided, by the round and step of the member's last own
/// Initial.
pub(crate) fn state_at(progress: Option<(u8, u8)>) -> QuestionState
    ensures { result ≡ state_at progress }
{
    match progress {
        Some((32, 3)) => QuestionState::Spent,
        Some((round, step)) => QuestionState::Open { round, step },
        None => QuestionState::Unproposed,
    }
}

/// The same, for a pass of the book's board, which sees how far the book is; none, and the pass is
/// as it was, if it saw more.
pub(crate) fn state_for<D: Disk, J: Naming>(
    book: &Book<D, J>,
    pass: &mut Pass,
    question: u16,
) -> Option<Option<QuestionState>>
    requires { pass.old.board ≡ J.names }
    ensures some { IfSome result
        (λ state. SeesOn pass.old pass.new
        × IsStateOf D J.header J.opening pass.new.log question state) }
    ensures none { IfNone result (pass.new ≡ pass.old) }
{
    if !pass.see(book) {
        return None;
    }
    Some(state_of(book, question))
}

/// The state of a question at the member of a book, which is one of its hub's.
pub(crate) fn state_of<D: Disk, J: Naming>(
    book: &Book<D, J>,
    question: u16,
) -> Option<QuestionState>
    ensures { IsStateOf D J.header J.opening book.now.log question result }
{
    let _named = book.header();
    let _replayed = book.records();
    book.state(question)
}
