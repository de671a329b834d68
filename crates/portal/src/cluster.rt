//! A cluster, as the door of a connection reaches it.

ghost use Rattle.std.specs.Prelude.{◌≡◌, ◌≢◌, ℕ, Bool, List, IfOk};
ghost use Rattle.portal.specs.Served.{HandsOn, SaysOf};

use gateway::{Position, Refusal, Task};
use std::alloc::{AllocError, Global};
use terms::Size;

/// The kind of a body.
#[derive(Clone, Copy, Debug, PartialEq, Eq)]
pub(crate) enum Kind {
    /// JSON.
    Json,
    /// The page for people.
    Page,
    /// A stream of events.
    Events,
    /// Text for Prometheus.
    Metrics,
}

/// An answer.
#[derive(Drop)]
pub(crate) struct Answer {
    /// The status of HTTP.
    pub(crate) status: u16,
    pub(crate) kind: Kind,
    pub(crate) body: Vec<u8>,
    /// Set if the stream of events is asked for, with the position from which it goes on.
    pub(crate) follow: Option<Option<Position>>,
}

/// A bit that is proposed to all members.
#[derive(Clone, Copy, Debug, PartialEq, Eq)]
pub(crate) struct Proposal {
    /// The question, below the number of questions.
    pub(crate) question: u64,
    pub(crate) bit: bool,
    /// The seconds for which the decision is waited for.
    pub(crate) wait: u16,
}

/// Returns an answer of status 200.
pub(crate) fn good_answer(kind: Kind, body: Vec<u8>) -> Answer
    ensures { result.body ≡ body }
{
    Answer {
        status: 200,
        kind,
        body,
        follow: None,
    }
}

/// Returns an answer of this status with these bytes.
pub(crate) fn answer_of(
    alloc: Global,
    status: u16,
    kind: Kind,
    bytes: &[u8],
) -> Result<Answer, AllocError>
    ensures { IfOk result (λ answer. answer.status ≡ status) }
{
    let mut body = Vec::new(alloc);
    body.extend_from_slice(bytes)?;
    Ok(Answer {
        status,
        kind,
        body,
        follow: None,
    })
}

/// A cluster, as a door reaches it.
pub(crate) trait Cluster {
    // The proposals that were handed on to its members: questions, each with its bit.
    ghost handed: { Self → List (ℕ × Bool) };

    /// Returns the answer to a task that proposes nothing.
    fn read(&self, size: Size, task: Task) -> Result<Answer, AllocError>
        ensures { IfOk result
            (λ answer. answer.status ≡ 200 → SaysOf size task answer.body.items) };

    /// Hands a proposal on to all members, unless too many are under way, and returns the answer.
    fn propose(&mut self, proposal: Proposal) -> Result<Answer, AllocError>
        ensures { HandsOn proposal (handed self.old) (handed self.new) };

    /// Returns the answer to a request that is refused.
    fn refuse(&self, refusal: Refusal) -> Result<Answer, AllocError>
        ensures { IfOk result (λ answer. answer.status ≢ 200) };
}
