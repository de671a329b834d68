//! The texts of events, as server-sent events have them.

ghost use Rattle.std.specs.Prelude.{◌≡◌, IfOk, string_bytes};
ghost use Rattle.gateway.specs.Events.{beat_text, event_data, event_name, event_text, ms_text, question_data, restarted_text};

use crate::answers::says_text;
use crate::queries::Position;
use crate::views::{MemberState, state_word};
use std::alloc::{AllocError, Global};

/// Something that happened to a cluster, as the gateway saw it.
#[derive(Clone, Copy, Debug, PartialEq, Eq)]
pub enum Event {
    /// More than t members told this decision.
    Decided {
        /// The question.
        question: u64,
        /// The bit.
        bit: bool,
        /// The milliseconds since it was proposed here, if it was.
        ms: Option<u32>,
        /// The milliseconds since 1970.
        time: u64,
    },
    /// A bit was proposed on the question.
    Proposed(u64),
    /// The question comes to no decision.
    Spent(u64),
    /// The desk of a member has another state.
    Member {
        /// The member.
        member: u8,
        /// Its state from now on.
        state: MemberState,
    },
    /// A member told another bit than more than t others.
    Contradiction {
        /// The member.
        member: u8,
        /// The question.
        question: u64,
        /// The bit that it told.
        bit: bool,
    },
}

/// Returns the text of an event at this position.
///
/// # Errors
///
/// [`AllocError`] if an allocation failed.
pub fn event_text(alloc: Global, at: Position, event: &Event) -> Result<String, AllocError>
    ensures { IfOk result (λ text. string_bytes text ≡ event_text at event.now) }
{
    let data = event_data(alloc, event)?;
    format!(in alloc;
        "id: {}.{}\nevent: {}\ndata: {data}\n\n",
        at.life,
        at.number,
        event_name(event)
    )
}

/// Returns the data of an event.
fn event_data(alloc: Global, event: &Event) -> Result<String, AllocError>
    ensures { IfOk result (λ text. string_bytes text ≡ event_data event.now) }
{
    match *event {
        Event::Decided {
            question,
            bit,
            ms,
            time,
        } => {
            let ms = ms_text(alloc, ms)?;
            format!(in alloc;
                "{{\"question\":{question},\"bit\":{},\"ms\":{ms},\"time\":{time}}}",
                says_text(Some(bit))
            )
        }
        Event::Proposed(question) => question_data(alloc, question),
        Event::Spent(question) => question_data(alloc, question),
        Event::Member { member, state } => format!(in alloc;
            "{{\"member\":{member},\"state\":\"{}\"}}",
            state_word(state)
        ),
        Event::Contradiction {
            member,
            question,
            bit,
        } => format!(in alloc;
            "{{\"member\":{member},\"question\":{question},\"says\":{}}}",
            says_text(Some(bit))
        ),
    }
}

/// Returns the milliseconds that a decision took, if that is known.
fn ms_text(alloc: Global, ms: Option<u32>) -> Result<String, AllocError>
    ensures { IfOk result (λ text. string_bytes text ≡ ms_text ms) }
{
    match ms {
        None => String::from_str(alloc, "null"),
        Some(ms) => format!(in alloc; "{ms}"),
    }
}

/// Returns the data of an event of one question.
fn question_data(alloc: Global, question: u64) -> Result<String, AllocError>
    ensures { IfOk result (λ text. string_bytes text ≡ question_data question) }
{
    format!(in alloc; "{{\"question\":{question}}}")
}

/// Returns the name of an event.
fn event_name(event: &Event) -> &'static str
    ensures { result.now ≡ event_name event.now }
{
    match *event {
        Event::Decided { .. } => "decision",
        Event::Proposed(_) => "proposed",
        Event::Spent(_) => "spent",
        Event::Member { .. } => "member",
        Event::Contradiction { .. } => "contradiction",
    }
}

/// Returns the text that tells a follower to load everything anew, and the position from which it
/// goes on.
///
/// # Errors
///
/// [`AllocError`] if an allocation failed.
pub fn restarted_text(alloc: Global, at: Position) -> Result<String, AllocError>
    ensures { IfOk result (λ text. string_bytes text ≡ restarted_text at) }
{
    format!(in alloc;
        "id: {}.{}\nevent: restarted\ndata: {{}}\n\n",
        at.life, at.number
    )
}

/// Returns the text that tells a follower that the stream lives, with the milliseconds since 1970.
///
/// # Errors
///
/// [`AllocError`] if an allocation failed.
pub fn beat_text(alloc: Global, time: u64) -> Result<String, AllocError>
    ensures { IfOk result (λ text. string_bytes text ≡ beat_text time) }
{
    format!(in alloc; "event: beat\ndata: {{\"time\":{time}}}\n\n")
}
