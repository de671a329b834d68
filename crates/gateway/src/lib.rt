//! A gateway to a cluster: what an HTTP request asks for and may ask for, and what is answered.
//!
//! Up to t members lie, so a [`Watch`] takes what members told and gives a decision only once more
//! than t of them told it. [`task_of`] reads a request against a [`Policy`]; the functions of texts
//! write JSON, events and metrics. Nothing here reads a socket or waits.
#![tactic(auto)]

mod answers;
mod events;
mod guards;
mod heads;
mod metrics;
mod motions;
mod queries;
mod replies;
mod requests;
mod routes;
mod scopes;
mod standings;
mod times;
mod views;
mod watch;

pub use answers::{
    Moment, Transcript, proposal_text, question_text, questions_text, ready_text, refusal_text,
    transcript_text,
};
pub use events::{Event, beat_text, event_text, restarted_text};
pub use guards::Policy;
pub use metrics::{Tally, metrics_text};
pub use queries::Position;
pub use replies::{Reply, reply_of};
pub use requests::{Method, Refusal, Request, Task, status_of, task_of, word_of};
pub use scopes::Scope;
pub use standings::{Stage, Standing, standing_of, states_text};
pub use times::Times;
pub use views::{MemberState, MemberView, Proposing, is_linked, members_text};
pub use watch::{Told, Watch};
