//! The rounds that a question takes: plays one question among members in memory, in an order of
//! deliveries that is drawn or that an adversary chooses, and counts the rounds in which questions
//! were decided.
//!
//! Each correct member is a [`questions::Core`]; there is no disk and no frame. What a member says
//! stands in a queue for each receiver until it is delivered. [`play`] plays one question; begin
//! there. The adversary's rule is in [`strategy`].
#![tactic(auto)]

mod adversary;
mod chart;
mod ends;
mod fault;
mod game;
mod lines;
mod links;
mod random;
mod steps;
pub mod strategy;
mod table;

pub use chart::chart_text;
pub use ends::{End, end_of};
pub use fault::PlayFault;
pub use game::{Order, Setting, play};
pub use lines::table_text;
pub use links::Links;
pub use steps::{STEPS, Step};
pub use table::Table;
