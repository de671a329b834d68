//! Trials of the simulator: scripts that are drawn one after another, and the judge of what a run
//! of one prints.
//!
//! The judge knows no rule of the protocol. It reads the trace that `bracha simulate --trace`
//! writes, and looks for what no run may show: two bits on one question, a second decision of a
//! member, a bit that nobody proposed, and in a run that ends with a long fair part a question that
//! is still open. [`drawn`] draws a script, [`judge`] judges a trace.
#![tactic(auto)]

mod drawing;
mod judging;
mod notes;

pub use drawing::{Trial, drawn};
pub use judging::{Finding, Judgement, judge};
pub use notes::Note;
