//! The command `hear`, over any reader and writer.
#![tactic(auto)]

mod fault;
mod hear;
mod piece;
mod session;

pub use fault::HearFault;
pub use hear::hear_lines;
