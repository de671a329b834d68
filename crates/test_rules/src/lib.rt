//! Players of rows on numbers, frames and the rules of one member. The head of each module says
//! what its rows are.
#![tactic(auto)]

mod audits;
mod ballots;
mod broadcasts;
pub mod chains;
mod cores;
mod frames;
pub mod numbers;
mod places;
mod steps;

pub use audits::Audit;
pub use ballots::Ballots;
pub use broadcasts::Casts;
pub use cores::Cores;
pub use frames::Stream;
pub use steps::Questions;
