//! Players of rows on clusters, scripts, settings, commands, the command line and what the system
//! says of a process. The head of each module says what its rows are.
#![tactic(auto)]

mod clusters;
mod documents;
pub mod faults;
mod jobs;
pub mod judgements;
mod lists;
pub mod processes;
pub mod surveys;
mod texts;
pub mod words;
mod works;

pub use clusters::Played;
pub use documents::Document;
pub use jobs::Job;
pub use texts::Texts;
