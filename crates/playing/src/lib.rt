//! The run of a simulated cluster as one object in JSON, and the page around it that plays it.
#![tactic(auto)]

mod codes;
mod heads;
mod page;
mod rows;

pub use page::{Run, Template, write_page};
pub use rows::MOST_ROWS;
