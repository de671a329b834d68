//! A simulated cluster, for people: records in words, a line for each event, and a chart.
#![tactic(auto)]

mod chart;
mod records;
mod trace;

pub use chart::{Choice, Run, write_chart};
pub use records::{kind_word, record_text, statement_text};
pub use trace::{is_skipped, write_trace};
