//! Words of rows and what they stand for, runs of answers, and readers and writers that fail where
//! a row says so.
#![tactic(auto)]

mod outputs;
mod phrases;
mod runs;

pub use outputs::{Input, Output, Room};
pub use phrases::{
    answer_text, bytes_of, disk_of, header_of, header_text, journal_fault, kind_of, pick_of,
    record_of, records_text, size_of, statement_of, toss_of, value_of, words_of,
};
pub use runs::Runs;
