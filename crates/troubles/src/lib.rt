//! The faults of commands, what is told of each beside its line, and whether that is wanted.
#![tactic(auto)]

mod arguments;
mod fault;
mod forms;
mod misfits;
mod reading;
mod telling;
mod trouble;

pub use arguments::{own_words, wants_quiet};
pub use fault::Fault;
pub use reading::{Text, read_file};
pub use telling::{
    ReadFile, journal_failure, long_failure, not_old_failure, not_text, old_failure, place_of,
    script_failure, settings_failure, stray_trouble, strays_trouble, transcript_failure,
};
pub use trouble::{Failure, Trouble, Whereabouts, trouble_of};
