//! The command `run`: members over files, sockets and standard streams, and their logs.
#![tactic(auto)]

mod addresses;
mod chained;
mod live;
mod local_desk;
mod log;
mod objects;

pub use live::{RunOptions, run_file};
pub use log::{LogForm, log_form};
