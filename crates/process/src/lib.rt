//! A process and its system: streams, limits, signals, the time, and a file that is watched.
#![tactic(auto)]

mod input;
mod limits;
mod moment;
mod process;
mod replaced;
mod signals;
mod status;
mod streams;

pub use input::{Input, read_aside};
pub use limits::{
    clients_within, descriptors_lack, followers_within, is_starved, open_limit, starved_words,
};
pub use moment::moment_text;
pub use process::{blocks_signals, is_called_off, most_files, warn_of_files};
pub use replaced::Watched;
pub use signals::{is_blocked, is_called};
pub use status::rest_of;
pub use streams::{HeldStreams, hold_streams};
