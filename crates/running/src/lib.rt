//! A member that runs: its links, its desk and its clock, in threads of one process.
//!
//! [`run_member`] takes a member that was just opened, over any disk, and serves its peers and
//! clients until its [`Operator`] ends it. Nothing here decides: threads hand in what links read,
//! write what the book has, and answer clients.
#![tactic(auto)]

mod admission;
mod ahead;
mod callers;
mod clients;
mod clock;
mod dialling;
mod doors;
mod ending;
mod epoch;
mod events;
mod followers;
mod fronts;
mod hosts;
mod incoming;
mod life;
mod linking;
mod log;
mod logger;
mod pace;
mod places;
mod quota;
mod refusals;
mod run;
mod seconds;
mod shared;
mod slot_follow;
mod slot_stream;
mod slots;
mod sockets;
mod threads;
mod timing;
mod tossers;
mod versions;
mod watch;

pub use callers::{Caller, Difference};
pub use dialling::DialFault;
pub use epoch::InChain;
pub use events::LogEvent;
pub use followers::Crowd;
pub use fronts::{Fronts, run_fronts};
pub use hosts::Hosts;
pub use linking::Standing;
pub use log::{Log, Queue};
pub use quota::Quota;
pub use refusals::{KeptRefusal, Refusal, RefusalCount, Refusals};
pub use run::{Addresses, Operator, Start, run_member};
pub use slots::{GivenSlot, Slots};
pub use sockets::client_stream;
pub use tossers::{Tossers, tosser_for, tossers_of};
