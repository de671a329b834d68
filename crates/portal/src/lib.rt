//! The gateway's process: its threads and sockets. What a request means and what is answered is
//! [`gateway`]'s.
#![tactic(auto)]

mod asking;
mod book;
mod cluster;
mod deadline;
mod door;
mod fetching;
mod following;
mod handed;
mod hearing;
mod lines;
mod notes;
mod ranks;
mod reach;
mod recent;
mod serving;
mod shared;
mod speaker;
mod streaming;
mod telling;

pub use serving::{Opening, OpeningFault, Portal, Runner, open};
