//! The commands that ask desks: one member, or all of a cluster; and the gateway.
#![tactic(auto)]

mod asking;
mod asking_all;
mod board;
mod callers;
mod calls;
mod clients;
mod desks;
mod gate;
mod hearsay;
mod known;
mod patience;
mod readings;
mod sockets;
mod stating;

pub use asking::{ask_at, await_at, links_at, propose_at, state_at, status_at, transcript_at};
pub use asking_all::{Motion, Query, ask_all, decide};
pub use callers::{Caller, Cluster};
pub use gate::{Gate, run_gateway};
pub use hearsay::{audit_all, transcript_of_all};
pub use patience::patience_of;
pub use sockets::{socket_address, socket_addresses};
pub use stating::{StateForm, epochs_of_all, propose_to_all, status_of_all};
