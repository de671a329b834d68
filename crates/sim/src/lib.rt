//! Whole clusters, simulated from a script. Each run is a run of the world.
#![tactic(auto)]

mod cluster;
mod events;
mod faults;
mod links;
mod posts;
mod presence;
mod tasks;

/// The most events of a script.
pub const MOST_EVENTS: usize = 1_000_000;

/// The most statements of a group.
pub const MOST_IN_GROUP: u16 = 256;

pub use cluster::{Cluster, Outcome, run};
pub use events::{Event, Mark, Reason, Which};
pub use faults::SimFault;
