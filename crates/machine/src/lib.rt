//! The runtime of a member that runs, and why a member doesn't run.
#![tactic(auto)]

mod fault;
mod machine;

pub use fault::RunFault;
pub use machine::Machine;
