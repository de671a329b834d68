//! A disk as a journal sees it: what reads give, and what a crash at any moment may leave.
#![tactic(auto)]

mod account;
mod content;
mod crash;
mod device;
mod failures;
mod file;
mod first_error;
mod history;
pub mod laws;
mod log;
mod memory;
mod named;
mod reply;
#[cfg(test)]
mod tests;

pub use crash::Pick;
pub use device::{DeviceFault, Disk};
pub use file::{FileDisk, Premise};
pub use first_error::FirstError;
pub use memory::MemDisk;
