//! The epochs of a chain that one process runs, and the connections that wait for them.
//!
//! A [`Switchboard`] is shared by all threads of the process. It says which epochs run, by the
//! rules of [`chain`]; a connection is handed to its epoch's [`Inbox`], or parked until that epoch
//! runs. [`slot_line`] reads the slot of a client's line.
#![tactic(auto)]

mod asks;
mod board;
mod inbox;
mod running;
mod said;
mod state;
mod turning;
mod verdicts;

pub use board::{Doors, Halt, Onward, Report, Stored, Switchboard};
pub use inbox::{Arrival, Inbox};
pub use said::{MOST, Said};
pub use turning::{
    SlotLine, Verb, asks_epochs, asks_standing, epochs_reply, follow_line, slot_line,
};
pub use verdicts::Verdicts;
