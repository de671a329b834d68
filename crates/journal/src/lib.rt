//! A member's journal: batches of records in one file, each whole on the disk or not there.
//!
//! A file begins with its version, which is the form of all that follows: which sizes a cluster may
//! have, and how a record is spelled. This crate writes and reads version 2. A file of version 1 is
//! not read: opening it answers `OldVersion`, and the crate `migration` brings its records over
//! into a new file.
//!
//! Numbers take two or eight bytes, the high byte first.
//!
//! | Bytes | The header, 24 bytes |
//! |---|---|
//! | 0 to 7 | the version: `BRACHAJ2` |
//! | 8 to 15 | the cluster's number |
//! | 16, 17 | how many members there are, and how many of them may lie |
//! | 18, 19 | how many questions there are |
//! | 20 | the member whose journal it is |
//! | 21 to 23 | 0 |
//!
//! | Bytes | A batch |
//! |---|---|
//! | 0 | the gate: 0 is closed, and nothing behind it counts; any other byte is open (1 is written) |
//! | 1, 2 | the count of records, 1 to 65,535 |
//! | from 3 on | the records, 6 bytes each |
//!
//! | Bytes | A record that is a statement | that is a decision |
//! |---|---|---|
//! | 0 | the kind: 1 Initial, 2 Echo, 3 Ready | 4 |
//! | 1, 2 | the question | the question |
//! | 3 | the origin | 0 |
//! | 4 | the round, 1 to 32 | the round, 1 to 32 |
//! | 5 | 16 times the step (1 to 3), plus the value: 0 Zero, 1 One; of step 3 2 SureZero, 3 SureOne, 4 Unsure | 0 or 1, the bit |
//!
//! The first batch stands behind the header, and a closed gate behind the last one. A batch is
//! added behind the closed gate with another closed gate behind it, and once all of it is on the
//! disk its gate is opened. So a crash leaves the records from before, or those and the whole
//! batch. The module `laws` says what holds of every file.
#![tactic(auto)]

mod batches;
mod draft;
mod fault;
mod header;
mod journal;
pub mod laws;
mod layout;
mod open;
mod read;
mod record;
mod release;
mod spare;

pub use batches::Batches;
pub use draft::Draft;
pub use fault::JournalFault;
pub use header::header_of;
pub use journal::Journal;
pub use layout::Layout;
pub use open::{create, peek, read_file};
pub use read::read_batches;
pub use record::record_of;
pub use release::Release;
