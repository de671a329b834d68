//! A member's journal of version 1, brought over into a new file of version 2.
//!
//! The old file is read and never written. The new file is begun with 0 as its first byte, gets all
//! records of the old one, and then its first byte: a crash at any moment leaves a new file that
//! opening refuses, or one that holds exactly the old records. After Ok the old file is out of use,
//! since a member that ran by both would say things twice. After a fault the new file is to be
//! thrown away.
//!
//! A file of version 1 is one of version 2, but for this:
//!
//! | Bytes | What |
//! |---|---|
//! | 0 to 7 of the header | `BRACHAJ1` |
//! | 16 to 19 of the header | at most 32 members, at most 256 questions |
//! | 5 of a record that is a statement | the step, 1 to 3 |
//! | 6 of it | the value: 0 Zero, 1 One; of step 3 2 SureZero, 3 SureOne, 4 Unsure |
//! | 5, 6 of a record that is a decision | 0, the bit |
#![tactic(auto)]

mod fault;
pub mod laws;
mod old;
mod staging;

pub use fault::MigrateFault;
pub use old::{peek_old, read_old};
pub use staging::{Staging, begin, stage};
