//! Transcripts as text: the lines that a desk writes, and the command `audit` that reads them.
//!
//! | line | what it says |
//! |---|---|
//! | `transcript Q bit B count C` | question Q was decided for the bit B, and C lines follow |
//! | `FROM HEX` | member FROM said a statement: its frame (type 03) in hexadecimal digits of lower case |
#![tactic(auto)]

mod audit;
mod fault;
mod lines;
mod reading;
mod text;

pub use audit::audit_text;
pub use fault::AuditFault;
pub use lines::{Block, put, put_head, put_pair};
pub use reading::{count_in, question_in};
pub use text::TranscriptText;
