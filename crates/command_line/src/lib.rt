//! The command line of `bracha`: which words ask for what. `words.txt` of `rows` has its words.
#![tactic(auto)]

mod tasks;
mod words;

pub use tasks::command;
pub use words::{
    AskWords, AuditWords, CheckWords, Command, DecideWords, DumpWords, EpochsWords, GatewayWords,
    HearWords, InitWords, MigrateWords, NewClusterWords, ProposeWords, Request, RoundsWords,
    RunWords, SimulateWords, StatusWords, Task, TranscriptWords,
};
