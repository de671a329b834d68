//! Players of rows on books, sessions of links and clients, and logs. The head of each module says
//! what its rows are.
#![tactic(auto)]

mod books;
mod desks;
mod followers;
mod logs;
mod places;
mod sessions;
mod streams;
mod texts;

pub use desks::Desk;
pub use logs::Logs;
pub use sessions::Sessions;
