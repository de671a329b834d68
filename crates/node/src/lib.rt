//! A member that threads share. Threads borrow it one after another, as a [`Book`] that keeps what
//! happened since the member was opened; each link hands in what it reads from a [`Seat`] of its
//! own, and whoever wants a verdict asks the [`Board`], which takes no lock.
#![tactic(auto)]

mod account;
mod block;
mod board;
mod book;
mod compact;
mod ended;
mod entry;
mod history;
mod hub;
pub mod laws;
mod line;
mod link_table;
mod marks;
mod order;
mod pause;
mod publisher;
mod rack;
mod seat;
mod settle;
mod showing;
mod state;
mod tally;
mod transcript;
mod voice;

pub use board::{Board, NewBoard, Pass};
pub use book::{Book, Naming};
pub use ended::Ended;
pub use entry::Entry;
pub use hub::Hub;
pub use link_table::LinkCount;
pub use order::Decision;
pub use rack::Rack;
pub use seat::Seat;
pub use settle::{Closing, close};
pub use state::QuestionState;
pub use transcript::{Dossier, Transcript, TranscriptFault};
