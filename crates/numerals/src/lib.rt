//! Words of texts, and what they write: numbers, bytes, sizes. Scripts, settings, commands and the
//! lines of clients are read by these.
#![tactic(auto)]

mod hexes;
mod numbers;
mod sizes;
mod spaces;

pub use hexes::{byte, bytes};
pub use numbers::{is, number, number8, number16};
pub use sizes::size_from;
pub use spaces::{behind, first_space, split_at_space};
