//! Questions without end: a chain of clusters, one after the other.
//!
//! A cluster settles at most 4,096 questions in its life. In a chain, each of these lives is an
//! *epoch*: a cluster of its own, with a cluster number of its own, of the same members and the
//! same size. A *slot* is a question of the chain. Slots are numbered from 0 on over all epochs,
//! and [`Chain`] has the cluster, the epoch and the question of each. [`opening`] says which epochs
//! a member runs, given what it knows, and [`seeds`] which coins an epoch tosses. The laws of
//! [`laws`] say that no two decisions of correct members on a slot differ, and that liars alone
//! open no epoch.
#![tactic(auto)]

pub mod laws;
mod opening;
mod seeds;
mod slots;

pub use opening::{Ask, Known};
pub use seeds::seed_of;
pub use slots::{Chain, Slot};
