//! The decisions that a client may believe.
//!
//! Up to t members lie, so what one member tells is worth nothing by itself. A [`Reading`] takes
//! what members told of one question, and has its decision once more than t members told the same:
//! one of them is correct, and a correct member tells only what it has saved. The law
//! [`laws::what_is_read_is_decided`] says so over every run of the cluster.
#![tactic(auto)]

pub mod laws;
mod reading;

pub use reading::Reading;
