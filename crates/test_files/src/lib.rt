//! Tests of a journal by itself, and of disks that are files. What else libraries up to the member
//! do is played by `rows`.
#![tactic(auto)]

#[cfg(test)]
mod files;
#[cfg(test)]
mod journals;
#[cfg(test)]
mod order;
