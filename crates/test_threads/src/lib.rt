//! Tests of a member that threads share: its line, and its links beside an asker.
#![tactic(auto)]

#[cfg(test)]
mod at_once;
#[cfg(test)]
mod beginnings;
#[cfg(test)]
mod pauses;
