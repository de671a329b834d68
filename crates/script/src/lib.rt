//! Scripts: the text that says what happens in a simulated cluster.
//!
//! A script is lines of words, one space between two words. Empty lines and lines that begin with
//! `#` are skipped. The first five others are `n N`, `t T`, `questions Q`, `liars ..` and `seed S`,
//! in this order; behind them stand the events, of which `rounds K`, `random K` and `fair K` stand
//! for many. The tosses of the coins, and what `random` and `fair` draw, are words of ChaCha20 on
//! the seed, so a script says all that happens.
#![tactic(auto)]

ghost use Rattle.std.specs.Prelude.{◌≡◌, ◌≤◌, ◌⊎◌, length, IfOk, IfErr};
ghost use Rattle.script.specs.Making.{correct_below};
ghost use Rattle.script.specs.Scripts.{IsScript, IsFirstFault};

mod draw;
mod fair;
mod fault;
mod head;
pub mod laws;
mod lines;
mod making;
mod orders;
mod source;
mod step;
mod values;

pub use fault::ScriptFault;
use sim::{Event, MOST_EVENTS};
pub use source::Source;
use std::alloc::{AllocError, Global};
use terms::Size;

/// A cluster, and what happens in it.
#[derive(Drop)]
pub struct Script {
    /// The cluster's size.
    pub size: Size,
    /// The members that lie, as the script lists them: whether they ascend and are few enough is
    /// looked at when the script is run.
    pub liars: Vec<u8>,
    /// The events, with their tosses drawn, at most [`MOST_EVENTS`].
    pub events: Vec<Event>,
}

/// The members below n that don't lie, ascending.
fn correct_members(alloc: Global, n: u8, liars: &[u8]) -> Result<Vec<u8>, AllocError>
    ensures { IfOk result (λ correct. correct.items ≡ correct_below n liars.now) }
{
    let mut correct = Vec::new(alloc);
    for member in 0..n {
        if !liars.contains(&member) {
            correct.push(member)?;
        }
    }
    Ok(correct)
}

/// The script that the text says.
///
/// # Errors
///
/// The first fault from the top: [`ScriptFault::Line`], [`ScriptFault::Size`] behind the third line
/// of the head, [`ScriptFault::Events`] before a line's events are made. [`ScriptFault::Memory`]
/// where memory was refused.
pub fn read(alloc: Global, text: &[u8]) -> Result<Script, ScriptFault>
    ensures says { IfOk result (IsScript text.now) }
    ensures few { IfOk result (λ script. length script.events.items ≤ MOST_EVENTS) }
    ensures fault { IfErr result
        (λ fault. (fault ≡ ScriptFault.Memory) ⊎ IsFirstFault text.now fault) }
{
    Source::of(alloc, text)?.into_script(alloc)
}
