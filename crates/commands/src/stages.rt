//! The replies to `STATE`, and the objects of JSON that say the same.

ghost use Rattle.std.specs.Prelude.{ℕ, ◌≡◌, ◌↔◌, IfOk, IfSome, IsNone, IsTrue, Some, string_bytes};
ghost use Rattle.commands.specs.Replies.{AreRoundAndStep, IsRoundAndStep, IsStage, SaysStage, SaysStageSame, stage_object};
ghost use Rattle.commands.specs.declared.stages.Stage.{Stage};
ghost use Rattle.commands.specs.declared.stages.Stage.TheVariants.{Open};

use crate::replies::two_counts;
use numerals::{behind, is};
use std::alloc::{AllocError, Global};

/// The state of a question at a member that hasn't decided it.
#[derive(Clone, Copy, Debug, PartialEq, Eq)]
pub enum Stage {
    /// The member said no Initial of its own.
    Unproposed,
    /// The member said its last one.
    Spent,
    /// Its last one is of this round and step.
    Open {
        /// The round, 1 to 32.
        round: u64,
        /// The step, 1 to 3.
        step: u64,
    },
}

/// Returns `true` if the reply is one to `STATE` without a decision.
pub(crate) fn is_stage(reply: &[u8]) -> bool
    ensures { IsTrue result ↔ IsStage reply.now }
{
    stage_of(reply).is_some()
}

/// Returns the object that says the same as a reply to `STATE` without a decision; none for any
/// other reply.
pub(crate) fn stage_object_of(alloc: Global, reply: &[u8]) -> Result<Option<String>, AllocError>
    ensures some { IfOk result
        (λ found. IfSome found (λ text. SaysStageSame reply.now (string_bytes text))) }
    ensures none { IfOk result (λ found. IsNone found → IsStage reply.now → ⊥) }
{
    match stage_of(reply) {
        Some(stage) => Ok(Some(stage_object(alloc, stage)?)),
        None => Ok(None),
    }
}

/// Returns the stage that the reply says, if it is one to `STATE` without a decision.
fn stage_of(reply: &[u8]) -> Option<Stage>
    ensures some { IfSome result (SaysStage reply.now) }
    ensures exact { (stage : Stage) → SaysStage reply.now stage → result ≡ Some stage }
{
    if is(reply, "UNPROPOSED") {
        return Some(Stage::Unproposed);
    }
    if is(reply, "SPENT") {
        return Some(Stage::Spent);
    }
    open_stage(reply)
}

/// Returns the stage that the reply says, if it is `OPEN r s`.
fn open_stage(reply: &[u8]) -> Option<Stage>
    ensures some { IfSome result (SaysStage reply.now) }
    ensures exact { (round step : ℕ) → SaysStage reply.now (Open round step) →
        result ≡ Some (Open round step) }
{
    match behind(reply, "OPEN ") {
        Some(words) => match round_and_step(words) {
            Some((round, step)) => Some(Stage::Open { round, step }),
            None => None,
        },
        None => None,
    }
}

/// Returns the round and the step that the words write.
fn round_and_step(words: &[u8]) -> Option<(u64, u64)>
    ensures some { IfSome result (λ at. AreRoundAndStep words.now at.0 at.1) }
    ensures exact { (round step : ℕ) → AreRoundAndStep words.now round step →
        result ≡ Some (round, step) }
{
    match two_counts(words) {
        Some((round, step)) => {
            if is_round_and_step(round, step) {
                Some((round, step))
            } else {
                None
            }
        }
        None => None,
    }
}

/// Returns `true` if these are a round and a step of it.
fn is_round_and_step(round: u64, step: u64) -> bool
    ensures { IsTrue result ↔ IsRoundAndStep round step }
{
    1 <= round && round <= 32 && 1 <= step && step <= 3
}

/// Returns the object of a stage.
fn stage_object(alloc: Global, stage: Stage) -> Result<String, AllocError>
    ensures { IfOk result (λ text. string_bytes text ≡ stage_object stage) }
{
    match stage {
        Stage::Unproposed => String::from_str(alloc, "{\"unproposed\":true}"),
        Stage::Spent => String::from_str(alloc, "{\"spent\":true}"),
        Stage::Open { round, step } => {
            format!(in alloc; "{{\"open\":true,\"round\":{round},\"step\":{step}}}")
        }
    }
}
