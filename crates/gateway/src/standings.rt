//! The state of a question, as the gateway tells it.

ghost use Rattle.std.specs.Prelude.{◌≡◌, IfOk, map, string_bytes};
ghost use Rattle.gateway.specs.Standings.{letter, standing_fields, standing_of};

use std::alloc::{AllocError, Global};

/// The stage of a question that isn't decided.
#[derive(Clone, Copy, Debug, PartialEq, Eq)]
pub enum Stage {
    /// Nothing is.
    Unproposed,
    /// A member took a proposal or had one, or more than t members told a decision.
    Proposed,
    /// So many members came to the last round that no decision comes.
    Spent,
}

/// The state of a question.
#[derive(Clone, Copy, Debug, PartialEq, Eq)]
pub enum Standing {
    /// Nothing is known of it but what t members at most told.
    Unproposed,
    /// A bit was proposed.
    Proposed,
    /// No decision comes.
    Spent,
    /// More than t members told this decision.
    Decided(bool),
}

/// Returns the state of a question with this decision, if there is one, or at this stage.
pub fn standing_of(decision: Option<bool>, stage: Stage) -> Standing
    ensures { result ≡ standing_of decision stage }
{
    match decision {
        Some(bit) => Standing::Decided(bit),
        None => match stage {
            Stage::Unproposed => Standing::Unproposed,
            Stage::Proposed => Standing::Proposed,
            Stage::Spent => Standing::Spent,
        },
    }
}

/// Returns the fields of JSON for a state.
pub(crate) fn standing_fields(standing: Standing) -> &'static str
    ensures { result.now ≡ standing_fields standing }
{
    match standing {
        Standing::Unproposed => "\"state\":\"unproposed\"",
        Standing::Proposed => "\"state\":\"proposed\"",
        Standing::Spent => "\"state\":\"spent\"",
        Standing::Decided(false) => "\"state\":\"decided\",\"bit\":0",
        Standing::Decided(true) => "\"state\":\"decided\",\"bit\":1",
    }
}

/// Returns a letter for each state: `-` unproposed, `p` proposed, `x` spent, `0` and `1` decided.
///
/// # Errors
///
/// [`AllocError`] if an allocation failed.
pub fn states_text(alloc: Global, standings: &[Standing]) -> Result<Vec<u8>, AllocError>
    ensures { IfOk result (λ bytes. bytes.items ≡ map letter standings.now) }
{
    let mut bytes = Vec::new(alloc);
    for standing in standings {
        bytes.push(letter(*standing))?;
    }
    Ok(bytes)
}

/// Returns the letter of a state.
fn letter(standing: Standing) -> u8
    ensures { result ≡ letter standing }
{
    match standing {
        Standing::Unproposed => b'-',
        Standing::Proposed => b'p',
        Standing::Spent => b'x',
        Standing::Decided(false) => b'0',
        Standing::Decided(true) => b'1',
    }
}
