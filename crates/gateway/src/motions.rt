//! The body of a proposal: an object of JSON that has a bit, and nothing else.

ghost use Rattle.std.specs.Prelude.{◌≡◌, Bool, IfOk, IfSome, IsNone};
ghost use Rattle.json.specs.Value.{value_view};
ghost use Rattle.json.specs.Json.{member, no_members, object};
ghost use Rattle.gateway.specs.Motions.{HasBit, IsMotion, bit_text};

use json::{Error, Scratch, Value};
use numerals::is;
use std::alloc::{AllocError, Global};

/// Returns the bit that the body proposes.
///
/// # Errors
///
/// [`AllocError`] if an allocation failed.
pub(crate) fn motion_of(alloc: Global, body: &[u8]) -> Result<Option<bool>, AllocError>
    ensures some { IfOk result (λ found. IfSome found (IsMotion body.now)) }
    ensures none { IfOk result (λ found. IsNone found → (bit : Bool) → IsMotion body.now bit → ⊥) }
{
    let mut scratch = Scratch::new(alloc);
    match Value::from_slice(alloc, body, &mut scratch) {
        Ok(value) => Ok(bit_of(&value)),
        Err(Error::OutOfMemory) => Err(AllocError),
        Err(Error::Invalid) => Ok(None),
        Err(Error::TooLong) => Err(AllocError),
        Err(Error::DuplicateKey) => Err(AllocError),
    }
}

/// Returns the bit of a value that is an object of one member, `bit`.
fn bit_of(value: &Value<'_>) -> Option<bool>
    ensures some { IfSome result (HasBit (value_view value.now)) }
    ensures none { IsNone result → (bit : Bool) → HasBit (value_view value.now) bit → ⊥ }
{
    match value {
        Value::Object(members) => match members.as_slice() {
            [member] => bit_at(member.0, &member.1),
            _ => None,
        },
        _ => None,
    }
}

/// Returns the bit of a member of this name and value.
fn bit_at(name: &str, value: &Value<'_>) -> Option<bool>
    ensures some { IfSome result
        (HasBit (object (member name.now (value_view value.now) no_members))) }
    ensures none { IsNone result → (bit : Bool) →
        HasBit (object (member name.now (value_view value.now) no_members)) bit → ⊥ }
{
    if name != "bit" {
        return None;
    }
    match value.as_number() {
        Some(number) => bit_in(number.as_bytes()),
        None => None,
    }
}

/// Returns the bit that a number is.
pub(crate) fn bit_in(number: &[u8]) -> Option<bool>
    ensures some { IfSome result (λ bit. number.now ≡ bit_text bit) }
    ensures none { IsNone result → (bit : Bool) → number.now ≡ bit_text bit → ⊥ }
{
    if is(number, "0") {
        Some(false)
    } else if is(number, "1") {
        Some(true)
    } else {
        None
    }
}
