//! Bytes in hexadecimal digits.

ghost use Rattle.std.specs.Prelude.{◌≡◌, ◌↔◌, ℕ, List, [], ◌∷◌, Some, IfOk, IfSome, IsTrue, MatchOption};
ghost use Rattle.numerals.specs.Numbers.{IsHexOf};

use hex::FromHexError;
use std::alloc::Global;
use terms::Memory;

/// The bytes, at least one, that the word writes in hexadecimal digits of either case. [`Memory`]:
/// no room for them.
pub fn bytes(alloc: Global, word: &[u8]) -> Result<Option<Vec<u8>>, Memory>
    ensures some { IfOk result (λ found. IfSome found (λ bytes. IsHexOf word.now bytes.items)) }
    ensures exact { (bytes : List ℕ) → IsHexOf word.now bytes →
        IfOk result (λ found. MatchOption found ⊥ (λ found. found.items ≡ bytes)) }
{
    match hex::decode(alloc, word) {
        Ok(bytes) if bytes.is_empty() => Ok(None),
        Ok(bytes) => Ok(Some(bytes)),
        Err(error) if is_refusal(&error) => Err(Memory),
        Err(_) => Ok(None),
    }
}

/// Returns `true` if memory was refused.
fn is_refusal(error: &FromHexError) -> bool
    ensures { IsTrue result ↔ (error.now ≡ FromHexError.OutOfMemory) }
{
    matches!(error, FromHexError::OutOfMemory)
}

/// The byte that the word writes in two hexadecimal digits. [`Memory`]: no room to read it.
pub fn byte(alloc: Global, word: &[u8]) -> Result<Option<u8>, Memory>
    ensures some { IfOk result (λ found. IfSome found (λ byte. IsHexOf word.now (byte ∷ []))) }
    ensures exact { (byte : ℕ) → IsHexOf word.now (byte ∷ []) →
        IfOk result (λ found. found ≡ Some byte) }
{
    match bytes(alloc, word)? {
        Some(bytes) => match bytes.as_slice() {
            [byte] => Ok(Some(*byte)),
            _ => Ok(None),
        },
        None => Ok(None),
    }
}
