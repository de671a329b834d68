//! Numbers in decimal digits.

ghost use Rattle.std.specs.Prelude.{◌≡◌, ◌↔◌, ℕ, Some, IfSome, IsTrue};
ghost use Rattle.numerals.specs.Numbers.{IsBelow};

/// The number below 2^64 that the word writes: decimal digits alone, at least one. Leading zeros
/// are taken.
pub fn number(word: &[u8]) -> Option<u64>
    ensures some { IfSome result (IsBelow 64 word.now) }
    ensures exact { (number : ℕ) → IsBelow 64 word.now number → result ≡ Some number }
{
    if word.first() == Some(&b'+') {
        return None;
    }
    let Ok(text) = str::from_utf8(word) else {
        return None;
    };
    match text.parse::<u64>() {
        Ok(number) => Some(number),
        Err(_) => None,
    }
}

/// The number below 2^16 that the word writes, as [`number`] reads it.
pub fn number16(word: &[u8]) -> Option<u16>
    ensures some { IfSome result (IsBelow 16 word.now) }
    ensures exact { (number : ℕ) → IsBelow 16 word.now number → result ≡ Some number }
{
    match number(word) {
        Some(number) if number <= u64::from(u16::MAX) => Some(number as u16),
        _ => None,
    }
}

/// The number below 2^8 that the word writes, as [`number`] reads it.
pub fn number8(word: &[u8]) -> Option<u8>
    ensures some { IfSome result (IsBelow 8 word.now) }
    ensures exact { (number : ℕ) → IsBelow 8 word.now number → result ≡ Some number }
{
    match number(word) {
        Some(number) if number <= u64::from(u8::MAX) => Some(number as u8),
        _ => None,
    }
}

/// Returns `true` if the word is this name.
pub fn is(word: &[u8], name: &str) -> bool
    ensures { IsTrue result ↔ (word.now ≡ name.now) }
{
    word == name.as_bytes()
}
