//! The values that the words of an event write, beside numbers.

ghost use Rattle.std.specs.Prelude.{◌≡◌, ℕ, Bool, Option, Some, IfSome};
ghost use Rattle.script.specs.LineWords.{IsBit, IsWhich, IsGroupSize, IsFuse};
ghost use Rattle.sim.specs.declared.events.Which.{Which};

use numerals::{is, number, number16};
use sim::{MOST_IN_GROUP, Which};

/// The bit that the word writes, `0` or `1`, leading zeros taken.
pub fn bit(word: &[u8]) -> Option<bool>
    ensures some { IfSome result (IsBit word.now) }
    ensures exact { (bit : Bool) → IsBit word.now bit → result ≡ Some bit }
{
    match number(word) {
        Some(0) => Some(false),
        Some(1) => Some(true),
        _ => None,
    }
}

/// Returns which statement the word names: `next`, or a number.
pub fn which(word: &[u8]) -> Option<Which>
    ensures some { IfSome result (IsWhich word.now) }
    ensures exact { (which : Which) → IsWhich word.now which → result ≡ Some which }
{
    if is(word, "next") {
        return Some(Which::Next);
    }
    match number(word) {
        Some(number) => Some(Which::At(number)),
        None => None,
    }
}

/// Returns how many statements the word gives a group at most: 1 to [`MOST_IN_GROUP`].
pub fn group_size(word: &[u8]) -> Option<u16>
    ensures some { IfSome result (IsGroupSize word.now) }
    ensures exact { (count : ℕ) → IsGroupSize word.now count → result ≡ Some count }
{
    match number16(word) {
        Some(count) if count >= 1 && count <= MOST_IN_GROUP => Some(count),
        _ => None,
    }
}

/// The fuse that the word names: `off`, or a number of calls.
pub fn fuse(word: &[u8]) -> Option<Option<u64>>
    ensures some { IfSome result (IsFuse word.now) }
    ensures exact { (calls : Option ℕ) → IsFuse word.now calls → result ≡ Some calls }
{
    if is(word, "off") {
        return Some(None);
    }
    match number(word) {
        Some(calls) => Some(Some(calls)),
        None => None,
    }
}
