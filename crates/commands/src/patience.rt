//! The time that a client waits, as its words say it.

ghost use Rattle.std.specs.Prelude.{ℕ, List, ◌≡◌, ◌<◌, ◌≤◌, ◌++◌, ◌∷◌, [], IfSome, MatchOption, Some};
ghost use Rattle.settings.specs.Marks.{LacksMark};
ghost use Rattle.commands.specs.Patience.{AreParts, IsPart, IsPatience, IsScaled, IsSeconds, IsWhole};

use numerals::number16;

/// Returns the milliseconds that a text of seconds writes, such as `5`, `0.5`, `2.125` or `5s`:
/// decimal digits up to 65535, and behind a point one to three digits more, and then an `s` or
/// nothing. `None` if the text isn't one. A text of no time at all is one, too.
pub fn milliseconds(text: &str) -> Option<u32>
    ensures some { IfSome result (IsPatience text.now) }
    ensures exact { (time : ℕ) → IsPatience text.now time → result ≡ Some time }
{
    match before_unit(text) {
        Some(front) => seconds(front),
        None => seconds(text),
    }
}

/// Returns what stands before an `s` that ends the text, if it is the text's first one.
fn before_unit(text: &str) -> Option<&str>
    ensures some { IfSome result (λ front. text.now ≡ front.now ++ 115 ∷ []) }
    ensures exact { (front : List ℕ) → text.now ≡ front ++ 115 ∷ [] → LacksMark 115 front →
        MatchOption result ⊥ (λ it. it.now ≡ front) }
{
    let (front, rest) = split(text, 's')?;
    if rest.is_empty() { Some(front) } else { None }
}

/// Returns the milliseconds that a text of seconds writes.
fn seconds(text: &str) -> Option<u32>
    ensures some { IfSome result (IsSeconds text.now) }
    ensures exact { (time : ℕ) → IsSeconds text.now time → result ≡ Some time }
{
    match split(text, '.') {
        Some((front, digits)) => with_part(front, digits),
        None => whole(text),
    }
}

/// Returns the text before the first such mark, and the text behind that.
fn split(text: &str, mark: char) -> Option<(&str, &str)>
    requires { mark < 128 }
    ensures parts { IfSome result (λ parts. text.now ≡ parts.0.now ++ mark ∷ parts.1.now) }
    ensures exact { (front behind : List ℕ) → text.now ≡ front ++ mark ∷ behind →
        LacksMark mark front → MatchOption result ⊥
        (λ parts. (parts.0.now ≡ front) × (parts.1.now ≡ behind)) }
{
    text.split_once(mark)
}

/// Returns the milliseconds that whole seconds and the digits behind a point write.
fn with_part(front: &str, digits: &str) -> Option<u32>
    ensures some { IfSome result (AreParts front.now digits.now) }
    ensures exact { (time : ℕ) → AreParts front.now digits.now time → result ≡ Some time }
{
    let whole = number16(front.as_bytes())?;
    let part = part(digits)?;
    Some(1000 * u32::from(whole) + part)
}

/// Returns the milliseconds that a text of whole seconds writes.
fn whole(text: &str) -> Option<u32>
    ensures some { IfSome result (IsWhole text.now) }
    ensures exact { (time : ℕ) → IsWhole text.now time → result ≡ Some time }
{
    match number16(text.as_bytes()) {
        Some(whole) => Some(1000 * u32::from(whole)),
        None => None,
    }
}

/// Returns the milliseconds that one to three digits behind a point write.
fn part(digits: &str) -> Option<u32>
    ensures some { IfSome result (IsPart digits.now) }
    ensures exact { (part : ℕ) → IsPart digits.now part → result ≡ Some part }
    ensures small { IfSome result (λ part. part ≤ 6553500) }
{
    let number = number16(digits.as_bytes())?;
    scaled(digits.len(), number)
}

/// Returns the milliseconds for which so many digits that write this number stand.
fn scaled(digits: usize, number: u16) -> Option<u32>
    ensures some { IfSome result (IsScaled digits number) }
    ensures exact { (part : ℕ) → IsScaled digits number part → result ≡ Some part }
    ensures small { IfSome result (λ part. part ≤ 6553500) }
{
    match digits {
        1 => Some(100 * u32::from(number)),
        2 => Some(10 * u32::from(number)),
        3 => Some(u32::from(number)),
        _ => None,
    }
}
