//! Words with a space between them.

ghost use Rattle.std.specs.Prelude.{ℕ, ◌≡◌, ◌<◌, ◌∷◌, ◌++◌, List, length, IfSome, MatchOption};
ghost use Rattle.std.specs.List.{position_from};
ghost use Rattle.numerals.specs.Spaces.{is_space, NoSpace};

use crate::numbers::is;

/// Returns the place of the first space.
pub fn first_space(line: &[u8]) -> Option<usize>
    ensures value { result ≡ position_from is_space 0 line.now }
    ensures within { IfSome result (λ at. at < length line.now) }
{
    line.iter().position(|byte| *byte == b' ')
}

/// Returns what stands before the first space, and what stands behind it; none where there is no
/// space.
pub fn split_at_space(line: &[u8]) -> Option<(&[u8], &[u8])>
    ensures { MatchOption result (NoSpace line.now)
        (λ parts. (line.now ≡ parts.0.now ++ 32 ∷ parts.1.now) × NoSpace parts.0.now) }
{
    match first_space(line) {
        Some(space) => Some((&line[..space], &line[space + 1..])),
        None => None,
    }
}

/// Returns what stands behind these words, if the text begins with them.
pub fn behind<'a>(text: &'a [u8], words: &str) -> Option<&'a [u8]>
    ensures some { IfSome result (λ rest. text.now ≡ words.now ++ rest.now) }
    ensures exact { (rest : List ℕ) → text.now ≡ words.now ++ rest →
        MatchOption result ⊥ (λ found. found.now ≡ rest) }
{
    let length = words.len();
    if text.len() < length {
        return None;
    }
    if is(&text[..length], words) {
        Some(&text[length..])
    } else {
        None
    }
}
