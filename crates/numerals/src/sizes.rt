//! Sizes of numbers that a text writes.

ghost use Rattle.std.specs.Prelude.{◌≡◌, IfOk, MatchResult, None, Some};
ghost use Rattle.terms_prelude.specs.Terms.{new_size, size_fault};

use terms::{Size, SizeFault};

/// The size of these numbers, or the first thing that is wrong with them, in the order of
/// [`SizeFault`]. A number of members or of liars that no byte holds is too many, as one just above
/// the limit is.
pub fn size_from(n: u16, t: u16, questions: u16) -> Result<Size, SizeFault>
    ensures ok { IfOk result (λ size. size ≡ new_size n t questions) }
    ensures exact { MatchResult result (λ _. size_fault n t questions ≡ None)
        (λ fault. size_fault n t questions ≡ Some fault) }
{
    let n = u8::try_from(n).unwrap_or(u8::MAX);
    let t = u8::try_from(t).unwrap_or(u8::MAX);
    Size::new(n, t, questions)
}
