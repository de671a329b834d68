//! A header of version 1, in bytes.
ghost use Rattle.std.specs.Prelude.{◌≡◌, ◌↔◌, ◌≤◌, IsTrue, IfSome, IsNone};
ghost use Rattle.terms_prelude.specs.Terms.{Header};
ghost use Rattle.migration.specs.Old.{old_header_text, IsOldHeader};

use terms::{Header, Size};

/// The number of bytes of a header.
pub(crate) const HEADER: usize = 24;

/// The place of the byte that tells the version.
const VERSION: usize = 7;

/// The most members that a cluster has in version 1.
const OLD_MEMBERS: u8 = 32;

/// The most questions that it has there.
const OLD_QUESTIONS: u16 = 256;

/// The header of these bytes, if they are one: but for the byte that tells the version it is a
/// header of version 2, and its size is within the bounds of version 1.
pub(crate) fn header_of(bytes: &[u8; 24]) -> Option<Header>
    ensures some { IfSome result
        (λ header. IsOldHeader header × (bytes.now ≡ old_header_text header)) }
    ensures none { IsNone result → (header : Header) → IsOldHeader header →
        bytes.now ≡ old_header_text header → ⊥ }
{
    if bytes[VERSION] != b'1' {
        return None;
    }
    let mut renewed = *bytes;
    renewed[VERSION] = b'2';
    match journal::header_of(&renewed) {
        Some(header) if is_old_size(header.size()) => Some(header),
        _ => None,
    }
}

/// Returns `true` if a size is within the bounds of version 1.
fn is_old_size(size: Size) -> bool
    ensures { IsTrue result ↔ ((size.n ≤ 32) × (size.questions ≤ 256)) }
{
    size.n() <= OLD_MEMBERS && size.questions() <= OLD_QUESTIONS
}
