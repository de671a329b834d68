//! The layout of records, version by version.
ghost use Rattle.std.specs.Prelude.{◌≡◌, ◌≢◌, length, IfSome, IsNone};
ghost use Rattle.terms_prelude.specs.Terms.{Record};
ghost use Rattle.journal.specs.Texts.{Spelling, HasWidth, version_2};
ghost use Rattle.journal.specs.WellFormed.{IsWellFormedFor};

use crate::record::{RECORD, record_of};
use terms::{Header, Record};

/// The layout of a version's records, each of as many bytes. Headers differ from version to version
/// too, gates and counts don't.
pub trait Layout {
    /// The count of a record's bytes, and the bytes.
    ghost spelling: { Spelling };

    /// Returns how many bytes a record takes, 1 to 255.
    fn width() -> usize
        ensures width { result ≡ spelling.width }
        ensures each { HasWidth spelling };

    /// Returns the record of these bytes, if they are one that is well formed for the header.
    fn record_of(header: &Header, bytes: &[u8]) -> Option<Record>
        requires { length bytes.now ≡ spelling.width }
        ensures some { IfSome result
            (λ r. IsWellFormedFor header.now r × (bytes.now ≡ spelling.bytes r)) }
        ensures none { IsNone result → (r : Record) → IsWellFormedFor header.now r →
            bytes.now ≢ spelling.bytes r };
}

/// The layout of version 2, in which this crate writes.
pub(crate) enum Version2 {}

impl Layout for Version2 {
    ghost spelling = { version_2 };

    fn width() -> usize {
        RECORD
    }

    fn record_of(header: &Header, bytes: &[u8]) -> Option<Record> {
        let [kind, high, low, origin, round, last] = *bytes else {
            return None;
        };
        record_of(header, &[kind, high, low, origin, round, last])
    }
}
