//! A record of version 1, in bytes.
ghost use Rattle.migration.specs.Old.{version_1};

use journal::Layout;
use terms::{Header, Record};

/// The layout of version 1.
pub(crate) enum Version1 {}

impl Layout for Version1 {
    ghost spelling = { version_1 };

    fn width() -> usize {
        7
    }

    /// But for its last two bytes, which are one byte in version 2, it is a record of version 2.
    fn record_of(header: &Header, bytes: &[u8]) -> Option<Record> {
        let [kind, high, low, origin, round, step, value] = *bytes else {
            return None;
        };
        if step > 15 || value > 15 {
            return None;
        }
        journal::record_of(header, &[kind, high, low, origin, round, 16 * step + value])
    }
}
