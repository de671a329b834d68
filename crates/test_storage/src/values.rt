//! Values of rows that several words say.

use disk::Pick;
use std::alloc::Global;
use terms::Header;
use test_words::{header_of, pick_of, words_of};

/// The header of a text of a size and a member.
pub fn header_named(alloc: Global, text: &str) -> Option<Header> {
    let words = words_of(alloc, text)?;
    match words.as_slice() {
        [n, t, questions, me] => header_of(n, t, questions, me),
        _ => None,
    }
}

/// The pick of a text.
pub fn pick_named(alloc: Global, text: &str) -> Option<Pick> {
    let words = words_of(alloc, text)?;
    pick_of(&words)
}
