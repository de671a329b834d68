//! The history of a book in blocks: what is noted stays where it is.
ghost use Rattle.std.specs.Prelude.{◌≡◌, ◌+◌, ◌<◌, ◌≤◌, ◌++◌, [], ◌∷◌, length, true, false, IfSome, IfNone, Some, slice_get};
ghost use Rattle.node.specs.Entries.{noted};
ghost use Rattle.node.specs.Histories.{joined};

use crate::block::Block;
use crate::compact::CompactEntry;
use crate::entry::Entry;
use std::alloc::Global;
use std::marker::Model;
use std::mem::replace;

/// The number of entries for which a block is made, unless more are wanted at once: it takes 61,440
/// bytes.
const BLOCK: usize = 4096;

/// The entries that were noted, in order.
#[derive(Drop)]
pub(crate) struct History {
    alloc: Global,
    full: Vec<Block>,
    behind: usize,
    last: Vec<CompactEntry>,
}

impl Model for History {
    ghost use Rattle.std.specs.Prelude.{◌++◌, ◌-◌, vec_len, vec_capacity};
    ghost use Rattle.node.specs.Histories.{HistoryView, AreCounted, joined};

    ghost Value = { HistoryView };

    ghost view = { λ h.
        record {
          entries = joined h.full.items ++ h.last.items;
          room = vec_capacity h.last - vec_len h.last;
        } };

    ghost invariant = { λ h. AreCounted h.behind h.full.items (vec_capacity h.last) };
}

impl History {
    /// An empty history. It takes no memory.
    pub(crate) fn new(alloc: Global) -> History
        ensures { result.entries ≡ [] }
    {
        History {
            alloc,
            full: Vec::new(alloc),
            behind: 0,
            last: Vec::new(alloc),
        }
    }

    /// Makes room for so many entries more, if there is memory. The entries stay, and none is
    /// moved: where the last block lacks room a new one is begun.
    pub(crate) fn make_room(&mut self, k: usize) -> bool
        ensures entries { self.new.entries ≡ self.old.entries }
        ensures room { result ≡ true → k ≤ self.new.room }
        ensures some { result ≡ false → 0 < k }
    {
        k <= self.last.capacity() - self.last.len() || self.begin_block(k.max(BLOCK))
    }

    /// Begins a block for so many entries, if there is memory.
    fn begin_block(&mut self, k: usize) -> bool
        ensures entries { self.new.entries ≡ self.old.entries }
        ensures room { result ≡ true → self.new.room ≡ k }
    {
        let behind = self.len();
        if behind.checked_add(k).is_none() || self.full.reserve(1).is_err() {
            return false;
        }
        let Ok(next) = Vec::with_capacity(self.alloc, k) else {
            return false;
        };
        match Block::of(self.alloc, replace(&mut self.last, next)) {
            Ok(block) => {
                self.full.push_reserved(block);
                self.behind = behind;
                true
            }
            Err(last) => {
                self.last = last;
                false
            }
        }
    }

    /// Notes an entry, for which there is room.
    pub(crate) fn push_reserved(&mut self, entry: Entry)
        requires { 0 < self.old.room }
        ensures entries { self.new.entries ≡ self.old.entries ++ noted entry ∷ [] }
        ensures room { self.new.room + 1 ≡ self.old.room }
    {
        self.last.push_reserved(CompactEntry::of(entry));
    }

    /// Returns how many entries were noted.
    pub(crate) fn len(&self) -> usize
        ensures { result ≡ length self.now.entries }
    {
        self.behind + self.last.len()
    }

    /// The entry at this place, counted from 0. It goes through the blocks before.
    pub(crate) fn get(&self, at: usize) -> Option<Entry>
        ensures some { IfSome result (λ entry. slice_get self.now.entries at ≡ Some (noted entry)) }
        ensures none { IfNone result (length self.now.entries ≤ at) }
    {
        let mut left = at;
        for block in &self.full {
            let entries = block.entries();
            if left < entries.len() {
                return Some(entries[left].entry());
            }
            left -= entries.len();
        }
        if left < self.last.len() {
            Some(self.last[left].entry())
        } else {
            None
        }
    }

    /// The blocks before the last one, and the last one.
    pub(crate) fn parts(&self) -> (&[Block], &[CompactEntry])
        ensures { self.now.entries ≡ joined result.0.now ++ result.1.now }
    {
        (self.full.as_slice(), self.last.as_slice())
    }
}
