//! A block of a history that is full.
ghost use Rattle.std.specs.Prelude.{◌≡◌, ◌++◌, [], ◌∷◌, IfOk, IsTrue, MatchResult, List};
ghost use Rattle.questions.specs.Replay.{Entry};
ghost use Rattle.node.specs.Transcripts.{AreMarkedIn, heard_on};

use crate::compact::CompactEntry;
use std::alloc::Global;
use std::marker::Model;
use std::sync::Arc;
use terms::Memory;

/// The places of the table of a block.
const PLACES: usize = 4096;

/// Entries that are no more changed. They stand in one place for all who have the block. Contracts
/// see the entries.
#[derive(Drop)]
pub(crate) struct Block {
    full: Arc<Full>,
}

impl Model for Block {
    ghost use Rattle.std.specs.Prelude.{List};
    ghost use Rattle.std.specs.Arc.{arc_value};
    ghost use Rattle.questions.specs.Replay.{Entry};
    ghost use Rattle.node.specs.Transcripts.{AreMarkedIn};

    ghost Value = { List Entry };

    ghost view = { λ block. (arc_value block.full).entries.items };

    ghost invariant = { λ block. AreMarkedIn (arc_value block.full).table.marks
        (arc_value block.full).entries.items };
}

impl Block {
    /// A block of these entries. They come back where there is no memory.
    pub(crate) fn of(alloc: Global, entries: Vec<CompactEntry>) -> Result<Block, Vec<CompactEntry>>
        ensures { MatchResult result (λ block. block ≡ entries.items) (λ back. back ≡ entries) }
    {
        let table = table_of(entries.as_slice());
        match Arc::new(alloc, Full { entries, table }) {
            Ok(full) => Ok(Block { full }),
            Err(failed) => Err(failed.value.entries),
        }
    }

    /// The same block for one more. Memory is its only fault.
    pub(crate) fn share(&self) -> Result<Block, Memory>
        ensures { IfOk result (λ block. block ≡ self.now) }
    {
        let full = self.full.clone()?;
        Ok(Block { full })
    }

    /// Tells without a look at the entries that none is on the question; where it can't tell, it
    /// says no.
    pub(crate) fn is_without(&self, question: u16) -> bool
        ensures { IsTrue result → heard_on question self.now ≡ [] }
    {
        self.full.table.is_without(question)
    }

    /// The entries, in order.
    pub(crate) fn entries(&self) -> &[CompactEntry]
        ensures { result.now ≡ self.now }
    {
        self.full.entries.as_slice()
    }
}

/// The entries of a block, and a table by which one who looks for a question needn't look through
/// them.
#[derive(Drop)]
struct Full {
    entries: Vec<CompactEntry>,
    table: Table,
}

/// Marks the questions of entries, each at its place.
#[derive(Clone, Copy)]
struct Table {
    marks: [bool; PLACES],
}

impl Table {
    /// Marks the question of the entry.
    fn mark(&mut self, entry: &CompactEntry)
        ensures { (past : List Entry) → AreMarkedIn self.old.marks past →
            AreMarkedIn self.new.marks (past ++ entry.now ∷ []) }
    {
        self.marks[usize::from(entry.question()) % PLACES] = true;
    }

    /// Tells that nothing of the entries is on the question; where the table can't tell, it says
    /// no.
    fn is_without(&self, question: u16) -> bool
        ensures { (entries : List Entry) → AreMarkedIn self.now.marks entries → IsTrue result →
            heard_on question entries ≡ [] }
    {
        !self.marks[usize::from(question) % PLACES]
    }
}

/// Marks the questions of the entries.
fn table_of(entries: &[CompactEntry]) -> Table
    ensures { AreMarkedIn result.marks entries.now }
{
    let mut table = Table {
        marks: [false; PLACES],
    };
    for entry in entries {
        table.mark(entry);
    }
    table
}
