//! The calls that a disk in memory has answered, to be recorded for clauses alone.
use ghost_record::{Change, Recorded};
use std::marker::Model;

/// The file at first, and each call since then.
#[derive(Drop)]
pub(crate) struct History {}

impl Model for History {
    ghost use Rattle.std.specs.Prelude.{[]};
    ghost use Rattle.disk.specs.Replay.{FilePast, begun as past_begun};

    ghost Value = { FilePast };

    ghost view = { λ _. past_begun [] };
}

impl Recorded for History {
    ghost use Rattle.std.specs.Prelude.{[]};
    ghost use Rattle.disk.specs.Replay.{begun as past_begun};

    ghost begun = { past_begun [] };
}

/// An event in the life of a file.
#[derive(Clone, Copy, Drop)]
pub(crate) enum Deed<'a> {
    /// The file began anew with these bytes, all on the disk.
    Began(&'a [u8]),
    /// A call looked at it, or was a sync that failed, and changed nothing.
    Looked,
    /// A write of these bytes at that place.
    Wrote(usize, &'a [u8]),
    /// A write at that place, of that length, failed: a crash may leave any bytes there.
    Failed(usize, usize),
    /// A sync succeeded.
    Synced,
}

impl Change<History> for Deed<'_> {
    ghost use Rattle.disk.specs.Happened.{past_after};

    ghost after = { past_after };
}
