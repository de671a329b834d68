//! Answers of a disk, to be recorded for clauses alone.
use ghost_record::{Change, Recorded};
use std::marker::Model;

/// Calls of a disk with their answers, the last of them first.
#[derive(Drop)]
pub(crate) struct Replies {}

impl Model for Replies {
    ghost use Rattle.std.specs.Prelude.{List, []};
    ghost use Rattle.disk.specs.Supposed.{Reply};

    ghost Value = { List Reply };

    ghost view = { λ _. [] };
}

impl Recorded for Replies {
    ghost use Rattle.std.specs.Prelude.{[]};

    ghost begun = { [] };
}

/// A call of a disk with its answer.
#[derive(Clone, Copy, Drop)]
pub(crate) enum DiskReply<'a> {
    /// The file has so many bytes.
    Told(usize),
    /// A read from that place on gave these bytes.
    Gave(usize, &'a [u8]),
    /// A write of these bytes at that place succeeded.
    Wrote(usize, &'a [u8]),
    /// A write at that place, of that length, failed.
    Lost(usize, usize),
    /// A sync succeeded.
    Synced,
    /// A length, a read or a sync failed.
    Refused,
}

impl Change<Replies> for DiskReply<'_> {
    ghost use Rattle.disk.specs.Replies.{replies_after};

    ghost after = { replies_after };
}
