//! The calls that were made on a file of the system, recorded for clauses alone.
use ghost_record::{Change, Recorded};
use std::marker::Model;

/// The calls of the system so far.
#[derive(Drop)]
pub(crate) struct Account {}

impl Model for Account {
    ghost use Rattle.disk.specs.System.{Done, nothing_done};

    ghost Value = { Done };

    ghost view = { λ _. nothing_done };
}

impl Recorded for Account {
    ghost use Rattle.disk.specs.System.{nothing_done};

    ghost begun = { nothing_done };
}

/// A call of the system.
#[derive(Clone, Copy, Drop)]
pub(crate) enum SystemCall<'a> {
    /// The call told this length.
    Told(usize),
    /// The call read these bytes from that place on.
    Read(usize, &'a [u8]),
    /// The call wrote these bytes from that place on.
    Wrote(usize, &'a [u8]),
    /// The call put the file on the disk.
    Synced,
}

impl Change<Account> for SystemCall<'_> {
    ghost use Rattle.disk.specs.Deeds.{done_after};

    ghost after = { done_after };
}
