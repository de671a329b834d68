//! The proposals that were handed on to all members, recorded for clauses alone.

use crate::cluster::Proposal;
use ghost_record::{Change, Recorded};
use std::marker::Model;

/// The proposals that were handed on: questions, each with its bit.
#[derive(Drop)]
pub(crate) struct Handed {}

impl Model for Handed {
    ghost use Rattle.std.specs.Prelude.{ℕ, Bool, List, []};

    ghost Value = { List (ℕ × Bool) };

    ghost view = { λ _. [] };
}

impl Recorded for Handed {
    ghost use Rattle.std.specs.Prelude.{[]};

    ghost begun = { [] };
}

/// A proposal that was handed on.
#[derive(Clone, Copy, Drop)]
pub(crate) struct HandedOn {
    pub(crate) proposal: Proposal,
}

impl Change<Handed> for HandedOn {
    ghost use Rattle.portal.specs.Served.{handed_after};

    ghost after = { handed_after };
}
