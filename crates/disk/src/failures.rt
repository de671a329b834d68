//! A count of failures, to be recorded for clauses alone: no word holds it, so it has no greatest
//! value.
use ghost_record::{Change, Recorded};
use std::marker::Model;

/// A count of failures.
#[derive(Drop)]
pub struct Failures {}

impl Model for Failures {
    ghost use Rattle.std.specs.Prelude.{ℕ};

    ghost Value = { ℕ };

    ghost view = { λ _. 0 };
}

impl Recorded for Failures {
    ghost begun = { 0 };
}

/// One failure.
#[derive(Clone, Copy, Drop)]
pub struct Failure;

impl Change<Failures> for Failure {
    ghost use Rattle.std.specs.Prelude.{◌+◌};

    ghost after = { λ count _. count + 1 };
}
