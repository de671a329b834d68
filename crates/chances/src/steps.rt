//! The steps of a question, one after the other.

ghost use Rattle.std.specs.Prelude.{◌≡◌, ◌<◌, ◌↔◌, IfSome, IsSome};
ghost use Rattle.terms_prelude.specs.Terms.{FitsStep, new_place, new_statement};
ghost use Rattle.chances.specs.Steps.{round_of, step_of};
ghost use Rattle.chances.specs.declared.steps.TheConstants.{STEPS};

use terms::{Kind, Place, Statement, Value};

/// The number of steps of a question: three in each of 32 rounds.
pub const STEPS: usize = 96;

/// A step of a question, counted from 0 over all rounds.
#[derive(Clone, Copy, Debug, PartialEq, Eq)]
pub struct Step(pub usize);

impl Step {
    /// Returns the step of the round, 1 to 3.
    pub fn step(self) -> u8
        ensures { result ≡ step_of self.0 }
    {
        (self.0 % 3) as u8 + 1
    }

    /// Returns the statement of this kind and value on the broadcast of this origin in this step,
    /// or `None` if there is none: the step is behind the last, or the value isn't one of the step.
    pub fn statement(self, kind: Kind, origin: u8, value: Value) -> Option<Statement>
        ensures some { IfSome result
            (λ s. s ≡ new_statement kind (new_place 0 origin (round_of self.0) (step_of self.0))
            value) }
        ensures exact { IsSome result ↔ ((self.0 < STEPS) × FitsStep (step_of self.0) value) }
    {
        if self.0 >= STEPS {
            return None;
        }
        let round = (self.0 / 3) as u8 + 1;
        match Place::new(0, origin, round, self.step()) {
            Some(place) => Statement::new(kind, place, value),
            None => None,
        }
    }
}
