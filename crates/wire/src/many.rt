//! Several statements of one frame.

ghost use Rattle.std.specs.Cmp.{partial_equiv_from_equiv};
ghost use Rattle.wire.specs.Same.{same_statements, same_equivalence};

use std::marker::Model;
use terms::Statement;

/// The most statements of a frame.
pub const MOST_STATEMENTS: usize = 99;

/// Several statements that go in one frame: 2 to 99 of them, in order. One alone goes as a
/// `Message::Statement`, so that each message has one spelling.
///
/// In contracts it is the list of its statements. Two are equal exactly where their lists are.
#[derive(Debug, Drop)]
pub struct Many {
    items: Vec<Statement>,
}

impl Model for Many {
    ghost use Rattle.std.specs.Prelude.{List, length};
    ghost use Rattle.terms_prelude.specs.Terms.{Statement};
    ghost use Rattle.wire.specs.Count.{IsCount};

    ghost Value = { List Statement };

    ghost view = { λ a. a.items.items };

    ghost invariant = { λ a. IsCount (length a.items.items) };
}

impl Many {
    ghost use Rattle.std.specs.Prelude.{◌≡◌, ◌↔◌, length, IfOk, IfErr, IsOk};
    ghost use Rattle.wire.specs.Count.{IsCount};

    /// These statements in one frame. It takes no memory.
    ///
    /// # Errors
    ///
    /// The list comes back, as it was, if it has fewer than 2 statements or more than 99.
    pub fn new(items: Vec<Statement>) -> Result<Many, Vec<Statement>>
        ensures ok { IfOk result (λ many. many ≡ items.items) }
        ensures err { IfErr result (λ back. back ≡ items) }
        ensures exact { IsOk result ↔ IsCount (length items.items) }
    {
        let count = items.as_slice().len();
        if count < 2 || count > MOST_STATEMENTS {
            return Err(items);
        }
        Ok(Many { items })
    }

    /// The statements, in order: 2 to 99.
    pub fn as_slice(&self) -> &[Statement]
        ensures value { result.now ≡ self.now }
        ensures count { IsCount (length self.now) }
    {
        self.items.as_slice()
    }
}

impl PartialEq for Many {
    ghost eq = { same_statements };

    ghost laws = { partial_equiv_from_equiv same_equivalence };

    fn eq(&self, other: &Many) -> bool {
        self.as_slice() == other.as_slice()
    }
}

impl Eq for Many {
    ghost laws = { same_equivalence };
}
