//! What the calls are about: a cluster of four, its member 1, and some statements.
ghost use Rattle.std.specs.Prelude.{◌≡◌, IfSome};
ghost use Rattle.terms_prelude.specs.Terms.{new_place};

use terms::{Header, Kind, Place, Size, Statement, Value};

/// A cluster of four with one question, its member 1, and statements on the question.
#[derive(Drop)]
pub(crate) struct Subject {
    /// Cluster 7, member 1.
    pub(crate) header: Header,
    /// Member 0's own Initial of round 1 step 1, One.
    pub(crate) initial: Statement,
    /// Member 1's own Initial of round 1 step 1, One.
    pub(crate) own: Statement,
    /// A Ready of member 0's place and value.
    pub(crate) ready: Statement,
    /// An Echo of it.
    pub(crate) echo: Statement,
    /// A Ready of the last place of origin 0: round 32 step 1, One.
    pub(crate) far: Statement,
    /// An Echo of that place and value.
    pub(crate) far_echo: Statement,
    ghost four: { header.size.n ≡ 4 },
    ghost asked: { header.size.questions ≡ 1 },
    ghost ready_of: { ready.place ≡ new_place 0 0 1 1 },
    ghost far_of: { far.place ≡ new_place 0 0 32 1 },
    ghost far_echo_of: { far_echo.place ≡ new_place 0 0 32 1 },
    ghost initial_of: { initial.place ≡ new_place 0 0 1 1 },
}

/// Returns what the calls are about; there always is. It takes no memory.
pub(crate) fn make_subject() -> Option<Subject>
    ensures { IfSome result (λ of. of.header.size.questions ≡ 1) }
{
    let Ok(size) = Size::new(4, 1, 1) else {
        return None;
    };
    Some(Subject {
        header: Header::new(7, size, 1)?,
        initial: said(Kind::Initial, 0, 1)?,
        own: said(Kind::Initial, 1, 1)?,
        ready: said(Kind::Ready, 0, 1)?,
        echo: said(Kind::Echo, 0, 1)?,
        far: said(Kind::Ready, 0, 32)?,
        far_echo: said(Kind::Echo, 0, 32)?,
    })
}

/// A statement of One at that origin, in step 1 of that round.
fn said(kind: Kind, origin: u8, round: u8) -> Option<Statement>
    ensures { IfSome result (λ s. s.place ≡ new_place 0 origin round 1) }
{
    Statement::new(kind, Place::new(0, origin, round, 1)?, Value::One)
}
