//! The order in which a member is asked for questions.

ghost use Rattle.std.specs.Prelude.{◌≡◌};
ghost use Rattle.portal.specs.Ranks.{rank_of};

use gateway::Standing;

/// The rank of a question in a round in which a member is asked for some.
#[derive(Clone, Copy, Debug, PartialEq, Eq)]
pub(crate) enum Rank {
    /// The question is under way. It comes first.
    First,
    /// The question isn't under way, and a member told a decision of it. If that member lies, it
    /// may have told one of each question, so this one takes the room that those under way leave.
    Later,
}

/// Returns the rank of a question of this state, of which a member told a decision or nobody did.
/// `None` if no member is asked for it.
pub(crate) fn rank_of(standing: Standing, is_told: bool) -> Option<Rank>
    ensures { result ≡ rank_of standing is_told }
{
    match standing {
        Standing::Proposed => Some(Rank::First),
        Standing::Unproposed => { if is_told { Some(Rank::Later) } else { None } }
        Standing::Spent | Standing::Decided(_) => None,
    }
}
