//! The ends of questions.

ghost use Rattle.std.specs.Prelude.{◌≡◌};
ghost use Rattle.std.specs.List.{list_any};
ghost use Rattle.chances.specs.Ends.{end_of, is_for, is_open, has_two_answers, last_round, round_of};

/// The end of a question that was played.
#[derive(Clone, Copy, Debug, PartialEq, Eq)]
pub enum End {
    /// Each correct member decided, the last of them in this round, 1 to 32, and all for one bit.
    Decided(u8),
    /// A correct member hasn't decided, and no two decided differently.
    Open,
    /// Two correct members decided differently.
    TwoAnswers,
}

/// Returns how a question ended of which the correct members have these decisions, each with its
/// round and bit.
pub fn end_of(verdicts: &[Option<(u8, bool)>]) -> End
    ensures { result ≡ end_of verdicts.now }
{
    if has_two_answers(verdicts) {
        return End::TwoAnswers;
    }
    if has_open(verdicts) {
        return End::Open;
    }
    End::Decided(last_round(verdicts))
}

/// Returns `true` if one decided each bit.
fn has_two_answers(verdicts: &[Option<(u8, bool)>]) -> bool
    ensures { result ≡ has_two_answers verdicts.now }
{
    has_bit(verdicts, false) && has_bit(verdicts, true)
}

/// Returns `true` if one decided this bit.
fn has_bit(verdicts: &[Option<(u8, bool)>], bit: bool) -> bool
    ensures { result ≡ list_any (is_for bit) verdicts.now }
{
    verdicts.iter().any(|verdict| match verdict {
        Some((_, said)) => *said == bit,
        None => false,
    })
}

/// Returns `true` if one has no decision.
fn has_open(verdicts: &[Option<(u8, bool)>]) -> bool
    ensures { result ≡ list_any is_open verdicts.now }
{
    verdicts.iter().any(|verdict| verdict.is_none())
}

/// Returns the last round of a decision, or 0.
fn last_round(verdicts: &[Option<(u8, bool)>]) -> u8
    ensures { result ≡ last_round verdicts.now }
{
    let mut last = 0;
    for verdict in verdicts {
        last = last.max(round_of(*verdict));
    }
    last
}

/// Returns the round of a decision, or 0.
fn round_of(verdict: Option<(u8, bool)>) -> u8
    ensures { result ≡ round_of verdict }
{
    match verdict {
        Some((round, _)) => round,
        None => 0,
    }
}
