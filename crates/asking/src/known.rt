//! The members of which something is known, a bit each.

ghost use Rattle.std.specs.Prelude.{ℕ, ◌≡◌, ◌<◌, ◌==◌, ◌||◌, ◌↔◌, IsTrue, true};
ghost use Rattle.asking.specs.Marks.{has_news, is_marked};

use crate::board::News;
use terms::Size;

/// Returns `true` if something is known of each member.
pub fn are_known(known: u64, size: Size) -> bool
    ensures { IsTrue result ↔ ((member : ℕ) → member < size.n → is_marked known member ≡ true) }
{
    size.recall();
    for member in 0..size.n() {
        if !is_known(known, member) {
            return false;
        }
    }
    true
}

/// Returns `true` if something is known of the member.
pub fn is_known(known: u64, member: u8) -> bool
    requires { member < 64 }
    ensures { result ≡ is_marked known member }
{
    (known >> u32::from(member)) & 1 == 1
}

/// Returns the members that were known, and those of which there is news.
pub fn with_news(known: u64, news: &[News]) -> u64
    ensures { (member : ℕ) → member < 64 →
        is_marked result member ≡ (is_marked known member || has_news news.now member) }
{
    let mut all = known;
    for one in news {
        all = with_member(all, one.member);
    }
    all
}

/// Returns the members that were known, and this one. No number from 64 on is a member's.
pub fn with_member(known: u64, member: u8) -> u64
    ensures { (other : ℕ) → other < 64 →
        is_marked result other ≡ (is_marked known other || (member == other)) }
{
    if member >= 64 {
        return known;
    }
    known | (1u64 << u32::from(member))
}
