//! The slots to which members have come, and how far a window moves with them.

ghost use Rattle.std.specs.Prelude.{◌≡◌, ◌<◌, ◌≤◌};
ghost use Rattle.gateway.specs.Heads.{IsCommonHead, count_at, moved_heads, next_first};

/// Notes that a member has come to a slot. It never goes back.
pub(crate) fn move_head(heads: &mut Vec<u64>, member: u8, slot: u64)
    ensures { heads.new.items ≡ moved_heads heads.old.items member slot }
{
    let place = usize::from(member);
    if place >= heads.len() {
        return;
    }
    if heads[place] < slot {
        heads[place] = slot;
    }
}

/// Returns the greatest slot to which more than t members have come; 0 if there is none.
pub(crate) fn common_head(heads: &[u64], t: u8) -> u64
    ensures { IsCommonHead t heads.now result }
{
    let mut common = 0;
    for head in heads {
        common = raised(heads, t, common, *head);
    }
    common
}

/// Returns the greater of two slots, if more than t members have come to it; else the first.
fn raised(heads: &[u64], t: u8, common: u64, head: u64) -> u64
    ensures above { common ≤ result }
    ensures least { t < count_at heads.now head → head ≤ result }
    ensures reached { (0 < common → t < count_at heads.now common) →
        0 < result → t < count_at heads.now result }
{
    if head > common && count_at(heads, head) > usize::from(t) {
        return head;
    }
    common
}

/// Returns how many members have come to a slot.
fn count_at(heads: &[u64], slot: u64) -> usize
    ensures { result ≡ count_at heads.now slot }
{
    heads.iter().filter(|head| slot <= **head).count()
}

/// Returns the first slot of a window of four quarters, once the common head is this one.
pub(crate) fn next_first(first: u64, quarter: u64, head: u64) -> u64
    requires { quarter ≤ 65536 }
    ensures { result ≡ next_first first quarter head }
{
    if head < first || head - first < 3 * quarter {
        return first;
    }
    head - 2 * quarter
}
