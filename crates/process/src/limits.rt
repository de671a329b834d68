//! The number of files that a member may have open.

ghost use Rattle.std.specs.Prelude.{ℕ, ◌≡◌, ◌+◌, ◌*◌, ◌<◌, ◌≤◌, IfOk, IfSome, IsTrue, ◌↔◌, MatchOption, Some, None, false, string_bytes};
ghost use Rattle.process.specs.Limits.{HasLimit, IsFirstNumber, clients_within, fewer_text, followers_text, followers_within, lack_text, least_wanted, starved_text, wanted};

use crate::status::line_with;
use numerals::{number, split_at_space};
use std::alloc::{AllocError, Global};

/// The followers for whom there have to be files, or the member says so.
const FEWER: u64 = 512;

/// The most files that the process of this `/proc/self/limits` may have open; none where it may
/// have any number, or none is said.
pub fn open_limit(alloc: Global, limits: &[u8]) -> Result<Option<u64>, AllocError>
    ensures some { IfOk result (λ found. IfSome found (HasLimit limits.now)) }
    ensures exact { (limit : ℕ) → HasLimit limits.now limit →
        IfOk result (λ found. found ≡ Some limit) }
{
    match line_with(alloc, limits, "Max open files            ")? {
        Some(rest) => Ok(first_number(rest)),
        None => Ok(None),
    }
}

/// The number that the first word writes, behind which a space stands.
fn first_number(text: &[u8]) -> Option<u64>
    ensures some { IfSome result (IsFirstNumber text.now) }
    ensures exact { (first : ℕ) → IsFirstNumber text.now first → result ≡ Some first }
{
    match split_at_space(text) {
        Some((word, _)) => number(word),
        None => None,
    }
}

/// Returns how many clients at once a member of so many lets in, where it may have so many files
/// open: those for whom files are left, but one at least and 32 at most; 32 where no limit is
/// known.
pub fn clients_within(limit: Option<u64>, n: u8) -> u8
    ensures { result ≡ clients_within limit n }
{
    match limit {
        None => 32,
        Some(limit) => (limit.saturating_sub(wanted_by_links(n)) / 2).clamp(1, 32) as u8,
    }
}

/// Returns how many clients may follow decisions at once at a member of so many, if it may have
/// `limit` files open: those for whom files are left if 32 clients are in, but one at least and
/// 1,024 at most; 1,024 if no limit is known.
pub fn followers_within(limit: Option<u64>, n: u8) -> u16
    ensures { result ≡ followers_within limit n }
{
    match limit {
        None => 1024,
        Some(limit) => limit.saturating_sub(wanted_by_links(n) + 64).clamp(1, 1024) as u16,
    }
}

/// Returns `true` if so many open files are too few for a member to take part that needs links with
/// so many members, n - t. If no limit is known they aren't.
pub fn is_starved(limit: Option<u64>, needed: u8) -> bool
    ensures unknown { limit ≡ None → result ≡ false }
    ensures known { IfSome limit (λ limit. IsTrue result ↔ (limit < least_wanted needed)) }
{
    match limit {
        Some(limit) => limit < least_wanted(needed),
        None => false,
    }
}

/// Returns what is told of so many open files, which are too few for a member that needs links with
/// so many.
pub fn starved_words(alloc: Global, limit: Option<u64>, needed: u8) -> Result<String, AllocError>
    ensures { IfOk result
        (λ text. IfSome limit (λ limit. string_bytes text ≡ starved_text limit needed)) }
{
    match limit {
        Some(limit) => {
            let least = least_wanted(needed);
            format!(in alloc;
                "{limit} are too few: this member wants {least} at least, and 2 for each client (`ulimit -n`)"
            )
        }
        None => String::from_str(alloc, "too few"),
    }
}

/// Returns the least number of open files with which a member can take part that needs links with
/// so many members: four for each of these and twelve more, and what a member alone wants.
fn least_wanted(needed: u8) -> u64
    ensures { result ≡ least_wanted needed }
{
    wanted_by_links(1).max(4 * u64::from(needed) + 12)
}

/// Returns what is said if a member of so many has too few files for its links, 32 clients and 512
/// followers; none if it has enough. Of a limit of 1,024 files, as most systems set it, nothing is
/// said.
pub fn descriptors_lack(alloc: Global, limit: u64, n: u8) -> Result<Option<String>, AllocError>
    ensures few { limit < wanted n 1 →
        IfOk result (λ said. MatchOption said ⊥
        (λ text. string_bytes text ≡ lack_text limit (wanted n 0))) }
    ensures fewer { wanted n 1 ≤ limit → limit < wanted n 32 →
        IfOk result (λ said. MatchOption said ⊥
        (λ text. string_bytes text ≡ fewer_text limit (wanted n 0)
        (clients_within (Some limit) n))) }
    ensures followers { wanted n 32 ≤ limit → limit < wanted n 32 + 512 →
        IfOk result (λ said. MatchOption said ⊥
        (λ text. string_bytes text ≡ followers_text limit (wanted n 0)
        (followers_within (Some limit) n))) }
    ensures enough { wanted n 32 + 512 ≤ limit → IfOk result (λ said. said ≡ None) }
{
    let links = wanted_by_links(n);
    if limit < links + 2 {
        return Ok(Some(lack_words(alloc, limit, links)?));
    }
    if limit < links + 64 {
        let clients = clients_within(Some(limit), n);
        return Ok(Some(fewer_words(alloc, limit, links, clients)?));
    }
    if limit < links + 64 + FEWER {
        let followers = followers_within(Some(limit), n);
        return Ok(Some(followers_words(alloc, limit, links, followers)?));
    }
    Ok(None)
}

/// Returns how many files the links of a member of so many want: four for each member, nine for its
/// streams, its journal and its two doors, two that the doors hold for who comes next, and two for
/// a client that comes in the place of another.
fn wanted_by_links(n: u8) -> u64
    ensures { result ≡ wanted n 0 }
{
    4 * u64::from(n) + 13
}

/// Returns what is said of so many files, which are too few.
fn lack_words(alloc: Global, limit: u64, links: u64) -> Result<String, AllocError>
    ensures { IfOk result (λ text. string_bytes text ≡ lack_text limit links) }
{
    format!(in alloc;
        "bracha: {limit} open files are too few: the links want {links}, and each client 2\n"
    )
}

/// Returns what is said of so many files, which are enough for some of the clients.
fn fewer_words(alloc: Global, limit: u64, links: u64, clients: u8) -> Result<String, AllocError>
    ensures { IfOk result (λ text. string_bytes text ≡ fewer_text limit links clients) }
{
    format!(in alloc;
        "bracha: {limit} open files are enough for {clients} of 32 clients: the links want {links}, and each client 2\n"
    )
}

/// Returns what is said of so many files, which are enough for all clients and some of the
/// followers.
fn followers_words(
    alloc: Global,
    limit: u64,
    links: u64,
    followers: u16,
) -> Result<String, AllocError>
    ensures { IfOk result (λ text. string_bytes text ≡ followers_text limit links followers) }
{
    format!(in alloc;
        "bracha: {limit} open files are enough for {followers} of 1024 followers: the links want {links}, each client 2 and each follower 1\n"
    )
}
