//! The replies of a desk: which lines are some, and the objects of JSON that say the same.

ghost use Rattle.std.specs.Prelude.{ℕ, List, ◌≡◌, ◌≤◌, ◌↔◌, IfOk, IfSome, IsNone, IsTrue, MatchOption, Some, string_bytes};
ghost use Rattle.commands.specs.Replies.{AreCounts, AreFour, HasCounts, HasFirst, HasLinks, IsCount, IsLinks, IsPlainReply, IsReady, IsReplyLine, IsUnlinked, SaysDone, SaysFixed, SaysPlain, SaysSame, SaysUnlinked, SaysWhyNot, links_object, up_object};
ghost use Rattle.commands.specs.declared.replies.Links.{Links};

use crate::stages::{is_stage, stage_object_of};
use numerals::{behind, is, number, split_at_space};
use std::alloc::{AllocError, Global};

/// The numbers of statements and of decisions that the reply says, where it is `UP m d`.
pub fn counts(reply: &[u8]) -> Option<(u64, u64)>
    ensures some { IfSome result (λ found. HasCounts reply.now found.0 found.1) }
    ensures exact { (m d : ℕ) → HasCounts reply.now m d → result ≡ Some (m, d) }
{
    match behind(reply, "UP ") {
        Some(words) => two_counts(words),
        None => None,
    }
}

/// The links of a member, as the reply to `LINKS` says them.
#[derive(Clone, Copy, Debug, PartialEq, Eq)]
pub struct Links {
    /// The number of links that come in.
    pub coming: u64,
    /// The number of links that go out and are welcomed.
    pub going: u64,
    /// The number of members.
    pub members: u64,
    /// The number of links that have to come in and to go out for the member to decide: n - t.
    pub needed: u64,
}

/// Returns `true` if the reply says that as many links come in and go out as are needed.
pub fn is_ready(reply: &[u8]) -> bool
    ensures { IsTrue result ↔ IsReady reply.now }
{
    match links_of(reply) {
        Some(links) => are_enough(&links),
        None => false,
    }
}

/// Returns `true` if as many links come in and go out as are needed.
fn are_enough(links: &Links) -> bool
    ensures { IsTrue result
        ↔ ((links.now.needed ≤ links.now.coming) × (links.now.needed ≤ links.now.going)) }
{
    links.needed <= links.coming && links.needed <= links.going
}

/// The object that says the same as the reply; none where the line is no reply.
pub fn object_of(alloc: Global, reply: &[u8]) -> Result<Option<String>, AllocError>
    ensures some { IfOk result
        (λ found. IfSome found (λ text. SaysSame reply.now (string_bytes text))) }
    ensures none { IfOk result (λ found. IsNone found → IsReplyLine reply.now → ⊥) }
{
    match links_of(reply) {
        Some(links) => Ok(Some(links_object(alloc, &links)?)),
        None => unlinked_object(alloc, reply),
    }
}

/// The object of `LINKS i o n w`.
fn links_object(alloc: Global, links: &Links) -> Result<String, AllocError>
    ensures { IfOk result (λ text. string_bytes text ≡ links_object links.now) }
{
    let coming = links.coming;
    let going = links.going;
    let members = links.members;
    let needed = links.needed;
    format!(in alloc;
        "{{\"state\":\"links\",\"in\":{coming},\"out\":{going},\"members\":{members},\"needed\":{needed}}}"
    )
}

/// The object that says the same as a reply that isn't of links; none where the line is no such
/// reply.
fn unlinked_object(alloc: Global, reply: &[u8]) -> Result<Option<String>, AllocError>
    ensures some { IfOk result
        (λ found. IfSome found (λ text. SaysUnlinked reply.now (string_bytes text))) }
    ensures none { IfOk result (λ found. IsNone found → IsUnlinked reply.now → ⊥) }
{
    match stage_object_of(alloc, reply)? {
        Some(text) => Ok(Some(text)),
        None => plain_object(alloc, reply),
    }
}

/// The object that says the same as a reply that isn't of links and none to `STATE`; none where the
/// line is no such reply.
fn plain_object(alloc: Global, reply: &[u8]) -> Result<Option<String>, AllocError>
    ensures some { IfOk result
        (λ found. IfSome found (λ text. SaysPlain reply.now (string_bytes text))) }
    ensures none { IfOk result (λ found. IsNone found → IsPlainReply reply.now → ⊥) }
{
    if let Some(object) = fixed_object(reply) {
        return Ok(Some(String::from_str(alloc, object)?));
    }
    match counts(reply) {
        Some((statements, decided)) => Ok(Some(up_object(alloc, statements, decided)?)),
        None => Ok(None),
    }
}

/// The object of `UP m d`.
fn up_object(alloc: Global, statements: u64, decided: u64) -> Result<String, AllocError>
    ensures { IfOk result (λ text. string_bytes text ≡ up_object statements decided) }
{
    format!(in alloc; "{{\"up\":true,\"statements\":{statements},\"decided\":{decided}}}")
}

/// Returns `true` if the line is a reply of a desk.
pub fn is_reply(line: &[u8]) -> bool
    ensures { IsTrue result ↔ IsReplyLine line.now }
{
    is_unlinked(line) || has_links(line)
}

/// Tells if the line is a reply of a desk that isn't of links.
fn is_unlinked(line: &[u8]) -> bool
    ensures { IsTrue result ↔ IsUnlinked line.now }
{
    is_plain_reply(line) || is_stage(line)
}

/// Tells if the line is a reply of a desk that isn't of links and none to `STATE`.
fn is_plain_reply(line: &[u8]) -> bool
    ensures { IsTrue result ↔ IsPlainReply line.now }
{
    let fixed = fixed_object(line);
    let found = counts(line);
    fixed.is_some() | found.is_some()
}

/// The object of a reply that has no numbers but bits and codes.
fn fixed_object(reply: &[u8]) -> Option<&'static str>
    ensures some { IfSome result (λ object. SaysFixed reply.now object.now) }
    ensures none { IsNone result → (object : List ℕ) → SaysFixed reply.now object → ⊥ }
{
    match good_object(reply) {
        Some(object) => Some(object),
        None => other_object(reply),
    }
}

/// The object of a reply that says that it was done, or what was decided.
fn good_object(reply: &[u8]) -> Option<&'static str>
    ensures some { IfSome result (λ object. SaysDone reply.now object.now) }
    ensures none { IsNone result → (object : List ℕ) → SaysDone reply.now object → ⊥ }
{
    if is(reply, "OK") {
        Some("{\"ok\":true}")
    } else if is(reply, "HAVE 0") {
        Some("{\"have\":0}")
    } else if is(reply, "HAVE 1") {
        Some("{\"have\":1}")
    } else if is(reply, "DECIDED 0") {
        Some("{\"decided\":0}")
    } else if is(reply, "DECIDED 1") {
        Some("{\"decided\":1}")
    } else if is(reply, "UNDECIDED") {
        Some("{\"undecided\":true}")
    } else {
        None
    }
}

/// The object of a reply that says why not.
fn other_object(reply: &[u8]) -> Option<&'static str>
    ensures some { IfSome result (λ object. SaysWhyNot reply.now object.now) }
    ensures none { IsNone result → (object : List ℕ) → SaysWhyNot reply.now object → ⊥ }
{
    if is(reply, "STOPPED") {
        Some("{\"stopped\":true}")
    } else if is(reply, "THIN") {
        Some("{\"thin\":true}")
    } else if is(reply, "ERR 1 line") {
        Some("{\"error\":1,\"name\":\"line\"}")
    } else if is(reply, "ERR 2 question") {
        Some("{\"error\":2,\"name\":\"question\"}")
    } else if is(reply, "ERR 3 bit") {
        Some("{\"error\":3,\"name\":\"bit\"}")
    } else if is(reply, "ERR 4 memory") {
        Some("{\"error\":4,\"name\":\"memory\"}")
    } else if is(reply, "ERR 5 gone") {
        Some("{\"error\":5,\"name\":\"gone\"}")
    } else {
        None
    }
}

/// Returns `true` if the reply is `LINKS i o n w`.
pub(crate) fn has_links(reply: &[u8]) -> bool
    ensures { IsTrue result ↔ IsLinks reply.now }
{
    links_of(reply).is_some()
}

/// The links that the reply says, where it is `LINKS i o n w`.
pub(crate) fn links_of(reply: &[u8]) -> Option<Links>
    ensures some { IfSome result (HasLinks reply.now) }
    ensures exact { (links : Links) → HasLinks reply.now links → result ≡ Some links }
{
    match behind(reply, "LINKS ") {
        Some(words) => four_counts(words),
        None => None,
    }
}

/// The links that the words write.
fn four_counts(words: &[u8]) -> Option<Links>
    ensures some { IfSome result (AreFour words.now) }
    ensures exact { (links : Links) → AreFour words.now links → result ≡ Some links }
{
    let (coming, rest) = count_before(words)?;
    let (going, rest) = count_before(rest)?;
    let (members, needed) = two_counts(rest)?;
    Some(Links {
        coming,
        going,
        members,
        needed,
    })
}

/// The number before the first space, and what stands behind the space.
fn count_before(words: &[u8]) -> Option<(u64, &[u8])>
    ensures some { IfSome result (λ found. HasFirst words.now found.0 found.1.now) }
    ensures exact { (n : ℕ) (rest : List ℕ) → HasFirst words.now n rest →
        MatchOption result ⊥ (λ found. (found.0 ≡ n) × (found.1.now ≡ rest)) }
{
    let (first, rest) = split_at_space(words)?;
    Some((count(first)?, rest))
}

/// The two numbers that the words write.
pub(crate) fn two_counts(words: &[u8]) -> Option<(u64, u64)>
    ensures some { IfSome result (λ found. AreCounts words.now found.0 found.1) }
    ensures exact { (m d : ℕ) → AreCounts words.now m d → result ≡ Some (m, d) }
{
    let Some((first, second)) = split_at_space(words) else {
        return None;
    };
    let Some(statements) = count(first) else {
        return None;
    };
    let Some(decided) = count(second) else {
        return None;
    };
    Some((statements, decided))
}

/// The number that a word of a reply writes: no digit stands before it that could be left out.
fn count(word: &[u8]) -> Option<u64>
    ensures some { IfSome result (IsCount word.now) }
    ensures exact { (n : ℕ) → IsCount word.now n → result ≡ Some n }
{
    if word.len() > 1 && word[0] == b'0' {
        return None;
    }
    number(word)
}
