//! Objects of JSON about members.

ghost use Rattle.std.specs.Prelude.{◌≡◌, ◌↔◌, ◌≤◌, ◌-◌, ◌++◌, IfOk, IsTrue, string_bytes};
ghost use Rattle.gateway.specs.Views.{IsLinked, chain_field, contradiction_item, contradiction_items, member_counts, member_head, member_item, member_items, members_head, members_object, proposing_field, proposing_word, size_fields, state_word};

use crate::answers::{behind_first, joined, says_text};
use crate::scopes::Scope;
use std::alloc::{AllocError, Global};
use terms::Size;

/// The state of a member's desk.
#[derive(Clone, Copy, Debug, PartialEq, Eq)]
pub enum MemberState {
    /// The desk answers.
    Up,
    /// No connection, or no answer.
    Silent,
    /// The desk says that its member is stopped.
    Stopped,
}

/// The clients that may propose at a gateway.
#[derive(Clone, Copy, Debug, PartialEq, Eq)]
pub enum Proposing {
    /// Everybody that can reach it.
    Open,
    /// Those that show the token.
    Token,
    /// Nobody.
    Never,
}

/// The numbers of a member, as its desk told them last.
#[derive(Debug, Drop)]
pub struct MemberView {
    /// The state of its desk.
    pub state: MemberState,
    /// The number of links that come in.
    pub coming: u64,
    /// The number of links that go out.
    pub going: u64,
    /// The number of statements that it said.
    pub statements: u64,
    /// The number of questions that it decided.
    pub decided: u64,
    /// The first question of those that follow.
    pub first: u64,
    /// The bit that it told on each of these questions, if more than t members told the other one.
    pub contradicts: Vec<Option<bool>>,
}

/// Returns the object of JSON of all members, by their numbers.
///
/// # Errors
///
/// [`AllocError`] if an allocation failed.
pub fn members_text(
    alloc: Global,
    cluster: u64,
    scope: Scope,
    proposing: Proposing,
    views: &[MemberView],
) -> Result<Vec<u8>, AllocError>
    ensures { IfOk result
        (λ bytes. bytes.items ≡ members_object cluster scope proposing views.now) }
{
    let head = members_head(alloc, cluster, scope, proposing)?;
    let items = member_items(alloc, views)?;
    joined(alloc, head.as_bytes(), behind_first(&items), b"]}\n")
}

/// Returns what stands before the members' items.
fn members_head(
    alloc: Global,
    cluster: u64,
    scope: Scope,
    proposing: Proposing,
) -> Result<String, AllocError>
    ensures { IfOk result (λ text. string_bytes text ≡ members_head cluster scope proposing) }
{
    let mut text = size_fields(alloc, cluster, scope.size)?;
    text.push_str(chain_field(scope.chain))?;
    let rest = proposing_field(alloc, proposing)?;
    text.push_str(rest.as_str())?;
    Ok(text)
}

/// Returns the cluster and its size.
#[tactic(auto, unfolding(crate::specs::Views::size_fields))]
fn size_fields(alloc: Global, cluster: u64, size: Size) -> Result<String, AllocError>
    ensures { IfOk result (λ text. string_bytes text ≡ size_fields cluster size) }
{
    format!(in alloc;
        "{{\"cluster\":{cluster},\"n\":{},\"t\":{},\"questions\":{}",
        size.n(),
        size.t(),
        size.questions()
    )
}

/// Returns the field of a chain; nothing for another cluster.
fn chain_field(chain: bool) -> &'static str
    ensures { result.now ≡ chain_field chain }
{
    if chain { ",\"chain\":true" } else { "" }
}

/// Returns who may propose, and the beginning of the members.
fn proposing_field(alloc: Global, proposing: Proposing) -> Result<String, AllocError>
    ensures { IfOk result (λ text. string_bytes text ≡ proposing_field proposing) }
{
    format!(in alloc;
        ",\"propose\":\"{}\",\"members\":[",
        proposing_word(proposing)
    )
}

/// Returns the word for who may propose.
fn proposing_word(proposing: Proposing) -> &'static str
    ensures { result.now ≡ proposing_word proposing }
{
    match proposing {
        Proposing::Open => "open",
        Proposing::Token => "token",
        Proposing::Never => "never",
    }
}

/// Returns the items of all members, with a comma before each.
fn member_items(alloc: Global, views: &[MemberView]) -> Result<Vec<u8>, AllocError>
    ensures { IfOk result (λ bytes. bytes.items ≡ member_items 0 views.now) }
{
    let mut bytes = Vec::new(alloc);
    for member in 0..views.len() {
        let item = member_item(alloc, member, &views[member])?;
        bytes.extend_from_slice(item.as_slice())?;
    }
    Ok(bytes)
}

/// Returns a member's item behind a comma.
fn member_item(alloc: Global, member: usize, view: &MemberView) -> Result<Vec<u8>, AllocError>
    ensures { IfOk result (λ bytes. bytes.items ≡ member_item member view.now) }
{
    let front = member_front(alloc, member, view)?;
    let items = contradiction_items(alloc, view.first, &view.contradicts)?;
    joined(
        alloc,
        front.as_bytes(),
        behind_first(items.as_bytes()),
        b"]}",
    )
}

/// Returns what stands before a member's contradictions.
fn member_front(alloc: Global, member: usize, view: &MemberView) -> Result<String, AllocError>
    ensures { IfOk result
        (λ text. string_bytes text ≡ member_head member view.now ++ member_counts view.now) }
{
    let mut text = member_head(alloc, member, view)?;
    let counts = member_counts(alloc, view)?;
    text.push_str(counts.as_str())?;
    Ok(text)
}

/// Returns what stands before a member's counts.
fn member_head(alloc: Global, member: usize, view: &MemberView) -> Result<String, AllocError>
    ensures { IfOk result (λ text. string_bytes text ≡ member_head member view.now) }
{
    format!(in alloc;
        ",{{\"member\":{member},\"state\":\"{}\",\"in\":{},\"out\":{}",
        state_word(view.state),
        view.coming,
        view.going
    )
}

/// Returns a member's counts.
fn member_counts(alloc: Global, view: &MemberView) -> Result<String, AllocError>
    ensures { IfOk result (λ text. string_bytes text ≡ member_counts view.now) }
{
    format!(in alloc;
        ",\"statements\":{},\"decided\":{},\"contradicts\":[",
        view.statements, view.decided
    )
}

/// Returns the items of all such questions from the first on, with a comma before each.
fn contradiction_items(
    alloc: Global,
    first: u64,
    found: &[Option<bool>],
) -> Result<String, AllocError>
    ensures { IfOk result (λ text. string_bytes text ≡ contradiction_items first found.now) }
{
    let mut text = String::new(alloc);
    for place in 0..found.len() {
        let question = u128::from(first) + place as u128;
        let item = contradiction_item(alloc, question, found[place])?;
        text.push_str(item.as_str())?;
    }
    Ok(text)
}

/// Returns the item of a question on which a member contradicts the others, behind a comma; nothing
/// if it doesn't.
fn contradiction_item(
    alloc: Global,
    question: u128,
    found: Option<bool>,
) -> Result<String, AllocError>
    ensures { IfOk result (λ text. string_bytes text ≡ contradiction_item question found) }
{
    match found {
        None => Ok(String::new(alloc)),
        Some(bit) => format!(in alloc;
            ",{{\"question\":{question},\"says\":{}}}",
            says_text(Some(bit))
        ),
    }
}

/// Returns the word of a state.
pub(crate) fn state_word(state: MemberState) -> &'static str
    ensures { result.now ≡ state_word state }
{
    match state {
        MemberState::Up => "up",
        MemberState::Silent => "silent",
        MemberState::Stopped => "stopped",
    }
}

/// Returns `true` if the member answers, and as many links come in and go out as it needs to
/// decide.
pub fn is_linked(size: Size, view: &MemberView) -> bool
    ensures { IsTrue result ↔ IsLinked size view.now }
{
    match view.state {
        MemberState::Up => has_links(size, view),
        MemberState::Silent | MemberState::Stopped => false,
    }
}

/// Returns `true` if as many links come in and go out as a member needs to decide.
fn has_links(size: Size, view: &MemberView) -> bool
    ensures { IsTrue result
        ↔ ((size.n - size.t ≤ view.now.coming) × (size.n - size.t ≤ view.now.going)) }
{
    size.recall();
    let needed = u64::from(size.n() - size.t());
    needed <= view.coming && needed <= view.going
}
