//! The conditions under which a request is answered, or proposes.

ghost use Rattle.std.specs.Prelude.{◌≡◌, ◌↔◌, ◌++◌, ℕ, List, IsTrue, codes};
ghost use Rattle.gateway.specs.Guards.{IsBareHost, IsBareLocalHost, IsHost, IsJsonType, IsLocalHost, IsPortHost, IsOwnHost, IsOwnOrigin, ShowsToken, TakesProposals};

use numerals::{behind, is, number16};

/// The rules of a gateway for its clients.
#[derive(Clone, Copy, Debug, PartialEq, Eq)]
pub struct Policy<'a> {
    /// The port at which the gateway listens.
    pub port: u16,
    /// Set if it listens at a loopback address.
    pub local: bool,
    /// The token that a proposal must show; empty if none is needed.
    pub token: &'a [u8],
}

/// Returns `true` if the gateway takes requests under this host.
pub(crate) fn is_own_host(policy: &Policy<'_>, host: &[u8]) -> bool
    ensures { IsTrue result ↔ IsOwnHost policy.now host.now }
{
    !policy.local || is_local_host(host, policy.port)
}

/// Returns `true` if the host is one of this machine's own names.
fn is_local_host(host: &[u8], port: u16) -> bool
    ensures { IsTrue result ↔ IsLocalHost port host.now }
{
    is_port_host(host, port) || is_bare_local_host(host, port)
}

/// Returns `true` if the host is one of this machine's own names with the port.
fn is_port_host(host: &[u8], port: u16) -> bool
    ensures { IsTrue result ↔ IsPortHost port host.now }
{
    is_host(host, "127.0.0.1:", port)
        || is_host(host, "localhost:", port)
        || is_host(host, "[::1]:", port)
}

/// Returns `true` if the host is this name with the port.
fn is_host(host: &[u8], name: &str, port: u16) -> bool
    ensures { IsTrue result ↔ IsHost name.now port host.now }
{
    match behind(host, name) {
        Some(digits) => number16(digits) == Some(port),
        None => false,
    }
}

/// Returns `true` if the host is one of this machine's own names alone, and the port is that of
/// HTTP.
fn is_bare_local_host(host: &[u8], port: u16) -> bool
    ensures { IsTrue result ↔ IsBareLocalHost port host.now }
{
    port == 80 && is_bare_host(host)
}

/// Returns `true` if the host is one of this machine's own names alone.
fn is_bare_host(host: &[u8]) -> bool
    ensures { IsTrue result ↔ IsBareHost host.now }
{
    is(host, "127.0.0.1") || is(host, "localhost") || is(host, "[::1]")
}

/// Returns `true` if no page sent the request, or a page from this host did.
pub(crate) fn is_own_origin(host: &[u8], origin: &[u8]) -> bool
    ensures { IsTrue result ↔ IsOwnOrigin host.now origin.now }
{
    origin.is_empty() || is_both(origin, "http://", host) || is_both(origin, "https://", host)
}

/// Returns `true` if the text is these two, one after the other.
fn is_both(text: &[u8], front: &str, back: &[u8]) -> bool
    ensures { IsTrue result ↔ (text.now ≡ front.now ++ back.now) }
{
    match behind(text, front) {
        Some(rest) => rest == back,
        None => false,
    }
}

/// Returns `true` if the gateway takes proposals at all.
pub(crate) fn takes_proposals(policy: &Policy<'_>) -> bool
    ensures { IsTrue result ↔ TakesProposals policy.now }
{
    policy.local || !policy.token.is_empty()
}

/// Returns `true` if the token is shown, or none is needed.
pub(crate) fn shows_token(token: &[u8], authorization: &[u8]) -> bool
    ensures { IsTrue result ↔ ShowsToken token.now authorization.now }
{
    token.is_empty() || bears(authorization, token)
}

/// Returns `true` if the field is `Bearer` and the token.
fn bears(authorization: &[u8], token: &[u8]) -> bool
    ensures { IsTrue result ↔ (authorization.now ≡ codes "Bearer " ++ token.now) }
{
    match behind(authorization, "Bearer ") {
        Some(shown) => are_same(shown, token),
        None => false,
    }
}

/// Returns `true` if the bytes are the same. Looks at every pair, so its time doesn't tell how many
/// are.
fn are_same(one: &[u8], other: &[u8]) -> bool
    ensures { IsTrue result ↔ (one.now ≡ other.now) }
{
    if one.len() != other.len() {
        return false;
    }
    let mut same = true;
    for at in 0..one.len() {
        same &= one[at] == other[at];
    }
    same
}

/// Returns `true` if the body is said to be JSON.
pub(crate) fn is_json_type(content: &[u8]) -> bool
    ensures { IsTrue result ↔ IsJsonType content.now }
{
    is(content, "application/json") || begins(content, "application/json;")
}

/// Returns `true` if the text begins with these words.
fn begins(text: &[u8], head: &str) -> bool
    ensures { IsTrue result ↔ ((rest : List ℕ) × (text.now ≡ head.now ++ rest)) }
{
    match behind(text, head) {
        Some(_rest) => true,
        None => false,
    }
}
