//! The paths of requests: begin at `route_of`.

ghost use Rattle.std.specs.Prelude.{◌≡◌, ◌++◌, ℕ, List, IfSome, IsNone, MatchOption, codes};
ghost use Rattle.gateway.specs.Routes.{IsListPath, IsPlainPath, IsQuestionPath, IsQuestionRest, IsRoute, IsTranscriptRest};
ghost use Rattle.gateway.specs.declared.routes.Route.{Route};

use numerals::{behind, is, number};

/// The object of a request, by its path.
#[derive(Clone, Copy, Debug, PartialEq, Eq)]
pub enum Route {
    /// The page for people.
    Page,
    /// The health of the gateway.
    Health,
    /// The readiness of the cluster.
    Ready,
    /// The numbers for Prometheus.
    Metrics,
    /// All members.
    Members,
    /// All questions.
    Questions,
    /// The stream of events.
    Decisions,
    /// One question.
    Question(u64),
    /// The transcript of one question.
    Transcript(u64),
}

/// Returns the route of the page or of what supervisors ask for.
fn plain_route(path: &[u8]) -> Option<Route>
    ensures some { IfSome result (IsPlainPath path.now) }
    ensures none { IsNone result → (route : Route) → IsPlainPath path.now route → ⊥ }
{
    if is(path, "/") {
        Some(Route::Page)
    } else if is(path, "/health") {
        Some(Route::Health)
    } else if is(path, "/ready") {
        Some(Route::Ready)
    } else if is(path, "/metrics") {
        Some(Route::Metrics)
    } else {
        None
    }
}

/// Returns the route of a list.
fn list_route(path: &[u8]) -> Option<Route>
    ensures some { IfSome result (IsListPath path.now) }
    ensures none { IsNone result → (route : Route) → IsListPath path.now route → ⊥ }
{
    if is(path, "/v1/members") {
        Some(Route::Members)
    } else if is(path, "/v1/questions") {
        Some(Route::Questions)
    } else if is(path, "/v1/decisions") {
        Some(Route::Decisions)
    } else {
        None
    }
}

/// Returns the part of the text before this end, if the text ends so.
fn before<'a>(text: &'a [u8], end: &str) -> Option<&'a [u8]>
    ensures some { IfSome result (λ front. text.now ≡ front.now ++ end.now) }
    ensures exact { (front : List ℕ) → text.now ≡ front ++ end.now →
        MatchOption result ⊥ (λ found. found.now ≡ front) }
{
    let length = end.len();
    if text.len() < length {
        return None;
    }
    let cut = text.len() - length;
    if is(&text[cut..], end) {
        Some(&text[..cut])
    } else {
        None
    }
}

/// Returns the route of a transcript, by what follows `/v1/questions/`.
fn transcript_route(rest: &[u8]) -> Option<Route>
    ensures some { IfSome result (IsTranscriptRest rest.now) }
    ensures none { IsNone result → (route : Route) → IsTranscriptRest rest.now route → ⊥ }
{
    match before(rest, "/transcript") {
        Some(digits) => match number(digits) {
            Some(question) => Some(Route::Transcript(question)),
            None => None,
        },
        None => None,
    }
}

/// Returns the route of a question or of its transcript, by what follows `/v1/questions/`.
fn question_route(rest: &[u8]) -> Option<Route>
    ensures some { IfSome result (IsQuestionRest rest.now) }
    ensures none { IsNone result → (route : Route) → IsQuestionRest rest.now route → ⊥ }
{
    match number(rest) {
        Some(question) => Some(Route::Question(question)),
        None => transcript_route(rest),
    }
}

/// Returns the route of a question or of its transcript.
fn numbered_route(path: &[u8]) -> Option<Route>
    ensures some { IfSome result (IsQuestionPath path.now) }
    ensures none { IsNone result → (route : Route) → IsQuestionPath path.now route → ⊥ }
{
    match behind(path, "/v1/questions/") {
        Some(rest) => question_route(rest),
        None => None,
    }
}

/// Returns the route of a path that has a list or a number.
fn data_route(path: &[u8]) -> Option<Route>
    ensures some { IfSome result (IsRoute path.now) }
    ensures lists { IsNone result → (route : Route) → IsListPath path.now route → ⊥ }
    ensures numbers { IsNone result → (route : Route) → IsQuestionPath path.now route → ⊥ }
{
    match list_route(path) {
        Some(route) => Some(route),
        None => numbered_route(path),
    }
}

/// Returns the route of a path, if it has one.
pub(crate) fn route_of(path: &[u8]) -> Option<Route>
    ensures some { IfSome result (IsRoute path.now) }
    ensures none { IsNone result → (route : Route) → IsRoute path.now route → ⊥ }
{
    match plain_route(path) {
        Some(route) => Some(route),
        None => data_route(path),
    }
}
