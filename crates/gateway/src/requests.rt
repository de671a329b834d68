//! Requests, and what is to be done for one: begin at `task_of`.

ghost use Rattle.std.specs.Prelude.{◌≡◌, ℕ, IfErr, IfOk, IfSome, IsNone};
ghost use Rattle.gateway.specs.declared.scopes.Scope.{Scope};
ghost use Rattle.gateway.specs.Motions.{IsMotion};
ghost use Rattle.gateway.specs.Requests.{AsksFor, IsBodyRefused, IsChangeRefused, IsProposalRefused, IsRead, IsReadRefused, IsRefused, IsRefusedAt, IsTask, MayPropose, Proposes, status_of, word_of};
ghost use Rattle.gateway.specs.declared.routes.Route.TheVariants as route;

use crate::guards::{
    Policy, is_json_type, is_own_host, is_own_origin, shows_token, takes_proposals,
};
use crate::motions::motion_of;
use crate::queries::{Position, after_of, range_of, wait_of};
use crate::routes::{Route, route_of};
use crate::scopes::Scope;
use std::alloc::Global;

/// The method of a request.
#[derive(Clone, Copy, Debug, PartialEq, Eq)]
pub enum Method {
    /// GET or HEAD.
    Get,
    /// POST.
    Post,
    /// Any other.
    Other,
}

/// The parts of a request that say what is asked for. A field that is missing is empty.
#[derive(Clone, Copy, Debug, PartialEq, Eq)]
pub struct Request<'a> {
    /// The method.
    pub method: Method,
    /// The path of the target.
    pub path: &'a [u8],
    /// The part of the target after its question mark.
    pub query: &'a [u8],
    /// The field `Host`.
    pub host: &'a [u8],
    /// The field `Origin`.
    pub origin: &'a [u8],
    /// The field `Authorization`.
    pub authorization: &'a [u8],
    /// The field `Content-Type`.
    pub content: &'a [u8],
    /// The field `Last-Event-ID`.
    pub last: &'a [u8],
    /// The body.
    pub body: &'a [u8],
}

/// The object of a request that isn't refused.
#[derive(Clone, Copy, Debug, PartialEq, Eq)]
pub enum Task {
    /// The page for people is sent.
    Page,
    /// The gateway says that it lives.
    Health,
    /// The gateway says if the cluster can decide.
    Ready,
    /// The numbers for Prometheus are sent.
    Metrics,
    /// All members are told.
    Members,
    /// The states of these questions are told.
    Questions {
        /// The first question.
        from: u64,
        /// The question after the last.
        to: u64,
    },
    /// A question is told, at its decision or after so many seconds.
    Question {
        /// The question, below the number of questions.
        question: u64,
        /// The seconds, 0 to 60.
        wait: u16,
    },
    /// The transcript of a question is sent.
    Transcript(u64),
    /// Events are told as they come, from the position on if it is of this life.
    Decisions(Option<Position>),
    /// A bit is proposed to all members.
    Propose {
        /// The question, below the number of questions.
        question: u64,
        /// The bit.
        bit: bool,
        /// The seconds for which its decision is waited for, 0 to 60.
        wait: u16,
    },
}

/// The reason why a request is refused.
#[derive(Clone, Copy, Debug, PartialEq, Eq)]
pub enum Refusal {
    /// The field `Host` is none of the gateway's own names.
    Host,
    /// Nothing has this path.
    Path,
    /// The path doesn't take this method.
    Method,
    /// The cluster hasn't this question, or it comes after those of a chain that the gateway knows.
    Question,
    /// The question came before those of a chain that the gateway knows.
    Past,
    /// The query isn't one of this path.
    Query,
    /// The gateway takes no proposals: it has no token, and listens at an address that isn't a
    /// loopback one.
    Closed,
    /// A page of another site sent the request.
    Origin,
    /// The body isn't said to be JSON.
    Type,
    /// The token is missing or wrong.
    Token,
    /// The body isn't an object of JSON whose only member is `bit`, 0 or 1.
    Body,
    /// Memory for an answer was refused.
    Memory,
    /// As many clients are served as the gateway takes.
    Busy,
    /// No member answers.
    Silent,
    /// The question isn't decided, so no member has a transcript.
    Undecided,
    /// No member that answers has a transcript: each decided before its last start.
    Thin,
}

/// Returns the status of HTTP for a refusal.
pub fn status_of(refusal: Refusal) -> u16
    ensures { result ≡ status_of refusal }
{
    match refusal {
        Refusal::Host => 421,
        Refusal::Path => 404,
        Refusal::Method => 405,
        Refusal::Question => 404,
        Refusal::Past => 410,
        Refusal::Query => 400,
        Refusal::Closed => 403,
        Refusal::Origin => 403,
        Refusal::Type => 415,
        Refusal::Token => 401,
        Refusal::Body => 400,
        Refusal::Memory => 503,
        Refusal::Busy => 429,
        Refusal::Silent => 503,
        Refusal::Undecided => 404,
        Refusal::Thin => 404,
    }
}

/// Returns the word of a refusal, as an answer has it at `error`.
pub fn word_of(refusal: Refusal) -> &'static str
    ensures { result.now ≡ word_of refusal }
{
    match refusal {
        Refusal::Host => "host",
        Refusal::Path => "path",
        Refusal::Method => "method",
        Refusal::Question => "question",
        Refusal::Past => "past",
        Refusal::Query => "query",
        Refusal::Closed => "closed",
        Refusal::Origin => "origin",
        Refusal::Type => "content-type",
        Refusal::Token => "token",
        Refusal::Body => "body",
        Refusal::Memory => "memory",
        Refusal::Busy => "busy",
        Refusal::Silent => "silent",
        Refusal::Undecided => "undecided",
        Refusal::Thin => "thin",
    }
}

/// Returns what is to be done for a request to a gateway with this policy, for this cluster or
/// chain.
///
/// # Errors
///
/// The first that applies:
///
/// - [`Refusal::Host`] if the field `Host` is none of the gateway's own names;
/// - [`Refusal::Path`] if nothing has the path;
/// - [`Refusal::Method`] if the path doesn't take the method;
/// - of a proposal [`Refusal::Closed`], [`Refusal::Origin`], [`Refusal::Type`], [`Refusal::Token`];
/// - [`Refusal::Question`] if the cluster hasn't the question: a chain has each;
/// - [`Refusal::Query`] if the query isn't one of the path;
/// - of a proposal [`Refusal::Body`], or [`Refusal::Memory`] if memory to read it was refused.
pub fn task_of(
    alloc: Global,
    policy: &Policy<'_>,
    scope: Scope,
    request: &Request<'_>,
) -> Result<Task, Refusal>
    ensures ok { IfOk result (IsTask policy.now scope request.now) }
    ensures err { IfErr result (IsRefused policy.now scope request.now) }
{
    if !is_own_host(policy, request.host) {
        return Err(Refusal::Host);
    }
    match route_of(request.path) {
        Some(route) => routed_task(alloc, policy, scope, route, request),
        None => Err(Refusal::Path),
    }
}

/// Returns what a request at this route asks for.
fn routed_task(
    alloc: Global,
    policy: &Policy<'_>,
    scope: Scope,
    route: Route,
    request: &Request<'_>,
) -> Result<Task, Refusal>
    ensures ok { IfOk result (AsksFor request.now.method policy.now scope route request.now) }
    ensures err { IfErr result
        (IsRefusedAt request.now.method policy.now scope route request.now) }
{
    match request.method {
        Method::Get => read_task(scope, route, request),
        Method::Post => change_task(alloc, policy, scope, route, request),
        Method::Other => Err(Refusal::Method),
    }
}

/// Returns what a request that only reads asks for.
fn read_task(scope: Scope, route: Route, request: &Request<'_>) -> Result<Task, Refusal>
    ensures ok { IfOk result (IsRead scope route request.now) }
    ensures err { IfErr result (IsReadRefused scope route request.now) }
{
    match route {
        Route::Page => Ok(Task::Page),
        Route::Health => Ok(Task::Health),
        Route::Ready => Ok(Task::Ready),
        Route::Metrics => Ok(Task::Metrics),
        Route::Members => Ok(Task::Members),
        Route::Questions => questions_task(scope, request),
        Route::Decisions => Ok(Task::Decisions(after_of(request.query, request.last))),
        Route::Question(question) => question_task(scope, question, request),
        Route::Transcript(question) => transcript_task(scope, question, request),
    }
}

/// Returns the range of questions that is asked for.
fn questions_task(scope: Scope, request: &Request<'_>) -> Result<Task, Refusal>
    ensures ok { IfOk result (IsRead scope route.Questions request.now) }
    ensures err { IfErr result (IsReadRefused scope route.Questions request.now) }
{
    match range_of(scope.questions(), request.query) {
        Some((from, to)) => Ok(Task::Questions { from, to }),
        None => Err(Refusal::Query),
    }
}

/// Returns the question that is asked for.
fn question_task(scope: Scope, question: u64, request: &Request<'_>) -> Result<Task, Refusal>
    ensures ok { IfOk result (IsRead scope (route.Question question) request.now) }
    ensures err { IfErr result (IsReadRefused scope (route.Question question) request.now) }
{
    if question >= scope.questions() {
        return Err(Refusal::Question);
    }
    match wait_of(request.query) {
        Some(wait) => Ok(Task::Question { question, wait }),
        None => Err(Refusal::Query),
    }
}

/// Returns the question whose transcript is asked for.
fn transcript_task(scope: Scope, question: u64, request: &Request<'_>) -> Result<Task, Refusal>
    ensures ok { IfOk result (IsRead scope (route.Transcript question) request.now) }
    ensures err { IfErr result (IsReadRefused scope (route.Transcript question) request.now) }
{
    if question >= scope.questions() {
        return Err(Refusal::Question);
    }
    Ok(Task::Transcript(question))
}

/// Returns what a request to change something asks for.
fn change_task(
    alloc: Global,
    policy: &Policy<'_>,
    scope: Scope,
    route: Route,
    request: &Request<'_>,
) -> Result<Task, Refusal>
    ensures ok { IfOk result (Proposes policy.now scope route request.now) }
    ensures err { IfErr result (IsChangeRefused policy.now scope route request.now) }
{
    match route {
        Route::Question(question) => proposal_task(alloc, policy, scope, question, request),
        Route::Page
        | Route::Health
        | Route::Ready
        | Route::Metrics
        | Route::Members
        | Route::Questions
        | Route::Decisions
        | Route::Transcript(_) => Err(Refusal::Method),
    }
}

/// Returns the proposal of a request on this question.
fn proposal_task(
    alloc: Global,
    policy: &Policy<'_>,
    scope: Scope,
    question: u64,
    request: &Request<'_>,
) -> Result<Task, Refusal>
    ensures ok { IfOk result (Proposes policy.now scope (route.Question question) request.now) }
    ensures err { IfErr result (IsProposalRefused policy.now scope question request.now) }
{
    match refuse_stranger(policy, request) {
        Some(refusal) => Err(refusal),
        None => motion_task(alloc, policy, scope, question, request),
    }
}

/// Refuses a request that may not propose, whatever it proposes.
fn refuse_stranger(policy: &Policy<'_>, request: &Request<'_>) -> Option<Refusal>
    ensures none { IsNone result → MayPropose policy.now request.now }
    ensures some { (scope : Scope) (question : ℕ) →
        IfSome result (IsProposalRefused policy.now scope question request.now) }
{
    if !takes_proposals(policy) {
        return Some(Refusal::Closed);
    }
    if !is_own_origin(request.host, request.origin) {
        return Some(Refusal::Origin);
    }
    if !is_json_type(request.content) {
        return Some(Refusal::Type);
    }
    if !shows_token(policy.token, request.authorization) {
        return Some(Refusal::Token);
    }
    None
}

/// Returns the proposal of a request that may propose, on this question.
fn motion_task(
    alloc: Global,
    policy: &Policy<'_>,
    scope: Scope,
    question: u64,
    request: &Request<'_>,
) -> Result<Task, Refusal>
    requires { MayPropose policy.now request.now }
    ensures ok { IfOk result (Proposes policy.now scope (route.Question question) request.now) }
    ensures err { IfErr result (IsProposalRefused policy.now scope question request.now) }
{
    if question >= scope.questions() {
        return Err(Refusal::Question);
    }
    match wait_of(request.query) {
        Some(wait) => match bit_task(alloc, request) {
            Ok(bit) => Ok(Task::Propose {
                question,
                bit,
                wait,
            }),
            Err(refusal) => Err(refusal),
        },
        None => Err(Refusal::Query),
    }
}

/// Returns the bit that the body proposes.
fn bit_task(alloc: Global, request: &Request<'_>) -> Result<bool, Refusal>
    ensures ok { IfOk result (IsMotion request.now.body.now) }
    ensures err { IfErr result (IsBodyRefused request.now.body.now) }
{
    match motion_of(alloc, request.body) {
        Ok(Some(bit)) => Ok(bit),
        Ok(None) => Err(Refusal::Body),
        Err(_) => Err(Refusal::Memory),
    }
}
