//! The answers to requests: begin at `Door`.

ghost use Rattle.std.specs.Prelude.{◌≡◌, [], IfOk, IsTrue, OnOk};
ghost use Rattle.std.specs.Option.{option_map_or};
ghost use Rattle.http.specs.FieldValue.{is_visible_text};
ghost use Rattle.http.specs.Request.{head_of};
ghost use Rattle.http_uri.specs.Uri.{uri_query};
ghost use Rattle.portal.specs.Served.{HandsOnFor, IsAskedBy, Proposes, SaysOf, Tells, field_of, method_of};

use crate::cluster::{Answer, Cluster, Kind, Proposal};
use bytes::{BufMut, Bytes};
use gateway::{Method, Policy, Position, Request as Asked, Scope, Task, task_of};
use http::{HeaderName, HeaderValue, Request, StatusCode, header};
use http_server::{Response, Service};
use pages::live_policy;
use std::alloc::{AllocError, Global};

/// The service of one connection.
#[derive(Drop)]
pub(crate) struct Door<'a, C> {
    pub(crate) alloc: Global,
    /// The rules for clients.
    pub(crate) policy: Policy<'a>,
    /// The cluster or chain.
    pub(crate) scope: Scope,
    pub(crate) cluster: C,
    /// Set once a request asks for the stream of events, with the position from which it goes on.
    pub(crate) follow: Option<Option<Position>>,
}

impl<'a, C: Cluster> Door<'a, C> {
    /// Makes a response to a request, and returns whether the stream of events is asked for.
    fn serve(
        &mut self,
        request: &Request<Bytes>,
        response: &mut Response,
    ) -> Option<Option<Position>>
        requires { response.old.body.items ≡ [] }
        ensures proposes { Proposes self.old.policy self.old.scope request.now
            (C.handed self.old.cluster) (C.handed self.new.cluster) }
        ensures tells { Tells self.old.policy self.old.scope request.now response.new.status
            response.new.body.items }
    {
        match self.answer(request) {
            Ok(answer) => respond(self.alloc, response, answer),
            Err(_) => {
                starve(response);
                None
            }
        }
    }

    /// Returns the answer to a request.
    fn answer(&mut self, request: &Request<Bytes>) -> Result<Answer, AllocError>
        ensures proposes { Proposes self.old.policy self.old.scope request.now
            (C.handed self.old.cluster) (C.handed self.new.cluster) }
        ensures tells { IfOk result
            (λ answer. Tells self.old.policy self.old.scope request.now answer.status
            answer.body.items) }
    {
        let asked = asked_of(request);
        match task_of(self.alloc, &self.policy, self.scope, &asked) {
            Ok(task) => self.perform(task),
            Err(refusal) => self.cluster.refuse(refusal),
        }
    }

    /// Does what a request asks for, and returns the answer.
    fn perform(&mut self, task: Task) -> Result<Answer, AllocError>
        ensures handed { HandsOnFor task (C.handed self.old.cluster) (C.handed self.new.cluster) }
        ensures says { IfOk result
            (λ answer. answer.status ≡ 200 → SaysOf self.old.scope.size task answer.body.items) }
    {
        match task {
            Task::Propose {
                question,
                bit,
                wait,
            } => self.cluster.propose(Proposal {
                question,
                bit,
                wait,
            }),
            _ => self.cluster.read(self.scope.size, task),
        }
    }
}

impl<'a, C: Cluster> Service for Door<'a, C> {
    ghost use Rattle.portal.specs.Served.{Proposes, Tells};

    // Nothing is handed on to the members but what the request may propose, and a decision of a
    // question is what more than t members told.
    ghost answers = { λ old request response new.
        Proposes old.policy old.scope request (C.handed old.cluster) (C.handed new.cluster)
        × Tells old.policy old.scope request response.status response.body.items };

    fn call(
        &mut self,
        request: &Request<Bytes>,
        response: &mut Response,
    ) -> Result<(), AllocError> {
        let follow = self.serve(request, response);
        self.follow = later(self.follow, followed(request, follow));
        let _told = put_remedy(request, response).is_ok();
        Ok(())
    }
}

/// Makes a response of an answer, and returns whether the stream of events is asked for.
fn respond(alloc: Global, response: &mut Response, answer: Answer) -> Option<Option<Position>>
    requires { response.old.body.items ≡ [] }
    ensures { response.new.status ≡ 200 → (answer.status ≡ 200)
        × (response.new.body.items ≡ answer.body.items) }
{
    match fill(alloc, response, &answer) {
        Ok(()) => answer.follow,
        Err(_) => {
            starve(response);
            None
        }
    }
}

/// Puts an answer into a response.
fn fill(alloc: Global, response: &mut Response, answer: &Answer) -> Result<(), AllocError>
    requires { response.old.body.items ≡ [] }
    ensures { OnOk result
        ((response.new.status ≡ answer.now.status)
        × (response.new.body.items ≡ answer.now.body.items)) }
{
    put_fields(alloc, response, answer.kind)?;
    response.body.put_slice(&answer.body)?;
    match StatusCode::from_u16(answer.status) {
        Ok(status) => {
            response.status = status;
            Ok(())
        }
        Err(_) => Err(AllocError),
    }
}

/// Puts the fields of an answer into a head.
fn put_fields(alloc: Global, response: &mut Response, kind: Kind) -> Result<(), AllocError>
    ensures { response.new.body ≡ response.old.body }
{
    response.add_header(header::CONTENT_TYPE, kind_value(kind))?;
    put(response, header::CACHE_CONTROL, "no-store")?;
    put(response, header::X_CONTENT_TYPE_OPTIONS, "nosniff")?;
    put(response, header::REFERRER_POLICY, "no-referrer")?;
    put_policy(alloc, response, kind)
}

/// Returns the kind of a body as HTTP names it.
fn kind_value(kind: Kind) -> HeaderValue {
    match kind {
        Kind::Json => HeaderValue::from_static("application/json"),
        Kind::Page => HeaderValue::from_static("text/html; charset=utf-8"),
        Kind::Events => HeaderValue::from_static("text/event-stream"),
        Kind::Metrics => HeaderValue::from_static("text/plain; version=0.0.4; charset=utf-8"),
    }
}

/// Puts into the head of a refusal what would be taken: a token, or another method.
fn put_remedy(request: &Request<Bytes>, response: &mut Response) -> Result<(), AllocError>
    ensures body { response.new.body ≡ response.old.body }
    ensures status { response.new.status ≡ response.old.status }
{
    match response.status.as_u16() {
        401 => put(response, header::WWW_AUTHENTICATE, "Bearer"),
        405 => put_methods(request, response),
        _ => Ok(()),
    }
}

/// Puts the methods that a path takes into a head.
fn put_methods(request: &Request<Bytes>, response: &mut Response) -> Result<(), AllocError>
    ensures body { response.new.body ≡ response.old.body }
    ensures status { response.new.status ≡ response.old.status }
{
    if takes_proposals(request.uri().path()) {
        return put(response, header::ALLOW, "GET, HEAD, POST");
    }
    put(response, header::ALLOW, "GET, HEAD")
}

/// Returns `true` if this path, which there is, is that of a question.
fn takes_proposals(path: &str) -> bool {
    path.starts_with("/v1/questions/") && !path.ends_with("/transcript")
}

/// Puts a field into a head.
fn put(response: &mut Response, name: HeaderName, value: &'static str) -> Result<(), AllocError>
    requires { IsTrue (is_visible_text value.now) }
    ensures body { response.new.body ≡ response.old.body }
    ensures status { response.new.status ≡ response.old.status }
{
    response.add_header(name, HeaderValue::from_static(value))
}

/// Puts the policy of a page into its head.
fn put_policy(alloc: Global, response: &mut Response, kind: Kind) -> Result<(), AllocError>
    ensures { response.new.body ≡ response.old.body }
{
    if kind != Kind::Page {
        return Ok(());
    }
    match HeaderValue::from_bytes(alloc, live_policy().as_bytes()) {
        Ok(value) => response.add_header(header::CONTENT_SECURITY_POLICY, value),
        Err(_) => Err(AllocError),
    }
}

/// Makes a response say that memory for an answer was refused. It takes no memory.
fn starve(response: &mut Response)
    ensures { response.new.status ≡ 503 }
{
    response.clear();
    response.status = StatusCode::SERVICE_UNAVAILABLE;
}

/// Returns the parts of a request that say what is asked for.
fn asked_of(request: &Request<Bytes>) -> Asked<'_>
    ensures { IsAskedBy request.now result }
{
    Asked {
        method: method_of(request),
        path: request.uri().path().as_bytes(),
        query: query_of(request),
        host: field(request, header::HOST),
        origin: field(request, header::ORIGIN),
        authorization: field(request, header::AUTHORIZATION),
        content: field(request, header::CONTENT_TYPE),
        last: field(request, HeaderName::from_static("last-event-id")),
        body: request.body().as_slice(),
    }
}

/// Returns the method of a request.
fn method_of(request: &Request<Bytes>) -> Method
    ensures { result ≡ method_of request.now }
{
    match request.method().as_str() {
        "GET" | "HEAD" => Method::Get,
        "POST" => Method::Post,
        _ => Method::Other,
    }
}

/// Returns the query of a request; empty if it has none.
fn query_of(request: &Request<Bytes>) -> &[u8]
    ensures { result.now ≡ option_map_or (λ query. query) (uri_query (head_of request.now).uri) [] }
{
    match request.uri().query() {
        Some(query) => query.as_bytes(),
        None => &[],
    }
}

/// Returns a field of the head; empty if it is missing.
fn field<'a>(request: &'a Request<Bytes>, name: HeaderName) -> &'a [u8]
    ensures { result.now ≡ field_of name request.now }
{
    match request.headers().get(&name) {
        Some(value) => value.as_bytes(),
        None => &[],
    }
}

/// Returns the later of two requests for the stream of events, if there is one.
fn later(
    one: Option<Option<Position>>,
    other: Option<Option<Position>>,
) -> Option<Option<Position>> {
    match other {
        Some(at) => Some(at),
        None => one,
    }
}

/// Returns the request for the stream of events, unless only its head is asked for.
fn followed(
    request: &Request<Bytes>,
    follow: Option<Option<Position>>,
) -> Option<Option<Position>> {
    match request.method().as_str() {
        "HEAD" => None,
        _ => follow,
    }
}
