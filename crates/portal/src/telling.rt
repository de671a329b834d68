//! The answers that are made of a book, while its lock is held.

ghost use Rattle.std.specs.Prelude.{◌≡◌, ◌<◌, ◌≤◌, ◌+◌, IfOk, List};
ghost use Rattle.gateway.specs.Requests.{status_of};
ghost use Rattle.gateway.specs.Scopes.{window_length};
ghost use Rattle.gateway.specs.Watches.{Watches, watch_first, watch_scope, watch_size};
ghost use Rattle.gateway.specs.declared.watch.Told.{Told};
ghost use Rattle.portal.specs.Served.{IsToldAt};

use crate::book::Book;
use crate::cluster::{Answer, Kind, answer_of, good_answer};
use crate::shared::Shared;
use gateway::{
    Moment, Refusal, Stage, Watch, is_linked, members_text, metrics_text, question_text,
    questions_text, ready_text, refusal_text, status_of,
};
use std::alloc::{AllocError, Global};
use terms::Size;

/// Returns the answer about a question of a cluster of this size.
pub(crate) fn question_answer(
    alloc: Global,
    book: &Book,
    size: Size,
    question: u64,
) -> Result<Answer, AllocError>
    ensures { IfOk result
        (λ answer. answer.status ≡ 200 → IsToldAt size question answer.body.items) }
{
    let watch = book.watch();
    if watch.size() != size {
        return refused_answer(alloc, Refusal::Question);
    }
    window_answer(alloc, watch, question, book.stage(question))
}

/// Returns the answer about a question of the watch's window: what members told of it, or that it
/// was before the window or comes after it.
pub(crate) fn window_answer(
    alloc: Global,
    watch: &Watch,
    question: u64,
    stage: Stage,
) -> Result<Answer, AllocError>
    ensures told { (heard : List Told) → Watches watch.now heard →
        IfOk result (λ answer. answer.status ≡ 200 →
        IsToldAt (watch_size watch.now) question answer.body.items) }
    ensures past { question < watch_first watch.now →
        IfOk result (λ answer. answer.status ≡ 410) }
    ensures ahead { watch_first watch.now + window_length (watch_scope watch.now) ≤ question →
        IfOk result (λ answer. answer.status ≡ 404) }
{
    match watch.refusal(question) {
        Some(refusal) => refused_answer(alloc, refusal),
        None => {
            let body = question_text(alloc, watch, question, stage)?;
            Ok(good_answer(Kind::Json, body))
        }
    }
}

/// Returns the answer to a request that is refused so.
fn refused_answer(alloc: Global, refusal: Refusal) -> Result<Answer, AllocError>
    ensures { IfOk result (λ answer. answer.status ≡ status_of refusal) }
{
    let text = refusal_text(alloc, refusal)?;
    answer_of(alloc, status_of(refusal), Kind::Json, text.as_bytes())
}

/// Returns the answer about these questions at this moment, with the milliseconds since 1970.
pub(crate) fn questions_answer(
    alloc: Global,
    book: &Book,
    moment: &Moment,
    time: u64,
) -> Result<Answer, AllocError> {
    let standings = book.standings(moment.from, moment.to)?;
    let lately = book.lately(time)?;
    let body = questions_text(alloc, moment, &lately, &standings)?;
    Ok(good_answer(Kind::Json, body))
}

/// Returns the answer about all members.
pub(crate) fn members_answer(shared: &Shared, book: &Book) -> Result<Answer, AllocError> {
    let views = book.members()?;
    let body = members_text(
        shared.alloc,
        shared.cluster,
        shared.scope,
        shared.proposing(),
        &views,
    )?;
    Ok(good_answer(Kind::Json, body))
}

/// Returns the numbers for Prometheus.
pub(crate) fn metrics_answer(alloc: Global, book: &Book) -> Result<Answer, AllocError> {
    let tally = book.tally();
    let views = book.members()?;
    let body = metrics_text(alloc, &tally, &views, book.times())?;
    Ok(good_answer(Kind::Metrics, body))
}

/// Returns whether the cluster can decide: n - t members answer and have as many links as they
/// need.
pub(crate) fn ready_answer(shared: &Shared, book: &Book) -> Result<Answer, AllocError> {
    let count = linked_count(book, shared.scope.size)?;
    shared.scope.size.recall();
    let needed = usize::from(shared.scope.size.n() - shared.scope.size.t());
    let ready = needed <= count;
    let status = if ready { 200 } else { 503 };
    answer_of(
        shared.alloc,
        status,
        Kind::Json,
        ready_text(ready).as_bytes(),
    )
}

/// Returns how many members answer and have as many links as they need to decide.
fn linked_count(book: &Book, size: Size) -> Result<usize, AllocError> {
    let views = book.members()?;
    let mut count: usize = 0;
    for view in &views {
        if is_linked(size, view) {
            count = count.saturating_add(1);
        }
    }
    Ok(count)
}
