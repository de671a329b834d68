//! The part of a request's target after its question mark.

ghost use Rattle.std.specs.Prelude.{◌≡◌, ◌∷◌, ◌++◌, ◌==◌, ◌<◌, ◌≤◌, ◌↔◌, ℕ, List, IfSome, IsNone, IsTrue, MatchOption, Some, length};
ghost use Rattle.std.specs.List.{position_from};
ghost use Rattle.numerals.specs.Numbers.{IsBelow};
ghost use Rattle.gateway.specs.Queries.{AreBounds, AreBoundsOf, IsAfter, IsAfterQuery, IsCut, IsNamed, IsPosition, IsRange, IsTimed, IsWait, Lacks};
ghost use Rattle.gateway.specs.declared.queries.Position.{Position};

use numerals::{behind, number, number16};

/// The most seconds that a request waits for a decision.
const LONGEST: u16 = 60;

/// A place among the events of a gateway.
#[derive(Clone, Copy, Debug, PartialEq, Eq)]
pub struct Position {
    /// The number that the gateway drew when it started.
    pub life: u64,
    /// The number of an event, counted from 1; 0 is before the first.
    pub number: u64,
}

/// Returns the seconds that the request waits for a decision: 0 without a query, else as `wait=`
/// says, 60 at most.
pub(crate) fn wait_of(query: &[u8]) -> Option<u16>
    ensures some { IfSome result (IsWait query.now) }
    ensures none { IsNone result → (wait : ℕ) → IsWait query.now wait → ⊥ }
{
    if query.is_empty() {
        return Some(0);
    }
    timed(query)
}

/// Returns the seconds that `wait=` says, 60 at most.
fn timed(query: &[u8]) -> Option<u16>
    ensures some { IfSome result (IsTimed query.now) }
    ensures none { IsNone result → (wait : ℕ) → IsTimed query.now wait → ⊥ }
{
    match behind(query, "wait=") {
        Some(digits) => match number16(digits) {
            Some(wait) => { if wait <= LONGEST { Some(wait) } else { None } }
            None => None,
        },
        None => None,
    }
}

/// Returns the first question that is asked for and the one after the last: all without a query,
/// else as `from=A&to=B` says.
pub(crate) fn range_of(questions: u64, query: &[u8]) -> Option<(u64, u64)>
    ensures some { IfSome result (λ found. IsRange questions query.now found.0 found.1) }
    ensures none { IsNone result → (from to : ℕ) → IsRange questions query.now from to → ⊥ }
{
    if query.is_empty() {
        return Some((0, questions));
    }
    named_range(questions, query)
}

/// Returns the range of questions that the query names, if they exist.
fn named_range(questions: u64, query: &[u8]) -> Option<(u64, u64)>
    ensures some { IfSome result (λ found. IsNamed questions query.now found.0 found.1) }
    ensures none { IsNone result → (from to : ℕ) → IsNamed questions query.now from to → ⊥ }
{
    match bounds_of(query) {
        Some((from, to)) => {
            if are_within(from, to, questions) {
                Some((from, to))
            } else {
                None
            }
        }
        None => None,
    }
}

/// Returns the numbers of `from=A&to=B`.
fn bounds_of(query: &[u8]) -> Option<(u64, u64)>
    ensures some { IfSome result (λ found. AreBounds query.now found.0 found.1) }
    ensures exact { (from to : ℕ) → AreBounds query.now from to → result ≡ Some (from, to) }
{
    match behind(query, "from=") {
        Some(rest) => rest_bounds(rest),
        None => None,
    }
}

/// Returns the numbers of `A&to=B`.
fn rest_bounds(rest: &[u8]) -> Option<(u64, u64)>
    ensures some { IfSome result (λ found. AreBoundsOf rest.now found.0 found.1) }
    ensures exact { (from to : ℕ) → AreBoundsOf rest.now from to → result ≡ Some (from, to) }
{
    match both_words(rest) {
        Some((first, second)) => both_numbers(first, second),
        None => None,
    }
}

/// Returns the words before and after `&to=`.
fn both_words(rest: &[u8]) -> Option<(&[u8], &[u8])>
    ensures some { IfSome result (λ parts. IsCut rest.now parts.0.now parts.1.now) }
    ensures exact { (first second : List ℕ) → IsCut rest.now first second →
        MatchOption result ⊥ (λ parts. (parts.0.now ≡ first) × (parts.1.now ≡ second)) }
{
    match cut_at(rest, b'&') {
        Some((first, more)) => match behind(more, "to=") {
            Some(second) => Some((first, second)),
            None => None,
        },
        None => None,
    }
}

/// Returns the two numbers that the words write.
pub(crate) fn both_numbers(first: &[u8], second: &[u8]) -> Option<(u64, u64)>
    ensures some { IfSome result
        (λ found. IsBelow 64 first.now found.0 × IsBelow 64 second.now found.1) }
    ensures exact { (from to : ℕ) → IsBelow 64 first.now from → IsBelow 64 second.now to →
        result ≡ Some (from, to) }
{
    match number(first) {
        Some(from) => match number(second) {
            Some(to) => Some((from, to)),
            None => None,
        },
        None => None,
    }
}

/// Returns `true` if the bounds are in order and the questions exist.
fn are_within(from: u64, to: u64, questions: u64) -> bool
    ensures { IsTrue result ↔ ((from ≤ to) × (to ≤ questions)) }
{
    from <= to && to <= questions
}

/// Returns the position from which a follower goes on: that of the last event that it saw, or else
/// that of the query. `None` if they name none.
pub(crate) fn after_of(query: &[u8], last: &[u8]) -> Option<Position>
    ensures some { IfSome result (IsAfter query.now last.now) }
    ensures none { IsNone result → (at : Position) → IsAfter query.now last.now at → ⊥ }
{
    if last.is_empty() {
        return after_query(query);
    }
    position_of(last)
}

/// Returns the position that `after=` names.
fn after_query(query: &[u8]) -> Option<Position>
    ensures some { IfSome result (IsAfterQuery query.now) }
    ensures none { IsNone result → (at : Position) → IsAfterQuery query.now at → ⊥ }
{
    match behind(query, "after=") {
        Some(text) => position_of(text),
        None => None,
    }
}

/// Returns the position that the text `LIFE.K` names.
fn position_of(text: &[u8]) -> Option<Position>
    ensures some { IfSome result (IsPosition text.now) }
    ensures none { IsNone result → (at : Position) → IsPosition text.now at → ⊥ }
{
    match cut_at(text, b'.') {
        Some((life, place)) => position_at(life, place),
        None => None,
    }
}

/// Returns what stands before the first such byte and after it.
fn cut_at(text: &[u8], mark: u8) -> Option<(&[u8], &[u8])>
    ensures { MatchOption result (Lacks mark text.now)
        (λ parts. (text.now ≡ parts.0.now ++ mark ∷ parts.1.now) × Lacks mark parts.0.now) }
{
    match place_of(text, mark) {
        Some(place) => Some((&text[..place], &text[place + 1..])),
        None => None,
    }
}

/// Returns the index of the first such byte.
fn place_of(text: &[u8], mark: u8) -> Option<usize>
    ensures value { result ≡ position_from (λ byte. byte == mark) 0 text.now }
    ensures within { IfSome result (λ at. at < length text.now) }
{
    text.iter().position(|byte| *byte == mark)
}

/// Returns the two numbers that the words write.
fn position_at(life: &[u8], place: &[u8]) -> Option<Position>
    ensures some { IfSome result
        (λ at. IsBelow 64 life.now at.life × IsBelow 64 place.now at.number) }
    ensures none { IsNone result → (first second : ℕ) → IsBelow 64 life.now first →
        IsBelow 64 place.now second → ⊥ }
{
    match number(life) {
        Some(life) => match number(place) {
            Some(number) => Some(Position { life, number }),
            None => None,
        },
        None => None,
    }
}
