//! The rows of a chart that the words ask for: whether there can be such rows, and what is told
//! where there can't.

ghost use Rattle.troubles.specs.declared.fault.Fault.TheVariants as ends;
ghost use Rattle.files.specs.Rows.{AreBounds, IsAll, IsOfSize, IsOfRows};
ghost use Rattle.std.specs.Prelude.{◌≡◌, ◌<◌, ◌≤◌, IfErr, IfSome, IsOk, None};

use commands::Choice;
use std::alloc::Global;
use std::fmt::Display;
use terms::Size;
use troubles::{Failure, Fault, Whereabouts};

/// The words of an option of rows without a chart.
const NEEDS_CHART: &str = "needs --chart, whose rows it chooses";

/// The words of a number that no event has.
const COUNTED: &str = "must be an integer from 1 on, as events are counted";

/// Refuses rows that no chart can have, before the script is read: rows without a chart, and
/// numbers that no events have. [`Fault::Question`], [`Fault::Member`], [`Fault::First`] and
/// [`Fault::Last`]: the option at fault.
pub fn check_rows(alloc: Global, chart: Option<&str>, choice: Choice) -> Result<(), Failure>
    ensures chart { IsOk result → chart.entry ≡ None → IsAll choice }
    ensures bounds { IsOk result → AreBounds choice }
    ensures fault { IfErr result (λ failure. IsOfRows failure.fault) }
{
    refuse_chartless(alloc, chart, choice)?;
    refuse_zero(alloc, Fault::First, "--from", choice.from)?;
    refuse_zero(alloc, Fault::Last, "--to", choice.to)?;
    refuse_order(alloc, choice.from, choice.to)
}

/// Refuses options of rows where no chart is wanted.
fn refuse_chartless(alloc: Global, chart: Option<&str>, choice: Choice) -> Result<(), Failure>
    ensures ok { IsOk result → chart.entry ≡ None → IsAll choice }
    ensures fault { IfErr result (λ failure. IsOfRows failure.fault) }
{
    match chart {
        Some(_) => Ok(()),
        None => refuse_options(alloc, choice),
    }
}

/// Refuses each option of rows. [`Fault::Question`], [`Fault::Member`], [`Fault::First`] and
/// [`Fault::Last`]: it was given.
fn refuse_options(alloc: Global, choice: Choice) -> Result<(), Failure>
    ensures ok { IsOk result → IsAll choice }
    ensures fault { IfErr result (λ failure. IsOfRows failure.fault) }
{
    if let Some(question) = choice.question {
        let number = u32::from(question);
        return Err(option_failure(alloc, Fault::Question, "--question", number, &NEEDS_CHART));
    }
    if let Some(member) = choice.member {
        let number = u32::from(member);
        return Err(option_failure(alloc, Fault::Member, "--member", number, &NEEDS_CHART));
    }
    if let Some(from) = choice.from {
        return Err(option_failure(alloc, Fault::First, "--from", from, &NEEDS_CHART));
    }
    match choice.to {
        Some(to) => Err(option_failure(alloc, Fault::Last, "--to", to, &NEEDS_CHART)),
        None => Ok(()),
    }
}

/// Refuses the number 0 of an event.
fn refuse_zero(
    alloc: Global,
    fault: Fault,
    option: &str,
    number: Option<u32>,
) -> Result<(), Failure>
    ensures ok { IsOk result → IfSome number (λ number. 1 ≤ number) }
    ensures fault { IfErr result (λ failure. failure.fault ≡ fault) }
{
    match number {
        Some(0) => Err(option_failure(alloc, fault, option, 0, &COUNTED)),
        _ => Ok(()),
    }
}

/// Refuses a first event behind the last one.
fn refuse_order(alloc: Global, from: Option<u32>, to: Option<u32>) -> Result<(), Failure>
    ensures ok { IsOk result → IfSome from (λ from. IfSome to (λ to. from ≤ to)) }
    ensures fault { IfErr result (λ failure. failure.fault ≡ ends.First) }
{
    match (from, to) {
        (Some(from), Some(to)) if from > to => Err(order_failure(alloc, from, to)),
        _ => Ok(()),
    }
}

/// The failure of a first event behind the last one.
fn order_failure(alloc: Global, from: u32, to: u32) -> Failure
    ensures { result.fault ≡ ends.First }
{
    let Ok(words) = format!(in alloc; "must be at most --to, which is {to}") else {
        return Failure::from(Fault::First);
    };
    option_failure(alloc, Fault::First, "--from", from, &words)
}

/// Refuses rows of a question or a member that a script of this size hasn't. [`Fault::Question`]
/// and [`Fault::Member`].
pub fn check_size(alloc: Global, size: Size, choice: Choice) -> Result<(), Failure>
    ensures ok { IsOk result → IsOfSize size choice }
    ensures fault { IfErr result (λ failure. IsOfRows failure.fault) }
{
    refuse_question(alloc, choice.question, size.questions())?;
    refuse_member(alloc, choice.member, size.n())
}

/// Refuses a question that a script hasn't.
fn refuse_question(alloc: Global, question: Option<u16>, questions: u16) -> Result<(), Failure>
    ensures ok { IsOk result → IfSome question (λ question. question < questions) }
    ensures fault { IfErr result (λ failure. failure.fault ≡ ends.Question) }
{
    match question {
        Some(question) if question >= questions => {
            Err(question_failure(alloc, question, questions))
        }
        _ => Ok(()),
    }
}

/// The failure of a question that a script hasn't.
fn question_failure(alloc: Global, question: u16, questions: u16) -> Failure
    ensures { result.fault ≡ ends.Question }
{
    let Ok(words) = format!(in alloc;
        "must be below the script's number of questions, which is {questions}"
    ) else {
        return Failure::from(Fault::Question);
    };
    let number = u32::from(question);
    option_failure(alloc, Fault::Question, "--question", number, &words)
}

/// Refuses a member that a script hasn't.
fn refuse_member(alloc: Global, member: Option<u8>, n: u8) -> Result<(), Failure>
    ensures ok { IsOk result → IfSome member (λ member. member < n) }
    ensures fault { IfErr result (λ failure. failure.fault ≡ ends.Member) }
{
    match member {
        Some(member) if member >= n => Err(member_failure(alloc, member, n)),
        _ => Ok(()),
    }
}

/// The failure of a member that a script hasn't.
fn member_failure(alloc: Global, member: u8, n: u8) -> Failure
    ensures { result.fault ≡ ends.Member }
{
    let Ok(words) = format!(in alloc; "must be below the script's n, which is {n}") else {
        return Failure::from(Fault::Member);
    };
    let number = u32::from(member);
    option_failure(alloc, Fault::Member, "--member", number, &words)
}

/// The failure of an option: its fault, the option with its number, and what is wrong with it.
fn option_failure<T: Display>(
    alloc: Global,
    fault: Fault,
    option: &str,
    number: u32,
    words: &T,
) -> Failure
    ensures { result.fault ≡ fault }
{
    match format!(in alloc; "{option} {number}") {
        Ok(thing) => Failure::at(alloc, fault, thing.as_str(), Whereabouts::Whole, words),
        Err(_) => Failure::from(fault),
    }
}
