//! The text for Prometheus: begin at `metrics_text`.

ghost use Rattle.std.specs.Prelude.{◌≡◌, ◌++◌, ℕ, IfOk, List, codes, is_some, count_by, string_bytes};
ghost use Rattle.std.specs.Fmt.{decimal};
ghost use Rattle.std.specs.List.{flat_map};
ghost use Rattle.gateway.specs.Metrics.{bucket_row, bucket_text, gauge_help, gauge_name, gauge_row, gauge_rows, gauge_text, gauge_value, gauges, head_text, metrics_text, seconds_text, times_end, times_head, times_text, total_help, total_kind, total_name, total_text, total_value, totals, up_value};
ghost use Rattle.gateway.specs.Times.{Counts, bounds};

use crate::answers::joined;
use crate::times::{Bucket, Times};
use crate::views::{MemberState, MemberView};
use std::alloc::{AllocError, Global};

/// The numbers of a cluster, as the gateway knows them.
#[derive(Clone, Copy, Debug, PartialEq, Eq)]
pub struct Tally {
    /// The number of questions that the gateway knows.
    pub questions: u64,
    /// The number of questions that were proposed and aren't decided.
    pub waiting: u64,
    /// The number of decisions.
    pub decisions: u64,
    /// The number of requests that were refused.
    pub refusals: u64,
    /// The sum of the milliseconds from proposal to decision, of the questions that were proposed
    /// here.
    pub sum: u64,
}

/// A metric of each member.
#[derive(Clone, Copy, Debug, PartialEq, Eq)]
enum Gauge {
    Up,
    Coming,
    Going,
    Statements,
    Decided,
    Contradictions,
}

/// A metric of the cluster.
#[derive(Clone, Copy, Debug, PartialEq, Eq)]
enum Total {
    Questions,
    Open,
    Decisions,
    Refusals,
}

/// Returns the name of a metric.
fn gauge_name(metric: Gauge) -> &'static str
    ensures { result.now ≡ gauge_name metric }
{
    match metric {
        Gauge::Up => "bracha_member_up",
        Gauge::Coming => "bracha_member_links_in",
        Gauge::Going => "bracha_member_links_out",
        Gauge::Statements => "bracha_member_statements",
        Gauge::Decided => "bracha_member_decided",
        Gauge::Contradictions => "bracha_member_contradictions",
    }
}

/// Returns the help of a metric.
fn gauge_help(metric: Gauge) -> &'static str
    ensures { result.now ≡ gauge_help metric }
{
    match metric {
        Gauge::Up => "1 if the desk of the member answers.",
        Gauge::Coming => "Links that come in.",
        Gauge::Going => "Links that go out.",
        Gauge::Statements => "Statements that the member said.",
        Gauge::Decided => "Questions that the member decided.",
        Gauge::Contradictions => "Questions on which more than t others contradict the member.",
    }
}

/// Returns 1 if the member answers.
fn up_value(state: MemberState) -> u64
    ensures { result ≡ up_value state }
{
    match state {
        MemberState::Up => 1,
        MemberState::Silent | MemberState::Stopped => 0,
    }
}

/// Returns the number of questions on which a member contradicts the others.
fn contradiction_count(found: &[Option<bool>]) -> usize
    ensures { result ≡ count_by is_some found.now }
{
    found.iter().filter(|one| one.is_some()).count()
}

/// Returns the value of a metric.
fn gauge_value(metric: Gauge, view: &MemberView) -> u64
    ensures { result ≡ gauge_value metric view.now }
{
    match metric {
        Gauge::Up => up_value(view.state),
        Gauge::Coming => view.coming,
        Gauge::Going => view.going,
        Gauge::Statements => view.statements,
        Gauge::Decided => view.decided,
        Gauge::Contradictions => contradiction_count(&view.contradicts) as u64,
    }
}

/// Returns the lines before the rows of a metric.
fn head_text(alloc: Global, name: &str, help: &str, kind: &str) -> Result<String, AllocError>
    ensures { IfOk result (λ text. string_bytes text ≡ head_text name.now help.now kind.now) }
{
    format!(in alloc; "# HELP {name} {help}\n# TYPE {name} {kind}\n")
}

/// Returns the row of a member.
fn gauge_row(
    alloc: Global,
    metric: Gauge,
    member: usize,
    view: &MemberView,
) -> Result<String, AllocError>
    ensures { IfOk result (λ text. string_bytes text ≡ gauge_row metric member view.now) }
{
    format!(in alloc;
        "{}{{member=\"{member}\"}} {}\n",
        gauge_name(metric),
        gauge_value(metric, view)
    )
}

/// Returns the rows of all members.
fn gauge_rows(alloc: Global, metric: Gauge, views: &[MemberView]) -> Result<String, AllocError>
    ensures { IfOk result (λ text. string_bytes text ≡ gauge_rows metric 0 views.now) }
{
    let mut text = String::new(alloc);
    for member in 0..views.len() {
        let row = gauge_row(alloc, metric, member, &views[member])?;
        text.push_str(row.as_str())?;
    }
    Ok(text)
}

/// Returns the lines of a metric of each member.
fn gauge_text(alloc: Global, views: &[MemberView], metric: Gauge) -> Result<String, AllocError>
    ensures { IfOk result (λ text. string_bytes text ≡ gauge_text views.now metric) }
{
    let mut text = head_text(alloc, gauge_name(metric), gauge_help(metric), "gauge")?;
    let rows = gauge_rows(alloc, metric, views)?;
    text.push_str(rows.as_str())?;
    Ok(text)
}

/// Returns the lines of these metrics of each member.
fn gauge_texts(alloc: Global, gauges: &[Gauge], views: &[MemberView]) -> Result<String, AllocError>
    ensures { IfOk result (λ text. string_bytes text ≡ flat_map (gauge_text views.now) gauges.now) }
{
    let mut text = String::new(alloc);
    for metric in gauges {
        text.push_str(gauge_text(alloc, views, *metric)?.as_str())?;
    }
    Ok(text)
}

/// Returns the name of a metric.
fn total_name(metric: Total) -> &'static str
    ensures { result.now ≡ total_name metric }
{
    match metric {
        Total::Questions => "bracha_questions",
        Total::Open => "bracha_questions_open",
        Total::Decisions => "bracha_decisions_total",
        Total::Refusals => "bracha_gateway_refusals_total",
    }
}

/// Returns the help of a metric.
fn total_help(metric: Total) -> &'static str
    ensures { result.now ≡ total_help metric }
{
    match metric {
        Total::Questions => "Questions of the cluster.",
        Total::Open => "Questions that were proposed and aren't decided.",
        Total::Decisions => "Decisions that more than t members told.",
        Total::Refusals => "Requests that the gateway refused.",
    }
}

/// Returns the kind of a metric.
fn total_kind(metric: Total) -> &'static str
    ensures { result.now ≡ total_kind metric }
{
    match metric {
        Total::Questions | Total::Open => "gauge",
        Total::Decisions | Total::Refusals => "counter",
    }
}

/// Returns the value of a metric.
fn total_value(metric: Total, tally: &Tally) -> u64
    ensures { result ≡ total_value metric tally.now }
{
    match metric {
        Total::Questions => tally.questions,
        Total::Open => tally.waiting,
        Total::Decisions => tally.decisions,
        Total::Refusals => tally.refusals,
    }
}

/// Returns the row of a metric of the cluster.
fn total_row(alloc: Global, tally: &Tally, metric: Total) -> Result<String, AllocError>
    ensures { IfOk result
        (λ text. string_bytes text ≡ total_name metric
        ++ (codes " " ++ (decimal (total_value metric tally.now) ++ codes "\n"))) }
{
    format!(in alloc; "{} {}\n", total_name(metric), total_value(metric, tally))
}

/// Returns the lines of a metric of the cluster.
fn total_text(alloc: Global, tally: &Tally, metric: Total) -> Result<String, AllocError>
    ensures { IfOk result (λ text. string_bytes text ≡ total_text tally.now metric) }
{
    let mut text = head_text(
        alloc,
        total_name(metric),
        total_help(metric),
        total_kind(metric),
    )?;
    let row = total_row(alloc, tally, metric)?;
    text.push_str(row.as_str())?;
    Ok(text)
}

/// Returns the lines of these metrics of the cluster.
fn total_texts(alloc: Global, totals: &[Total], tally: &Tally) -> Result<String, AllocError>
    ensures { IfOk result (λ text. string_bytes text ≡ flat_map (total_text tally.now) totals.now) }
{
    let mut text = String::new(alloc);
    for metric in totals {
        text.push_str(total_text(alloc, tally, *metric)?.as_str())?;
    }
    Ok(text)
}

/// Returns the seconds that so many milliseconds are.
fn seconds_text(alloc: Global, ms: u64) -> Result<String, AllocError>
    ensures { IfOk result (λ text. string_bytes text ≡ seconds_text ms) }
{
    format!(in alloc;
        "{}.{}{}{}",
        ms / 1000,
        ms / 100 % 10,
        ms / 10 % 10,
        ms % 10
    )
}

/// Returns the row of a bucket.
fn bucket_text(alloc: Global, bucket: &Bucket) -> Result<String, AllocError>
    ensures { IfOk result (λ text. string_bytes text ≡ bucket_text bucket.now) }
{
    let seconds = seconds_text(alloc, u64::from(bucket.most))?;
    format!(in alloc;
        "bracha_decision_seconds_bucket{{le=\"{seconds}\"}} {}\n",
        bucket.count
    )
}

/// Returns the rows of all buckets.
fn bucket_texts(alloc: Global, buckets: &[Bucket]) -> Result<String, AllocError>
    ensures { IfOk result (λ text. string_bytes text ≡ flat_map bucket_text buckets.now) }
{
    let mut text = String::new(alloc);
    for bucket in buckets {
        text.push_str(bucket_text(alloc, bucket)?.as_str())?;
    }
    Ok(text)
}

/// Returns the row of all decisions whose time is known, their sum and their number.
fn times_end(alloc: Global, count: u64, sum: u64) -> Result<String, AllocError>
    ensures { IfOk result (λ text. string_bytes text ≡ times_end count sum) }
{
    let seconds = seconds_text(alloc, sum)?;
    format!(in alloc;
        "bracha_decision_seconds_bucket{{le=\"+Inf\"}} {count}\nbracha_decision_seconds_sum {seconds}\nbracha_decision_seconds_count {count}\n"
    )
}

/// The lines before the times.
const TIMES_HEAD: &str =
    "# HELP bracha_decision_seconds Time from the proposal here to the decision of more than t members.\n# TYPE bracha_decision_seconds histogram\n";

/// Returns the lines before the times.
fn times_head() -> &'static str
    ensures { result.now ≡ times_head }
{
    TIMES_HEAD
}

/// Returns the rows of all bounds.
fn all_buckets(alloc: Global, times: &Times) -> Result<String, AllocError>
    ensures { (all : List ℕ) → Counts times.now all →
        IfOk result (λ text. string_bytes text ≡ flat_map (bucket_row all) bounds) }
{
    bucket_texts(alloc, times.buckets())
}

/// Returns the lines of the times from proposal to decision, with their sum.
#[tactic(auto, unfolding(crate::specs::Metrics::times_text))]
fn times_text(alloc: Global, times: &Times, sum: u64) -> Result<Vec<u8>, AllocError>
    ensures { (all : List ℕ) → Counts times.now all →
        IfOk result (λ bytes. bytes.items ≡ times_text all sum) }
{
    let rows = all_buckets(alloc, times)?;
    let end = times_end(alloc, times.count(), sum)?;
    joined(
        alloc,
        times_head().as_bytes(),
        rows.as_bytes(),
        end.as_bytes(),
    )
}

/// Returns the lines of all metrics of each member.
#[tactic(auto, unfolding(crate::specs::Metrics::gauges))]
fn all_gauges(alloc: Global, views: &[MemberView]) -> Result<String, AllocError>
    ensures { IfOk result (λ text. string_bytes text ≡ flat_map (gauge_text views.now) gauges) }
{
    let gauges = [
        Gauge::Up,
        Gauge::Coming,
        Gauge::Going,
        Gauge::Statements,
        Gauge::Decided,
        Gauge::Contradictions,
    ];
    gauge_texts(alloc, &gauges, views)
}

/// Returns the lines of all metrics of the cluster.
#[tactic(auto, unfolding(crate::specs::Metrics::totals))]
fn all_totals(alloc: Global, tally: &Tally) -> Result<String, AllocError>
    ensures { IfOk result (λ text. string_bytes text ≡ flat_map (total_text tally.now) totals) }
{
    let totals = [
        Total::Questions,
        Total::Open,
        Total::Decisions,
        Total::Refusals,
    ];
    total_texts(alloc, &totals, tally)
}

/// Returns all metrics, as Prometheus reads them, with a histogram of the times from proposal to
/// decision.
///
/// # Errors
///
/// [`AllocError`] if an allocation failed.
pub fn metrics_text(
    alloc: Global,
    tally: &Tally,
    views: &[MemberView],
    times: &Times,
) -> Result<Vec<u8>, AllocError>
    ensures { (all : List ℕ) → Counts times.now all →
        IfOk result (λ bytes. bytes.items ≡ metrics_text tally.now views.now all) }
{
    let members = all_gauges(alloc, views)?;
    let cluster = all_totals(alloc, tally)?;
    let times = times_text(alloc, times, tally.sum)?;
    joined(alloc, members.as_bytes(), cluster.as_bytes(), &times)
}
