//! The form that a command's words have, where it has two: `audit` of a file or of a cluster,
//! `simulate` with a script or for ever.

ghost use Rattle.std.specs.Prelude.{◌≡◌, IfErr, IfOk, Some};
ghost use Rattle.files.specs.Shapes.{audited_by};
ghost use Rattle.troubles.specs.declared.fault.Fault.TheVariants as ends;

use crate::chance::play_forever;
use crate::files::simulate_file;
use crate::rows::check_rows;
use commands::{Choice, PagePaths};
use std::alloc::Global;
use troubles::{Failure, Fault, Whereabouts};

/// The object of `audit`.
#[derive(Clone, Copy, Debug, PartialEq, Eq)]
pub enum Audited {
    /// The transcript in the file, for a cluster of this size.
    File { n: u16, t: u16, questions: u16 },
    /// The transcripts of this question that the members of a cluster tell.
    Cluster { question: u16 },
}

/// The words of `audit` beside its file.
#[derive(Clone, Copy, Debug, PartialEq, Eq)]
pub struct AuditWords {
    pub all: bool,
    /// A time was given for which members are waited for.
    pub timed: bool,
    pub question: Option<u16>,
    pub n: Option<u16>,
    pub t: Option<u16>,
    pub questions: Option<u16>,
}

/// The scripts that `simulate` plays.
#[derive(Clone, Copy, Debug, PartialEq, Eq)]
pub enum Simulated<'a> {
    /// The script in this file.
    Script(&'a str),
    /// Random scripts from this seed on, for so many seconds.
    Forever {
        seed: Option<u32>,
        seconds: Option<u32>,
    },
}

/// The words of `simulate`.
#[derive(Clone, Copy, Debug)]
pub struct SimulateWords<'a> {
    pub script: Option<&'a str>,
    pub trace: Option<&'a str>,
    pub chart: Option<&'a str>,
    pub page: Option<&'a str>,
    pub choice: Choice,
    pub forever: bool,
    pub seed: Option<u32>,
    pub seconds: Option<u32>,
    /// No progress is told.
    pub quiet: bool,
}

/// The forms of `audit`.
const AUDIT: &str =
    "wants FILE --n N --t T --questions Q, or --all with the file client.toml and a question, which --timeout goes with";

/// The forms of `simulate`.
const SIMULATE: &str =
    "wants a script, or --forever without one, which --seed and --seconds go with, but no chart, page or trace";

/// Returns the object that the words of `audit` name; none if they have neither form.
fn audited_by(words: &AuditWords) -> Option<Audited>
    ensures { result ≡ audited_by words.now }
{
    if words.all {
        return match (words.question, words.n, words.t, words.questions) {
            (Some(question), None, None, None) => Some(Audited::Cluster { question }),
            _ => None,
        };
    }
    if words.timed {
        return None;
    }
    match (words.question, words.n, words.t, words.questions) {
        (None, Some(n), Some(t), Some(questions)) => Some(Audited::File { n, t, questions }),
        _ => None,
    }
}

/// Returns the object of `audit`. [`Fault::Words`]: its words have neither form.
pub fn audited_of(alloc: Global, words: &AuditWords) -> Result<Audited, Failure>
    ensures ok { IfOk result (λ found. audited_by words.now ≡ Some found) }
    ensures fault { IfErr result (λ failure. failure.fault ≡ ends.Words) }
{
    match audited_by(words) {
        Some(found) => Ok(found),
        None => Err(Failure::at(alloc, Fault::Words, "audit", Whereabouts::Whole, &AUDIT)),
    }
}

/// Plays what the words of `simulate` name. [`Fault::Words`]: they have neither form. Rows of a
/// chart are refused for ever too.
pub fn simulate(rt: &HostRuntime, words: &SimulateWords<'_>) -> Result<u8, Failure> {
    match simulated_by(words) {
        Some(Simulated::Script(script)) => {
            let paths = PagePaths {
                trace: words.trace,
                chart: words.chart,
                play: words.page,
            };
            simulate_file(rt, script, &paths, words.choice)
        }
        Some(Simulated::Forever { seed, seconds }) => {
            check_rows(rt.alloc(), None, words.choice)?;
            play_forever(rt, seed, seconds, words.quiet)
        }
        None => Err(Failure::at(
            rt.alloc(),
            Fault::Words,
            "simulate",
            Whereabouts::Whole,
            &SIMULATE,
        )),
    }
}

/// Returns the scripts that the words of `simulate` name; none if they have neither form.
fn simulated_by<'a>(words: &SimulateWords<'a>) -> Option<Simulated<'a>> {
    match words.script {
        Some(script) => {
            if words.forever || words.seed.is_some() || words.seconds.is_some() {
                return None;
            }
            Some(Simulated::Script(script))
        }
        None => {
            if !words.forever || has_page(words) {
                return None;
            }
            Some(Simulated::Forever {
                seed: words.seed,
                seconds: words.seconds,
            })
        }
    }
}

/// Returns `true` if the words of `simulate` name the file of a page.
fn has_page(words: &SimulateWords<'_>) -> bool {
    words.trace.is_some() || words.chart.is_some() || words.page.is_some()
}
