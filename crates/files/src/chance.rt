//! Runs without a script: how many rounds decisions take (`rounds`), and drawn scripts for ever
//! (`simulate --forever`).

use crate::page_files::fault_at;
use chances::{End, Order, Setting, chart_text, play, table_text};
use commands::{Tried, print, takes_output, try_script};
use std::alloc::Global;
use std::fs::File;
use std::io::{self, Write};
use std::time::{Instant, SystemTime, UNIX_EPOCH};
use terms::Size;
use trials::Finding;
use troubles::{Failure, Fault, Whereabouts};

/// The number of runs where the words tell none.
const RUNS: u32 = 100;

/// The seconds before the first line of progress, and those between two of them.
const FIRST: u64 = 1;

const BETWEEN: u64 = 10;

/// The forms of `rounds`.
const ROUNDS: &str =
    "wants at most T liars, the order random, adversary or links, and at least one run";

/// A measurement: clusters of this size, in which so many members lie and this one chooses the next
/// message, as many runs as that, and the file that gets a chart.
#[derive(Clone, Copy, Debug)]
pub struct Measuring<'a> {
    pub size: Size,
    pub liars: Option<u16>,
    pub order: Option<&'a str>,
    pub seeds: Option<u32>,
    pub chart: Option<&'a str>,
}

/// Measures how many rounds decisions take: plays one question with each seed from 1 on, writes the
/// chart and prints the table.
///
/// # Errors
///
/// - [`Fault::Words`] if more members lie than may, there is no such order, or no run is wanted;
/// - [`Fault::Play`] if a run has two answers;
/// - [`Fault::Chart`] if the chart can't be written: nothing is printed;
/// - [`Fault::Simulate`] if the table can't be printed;
/// - [`Fault::Memory`] if an allocation failed.
pub fn measure_rounds(rt: &HostRuntime, asked: &Measuring<'_>, quiet: bool) -> Result<u8, Failure> {
    let Some((setting, runs)) = setting_of(asked) else {
        let words = Whereabouts::Whole;
        return Err(Failure::at(rt.alloc(), Fault::Words, "rounds", words, &ROUNDS));
    };
    let ends = play_all(rt, &setting, runs, Progress::begin(rt, quiet))?;
    write_chart(rt, asked.chart, &ends)?;
    print_table(rt, asked.chart, &ends)
}

/// Returns the cluster that is measured, and the number of runs.
fn setting_of(asked: &Measuring<'_>) -> Option<(Setting, u32)> {
    let order = order_of(asked.order)?;
    let liars = liars_of(asked.size, asked.liars)?;
    let runs = runs_of(asked.seeds)?;
    let size = asked.size;
    Some((Setting { size, liars, order }, runs))
}

/// Returns the order of this name.
fn order_of(name: Option<&str>) -> Option<Order> {
    match name {
        None | Some("random") => Some(Order::Random),
        Some("adversary") => Some(Order::Adversary),
        Some("links") => Some(Order::Links),
        Some(_) => None,
    }
}

/// Returns the number of liars, at most t of them. As many as may lie if the words tell none.
fn liars_of(size: Size, liars: Option<u16>) -> Option<u8> {
    match liars {
        None => Some(size.t()),
        Some(liars) if liars <= u16::from(size.t()) => Some(liars as u8),
        Some(_) => None,
    }
}

/// Returns the number of runs, 1 or more.
fn runs_of(seeds: Option<u32>) -> Option<u32> {
    match seeds {
        None => Some(RUNS),
        Some(0) => None,
        Some(seeds) => Some(seeds),
    }
}

/// Plays one question with each seed from 1 on.
fn play_all(
    rt: &HostRuntime,
    setting: &Setting,
    runs: u32,
    mut progress: Progress<'_>,
) -> Result<Vec<End>, Fault> {
    let alloc = rt.alloc();
    let mut ends = Vec::new(alloc);
    for run in 0..runs {
        ends.push(play(alloc, setting, u64::from(run) + 1)?)?;
        if progress.is_due() {
            let done = u64::from(run) + 1;
            progress.tell(format!(in alloc; "bracha: {done} of {runs} questions\n")?.as_str());
        }
    }
    Ok(ends)
}

/// Writes the chart, if it is wanted.
fn write_chart(rt: &HostRuntime, path: Option<&str>, ends: &[End]) -> Result<(), Failure> {
    let Some(path) = path else {
        return Ok(());
    };
    let chart = chart_text(rt.alloc(), ends).map_err(|error| Fault::from(error))?;
    match write_at(rt, path, chart.as_str()) {
        Ok(()) => Ok(()),
        Err(error) => Err(Failure::of_system(
            rt.alloc(),
            fault_at(Some(path), Fault::Chart),
            path,
            Whereabouts::Write,
            error,
        )),
    }
}

/// Writes the text into the file at this path, or to the standard output where the path is `-`.
fn write_at(rt: &HostRuntime, path: &str, text: &str) -> io::Result<()> {
    if takes_output(Some(path), None) {
        return io::writer(rt).write_all(text.as_bytes());
    }
    File::create(rt, path)?.write_all(text.as_bytes())
}

/// Prints the table, to the standard error where the chart takes the standard output.
fn print_table(rt: &HostRuntime, chart: Option<&str>, ends: &[End]) -> Result<u8, Failure> {
    let table = table_text(rt.alloc(), ends).map_err(|error| Fault::from(error))?;
    let printed = if takes_output(chart, None) {
        print(table.as_str(), &mut rt.stderr())
    } else {
        print(table.as_str(), &mut io::writer(rt))
    };
    match printed {
        Ok(status) => Ok(status),
        Err(fault) => Err(Failure::from(Fault::from(fault))),
    }
}

/// Plays drawn scripts, and judges each by its trace, for so many seconds or until the program is
/// stopped. The last line has the totals, and the status is 0. A run that shows what no run may
/// show ends it: its script is printed, and the status is 1.
///
/// # Errors
///
/// - [`Fault::Simulate`] if a script can't be played, or the output not printed;
/// - [`Fault::Memory`] if an allocation failed;
/// - [`Fault::Stream`] if the clock fails at the beginning.
pub fn play_forever(
    rt: &HostRuntime,
    seed: Option<u32>,
    seconds: Option<u32>,
    quiet: bool,
) -> Result<u8, Failure> {
    let seed = seed_of(rt, seed);
    let start = Instant::now(rt).map_err(|error| Fault::from(error))?;
    let mut progress = Progress::begin(rt, quiet);
    let mut totals = Totals {
        scripts: 0,
        events: 0,
        decisions: 0,
    };
    for number in 0..u64::MAX {
        if is_over(rt, start, seconds) {
            break;
        }
        let tried = try_script(rt.alloc(), seed, number).map_err(|fault| Fault::from(fault))?;
        totals = totals.with(&tried);
        if let Some(status) = report(rt, &tried, number)? {
            return Ok(status);
        }
        if progress.is_due() {
            progress.tell(totals.line(rt.alloc(), seed)?.as_str());
        }
    }
    say(rt, totals.line(rt.alloc(), seed)?.as_str(), 0)
}

/// Returns the seed: the seconds of the clock since 1970 if the words tell none.
fn seed_of(rt: &HostRuntime, seed: Option<u32>) -> u64 {
    match seed {
        Some(seed) => u64::from(seed),
        None => match SystemTime::now(rt) {
            Ok(now) => match now.duration_since(UNIX_EPOCH) {
                Ok(passed) => passed.as_secs(),
                Err(_) => 1,
            },
            Err(_) => 1,
        },
    }
}

/// Lines of progress on the standard error: the first after a second, then one every ten seconds.
#[derive(Clone, Copy)]
struct Progress<'a> {
    rt: &'a HostRuntime,
    /// The beginning, if there are to be lines.
    start: Option<Instant>,
    /// The seconds from there to the next line.
    next: u64,
}

impl<'a> Progress<'a> {
    /// Begins now. There are no lines if they aren't wanted, or the clock fails.
    fn begin(rt: &'a HostRuntime, quiet: bool) -> Progress<'a> {
        let start = match Instant::now(rt) {
            Ok(start) if !quiet => Some(start),
            _ => None,
        };
        Progress {
            rt,
            start,
            next: FIRST,
        }
    }

    /// Returns `true` if it is time for a line.
    fn is_due(&mut self) -> bool {
        let Some(start) = self.start else {
            return false;
        };
        let Ok(passed) = start.elapsed(self.rt) else {
            return false;
        };
        if passed.as_secs() < self.next {
            return false;
        }
        self.next = passed.as_secs().saturating_add(BETWEEN);
        true
    }

    /// Prints a line. One that can't be printed is left out.
    fn tell(&self, line: &str) {
        let mut errors = self.rt.stderr();
        let _unsaid = errors.write_all(line.as_bytes());
    }
}

/// The counts of what was played so far.
#[derive(Clone, Copy)]
struct Totals {
    scripts: u64,
    events: u64,
    decisions: u64,
}

impl Totals {
    /// Returns these totals and one script more.
    fn with(self, tried: &Tried) -> Totals {
        Totals {
            scripts: self.scripts.saturating_add(1),
            events: self.events.saturating_add(tried.events as u64),
            decisions: self
                .decisions
                .saturating_add(tried.judgement.decisions as u64),
        }
    }

    /// Returns the line of these totals.
    fn line(self, alloc: Global, seed: u64) -> Result<String, Fault> {
        let Totals {
            scripts,
            events,
            decisions,
        } = self;
        Ok(format!(in alloc;
            "seed {seed} scripts {scripts} events {events} decisions {decisions}\n"
        )?)
    }
}

/// Returns `true` if so many seconds have passed since then. Without a limit, and where the clock
/// fails, it isn't.
fn is_over(rt: &HostRuntime, start: Instant, seconds: Option<u32>) -> bool {
    match (start.elapsed(rt), seconds) {
        (Ok(passed), Some(seconds)) => passed.as_secs() >= u64::from(seconds),
        _ => false,
    }
}

/// Prints the script that shows what no run may show, behind a comment that names it. The status is
/// 1.
fn report(rt: &HostRuntime, tried: &Tried, number: u64) -> Result<Option<u8>, Failure> {
    let Some(finding) = tried.judgement.finding else {
        return Ok(None);
    };
    let text = report_text(rt.alloc(), number, finding, tried.script.as_str())?;
    Ok(Some(say(rt, text.as_str(), 1)?))
}

/// Returns the script behind a comment with its number and what its run shows.
fn report_text(
    alloc: Global,
    number: u64,
    finding: Finding,
    script: &str,
) -> Result<String, Fault> {
    Ok(format!(in alloc; "# script {number}: {finding}\n{script}")?)
}

/// Prints the text to the standard output.
fn say(rt: &HostRuntime, text: &str, status: u8) -> Result<u8, Failure> {
    match print(text, &mut io::writer(rt)) {
        Ok(_) => Ok(status),
        Err(fault) => Err(Failure::from(Fault::from(fault))),
    }
}
