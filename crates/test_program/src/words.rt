//! What the words of the command line ask for.
//!
//! A row is the words, with a space between each two. It answers the task: its name, its values,
//! and then what was asked for beside them; before it stands `quiet` where faults are to be told in
//! one line. Where nothing is to be done it answers `ends` and the status.

use command_line::{
    AskWords, AuditWords, CheckWords, DecideWords, DumpWords, EpochsWords, GatewayWords,
    NewClusterWords, ProposeWords, Request, RoundsWords, RunWords, SimulateWords, StatusWords,
    Task, TranscriptWords, command,
};
use std::alloc::Global;
use test_words::words_of;

/// Plays a row.
pub fn told(alloc: Global, action: &str) -> Option<String> {
    let words = words_of(alloc, action)?;
    match asked(alloc, words.as_slice()) {
        Ok(request) => request_text(alloc, request),
        Err(status) => format!(in alloc; "ends {status}").ok(),
    }
}

/// Returns what is asked for, or the status with which the program ends.
fn asked<'a>(alloc: Global, words: &'a [&'a str]) -> Result<Request<'a>, i32> {
    match command(alloc, words) {
        Ok(request) => Ok(request),
        Err(error) => Err(error.exit_code()),
    }
}

/// The text of what is asked for.
fn request_text(alloc: Global, request: Request<'_>) -> Option<String> {
    let task = task_text(alloc, request.task)?;
    if request.quiet {
        format!(in alloc; "quiet {task}").ok()
    } else {
        Some(task)
    }
}

/// The text of a task.
fn task_text(alloc: Global, task: Task<'_>) -> Option<String> {
    match task {
        Task::NewCluster(words) => founding(alloc, words),
        Task::Init(words) => format!(in alloc; "init {}", words.settings).ok(),
        Task::Run(words) => running(alloc, words),
        Task::Propose(words) => proposal(alloc, words),
        Task::Ask(words) => asking(alloc, words),
        Task::Decide(words) => deciding(alloc, words),
        Task::Status(words) => standing(alloc, words),
        Task::Transcript(words) => hearsay(alloc, words),
        Task::Audit(words) => auditing(alloc, words),
        Task::Migrate(words) => format!(in alloc; "migrate {} {}", words.old, words.new).ok(),
        Task::Simulate(words) => simulating(alloc, words),
        Task::Rounds(words) => measuring(alloc, words),
        Task::Hear(it) => {
            format!(in alloc; "hear {} {} {} {}", it.n, it.t, it.questions, it.me).ok()
        }
        Task::Check(words) => checking(alloc, words),
        Task::Dump(words) => dumping(alloc, words),
        Task::Gateway(words) => serving(alloc, words),
        Task::Epochs(words) => closing(alloc, words),
    }
}

/// The text of a new cluster.
fn founding(alloc: Global, words: NewClusterWords<'_>) -> Option<String> {
    let NewClusterWords {
        n,
        t,
        questions,
        cluster,
        folder,
        ..
    } = words;
    let text = format!(in alloc; "new-cluster {n} {t} {questions} {cluster} {folder}").ok()?;
    let parts = [
        Part::Word(words.hosts),
        Part::Number("port", words.port.map(u32::from)),
        Part::Text("desk", words.desk),
        Part::Flag("epochs", words.epochs),
    ];
    with(alloc, text, &parts)
}

/// The text of a member that is to run.
fn running(alloc: Global, words: RunWords<'_>) -> Option<String> {
    let text = format!(in alloc; "run {}", words.settings).ok()?;
    let parts = [
        Part::Flag("stay", words.stay),
        Part::Flag("log", words.log),
        Part::Flag("log-json", words.log_json),
        Part::Flag("any-host", words.any_host),
    ];
    with(alloc, text, &parts)
}

/// The text of a proposal.
fn proposal(alloc: Global, words: ProposeWords<'_>) -> Option<String> {
    let ProposeWords {
        address,
        question,
        bit,
        all,
        timeout,
    } = words;
    let text = format!(in alloc; "propose {address} {question} {bit}").ok()?;
    with(
        alloc,
        text,
        &[Part::Flag("all", all), Part::Text("timeout", timeout)],
    )
}

/// The text of a question to a member.
fn asking(alloc: Global, words: AskWords<'_>) -> Option<String> {
    let text = format!(in alloc; "ask {} {}", words.address, words.question).ok()?;
    let parts = [
        Part::Flag("all", words.all),
        Part::Flag("wait", words.wait),
        Part::Flag("json", words.json),
        Part::Text("timeout", words.timeout),
    ];
    with(alloc, text, &parts)
}

/// The text of a question that is to be decided.
fn deciding(alloc: Global, words: DecideWords<'_>) -> Option<String> {
    let DecideWords {
        file,
        question,
        bit,
        json,
        timeout,
    } = words;
    let text = format!(in alloc; "decide {file} {question} {bit}").ok()?;
    with(
        alloc,
        text,
        &[Part::Flag("json", json), Part::Text("timeout", timeout)],
    )
}

/// The text of a question to a member for its state.
fn standing(alloc: Global, words: StatusWords<'_>) -> Option<String> {
    let text = format!(in alloc; "status {}", words.address).ok()?;
    let parts = [
        Part::Flag("all", words.all),
        Part::Number("question", words.question.map(u32::from)),
        Part::Flag("links", words.links),
        Part::Flag("ready", words.ready),
        Part::Flag("json", words.json),
        Part::Text("timeout", words.timeout),
    ];
    with(alloc, text, &parts)
}

/// The text of a question to a member for what it heard.
fn hearsay(alloc: Global, words: TranscriptWords<'_>) -> Option<String> {
    let text = format!(in alloc; "transcript {} {}", words.address, words.question).ok()?;
    with(
        alloc,
        text,
        &[
            Part::Flag("all", words.all),
            Part::Text("timeout", words.timeout),
        ],
    )
}

/// The text of an audit.
fn auditing(alloc: Global, words: AuditWords<'_>) -> Option<String> {
    let text = format!(in alloc; "audit {}", words.file).ok()?;
    let parts = [
        Part::Number("question", words.question.map(u32::from)),
        Part::Flag("all", words.all),
        Part::Number("n", words.n.map(u32::from)),
        Part::Number("t", words.t.map(u32::from)),
        Part::Number("questions", words.questions.map(u32::from)),
        Part::Text("timeout", words.timeout),
    ];
    with(alloc, text, &parts)
}

/// The text of a simulation: its script, if it has one, its pages, and the choice of events.
fn simulating(alloc: Global, words: SimulateWords<'_>) -> Option<String> {
    let text = String::from_str(alloc, "simulate").ok()?;
    let parts = [
        Part::Word(words.script),
        Part::Text("trace", words.trace),
        Part::Text("chart", words.chart),
        Part::Text("page", words.page),
        Part::Number("question", words.question.map(u32::from)),
        Part::Number("member", words.member.map(u32::from)),
        Part::Number("from", words.from),
        Part::Number("to", words.to),
        Part::Flag("forever", words.forever),
        Part::Number("seed", words.seed),
        Part::Number("seconds", words.seconds),
    ];
    with(alloc, text, &parts)
}

/// The text of a measurement of rounds.
fn measuring(alloc: Global, words: RoundsWords<'_>) -> Option<String> {
    let text = format!(in alloc; "rounds {} {}", words.n, words.t).ok()?;
    let parts = [
        Part::Number("liars", words.liars.map(u32::from)),
        Part::Text("order", words.order),
        Part::Number("seeds", words.seeds),
        Part::Text("chart", words.chart),
    ];
    with(alloc, text, &parts)
}

/// The text of settings that are to be checked.
fn checking(alloc: Global, words: CheckWords<'_>) -> Option<String> {
    let text = format!(in alloc; "check {}", words.settings).ok()?;
    with(alloc, text, &[Part::Flag("json", words.json)])
}

/// The text of a journal that is to be printed.
fn dumping(alloc: Global, words: DumpWords<'_>) -> Option<String> {
    let text = format!(in alloc; "dump {}", words.journal).ok()?;
    let parts = [
        Part::Flag("count", words.count),
        Part::Flag("json", words.json),
    ];
    with(alloc, text, &parts)
}

/// The text of a gateway that is to serve.
fn serving(alloc: Global, words: GatewayWords<'_>) -> Option<String> {
    let text = format!(in alloc; "gateway {}", words.file).ok()?;
    let parts = [
        Part::Text("listen", words.listen),
        Part::Text("token", words.token),
    ];
    with(alloc, text, &parts)
}

/// The text of a question for the epochs that are closed.
fn closing(alloc: Global, words: EpochsWords<'_>) -> Option<String> {
    let text = format!(in alloc; "epochs {}", words.file).ok()?;
    let parts = [
        Part::Flag("json", words.json),
        Part::Text("timeout", words.timeout),
    ];
    with(alloc, text, &parts)
}

/// Returns the text with that of each part behind it.
fn with(alloc: Global, mut text: String, parts: &[Part<'_>]) -> Option<String> {
    for part in parts {
        let more = part_text(alloc, *part)?;
        text.push_str(more.as_str()).ok()?;
    }
    Some(text)
}

/// Returns the text of a part: nothing where it wasn't asked for.
fn part_text(alloc: Global, part: Part<'_>) -> Option<String> {
    match part {
        Part::Flag(name, true) => format!(in alloc; " {name}").ok(),
        Part::Text(name, Some(value)) => format!(in alloc; " {name} {value}").ok(),
        Part::Number(name, Some(value)) => format!(in alloc; " {name} {value}").ok(),
        Part::Word(Some(value)) => format!(in alloc; " {value}").ok(),
        _ => Some(String::new(alloc)),
    }
}

/// An option of a task: its name, and its value, if it was given. A word has no name.
#[derive(Clone, Copy)]
enum Part<'a> {
    Word(Option<&'a str>),
    Flag(&'static str, bool),
    Text(&'static str, Option<&'a str>),
    Number(&'static str, Option<u32>),
}
