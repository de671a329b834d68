//! The work of each command: begin at `work`.

use asking::{
    Caller, Cluster, Gate, Motion, Query, StateForm, ask_all, ask_at, audit_all, await_at,
    epochs_of_all, links_at, patience_of, propose_at, propose_to_all, run_gateway, state_at,
    status_at, status_of_all, transcript_at, transcript_of_all,
};
use command_line::{
    AskWords, AuditWords, DecideWords, EpochsWords, GatewayWords, HearWords, NewClusterWords,
    ProposeWords, RoundsWords, RunWords, SimulateWords, StatusWords, Task, TranscriptWords,
};
use files::{
    Audited, Choice, Measuring, NewCluster, audit_file, audited_of, check_file, dump_file,
    hear_end, hear_input, init_file, measure_rounds, migrate_file, new_cluster, size_of,
};
use std::marker::Brand;
use system::{RunOptions, log_form, run_file};
use troubles::{Failure, Fault, Whereabouts};

/// Does the task, and gives the status to end with.
pub(crate) fn work<R: Caller>(
    rt: &R,
    host: &HostRuntime,
    task: Task<'_>,
    quiet: bool,
) -> Result<u8, Failure> {
    match task {
        Task::NewCluster(words) => make_cluster(host, words),
        Task::Init(words) => init_file::<Brand>(host, words.settings),
        Task::Check(words) => check_file(host, words.settings, words.json),
        Task::Run(words) => run(rt, host, words),
        Task::Propose(words) => propose(rt, host, words),
        Task::Ask(words) => ask(rt, host, words),
        Task::Decide(words) => decide(rt, host, words),
        Task::Status(words) => status(rt, host, words),
        Task::Transcript(words) => transcript(rt, host, words),
        Task::Audit(words) => audit(rt, host, words),
        Task::Gateway(words) => gateway(rt, host, words),
        Task::Epochs(words) => epochs(rt, host, words),
        Task::Dump(words) => dump_file::<Brand>(host, words.journal, words.count, words.json),
        Task::Migrate(words) => migrate_file::<Brand, Brand>(host, words.old, words.new),
        Task::Simulate(words) => simulate(host, words, quiet),
        Task::Rounds(words) => rounds(host, words, quiet),
        Task::Hear(words) => hear(host, words),
    }
}

/// Writes the files of a new cluster.
fn make_cluster(host: &HostRuntime, words: NewClusterWords<'_>) -> Result<u8, Failure> {
    let made = NewCluster {
        size: size_of(host.alloc(), words.n, words.t, words.questions)?,
        cluster: u64::from(words.cluster),
        folder: words.folder,
        hosts: words.hosts,
        port: words.port,
        desk: words.desk,
        epochs: words.epochs,
    };
    new_cluster(host, &made)
}

/// Tells which epochs all members of a chain have closed.
fn epochs<R: Caller>(rt: &R, host: &HostRuntime, words: EpochsWords<'_>) -> Result<u8, Failure> {
    let cluster = cluster_of(host, words.file, words.timeout)?;
    epochs_of_all(rt, host, &cluster, words.json)
}

/// Runs a member.
fn run<R: Caller>(rt: &R, host: &HostRuntime, words: RunWords<'_>) -> Result<u8, Failure> {
    let options = RunOptions {
        stay: words.stay,
        log: log_form(words.log, words.log_json),
        any_host: words.any_host,
    };
    run_file::<R, Brand>(rt, host, words.settings, options)
}

/// Proposes a bit to a member, or to all.
fn propose<R: Caller>(rt: &R, host: &HostRuntime, words: ProposeWords<'_>) -> Result<u8, Failure> {
    let cluster = cluster_of(host, words.address, words.timeout)?;
    if words.all {
        return propose_to_all(rt, host, &cluster, words.question, words.bit);
    }
    propose_at(
        host,
        cluster.file,
        words.question,
        words.bit,
        cluster.timeout,
    )
}

/// Asks a member for its decision, once or until there is one; or all.
fn ask<R: Caller>(rt: &R, host: &HostRuntime, words: AskWords<'_>) -> Result<u8, Failure> {
    let AskWords {
        question,
        wait,
        json,
        ..
    } = words;
    let cluster = cluster_of(host, words.address, words.timeout)?;
    if words.all {
        let query = Query {
            question,
            wait,
            json,
        };
        return ask_all(rt, host, &cluster, query);
    }
    if wait {
        return await_at(host, cluster.file, question, json, cluster.timeout);
    }
    ask_at(host, cluster.file, question, json, cluster.timeout)
}

/// Proposes a bit to all members, and waits for the decision.
fn decide<R: Caller>(rt: &R, host: &HostRuntime, words: DecideWords<'_>) -> Result<u8, Failure> {
    let cluster = cluster_of(host, words.file, words.timeout)?;
    let motion = Motion {
        question: words.question,
        bit: words.bit,
        json: words.json,
    };
    asking::decide(rt, host, &cluster, motion)
}

/// Asks a member for its state, or all.
fn status<R: Caller>(rt: &R, host: &HostRuntime, words: StatusWords<'_>) -> Result<u8, Failure> {
    if words.question.is_some() && (words.links || words.ready) {
        let told = "--question can't be combined with --links or --ready";
        let fault = Fault::Words;
        return Err(Failure::at(host.alloc(), fault, "status", Whereabouts::Whole, &told));
    }
    let form = StateForm {
        links: words.links,
        ready: words.ready,
        question: words.question,
        json: words.json,
    };
    let cluster = cluster_of(host, words.address, words.timeout)?;
    if words.all {
        return status_of_all(rt, host, &cluster, form);
    }
    if let Some(question) = form.question {
        return state_at(host, cluster.file, question, form.json, cluster.timeout);
    }
    if form.links || form.ready {
        return links_at(host, cluster.file, form.ready, form.json, cluster.timeout);
    }
    status_at(host, cluster.file, form.json, cluster.timeout)
}

/// Asks a member for what it heard, or all until one tells it.
fn transcript<R: Caller>(
    rt: &R,
    host: &HostRuntime,
    words: TranscriptWords<'_>,
) -> Result<u8, Failure> {
    let cluster = cluster_of(host, words.address, words.timeout)?;
    if words.all {
        return transcript_of_all(rt, host, &cluster, words.question);
    }
    transcript_at(host, cluster.file, words.question, cluster.timeout)
}

/// Audits the transcript in a file, or those of all members.
fn audit<R: Caller>(rt: &R, host: &HostRuntime, words: AuditWords<'_>) -> Result<u8, Failure> {
    let form = files::AuditWords {
        all: words.all,
        timed: words.timeout.is_some(),
        question: words.question,
        n: words.n,
        t: words.t,
        questions: words.questions,
    };
    match audited_of(host.alloc(), &form)? {
        Audited::File { n, t, questions } => {
            let size = size_of(host.alloc(), n, t, questions)?;
            audit_file(host, words.file, size)
        }
        Audited::Cluster { question } => {
            let cluster = cluster_of(host, words.file, words.timeout)?;
            audit_all(rt, host, &cluster, question)
        }
    }
}

/// Returns the cluster of these settings, which is waited for as long as the words say.
fn cluster_of<'a>(
    host: &HostRuntime,
    file: &'a str,
    timeout: Option<&str>,
) -> Result<Cluster<'a>, Failure> {
    let timeout = patience_of(host.alloc(), timeout)?;
    Ok(Cluster { file, timeout })
}

/// Serves a cluster over HTTP.
fn gateway<R: Caller>(rt: &R, host: &HostRuntime, words: GatewayWords<'_>) -> Result<u8, Failure> {
    let gate = Gate {
        file: words.file,
        listen: words.listen,
        token: words.token,
    };
    run_gateway(rt, host, &gate)
}

/// Runs a script, or random ones.
fn simulate(host: &HostRuntime, words: SimulateWords<'_>, quiet: bool) -> Result<u8, Failure> {
    let choice = Choice {
        question: words.question,
        member: words.member,
        from: words.from,
        to: words.to,
    };
    let form = files::SimulateWords {
        script: words.script,
        trace: words.trace,
        chart: words.chart,
        page: words.page,
        choice,
        forever: words.forever,
        seed: words.seed,
        seconds: words.seconds,
        quiet,
    };
    files::simulate(host, &form)
}

/// Measures how many rounds decisions take.
fn rounds(host: &HostRuntime, words: RoundsWords<'_>, quiet: bool) -> Result<u8, Failure> {
    let measuring = Measuring {
        size: size_of(host.alloc(), words.n, words.t, 1)?,
        liars: words.liars,
        order: words.order,
        seeds: words.seeds,
        chart: words.chart,
    };
    measure_rounds(host, &measuring, quiet)
}

/// Reads streams of frames as a member does, and prints what is due.
fn hear(host: &HostRuntime, words: HearWords) -> Result<u8, Failure> {
    let size = size_of(host.alloc(), words.n, words.t, words.questions)?;
    let ended = hear_input(host, size, words.me);
    hear_end(host.alloc(), size.n(), words.me, ended)
}
