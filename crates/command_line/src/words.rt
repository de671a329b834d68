//! The commands of the program, and what their words give.

/// A command of the program.
#[derive(Clone, Copy, Debug, PartialEq, Eq)]
pub enum Command {
    /// `new-cluster`
    NewCluster,
    /// `init`
    Init,
    /// `check`
    Check,
    /// `run`
    Run,
    /// `propose`
    Propose,
    /// `ask`
    Ask,
    /// `decide`
    Decide,
    /// `status`
    Status,
    /// `transcript`
    Transcript,
    /// `audit`
    Audit,
    /// `gateway`
    Gateway,
    /// `epochs`
    Epochs,
    /// `dump`
    Dump,
    /// `migrate`
    Migrate,
    /// `simulate`
    Simulate,
    /// `rounds`
    Rounds,
    /// `hear`
    Hear,
}

/// The words of `new-cluster`.
#[derive(Clone, Copy, Debug, PartialEq, Eq)]
pub struct NewClusterWords<'a> {
    /// The number of members.
    pub n: u16,
    /// The number of liars to tolerate.
    pub t: u16,
    /// The number of questions.
    pub questions: u16,
    /// The cluster's number.
    pub cluster: u32,
    /// The folder of the files.
    pub folder: &'a str,
    /// The members' hosts, with commas between them.
    pub hosts: Option<&'a str>,
    /// The port of the first member.
    pub port: Option<u16>,
    /// The host at which members listen to clients.
    pub desk: Option<&'a str>,
    /// The members run a chain of epochs.
    pub epochs: bool,
}

/// The words of `init`.
#[derive(Clone, Copy, Debug, PartialEq, Eq)]
pub struct InitWords<'a> {
    /// The file of the settings.
    pub settings: &'a str,
}

/// The words of `check`.
#[derive(Clone, Copy, Debug, PartialEq, Eq)]
pub struct CheckWords<'a> {
    /// The file of the settings.
    pub settings: &'a str,
    /// Objects of JSON are printed.
    pub json: bool,
}

/// The words of `run`.
#[derive(Clone, Copy, Debug, PartialEq, Eq)]
pub struct RunWords<'a> {
    /// The file of the settings.
    pub settings: &'a str,
    /// The member runs on when its standard input ends.
    pub stay: bool,
    /// Its events are told on the standard error.
    pub log: bool,
    /// They are told as objects of JSON.
    pub log_json: bool,
    /// Any host may speak for any member.
    pub any_host: bool,
}

/// The words of `propose`.
#[derive(Clone, Copy, Debug, PartialEq, Eq)]
pub struct ProposeWords<'a> {
    /// The address of a desk; for all members, the file of a client's settings.
    pub address: &'a str,
    /// The question.
    pub question: u16,
    /// The bit, as it was given.
    pub bit: u8,
    /// All members are meant.
    pub all: bool,
    /// The time to wait, as it was given.
    pub timeout: Option<&'a str>,
}

/// The words of `ask`.
#[derive(Clone, Copy, Debug, PartialEq, Eq)]
pub struct AskWords<'a> {
    /// The address of a desk; for all members, the file of a client's settings.
    pub address: &'a str,
    /// The question.
    pub question: u16,
    /// All members are meant.
    pub all: bool,
    /// The decision is waited for.
    pub wait: bool,
    /// Objects of JSON are printed.
    pub json: bool,
    /// The time to wait, as it was given.
    pub timeout: Option<&'a str>,
}

/// The words of `decide`.
#[derive(Clone, Copy, Debug, PartialEq, Eq)]
pub struct DecideWords<'a> {
    /// The file of a client's settings.
    pub file: &'a str,
    /// The question.
    pub question: u16,
    /// The bit, as it was given.
    pub bit: u8,
    /// Objects of JSON are printed.
    pub json: bool,
    /// The time to wait, as it was given.
    pub timeout: Option<&'a str>,
}

/// The words of `status`.
#[derive(Clone, Copy, Debug, PartialEq, Eq)]
pub struct StatusWords<'a> {
    /// The address of a desk; for all members, the file of a client's settings.
    pub address: &'a str,
    /// All members are meant.
    pub all: bool,
    /// The links are asked for.
    pub links: bool,
    /// The links have to be as many as a member needs.
    pub ready: bool,
    /// Objects of JSON are printed.
    pub json: bool,
    /// The time to wait, as it was given.
    pub timeout: Option<&'a str>,
    /// The question whose state is asked for.
    pub question: Option<u16>,
}

/// The words of `transcript`.
#[derive(Clone, Copy, Debug, PartialEq, Eq)]
pub struct TranscriptWords<'a> {
    /// The address of a desk; for all members, the file of a client's settings.
    pub address: &'a str,
    /// The question.
    pub question: u16,
    /// All members are meant.
    pub all: bool,
    /// The time to wait, as it was given.
    pub timeout: Option<&'a str>,
}

/// The words of `audit`. Each of its two forms wants values that the other one doesn't take, so any
/// of them may be missing.
#[derive(Clone, Copy, Debug, PartialEq, Eq)]
pub struct AuditWords<'a> {
    /// The file of a transcript; for all members, that of a client's settings.
    pub file: &'a str,
    /// The question.
    pub question: Option<u16>,
    /// The transcripts of all members are meant.
    pub all: bool,
    /// The number of members.
    pub n: Option<u16>,
    /// The number of liars to tolerate.
    pub t: Option<u16>,
    /// The number of questions.
    pub questions: Option<u16>,
    /// The time to wait, as it was given.
    pub timeout: Option<&'a str>,
}

/// The words of `gateway`.
#[derive(Clone, Copy, Debug, PartialEq, Eq)]
pub struct GatewayWords<'a> {
    /// The file of a client's settings.
    pub file: &'a str,
    /// The address at which it listens.
    pub listen: Option<&'a str>,
    /// The file of the token that proposals show.
    pub token: Option<&'a str>,
}

/// The words of `epochs`.
#[derive(Clone, Copy, Debug, PartialEq, Eq)]
pub struct EpochsWords<'a> {
    /// The file of a client's settings.
    pub file: &'a str,
    /// Objects of JSON are printed.
    pub json: bool,
    /// The time to wait, as it was given.
    pub timeout: Option<&'a str>,
}

/// The words of `simulate`. Each of its two forms wants values that the other one doesn't take, so
/// any of them may be missing.
#[derive(Clone, Copy, Debug, PartialEq, Eq)]
pub struct SimulateWords<'a> {
    /// The file of the script.
    pub script: Option<&'a str>,
    /// The file of the trace.
    pub trace: Option<&'a str>,
    /// The file of the chart.
    pub chart: Option<&'a str>,
    /// The file of the page.
    pub page: Option<&'a str>,
    /// The question whose events the chart has.
    pub question: Option<u16>,
    /// The member whose events it has.
    pub member: Option<u8>,
    /// The number of its first event.
    pub from: Option<u32>,
    /// The number of its last event.
    pub to: Option<u32>,
    /// Random scripts are run.
    pub forever: bool,
    /// The seed of the first of them.
    pub seed: Option<u32>,
    /// The seconds for which they are run.
    pub seconds: Option<u32>,
}

/// The words of `rounds`.
#[derive(Clone, Copy, Debug, PartialEq, Eq)]
pub struct RoundsWords<'a> {
    /// The number of members.
    pub n: u16,
    /// The number of liars to tolerate.
    pub t: u16,
    /// The number of members that lie.
    pub liars: Option<u16>,
    /// The name of an order of the messages.
    pub order: Option<&'a str>,
    /// The number of runs, each with a seed of its own.
    pub seeds: Option<u32>,
    /// The file of the chart.
    pub chart: Option<&'a str>,
}

/// The words of `dump`.
#[derive(Clone, Copy, Debug, PartialEq, Eq)]
pub struct DumpWords<'a> {
    /// The file of the journal.
    pub journal: &'a str,
    /// Only the number of its records is printed.
    pub count: bool,
    /// Objects of JSON are printed.
    pub json: bool,
}

/// The words of `migrate`.
#[derive(Clone, Copy, Debug, PartialEq, Eq)]
pub struct MigrateWords<'a> {
    /// The file of a journal of version 1.
    pub old: &'a str,
    /// The file of the new journal.
    pub new: &'a str,
}

/// The words of `hear`.
#[derive(Clone, Copy, Debug, PartialEq, Eq)]
pub struct HearWords {
    /// The number of members.
    pub n: u16,
    /// The number of liars to tolerate.
    pub t: u16,
    /// The number of questions.
    pub questions: u16,
    /// The member that hears.
    pub me: u8,
}

/// A task of the program: a command, and the values of its words.
#[derive(Clone, Copy, Debug, PartialEq, Eq)]
pub enum Task<'a> {
    /// Writes the settings of each member of a new cluster, and a client's.
    NewCluster(NewClusterWords<'a>),
    /// Makes a member's journal.
    Init(InitWords<'a>),
    /// Tells what a member's settings say, and whether it would start.
    Check(CheckWords<'a>),
    /// Runs a member.
    Run(RunWords<'a>),
    /// Proposes a bit to a member, or to all.
    Propose(ProposeWords<'a>),
    /// Asks a member for a decision, or all.
    Ask(AskWords<'a>),
    /// Proposes a bit to all members, and waits for the decision.
    Decide(DecideWords<'a>),
    /// Asks a member how it is, or all.
    Status(StatusWords<'a>),
    /// Fetches a transcript from a member, or from the first of all that has one.
    Transcript(TranscriptWords<'a>),
    /// Tells whether a transcript proves its decision, or those of all members do.
    Audit(AuditWords<'a>),
    /// Serves a cluster over HTTP.
    Gateway(GatewayWords<'a>),
    /// Tells which epochs all members of a chain have closed.
    Epochs(EpochsWords<'a>),
    /// Prints a journal.
    Dump(DumpWords<'a>),
    /// Brings a journal of version 1 over into a new one.
    Migrate(MigrateWords<'a>),
    /// Runs a script, or random ones.
    Simulate(SimulateWords<'a>),
    /// Measures how many rounds decisions take.
    Rounds(RoundsWords<'a>),
    /// Reads streams of frames as a member does, and prints what is due.
    Hear(HearWords),
}

/// A request: the words of the command line, read.
#[derive(Clone, Copy, Debug, PartialEq, Eq)]
pub struct Request<'a> {
    /// The task.
    pub task: Task<'a>,
    /// The first line of a fault alone is printed, without the second one, which names the thing.
    pub quiet: bool,
}
