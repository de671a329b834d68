//! The words of the command line.

ghost use Rattle.command_line.specs.Tasks.{AreQuiet, AskFor, HasFlag, HasNumberOption, Hold, IsAskedFor, AsksForQuiet, Names, SaysQuiet, Words, command_of, name_of, rows_in, words_of};
ghost use Rattle.command_line.specs.Usage.{Builds, address_rule, all_rule, needed_all_rule, as_u16, as_u32, as_u8, ask_app, json_rule, audit_app, audited_rules, decide_app, bare_app, check_app, choice_rules, dump_app, epochs_app, gateway_app, option_rule, flag_rule, last_rule, timeout_rule, hear_app, init_app, migrate_app, new_cluster_app, number_rule, program_app};
ghost use Rattle.command_line.specs.Usage.{forever_rules, propose_app, rounds_app, run_app, simulate_app, size_rules, status_app, transcript_app, desk_rules, quiet_rule, verbose_rule, word_rule, with_rules, with_telling};
ghost use Rattle.clap.specs.Words.{App, FailsBy, Rule, app_of, fault_of, first_of, new_app, rule_of, subcommand_rows_of, with_rule, with_subcommand};
ghost use Rattle.std.specs.Prelude.{◌≡◌, ◌≢◌, ◌↔◌, IfOk, IfSome, IsNone, IsTrue, Some, codes, map, option_map, ℕ};
ghost use Rattle.command_line.specs.declared.words.Command.{Command};
ghost use Rattle.command_line.specs.declared.words.Command.TheVariants as commands;
ghost use Rattle.command_line.specs.declared.words.Task.{Task};
ghost use Rattle.command_line.specs.declared.words.NewClusterWords.{NewClusterWords};
ghost use Rattle.command_line.specs.declared.words.InitWords.{InitWords};
ghost use Rattle.command_line.specs.declared.words.CheckWords.{CheckWords};
ghost use Rattle.command_line.specs.declared.words.RunWords.{RunWords};
ghost use Rattle.command_line.specs.declared.words.ProposeWords.{ProposeWords};
ghost use Rattle.command_line.specs.declared.words.AskWords.{AskWords};
ghost use Rattle.command_line.specs.declared.words.DecideWords.{DecideWords};
ghost use Rattle.command_line.specs.declared.words.StatusWords.{StatusWords};
ghost use Rattle.command_line.specs.declared.words.TranscriptWords.{TranscriptWords};
ghost use Rattle.command_line.specs.declared.words.AuditWords.{AuditWords};
ghost use Rattle.command_line.specs.declared.words.GatewayWords.{GatewayWords};
ghost use Rattle.command_line.specs.declared.words.EpochsWords.{EpochsWords};
ghost use Rattle.command_line.specs.declared.words.DumpWords.{DumpWords};
ghost use Rattle.command_line.specs.declared.words.MigrateWords.{MigrateWords};
ghost use Rattle.command_line.specs.declared.words.SimulateWords.{SimulateWords};
ghost use Rattle.command_line.specs.declared.words.RoundsWords.{RoundsWords};
ghost use Rattle.command_line.specs.declared.words.HearWords.{HearWords};

use crate::words::{
    AskWords, AuditWords, CheckWords, Command, DecideWords, DumpWords, EpochsWords, GatewayWords,
    HearWords, InitWords, MigrateWords, NewClusterWords, ProposeWords, Request, RoundsWords,
    RunWords, SimulateWords, StatusWords, Task, TranscriptWords,
};
use clap::{Arg, ArgAction, ArgMatches, Error, value_parser};
use std::alloc::{AllocError, Global};
use std::convert::AsStr;

/// Returns what the words ask for, the program's name first among them. An `Err` is to be printed:
/// it is a fault of the words, the help or the version.
pub fn command<'a, S: AsStr>(alloc: Global, words: &'a [S]) -> Result<Request<'a>, Error>
    ensures asks { IfOk result (λ order. AskFor (map S.text words.entry.now) order.task) }
    ensures quiet { IfOk result (λ order. AreQuiet (map S.text words.entry.now) order.quiet) }
    ensures faults { FailsBy (fault_of program_app (map S.text words.entry.now)) result }
{
    let matches = program(alloc)?.try_get_matches_from(words)?;
    let quiet = is_quiet(&matches);
    match task_of(&matches) {
        Some(task) => Ok(Request { task, quiet }),
        None => unreachable!(),
    }
}

/// Returns `true` if `--quiet` was given, before the command or behind it.
fn is_quiet(matches: &ArgMatches<'_>) -> bool
    ensures { AsksForQuiet (rows_in matches.now) (subcommand_rows_of matches.now) result }
{
    flag_of(matches, "quiet") || is_quiet_below(matches)
}

/// Returns `true` if `--quiet` was given behind the command.
fn is_quiet_below(matches: &ArgMatches<'_>) -> bool
    ensures { IsTrue result ↔ SaysQuiet (subcommand_rows_of matches.now) }
{
    match matches.subcommand() {
        Some((_, options)) => flag_of(options, "quiet"),
        None => false,
    }
}

/// The task of the command that was given.
fn task_of<'a>(matches: &ArgMatches<'a>) -> Option<Task<'a>>
    ensures some { IfSome result (IsAskedFor (subcommand_rows_of matches.now)) }
    ensures none { IsNone result → (task : Task) →
        IsAskedFor (subcommand_rows_of matches.now) task → ⊥ }
{
    let (name, options) = matches.subcommand()?;
    named_task(name, options)
}

/// Returns the task of the command of that name.
fn named_task<'a>(name: &str, options: &ArgMatches<'a>) -> Option<Task<'a>>
    ensures some { IfSome result (Names name.now (rows_in options.now)) }
    ensures none { IsNone result → (task : Task) → Names name.now (rows_in options.now) task → ⊥ }
{
    task_for(command_named(name)?, options)
}

/// Returns the task of the command, each of whose values the parser has demanded.
fn task_for<'a>(command: Command, options: &ArgMatches<'a>) -> Option<Task<'a>>
    ensures command { IfSome result (λ task. command_of task ≡ command) }
    ensures some { IfSome result
        (λ task. Hold (command_of task) (rows_in options.now) (words_of task)) }
    ensures none { IsNone result → (words : Words command) →
        Hold command (rows_in options.now) words → ⊥ }
{
    match command {
        Command::NewCluster => Some(Task::NewCluster(new_cluster_of(options)?)),
        Command::Init => Some(Task::Init(init_of(options)?)),
        Command::Check => Some(Task::Check(check_of(options)?)),
        Command::Run => Some(Task::Run(run_of(options)?)),
        Command::Propose => Some(Task::Propose(propose_of(options)?)),
        Command::Ask => Some(Task::Ask(ask_of(options)?)),
        Command::Decide => Some(Task::Decide(decide_of(options)?)),
        Command::Status => Some(Task::Status(status_of(options)?)),
        Command::Transcript => Some(Task::Transcript(transcript_of(options)?)),
        Command::Audit => Some(Task::Audit(audit_of(options)?)),
        Command::Gateway => Some(Task::Gateway(gateway_of(options)?)),
        Command::Epochs => Some(Task::Epochs(epochs_of(options)?)),
        Command::Dump => Some(Task::Dump(dump_of(options)?)),
        Command::Migrate => Some(Task::Migrate(migrate_of(options)?)),
        Command::Simulate => Some(Task::Simulate(simulate_of(options)?)),
        Command::Rounds => Some(Task::Rounds(rounds_of(options)?)),
        Command::Hear => Some(Task::Hear(hear_of(options)?)),
    }
}

/// The values of `new-cluster`'s words.
fn new_cluster_of<'a>(options: &ArgMatches<'a>) -> Option<NewClusterWords<'a>>
    ensures some { IfSome result (Hold commands.NewCluster (rows_in options.now)) }
    ensures none { IsNone result → (words : NewClusterWords) →
        Hold commands.NewCluster (rows_in options.now) words → ⊥ }
{
    let n = u16_of(options, "n")?;
    let t = u16_of(options, "t")?;
    let questions = u16_of(options, "questions")?;
    let cluster = u32_of(options, "cluster")?;
    let folder = text_of(options, "folder")?;
    let hosts = text_of(options, "hosts");
    let port = u16_of(options, "port");
    let desk = text_of(options, "desk");
    let epochs = flag_of(options, "epochs");
    Some(NewClusterWords {
        n,
        t,
        questions,
        cluster,
        folder,
        hosts,
        port,
        desk,
        epochs,
    })
}

/// The value of `init`'s word.
fn init_of<'a>(options: &ArgMatches<'a>) -> Option<InitWords<'a>>
    ensures some { IfSome result (Hold commands.Init (rows_in options.now)) }
    ensures none { IsNone result → (words : InitWords) →
        Hold commands.Init (rows_in options.now) words → ⊥ }
{
    Some(InitWords {
        settings: text_of(options, "settings")?,
    })
}

/// The values of `check`'s words.
fn check_of<'a>(options: &ArgMatches<'a>) -> Option<CheckWords<'a>>
    ensures some { IfSome result (Hold commands.Check (rows_in options.now)) }
    ensures none { IsNone result → (words : CheckWords) →
        Hold commands.Check (rows_in options.now) words → ⊥ }
{
    Some(CheckWords {
        settings: text_of(options, "settings")?,
        json: flag_of(options, "json"),
    })
}

/// The values of `run`'s words.
fn run_of<'a>(options: &ArgMatches<'a>) -> Option<RunWords<'a>>
    ensures some { IfSome result (Hold commands.Run (rows_in options.now)) }
    ensures none { IsNone result → (words : RunWords) →
        Hold commands.Run (rows_in options.now) words → ⊥ }
{
    Some(RunWords {
        settings: text_of(options, "settings")?,
        stay: flag_of(options, "stay"),
        log: flag_of(options, "log"),
        log_json: flag_of(options, "log-json"),
        any_host: flag_of(options, "any-host"),
    })
}

/// The values of `propose`'s words.
fn propose_of<'a>(options: &ArgMatches<'a>) -> Option<ProposeWords<'a>>
    ensures some { IfSome result (Hold commands.Propose (rows_in options.now)) }
    ensures none { IsNone result → (words : ProposeWords) →
        Hold commands.Propose (rows_in options.now) words → ⊥ }
{
    let to_all = flag_of(options, "all");
    Some(ProposeWords {
        address: text_of(options, "address")?,
        question: u16_of(options, "question")?,
        bit: u8_of(options, "bit")?,
        all: to_all,
        timeout: text_of(options, "timeout"),
    })
}

/// The values of `ask`'s words.
fn ask_of<'a>(options: &ArgMatches<'a>) -> Option<AskWords<'a>>
    ensures some { IfSome result (Hold commands.Ask (rows_in options.now)) }
    ensures none { IsNone result → (words : AskWords) →
        Hold commands.Ask (rows_in options.now) words → ⊥ }
{
    let all = flag_of(options, "all");
    Some(AskWords {
        address: text_of(options, "address")?,
        question: u16_of(options, "question")?,
        all,
        wait: flag_of(options, "wait"),
        json: flag_of(options, "json"),
        timeout: text_of(options, "timeout"),
    })
}

/// The values of `decide`'s words.
fn decide_of<'a>(options: &ArgMatches<'a>) -> Option<DecideWords<'a>>
    ensures some { IfSome result (Hold commands.Decide (rows_in options.now)) }
    ensures none { IsNone result → (words : DecideWords) →
        Hold commands.Decide (rows_in options.now) words → ⊥ }
{
    Some(DecideWords {
        file: text_of(options, "file")?,
        question: u16_of(options, "question")?,
        bit: u8_of(options, "bit")?,
        json: flag_of(options, "json"),
        timeout: text_of(options, "timeout"),
    })
}

/// The values of `status`'s words.
fn status_of<'a>(options: &ArgMatches<'a>) -> Option<StatusWords<'a>>
    ensures some { IfSome result (Hold commands.Status (rows_in options.now)) }
    ensures none { IsNone result → (words : StatusWords) →
        Hold commands.Status (rows_in options.now) words → ⊥ }
{
    Some(StatusWords {
        address: text_of(options, "address")?,
        all: flag_of(options, "all"),
        links: flag_of(options, "links"),
        ready: flag_of(options, "ready"),
        json: flag_of(options, "json"),
        timeout: text_of(options, "timeout"),
        question: u16_of(options, "question"),
    })
}

/// The values of `transcript`'s words.
fn transcript_of<'a>(options: &ArgMatches<'a>) -> Option<TranscriptWords<'a>>
    ensures some { IfSome result (Hold commands.Transcript (rows_in options.now)) }
    ensures none { IsNone result → (words : TranscriptWords) →
        Hold commands.Transcript (rows_in options.now) words → ⊥ }
{
    Some(TranscriptWords {
        address: text_of(options, "address")?,
        question: u16_of(options, "question")?,
        all: flag_of(options, "all"),
        timeout: text_of(options, "timeout"),
    })
}

/// The values of `audit`'s words.
fn audit_of<'a>(options: &ArgMatches<'a>) -> Option<AuditWords<'a>>
    ensures some { IfSome result (Hold commands.Audit (rows_in options.now)) }
    ensures none { IsNone result → (words : AuditWords) →
        Hold commands.Audit (rows_in options.now) words → ⊥ }
{
    Some(AuditWords {
        file: text_of(options, "file")?,
        question: u16_of(options, "question"),
        all: flag_of(options, "all"),
        n: u16_of(options, "n"),
        t: u16_of(options, "t"),
        questions: u16_of(options, "questions"),
        timeout: text_of(options, "timeout"),
    })
}

/// The values of `gateway`'s words.
fn gateway_of<'a>(options: &ArgMatches<'a>) -> Option<GatewayWords<'a>>
    ensures some { IfSome result (Hold commands.Gateway (rows_in options.now)) }
    ensures none { IsNone result → (words : GatewayWords) →
        Hold commands.Gateway (rows_in options.now) words → ⊥ }
{
    Some(GatewayWords {
        file: text_of(options, "file")?,
        listen: text_of(options, "listen"),
        token: text_of(options, "token"),
    })
}

/// The values of `epochs`'s words.
fn epochs_of<'a>(options: &ArgMatches<'a>) -> Option<EpochsWords<'a>>
    ensures some { IfSome result (Hold commands.Epochs (rows_in options.now)) }
    ensures none { IsNone result → (words : EpochsWords) →
        Hold commands.Epochs (rows_in options.now) words → ⊥ }
{
    Some(EpochsWords {
        file: text_of(options, "file")?,
        json: flag_of(options, "json"),
        timeout: text_of(options, "timeout"),
    })
}

/// The values of `dump`'s words.
fn dump_of<'a>(options: &ArgMatches<'a>) -> Option<DumpWords<'a>>
    ensures some { IfSome result (Hold commands.Dump (rows_in options.now)) }
    ensures none { IsNone result → (words : DumpWords) →
        Hold commands.Dump (rows_in options.now) words → ⊥ }
{
    Some(DumpWords {
        journal: text_of(options, "journal")?,
        count: flag_of(options, "count"),
        json: flag_of(options, "json"),
    })
}

/// The values of `migrate`'s words.
fn migrate_of<'a>(options: &ArgMatches<'a>) -> Option<MigrateWords<'a>>
    ensures some { IfSome result (Hold commands.Migrate (rows_in options.now)) }
    ensures none { IsNone result → (words : MigrateWords) →
        Hold commands.Migrate (rows_in options.now) words → ⊥ }
{
    Some(MigrateWords {
        old: text_of(options, "old")?,
        new: text_of(options, "new")?,
    })
}

/// The values of `simulate`'s words.
fn simulate_of<'a>(options: &ArgMatches<'a>) -> Option<SimulateWords<'a>>
    ensures some { IfSome result (Hold commands.Simulate (rows_in options.now)) }
    ensures none { IsNone result → (words : SimulateWords) →
        Hold commands.Simulate (rows_in options.now) words → ⊥ }
{
    Some(SimulateWords {
        script: text_of(options, "script"),
        trace: text_of(options, "trace"),
        chart: text_of(options, "chart"),
        page: text_of(options, "page"),
        question: u16_of(options, "question"),
        member: u8_of(options, "member"),
        from: u32_of(options, "from"),
        to: u32_of(options, "to"),
        forever: flag_of(options, "forever"),
        seed: u32_of(options, "seed"),
        seconds: u32_of(options, "seconds"),
    })
}

/// Returns `true` if the flag was given.
fn flag_of(options: &ArgMatches<'_>, id: &str) -> bool
    ensures { HasFlag id.now (rows_in options.now) result }
{
    options.get_one::<bool>(id).unwrap_or(false)
}

/// The values of `rounds`'s options.
fn rounds_of<'a>(options: &ArgMatches<'a>) -> Option<RoundsWords<'a>>
    ensures some { IfSome result (Hold commands.Rounds (rows_in options.now)) }
    ensures none { IsNone result → (words : RoundsWords) →
        Hold commands.Rounds (rows_in options.now) words → ⊥ }
{
    Some(RoundsWords {
        n: u16_of(options, "n")?,
        t: u16_of(options, "t")?,
        liars: u16_of(options, "liars"),
        order: text_of(options, "order"),
        seeds: u32_of(options, "seeds"),
        chart: text_of(options, "chart"),
    })
}

/// The text that was given for the id.
fn text_of<'a>(options: &ArgMatches<'a>, id: &str) -> Option<&'a str>
    ensures { option_map (λ text. text.now) result ≡ first_of id.now (rows_in options.now) }
{
    options.get_str(id)
}

/// The number that was given for the id, of 32 bits.
fn u32_of(options: &ArgMatches<'_>, id: &str) -> Option<u32>
    ensures { (n : ℕ) → (result ≡ Some n) ↔ HasNumberOption 32 id.now (rows_in options.now) n }
{
    options.get_one::<u32>(id)
}

/// The values of `hear`'s options, each of which the parser has demanded.
fn hear_of(options: &ArgMatches<'_>) -> Option<HearWords>
    ensures some { IfSome result (Hold commands.Hear (rows_in options.now)) }
    ensures none { IsNone result → (words : HearWords) →
        Hold commands.Hear (rows_in options.now) words → ⊥ }
{
    Some(HearWords {
        n: u16_of(options, "n")?,
        t: u16_of(options, "t")?,
        questions: u16_of(options, "questions")?,
        me: u8_of(options, "me")?,
    })
}

/// The number that was given for the id.
fn u16_of(options: &ArgMatches<'_>, id: &str) -> Option<u16>
    ensures { (n : ℕ) → (result ≡ Some n) ↔ HasNumberOption 16 id.now (rows_in options.now) n }
{
    options.get_one::<u16>(id)
}

/// The number that was given for the id, of a byte.
fn u8_of(options: &ArgMatches<'_>, id: &str) -> Option<u8>
    ensures { (n : ℕ) → (result ≡ Some n) ↔ HasNumberOption 8 id.now (rows_in options.now) n }
{
    options.get_one::<u8>(id)
}

/// Returns the command of that name, if there is one.
fn command_named(name: &str) -> Option<Command>
    ensures some { IfSome result (λ command. name.now ≡ name_of command) }
    ensures none { IsNone result → (command : Command) → name.now ≢ name_of command }
{
    match name {
        "new-cluster" => Some(Command::NewCluster),
        "init" => Some(Command::Init),
        "check" => Some(Command::Check),
        "run" => Some(Command::Run),
        "propose" => Some(Command::Propose),
        "ask" => Some(Command::Ask),
        "decide" => Some(Command::Decide),
        "status" => Some(Command::Status),
        "transcript" => Some(Command::Transcript),
        "audit" => Some(Command::Audit),
        "gateway" => Some(Command::Gateway),
        "epochs" => Some(Command::Epochs),
        "dump" => Some(Command::Dump),
        "migrate" => Some(Command::Migrate),
        "simulate" => Some(Command::Simulate),
        "rounds" => Some(Command::Rounds),
        "hear" => Some(Command::Hear),
        _ => None,
    }
}

/// A required word, such as `SETTINGS`.
fn word<'a>(alloc: Global, id: &'a str, value: &'a str, help: &'a str) -> Arg<'a>
    ensures { rule_of result ≡ word_rule id.now }
{
    Arg::new(alloc, id)
        .value_name(value)
        .required(true)
        .help(help)
}

/// A required number of that name, such as `--n 4`.
fn number<'a>(alloc: Global, name: &'a str, value: &'a str, help: &'a str) -> Arg<'a>
    ensures { rule_of result ≡ number_rule name.now }
{
    word(alloc, name, value, help).long(name)
}

/// A word that may be left out, such as `HOSTS`.
fn last_word<'a>(alloc: Global, id: &'a str, value: &'a str, help: &'a str) -> Arg<'a>
    ensures { rule_of result ≡ last_rule id.now }
{
    Arg::new(alloc, id).value_name(value).help(help)
}

/// An option of that name with a value, such as `--timeout S`.
fn option<'a>(alloc: Global, name: &'a str, value: &'a str, help: &'a str) -> Arg<'a>
    ensures { rule_of result ≡ option_rule name.now }
{
    last_word(alloc, name, value, help).long(name)
}

/// An option of that name with the path of a file, such as `--trace FILE`.
fn file<'a>(alloc: Global, name: &'a str, help: &'a str) -> Arg<'a>
    ensures { rule_of result ≡ option_rule name.now }
{
    option(alloc, name, "FILE", help)
}

/// An option of that name with no value, such as `--stay`.
fn flag<'a>(alloc: Global, name: &'a str, help: &'a str) -> Arg<'a>
    ensures { rule_of result ≡ flag_rule name.now }
{
    Arg::new(alloc, name)
        .long(name)
        .action(ArgAction::SetTrue)
        .help(help)
}

/// The option `--all`, by which a command is for every member.
fn all<'a>(alloc: Global, help: &'a str) -> Arg<'a>
    ensures { rule_of result ≡ all_rule }
{
    flag(alloc, "all", help)
}

/// The same, of a command that is for nothing else.
fn needed_all<'a>(alloc: Global, help: &'a str) -> Arg<'a>
    ensures { rule_of result ≡ needed_all_rule }
{
    all(alloc, help).required(true)
}

/// The option `--json`, by which a command prints objects.
fn json<'a>(alloc: Global) -> Arg<'a>
    ensures { rule_of result ≡ json_rule }
{
    flag(alloc, "json", "Print JSON, one object per line")
}

/// The option `--quiet`, which may stand before the command and behind it.
fn quiet<'a>(alloc: Global) -> Arg<'a>
    ensures { rule_of result ≡ quiet_rule }
{
    let help = "Print only the first line of an error message";
    flag(alloc, "quiet", help)
}

/// The option `--verbose`, which asked for the second line when that wasn't the rule. It is taken
/// where it stood then, and changes nothing.
fn verbose<'a>(alloc: Global) -> Arg<'a>
    ensures { rule_of result ≡ verbose_rule }
{
    flag(alloc, "verbose", "Changes nothing").hide(true)
}

/// The argument with a number of 16 bits for its value.
fn of_u16(arg: Arg<'_>) -> Arg<'_>
    ensures { rule_of result ≡ as_u16 (rule_of arg.entry) }
{
    arg.value_parser(value_parser!(u16))
}

/// The argument with a number of 32 bits for its value.
fn of_u32(arg: Arg<'_>) -> Arg<'_>
    ensures { rule_of result ≡ as_u32 (rule_of arg.entry) }
{
    arg.value_parser(value_parser!(u32))
}

/// The argument with a number of 8 bits for its value.
fn of_u8(arg: Arg<'_>) -> Arg<'_>
    ensures { rule_of result ≡ as_u8 (rule_of arg.entry) }
{
    arg.value_parser(value_parser!(u8))
}

/// A command that is being built, or want of memory for it. It is handed on as it is, so that no
/// builder has a way out of its own at each step.
type Built<'a> = Result<clap::Command<'a>, AllocError>;

/// A command of that name.
fn named<'a>(alloc: Global, name: &'a str, about: &'a str, examples: &'a str) -> Built<'a>
    ensures { Builds (new_app name.now) result }
{
    Ok(
        clap::Command::new(alloc, name)
            .about(about)
            .after_help(examples),
    )
}

/// The command with one word or option more.
fn with_arg<'a>(command: Built<'a>, arg: Arg<'a>) -> Built<'a>
    ensures { (app : App) (rule : Rule) → Builds app command.entry → rule_of arg.entry ≡ rule →
        IsTrue rule.is_simple → Builds (with_rule app rule) result }
{
    command?.arg(arg)
}

/// The command with the options that say how much of a fault is told.
fn with_telling<'a>(alloc: Global, command: Built<'a>) -> Built<'a>
    ensures { (app : App) → Builds app command.entry → Builds (with_telling app) result }
{
    let command = with_arg(command, quiet(alloc));
    with_arg(command, verbose(alloc))
}

/// The options that name a size.
fn with_size<'a>(alloc: Global, command: Built<'a>) -> Built<'a>
    ensures { (app : App) → Builds app command.entry → Builds (with_rules app size_rules) result }
{
    let n = number(alloc, "n", "N", "Number of members (1 to 64)");
    let liars = "Number of lying members to tolerate (N > 3T)";
    let t = number(alloc, "t", "T", liars);
    let count = "Number of questions (1 to 4096)";
    let questions = number(alloc, "questions", "Q", count);
    let command = with_arg(command, of_u16(n));
    let command = with_arg(command, of_u16(t));
    with_arg(command, of_u16(questions))
}

fn hear<'a>(alloc: Global) -> Built<'a>
    ensures { Builds hear_app result }
{
    let about = "Feed frames to reliable broadcast and print its answers";
    let examples =
        "Each line of standard input is a member's number and some bytes of its stream, in hexadecimal. Prints what member M answers to each.\n\nExample:\n  echo '0 00080301000000010101' | bracha hear --n 4 --t 1 --questions 1 --me 1";
    let me = number(alloc, "me", "M", "Number of the member that hears, below N");
    let command = with_size(alloc, named(alloc, "hear", about, examples));
    with_arg(command, of_u8(me))
}

fn new_cluster<'a>(alloc: Global) -> Built<'a>
    ensures { Builds new_cluster_app result }
{
    let about = "Write the settings files of a new cluster";
    let examples =
        "Creates FOLDER if it is missing, and writes member-0.toml to member-(N-1).toml, each with a random seed and readable only by its owner, and client.toml, which contains no secret. Writes nothing if one of them exists. Member M accepts links at port FIRST + M and clients at port FIRST + 10 + M, or FIRST + 100 + M if N is above 10. Desks are at 127.0.0.1 unless you say otherwise: whoever reaches a desk can propose for its member.\n\nExamples (four members on this machine; on four hosts):\n  bracha new-cluster --n 4 --t 1 --questions 64 --cluster 7 mine\n  bracha new-cluster --n 4 --t 1 --questions 64 --cluster 7 mine 10.0.0.1,10.0.0.2,10.0.0.3,10.0.0.4";
    let help = "Number of the cluster, different for each cluster";
    let cluster = number(alloc, "cluster", "C", help);
    let help = "Folder to write the files to; created if it is missing";
    let folder = word(alloc, "folder", "FOLDER", help);
    let help = "Hosts of the N members: localhost or IPv4 addresses [default: 127.0.0.1 for all]";
    let hosts = last_word(alloc, "hosts", "HOST,HOST,..", help);
    let command = with_size(alloc, named(alloc, "new-cluster", about, examples));
    let command = with_arg(command, of_u32(cluster));
    let help = "First port of the links [default: 7100]";
    let port = option(alloc, "port", "FIRST", help);
    let help = "Host of all desks, or `links`: each at its links' host [default: 127.0.0.1]";
    let desk = option(alloc, "desk", "HOST", help);
    let command = with_arg(command, folder);
    let command = with_arg(command, hosts);
    let command = with_arg(command, of_u16(port));
    let command = with_arg(command, desk);
    let epochs = "Questions without end: each member runs a chain of clusters, numbered from C on";
    with_arg(command, flag(alloc, "epochs", epochs))
}

fn init<'a>(alloc: Global) -> Built<'a>
    ensures { Builds init_app result }
{
    let about = "Create a member's empty journal";
    let examples =
        "Run this once, for a new member. The journal must be missing or empty. A member that has lost its journal must not be given a new one.\n\nExample:\n  bracha init member-1.toml";
    let help = "Settings file, which names the journal";
    let command = named(alloc, "init", about, examples);
    with_arg(command, word(alloc, "settings", "SETTINGS", help))
}

fn check<'a>(alloc: Global) -> Built<'a>
    ensures { Builds check_app result }
{
    let about = "Print a member's settings and how many records its journal has";
    let examples =
        "Exits with 0 if `run` would start, as far as the files and this host's addresses tell. Takes no lock and changes nothing, so you can check a running member. Names keys that it ignores on standard error.\n\nExample:\n  bracha check member-1.toml";
    let help = "Settings file, which names the journal";
    let command = named(alloc, "check", about, examples);
    let command = with_arg(command, word(alloc, "settings", "SETTINGS", help));
    with_arg(command, json(alloc))
}

fn run<'a>(alloc: Global) -> Built<'a>
    ensures { Builds run_app result }
{
    let about = "Run a member";
    let examples =
        "Prints `member M ready` once it listens. Runs until standard input ends; with --stay, until a signal or until the member is stopped (status 1). SIGTERM and SIGINT end it cleanly if it was started with them blocked, as below. You can kill it at any moment and start it again: nothing is lost.\n\nExamples (in a terminal, until Ctrl-D; as a service):\n  bracha run member-1.toml\n  env --block-signal=TERM,INT bracha run --stay --log member-1.toml";
    let help = "Settings file of the member";
    let stay = "Keep running when standard input ends; stop on SIGTERM or SIGINT";
    let log = "Write an event log to standard error";
    let log_json = "Write the log as JSON, one object per line";
    let any_host = "Accept links from any host (unsafe: any host can speak for any member)";
    let command = named(alloc, "run", about, examples);
    let command = with_arg(command, word(alloc, "settings", "SETTINGS", help));
    let command = with_arg(command, flag(alloc, "stay", stay));
    let command = with_arg(command, flag(alloc, "log", log));
    let command = with_arg(command, flag(alloc, "log-json", log_json));
    with_arg(command, flag(alloc, "any-host", any_host))
}

/// The address of a desk.
fn address<'a>(alloc: Global) -> Arg<'a>
    ensures { rule_of result ≡ address_rule }
{
    let help = "Address of the member's desk, HOST:PORT or unix:PATH";
    word(alloc, "address", "ADDRESS", help)
}

/// The option that says how long a member is waited for.
fn with_timeout<'a>(alloc: Global, command: Built<'a>) -> Built<'a>
    ensures { (app : App) → Builds app command.entry → Builds (with_rule app timeout_rule) result }
{
    let help = "Give up after S seconds in all (5, 0.5 or 5s)";
    with_arg(command, option(alloc, "timeout", "S", help))
}

/// The words of a line to a desk: its address and the question.
fn with_desk<'a>(alloc: Global, command: Built<'a>) -> Built<'a>
    ensures { (app : App) → Builds app command.entry → Builds (with_rules app desk_rules) result }
{
    let question = word(alloc, "question", "Q", "Question number, from 0");
    let command = with_arg(command, address(alloc));
    with_arg(command, of_u16(question))
}

fn propose<'a>(alloc: Global) -> Built<'a>
    ensures { Builds propose_app result }
{
    let about = "Propose a bit on a question";
    let examples =
        "Prints OK, or HAVE B if the member has an earlier proposal B, which stands. With --all, ADDRESS is the file client.toml of `new-cluster`, and a line `member M REPLY` is printed for each member.\n\nExamples:\n  bracha propose 127.0.0.1:7111 0 1\n  bracha propose --all client.toml 0 1";
    let bit = word(alloc, "bit", "V", "Bit to propose, 0 or 1");
    let every = "Propose to every member; ADDRESS is the file client.toml";
    let command = with_desk(alloc, named(alloc, "propose", about, examples));
    let command = with_arg(command, of_u8(bit));
    let command = with_arg(command, all(alloc, every));
    with_timeout(alloc, command)
}

fn ask<'a>(alloc: Global) -> Built<'a>
    ensures { Builds ask_app result }
{
    let about = "Print a question's decision, or UNDECIDED";
    let examples =
        "Prints DECIDED B or UNDECIDED. A decision is final, and the same at every correct member. UNDECIDED has status 0, and 1 with --wait or --all.\n\nThe member may be one that lies. With --all, ADDRESS is the file client.toml of `new-cluster`, and a decision is printed only if more than T members report it, of whom one is correct. Standard error names each member that reports something else or doesn't answer.\n\nExamples:\n  bracha ask 127.0.0.1:7111 0\n  bracha ask --wait --timeout 60 127.0.0.1:7111 0\n  bracha ask --all --wait client.toml 0";
    let every =
        "Ask every member, and believe only what more than T of them report; ADDRESS is the file client.toml";
    let wait = "Ask until decided, even if the member isn't up yet; --timeout limits it";
    let command = with_desk(alloc, named(alloc, "ask", about, examples));
    let command = with_arg(command, all(alloc, every));
    let command = with_arg(command, flag(alloc, "wait", wait));
    let command = with_arg(command, json(alloc));
    with_timeout(alloc, command)
}

fn decide<'a>(alloc: Global) -> Built<'a>
    ensures { Builds decide_app result }
{
    let about = "Propose a bit to every member and wait for the decision";
    let examples =
        "Prints DECIDED B once more than T members report B, or UNDECIDED with status 1 when the time is over. A decision may differ from your bit V. Proposes again to members that come back, and so also finishes a question that another client proposed to some of the members. Standard error names each member that reports something else or doesn't answer.\n\nExample:\n  bracha decide --all client.toml 0 1";
    let file = "The file client.toml of `new-cluster`";
    let file = word(alloc, "file", "FILE", file);
    let question = word(alloc, "question", "Q", "Question number, from 0");
    let bit = word(alloc, "bit", "V", "Bit to propose, 0 or 1");
    let every = "Required: a question is decided by every member, not by one";
    let command = with_arg(named(alloc, "decide", about, examples), file);
    let command = with_arg(command, of_u16(question));
    let command = with_arg(command, of_u8(bit));
    let command = with_arg(command, needed_all(alloc, every));
    let command = with_arg(command, json(alloc));
    let limit = "Give up after S seconds in all (5, 0.5 or 5s) [default: 60]";
    with_arg(command, option(alloc, "timeout", "S", limit))
}

fn status<'a>(alloc: Global) -> Built<'a>
    ensures { Builds status_app result }
{
    let about = "Print whether a member is up";
    let examples =
        "Prints UP M D if the member is up: it has made M statements and decided D questions. Prints STOPPED, with status 1, if it is stopped. With --links or --ready, prints LINKS I O N W: of N links, I come in and O go out, and W of both are needed to decide. With --question, prints DECIDED B, OPEN R S (the member is in round R, step S), SPENT (undecided after 32 rounds: it says nothing more of its own) or UNPROPOSED. With --all, ADDRESS is the file client.toml of `new-cluster`, and a line `member M REPLY` is printed for each member; the status is the highest of any.\n\nExamples (is it up; can it decide; are all):\n  bracha status 127.0.0.1:7111\n  bracha status --ready 127.0.0.1:7111\n  bracha status --all client.toml\n\nExample (how far are all on question 7):\n  bracha status --all --question 7 client.toml";
    let every = "Ask every member; ADDRESS is the file client.toml";
    let question = "Print how far the member is on question Q instead; not with --links or --ready";
    let links = "Print how many links come in and go out";
    let ready = "The same, with status 0 only if the links are enough to decide";
    let command = with_arg(named(alloc, "status", about, examples), address(alloc));
    let command = with_arg(command, all(alloc, every));
    let question = option(alloc, "question", "Q", question);
    let command = with_arg(command, of_u16(question));
    let command = with_arg(command, flag(alloc, "links", links));
    let command = with_arg(command, flag(alloc, "ready", ready));
    let command = with_arg(command, json(alloc));
    with_timeout(alloc, command)
}

fn transcript<'a>(alloc: Global) -> Built<'a>
    ensures { Builds transcript_app result }
{
    let about = "Print the statements that prove a decision";
    let examples =
        "Prints `transcript Q bit B count C` and C lines `FROM HEX`, for `bracha audit`. Prints THIN if the member decided before its last start and has not heard a proof since: ask another member. Any reply but a transcript has status 1. With --all, ADDRESS is the file client.toml of `new-cluster`, and the first transcript that is proof is printed; standard error says whose it is.\n\nExamples:\n  bracha transcript 127.0.0.1:7111 0 > decision.txt\n  bracha transcript --all client.toml 0 > decision.txt";
    let every = "Ask every member until one sends a transcript; ADDRESS is the file client.toml";
    let command = with_desk(alloc, named(alloc, "transcript", about, examples));
    let command = with_arg(command, all(alloc, every));
    with_timeout(alloc, command)
}

/// The options that name the size that a transcript in a file is for.
fn with_audited<'a>(alloc: Global, command: Built<'a>) -> Built<'a>
    ensures { (app : App) → Builds app command.entry →
        Builds (with_rules app audited_rules) result }
{
    let n = option(alloc, "n", "N", "Number of members (1 to 64)");
    let liars = "Number of lying members to tolerate (N > 3T)";
    let t = option(alloc, "t", "T", liars);
    let count = "Number of questions (1 to 4096)";
    let questions = option(alloc, "questions", "Q", count);
    let command = with_arg(command, of_u16(n));
    let command = with_arg(command, of_u16(t));
    with_arg(command, of_u16(questions))
}

fn audit<'a>(alloc: Global) -> Built<'a>
    ensures { Builds audit_app result }
{
    let about = "Check whether a transcript proves its decision";
    let examples =
        "Prints yes with status 0, or no with status 1, for a cluster of this size: --n, --t and --questions are required without --all. Transcripts are not signed: `yes` says what follows from the statements, not that they were sent.\n\nWith --all, FILE is the file client.toml of `new-cluster`, which has the size, and Q is a question. Prints yes only if more than T members send a transcript that proves one and the same bit. Standard error says what each member sent.\n\nExamples:\n  bracha audit decision.txt --n 4 --t 1 --questions 64\n  bracha audit --all client.toml 0";
    let help = "Transcript to check; with --all, the file client.toml";
    let file = word(alloc, "file", "FILE", help);
    let question = "With --all: question number, from 0";
    let question = last_word(alloc, "question", "Q", question);
    let every = "Fetch and check the transcripts of every member";
    let command = with_arg(named(alloc, "audit", about, examples), file);
    let command = with_arg(command, of_u16(question));
    let command = with_arg(command, all(alloc, every));
    let command = with_audited(alloc, command);
    with_timeout(alloc, command)
}

fn gateway<'a>(alloc: Global) -> Built<'a>
    ensures { Builds gateway_app result }
{
    let about = "Serve a cluster over HTTP: a page, JSON, events, metrics";
    let examples =
        "Prints `gateway ADDRESS cluster C members N` once it listens. A decision is told only if more than T members report it. Runs until SIGTERM or SIGINT. A proposal must show the token of --token in `Authorization: Bearer`. Without --token anybody may propose if ADDRESS is a loopback address, and nobody if it is another.\n\nExamples (on this machine; for others, with a token):\n  bracha gateway client.toml\n  bracha gateway --listen 10.0.0.1:7180 --token gateway.token client.toml";
    let file = word(
        alloc,
        "file",
        "FILE",
        "The file client.toml of `new-cluster`",
    );
    let listen = option(
        alloc,
        "listen",
        "ADDRESS",
        "Address to listen at, HOST:PORT [default: 127.0.0.1:7180]",
    );
    let token = option(
        alloc,
        "token",
        "FILE",
        "File of the token, one line, that only its owner can read",
    );
    let command = with_arg(named(alloc, "gateway", about, examples), file);
    let command = with_arg(command, listen);
    with_arg(command, token)
}

fn epochs<'a>(alloc: Global) -> Built<'a>
    ensures { Builds epochs_app result }
{
    let about = "Print which epochs of a chain every member has closed";
    let examples =
        "Prints a line `member M closed C newest N` for each member: it has closed all epochs before C, and N is the newest in which it has a proposal or a decision. Then prints `closed C`, with the least C of all: the journals of epochs 0 to C - 1 may be put away, each member's while it is stopped. Prints `closed unknown`, with status 1, unless every member tells its C. This is what the members say: one that lies may tell too high a C of its own, but can't raise the least C above that of a correct member.\n\nExample:\n  bracha epochs client.toml";
    let file = "The file client.toml of `new-cluster --epochs`";
    let file = word(alloc, "file", "FILE", file);
    let command = with_arg(named(alloc, "epochs", about, examples), file);
    let command = with_arg(command, json(alloc));
    let limit = "Give up after S seconds in all (5, 0.5 or 5s) [default: 10]";
    with_arg(command, option(alloc, "timeout", "S", limit))
}

fn dump<'a>(alloc: Global) -> Built<'a>
    ensures { Builds dump_app result }
{
    let about = "Print a journal's header and records";
    let examples =
        "Fails while a member runs on the journal. `bracha check` counts the records of a running member.\n\nExamples:\n  bracha dump member-1.journal\n  bracha dump --count member-1.journal";
    let help = "Journal file";
    let count = "Print only the number of records";
    let command = named(alloc, "dump", about, examples);
    let command = with_arg(command, word(alloc, "journal", "JOURNAL", help));
    let command = with_arg(command, flag(alloc, "count", count));
    with_arg(command, json(alloc))
}

fn migrate<'a>(alloc: Global) -> Built<'a>
    ensures { Builds migrate_app result }
{
    let about = "Convert a journal of version 1 to version 2";
    let examples =
        "Prints `migrated C`, the number of records. Stop the member first, and never run it on OLD again: a member that runs on both journals contradicts itself.\n\nExample:\n  bracha migrate member-1.journal member-1-v2.journal";
    let old = "Journal of version 1, left as it is";
    let new = "File for the new journal, missing or empty";
    let command = named(alloc, "migrate", about, examples);
    let command = with_arg(command, word(alloc, "old", "OLD", old));
    with_arg(command, word(alloc, "new", "NEW", new))
}

/// The options that choose a chart's rows.
fn with_choice<'a>(alloc: Global, command: Built<'a>) -> Built<'a>
    ensures { (app : App) → Builds app command.entry → Builds (with_rules app choice_rules) result }
{
    let question = "Chart only events of this question, and crashes, restarts, fuses and resets";
    let member = "Chart only events that are for this member or come from it";
    let from = "Number of the chart's first event, as --trace counts them";
    let to = "Number of the chart's last event";
    let question = option(alloc, "question", "Q", question);
    let member = option(alloc, "member", "M", member);
    let from = option(alloc, "from", "FIRST", from);
    let to = option(alloc, "to", "LAST", to);
    let command = with_arg(command, of_u16(question));
    let command = with_arg(command, of_u8(member));
    let command = with_arg(command, of_u32(from));
    with_arg(command, of_u32(to))
}

/// The options of a simulation without a script.
fn with_forever<'a>(alloc: Global, command: Built<'a>) -> Built<'a>
    ensures { (app : App) → Builds app command.entry →
        Builds (with_rules app forever_rules) result }
{
    let forever = "Play random scripts, one after another, in place of SCRIPT";
    let seed = "With --forever: seed of the scripts [default: the time]";
    let seconds = "With --forever: stop after N seconds";
    let seed = option(alloc, "seed", "S", seed);
    let seconds = option(alloc, "seconds", "N", seconds);
    let command = with_arg(command, flag(alloc, "forever", forever));
    let command = with_arg(command, of_u32(seed));
    with_arg(command, of_u32(seconds))
}

fn simulate<'a>(alloc: Global) -> Built<'a>
    ensures { Builds simulate_app result }
{
    let about = "Simulate a cluster from a script, or from random ones";
    let examples =
        "Prints every decision, then how many events there were and how many were skipped. If a trace, chart or page goes to standard output, this goes to standard error. With --forever and no script, plays random scripts one after another until stopped, and stops at a run that breaks a promise.\n\nExamples (in the repository):\n  bracha simulate crates/bracha/examples/small.script\n  bracha simulate --chart small.svg crates/bracha/examples/small.script\n  bracha simulate --chart small.svg --member 1 --from 8 --to 20 crates/bracha/examples/small.script\n  bracha simulate --page small.html crates/bracha/examples/small.script\n  bracha simulate --trace - crates/bracha/examples/small.script\n  bracha simulate --forever --seed 1 --seconds 60";
    let trace = "Write a line per event to FILE; - is standard output";
    let chart = "Draw the run as an SVG sequence chart to FILE; - is standard output";
    let page = "Write a page to FILE that plays the run in a browser; - is standard output";
    let command = named(alloc, "simulate", about, examples);
    let script = "Script to run; - is standard input";
    let script = last_word(alloc, "script", "SCRIPT", script);
    let command = with_arg(command, script);
    let command = with_arg(command, file(alloc, "trace", trace));
    let command = with_arg(command, file(alloc, "chart", chart));
    let command = with_arg(command, file(alloc, "page", page));
    let command = with_choice(alloc, command);
    with_forever(alloc, command)
}

fn rounds<'a>(alloc: Global) -> Built<'a>
    ensures { Builds rounds_app result }
{
    let about = "Measure how many rounds decisions take";
    let examples =
        "Simulates one question once per seed, with half of the members proposing 0 and half 1, and prints how many runs took how many rounds.\n\nExamples:\n  bracha rounds --n 4 --t 1\n  bracha rounds --n 16 --t 5 --liars 5 --order adversary --seeds 1000 --chart rounds.svg";
    let n = number(alloc, "n", "N", "Number of members (1 to 64)");
    let tolerated = "Number of lying members to tolerate (N > 3T)";
    let t = number(alloc, "t", "T", tolerated);
    let liars = option(
        alloc,
        "liars",
        "L",
        "Number of members that lie [default: T]",
    );
    let order = "Who chooses the next message: `random`, `adversary` or `links` [default: random]";
    let order = option(alloc, "order", "ORDER", order);
    let seeds = option(
        alloc,
        "seeds",
        "K",
        "Number of runs, one per seed [default: 100]",
    );
    let chart = "Draw the counts as an SVG chart to FILE; - is standard output";
    let command = with_arg(named(alloc, "rounds", about, examples), of_u16(n));
    let command = with_arg(command, of_u16(t));
    let command = with_arg(command, of_u16(liars));
    let command = with_arg(command, order);
    let command = with_arg(command, of_u32(seeds));
    with_arg(command, file(alloc, "chart", chart))
}

/// The program without its commands and options.
fn bare<'a>(alloc: Global) -> Built<'a>
    ensures { Builds bare_app result }
{
    Ok(
        clap::Command::new(alloc, "bracha")
            .version("0.3.0\nwire 1, 2\njournal 2 (migrates 1)")
            .about("Agree on yes-or-no questions while some members lie")
            .subcommand_required(true)
            .arg_required_else_help(true),
    )
}

/// The program with one command more, which takes `--quiet` and `--verbose` as the program does.
fn with_command<'a>(alloc: Global, program: Built<'a>, command: Built<'a>) -> Built<'a>
    ensures { (app below : App) → Builds app program.entry → Builds below command.entry →
        IsTrue below.top.is_plain → Builds (with_subcommand app (with_telling below).top) result }
{
    program?.subcommand(with_telling(alloc, command)?)
}

fn program<'a>(alloc: Global) -> Built<'a>
    ensures { Builds program_app result }
{
    let program = with_telling(alloc, bare(alloc));
    let program = with_command(alloc, program, new_cluster(alloc));
    let program = with_command(alloc, program, init(alloc));
    let program = with_command(alloc, program, check(alloc));
    let program = with_command(alloc, program, run(alloc));
    let program = with_command(alloc, program, propose(alloc));
    let program = with_command(alloc, program, ask(alloc));
    let program = with_command(alloc, program, decide(alloc));
    let program = with_command(alloc, program, status(alloc));
    let program = with_command(alloc, program, transcript(alloc));
    let program = with_command(alloc, program, audit(alloc));
    let program = with_command(alloc, program, gateway(alloc));
    let program = with_command(alloc, program, epochs(alloc));
    let program = with_command(alloc, program, dump(alloc));
    let program = with_command(alloc, program, migrate(alloc));
    let program = with_command(alloc, program, simulate(alloc));
    let program = with_command(alloc, program, rounds(alloc));
    with_command(alloc, program, hear(alloc))
}
