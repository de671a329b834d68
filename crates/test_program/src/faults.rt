//! The texts of faults: `TYPE NAME` answers the text of that fault, and `TYPE from OTHER NAME` that
//! of the fault which another one becomes. A number behind a name is what the fault has. `Fault
//! NAME ..` answers the status with which the program ends for its fault, and what it prints of it.

use commands::{DumpFault, InitFault, SimulateFault, TalkFault};
use hearing::HearFault;
use machine::RunFault;
use member::MemberFault;
use questions::CoreFault;
use script::ScriptFault;
use settings::{Key, SettingsFault};
use sim::SimFault;
use std::alloc::Global;
use std::fmt::Display;
use terms::{Memory, SizeFault};
use test_words::journal_fault;
use troubles::Fault;

/// Plays a row.
pub fn told(alloc: Global, action: &str) -> Option<String> {
    let (kind, rest) = action.split_once(' ').unwrap_or((action, ""));
    match kind {
        "SizeFault" => text_of(alloc, size(rest)),
        "JournalFault" => text_of(alloc, journal_fault(rest)),
        "CoreFault" => text_of(alloc, core(rest)),
        "MemberFault" => text_of(alloc, member(rest)),
        "SimFault" => text_of(alloc, sim(rest)),
        "InitFault" => text_of(alloc, init(rest)),
        "TalkFault" => text_of(alloc, talk(rest)),
        "HearFault" => text_of(alloc, hear(rest)),
        "ScriptFault" => text_of(alloc, script(rest)),
        "DumpFault" => text_of(alloc, dump(rest)),
        "SimulateFault" => text_of(alloc, simulate(rest)),
        "Memory" => text_of(alloc, Some(Memory)),
        "Fault" => ending_of(alloc, &program(alloc, rest)?),
        _ => None,
    }
}

/// The text of a fault.
fn text_of<F: Display + Drop>(alloc: Global, fault: Option<F>) -> Option<String> {
    format!(in alloc; "{}", fault?).ok()
}

/// The fault of a core.
fn core(name: &str) -> Option<CoreFault> {
    match name {
        "NoSuchQuestion" => Some(CoreFault::NoSuchQuestion),
        "NoSuchMember" => Some(CoreFault::NoSuchMember),
        "Memory" => Some(CoreFault::Memory),
        "Failed" => Some(CoreFault::Failed),
        _ => None,
    }
}

/// The fault of a member.
fn member(name: &str) -> Option<MemberFault> {
    match name {
        "Stopped" => Some(MemberFault::Stopped),
        "Device" => Some(MemberFault::Device),
        "Memory" => Some(MemberFault::Memory),
        "JournalFull" => Some(MemberFault::JournalFull),
        "NoSuchQuestion" => Some(MemberFault::NoSuchQuestion),
        "NoSuchMember" => Some(MemberFault::NoSuchMember),
        _ => None,
    }
}

/// The status of a fault of the program, and its text.
fn ending_of(alloc: Global, fault: &Fault) -> Option<String> {
    format!(in alloc; "{} {fault}", fault.status()).ok()
}

/// The fault of the program.
fn program(alloc: Global, words: &str) -> Option<Fault> {
    match words.split_once(' ') {
        Some(("SameFile", path)) => Some(Fault::SameFile(path.to_string(alloc).ok()?)),
        Some((kind, rest)) => becomes(kind, rest),
        None => of_words(words),
    }
}

/// The fault of the program that another one becomes, or that has a place.
fn becomes(kind: &str, rest: &str) -> Option<Fault> {
    match kind {
        "Argument" => Some(Fault::Argument(rest.parse().ok()?)),
        "Size" => Some(Fault::Size(size(rest)?)),
        "Hear" => Some(Fault::Hear(hear(rest)?)),
        "Init" => Some(Fault::Init(init(rest)?)),
        "Dump" => Some(Fault::Dump(dump(rest)?)),
        "Simulate" => Some(Fault::Simulate(simulate(rest)?)),
        "Talk" => Some(Fault::Talk(talk(rest)?)),
        "Run" => Some(Fault::Run(run(rest)?)),
        "Settings" => Some(Fault::Settings(settings(rest)?)),
        "Journal" => Some(Fault::Journal(journal_fault(rest)?)),
        _ => None,
    }
}

/// The fault of `hear`.
fn hear(words: &str) -> Option<HearFault> {
    match words {
        "Me" => Some(HearFault::Me),
        "Stream" => Some(HearFault::Stream),
        "Memory" => Some(HearFault::Memory),
        words => Some(HearFault::Line(line(words)?)),
    }
}

/// The fault of `init`.
fn init(name: &str) -> Option<InitFault> {
    match name {
        "NotEmpty" => Some(InitFault::NotEmpty),
        "Device" => Some(InitFault::Device),
        _ => None,
    }
}

/// The fault of `dump`.
fn dump(words: &str) -> Option<DumpFault> {
    match words {
        "Stream" => Some(DumpFault::Stream),
        "Memory" => Some(DumpFault::Memory),
        words => dump_of(words),
    }
}

/// The fault of `dump` that has another one with it.
fn dump_of(words: &str) -> Option<DumpFault> {
    match words.strip_prefix("from JournalFault ") {
        Some(name) => Some(DumpFault::from(journal_fault(name)?)),
        None => Some(DumpFault::Journal(journal_fault(words.strip_prefix("Journal ")?)?)),
    }
}

/// The fault of `simulate`.
fn simulate(words: &str) -> Option<SimulateFault> {
    match words.split_once(' ') {
        Some((kind, rest)) => simulate_of(kind, rest),
        None => simulate_alone(words),
    }
}

/// The fault of `simulate` that has a number or another one with it.
fn simulate_of(kind: &str, rest: &str) -> Option<SimulateFault> {
    match kind {
        "Line" => Some(SimulateFault::Line(rest.parse().ok()?)),
        "Size" => Some(SimulateFault::Size(size(rest)?)),
        "Sim" => Some(SimulateFault::Sim(sim(rest)?)),
        "from" => simulate_from(rest),
        _ => None,
    }
}

/// The fault of `simulate` that another one becomes.
fn simulate_from(words: &str) -> Option<SimulateFault> {
    match words.split_once(' ')? {
        ("SimFault", name) => Some(SimulateFault::from(sim(name)?)),
        ("ScriptFault", words) => Some(SimulateFault::from(script(words)?)),
        _ => None,
    }
}

/// The fault of a simulation.
fn sim(name: &str) -> Option<SimFault> {
    match name {
        "BadLiars" => Some(SimFault::BadLiars),
        "BadDisks" => Some(SimFault::BadDisks),
        "Device" => Some(SimFault::Device),
        "Memory" => Some(SimFault::Memory),
        "Full" => Some(SimFault::Full),
        _ => None,
    }
}

/// The fault of a script.
fn script(words: &str) -> Option<ScriptFault> {
    match words {
        "Events" => Some(ScriptFault::Events),
        "Memory" => Some(ScriptFault::Memory),
        words => script_of(words),
    }
}

/// The fault of a script that has a number or another one with it.
fn script_of(words: &str) -> Option<ScriptFault> {
    match words.strip_prefix("Size ") {
        Some(name) => Some(ScriptFault::Size(size(name)?)),
        None => Some(ScriptFault::Line(line(words)?)),
    }
}

/// The fault of a size.
fn size(name: &str) -> Option<SizeFault> {
    match name {
        "NoMembers" => Some(SizeFault::NoMembers),
        "TooManyMembers" => Some(SizeFault::TooManyMembers),
        "TooManyLiars" => Some(SizeFault::TooManyLiars),
        "NoQuestions" => Some(SizeFault::NoQuestions),
        "TooManyQuestions" => Some(SizeFault::TooManyQuestions),
        _ => None,
    }
}

/// The number of a line.
fn line(words: &str) -> Option<u64> {
    words.strip_prefix("Line ")?.parse().ok()
}

/// The fault of `simulate` that has nothing with it.
fn simulate_alone(name: &str) -> Option<SimulateFault> {
    match name {
        "Events" => Some(SimulateFault::Events),
        "Stream" => Some(SimulateFault::Stream),
        "Memory" => Some(SimulateFault::Memory),
        _ => None,
    }
}

/// The fault of a client.
fn talk(name: &str) -> Option<TalkFault> {
    match name {
        "NoAnswer" => Some(TalkFault::NoAnswer),
        "Stream" => Some(TalkFault::Stream),
        "Memory" => Some(TalkFault::Memory),
        _ => None,
    }
}

/// The fault of a member that runs.
fn run(name: &str) -> Option<RunFault> {
    match name {
        "Listen" => Some(RunFault::Listen),
        "Stream" => Some(RunFault::Stream),
        "Stopped" => Some(RunFault::Stopped),
        "Forgotten" => Some(RunFault::Forgotten),
        "Torn" => Some(RunFault::Torn),
        "Memory" => Some(RunFault::Memory),
        _ => None,
    }
}

/// The fault of settings.
fn settings(name: &str) -> Option<SettingsFault> {
    match name {
        "Text" => Some(SettingsFault::Text),
        "Cluster" => Some(SettingsFault::Key(Key::Cluster)),
        "Seed" => Some(SettingsFault::Key(Key::Seed)),
        _ => None,
    }
}

/// The fault of the program that has nothing with it.
fn of_words(name: &str) -> Option<Fault> {
    match name {
        "File" => Some(Fault::File),
        "Hosts" => Some(Fault::Hosts),
        "Timeout" => Some(Fault::Timeout),
        "Words" => Some(Fault::Words),
        "Question" => Some(Fault::Question),
        "Member" => Some(Fault::Member),
        "First" => Some(Fault::First),
        "Last" => Some(Fault::Last),
        "Address" => Some(Fault::Address),
        "Trace" => Some(Fault::Trace),
        "Chart" => Some(Fault::Chart),
        "Stream" => Some(Fault::Stream),
        "Memory" => Some(Fault::Memory),
        _ => None,
    }
}
