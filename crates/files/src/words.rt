//! What is told of faults of the words: what is no number, numbers that make no size, a member that
//! there is not, and lines of `hear`.

ghost use Rattle.troubles.specs.declared.fault.Fault.{Fault};
ghost use Rattle.troubles.specs.declared.fault.Fault.TheVariants as ends;
ghost use Rattle.hearing.specs.declared.fault.HearFault.TheVariants as hear;
ghost use Rattle.std.specs.Prelude.{ℕ, ◌≡◌, ◌↔◌, Err, IfErr, IfOk, IfSome, IsErrAnd, Ok, Some, true};
ghost use Rattle.troubles.specs.Troubles.{IsOfMember};
ghost use Rattle.files.specs.Words.{HasPart, IsNumberWords, mark_text, number_text};
ghost use Rattle.terms_prelude.specs.Terms.{SizeFault, new_size, size_fault};

use hearing::HearFault;
use numerals::size_from;
use std::alloc::Global;
use terms::{Size, SizeFault};
use troubles::{Failure, Fault, Whereabouts};

/// Returns the size of these numbers. [`Fault::Size`]: they make none.
pub fn size_of(alloc: Global, n: u16, t: u16, questions: u16) -> Result<Size, Failure>
    ensures ok { IfOk result (λ size. size ≡ new_size n t questions) }
    ensures fault { IfErr result
        (λ failure. (fault : SizeFault) × (size_fault n t questions ≡ Some fault)
        × (failure.fault ≡ ends.Size fault)) }
{
    match size_from(n, t, questions) {
        Ok(size) => Ok(size),
        Err(fault) => Err(size_failure(alloc, n, t, questions, fault)),
    }
}

/// The failure of numbers that make no size: the options, and what has to hold.
fn size_failure(alloc: Global, n: u16, t: u16, questions: u16, fault: SizeFault) -> Failure
    ensures { result.fault ≡ ends.Size fault }
{
    let rule = rule_of(fault);
    match format!(in alloc; "--n {n} --t {t} --questions {questions}") {
        Ok(thing) => Failure::at(
            alloc,
            Fault::Size(fault),
            thing.as_str(),
            Whereabouts::Whole,
            &rule,
        ),
        Err(_) => Failure::from(Fault::Size(fault)),
    }
}

/// Returns what has to hold where it doesn't.
fn rule_of(fault: SizeFault) -> &'static str {
    match fault {
        SizeFault::NoMembers | SizeFault::TooManyMembers => "1 <= n <= 64 has to hold",
        SizeFault::TooManyLiars => "n > 3t has to hold",
        SizeFault::NoQuestions | SizeFault::TooManyQuestions =>
            "1 <= questions <= 4096 has to hold",
    }
}

/// Returns how `hear` as a member `me` of `n` ended, with words for a member that there is not and
/// a line that is none.
pub fn hear_end(alloc: Global, n: u8, me: u8, ended: Result<u8, Fault>) -> Result<u8, Failure>
    ensures done { (status : ℕ) → ended ≡ Ok status → result ≡ Ok status }
    ensures fault { (fault : Fault) → ended ≡ Err fault →
        IsErrAnd result (λ failure. failure.fault ≡ fault) }
    ensures member { ended ≡ Err (ends.Hear hear.Me) →
        IfErr result (λ failure. IfSome failure.trouble (IsOfMember n me)) }
{
    match ended {
        Ok(status) => Ok(status),
        Err(Fault::Hear(fault)) => Err(hear_failure(alloc, n, me, fault)),
        Err(fault) => Err(Failure::from(fault)),
    }
}

/// The failure of `hear` as a member `me` of `n`: of a member that there is not, or a line that is
/// none, with words.
fn hear_failure(alloc: Global, n: u8, me: u8, fault: HearFault) -> Failure
    ensures fault { result.fault ≡ ends.Hear fault }
    ensures member { fault ≡ hear.Me → IfSome result.trouble (IsOfMember n me) }
{
    match fault {
        HearFault::Me => member_failure(alloc, n, me),
        HearFault::Line(line) => line_failure(alloc, line),
        HearFault::Stream => Failure::from(Fault::Hear(HearFault::Stream)),
        HearFault::Memory => Failure::from(Fault::Hear(HearFault::Memory)),
    }
}

/// The failure of a member that there is not.
fn member_failure(alloc: Global, n: u8, me: u8) -> Failure
    ensures fault { result.fault ≡ ends.Hear hear.Me }
    ensures told { IfSome result.trouble (IsOfMember n me) }
{
    let fault = Fault::Hear(HearFault::Me);
    let Ok(thing) = format!(in alloc; "--me {me}") else {
        return Failure::from(fault);
    };
    let Ok(words) = format!(in alloc; "must be below n, which is {n}") else {
        return Failure::from(fault);
    };
    Failure::at(alloc, fault, thing.as_str(), Whereabouts::Whole, &words)
}

/// The failure of a line of `hear`'s input.
fn line_failure(alloc: Global, line: u64) -> Failure
    ensures { result.fault ≡ ends.Hear (hear.Line line) }
{
    let fault = Fault::Hear(HearFault::Line(line));
    let words =
        "must be SENDER HEX: a member below n, a space, and an even count of hexadecimal digits, at least two";
    match usize::try_from(line) {
        Ok(line) => Failure::at(
            alloc,
            fault,
            "standard input",
            Whereabouts::Line(line),
            &words,
        ),
        Err(_) => Failure::from(fault),
    }
}

/// Returns what the number has to be that this fault of the command line is about; none if it is
/// about none.
pub fn number_words(said: &str) -> Option<&'static str>
    ensures { IfSome result (λ words. IsNumberWords said.now words.now) }
{
    for number in [
        Number::Bit,
        Number::Question,
        Number::Members,
        Number::Liars,
        Number::Questions,
        Number::Me,
        Number::Cluster,
        Number::Port,
        Number::ChartQuestion,
        Number::ChartMember,
        Number::First,
        Number::Last,
    ] {
        if is_about(said, number) {
            return Some(number_text(number));
        }
    }
    None
}

/// Returns `true` if the fault of the command line is about the number.
fn is_about(said: &str, number: Number) -> bool
    ensures { (result ≡ true) ↔ HasPart said.now (mark_text number) }
{
    said.contains(mark_of(number))
}

/// Returns how the reader of the command line names the number where the word is none.
fn mark_of(number: Number) -> &'static str
    ensures { result.now ≡ mark_text number }
{
    match number {
        Number::Bit => "for '<V>': ",
        Number::Question => "for '<Q>': ",
        Number::Members => "for '--n <N>': ",
        Number::Liars => "for '--t <T>': ",
        Number::Questions => "for '--questions <Q>': ",
        Number::Me => "for '--me <M>': ",
        Number::Cluster => "for '--cluster <C>': ",
        Number::Port => "for '--port <FIRST>': ",
        Number::ChartQuestion => "for '--question <Q>': ",
        Number::ChartMember => "for '--member <M>': ",
        Number::First => "for '--from <FIRST>': ",
        Number::Last => "for '--to <LAST>': ",
    }
}

/// Returns what the number has to be.
fn number_text(number: Number) -> &'static str
    ensures { result.now ≡ number_text number }
{
    match number {
        Number::Bit => "V: must be 0 or 1",
        Number::Question =>
            "Q: must be an integer from 0 on and below the cluster's number of questions",
        Number::Members => "--n: must be an integer from 1 to 64",
        Number::Liars => "--t: must be an integer from 0 on and below a third of n",
        Number::Questions => "--questions: must be an integer from 1 to 4096",
        Number::Me => "--me: must be an integer from 0 on and below n",
        Number::Cluster => "--cluster: must be an integer from 0 to 4294967295",
        Number::Port => "--port: must be an integer from 1 to 65535",
        Number::ChartQuestion =>
            "--question: must be an integer from 0 on and below the script's number of questions",
        Number::ChartMember => "--member: must be an integer from 0 on and below the script's n",
        Number::First => "--from: must be an integer from 1 to 4294967295",
        Number::Last => "--to: must be an integer from 1 to 4294967295",
    }
}

/// A number that a word or an option of the command line has to be.
#[derive(Clone, Copy, Debug, PartialEq, Eq)]
enum Number {
    Bit,
    Question,
    Members,
    Liars,
    Questions,
    Me,
    Cluster,
    Port,
    ChartQuestion,
    ChartMember,
    First,
    Last,
}
