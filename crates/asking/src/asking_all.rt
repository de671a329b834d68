//! A question that is asked of all members of a cluster, or proposed to them: begin at `ask_all`
//! and `decide`.

ghost use Rattle.std.specs.Prelude.{ℕ, Bool, List, ◌≡◌, ◌≤◌, ◌↔◌, IfErr, IfOk, IsOk, None, Some, if◌then◌else◌, length, unwrap_or};
ghost use Rattle.std.specs.List.{filter};
ghost use Rattle.client.specs.Readings.{Reads, size_of};
ghost use Rattle.asking.specs.Plans.{Asks, Proposes};
ghost use Rattle.asking.specs.Polls.{HasStatusFor, IsReplaced, IsWordOf, TellsWords, bit_of, is_silent};
ghost use Rattle.asking.specs.declared.calls.Manner.TheVariants as manner;
ghost use Rattle.troubles.specs.declared.fault.Fault.TheVariants as ends;

use crate::board::News;
use crate::callers::{Caller, Calls, Cluster, IN_ALL, Lines, deadline_within};
use crate::calls::{GRACE, Manner};
use crate::readings::take_bit;
use client::Reading;
use commands::{
    Word, ask_line, await_line, later_word, propose_line, remarks, tell_decision, word_of,
};
use settings::ClientSettings;
use std::alloc::{AllocError, Global};
use std::io::{self, Write};
use terms::Size;
use troubles::{Failure, Fault, Whereabouts};

/// The milliseconds for which the last t members are waited for once the others answered and told
/// no decision.
const PATIENCE: u32 = 1000;

/// The milliseconds that a decision takes at most, where no time is told.
const TO_DECIDE: u32 = 60_000;

/// A question, and how it is asked.
#[derive(Clone, Copy, Debug, PartialEq, Eq)]
pub struct Query {
    /// The question, counted from 0.
    pub question: u16,
    /// Set if it is asked until there is a decision.
    pub wait: bool,
    /// Set if JSON is printed.
    pub json: bool,
}

/// A bit that is proposed on a question, for its decision.
#[derive(Clone, Copy, Debug, PartialEq, Eq)]
pub struct Motion {
    /// The question, counted from 0.
    pub question: u16,
    pub bit: u8,
    /// Set if JSON is printed.
    pub json: bool,
}

/// Asks each member of the cluster for its decision, all at once, and prints that which more than t
/// of them told, as soon as they have, or `UNDECIDED`. The status is 0 for a decision, and 1 else.
/// Standard error names who told another one, or nothing.
pub fn ask_all<R: Caller>(
    rt: &R,
    host: &HostRuntime,
    cluster: &Cluster<'_>,
    query: Query,
) -> Result<u8, Failure>
    ensures { IfOk result (λ status. status ≤ 1) }
{
    let client = cluster.read(host, query.question)?;
    let plan = plan_to_ask(host.alloc(), query, cluster.timeout).map_err(|_| Fault::Memory)?;
    hold_poll(rt, host, &client, plan)
}

/// Returns how a question is asked within the time that is told.
fn plan_to_ask(alloc: Global, query: Query, timeout: Option<u32>) -> Result<Plan, AllocError>
    ensures { IfOk result (Asks query timeout) }
{
    let lines = Lines {
        manner: manner_of(query.wait),
        first: ask_line(alloc, query.question)?,
        wait: await_line(alloc, query.question)?,
    };
    Ok(Plan {
        lines,
        limit: limit_of(query.wait, timeout),
        json: query.json,
    })
}

/// Returns how members are spoken to whose decision is waited for, or isn't.
fn manner_of(wait: bool) -> Manner
    ensures { result ≡ (if wait then manner.Until else manner.Once) }
{
    if wait { Manner::Until } else { Manner::Once }
}

/// Returns the milliseconds that a question takes at most: those that are told, and else ten
/// seconds, but no limit if the decision is waited for.
fn limit_of(wait: bool, timeout: Option<u32>) -> Option<u32>
    ensures { result ≡ (if wait then timeout else Some (unwrap_or timeout 10000)) }
{
    if wait {
        timeout
    } else {
        Some(timeout.unwrap_or(IN_ALL))
    }
}

/// Proposes the bit to each member of the cluster, again to those that come back, and waits for the
/// decision: prints that which more than t of them told, as soon as they have, or `UNDECIDED` once
/// the time is over, a minute where none is told. The status is 0 for a decision, and 1 else.
/// Standard error names who told another one, or nothing.
pub fn decide<R: Caller>(
    rt: &R,
    host: &HostRuntime,
    cluster: &Cluster<'_>,
    motion: Motion,
) -> Result<u8, Failure>
    ensures { IfOk result (λ status. status ≤ 1) }
{
    refuse_bit(host.alloc(), motion.bit)?;
    let client = cluster.read(host, motion.question)?;
    let plan = plan_to_decide(host.alloc(), motion, cluster.timeout).map_err(|_| Fault::Memory)?;
    hold_poll(rt, host, &client, plan)
}

/// Returns how a bit is proposed for its decision within the time that is told, or else a minute.
fn plan_to_decide(alloc: Global, motion: Motion, timeout: Option<u32>) -> Result<Plan, AllocError>
    ensures { IfOk result (Proposes motion timeout) }
{
    let lines = Lines {
        manner: Manner::Until,
        first: propose_line(alloc, motion.question, motion.bit)?,
        wait: await_line(alloc, motion.question)?,
    };
    Ok(Plan {
        lines,
        limit: Some(timeout.unwrap_or(TO_DECIDE)),
        json: motion.json,
    })
}

/// Refuses what is no bit.
fn refuse_bit(alloc: Global, bit: u8) -> Result<(), Failure>
    ensures bit { IsOk result ↔ bit ≤ 1 }
    ensures fault { IfErr result (λ failure. failure.fault ≡ ends.Words) }
{
    if bit <= 1 {
        return Ok(());
    }
    let fault = Fault::Words;
    Err(Failure::at(alloc, fault, "V", Whereabouts::Whole, &"must be 0 or 1"))
}

/// Speaks to each member, and prints the decision that more than t of them told, or that there is
/// none.
fn hold_poll<R: Caller>(
    rt: &R,
    host: &HostRuntime,
    client: &ClientSettings,
    plan: Plan,
) -> Result<u8, Failure>
    ensures { IfOk result (λ status. status ≤ 1) }
{
    let Plan { lines, limit, json } = plan;
    let manner = lines.manner;
    let deadline = deadline_within(host, limit)?;
    let survey = Survey::new(host.alloc(), client.size)?;
    let calls = Calls::start(rt, host.alloc(), client, lines, deadline)?;
    let mut poll = Poll {
        survey,
        calls,
        json,
        told: false,
    };
    poll.run(rt, host, manner)
}

/// The lines of a poll, and the milliseconds that it takes at most, if it has an end.
#[derive(Drop)]
struct Plan {
    lines: Lines,
    limit: Option<u32>,
    json: bool,
}

/// A survey that is being made.
#[derive(Drop)]
struct Poll {
    survey: Survey,
    calls: Calls,
    json: bool,
    /// Set once the decision is printed.
    told: bool,
}

impl Poll {
    ghost use Rattle.std.specs.Prelude.{ℕ, Bool, List, ◌≤◌, IfOk};
    ghost use Rattle.client.specs.Readings.{Reads, size_of};
    ghost use Rattle.asking.specs.Polls.{HasStatusFor};

    /// Takes what members say until all is said, or the time is over; then prints what isn't
    /// printed. Members that are asked once have all said it when each is known, and then there is
    /// a short time for the last t.
    fn run<R: Caller>(&mut self, rt: &R, host: &HostRuntime, manner: Manner) -> Result<u8, Failure>
        ensures bound { IfOk result (λ status. status ≤ 1) }
        ensures status { (words : List (ℕ × Bool)) → Reads self.new.survey.reading words →
            IfOk result (HasStatusFor (size_of self.new.survey.reading) words) }
    {
        for _ in 0..u64::MAX {
            let Some(news) = self.calls.next(rt, host) else {
                break;
            };
            for one in &news {
                self.survey.take(one);
            }
            self.tell_once(host)?;
            if self.survey.is_full() {
                break;
            }
            if manner == Manner::Once {
                if self.survey.is_known() {
                    break;
                }
                if self.survey.is_heard() {
                    self.calls.end_soon(host, PATIENCE);
                }
            }
        }
        if !self.told {
            self.tell(host)?;
        }
        self.tell_others(host);
        Ok(status_of(&self.survey.reading))
    }

    /// Prints the decision, if there is one that isn't printed.
    fn tell_once(&mut self, host: &HostRuntime) -> Result<(), Failure> {
        if self.told || self.survey.reading.decision().is_none() {
            return Ok(());
        }
        self.told = true;
        self.tell(host)?;
        self.calls.end_soon(host, GRACE);
        Ok(())
    }

    /// Prints the decision that may be believed, or that there is none.
    fn tell(&self, host: &HostRuntime) -> Result<(), Failure> {
        let reading = &self.survey.reading;
        tell_reading(host.alloc(), reading, self.json, &mut io::writer(host))
    }

    /// Says on standard error which members told something else than the decision, or nothing.
    fn tell_others(&self, host: &HostRuntime) {
        let decision = self.survey.reading.decision();
        let Ok(text) = remarks(host.alloc(), &self.survey.words, decision) else {
            return;
        };
        let mut errors = host.stderr();
        let _unsaid = errors.write_all(text.as_bytes());
    }
}

/// Returns the status for what members told: 0 for a decision, and 1 else.
fn status_of(reading: &Reading) -> u8
    ensures bound { result ≤ 1 }
    ensures status { (words : List (ℕ × Bool)) → Reads reading.now words →
        HasStatusFor (size_of reading.now) words result }
{
    match reading.decision() {
        Some(_) => 0,
        None => 1,
    }
}

/// Prints the decision that members made believable, or that there is none.
fn tell_reading<W: Write>(
    alloc: Global,
    reading: &Reading,
    json: bool,
    output: &mut W,
) -> Result<(), Failure>
    ensures { (words : List (ℕ × Bool)) → Reads reading.now words →
        IfOk result (λ _. TellsWords (size_of reading.now) words json
        (W.contents output.old) (W.contents output.new)) }
{
    match tell_decision(alloc, reading.decision(), json, output) {
        Ok(_status) => Ok(()),
        Err(fault) => Err(Failure::from(Fault::Talk(fault))),
    }
}

/// The words of all members, by their numbers, and what may be believed of them.
#[derive(Drop)]
struct Survey {
    size: Size,
    reading: Reading,
    words: Vec<Word>,
    /// The members of which something is known, a bit each.
    known: u64,
}

impl Survey {
    ghost use Rattle.std.specs.Prelude.{ℕ, Bool, List, [], ◌≡◌, ◌≤◌, ◌↔◌, IfOk, IsTrue, length};
    ghost use Rattle.std.specs.List.{filter, list_all};
    ghost use Rattle.client.specs.Readings.{Reads, size_of};
    ghost use Rattle.asking.specs.Polls.{IsWordOf, Notes, is_decided, is_silent};
    ghost use Rattle.commands.specs.declared.survey.Word.{Word};

    /// A survey of a cluster of that size, before any member said something.
    fn new(alloc: Global, size: Size) -> Result<Survey, Fault>
        ensures size { IfOk result (λ survey. size_of survey.reading ≡ size) }
        ensures nothing { IfOk result (λ survey. Reads survey.reading []) }
    {
        let mut words = Vec::new(alloc);
        for _ in 0..size.n() {
            words.push(Word::Silent).map_err(|_| Fault::Memory)?;
        }
        Ok(Survey {
            size,
            reading: Reading::new(size),
            words,
            known: 0,
        })
    }

    /// Takes what a member said. Of each member its first decision counts.
    fn take(&mut self, news: &News)
        ensures { (word : Word) × IsWordOf news.now word
            × Notes self.old news.now.member word self.new }
    {
        let word = word_in(news);
        self.note(news.member, word);
    }

    /// Takes a member's word. Of each member its first decision counts.
    fn note(&mut self, member: u8, word: Word)
        ensures { Notes self.old member word self.new }
    {
        take_bit(&mut self.reading, member, bit_of(word));
        let placed = replace(&mut self.words, member, word);
        self.known |= mark(placed, member);
    }

    /// Returns `true` if each member told a decision.
    fn is_full(&self) -> bool
        ensures { result ≡ list_all is_decided self.now.words.items }
    {
        self.words
            .iter()
            .all(|word| matches!(word, Word::Decided(_)))
    }

    /// Returns `true` if something is known of each member.
    fn is_known(&self) -> bool {
        self.known.count_ones() == u32::from(self.size.n())
    }

    /// Returns `true` if as many members replied as are correct at least: all but t.
    fn is_heard(&self) -> bool
        ensures { IsTrue result
            ↔ length (filter is_silent self.now.words.items) ≤ self.now.size.t }
    {
        silent_words(&self.words) <= usize::from(self.size.t())
    }
}

/// Returns how many members replied nothing.
fn silent_words(words: &[Word]) -> usize
    ensures { result ≡ length (filter is_silent words.now) }
{
    words.iter().filter(|word| is_silent(**word)).count()
}

/// Returns `true` if a member replied nothing.
fn is_silent(word: Word) -> bool
    ensures { result ≡ is_silent word }
{
    matches!(word, Word::Silent)
}

/// Returns the word that a member's reply is, or that none came.
fn word_in(news: &News) -> Word
    ensures { IsWordOf news.now result }
{
    match &news.reply {
        Some(reply) => word_of(reply),
        None => Word::Silent,
    }
}

/// Returns the decision that a word tells, if it tells one.
fn bit_of(word: Word) -> Option<bool>
    ensures { result ≡ bit_of word }
{
    match word {
        Word::Decided(bit) => Some(bit),
        Word::Silent | Word::Undecided | Word::Other => None,
    }
}

/// Puts a member's later word in the place of its earlier one. False where there is no such member.
fn replace(words: &mut Vec<Word>, member: u8, word: Word) -> bool
    ensures { IsReplaced words.old.items member word words.new.items }
{
    match words.get_mut(usize::from(member)) {
        Some(place) => {
            *place = later_word(*place, word);
            true
        }
        None => false,
    }
}

/// Returns the bit of a member, if it has a place.
fn mark(placed: bool, member: u8) -> u64 {
    if placed { 1 << (member & 63) } else { 0 }
}
