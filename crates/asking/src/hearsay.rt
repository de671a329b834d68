//! Transcripts of all members of a cluster: begin at `transcript_of_all` and `audit_all`.

ghost use Rattle.std.specs.Prelude.{ℕ, Bool, List, ◌≡◌, ◌≤◌, IfOk, Some, codes, option_map, slice_get};
ghost use Rattle.std.specs.Io.KnownBytes.{Appends};
ghost use Rattle.std.specs.Str.{IsUtf8};
ghost use Rattle.client.specs.Readings.{Reads, size_of};
ghost use Rattle.commands.specs.TextLines.{lines_in};
ghost use Rattle.commands.specs.Surveys.{IsTranscriptOf, bit_number};
ghost use Rattle.asking.specs.Hearsay.{IsWorthOf, IsWorthOfReply, PrintsFirst, TakesProofs, TellsVerdict, bit_in, worth_by};

use crate::board::News;
use crate::callers::{Caller, Calls, Cluster, Lines};
use crate::calls::{GRACE, Manner};
use crate::known::{are_known, is_known, with_news};
use crate::readings::take_bit;
use client::Reading;
use commands::{line_at, transcript_bit, transcript_line};
use settings::ClientSettings;
use std::alloc::Global;
use std::io::{self, Write};
use terms::Size;
use transcripts::{AuditFault, audit_text};
use troubles::{Failure, Fault};

/// Prints the first transcript that a member of the cluster sends and that is proof of the
/// question's decision, and says on standard error whose it is, and what others sent before. The
/// status is 0; 1 where none sends one.
pub fn transcript_of_all<R: Caller>(
    rt: &R,
    host: &HostRuntime,
    cluster: &Cluster<'_>,
    question: u16,
) -> Result<u8, Failure>
    ensures { IfOk result (λ status. status ≤ 1) }
{
    let client = cluster.read(host, question)?;
    let calls = fetch_all(rt, host, cluster, &client, question)?;
    let mut known = 0u64;
    for _ in 0..u64::MAX {
        if are_known(known, client.size) {
            break;
        }
        let Some(news) = calls.next(rt, host) else {
            break;
        };
        if print_first(host, &news, question, client.size, &mut io::writer(host))? {
            return Ok(0);
        }
        known = with_news(known, &news);
    }
    tell_unknown(host, known, client.size);
    Ok(1)
}

/// Prints the first of these that is proof of the question's decision; true where there is one.
/// Standard error says what the members before it sent.
fn print_first<W: Write>(
    host: &HostRuntime,
    news: &[News],
    question: u16,
    size: Size,
    output: &mut W,
) -> Result<bool, Failure>
    ensures { IfOk result (λ found. PrintsFirst size question news.now found
        (W.contents output.old) (W.contents output.new)) }
{
    for one in news {
        let worth = worth_of(host.alloc(), one, question, size)?;
        match bit_in(worth) {
            Some(bit) => {
                print_reply(one, output)?;
                tell_proof(host, one.member, bit);
                return Ok(true);
            }
            None => tell_worth(host, one, worth),
        }
    }
    Ok(false)
}

/// Prints what a member sent, as it is.
fn print_reply<W: Write>(news: &News, output: &mut W) -> Result<(), Fault>
    ensures { (reply : List ℕ) → option_map (λ sent. sent.items) news.now.reply ≡ Some reply →
        IfOk result (λ _. Appends (W.contents output.old) (W.contents output.new) reply) }
{
    match &news.reply {
        Some(reply) => print(reply, output),
        None => Ok(()),
    }
}

/// Says on standard error whose transcript was printed, and of which bit.
fn tell_proof(host: &HostRuntime, member: u8, bit: bool) {
    let bit = u8::from(bit);
    let _unsaid = eprintln!(host; "bracha: member {member} sent this transcript of {bit}");
}

/// Fetches the transcript of the question from each member of the cluster, all at once, and prints
/// `yes` if those of more than t members are proof of one bit, and else `no`. The status is 0 for
/// `yes` and 1 for `no`. Standard error says what each member's is worth.
pub fn audit_all<R: Caller>(
    rt: &R,
    host: &HostRuntime,
    cluster: &Cluster<'_>,
    question: u16,
) -> Result<u8, Failure>
    ensures { IfOk result (λ status. status ≤ 1) }
{
    let client = cluster.read(host, question)?;
    let mut calls = fetch_all(rt, host, cluster, &client, question)?;
    let mut audit = Audit::new(question, client.size);
    let status = audit.run(rt, host, &mut calls)?;
    tell_unknown(host, audit.known, client.size);
    Ok(status)
}

/// Asks each member for what it heard of the question.
fn fetch_all<R: Caller>(
    rt: &R,
    host: &HostRuntime,
    cluster: &Cluster<'_>,
    client: &ClientSettings,
    question: u16,
) -> Result<Calls, Failure> {
    let lines = Lines {
        manner: Manner::Transcript,
        first: transcript_line(host.alloc(), question).map_err(|_| Fault::Memory)?,
        wait: String::new(host.alloc()),
    };
    let deadline = cluster.deadline(host)?;
    Calls::start(rt, host.alloc(), client, lines, deadline)
}

/// The audit of a question: the bits that members proved.
#[derive(Drop)]
struct Audit {
    question: u16,
    size: Size,
    reading: Reading,
    /// The members of which something is known, a bit each.
    known: u64,
}

impl Audit {
    ghost use Rattle.std.specs.Prelude.{ℕ, Bool, List, [], ◌≡◌, ◌<◌, ◌≤◌, ◌++◌, ◌||◌, IfOk};
    ghost use Rattle.client.specs.Readings.{Reads, size_of};
    ghost use Rattle.asking.specs.Hearsay.{HasMore, TakesProofs};
    ghost use Rattle.asking.specs.Marks.{has_news, is_marked};
    ghost use Rattle.asking.specs.Polls.{HasStatusFor};

    /// The audit of a question in a cluster of that size, before anything is known.
    fn new(question: u16, size: Size) -> Audit
        ensures question { result.question ≡ question }
        ensures size { result.size ≡ size }
        ensures nothing { Reads result.reading [] }
        ensures same { size_of result.reading ≡ size }
    {
        Audit {
            question,
            size,
            reading: Reading::new(size),
            known: 0,
        }
    }

    /// Takes what members send until more than t proved one bit, all is known, or the time is over,
    /// and prints `yes` or `no`. Behind a `yes` the others have a short time, so that people learn
    /// what theirs are worth. The status is 0 for `yes` and 1 for `no`.
    fn run<R: Caller>(
        &mut self,
        rt: &R,
        host: &HostRuntime,
        calls: &mut Calls,
    ) -> Result<u8, Failure>
        ensures bound { IfOk result (λ status. status ≤ 1) }
        ensures status { (words : List (ℕ × Bool)) → Reads self.old.reading words →
            IfOk result (λ status. (more : List (ℕ × Bool)) × Reads self.new.reading (words ++ more)
            × HasStatusFor (size_of self.old.reading) (words ++ more) status) }
    {
        self.gather(rt, host, calls, false)?;
        let status = tell_verdict(&self.reading, &mut io::writer(host))?;
        if status != 0 {
            return Ok(status);
        }
        calls.end_soon(host, GRACE);
        self.gather(rt, host, calls, true)?;
        Ok(status)
    }

    /// Takes what members send until all is known or the time is over, or, unless it is to go on to
    /// that end, more than t proved one bit.
    fn gather<R: Caller>(
        &mut self,
        rt: &R,
        host: &HostRuntime,
        calls: &Calls,
        to_the_end: bool,
    ) -> Result<(), Fault>
        ensures { IfOk result (λ _. HasMore self.old.reading self.new.reading) }
    {
        'hearing: for _ in 0..u64::MAX {
            if are_known(self.known, self.size) {
                break;
            }
            if !to_the_end && self.reading.decision().is_some() {
                break;
            }
            let Some(news) = calls.next(rt, host) else {
                break;
            };
            self.take(host, &news)?;
        }
        Ok(())
    }

    /// Takes what members sent, and says on standard error what it is worth.
    fn take(&mut self, host: &HostRuntime, news: &[News]) -> Result<(), Fault>
        ensures proofs { IfOk result (λ _. TakesProofs self.old.size self.old.question news.now
            self.old.reading self.new.reading) }
        ensures known { IfOk result (λ _. (member : ℕ) → member < 64 →
            is_marked self.new.known member
            ≡ (is_marked self.old.known member || has_news news.now member)) }
    {
        self.known = with_news(self.known, news);
        take_proofs(host, &mut self.reading, news, self.question, self.size)
    }
}

/// Prints `yes` if more than t members proved one bit, and else `no`. The status is 0 for `yes` and
/// 1 for `no`.
fn tell_verdict<W: Write>(reading: &Reading, output: &mut W) -> Result<u8, Fault>
    ensures bound { IfOk result (λ status. status ≤ 1) }
    ensures verdict { (words : List (ℕ × Bool)) → Reads reading.now words →
        IfOk result (λ status. TellsVerdict (size_of reading.now) words status
        (W.contents output.old) (W.contents output.new)) }
{
    match reading.decision() {
        Some(_) => {
            print(b"yes\n", output)?;
            Ok(0)
        }
        None => {
            print(b"no\n", output)?;
            Ok(1)
        }
    }
}

/// Prints these bytes.
fn print<W: Write>(bytes: &[u8], output: &mut W) -> Result<(), Fault>
    ensures { IfOk result
        (λ _. Appends (W.contents output.old) (W.contents output.new) bytes.now) }
{
    output.write_all(bytes)?;
    output.flush()?;
    Ok(())
}

/// Gives the reading the bits that members proved, and says on standard error what each sent is
/// worth.
fn take_proofs(
    host: &HostRuntime,
    reading: &mut Reading,
    news: &[News],
    question: u16,
    size: Size,
) -> Result<(), Fault>
    ensures { IfOk result (λ _. TakesProofs size question news.now reading.old reading.new) }
{
    for one in news {
        let worth = worth_of(host.alloc(), one, question, size)?;
        tell_worth(host, one, worth);
        take_bit(reading, one.member, bit_in(worth));
    }
    Ok(())
}

/// Returns the worth of what a member sent of the question, in a cluster of that size. Without
/// memory for an audit there is none.
fn worth_of(alloc: Global, news: &News, question: u16, size: Size) -> Result<Worth, Fault>
    ensures { IfOk result (IsWorthOf size question news.now) }
{
    match &news.reply {
        Some(reply) => worth_in(alloc, reply, question, size),
        None => Ok(Worth::Nothing),
    }
}

/// Returns the worth of a reply.
fn worth_in(alloc: Global, reply: &[u8], question: u16, size: Size) -> Result<Worth, Fault>
    ensures { IfOk result (IsWorthOfReply size question (Some reply.now)) }
{
    match transcript_bit(alloc, reply, question)? {
        Some(bit) => audited_worth(alloc, reply, question, bit, size),
        None => Ok(Worth::Nothing),
    }
}

/// Returns the worth of a reply that begins as a transcript of the question and this bit.
fn audited_worth(
    alloc: Global,
    reply: &[u8],
    _question: u16,
    bit: bool,
    size: Size,
) -> Result<Worth, Fault>
    requires { IsTranscriptOf _question (bit_number bit) reply.now }
    ensures { IfOk result (IsWorthOfReply size _question (Some reply.now)) }
{
    size.recall();
    let mut verdict: Vec<u8> = Vec::new(alloc);
    match audit_text(alloc, reply, size, &mut verdict) {
        Ok(status) => Ok(worth_by(status, bit)),
        Err(AuditFault::Line(_)) => Ok(Worth::Transcript),
        Err(AuditFault::Stream | AuditFault::Memory) => Err(Fault::Memory),
    }
}

/// Returns the worth of a text that begins as a transcript of this bit, by what its audit ends
/// with.
fn worth_by(status: u8, bit: bool) -> Worth
    ensures { result ≡ worth_by status bit }
{
    match status {
        0 => Worth::Proof(bit),
        _ => Worth::Transcript,
    }
}

/// Says on standard error what a member's transcript is worth.
fn tell_worth(host: &HostRuntime, news: &News, worth: Worth) {
    let member = news.member;
    match worth {
        Worth::Nothing => tell_none(host, news),
        Worth::Transcript => {
            let _unsaid = eprintln!(host;
                "bracha: member {member} sends a transcript that proves nothing"
            );
        }
        Worth::Proof(bit) => {
            let _unsaid = eprintln!(host; "bracha: member {member} proves {}", u8::from(bit));
        }
    }
}

/// Says on standard error what a member sent that is no transcript.
fn tell_none(host: &HostRuntime, news: &News) {
    let member = news.member;
    let _unsaid = match &news.reply {
        None => eprintln!(host; "bracha: member {member} doesn't answer"),
        Some(reply) => {
            let head = head_of(reply);
            eprintln!(host; "bracha: member {member} sends no transcript: {head}")
        }
    };
}

/// Returns the first line of a reply, or, if that is no text, words in its place.
fn head_of(reply: &[u8]) -> &str
    ensures text { (line : List ℕ) → slice_get (lines_in reply.now) 0 ≡ Some line → IsUtf8 line →
        result.now ≡ line }
    ensures other { (line : List ℕ) → slice_get (lines_in reply.now) 0 ≡ Some line →
        (IsUtf8 line → ⊥) → result.now ≡ codes "another reply" }
{
    match line_at(reply, 1) {
        Some(line) => text_of(line),
        None => "nothing",
    }
}

/// Returns the line, or, if it is no text, words in its place.
fn text_of(line: &[u8]) -> &str
    ensures text { IsUtf8 line.now → result.now ≡ line.now }
    ensures other { (IsUtf8 line.now → ⊥) → result.now ≡ codes "another reply" }
{
    match str::from_utf8(line) {
        Ok(text) => text,
        Err(_) => "another reply",
    }
}

/// Returns the bit that is proved, if one is.
fn bit_in(worth: Worth) -> Option<bool>
    ensures { result ≡ bit_in worth }
{
    match worth {
        Worth::Proof(bit) => Some(bit),
        Worth::Nothing | Worth::Transcript => None,
    }
}

/// The worth of what a member sent.
#[derive(Clone, Copy, Debug, PartialEq, Eq)]
enum Worth {
    /// No transcript of the question.
    Nothing,
    /// A transcript that proves nothing.
    Transcript,
    /// A proof of this bit.
    Proof(bool),
}

/// Says on standard error which members sent nothing in time.
fn tell_unknown(host: &HostRuntime, known: u64, size: Size) {
    size.recall();
    for member in 0..size.n() {
        if !is_known(known, member) {
            let _unsaid = eprintln!(host; "bracha: member {member} doesn't answer");
        }
    }
}
