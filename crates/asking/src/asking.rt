//! The commands `propose`, `ask`, `status` and `transcript`: a line to the desk of a member that
//! runs.

ghost use Rattle.std.specs.Prelude.{ℕ, Bool, List, [], ◌≡◌, ◌∷◌, ◌++◌, ◌<◌, ◌≤◌, ◌↔◌, IfErr, IfOk, IfSome, IsSomeAnd, IsTrue, Some, ◌^◌, false, slice_get, true};
ghost use Rattle.std.specs.Io.KnownBytes.{Appends};
ghost use Rattle.commands.specs.Replies.{IsReplyLine, SaysSame};
ghost use Rattle.commands.specs.Talks.{HasReadyStatus, HasStatus};
ghost use Rattle.commands.specs.TextLines.{lines_in};
ghost use Rattle.commands.specs.declared.fault.TalkFault.TheVariants.{NoAnswer};
ghost use Rattle.transcripts.specs.Lines.{head_line};
ghost use Rattle.troubles.specs.Troubles.{IsNamed};
ghost use Rattle.troubles.specs.declared.fault.Fault.TheVariants as ends;

use crate::desks::{Deadline, DeskPlace, DeskSocket, REST, Talk, connect, desk_place};
use commands::{
    TalkFault, ask_line, await_line, exchange, fetch_transcript, is_undecided, line_at, links_line,
    propose_line, ready_status, state_line, status_line, tell, tell_object, transcript_line,
};
use std::alloc::Global;
use std::io::{self, BufReader, Write};
use std::thread;
use std::time::Duration;
use transcripts::question_in;
use troubles::{Failure, Fault, Whereabouts};

/// The form of an address.
const ADDRESS_WORDS: &str =
    "must be unix:PATH, or localhost or four numbers with points between them, a colon and a port from 1 to 65535: no host names, no IPv6";

/// The place of the desk that the address names.
fn place_at<'a>(rt: &HostRuntime, text: &'a str) -> Result<DeskPlace<'a>, Failure>
    ensures named { IfErr result (IsNamed text.now) }
{
    match desk_place(text) {
        Some(place) => Ok(place),
        None => Err(Failure::at(
            rt.alloc(),
            Fault::Address,
            text,
            Whereabouts::Whole,
            &ADDRESS_WORDS,
        )),
    }
}

/// Asks the member whose desk is at the address for what it heard of a question, and prints its
/// reply. The status is 0 for a transcript, and 1 for any other reply.
///
/// [`Fault::Talk`] with [`TalkFault::NoAnswer`]: no reply came, or a transcript of a later
/// question.
pub fn transcript_at(
    rt: &HostRuntime,
    address: &str,
    question: u16,
    timeout: Option<u32>,
) -> Result<u8, Failure>
    ensures status { IfOk result (λ status. status ≤ 1) }
    ensures named { IfErr result (IsNamed address.now) }
{
    let line = transcript_line(rt.alloc(), question).map_err(|_| Fault::Memory)?;
    let deadline = deadline_of(rt, timeout)?;
    let socket = &desk_at(rt, address, deadline)?;
    let mut to = Talk::new(rt, socket, deadline);
    let talk = Talk::new(rt, socket, deadline);
    let mut from = BufReader::new(rt.alloc(), talk).map_err(|_| Fault::Memory)?;
    let mut reply = Vec::new(rt.alloc());
    match fetch_transcript(rt.alloc(), line.as_str(), &mut to, &mut from, &mut reply) {
        Ok(status) => {
            print_transcript(rt, address, question, &reply)?;
            Ok(status)
        }
        Err(fault) => Err(talk_failure(rt, address, fault)),
    }
}

/// Prints what a member sent for a transcript of the question. One that names an earlier question
/// may be of a slot of a chain, so it is printed, and standard error says so. One that names a
/// later question is no answer.
fn print_transcript(
    rt: &HostRuntime,
    address: &str,
    question: u16,
    reply: &[u8],
) -> Result<(), Failure>
    ensures named { IfErr result (IsNamed address.now) }
{
    let named = question_named(reply);
    if is_later(named, question) {
        return Err(talk_failure(rt, address, TalkFault::NoAnswer));
    }
    let mut output = io::writer(rt);
    if output.write_all(reply).is_err() || output.flush().is_err() {
        return Err(talk_failure(rt, address, TalkFault::Stream));
    }
    match named {
        Some(named) if named < question => {
            let _unsaid = eprintln!(rt;
                "bracha: {address} sent a transcript of question {named}: right only if {question} is a slot of a chain"
            );
        }
        _ => {}
    }
    Ok(())
}

/// Returns the question that a reply names, if its first line begins a transcript.
fn question_named(reply: &[u8]) -> Option<u16>
    ensures some { IfSome result
        (λ question. IsSomeAnd (slice_get (lines_in reply.now) 0)
        (λ head. (bit : Bool) × (count : ℕ) × (head ≡ head_line question bit count))) }
    ensures exact { (question : ℕ) (bit : Bool) (count : ℕ) → question < 2 ^ 16 → count < 2 ^ 64 →
        slice_get (lines_in reply.now) 0 ≡ Some (head_line question bit count) →
        result ≡ Some question }
{
    match line_at(reply, 1) {
        Some(head) => question_in(head),
        None => None,
    }
}

/// Returns `true` if a question is named, and is a later one than this.
fn is_later(named: Option<u16>, question: u16) -> bool
    ensures { IsTrue result ↔ IsSomeAnd named (λ named. question < named) }
{
    match named {
        Some(named) => named > question,
        None => false,
    }
}

/// Proposes a bit to the member whose desk is at the address, and prints its reply. The status is
/// that of the reply.
pub fn propose_at(
    rt: &HostRuntime,
    address: &str,
    question: u16,
    bit: u8,
    timeout: Option<u32>,
) -> Result<u8, Failure>
    ensures status { IfOk result (λ status. status ≤ 1) }
    ensures named { IfErr result (IsNamed address.now) }
{
    let line = propose_line(rt.alloc(), question, bit).map_err(|_| Fault::Memory)?;
    ask_desk(rt, address, line.as_str(), false, timeout)
}

/// Asks the member whose desk is at the address for its decision, and prints its reply. The status
/// is that of the reply.
pub fn ask_at(
    rt: &HostRuntime,
    address: &str,
    question: u16,
    json: bool,
    timeout: Option<u32>,
) -> Result<u8, Failure>
    ensures status { IfOk result (λ status. status ≤ 1) }
    ensures named { IfErr result (IsNamed address.now) }
{
    let line = ask_line(rt.alloc(), question).map_err(|_| Fault::Memory)?;
    ask_desk(rt, address, line.as_str(), json, timeout)
}

/// Asks the member whose desk is at the address for its decision, and waits there until there is
/// one or another reply, or until there is no time left; and prints the last reply. A member that
/// doesn't answer is asked again. The status is that of the reply, but 1 for `UNDECIDED`.
pub fn await_at(
    rt: &HostRuntime,
    address: &str,
    question: u16,
    json: bool,
    timeout: Option<u32>,
) -> Result<u8, Failure>
    ensures status { IfOk result (λ status. status ≤ 1) }
    ensures named { IfErr result (IsNamed address.now) }
{
    // The first reply comes at once, so that there is one to print however short the time is.
    let ask = ask_line(rt.alloc(), question).map_err(|_| Fault::Memory)?;
    let wait = await_line(rt.alloc(), question).map_err(|_| Fault::Memory)?;
    let deadline = deadline_of(rt, timeout)?;
    let mut last = None;
    for _ in 0..u64::MAX {
        let line = if last.is_none() {
            ask.as_str()
        } else {
            wait.as_str()
        };
        match reply_at(rt, address, line, deadline) {
            Ok(reply) => {
                if !is_undecided(&reply) {
                    return tell_reply(rt, address, reply, json);
                }
                if deadline.is_over(rt) {
                    return tell_undecided(rt, address, reply, json);
                }
                // A member that comes to its end answers at once.
                if last.is_some() {
                    thread::sleep(rt, Duration::from_millis(REST));
                }
                last = Some(reply);
            }
            Err(failure) => {
                if !is_no_answer(&failure) {
                    return Err(failure);
                }
                if deadline.is_over(rt) {
                    return match last {
                        Some(reply) => tell_undecided(rt, address, reply, json),
                        None => Err(failure),
                    };
                }
                thread::sleep(rt, Duration::from_millis(REST));
            }
        }
    }
    Ok(1)
}

/// Prints that a question is undecided once the time is over. The status is 1.
fn tell_undecided(
    rt: &HostRuntime,
    address: &str,
    reply: Vec<u8>,
    json: bool,
) -> Result<u8, Failure>
    ensures status { IfOk result (λ status. status ≡ 1) }
    ensures named { IfErr result (IsNamed address.now) }
{
    let _printed = tell_reply(rt, address, reply, json)?;
    Ok(1)
}

/// Returns `true` if the failure is that no reply came.
fn is_no_answer(failure: &Failure) -> bool
    ensures { IsTrue result ↔ (failure.now.fault ≡ ends.Talk NoAnswer) }
{
    match failure.fault {
        Fault::Talk(TalkFault::NoAnswer) => true,
        Fault::Talk(TalkFault::Stream) => false,
        Fault::Talk(TalkFault::Memory) => false,
        _ => false,
    }
}

/// Asks the member whose desk is at the address whether it is up, and prints its reply. The status
/// is that of the reply.
pub fn status_at(
    rt: &HostRuntime,
    address: &str,
    json: bool,
    timeout: Option<u32>,
) -> Result<u8, Failure>
    ensures status { IfOk result (λ status. status ≤ 1) }
    ensures named { IfErr result (IsNamed address.now) }
{
    ask_desk(rt, address, status_line(), json, timeout)
}

/// Asks the member whose desk is at the address how a question stands there, and prints its reply.
/// The status is that of the reply.
pub fn state_at(
    rt: &HostRuntime,
    address: &str,
    question: u16,
    json: bool,
    timeout: Option<u32>,
) -> Result<u8, Failure>
    ensures status { IfOk result (λ status. status ≤ 1) }
    ensures named { IfErr result (IsNamed address.now) }
{
    let line = state_line(rt.alloc(), question).map_err(|_| Fault::Memory)?;
    ask_desk(rt, address, line.as_str(), json, timeout)
}

/// Sends the line to the desk at the address, and prints the reply.
fn ask_desk(
    rt: &HostRuntime,
    text: &str,
    line: &str,
    json: bool,
    timeout: Option<u32>,
) -> Result<u8, Failure>
    ensures status { IfOk result (λ status. status ≤ 1) }
    ensures named { IfErr result (IsNamed text.now) }
{
    let deadline = deadline_of(rt, timeout)?;
    let reply = reply_at(rt, text, line, deadline)?;
    tell_reply(rt, text, reply, json)
}

/// Asks the member whose desk is at the address how many of its links come and go, and prints its
/// reply. The status is that of the reply; where the member is to be ready, 0 only if as many links
/// come in and go out as it needs to decide, and 1 else.
pub fn links_at(
    rt: &HostRuntime,
    address: &str,
    ready: bool,
    json: bool,
    timeout: Option<u32>,
) -> Result<u8, Failure>
    ensures status { IfOk result (λ status. status ≤ 1) }
    ensures named { IfErr result (IsNamed address.now) }
{
    let deadline = deadline_of(rt, timeout)?;
    let reply = reply_at(rt, address, links_line(), deadline)?;
    if ready {
        return tell_ready(rt, address, reply, json);
    }
    tell_reply(rt, address, reply, json)
}

/// Prints the reply of the desk at the address of a member that is to be ready. The status is 0
/// only if as many links come in and go out as the member needs to decide, and 1 else.
fn tell_ready(rt: &HostRuntime, address: &str, reply: Vec<u8>, json: bool) -> Result<u8, Failure>
    ensures status { IfOk result (HasReadyStatus reply.items) }
    ensures named { IfErr result (IsNamed address.now) }
{
    let status = ready_status(&reply);
    let _told = tell_reply(rt, address, reply, json)?;
    Ok(status)
}

/// The end of a client that begins now and waits so many milliseconds in all, where that is
/// limited.
fn deadline_of(rt: &HostRuntime, timeout: Option<u32>) -> Result<Deadline, Fault> {
    match Deadline::new(rt, timeout) {
        Ok(deadline) => Ok(deadline),
        Err(_) => Err(Fault::Memory),
    }
}

/// The reply of the desk at the address to the line, without its end.
fn reply_at(
    rt: &HostRuntime,
    text: &str,
    line: &str,
    deadline: Deadline,
) -> Result<Vec<u8>, Failure>
    ensures reply { IfOk result (λ reply. IsReplyLine reply.items) }
    ensures named { IfErr result (IsNamed text.now) }
{
    let socket = &desk_at(rt, text, deadline)?;
    let mut to = Talk::new(rt, socket, deadline);
    let mut from = Talk::new(rt, socket, deadline);
    match exchange(rt.alloc(), line, &mut to, &mut from) {
        Ok(reply) => Ok(reply),
        Err(fault) => Err(talk_failure(rt, text, fault)),
    }
}

/// A connection to the desk at the address, HOST:PORT or unix:PATH, within the time.
fn desk_at(rt: &HostRuntime, text: &str, deadline: Deadline) -> Result<DeskSocket, Failure>
    ensures named { IfErr result (IsNamed text.now) }
{
    let place = place_at(rt, text)?;
    match connect(rt, &place, deadline) {
        Ok(socket) => Ok(socket),
        Err(error) => {
            let fault = Fault::Talk(TalkFault::NoAnswer);
            Err(Failure::at(rt.alloc(), fault, text, Whereabouts::Connect, &error))
        }
    }
}

/// Prints the reply of the desk at the address. The status is that of the reply.
fn tell_reply(rt: &HostRuntime, text: &str, reply: Vec<u8>, json: bool) -> Result<u8, Failure>
    ensures status { IfOk result (HasStatus reply.items) }
    ensures named { IfErr result (IsNamed text.now) }
{
    match print_reply(rt.alloc(), reply, json, &mut io::writer(rt)) {
        Ok(status) => Ok(status),
        Err(fault) => Err(talk_failure(rt, text, fault)),
    }
}

/// Prints a reply as it stands, or as an object of JSON. The status is that of the reply.
fn print_reply<W: Write>(
    alloc: Global,
    reply: Vec<u8>,
    json: bool,
    output: &mut W,
) -> Result<u8, TalkFault>
    ensures status { IfOk result (HasStatus reply.items) }
    ensures line { json ≡ false →
        IfOk result (λ _. Appends (W.contents output.old) (W.contents output.new)
        (reply.items ++ 10 ∷ [])) }
    ensures object { json ≡ true → IfOk result (λ _. (object : List ℕ) × SaysSame reply.items object
        × Appends (W.contents output.old) (W.contents output.new) (object ++ 10 ∷ [])) }
{
    if json {
        return tell_object(alloc, &reply, output);
    }
    tell(reply, output)
}

/// The failure of a talk over a connection that was made.
fn talk_failure(rt: &HostRuntime, address: &str, fault: TalkFault) -> Failure
    ensures fault { result.fault ≡ ends.Talk fault }
    ensures named { IsNamed address.now result }
{
    match fault {
        TalkFault::NoAnswer => {
            let words = "connected, but no reply came";
            Failure::at(
                rt.alloc(),
                Fault::Talk(fault),
                address,
                Whereabouts::Whole,
                &words,
            )
        }
        _ => Failure::from(Fault::Talk(fault)),
    }
}
