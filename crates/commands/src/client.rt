//! The commands `propose`, `ask` and `status`: one line to the desk of a member that runs, and its
//! reply.

ghost use Rattle.std.specs.Prelude.{ℕ, List, [], ◌≡◌, ◌∷◌, ◌++◌, ◌↔◌, IsTrue, IfOk, IfErr, IfSome, ◌≢◌, string_bytes, codes, Err};
ghost use Rattle.std.specs.Io.KnownBytes.{Appends, Consumes};
ghost use Rattle.numerals.specs.Lines.{NoEnd};
ghost use Rattle.commands.specs.Talks.{TellsDecision, decision_object, decision_reply, propose_line, ask_line, await_line, state_line, links_line, status_line, member_line, member_words, IsUp, IsGood, SaysStanding, HasReadyStatus, HasStatus};
ghost use Rattle.commands.specs.Replies.{IsMemberObject, IsReplyLine, SaysSame, member_object};
ghost use Rattle.commands.specs.declared.fault.TalkFault.TheVariants.{NoAnswer};

use crate::fault::TalkFault;
use crate::replies::{counts, has_links, is_ready, is_reply, object_of};
use crate::stages::is_stage;
use numerals::is;
use std::alloc::{AllocError, Global};
use std::io::{Read, Write};

/// The most bytes of a reply.
const LONGEST_REPLY: usize = 64;

/// The line that proposes a bit on a question. Another number than 0 and 1 is no bit, which the
/// desk says.
pub fn propose_line(alloc: Global, question: u16, bit: u8) -> Result<String, AllocError>
    ensures { IfOk result (λ text. string_bytes text ≡ propose_line question bit) }
{
    format!(in alloc; "PROPOSE {question} {bit}\n")
}

/// The line that asks for the decision of a question.
pub fn ask_line(alloc: Global, question: u16) -> Result<String, AllocError>
    ensures { IfOk result (λ text. string_bytes text ≡ ask_line question) }
{
    format!(in alloc; "ASK {question}\n")
}

/// The line that asks how a question stands.
pub fn state_line(alloc: Global, question: u16) -> Result<String, AllocError>
    ensures { IfOk result (λ text. string_bytes text ≡ state_line question) }
{
    format!(in alloc; "STATE {question}\n")
}

/// The line that waits for the decision of a question.
pub fn await_line(alloc: Global, question: u16) -> Result<String, AllocError>
    ensures { IfOk result (λ text. string_bytes text ≡ await_line question) }
{
    format!(in alloc; "AWAIT {question}\n")
}

/// The line that asks whether a member is up.
pub fn status_line() -> &'static str
    ensures { result.now ≡ status_line }
{
    "STATUS\n"
}

/// The line that asks how many links of a member come in and go out.
pub fn links_line() -> &'static str
    ensures { result.now ≡ links_line }
{
    "LINKS\n"
}

/// Returns the status for the reply of a member that is to be ready: 0 if it is `LINKS i o n w`
/// with w links at least that come in and that go out, and 1 else.
pub fn ready_status(reply: &[u8]) -> u8
    ensures { HasReadyStatus reply.now result }
{
    if is_ready(reply) { 0 } else { 1 }
}

/// Sends the line over a connection to a member's desk, and reads one reply, which is given without
/// its end.
///
/// [`TalkFault::NoAnswer`]: the connection failed or ended before a whole line came, or the line is
/// no reply of a desk. [`TalkFault::Memory`]: memory was refused.
pub fn exchange<R: Read, S: Write>(
    alloc: Global,
    line: &str,
    to: &mut S,
    from: &mut R,
) -> Result<Vec<u8>, TalkFault>
    ensures { IfOk result (λ reply. NoEnd reply.items × IsReplyLine reply.items
        × Appends (S.contents to.old) (S.contents to.new) line.now
        × Consumes (R.remaining from.old) (R.remaining from.new) (reply.items ++ 10 ∷ [])) }
{
    send(line, to)?;
    let reply = reply_of(alloc, from)?;
    if is_reply(&reply) {
        Ok(reply)
    } else {
        Err(TalkFault::NoAnswer)
    }
}

/// Writes a reply with its end. The status is 0 for `OK`, `HAVE b`, `DECIDED b`, `UNDECIDED`, `UP m
/// d`, `LINKS i o n w`, `OPEN r s`, `SPENT` and `UNPROPOSED`, and 1 for any other reply.
///
/// [`TalkFault::Stream`]: the write failed. [`TalkFault::Memory`]: memory was refused.
pub fn tell<W: Write>(mut reply: Vec<u8>, output: &mut W) -> Result<u8, TalkFault>
    ensures all { IfOk result
        (λ status. Appends (W.contents output.old) (W.contents output.new) (reply.items ++ 10 ∷ [])
        × HasStatus reply.items status) }
    ensures only { result ≢ Err NoAnswer }
{
    let status = status_of(&reply);
    reply.push(b'\n')?;
    print_reply(&reply, output)?;
    Ok(status)
}

/// Writes the object of JSON that says the same as a reply, in a line. The status is that of the
/// reply.
///
/// [`TalkFault::NoAnswer`]: it is no reply of a desk. [`TalkFault::Stream`]: the write failed.
/// [`TalkFault::Memory`]: memory was refused.
pub fn tell_object<W: Write>(alloc: Global, reply: &[u8], output: &mut W) -> Result<u8, TalkFault>
    ensures all { IfOk result (λ status. (object : List ℕ) × SaysSame reply.now object
        × Appends (W.contents output.old) (W.contents output.new) (object ++ 10 ∷ [])
        × HasStatus reply.now status) }
    ensures only { result ≡ Err NoAnswer → IsReplyLine reply.now → ⊥ }
{
    let Some(mut object) = object_of(alloc, reply)? else {
        return Err(TalkFault::NoAnswer);
    };
    object.push('\n')?;
    print_reply(object.as_bytes(), output)?;
    Ok(status_of(reply))
}

/// The reply of a member of that number, in words, and the status for it.
///
/// [`TalkFault::Stream`]: the write failed. [`TalkFault::Memory`]: memory was refused.
pub fn tell_of<W: Write>(
    alloc: Global,
    member: u8,
    reply: &[u8],
    output: &mut W,
) -> Result<u8, TalkFault>
    ensures all { IfOk result
        (λ status. Appends (W.contents output.old) (W.contents output.new)
        (member_line member reply.now) × HasStatus reply.now status) }
    ensures only { result ≢ Err NoAnswer }
{
    let line = reply_line(alloc, usize::from(member), reply)?;
    print_reply(&line, output)?;
    Ok(status_of(reply))
}

/// Writes the object of JSON that says the same as a member's reply, in a line. The status is that
/// of the reply.
///
/// [`TalkFault::Stream`]: the write failed. [`TalkFault::Memory`]: memory was refused.
pub fn tell_object_of<W: Write>(
    alloc: Global,
    member: u8,
    reply: &[u8],
    output: &mut W,
) -> Result<u8, TalkFault>
    ensures all { IfOk result
        (λ status. (text : List ℕ) × IsMemberObject member reply.now text
        × Appends (W.contents output.old) (W.contents output.new) text
        × HasStatus reply.now status) }
    ensures only { result ≢ Err NoAnswer }
{
    let text = member_object(alloc, member, reply)?;
    print_reply(text.as_bytes(), output)?;
    Ok(status_of(reply))
}

/// The status for a reply.
fn status_of(reply: &[u8]) -> u8
    ensures { HasStatus reply.now result }
{
    if is_good(reply) { 0 } else { 1 }
}

/// Returns `true` if the reply says that the member did as it was asked.
fn is_good(reply: &[u8]) -> bool
    ensures { IsTrue result ↔ IsGood reply.now }
{
    is(reply, "OK")
        || is(reply, "HAVE 0")
        || is(reply, "HAVE 1")
        || is(reply, "DECIDED 0")
        || is(reply, "DECIDED 1")
        || is(reply, "UNDECIDED")
        || says_standing(reply)
}

/// Tells if the reply says how far the member is, how many of its links are up, or how a question
/// stands there.
fn says_standing(reply: &[u8]) -> bool
    ensures { IsTrue result ↔ SaysStanding reply.now }
{
    is_up(reply) || has_links(reply) || is_stage(reply)
}

/// Returns `true` if the reply says that the member is up.
fn is_up(reply: &[u8]) -> bool
    ensures { IsTrue result ↔ IsUp reply.now }
{
    counts(reply).is_some()
}

/// The line of a member's number and of its reply.
pub(crate) fn reply_line(alloc: Global, member: usize, reply: &[u8]) -> Result<Vec<u8>, AllocError>
    ensures { IfOk result (λ line. line.items ≡ member_line member reply.now) }
{
    let head = member_words(alloc, member)?;
    let mut line = Vec::new(alloc);
    line.extend_from_slice(head.as_bytes())?;
    line.extend_from_slice(reply)?;
    line.push(b'\n')?;
    Ok(line)
}

/// The words in front of a member's reply.
fn member_words(alloc: Global, member: usize) -> Result<String, AllocError>
    ensures { IfOk result (λ text. string_bytes text ≡ member_words member) }
{
    format!(in alloc; "member {member} ")
}

/// The decision that a reply tells, if it tells one.
pub fn decision_of(reply: &[u8]) -> Option<bool>
    ensures { TellsDecision reply.now result }
{
    if is(reply, "DECIDED 0") {
        Some(false)
    } else if is(reply, "DECIDED 1") {
        Some(true)
    } else {
        None
    }
}

/// The reply that tells a decision, or that there is none.
pub fn decision_reply(decision: Option<bool>) -> &'static str
    ensures { result.now ≡ decision_reply decision }
{
    match decision {
        Some(false) => "DECIDED 0",
        Some(true) => "DECIDED 1",
        None => "UNDECIDED",
    }
}

/// Returns the object of JSON that says the same as the reply that tells a decision.
#[tactic(auto, using(crate::proofs::SameObjects::decision_says_same))]
pub(crate) fn decision_object(decision: Option<bool>) -> &'static str
    ensures value { result.now ≡ decision_object decision }
    ensures same { SaysSame (decision_reply decision) (decision_object decision) }
{
    match decision {
        Some(false) => "{\"decided\":0}",
        Some(true) => "{\"decided\":1}",
        None => "{\"undecided\":true}",
    }
}

/// Returns `true` if the reply says that there is no decision yet.
pub fn is_undecided(reply: &[u8]) -> bool
    ensures { IsTrue result ↔ (reply.now ≡ codes "UNDECIDED") }
{
    is(reply, "UNDECIDED")
}

/// Sends the line over a connection to a member's desk, reads one reply, and writes it with its
/// end. The status is 0 for `OK`, `HAVE b`, `DECIDED b`, `UNDECIDED`, `UP m d`, `LINKS i o n w`,
/// `OPEN r s`, `SPENT` and `UNPROPOSED`, and 1 for any other reply.
///
/// [`TalkFault::NoAnswer`]: the connection failed or ended before a whole line came, or the line is
/// no reply of a desk, and nothing was written. [`TalkFault::Stream`]: the write failed.
/// [`TalkFault::Memory`]: memory was refused.
pub fn talk<R: Read, S: Write, W: Write>(
    alloc: Global,
    line: &str,
    to: &mut S,
    from: &mut R,
    output: &mut W,
) -> Result<u8, TalkFault>
    ensures all { IfOk result (λ status. (reply : List ℕ) × NoEnd reply × IsReplyLine reply
        × Appends (S.contents to.old) (S.contents to.new) line.now
        × Consumes (R.remaining from.old) (R.remaining from.new) (reply ++ 10 ∷ [])
        × Appends (W.contents output.old) (W.contents output.new) (reply ++ 10 ∷ [])
        × HasStatus reply status) }
    ensures nothing { result ≡ Err NoAnswer → output.new ≡ output.old }
{
    let reply = exchange(alloc, line, to, from)?;
    tell(reply, output)
}

/// The reply: a line without its end.
pub(crate) fn reply_of<R: Read>(alloc: Global, connection: &mut R) -> Result<Vec<u8>, TalkFault>
    ensures { IfOk result
        (λ reply. NoEnd reply.items × Consumes (R.remaining connection.old)
        (R.remaining connection.new) (reply.items ++ 10 ∷ [])) }
{
    let mut reply = Vec::new(alloc);
    for _ in 0..LONGEST_REPLY {
        match next_byte(connection) {
            None => return Err(TalkFault::NoAnswer),
            Some(b'\n') => return Ok(reply),
            Some(byte) => reply.push(byte)?,
        }
    }
    Err(TalkFault::NoAnswer)
}

/// The next byte of the connection, if there is one.
fn next_byte<R: Read>(connection: &mut R) -> Option<u8>
    ensures { IfSome result
        (λ byte. Consumes (R.remaining connection.old) (R.remaining connection.new) (byte ∷ [])) }
{
    let mut byte = [0];
    match connection.read(&mut byte) {
        Ok(1) => Some(byte[0]),
        _ => None,
    }
}

/// Sends the line.
pub(crate) fn send<W: Write>(line: &str, connection: &mut W) -> Result<(), TalkFault>
    ensures sent { IfOk result
        (λ _. Appends (W.contents connection.old) (W.contents connection.new) line.now) }
    ensures only { IfErr result (λ fault. fault ≡ NoAnswer) }
{
    match connection.write_all(line.as_bytes()) {
        Ok(()) => {}
        Err(_) => return Err(TalkFault::NoAnswer),
    }
    match connection.flush() {
        Ok(()) => Ok(()),
        Err(_) => Err(TalkFault::NoAnswer),
    }
}

/// Writes the reply.
pub(crate) fn print_reply<W: Write>(reply: &[u8], output: &mut W) -> Result<(), TalkFault>
    ensures written { IfOk result
        (λ _. Appends (W.contents output.old) (W.contents output.new) reply.now) }
    ensures only { result ≢ Err NoAnswer }
{
    output.write_all(reply)?;
    output.flush()?;
    Ok(())
}

/// The line of a member's number and of this object.
fn object_line(alloc: Global, member: u8, object: &str) -> Result<String, AllocError>
    ensures { IfOk result (λ text. string_bytes text ≡ member_object member object.now) }
{
    format!(in alloc; "{{\"member\":{member},\"reply\":{object}}}\n")
}

/// The same, of an object that is a string.
fn text_line(alloc: Global, member: u8, object: &String) -> Result<String, AllocError>
    ensures { IfOk result
        (λ text. string_bytes text ≡ member_object member (string_bytes object.now)) }
{
    format!(in alloc; "{{\"member\":{member},\"reply\":{object}}}\n")
}

/// The line of a member's number and of the object that says the same as its reply; `null` for no
/// reply of a desk.
fn member_object(alloc: Global, member: u8, reply: &[u8]) -> Result<String, AllocError>
    ensures { IfOk result (λ text. IsMemberObject member reply.now (string_bytes text)) }
{
    match object_of(alloc, reply)? {
        Some(object) => same_line(alloc, member, reply, &object),
        None => null_line(alloc, member, reply),
    }
}

/// The line of a member's number and of the object that says the same as its reply.
fn same_line(
    alloc: Global,
    member: u8,
    _reply: &[u8],
    object: &String,
) -> Result<String, AllocError>
    requires { SaysSame _reply.now (string_bytes object.now) }
    ensures { IfOk result (λ text. IsMemberObject member _reply.now (string_bytes text)) }
{
    text_line(alloc, member, object)
}

/// The line of a member's number and of no reply of a desk.
fn null_line(alloc: Global, member: u8, _reply: &[u8]) -> Result<String, AllocError>
    requires { IsReplyLine _reply.now → ⊥ }
    ensures { IfOk result (λ text. IsMemberObject member _reply.now (string_bytes text)) }
{
    object_line(alloc, member, "null")
}
