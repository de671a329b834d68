//! Transcripts of members: begin at `fetch`.

ghost use Rattle.std.specs.Prelude.{◌≡◌, ◌≢◌, ◌↔◌, ℕ, Bool, Err, IfOk, IfSome, IsTrue, None, Ok, Some};
ghost use Rattle.std.specs.IoError.{error_kind};
ghost use Rattle.std.specs.declared.io.Error.{Error};
ghost use Rattle.std.specs.declared.io.ErrorKind.TheVariants.{OutOfMemory};
ghost use Rattle.terms_prelude.specs.Terms.{Size};
ghost use Rattle.transcripts.specs.Lines.{bit_words};
ghost use Rattle.portal.specs.Fetches.{BeginsAs, IsAuditOf, IsFetchOf, IsSentIn, IsSentOf, answered, is_proven, question_in};
ghost use Rattle.portal.specs.declared.fetching.Fetched.TheVariants as known;
ghost use Rattle.portal.specs.declared.fetching.Sent.{Sent};

use crate::deadline::Deadline;
use crate::following::{PROMPT, connect};
use crate::shared::Shared;
use crate::speaker::Speaker;
use std::alloc::{AllocError, Global};
use std::io;
use std::sync::atomic::Ordering;
use terms::Size;
use transcripts::{AuditFault, audit_text, count_in};

/// The milliseconds in which a member has to send a transcript.
const TO_SEND: u64 = 5000;

/// The milliseconds in which all members that are asked have to.
const IN_ALL: u64 = 20_000;

/// The most bytes of a transcript. The longest true one, of 64 members and all 32 rounds, has 19
/// MB.
const LONGEST: usize = 33_554_432;

/// A transcript that a member sent of a question and a bit.
#[derive(Drop)]
pub(crate) struct Sent {
    pub(crate) member: u8,
    /// Its lines, each with its end.
    pub(crate) text: Vec<u8>,
    /// Set if its statements are proof of the bit.
    pub(crate) proven: bool,
}

/// The members' replies to those who ask for a transcript.
#[derive(Drop)]
pub(crate) enum Fetched {
    /// A member sent this.
    Sent(Sent),
    /// Members answered, and none sent a transcript of the bit.
    Thin,
    /// No member answered.
    Silent,
}

/// Asks the members that told this decision for their transcripts of the question, one after the
/// other, until one sends one that is proof; else the last that was sent is returned.
///
/// # Errors
///
/// An error if an allocation failed, or the clock. Nobody is told that no transcript was sent, or
/// that no member answered, for want of memory.
pub(crate) fn fetch<R: Speaker>(
    rt: &R,
    shared: &Shared,
    question: u64,
    bit: bool,
) -> io::Result<Fetched>
    ensures { IfOk result (λ found. IsFetchOf shared.now.scope.size
        (question_in shared.now.scope.size question) bit found) }
{
    let all = Deadline::new(rt, IN_ALL)?;
    let mut fetched = Fetched::Silent;
    for member in tellers(rt, shared, question, bit)? {
        let Ok(deadline) = sooner(rt, all) else {
            return Ok(fetched);
        };
        fetched = taken(
            fetched,
            sent_by(rt, shared, member, question, bit, deadline),
        )?;
        if is_proven(&fetched) {
            return Ok(fetched);
        }
    }
    Ok(fetched)
}

/// Returns the members to ask: those that told this bit of the question, each time from another one
/// on.
fn tellers<R: Speaker>(
    rt: &R,
    shared: &Shared,
    question: u64,
    bit: bool,
) -> Result<Vec<u8>, AllocError> {
    let mut members = Vec::new(shared.alloc);
    let n = u64::from(shared.scope.size.n()).max(1);
    let first = shared.turns.fetch_add(1, Ordering::SeqCst) % n;
    let book = shared.book.lock(rt);
    for place in 0..n {
        let member = ((first + place) % n) as u8;
        if book.word_of(question, member) == Some(bit) {
            members.push(member)?;
        }
    }
    Ok(members)
}

/// Returns the end of the time of one member, which isn't after that of all.
fn sooner<R: Speaker>(rt: &R, all: Deadline) -> io::Result<Deadline> {
    all.within(rt, TO_SEND)
}

/// Returns the member's transcript of the question and the bit, and what an audit says of it.
/// `None` if it sends another.
fn sent_by<R: Speaker>(
    rt: &R,
    shared: &Shared,
    member: u8,
    question: u64,
    bit: bool,
    deadline: Deadline,
) -> io::Result<Option<Sent>>
    ensures member { IfOk result (λ found. IfSome found (λ sent. sent.member ≡ member)) }
    ensures sent { IfOk result (λ found. IfSome found (λ sent. IsSentOf shared.now.scope.size
        (question_in shared.now.scope.size question) bit sent)) }
{
    let Some(text) = transcript_from(rt, shared, member, question, deadline)? else {
        return Ok(None);
    };
    let size = shared.scope.size;
    let found = sent_in(
        shared.alloc,
        size,
        question_in(size, question),
        bit,
        member,
        text,
    )?;
    Ok(found)
}

/// Returns the text that a member sent, and what an audit says of it. `None` if it isn't a
/// transcript of the question and the bit.
fn sent_in(
    alloc: Global,
    size: Size,
    question: u64,
    bit: bool,
    member: u8,
    text: Vec<u8>,
) -> Result<Option<Sent>, AllocError>
    ensures { IfOk result (λ found. IsSentIn size question bit member text.items found) }
{
    size.recall();
    if !is_of(alloc, &text, question, bit)? {
        return Ok(None);
    }
    match audited(alloc, size, &text)? {
        Some(proven) => Ok(Some(Sent {
            member,
            text,
            proven,
        })),
        None => Ok(None),
    }
}

/// Returns the transcript that a member sends within the time. `None` if it replies something else.
fn transcript_from<R: Speaker>(
    rt: &R,
    shared: &Shared,
    member: u8,
    question: u64,
    deadline: Deadline,
) -> io::Result<Option<Vec<u8>>> {
    let mut lines = connect(rt, shared, member)?;
    let line = format!(in shared.alloc; "TRANSCRIPT {question}\n")?;
    lines.send(rt, line.as_str(), Deadline::new(rt, PROMPT)?)?;
    let head = lines.next(rt, shared.alloc, deadline)?;
    let Some(count) = count_in(&head) else {
        return Ok(None);
    };
    let mut text = Vec::new(shared.alloc);
    put_line(&mut text, &head)?;
    for _ in 0..count {
        if text.len() > LONGEST {
            return Err(io::Error::from(io::ErrorKind::InvalidData));
        }
        let line = lines.next(rt, shared.alloc, deadline)?;
        put_line(&mut text, &line)?;
    }
    Ok(Some(text))
}

/// Appends a line and its end.
fn put_line(text: &mut Vec<u8>, line: &[u8]) -> Result<(), AllocError> {
    text.extend_from_slice(line)?;
    text.push(b'\n')?;
    Ok(())
}

/// Returns the question that a transcript names: that of its epoch in a chain.
fn question_in(size: Size, question: u64) -> u64
    ensures { result ≡ question_in size question }
{
    size.recall();
    question % u64::from(size.questions())
}

/// Returns `true` if the text begins as a transcript of the question and the bit.
fn is_of(alloc: Global, text: &[u8], question: u64, bit: bool) -> Result<bool, AllocError>
    ensures { IfOk result (λ yes. IsTrue yes ↔ BeginsAs question bit text.now) }
{
    let head = format!(in alloc; "transcript {question} {}", bit_words(bit))?;
    Ok(text.starts_with(head.as_bytes()))
}

/// Returns the words of a first line between the question and the count.
fn bit_words(bit: bool) -> &'static str
    ensures { result.now ≡ bit_words bit }
{
    if bit { "bit 1 count " } else { "bit 0 count " }
}

/// Returns what an audit says of the text: `None` if it isn't a transcript.
fn audited(alloc: Global, size: Size, text: &[u8]) -> Result<Option<bool>, AllocError>
    ensures { IfOk result (λ found. IsAuditOf size text.now found) }
{
    let mut verdict: Vec<u8> = Vec::new(alloc);
    match audit_text(alloc, text, size, &mut verdict) {
        Ok(status) => Ok(Some(status == 0)),
        Err(AuditFault::Line(_)) => Ok(None),
        Err(AuditFault::Stream | AuditFault::Memory) => Err(AllocError),
    }
}

/// Returns what is known after this came of a member: a transcript that it sent, or that it sent
/// none. A connection that failed changes nothing.
///
/// # Errors
///
/// The error if memory was refused.
fn taken(fetched: Fetched, found: io::Result<Option<Sent>>) -> io::Result<Fetched>
    ensures sent { (sent : Sent) → found ≡ Ok (Some sent) → result ≡ Ok (known.Sent sent) }
    ensures none { found ≡ Ok None → result ≡ Ok (answered fetched) }
    ensures failed { (error : Error) → found ≡ Err error → error_kind error ≢ OutOfMemory →
        result ≡ Ok fetched }
    ensures refused { (error : Error) → found ≡ Err error → error_kind error ≡ OutOfMemory →
        result ≡ Err error }
    ensures kept { (size : Size) (question : ℕ) (bit : Bool) → IsFetchOf size question bit fetched →
        IfOk found (λ one. IfSome one (λ sent. IsSentOf size question bit sent)) →
        IfOk result (λ now. IsFetchOf size question bit now) }
{
    match found {
        Ok(Some(sent)) => Ok(Fetched::Sent(sent)),
        Ok(None) => Ok(answered(fetched)),
        Err(error) => {
            if error.kind() == io::ErrorKind::OutOfMemory {
                return Err(error);
            }
            Ok(fetched)
        }
    }
}

/// Returns what is known after a member answered with no transcript.
fn answered(fetched: Fetched) -> Fetched
    ensures { result ≡ answered fetched }
{
    match fetched {
        Fetched::Silent => Fetched::Thin,
        Fetched::Thin => Fetched::Thin,
        Fetched::Sent(sent) => Fetched::Sent(sent),
    }
}

/// Returns `true` if a transcript was sent that is proof.
fn is_proven(fetched: &Fetched) -> bool
    ensures { result ≡ is_proven fetched.now }
{
    match fetched {
        Fetched::Sent(sent) => sent.proven,
        Fetched::Thin | Fetched::Silent => false,
    }
}
