//! The replies to commands.

ghost use Rattle.std.specs.Prelude.{ℕ, ◌≡◌, Bool, IfNone, IfOk, IfErr, IfSome};
ghost use Rattle.member.specs.Readers.{member_disk};
ghost use Rattle.node.specs.Standings.{IsBookAt};
ghost use Rattle.node.specs.Transcripts.{IsDossier};
ghost use Rattle.node.specs.Verdicts.{SeesOn};
ghost use Rattle.desk.specs.Answers.{IsDossierReply, IsStateReply, IsTranscriptReply, MayBeShown, Proposes, WhyStopped, verdict_reply, asking_reply, links_reply, status_reply, standing_reply, state_reply, standing_links, refusal_reply};
ghost use Rattle.desk.specs.declared.command.Command.TheVariants.{Propose, Ask, Await, Status, Transcript, Links, State};
ghost use Rattle.desk.specs.declared.reply.Reply.TheVariants as reply;

use crate::command::Command;
use crate::reply::Reply;
use disk::Disk;
use member::MemberFault;
use node::{Book, Dossier, LinkCount, Naming, Pass, QuestionState, TranscriptFault};
use questions::Answer;
use rounds::Toss;
use terms::Size;

/// The links that a book alone counts.
const NO_LINKS: LinkCount = LinkCount {
    incoming: 0,
    outgoing: 0,
};

/// The reply to a proposal, for a pass of the book's board, which sees how far the book is: none,
/// and nothing changes, if it saw more.
pub(crate) fn propose_for<D: Disk, J: Naming>(
    book: &mut Book<D, J>,
    pass: &mut Pass,
    question: u16,
    bit: bool,
    toss: Toss,
) -> Option<Reply>
    requires { pass.old.board ≡ J.names }
    ensures none { IfNone result (pass.new ≡ pass.old) }
    ensures sees { IfSome result (λ _. SeesOn pass.old pass.new) }
    ensures old { IfSome result (λ _. IsBookAt J.header J.opening pass.new.log book.old) }
    ensures new { IfSome result (λ _. IsBookAt J.header J.opening pass.new.log book.new) }
    ensures reply { IfSome result
        (λ reply. Proposes book.old question bit toss.0 reply book.new) }
{
    if !pass.see(book) {
        return None;
    }
    let reply = propose(book, question, bit, toss);
    let _named = book.header();
    let _replayed = book.records();
    Some(reply)
}

/// The reply that so many links of a member of a cluster of that size are up, if the member is, of
/// which is told how far it is.
pub(crate) fn standing_links(status: Option<(u64, u16)>, count: LinkCount, size: Size) -> Reply
    ensures { result ≡ standing_links status count size }
{
    match status {
        Some(_) => Reply::Links { count, size },
        None => Reply::Stopped,
    }
}

/// The same, for a pass of the book's board, which sees how far the book is: none, and nothing
/// changes, if it saw more.
pub(crate) fn dossier_for<D: Disk, J: Naming>(
    book: &Book<D, J>,
    pass: &mut Pass,
    question: u16,
) -> Option<Result<Dossier, Reply>>
    requires { pass.old.board ≡ J.names }
    ensures none { IfNone result (pass.new ≡ pass.old) }
    ensures sees { IfSome result (λ _. SeesOn pass.old pass.new) }
    ensures book { IfSome result (λ _. IsBookAt J.header J.opening pass.new.log book.now) }
    ensures ok { IfSome result (λ asked. IfOk asked
        (λ dossier. MayBeShown book.now question × IsDossier book.now question dossier)) }
    ensures err { IfSome result (λ asked. IfErr asked (IsTranscriptReply book.now question)) }
{
    if !pass.see(book) {
        return None;
    }
    Some(dossier_of(book, question))
}

/// The reply that shows what a transcript is made of, if it is there.
pub(crate) fn reply_of(asked: Result<Dossier, Reply>) -> Reply
    ensures ok { IfOk asked (λ dossier. IsDossierReply dossier result) }
    ensures err { IfErr asked (λ reply. result ≡ reply) }
{
    match asked {
        Ok(dossier) => transcript_reply(dossier),
        Err(reply) => reply,
    }
}

/// Does a command on a book, with this toss, and gives the reply. It waits for nobody.
///
/// A proposal is answered [`Reply::Taken`] or [`Reply::Have`] as the book answers it. It is
/// answered
///
/// - [`Reply::Stopped`] where the member is stopped, or is so from this call on because its disk
///   failed or its journal is full;
/// - [`Reply::Memory`] where memory was refused: the disk is as it was, and the member is stopped
///   from now on;
/// - [`Reply::BadQuestion`] where there is no such question, which changes nothing.
///
/// The other commands change nothing. Who awaits a decision is answered as who asks for it:
/// [`crate::serve`] waits. A book knows no links, so by it none is up: [`crate::serve`] counts
/// them. A stopped member still answers [`Command::Ask`] from what it saved, and
/// [`Command::Transcript`] with [`Reply::Stopped`]. A transcript takes memory for what was heard of
/// its question and for the audit of it; where that is refused, the reply is [`Reply::Memory`], and
/// the member goes on.
pub fn answer<D: Disk, J: Naming>(book: &mut Book<D, J>, command: &Command, toss: Toss) -> Reply
    ensures propose { (question : ℕ) (bit : Bool) → command.now ≡ Propose question bit →
        Proposes book.old question bit toss.0 result book.new }
    ensures stopped { (question : ℕ) (bit : Bool) → command.now ≡ Propose question bit →
        result ≡ reply.Stopped → WhyStopped D.failures book.old question bit toss.0 book.new }
    ensures memory { (question : ℕ) (bit : Bool) → command.now ≡ Propose question bit →
        result ≡ reply.Memory → member_disk book.new.member ≡ member_disk book.old.member }
    ensures ask { (question : ℕ) → command.now ≡ Ask question →
        (book.new ≡ book.old) × (result ≡ asking_reply book.old question) }
    ensures awaited { (question : ℕ) → command.now ≡ Await question →
        (book.new ≡ book.old) × (result ≡ asking_reply book.old question) }
    ensures status { command.now ≡ Status → (book.new ≡ book.old)
        × (result ≡ status_reply book.old) }
    ensures transcript { (question : ℕ) → command.now ≡ Transcript question →
        (book.new ≡ book.old) × IsTranscriptReply book.old question result }
    ensures state { (question : ℕ) → command.now ≡ State question →
        (book.new ≡ book.old) × IsStateReply book.old question result }
    ensures links { command.now ≡ Links → (book.new ≡ book.old)
        × (result ≡ links_reply book.old (record { incoming = 0; outgoing = 0 })) }
{
    match *command {
        Command::Propose { question, bit } => propose(book, question, bit, toss),
        Command::Ask { question } => ask(book, question),
        Command::Await { question } => ask(book, question),
        Command::Status => status(book),
        Command::Transcript { question } => transcribe(book, question),
        Command::Links => links_reply(book, NO_LINKS),
        Command::State { question } => state(book, question),
    }
}

/// The reply to a question's asking.
fn ask<D: Disk, J: Naming>(book: &Book<D, J>, question: u16) -> Reply
    ensures { result ≡ asking_reply book.now question }
{
    if question < book.header().size().questions() {
        verdict_reply(book.verdict(question))
    } else {
        Reply::BadQuestion
    }
}

/// Returns the reply that so many links are up, if the member is.
fn links_reply<D: Disk, J: Naming>(book: &Book<D, J>, count: LinkCount) -> Reply
    ensures { result ≡ links_reply book.now count }
{
    if book.is_stopped() {
        return Reply::Stopped;
    }
    let size = book.header().size();
    Reply::Links { count, size }
}

/// Returns what was heard of a question, if it shows the decision.
fn transcribe<D: Disk, J: Naming>(book: &Book<D, J>, question: u16) -> Reply
    ensures { IsTranscriptReply book.now question result }
{
    match dossier_of(book, question) {
        Ok(dossier) => transcript_reply(dossier),
        Err(reply) => reply,
    }
}

/// The reply to a proposal.
pub(crate) fn propose<D: Disk, J: Naming>(
    book: &mut Book<D, J>,
    question: u16,
    bit: bool,
    toss: Toss,
) -> Reply
    ensures reply { Proposes book.old question bit toss.0 result book.new }
    ensures log { book.new.log ≡ book.old.log }
    ensures stopped { result ≡ reply.Stopped →
        WhyStopped D.failures book.old question bit toss.0 book.new }
    ensures memory { result ≡ reply.Memory →
        member_disk book.new.member ≡ member_disk book.old.member }
{
    match book.propose(question, bit, toss) {
        Ok(Answer::Taken(_)) => Reply::Taken,
        Ok(Answer::Have(stands)) => Reply::Have(stands),
        Ok(Answer::Repeat) => Reply::Taken,
        Ok(Answer::Foreign) => Reply::Taken,
        Err(fault) => refusal_reply(fault),
    }
}

/// The reply where the member refuses.
fn refusal_reply(fault: MemberFault) -> Reply
    ensures { result ≡ refusal_reply fault }
{
    match fault {
        MemberFault::Stopped => Reply::Stopped,
        MemberFault::Device => Reply::Stopped,
        MemberFault::Memory => Reply::Memory,
        MemberFault::JournalFull => Reply::Stopped,
        MemberFault::NoSuchQuestion => Reply::BadQuestion,
        MemberFault::NoSuchMember => Reply::Stopped,
    }
}

/// The reply for a verdict.
pub(crate) fn verdict_reply(verdict: Option<bool>) -> Reply
    ensures { result ≡ verdict_reply verdict }
{
    match verdict {
        Some(bit) => Reply::Decided(bit),
        None => Reply::Undecided,
    }
}

/// The reply for how far a member is.
pub(crate) fn standing_reply(status: Option<(u64, u16)>) -> Reply
    ensures { result ≡ standing_reply status }
{
    match status {
        Some((statements, decided)) => Reply::Up {
            statements,
            decided,
        },
        None => Reply::Stopped,
    }
}

/// Returns how far the member is.
fn status<D: Disk, J: Naming>(book: &Book<D, J>) -> Reply
    ensures { result ≡ status_reply book.now }
{
    standing_reply(book.status())
}

/// The reply by how a question of the cluster stands.
pub(crate) fn state_reply(state: Option<QuestionState>) -> Reply
    ensures { result ≡ state_reply state }
{
    match state {
        Some(state) => Reply::State(state),
        None => Reply::Stopped,
    }
}

/// Says how a question stands at the member.
fn state<D: Disk, J: Naming>(book: &Book<D, J>, question: u16) -> Reply
    ensures { IsStateReply book.now question result }
{
    if question < book.header().size().questions() {
        state_reply(book.state(question))
    } else {
        Reply::BadQuestion
    }
}

/// Returns what a transcript of a question is made of, or the reply where there is none.
pub(crate) fn dossier_of<D: Disk, J: Naming>(
    book: &Book<D, J>,
    question: u16,
) -> Result<Dossier, Reply>
    ensures ok { IfOk result
        (λ dossier. MayBeShown book.now question × IsDossier book.now question dossier) }
    ensures err { IfErr result (IsTranscriptReply book.now question) }
{
    if question >= book.header().size().questions() {
        return Err(Reply::BadQuestion);
    }
    if book.is_stopped() {
        return Err(Reply::Stopped);
    }
    match book.dossier(question) {
        Ok(dossier) => Ok(dossier),
        Err(TranscriptFault::NoSuchQuestion) => Err(Reply::BadQuestion),
        Err(TranscriptFault::Undecided) => Err(Reply::Undecided),
        Err(TranscriptFault::Thin) => Err(Reply::Thin),
        Err(TranscriptFault::Memory) => Err(Reply::Memory),
    }
}

/// Returns what was heard of a question, if it shows the decision.
pub(crate) fn transcript_reply(dossier: Dossier) -> Reply
    ensures { IsDossierReply dossier result }
{
    let question = dossier.question();
    match dossier.transcript() {
        Ok(transcript) => Reply::Transcript {
            question,
            transcript,
        },
        Err(TranscriptFault::NoSuchQuestion) => Reply::BadQuestion,
        Err(TranscriptFault::Undecided) => Reply::Undecided,
        Err(TranscriptFault::Thin) => Reply::Thin,
        Err(TranscriptFault::Memory) => Reply::Memory,
    }
}
