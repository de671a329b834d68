//! A client's session: begin at `serve`.

ghost use Rattle.std.specs.Prelude.{◌≡◌, ◌↔◌, ◌∷◌, ℕ, List, [], None, IfErr, IfSome, IsTrue, MatchBool, OnOk};
ghost use mathlib.Core.List.{IsPrefix};
ghost use Rattle.node.specs.Verdicts.{KnowsMore, SeesOn, known_at};
ghost use Rattle.links.specs.Told.{Told, has_ended, has_written};
ghost use Rattle.desk.specs.Answers.{verdict_reply};
ghost use Rattle.desk.specs.Sessions.{Sitting, sitting, AnswersCommand, AnswersLine, IsAwaitReply, IsLinksReply, IsProposalReply, IsStateTold, IsStatusReply, IsTranscriptTold, ServesTogether};
ghost use Rattle.desk.specs.Turns.{ComesToEnd, FailsToSay, GetsOn, IsLeft, Loses, Refuses, Says, course};

use crate::answering::{
    dossier_for, propose_for, reply_of, standing_links, standing_reply, state_reply, verdict_reply,
};
use crate::command::{Command, parse};
use crate::held::{LineStep, Sheet};
use crate::line::follows;
use crate::reply::Reply;
use crate::request::is_of_browser;
use crate::turns::{Turn, Turns};
use crate::writing::{write_held, write_reply};
use disk::Disk;
use links::Stream;
use node::{Board, Hub, Naming, Pass};
use rounds::Tosser;
use std::sync::Wait;
use std::time::Clock;
use transcripts::Block;

/// The most bytes of a read.
const PIECE: usize = 512;

/// Why a session ended.
#[derive(Clone, Copy, Debug, PartialEq, Eq)]
pub enum DeskEnd {
    /// The client's input ended, and its last line was answered.
    Ended,
    /// A read or a write failed.
    Lost,
    /// A line had more than 4,096 bytes, which was answered by [`Reply::BadLine`].
    TooLong,
    /// A line was the first one of a request of HTTP, or of a handshake of TLS, which was answered
    /// by [`Reply::BadLine`]: a browser sends it before lines that a page or a server chose, and
    /// these are not read.
    Request,
    /// A line asked to follow decisions from this number on. Nothing was written for it: a
    /// [`Follower`](crate::Follower) is told them from now on, and no line behind it is answered.
    Follows(u64),
}

/// The seconds for which a decision is awaited.
const AWAITED: u64 = 10;

/// The things that the clients of a member share: its hub, and the turns in which transcripts are
/// made.
#[derive(Drop)]
pub struct Desk<'a, D: Disk, J: Naming> {
    /// The hub of the member.
    pub hub: &'a Hub<D, J>,
    /// The turns of all its clients.
    pub turns: &'a Turns,
}

/// Answers the lines of a client in turn, until its input ends, a line is too long or one of a
/// browser, one asks to follow decisions, or the stream fails.
///
/// A line ends at the byte 10, and bytes behind the last one are a line too. The replies to the
/// lines of one read are held, at most 4,096 bytes of them, and written together: before the next
/// read, before the session waits for what may take seconds, and at its end. `ASK` and `AWAIT` go
/// by the board; `ASK` takes no lock, and `AWAIT` only that of what the hub shows, and not while it
/// waits; `PROPOSE`, which waits until the member speaks, `STATE`, and `TRANSCRIPT`, which waits
/// for its turn, take the book's; `STATUS` and `LINKS` only that of what the hub shows, behind
/// which nobody waits for a disk. `PROPOSE` and `STATUS` take a toss each. What comes of a proposal
/// is shown before its reply is written, so a `STATUS` behind it counts it. Replies are written
/// without memory, and no lock is held while they are. The pass is of the hub's board, and knows
/// each decision that was written, so a decision that was told is told again. It has seen the
/// account of the hub's book as far as any reply tells of that: no reply is of an older book than
/// the one before.
///
/// Transcripts are made one at a time, and after each the desk rests 15 times as long as that took,
/// so that all of them take a sixteenth of a processor at most.
///
/// It may wait for the stream and for the lock. The stream stays open.
pub fn serve<D: Disk, J: Naming, S: Stream, T: Tosser, R: Wait + Clock>(
    rt: &R,
    desk: Desk<'_, D, J>,
    pass: &mut Pass,
    tosser: &mut T,
    stream: &mut S,
) -> DeskEnd
    requires { pass.old.board ≡ J.names }
    ensures board { pass.new.board ≡ J.names }
    // Each reply is that to its line, by what the pass knows then, by the hub's book as far as the
    // pass has seen it then, and with the tosses of the tosser, one a command.
    ensures serves { ServesTogether (AnswersLine D T.may_toss desk.entry.hub.now J.opening)
        (sitting pass.old tosser.old) (sitting pass.new tosser.new) (S.told stream.old)
        (S.told stream.new) result }
{
    let Desk { hub, turns } = desk;
    let server = Server { rt, hub, turns };
    let mut sheet = Sheet::new();
    for _ in rt.forever() {
        if let Err(end) = server.turn(pass, tosser, &mut sheet, stream) {
            return leave(stream, &mut sheet.replies, end);
        }
    }
    unreachable!()
}

/// A server of clients: the hub of the member, the turns, and the runtime by which it waits for the
/// locks.
#[derive(Drop)]
struct Server<'a, D: Disk, J: Naming, R> {
    rt: &'a R,
    hub: &'a Hub<D, J>,
    turns: &'a Turns,
}

impl<D: Disk, J: Naming, R: Wait + Clock> Server<'_, D, J, R> {
    /// Writes the replies that are held, reads a piece, and answers the lines that it ends.
    fn turn<S: Stream, T: Tosser>(
        &self,
        pass: &mut Pass,
        tosser: &mut T,
        sheet: &mut Sheet,
        stream: &mut S,
    ) -> Result<(), DeskEnd>
        requires { pass.old.board ≡ J.names }
        ensures board { pass.new.board ≡ J.names }
        ensures on { OnOk result (GetsOn (AnswersLine D T.may_toss self.now.hub.now J.opening)
            (course pass.old tosser.old (S.told stream.old) sheet.old) []
            (course pass.new tosser.new (S.told stream.new) sheet.new) []) }
        ensures off { IfErr result (λ why.
            ComesToEnd (AnswersLine D T.may_toss self.now.hub.now J.opening)
            (course pass.old tosser.old (S.told stream.old) sheet.old) []
            (sitting pass.new tosser.new) (S.told stream.new) sheet.new.replies.items why) }
    {
        let mut piece = [0u8; PIECE];
        if let Err(end) = write_held(stream, &mut sheet.replies) {
            return Err(end);
        }
        match stream.read(&mut piece) {
            Ok(0) => Err(self.finish(pass, tosser, sheet, stream)),
            Ok(count) => self.serve_bytes(pass, tosser, sheet, stream, &piece[..count]),
            Err(_) => Err(DeskEnd::Lost),
        }
    }

    /// At the end of the input, answers the line that is held, if it has any bytes.
    fn finish<S: Stream, T: Tosser>(
        &self,
        pass: &mut Pass,
        tosser: &mut T,
        sheet: &mut Sheet,
        stream: &mut S,
    ) -> DeskEnd
        requires { pass.old.board ≡ J.names }
        ensures board { pass.new.board ≡ J.names }
        ensures off { (before : Told) →
            has_written (S.told stream.old) sheet.old.replies.items ≡ has_ended before →
            ComesToEnd (AnswersLine D T.may_toss self.now.hub.now J.opening)
            (record { knows = sitting pass.old tosser.old; told = before; line = sheet.old.line })
            [] (sitting pass.new tosser.new) (S.told stream.new) sheet.new.replies.items result }
    {
        if sheet.line.line().is_empty() {
            return DeskEnd::Ended;
        }
        match self.answer_held(pass, tosser, sheet, stream) {
            Ok(()) => DeskEnd::Ended,
            Err(end) => end,
        }
    }

    /// Reads the bytes of a piece, and answers the lines that they end.
    fn serve_bytes<S: Stream, T: Tosser>(
        &self,
        pass: &mut Pass,
        tosser: &mut T,
        sheet: &mut Sheet,
        stream: &mut S,
        piece: &[u8],
    ) -> Result<(), DeskEnd>
        requires { pass.old.board ≡ J.names }
        ensures board { pass.new.board ≡ J.names }
        ensures on { OnOk result (GetsOn (AnswersLine D T.may_toss self.now.hub.now J.opening)
            (course pass.old tosser.old (S.told stream.old) sheet.old) piece.now
            (course pass.new tosser.new (S.told stream.new) sheet.new) []) }
        ensures off { IfErr result (λ why.
            ComesToEnd (AnswersLine D T.may_toss self.now.hub.now J.opening)
            (course pass.old tosser.old (S.told stream.old) sheet.old) piece.now
            (sitting pass.new tosser.new) (S.told stream.new) sheet.new.replies.items why) }
    {
        for byte in piece {
            if let Err(end) = self.serve_byte(pass, tosser, sheet, stream, *byte) {
                return Err(end);
            }
        }
        Ok(())
    }

    /// Reads a byte, and answers the line that it ends.
    fn serve_byte<S: Stream, T: Tosser>(
        &self,
        pass: &mut Pass,
        tosser: &mut T,
        sheet: &mut Sheet,
        stream: &mut S,
        byte: u8,
    ) -> Result<(), DeskEnd>
        requires { pass.old.board ≡ J.names }
        ensures board { pass.new.board ≡ J.names }
        ensures on { OnOk result ((more : List ℕ) →
            GetsOn (AnswersLine D T.may_toss self.now.hub.now J.opening)
            (course pass.old tosser.old (S.told stream.old) sheet.old) (byte ∷ more)
            (course pass.new tosser.new (S.told stream.new) sheet.new) more) }
        ensures off { IfErr result (λ why. (more : List ℕ) →
            ComesToEnd (AnswersLine D T.may_toss self.now.hub.now J.opening)
            (course pass.old tosser.old (S.told stream.old) sheet.old) (byte ∷ more)
            (sitting pass.new tosser.new) (S.told stream.new) sheet.new.replies.items why) }
    {
        match sheet.line.read(byte) {
            LineStep::More => Ok(()),
            LineStep::Ends => {
                if is_of_browser(sheet.line.line()) {
                    return Err(refuse(stream, &mut sheet.replies, DeskEnd::Request));
                }
                match follows(sheet.line.line()) {
                    Some(number) => Err(DeskEnd::Follows(number)),
                    None => self.answer_held(pass, tosser, sheet, stream),
                }
            }
            LineStep::TooLong => Err(refuse(stream, &mut sheet.replies, DeskEnd::TooLong)),
        }
    }

    /// Answers the line that is held, and begins a new one.
    fn answer_held<S: Stream, T: Tosser>(
        &self,
        pass: &mut Pass,
        tosser: &mut T,
        sheet: &mut Sheet,
        stream: &mut S,
    ) -> Result<(), DeskEnd>
        requires { pass.old.board ≡ J.names }
        ensures board { pass.new.board ≡ J.names }
        ensures line { sheet.new.line ≡ [] }
        ensures ok { OnOk result
            (Says (λ said. AnswersLine D T.may_toss self.now.hub.now J.opening
            (sitting pass.old tosser.old) sheet.old.line said
            (sitting pass.new tosser.new))
            (has_written (S.told stream.old) sheet.old.replies.items)
            (has_written (S.told stream.new) sheet.new.replies.items)) }
        ensures err { IfErr result
            (λ why. (why ≡ DeskEnd.Lost) × FailsToSay
            (λ said. AnswersLine D T.may_toss self.now.hub.now J.opening
            (sitting pass.old tosser.old) sheet.old.line said
            (sitting pass.new tosser.new))
            (has_written (S.told stream.old) sheet.old.replies.items) (S.told stream.new)) }
    {
        let (reply, is_told) = self.reply_to(pass, tosser, sheet, stream);
        sheet.line.clear();
        if !is_told {
            return Err(DeskEnd::Lost);
        }
        write_reply(stream, &mut sheet.replies, &reply)
    }

    /// The reply to the line that is held. The replies that are held are written before it waits
    /// for what may take seconds: it says `false` where that fails.
    fn reply_to<S: Stream, T: Tosser>(
        &self,
        pass: &mut Pass,
        tosser: &mut T,
        sheet: &mut Sheet,
        stream: &mut S,
    ) -> (Reply, bool)
        requires { pass.old.board ≡ J.names }
        ensures board { pass.new.board ≡ J.names }
        ensures reply { AnswersLine D T.may_toss self.now.hub.now J.opening
            (sitting pass.old tosser.old) sheet.old.line result.0
            (sitting pass.new tosser.new) }
        ensures told { MatchBool result.1
            (has_written (S.told stream.new) sheet.new.replies.items
            ≡ has_written (S.told stream.old) sheet.old.replies.items)
            (Loses (has_written (S.told stream.old) sheet.old.replies.items)
            (S.told stream.new) []) }
    {
        match parse(sheet.line.line(), self.hub.header().size()) {
            Err(refusal) => (refusal, true),
            Ok(command) => {
                self.reply_to_command(pass, tosser, command, stream, &mut sheet.replies)
            }
        }
    }

    /// The reply to a command. The replies that are held are written before it waits for what may
    /// take seconds: it says `false` where that fails. `AWAIT` ends at once then. `PROPOSE` and
    /// `TRANSCRIPT` still do what was asked, because the client asked for it before it left.
    fn reply_to_command<S: Stream, T: Tosser>(
        &self,
        pass: &mut Pass,
        tosser: &mut T,
        command: Command,
        stream: &mut S,
        held: &mut Block,
    ) -> (Reply, bool)
        requires { pass.old.board ≡ J.names }
        ensures board { pass.new.board ≡ J.names }
        ensures reply { AnswersCommand D T.may_toss self.now.hub.now J.opening
            (sitting pass.old tosser.old) command result.0
            (sitting pass.new tosser.new) }
        ensures told { MatchBool result.1
            (has_written (S.told stream.new) held.new.items
            ≡ has_written (S.told stream.old) held.old.items)
            (Loses (has_written (S.told stream.old) held.old.items) (S.told stream.new) []) }
    {
        match command {
            Command::Ask { question } => (ask(self.hub, pass, question), true),
            Command::Await { question } => self.await_decision(pass, question, stream, held),
            Command::Propose { question, bit } => {
                let is_told = self.ready_to_propose(stream, held);
                (self.propose(pass, tosser, question, bit), is_told)
            }
            Command::Status => (self.status(pass, tosser), true),
            Command::Transcript { question } => {
                let is_told = tell_held(stream, held);
                (self.transcript_of(pass, question), is_told)
            }
            Command::Links => (self.links(pass), true),
            Command::State { question } => (self.state_of(pass, question), true),
        }
    }

    /// The decision of a question once the board has it; or that there is none, after ten seconds
    /// or at the member's end; or that the member is stopped. It takes no lock while it waits. The
    /// replies that are held are written before it waits: where that fails it says `false`, and
    /// doesn't wait.
    fn await_decision<S: Stream>(
        &self,
        pass: &mut Pass,
        question: u16,
        stream: &mut S,
        held: &mut Block,
    ) -> (Reply, bool)
        requires { pass.old.board ≡ J.names }
        ensures board { pass.new.board ≡ J.names }
        ensures later { IsPrefix pass.old.log pass.new.log }
        ensures more { KnowsMore pass.old.known pass.new.known }
        ensures reply { IsAwaitReply D self.now.hub.now J.opening pass.new.log
            (known_at pass.new.known question) result.0 }
        ensures told { MatchBool result.1
            (has_written (S.told stream.new) held.new.items
            ≡ has_written (S.told stream.old) held.old.items)
            (Loses (has_written (S.told stream.old) held.old.items) (S.told stream.new) []) }
    {
        let begun = self.hub.seconds();
        for _ in self.rt.forever() {
            let decided = self.hub.decided();
            match known(self.hub, pass, question) {
                Some(bit) => return (Reply::Decided(bit), true),
                None => {
                    if let Some(reply) = self.without_decision(pass, begun) {
                        return (reply, true);
                    }
                    if !tell_held(stream, held) {
                        return (Reply::Undecided, false);
                    }
                }
            }
            self.hub.await_news(self.rt, decided);
        }
        unreachable!()
    }

    /// The reply to who waits since that second for a decision that isn't there; none where it is
    /// to wait on.
    fn without_decision(&self, pass: &mut Pass, begun: u64) -> Option<Reply>
        requires { pass.old.board ≡ J.names }
        ensures sees { SeesOn pass.old pass.new }
        ensures reply { IfSome result
            (IsAwaitReply D self.now.hub.now J.opening pass.new.log None) }
    {
        if self.hub.status_for(self.rt, pass).is_none() {
            return Some(Reply::Stopped);
        }
        if self.hub.is_shut() || self.hub.seconds().wrapping_sub(begun) >= AWAITED {
            return Some(Reply::Undecided);
        }
        None
    }

    /// Writes the replies that are held, if a proposal has to wait for the member to speak.
    fn ready_to_propose<S: Stream>(&self, stream: &mut S, held: &mut Block) -> bool
        ensures { MatchBool result
            (has_written (S.told stream.new) held.new.items
            ≡ has_written (S.told stream.old) held.old.items)
            (Loses (has_written (S.told stream.old) held.old.items) (S.told stream.new) []) }
    {
        if !self.hub.is_listening() {
            return true;
        }
        tell_held(stream, held)
    }

    /// Proposes a bit, once the member speaks. What comes of it is shown to others before the book
    /// is given back. A book of which the pass saw more, which there never is, is passed over.
    fn propose<T: Tosser>(&self, pass: &mut Pass, tosser: &mut T, question: u16, bit: bool) -> Reply
        requires { pass.old.board ≡ J.names }
        ensures sees { SeesOn pass.old pass.new }
        ensures reply { IsProposalReply D T.may_toss self.now.hub.now J.opening tosser.old question
            bit pass.new.log result tosser.new }
    {
        let _named = self.hub.header();
        self.hub.await_voice(self.rt);
        let toss = tosser.toss();
        for _ in self.rt.forever() {
            let mut book = self.hub.lock(self.rt);
            if let Some(reply) = propose_for(&mut *book, pass, question, bit, toss) {
                self.hub.post(self.rt, &book);
                return reply;
            }
        }
        unreachable!()
    }

    /// Returns how far the member is, by what the hub shows of it. A toss is drawn, as for a
    /// proposal.
    fn status<T: Tosser>(&self, pass: &mut Pass, tosser: &mut T) -> Reply
        requires { pass.old.board ≡ J.names }
        ensures sees { SeesOn pass.old pass.new }
        ensures reply { IsStatusReply D T.may_toss self.now.hub.now J.opening tosser.old
            pass.new.log result tosser.new }
    {
        let _toss = tosser.toss();
        standing_reply(self.hub.status_for(self.rt, pass))
    }

    /// Returns what was heard of a question, if it shows the decision. The lock is held until it is
    /// known where it stands, and not while the turn is waited for, nor while it is gone through
    /// and written. A book of which the pass saw more, which there never is, is passed over.
    fn transcript_of(&self, pass: &mut Pass, question: u16) -> Reply
        requires { pass.old.board ≡ J.names }
        ensures sees { SeesOn pass.old pass.new }
        ensures told { IsTranscriptTold D self.now.hub.now J.opening pass.new.log question result }
    {
        let _named = self.hub.header();
        let mut turn = self.turn_to_transcribe();
        for _ in self.rt.forever() {
            let book = self.hub.read(self.rt);
            turn.begin(self.rt);
            let asked = dossier_for(&*book, pass, question);
            drop(book);
            if let Some(asked) = asked {
                let reply = reply_of(asked);
                turn.end(self.rt);
                return reply;
            }
        }
        unreachable!()
    }

    /// Waits for the turn to have a transcript made, and until the rest behind the one before is
    /// over. A hub that is shut makes nobody rest.
    fn turn_to_transcribe(&self) -> Turn<'_> {
        let turn = self.turns.take(self.rt);
        for _ in self.rt.forever() {
            if self.hub.is_shut() || !turn.rests(self.rt) {
                return turn;
            }
        }
        unreachable!()
    }

    /// Returns how many links are up, if the member is, by what the hub shows of it.
    fn links(&self, pass: &mut Pass) -> Reply
        requires { pass.old.board ≡ J.names }
        ensures sees { SeesOn pass.old pass.new }
        ensures reply { IsLinksReply D self.now.hub.now J.opening pass.new.log result }
    {
        let count = self.hub.links(self.rt);
        let size = self.hub.header().size();
        standing_links(self.hub.status_for(self.rt, pass), count, size)
    }

    /// Says how a question stands at the member. It waits for the book.
    fn state_of(&self, pass: &mut Pass, question: u16) -> Reply
        requires { pass.old.board ≡ J.names }
        ensures sees { SeesOn pass.old pass.new }
        ensures told { IsStateTold D self.now.hub.now J.opening pass.new.log question result }
    {
        state_reply(self.hub.state_for(self.rt, pass, question))
    }
}

/// Answers a line that ends the session with [`Reply::BadLine`], and says why it ended.
fn refuse<S: Stream>(stream: &mut S, held: &mut Block, why: DeskEnd) -> DeskEnd
    ensures { Refuses (has_written (S.told stream.old) held.old.items)
        (S.told stream.new) held.new.items why result }
{
    match write_reply(stream, held, &Reply::BadLine) {
        Ok(()) => why,
        Err(end) => end,
    }
}

/// The reply that the board has for a question. It takes no lock.
fn ask<D: Disk, J: Naming>(hub: &Hub<D, J>, pass: &mut Pass, question: u16) -> Reply
    requires { pass.old.board ≡ J.names }
    ensures board { pass.new.board ≡ J.names }
    ensures log { pass.new.log ≡ pass.old.log }
    ensures more { KnowsMore pass.old.known pass.new.known }
    ensures reply { result ≡ verdict_reply (known_at pass.new.known question) }
{
    verdict_reply(known(hub, pass, question))
}

/// The board's verdict on a question. It takes no lock.
fn known<D: Disk, J: Naming>(hub: &Hub<D, J>, pass: &mut Pass, question: u16) -> Option<bool>
    requires { pass.old.board ≡ J.names }
    ensures board { pass.new.board ≡ J.names }
    ensures log { pass.new.log ≡ pass.old.log }
    ensures more { KnowsMore pass.old.known pass.new.known }
    ensures known { result ≡ known_at pass.new.known question }
{
    let board: &Board = hub.board();
    board.ask(pass, question)
}

/// Writes the replies that are held, and returns `true` if that didn't fail.
fn tell_held<S: Stream>(stream: &mut S, held: &mut Block) -> bool
    ensures { MatchBool result
        (has_written (S.told stream.new) held.new.items
        ≡ has_written (S.told stream.old) held.old.items)
        (Loses (has_written (S.told stream.old) held.old.items) (S.told stream.new) []) }
{
    match write_held(stream, held) {
        Ok(()) => true,
        Err(_) => false,
    }
}

/// Writes the replies that are held at a session's end, and says how it ended. Where its stream
/// failed it writes nothing.
fn leave<S: Stream>(stream: &mut S, held: &mut Block, end: DeskEnd) -> DeskEnd
    ensures lost { end ≡ DeskEnd.Lost → (result ≡ DeskEnd.Lost)
        × (S.told stream.new ≡ S.told stream.old) }
    ensures over { (end ≡ DeskEnd.Lost → ⊥) →
        IsLeft (has_written (S.told stream.old) held.old.items) (S.told stream.new) end result }
{
    if is_lost(end) {
        return DeskEnd::Lost;
    }
    match write_held(stream, held) {
        Ok(()) => end,
        Err(lost) => lost,
    }
}

/// Returns `true` if the session ended because its stream failed.
fn is_lost(end: DeskEnd) -> bool
    ensures { IsTrue result ↔ (end ≡ DeskEnd.Lost) }
{
    match end {
        DeskEnd::Lost => true,
        DeskEnd::Ended => false,
        DeskEnd::TooLong => false,
        DeskEnd::Request => false,
        DeskEnd::Follows(_) => false,
    }
}
