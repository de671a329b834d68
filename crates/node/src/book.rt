//! The book: a member, what happened since its opening, and what it published. Begin at `Book`.
ghost use Rattle.std.specs.Prelude.{◌≡◌, ◌⊎◌, ◌↔◌, ◌+◌, ◌<◌, ◌≤◌, ◌^◌, ℕ, List, [], ◌∷◌, ◌++◌, length, take, drop, Bool, true, false, IfOk, IfErr, IfSome, OnOk, OnErr, Some, None, IsErrOf, IsSome, IfNone, MatchBool, slice_get, vec_len};
ghost use Rattle.std.specs.Arc.{arc_value};
ghost use mathlib.Core.List.{IsPrefix};
ghost use Rattle.terms_prelude.specs.Terms.{Hearing, Proposal, Record, records_of, records_of_all, Header};
ghost use Rattle.questions.specs.Replay.Entry.{Heard, Proposed};
ghost use Rattle.questions.specs.Replies.{reply_of};
ghost use Rattle.world.specs.World.{World, IsCorrect};
ghost use Rattle.member.specs.Answers.{verdict_of, IsFull};
ghost use Rattle.member.specs.Groups.{hearing_of, hearings, replies_of, AllCome, IsFullOfAll, MayAllBeCutOff};
ghost use Rattle.member.specs.Life.{MemberIsAt, DoesStep, Comes, MayBeCutOff};
ghost use Rattle.world.specs.World.Step.{Hears};
ghost use Rattle.member.specs.Outcomes.{HasSaved, StaysOn};
ghost use Rattle.member.specs.Sealed.{sealed_from};
ghost use Rattle.member.specs.Sound.{IsSound};
ghost use Rattle.member.specs.Readers.{member_disk, member_header, member_saved, member_is_stopped, MemberStandsFor};
ghost use Rattle.node.specs.Accounts.{with_group};
ghost use Rattle.node.specs.Books.{Applies, RefusesEvent, IsJustOpened, IsReplayed, lengthened, is_numbered, decided_below};
ghost use Rattle.node.specs.Decisions.{AreDecisions};
ghost use Rattle.node.specs.Entries.{noted};
ghost use Rattle.node.specs.Firsts.{HandsIn};
ghost use Rattle.node.specs.Groups.{heard_from, said_in, AppliesAll, RefusesAll, LivesOnAll};
ghost use Rattle.node.specs.Keeps.{AreDecided, IsTied};
ghost use Rattle.node.specs.Lives.{LivesOn, Spares};
ghost use Rattle.node.specs.Settled.{is_settled};
ghost use Rattle.node.specs.Standings.{status_of};
ghost use Rattle.node.specs.States.{IsState};
ghost use Rattle.node.specs.Transcripts.{IsDossier, IsTranscript, HasNoDossier, HasNoTranscript};
ghost use Rattle.node.specs.Verdicts.{known_at, KnowsMore};
ghost use Rattle.node.specs.Views.{ended_of};

use crate::account::{Account, Witness};
use crate::board::{Board, Pass};
use crate::ended::Ended;
use crate::entry::Entry;
use crate::history::History;
use crate::line::{add_all_taken, group_with_room};
use crate::marks::{Firsts, keep_all};
use crate::order::Decision;
use crate::publisher::Publisher;
use crate::seat::Seat;
use crate::settle::is_settled;
use crate::showing::part;
use crate::state::{QuestionState, state_at};
use crate::tally::Tally;
use crate::transcript::{Dossier, Transcript, TranscriptFault};
use disk::Disk;
use member::{Member, MemberFault, Sealed, bad_number, records_in};
use questions::Answer;
use rounds::Toss;
use std::alloc::Global;
use std::marker::{Brand, Model};
use std::sync::Arc;
use terms::{Header, Memory, Record, Statement};

/// Names a hub, by its board, the header of its member, and the records with which that was opened:
/// contracts say by it that a book, its hub and a pass are of one board, that a seat counts by the
/// account of the book behind its hub's lock, and that a book and its hub are of one life of one
/// member. A program is generic over it, and is called at `Brand`.
pub trait Naming {
    ghost use Rattle.std.specs.Prelude.{List};
    ghost use Rattle.node.specs.Accounts.{BoardName};

    ghost names: { BoardName };

    ghost header: { Header };

    ghost opening: { List Record };
}

impl Naming for Brand {
    ghost use Rattle.std.specs.Prelude.{[]};

    ghost names = { record {
      cells = [];
      account = record { number = 0; log_name = 0; cells_name = 0 };
    } };

    ghost header = { record {
      cluster = 0;
      size = record { n = 0; t = 0; questions = 0 };
      me = 0;
    } };

    ghost opening = { [] };
}

/// A member with what happened since its opening: its history has each event that it took, in
/// order, and a member that opens with the same records and is told the history with its tosses
/// does the same.
///
/// The history stays in memory, at 15 bytes an entry, in blocks of 4,096 entries. Nothing that was
/// noted is copied when it grows: a block is begun, and where a group found no room in the one
/// before, up to 255 entries of that one stay unused. Of each sender one Echo and one Ready a place
/// are taken, one Initial of each of its own places, and of each question one proposal. With 32
/// members and 256 questions these are 51,118,336 entries at most, or 0.77 GB; where all are
/// correct and each question is decided in round 1 they are some 3.2 million, or 48 MB.
#[derive(Drop)]
pub struct Book<D: Disk, J: Naming> {
    alloc: Global,
    member: Member<D>,
    opened: usize,
    history: History,
    publisher: Publisher,
    tally: Tally,
    account: Account<J>,
}

impl<D: Disk, J: Naming> Model for Book<D, J> {
    ghost use Rattle.std.specs.Prelude.{◌≡◌, take};
    ghost use Rattle.member.specs.Readers.{member_saved};
    ghost use Rattle.node.specs.Views.{BookView};

    ghost Value = { BookView D };

    ghost use Rattle.node.specs.Keeps.{IsKept, IsTied};

    ghost view = { λ b.
        record {
          member = b.member;
          opening = take b.opened (member_saved b.member);
          history = b.history.entries;
          known = b.publisher.known;
          log = b.account;
        } };

    ghost invariant = { λ b. IsKept D.Disk J.names.cells J.header b.publisher.cells b.member
        b.opened b.history.entries b.publisher.known b.tally
        × IsTied b.member b.history.entries b.account
        × (take b.opened (member_saved b.member) ≡ J.opening) };
}

impl<D: Disk, J: Naming> Book<D, J> {
    /// A book over a member that heard nothing since its opening, with an empty history. Its
    /// decisions are published at once.
    pub(crate) fn open(
        alloc: Global,
        member: Member<D>,
        board: Arc<Board>,
        account: Account<J>,
    ) -> Result<Book<D, J>, Memory>
    where
        D: Drop,
        requires sound { IsSound D.Disk member }
        requires fresh { member_is_stopped member ≡ false →
            MemberStandsFor member (member_saved member) [] }
        requires header { member_header member ≡ J.header }
        requires opening { member_saved member ≡ J.opening }
        requires board { arc_value board ≡ J.names }
        requires account { account ≡ [] }
        ensures { IfOk result (λ book. IsJustOpened member book) }
    {
        let opened = member.records().len();
        let mut publisher = Publisher::new(alloc, board)?;
        let tally = Tally::of(alloc, &member)?;
        publish(&member, &mut publisher, member.records());
        Ok(Book {
            alloc,
            member,
            opened,
            history: History::new(alloc),
            publisher,
            tally,
            account,
        })
    }

    /// Hands in a statement of the seat's peer, with this toss. The answer is that of
    /// [`Member::hear`]; one that takes the statement lengthens the history by it. Each answer
    /// counts for the seat, and a fault doesn't.
    ///
    /// Room in history and seat is made first, and the account gains the statement: where a member
    /// that isn't stopped has no room, it is stopped, with [`MemberFault::Memory`], and no call of
    /// the device is made. The other faults are the member's, and those that stop it stop the book.
    /// After each fault the records, the history and the seat are as they were.
    pub fn apply(
        &mut self,
        seat: &mut Seat<J>,
        statement: &Statement,
        toss: Toss,
    ) -> Result<Answer, MemberFault>
        ensures answer { IfOk result
            (λ a. Applies self.old (Heard seat.old.peer statement.now toss.0) a self.new) }
        ensures saved { IfOk result
            (λ a. HasSaved D.Disk self.old.member (records_of (reply_of a)) self.new.member) }
        ensures seat { OnOk result (HandsIn seat.old seat.new (statement.now ∷ []) 1) }
        // In the world it is the member's event, or the member hears nothing and goes down.
        ensures life { (header : Header) (liars : ℕ → Bool) (w : World) →
            IsCorrect header.size liars header.me → MemberIsAt D.Disk header w self.old.member →
            Comes w (Hearing seat.old.peer statement.now) →
            LivesOn D.Disk header liars w toss.0
            (Hearing seat.old.peer statement.now) result self.old.member self.new.member }
        // A crash within the call: it made no call of the device, or it is that event with all
        // records in doubt.
        ensures cut { (header : Header) (liars : ℕ → Bool) (w : World) →
            IsCorrect header.size liars header.me → MemberIsAt D.Disk header w self.old.member →
            Comes w (Hearing seat.old.peer statement.now) →
            MayBeCutOff D.Disk header liars w toss.0
            (Hearing seat.old.peer statement.now) self.old.member self.new.member }

        ensures fault { IfErr result
            (λ f. RefusesEvent self.old (Hearing seat.old.peer statement.now) f self.new) }
        ensures kept { OnErr result (seat.new ≡ seat.old) }
        ensures disk { IfErr result
            (λ f. Spares D.Disk (IsFull self.old.member toss.0
            (Hearing seat.old.peer statement.now)) f self.old.member self.new.member) }
        ensures stays { StaysOn D.Disk self.old.member self.new.member }
    {
        if self.member.is_stopped() {
            return Err(MemberFault::Stopped);
        }
        let group = [(seat.peer, *statement, toss)];
        if let Some(fault) = bad_number(self.member.header().size(), &group) {
            return Err(fault);
        }
        if !make_ready_for_one(
            &mut self.history,
            &mut seat.firsts,
            &mut self.account,
            &seat.seen,
            &(seat.peer, *statement, toss),
        ) {
            self.member.stop();
            return Err(MemberFault::Memory);
        }
        let before = self.member.records().len();
        match self.member.hear(seat.peer, statement, toss) {
            Ok(answer) => {
                seat.firsts.keep(seat.peer, statement);
                seat.next = seat.next.saturating_add(1);
                seat.seen = self.account.witness();
                add_if_taken(
                    &mut self.history,
                    Entry::Heard {
                        from: seat.peer,
                        statement: *statement,
                        toss,
                    },
                    &answer,
                );
                publish(&self.member, &mut self.publisher, records_in(&answer));
                self.tally.add_behind(self.member.records(), before);
                Ok(answer)
            }
            Err(fault) => Err(fault),
        }
    }

    /// Hands in statements of the seat's peer as one group, each with its toss: at most 256, and
    /// perhaps none. The answers are those of [`Book::hear_all`]. Each answer counts for the seat,
    /// and after a fault none does.
    ///
    /// Room in the seat, and for the list that the member hears, is made first: where a member that
    /// isn't stopped has none, it is stopped, with [`MemberFault::Memory`], and no call of the
    /// device is made. After each fault the records, the history and the seat are as they were.
    pub fn apply_all(
        &mut self,
        seat: &mut Seat<J>,
        events: &[(Statement, Toss)],
    ) -> Result<Vec<Answer>, MemberFault>
        requires few { length events.now ≤ 256 }
        ensures answer { IfOk result (λ answers.
            AppliesAll self.old (heard_from seat.old.peer events.now) answers.items self.new) }
        ensures length { IfOk result (λ answers. length answers.items ≡ length events.now) }
        ensures saved { IfOk result
            (λ answers. HasSaved D.Disk self.old.member
            (records_of_all (replies_of answers.items)) self.new.member) }
        ensures four_calls { D.keeps (member_disk self.new.member) → IfOk result (λ answers.
            0 < length (records_of_all (replies_of answers.items)) →
            D.moment (member_disk self.new.member) ≡ D.moment (member_disk self.old.member) + 4) }
        ensures seat { OnOk result
            (HandsIn seat.old seat.new (said_in events.now) (length events.now)) }
        // In the world it is the member's event, or the member hears nothing and goes down.
        ensures life { (header : Header) (liars : ℕ → Bool) (w : World) →
            IsCorrect header.size liars header.me → MemberIsAt D.Disk header w self.old.member →
            AllCome w (heard_from seat.old.peer events.now) →
            LivesOnAll D.Disk header liars w
            (heard_from seat.old.peer events.now) result self.old.member self.new.member }
        // A crash within the call: it made no call of the device, or it is that event with all
        // records in doubt.
        ensures cut { (header : Header) (liars : ℕ → Bool) (w : World) →
            IsCorrect header.size liars header.me → MemberIsAt D.Disk header w self.old.member →
            AllCome w (heard_from seat.old.peer events.now) →
            MayAllBeCutOff D.Disk header liars w
            (heard_from seat.old.peer events.now) self.old.member self.new.member }

        ensures fault { IfErr result
            (λ f. RefusesAll self.old (heard_from seat.old.peer events.now) f self.new) }
        ensures kept { OnErr result (seat.new ≡ seat.old) }
        ensures disk { IfErr result
            (λ f. Spares D.Disk (IsFullOfAll self.old.member (heard_from seat.old.peer events.now))
            f self.old.member self.new.member) }
        ensures memory_only_at_some { IsErrOf result MemberFault.Memory → 0 < length events.now }
        ensures stays { StaysOn D.Disk self.old.member self.new.member }
    {
        if self.member.is_stopped() {
            return Err(MemberFault::Stopped);
        }
        let Some(group) = group_with_room(self.alloc, seat.peer, events, &mut seat.firsts) else {
            self.member.stop();
            return Err(MemberFault::Memory);
        };
        if !goes_on(&self.account, &seat.seen, events) {
            self.member.stop();
            return Err(MemberFault::Memory);
        }
        match self.hear_all(&group) {
            Ok(answers) => {
                keep_all(&mut seat.firsts, seat.peer, events);
                seat.next = seat.next.saturating_add(events.len() as u64);
                see(&mut seat.seen, self.witness(), events);
                Ok(answers)
            }
            Err(fault) => Err(fault),
        }
    }

    /// Hears statements of any members as one group, each with its sender and its toss: at most
    /// 256, and perhaps none. The answers are those to one after another, and each that takes its
    /// statement lengthens the history by it. The records of all answers are saved as one batch, by
    /// four calls of the device, as [`Member::hear_all`] says.
    ///
    /// Room in the history is made first: where a member that isn't stopped has none, it is
    /// stopped, with [`MemberFault::Memory`], and no call of the device is made. The other faults
    /// are the member's, and those that stop it stop the book. After each fault the records and the
    /// history are as they were. The account has the group before the member hears it, so a member
    /// that refuses it then, for another cause than a bad number, is stopped.
    pub(crate) fn hear_all(
        &mut self,
        group: &Vec<(u8, Statement, Toss)>,
    ) -> Result<Vec<Answer>, MemberFault>
        requires few { length group.now.items ≤ 256 }
        ensures answer { IfOk result
            (λ answers. AppliesAll self.old (hearings group.now.items) answers.items self.new) }
        ensures length { IfOk result (λ answers. length answers.items ≡ length group.now.items) }
        ensures saved { IfOk result
            (λ answers. HasSaved D.Disk self.old.member
            (records_of_all (replies_of answers.items)) self.new.member) }
        ensures four_calls { D.keeps (member_disk self.new.member) → IfOk result (λ answers.
            0 < length (records_of_all (replies_of answers.items)) →
            D.moment (member_disk self.new.member) ≡ D.moment (member_disk self.old.member) + 4) }
        // In the world it is the member's event, or the member hears nothing and goes down.
        ensures life { (header : Header) (liars : ℕ → Bool) (w : World) →
            IsCorrect header.size liars header.me → MemberIsAt D.Disk header w self.old.member →
            AllCome w (hearings group.now.items) →
            LivesOnAll D.Disk header liars w
            (hearings group.now.items) result self.old.member self.new.member }
        // A crash within the call: it made no call of the device, or it is that event with all
        // records in doubt.
        ensures cut { (header : Header) (liars : ℕ → Bool) (w : World) →
            IsCorrect header.size liars header.me → MemberIsAt D.Disk header w self.old.member →
            AllCome w (hearings group.now.items) →
            MayAllBeCutOff D.Disk header liars w
            (hearings group.now.items) self.old.member self.new.member }

        ensures fault { IfErr result
            (λ f. RefusesAll self.old (hearings group.now.items) f self.new) }
        ensures disk { IfErr result
            (λ f. Spares D.Disk (IsFullOfAll self.old.member (hearings group.now.items)) f
            self.old.member self.new.member) }
        ensures memory_only_at_some { IsErrOf result MemberFault.Memory →
            0 < length group.now.items }
        ensures stays { StaysOn D.Disk self.old.member self.new.member }
    {
        if self.member.is_stopped() {
            return Err(MemberFault::Stopped);
        }
        let events = group.as_slice();
        if let Some(fault) = bad_number(self.member.header().size(), events) {
            return Err(fault);
        }
        if !make_ready(&mut self.history, &mut self.account, group) {
            self.member.stop();
            return Err(MemberFault::Memory);
        }
        let before = self.member.records().len();
        match self.member.hear_all(events) {
            Ok(answers) => {
                add_all_taken(&mut self.history, events, &answers);
                publish_all(&self.member, &mut self.publisher, &answers);
                self.tally.add_behind(self.member.records(), before);
                Ok(answers)
            }
            Err(fault) => Err(fault),
        }
    }

    /// Takes a bit that is proposed for the question, with this toss. The answer is that of
    /// [`Member::propose`]; one that takes the bit lengthens the history by it.
    ///
    /// Room in the history is made first: where a member that isn't stopped has none, it is
    /// stopped, with [`MemberFault::Memory`], and no call of the device is made. The other faults
    /// are the member's, and those that stop it stop the book. After each fault the records and the
    /// history are as they were.
    pub fn propose(&mut self, question: u16, bit: bool, toss: Toss) -> Result<Answer, MemberFault>
        ensures answer { IfOk result
            (λ a. Applies self.old (Proposed question bit toss.0) a self.new) }
        ensures saved { IfOk result
            (λ a. HasSaved D.Disk self.old.member (records_of (reply_of a)) self.new.member) }
        // In the world it is the member's event, or the member hears nothing and goes down.
        ensures life { (header : Header) (liars : ℕ → Bool) (w : World) →
            IsCorrect header.size liars header.me → MemberIsAt D.Disk header w self.old.member →
            Comes w (Proposal question bit) →
            LivesOn D.Disk header liars w toss.0
            (Proposal question bit) result self.old.member self.new.member }
        // A crash within the call: it made no call of the device, or it is that event with all
        // records in doubt.
        ensures cut { (header : Header) (liars : ℕ → Bool) (w : World) →
            IsCorrect header.size liars header.me → MemberIsAt D.Disk header w self.old.member →
            Comes w (Proposal question bit) →
            MayBeCutOff D.Disk header liars w toss.0
            (Proposal question bit) self.old.member self.new.member }

        ensures fault { IfErr result
            (λ f. RefusesEvent self.old (Proposal question bit) f self.new) }
        ensures disk { IfErr result
            (λ f. Spares D.Disk (IsFull self.old.member toss.0 (Proposal question bit)) f
            self.old.member self.new.member) }
        ensures log { self.new.log ≡ self.old.log }
        ensures stays { StaysOn D.Disk self.old.member self.new.member }
    {
        if self.member.is_stopped() {
            return Err(MemberFault::Stopped);
        }
        if !self.history.make_room(1) {
            self.member.stop();
            return Err(MemberFault::Memory);
        }
        let before = self.member.records().len();
        match self.member.propose(question, bit, toss) {
            Ok(answer) => {
                add_if_taken(
                    &mut self.history,
                    Entry::Proposed {
                        question,
                        bit,
                        toss,
                    },
                    &answer,
                );
                publish(&self.member, &mut self.publisher, records_in(&answer));
                self.tally.add_behind(self.member.records(), before);
                Ok(answer)
            }
            Err(fault) => Err(fault),
        }
    }

    /// The saved records, in order. They are those of the replay of the history over the opening
    /// records.
    pub fn records(&self) -> &[Record]
        ensures saved { result.now ≡ member_saved self.now.member }
        ensures replay { IsReplayed self.now.member self.now.opening self.now.history }
        ensures opening { self.now.opening ≡ J.opening }
        ensures sound { IsSound D.Disk self.now.member }
        // While it isn't stopped it has of each link just the firsts of what its account has of it.
        ensures account { IsTied self.now.member self.now.history self.now.log }
    {
        self.member.records()
    }

    /// The statements of the saved records, numbered from 0 without a gap.
    pub fn outbox(&self) -> &[Sealed]
        ensures statements { result.now ≡ sealed_from 0 (member_saved self.now.member) }
        ensures numbered { is_numbered 0 result.now ≡ true }
        ensures replay { IsReplayed self.now.member self.now.opening self.now.history }
    {
        self.member.outbox()
    }

    /// The statements of the outbox from that number on, at most so many: none where it is past the
    /// end. Where there is no memory for them nothing changes.
    pub fn pull(&self, from: u64, max: usize) -> Result<Vec<Sealed>, Memory>
        ensures items { IfOk result
            (λ v. v.items ≡ take max (drop from (sealed_from 0 (member_saved self.now.member)))) }
        ensures numbered { IfOk result (λ v. is_numbered from v.items ≡ true) }
        ensures fits { IfOk result (λ v. 0 < vec_len v → from + vec_len v < 2 ^ 64) }
    {
        part(self.alloc, self.outbox(), from, max)
    }

    /// The bit that the question was decided for, in this life or an earlier one; none where there
    /// is no such question.
    pub fn verdict(&self, question: u16) -> Option<bool>
        ensures decided { result ≡ verdict_of (member_saved self.now.member) question }
        ensures asked { (member_header self.now.member).size.questions ≤ question → result ≡ None }
    {
        self.tally.verdict(question)
    }

    /// Returns how the question stands at the member: none where there is no such question, and
    /// where it isn't decided and the member is stopped. It goes through no records.
    pub fn state(&self, question: u16) -> Option<QuestionState>
        ensures { IsState self.now question result }
    {
        if let Some(bit) = self.verdict(question) {
            return Some(QuestionState::Decided(bit));
        }
        if question >= self.header().size().questions() || self.is_stopped() {
            return None;
        }
        Some(state_at(self.member.progress(question)))
    }

    /// The decisions that the member has saved, in this life and in earlier ones, in the order of
    /// its journal: all of them, where they are fewer than the questions, as they are of a correct
    /// member.
    pub fn decisions(&self) -> &[Decision]
        ensures { AreDecisions J.header.size.questions (member_saved self.now.member) result.now }
    {
        self.tally.decisions()
    }

    /// Returns what was heard of a question that is decided, since the member was opened: the bit,
    /// and each statement on the question with its sender, in order. An audit of it is true:
    /// whoever has the transcript finds by it alone that the bit may be decided.
    ///
    /// Refused with the first that holds: [`TranscriptFault::NoSuchQuestion`];
    /// [`TranscriptFault::Undecided`]; [`TranscriptFault::Memory`]; [`TranscriptFault::Thin`],
    /// where what was heard since the opening is no proof of the bit, which was decided before. It
    /// goes through the whole history. A member that is stopped gives what it heard until then.
    pub fn transcript(&self, question: u16) -> Result<Transcript, TranscriptFault>
        ensures ok { IfOk result (IsTranscript self.now question) }
        ensures err { IfErr result (HasNoTranscript self.now question) }
    {
        match self.dossier(question) {
            Ok(dossier) => dossier.transcript(),
            Err(fault) => Err(fault),
        }
    }

    /// Returns what a transcript of a question that is decided is made of
    /// ([`Dossier::transcript`]), without the book: what takes long is done once the book was given
    /// back. It goes through no more than the last block of the history.
    ///
    /// Refused with the first that holds: [`TranscriptFault::NoSuchQuestion`];
    /// [`TranscriptFault::Undecided`]; [`TranscriptFault::Memory`].
    pub fn dossier(&self, question: u16) -> Result<Dossier, TranscriptFault>
        ensures ok { IfOk result (IsDossier self.now question) }
        ensures err { IfErr result (HasNoDossier self.now question) }
    {
        let size = self.member.header().size();
        if question >= size.questions() {
            return Err(TranscriptFault::NoSuchQuestion);
        }
        let Some(bit) = self.verdict(question) else {
            return Err(TranscriptFault::Undecided);
        };
        match Dossier::of(self.alloc, size, question, bit, &self.history) {
            Ok(dossier) => Ok(dossier),
            Err(_) => Err(TranscriptFault::Memory),
        }
    }

    /// Returns `true` if its member is stopped: then it takes no event.
    pub fn is_stopped(&self) -> bool
        ensures { result ≡ member_is_stopped self.now.member }
    {
        self.member.is_stopped()
    }

    /// Its account as it is, for who is to know that it was reached.
    pub(crate) fn witness(&self) -> Witness<J>
        ensures { result ≡ self.now.log }
    {
        self.account.witness()
    }

    /// Stops its member: each later event is refused. What it saved and what happened stay, and no
    /// call of the device is made.
    pub fn stop(&mut self)
        ensures stopped { member_is_stopped self.new.member ≡ true }
        ensures saved { member_saved self.new.member ≡ member_saved self.old.member }
        ensures disk { member_disk self.new.member ≡ member_disk self.old.member }
        ensures history { self.new.history ≡ self.old.history }
        ensures opening { self.new.opening ≡ self.old.opening }
        ensures log { self.new.log ≡ self.old.log }
        // In the world a member that is up hears nothing and goes down, with no record in doubt.
        ensures life { (header : Header) (liars : ℕ → Bool) (w : World) →
            IsCorrect header.size liars header.me → MemberIsAt D.Disk header w self.old.member →
            member_is_stopped self.old.member ≡ false →
            DoesStep D.Disk header liars w (Hears header.me [] [] false) self.new.member }
    {
        self.member.stop();
    }

    /// Returns whose journal it is: that of its hub's member.
    pub fn header(&self) -> Header
        ensures member { result ≡ member_header self.now.member }
        ensures hub { result ≡ J.header }
    {
        self.member.header()
    }

    /// Returns how many statements are in the outbox, and how many questions are decided; none
    /// where the member is stopped. It goes through no records and no questions.
    pub fn status(&self) -> Option<(u64, u16)>
        ensures outbox { IfSome result
            (λ status. status.0 ≡ length (sealed_from 0 (member_saved self.now.member))) }
        ensures decided { IfSome result
            (λ status. status.1 ≡ decided_below (member_header self.now.member).size.questions
            (member_saved self.now.member)) }
        ensures up { IsSome result ↔ (member_is_stopped self.now.member ≡ false) }
        ensures status { result ≡ status_of self.now }
    {
        if self.member.is_stopped() {
            return None;
        }
        Some((self.outbox().len() as u64, self.tally.decided()))
    }

    /// Returns how many events the history has.
    pub fn events(&self) -> usize
        ensures { result ≡ length self.now.history }
    {
        self.history.len()
    }

    /// The event at this place of the history, counted from 0. It goes through the blocks before.
    pub fn event(&self, at: usize) -> Option<Entry>
        ensures some { IfSome result (λ entry. slice_get self.now.history at ≡ Some (noted entry)) }
        ensures none { IfNone result (length self.now.history ≤ at) }
    {
        self.history.get(at)
    }

    /// Returns what is left of its life.
    pub(crate) fn into_ended(self) -> Ended<D>
        ensures life { result ≡ ended_of self }
        ensures opening { result.opening ≡ J.opening }
        ensures header { member_header result.member ≡ J.header }
        ensures replay { IsReplayed result.member result.opening result.history }
    {
        let Book {
            alloc: _,
            member,
            opened,
            history,
            publisher: _,
            tally: _,
            account: _,
        } = self;
        Ended {
            member,
            opened,
            history,
        }
    }

    /// Returns `true` if the seats are those of all members, each with the link part of its peer.
    pub(crate) fn is_settled(&self, seats: &[Seat<J>]) -> bool
        ensures { result
            ≡ is_settled (member_header self.now.member).size.n self.now.history seats.now }
    {
        is_settled(self.member.header().size().n(), &self.history, seats)
    }

    /// Compares the book with its board. What the book knows to stand there for the question is its
    /// decision, and a pass of the board that knows a verdict of the question knows the same one.
    /// Nothing changes.
    pub fn meet(&mut self, pass: &mut Pass, question: u16)
        requires { pass.old.board ≡ J.names }
        ensures same { (self.new ≡ self.old) × (pass.new ≡ pass.old) }
        ensures decision { IfSome (known_at self.old.known question) (λ b.
            verdict_of (member_saved self.old.member) question ≡ Some b) }
        ensures agree { IfSome (known_at pass.old.known question) (λ b.
            IfSome (known_at self.old.known question) (λ c. c ≡ b)) }
    {
        self.publisher.meet(pass, question);
    }
}

/// Notes a statement in the account, as a group, once there is room for one more entry and one more
/// first, where the account is no shorter than it was seen. Else, or where the account is full, it
/// stays.
fn make_ready_for_one<J: Naming>(
    history: &mut History,
    firsts: &mut Firsts,
    account: &mut Account<J>,
    seen: &Witness<J>,
    one: &(u8, Statement, Toss),
) -> bool
    ensures history { history.new.entries ≡ history.old.entries }
    ensures firsts { firsts.new.said ≡ firsts.old.said }
    ensures room { result ≡ true → (0 < history.new.room) × (0 < firsts.new.room) }
    ensures begins { result ≡ true → IsPrefix seen.now account.old }
    ensures account { MatchBool result (account.new ≡ account.old ++ (hearing_of one.now ∷ []) ∷ [])
        (account.new ≡ account.old) }
{
    if !history.make_room(1) {
        return false;
    }
    if !firsts.make_room(1) {
        return false;
    }
    if !account.begins_with(seen) {
        return false;
    }
    account.add_one(one)
}

/// Tells whether there is nothing to count, or the account is no shorter than it was seen.
fn goes_on<J: Naming>(account: &Account<J>, seen: &Witness<J>, events: &[(Statement, Toss)]) -> bool
    ensures begins { result ≡ true → 0 < length events.now → IsPrefix seen.now account.now }
    ensures some { result ≡ false → 0 < length events.now }
{
    events.is_empty() || account.begins_with(seen)
}

/// Keeps how far the account is seen then, if there was anything to count.
fn see<J: Naming>(seen: &mut Witness<J>, after: Witness<J>, events: &[(Statement, Toss)])
    ensures none { length events.now ≡ 0 → seen.new ≡ seen.old }
    ensures some { 0 < length events.now → seen.new ≡ after }
{
    if !events.is_empty() {
        *seen = after;
    }
}

/// Counts a group in the account once there is room for as many entries. If there isn't, or the
/// account is full, it stays.
fn make_ready<J: Naming>(
    history: &mut History,
    account: &mut Account<J>,
    events: &Vec<(u8, Statement, Toss)>,
) -> bool
    ensures entries { history.new.entries ≡ history.old.entries }
    ensures room { result ≡ true → length events.now.items ≤ history.new.room }
    ensures account { MatchBool result
        (account.new ≡ with_group account.old (hearings events.now.items))
        (account.new ≡ account.old) }
    ensures some { result ≡ false → 0 < length events.now.items }
{
    if !history.make_room(events.len()) {
        return false;
    }
    events.is_empty() || account.add(events)
}

/// Publishes the decisions of the questions that the records of these answers decide.
fn publish_all<D: Disk>(member: &Member<D>, publisher: &mut Publisher, answers: &[Answer])
    requires sound { IsSound D.Disk member.now }
    requires decided { AreDecided (member_saved member.now) publisher.old.known }
    ensures cells { publisher.new.cells ≡ publisher.old.cells }
    ensures decided { AreDecided (member_saved member.now) publisher.new.known }
    ensures more { KnowsMore publisher.old.known publisher.new.known }
{
    for answer in answers {
        publish(member, publisher, records_in(answer));
    }
}

/// Publishes the decisions of the questions that these records decide.
fn publish<D: Disk>(member: &Member<D>, publisher: &mut Publisher, records: &[Record])
    requires sound { IsSound D.Disk member.now }
    requires decided { AreDecided (member_saved member.now) publisher.old.known }
    ensures cells { publisher.new.cells ≡ publisher.old.cells }
    ensures decided { AreDecided (member_saved member.now) publisher.new.known }
    ensures more { KnowsMore publisher.old.known publisher.new.known }
{
    for one in records {
        if let Record::Decided { question, .. } = *one {
            publish_one(member, publisher, question);
        }
    }
}

/// Publishes the decision of the question, if there is one.
fn publish_one<D: Disk>(member: &Member<D>, publisher: &mut Publisher, question: u16)
    requires sound { IsSound D.Disk member.now }
    requires decided { AreDecided (member_saved member.now) publisher.old.known }
    ensures cells { publisher.new.cells ≡ publisher.old.cells }
    ensures decided { AreDecided (member_saved member.now) publisher.new.known }
    ensures more { KnowsMore publisher.old.known publisher.new.known }
{
    if let Some(ruling) = member.ruling(question) {
        publisher.publish(ruling);
    }
}

/// Adds the entry where the answer takes it.
pub(crate) fn add_if_taken(history: &mut History, entry: Entry, answer: &Answer)
    requires { 0 < history.old.room }
    ensures entries { history.new.entries
        ≡ lengthened history.old.entries (noted entry) (reply_of answer.now) }
    ensures room { history.old.room ≤ history.new.room + 1 }
{
    if let Answer::Taken(_) = answer {
        history.push_reserved(entry);
    }
}
