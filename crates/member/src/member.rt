//! A member over its journal: begin at `Member::hear`.
ghost use Rattle.std.specs.Prelude.{◌≡◌, ◌⊎◌, ◌↔◌, ◌+◌, ◌^◌, ◌<◌, ◌≤◌, ℕ, Bool, true, false, Option, None, List, [], ◌++◌, length, take, drop, Ok, IsErrOf, IfOk, IfErr, OnOk, OnErr};
ghost use Rattle.terms_prelude.specs.Terms.{Record, Statement, got, is_foreign, said, records_of, Hearing, Proposal, new_place, Initial, IsSize};
ghost use Rattle.disk.specs.Model.{LeavesOnly};
ghost use Rattle.journal.specs.File.{Holds};
ghost use Rattle.journal.specs.Readers.{journal_is_stopped, IsAtRest};
ghost use Rattle.journal.specs.WellFormed.{AreWellFormedFor};
ghost use Rattle.questions.specs.Readers.{CoreStandsFor, core_size, core_me};
ghost use Rattle.questions.specs.Faults.{records_fault};
ghost use Rattle.questions.specs.Replies.{reply_of, reply_with};
ghost use Rattle.questions.specs.declared.answer.Answer.{Answer};
ghost use Rattle.member.specs.Answers.{IsFull, gate_after};
ghost use Rattle.member.specs.Faults.{refusal};
ghost use Rattle.member.specs.Keeping.{Kept, KeptBehind};
ghost use Rattle.member.specs.Sealed.{sealed_from};
ghost use Rattle.member.specs.Outcomes.{AnswersTo, HasSaved, HasFailed, StaysOn, IsOneEvent, IsEventBy, reply_saved, IsOpened, IsARestart, IsNotOpened};
ghost use Rattle.member.specs.Sound.{IsSound, IsFiled};
ghost use Rattle.member.specs.Readers.{member_disk, member_header, member_gate, member_saved, member_outbox, member_is_stopped, MemberStandsFor};

use crate::fault::MemberFault;
use crate::sealed::{Sealed, save, save_last, seal};
use disk::Disk;
use journal::{Journal, JournalFault, Release};
use questions::{Answer, Core, CoreFault, Heard};
use rounds::Toss;
use std::alloc::Global;
use terms::{Header, Record, Statement};

/// One member of a cluster, over its journal. What it says is saved before it is in the outbox.
///
/// It is of its last life alone: what it heard before it was opened is forgotten, and what it saved
/// is not.
#[derive(Drop)]
pub struct Member<D: Disk> {
    pub(crate) alloc: Global,
    pub(crate) core: Core,
    pub(crate) journal: Journal<D>,
    pub(crate) records: Vec<Record>,
    pub(crate) outbox: Vec<Sealed>,
    pub(crate) stopped: bool,
}

#[tactic(auto, unfolding(crate::specs::Readers::member_disk, crate::specs::Readers::member_header, crate::specs::Readers::member_gate, crate::specs::Readers::member_saved, crate::specs::Readers::member_outbox, crate::specs::Readers::member_is_stopped, crate::specs::Readers::MemberStandsFor))]
impl<D: Disk> Member<D> {
    /// Opens a member's journal, which a crash may have left: [`adopt`](Member::adopt) where the
    /// disk isn't wanted back after a fault. What is let go then is a disk that `adopt` may hand
    /// back.
    pub fn open(alloc: Global, disk: D, header: &Header) -> Result<Member<D>, JournalFault>
    where
        D: Release,
        requires released { (fault : JournalFault) (after : D) →
            IsNotOpened D.Disk disk header.now fault after → D.may_go after }
        ensures opened { IfOk result (λ m. IsOpened D.Disk disk header.now m) }
        ensures restart { IfOk result (λ m. IsARestart D.Disk disk header.now m) }
        // `released` speaks of the disk that is gone; this is why it is.
        ensures fault { IfErr result
            (λ fault. (after : D) × IsNotOpened D.Disk disk header.now fault after) }
    {
        match Member::adopt(alloc, disk, header) {
            Ok(opened) => Ok(opened),
            Err((fault, disk)) => {
                disk.release();
                Err(fault)
            }
        }
    }

    /// Opens a member's journal, which a crash may have left, by the calls of [`Journal::adopt`].
    /// The member has its records and hands out their statements; it heard nothing yet.
    ///
    /// A fault hands the disk back; no byte of its file was changed. The faults are those of the
    /// journal's opening: `BadHeader`, `OldVersion`, `OtherHeader`, `CutShort` and `BadRecord` for
    /// what is wrong with the file, `Memory` and `Device`.
    pub fn adopt(alloc: Global, disk: D, header: &Header) -> Result<Member<D>, (JournalFault, D)>
        ensures opened { IfOk result (λ m. IsOpened D.Disk disk header.now m) }
        ensures restart { IfOk result (λ m. IsARestart D.Disk disk header.now m) }
        ensures fault { IfErr result
            (λ refused. IsNotOpened D.Disk disk header.now refused.0 refused.1) }
    {
        match Journal::adopt(alloc, disk, header) {
            Ok((journal, records)) => match begin(alloc, header, &records) {
                Ok((core, outbox)) => Ok(Member {
                    alloc,
                    core,
                    journal,
                    records,
                    outbox,
                    stopped: false,
                }),
                Err(fault) => Err((fault, journal.into_disk())),
            },
            Err(refused) => Err(refused),
        }
    }

    /// Answers to a statement from the member `from`, with this toss. The records of the answer are
    /// saved, and then their statements are in the outbox. An answer of no records makes no call of
    /// the device.
    ///
    /// Of all faults the first in this order: [`MemberFault::Stopped`];
    /// [`MemberFault::NoSuchQuestion`], the statement's; [`MemberFault::NoSuchMember`], the sender
    /// or the statement's origin. These change nothing. Then [`MemberFault::Memory`],
    /// [`MemberFault::JournalFull`] and [`MemberFault::Device`], which stop the member; only
    /// `Device` comes after a call of the device was made.
    #[inline(always)]
    pub fn hear(&mut self, from: u8, s: &Statement, toss: Toss) -> Result<Answer, MemberFault>
        requires sound { IsSound D.Disk self.old }
        ensures sound { IsSound D.Disk self.new }

        // It answers what the definitions say, and saves the records of its answer.
        ensures answer { IfOk result
            (λ answer. AnswersTo self.old toss.0 (Hearing from s.now) (reply_of answer) self.new) }
        ensures saved { IfOk result
            (λ answer. HasSaved D.Disk self.old (records_of (reply_of answer)) self.new) }
        ensures event { IsOneEvent D.Disk toss.0 (Hearing from s.now) self.old result self.new }

        // Each refusal has its cause, and leaves what was saved and handed out.
        ensures ok { OnOk result (refusal self.old (Hearing from s.now) ≡ None) }
        ensures fault { IfErr result
            (λ fault. HasFailed D.Disk self.old (refusal self.old (Hearing from s.now))
            (IsFull self.old toss.0 (Hearing from s.now)) fault self.new) }
        ensures memory_only_at_news { IsErrOf result MemberFault.Memory →
            (records : List Record) (heard : List (ℕ × Statement)) →
            MemberStandsFor self.old records heard → (is_foreign from s.now ≡ false)
            × (got heard from s.now.kind s.now.place ≡ None) }
        ensures stays { StaysOn D.Disk self.old self.new }
    {
        if self.stopped {
            return Err(MemberFault::Stopped);
        }
        s.recall();
        let answer = self.core.hear(from, s, toss);
        self.keep(answer)
    }

    /// Answers to a statement as [`hear`](Member::hear) does, without a list of its own: the
    /// records of the answer are the last of [`records`](Member::records), those behind the ones
    /// that were there before the call.
    ///
    /// # Errors
    ///
    /// Those of [`hear`](Member::hear), in the same order.
    #[inline(always)]
    pub fn hear_saved(&mut self, from: u8, s: &Statement, toss: Toss) -> Result<Heard, MemberFault>
        requires sound { IsSound D.Disk self.old }
        ensures sound { IsSound D.Disk self.new }

        // It answers what the definitions say, and saves the records of its answer.
        ensures answer { IfOk result
            (λ heard. AnswersTo self.old toss.0 (Hearing from s.now)
            (reply_saved self.old self.new heard) self.new) }
        ensures saved { IfOk result
            (λ heard. HasSaved D.Disk self.old (records_of (reply_saved self.old self.new heard))
            self.new) }
        ensures event { IsEventBy (reply_saved self.old self.new) D.Disk toss.0
            (Hearing from s.now) self.old result self.new }

        // Each refusal has its cause, and leaves what was saved and handed out.
        ensures ok { OnOk result (refusal self.old (Hearing from s.now) ≡ None) }
        ensures fault { IfErr result
            (λ fault. HasFailed D.Disk self.old (refusal self.old (Hearing from s.now))
            (IsFull self.old toss.0 (Hearing from s.now)) fault self.new) }
        ensures memory_only_at_news { IsErrOf result MemberFault.Memory →
            (records : List Record) (heard : List (ℕ × Statement)) →
            MemberStandsFor self.old records heard → (is_foreign from s.now ≡ false)
            × (got heard from s.now.kind s.now.place ≡ None) }
        ensures stays { StaysOn D.Disk self.old self.new }
    {
        if self.stopped {
            return Err(MemberFault::Stopped);
        }
        s.recall();
        let before = self.records.len();
        let heard = self.core.hear_into(from, s, toss, &mut self.records);
        self.keep_last(before, heard)
    }

    /// Saves what the core answered, whose records are behind the first so many, or stops.
    #[inline(always)]
    fn keep_last(
        &mut self,
        before: usize,
        heard: Result<Heard, CoreFault>,
    ) -> Result<Heard, MemberFault>
        requires takes { IfOk heard (λ h.
            records_of (reply_with h (drop before self.old.records.items))
            ≡ drop before self.old.records.items) }
        requires none { OnErr heard (take before self.old.records.items ≡ self.old.records.items) }
        requires few { OnOk heard (length (drop before self.old.records.items) ≤ 99) }
        requires well_formed { OnOk heard
            (AreWellFormedFor (member_header self.old) (drop before self.old.records.items)) }
        requires going { member_is_stopped self.old ≡ false }
        requires sealed { member_outbox self.old
            ≡ sealed_from 0 (take before self.old.records.items) }
        requires asked { records_fault (member_header self.old).size
            (take before self.old.records.items) ≡ None }
        requires running { journal_is_stopped self.old.journal ≡ false }
        requires settled { D.keeps (member_disk self.old) →
            IsAtRest D.state (member_header self.old) (take before self.old.records.items)
            self.old.journal }
        ensures { KeptBehind D.Disk (take before self.old.records.items) self.old self.old.core
            (λ h. reply_with h (drop before self.old.records.items)) heard result self.new }
    {
        match heard {
            Ok(heard) => match save_last(
                &mut self.journal,
                &mut self.outbox,
                &self.records,
                before,
            ) {
                Ok(()) => Ok(heard),
                Err(JournalFault::Device) => Err(self.undone_by(before, MemberFault::Device)),
                Err(JournalFault::Full) => Err(self.undone_by(before, MemberFault::JournalFull)),
                Err(_) => Err(self.undone_by(before, MemberFault::Memory)),
            },
            Err(CoreFault::NoSuchQuestion) => Err(MemberFault::NoSuchQuestion),
            Err(CoreFault::NoSuchMember) => Err(MemberFault::NoSuchMember),
            Err(_) => Err(self.stopped_by(MemberFault::Memory)),
        }
    }

    /// Stops, takes the records back that are behind the first so many, and gives the fault.
    #[cold]
    fn undone_by(&mut self, before: usize, fault: MemberFault) -> MemberFault
        ensures records { self.new.records.items ≡ take before self.old.records.items }
        ensures stopped { self.new
            ≡ record self.old { records = self.new.records; stopped = true } }
        ensures fault { result ≡ fault }
    {
        self.records.truncate(before);
        self.stopped_by(fault)
    }

    /// Answers to a bit that is proposed for the question, with this toss. The bit that was
    /// proposed first stands, in this life or in an earlier one. The records of the answer are
    /// saved, and then their statements are in the outbox.
    ///
    /// Of all faults the first in this order: [`MemberFault::Stopped`];
    /// [`MemberFault::NoSuchQuestion`]. These change nothing. Then [`MemberFault::Memory`],
    /// [`MemberFault::JournalFull`] and [`MemberFault::Device`], which stop the member; only
    /// `Device` comes after a call of the device was made.
    pub fn propose(&mut self, question: u16, bit: bool, toss: Toss) -> Result<Answer, MemberFault>
        requires sound { IsSound D.Disk self.old }
        ensures sound { IsSound D.Disk self.new }

        // It answers what the definitions say, and saves the records of its answer.
        ensures answer { IfOk result
            (λ answer. AnswersTo self.old toss.0 (Proposal question bit)
            (reply_of answer) self.new) }
        ensures saved { IfOk result
            (λ answer. HasSaved D.Disk self.old (records_of (reply_of answer)) self.new) }
        ensures event { IsOneEvent D.Disk toss.0 (Proposal question bit) self.old result self.new }

        // Each refusal has its cause, and leaves what was saved and handed out.
        ensures ok { OnOk result (refusal self.old (Proposal question bit) ≡ None) }
        ensures fault { IfErr result
            (λ fault. HasFailed D.Disk self.old (refusal self.old (Proposal question bit))
            (IsFull self.old toss.0 (Proposal question bit)) fault self.new) }
        ensures memory_only_at_first { IsErrOf result MemberFault.Memory →
            (records : List Record) (heard : List (ℕ × Statement)) →
            MemberStandsFor self.old records heard →
            said records Initial (new_place question (member_header self.old).me 1 1) ≡ None }
        ensures stays { StaysOn D.Disk self.old self.new }
    {
        if self.is_stopped() {
            return Err(MemberFault::Stopped);
        }
        let answer = self.core.propose(question, bit, toss);
        self.keep(answer)
    }

    /// Saves what the core answered, or stops.
    #[inline(always)]
    fn keep(&mut self, answer: Result<Answer, CoreFault>) -> Result<Answer, MemberFault>
        requires few { IfOk answer (λ a. length (records_of (reply_of a)) ≤ 99) }
        requires well_formed { IfOk answer
            (λ a. AreWellFormedFor (member_header self.old) (records_of (reply_of a))) }
        requires going { member_is_stopped self.old ≡ false }
        requires filed { IsFiled D.Disk self.old }
        ensures { Kept D.Disk self.old self.old.core reply_of answer result self.new }
    {
        match answer {
            Ok(answer) => match save(
                &mut self.journal,
                &mut self.records,
                &mut self.outbox,
                records_in(&answer),
            ) {
                Ok(()) => Ok(answer),
                Err(JournalFault::Device) => Err(self.stopped_by(MemberFault::Device)),
                Err(JournalFault::Full) => Err(self.stopped_by(MemberFault::JournalFull)),
                Err(_) => Err(self.stopped_by(MemberFault::Memory)),
            },
            Err(CoreFault::NoSuchQuestion) => Err(MemberFault::NoSuchQuestion),
            Err(CoreFault::NoSuchMember) => Err(MemberFault::NoSuchMember),
            Err(_) => Err(self.stopped_by(MemberFault::Memory)),
        }
    }

    /// Stops, and gives the fault that did it.
    pub(crate) fn stopped_by(&mut self, fault: MemberFault) -> MemberFault
        ensures stopped { self.new ≡ record self.old { stopped = true } }
        ensures fault { result ≡ fault }
    {
        self.stopped = true;
        fault
    }
}

/// The records of the answer: none of one that takes nothing.
pub fn records_in(answer: &Answer) -> &[Record]
    ensures { result.now ≡ records_of (reply_of answer.now) }
{
    match answer {
        Answer::Taken(records) => records.as_slice(),
        _ => &[],
    }
}

/// The core of these records, and the outbox of their statements.
fn begin(
    alloc: Global,
    header: &Header,
    records: &[Record],
) -> Result<(Core, Vec<Sealed>), JournalFault>
    ensures knows { IfOk result (λ begun. CoreStandsFor begun.0 records.now []) }
    ensures size { IfOk result (λ begun. core_size begun.0 ≡ header.now.size) }
    ensures me { IfOk result (λ begun. core_me begun.0 ≡ header.now.me) }
    ensures outbox { IfOk result (λ begun. begun.1.items ≡ sealed_from 0 records.now) }
    ensures lawful { OnOk result (IsSize header.now.size) }
    ensures asked { OnOk result (records_fault header.now.size records.now ≡ None) }
    ensures memory { IfErr result
        (λ fault. records_fault header.now.size records.now ≡ None → fault ≡ JournalFault.Memory) }
    ensures only { IfErr result
        (λ fault. (fault ≡ JournalFault.Memory) ⊎ (fault ≡ JournalFault.BadRecord)) }
{
    header.size().recall();
    match Core::new(alloc, header.size(), header.me(), records) {
        Ok(core) => {
            let mut outbox = Vec::with_capacity(alloc, records.len())?;
            seal(&mut outbox, records);
            Ok((core, outbox))
        }
        Err(CoreFault::Memory) => Err(JournalFault::Memory),
        Err(_) => Err(JournalFault::BadRecord),
    }
}
