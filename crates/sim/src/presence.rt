//! The presence of a member of a simulated cluster.

ghost use Rattle.std.specs.Prelude.{◌≡◌, ◌<◌, ◌≤◌, ◌+◌, ◌^◌, length, ℕ, Bool, true, false, None, Some, List, [], IfOk, IfErr, IfSome, OnOk, IsErrOf, MatchOption};
ghost use Rattle.std.specs.List.{AllByRecursion};
ghost use Rattle.terms_prelude.specs.Terms.{Header, Size, Record, Hearing, Proposal, IsWellFormed};
ghost use Rattle.world.specs.World.{World, IsCorrect, has_sent, after};
ghost use Rattle.world.specs.World.Step.{Crash};
ghost use Rattle.sim.specs.Posts.{IsOfRun};
ghost use Rattle.sim.specs.declared.faults.SimFault.TheVariants as faults;
ghost use Rattle.member.specs.declared.fault.MemberFault.TheVariants as refusals;
ghost use Rattle.member.specs.Groups.{hearings, AllCome};
ghost use Rattle.sim.specs.declared.events.Mark.TheVariants as marks;
ghost use Rattle.sim.specs.Presences.{IsOneSound, IsPresenceAt, IsFreshPresence, IsMarkOf, IsMove, IsBegun, MayCome, Answers, AnswersGroup, AreLies, Reopens, AreParts, AreFreshRecords, HasDiskFuse, HasCrashed, disk_in, disk_among, mine, is_liar, is_up, saved_in, nth_said};

use crate::{Mark, Reason, SimFault};
use disk::{MemDisk, Pick};
use journal::JournalFault;
use member::{Member, MemberFault};
use rounds::Toss;
use std::alloc::Global;
use std::mem;
use terms::{Header, Record, Statement};

/// The presence of a number's member.
#[derive(Drop)]
pub(crate) enum Presence {
    /// The member runs, or has stopped.
    Here(Member<MemDisk>),
    /// The member is down: its disk, and what it has saved.
    Down(MemDisk, Vec<Record>),
    /// The number is a liar's.
    Liar,
}

impl Presence {
    /// Returns `true` if the number is a liar's.
    pub(crate) fn is_liar(&self) -> bool
        ensures { result ≡ is_liar self.now }
    {
        matches!(self, Presence::Liar)
    }

    /// Returns `true` if its member runs.
    pub(crate) fn is_up(&self) -> bool
        ensures { result ≡ is_up self.now }
    {
        match self {
            Presence::Here(member) => !member.is_stopped(),
            _ => false,
        }
    }

    /// The statement of that number, of all that it has saved.
    pub(crate) fn statement(&self, number: u64) -> Option<Statement>
        requires sound { IsOneSound self.now }
        ensures said { result ≡ nth_said (saved_in self.now) number }
        ensures room { IfSome result (λ _. number + 1 < 2 ^ 64) }
    {
        match self {
            Presence::Here(member) => {
                let outbox = member.outbox();
                let index = number as usize;
                if index < outbox.len() {
                    Some(outbox[index].statement())
                } else {
                    None
                }
            }
            _ => statement_at(self.records(), number),
        }
    }

    /// Returns what its member has saved.
    pub(crate) fn records(&self) -> &[Record]
        ensures { result.now ≡ saved_in self.now }
    {
        match self {
            Presence::Here(member) => member.records(),
            Presence::Down(_, records) => records.as_slice(),
            Presence::Liar => &[],
        }
    }

    /// Hands a proposal in.
    pub(crate) fn propose(
        &mut self,
        fused: bool,
        question: u16,
        bit: bool,
        toss: Toss,
    ) -> Result<Mark, SimFault>
        requires sound { IsOneSound self.old }
        ensures sound { IsOneSound self.new }
        ensures only { IfErr result IsOfRun }
        ensures side { is_liar self.new ≡ is_liar self.old }
        ensures moved { (size : Size) (liars : ℕ → Bool) (p : ℕ) (w : World) →
            IsCorrect size liars p → w.doubt p ≡ None → IsPresenceAt (mine size p) w self.old →
            IfOk result (λ mark. IsMove size liars p w
            (Answers size p w fused toss.0 (Proposal question bit) mark) self.new) }
        ensures memory { (size : Size) (liars : ℕ → Bool) (p : ℕ) (w : World) →
            IsCorrect size liars p → w.doubt p ≡ None → IsPresenceAt (mine size p) w self.old →
            MayCome size liars w → IfErr result (λ fault. fault ≡ faults.Memory) }
    {
        let Presence::Here(member) = self else {
            return Ok(Mark::Skipped(Reason::NotUp));
        };
        let answer = member.propose(question, bit, toss);
        mark_of(answer, fused)
    }

    /// Lets it hear statements as one group, each with its sender and its toss.
    pub(crate) fn hear_all(
        &mut self,
        fused: bool,
        events: &[(u8, Statement, Toss)],
    ) -> Result<Mark, SimFault>
        requires sound { IsOneSound self.old }
        requires few { length events.now ≤ 256 }
        ensures sound { IsOneSound self.new }
        ensures only { IfErr result IsOfRun }
        ensures side { is_liar self.new ≡ is_liar self.old }
        ensures moved { (size : Size) (liars : ℕ → Bool) (p : ℕ) (w : World) →
            IsCorrect size liars p → w.doubt p ≡ None → IsPresenceAt (mine size p) w self.old →
            AllCome w (hearings events.now) →
            IfOk result (λ mark. IsMove size liars p w
            (AnswersGroup size p w fused (hearings events.now) mark) self.new) }
        ensures memory { (size : Size) (liars : ℕ → Bool) (p : ℕ) (w : World) →
            IsCorrect size liars p → w.doubt p ≡ None → IsPresenceAt (mine size p) w self.old →
            AllCome w (hearings events.now) → MayCome size liars w →
            IfErr result (λ fault. fault ≡ faults.Memory) }
    {
        let Presence::Here(member) = self else {
            return Ok(Mark::Skipped(Reason::NotUp));
        };
        let answers = member.hear_all(events);
        mark_of(answers, fused)
    }

    /// Lets it hear statements in turn, until its disk fails.
    pub(crate) fn hear_each(
        &mut self,
        fused: bool,
        from: u8,
        statements: &[Statement],
        toss: Toss,
    ) -> Result<Mark, SimFault>
        requires sound { IsOneSound self.old }
        ensures sound { IsOneSound self.new }
        ensures only { IfErr result IsOfRun }
        ensures side { is_liar self.new ≡ is_liar self.old }
        ensures moved { (size : Size) (liars : ℕ → Bool) (p : ℕ) (w : World) →
            IsCorrect size liars p → w.doubt p ≡ None → IsPresenceAt (mine size p) w self.old →
            from < size.n → liars from ≡ true → AllByRecursion (IsWellFormed size) statements.now →
            IfOk result (λ mark. IsMove size liars p w
            (AreLies size p w fused from toss.0 statements.now mark) self.new) }
        ensures memory { (size : Size) (liars : ℕ → Bool) (p : ℕ) (w : World) →
            IsCorrect size liars p → w.doubt p ≡ None → IsPresenceAt (mine size p) w self.old →
            from < size.n → liars from ≡ true → AllByRecursion (IsWellFormed size) statements.now →
            MayCome size liars w → IfErr result (λ fault. fault ≡ faults.Memory) }
    {
        for statement in statements {
            let mark = self.hear(fused, from, statement, toss)?;
            match mark {
                Mark::Done => {}
                _ => return Ok(mark),
            }
        }
        Ok(Mark::Done)
    }

    /// Lets it hear a statement.
    #[inline(always)]
    pub(crate) fn hear(
        &mut self,
        fused: bool,
        from: u8,
        statement: &Statement,
        toss: Toss,
    ) -> Result<Mark, SimFault>
        requires sound { IsOneSound self.old }
        ensures sound { IsOneSound self.new }
        ensures only { IfErr result IsOfRun }
        ensures side { is_liar self.new ≡ is_liar self.old }
        ensures moved { (size : Size) (liars : ℕ → Bool) (p : ℕ) (w : World) →
            IsCorrect size liars p → w.doubt p ≡ None → IsPresenceAt (mine size p) w self.old →
            has_sent w.sent from statement.now ≡ true →
            IfOk result (λ mark. IsMove size liars p w
            (Answers size p w fused toss.0 (Hearing from statement.now) mark) self.new) }
        ensures memory { (size : Size) (liars : ℕ → Bool) (p : ℕ) (w : World) →
            IsCorrect size liars p → w.doubt p ≡ None → IsPresenceAt (mine size p) w self.old →
            has_sent w.sent from statement.now ≡ true → MayCome size liars w →
            IfErr result (λ fault. fault ≡ faults.Memory) }
    {
        let Presence::Here(member) = self else {
            return Ok(Mark::Skipped(Reason::NotUp));
        };
        let answer = member.hear_saved(from, statement, toss);
        mark_of(answer, fused)
    }

    /// Sets the fuse of its disk.
    pub(crate) fn fuse(&mut self, calls: Option<u64>)
        requires sound { IsOneSound self.old }
        ensures sound { IsOneSound self.new }
        ensures fuse { HasDiskFuse calls (disk_in self.old) (disk_in self.new) }
        ensures side { is_liar self.new ≡ is_liar self.old }
        ensures at { (header : Header) (w : World) → IsPresenceAt header w self.old →
            IsPresenceAt header w self.new }
    {
        match self {
            Presence::Here(member) => member.fuse(calls),
            Presence::Down(disk, _) => disk.fuse(calls),
            Presence::Liar => {}
        }
    }

    /// Takes the member down, and has its disk crash.
    pub(crate) fn crash(&mut self, pick: Pick) -> Result<(), SimFault>
        requires sound { IsOneSound self.old }
        ensures sound { IsOneSound self.new }
        ensures disk { OnOk result (HasCrashed pick (disk_in self.old) (disk_in self.new)) }
        ensures only { IfErr result (λ fault. fault ≡ faults.Memory) }
        ensures side { OnOk result (is_liar self.new ≡ is_liar self.old) }
        ensures at { (header : Header) (w : World) → IsPresenceAt header w self.old →
            OnOk result (IsPresenceAt header (after w (Crash header.me)) self.new) }
    {
        match mem::replace(self, Presence::Liar).into_parts() {
            Some((disk, records)) => {
                *self = Presence::Down(disk.crash(pick)?, records);
                Ok(())
            }
            None => Ok(()),
        }
    }

    /// Opens the member from its disk. Where the disk fails by its fuse it is down.
    pub(crate) fn open(
        &mut self,
        alloc: Global,
        fused: bool,
        header: &Header,
    ) -> Result<Mark, SimFault>
        requires sound { IsOneSound self.old }
        ensures sound { IsOneSound self.new }
        ensures only { IfErr result (λ fault. fault ≡ faults.Memory) }
        ensures failed { IfOk result (λ mark. mark ≡ marks.Failed → fused ≡ true) }
        ensures side { OnOk result (is_liar self.new ≡ is_liar self.old) }
        ensures moved { (size : Size) (liars : ℕ → Bool) (p : ℕ) (w : World) (batch : List Record) →
            IsCorrect size liars p → header.now ≡ mine size p → w.doubt p ≡ Some batch →
            IsPresenceAt (mine size p) w self.old →
            IfOk result (λ mark. IsMove size liars p w (Reopens p fused mark) self.new) }
        ensures begun { IsFreshPresence header.now self.old →
            IfOk result (λ mark. IsBegun header.now fused mark self.new) }
    {
        let (disk, records) = match mem::replace(self, Presence::Liar).into_parts() {
            Some(parts) => parts,
            None => return Ok(Mark::Skipped(Reason::WrongSide)),
        };
        match Member::adopt(alloc, disk, header) {
            Ok(member) => {
                *self = Presence::Here(member);
                Ok(Mark::Done)
            }
            Err((JournalFault::Device, disk)) if fused => {
                *self = Presence::Down(disk, records);
                Ok(Mark::Failed)
            }
            Err(_) => Err(SimFault::Memory),
        }
    }

    /// Its disk, and what its member has saved.
    fn into_parts(self) -> Option<(MemDisk, Vec<Record>)>
        requires sound { IsOneSound self }
        ensures parts { (header : Header) (w : World) → IsPresenceAt header w self →
            AreParts header w result }
        ensures fresh { (header : Header) → IsFreshPresence header self →
            AreFreshRecords header result }
        ensures disk { disk_among result ≡ disk_in self }
        ensures side { MatchOption result (is_liar self ≡ true) (λ _. is_liar self ≡ false) }
    {
        match self {
            Presence::Here(member) => Some(member.into_parts()),
            Presence::Down(disk, records) => Some((disk, records)),
            Presence::Liar => None,
        }
    }
}

/// The statement of that number among the records, decisions not counted.
fn statement_at(records: &[Record], number: u64) -> Option<Statement>
    ensures said { result ≡ nth_said records.now number }
    ensures room { IfSome result (λ _. number + 1 < 2 ^ 64) }
{
    let _count = records.len();
    let mut left = number;
    for item in records {
        if let Record::Said(statement) = *item {
            if left == 0 {
                return Some(statement);
            }
            left -= 1;
        }
    }
    None
}

/// Returns what becomes of an event that a member answered so.
fn mark_of<T: Drop>(answer: Result<T, MemberFault>, fused: bool) -> Result<Mark, SimFault>
    ensures mark { IfOk result (λ mark. IsMarkOf fused answer mark) }
    ensures only { IfErr result IsOfRun }
    ensures memory { (IsErrOf answer refusals.JournalFull → ⊥) →
        IfErr result (λ fault. fault ≡ faults.Memory) }
{
    match answer {
        Ok(_) => Ok(Mark::Done),
        Err(MemberFault::Device) if fused => Ok(Mark::Failed),
        Err(MemberFault::JournalFull) => Err(SimFault::Full),
        Err(_) => Err(SimFault::Memory),
    }
}
