//! A member of a simulated cluster, with all that comes to it.

ghost use Rattle.std.specs.Prelude.{◌≡◌, ◌<◌, ◌≤◌, ◌+◌, ◌^◌, ℕ, Bool, true, false, Some, None, List, [], length, get_or, is_some, IfOk, IfErr, IfSome, OnOk, IsErrOf};
ghost use Rattle.terms_prelude.specs.Terms.{Size, Header, IsSize};
ghost use Rattle.world.specs.World.{start};
ghost use Rattle.disk.specs.declared.memory.MemDisk.{MemDisk};
ghost use Rattle.disk.specs.Memory.{fuse_left};
ghost use Rattle.member.specs.Stands.{IsLeft};
ghost use Rattle.disk.specs.Memory.{memory_state};
ghost use Rattle.sim.specs.declared.tasks.Instruction.TheVariants as tasks;
ghost use Rattle.sim.specs.declared.faults.SimFault.TheVariants as faults;
ghost use Rattle.sim.specs.declared.links.Link.{Link};
ghost use Rattle.sim.specs.Presences.{is_liar, is_up, saved_in, nth_said, group_from, disk_in, HasDiskFuse, HasCrashed, IsFreshPresence, IsPresenceAt, MayCome, mine};
ghost use Rattle.sim.specs.Scene.{Scene};
ghost use Rattle.sim.specs.Posts.{IsPost, IsReady, IsDone, IsGroupFor, IsNewLink, CanBeDone, HasSender, IsCreated, IsOpenedPost, IsOfOpening, IsOfRun, DoesToDisk};

use crate::links::Link;
use crate::presence::Presence;
use crate::tasks::Instruction;
use crate::{MOST_IN_GROUP, Mark, Reason, SimFault};
use disk::{MemDisk, Pick};
use journal::{JournalFault, create};
use rounds::Toss;
use std::alloc::Global;
use terms::{Header, Record, Size, Statement};

/// The statements that a group brings, and the link's place behind them.
#[derive(Drop)]
pub(crate) struct Delivery {
    pub(crate) statements: Vec<Statement>,
    pub(crate) place: u64,
}

/// One member of the cluster.
#[derive(Drop)]
pub(crate) struct Post {
    header: Header,
    presence: Presence,
    /// Set if a fuse is in its disk.
    fused: bool,
    /// The links to it, by their senders.
    incoming: Vec<Link>,
}

impl Post {
    /// The post of a liar, or of a correct member whose journal is created on the disk and not yet
    /// opened.
    pub(crate) fn new(
        alloc: Global,
        header: Header,
        liar: bool,
        disk: MemDisk,
    ) -> Result<Post, SimFault>
        ensures ready { IfOk result (λ post. IsReady post) }
        ensures created { IfOk result
            (λ post. IsCreated header liar (is_some (fuse_left disk)) post) }
        ensures device { IsErrOf result faults.Device → (liar ≡ false)
            × (is_some (fuse_left disk) ≡ true) }
        ensures only { IfErr result IsOfOpening }
    {
        let incoming = links(alloc, header.size())?;
        let fused = disk.is_fused();
        let presence = if liar {
            Presence::Liar
        } else {
            Presence::Down(created(disk, &header)?, Vec::new(alloc))
        };
        Ok(Post {
            header,
            presence,
            fused,
            incoming,
        })
    }

    /// Opens its journal for the first time.
    pub(crate) fn begin(&mut self, alloc: Global) -> Result<(), SimFault>
        requires ready { IsReady self.old }
        ensures ready { IsReady self.new }
        ensures header { self.new.header ≡ self.old.header }
        ensures opened { (liar fused : Bool) → IsCreated self.old.header liar fused self.old →
            OnOk result (IsOpenedPost self.old.header liar fused self.new) }
        ensures device { IsErrOf result faults.Device → (is_liar self.old.presence ≡ false)
            × (self.old.fused ≡ true) }
        ensures only { IfErr result IsOfOpening }
    {
        if self.presence.is_liar() {
            return Ok(());
        }
        match self.presence.open(alloc, self.fused, &self.header)? {
            Mark::Failed => Err(SimFault::Device),
            _ => Ok(()),
        }
    }

    /// Returns `true` if the number is a liar's.
    pub(crate) fn is_liar(&self) -> bool
        ensures { result ≡ is_liar self.now.presence }
    {
        self.presence.is_liar()
    }

    /// Returns `true` if its member runs.
    pub(crate) fn is_up(&self) -> bool
        ensures { result ≡ is_up self.now.presence }
    {
        self.presence.is_up()
    }

    /// Its number.
    pub(crate) fn me(&self) -> u8
        ensures { result ≡ self.now.header.me }
    {
        self.header.me()
    }

    /// Returns what its member has saved.
    pub(crate) fn records(&self) -> &[Record]
        ensures { result.now ≡ saved_in self.now.presence }
    {
        self.presence.records()
    }

    /// The statement of that number, of all that its member has saved.
    pub(crate) fn statement(&self, number: u64) -> Option<Statement>
        requires ready { IsReady self.now }
        ensures said { result ≡ nth_said (saved_in self.now.presence) number }
        ensures room { IfSome result (λ _. number + 1 < 2 ^ 64) }
    {
        self.presence.statement(number)
    }

    /// The statements from that number on, of all that its member has saved: at most so many, and
    /// at most [`MOST_IN_GROUP`].
    pub(crate) fn group(&self, alloc: Global, number: u64, count: u16) -> Result<Delivery, SimFault>
        requires ready { IsReady self.now }
        ensures statements { IfOk result (λ group.
            group.statements.items ≡ group_from (saved_in self.now.presence) number count) }
        ensures place { IfOk result
            (λ group. group.place ≡ number + length group.statements.items) }
        ensures few { IfOk result (λ group. length group.statements.items ≤ 256) }
        ensures only { IfErr result (λ fault. fault ≡ faults.Memory) }
    {
        let mut statements = Vec::new(alloc);
        let mut place = number;
        for _taken in 0..count.min(MOST_IN_GROUP) {
            let Some(statement) = self.presence.statement(place) else {
                return Ok(Delivery { statements, place });
            };
            statements.push(statement)?;
            place += 1;
        }
        Ok(Delivery { statements, place })
    }

    /// The place of the link from that sender.
    pub(crate) fn place(&self, from: u8) -> u64
        requires ready { IsReady self.now }
        requires within { from < self.now.header.size.n }
        ensures { (d : Link) → result ≡ (get_or self.now.incoming.items from d).place }
    {
        self.incoming[usize::from(from)].place()
    }

    /// Carries a task out; the bytes are for a lie, the statements for a group.
    #[inline(always)]
    pub(crate) fn carry(
        &mut self,
        alloc: Global,
        task: Instruction,
        bytes: &[u8],
        group: &Delivery,
    ) -> Result<Mark, SimFault>
        requires ready { IsReady self.old }
        requires within { HasSender self.old.header.size.n task }
        requires few { length group.now.statements.items ≤ 256 }
        ensures ready { IsReady self.new }
        ensures header { self.new.header ≡ self.old.header }
        ensures only { IfErr result IsOfRun }
        ensures disk { OnOk result
            (DoesToDisk task (disk_in self.old.presence) (disk_in self.new.presence)) }
        ensures done { (size : Size) (liars : ℕ → Bool) (c : Scene) (p : ℕ) → IsSize size →
            p < size.n → IsPost size liars c p self.old → CanBeDone size liars c p task →
            IsGroupFor c p task group.now → IfOk result
            (λ mark. IsDone size liars c p task bytes.now mark self.new) }
        ensures memory { (size : Size) (liars : ℕ → Bool) (c : Scene) (p : ℕ) → IsSize size →
            p < size.n → IsPost size liars c p self.old → CanBeDone size liars c p task →
            IsGroupFor c p task group.now → MayCome size liars c.world →
            IfErr result (λ fault. fault ≡ faults.Memory) }
    {
        match task {
            Instruction::Propose(question, bit, toss) => self.propose(question, bit, toss),
            Instruction::Deliver(from, statement, place, toss) => {
                self.deliver(from, statement, place, toss)
            }
            Instruction::DeliverAll(from, _, toss) => self.deliver_all(alloc, from, group, toss),
            Instruction::Lie(liar, toss) => self.hear_lies(alloc, liar, bytes, toss),
            Instruction::Fuse(calls) => self.fuse(calls),
            Instruction::Crash(pick) => self.crash(pick),
            Instruction::Restart => self.restart(alloc),
            Instruction::Reset(from) => self.reset(from),
        }
    }

    /// A bit is proposed to it.
    fn propose(&mut self, question: u16, bit: bool, toss: Toss) -> Result<Mark, SimFault>
        requires ready { IsReady self.old }
        ensures ready { IsReady self.new }
        ensures header { self.new.header ≡ self.old.header }
        ensures only { IfErr result IsOfRun }
        ensures done { (size : Size) (liars : ℕ → Bool) (c : Scene) (p : ℕ) → IsSize size →
            p < size.n → IsPost size liars c p self.old →
            CanBeDone size liars c p (tasks.Propose question bit toss) → (bytes : List ℕ) →
            IfOk result (λ mark. IsDone size liars c p
            (tasks.Propose question bit toss) bytes mark self.new) }
        ensures memory { (size : Size) (liars : ℕ → Bool) (c : Scene) (p : ℕ) → IsSize size →
            p < size.n → IsPost size liars c p self.old →
            CanBeDone size liars c p (tasks.Propose question bit toss) →
            MayCome size liars c.world → IfErr result (λ fault. fault ≡ faults.Memory) }
    {
        self.presence.propose(self.fused, question, bit, toss)
    }

    /// A statement comes to it over the link from its sender, which then has that place.
    #[inline(always)]
    fn deliver(
        &mut self,
        from: u8,
        statement: Statement,
        place: u64,
        toss: Toss,
    ) -> Result<Mark, SimFault>
        requires ready { IsReady self.old }
        requires within { from < self.old.header.size.n }
        ensures ready { IsReady self.new }
        ensures header { self.new.header ≡ self.old.header }
        ensures only { IfErr result IsOfRun }
        ensures done { (size : Size) (liars : ℕ → Bool) (c : Scene) (p : ℕ) → IsSize size →
            p < size.n → IsPost size liars c p self.old →
            CanBeDone size liars c p (tasks.Deliver from statement place toss) → (bytes : List ℕ) →
            IfOk result (λ mark. IsDone size liars c p
            (tasks.Deliver from statement place toss) bytes mark self.new) }
        ensures memory { (size : Size) (liars : ℕ → Bool) (c : Scene) (p : ℕ) → IsSize size →
            p < size.n → IsPost size liars c p self.old →
            CanBeDone size liars c p (tasks.Deliver from statement place toss) →
            MayCome size liars c.world → IfErr result (λ fault. fault ≡ faults.Memory) }
    {
        let link = &mut self.incoming[usize::from(from)];
        link.go_to(place);
        let mut carried = statement;
        if !link.carry(&mut carried)? {
            return Ok(Mark::Skipped(Reason::Nothing));
        }
        self.presence.hear(self.fused, from, &carried, toss)
    }

    /// Statements come to it as one group over the link from their sender, which then has the place
    /// behind them.
    fn deliver_all(
        &mut self,
        alloc: Global,
        from: u8,
        group: &Delivery,
        toss: Toss,
    ) -> Result<Mark, SimFault>
        requires ready { IsReady self.old }
        requires within { from < self.old.header.size.n }
        requires few { length group.now.statements.items ≤ 256 }
        ensures ready { IsReady self.new }
        ensures header { self.new.header ≡ self.old.header }
        ensures only { IfErr result IsOfRun }
        ensures done { (size : Size) (liars : ℕ → Bool) (c : Scene) (p count : ℕ) → IsSize size →
            p < size.n → IsPost size liars c p self.old →
            CanBeDone size liars c p (tasks.DeliverAll from count toss) →
            IsGroupFor c p (tasks.DeliverAll from count toss) group.now → (bytes : List ℕ) →
            IfOk result (λ mark. IsDone size liars c p
            (tasks.DeliverAll from count toss) bytes mark self.new) }
        ensures memory { (size : Size) (liars : ℕ → Bool) (c : Scene) (p count : ℕ) → IsSize size →
            p < size.n → IsPost size liars c p self.old →
            CanBeDone size liars c p (tasks.DeliverAll from count toss) →
            IsGroupFor c p (tasks.DeliverAll from count toss) group.now →
            MayCome size liars c.world → IfErr result (λ fault. fault ≡ faults.Memory) }
    {
        let link = &mut self.incoming[usize::from(from)];
        link.go_to(group.place);
        let arrived = link.carry_all(alloc, from, &group.statements, toss)?;
        self.presence.hear_all(self.fused, &arrived)
    }

    /// Bytes of a liar come to it.
    fn hear_lies(
        &mut self,
        alloc: Global,
        liar: u8,
        bytes: &[u8],
        toss: Toss,
    ) -> Result<Mark, SimFault>
        requires ready { IsReady self.old }
        requires within { liar < self.old.header.size.n }
        ensures ready { IsReady self.new }
        ensures header { self.new.header ≡ self.old.header }
        ensures only { IfErr result IsOfRun }
        ensures done { (size : Size) (liars : ℕ → Bool) (c : Scene) (p : ℕ) → IsSize size →
            p < size.n → IsPost size liars c p self.old →
            CanBeDone size liars c p (tasks.Lie liar toss) →
            IfOk result (λ mark. IsDone size liars c p
            (tasks.Lie liar toss) bytes.now mark self.new) }
        ensures memory { (size : Size) (liars : ℕ → Bool) (c : Scene) (p : ℕ) → IsSize size →
            p < size.n → IsPost size liars c p self.old →
            CanBeDone size liars c p (tasks.Lie liar toss) → MayCome size liars c.world →
            IfErr result (λ fault. fault ≡ faults.Memory) }
    {
        let link = &mut self.incoming[usize::from(liar)];
        if link.is_broken() {
            return Ok(Mark::Skipped(Reason::Nothing));
        }
        let statements = link.take(alloc, bytes)?;
        self.presence.hear_each(self.fused, liar, &statements, toss)
    }

    /// The fuse of its disk is set, or taken out.
    fn fuse(&mut self, calls: Option<u64>) -> Result<Mark, SimFault>
        requires ready { IsReady self.old }
        ensures ready { IsReady self.new }
        ensures disk { HasDiskFuse calls (disk_in self.old.presence) (disk_in self.new.presence) }
        ensures header { self.new.header ≡ self.old.header }
        ensures only { IfErr result (λ fault. fault ≡ faults.Memory) }
        ensures done { (size : Size) (liars : ℕ → Bool) (c : Scene) (p : ℕ) → IsSize size →
            p < size.n → IsPost size liars c p self.old →
            CanBeDone size liars c p (tasks.Fuse calls) → (bytes : List ℕ) →
            IfOk result (λ mark. IsDone size liars c p (tasks.Fuse calls) bytes mark self.new) }
    {
        self.presence.fuse(calls);
        self.fused = calls.is_some();
        Ok(Mark::Done)
    }

    /// Takes the member down, and has its disk crash.
    fn crash(&mut self, pick: Pick) -> Result<Mark, SimFault>
        requires ready { IsReady self.old }
        ensures ready { IsReady self.new }
        ensures disk { OnOk result
            (HasCrashed pick (disk_in self.old.presence) (disk_in self.new.presence)) }
        ensures header { self.new.header ≡ self.old.header }
        ensures only { IfErr result (λ fault. fault ≡ faults.Memory) }
        ensures done { (size : Size) (liars : ℕ → Bool) (c : Scene) (p : ℕ) → IsSize size →
            p < size.n → IsPost size liars c p self.old →
            CanBeDone size liars c p (tasks.Crash pick) → (bytes : List ℕ) →
            IfOk result (λ mark. IsDone size liars c p (tasks.Crash pick) bytes mark self.new) }
    {
        self.presence.crash(pick)?;
        self.fused = false;
        Ok(Mark::Done)
    }

    /// Opens the member again, and has its links begin anew.
    fn restart(&mut self, alloc: Global) -> Result<Mark, SimFault>
        requires ready { IsReady self.old }
        ensures ready { IsReady self.new }
        ensures header { self.new.header ≡ self.old.header }
        ensures only { IfErr result (λ fault. fault ≡ faults.Memory) }
        ensures done { (size : Size) (liars : ℕ → Bool) (c : Scene) (p : ℕ) → IsSize size →
            p < size.n → IsPost size liars c p self.old → CanBeDone size liars c p (tasks.Restart) →
            (bytes : List ℕ) → IfOk result (λ mark. IsDone size liars c p
            (tasks.Restart) bytes mark self.new) }
    {
        match self.presence.open(alloc, self.fused, &self.header)? {
            Mark::Done => {
                self.renew();
                Ok(Mark::Done)
            }
            mark => Ok(mark),
        }
    }

    /// All links to it begin anew.
    fn renew(&mut self)
        ensures header { self.new.header ≡ self.old.header }
        ensures presence { self.new.presence ≡ self.old.presence }
        ensures fused { self.new.fused ≡ self.old.fused }
        ensures wide { length self.new.incoming.items ≡ length self.old.incoming.items }
        ensures links { (a : ℕ) (d : Link) → a < length self.old.incoming.items →
            IsNewLink self.old.header.size (get_or self.new.incoming.items a d) }
    {
        let size = self.header.size();
        for link in self.incoming.iter_mut() {
            link.begin_anew(size);
        }
    }

    /// The link from that sender begins anew.
    fn reset(&mut self, from: u8) -> Result<Mark, SimFault>
        requires ready { IsReady self.old }
        requires within { from < self.old.header.size.n }
        ensures ready { IsReady self.new }
        ensures header { self.new.header ≡ self.old.header }
        ensures only { IfErr result (λ fault. fault ≡ faults.Memory) }
        ensures done { (size : Size) (liars : ℕ → Bool) (c : Scene) (p : ℕ) → IsSize size →
            p < size.n → IsPost size liars c p self.old →
            CanBeDone size liars c p (tasks.Reset from) → (bytes : List ℕ) →
            IfOk result (λ mark. IsDone size liars c p (tasks.Reset from) bytes mark self.new) }
    {
        self.incoming[usize::from(from)].begin_anew(self.header.size());
        Ok(Mark::Done)
    }
}

/// A link from each member, at its start.
fn links(alloc: Global, size: Size) -> Result<Vec<Link>, SimFault>
    ensures count { IfOk result (λ links. length links.items ≡ size.n) }
    ensures new { IfOk result
        (λ links. (a : ℕ) (d : Link) → a < size.n → IsNewLink size (get_or links.items a d)) }
    ensures only { IfErr result (λ fault. fault ≡ faults.Memory) }
{
    let mut links = Vec::with_capacity(alloc, usize::from(size.n()))?;
    for _from in 0..size.n() {
        links.push(Link::new(alloc, size))?;
    }
    Ok(links)
}

/// The disk, with the journal of that header on it.
fn created(mut disk: MemDisk, header: &Header) -> Result<MemDisk, SimFault>
    ensures fresh { IfOk result (λ disk. IsLeft (memory_state disk) header.now [] None) }
    ensures device { IsErrOf result faults.Device → is_some (fuse_left disk) ≡ true }
    ensures only { IfErr result IsOfOpening }
{
    let fused = disk.is_fused();
    match create(&mut disk, header) {
        Ok(()) => Ok(disk),
        Err(JournalFault::Device) if fused => Err(SimFault::Device),
        Err(_) => Err(SimFault::Memory),
    }
}
