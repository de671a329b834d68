//! Whole simulations.

ghost use Rattle.std.specs.Prelude.{◌≡◌, ◌++◌, ◌<◌, ◌≤◌, ◌^◌, ℕ, Bool, List, length, drop, get_or, false, true, IfOk, IfErr, OnOk, IsErrOf, IsTrue, Err, option_map, ◌↔◌, ◌≢◌};
ghost use Rattle.std.specs.Global.{Vec};
ghost use Rattle.terms_prelude.specs.Terms.{Size, Record, IsSize, count_below, decided};
ghost use Rattle.sim.specs.Scene.{Scene, opening, plan_of};
ghost use Rattle.sim.specs.Posts.{IsCluster, AreReady, IsReady, IsCreated, HasSender, IsOfRun, IsOfOpening, OpensPost};
ghost use Rattle.sim.specs.Outcomes.{AreLiars, AreDisks, HasFuse, IsSimulation, HaveOneBit, AreUnanimous, among, fused_in, verdicts_below, verdicts_of};
ghost use Rattle.sim.specs.declared.faults.SimFault.TheVariants as faults;
ghost use Rattle.sim.specs.declared.posts.Post.{Post};
ghost use Rattle.sim.specs.Presences.{is_liar, mine};
ghost use Rattle.sim.specs.Runs.{IsTurn, IsSteady};
ghost use Rattle.sim.specs.Plays.{Played, ClusterStandsFor, played, unplayed, and_then, last_saved, saved_among, saved_behind};

use crate::posts::Post;
use crate::tasks::{Instruction, brought, bytes_in, delivery, plan, way_of};
use crate::{Event, Mark, Reason, SimFault};
use disk::MemDisk;
use std::alloc::Global;
use std::marker::Model;
use terms::{Header, Record, Size};
use world::safety;

/// The outcome of a script.
#[derive(Debug, PartialEq, Eq, Drop)]
pub struct Outcome {
    /// The outcome of each event, in order.
    pub marks: Vec<Mark>,
    /// Every decision that a correct member has saved: the member, the question, the round (1 to
    /// 32) and the bit. They stand by member, and then by question.
    pub verdicts: Vec<(u8, u16, u8, bool)>,
    /// The records that each event, in order, made the member it came to save: what that member
    /// said because of it, and what it decided. After a restart these are the records of a batch
    /// that was in doubt and that the disk has kept.
    pub saved: Vec<Vec<Record>>,
}

/// A cluster in memory, the one of number 0, on which events are played one after another. It keeps
/// nothing of them but what its members have saved.
///
/// What was played on it (`Played`: the events, the mark of each and the records that each saved)
/// is a run of the crate `world`, after which the cluster is where it is (`Stands`). After an error
/// nothing is known of the cluster.
#[derive(Drop)]
pub struct Cluster {
    size: Size,
    posts: Vec<Post>,
    /// The member that the last event was for, and how many records that had saved before. None
    /// where the event was skipped.
    last: Option<(u8, usize)>,
}

impl Model for Cluster {
    ghost use Rattle.sim.specs.Posts.{AreReady};
    ghost use Rattle.sim.specs.Plays.{ClusterFields};

    ghost Value = { ClusterFields };

    ghost view = { λ c. record { size = c.size; posts = c.posts.items; last = c.last } };

    ghost invariant = { λ c. AreReady c.size c.posts.items };
}

impl Cluster {
    /// A cluster on which nothing was played. Each member has its disk, by number; a journal is
    /// created on the disks of correct members alone, on all of them before the first is opened.
    /// The liars are numbers of members, upwards.
    ///
    /// - `bad_liars`: `BadLiars` exactly where the liars' numbers don't rise, one is not below n,
    ///   or they are more than t.
    /// - `bad_disks`: `BadDisks` exactly where the liars are right, and there are not n disks or
    ///   one is not empty.
    /// - `device`: `Device` only where a fuse is in the disk of a correct member.
    ///
    /// `Memory` comes where there is no memory.
    pub fn open(
        alloc: Global,
        size: Size,
        liars: &[u8],
        disks: Vec<MemDisk>,
    ) -> Result<Cluster, SimFault>
        ensures bad_liars { IsErrOf result faults.BadLiars ↔ (AreLiars size liars.now → ⊥) }
        ensures bad_disks { IsErrOf result faults.BadDisks
            ↔ (AreLiars size liars.now × (AreDisks size disks.items → ⊥)) }
        ensures device { IsErrOf result faults.Device → HasFuse liars.now disks.items }
        ensures stands { IfOk result
            (ClusterStandsFor (unplayed size (among liars.now) (fused_in disks.items))) }
        ensures few_lie { IfOk result (λ _. count_below size.n (among liars.now) ≤ size.t) }
        ensures never_full { result ≡ Err faults.Full → ⊥ }
    {
        if !are_liars(size, liars) {
            return Err(SimFault::BadLiars);
        }
        if !are_disks(size, &disks) {
            return Err(SimFault::BadDisks);
        }
        size.recall();
        let posts = opened(alloc, size, liars, disks)?;
        Ok(Cluster {
            size,
            posts,
            last: None,
        })
    }

    /// Plays an event: what became of it.
    ///
    /// - `stands`: with the event, its mark and the records that it saved, all that was played is
    ///   still a run of the world, and the cluster is where it leads. What an event saved is all
    ///   that its member's journal has behind what it had before, in order; an event whose plan is
    ///   to skip it saved nothing.
    /// - `memory`: no error but `Memory` comes. So `Full` never does, whatever was played: all that
    ///   a correct member may ever save has room in its journal.
    #[inline(always)]
    pub fn play(&mut self, alloc: Global, event: &Event) -> Result<Mark, SimFault>
        ensures stands { (past : Played) (saved : Vec Record) → ClusterStandsFor past self.old →
            saved.items ≡ last_saved self.new →
            IfOk result (λ mark. ClusterStandsFor (and_then past event.now mark saved) self.new) }
        ensures room { IfOk result (λ _. length (last_saved self.new) < 2 ^ 63) }
        ensures memory { (past : Played) → ClusterStandsFor past self.old →
            IfErr result (λ fault. fault ≡ faults.Memory) }
    {
        let (mark, last) = step(alloc, self.size, self.posts.as_mut_slice(), event)?;
        self.last = last;
        Ok(mark)
    }

    /// The records that the last event made its member save: what the member said because of it,
    /// and what it decided. After a restart these are the records of a batch that was in doubt and
    /// that the disk has kept.
    pub fn saved(&self) -> &[Record]
        ensures { result.now ≡ last_saved self.now }
    {
        match self.last {
            Some((to, before)) => saved_behind(self.posts.get(usize::from(to)), before),
            None => &[],
        }
    }

    /// The decisions that correct members have saved, by member and then by question.
    ///
    /// - `run`: they are all decisions of the world that was played.
    /// - `agree`: two verdicts of one question have one bit.
    /// - `unanimous`: where all proposals of a question that weren't skipped are of one bit, so is
    ///   each verdict of it.
    ///
    /// `Memory` comes where there is no memory.
    pub fn verdicts(&self, alloc: Global) -> Result<Vec<(u8, u16, u8, bool)>, SimFault>
        ensures run { (past : Played) → ClusterStandsFor past self.now →
            IfOk result (λ verdicts. IsSimulation past.size past.liars past.fused past.script
            past.marks past.saved verdicts.items) }
        ensures agree { (past : Played) → ClusterStandsFor past self.now →
            IfOk result (λ verdicts. HaveOneBit verdicts.items) }
        ensures unanimous { (past : Played) → ClusterStandsFor past self.now →
            IfOk result (λ verdicts. AreUnanimous past.script past.marks verdicts.items) }
        ensures memory { IfErr result (λ fault. fault ≡ faults.Memory) }
    {
        // The theorem, which does nothing: `agree` and `unanimous` are its promises of this run.
        safety();
        verdicts(alloc, self.size, &self.posts)
    }
}

/// Returns `true` if these may be the liars' numbers: they rise, are below n, and at most t.
fn are_liars(size: Size, liars: &[u8]) -> bool
    ensures { IsTrue result ↔ AreLiars size liars.now }
{
    let mut least = 0;
    for liar in liars {
        if *liar < least || *liar >= size.n() {
            return false;
        }
        least = *liar + 1;
    }
    liars.len() <= usize::from(size.t())
}

/// Returns `true` if there is one disk for each member, and each is empty.
fn are_disks(size: Size, disks: &[MemDisk]) -> bool
    ensures { IsTrue result ↔ AreDisks size disks.now }
{
    disks.len() == usize::from(size.n()) && disks.iter().all(|disk| disk.is_empty())
}

/// Carries one event out: its mark, and where it wasn't skipped its member, and how many records
/// that had saved before. Most events are deliveries of one statement, for which nothing else is
/// asked.
#[inline(always)]
fn step(
    alloc: Global,
    size: Size,
    posts: &mut [Post],
    event: &Event,
) -> Result<(Mark, Option<(u8, usize)>), SimFault>
    requires ready { AreReady size posts.old }
    ensures ready { AreReady size posts.new }
    ensures only { IfErr result IsOfRun }
    ensures turn { (liars : ℕ → Bool) (c : Scene) → IsSize size → IsSteady size liars c →
        IsCluster size liars c posts.old →
        IfOk result (λ done. IsTurn size liars c event.now done.0
        (saved_among posts.new done.1) posts.new) }
    ensures room { IfOk result (λ done. length (saved_among posts.new done.1) < 2 ^ 63) }
    ensures memory { (liars : ℕ → Bool) (c : Scene) → IsSize size → IsSteady size liars c →
        IsCluster size liars c posts.old → IfErr result (λ fault. fault ≡ faults.Memory) }
{
    match event {
        Event::Deliver {
            from,
            to,
            which,
            toss,
        } => {
            let planned = delivery(size, posts, way_of(*from, *to, *toss), *which);
            carry_out(alloc, size, posts, event, planned)
        }
        _ => {
            let planned = plan(size, posts, event);
            carry_out(alloc, size, posts, event, planned)
        }
    }
}

/// Carries out what is planned for an event.
#[inline(always)]
fn carry_out(
    alloc: Global,
    size: Size,
    posts: &mut [Post],
    event: &Event,
    planned: Result<(u8, Instruction), Reason>,
) -> Result<(Mark, Option<(u8, usize)>), SimFault>
    requires ready { AreReady size posts.old }
    requires within { IfOk planned (λ to. (to.0 < size.n) × HasSender size.n to.1) }
    ensures ready { AreReady size posts.new }
    ensures only { IfErr result IsOfRun }
    ensures turn { (liars : ℕ → Bool) (c : Scene) → IsSize size → IsSteady size liars c →
        IsCluster size liars c posts.old → planned ≡ plan_of size liars c event.now →
        IfOk result (λ done. IsTurn size liars c event.now done.0
        (saved_among posts.new done.1) posts.new) }
    ensures room { IfOk result (λ done. length (saved_among posts.new done.1) < 2 ^ 63) }
    ensures memory { (liars : ℕ → Bool) (c : Scene) → IsSize size → IsSteady size liars c →
        IsCluster size liars c posts.old → planned ≡ plan_of size liars c event.now →
        IfErr result (λ fault. fault ≡ faults.Memory) }
{
    match planned {
        Ok((to, task)) => {
            let group = brought(alloc, size, posts, to, &task)?;
            let post = &mut posts[usize::from(to)];
            let before = post.records().len();
            let mark = post.carry(alloc, task, bytes_in(event), &group)?;
            let _after = post.records().len();
            Ok((mark, Some((to, before))))
        }
        Err(reason) => Ok((Mark::Skipped(reason), None)),
    }
}

/// Returns what the post, if it is there, has saved behind its first so many records.
fn saved_behind(post: Option<&Post>, before: usize) -> &[Record]
    ensures { result.now ≡ saved_behind (option_map (λ p. p.now) post.entry) before }
{
    match post {
        Some(post) => behind(post.records(), before),
        None => &[],
    }
}

/// The records behind the first so many.
fn behind(records: &[Record], before: usize) -> &[Record]
    ensures { result.now ≡ drop before records.now }
{
    if before <= records.len() {
        &records[before..]
    } else {
        &[]
    }
}

/// Runs a script against a whole cluster, the one of number 0. The script, what was marked and what
/// was decided are a run of the crate `world`; so its promises hold of them (the properties have
/// the names of Cachin, Guerraoui and Rodrigues, chapter 5).
///
/// The liars are numbers of members, upwards. Each member has its disk, by number; a journal is
/// created on the disks of correct members alone, on all of them before the first is opened. On an
/// error nothing is left of the cluster.
///
/// - `bad_liars`: `BadLiars` exactly where the liars' numbers don't rise, one is not below n, or
///   they are more than t.
/// - `bad_disks`: `BadDisks` exactly where the liars are right, and there are not n disks or one is
///   not empty.
/// - `device`: `Device` only where a fuse is in the disk of a correct member; it comes before the
///   first event.
/// - `run`: the events with their marks are steps of the world from its start, event by event; each
///   mark is the one that the event has there, and the verdicts are all decisions that correct
///   members have saved in the end, by member and then by question. What an event saved is all that
///   its member's journal has there behind what it had before, in order; an event whose plan is to
///   skip it saved nothing.
/// - `few_lie`: at most t lie in it, so what the theorem says of settled worlds can be asked of its
///   last world too.
/// - `agree`: two verdicts of one question have one bit.
/// - `unanimous`: where all proposals of a question that weren't skipped are of one bit, so is each
///   verdict of it.
/// - `never_full`: `Full` never comes, whatever the size and the script: all that a correct member
///   may ever save, at most one statement of each kind at each place and one decision of each
///   question, has room in its journal.
///
/// `Memory` comes where there is no memory.
pub fn run(
    alloc: Global,
    size: Size,
    liars: &[u8],
    disks: Vec<MemDisk>,
    script: &[Event],
) -> Result<Outcome, SimFault>
    ensures bad_liars { IsErrOf result faults.BadLiars ↔ (AreLiars size liars.now → ⊥) }
    ensures bad_disks { IsErrOf result faults.BadDisks
        ↔ (AreLiars size liars.now × (AreDisks size disks.items → ⊥)) }
    ensures device { IsErrOf result faults.Device → HasFuse liars.now disks.items }
    ensures run { IfOk result
        (λ outcome. IsSimulation size (among liars.now)
        (fused_in disks.items) script.now outcome.marks.items outcome.saved.items
        outcome.verdicts.items) }
    ensures few_lie { IfOk result (λ _. count_below size.n (among liars.now) ≤ size.t) }
    ensures agree { IfOk result (λ outcome. HaveOneBit outcome.verdicts.items) }
    ensures unanimous { IfOk result
        (λ outcome. AreUnanimous script.now outcome.marks.items outcome.verdicts.items) }
    ensures never_full { result ≡ Err faults.Full → ⊥ }
{
    let mut cluster = Cluster::open(alloc, size, liars, disks)?;
    let (marks, saved) = follow(alloc, &mut cluster, script)?;
    let verdicts = cluster.verdicts(alloc)?;
    Ok(Outcome {
        marks,
        verdicts,
        saved,
    })
}

/// Plays all events: of each its mark, and what it saved.
fn follow(
    alloc: Global,
    cluster: &mut Cluster,
    script: &[Event],
) -> Result<(Vec<Mark>, Vec<Vec<Record>>), SimFault>
    ensures stands { (size : Size) (liars fused : ℕ → Bool) →
        ClusterStandsFor (unplayed size liars fused) cluster.old →
        IfOk result (λ done. ClusterStandsFor
        (played size liars fused script.now done.0.items done.1.items) cluster.new) }
    ensures memory { (size : Size) (liars fused : ℕ → Bool) →
        ClusterStandsFor (unplayed size liars fused) cluster.old →
        IfErr result (λ fault. fault ≡ faults.Memory) }
{
    let mut marks = Vec::with_capacity(alloc, script.len())?;
    let mut saved = Vec::with_capacity(alloc, script.len())?;
    for event in script {
        marks.push(cluster.play(alloc, event)?)?;
        let records = Vec::from_slice(alloc, cluster.saved())?;
        saved.push(records)?;
    }
    Ok((marks, saved))
}

/// The posts of all members, the journals created and then opened.
fn opened(
    alloc: Global,
    size: Size,
    liars: &[u8],
    disks: Vec<MemDisk>,
) -> Result<Vec<Post>, SimFault>
    requires count { length disks.items ≡ size.n }
    ensures ready { IfOk result (λ posts. AreReady size posts.items) }
    ensures cluster { IfOk result (λ posts.
        IsCluster size (among liars.now) (opening (fused_in disks.items)) posts.items) }
    ensures device { IsErrOf result faults.Device → HasFuse liars.now disks.items }
    ensures only { IfErr result IsOfOpening }
{
    let mut posts = posts(alloc, size, liars, disks)?;
    begin(alloc, posts.as_mut_slice())?;
    Ok(posts)
}

/// Opens all journals, upwards.
fn begin(alloc: Global, posts: &mut [Post]) -> Result<(), SimFault>
    requires ready { (p : ℕ) (d : Post) → p < length posts.old → IsReady (get_or posts.old p d) }
    ensures count { length posts.new ≡ length posts.old }
    ensures opened { OnOk result ((p : ℕ) (d : Post) → p < length posts.old →
        OpensPost (get_or posts.old p d) (get_or posts.new p d)) }
    ensures only { IfErr result IsOfOpening }
    ensures device { IsErrOf result faults.Device → (p : ℕ) × (p < length posts.old) × ((d : Post) →
        (is_liar (get_or posts.old p d).presence ≡ false) × ((get_or posts.old p d).fused ≡ true)) }
{
    for post in posts.iter_mut() {
        post.begin(alloc)?;
    }
    Ok(())
}

/// The posts of all members, the journals created and not yet opened.
fn posts(
    alloc: Global,
    size: Size,
    liars: &[u8],
    disks: Vec<MemDisk>,
) -> Result<Vec<Post>, SimFault>
    requires count { length disks.items ≡ size.n }
    ensures count { IfOk result (λ posts. length posts.items ≡ length disks.items) }
    ensures each { IfOk result
        (λ posts. (p : ℕ) (d : Post) → p < length posts.items → IsReady (get_or posts.items p d)
        × IsCreated (mine size p) (among liars.now p) (fused_in disks.items p)
        (get_or posts.items p d)) }
    ensures device { IsErrOf result faults.Device → HasFuse liars.now disks.items }
    ensures only { IfErr result IsOfOpening }
{
    let mut posts = Vec::with_capacity(alloc, disks.len())?;
    let mut me = 0;
    for disk in disks {
        let Some(header) = Header::new(0, size, me) else {
            return Err(SimFault::BadDisks);
        };
        posts.push(Post::new(alloc, header, liars.contains(&me), disk)?)?;
        me += 1;
    }
    Ok(posts)
}

/// The decisions that correct members have saved, by member and then by question.
fn verdicts(alloc: Global, size: Size, posts: &[Post]) -> Result<Vec<(u8, u16, u8, bool)>, SimFault>
    requires count { length posts.now ≡ size.n }
    ensures are { (liars : ℕ → Bool) (c : Scene) → IsCluster size liars c posts.now →
        IfOk result (λ verdicts. verdicts.items ≡ verdicts_of size liars c.world) }
    ensures only { IfErr result (λ fault. fault ≡ faults.Memory) }
{
    let mut verdicts = Vec::new(alloc);
    for post in posts {
        let decisions = decisions_among(alloc, post.records())?;
        append_decisions(&mut verdicts, post.me(), size.questions(), &decisions)?;
    }
    Ok(verdicts)
}

/// The decisions among the records, in order: so records are gone through once, and not once a
/// question.
fn decisions_among(alloc: Global, records: &[Record]) -> Result<Vec<Record>, SimFault>
    ensures same { IfOk result
        (λ kept. (question : ℕ) → decided kept.items question ≡ decided records.now question) }
    ensures only { IfErr result (λ fault. fault ≡ faults.Memory) }
{
    let mut decisions = Vec::new(alloc);
    for item in records {
        match *item {
            Record::Decided { .. } => decisions.push(*item)?,
            Record::Said(_) => {}
        }
    }
    Ok(decisions)
}

/// Appends the first decision of each question, by question.
fn append_decisions(
    verdicts: &mut Vec<(u8, u16, u8, bool)>,
    me: u8,
    questions: u16,
    records: &[Record],
) -> Result<(), SimFault>
    ensures appended { OnOk result
        (verdicts.new.items ≡ verdicts.old.items ++ verdicts_below questions me records.now) }
    ensures only { IfErr result (λ fault. fault ≡ faults.Memory) }
{
    for question in 0..questions {
        if let Some((round, bit)) = decision(records, question) {
            verdicts.push((me, question, round, bit))?;
        }
    }
    Ok(())
}

/// The first decision of that question among the records: its round and bit.
fn decision(records: &[Record], question: u16) -> Option<(u8, bool)>
    ensures { result ≡ decided records.now question }
{
    for item in records {
        if let Record::Decided {
            question: of,
            round,
            bit,
        } = *item
            && of == question
        {
            return Some((round, bit));
        }
    }
    None
}
