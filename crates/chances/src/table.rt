//! The members of a question in memory, and what they said.

ghost use Rattle.std.specs.Prelude.{ℕ, List, ◌≡◌, ◌≢◌, ◌≤◌, ◌<◌, ◌-◌, ◌+◌, ◌++◌, ◌∷◌, [], ◌↔◌, IfErr, IfOk, IfSome, IsNone, IsSome, IsSomeAnd, IsTrue, OnOk, None, Ok, Err, Some, length, option_map, slice_get, true, false};
ghost use Rattle.questions.specs.declared.Core.{Core};
ghost use Rattle.chances.specs.Cores.{AreVerdicts, IsNewCore, IsVerdict, seed_of};
ghost use Rattle.chances.specs.Steps.{step_of};
ghost use Rattle.chances.specs.Links.{queue_of, queue_to, receivers_of};
ghost use Rattle.chances.specs.declared.fault.PlayFault.{PlayFault};
ghost use Rattle.chances.specs.declared.fault.PlayFault.TheVariants as faults;

use crate::fault::PlayFault;
use crate::links::Links;
use crate::steps::Step;
use crate::strategy;
use questions::{Answer, Core};
use rounds::{ChaChaTosser, Toss, Tosser};
use std::alloc::{AllocError, Global};
use terms::{Kind, Record, Size, Statement, Value};

/// The question that is played.
const QUESTION: u16 = 0;

/// Returns the seed of 32 bytes: the number's eight, the greatest first, and 24 zeros, as a
/// script's seed.
pub fn seed_bytes(seed: u64) -> [u8; 32]
    ensures { result ≡ seed_of seed }
{
    let s = seed.to_be_bytes();
    [
        s[0], s[1], s[2], s[3], s[4], s[5], s[6], s[7], 0, 0, 0, 0, 0, 0, 0, 0, 0, 0, 0, 0, 0, 0,
        0, 0, 0, 0, 0, 0, 0, 0, 0, 0,
    ]
}

/// The correct members, which have the lowest numbers, what is on their links, and what each said
/// of its own. After a fault a table is of no use.
#[derive(Drop)]
pub struct Table {
    size: Size,
    /// By correct member.
    cores: Vec<Core>,
    links: Links,
    /// The Initials that each correct member said, one for each step.
    initials: Vec<Vec<Statement>>,
    tosses: ChaChaTosser,
    ghost members: { length cores.items ≤ size.n },
    ghost lists: { length initials.items ≡ length cores.items },
    ghost rows: { (from : ℕ) → from < size.n →
        receivers_of links from ≡ length cores.items },
    ghost few: { (from : ℕ) → receivers_of links from ≤ length cores.items },
}

#[tactic(auto, unfolding(crate::specs::Tables::table_size, crate::specs::Tables::correct_of, crate::specs::Tables::cores_of, crate::specs::Tables::links_of, crate::specs::Tables::initials_of, crate::specs::Tables::tosses_of, crate::specs::Tables::said_of), using(crate::proofs::Moves::none_followed, crate::proofs::Moves::delivery_follows, crate::proofs::Moves::lie_follows, crate::proofs::Moves::lies_follow))]
impl Table {
    ghost use Rattle.terms_prelude.specs.Terms.{Hearing, Proposal, records_of};
    ghost use Rattle.rounds.specs.Tossing.{stream_of};
    ghost use Rattle.chances.specs.Tables.{AllDecided, Answers, Delivers, Follows, IsOpened, Lies, NothingLeft, Says, Takes, all_said, correct_of, cores_of, initials_of, links_of, said_in, said_of, table_size, tosses_of, with_lies};
    ghost use Rattle.questions.specs.Replies.{reply_of};

    /// Sits down a question's members: of all, the last `liars` lie. `seed` gives the tosses.
    ///
    /// # Errors
    ///
    /// - [`PlayFault::Liars`] if more lie than may;
    /// - [`PlayFault::Memory`] if an allocation failed.
    pub fn open(alloc: Global, size: Size, liars: u8, seed: u64) -> Result<Table, PlayFault>
        ensures liars { result ≡ Err faults.Liars ↔ size.t < liars }
        ensures memory { IfErr result (λ fault. fault ≢ faults.Liars → fault ≡ faults.Memory) }
        ensures opened { IfOk result (IsOpened size liars seed) }
    {
        if liars > size.t() {
            return Err(PlayFault::Liars);
        }
        let correct = size.n() - liars;
        Ok(Table {
            size,
            cores: new_cores(alloc, size, correct)?,
            links: Links::new(alloc, size.n(), correct)?,
            initials: empty_lists(alloc, correct)?,
            tosses: ChaChaTosser::from_seed(seed_bytes(seed), 0),
        })
    }

    /// Returns the cluster's size.
    pub fn size(&self) -> Size
        ensures { result ≡ table_size self.now }
    {
        self.size
    }

    /// Returns the number of correct members.
    pub fn correct(&self) -> u8
        ensures value { result ≡ correct_of self.now }
        ensures members { result ≤ (table_size self.now).n }
    {
        self.size.recall();
        self.cores.len() as u8
    }

    /// Returns what is on the links.
    pub fn links(&self) -> &Links
        ensures { result.now ≡ links_of self.now }
    {
        &self.links
    }

    /// Returns `true` if each correct member has decided.
    pub fn is_decided(&self) -> bool
        ensures all { result ≡ true → AllDecided self.now }
        ensures one { result ≡ false → (member : ℕ) × (core : Core)
            × (slice_get (cores_of self.now) member ≡ Some core) × IsVerdict core None }
    {
        for core in &self.cores {
            if core.verdict(QUESTION).is_none() {
                return false;
            }
        }
        true
    }

    /// Returns `true` if no link has anything.
    pub fn is_quiet(&self) -> bool
        ensures none { result ≡ true → NothingLeft self.now }
        ensures one { result ≡ false → (from to : ℕ) × (to < correct_of self.now)
            × (queue_of (links_of self.now) from to ≢ []) }
    {
        for from in 0..self.size.n() {
            for to in 0..self.correct() {
                if !is_empty(self.links.queue(from, to)) {
                    return false;
                }
            }
        }
        true
    }

    /// Returns `true` if each correct member has said its Initial of the step.
    pub fn is_said(&self, step: Step) -> bool
        ensures { IsTrue result ↔ ((member : ℕ) → member < correct_of self.now →
            step.0 < length (initials_of self.now member)) }
    {
        for said in &self.initials {
            if said.len() <= step.0 {
                return false;
            }
        }
        true
    }

    /// Returns the values of the correct members' Initials in the step, by member, `None` where
    /// none was said.
    pub fn said(&self, alloc: Global, step: Step) -> Result<Vec<Option<Value>>, AllocError>
        ensures { IfOk result (λ values. values.items ≡ said_of self.now step.0) }
    {
        let mut values = Vec::new(alloc);
        for said in &self.initials {
            values.push(value_at(said, step.0))?;
        }
        Ok(values)
    }

    /// Returns the values of all Initials in the step, by member: those of the correct members, and
    /// the liars'.
    pub fn values(&self, alloc: Global, step: Step) -> Result<Vec<Option<Value>>, AllocError>
        ensures { IfOk result (λ values. values.items ≡ with_lies
            ((table_size self.now).n - correct_of self.now) (table_size self.now) (step_of step.0)
            (said_of self.now step.0)) }
    {
        let mut values = self.said(alloc, step)?;
        let liars = self.size.n() - self.correct();
        for _ in 0..liars {
            let lie = strategy::lie(self.size, step.step(), &values);
            values.push(Some(lie))?;
        }
        Ok(values)
    }

    /// Proposes a bit to a correct member.
    pub fn propose(&mut self, member: u8, bit: bool) -> Result<(), PlayFault>
        ensures told { OnOk result (member < correct_of self.old →
            Answers member (Proposal 0 bit) self.old self.new) }
        ensures liars { result ≢ Err faults.Liars }
        ensures two { (seed : ℕ) → result ≢ Err (faults.TwoAnswers seed) }
    {
        let toss = self.tosses.toss();
        let Some(core) = self.cores.get_mut(usize::from(member)) else {
            return Ok(());
        };
        let answer = core.propose(QUESTION, bit, toss)?;
        self.note_all(member, &answer)
    }

    /// Delivers the statement at this place of the link's queue, from 0. Returns `false` if there
    /// is none.
    pub fn deliver(&mut self, from: u8, to: u8, place: usize) -> Result<bool, PlayFault>
        ensures came { result ≡ Ok true → Delivers from to place self.old self.new }
        ensures empty { result ≡ Ok false →
            length (queue_of (links_of self.old) from to) ≤ place }
        ensures same { result ≡ Ok false → self.new ≡ self.old }
        ensures follows { OnOk result (Follows self.old self.new) }
        ensures liars { result ≢ Err faults.Liars }
        ensures two { (seed : ℕ) → result ≢ Err (faults.TwoAnswers seed) }
    {
        if place >= self.links.queue(from, to).len() {
            return Ok(false);
        }
        match self.take(from, to, place) {
            Some(statement) => {
                self.hear(from, to, &statement)?;
                Ok(true)
            }
            None => Ok(false),
        }
    }

    /// Takes the statement at this place off the link's queue.
    fn take(&mut self, from: u8, to: u8, place: usize) -> Option<Statement>
        ensures some { IfSome result
            (λ statement. Takes from to place statement self.old self.new) }
        ensures there { IsSome result → to < correct_of self.old }
        ensures none { IsNone result → length (queue_of (links_of self.old) from to) ≤ place }
    {
        self.links.take(from, to, place)
    }

    /// Lets a liar tell a correct member this. Nothing is told in a correct member's name.
    pub fn lie(&mut self, liar: u8, to: u8, statement: &Statement) -> Result<(), PlayFault>
        ensures told { OnOk result (correct_of self.old ≤ liar → to < correct_of self.old →
            Answers to (Hearing liar statement.now) self.old self.new) }
        ensures correct { liar < correct_of self.old → self.new ≡ self.old }
        ensures nobody { correct_of self.old ≤ to → self.new ≡ self.old }
        ensures follows { OnOk result (Follows self.old self.new) }
        ensures liars { result ≢ Err faults.Liars }
        ensures two { (seed : ℕ) → result ≢ Err (faults.TwoAnswers seed) }
    {
        if liar < self.correct() {
            return Ok(());
        }
        if to >= self.correct() {
            return Ok(());
        }
        self.hear(liar, to, statement)
    }

    /// Lets a correct member hear a statement.
    fn hear(&mut self, from: u8, to: u8, statement: &Statement) -> Result<(), PlayFault>
        ensures told { OnOk result (to < correct_of self.old →
            Answers to (Hearing from statement.now) self.old self.new) }
        ensures liars { result ≢ Err faults.Liars }
        ensures two { (seed : ℕ) → result ≢ Err (faults.TwoAnswers seed) }
    {
        let toss = self.tosses.toss();
        let Some(core) = self.cores.get_mut(usize::from(to)) else {
            return Ok(());
        };
        let answer = core.hear(from, statement, toss)?;
        self.note_all(to, &answer)
    }

    /// Puts down what a member answered.
    fn note_all(&mut self, member: u8, answer: &Answer) -> Result<(), PlayFault>
        ensures says { OnOk result
            (Says member (all_said (records_of (reply_of answer.now))) self.old self.new) }
        ensures cores { cores_of self.new ≡ cores_of self.old }
        ensures tosses { tosses_of self.new ≡ tosses_of self.old }
        ensures memory { IfErr result (λ fault. fault ≡ faults.Memory) }
    {
        match answer {
            Answer::Taken(records) => self.note_records(member, records),
            Answer::Repeat | Answer::Foreign | Answer::Have(_) => Ok(()),
        }
    }

    /// Puts down what these records of a member say.
    fn note_records(&mut self, member: u8, records: &[Record]) -> Result<(), PlayFault>
        ensures says { OnOk result (Says member (all_said records.now) self.old self.new) }
        ensures cores { cores_of self.new ≡ cores_of self.old }
        ensures tosses { tosses_of self.new ≡ tosses_of self.old }
        ensures memory { IfErr result (λ fault. fault ≡ faults.Memory) }
    {
        for noted in records {
            self.note(member, noted)?;
        }
        Ok(())
    }

    /// Puts down what a record of a member says.
    fn note(&mut self, member: u8, noted: &Record) -> Result<(), PlayFault>
        ensures says { OnOk result (Says member (said_in noted.now) self.old self.new) }
        ensures cores { cores_of self.new ≡ cores_of self.old }
        ensures tosses { tosses_of self.new ≡ tosses_of self.old }
        ensures memory { IfErr result (λ fault. fault ≡ faults.Memory) }
    {
        match noted {
            Record::Decided { .. } => Ok(()),
            Record::Said(statement) => self.say(member, *statement),
        }
    }

    /// Puts down what a member said.
    fn say(&mut self, member: u8, statement: Statement) -> Result<(), PlayFault>
        ensures says { OnOk result (Says member (statement ∷ []) self.old self.new) }
        ensures cores { cores_of self.new ≡ cores_of self.old }
        ensures tosses { tosses_of self.new ≡ tosses_of self.old }
        ensures memory { IfErr result (λ fault. fault ≡ faults.Memory) }
    {
        self.links.say(member, statement)?;
        match statement.kind() {
            Kind::Initial => Ok(add_to(&mut self.initials, member, statement)?),
            Kind::Echo | Kind::Ready => Ok(()),
        }
    }

    /// Lets a liar say this to all, on its links.
    pub fn lie_to_all(&mut self, liar: u8, statement: &Statement) -> Result<(), PlayFault>
        ensures said { OnOk result (correct_of self.old ≤ liar → liar < (table_size self.old).n →
            Lies liar statement.now self.old self.new) }
        ensures correct { liar < correct_of self.old → self.new ≡ self.old }
        ensures nobody { (table_size self.old).n ≤ liar → self.new ≡ self.old }
        ensures cores { cores_of self.new ≡ cores_of self.old }
        ensures follows { OnOk result (Follows self.old self.new) }
        ensures memory { IfErr result (λ fault. fault ≡ faults.Memory) }
    {
        if liar < self.correct() {
            return Ok(());
        }
        if liar >= self.size.n() {
            return Ok(());
        }
        self.put_lie(liar, *statement)
    }

    /// Puts a liar's statement on its links.
    fn put_lie(&mut self, liar: u8, statement: Statement) -> Result<(), PlayFault>
        ensures lies { OnOk result (liar < (table_size self.old).n →
            Lies liar statement self.old self.new) }
        ensures cores { cores_of self.new ≡ cores_of self.old }
        ensures memory { IfErr result (λ fault. fault ≡ faults.Memory) }
    {
        self.links.say(liar, statement)?;
        Ok(())
    }

    /// Returns the decisions of the correct members, by member: the round and the bit, or `None`
    /// where there is none.
    pub fn verdicts(&self, alloc: Global) -> Result<Vec<Option<(u8, bool)>>, AllocError>
        ensures { IfOk result (λ verdicts. AreVerdicts (cores_of self.now) verdicts.items) }
    {
        let mut verdicts = Vec::new(alloc);
        for core in &self.cores {
            verdicts.push(core.verdict(QUESTION))?;
        }
        Ok(verdicts)
    }
}

/// Returns `true` if the queue has nothing.
fn is_empty(queue: &[Statement]) -> bool
    ensures { result ≡ true ↔ queue.now ≡ [] }
{
    match queue {
        [] => true,
        [_, ..] => false,
    }
}

/// Returns the cores of so many correct members, new ones.
fn new_cores(alloc: Global, size: Size, correct: u8) -> Result<Vec<Core>, PlayFault>
    requires { correct ≤ size.n }
    ensures count { IfOk result (λ cores. length cores.items ≡ correct) }
    ensures new { IfOk result (λ cores. (member : ℕ) → member < correct →
        IsSomeAnd (slice_get cores.items member) (IsNewCore size member)) }
    ensures memory { IfErr result (λ fault. fault ≡ faults.Memory) }
{
    let mut cores = Vec::new(alloc);
    for me in 0..correct {
        cores.push(Core::new(alloc, size, me, &[])?)?;
    }
    Ok(cores)
}

/// Returns so many empty lists.
fn empty_lists(alloc: Global, count: u8) -> Result<Vec<Vec<Statement>>, AllocError>
    ensures empty { IfOk result (λ lists. (member : ℕ) → queue_to lists.items member ≡ []) }
    ensures count { IfOk result (λ lists. length lists.items ≡ count) }
{
    let mut lists = Vec::new(alloc);
    for _ in 0..count {
        lists.push(Vec::new(alloc))?;
    }
    Ok(lists)
}

/// Returns the value of a member's Initial in this step, by the Initials that it said.
fn value_at(said: &[Statement], step: usize) -> Option<Value>
    ensures { result ≡ option_map (λ s. s.value) (slice_get said.now step) }
{
    match said.get(step) {
        Some(statement) => Some(statement.value()),
        None => None,
    }
}

/// Adds the statement to the list of this member, if there is one.
fn add_to(
    lists: &mut Vec<Vec<Statement>>,
    member: u8,
    statement: Statement,
) -> Result<(), AllocError>
    ensures added { OnOk result (member < length lists.old.items →
        queue_to lists.new.items member ≡ queue_to lists.old.items member ++ statement ∷ []) }
    ensures others { (other : ℕ) → other ≢ member →
        queue_to lists.new.items other ≡ queue_to lists.old.items other }
    ensures count { length lists.new.items ≡ length lists.old.items }
{
    match lists.get_mut(usize::from(member)) {
        Some(list) => Ok(list.push(statement)?),
        None => Ok(()),
    }
}
