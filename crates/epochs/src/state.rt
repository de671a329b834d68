//! The state that the switchboard guards: begin at `State`.

ghost use Rattle.std.specs.Prelude.{ℕ, ◌≡◌, ◌≢◌, ◌↔◌, ◌^◌, ◌⊎◌, ◌<◌, ◌≤◌, ◌==◌, ◌&&◌, ◌+◌, Bool, true, false, not, max, None, Some, [], ◌∷◌, ◌++◌, All, Contains, IfOk, IfSome, IsTrue, OnErr, OnOk, filter, drop, if◌then◌else◌, length, map, nat_le, nat_lt, slice_get, take};
ghost use Rattle.std.specs.Borrow.{Bor};
ghost use Rattle.std.specs.List.{list_any};
ghost use Rattle.std.specs.Option.{option_map, option_map_or};
ghost use Rattle.chain.specs.Opening.{IsOpenEpoch};
ghost use Rattle.chain.specs.Slots.{chain_size};
ghost use Rattle.chain.specs.declared.opening.Ask.{Ask};
ghost use Rattle.chain.specs.declared.opening.Known.{Known};
ghost use Rattle.epochs.specs.Asking.{HasFewAsks, asks_by, tells_next};
ghost use Rattle.epochs.specs.Asks.{heard_since, not_asked, not_for, standing};
ghost use Rattle.epochs.specs.Opens.{IsAwaited, IsDue, IsKept, IsKnown, IsMadeFor, IsMissed, IsToMakeUp, MayRun, WasLeftOut, first_open, has_gone_quiet, has_room, is_busy, is_made_up_for, least, made_up_for, next_change, runs, ticked};
ghost use Rattle.epochs.specs.Parking.{WaitOn, is_patient, place_of, waiting_elsewhere};
ghost use Rattle.epochs.specs.Reports.{noted, readied, running_elsewhere, running_in};
ghost use Rattle.epochs.specs.Verdicts.{IsUntouched, has_begun, has_open, verdict_at};
ghost use Rattle.epochs.specs.declared.asks.TheConstants.{ASKS};
ghost use Rattle.epochs.specs.declared.board.Doors.{Doors};
ghost use Rattle.epochs.specs.declared.verdicts.Verdicts.{Verdicts};
ghost use Rattle.epochs.specs.declared.board.Onward.TheVariants.{Await, Move, Pass, Stay, Tell};
ghost use Rattle.epochs.specs.declared.board.Stored.TheVariants.{Ahead, Decided, Far, Gone, Open};
ghost use Rattle.epochs.specs.declared.state.Place.TheVariants as place;
ghost use Rattle.epochs.specs.declared.state.Parked.{Parked};
ghost use Rattle.epochs.specs.declared.state.TheConstants.{AHEAD, MOST, OWN, PARKED};
ghost use Rattle.epochs.specs.declared.running.TheConstants.{QUIET};

use crate::asks::Asks;
use crate::board::{Doors, Onward, Report, Stored};
use crate::inbox::Arrival;
use crate::running::{QUIET, Running, is_quiet, note_ready, note_report, place_in};
use crate::verdicts::Verdicts;
use chain::{Ask, Chain, Known};
use std::alloc::Global;
use std::sync::Wait;
use terms::Memory;

/// The most epochs that run when another one behind the newest begins.
const MOST: usize = 16;

/// The most epochs behind the newest in which something happens when another one begins.
const BEHIND: usize = 4;

/// The most of them that begin to run only because they aren't done here. The others are for peers:
/// else members that each miss other epochs could wait for one another.
const OWN: usize = 2;

/// The epochs past the newest for which a proposal is taken.
const AHEAD: u64 = 64;

/// The most connections that wait for epochs that don't run yet.
const PARKED: usize = 128;

/// The seconds for which a link waits for its epoch.
const LINK_PATIENCE: u64 = 4;

/// The seconds for which a client waits for its epoch.
const CLIENT_PATIENCE: u64 = 30;

/// The place to which a connection goes.
pub(crate) enum Place<'a> {
    /// The epoch runs, and these are its doors.
    Runs(&'a Doors),
    /// The epoch is to run, and doesn't yet.
    IsDue,
    /// The epoch isn't to run.
    Nowhere,
}

/// The state that the switchboard guards.
#[derive(Drop)]
pub(crate) struct State {
    /// The newest epoch with a proposal or a decision of this member; 0 before the first.
    pub(crate) newest: u64,
    /// The number of changes so far, for those that wait for one.
    pub(crate) changes: u64,
    verdicts: Vec<Verdicts>,
    running: Vec<Running>,
    /// The epochs behind the newest that aren't done.
    undone: Vec<u64>,
    asks: Asks,
    parked: Vec<Parked>,
    alloc: Global,
}

impl State {
    /// No epoch is known.
    pub(crate) fn new(alloc: Global) -> State
        ensures newest { result.newest ≡ 0 }
        ensures made { length result.verdicts.items ≡ 0 }
        ensures running { result.running.items ≡ [] }
        ensures undone { result.undone.items ≡ [] }
        ensures parked { result.parked.items ≡ [] }
        ensures asks { standing result.asks ≡ [] }
    {
        State {
            newest: 0,
            changes: 0,
            verdicts: Vec::new(alloc),
            running: Vec::new(alloc),
            undone: Vec::new(alloc),
            asks: Asks::new(alloc),
            parked: Vec::new(alloc),
            alloc,
        }
    }

    /// Returns the first epoch that isn't closed here: the newest, or one before it that runs or
    /// isn't done. One for which a peer asks and that doesn't run is the peer's concern.
    pub(crate) fn first_open(&self) -> u64
        ensures { result ≡ first_open self.now }
    {
        let running = least_running(self.newest, self.running.as_slice());
        least_of(running, self.undone.as_slice())
    }

    /// Adds the next epoch whose journal is there.
    pub(crate) fn add(&mut self, verdicts: Verdicts) -> Result<(), Memory>
        ensures added { OnOk result
            (self.new.verdicts.items ≡ self.old.verdicts.items ++ verdicts ∷ []) }
        ensures newest { OnOk result (self.new.newest ≡ (if has_begun verdicts
            then max self.old.newest (length self.old.verdicts.items) else self.old.newest)) }
        ensures undone { (one : ℕ) → Contains self.old.undone.items one →
            Contains self.new.undone.items one }
        ensures open { OnOk result (has_open verdicts ≡ true →
            Contains self.new.undone.items (length self.old.verdicts.items)) }
        ensures left_out { OnOk result (has_begun verdicts ≡ true →
            (one : ℕ) → WasLeftOut self.old (length self.old.verdicts.items) one →
            Contains self.new.undone.items one) }
        ensures only { OnOk result ((one : ℕ) → Contains self.new.undone.items one →
            Contains self.old.undone.items one ⊎ (one ≡ length self.old.verdicts.items)
            ⊎ WasLeftOut self.old (length self.old.verdicts.items) one) }
        ensures rest { self.new ≡ record self.old {
          newest = self.new.newest;
          changes = self.new.changes;
          verdicts = self.new.verdicts;
          undone = self.new.undone;
        } }
    {
        let epoch = self.made();
        self.begin_if(verdicts.has_begun(), epoch)?;
        self.call_if(verdicts.has_open(), epoch)?;
        self.verdicts.push(verdicts)?;
        Ok(())
    }

    /// The epoch isn't done, if this is `true`.
    fn call_if(&mut self, is_open: bool, epoch: u64) -> Result<(), Memory>
        ensures called { OnOk result (is_open ≡ true → IsKept self.old epoch →
            Contains self.new.undone.items epoch) }
        ensures only { (one : ℕ) → Contains self.new.undone.items one →
            Contains self.old.undone.items one ⊎ (one ≡ epoch) }
        ensures undone { (one : ℕ) → Contains self.old.undone.items one →
            Contains self.new.undone.items one }
        ensures rest { self.new ≡ record self.old {
          changes = self.new.changes;
          undone = self.new.undone;
        } }
    {
        if !is_open {
            return Ok(());
        }
        self.call(epoch)
    }

    /// A peer asks for an epoch, at most for two at once. It is to ask again within five seconds.
    pub(crate) fn ask(&mut self, ask: Ask) -> Result<(), Memory>
        ensures few { HasFewAsks self.new.asks.list.items }
        ensures again { Contains self.old.asks.list.items ask →
            Contains (standing self.new.asks) (ask, self.old.asks.second) }
        ensures taken { OnOk result ((ASKS ≤ asks_by self.old.asks.list.items ask.peer)
            ⊎ Contains (standing self.new.asks) (ask, self.old.asks.second)) }
        ensures others { not_asked ask (standing self.new.asks)
            ≡ not_asked ask (standing self.old.asks) }
        ensures counted { self.new.changes ≡ next_change self.old.changes }
        ensures rest { self.new ≡ record self.old {
          asks = self.new.asks;
          changes = self.new.changes;
        } }
    {
        self.change();
        self.asks.hear(ask)
    }

    /// Returns the place to which a connection of the epoch goes.
    pub(crate) fn place_of(&self, chain: &Chain, epoch: u64) -> Place<'_>
        ensures runs { (doors : Bor Doors) → result ≡ place.Runs doors →
            option_map (λ one. one.doors) (running_in self.now.running.items epoch)
            ≡ Some doors.now }
        ensures due { result ≡ place.IsDue → IsDue chain.now self.now epoch }
        ensures nowhere { result ≡ place.Nowhere →
            running_in self.now.running.items epoch ≡ None }
        ensures turned_away { result ≡ place.Nowhere → IsDue chain.now self.now epoch → ⊥ }
    {
        if let Some(running) = self.running_at(epoch) {
            return Place::Runs(&running.doors);
        }
        if self.is_to_run(chain, epoch) {
            return Place::IsDue;
        }
        Place::Nowhere
    }

    /// Returns an epoch that is to run and doesn't: the newest, the one in front of it, one for
    /// which a client waits, or one of those for which somebody asks.
    pub(crate) fn due(&self, chain: &Chain) -> Option<u64>
        ensures due { IfSome result (IsDue chain.now self.now) }
        ensures newest { (epoch : ℕ) → self.now.newest ≤ epoch → epoch ≤ self.now.newest + 1 →
            epoch < 2 ^ 64 → IsDue chain.now self.now epoch → result ≢ None }
        ensures awaited { length self.now.running.items < MOST → (one : Parked) →
            Contains self.now.parked.items one → IsAwaited chain.now self.now one →
            result ≢ None }
        ensures made_up { made_up_for self.now < OWN → has_room self.now ≡ true → (epoch : ℕ) →
            Contains self.now.undone.items epoch → IsDue chain.now self.now epoch →
            result ≢ None }
        ensures asked { has_room self.now ≡ true → (ask : Ask) →
            Contains self.now.asks.list.items ask → IsDue chain.now self.now ask.epoch →
            result ≢ None }
    {
        let front = self.newest.saturating_add(1);
        if self.is_due(chain, self.newest) {
            return Some(self.newest);
        }
        if self.is_due(chain, front) {
            return Some(front);
        }
        if let Some(epoch) = self.due_for_clients(chain) {
            return Some(epoch);
        }
        if let Some(epoch) = self.due_to_make_up(chain) {
            return Some(epoch);
        }
        self.due_for_peers(chain)
    }

    /// Returns an epoch for which a peer asks and that is to run, if there is room for one.
    fn due_for_peers(&self, chain: &Chain) -> Option<u64>
        ensures due { IfSome result (IsDue chain.now self.now) }
        ensures asked { has_room self.now ≡ true → (ask : Ask) →
            Contains self.now.asks.list.items ask → IsDue chain.now self.now ask.epoch →
            result ≢ None }
    {
        match self
            .asks
            .list()
            .iter()
            .find(|ask| self.is_due(chain, ask.epoch))
        {
            Some(ask) => Some(ask.epoch),
            None => None,
        }
    }

    /// Returns an epoch for which a client waits, however many others are made up for meanwhile.
    fn due_for_clients(&self, chain: &Chain) -> Option<u64>
        ensures due { IfSome result (IsDue chain.now self.now) }
        ensures awaited { length self.now.running.items < MOST → (one : Parked) →
            Contains self.now.parked.items one → IsAwaited chain.now self.now one →
            result ≢ None }
    {
        if self.running.len() >= MOST {
            return None;
        }
        match self.parked.iter().find(|one| self.is_awaited(chain, one)) {
            Some(one) => Some(one.epoch),
            None => None,
        }
    }

    /// Returns `true` if this is a client, and its epoch is to run and doesn't.
    fn is_awaited(&self, chain: &Chain, parked: &Parked) -> bool
        ensures { IsTrue result ↔ IsAwaited chain.now self.now parked.now }
    {
        !parked.is_link && self.is_to_begin(chain, parked.epoch)
    }

    /// Returns an epoch that isn't done here and that is to run for that, if there is room for one.
    fn due_to_make_up(&self, chain: &Chain) -> Option<u64>
        ensures due { IfSome result (IsDue chain.now self.now) }
        ensures made_up { made_up_for self.now < OWN → has_room self.now ≡ true → (epoch : ℕ) →
            Contains self.now.undone.items epoch → IsDue chain.now self.now epoch →
            result ≢ None }
    {
        if self.made_up_for() >= OWN {
            return None;
        }
        match self.undone.iter().find(|one| self.is_due(chain, **one)) {
            Some(epoch) => Some(*epoch),
            None => None,
        }
    }

    /// Returns how many of these aren't done here.
    fn made_up_for(&self) -> usize
        ensures { result ≡ made_up_for self.now }
    {
        self.running
            .iter()
            .filter(|one| self.is_made_up_for(one))
            .count()
    }

    /// Returns `true` if this epoch, which runs, isn't done here, and takes the room of another.
    fn is_made_up_for(&self, one: &Running) -> bool
        ensures { result ≡ is_made_up_for self.now one.now }
    {
        one.is_busy(self.newest) && is_among(self.undone.as_slice(), one.epoch)
    }

    /// Returns `true` if this epoch is to run, doesn't, and has room beside those that do.
    fn is_due(&self, chain: &Chain, epoch: u64) -> bool
        ensures due { IsTrue result → IsDue chain.now self.now epoch }
        ensures newest { self.now.newest ≤ epoch → IsDue chain.now self.now epoch →
            IsTrue result }
        ensures room { has_room self.now ≡ true → IsDue chain.now self.now epoch →
            IsTrue result }
    {
        self.is_to_begin(chain, epoch) && (epoch >= self.newest || self.has_room())
    }

    /// Returns `true` if this epoch is to run, and doesn't.
    fn is_to_begin(&self, chain: &Chain, epoch: u64) -> bool
        ensures { IsTrue result ↔ IsDue chain.now self.now epoch }
    {
        !self.runs(epoch) && self.is_to_run(chain, epoch)
    }

    /// Returns `true` if the epoch is to run, by the rules. One whose journal was put away never
    /// does.
    fn is_to_run(&self, chain: &Chain, epoch: u64) -> bool
        ensures { IsTrue result ↔ MayRun chain.now self.now epoch }
    {
        !self.is_gone(epoch) && chain.is_open(&self.known(), epoch)
    }

    /// Returns `true` if there is room for an epoch behind the newest.
    fn has_room(&self) -> bool
        ensures { result ≡ has_room self.now }
    {
        self.behind() < BEHIND && self.running.len() < MOST
    }

    /// Returns how many epochs behind the newest take the room of another.
    fn behind(&self) -> usize
        ensures { result ≡ length (filter (is_busy self.now.newest) self.now.running.items) }
    {
        let newest = self.newest;
        self.running
            .iter()
            .filter(|one| one.is_busy(newest))
            .count()
    }

    /// The epoch begins to run. Its journal is made, and those of epochs before it that were left
    /// out, which are to be made up for. If memory is refused, it doesn't run.
    pub(crate) fn enter(&mut self, chain: &Chain, running: Running) -> Result<(), Memory>
        ensures runs { OnOk result
            (self.new.running.items ≡ self.old.running.items ++ running ∷ []) }
        ensures waits { OnErr result (self.new.running.items ≡ self.old.running.items) }
        ensures made { OnOk result (length self.new.verdicts.items
            ≡ max (length self.old.verdicts.items) (tells_next running.epoch)) }
        ensures left_out { (one : ℕ) → IsMadeFor self.old self.new running.epoch one →
            Contains self.new.undone.items one }
        ensures undone { (one : ℕ) → Contains self.old.undone.items one →
            Contains self.new.undone.items one }
        ensures only { (one : ℕ) → Contains self.new.undone.items one →
            Contains self.old.undone.items one ⊎ IsMissed self.old running.epoch one }
        ensures known { take (length self.old.verdicts.items) self.new.verdicts.items
            ≡ self.old.verdicts.items }
        ensures fresh { All (IsUntouched (chain_size chain.now).questions)
            (drop (length self.old.verdicts.items) self.new.verdicts.items) }
        ensures rest { self.new ≡ record self.old {
          changes = self.new.changes;
          verdicts = self.new.verdicts;
          running = self.new.running;
          undone = self.new.undone;
        } }
    {
        self.make(chain, running.epoch)?;
        self.running.push(running)?;
        Ok(())
    }

    /// The journals up to this epoch's are made. Those before it that are made for it are called:
    /// an epoch is called before it counts as made, so that the next try begins with it if memory
    /// is refused.
    fn make(&mut self, chain: &Chain, epoch: u64) -> Result<(), Memory>
        ensures made { OnOk result (length self.new.verdicts.items
            ≡ max (length self.old.verdicts.items) (tells_next epoch)) }
        ensures left_out { (one : ℕ) → IsMadeFor self.old self.new epoch one →
            Contains self.new.undone.items one }
        ensures undone { (one : ℕ) → Contains self.old.undone.items one →
            Contains self.new.undone.items one }
        ensures only { (one : ℕ) → Contains self.new.undone.items one →
            Contains self.old.undone.items one ⊎ IsMissed self.old epoch one }
        ensures known { take (length self.old.verdicts.items) self.new.verdicts.items
            ≡ self.old.verdicts.items }
        ensures fresh { All (IsUntouched (chain_size chain.now).questions)
            (drop (length self.old.verdicts.items) self.new.verdicts.items) }
        ensures rest { self.new ≡ record self.old {
          changes = self.new.changes;
          verdicts = self.new.verdicts;
          undone = self.new.undone;
        } }
    {
        self.change();
        for made in self.made()..epoch.saturating_add(1) {
            self.call_before(made, epoch)?;
            let none = Verdicts::none(self.alloc, chain.size().questions())?;
            self.verdicts.push(none)?;
        }
        Ok(())
    }

    /// An epoch that is made for this one isn't done if it stands before it.
    fn call_before(&mut self, made: u64, epoch: u64) -> Result<(), Memory>
        ensures called { OnOk result (made < epoch → IsKept self.old made →
            Contains self.new.undone.items made) }
        ensures undone { (one : ℕ) → Contains self.old.undone.items one →
            Contains self.new.undone.items one }
        ensures only { (one : ℕ) → Contains self.new.undone.items one →
            Contains self.old.undone.items one ⊎ ((one ≡ made) × (made < epoch)) }
        ensures rest { self.new ≡ record self.old {
          changes = self.new.changes;
          undone = self.new.undone;
        } }
    {
        if made >= epoch {
            return Ok(());
        }
        self.call(made)
    }

    /// Puts those that waited for the epoch at its doors.
    pub(crate) fn unpark<R: Wait>(&mut self, rt: &R, epoch: u64, doors: &Doors)
        ensures gone { waiting_elsewhere epoch self.new.parked.items ≡ self.new.parked.items }
        ensures others { waiting_elsewhere epoch self.new.parked.items
            ≡ waiting_elsewhere epoch self.old.parked.items }
        ensures rest { self.new ≡ record self.old { parked = self.new.parked } }
    {
        while let Some(one) = self.take_parked(epoch) {
            if one.is_link {
                doors.links.put(rt, one.arrival);
            } else {
                doors.clients.put(rt, one.arrival);
            }
        }
    }

    /// Takes the first that waits for the epoch out of those that wait.
    fn take_parked(&mut self, epoch: u64) -> Option<Parked>
        ensures others { waiting_elsewhere epoch self.new.parked.items
            ≡ waiting_elsewhere epoch self.old.parked.items }
        ensures none { result ≡ None →
            waiting_elsewhere epoch self.new.parked.items ≡ self.new.parked.items }
        ensures fewer { IfSome result
            (λ _. length self.new.parked.items < length self.old.parked.items) }
        ensures rest { self.new ≡ record self.old { parked = self.new.parked } }
    {
        match place_of(self.parked.as_slice(), epoch) {
            Some(at) => Some(self.parked.remove(at)),
            None => None,
        }
    }

    /// The epoch's member listens.
    pub(crate) fn note_ready(&mut self, epoch: u64)
        ensures noted { running_in self.new.running.items epoch
            ≡ option_map readied (running_in self.old.running.items epoch) }
        ensures others { (other : ℕ) → other ≢ epoch → running_in self.new.running.items other
            ≡ running_in self.old.running.items other }
        ensures counted { self.new.changes ≡ next_change self.old.changes }
        ensures rest { self.new ≡ record self.old {
          changes = self.new.changes;
          running = self.new.running;
        } }
    {
        note_ready(&mut self.running, epoch);
        self.change();
    }

    /// Returns `true` if the member of the newest epoch listens.
    pub(crate) fn is_ready(&self) -> bool
        ensures { result ≡ option_map_or (λ one. one.is_ready)
            (running_in self.now.running.items self.now.newest) false }
    {
        match self.running_at(self.newest) {
            Some(running) => running.is_ready,
            None => false,
        }
    }

    /// The epoch has ended, and its questions were decided so. Its links are closed. The clients at
    /// its doors wait for it to run again; if its journal was put away, they are closed too.
    pub(crate) fn leave<R: Wait>(&mut self, rt: &R, epoch: u64, verdicts: Verdicts)
        ensures told { epoch < length self.old.verdicts.items →
            slice_get self.new.verdicts.items epoch ≡ Some verdicts }
        ensures journals { (other : ℕ) → other ≢ epoch →
            slice_get self.new.verdicts.items other ≡ slice_get self.old.verdicts.items other }
        ensures ended { running_elsewhere epoch self.new.running.items ≡ self.new.running.items }
        ensures others { running_elsewhere epoch self.new.running.items
            ≡ running_elsewhere epoch self.old.running.items }
        ensures asks { standing self.new.asks ≡ not_for epoch (standing self.old.asks) }
        ensures waiting { WaitOn epoch self.old.parked.items self.new.parked.items }
        ensures undone { (other : ℕ) → other ≢ epoch → Contains self.old.undone.items other →
            Contains self.new.undone.items other }
        ensures open { IsKept self.new epoch → Contains self.old.undone.items epoch →
            Contains self.new.undone.items epoch }
        ensures gone { (IsKept self.new epoch → ⊥) → Contains self.new.undone.items epoch → ⊥ }
        ensures only { (one : ℕ) → Contains self.new.undone.items one →
            Contains self.old.undone.items one ⊎ (one ≡ epoch) }
        ensures rest { self.new ≡ record self.old {
          changes = self.new.changes;
          verdicts = self.new.verdicts;
          running = self.new.running;
          undone = self.new.undone;
          asks = self.new.asks;
          parked = self.new.parked;
        } }
    {
        self.asks.forget_epoch(epoch);
        self.keep(epoch, verdicts);
        self.change();
        self.end(rt, epoch);
    }

    /// Keeps how the questions of the epoch were decided.
    fn keep(&mut self, epoch: u64, verdicts: Verdicts)
        ensures told { epoch < length self.old.verdicts.items →
            slice_get self.new.verdicts.items epoch ≡ Some verdicts }
        ensures journals { (other : ℕ) → other ≢ epoch →
            slice_get self.new.verdicts.items other ≡ slice_get self.old.verdicts.items other }
        ensures rest { self.new ≡ record self.old { verdicts = self.new.verdicts } }
    {
        if let Some(cell) = self.verdicts.get_mut(epoch as usize) {
            *cell = verdicts;
        }
    }

    /// The epoch doesn't run any more.
    fn end<R: Wait>(&mut self, rt: &R, epoch: u64)
        ensures ended { running_elsewhere epoch self.new.running.items ≡ self.new.running.items }
        ensures others { running_elsewhere epoch self.new.running.items
            ≡ running_elsewhere epoch self.old.running.items }
        ensures waiting { WaitOn epoch self.old.parked.items self.new.parked.items }
        ensures undone { (other : ℕ) → other ≢ epoch → Contains self.old.undone.items other →
            Contains self.new.undone.items other }
        ensures open { IsKept self.old epoch → Contains self.old.undone.items epoch →
            Contains self.new.undone.items epoch }
        ensures gone { (IsKept self.old epoch → ⊥) → Contains self.new.undone.items epoch → ⊥ }
        ensures only { (one : ℕ) → Contains self.new.undone.items one →
            Contains self.old.undone.items one ⊎ (one ≡ epoch) }
        ensures rest { self.new ≡ record self.old {
          changes = self.new.changes;
          running = self.new.running;
          undone = self.new.undone;
          parked = self.new.parked;
        } }
    {
        if self.is_gone(epoch) {
            self.finish(epoch);
            self.close(rt, epoch);
            return;
        }
        self.suspend(rt, epoch);
    }

    /// Closes who waits at the doors of the epoch, which never runs again.
    fn close<R: Wait>(&mut self, rt: &R, epoch: u64)
        ensures ended { running_elsewhere epoch self.new.running.items ≡ self.new.running.items }
        ensures others { running_elsewhere epoch self.new.running.items
            ≡ running_elsewhere epoch self.old.running.items }
        ensures rest { self.new ≡ record self.old { running = self.new.running } }
    {
        while let Some(ended) = self.take_out(epoch) {
            let _closed = ended.doors.links.close(rt);
            let _closed = ended.doors.clients.close(rt);
        }
    }

    /// Closes the links at the doors of the epoch. The clients wait for it to run again.
    fn suspend<R: Wait>(&mut self, rt: &R, epoch: u64)
        ensures ended { running_elsewhere epoch self.new.running.items ≡ self.new.running.items }
        ensures others { running_elsewhere epoch self.new.running.items
            ≡ running_elsewhere epoch self.old.running.items }
        ensures waiting { WaitOn epoch self.old.parked.items self.new.parked.items }
        ensures undone { (one : ℕ) → Contains self.old.undone.items one →
            Contains self.new.undone.items one }
        ensures only { (one : ℕ) → Contains self.new.undone.items one →
            Contains self.old.undone.items one ⊎ (one ≡ epoch) }
        ensures rest { self.new ≡ record self.old {
          changes = self.new.changes;
          running = self.new.running;
          undone = self.new.undone;
          parked = self.new.parked;
        } }
    {
        while let Some(ended) = self.take_out(epoch) {
            let _closed = ended.doors.links.close(rt);
            self.park_all(epoch, ended.doors.clients.close(rt));
        }
    }

    /// Takes the first of that epoch out of those that run.
    fn take_out(&mut self, epoch: u64) -> Option<Running>
        ensures others { running_elsewhere epoch self.new.running.items
            ≡ running_elsewhere epoch self.old.running.items }
        ensures none { result ≡ None →
            running_elsewhere epoch self.new.running.items ≡ self.new.running.items }
        ensures fewer { IfSome result
            (λ _. length self.new.running.items < length self.old.running.items) }
        ensures rest { self.new ≡ record self.old { running = self.new.running } }
    {
        match place_in(self.running.as_slice(), epoch) {
            Some(at) => Some(self.running.remove(at)),
            None => None,
        }
    }

    /// These clients wait for the epoch. If memory for that is refused, the client is closed.
    fn park_all(&mut self, epoch: u64, clients: Vec<Arrival>)
        ensures waiting { WaitOn epoch self.old.parked.items self.new.parked.items }
        ensures undone { (one : ℕ) → Contains self.old.undone.items one →
            Contains self.new.undone.items one }
        ensures only { (one : ℕ) → Contains self.new.undone.items one →
            Contains self.old.undone.items one ⊎ (one ≡ epoch) }
        ensures rest { self.new ≡ record self.old {
          changes = self.new.changes;
          undone = self.new.undone;
          parked = self.new.parked;
        } }
    {
        for client in clients {
            self.call_and_park(epoch, client);
        }
    }

    /// The client waits for the epoch, which isn't done then. If memory for that is refused, the
    /// client is closed.
    fn call_and_park(&mut self, epoch: u64, client: Arrival)
        ensures waiting { WaitOn epoch self.old.parked.items self.new.parked.items }
        ensures undone { (one : ℕ) → Contains self.old.undone.items one →
            Contains self.new.undone.items one }
        ensures only { (one : ℕ) → Contains self.new.undone.items one →
            Contains self.old.undone.items one ⊎ (one ≡ epoch) }
        ensures rest { self.new ≡ record self.old {
          changes = self.new.changes;
          undone = self.new.undone;
          parked = self.new.parked;
        } }
    {
        if self.call(epoch).is_ok() {
            self.park(epoch, false, client);
        }
    }

    /// Parks a connection until its epoch runs. It is closed if too many wait.
    pub(crate) fn park(&mut self, epoch: u64, is_link: bool, arrival: Arrival)
        ensures parked { (self.new.parked.items ≡ self.old.parked.items)
            ⊎ (self.new.parked.items ≡ self.old.parked.items
            ++ record {
              epoch = epoch;
              is_link = is_link;
              since = self.old.asks.second;
              arrival = arrival;
            } ∷ []) }
        ensures full { PARKED ≤ length self.old.parked.items →
            self.new.parked.items ≡ self.old.parked.items }
        ensures counted { self.new.changes ≡ next_change self.old.changes }
        ensures rest { self.new ≡ record self.old {
          changes = self.new.changes;
          parked = self.new.parked;
        } }
    {
        self.change();
        if self.parked.len() >= PARKED {
            return;
        }
        let parked = Parked {
            epoch,
            is_link,
            since: self.asks.second(),
            arrival,
        };
        let _closed = self.parked.push(parked).is_err();
    }

    /// Closes the connections that have waited for too long: their clients and peers come again.
    pub(crate) fn close_late(&mut self)
        ensures patient { self.new.parked.items
            ≡ filter (is_patient self.old.asks.second) self.old.parked.items }
        ensures rest { self.new ≡ record self.old { parked = self.new.parked } }
    {
        let now = self.asks.second();
        self.parked.retain(|one| one.is_patient(now));
    }

    /// Notes how an epoch stands that runs. One without progress for ten seconds is done if nothing
    /// of it is open here, and nobody asks for it any more. Returns `true` if it rests.
    pub(crate) fn report(&mut self, epoch: u64, report: Report) -> Result<bool, Memory>
        ensures noted { running_in self.new.running.items epoch
            ≡ option_map (noted report) (running_in self.old.running.items epoch) }
        ensures others { (other : ℕ) → other ≢ epoch → running_in self.new.running.items other
            ≡ running_in self.old.running.items other }
        ensures rests { IfOk result (λ rests. rests
            ≡ option_map_or (λ one. one.rests) (running_in self.new.running.items epoch) false) }
        ensures newest { self.new.newest ≡ (if runs self.old epoch && report.is_begun
            then max self.old.newest epoch else self.old.newest) }
        ensures asks { standing self.new.asks ≡ (if has_gone_quiet report self.new epoch
            then not_for epoch (ticked self.old epoch) else ticked self.old epoch) }
        ensures undone { (other : ℕ) → other ≢ epoch → Contains self.old.undone.items other →
            Contains self.new.undone.items other }
        ensures open { report.is_undone ≡ true → Contains self.old.undone.items epoch →
            Contains self.new.undone.items epoch }
        ensures busy { has_gone_quiet report self.new epoch ≡ false →
            Contains self.old.undone.items epoch → Contains self.new.undone.items epoch }
        ensures done { report.is_undone ≡ false → has_gone_quiet report self.new epoch ≡ true →
            Contains self.new.undone.items epoch → ⊥ }
        ensures wanted { OnOk result (runs self.old epoch ≡ true →
            (report.is_undone ≡ true) ⊎ (has_gone_quiet report self.new epoch ≡ false) →
            IsKept self.old epoch → Contains self.new.undone.items epoch) }
        ensures left_out { OnOk result (runs self.old epoch ≡ true → report.is_begun ≡ true →
            (one : ℕ) → WasLeftOut self.old epoch one → Contains self.new.undone.items one) }
        ensures only { (one : ℕ) → Contains self.new.undone.items one →
            Contains self.old.undone.items one ⊎ (one ≡ epoch) ⊎ WasLeftOut self.old epoch one }
        ensures rest { self.new ≡ record self.old {
          newest = self.new.newest;
          changes = self.new.changes;
          running = self.new.running;
          undone = self.new.undone;
          asks = self.new.asks;
        } }
    {
        self.tell_second(epoch);
        match note_report(&mut self.running, epoch, report) {
            Some((quiet, rests)) => {
                self.settle(epoch, report, is_quiet(report, quiet))?;
                Ok(rests)
            }
            None => Ok(false),
        }
    }

    /// A second has passed in the epoch, whose clock tells that of all if it is the newest.
    fn tell_second(&mut self, epoch: u64)
        ensures asks { standing self.new.asks ≡ ticked self.old epoch }
        ensures rest { self.new ≡ record self.old { asks = self.new.asks } }
    {
        if epoch == self.newest {
            self.tick();
        }
    }

    /// A second has passed: who asked too long ago doesn't ask any more.
    fn tick(&mut self)
        ensures second { self.new.asks.second ≡ tells_next self.old.asks.second }
        ensures asks { standing self.new.asks
            ≡ heard_since self.new.asks.second (standing self.old.asks) }
        ensures rest { self.new ≡ record self.old { asks = self.new.asks } }
    {
        self.asks.tick();
    }

    /// Notes what a report says of an epoch that runs.
    fn settle(&mut self, epoch: u64, report: Report, is_quiet: bool) -> Result<(), Memory>
        ensures newest { self.new.newest ≡ (if report.is_begun
            then max self.old.newest epoch else self.old.newest) }
        ensures asks { standing self.new.asks ≡ (if is_quiet
            then not_for epoch (standing self.old.asks) else standing self.old.asks) }
        ensures undone { (other : ℕ) → other ≢ epoch → Contains self.old.undone.items other →
            Contains self.new.undone.items other }
        ensures open { report.is_undone ≡ true → Contains self.old.undone.items epoch →
            Contains self.new.undone.items epoch }
        ensures busy { is_quiet ≡ false → Contains self.old.undone.items epoch →
            Contains self.new.undone.items epoch }
        ensures done { report.is_undone ≡ false → is_quiet ≡ true →
            Contains self.new.undone.items epoch → ⊥ }
        ensures wanted { OnOk result ((not report.is_undone && is_quiet) ≡ false →
            IsKept self.old epoch → Contains self.new.undone.items epoch) }
        ensures left_out { OnOk result (report.is_begun ≡ true →
            (one : ℕ) → WasLeftOut self.old epoch one → Contains self.new.undone.items one) }
        ensures only { (one : ℕ) → Contains self.new.undone.items one →
            Contains self.old.undone.items one ⊎ (one ≡ epoch) ⊎ WasLeftOut self.old epoch one }
        ensures rest { self.new ≡ record self.old {
          newest = self.new.newest;
          changes = self.new.changes;
          undone = self.new.undone;
          asks = self.new.asks;
        } }
    {
        self.change();
        self.asks.forget_epoch_if(is_quiet, epoch);
        let begun = self.begin_if(report.is_begun, epoch);
        self.set_done(epoch, !report.is_undone && is_quiet)?;
        begun
    }

    /// The epoch has begun, if this is `true`.
    fn begin_if(&mut self, is_begun: bool, epoch: u64) -> Result<(), Memory>
        ensures newest { self.new.newest ≡ (if is_begun
            then max self.old.newest epoch else self.old.newest) }
        ensures undone { (one : ℕ) → Contains self.old.undone.items one →
            Contains self.new.undone.items one }
        ensures left_out { OnOk result (is_begun ≡ true →
            (one : ℕ) → WasLeftOut self.old epoch one → Contains self.new.undone.items one) }
        ensures only { (one : ℕ) → Contains self.new.undone.items one →
            Contains self.old.undone.items one ⊎ WasLeftOut self.old epoch one }
        ensures rest { self.new ≡ record self.old {
          newest = self.new.newest;
          changes = self.new.changes;
          undone = self.new.undone;
        } }
    {
        if !is_begun {
            return Ok(());
        }
        self.advance(epoch)
    }

    /// The epoch is done, or somebody wants something of it.
    fn set_done(&mut self, epoch: u64, is_done: bool) -> Result<(), Memory>
        ensures others { (other : ℕ) → other ≢ epoch → Contains self.old.undone.items other →
            Contains self.new.undone.items other }
        ensures open { is_done ≡ false → Contains self.old.undone.items epoch →
            Contains self.new.undone.items epoch }
        ensures done { is_done ≡ true → Contains self.new.undone.items epoch → ⊥ }
        ensures wanted { OnOk result (is_done ≡ false →
            IsKept self.old epoch → Contains self.new.undone.items epoch) }
        ensures only { (one : ℕ) → Contains self.new.undone.items one →
            Contains self.old.undone.items one ⊎ (one ≡ epoch) }
        ensures rest { self.new ≡ record self.old {
          changes = self.new.changes;
          undone = self.new.undone;
        } }
    {
        if is_done {
            self.finish(epoch);
            return Ok(());
        }
        self.call(epoch)
    }

    /// The epoch is done.
    fn finish(&mut self, epoch: u64)
        ensures gone { self.new.undone.items
            ≡ filter (λ one. not (one == epoch)) self.old.undone.items }
        ensures rest { self.new ≡ record self.old { undone = self.new.undone } }
    {
        self.undone.retain(|one| *one != epoch);
    }

    /// The member has a proposal or a decision in this epoch. Those that it left out are to be made
    /// up for. If memory is refused, this is the newest epoch all the same.
    pub(crate) fn advance(&mut self, epoch: u64) -> Result<(), Memory>
        ensures newest { self.new.newest ≡ max self.old.newest epoch }
        ensures undone { (one : ℕ) → Contains self.old.undone.items one →
            Contains self.new.undone.items one }
        ensures left_out { OnOk result ((one : ℕ) → WasLeftOut self.old epoch one →
            Contains self.new.undone.items one) }
        ensures only { (one : ℕ) → Contains self.new.undone.items one →
            Contains self.old.undone.items one ⊎ WasLeftOut self.old epoch one }
        ensures rest { self.new ≡ record self.old {
          newest = self.new.newest;
          changes = self.new.changes;
          undone = self.new.undone;
        } }
    {
        let first = self.newest.saturating_add(1);
        let end = epoch.min(self.made());
        if epoch > self.newest {
            self.newest = epoch;
            self.change();
        }
        self.call_all(first, end)
    }

    /// These epochs aren't done.
    fn call_all(&mut self, first: u64, end: u64) -> Result<(), Memory>
        ensures called { OnOk result ((one : ℕ) → first ≤ one → one < end → IsKept self.old one →
            Contains self.new.undone.items one) }
        ensures only { (one : ℕ) → Contains self.new.undone.items one →
            Contains self.old.undone.items one
            ⊎ ((first ≤ one) × (one < end) × IsKept self.old one) }
        ensures undone { (one : ℕ) → Contains self.old.undone.items one →
            Contains self.new.undone.items one }
        ensures rest { self.new ≡ record self.old {
          changes = self.new.changes;
          undone = self.new.undone;
        } }
    {
        for epoch in first..end {
            self.call(epoch)?;
        }
        Ok(())
    }

    /// Returns how many epochs have a journal, or had one.
    pub(crate) fn made(&self) -> u64
        ensures { result ≡ length self.now.verdicts.items }
    {
        self.verdicts.len() as u64
    }

    /// The epoch isn't done: somebody wants something of it. One whose journal was put away stays
    /// done. If memory is refused, nothing changes.
    pub(crate) fn call(&mut self, epoch: u64) -> Result<(), Memory>
        ensures called { OnOk result (IsKept self.old epoch →
            Contains self.new.undone.items epoch) }
        ensures only { (one : ℕ) → Contains self.new.undone.items one →
            Contains self.old.undone.items one ⊎ ((one ≡ epoch) × IsKept self.old epoch) }
        ensures undone { (one : ℕ) → Contains self.old.undone.items one →
            Contains self.new.undone.items one }
        ensures rest { self.new ≡ record self.old {
          changes = self.new.changes;
          undone = self.new.undone;
        } }
    {
        if self.is_gone(epoch) {
            return Ok(());
        }
        if self.undone.contains(&epoch) {
            return Ok(());
        }
        self.undone.push(epoch)?;
        self.change();
        Ok(())
    }

    /// Something has changed.
    pub(crate) fn change(&mut self)
        ensures counted { self.new.changes ≡ next_change self.old.changes }
        ensures rest { self.new ≡ record self.old { changes = self.new.changes } }
    {
        self.changes = self.changes.wrapping_add(1);
    }

    /// Returns `true` if the epoch runs.
    pub(crate) fn runs(&self, epoch: u64) -> bool
        ensures { result ≡ runs self.now epoch }
    {
        self.running.iter().any(|one| one.epoch == epoch)
    }

    /// Returns `true` if the epoch is behind the newest, and no decision of it is to be waited for:
    /// it doesn't run, or nothing has happened in it for ten seconds.
    pub(crate) fn is_passed(&self, epoch: u64) -> bool
        ensures { result ≡ (nat_lt epoch self.now.newest
            && option_map_or (λ one. nat_le QUIET one.quiet)
            (running_in self.now.running.items epoch) true) }
    {
        if epoch >= self.newest {
            return false;
        }
        match self.running_at(epoch) {
            Some(running) => running.quiet >= QUIET,
            None => true,
        }
    }

    /// Returns what a follower at another epoch's desk does, whose next decision is that at this
    /// place of the epoch, counted in the order of its journal. It passes no epoch that runs: what
    /// is decided there its own desk tells.
    pub(crate) fn onward(&self, chain: &Chain, epoch: u64, place: u16) -> Onward
        ensures tell { (question : ℕ) (bit : Bool) → result ≡ Tell question bit →
            (running_in self.now.running.items epoch ≡ None)
            × IfSome (slice_get self.now.verdicts.items epoch)
            (λ one. (slice_get one.order.items place ≡ Some question)
            × (verdict_at one question ≡ Some bit)) }
        ensures told { (verdicts : Verdicts) (question : ℕ) (bit : Bool) →
            running_in self.now.running.items epoch ≡ None →
            slice_get self.now.verdicts.items epoch ≡ Some verdicts →
            slice_get verdicts.order.items place ≡ Some question →
            verdict_at verdicts question ≡ Some bit → result ≡ Tell question bit }
        ensures moves { (known : Known) → IsKnown self.now known → (result ≡ Move)
            ↔ ((running_in self.now.running.items epoch ≢ None)
            × IsOpenEpoch (chain_size chain.now) known epoch) }
        ensures pass { result ≡ Pass → (running_in self.now.running.items epoch ≡ None)
            × (epoch < self.now.newest) }
        ensures passes { running_in self.now.running.items epoch ≡ None →
            epoch < self.now.newest → result ≢ Stay }
        ensures missed { result ≡ Await → IsToMakeUp self.now epoch }
        ensures awaits { IsToMakeUp self.now epoch → result ≢ Pass }
    {
        if self.running_at(epoch).is_some() {
            return if self.is_over(chain, epoch) {
                Onward::Stay
            } else {
                Onward::Move
            };
        }
        match self.decided_at(epoch, place) {
            Some((question, bit)) => Onward::Tell(question, bit),
            None if epoch >= self.newest => Onward::Stay,
            None if self.is_missed(epoch) => Onward::Await,
            None => Onward::Pass,
        }
    }

    /// Returns `true` if nothing of the epoch is known and it isn't done: it is to be made up for.
    fn is_missed(&self, epoch: u64) -> bool
        ensures { IsTrue result ↔ IsToMakeUp self.now epoch }
    {
        if !self.undone.contains(&epoch) {
            return false;
        }
        match self.verdicts.get(epoch as usize) {
            Some(verdicts) => !verdicts.has_begun(),
            None => false,
        }
    }

    /// Returns `true` if an epoch that runs is to end: by the rules it isn't open.
    pub(crate) fn is_over(&self, chain: &Chain, epoch: u64) -> bool
        ensures { (known : Known) → IsKnown self.now known →
            ((result ≡ false) ↔ IsOpenEpoch (chain_size chain.now) known epoch) }
    {
        !chain.is_open(&self.known(), epoch)
    }

    /// Returns what the member knows of its chain.
    fn known(&self) -> Known<'_>
        ensures { IsKnown self.now result }
    {
        Known {
            newest: self.newest,
            undone: self.undone.as_slice(),
            asks: self.asks.list(),
        }
    }

    /// Returns the question that was decided at this place in an epoch that doesn't run, and its
    /// bit.
    pub(crate) fn decided_at(&self, epoch: u64, place: u16) -> Option<(u16, bool)>
        ensures known { (verdicts : Verdicts) (question : ℕ) (bit : Bool) →
            slice_get self.now.verdicts.items epoch ≡ Some verdicts →
            slice_get verdicts.order.items place ≡ Some question →
            verdict_at verdicts question ≡ Some bit → result ≡ Some (question, bit) }
        ensures question { IfSome result (λ told. IfSome (slice_get self.now.verdicts.items epoch)
            (λ one. slice_get one.order.items place ≡ Some told.0)) }
        ensures bit { IfSome result (λ told. IfSome (slice_get self.now.verdicts.items epoch)
            (λ one. verdict_at one told.0 ≡ Some told.1)) }
    {
        match self.verdicts.get(epoch as usize) {
            Some(verdicts) => verdicts.decided_at(place),
            None => None,
        }
    }

    /// Returns what is known of a question of an epoch that doesn't run; none of one that does.
    pub(crate) fn stored(&self, epoch: u64, question: u16) -> Option<Stored>
        ensures runs { (result ≡ None) ↔ (running_in self.now.running.items epoch ≢ None) }
        ensures known { (verdicts : Verdicts) (bit : Bool) →
            slice_get self.now.verdicts.items epoch ≡ Some verdicts →
            verdict_at verdicts question ≡ Some bit → result ≢ None →
            result ≡ Some (Decided bit) }
        ensures decided { (bit : Bool) → result ≡ Some (Decided bit) →
            IfSome (slice_get self.now.verdicts.items epoch)
            (λ one. verdict_at one question ≡ Some bit) }
        ensures open { result ≡ Some Open → IfSome (slice_get self.now.verdicts.items epoch)
            (λ one. verdict_at one question ≡ None) }
        ensures gone { result ≡ Some Gone → IsKept self.now epoch → ⊥ }
        ensures ahead { result ≡ Some Ahead → self.now.newest + 1 < epoch }
        ensures far { result ≡ Some Far → self.now.newest + AHEAD < epoch }
        ensures lost { (IsKept self.now epoch → ⊥) → result ≢ None → result ≡ Some Gone }
        ensures near { result ≡ Some Open → slice_get self.now.verdicts.items epoch ≡ None →
            epoch ≤ self.now.newest + 1 }
        ensures within { result ≡ Some Ahead → epoch ≤ self.now.newest + AHEAD }
    {
        if self.running_at(epoch).is_some() {
            return None;
        }
        match self.verdicts.get(epoch as usize) {
            Some(_) if self.is_gone(epoch) => Some(Stored::Gone),
            Some(verdicts) => match verdicts.of(question) {
                Some(bit) => Some(Stored::Decided(bit)),
                None => Some(Stored::Open),
            },
            None if epoch <= self.newest.saturating_add(1) => Some(Stored::Open),
            None if epoch <= self.newest.saturating_add(AHEAD) => Some(Stored::Ahead),
            None => Some(Stored::Far),
        }
    }

    /// Returns the epoch among those that run.
    fn running_at(&self, epoch: u64) -> Option<&Running>
        ensures { option_map (λ one. one.now) result ≡ running_in self.now.running.items epoch }
    {
        self.running.iter().find(|one| one.epoch == epoch)
    }

    /// Returns `true` if the epoch's journal was put away.
    pub(crate) fn is_gone(&self, epoch: u64) -> bool
        ensures kept { result ≡ false → IsKept self.now epoch }
        ensures gone { result ≡ true → IsKept self.now epoch → ⊥ }
    {
        match self.verdicts.get(epoch as usize) {
            Some(verdicts) => verdicts.is_gone(),
            None => false,
        }
    }
}

/// A connection that waits for an epoch that doesn't run yet.
#[derive(Drop)]
struct Parked {
    epoch: u64,
    is_link: bool,
    /// The second in which it began to wait.
    since: u64,
    arrival: Arrival,
}

impl Parked {
    /// Returns `true` if it may wait on at that second: a peer dials anew after four.
    fn is_patient(&self, now: u64) -> bool
        ensures { result ≡ is_patient now self.now }
    {
        let limit = if self.is_link {
            LINK_PATIENCE
        } else {
            CLIENT_PATIENCE
        };
        now.saturating_sub(self.since) <= limit
    }
}

/// Returns the place of the first that waits for this epoch.
fn place_of(parked: &[Parked], epoch: u64) -> Option<usize>
    ensures { result ≡ place_of parked.now epoch }
{
    parked.iter().position(|one| one.epoch == epoch)
}

/// Returns `true` if the epoch is one of these.
fn is_among(epochs: &[u64], epoch: u64) -> bool
    ensures { result ≡ list_any (λ one. one == epoch) epochs.now }
{
    epochs.iter().any(|one| *one == epoch)
}

/// Returns the least of this number and of the epochs that run.
fn least_running(first: u64, running: &[Running]) -> u64
    ensures { result ≡ least first (map (λ one. one.epoch) running.now) }
{
    let mut least = first;
    for one in running {
        least = least.min(one.epoch);
    }
    least
}

/// Returns the least of this number and of these epochs.
fn least_of(first: u64, epochs: &[u64]) -> u64
    ensures { result ≡ least first epochs.now }
{
    let mut least = first;
    for epoch in epochs {
        least = least.min(*epoch);
    }
    least
}
