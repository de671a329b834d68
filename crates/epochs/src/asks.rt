//! The asks of a member's peers for epochs: begin at `Asks`.

ghost use Rattle.std.specs.Prelude.{◌≡◌, length};
ghost use Rattle.epochs.specs.Asking.{HasFewAsks, asks_by, place_of, tells_next, tested_at};

use chain::Ask;
use std::alloc::Global;
use terms::Memory;

/// The most epochs for which one peer asks at once.
pub(crate) const ASKS: usize = 2;

/// The seconds for which an ask stands.
pub(crate) const ASKING: u64 = 5;

/// The asks that stand.
#[derive(Drop)]
pub(crate) struct Asks {
    list: Vec<Ask>,
    /// The second in which each of these was heard last.
    heard: Vec<u64>,
    /// The seconds that have passed.
    second: u64,
    ghost paired: { length heard.items ≡ length list.items },
    ghost few: { HasFewAsks list.items },
}

impl Asks {
    ghost use Rattle.std.specs.Prelude.{[], ◌⊎◌, ◌<◌, ◌≤◌, Contains, OnOk, filter, None, Some, if◌then◌else◌};
    ghost use Rattle.epochs.specs.Asks.{heard_since, not_asked, not_for, standing, stays};

    /// Nobody asks.
    pub(crate) fn new(alloc: Global) -> Asks
        ensures none { standing result ≡ [] }
    {
        Asks {
            list: Vec::new(alloc),
            heard: Vec::new(alloc),
            second: 0,
        }
    }

    /// Returns the asks that stand.
    pub(crate) fn list(&self) -> &[Ask]
        ensures { result.now ≡ self.now.list.items }
    {
        self.list.as_slice()
    }

    /// Returns the seconds that have passed.
    pub(crate) fn second(&self) -> u64
        ensures { result ≡ self.now.second }
    {
        self.second
    }

    /// A peer asks for an epoch. The ask stands from now on, unless the peer has asked for two
    /// others.
    pub(crate) fn hear(&mut self, ask: Ask) -> Result<(), Memory>
        ensures again { Contains self.old.list.items ask →
            Contains (standing self.new) (ask, self.old.second) }
        ensures taken { OnOk result ((ASKS ≤ asks_by self.old.list.items ask.peer)
            ⊎ Contains (standing self.new) (ask, self.old.second)) }
        ensures others { not_asked ask (standing self.new) ≡ not_asked ask (standing self.old) }
        ensures second { self.new.second ≡ self.old.second }
    {
        match place_of(self.list.as_slice(), ask) {
            Some(at) => {
                self.hear_again(at, ask);
                Ok(())
            }
            None => self.add(ask),
        }
    }

    /// The ask at this place is heard once more.
    fn hear_again(&mut self, at: usize, ask: Ask)
        requires { place_of self.old.list.items ask ≡ Some at }
        ensures again { Contains (standing self.new) (ask, self.old.second) }
        ensures others { not_asked ask (standing self.new) ≡ not_asked ask (standing self.old) }
        ensures second { self.new.second ≡ self.old.second }
    {
        self.heard[at] = self.second;
    }

    /// A peer asks for another epoch.
    fn add(&mut self, ask: Ask) -> Result<(), Memory>
        requires { place_of self.old.list.items ask ≡ None }
        ensures taken { OnOk result ((ASKS ≤ asks_by self.old.list.items ask.peer)
            ⊎ Contains (standing self.new) (ask, self.old.second)) }
        ensures others { not_asked ask (standing self.new) ≡ not_asked ask (standing self.old) }
        ensures second { self.new.second ≡ self.old.second }
    {
        if asks_by(self.list.as_slice(), ask.peer) >= ASKS {
            return Ok(());
        }
        self.list.reserve(1)?;
        self.heard.reserve(1)?;
        self.list.push_reserved(ask);
        self.heard.push_reserved(self.second);
        Ok(())
    }

    /// A second has passed: who asked too long ago doesn't ask any more.
    pub(crate) fn tick(&mut self)
        ensures second { self.new.second ≡ tells_next self.old.second }
        ensures asks { standing self.new ≡ heard_since self.new.second (standing self.old) }
    {
        self.second = self.second.saturating_add(1);
        self.forget(Gone::Before(self.second.saturating_sub(ASKING)));
    }

    /// Nobody asks for the epoch any more.
    pub(crate) fn forget_epoch(&mut self, epoch: u64)
        ensures second { self.new.second ≡ self.old.second }
        ensures asks { standing self.new ≡ not_for epoch (standing self.old) }
    {
        self.forget(Gone::For(epoch));
    }

    /// The same, if this is `true`.
    pub(crate) fn forget_epoch_if(&mut self, is_done: bool, epoch: u64)
        ensures second { self.new.second ≡ self.old.second }
        ensures asks { standing self.new ≡ (if is_done
            then not_for epoch (standing self.old) else standing self.old) }
    {
        if is_done {
            self.forget_epoch(epoch);
        }
    }

    /// Forgets these asks.
    fn forget(&mut self, gone: Gone)
        ensures second { self.new.second ≡ self.old.second }
        ensures asks { standing self.new ≡ filter (stays gone) (standing self.old) }
    {
        let count = self.list.len();
        for done in 0..count {
            self.forget_at(count - 1 - done, gone);
        }
    }

    /// Forgets the ask at this place if it is one of these.
    fn forget_at(&mut self, at: usize, gone: Gone)
        requires { at < length self.old.list.items }
        ensures left { at ≤ length self.new.list.items }
        ensures second { self.new.second ≡ self.old.second }
        ensures asks { standing self.new ≡ tested_at (stays gone) at (standing self.old) }
    {
        if gone.takes(self.list[at], self.heard[at]) {
            self.list.remove(at);
            self.heard.remove(at);
        }
    }
}

/// The asks that are forgotten.
#[derive(Clone, Copy)]
enum Gone {
    /// Those for this epoch.
    For(u64),
    /// Those that were heard last before this second.
    Before(u64),
}

impl Gone {
    ghost use Rattle.std.specs.Prelude.{not};
    ghost use Rattle.epochs.specs.Asks.{stays};

    /// Returns `true` if this ask, which was heard last in this second, is forgotten.
    fn takes(self, ask: Ask, heard: u64) -> bool
        ensures { result ≡ not (stays self (ask, heard)) }
    {
        match self {
            Gone::For(epoch) => ask.epoch == epoch,
            Gone::Before(second) => heard < second,
        }
    }
}

/// Returns the place at which this ask stands.
fn place_of(asks: &[Ask], ask: Ask) -> Option<usize>
    ensures { result ≡ place_of asks.now ask }
{
    asks.iter()
        .position(|one| one.peer == ask.peer && one.epoch == ask.epoch)
}

/// Returns for how many epochs the peer asks.
fn asks_by(asks: &[Ask], peer: u8) -> usize
    ensures { result ≡ asks_by asks.now peer }
{
    let mut count = 0;
    for one in asks {
        if one.peer == peer {
            count += 1;
        }
    }
    count
}
