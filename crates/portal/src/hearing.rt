//! A watch that stands for what members told.

ghost use Rattle.std.specs.Prelude.{◌≡◌, ◌<◌, ◌↔◌, ◌∷◌, ◌++◌, [], IsFalse, IsTrue, List};
ghost use Rattle.gateway.specs.Watches.{IsInWindow, Watches, watch_first, watch_size};
ghost use Rattle.gateway.specs.declared.watch.Told.{Told};

use gateway::{Scope, Told, Watch};
use std::alloc::{AllocError, Global};
use std::marker::Model;

/// A watch that stands for what members told: whatever that is, its decisions are those that more
/// than t of them told.
#[derive(Drop)]
pub(crate) struct Hearing {
    watch: Watch,
}

impl Model for Hearing {
    ghost use Rattle.std.specs.Prelude.{List};
    ghost use Rattle.gateway.specs.Watches.{Watches};
    ghost use Rattle.gateway.specs.declared.watch.Told.{Told};
    ghost use Rattle.gateway.specs.declared.watch.Watch.{Watch};

    ghost Value = { Watch };

    ghost view = { λ it. it.watch };

    ghost invariant = { λ it. (heard : List Told) × Watches it.watch heard };
}

impl Hearing {
    /// Returns the watch.
    pub(crate) fn watch(&self) -> &Watch
        ensures value { result.now ≡ self.now }
        ensures stands { (heard : List Told) × Watches result.now heard }
    {
        &self.watch
    }

    /// Notes that a member of a chain has come to a slot: the window moves ahead once more than t
    /// members have. An error leaves it where it is.
    pub(crate) fn reach(&mut self, alloc: Global, member: u8, slot: u64) -> Result<(), AllocError> {
        self.watch.reach(alloc, member, slot)
    }

    /// Takes a decision that a member told. Returns `false` if there is no such member, or the
    /// question isn't one of the window.
    pub(crate) fn take(&mut self, told: Told) -> bool
        ensures words { IsTrue result → (heard : List Told) → Watches self.old heard →
            Watches self.new (heard ++ told ∷ []) }
        ensures same { IsFalse result → self.new ≡ self.old }
        ensures size { watch_size self.new ≡ watch_size self.old }
        ensures first { watch_first self.new ≡ watch_first self.old }
        ensures taken { (heard : List Told) → Watches self.old heard →
            (IsTrue result ↔ ((told.member < (watch_size self.old).n)
            × IsInWindow self.old told.question)) }
    {
        self.watch.take(told)
    }

    /// Returns a watch over this cluster or chain, before anybody told anything.
    pub(crate) fn new(alloc: Global, scope: Scope) -> Result<Hearing, AllocError> {
        if scope.chain {
            let watch = Watch::of_chain(alloc, scope.size)?;
            return Ok(Hearing { watch });
        }
        let watch = Watch::new(alloc, scope.size)?;
        Ok(Hearing { watch })
    }
}
