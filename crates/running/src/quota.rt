//! The number of connections that there may be.

ghost use Rattle.std.specs.Prelude.{◌≡◌, ◌+◌, ◌-◌, ◌≤◌, nat_lt, if◌then◌else◌, true};

use std::marker::Model;

/// The number of connections that are in, at most N. Contracts see it.
#[derive(Drop)]
pub struct Quota<const N: u32> {
    entered: u32,
    ghost within: { entered ≤ N },
}

impl<const N: u32> Model for Quota<N> {
    ghost use Rattle.std.specs.Prelude.{ℕ};

    ghost Value = { ℕ };

    ghost view = { λ quota. quota.entered };
}

impl<const N: u32> Quota<N> {
    /// Nobody is in.
    pub fn new() -> Quota<N>
        ensures { result ≡ 0 }
    {
        Quota { entered: 0 }
    }

    /// One more enters, and is told whether it may. Where N are in it may not, and nothing changes.
    pub fn enter(&mut self) -> bool
        ensures enters { result ≡ nat_lt self.old N }
        ensures count { self.new ≡ (if result then self.old + 1 else self.old) }
        ensures within { self.new ≤ N }
    {
        if self.entered >= N {
            return false;
        }
        self.entered += 1;
        true
    }

    /// One leaves. Where nobody is in nothing changes.
    pub fn leave(&mut self)
        ensures { self.new ≡ self.old - 1 }
    {
        self.entered = self.entered.saturating_sub(1);
    }
}
