//! Slots, and their epochs.

ghost use Rattle.std.specs.Prelude.{ℕ, ◌≡◌, ◌+◌, ◌<◌, ◌≤◌, ◌^◌, IfSome, IsNone, MatchOption, Some};
ghost use Rattle.terms_prelude.specs.Terms.{Size};
ghost use Rattle.chain.specs.Slots.{HasCluster, IsSlot, chain_first, chain_size};
ghost use Rattle.chain.specs.declared.slots.Slot.{Slot};

use terms::Size;

/// A question of a chain.
#[derive(Clone, Copy, Debug, PartialEq, Eq)]
pub struct Slot {
    /// The epoch, counted from 0.
    pub epoch: u64,
    /// The question of the epoch, below the number of questions.
    pub question: u16,
}

/// A chain of clusters of one size. Epoch e is the cluster whose number is that of the first plus
/// e.
#[derive(Clone, Copy, Debug, PartialEq, Eq)]
pub struct Chain {
    first: u64,
    size: Size,
}

impl Chain {
    /// Returns the chain whose first cluster has this number.
    #[tactic(auto, unfolding(crate::specs::Slots::chain_first, crate::specs::Slots::chain_size))]
    pub fn new(first: u64, size: Size) -> Chain
        ensures first { chain_first result ≡ first }
        ensures size { chain_size result ≡ size }
    {
        Chain { first, size }
    }

    /// Returns the cluster number of an epoch. `None` past the last number, 2^64 - 1.
    #[tactic(auto, unfolding(crate::specs::Slots::chain_first))]
    pub fn cluster_of(&self, epoch: u64) -> Option<u64>
        ensures { MatchOption result (2 ^ 64 ≤ chain_first self.now + epoch)
            (HasCluster self.now epoch) }
    {
        self.first.checked_add(epoch)
    }

    /// Returns the epoch with this cluster number. `None` if the number is below that of the first.
    #[tactic(auto, unfolding(crate::specs::Slots::chain_first))]
    pub fn epoch_of(&self, cluster: u64) -> Option<u64>
        ensures { MatchOption result (cluster < chain_first self.now)
            (λ epoch. HasCluster self.now epoch cluster) }
    {
        cluster.checked_sub(self.first)
    }

    /// Returns the size of each of its clusters.
    #[tactic(auto, unfolding(crate::specs::Slots::chain_size))]
    pub fn size(&self) -> Size
        ensures { result ≡ chain_size self.now }
    {
        self.size
    }

    /// Returns the slot with this number. Each number has one.
    #[tactic(auto, unfolding(crate::specs::Slots::chain_size))]
    pub fn slot_of(&self, number: u64) -> Slot
        ensures { IsSlot self.now number result }
    {
        self.size.recall();
        let questions = u64::from(self.size.questions());
        Slot {
            epoch: number / questions,
            question: (number % questions) as u16,
        }
    }

    /// Returns the number of a slot. `None` if its question isn't below the number of questions, or
    /// its number is past the last one, 2^64 - 1.
    #[tactic(auto, unfolding(crate::specs::Slots::chain_size))]
    pub fn number_of(&self, slot: Slot) -> Option<u64>
        ensures some { IfSome result (λ number. IsSlot self.now number slot) }
        ensures none { IsNone result → (number : ℕ) → IsSlot self.now number slot →
            2 ^ 64 ≤ number }
    {
        if slot.question >= self.size.questions() {
            return None;
        }
        let before = slot.epoch.checked_mul(u64::from(self.size.questions()))?;
        before.checked_add(u64::from(slot.question))
    }
}
