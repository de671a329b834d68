//! Laws of each chain. A function here does nothing: its contract is the law.

ghost use Rattle.chain.specs.Laws.{AgreeOnSlots, HasOneEpoch, HasOneNumber, HasOneSlot, IsOpenedForProposals};

use world::safety;

/// A number, a slot and a cluster's number stand for one another.
///
/// - `slot`: a number is that of one slot alone.
/// - `number`: a slot has one number alone.
/// - `epoch`: no two epochs are clusters of one number.
pub fn each_has_one()
    ensures slot { HasOneSlot }
    ensures number { HasOneNumber }
    ensures epoch { HasOneEpoch }
{}

/// No two decisions of correct members on a slot differ, whatever runs the epochs of the chain had,
/// and whoever lied in each of them, at most t members (agreement, after Bracha 1987: each epoch is
/// a cluster, and a slot is a question of one epoch alone).
pub fn agreement()
    ensures { AgreeOnSlots }
{
    safety();
    each_has_one();
}

/// Liars open no epoch by themselves: at most t members lie, and past the one in front of its
/// newest proposal a correct member opens only what more than t members opened before. Then each
/// epoch that a correct member opened is at most one past the newest in which some correct member
/// has a proposal.
pub fn opened_for_proposals()
    ensures { IsOpenedForProposals }
{}
