//! The worth of a reading, over every run of the cluster.

ghost use Rattle.client.specs.Laws.{IsDecidedAsRead};
ghost use Rattle.world.specs.World.{EveryRun};

use world::safety;

/// Take any run, and whatever members told of a question in it, liars among them. If each correct
/// member had saved the decision that it told, and the words stand for a reading that has a
/// decision, each saved decision of the question at a correct member is that one (after Bracha
/// 1987; a decision is the agreement of Cachin, Guerraoui and Rodrigues, chapter 5).
pub fn what_is_read_is_decided()
    ensures { EveryRun IsDecidedAsRead }
{
    safety();
}
