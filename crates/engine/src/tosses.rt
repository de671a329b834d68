//! Tosses from a seed, as `bracha run` draws them.

ghost use Rattle.std.specs.Prelude.{◌≡◌};
ghost use Rattle.rounds.specs.Tossing.{stream_of, next_toss};
ghost use Rattle.engine.specs.Tosses.{stream_now};

use rounds::{ChaChaTosser, Tosser};

/// Tosses from the key stream of ChaCha20.
#[derive(Drop)]
pub struct Tosses {
    tosser: ChaChaTosser,
}

impl Tosses {
    /// The tosses of a stream of the seed, from its first word on. The same seed and stream give
    /// the same tosses.
    pub fn new(seed: [u8; 32], stream: u64) -> Tosses
        ensures { stream_now result ≡ stream_of seed stream }
    {
        Tosses {
            tosser: ChaChaTosser::from_seed(seed, stream),
        }
    }

    /// The next toss.
    pub fn next(&mut self) -> u64
        ensures { (result, stream_now self.new) ≡ next_toss (stream_now self.old) }
    {
        self.tosser.toss().0
    }
}

/// Tosses may go to another thread.
fn crosses(tosses: &Tosses) {
    asks_send(tosses);
}

fn asks_send<T: Send>(_crossing: &T) {}
