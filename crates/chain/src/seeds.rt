//! The seeds of an epoch's coins.

ghost use Rattle.std.specs.Prelude.{◌≡◌, ◌++◌, codes};
ghost use Rattle.std.specs.Int.{to_be_bytes, w64};
ghost use Rattle.sha2.specs.Sha256.{sha256};

use sha2::{Digest, Sha256};

/// Returns the seed of an epoch: the SHA-256 of the word `epoch`, of the seed of the settings, and
/// of the epoch's number in eight bytes, the highest first. Streams of coins begin anew with each
/// journal, so that two epochs with one seed would toss the same coins, and who saw the first would
/// know those of the second.
pub fn seed_of(seed: &[u8; 32], epoch: u64) -> [u8; 32]
    ensures { result ≡ sha256 (codes "epoch" ++ (seed.now ++ to_be_bytes w64 epoch)) }
{
    let mut hasher = Sha256::new();
    hasher.update("epoch".as_bytes());
    hasher.update(seed.as_slice());
    hasher.update(epoch.to_be_bytes().as_slice());
    hasher.finalize()
}
