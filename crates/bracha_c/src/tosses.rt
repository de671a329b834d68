//! The exports of tosses.

ghost use Rattle.std.specs.Prelude.{◌≡◌, ◌≢◌, ◌⊎◌, pos, negsuc, IfOk};
ghost use Rattle.rounds.specs.Tossing.{stream_of, next_toss};
ghost use Rattle.engine.specs.Tosses.{stream_now};

use crate::handle::Hidden;
use crate::toss_handle::{TossHandle, hand_out};
use engine::Tosses;
use std::alloc::{AllocFailed, Global};

/// Opens the tosses of a stream of the seed. `*toss` is written only if the answer is 0.
#[unsafe(no_mangle)]
pub extern "C" fn bracha_toss_open(
    alloc: Global,
    toss: &mut *mut Hidden,
    seed: &[u8; 32],
    stream: u64,
) -> i32
    ensures status { (result ≡ pos 0) ⊎ (result ≡ negsuc 2) }
    ensures same { result ≢ pos 0 → toss.new ≡ toss.old }
{
    match boxed(alloc, *seed, stream) {
        Ok(tosses) => {
            *toss = hand_out(tosses);
            0
        }
        Err(_) => -3,
    }
}

/// A box of the tosses.
fn boxed(alloc: Global, seed: [u8; 32], stream: u64) -> Result<Box<Tosses>, AllocFailed<Tosses>>
    ensures { IfOk result (λ tosses. stream_now tosses.value ≡ stream_of seed stream) }
{
    Box::new(alloc, Tosses::new(seed, stream))
}

/// Closes tosses.
#[unsafe(no_mangle)]
pub extern "C" fn bracha_toss_close(toss: TossHandle) {
    drop(toss.into_box());
}

/// The next toss.
#[unsafe(no_mangle)]
pub extern "C" fn bracha_toss_next(toss: &mut TossHandle) -> u64
    ensures { (result, stream_now toss.new.tosses) ≡ next_toss (stream_now toss.old.tosses) }
{
    toss.tosses().next()
}
