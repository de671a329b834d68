//! Signals that are blocked and wait, as the system tells of them.

ghost use Rattle.std.specs.Prelude.{◌≡◌, ◌↔◌, ◌⊎◌, IfOk, IsTrue, codes};
ghost use Rattle.process.specs.Signals.{SaysStop, has_stop};

use crate::status::line_with;
use numerals::bytes;
use std::alloc::Global;
use terms::Memory;

/// Returns `true` if the process of this `/proc/self/status` blocks SIGTERM or SIGINT.
pub fn is_blocked(alloc: Global, status: &[u8]) -> Result<bool, Memory>
    ensures { IfOk result (λ blocked. IsTrue blocked ↔ SaysStop (codes "SigBlk:\t") status.now) }
{
    says_stop(alloc, status, "SigBlk:\t")
}

/// Returns `true` if SIGTERM or SIGINT waits for that process, or for its first thread.
pub fn is_called(alloc: Global, status: &[u8]) -> Result<bool, Memory>
    ensures { IfOk result
        (λ called. IsTrue called ↔ (SaysStop (codes "ShdPnd:\t") status.now
        ⊎ SaysStop (codes "SigPnd:\t") status.now)) }
{
    let shared = says_stop(alloc, status, "ShdPnd:\t")?;
    let own = says_stop(alloc, status, "SigPnd:\t")?;
    Ok(shared || own)
}

/// Returns `true` if the line of that head has such a mask, in hexadecimal digits.
fn says_stop(alloc: Global, status: &[u8], head: &str) -> Result<bool, Memory>
    ensures { IfOk result (λ says. IsTrue says ↔ SaysStop head.now status.now) }
{
    let Some(digits) = line_with(alloc, status, head)? else {
        return Ok(false);
    };
    match bytes(alloc, digits)? {
        Some(mask) => Ok(has_stop(&mask)),
        None => Ok(false),
    }
}

/// Returns `true` if a mask of signals has SIGTERM, which is number 15, or SIGINT, which is number
/// 2.
fn has_stop(mask: &[u8]) -> bool
    ensures { result ≡ has_stop mask.now }
{
    match mask {
        [_, _, _, _, _, _, high, low] => *high / 64 % 2 == 1 || *low / 2 % 2 == 1,
        _ => false,
    }
}
