//! The time that a client waits, as its words say it.

ghost use Rattle.std.specs.Prelude.{◌≡◌, IfErr, IfOk, IfSome, IsNone, IsOkAnd, IsSomeAnd, None};
ghost use Rattle.commands.specs.Patience.{IsPatience};
ghost use Rattle.troubles.specs.Troubles.{IsNamed};
ghost use Rattle.troubles.specs.declared.fault.Fault.TheVariants as ends;

use commands::milliseconds;
use std::alloc::Global;
use troubles::{Failure, Fault, Whereabouts};

/// The form of `--timeout`.
const WORDS: &str = "--timeout wants seconds from 0 to 65535, as 5, 0.5 or 5s";

/// Returns how many milliseconds a client is to wait, if it is told. [`Fault::Timeout`]: the text
/// isn't a time.
pub fn patience_of(alloc: Global, text: Option<&str>) -> Result<Option<u32>, Failure>
    ensures fault { IfErr result (λ failure. failure.fault ≡ ends.Timeout) }
    ensures named { IfErr result (λ failure. IfSome text.entry (λ said. IsNamed said.now failure)) }
    ensures untold { IsNone text.entry → IsOkAnd result (λ found. found ≡ None) }
    ensures told { IfOk result (λ found. IfSome text.entry
        (λ said. IsSomeAnd found (IsPatience said.now))) }
{
    match text {
        None => Ok(None),
        Some(text) => match told_patience(alloc, text) {
            Ok(found) => Ok(Some(found)),
            Err(failure) => Err(failure),
        },
    }
}

/// Returns how many milliseconds a text of seconds says. [`Fault::Timeout`]: the text isn't a time.
fn told_patience(alloc: Global, text: &str) -> Result<u32, Failure>
    ensures told { IfOk result (IsPatience text.now) }
    ensures fault { IfErr result (λ failure. failure.fault ≡ ends.Timeout) }
    ensures named { IfErr result (IsNamed text.now) }
{
    match milliseconds(text) {
        Some(found) => Ok(found),
        None => Err(Failure::at(alloc, Fault::Timeout, text, Whereabouts::Whole, &WORDS)),
    }
}
