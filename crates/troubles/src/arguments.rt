//! The words with which the program was started, and what its environment asks for.

ghost use Rattle.troubles.specs.Faults.{IsNoText};
ghost use Rattle.std.specs.Prelude.{◌≡◌, ◌↔◌, IfErr, IfOk, IsTrue, codes, string_bytes};

use crate::fault::Fault;
use numerals::is;
use std::alloc::Global;
use std::env::FillError;
use std::rt::Env;

/// The words with which the program was started, its name first. [`Fault::Argument`]: the first
/// that isn't UTF-8.
pub fn own_words(env: &impl Env, alloc: Global) -> Result<Vec<String>, Fault> {
    let mut words = Vec::new(alloc);
    for place in 0..usize::MAX {
        match argument(env, alloc, place)? {
            Some(bytes) => words.push(text_at(place, bytes)?)?,
            None => break,
        }
    }
    Ok(words)
}

/// The bytes of the argument at the place, if there is one. The program's name has place 0.
fn argument(env: &impl Env, alloc: Global, place: usize) -> Result<Option<Vec<u8>>, Fault> {
    let mut bytes = Vec::new(alloc);
    for bits in 8..usize::BITS {
        bytes.resize(1 << bits, 0)?;
        match env.arg(place, bytes.as_mut_slice()) {
            Ok(length) => {
                bytes.truncate(length);
                return Ok(Some(bytes));
            }
            Err(FillError::NotPresent) => return Ok(None),
            Err(FillError::TooLong) => {}
        }
    }
    Err(Fault::Memory)
}

/// The text of the argument at the place. [`Fault::Argument`]: its bytes aren't UTF-8.
fn text_at(place: usize, bytes: Vec<u8>) -> Result<String, Fault>
    ensures text { IfOk result (λ text. string_bytes text ≡ bytes.items) }
    ensures fault { IfErr result (IsNoText place bytes.items) }
{
    match String::from_utf8(bytes) {
        Ok(text) => Ok(text),
        Err(_) => Err(Fault::Argument(place)),
    }
}

/// Returns `true` if the environment asks for the first line of a fault alone: `BRACHA_QUIET` is
/// `1`.
pub fn wants_quiet(env: &impl Env) -> bool {
    let mut value = [0; 2];
    match env.var("BRACHA_QUIET", &mut value) {
        Ok(length) => is_one(&value[..length]),
        Err(_) => false,
    }
}

/// Returns `true` if this value says so: it is `1`.
fn is_one(value: &[u8]) -> bool
    ensures { IsTrue result ↔ (value.now ≡ codes "1") }
{
    is(value, "1")
}
