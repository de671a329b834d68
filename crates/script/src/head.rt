//! The first five lines of a script.

ghost use Rattle.std.specs.Prelude.{ℕ, List, ◌≡◌, ◌⊎◌, ◌<◌, ◌^◌, Some, IfOk, IfErr, IfSome, MatchOption};
ghost use Rattle.script.specs.LineWords.{AreMembers};
ghost use Rattle.script.specs.Scripts.{IsNumberNamed, AreListedLiars, IsSeed, IsHead, IsHeadFault, LacksLine};
ghost use Rattle.script.specs.Lines.{HasLine};
ghost use Rattle.script.specs.Orders.{texts};

use crate::fault::ScriptFault;
use crate::lines::Lines;
use numerals::{is, number, number8, number16, size_from};
use std::alloc::{AllocError, Global};
use terms::{Size, SizeFault};

/// The number of lines of a head.
pub const HEAD_LINES: usize = 5;

/// A head: what the first five lines say.
#[derive(Drop)]
pub struct Head {
    pub size: Size,
    pub liars: Vec<u8>,
    pub seed: u64,
}

impl Head {
    /// Reads the first five lines. The size is looked at behind the third.
    pub fn read(alloc: Global, lines: &Lines) -> Result<Head, ScriptFault>
        ensures ok { IfOk result (λ head. IsHead lines.now head.size head.liars.items head.seed) }
        ensures err { IfErr result
            (λ fault. (fault ≡ ScriptFault.Memory) ⊎ IsHeadFault lines.now fault) }
    {
        let n = named_at(alloc, lines, 0, "n")?;
        let t = named_at(alloc, lines, 1, "t")?;
        let questions = named_at(alloc, lines, 2, "questions")?;
        let size = size_from(n, t, questions)?;
        let liars = liars_at(alloc, lines, 3)?;
        let seed = seed_at(alloc, lines, 4)?;
        Ok(Head { size, liars, seed })
    }
}

/// The number below 2^16 behind this name on the line of that place.
fn named_at(alloc: Global, lines: &Lines, place: usize, name: &str) -> Result<u16, ScriptFault>
    ensures ok { IfOk result (HasLine lines.now place (IsNumberNamed name.now)) }
    ensures err { IfErr result
        (λ fault. (fault ≡ ScriptFault.Memory)
        ⊎ LacksLine lines.now place (IsNumberNamed name.now) fault) }
{
    let line = lines.at(place)?;
    let words = line.words(alloc)?;
    match named(&words, name) {
        Some(number) => Ok(number),
        None => Err(line.fault()),
    }
}

/// The number below 2^16 behind this name.
fn named(words: &[&[u8]], name: &str) -> Option<u16>
    ensures some { IfSome result (IsNumberNamed name.now (texts words.now)) }
    ensures exact { (number : ℕ) → IsNumberNamed name.now (texts words.now) number →
        result ≡ Some number }
{
    match words {
        [first, word] if is(first, name) => number16(word),
        _ => None,
    }
}

/// The members that the line of that place lists as liars.
fn liars_at(alloc: Global, lines: &Lines, place: usize) -> Result<Vec<u8>, ScriptFault>
    ensures ok { IfOk result (λ liars. HasLine lines.now place AreListedLiars liars.items) }
    ensures err { IfErr result
        (λ fault. (fault ≡ ScriptFault.Memory) ⊎ LacksLine lines.now place AreListedLiars fault) }
{
    let line = lines.at(place)?;
    let words = line.words(alloc)?;
    match liars(alloc, &words)? {
        Some(liars) => Ok(liars),
        None => Err(line.fault()),
    }
}

/// The members that a line of liars lists.
fn liars(alloc: Global, words: &[&[u8]]) -> Result<Option<Vec<u8>>, AllocError>
    ensures some { IfOk result
        (λ found. IfSome found (λ liars. AreListedLiars (texts words.now) liars.items)) }
    ensures exact { (liars : List ℕ) → AreListedLiars (texts words.now) liars →
        IfOk result (λ found. MatchOption found ⊥ (λ found. found.items ≡ liars)) }
{
    match words {
        [name, listed @ ..] if is(name, "liars") => members(alloc, listed),
        _ => Ok(None),
    }
}

/// The members that these words list, or none where one of them names none.
fn members(alloc: Global, words: &[&[u8]]) -> Result<Option<Vec<u8>>, AllocError>
    ensures some { IfOk result
        (λ found. IfSome found (λ members. AreMembers (texts words.now) members.items)) }
    ensures exact { (members : List ℕ) → AreMembers (texts words.now) members →
        IfOk result (λ found. MatchOption found ⊥ (λ found. found.items ≡ members)) }
{
    let mut members = Vec::new(alloc);
    for word in words {
        let Some(member) = number8(word) else {
            return Ok(None);
        };
        members.push(member)?;
    }
    Ok(Some(members))
}

/// The seed that the line of that place writes.
fn seed_at(alloc: Global, lines: &Lines, place: usize) -> Result<u64, ScriptFault>
    ensures ok { IfOk result (HasLine lines.now place IsSeed) }
    ensures err { IfErr result
        (λ fault. (fault ≡ ScriptFault.Memory) ⊎ LacksLine lines.now place IsSeed fault) }
{
    let line = lines.at(place)?;
    let words = line.words(alloc)?;
    match seed(&words) {
        Some(seed) => Ok(seed),
        None => Err(line.fault()),
    }
}

/// The seed that a line writes.
fn seed(words: &[&[u8]]) -> Option<u64>
    ensures some { IfSome result (IsSeed (texts words.now)) }
    ensures exact { (seed : ℕ) → IsSeed (texts words.now) seed → result ≡ Some seed }
{
    match words {
        [name, word] if is(name, "seed") => number(word),
        _ => None,
    }
}
