//! Scripts that are drawn.

ghost use Rattle.std.specs.Prelude.{◌≡◌, ◌<◌, ◌≤◌, ◌*◌};

use rounds::{ChaChaTosser, Tosser};
use std::alloc::{AllocError, Global};

/// A script, and what the judge has to know of it.
#[derive(Debug, Drop)]
pub struct Trial {
    /// The script.
    pub text: String,
    /// The number of decisions that its run has at least: one for each correct member and question
    /// if it settles them, else 0.
    pub least: usize,
}

/// Returns the script of this number that is drawn by the seed: up to three lines of `random` and
/// `fair` events; in three of four scripts the lines that settle each question follow.
pub fn drawn(alloc: Global, seed: u64, number: u64) -> Result<Trial, AllocError> {
    let mut draw = draw_of(seed, number);
    let cast = drawn_cast(&mut draw);
    let mut text = head_text(alloc, cast, draw.toss().0)?;
    add_troubles(&mut text, alloc, &mut draw)?;
    if below(&mut draw, 4) == 0 {
        return Ok(Trial { text, least: 0 });
    }
    add_settling(&mut text, alloc, cast, &mut draw)?;
    let correct = cast.n.saturating_sub(cast.liars) as usize;
    let least = correct * (cast.questions as usize);
    Ok(Trial { text, least })
}

/// Returns the draws of the script of this number.
fn draw_of(seed: u64, number: u64) -> ChaChaTosser {
    let s = seed.to_be_bytes();
    let key = [
        s[0], s[1], s[2], s[3], s[4], s[5], s[6], s[7], 0, 0, 0, 0, 0, 0, 0, 0, 0, 0, 0, 0, 0, 0,
        0, 0, 0, 0, 0, 0, 0, 0, 0, 0,
    ];
    ChaChaTosser::from_seed(key, number)
}

/// Returns the numbers of a cluster.
fn drawn_cast(draw: &mut ChaChaTosser) -> Cast
    ensures size { 3 * result.t < result.n }
    ensures few { result.n ≤ 22 }
    ensures liars { result.liars ≤ result.t }
    ensures questions { (1 ≤ result.questions) × (result.questions ≤ 3) }
{
    let n = members(draw);
    let most = (n - 1) / 3;
    let t = most - below(draw, most + 1) / 2;
    let liars = below(draw, t + 1);
    let questions = 1 + below(draw, 3);
    Cast {
        n,
        t,
        liars,
        questions,
    }
}

/// Returns the number of members: 1 to 10, and 11 to 22 in one script of 16.
fn members(draw: &mut ChaChaTosser) -> u32
    ensures least { 1 ≤ result }
    ensures most { result ≤ 22 }
{
    if below(draw, 16) == 0 {
        11 + below(draw, 12)
    } else {
        1 + below(draw, 10)
    }
}

/// Returns the five lines of the head.
fn head_text(alloc: Global, cast: Cast, seed: u64) -> Result<String, AllocError> {
    let Cast {
        n,
        t,
        liars,
        questions,
    } = cast;
    let mut text = format!(in alloc; "n {n}\nt {t}\nquestions {questions}\nliars")?;
    for liar in n.saturating_sub(liars)..n {
        text.push_str(format!(in alloc; " {liar}")?.as_str())?;
    }
    text.push_str(format!(in alloc; "\nseed {seed}\n")?.as_str())?;
    Ok(text)
}

/// Adds at most three lines of drawn events, each `random` or `fair`. Without any, all members may
/// propose one bit.
fn add_troubles(
    text: &mut String,
    alloc: Global,
    draw: &mut ChaChaTosser,
) -> Result<(), AllocError> {
    let lines = below(draw, 4);
    for _ in 0..lines {
        let word = if below(draw, 2) == 0 {
            "random"
        } else {
            "fair"
        };
        let events = 1 + below(draw, 3_000);
        text.push_str(format!(in alloc; "{word} {events}\n")?.as_str())?;
    }
    Ok(())
}

/// Adds the lines that settle each question: repairs, a proposal to each correct member on each,
/// and a fair part of 400 passes of the deck of links.
fn add_settling(
    text: &mut String,
    alloc: Global,
    cast: Cast,
    draw: &mut ChaChaTosser,
) -> Result<(), AllocError>
    requires { cast.n ≤ 22 }
{
    let correct = cast.n.saturating_sub(cast.liars);
    add_repairs(text, alloc, correct)?;
    for question in 0..cast.questions {
        let bits = drawn_bits(draw);
        add_proposals(text, alloc, correct, question, bits)?;
    }
    let events = 2_000 + 400 * correct * correct;
    text.push_str(format!(in alloc; "fair {events}\n")?.as_str())
}

/// The numbers of a script's cluster. Its liars are its last members.
#[derive(Clone, Copy, Debug, PartialEq, Eq)]
struct Cast {
    n: u32,
    t: u32,
    liars: u32,
    questions: u32,
}

/// Adds the lines after which each correct member is up, with a sound disk and its links anew.
fn add_repairs(text: &mut String, alloc: Global, correct: u32) -> Result<(), AllocError> {
    for member in 0..correct {
        let line = format!(in alloc; "fuse {member} off\ncrash {member} kept\nrestart {member}\n")?;
        text.push_str(line.as_str())?;
    }
    Ok(())
}

/// Returns the bits that are proposed: drawn, or all 0, or all 1.
fn drawn_bits(draw: &mut ChaChaTosser) -> u64 {
    match below(draw, 4) {
        0 => 0,
        1 => u64::MAX,
        _ => draw.toss().0,
    }
}

/// Returns a number below `bound`.
fn below(draw: &mut ChaChaTosser, bound: u32) -> u32
    requires { 0 < bound }
    ensures { result < bound }
{
    (draw.toss().0 % u64::from(bound)) as u32
}

/// Adds a proposal to each correct member on this question, each with a bit of its own, or all with
/// one.
fn add_proposals(
    text: &mut String,
    alloc: Global,
    correct: u32,
    question: u32,
    bits: u64,
) -> Result<(), AllocError> {
    for member in 0..correct {
        let bit = (bits >> (member % 64)) & 1;
        text.push_str(format!(in alloc; "propose {member} {question} {bit}\n")?.as_str())?;
    }
    Ok(())
}
