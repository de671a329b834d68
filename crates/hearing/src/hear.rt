//! The command `hear`: pieces of streams in, broadcast answers out.

ghost use Rattle.std.specs.Prelude.{ℕ, List, ◌≡◌, ◌≤◌, ◌↔◌, ◌∷◌, ◌++◌, [], IfOk, None, Some};
ghost use Rattle.std.specs.Io.KnownBytes.{Keeps};
ghost use Rattle.numerals.specs.Lines.{NoEnd};
ghost use Rattle.hearing.specs.Hears.{WritesReplies};

use crate::fault::HearFault;
use crate::session::Session;
use std::alloc::Global;
use std::io::{BufRead, Write};
use terms::Size;

/// Reads lines, each a piece of a sender's stream, and writes what member `me` of a cluster of that
/// size answers by reliable broadcast (Bracha 1987, section 3), line by line as the input comes.
/// The status is 0.
///
/// [`HearFault::Me`]: `me` isn't below n; nothing was read or written. [`HearFault::Line`]: that
/// line isn't one; the lines before it are answered. [`HearFault::Stream`] and
/// [`HearFault::Memory`]: a read, a write or a growth failed; what was written before stands.
pub fn hear_lines<R: BufRead, W: Write>(
    alloc: Global,
    size: Size,
    me: u8,
    input: &mut R,
    output: &mut W,
) -> Result<u8, HearFault>
    // Where the bytes of the streams are known, what is written is the answer to what is read, and
    // nothing else.
    ensures all { IfOk result
        (λ status. (status ≡ 0) × WritesReplies size me (R.remaining input.old) None
        (W.contents output.old) (W.contents output.new)) }
    ensures line { (number : ℕ) → result ≡ Err (HearFault.Line number) →
        WritesReplies size me (R.remaining input.old) (Some number) (W.contents output.old)
        (W.contents output.new) }
    ensures me { (result ≡ Err HearFault.Me) ↔ (size.n ≤ me) }
    ensures none { result ≡ Err HearFault.Me →
        Keeps (W.contents output.old) (W.contents output.new) }
{
    if me >= size.n() {
        return Err(HearFault::Me);
    }
    let mut session = Session::new(alloc, size, me)?;
    let mut line = Vec::new(alloc);
    for number in 1..u64::MAX {
        line.clear();
        if input.read_until(b'\n', &mut line)? == 0 {
            return Ok(0);
        }
        if !session.answer(without_end(&line), output)? {
            return Err(HearFault::Line(number));
        }
    }
    Err(HearFault::Stream)
}

/// The line without the byte that ends it. The last line of an input may lack it.
fn without_end(line: &[u8]) -> &[u8]
    ensures ended { (text : List ℕ) → line.now ≡ text ++ 10 ∷ [] → result.now ≡ text }
    ensures last { NoEnd line.now → result.now ≡ line.now }
{
    if line.last() == Some(&b'\n') {
        &line[..line.len() - 1]
    } else {
        line
    }
}
