//! The command `audit`: whether a transcript is proof of the bit that it names.

ghost use Rattle.std.specs.Prelude.{ℕ, ◌≡◌, ◌+◌, ◌<◌, ◌↔◌, IsTrue, Err, length, map, IfOk};
ghost use Rattle.std.specs.List.{All};
ghost use Rattle.std.specs.Io.KnownBytes.{Keeps};
ghost use Rattle.numerals.specs.Lines.{lines_of};
ghost use Rattle.questions.specs.Audits.{IsProof};
ghost use Rattle.transcripts.specs.Audits.{IsAudited};
ghost use Rattle.transcripts.specs.Lines.{pair_line};
ghost use Rattle.transcripts.specs.Reading.{FitsPair, IsBadAt, Reads, Shown};
ghost use Rattle.transcripts.specs.Rests.{EndsAt};

use crate::fault::AuditFault;
use crate::reading::{Head, cut_line, head_from, pair_from};
use questions::audit;
use std::alloc::Global;
use std::io::Write;
use terms::{Size, Statement};

/// Reads a transcript of a cluster of that size, and writes `yes` where its statements are proof of
/// its bit ([`questions::audit`]), else `no`. The status is 0 for `yes` and 1 for `no`.
///
/// [`AuditFault::Line`]: the first line that is missing, or with which the lines no longer begin a
/// transcript; nothing was written. Lines end at the byte 10, and bytes behind the last one are a
/// line too. [`AuditFault::Memory`]: memory was refused. [`AuditFault::Stream`]: a write failed,
/// after a beginning of the answer was perhaps written.
pub fn audit_text<W: Write>(
    alloc: Global,
    text: &[u8],
    size: Size,
    output: &mut W,
) -> Result<u8, AuditFault>
    ensures all { IfOk result
        (λ status. IsAudited size text.now status (W.contents output.old) (W.contents output.new)) }
    ensures line { (number : ℕ) → result ≡ Err (AuditFault.Line number) →
        IsBadAt size text.now number }
    ensures none { (number : ℕ) → result ≡ Err (AuditFault.Line number) →
        Keeps (W.contents output.old) (W.contents output.new) }
{
    let yes = is_proof(alloc, size, text)?;
    output.write_all(if yes { b"yes\n" } else { b"no\n" })?;
    output.flush()?;
    Ok(if yes { 0 } else { 1 })
}

/// Returns `true` if a text is a transcript whose audit is true.
fn is_proof(alloc: Global, size: Size, text: &[u8]) -> Result<bool, AuditFault>
    ensures ok { IfOk result (λ yes. (shown : Shown) × Reads size text.now shown
        × (IsTrue yes ↔ IsProof size shown.question shown.bit shown.pairs)) }
    ensures line { (number : ℕ) → result ≡ Err (AuditFault.Line number) →
        IsBadAt size text.now number }
{
    size.recall();
    if text.is_empty() {
        return Err(AuditFault::Line(1));
    }
    let (line, rest) = cut_line(text);
    let Some(head) = head_from(size, line) else {
        return Err(AuditFault::Line(1));
    };
    let pairs = match read_pairs(alloc, size, head.count, rest) {
        Ok(pairs) => pairs,
        Err(fault) => return Err(fault),
    };
    Ok(audit(alloc, size, head.question, head.bit, &pairs)?)
}

/// Reads so many lines, and no more, each a sender and a statement. The first of them is line 2 of
/// its transcript.
fn read_pairs(
    alloc: Global,
    size: Size,
    count: u64,
    text: &[u8],
) -> Result<Vec<(u8, Statement)>, AuditFault>
    ensures lines { IfOk result (λ pairs. lines_of text.now ≡ map pair_line pairs.items) }
    ensures fits { IfOk result (λ pairs. All (FitsPair size) pairs.items) }
    ensures counted { IfOk result (λ pairs. length pairs.items ≡ count) }
    ensures line { (number : ℕ) → result ≡ Err (AuditFault.Line number) →
        EndsAt size count text.now number }
{
    let mut pairs = Vec::new(alloc);
    let mut rest = text;
    for number in 2..u64::MAX {
        if number - 2 == count {
            return if rest.is_empty() {
                Ok(pairs)
            } else {
                Err(AuditFault::Line(number))
            };
        }
        if rest.is_empty() {
            return Err(AuditFault::Line(number));
        }
        let (line, more) = cut_line(rest);
        let Some(pair) = pair_from(size, line) else {
            return Err(AuditFault::Line(number));
        };
        pairs.push(pair)?;
        rest = more;
    }
    Err(AuditFault::Memory)
}
