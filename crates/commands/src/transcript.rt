//! The command `transcript`: a line to the desk of a member that runs, and a reply of many lines.

ghost use Rattle.std.specs.Prelude.{ℕ, List, ◌≡◌, ◌↔◌, ◌<◌, ◌++◌, Err, IfOk, IsTrue, string_bytes};
ghost use Rattle.std.specs.Io.KnownBytes.{Appends, Consumes};
ghost use Rattle.commands.specs.Talks.{transcript_line};
ghost use Rattle.commands.specs.Transcripts.{AreLines, AreShown, IsTranscriptReply, lines_text};
ghost use Rattle.commands.specs.declared.fault.TalkFault.TheVariants.{NoAnswer};

use crate::client::{print_reply, reply_of, send};
use crate::fault::TalkFault;
use crate::replies::is_reply;
use std::alloc::{AllocError, Global};
use std::io::{Read, Write};
use transcripts::count_in;

/// The line that asks for what a member heard of a question.
pub fn transcript_line(alloc: Global, question: u16) -> Result<String, AllocError>
    ensures { IfOk result (λ text. string_bytes text ≡ transcript_line question) }
{
    format!(in alloc; "TRANSCRIPT {question}\n")
}

/// Sends the line over a connection to a member's desk, reads one reply, and writes it. Where its
/// first line begins a transcript, as many lines belong to it as that counts, and the status is 0;
/// else it is that line alone, and the status is 1.
///
/// [`TalkFault::NoAnswer`]: the connection failed or ended before a whole reply came, or what came
/// is none, and nothing was written. [`TalkFault::Stream`]: the write failed.
/// [`TalkFault::Memory`]: memory was refused.
pub fn fetch_transcript<R: Read, S: Write, W: Write>(
    alloc: Global,
    line: &str,
    to: &mut S,
    from: &mut R,
    output: &mut W,
) -> Result<u8, TalkFault>
    ensures all { IfOk result (λ status. (reply : List ℕ) × IsTranscriptReply reply status
        × Appends (S.contents to.old) (S.contents to.new) line.now
        × Consumes (R.remaining from.old) (R.remaining from.new) reply
        × Appends (W.contents output.old) (W.contents output.new) reply) }
    ensures nothing { result ≡ Err NoAnswer → output.new ≡ output.old }
{
    send(line, to)?;
    let (reply, status) = whole_reply(alloc, from)?;
    print_reply(&reply, output)?;
    Ok(status)
}

/// Reads a whole reply, and gives its status with it.
fn whole_reply<R: Read>(alloc: Global, from: &mut R) -> Result<(Vec<u8>, u8), TalkFault>
    ensures { IfOk result (λ found. IsTranscriptReply found.0.items found.1
        × Consumes (R.remaining from.old) (R.remaining from.new) found.0.items) }
{
    let mut reply = reply_of(alloc, from)?;
    let count = count_in(&reply);
    let known = is_reply(&reply);
    reply.push(b'\n')?;
    match count {
        Some(count) => {
            read_lines(alloc, count, from, &mut reply)?;
            Ok((reply, 0))
        }
        None if known => Ok((reply, 1)),
        None => Err(TalkFault::NoAnswer),
    }
}

/// Reads so many lines, each of at most 64 bytes, and puts them behind the text. Each has only
/// characters that a terminal shows as they are, since the author of a transcript may be a liar.
fn read_lines<R: Read>(
    alloc: Global,
    count: u64,
    from: &mut R,
    text: &mut Vec<u8>,
) -> Result<(), TalkFault>
    ensures { IfOk result (λ _. (lines : List (List ℕ)) × AreLines count lines
        × (text.new.items ≡ text.old.items ++ lines_text lines)
        × Consumes (R.remaining from.old) (R.remaining from.new) (lines_text lines)) }
{
    let mut left = count;
    while left > 0 {
        let line = reply_of(alloc, from)?;
        let bytes = line.as_slice();
        if !are_shown(bytes) {
            return Err(TalkFault::NoAnswer);
        }
        text.extend_from_slice(bytes)?;
        text.push(b'\n')?;
        left -= 1;
    }
    Ok(())
}

/// Returns `true` if the line has only characters that a terminal shows as they are.
fn are_shown(line: &[u8]) -> bool
    ensures { IsTrue result ↔ AreShown line.now }
{
    line.iter().all(|byte| is_shown(*byte))
}

/// Returns `true` if a terminal shows the character as it is: a printable one of ASCII.
fn is_shown(byte: u8) -> bool
    ensures { IsTrue result ↔ (31 < byte) × (byte < 127) }
{
    byte > 31 && byte < 127
}
