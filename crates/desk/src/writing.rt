//! Replies, as they are held, and written together.

ghost use Rattle.std.specs.Prelude.{◌≡◌, ◌≤◌, ◌+◌, [], length, IfErr, OnOk};
ghost use Rattle.arrayvec.specs.ArrayVec.{array_vec_len};
ghost use Rattle.numerals.specs.Lines.{line};
ghost use Rattle.links.specs.Told.{has_written, BreaksOff};
ghost use Rattle.desk.specs.Replies.{reply_text};
ghost use Rattle.desk.specs.Turns.{Loses};
ghost use Rattle.desk.specs.declared.reply.Reply.TheVariants as reply;
ghost use Rattle.node.specs.declared.state.QuestionState.TheVariants.{Open};

use crate::reply::{Reply, needed};
use crate::serving::DeskEnd;
use itoa::Buffer;
use links::{Stream, write_all};
use node::{LinkCount, QuestionState, Transcript};
use terms::Size;
use transcripts::{Block, put, put_head, put_pair};

/// The room, in bytes, that a reply of one line may need, or a line of a transcript.
const LINE: usize = 64;

/// Holds a reply, with the byte 10 at its end, behind the replies that are held: what is held and
/// has no room is written. It takes no memory.
///
/// [`DeskEnd::Lost`]: a write failed, after a beginning of what was held was perhaps written.
pub(crate) fn write_reply<S: Stream>(
    stream: &mut S,
    held: &mut Block,
    reply: &Reply,
) -> Result<(), DeskEnd>
    ensures ok { OnOk result
        (has_written (S.told stream.new) held.new.items
        ≡ has_written (has_written (S.told stream.old) held.old.items)
        (line (reply_text reply.now))) }
    ensures err { IfErr result
        (λ why. (why ≡ DeskEnd.Lost) × Loses (has_written (S.told stream.old) held.old.items)
        (S.told stream.new) (line (reply_text reply.now))) }
{
    match reply {
        Reply::Taken => hold(stream, held, b"OK\n"),
        Reply::Have(false) => hold(stream, held, b"HAVE 0\n"),
        Reply::Have(true) => hold(stream, held, b"HAVE 1\n"),
        Reply::Stopped => hold(stream, held, b"STOPPED\n"),
        Reply::Decided(false) => hold(stream, held, b"DECIDED 0\n"),
        Reply::Decided(true) => hold(stream, held, b"DECIDED 1\n"),
        Reply::Undecided => hold(stream, held, b"UNDECIDED\n"),
        Reply::Up {
            statements,
            decided,
        } => write_up(stream, held, *statements, *decided),
        Reply::Transcript {
            question,
            transcript,
        } => write_transcript(stream, held, *question, transcript),
        Reply::Links { count, size } => write_links(stream, held, *count, *size),
        Reply::State(state) => write_state(stream, held, *state),
        Reply::Thin => hold(stream, held, b"THIN\n"),
        Reply::BadLine => hold(stream, held, b"ERR 1 line\n"),
        Reply::BadQuestion => hold(stream, held, b"ERR 2 question\n"),
        Reply::BadBit => hold(stream, held, b"ERR 3 bit\n"),
        Reply::Memory => hold(stream, held, b"ERR 4 memory\n"),
    }
}

/// Writes how far the member is.
fn write_up<S: Stream>(
    stream: &mut S,
    held: &mut Block,
    statements: u64,
    decided: u16,
) -> Result<(), DeskEnd>
    ensures ok { OnOk result
        (has_written (S.told stream.new) held.new.items
        ≡ has_written (has_written (S.told stream.old) held.old.items)
        (line (reply_text (reply.Up statements decided)))) }
    ensures err { IfErr result
        (λ why. (why ≡ DeskEnd.Lost) × Loses (has_written (S.told stream.old) held.old.items)
        (S.told stream.new) (line (reply_text (reply.Up statements decided)))) }
{
    let mut digits = Buffer::new();
    let mut block = Block::new();
    put(&mut block, b"UP ");
    put(&mut block, digits.format(statements).as_bytes());
    put(&mut block, b" ");
    put(&mut block, digits.format(decided).as_bytes());
    put(&mut block, b"\n");
    hold(stream, held, &block)
}

/// Holds a transcript behind the replies that are held, which it writes each time that there is no
/// room for a line more.
fn write_transcript<S: Stream>(
    stream: &mut S,
    held: &mut Block,
    question: u16,
    transcript: &Transcript,
) -> Result<(), DeskEnd>
    ensures ok { OnOk result
        (has_written (S.told stream.new) held.new.items
        ≡ has_written (has_written (S.told stream.old) held.old.items)
        (line (reply_text (reply.Transcript question transcript.now)))) }
    ensures err { IfErr result
        (λ why. (why ≡ DeskEnd.Lost) × Loses (has_written (S.told stream.old) held.old.items)
        (S.told stream.new) (line (reply_text (reply.Transcript question transcript.now)))) }
{
    if let Err(end) = make_room(stream, held) {
        return Err(end);
    }
    put_head(
        held,
        question,
        transcript.bit,
        transcript.heard.len() as u64,
    );
    for pair in &transcript.heard {
        if let Err(end) = make_room(stream, held) {
            return Err(end);
        }
        put_pair(held, pair);
    }
    Ok(())
}

/// Writes how many links are up, of a member of a cluster of that size.
fn write_links<S: Stream>(
    stream: &mut S,
    held: &mut Block,
    count: LinkCount,
    size: Size,
) -> Result<(), DeskEnd>
    ensures ok { OnOk result
        (has_written (S.told stream.new) held.new.items
        ≡ has_written (has_written (S.told stream.old) held.old.items)
        (line (reply_text (reply.Links count size)))) }
    ensures err { IfErr result
        (λ why. (why ≡ DeskEnd.Lost) × Loses (has_written (S.told stream.old) held.old.items)
        (S.told stream.new) (line (reply_text (reply.Links count size)))) }
{
    let mut digits = Buffer::new();
    let mut block = Block::new();
    put(&mut block, b"LINKS ");
    put(&mut block, digits.format(count.incoming).as_bytes());
    put(&mut block, b" ");
    put(&mut block, digits.format(count.outgoing).as_bytes());
    put(&mut block, b" ");
    put(&mut block, digits.format(size.n()).as_bytes());
    put(&mut block, b" ");
    put(&mut block, digits.format(needed(size)).as_bytes());
    put(&mut block, b"\n");
    hold(stream, held, &block)
}

/// Writes how a question stands.
fn write_state<S: Stream>(
    stream: &mut S,
    held: &mut Block,
    state: QuestionState,
) -> Result<(), DeskEnd>
    ensures ok { OnOk result
        (has_written (S.told stream.new) held.new.items
        ≡ has_written (has_written (S.told stream.old) held.old.items)
        (line (reply_text (reply.State state)))) }
    ensures err { IfErr result
        (λ why. (why ≡ DeskEnd.Lost) × Loses (has_written (S.told stream.old) held.old.items)
        (S.told stream.new) (line (reply_text (reply.State state)))) }
{
    match state {
        QuestionState::Unproposed => hold(stream, held, b"UNPROPOSED\n"),
        QuestionState::Open { round, step } => write_open(stream, held, round, step),
        QuestionState::Spent => hold(stream, held, b"SPENT\n"),
        QuestionState::Decided(false) => hold(stream, held, b"DECIDED 0\n"),
        QuestionState::Decided(true) => hold(stream, held, b"DECIDED 1\n"),
    }
}

/// Writes the round and step in which an open question is.
fn write_open<S: Stream>(
    stream: &mut S,
    held: &mut Block,
    round: u8,
    step: u8,
) -> Result<(), DeskEnd>
    ensures ok { OnOk result
        (has_written (S.told stream.new) held.new.items
        ≡ has_written (has_written (S.told stream.old) held.old.items)
        (line (reply_text (reply.State (Open round step))))) }
    ensures err { IfErr result
        (λ why. (why ≡ DeskEnd.Lost) × Loses (has_written (S.told stream.old) held.old.items)
        (S.told stream.new) (line (reply_text (reply.State (Open round step))))) }
{
    let mut digits = Buffer::new();
    let mut block = Block::new();
    put(&mut block, b"OPEN ");
    put(&mut block, digits.format(round).as_bytes());
    put(&mut block, b" ");
    put(&mut block, digits.format(step).as_bytes());
    put(&mut block, b"\n");
    hold(stream, held, &block)
}

/// Holds these bytes behind the replies that are held.
fn hold<S: Stream>(stream: &mut S, held: &mut Block, bytes: &[u8]) -> Result<(), DeskEnd>
    requires { length bytes.now ≤ 64 }
    ensures ok { OnOk result (has_written (S.told stream.new) held.new.items
        ≡ has_written (has_written (S.told stream.old) held.old.items) bytes.now) }
    ensures err { IfErr result (λ why. (why ≡ DeskEnd.Lost)
        × Loses (has_written (S.told stream.old) held.old.items) (S.told stream.new) bytes.now) }
{
    match make_room(stream, held) {
        Ok(()) => {
            put(held, bytes);
            Ok(())
        }
        Err(end) => Err(end),
    }
}

/// Writes the replies that are held, if there is no room for a line more.
fn make_room<S: Stream>(stream: &mut S, held: &mut Block) -> Result<(), DeskEnd>
    ensures same { OnOk result (has_written (S.told stream.new) held.new.items
        ≡ has_written (S.told stream.old) held.old.items) }
    ensures room { OnOk result (array_vec_len held.new + 64 ≤ 4096) }
    ensures err { IfErr result (λ why. (why ≡ DeskEnd.Lost)
        × Loses (has_written (S.told stream.old) held.old.items) (S.told stream.new) []) }
{
    if held.remaining_capacity() >= LINE {
        return Ok(());
    }
    write_held(stream, held)
}

/// Writes the replies that are held, if there are any, and holds none then.
///
/// [`DeskEnd::Lost`]: a write failed, after a beginning of them was perhaps written.
pub(crate) fn write_held<S: Stream>(stream: &mut S, held: &mut Block) -> Result<(), DeskEnd>
    ensures ok { OnOk result (S.told stream.new ≡ has_written (S.told stream.old) held.old.items) }
    ensures none { OnOk result (held.new.items ≡ []) }
    ensures err { IfErr result (λ why. (why ≡ DeskEnd.Lost)
        × Loses (has_written (S.told stream.old) held.old.items) (S.told stream.new) []) }
{
    match write_bytes(stream, held.as_slice()) {
        Ok(()) => {
            held.clear();
            Ok(())
        }
        Err(end) => Err(end),
    }
}

/// Writes these bytes.
fn write_bytes<S: Stream>(stream: &mut S, bytes: &[u8]) -> Result<(), DeskEnd>
    ensures ok { OnOk result (S.told stream.new ≡ has_written (S.told stream.old) bytes.now) }
    ensures err { IfErr result
        (λ why. (why ≡ DeskEnd.Lost) × BreaksOff (S.told stream.old)
        (S.told stream.new) bytes.now) }
{
    match write_all(stream, bytes) {
        Ok(()) => Ok(()),
        Err(_) => Err(DeskEnd::Lost),
    }
}
