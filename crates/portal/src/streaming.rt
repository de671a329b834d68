//! The stream of events to one follower.

ghost use Rattle.std.specs.Prelude.{◌≡◌, ◌≤◌, ◌<◌, ◌+◌, IfOk, length};
ghost use Rattle.gateway.specs.Events.{beat_text, restarted_text};
ghost use Rattle.portal.specs.Streams.{IsChunk};
ghost use Rattle.portal.specs.Tellings.{IsUnknown, event_texts, events_after, last_number, number_after};

use crate::book::Book;
use crate::deadline::Deadline;
use crate::lines::write_all;
use crate::serving::Runner;
use crate::shared::{Shared, time_now};
use gateway::{Event, Position, beat_text, event_text, restarted_text};
use std::alloc::{AllocError, Global};
use std::io;
use std::net::TcpStream;
use std::sync::atomic::Ordering;
use std::time::Duration;

/// The most followers.
const MOST_STREAMS: u64 = 64;

/// The milliseconds in which a follower has to take what is sent.
const TO_TAKE: u64 = 10_000;

/// The seconds after which a follower that was told nothing is told that the stream lives.
const BEAT: u64 = 5;

/// The head of a stream, and the time after which a browser comes back.
const HEAD: &[u8] =
    b"HTTP/1.1 200 OK\r\ncontent-type: text/event-stream\r\ncache-control: no-store\r\nx-content-type-options: nosniff\r\nreferrer-policy: no-referrer\r\nconnection: close\r\n\r\nretry: 2000\n\n";

/// The answer if there are as many followers as are taken.
const BUSY: &[u8] =
    b"HTTP/1.1 503 Service Unavailable\r\ncontent-type: application/json\r\ncontent-length: 17\r\nconnection: close\r\n\r\n{\"error\":\"busy\"}\n";

/// The bytes that are sent next, and the number of the last event in them.
#[derive(Drop)]
struct Chunk {
    bytes: Vec<u8>,
    number: u64,
}

/// Serves a follower, if there aren't too many.
pub(crate) fn serve_follower<R: Runner>(
    rt: &R,
    shared: &Shared,
    socket: &TcpStream,
    from: Option<Position>,
) -> io::Result<()> {
    if shared.streams.fetch_add(1, Ordering::SeqCst) >= MOST_STREAMS {
        shared.streams.fetch_sub(1, Ordering::SeqCst);
        shared.book.lock(rt).count_refusal();
        return write_all(rt, socket, BUSY, Deadline::new(rt, TO_TAKE)?);
    }
    let ended = stream_on(rt, shared, socket, from);
    shared.streams.fetch_sub(1, Ordering::SeqCst);
    ended
}

/// Sends events as they come, until the follower goes, doesn't take them, or the gateway ends.
fn stream_on<R: Runner>(
    rt: &R,
    shared: &Shared,
    socket: &TcpStream,
    from: Option<Position>,
) -> io::Result<()> {
    write_all(rt, socket, HEAD, Deadline::new(rt, TO_TAKE)?)?;
    let mut number = match from {
        Some(at) if at.life == shared.life => at.number,
        _ => u64::MAX,
    };
    for _ in 0..u64::MAX {
        if shared.is_over() {
            return Ok(());
        }
        let chunk = next_chunk(rt, shared, number)?;
        number = chunk.number;
        write_all(rt, socket, &chunk.bytes, Deadline::new(rt, TO_TAKE)?)?;
    }
    Ok(())
}

/// Returns the events after a number; a beat if there is none for a while; or that all must be
/// loaded anew.
fn next_chunk<R: Runner>(rt: &R, shared: &Shared, number: u64) -> Result<Chunk, AllocError> {
    let book = shared.book.lock(rt);
    let limit = Duration::from_secs(BEAT);
    let (book, _late) = shared.changed.wait_timeout_while(rt, book, limit, |book| {
        book.last() == number && !shared.is_over()
    });
    chunk_after(shared.alloc, &book, shared.life, number, time_now(rt))
}

/// Returns the events of the book after a number, in this life; a beat at this time if there is
/// none; or that all must be loaded anew.
fn chunk_after(
    alloc: Global,
    book: &Book,
    life: u64,
    number: u64,
    time: u64,
) -> Result<Chunk, AllocError>
    ensures anew { IsUnknown book.now number →
        IfOk result (λ chunk. IsChunk chunk
        (restarted_text (record { life = life; number = last_number book.now }))
        (last_number book.now)) }
    ensures beat { number ≡ book.now.before + length book.now.events.items →
        IfOk result (λ chunk. IsChunk chunk (beat_text time) number) }
    ensures events { book.now.before ≤ number →
        number < book.now.before + length book.now.events.items →
        IfOk result (λ chunk. IsChunk chunk
        (event_texts life number (events_after book.now number))
        (number_after number (length (events_after book.now number)))) }
{
    match book.after(number) {
        None => {
            let at = book.position(life);
            let text = restarted_text(alloc, at)?;
            chunk_of(alloc, text.as_str(), at.number)
        }
        Some([]) => {
            let text = beat_text(alloc, time)?;
            chunk_of(alloc, text.as_str(), number)
        }
        Some(events) => chunk_with(alloc, life, number, events),
    }
}

/// Returns a text as a chunk.
fn chunk_of(alloc: Global, text: &str, number: u64) -> Result<Chunk, AllocError>
    ensures { IfOk result (λ chunk. IsChunk chunk text.now number) }
{
    let mut bytes = Vec::new(alloc);
    bytes.extend_from_slice(text.as_bytes())?;
    Ok(Chunk { bytes, number })
}

/// Returns the texts of these events, the first of which has the number after this one.
fn chunk_with(alloc: Global, life: u64, number: u64, events: &[Event]) -> Result<Chunk, AllocError>
    ensures { IfOk result (λ chunk. IsChunk chunk (event_texts life number events.now)
        (number_after number (length events.now))) }
{
    let mut bytes = Vec::new(alloc);
    let mut last = number;
    for event in events {
        last = last.saturating_add(1);
        let at = Position { life, number: last };
        bytes.extend_from_slice(event_text(alloc, at, event)?.as_bytes())?;
    }
    Ok(Chunk {
        bytes,
        number: last,
    })
}
