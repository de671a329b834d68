//! The writer of a link: begin at `write_link`. Behind it stands how statements, messages and bytes
//! are written to any stream.
ghost use Rattle.std.specs.Prelude.{◌≡◌, ◌+◌, ◌<◌, ◌≤◌, ◌^◌, true, length, vec_len, IfOk, IfErr, OnOk, OnErr};
ghost use Rattle.wire.specs.Texts.{frame_bytes};
ghost use Rattle.wire.specs.declared.message.Message.TheVariants as message;
ghost use Rattle.node.specs.Books.{is_numbered};
ghost use Rattle.links.specs.Told.{has_read, has_written, has_sent, BreaksOff};
ghost use Rattle.links.specs.Pulls.{IsEndOrMemory};
ghost use Rattle.links.specs.Sending.{each_framed, statements_of, frames_of, FailsToWrite, FailsToSend};
ghost use Rattle.links.specs.Writing.{WritesGroups, WritesOn, Unwelcomed, WritesLink, hello_to};

use crate::ends::LinkEnd;
use crate::greeting::read_first;
use crate::reader::Gate;
use crate::stream::{Stream, StreamFault};
use disk::Disk;
use member::Sealed;
use node::{Hub, Naming};
use std::alloc::Global;
use std::sync::Wait;
use terms::{Header, Memory, Size, Statement};
use wire::{MOST_STATEMENTS, Many, Message, Version, encode};

/// The most statements that are written at a time in a session of version 1.
const PULL: usize = 64;

/// The length of a Welcome.
const WELCOME: usize = 11;

/// A session of the link to a peer, a number below n: writes the Hello, reads the Welcome, at most
/// 11 bytes in all, and then writes the statements of the outbox from its next on, in order, until
/// the session ends: in version 1 at most 64 at a time, in version 2 at most 99, which are one
/// frame. Woken by the bell with nothing new it writes an Idle. It waits for no disk, but for that
/// of a hub that is shut. The stream is closed. Beside the end it answers whether it read its
/// Welcome.
///
/// It ends:
///
/// - `Ended`: the input ended before the Welcome; behind it, the hub was shut, and what was in the
///   outbox is written.
/// - `Lost`: a read or a write failed, or a write took nothing.
/// - `Broken`, `OutOfOrder`: before the Welcome came bytes that begin no frame; another message.
/// - `Memory`: there was none. What was written ends with a whole frame.
///
/// It is never `Stopped`: what a stopped member said stands, and is sent. No point of the gate lies
/// on its way.
pub fn write_link<D: Disk, J: Naming, S: Stream, G: Gate, R: Wait>(
    rt: &R,
    alloc: Global,
    hub: &Hub<D, J>,
    peer: u8,
    stream: &mut S,
    version: Version,
    _gate: &G,
) -> (LinkEnd, bool)
    // What it wrote begins its Hello and then the numbered frames; past the Hello it went where it
    // was welcomed.
    ensures writes { WritesLink hub.now version peer (S.told stream.old)
        (S.told stream.new) result.0 result.1 }
    ensures closed { S.is_closed stream.new ≡ true }
{
    let writer = Writer {
        rt,
        alloc,
        hub,
        version,
    };
    let ended = writer.write_session(peer, stream);
    stream.close();
    ended
}

/// A session of a writer: its hub, its version, and the runtime by which it waits.
#[derive(Drop)]
struct Writer<'a, D: Disk, J: Naming, R> {
    rt: &'a R,
    alloc: Global,
    hub: &'a Hub<D, J>,
    version: Version,
}

impl<D: Disk, J: Naming, R: Wait> Writer<'_, D, J, R> {
    /// A session but for the closing of its stream.
    fn write_session<S: Stream>(&self, peer: u8, stream: &mut S) -> (LinkEnd, bool)
        ensures { WritesLink self.now.hub.now self.now.version peer (S.told stream.old)
            (S.told stream.new) result.0 result.1 }
    {
        let header = self.hub.header();
        let greeting = hello(&header, self.version, peer);
        match write_message(self.alloc, stream, &greeting) {
            Ok(()) => {}
            Err(why) => return (why, false),
        }
        match read_welcome(self.alloc, stream, header.size()) {
            Ok(next) => {
                let why = self.write_on(stream, next);
                return (why, true);
            }
            Err(why) => return (why, false),
        }
    }

    /// Writes from a number on until the session ends.
    fn write_on<S: Stream>(&self, stream: &mut S, first: u64) -> LinkEnd
        ensures { WritesOn self.now.version (S.told stream.old) (S.told stream.new) first result }
    {
        let mut number = first;
        for _ in self.rt.forever() {
            match self.write_some(stream, number) {
                Ok(next) => number = next,
                Err(why) => return why,
            }
        }
        unreachable!()
    }

    /// Writes what is new, or one Idle frame.
    fn write_some<S: Stream>(&self, stream: &mut S, from: u64) -> Result<u64, LinkEnd>
        ensures ok { IfOk result
            (λ next. WritesGroups self.now.version (S.told stream.old)
            (S.told stream.new) from next) }
        ensures err { IfErr result
            (λ why. WritesOn self.now.version (S.told stream.old) (S.told stream.new) from why) }
    {
        match self.next_items(from) {
            Err(why) => Err(why),
            Ok(items) => {
                if items.is_empty() {
                    return match write_idle(self.alloc, stream, self.version, from) {
                        Ok(()) => Ok(from),
                        Err(why) => Err(why),
                    };
                }
                write_items(self.alloc, stream, self.version, from, items.as_slice())
            }
        }
    }

    /// Returns what is new in the outbox from a number on, once the bell rang for it; nothing where
    /// it rang for nothing. At a hub that is shut the session ends where there is nothing.
    fn next_items(&self, from: u64) -> Result<Vec<Sealed>, LinkEnd>
        ensures few { IfOk result (λ v. vec_len v ≤ 99) }
        ensures numbered { IfOk result (λ v. is_numbered from v.items ≡ true) }
        ensures fits { IfOk result (λ v. 0 < vec_len v → from + vec_len v < 2 ^ 64) }
        ensures only { IfErr result IsEndOrMemory }
    {
        match self.hub.await_items(self.rt, from, most(self.version)) {
            Ok(Some(items)) => Ok(items),
            Ok(None) => Err(LinkEnd::Ended),
            Err(_) => Err(LinkEnd::Memory),
        }
    }
}

/// The Hello of the header's member to another, for a session of that version.
fn hello(header: &Header, version: Version, peer: u8) -> Message
    ensures { result ≡ hello_to header.now version peer }
{
    Message::Hello {
        version,
        cluster: header.cluster(),
        size: header.size(),
        from: header.me(),
        to: peer,
    }
}

/// The next of the Welcome that the stream gives.
fn read_welcome<S: Stream>(alloc: Global, stream: &mut S, size: Size) -> Result<u64, LinkEnd>
    ensures ok { IfOk result
        (λ next. S.told stream.new ≡ has_read (S.told stream.old)
        (frame_bytes (message.Welcome next))) }
    ensures err { IfErr result
        (λ why. Unwelcomed size (S.told stream.old) (S.told stream.new) why) }
{
    match read_first(alloc, stream, size, WELCOME) {
        Ok(Message::Welcome { next }) => Ok(next),
        Ok(Message::Idle) => Err(LinkEnd::OutOfOrder),
        Ok(
            Message::Hello {
                version: _,
                cluster: _,
                size: _,
                from: _,
                to: _,
            },
        ) => Err(LinkEnd::OutOfOrder),
        Ok(Message::Statement(_)) => Err(LinkEnd::OutOfOrder),
        Ok(Message::Statements(_)) => Err(LinkEnd::OutOfOrder),
        Err(why) => Err(why),
    }
}

/// The most statements that are written at a time.
fn most(version: Version) -> usize
    ensures { result ≤ 99 }
{
    match version {
        Version::One => PULL,
        Version::Two => MOST_STATEMENTS,
    }
}

/// Writes an Idle frame.
fn write_idle<S: Stream>(
    alloc: Global,
    stream: &mut S,
    version: Version,
    from: u64,
) -> Result<(), LinkEnd>
    ensures ok { IfOk result
        (λ _. WritesGroups version (S.told stream.old) (S.told stream.new) from from) }
    ensures err { IfErr result
        (λ why. WritesOn version (S.told stream.old) (S.told stream.new) from why) }
{
    match write_message(alloc, stream, &Message::Idle) {
        Ok(()) => Ok(()),
        Err(why) => Err(why),
    }
}

/// Writes statements with numbers from this one on.
fn write_items<S: Stream>(
    alloc: Global,
    stream: &mut S,
    version: Version,
    from: u64,
    items: &[Sealed],
) -> Result<u64, LinkEnd>
    requires few { length items.now ≤ 99 }
    requires some { 0 < length items.now }
    requires numbered { is_numbered from items.now ≡ true }
    requires fits { from + length items.now < 2 ^ 64 }
    ensures ok { IfOk result
        (λ next. WritesGroups version (S.told stream.old) (S.told stream.new) from next) }
    ensures err { IfErr result
        (λ why. WritesOn version (S.told stream.old) (S.told stream.new) from why) }
{
    match send(alloc, stream, version, items) {
        Ok(()) => Ok(from + items.len() as u64),
        Err(why) => Err(why),
    }
}

/// Writes the frames of the statements, in order: in a session of version 1 each has its own, in
/// one of version 2 they are one frame, if there are any. The caller lends at most 99. The stream
/// notes these values, with the numbers that they have.
///
/// # Errors
///
/// `Lost` where the stream failed: a beginning of the frames was written. `Memory`: nothing was.
pub fn send<S: Stream>(
    alloc: Global,
    stream: &mut S,
    version: Version,
    items: &[Sealed],
) -> Result<(), LinkEnd>
    requires { length items.now ≤ 99 }
    ensures ok { OnOk result
        (S.told stream.new ≡ has_written (has_sent (S.told stream.old) items.now)
        (frames_of version items.now)) }
    ensures err { IfErr result
        (λ why. FailsToSend version (S.told stream.old) (S.told stream.new) items.now why) }
{
    match frames(alloc, version, items) {
        Ok(bytes) => {
            stream.note_sent(items);
            match write_all(stream, &bytes) {
                Ok(()) => Ok(()),
                Err(_) => Err(LinkEnd::Lost),
            }
        }
        Err(_) => Err(LinkEnd::Memory),
    }
}

/// The frames of the statements.
fn frames(alloc: Global, version: Version, items: &[Sealed]) -> Result<Vec<u8>, Memory>
    requires { length items.now ≤ 99 }
    ensures { IfOk result (λ bytes. bytes.items ≡ frames_of version items.now) }
{
    match version {
        Version::One => each_frame(alloc, items),
        Version::Two => {
            if items.len() < 2 {
                return each_frame(alloc, items);
            }
            joint_frame(alloc, items)
        }
    }
}

/// The frames of the statements, one for each.
fn each_frame(alloc: Global, items: &[Sealed]) -> Result<Vec<u8>, Memory>
    ensures { IfOk result (λ bytes. bytes.items ≡ each_framed items.now) }
{
    let mut bytes = Vec::new(alloc);
    for item in items {
        encode(&Message::Statement(item.statement()), &mut bytes)?;
    }
    Ok(bytes)
}

/// The one frame of several statements, at most 99.
fn joint_frame(alloc: Global, items: &[Sealed]) -> Result<Vec<u8>, Memory>
    requires { (2 ≤ length items.now) × (length items.now ≤ 99) }
    ensures { IfOk result
        (λ bytes. bytes.items ≡ frame_bytes (message.Statements (statements_of items.now))) }
{
    match statements(alloc, items) {
        Ok(statements) => match Many::new(statements) {
            Ok(many) => frame(alloc, &Message::Statements(many)),
            Err(_) => unreachable!(),
        },
        Err(refused) => Err(refused),
    }
}

/// The statements.
fn statements(alloc: Global, items: &[Sealed]) -> Result<Vec<Statement>, Memory>
    ensures { IfOk result (λ statements. statements.items ≡ statements_of items.now) }
{
    let mut statements = Vec::new(alloc);
    for item in items {
        statements.push(item.statement())?;
    }
    Ok(statements)
}

/// Writes the frame of a message.
///
/// # Errors
///
/// `Lost` where the stream failed: a beginning of the frame was written. `Memory`: nothing was.
pub(crate) fn write_message<S: Stream>(
    alloc: Global,
    stream: &mut S,
    message: &Message,
) -> Result<(), LinkEnd>
    ensures ok { OnOk result
        (S.told stream.new ≡ has_written (S.told stream.old) (frame_bytes message.now)) }
    ensures err { IfErr result
        (λ why. FailsToWrite (S.told stream.old) (S.told stream.new)
        (frame_bytes message.now) why) }
{
    match frame(alloc, message) {
        Ok(bytes) => match write_all(stream, &bytes) {
            Ok(()) => Ok(()),
            Err(_) => Err(LinkEnd::Lost),
        },
        Err(_) => Err(LinkEnd::Memory),
    }
}

/// The frame of a message.
fn frame(alloc: Global, message: &Message) -> Result<Vec<u8>, Memory>
    ensures { IfOk result (λ bytes. bytes.items ≡ frame_bytes message.now) }
{
    let mut bytes = Vec::new(alloc);
    match encode(message, &mut bytes) {
        Ok(()) => Ok(bytes),
        Err(refused) => Err(refused),
    }
}

/// Writes all of the bytes, in as many calls as it takes.
///
/// # Errors
///
/// `StreamFault` at the first call that failed or took nothing: a beginning of the bytes was
/// written.
pub fn write_all<S: Stream>(stream: &mut S, bytes: &[u8]) -> Result<(), StreamFault>
    ensures ok { OnOk result (S.told stream.new ≡ has_written (S.told stream.old) bytes.now) }
    ensures err { OnErr result (BreaksOff (S.told stream.old) (S.told stream.new) bytes.now) }
{
    let mut rest = bytes;
    while !rest.is_empty() {
        let count = match stream.write(rest) {
            Ok(count) => count,
            Err(fault) => return Err(fault),
        };
        if count == 0 {
            return Err(StreamFault);
        }
        rest = &rest[count..];
    }
    Ok(())
}
