//! One member's thread of a command over a whole cluster: begin at `call`.
//!
//! The thread sends its lines, and leaves each reply at the board. Nobody waits for its end: a
//! member that says nothing, or byte after byte, holds up its own thread alone, which the end of
//! the program ends.

ghost use Rattle.std.specs.Io.{ReadsAtMost, WritesAtMost};

use crate::board::Board;
use crate::callers::Caller;
use crate::desks::{CONNECT, Deadline, MOST_READ, REST, TALK, TRIES};
use crate::sockets::socket_address;
use commands::{Next, exchange, fetch_epochs, fetch_transcript, next_of, word_of};
use settings::Address;
use std::alloc::Global;
use std::io::{self, BufReader, Read, Write};
use std::net::TcpStream;
use std::sync::Arc;
use std::thread;
use std::time::{Clock, Duration};

/// The milliseconds for which the other members are waited for once there is a decision or a
/// verdict, so that people learn of them.
pub(crate) const GRACE: u32 = 250;

/// The way in which a member is spoken to.
#[derive(Clone, Copy, Debug, PartialEq, Eq)]
pub enum Manner {
    /// The first line is sent, once.
    Once,
    /// The first line is sent, once, and a transcript is read.
    Transcript,
    /// The first line is sent, once, and epochs are read.
    Epochs,
    /// The first line is sent, then the one that waits, until the member tells a decision; from the
    /// beginning if it doesn't answer.
    Until,
}

/// The lines and the board that all threads of a command share.
#[derive(Drop)]
pub struct Errand {
    pub alloc: Global,
    pub manner: Manner,
    /// The line that each member is sent first.
    pub first: String,
    /// The line that waits for the decision.
    pub wait: String,
    pub deadline: Deadline,
    pub board: Board,
}

impl Errand {
    /// The one reply of a member that is spoken to once.
    fn only_reply<R: Caller>(&self, rt: &R, desk: &Address) -> Option<Vec<u8>> {
        let Ok(socket) = self.connect(rt, desk) else {
            return None;
        };
        match self.manner {
            Manner::Transcript => self.transcript_from(rt, &socket),
            Manner::Epochs => self.epochs_from(rt, &socket),
            Manner::Once | Manner::Until => self.reply_to(rt, &socket, self.first.as_str()),
        }
    }

    /// The transcript that the member sends, or another reply with its end; none where none comes.
    fn transcript_from<R: Caller>(&self, rt: &R, socket: &TcpStream) -> Option<Vec<u8>> {
        let mut to = self.talk(rt, socket);
        let Ok(mut from) = BufReader::new(self.alloc, self.talk(rt, socket)) else {
            return None;
        };
        let mut reply = Vec::new(self.alloc);
        match fetch_transcript(
            self.alloc,
            self.first.as_str(),
            &mut to,
            &mut from,
            &mut reply,
        ) {
            Ok(_) => Some(reply),
            Err(_) => None,
        }
    }

    /// The epochs that the member tells, or another reply; none where none comes.
    fn epochs_from<R: Caller>(&self, rt: &R, socket: &TcpStream) -> Option<Vec<u8>> {
        let mut to = self.talk(rt, socket);
        let mut from = self.talk(rt, socket);
        match fetch_epochs(self.alloc, self.first.as_str(), &mut to, &mut from) {
            Ok(reply) => Some(reply),
            Err(_) => None,
        }
    }

    /// Speaks to a member until it tells a decision, or the time is over.
    fn insist<R: Caller>(&self, rt: &R, member: u8, desk: &Address) {
        for _ in 0..u64::MAX {
            match self.connect(rt, desk) {
                Ok(socket) => {
                    if self.pursue(rt, member, &socket) {
                        return;
                    }
                }
                Err(_) => self.board.leave(rt, member, None),
            }
            if self.deadline.is_over(rt) {
                return;
            }
            self.rest(rt);
        }
    }

    /// A connection to the desk, within the time.
    fn connect<R: Caller>(&self, rt: &R, desk: &Address) -> io::Result<TcpStream> {
        let limit = self.deadline.left(rt, CONNECT)?;
        TcpStream::connect_timeout(rt, &socket_address(desk), limit)
    }

    /// Sends the lines over a connection and leaves the replies at the board, until the member
    /// tells a decision, which is answered by true, or says something else.
    fn pursue<R: Caller>(&self, rt: &R, member: u8, socket: &TcpStream) -> bool {
        let mut line = self.first.as_str();
        let mut first = true;
        for _ in 0..u64::MAX {
            let Some(reply) = self.reply_to(rt, socket, line) else {
                self.board.leave(rt, member, None);
                return false;
            };
            let next = next_of(word_of(&reply), first);
            self.board.leave(rt, member, Some(reply));
            match next {
                Next::End => return true,
                Next::Begin => return false,
                Next::Wait => {
                    // A member that comes to its end, and one that lies, answers the waiting line
                    // at once.
                    if !first {
                        self.rest(rt);
                    }
                    first = false;
                    line = self.wait.as_str();
                }
            }
        }
        false
    }

    /// The reply to a line over the connection; none where none comes.
    fn reply_to<R: Caller>(&self, rt: &R, socket: &TcpStream, line: &str) -> Option<Vec<u8>> {
        let mut to = self.talk(rt, socket);
        let mut from = self.talk(rt, socket);
        match exchange(self.alloc, line, &mut to, &mut from) {
            Ok(reply) => Some(reply),
            Err(_) => None,
        }
    }

    /// The connection as a reader or a writer.
    fn talk<'a, R: Caller>(&self, rt: &'a R, socket: &'a TcpStream) -> CallStream<'a, R> {
        CallStream {
            rt,
            socket,
            deadline: self.deadline,
            room: MOST_READ,
        }
    }

    /// Rests between two tries.
    fn rest<R: Caller>(&self, rt: &R) {
        thread::sleep(rt, Duration::from_millis(REST));
    }
}

/// A connection of a thread: each read and each write waits for what is left of the time.
#[derive(Drop)]
struct CallStream<'a, R: 'static> {
    rt: &'a R,
    socket: &'a TcpStream,
    deadline: Deadline,
    /// The number of bytes that may still be read.
    room: usize,
}

impl<'a, R: Caller + 'static> Read for CallStream<'a, R> {
    fn read(&mut self, piece: &mut [u8]) -> io::Result<usize> {
        if self.room == 0 {
            return Err(io::Error::from(io::ErrorKind::InvalidData));
        }
        for _ in 0..TRIES {
            match read_once(self.rt, self.socket, self.deadline, piece) {
                Ok(read) => {
                    self.room = self.room.saturating_sub(read);
                    return Ok(read);
                }
                Err(error) if error.kind() == io::ErrorKind::Interrupted => {}
                Err(error) => return Err(error),
            }
        }
        Err(io::Error::from(io::ErrorKind::Interrupted))
    }
}

impl<'a, R: Caller + 'static> Write for CallStream<'a, R> {
    fn write(&mut self, piece: &[u8]) -> io::Result<usize> {
        for _ in 0..TRIES {
            match write_once(self.rt, self.socket, self.deadline, piece) {
                Err(error) if error.kind() == io::ErrorKind::Interrupted => {}
                done => return done,
            }
        }
        Err(io::Error::from(io::ErrorKind::Interrupted))
    }

    fn flush(&mut self) -> io::Result<()> {
        Ok(())
    }
}

/// Reads once, within the time.
fn read_once<R: Clock>(
    rt: &R,
    socket: &TcpStream,
    deadline: Deadline,
    piece: &mut [u8],
) -> io::Result<usize>
    ensures bound { ReadsAtMost result piece.new }
{
    socket.set_read_timeout(Some(deadline.left(rt, TALK)?))?;
    read_from(socket, piece)
}

/// Writes once, within the time.
fn write_once<R: Clock>(
    rt: &R,
    socket: &TcpStream,
    deadline: Deadline,
    piece: &[u8],
) -> io::Result<usize>
    ensures bound { WritesAtMost result piece.now }
{
    socket.set_write_timeout(Some(deadline.left(rt, TALK)?))?;
    write_to(socket, piece)
}

/// Reads what there is.
fn read_from(socket: &TcpStream, piece: &mut [u8]) -> io::Result<usize>
    ensures bound { ReadsAtMost result piece.new }
{
    let mut socket = socket;
    socket.read(piece)
}

/// Writes what is taken.
fn write_to(socket: &TcpStream, piece: &[u8]) -> io::Result<usize>
    ensures bound { WritesAtMost result piece.now }
{
    let mut socket = socket;
    socket.write(piece)
}

/// Speaks to the member with this desk, and leaves what it says at the board.
pub fn call<R: Caller>(rt: R, errand: Arc<Errand>, member: u8, desk: Address) {
    let errand: &Errand = &errand;
    match errand.manner {
        Manner::Until => errand.insist(&rt, member, &desk),
        Manner::Once | Manner::Transcript | Manner::Epochs => {
            let reply = errand.only_reply(&rt, &desk);
            errand.board.leave(&rt, member, reply);
        }
    }
}
