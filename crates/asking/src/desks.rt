//! The place of a desk, and the time that a client waits for it.

ghost use Rattle.std.specs.Prelude.{ℕ, List, ◌≡◌, ◌+◌, ◌<◌, ◌≤◌, ◌++◌, ◌↔◌, IfSome, IsNone, IsTrue, codes, length};
ghost use Rattle.std.specs.Duration.{as_nanos};
ghost use Rattle.asking.specs.Desks.{IsDeskPlace};
ghost use Rattle.asking.specs.Times.{IsLeft, IsRest, IsTotalOf};
ghost use Rattle.asking.specs.declared.desks.DeskPlace.{DeskPlace};

use crate::sockets::socket_address;
use settings::Address;
use std::io::{self, Read, Write};
use std::net::TcpStream;
use std::os::unix::net::UnixStream;
use std::time::{Clock, Duration, Instant};

/// The place at which a member listens to its clients.
#[derive(Clone, Copy, Debug, PartialEq, Eq)]
pub enum DeskPlace<'a> {
    /// A host of the internet and a port of it.
    Host(Address),
    /// The path of a Unix socket, which isn't empty.
    Path(&'a str),
}

/// Returns the place of a desk that the text names: `unix:PATH`, or `HOST:PORT` as
/// [`Address::parse`] reads it. `None` if it is neither.
pub fn desk_place(text: &str) -> Option<DeskPlace<'_>>
    ensures some { IfSome result (IsDeskPlace text.now) }
    ensures none { IsNone result → (place : DeskPlace) → IsDeskPlace text.now place → ⊥ }
{
    match Address::parse(text) {
        Some(address) => Some(DeskPlace::Host(address)),
        None => path_in(text),
    }
}

/// The path of the Unix socket that the text `unix:PATH` names.
fn path_in(text: &str) -> Option<DeskPlace<'_>>
    ensures some { IfSome result (IsDeskPlace text.now) }
    ensures none { IsNone result → (path : List ℕ) → text.now ≡ codes "unix:" ++ path →
        0 < length path → ⊥ }
{
    match text.strip_prefix("unix:") {
        Some(path) => place_at(path),
        None => None,
    }
}

/// The place of a Unix socket at this path, which mustn't be empty.
fn place_at(path: &str) -> Option<DeskPlace<'_>>
    ensures some { IfSome result (IsDeskPlace (codes "unix:" ++ path.now)) }
    ensures none { IsNone result → length path.now ≡ 0 }
{
    if path.is_empty() {
        return None;
    }
    Some(DeskPlace::Path(path))
}

/// The seconds that a client waits for its connection, where it isn't told.
pub const CONNECT: u64 = 10;

/// The seconds that a client waits until more of its line is taken, or for more of the reply, where
/// it isn't told.
pub const TALK: u64 = 30;

/// The milliseconds for which a client that waits for a decision rests before it asks again.
pub const REST: u64 = 250;

/// Until when a client waits.
#[derive(Clone, Copy, Debug, PartialEq, Eq)]
pub struct Deadline {
    /// When it began.
    start: Instant,
    /// The time that it waits in all, if that is limited.
    total: Option<Duration>,
}

impl Deadline {
    ghost use Rattle.std.specs.Prelude.{◌≡◌, IfOk, None, false};
    ghost use Rattle.asking.specs.Deadlines.{total_time};
    ghost use Rattle.asking.specs.Times.{IsTotalOf, IsWithin};

    /// A client that begins now waits so many milliseconds at most, one at least; without an end in
    /// all where it isn't told.
    #[tactic(auto, unfolding(crate::specs::Deadlines::total_time))]
    pub fn new<R: Clock>(rt: &R, timeout: Option<u32>) -> io::Result<Deadline>
        ensures { IfOk result (λ deadline. IsTotalOf timeout (total_time deadline)) }
    {
        Ok(Deadline {
            start: Instant::now(rt)?,
            total: total_of(timeout),
        })
    }

    /// Returns how long a step of so many seconds may take. An error: there is no time left.
    #[tactic(auto, using(crate::proofs::Waiting::within), unfolding(crate::specs::Deadlines::total_time))]
    pub fn left<R: Clock>(&self, rt: &R, step: u64) -> io::Result<Duration>
        ensures { IfOk result (IsWithin (total_time self.now) step) }
    {
        let passed = self.start.elapsed(rt)?;
        match left_of(self.total, passed, step) {
            Some(left) => Ok(left),
            None => Err(io::Error::from(io::ErrorKind::TimedOut)),
        }
    }

    /// Returns `true` if nothing is left after a rest. Where the clock fails nothing is.
    #[tactic(auto, unfolding(crate::specs::Deadlines::total_time))]
    pub fn is_over<R: Clock>(&self, rt: &R) -> bool
        ensures { total_time self.now ≡ None → result ≡ false }
    {
        let Some(total) = self.total else {
            return false;
        };
        match self.start.elapsed(rt) {
            Ok(passed) => is_spent(total, passed),
            Err(_) => true,
        }
    }
}

/// Returns how long a client waits in all that is told so many milliseconds, one at least.
fn total_of(timeout: Option<u32>) -> Option<Duration>
    ensures { IsTotalOf timeout result }
{
    match timeout {
        Some(milliseconds) => Some(Duration::from_millis(u64::from(milliseconds.max(1)))),
        None => None,
    }
}

/// Returns how much is left of a time in all when so much has passed, or of a step of so many
/// seconds where the time isn't limited. None: nothing.
fn left_of(total: Option<Duration>, passed: Duration, step: u64) -> Option<Duration>
    ensures { IsLeft total passed step result }
{
    match total {
        Some(whole) => rest_of(whole, passed),
        None => Some(Duration::from_secs(step)),
    }
}

/// Returns how much is left of a time when so much of it has passed. None: nothing.
fn rest_of(whole: Duration, passed: Duration) -> Option<Duration>
    ensures { IsRest whole passed result }
{
    let left = whole.saturating_sub(passed);
    if left.is_zero() {
        return None;
    }
    Some(left)
}

/// Returns `true` if nothing but a rest is left of a time when so much of it has passed.
fn is_spent(whole: Duration, passed: Duration) -> bool
    ensures { IsTrue result ↔ (as_nanos whole ≤ as_nanos passed + 250000000) }
{
    let rest = whole.saturating_sub(passed);
    rest.saturating_sub(Duration::from_millis(REST)).is_zero()
}

/// A connection to a desk.
#[derive(Drop)]
pub enum DeskSocket {
    Host(TcpStream),
    Path(UnixStream),
}

impl DeskSocket {
    ghost use Rattle.std.specs.Io.{ReadsAtMost, WritesAtMost};

    /// Limits the time that a read waits.
    fn read_within(&self, limit: Duration) -> io::Result<()> {
        match self {
            DeskSocket::Host(socket) => socket.set_read_timeout(Some(limit)),
            DeskSocket::Path(socket) => socket.set_read_timeout(Some(limit)),
        }
    }

    /// Limits the time that a write waits.
    fn write_within(&self, limit: Duration) -> io::Result<()> {
        match self {
            DeskSocket::Host(socket) => socket.set_write_timeout(Some(limit)),
            DeskSocket::Path(socket) => socket.set_write_timeout(Some(limit)),
        }
    }

    /// Reads what there is.
    fn read_some(&self, piece: &mut [u8]) -> io::Result<usize>
        ensures bound { ReadsAtMost result piece.new }
    {
        match self {
            DeskSocket::Host(socket) => {
                let mut socket = socket;
                socket.read(piece)
            }
            DeskSocket::Path(socket) => {
                let mut socket = socket;
                socket.read(piece)
            }
        }
    }

    /// Writes what is taken.
    fn write_some(&self, piece: &[u8]) -> io::Result<usize>
        ensures bound { WritesAtMost result piece.now }
    {
        match self {
            DeskSocket::Host(socket) => {
                let mut socket = socket;
                socket.write(piece)
            }
            DeskSocket::Path(socket) => {
                let mut socket = socket;
                socket.write(piece)
            }
        }
    }
}

/// The most bytes that are read over a connection, as many as a file of a transcript may have.
pub const MOST_READ: usize = 33_554_432;

/// The most times that a read or a write is tried which a signal interrupts, as those do that stop
/// the process and let it go on.
pub(crate) const TRIES: u32 = 1_000_000;

/// A talk with a desk that has an end: each read and each write waits for what is left of the time.
#[derive(Drop)]
pub struct Talk<'a> {
    pub rt: &'a HostRuntime,
    pub socket: &'a DeskSocket,
    pub deadline: Deadline,
    /// The number of bytes that may still be read.
    room: usize,
}

impl<'a> Talk<'a> {
    ghost use Rattle.std.specs.Io.{ReadsAtMost, WritesAtMost};
    ghost use Rattle.std.specs.Prelude.{◌≡◌};

    /// The talk over this connection, of which 33,554,432 bytes are read at most.
    pub fn new(rt: &'a HostRuntime, socket: &'a DeskSocket, deadline: Deadline) -> Talk<'a>
        ensures { result.deadline ≡ deadline }
    {
        Talk {
            rt,
            socket,
            deadline,
            room: MOST_READ,
        }
    }

    /// Reads once, within the time.
    fn read_once(&self, piece: &mut [u8]) -> io::Result<usize>
        ensures bound { ReadsAtMost result piece.new }
    {
        self.socket.read_within(self.deadline.left(self.rt, TALK)?)?;
        self.socket.read_some(piece)
    }

    /// Writes once, within the time.
    fn write_once(&self, piece: &[u8]) -> io::Result<usize>
        ensures bound { WritesAtMost result piece.now }
    {
        self.socket
            .write_within(self.deadline.left(self.rt, TALK)?)?;
        self.socket.write_some(piece)
    }
}

impl<'a> Read for Talk<'a> {
    fn read(&mut self, piece: &mut [u8]) -> io::Result<usize> {
        if self.room == 0 {
            return Err(io::Error::from(io::ErrorKind::InvalidData));
        }
        for _ in 0..TRIES {
            match self.read_once(piece) {
                Ok(read) => {
                    self.room = self.room.saturating_sub(read);
                    return Ok(read);
                }
                Err(error) if error.kind() == io::ErrorKind::Interrupted => {}
                Err(error) => return Err(error),
            }
        }
        Err(io::Error::from(io::ErrorKind::Interrupted))
    }
}

impl<'a> Write for Talk<'a> {
    fn write(&mut self, piece: &[u8]) -> io::Result<usize> {
        for _ in 0..TRIES {
            match self.write_once(piece) {
                Err(error) if error.kind() == io::ErrorKind::Interrupted => {}
                done => return done,
            }
        }
        Err(io::Error::from(io::ErrorKind::Interrupted))
    }

    fn flush(&mut self) -> io::Result<()> {
        Ok(())
    }
}

/// A connection to the desk at this place, within the time.
pub fn connect(
    rt: &HostRuntime,
    place: &DeskPlace<'_>,
    deadline: Deadline,
) -> io::Result<DeskSocket> {
    let limit = deadline.left(rt, CONNECT)?;
    match place {
        DeskPlace::Host(address) => {
            let socket = TcpStream::connect_timeout(rt, &socket_address(address), limit)?;
            Ok(DeskSocket::Host(socket))
        }
        DeskPlace::Path(path) => {
            let path: &str = *path;
            Ok(DeskSocket::Path(UnixStream::connect(rt, path)?))
        }
    }
}
