//! Lines over a connection to a desk, within a time.

ghost use Rattle.std.specs.Io.{ReadsAtMost, WritesAtMost};

use crate::deadline::Deadline;
use std::alloc::Global;
use std::io::{self, Read, Write};
use std::net::TcpStream;
use std::time::Clock;

/// The most bytes of a line that is read.
const LONGEST: usize = 64;

/// The bytes that are read at once.
const PIECE: usize = 512;

/// Reads what there is.
pub(crate) fn read_from(socket: &TcpStream, piece: &mut [u8]) -> io::Result<usize>
    ensures bound { ReadsAtMost result piece.new }
{
    let mut socket = socket;
    socket.read(piece)
}

/// Writes all bytes within the time.
pub(crate) fn write_all<R: Clock>(
    rt: &R,
    socket: &TcpStream,
    bytes: &[u8],
    deadline: Deadline,
) -> io::Result<()> {
    let mut sent = 0;
    for _ in 0..u64::MAX {
        if sent >= bytes.len() {
            return Ok(());
        }
        socket.set_write_timeout(Some(deadline.left(rt)?))?;
        let taken = write_to(socket, &bytes[sent..])?;
        if taken == 0 {
            return Err(io::Error::from(io::ErrorKind::WriteZero));
        }
        sent = sent.saturating_add(taken).min(bytes.len());
    }
    Ok(())
}

/// Writes what is taken.
pub(crate) fn write_to(socket: &TcpStream, piece: &[u8]) -> io::Result<usize>
    ensures bound { WritesAtMost result piece.now }
{
    let mut socket = socket;
    socket.write(piece)
}

/// A connection to a desk, and what of it was read and isn't yet taken.
#[derive(Drop)]
pub(crate) struct DeskLines {
    socket: TcpStream,
    buffer: Vec<u8>,
}

impl DeskLines {
    /// Returns the lines of a new connection.
    pub(crate) fn new(alloc: Global, socket: TcpStream) -> DeskLines {
        let _at_once = socket.set_nodelay(true).is_ok();
        DeskLines {
            socket,
            buffer: Vec::new(alloc),
        }
    }

    /// Sends a line.
    pub(crate) fn send<R: Clock>(&self, rt: &R, line: &str, deadline: Deadline) -> io::Result<()> {
        write_all(rt, &self.socket, line.as_bytes(), deadline)
    }

    /// Reads a line, without its end, within the time. A line of more than 64 bytes is an error.
    pub(crate) fn next<R: Clock>(
        &mut self,
        rt: &R,
        alloc: Global,
        deadline: Deadline,
    ) -> io::Result<Vec<u8>> {
        let mut piece = [0; PIECE];
        for _ in 0..u64::MAX {
            if let Some(line) = self.take(alloc)? {
                return Ok(line);
            }
            if self.buffer.len() > LONGEST {
                return Err(io::Error::from(io::ErrorKind::InvalidData));
            }
            self.socket.set_read_timeout(Some(deadline.left(rt)?))?;
            let read = read_from(&self.socket, &mut piece)?;
            if read == 0 {
                return Err(io::Error::from(io::ErrorKind::UnexpectedEof));
            }
            self.buffer.extend_from_slice(&piece[..read])?;
        }
        Err(io::Error::from(io::ErrorKind::TimedOut))
    }

    /// Takes the first line that was read, if there is a whole one.
    fn take(&mut self, alloc: Global) -> io::Result<Option<Vec<u8>>> {
        let Some(end) = end_of_line(&self.buffer) else {
            return Ok(None);
        };
        let mut line = Vec::new(alloc);
        let mut rest = Vec::new(alloc);
        for (index, byte) in self.buffer.iter().enumerate() {
            if index < end {
                line.push(*byte)?;
            } else if index > end {
                rest.push(*byte)?;
            }
        }
        self.buffer = rest;
        Ok(Some(line))
    }
}

/// Returns the index of the first line's end.
fn end_of_line(bytes: &[u8]) -> Option<usize> {
    bytes.iter().position(|byte| *byte == b'\n')
}
