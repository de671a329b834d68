//! The sockets of a member, which its end shuts down: begin at `Sockets`. Each has a number while
//! its session is under way.

use crate::timing::{CLIENT_LIMIT, CLIENT_SILENCE, FRESH_TICKS, GREETING_TICKS, LINK_SILENCE};
use links::NetStream;
use std::alloc::Global;
use std::io;
use std::net::{IpAddr, Shutdown, TcpStream};
use std::time::Duration;

/// A member that was dialled, and the tick of that.
#[derive(Clone, Copy, Drop)]
struct Dialled {
    peer: u8,
    tick: u64,
}

/// A socket of a session that is under way.
#[derive(Drop)]
struct OpenSocket {
    socket: TcpStream,
    /// The ticks that are left for the greeting; none where none is awaited.
    patience: Option<u8>,
    /// The member that was dialled; none where it dialled.
    to: Option<Dialled>,
    /// The first member of the host from which a peer dialled.
    from: Option<u8>,
    /// The slot of a client.
    slot: Option<u8>,
}

impl OpenSocket {
    fn tick(&mut self) {
        match self.patience {
            Some(left) if left > 1 => self.patience = Some(left - 1),
            Some(_) => shut(&self.socket),
            None => {}
        }
    }

    /// Shuts the socket down if it is that of a client in that slot, and returns `true` if it is.
    fn shut_if_of(&self, slot: u8) -> bool {
        let is_its = self.slot == Some(slot);
        if is_its {
            shut(&self.socket);
        }
        is_its
    }

    /// Shuts the socket down if it is one of a link to that member, dialled two ticks before this
    /// one or earlier, and returns `true` if it is.
    fn shut_if_old_to(&self, peer: u8, now: u64) -> bool {
        let is_its = match self.to {
            Some(to) => to.peer == peer && now.saturating_sub(to.tick) >= FRESH_TICKS,
            None => false,
        };
        if is_its {
            shut(&self.socket);
        }
        is_its
    }
}

/// The sockets of the sessions that are under way. A session has a copy of its socket, so that a
/// shutdown here ends a read or write in which its thread waits.
#[derive(Drop)]
pub(crate) struct Sockets {
    open: Vec<Option<OpenSocket>>,
    closed: bool,
}

impl Sockets {
    /// No sockets. It takes no memory yet.
    pub(crate) fn new(alloc: Global) -> Sockets {
        Sockets {
            open: Vec::new(alloc),
            closed: false,
        }
    }

    /// Takes in the socket of the client in that slot, and gives its number. It is closed, and has
    /// none, where memory is refused or all were shut down.
    pub(crate) fn enter_client(&mut self, socket: TcpStream, slot: u8) -> Option<usize> {
        self.enter(OpenSocket {
            socket,
            patience: None,
            to: None,
            from: None,
            slot: Some(slot),
        })
    }

    /// Shuts down the sockets of clients in that slot, whose sessions end then. Answers the host of
    /// the last of them; none where there is no such client, or the system doesn't know its host
    /// any more.
    pub(crate) fn shut_client(&self, slot: u8) -> Option<IpAddr> {
        let mut host = None;
        for open in &self.open {
            if let Some(open) = open {
                let from = host_of(&open.socket);
                if open.shut_if_of(slot) {
                    host = from;
                }
            }
        }
        host
    }

    /// Returns `true` if a socket is that of a client.
    pub(crate) fn have_clients(&self) -> bool {
        self.open
            .iter()
            .any(|open| matches!(open, Some(open) if open.slot.is_some()))
    }

    /// Takes in the socket of a link to that member, which was dialled at that tick, like
    /// `enter_client`.
    pub(crate) fn enter_to(&mut self, socket: TcpStream, peer: u8, tick: u64) -> Option<usize> {
        self.enter(OpenSocket {
            socket,
            patience: None,
            to: Some(Dialled { peer, tick }),
            from: None,
            slot: None,
        })
    }

    /// Shuts down the sockets of links to that member that were dialled two ticks before this one
    /// or earlier, whose sessions end then. Answers whether there was one.
    pub(crate) fn shut_old_to(&self, peer: u8, now: u64) -> bool {
        let mut any = false;
        for open in &self.open {
            if let Some(open) = open {
                any = open.shut_if_old_to(peer, now) || any;
            }
        }
        any
    }

    /// Takes in the socket of a peer from that member's host that is to greet within ten ticks,
    /// like `enter_client`; it is closed too where as many peers from there as its share are to
    /// greet already.
    pub(crate) fn enter_to_greet(
        &mut self,
        socket: TcpStream,
        first: u8,
        share: usize,
    ) -> Option<usize> {
        if self.greeting_from(first) >= share {
            return None;
        }
        self.enter(OpenSocket {
            socket,
            patience: Some(GREETING_TICKS),
            to: None,
            from: Some(first),
            slot: None,
        })
    }

    /// Returns how many peers from that member's host are to greet.
    fn greeting_from(&self, first: u8) -> usize {
        let mut count = 0usize;
        for open in &self.open {
            if let Some(open) = open {
                if open.patience.is_some() && open.from == Some(first) {
                    count = count.saturating_add(1);
                }
            }
        }
        count
    }

    /// Takes in a socket, by the lowest number that is free.
    fn enter(&mut self, socket: OpenSocket) -> Option<usize> {
        if self.closed {
            return None;
        }
        if let Some(free) = self.open.iter().position(|open| open.is_none()) {
            self.open[free] = Some(socket);
            return Some(free);
        }
        let last = self.open.len();
        if self.open.push(Some(socket)).is_err() {
            return None;
        }
        Some(last)
    }

    /// The peer at the socket of that number has greeted: ticks don't end its session any more, but
    /// silence does.
    pub(crate) fn greeted(&mut self, number: usize) {
        if let Some(Some(open)) = self.open.get_mut(number) {
            open.patience = None;
        }
        self.limit_reads(number, Duration::from_millis(LINK_SILENCE));
    }

    /// Limits reads of the socket of that number: from now on one fails once it has waited so long.
    /// Where the system refuses that, the limit stays as it was.
    pub(crate) fn limit_reads(&self, number: usize, limit: Duration) {
        if let Some(Some(open)) = self.open.get(number) {
            let _limited = open.socket.set_read_timeout(Some(limit)).is_ok();
        }
    }

    /// Counts a tick: a socket whose peer has had ten ticks for its greeting is shut down.
    pub(crate) fn tick(&mut self) {
        for open in self.open.iter_mut() {
            if let Some(open) = open {
                open.tick();
            }
        }
    }

    /// A copy of the socket of that number, if there is one.
    pub(crate) fn copy(&self, number: usize) -> Option<TcpStream> {
        match self.open.get(number) {
            Some(Some(open)) => match open.socket.try_clone() {
                Ok(copy) => Some(copy),
                Err(_) => None,
            },
            _ => None,
        }
    }

    /// Gives the socket of that number away as it is, and frees the number.
    pub(crate) fn take(&mut self, number: usize) -> Option<TcpStream> {
        if number >= self.open.len() {
            return None;
        }
        let open = self.open[number].take()?;
        Some(open.socket)
    }

    /// Shuts the socket of that number down, and frees the number.
    pub(crate) fn leave(&mut self, number: usize) {
        if number < self.open.len() {
            if let Some(open) = self.open[number].take() {
                shut(&open.socket);
            }
        }
    }

    /// Shuts all sockets down. None is taken in from now on.
    pub(crate) fn close(&mut self) {
        self.closed = true;
        for open in &self.open {
            if let Some(open) = open {
                shut(&open.socket);
            }
        }
    }
}

/// The host at the other end of a socket.
pub(crate) fn host_of(socket: &TcpStream) -> Option<IpAddr> {
    match socket.peer_addr() {
        Ok(address) => Some(address.ip()),
        Err(_) => None,
    }
}

/// Shuts a socket down. One that the peer closed before stays so.
pub(crate) fn shut(socket: &TcpStream) {
    let _already = socket.shutdown(Shutdown::Both).is_err();
}

/// The stream of the client at this socket, whose bytes leave at once, however few they are. One
/// that says nothing for ten minutes, or takes nothing for ten seconds, is given up: the read or
/// the write fails.
pub fn client_stream(socket: TcpStream) -> io::Result<NetStream> {
    limit_client(&socket, CLIENT_SILENCE)?;
    Ok(NetStream::new(socket))
}

/// Sets the limits of a client's socket: bytes leave at once, a write fails that takes nothing for
/// ten seconds, and a read that gives nothing for so many.
pub(crate) fn limit_client(socket: &TcpStream, seconds: u64) -> io::Result<()> {
    // A Unix socket has no such delay.
    let _at_once = socket.set_nodelay(true).is_ok();
    socket.set_read_timeout(Some(Duration::from_secs(seconds)))?;
    socket.set_write_timeout(Some(Duration::from_secs(CLIENT_LIMIT)))
}
