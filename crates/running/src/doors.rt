//! The ways in for links and clients.

use crate::sockets::shut;
use epochs::{Arrival, Inbox, Said};
use std::io::{self, ErrorKind};
use std::net::{IpAddr, Ipv4Addr, TcpListener, TcpStream};
use std::os::fd::OwnedFd;
use std::os::unix::net::UnixListener;
use std::sync::{Arc, Wait};

/// A listener at an address, or at a path of this machine; or the door of an epoch, at which
/// connections are handed in.
#[derive(Drop)]
pub(crate) enum Listener {
    Tcp(TcpListener),
    Unix(UnixListener),
    Epoch(Arc<Inbox>),
}

impl Listener {
    /// The next connection, and the host from which it comes. It may wait for ever.
    pub(crate) fn accept<R: Wait>(&self, rt: &R) -> io::Result<Arrival> {
        match self {
            Listener::Tcp(listener) => {
                let (socket, from) = listener.accept()?;
                Ok(arrival(socket, from.ip()))
            }
            Listener::Unix(listener) => {
                let (socket, _unnamed) = listener.accept()?;
                let descriptor: OwnedFd = socket.into();
                Ok(arrival(descriptor.into(), IpAddr::V4(Ipv4Addr::new(127, 0, 0, 1))))
            }
            Listener::Epoch(inbox) => match inbox.take(rt) {
                Some(arrival) => Ok(arrival),
                None => Err(io::Error::from(ErrorKind::NotConnected)),
            },
        }
    }

    /// A copy of its descriptor; none of an epoch's door.
    fn descriptor(&self) -> io::Result<Option<OwnedFd>> {
        match self {
            Listener::Tcp(listener) => Ok(Some(listener.try_clone()?.into())),
            Listener::Unix(listener) => Ok(Some(listener.try_clone()?.into())),
            Listener::Epoch(_) => Ok(None),
        }
    }
}

/// A connection of which nothing was read yet.
fn arrival(socket: TcpStream, host: IpAddr) -> Arrival {
    Arrival {
        socket,
        host,
        said: Said::nothing(),
    }
}

/// A listener, and a copy of its descriptor by which it is shut down. The copy is made at once, so
/// that an end asks the system for nothing that it may not have left then.
#[derive(Drop)]
pub(crate) struct Door {
    pub(crate) listener: Listener,
    /// None of an epoch's door.
    stop: Option<TcpStream>,
}

impl Door {
    /// The door of a listener. The system's error comes where it gives no descriptor more.
    pub(crate) fn new(listener: Listener) -> io::Result<Door> {
        let stop = match listener.descriptor()? {
            Some(descriptor) => Some(descriptor.into()),
            None => None,
        };
        Ok(Door { listener, stop })
    }

    /// Shuts it down: a thread that waits in its `accept` gets an error, now and from now on.
    pub(crate) fn shut<R: Wait>(&self, rt: &R) {
        if let Some(stop) = &self.stop {
            shut(stop);
        }
        if let Listener::Epoch(inbox) = &self.listener {
            inbox.stop(rt);
        }
    }
}

/// The ways in for a member's links and clients.
#[derive(Drop)]
pub(crate) struct Doors {
    pub(crate) links: Door,
    pub(crate) desk: Door,
    /// The desk's door at a path of this machine, if it has one.
    pub(crate) local: Option<Door>,
}

impl Doors {
    /// Shuts them down.
    pub(crate) fn shut<R: Wait>(&self, rt: &R) {
        self.links.shut(rt);
        self.desk.shut(rt);
        if let Some(local) = &self.local {
            local.shut(rt);
        }
    }
}
