//! The runtime of a thread that serves a client.

use std::net::{Net, TcpListener, TcpStream};
use std::sync::Wait;
use std::time::Clock;

/// A runtime that waits, has a clock and speaks TCP. It starts no threads: under a bound that has
/// them a method of a trait takes no lock.
pub(crate) trait Speaker: Wait
    + Clock
    + Net<Stream = TcpStream, Listener = TcpListener>
    + 'static {}

impl<R: Wait + Clock + Net<Stream = TcpStream, Listener = TcpListener> + 'static> Speaker for R {}
