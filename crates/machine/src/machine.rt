//! The part of the runtime that the threads of a member use.

use std::net::{Net, TcpListener, TcpStream};
use std::sync::Wait;
use std::thread::Threads;
use std::time::Clock;

/// A runtime whose threads wait for one another, sleep, and speak TCP. Each runtime that does is
/// one.
///
/// It has neither input nor files, nor prints: under a bound that has input a thread can't be
/// started, and a member's threads need none.
pub trait Machine: Wait
    + Threads
    + Sync
    + Clock
    + Net<Stream = TcpStream, Listener = TcpListener> {}

impl<R: Wait + Threads + Sync + Clock + Net<Stream = TcpStream, Listener = TcpListener>> Machine
    for R {}
