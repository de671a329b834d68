//! Connections that wait for the member of their epoch.

use crate::said::Said;
use std::alloc::Global;
use std::mem;
use std::net::{IpAddr, TcpStream};
use std::sync::{Condvar, Mutex, Wait};

/// The most connections that wait at an epoch's door.
const WAITING: usize = 64;

/// A connection that came, the host from which it comes, and what was read of it already.
#[derive(Drop)]
pub struct Arrival {
    /// The connection.
    pub socket: TcpStream,
    /// The host from which it comes.
    pub host: IpAddr,
    /// The bytes that were read of it and that its member is to read first.
    pub said: Said,
}

/// The connections that wait at a door of an epoch, in the order in which they came.
#[derive(Drop)]
struct Queue {
    waiting: Vec<Arrival>,
    /// Nobody is taken out any more.
    is_stopped: bool,
    /// Nobody is put in any more.
    is_closed: bool,
}

/// A door of an epoch: connections are put in, and the thread of its member takes them.
#[derive(Drop)]
pub struct Inbox {
    queue: Mutex<Queue>,
    came: Condvar,
    alloc: Global,
}

impl Inbox {
    /// Nobody waits. It takes no memory yet.
    pub fn new(alloc: Global) -> Inbox {
        Inbox {
            queue: Mutex::new(Queue {
                waiting: Vec::new(alloc),
                is_stopped: false,
                is_closed: false,
            }),
            came: Condvar::new(),
            alloc,
        }
    }

    /// Puts a connection in. It is closed if the door is, if 64 wait, or if there is no memory.
    pub fn put<R: Wait>(&self, rt: &R, arrival: Arrival) {
        let mut queue = self.queue.lock(rt);
        if queue.is_closed || queue.waiting.len() >= WAITING {
            return;
        }
        let _closed = queue.waiting.push(arrival).is_err();
        self.came.notify_all();
    }

    /// Returns the connection that came first, and waits until there is one. `None` once the door
    /// is stopped.
    pub fn take<R: Wait>(&self, rt: &R) -> Option<Arrival> {
        let mut queue = self.queue.lock(rt);
        for _ in rt.forever() {
            if queue.is_stopped {
                return None;
            }
            if !queue.waiting.is_empty() {
                return Some(queue.waiting.remove(0));
            }
            queue = self.came.wait(rt, queue);
        }
        unreachable!()
    }

    /// Stops the door: nobody is taken out of it any more. Those that wait stay.
    pub fn stop<R: Wait>(&self, rt: &R) {
        let mut queue = self.queue.lock(rt);
        queue.is_stopped = true;
        self.came.notify_all();
    }

    /// Closes the door, and returns those that wait.
    pub fn close<R: Wait>(&self, rt: &R) -> Vec<Arrival> {
        let mut queue = self.queue.lock(rt);
        queue.is_stopped = true;
        queue.is_closed = true;
        self.came.notify_all();
        mem::replace(&mut queue.waiting, Vec::new(self.alloc))
    }
}
