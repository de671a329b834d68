//! The doors of a process that runs a chain: begin at `run_fronts`.

use crate::callers::Claim;
use crate::doors::{Door, Listener};
use crate::incoming::HELLO;
use crate::places::GREETINGS;
use crate::run::{Operator, listen, local_door};
use crate::sockets::shut;
use crate::timing::{ACCEPT_PAUSE, HELLO_LIMIT};
use epochs::{Arrival, Said, Switchboard};
use machine::{Machine, RunFault};
use std::io::{self, Read};
use std::net::{IpAddr, SocketAddr, TcpStream};
use std::os::unix::net::UnixListener;
use std::sync::{Mutex, Wait};
use std::thread;
use std::time::{Duration, Instant};

/// The addresses at which a process that runs a chain listens.
#[derive(Drop)]
pub struct Fronts {
    /// The address for links.
    pub links: SocketAddr,
    /// The address for clients.
    pub desk: SocketAddr,
    /// The listener for clients of this machine, if there is one.
    pub local: Option<UnixListener>,
    /// The hosts of the members, by their numbers; none if links are taken from any host.
    pub hosts: Option<Vec<IpAddr>>,
}

/// Takes links and clients of a chain in, and hands each to its epoch, until the operator ends it.
/// The operator runs the epochs.
///
/// # Errors
///
/// [`RunFault::Listen`] where one of the listeners can't be had, [`RunFault::Memory`] where a
/// thread can't, and what the operator says.
pub fn run_fronts<O: Operator, R: Machine>(
    rt: &R,
    board: &Switchboard,
    fronts: Fronts,
    operator: &mut O,
) -> Result<(), RunFault> {
    let Fronts {
        links,
        desk,
        local,
        hosts,
    } = fronts;
    let opened = FrontDoors {
        links: listen(rt, links, operator)?,
        desk: listen(rt, desk, operator)?,
        local: local_door(local)?,
        hosts,
    };
    let doors = &opened;
    operator.ready()?;
    thread::scope(thread::scope_env(), rt, |scope| -> Result<(), RunFault> {
        let (listener, hosts) = (&doors.links.listener, &doors.hosts);
        let links = scope
            .spawn(move || accept_links(rt, board, listener, hosts))
            .is_ok();
        run_desk(rt, board, operator, doors, links)
    })
}

/// Takes links in until the end. A thread of its own reads the Hello of each, at most 64 at once.
fn accept_links<R: Machine>(
    rt: &R,
    board: &Switchboard,
    listener: &Listener,
    hosts: &Option<Vec<IpAddr>>,
) {
    let greeters = Mutex::new(Greeters {
        waiting: Vec::new(board.alloc()),
        next: 0,
    });
    let (greeters, share) = (&greeters, share_of(hosts));
    thread::scope(thread::scope_env(), rt, |scope| {
        for _ in 0..u64::MAX {
            let Some(Arrival { socket, host, .. }) = next_arrival(rt, board, listener) else {
                break;
            };
            if !is_let_in(hosts, host) {
                continue;
            }
            let Some(number) = greeters.lock(rt).enter(host, &socket, share) else {
                continue;
            };
            let greets = move || {
                hand_on(rt, board, hosts, socket, host);
                greeters.lock(rt).leave(number);
            };
            if scope.spawn(greets).is_err() {
                greeters.lock(rt).leave(number);
            }
        }
        greeters.lock(rt).shut();
    });
}

/// The links whose Hello is awaited. Each has a number of its own.
#[derive(Drop)]
struct Greeters {
    waiting: Vec<Greeter>,
    next: u64,
}

impl Greeters {
    /// One more greets from the host, and this is its number. `None` if as many as its share do
    /// already, or 64 in all, or if the system refuses a copy of its socket.
    fn enter(&mut self, host: IpAddr, socket: &TcpStream, share: usize) -> Option<u64> {
        let from_there = self.waiting.iter().filter(|one| one.host == host).count();
        if self.waiting.len() >= GREETINGS as usize || from_there >= share {
            return None;
        }
        let Ok(socket) = socket.try_clone() else {
            return None;
        };
        let number = self.next;
        self.next = number.wrapping_add(1);
        let greeter = Greeter {
            number,
            host,
            socket,
        };
        if self.waiting.push(greeter).is_err() {
            return None;
        }
        Some(number)
    }

    /// The one of that number has greeted, or has gone.
    fn leave(&mut self, number: u64) {
        if let Some(at) = self.waiting.iter().position(|one| one.number == number) {
            if at < self.waiting.len() {
                self.waiting.swap_remove(at);
            }
        }
    }

    /// Shuts all of their sockets down, so that nobody is waited for.
    fn shut(&self) {
        for one in &self.waiting {
            shut(&one.socket);
        }
    }
}

/// A link whose Hello is awaited.
#[derive(Drop)]
struct Greeter {
    number: u64,
    host: IpAddr,
    /// A copy of its socket, by which the end shuts it down.
    socket: TcpStream,
}

/// Returns how many links a host may have that are to greet: an equal share for each of the
/// members' hosts.
fn share_of(hosts: &Option<Vec<IpAddr>>) -> usize {
    let Some(hosts) = hosts else {
        return GREETINGS as usize;
    };
    let mut distinct = 0usize;
    for (at, host) in hosts.iter().enumerate() {
        if hosts.iter().position(|one| *one == *host) == Some(at) {
            distinct = distinct.saturating_add(1);
        }
    }
    GREETINGS as usize / distinct.max(1)
}

/// Returns `true` if links are taken from this host.
fn is_let_in(hosts: &Option<Vec<IpAddr>>, host: IpAddr) -> bool {
    match hosts {
        Some(hosts) => hosts.iter().any(|one| *one == host),
        None => true,
    }
}

/// Reads the Hello of a link, and hands the link to the epoch of its cluster. It is closed if its
/// host may not speak for the member that the Hello names.
fn hand_on<R: Machine>(
    rt: &R,
    board: &Switchboard,
    hosts: &Option<Vec<IpAddr>>,
    mut socket: TcpStream,
    host: IpAddr,
) {
    let mut hello = [0u8; HELLO];
    if !is_read_in_time(rt, &mut socket, &mut hello) {
        return;
    }
    let Some(claim) = Claim::read(hello.as_slice()) else {
        return;
    };
    if !may_greet(hosts, claim.from, host) {
        return;
    }
    let mut said = Said::nothing();
    said.extend(hello.as_slice());
    let arrival = Arrival { socket, host, said };
    board.hand_link(rt, claim.cluster, claim.from, arrival);
}

/// Fills the buffer from the link, within ten seconds in all. Returns `false` if that takes longer,
/// or the link ends.
fn is_read_in_time<R: Machine>(rt: &R, socket: &mut TcpStream, hello: &mut [u8]) -> bool {
    let Ok(begun) = Instant::now(rt) else {
        return false;
    };
    let mut read = 0usize;
    for _ in 0..HELLO {
        if !limits_read(rt, socket, begun) {
            return false;
        }
        let Some(rest) = hello.get_mut(read..) else {
            return false;
        };
        match socket.read(rest) {
            Err(error) if error.kind() == io::ErrorKind::Interrupted => {}
            Ok(0) | Err(_) => return false,
            Ok(count) => read = read.saturating_add(count),
        }
        if read >= hello.len() {
            return true;
        }
    }
    false
}

/// Lets the next read of the link take what is left of ten seconds since `begun`. Returns `false`
/// if nothing is.
fn limits_read<R: Machine>(rt: &R, socket: &TcpStream, begun: Instant) -> bool {
    let Ok(passed) = begun.elapsed(rt) else {
        return false;
    };
    let left = Duration::from_secs(HELLO_LIMIT).saturating_sub(passed);
    !left.is_zero() && socket.set_read_timeout(Some(left)).is_ok()
}

/// Returns `true` if that member's links are taken from this host.
fn may_greet(hosts: &Option<Vec<IpAddr>>, member: u8, host: IpAddr) -> bool {
    match hosts {
        Some(hosts) => hosts.get(usize::from(member)) == Some(&host),
        None => true,
    }
}

/// Takes clients in until the operator ends the chain, where links are taken in. Ends all threads.
fn run_desk<O: Operator, R: Machine>(
    rt: &R,
    board: &Switchboard,
    operator: &mut O,
    doors: &FrontDoors,
    started: bool,
) -> Result<(), RunFault> {
    thread::scope(thread::scope_env(), rt, |scope| -> Result<(), RunFault> {
        let listener = &doors.desk.listener;
        let clients = scope
            .spawn(move || accept_clients(rt, board, listener))
            .is_ok();
        run_local(rt, board, operator, doors, started && clients)
    })
}

/// Takes clients of this machine in, if they have a door, and waits for the operator to end the
/// chain, where all other threads were started. Ends all threads.
fn run_local<O: Operator, R: Machine>(
    rt: &R,
    board: &Switchboard,
    operator: &mut O,
    doors: &FrontDoors,
    started: bool,
) -> Result<(), RunFault> {
    thread::scope(thread::scope_env(), rt, |scope| -> Result<(), RunFault> {
        let locals = match &doors.local {
            Some(door) => {
                let listener = &door.listener;
                scope
                    .spawn(move || accept_clients(rt, board, listener))
                    .is_ok()
            }
            None => true,
        };
        let end = if started && locals {
            operator.until_end()
        } else {
            operator.unstarted();
            Err(RunFault::Memory)
        };
        board.end(rt);
        doors.shut(rt);
        end
    })
}

/// The doors of the process.
#[derive(Drop)]
struct FrontDoors {
    links: Door,
    desk: Door,
    local: Option<Door>,
    hosts: Option<Vec<IpAddr>>,
}

impl FrontDoors {
    /// Shuts them down.
    fn shut<R: Machine>(&self, rt: &R) {
        self.links.shut(rt);
        self.desk.shut(rt);
        if let Some(local) = &self.local {
            local.shut(rt);
        }
    }
}

/// Takes clients in until the end, and hands each to the newest epoch.
fn accept_clients<R: Machine>(rt: &R, board: &Switchboard, listener: &Listener) {
    for _ in 0..u64::MAX {
        let Some(arrival) = next_arrival(rt, board, listener) else {
            return;
        };
        board.hand_client(rt, None, arrival);
    }
}

/// Returns the next connection; none at the end.
fn next_arrival<R: Machine>(rt: &R, board: &Switchboard, listener: &Listener) -> Option<Arrival> {
    for _ in rt.forever() {
        if board.is_ended() {
            return None;
        }
        match listener.accept(rt) {
            Ok(arrival) => return Some(arrival),
            // The listener was shut down, or the system has no descriptor left.
            Err(_) => thread::sleep(rt, Duration::from_millis(ACCEPT_PAUSE)),
        }
    }
    unreachable!()
}
