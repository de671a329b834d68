//! The connections of a gateway's clients, and its start: begin at `open`.

ghost use Rattle.std.specs.Prelude.{◌≡◌, ◌≢◌, ◌*◌, OnErr, OnOk};
ghost use Rattle.std.specs.Duration.{as_nanos};
ghost use Rattle.std.specs.Io.{ReadsAtMost, WritesAtMost};
ghost use Rattle.portal.specs.Times.{time_for};

use crate::asking::ask_on;
use crate::book::Book;
use crate::deadline::Deadline;
use crate::door::Door;
use crate::following::follow_on;
use crate::handed::Handed;
use crate::lines::{read_from, write_all, write_to};
use crate::reach::Reach;
use crate::shared::Shared;
use crate::streaming::serve_follower;
use gateway::{Position, Scope};
use ghost_record::GhostRecord;
use http_server::{Config, Connection};
use std::alloc::{AllocError, Global};
use std::hash::RandomState;
use std::io::{self, Read, Write};
use std::net::{Net, SocketAddr, TcpListener, TcpStream};
use std::sync::atomic::{AtomicBool, AtomicU64, Ordering};
use std::sync::{Arc, Condvar, Mutex, Wait};
use std::thread::{self, Threads};
use std::time::{Clock, Duration};
use terms::Size;

/// The most connections.
const MOST_CLIENTS: u64 = 256;

/// The most bytes of a body.
const LONGEST_BODY: usize = 4096;

/// The milliseconds in which a request has to come.
const TO_COME: u64 = 10_000;

/// The milliseconds in which the answers to requests have to be taken.
const TO_TAKE: u64 = 60_000;

/// The answer to a connection beyond the most.
const FULL: &[u8] =
    b"HTTP/1.1 503 Service Unavailable\r\ncontent-type: application/json\r\ncontent-length: 17\r\nconnection: close\r\n\r\n{\"error\":\"busy\"}\n";

/// The answer to a head that doesn't come.
const LATE: &[u8] =
    b"HTTP/1.1 408 Request Timeout\r\ncontent-type: application/json\r\ncontent-length: 17\r\nconnection: close\r\n\r\n{\"error\":\"late\"}\n";

/// A runtime of which each thread may take a copy, and that speaks TCP.
pub trait Runner: Wait
    + Threads
    + Sync
    + Clock
    + Net<Stream = TcpStream, Listener = TcpListener>
    + Copy
    + Send
    + 'static {}

impl<
    R: Wait
        + Threads
        + Sync
        + Clock
        + Net<Stream = TcpStream, Listener = TcpListener>
        + Copy
        + Send
        + 'static,
> Runner for R {}

/// The settings of a gateway.
#[derive(Drop)]
pub struct Opening {
    /// The cluster's number.
    pub cluster: u64,
    /// The cluster's size, or that of each of the chain.
    pub size: Size,
    /// Set if the members run a chain of epochs.
    pub chain: bool,
    /// The members' desks, in the order of the members.
    pub desks: Vec<SocketAddr>,
    /// The address at which the gateway listens.
    pub listen: SocketAddr,
    /// The token that a proposal must show; empty if none is needed.
    pub token: Vec<u8>,
    /// A number that nobody knows.
    pub life: u64,
    /// Keys that nobody knows.
    pub keys: RandomState,
}

/// The reason why a gateway doesn't start.
#[derive(Debug, Drop)]
pub enum OpeningFault {
    /// The address can't be listened at.
    Listen(io::Error),
    /// Memory was refused.
    Memory,
    /// The system starts no thread.
    Thread,
}

/// A gateway that runs.
#[derive(Drop)]
pub struct Portal {
    shared: Arc<Shared>,
}

impl Portal {
    /// Ends all threads.
    pub fn end(&self) {
        self.shared.over.store(true, Ordering::SeqCst);
        self.shared.changed.notify_all();
    }
}

/// Starts a gateway: it listens, follows every member, and serves its clients in threads of their
/// own.
///
/// # Errors
///
/// - [`OpeningFault::Listen`] if the address can't be listened at;
/// - [`OpeningFault::Memory`] if an allocation failed;
/// - [`OpeningFault::Thread`] if the system starts no thread.
pub fn open<R: Runner>(rt: &R, alloc: Global, opening: Opening) -> Result<Portal, OpeningFault> {
    let listener = match TcpListener::bind(rt, opening.listen) {
        Ok(listener) => listener,
        Err(error) => return Err(OpeningFault::Listen(error)),
    };
    let n = opening.size.n();
    let Ok(shared) = new_shared(alloc, opening) else {
        return Err(OpeningFault::Memory);
    };
    let Ok(shared) = Arc::new(alloc, shared) else {
        return Err(OpeningFault::Memory);
    };
    for member in 0..n {
        start_member(rt, &shared, member)?;
    }
    start_accepting(rt, &shared, listener)?;
    Ok(Portal { shared })
}

/// Returns what the threads share.
fn new_shared(alloc: Global, opening: Opening) -> Result<Shared, AllocError> {
    let Opening {
        cluster,
        size,
        chain,
        desks,
        listen,
        token,
        life,
        keys,
    } = opening;
    let scope = Scope { size, chain };
    Ok(Shared {
        alloc,
        cluster,
        scope,
        desks,
        port: listen.port(),
        local: listen.ip().is_loopback(),
        token,
        life,
        keys,
        book: Mutex::new(Book::new(alloc, scope)?),
        changed: Condvar::new(),
        over: AtomicBool::new(false),
        clients: AtomicU64::new(0),
        streams: AtomicU64::new(0),
        fetches: AtomicU64::new(0),
        turns: AtomicU64::new(0),
    })
}

/// Starts the two threads of a member.
fn start_member<R: Runner>(rt: &R, shared: &Arc<Shared>, member: u8) -> Result<(), OpeningFault> {
    let first: Result<Arc<Shared>, AllocError> = shared.clone();
    let second: Result<Arc<Shared>, AllocError> = shared.clone();
    let (Ok(first), Ok(second)) = (first, second) else {
        return Err(OpeningFault::Memory);
    };
    let own = *rt;
    if thread::spawn(rt, move || follow_on(own, first, member)).is_err() {
        return Err(OpeningFault::Thread);
    }
    let own = *rt;
    if thread::spawn(rt, move || ask_on(own, second, member)).is_err() {
        return Err(OpeningFault::Thread);
    }
    Ok(())
}

/// Starts the thread that takes clients in.
fn start_accepting<R: Runner>(
    rt: &R,
    shared: &Arc<Shared>,
    listener: TcpListener,
) -> Result<(), OpeningFault> {
    let theirs: Result<Arc<Shared>, AllocError> = shared.clone();
    let Ok(theirs) = theirs else {
        return Err(OpeningFault::Memory);
    };
    let own = *rt;
    if thread::spawn(rt, move || accept_on(own, theirs, listener)).is_err() {
        return Err(OpeningFault::Thread);
    }
    Ok(())
}

/// Takes clients in, until the gateway ends.
fn accept_on<R: Runner>(rt: R, shared: Arc<Shared>, listener: TcpListener) {
    for _ in 0..u64::MAX {
        match listener.accept() {
            Ok((socket, _from)) => admit(&rt, &shared, socket),
            Err(_) => thread::sleep(&rt, Duration::from_millis(50)),
        }
        if shared.is_over() {
            return;
        }
    }
}

/// Lets a client in, in a thread of its own, if there aren't too many.
fn admit<R: Runner>(rt: &R, shared: &Arc<Shared>, socket: TcpStream) {
    if shared.clients.fetch_add(1, Ordering::SeqCst) >= MOST_CLIENTS {
        shared.clients.fetch_sub(1, Ordering::SeqCst);
        shared.book.lock(rt).count_refusal();
        let _untold = turn_away(rt, &socket).is_err();
        return;
    }
    let theirs: Result<Arc<Shared>, AllocError> = shared.clone();
    let Ok(theirs) = theirs else {
        shared.clients.fetch_sub(1, Ordering::SeqCst);
        return;
    };
    let own = *rt;
    if thread::spawn(rt, move || client_thread(own, theirs, socket)).is_err() {
        shared.clients.fetch_sub(1, Ordering::SeqCst);
    }
}

/// Tells a client that there are too many.
fn turn_away<R: Runner>(rt: &R, socket: &TcpStream) -> io::Result<()> {
    write_all(rt, socket, FULL, Deadline::new(rt, 1000)?)
}

/// One client's thread.
fn client_thread<R: Runner>(rt: R, shared: Arc<Shared>, socket: TcpStream) {
    let shared: &Shared = &shared;
    let _ended = serve_client(&rt, shared, &socket).is_err();
    shared.clients.fetch_sub(1, Ordering::SeqCst);
}

/// Serves a client until it goes.
fn serve_client<R: Runner>(rt: &R, shared: &Shared, socket: &TcpStream) -> io::Result<()> {
    socket.set_nodelay(true)?;
    match converse(rt, shared, socket) {
        Ok(Some(from)) => serve_follower(rt, shared, socket, from),
        Ok(None) => Ok(()),
        Err(error) => {
            if error.kind() == io::ErrorKind::TimedOut
                || error.kind() == io::ErrorKind::WouldBlock
            {
                return write_all(rt, socket, LATE, Deadline::new(rt, 1000)?);
            }
            Err(error)
        }
    }
}

/// Serves requests over a connection, until it is done. Returns the position of a follower, once
/// one asks for the stream.
fn converse<R: Runner>(
    rt: &R,
    shared: &Shared,
    socket: &TcpStream,
) -> io::Result<Option<Option<Position>>> {
    let deadline = Deadline::new(rt, TO_COME)?;
    let mut connection = Connection::new(shared.alloc, shared.keys, config());
    let mut door = Door {
        alloc: shared.alloc,
        policy: shared.policy(),
        scope: shared.scope,
        cluster: Reach {
            rt,
            shared,
            handed: GhostRecord::new(),
        },
        follow: None,
    };
    let mut timed = Timed {
        rt,
        socket,
        deadline,
        writes: false,
    };
    talk(&mut connection, &mut door, &mut timed)?;
    Ok(door.follow)
}

/// Returns the limits of a connection. A request is looked at once each answer before it was taken:
/// none is lost if it asks for the stream of events.
fn config() -> Config {
    let mut config = Config::default();
    config.max_body_len = LONGEST_BODY;
    config.max_pending = 0;
    config.read_size = 2048;
    config
}

/// Serves requests over a connection, until it is done.
fn talk<R: Runner>(
    connection: &mut Connection,
    door: &mut Door<'_, Reach<'_, R>>,
    timed: &mut Timed<'_, R>,
) -> io::Result<()> {
    for _ in 0..u64::MAX {
        if answer_some(connection, door) {
            return Ok(());
        }
        move_some(connection, timed)?;
    }
    Ok(())
}

/// Answers what was read. Returns `true` once the connection is done.
fn answer_some<R: Runner>(connection: &mut Connection, door: &mut Door<'_, Reach<'_, R>>) -> bool {
    connection.advance(door);
    door.follow.is_some() || door.cluster.shared.is_over() || connection.is_done()
}

/// Writes or reads, as the connection wants.
fn move_some<R: Clock + 'static>(
    connection: &mut Connection,
    timed: &mut Timed<'_, R>,
) -> io::Result<()> {
    if connection.wants_write() {
        write_some(connection, timed)
    } else {
        read_some(connection, timed)
    }
}

/// Writes some of what is pending. No error is told to the client: it would stand amid an answer.
fn write_some<R: Clock + 'static>(
    connection: &mut Connection,
    timed: &mut Timed<'_, R>,
) -> io::Result<()> {
    timed.turn(true)?;
    let written = connection.write_to(timed).unwrap_or(0);
    if written == 0 {
        return Err(io::Error::from(io::ErrorKind::WriteZero));
    }
    Ok(())
}

/// Reads some of the next request.
fn read_some<R: Clock + 'static>(
    connection: &mut Connection,
    timed: &mut Timed<'_, R>,
) -> io::Result<()> {
    timed.turn(false)?;
    let _read = connection.read_from(timed)?;
    Ok(())
}

/// A connection of a client, with the time in which its next request has to come.
#[derive(Drop)]
struct Timed<'a, R: 'static> {
    rt: &'a R,
    socket: &'a TcpStream,
    deadline: Deadline,
    /// Set while answers are written.
    writes: bool,
}

impl<'a, R: Clock + 'static> Read for Timed<'a, R> {
    fn read(&mut self, piece: &mut [u8]) -> io::Result<usize> {
        let limit = self.deadline.left(self.rt)?;
        self.socket.set_read_timeout(Some(limit))?;
        read_from(self.socket, piece)
    }
}

impl<'a, R: Clock + 'static> Write for Timed<'a, R> {
    fn write(&mut self, piece: &[u8]) -> io::Result<usize> {
        let limit = self.deadline.left(self.rt)?;
        self.socket.set_write_timeout(Some(limit))?;
        write_to(self.socket, piece)
    }

    fn flush(&mut self) -> io::Result<()> {
        Ok(())
    }
}

impl<'a, R: Clock + 'static> Timed<'a, R> {
    /// Begins the time anew, in which a request has to come or answers have to be taken, unless it
    /// runs.
    fn turn(&mut self, writes: bool) -> io::Result<()>
        ensures runs { self.old.writes ≡ writes → self.new ≡ self.old }
        ensures begins { self.old.writes ≢ writes →
            OnOk result (as_nanos self.new.deadline.whole ≡ time_for writes * 1_000_000) }
        ensures side { OnOk result (self.new.writes ≡ writes) }
        ensures fault { OnErr result (self.new ≡ self.old) }
        ensures rest { self.new ≡ record self.old {
          deadline = self.new.deadline;
          writes = self.new.writes;
        } }
    {
        if self.writes == writes {
            return Ok(());
        }
        let limit = if writes { TO_TAKE } else { TO_COME };
        self.deadline = Deadline::new(self.rt, limit)?;
        self.writes = writes;
        Ok(())
    }
}
