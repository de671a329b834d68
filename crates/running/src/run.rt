//! The life of a member, from its opening to its end: begin at `run_member`.

ghost use Rattle.std.specs.Prelude.{◌≡◌, ◌*◌, ◌+◌, ◌<◌, ◌^◌, [], false, length, IfOk};
ghost use Rattle.member.specs.Sound.{HasItsFile, IsSound};
ghost use Rattle.member.specs.Readers.{member_header, member_saved, member_is_stopped, MemberStandsFor};
ghost use Rattle.node.specs.Books.{IsReplayed};

use crate::admission::Admission;
use crate::ahead::{Ahead, Welcomes};
use crate::clients::accept_clients;
use crate::clock::RunClock;
use crate::doors::{Door, Doors, Listener};
use crate::ending::Ending;
use crate::epoch::InChain;
use crate::events::LogEvent;
use crate::followers::Followers;
use crate::hosts::{Hosts, Peers};
use crate::incoming::Seats;
use crate::life::Life;
use crate::linking::accept_links;
use crate::log::Log;
use crate::logger::Logger;
use crate::shared::Shared;
use crate::threads::{can_start, least_threads};
use crate::timing::LAST_LOOKS;
use crate::tossers::lock_tossers;
use crate::watch::Telling;
use desk::Turns;
use disk::Disk;
use machine::{Machine, RunFault};
use member::Member;
use node::{Ended, Hub, NewBoard, close};
use std::alloc::Global;
use std::marker::Brand;
use std::net::{SocketAddr, TcpListener};
use std::os::unix::net::UnixListener;
use std::sync::{Condvar, Mutex, Wait};
use std::{io, thread};
use terms::Memory;

/// The addresses at which the members listen, and the hosts that are let in.
#[derive(Drop)]
pub struct Addresses {
    /// The link address of each member, by its number. Each is dialled, the own one too.
    pub peers: Vec<SocketAddr>,
    /// The address at which links are listened for, if that isn't the own address of `peers`.
    pub listen: Option<SocketAddr>,
    /// The hosts from which the members' links are taken.
    pub hosts: Hosts,
    /// The own address for clients.
    pub desk: SocketAddr,
    /// The listener for clients of this machine, by the rights of a file, if there is one.
    pub local: Option<UnixListener>,
    /// The most clients that are let in at once, 1 to 32. Another number counts as the nearer of
    /// these.
    pub clients: u8,
    /// The most clients that follow decisions at once, 0 to 1,024. A higher number counts as 1,024.
    pub followers: u16,
    /// The most seconds that the member listens before it speaks, 0 for not at all.
    pub patience: u64,
    /// The epoch of the member, if it is one of a chain. Then nothing is listened for here: its
    /// links and clients come in at the epoch's doors.
    pub chain: Option<InChain>,
}

/// An operator, who starts a member and says when it ends.
pub trait Operator {
    ghost use Rattle.std.specs.Prelude.{ℕ, List};

    /// The seeds that the member may toss from. An operator that says nothing of it takes any.
    ghost may_toss_from: { Self → List ℕ → Type 0 } = { λ _ _. Unit {0} };

    /// Tells that both listeners stand. Threads start when it returns; where it fails the run ends
    /// with its fault.
    fn ready(&mut self) -> Result<(), RunFault>;

    /// Returns when the member is to end. Where it fails the member ends too, and the run with its
    /// fault.
    fn until_end(&mut self) -> Result<(), RunFault>;

    /// Tells why the member can't listen at this address. The run ends with [`RunFault::Listen`]
    /// then.
    fn unheard(&mut self, _address: SocketAddr, _error: &io::Error) {}

    /// Tells that the system refused a thread without which the member can't run. The run ends with
    /// [`RunFault::Memory`] then.
    fn unstarted(&mut self) {}
}

impl<D: Disk, J: Life> Shared<D, J> {
    /// Begins the log: from now on it is told what happens, and first that the member is ready.
    fn begin_log<R: Machine>(&self, rt: &R) -> Result<(), Memory> {
        let book = self.hub.lock(rt);
        let telling = Telling::new(self.alloc, &book)?;
        self.logger.begin(rt, telling);
        self.logger.put(rt, LogEvent::Ready(self.hub.header().me()));
        Ok(())
    }

    /// Tells what is left to tell when all threads have ended, and the end.
    fn end_log<L: Log, R: Machine>(&self, rt: &R, log: &Mutex<L>) {
        for _ in 0..LAST_LOOKS {
            self.log_book(rt);
            self.logger.tell(rt, self.alloc, log);
        }
        self.logger.put_due(rt, u64::MAX);
        self.logger.tell(rt, self.alloc, log);
        log.lock(rt).tell(&LogEvent::End);
    }
}

/// A member that was just opened, and what its run takes.
#[derive(Drop)]
pub struct Start<D: Disk + Drop> {
    /// The member.
    pub member: Member<D>,
    /// The addresses at which it listens, and those of its peers.
    pub addresses: Addresses,
    /// The seed of all that its links and its desk toss.
    pub seed: [u8; 32],
}

/// Runs a member that was just opened, over any disk, until its operator ends it.
///
/// It listens at its own two addresses, tries whether the system gives it its threads, tells the
/// operator that it is ready, and then starts them: a clock, a dialler for each member, one that
/// takes links in and one that takes clients in, one for each of these, and one that tells all
/// clients that follow decisions. The threads of links, in turn, have the book hear what all of
/// them hand in. At the end all threads end, and with them every connection.
///
/// **It listens before it speaks**: it makes no record, and answers no proposal, before n - t - 1
/// other members have welcomed it, or the seconds of its patience have passed. So a member whose
/// journal was lost is told by those that know more of it before it contradicts what it said. One
/// whose end comes before that says nothing, and doesn't count as stopped.
///
/// Where there is a log one thread more tells it the member's events, so that no other waits for
/// it. Past 1,024 events that wait to be told the next ones are counted and not kept. The last
/// event is the end, when all threads have ended.
///
/// # Errors
///
/// [`RunFault::Listen`], [`RunFault::Memory`] and what the operator says when it is told come
/// before any thread starts: `Memory` also where the system doesn't give as many threads as n - t
/// links, the doors and a client want. [`RunFault::Stopped`] is told at the end, where the member
/// is stopped by then, and [`RunFault::Forgotten`] where that is because more than t members have
/// heard more of it than its journal holds. [`RunFault::Torn`] is told at the end where what the
/// book heard of a link isn't what its sessions handed in, which no run has shown. After a fault
/// the member is gone with its threads; what it saved is on its disk.
///
/// Else it returns what is left of this life: the member, whose records are those that the rules
/// have for its history over the records that it was opened with.
///
/// All that its links and its desk toss comes from the seed, which the operator takes. Its records
/// are those of the file with which its disk began, so nobody wrote that file since the disk was
/// opened.
///
/// It may wait: for its operator, for locks and for its threads.
pub fn run_member<D: Disk + Drop + Send, O: Operator, L: Log + Send, R: Machine>(
    rt: &R,
    alloc: Global,
    start: Start<D>,
    operator: &mut O,
    log: Option<&Mutex<L>>,
) -> Result<Ended<D>, RunFault>
    requires seed { O.may_toss_from operator.old start.seed }
    requires sound { IsSound D.Disk start.member }
    requires fresh { member_is_stopped start.member ≡ false →
        MemberStandsFor start.member (member_saved start.member) [] }
    requires begun { HasItsFile D.Disk start.member }
    ensures opening { IfOk result (λ ended. ended.opening ≡ member_saved start.member) }
    ensures header { IfOk result
        (λ ended. member_header ended.member ≡ member_header start.member) }
    ensures replay { IfOk result
        (λ ended. IsReplayed ended.member ended.opening ended.history) }
{
    let Start {
        member,
        addresses,
        seed,
    } = start;
    let mut addresses = addresses;
    let doors = doors_of(rt, operator, &mut addresses, member.header().me())?;
    let board = NewBoard::new(alloc, member.header().size().questions())?;
    let Addresses {
        peers,
        hosts,
        clients,
        followers,
        patience,
        chain,
        ..
    } = addresses;
    let opened = Opened {
        alloc,
        member,
        board,
        addresses: peers,
        hosts,
        clients,
        followers,
        patience,
        chain,
        seed,
    };
    run_named::<D, Brand, O, L, R>(rt, opened, doors, operator, log)
}

/// Opens the doors of the member of that number. The door of clients of this machine takes its
/// listener out.
fn doors_of<O: Operator, R: Machine>(
    rt: &R,
    operator: &mut O,
    addresses: &mut Addresses,
    me: u8,
) -> Result<Doors, RunFault>
    ensures { IfOk result (λ _. operator.new ≡ operator.old) }
{
    let Some(own) = addresses.peers.get(usize::from(me)) else {
        return Err(RunFault::Listen);
    };
    if let Some(chain) = &addresses.chain {
        return epoch_doors(chain);
    }
    let links = addresses.listen.unwrap_or(*own);
    Ok(Doors {
        links: listen(rt, links, operator)?,
        desk: listen(rt, addresses.desk, operator)?,
        local: local_door(addresses.local.take())?,
    })
}

/// The doors of an epoch.
fn epoch_doors(chain: &InChain) -> Result<Doors, RunFault> {
    let epochs::Doors { links, clients } = chain.doors.share()?;
    let (Ok(links), Ok(desk)) = (
        Door::new(Listener::Epoch(links)),
        Door::new(Listener::Epoch(clients)),
    ) else {
        return Err(RunFault::Listen);
    };
    Ok(Doors {
        links,
        desk,
        local: None,
    })
}

/// Runs a member whose board has been named.
fn run_named<D: Disk + Drop + Send, J: Life + Send + Sync, O: Operator, L: Log + Send, R: Machine>(
    rt: &R,
    opened: Opened<D>,
    doors: Doors,
    operator: &mut O,
    log: Option<&Mutex<L>>,
) -> Result<Ended<D>, RunFault>
    requires may_toss { O.may_toss_from operator.old J.seed }
    requires addresses { opened.addresses.items ≡ J.addresses }
    requires hosts { opened.hosts ≡ J.hosts }
    requires seed { opened.seed ≡ J.seed }
    requires sound { IsSound D.Disk opened.member }
    requires fresh { member_is_stopped opened.member ≡ false →
        MemberStandsFor opened.member (member_saved opened.member) [] }
    requires header { member_header opened.member ≡ J.header }
    requires opening { member_saved opened.member ≡ J.opening }
    requires board { opened.board ≡ J.names }
    requires cells { length opened.board.cells ≡ (member_header opened.member).size.questions }
    ensures opening { IfOk result (λ ended. ended.opening ≡ J.opening) }
    ensures header { IfOk result (λ ended. member_header ended.member ≡ J.header) }
    ensures replay { IfOk result
        (λ ended. IsReplayed ended.member ended.opening ended.history) }
{
    let shared = share::<D, J>(opened)?;
    run_shared(rt, operator, log, &shared, &doors)?;
    settle(shared)
}

/// Makes what the threads of a member share that was just opened. Its peers and its tosses are
/// those that the run was given.
fn share<D: Disk + Drop, J: Life>(opened: Opened<D>) -> Result<Shared<D, J>, Memory>
    requires addresses { opened.addresses.items ≡ J.addresses }
    requires hosts { opened.hosts ≡ J.hosts }
    requires seed { opened.seed ≡ J.seed }
    requires sound { IsSound D.Disk opened.member }
    requires fresh { member_is_stopped opened.member ≡ false →
        MemberStandsFor opened.member (member_saved opened.member) [] }
    requires header { member_header opened.member ≡ J.header }
    requires opening { member_saved opened.member ≡ J.opening }
    requires board { opened.board ≡ J.names }
    requires cells { length opened.board.cells ≡ (member_header opened.member).size.questions }
{
    let Opened {
        alloc,
        member,
        board,
        addresses,
        hosts,
        clients,
        followers,
        patience,
        chain,
        seed,
    } = opened;
    let tossers = lock_tossers::<D, J>(alloc, seed, &member)?;
    let (hub, seats) = Hub::<D, J>::open(alloc, member, board)?;
    Ok(Shared {
        alloc,
        peers: Peers::new(addresses, hosts),
        hub,
        seats: Seats::new(seats),
        tossers,
        turns: Turns::new(),
        admission: Admission::new(alloc, clients),
        followers: Mutex::new(Followers::new(alloc, followers)),
        followed: Condvar::new(),
        ahead: Mutex::new(Ahead::nobody()),
        welcomes: Mutex::new(Welcomes::none()),
        patience,
        ending: Ending::new(),
        clock: RunClock::new(),
        logger: Logger::new(),
        chain,
    })
}

/// A member that was just opened, and what its run begins with: its board, where the members listen
/// and from where their links are taken, how many clients it lets in, and the seed of its tosses.
struct Opened<D: Disk> {
    alloc: Global,
    member: Member<D>,
    board: NewBoard,
    addresses: Vec<SocketAddr>,
    hosts: Hosts,
    clients: u8,
    followers: u16,
    patience: u64,
    chain: Option<InChain>,
    seed: [u8; 32],
}

/// Runs a member whose threads share this: tries whether the system gives them, tells the operator
/// that it is ready, and then starts them.
fn run_shared<D: Disk + Send, J: Life + Send + Sync, O: Operator, L: Log + Send, R: Machine>(
    rt: &R,
    operator: &mut O,
    log: Option<&Mutex<L>>,
    shared: &Shared<D, J>,
    doors: &Doors,
) -> Result<(), RunFault> {
    if log.is_some() {
        shared.begin_log(rt)?;
    }
    let size = shared.hub.header().size();
    if !can_start(
        rt,
        least_threads(size, log.is_some(), doors.local.is_some()),
    ) {
        operator.unstarted();
        return Err(RunFault::Memory);
    }
    shared.listen(rt);
    operator.ready()?;
    match log {
        Some(log) => run_logged(rt, operator, log, shared, doors)?,
        None => run_threads(rt, operator, shared, doors)?,
    }
    if shared.is_forgotten(rt) {
        return Err(RunFault::Forgotten);
    }
    if shared.hub.lock(rt).is_stopped() && !shared.ending.is_unheard() {
        return Err(RunFault::Stopped);
    }
    Ok(())
}

/// Runs all threads until the operator ends the member, and one more that tells the log what is to
/// be told. Where the system refuses that one all is told at the end.
fn run_logged<D: Disk + Send, J: Life + Send + Sync, O: Operator, L: Log + Send, R: Machine>(
    rt: &R,
    operator: &mut O,
    log: &Mutex<L>,
    shared: &Shared<D, J>,
    doors: &Doors,
) -> Result<(), RunFault> {
    let tells = || shared.tell_on(rt, log);
    let runs = || run_threads(rt, operator, shared, doors);
    let ((), ended) = thread::join(rt, tells, runs);
    shared.end_log(rt, log);
    ended
}

/// Dials each member, itself too, in a thread of its own, and runs the other threads until the
/// operator ends the member, where all of these were started. Ends all threads.
fn run_threads<D: Disk + Send, J: Life + Send + Sync, O: Operator, R: Machine>(
    rt: &R,
    operator: &mut O,
    shared: &Shared<D, J>,
    doors: &Doors,
) -> Result<(), RunFault> {
    thread::scope(thread::scope_env(), rt, |scope| -> Result<(), RunFault> {
        let mut peer = 0u8;
        for _ in 0..u64::MAX {
            let Some(address) = shared.address_of(peer) else {
                break;
            };
            if scope
                .spawn(move || shared.dial_on(rt, peer, address))
                .is_err()
            {
                break;
            }
            peer = peer.saturating_add(1);
        }
        run_clock(
            rt,
            operator,
            shared,
            doors,
            shared.address_of(peer).is_none(),
        )
    })
}

/// Runs the clock until the operator ends the member, where the diallers were started, and ends all
/// threads.
fn run_clock<D: Disk + Send, J: Life + Send + Sync, O: Operator, R: Machine>(
    rt: &R,
    operator: &mut O,
    shared: &Shared<D, J>,
    doors: &Doors,
    dials: bool,
) -> Result<(), RunFault> {
    thread::scope(thread::scope_env(), rt, |scope| -> Result<(), RunFault> {
        let clock = scope.spawn(move || shared.tick_on(rt)).is_ok();
        run_links(rt, operator, shared, doors, dials && clock)
    })
}

/// Takes links in until the operator ends the member, where all threads before were started, and
/// ends all threads.
fn run_links<D: Disk + Send, J: Life + Send + Sync, O: Operator, R: Machine>(
    rt: &R,
    operator: &mut O,
    shared: &Shared<D, J>,
    doors: &Doors,
    started: bool,
) -> Result<(), RunFault> {
    thread::scope(thread::scope_env(), rt, |scope| -> Result<(), RunFault> {
        let listener = &doors.links.listener;
        let links = scope
            .spawn(move || accept_links(rt, shared, listener))
            .is_ok();
        run_desk(rt, operator, shared, doors, started && links)
    })
}

/// Takes clients in until the operator ends the member, where all threads before were started, and
/// ends all threads.
fn run_desk<D: Disk + Send, J: Life + Send + Sync, O: Operator, R: Machine>(
    rt: &R,
    operator: &mut O,
    shared: &Shared<D, J>,
    doors: &Doors,
    started: bool,
) -> Result<(), RunFault> {
    thread::scope(thread::scope_env(), rt, |scope| -> Result<(), RunFault> {
        let listener = &doors.desk.listener;
        let clients = scope
            .spawn(move || accept_clients(rt, shared, listener))
            .is_ok();
        run_followers(rt, operator, shared, doors, started && clients)
    })
}

/// Tells followers until the operator ends the member, where all threads before were started, and
/// ends all threads.
fn run_followers<D: Disk + Send, J: Life + Send + Sync, O: Operator, R: Machine>(
    rt: &R,
    operator: &mut O,
    shared: &Shared<D, J>,
    doors: &Doors,
    started: bool,
) -> Result<(), RunFault> {
    thread::scope(thread::scope_env(), rt, |scope| -> Result<(), RunFault> {
        let tells = scope.spawn(move || shared.follow_on(rt)).is_ok();
        run_local(rt, operator, shared, doors, started && tells)
    })
}

/// Takes clients of this machine in, if they have a door, and waits for the operator to end the
/// member, where all other threads were started. Ends all threads.
fn run_local<D: Disk + Send, J: Life + Send + Sync, O: Operator, R: Machine>(
    rt: &R,
    operator: &mut O,
    shared: &Shared<D, J>,
    doors: &Doors,
    started: bool,
) -> Result<(), RunFault> {
    thread::scope(thread::scope_env(), rt, |scope| -> Result<(), RunFault> {
        let locals = match &doors.local {
            Some(door) => {
                let listener = &door.listener;
                scope
                    .spawn(move || accept_clients(rt, shared, listener))
                    .is_ok()
            }
            None => true,
        };
        let end = if started && locals {
            operator.until_end()
        } else {
            operator.unstarted();
            Err(RunFault::Memory)
        };
        doors.shut(rt);
        shared.close(rt);
        end
    })
}

/// Takes the book out of what the threads shared, once they have ended, and compares its history
/// with what the sessions of each link handed in.
///
/// # Errors
///
/// [`RunFault::Torn`]: they differ.
fn settle<D: Disk + Drop, J: Life>(shared: Shared<D, J>) -> Result<Ended<D>, RunFault>
    ensures opening { IfOk result (λ ended. ended.opening ≡ J.opening) }
    ensures header { IfOk result (λ ended. member_header ended.member ≡ J.header) }
    ensures replay { IfOk result
        (λ ended. IsReplayed ended.member ended.opening ended.history) }
{
    let (hub, seats) = shared.into_parts();
    match close(hub, seats.into_seats()) {
        Ok(closing) => Ok(closing.end()),
        Err(_) => Err(RunFault::Torn),
    }
}

/// Binds a listener. The operator is told why there is none.
pub(crate) fn listen<O: Operator, R: Machine>(
    rt: &R,
    address: SocketAddr,
    operator: &mut O,
) -> Result<Door, RunFault>
    ensures { IfOk result (λ _. operator.new ≡ operator.old) }
{
    match door(rt, address) {
        Ok(door) => Ok(door),
        Err(error) => {
            operator.unheard(address, &error);
            Err(RunFault::Listen)
        }
    }
}

/// The door of clients of this machine, if anything listens for them.
pub(crate) fn local_door(local: Option<UnixListener>) -> Result<Option<Door>, RunFault> {
    let Some(listener) = local else {
        return Ok(None);
    };
    match Door::new(Listener::Unix(listener)) {
        Ok(door) => Ok(Some(door)),
        Err(_) => Err(RunFault::Listen),
    }
}

/// A listener at this address, and what shuts it down.
fn door<R: Machine>(rt: &R, address: SocketAddr) -> io::Result<Door> {
    Door::new(Listener::Tcp(TcpListener::bind(rt, address)?))
}
