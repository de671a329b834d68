//! The command `run` of a member of a chain: begin at `run_chain`.

ghost use Rattle.member.specs.Sound.{HasItsFile, IsSound};
ghost use Rattle.member.specs.Readers.{member_saved, member_is_stopped, MemberStandsFor};
ghost use Rattle.std.specs.Prelude.{◌≡◌, [], false};

use crate::addresses::{addresses_of, dialled};
use crate::live::{Console, GONE, open_to_run, told_of_stop, trouble_of_threads};
use crate::log::{ErrorLog, LogForm};
use asking::socket_address;
use chain::{Chain, seed_of};
use disk::{Disk, Premise};
use epochs::{Doors, Halt, Switchboard, Verdicts};
use files::{
    Purpose, Source, Span, epoch_header, epoch_path, epochs_in, is_missing, look_into,
    make_journal, note_newest, open_good_disk, own_links, put_aside, refuse_forgotten,
    refuse_forgotten_in,
};
use machine::{Machine, RunFault};
use member::Member;
use process::Watched;
use running::{Addresses, Fronts, InChain, Operator, Start, run_fronts, run_member};
use settings::Settings;
use std::alloc::{AllocError, Global};
use std::fs::File;
use std::marker::Brand;
use std::net::{IpAddr, SocketAddr};
use std::os::unix::net::UnixListener;
use std::sync::atomic::{AtomicBool, Ordering};
use std::sync::{Arc, Mutex, Wait};
use std::time::Duration;
use std::{io, thread};
use terms::{Header, Memory};
use troubles::{Failure, Fault, Trouble, Whereabouts, trouble_of};

/// The most times that an epoch tries to begin while the process has too few files left.
const FILE_TRIES: u32 = 120;

/// The number of files that are enough for the begin of an epoch.
const FILES: u32 = 8;

/// The things that the epochs of a process were given.
#[derive(Drop)]
pub(crate) struct Chained<'a> {
    host: HostRuntime,
    settings: &'a Settings,
    folder: &'a str,
    board: Arc<Switchboard>,
    form: LogForm,
    any_host: bool,
    clients: u8,
    followers: u16,
    /// The number of epochs whose journals were made. They are made in order, so that none is left
    /// out.
    made: Mutex<u64>,
    /// The failure of the first epoch that failed, which ends the others.
    failed: Mutex<Option<Failure>>,
    /// Set once links and clients are taken in.
    listens: AtomicBool,
    /// Set where the system refused a thread without which none are.
    unstarted: AtomicBool,
}

impl Chained<'_> {
    /// Runs an epoch to its end, in a thread of its own. Where it fails all epochs end.
    fn run_epoch<R: Machine>(&self, rt: &R, epoch: u64, doors: Doors) {
        let verdicts = match self.run_one(rt, epoch, doors) {
            Ok(verdicts) => verdicts,
            Err(failure) => {
                self.fail(rt, failure);
                Verdicts::gone(self.host.alloc())
            }
        };
        self.board.leave(rt, epoch, verdicts);
    }

    /// Runs an epoch to its end, and returns how its questions were decided.
    fn run_one<R: Machine>(&self, rt: &R, number: u64, doors: Doors) -> Result<Verdicts, Failure> {
        let header = self.header(number)?;
        let path = epoch_path(self.host.alloc(), self.folder, number).map_err(|_| Fault::Memory)?;
        let epoch = Epoch {
            number,
            path: path.as_str(),
            header,
        };
        if self.is_put_away(rt, &epoch) {
            return Ok(Verdicts::gone(self.host.alloc()));
        }
        self.run_at::<R, Brand>(rt, &epoch, doors)?;
        match look_into(&self.host, path.as_str(), &header) {
            Err(_) if self.is_put_away(rt, &epoch) => Ok(Verdicts::gone(self.host.alloc())),
            found => found,
        }
    }

    /// Returns `true` if the journal of an epoch behind the newest was put away while the process
    /// runs. Such an epoch doesn't run: a peer that asks for it ends nothing.
    fn is_put_away<R: Machine>(&self, rt: &R, epoch: &Epoch<'_>) -> bool {
        let made = *self.made.lock(rt);
        let is_behind = epoch.number < made && epoch.number < self.board.newest(rt);
        is_behind && is_missing(&self.host, epoch.path)
    }

    /// Runs an epoch to its end. Its journal is made, if there is none.
    fn run_at<R: Machine, P: Premise + Send>(
        &self,
        rt: &R,
        epoch: &Epoch<'_>,
        doors: Doors,
    ) -> Result<(), Failure> {
        let host = &self.host;
        self.await_journal(rt, epoch)?;
        let (disk, source) = open_good_disk::<P>(host, epoch.path, Purpose::Run)?;
        let member = open_to_run(host, &source, disk, &epoch.header)?;
        let addresses = self
            .addresses_at(epoch.number, doors)
            .map_err(|_| Fault::Memory)?;
        self.run_opened(rt, epoch, &source, member, addresses)
    }

    /// Makes the journal of an epoch, if there is none, and waits until it can be opened, for half
    /// a minute at most: while the process has too few files left, as while many connections are to
    /// greet, this is tried again.
    fn await_journal<R: Machine>(&self, rt: &R, epoch: &Epoch<'_>) -> Result<(), Failure> {
        for _ in 0..FILE_TRIES {
            let begun = self.begin_journal(rt, epoch);
            if self.board.is_ended() || has_files(&self.host) {
                return begun;
            }
            thread::sleep(rt, Duration::from_millis(250));
        }
        self.begin_journal(rt, epoch)
    }

    /// Makes the journal of an epoch, if there is none. One beside a journal that was put aside is
    /// refused.
    fn begin_journal<R: Machine>(&self, rt: &R, epoch: &Epoch<'_>) -> Result<(), Failure> {
        refuse_forgotten(&self.host, epoch.path, epoch.header.me())?;
        self.make_journals(rt, epoch.number)
    }

    /// Makes the journals of the epochs up to this one that have none, one after the other, and
    /// notes each before its member says anything.
    fn make_journals<R: Machine>(&self, rt: &R, last: u64) -> Result<(), Failure> {
        let mut made = self.made.lock(rt);
        for epoch in *made..last.saturating_add(1) {
            let header = self.header(epoch)?;
            let path = epoch_path(self.host.alloc(), self.folder, epoch).map_err(
                |_| Fault::Memory,
            )?;
            make_journal::<Brand>(&self.host, path.as_str(), &header)?;
            note_newest(&self.host, self.folder, epoch)?;
            *made = epoch.saturating_add(1);
        }
        Ok(())
    }

    /// Returns the addresses of an epoch's member, whose links and clients come in at these doors.
    fn addresses_at(&self, epoch: u64, doors: Doors) -> Result<Addresses, Memory> {
        let alloc = self.host.alloc();
        let addresses = addresses_of(
            alloc,
            self.settings,
            self.any_host,
            self.clients,
            self.followers,
        )?;
        let board = self.board.clone()?;
        Ok(Addresses {
            chain: Some(InChain::new(board, epoch, doors)),
            ..addresses
        })
    }

    /// Runs the member of an epoch that was just opened, to its end.
    fn run_opened<R: Machine, D: Disk + Drop + Send>(
        &self,
        rt: &R,
        epoch: &Epoch<'_>,
        source: &Source<'_>,
        member: Member<D>,
        addresses: Addresses,
    ) -> Result<(), Failure>
        requires sound { IsSound D.Disk member }
        requires fresh { member_is_stopped member ≡ false →
            MemberStandsFor member (member_saved member) [] }
        requires begun { HasItsFile D.Disk member }
    {
        let alloc = self.host.alloc();
        let stopped = AtomicBool::new(false);
        let lines = Mutex::new(ErrorLog {
            clock: rt,
            alloc,
            errors: self.host.stderr(),
            form: self.form,
            stopped: &stopped,
            first_error: source.shared_error(),
            epoch: Some(epoch.number),
        });
        let mut operator = EpochOperator {
            rt,
            host: &self.host,
            board: &self.board,
            epoch: epoch.number,
            seed: &self.settings.seed,
            journal: Watched::new(&self.host, epoch.path),
            stopped: &stopped,
            trouble: None,
        };
        let start = Start {
            member,
            addresses,
            seed: seed_of(&self.settings.seed, epoch.number),
        };
        match run_member(rt, alloc, start, &mut operator, Some(&lines)) {
            Ok(_) => Ok(()),
            Err(fault) => Err(self.failure_of(epoch, source, fault, operator.trouble.take())),
        }
    }

    /// Returns the failure of an epoch whose run ended so, and of which its operator was told that.
    fn failure_of(
        &self,
        epoch: &Epoch<'_>,
        source: &Source<'_>,
        fault: RunFault,
        told: Option<Trouble>,
    ) -> Failure {
        let trouble = match fault {
            RunFault::Stopped => told_of_stop(self.host.alloc(), source, told),
            RunFault::Forgotten => put_aside(&self.host, epoch.path, epoch.header.me()),
            RunFault::Listen | RunFault::Memory | RunFault::Stream | RunFault::Torn => told,
        };
        Failure {
            fault: Fault::Run(fault),
            trouble,
        }
    }

    /// Notes the failure of an epoch, which ends the others.
    fn fail<R: Machine>(&self, rt: &R, failure: Failure) {
        let mut failed = self.failed.lock(rt);
        if failed.is_none() {
            *failed = Some(failure);
        }
        drop(failed);
        self.board.end(rt);
    }

    /// Adds the epochs whose journals are there, and those before them, which were put away.
    fn find_epochs<R: Machine>(&self, rt: &R) -> Result<(), Failure> {
        refuse_forgotten_in(&self.host, self.folder, self.settings.header.me())?;
        let Span { first, last } = epochs_in(&self.host, self.folder)?;
        for epoch in 0..last.saturating_add(1) {
            let verdicts = if epoch < first {
                Verdicts::gone(self.host.alloc())
            } else {
                self.verdicts_of(epoch)?
            };
            self.board.add(rt, verdicts).map_err(|_| Fault::Memory)?;
        }
        note_newest(&self.host, self.folder, last)?;
        *self.made.lock(rt) = last.saturating_add(1);
        Ok(())
    }

    /// Returns what the journal of an epoch says.
    fn verdicts_of(&self, epoch: u64) -> Result<Verdicts, Failure> {
        let header = self.header(epoch)?;
        let path = epoch_path(self.host.alloc(), self.folder, epoch).map_err(|_| Fault::Memory)?;
        look_into(&self.host, path.as_str(), &header)
    }

    /// Returns the header of an epoch's journal.
    fn header(&self, epoch: u64) -> Result<Header, Failure> {
        epoch_header(&self.host, self.settings, self.folder, epoch)
    }
}

/// Returns `true` if the system gives the process enough files for the begin of an epoch.
fn has_files(host: &HostRuntime) -> bool {
    let mut held = Vec::new(host.alloc());
    for _ in 0..FILES {
        let Ok(file) = File::open(host, "/") else {
            return false;
        };
        if held.push(file).is_err() {
            return false;
        }
    }
    true
}

/// An epoch, and its journal.
#[derive(Clone, Copy, Drop)]
struct Epoch<'a> {
    number: u64,
    path: &'a str,
    header: Header,
}

/// The operator of an epoch: it ends once it isn't needed, and in any case once its journal is
/// gone.
#[derive(Drop)]
struct EpochOperator<'a, R> {
    rt: &'a R,
    host: &'a HostRuntime,
    board: &'a Switchboard,
    epoch: u64,
    seed: &'a [u8; 32],
    /// The journal's file.
    journal: Watched<'a>,
    /// Set once the member is stopped, which ends it.
    stopped: &'a AtomicBool,
    /// The trouble of a journal that is gone.
    trouble: Option<Trouble>,
}

impl<R: Machine> Halt for EpochOperator<'_, R> {
    fn is_due(&self) -> bool {
        self.stopped.load(Ordering::SeqCst) || self.journal.is_replaced(self.host)
    }
}

impl<R: Machine> Operator for EpochOperator<'_, R> {
    ghost use Rattle.std.specs.Prelude.{◌≡◌, ◌++◌, codes};
    ghost use Rattle.std.specs.Int.{to_be_bytes, w64};
    ghost use Rattle.sha2.specs.Sha256.{sha256};

    // The coins of an epoch are its own.
    ghost may_toss_from = { λ operator seed.
        seed ≡ sha256 (codes "epoch" ++ (operator.seed.now ++ to_be_bytes w64 operator.epoch)) };

    fn ready(&mut self) -> Result<(), RunFault> {
        self.board.note_ready(self.rt, self.epoch);
        Ok(())
    }

    fn until_end(&mut self) -> Result<(), RunFault> {
        self.board.await_end(self.rt, self.epoch, &*self);
        if !self.journal.is_replaced(self.host) {
            return Ok(());
        }
        let path = self.journal.path();
        let is_behind = self.epoch < self.board.newest(self.rt);
        if is_behind && is_missing(self.host, path) {
            // The journal was put away.
            return Ok(());
        }
        self.trouble = trouble_of(self.host.alloc(), path, Whereabouts::Whole, &GONE);
        Err(RunFault::Stopped)
    }

    fn unstarted(&mut self) {
        self.trouble = trouble_of_threads(self.host.alloc());
    }
}

/// The order for a chain's run.
#[derive(Clone, Copy, Drop)]
pub(crate) struct ChainOrder<'a> {
    pub(crate) settings: &'a Settings,
    pub(crate) folder: &'a str,
    pub(crate) form: LogForm,
    pub(crate) any_host: bool,
    pub(crate) clients: u8,
    pub(crate) followers: u16,
}

/// Runs the member of a chain until its console ends it.
pub(crate) fn run_chain<R: Machine>(
    rt: &R,
    order: ChainOrder<'_>,
    mut console: Console<'_>,
    local: Option<UnixListener>,
) -> Result<u8, Failure> {
    let host = console.host;
    let it = prepare(host, &order)?;
    it.find_epochs(rt)?;
    let fronts = fronts_of(host.alloc(), &order, local)?;
    let unheard: Unheard = Mutex::new(None);
    let run = run_all(rt, &it, fronts, &unheard, &mut console);
    let fault = match run {
        Ok(()) if it.failed.lock(rt).is_none() => return Ok(0),
        Ok(()) => RunFault::Stopped,
        Err(fault) => fault,
    };
    Err(chain_failure(rt, &it, &unheard, &mut console, fault))
}

/// Returns what the epochs of a process are given.
fn prepare<'a>(host: &HostRuntime, order: &ChainOrder<'a>) -> Result<Chained<'a>, Failure> {
    let (settings, alloc) = (order.settings, host.alloc());
    let chain = Chain::new(settings.header.cluster(), settings.header.size());
    let board = Switchboard::new(alloc, chain, settings.header.me());
    let Ok(board) = Arc::new(alloc, board) else {
        return Err(Failure::from(Fault::Memory));
    };
    Ok(Chained {
        host: *host,
        settings,
        folder: order.folder,
        board,
        form: order.form,
        any_host: order.any_host,
        clients: order.clients,
        followers: order.followers,
        made: Mutex::new(0),
        failed: Mutex::new(None),
        listens: AtomicBool::new(false),
        unstarted: AtomicBool::new(false),
    })
}

/// Returns where the process of a chain listens.
fn fronts_of(
    alloc: Global,
    order: &ChainOrder<'_>,
    local: Option<UnixListener>,
) -> Result<Fronts, Failure> {
    let Some(own) = own_links(order.settings) else {
        return Err(Failure::from(Fault::Run(RunFault::Listen)));
    };
    let hosts = hosts_of(alloc, order.settings, order.any_host).map_err(|_| Fault::Memory)?;
    Ok(Fronts {
        links: socket_address(&own),
        desk: socket_address(&order.settings.desk),
        local,
        hosts,
    })
}

/// The hosts of the members, at which they are dialled; none if links are taken from any host.
fn hosts_of(
    alloc: Global,
    settings: &Settings,
    any_host: bool,
) -> Result<Option<Vec<IpAddr>>, Memory> {
    if any_host {
        return Ok(None);
    }
    let mut hosts = Vec::new(alloc);
    for peer in &dialled(alloc, settings)? {
        hosts.push(IpAddr::from(peer.octets))?;
    }
    Ok(Some(hosts))
}

/// Runs the doors and the epochs to their end.
fn run_all<R: Machine>(
    rt: &R,
    it: &Chained<'_>,
    fronts: Fronts,
    unheard: &Unheard,
    console: &mut Console<'_>,
) -> Result<(), RunFault> {
    let closed = Mutex::new(Ok(()));
    let doors = &closed;
    let run = thread::scope(thread::scope_env(), rt, |scope| -> Result<(), RunFault> {
        let opens = move || open_doors(rt, it, fronts, unheard, doors);
        if scope.spawn(opens).is_err() {
            console.unstarted();
            return Err(RunFault::Memory);
        }
        run_epochs(rt, it, console)
    });
    let doors = *closed.lock(rt);
    match doors {
        Ok(()) => run,
        Err(fault) => Err(fault),
    }
}

/// Takes links and clients in until all epochs are to end. Where it can't, they end.
fn open_doors<R: Machine>(
    rt: &R,
    it: &Chained<'_>,
    fronts: Fronts,
    unheard: &Unheard,
    closed: &Mutex<Result<(), RunFault>>,
) {
    let mut operator = FrontOperator {
        rt,
        board: &it.board,
        unheard,
        listens: &it.listens,
        unstarted: &it.unstarted,
    };
    let end = run_fronts(rt, &it.board, fronts, &mut operator);
    *closed.lock(rt) = end;
    it.board.end(rt);
}

/// The operator of a chain's doors: they are open until all epochs are to end.
#[derive(Drop)]
struct FrontOperator<'a, R> {
    rt: &'a R,
    board: &'a Switchboard,
    unheard: &'a Unheard,
    /// Set once links and clients are taken in.
    listens: &'a AtomicBool,
    /// Set where the system refused a thread.
    unstarted: &'a AtomicBool,
}

impl<R: Machine> Operator for FrontOperator<'_, R> {
    fn ready(&mut self) -> Result<(), RunFault> {
        self.listens.store(true, Ordering::SeqCst);
        Ok(())
    }

    fn until_end(&mut self) -> Result<(), RunFault> {
        self.board.await_all_ends(self.rt);
        Ok(())
    }

    fn unheard(&mut self, address: SocketAddr, error: &io::Error) {
        *self.unheard.lock(self.rt) = Some((address, error.raw_os_error().unwrap_or(0)));
    }

    fn unstarted(&mut self) {
        self.unstarted.store(true, Ordering::SeqCst);
    }
}

/// Runs the epochs that are needed, until the console ends the chain, or one of them fails.
fn run_epochs<R: Machine>(
    rt: &R,
    it: &Chained<'_>,
    console: &mut Console<'_>,
) -> Result<(), RunFault> {
    thread::scope(thread::scope_env(), rt, |scope| -> Result<(), RunFault> {
        let mut is_told = false;
        for turn in 0..u64::MAX {
            match tell_ready(rt, it, console, is_told) {
                Ok(told) => is_told = told,
                Err(fault) => {
                    it.board.end(rt);
                    return Err(fault);
                }
            }
            match next_step(rt, it, console, turn) {
                Step::Run(epoch, doors) => {
                    if scope.spawn(move || it.run_epoch(rt, epoch, doors)).is_err() {
                        console.unstarted();
                        it.board.end(rt);
                        return Err(RunFault::Memory);
                    }
                }
                Step::Look => {}
                Step::End(end) => {
                    it.board.end(rt);
                    return end;
                }
            }
        }
        Ok(())
    })
}

/// Tells the console that the member is ready, once links and clients are taken in and the newest
/// epoch runs. Returns `true` if it was told.
fn tell_ready<R: Machine>(
    rt: &R,
    it: &Chained<'_>,
    console: &mut Console<'_>,
    is_told: bool,
) -> Result<bool, RunFault> {
    let is_ready = it.listens.load(Ordering::SeqCst) && it.board.is_ready(rt);
    if is_told || !is_ready {
        return Ok(is_told);
    }
    console.ready()?;
    Ok(true)
}

/// Returns what a chain's operator does next; where that is nothing, after a moment.
fn next_step<R: Machine>(rt: &R, it: &Chained<'_>, console: &mut Console<'_>, turn: u64) -> Step {
    if it.board.is_ended() {
        return Step::End(Ok(()));
    }
    if let Some(end) = console.end_at(turn) {
        return Step::End(end);
    }
    match it.board.open_next(rt) {
        Ok(Some((epoch, doors))) => Step::Run(epoch, doors),
        Ok(None) => {
            it.board.rest(rt, Duration::from_millis(50));
            Step::Look
        }
        Err(Memory) => Step::End(Err(RunFault::Memory)),
    }
}

/// The next step of a chain's operator.
enum Step {
    /// Runs this epoch.
    Run(u64, Doors),
    /// Looks again.
    Look,
    /// Ends so.
    End(Result<(), RunFault>),
}

/// Returns the failure of a chain whose run ended so: the first of its epochs' failures, or what
/// the console was told.
fn chain_failure<R: Machine>(
    rt: &R,
    it: &Chained<'_>,
    unheard: &Unheard,
    console: &mut Console<'_>,
    fault: RunFault,
) -> Failure {
    if let Some(failure) = it.failed.lock(rt).take() {
        return failure;
    }
    let known = *unheard.lock(rt);
    if let Some((address, code)) = known {
        console.unheard(address, &io::Error::from_raw_os_error(code));
    }
    if it.unstarted.load(Ordering::SeqCst) {
        console.unstarted();
    }
    Failure {
        fault: Fault::Run(fault),
        trouble: console.trouble.take(),
    }
}

/// The address at which a process can't listen, and the number of the system's error.
type Unheard = Mutex<Option<(SocketAddr, i32)>>;
