//! The command `run`: a member over the journal in its file.

ghost use Rattle.journal.specs.declared.fault.JournalFault.{JournalFault};
ghost use Rattle.member.specs.Outcomes.{IsARestart, IsNotOpened, IsOpened};
ghost use Rattle.member.specs.Readers.{MemberStandsFor, member_is_stopped, member_saved};
ghost use Rattle.member.specs.Sound.{HasItsFile, IsSound};
ghost use Rattle.troubles.specs.Faults.{IsMeant, of_journal};
ghost use Rattle.troubles.specs.declared.fault.Fault.TheVariants as ends;
ghost use Rattle.machine.specs.declared.fault.RunFault.TheVariants as ends_of_run;
ghost use Rattle.std.specs.Prelude.{◌≡◌, ◌≢◌, [], false, IfErr, IfOk, IfSome, IsSome, None, Err, Ok, string_bytes};

use crate::addresses::addresses_of;
use crate::chained::{ChainOrder, run_chain};
use crate::local_desk::{leave_socket, listen_locally, with_socket};
use crate::log::{ErrorLog, LogForm};
use asking::socket_address;
use disk::{Disk, Premise};
use files::{
    Door, Purpose, Source, failure_for, foreign_words, lock_folder, open_good_disk, own_door,
    put_aside, read_settings, refuse_forgotten, remove_old_mark,
};
use machine::{Machine, RunFault};
use member::Member;
use process::{
    Input, Watched, blocks_signals, clients_within, followers_within, is_called_off, is_starved,
    most_files, read_aside, starved_words, warn_of_files,
};
use running::{Addresses, Operator, Start, run_member};
use settings::Settings;
use std::alloc::{AllocError, Global};
use std::io::{self, Read, Write};
use std::net::SocketAddr;
use std::sync::atomic::{AtomicBool, Ordering};
use std::sync::{Arc, Mutex};
use std::thread;
use std::time::Duration;
use terms::Header;
use troubles::{Failure, Fault, Trouble, Whereabouts, trouble_of};

/// The words on a journal that is gone.
pub(crate) const GONE: &str = "the file was removed or replaced while the member ran";

/// The standard streams of a member that runs: it prints that it is ready, and ends where the input
/// does; or, where it stays, once it is stopped. Where signals are blocked it ends once one waits,
/// and in any case once its journal is gone.
#[derive(Drop)]
pub(crate) struct Console<'a> {
    pub(crate) host: &'a HostRuntime,
    settings: &'a Settings,
    /// The input is not looked at: a signal ends the member, or that it is stopped.
    stay: bool,
    /// SIGTERM or SIGINT is blocked, and waits once it comes.
    blocked: bool,
    /// The input, as the thread that reads it shows it.
    input: Option<Arc<Input>>,
    /// The journal's file.
    journal: Watched<'a>,
    /// Set once the member is stopped.
    stopped: &'a AtomicBool,
    /// The trouble of an address at which the member can't listen, or of a journal that is gone.
    pub(crate) trouble: Option<Trouble>,
}

impl<'a> Console<'a> {
    /// Returns what ends the member in this quarter of a second, if something does: the end of the
    /// input, that it is stopped, or, at the first of four, a signal or a journal that is gone.
    pub(crate) fn end_at(&mut self, turn: u64) -> Option<Result<(), RunFault>> {
        if let Some(end) = self.input_end() {
            return Some(end);
        }
        if self.is_stopped() {
            return Some(Ok(()));
        }
        if turn % 4 != 0 {
            return None;
        }
        if self.blocked && is_called_off(self.host) {
            return Some(Ok(()));
        }
        if self.is_without_journal() {
            return Some(Err(RunFault::Stopped));
        }
        None
    }

    /// Returns how the input ended that a thread reads; none where it hasn't, or none does.
    fn input_end(&self) -> Option<Result<(), RunFault>> {
        match &self.input {
            Some(input) if input.has_failed() => Some(Err(RunFault::Stream)),
            Some(input) if input.has_ended() => Some(Ok(())),
            _ => None,
        }
    }

    /// Returns `true` if the member stays and is stopped.
    fn is_stopped(&self) -> bool {
        self.stay && self.stopped.load(Ordering::SeqCst)
    }

    /// Returns `true` if the journal's path names another file than the one that is open, or none.
    /// Then that is told.
    fn is_without_journal(&mut self) -> bool {
        if !self.journal.is_replaced(self.host) {
            return false;
        }
        let (alloc, path) = (self.host.alloc(), self.journal.path());
        self.trouble = trouble_of(alloc, path, Whereabouts::Whole, &GONE);
        true
    }

    /// Reads the standard input to its end.
    fn drain(&self) -> Result<(), RunFault> {
        let mut input = self.host.reader();
        let mut piece = [0; 512];
        for _ in 0..u64::MAX {
            match input.read(&mut piece) {
                Ok(0) => return Ok(()),
                Ok(_) => {}
                Err(error) if error.kind() == io::ErrorKind::Interrupted => {}
                Err(_) => return Err(RunFault::Stream),
            }
        }
        Ok(())
    }

    /// Why the member can't listen at this address: the entry of the settings to look at, where it
    /// isn't this host's; else what the system said.
    fn unheard_words(&self, address: SocketAddr, error: &io::Error) -> Result<String, AllocError> {
        let alloc = self.host.alloc();
        if error.kind() != io::ErrorKind::AddrNotAvailable {
            return format!(in alloc; "{error}");
        }
        let desk = socket_address(&self.settings.desk);
        if address.ip() == desk.ip() && address.port() == desk.port() {
            return foreign_words(alloc, Door::Desk);
        }
        foreign_words(alloc, own_door(self.settings))
    }

    /// Returns once the member is stopped, or the input has ended that a thread reads, at most a
    /// quarter of a second late; or once a signal waits or the journal is gone, at most a second
    /// late. Else after more years than any machine lives.
    fn wait(&mut self) -> Result<(), RunFault> {
        for turn in 0..u64::MAX {
            if let Some(end) = self.end_at(turn) {
                return end;
            }
            thread::sleep(self.host, Duration::from_millis(250));
        }
        Ok(())
    }
}

impl<'a> Operator for Console<'a> {
    // The member tosses from the seed of its settings.
    ghost may_toss_from = { λ console seed. seed ≡ console.settings.now.seed };

    fn ready(&mut self) -> Result<(), RunFault> {
        match println!(self.host; "member {} ready", self.settings.header.me()) {
            Ok(()) => Ok(()),
            Err(_) => Err(RunFault::Stream),
        }
    }

    fn until_end(&mut self) -> Result<(), RunFault> {
        if self.stay || self.input.is_some() {
            self.wait()
        } else {
            self.drain()
        }
    }

    fn unheard(&mut self, address: SocketAddr, error: &io::Error) {
        let alloc = self.host.alloc();
        let Ok(text) = format!(in alloc; "{address}") else {
            return;
        };
        let Ok(words) = self.unheard_words(address, error) else {
            return;
        };
        self.trouble = trouble_of(alloc, text.as_str(), Whereabouts::Listen, &words);
    }

    fn unstarted(&mut self) {
        self.trouble = trouble_of_threads(self.host.alloc());
    }
}

/// Returns what is told of a thread that the system refused.
pub(crate) fn trouble_of_threads(alloc: Global) -> Option<Trouble> {
    let words = "the system refused one: see `ulimit -u`";
    trouble_of(alloc, "threads", Whereabouts::Whole, &words)
}

/// The options of the command `run`.
#[derive(Clone, Copy, Debug, PartialEq, Eq)]
pub struct RunOptions {
    /// The member ends once it is stopped, or by a signal, and not with its input.
    pub stay: bool,
    /// The form of its log.
    pub log: LogForm,
    /// Any host may speak for any member.
    pub any_host: bool,
}

/// Runs the member of the settings in the file until the standard input ends; where it stays, until
/// it is stopped; where the process was started with SIGTERM or SIGINT blocked, until one comes;
/// and no longer than the journal's path names its file. The status is 0. Its events are told on
/// the standard error in the form of the log. Links are taken from their members' own hosts, unless
/// any host may speak for any member, which is told on the standard error first.
///
/// Files and standard streams are those of the host. Threads and sockets are those of `rt`, under a
/// bound that has neither files nor input, as threads ask for.
///
/// [`Fault::File`]: the settings or the journal can't be opened, or fewer files than a member
/// wants. [`Fault::Settings`], [`Fault::Journal`]: they are of no use, or a sync of the journal
/// failed since the machine was started. [`Fault::Run`]: no listener could be had, the member was
/// stopped when the input ended, or its journal is gone; or it was forgotten, in this run or in an
/// earlier one, and its journal is put aside.
pub fn run_file<R: Machine, P: Premise + Send>(
    rt: &R,
    host: &HostRuntime,
    path: &str,
    options: RunOptions,
) -> Result<u8, Failure> {
    let settings = read_settings(host, path)?;
    run_settings::<R, P>(rt, host, &settings, options)
}

/// Runs the member of these settings, as `run_file` says.
fn run_settings<'a, R: Machine, P: Premise + Send>(
    rt: &R,
    host: &'a HostRuntime,
    settings: &'a Settings,
    options: RunOptions,
) -> Result<u8, Failure> {
    let size = settings.header.size();
    let files = most_files(host);
    keep_from_starving(host, files, size.wait())?;
    let limits = FileLimits {
        files,
        clients: clients_within(files, size.n()),
        followers: followers_within(files, size.n()),
    };
    match &settings.epochs {
        Some(folder) => {
            let order = ChainOrder {
                settings,
                folder: folder.as_str(),
                form: options.log,
                any_host: options.any_host,
                clients: limits.clients,
                followers: limits.followers,
            };
            run_epochs(rt, host, order, options.stay)
        }
        None => run_alone::<R, P>(rt, host, settings, options, limits),
    }
}

/// Refuses to run with too few open files for a member that needs links with so many.
///
/// [`Fault::File`]: there are fewer.
fn keep_from_starving(host: &HostRuntime, limit: Option<u64>, needed: u8) -> Result<(), Failure>
    ensures { IfErr result (λ failure. IsMeant ends.File failure.fault) }
{
    if !is_starved(limit, needed) {
        return Ok(());
    }
    let alloc = host.alloc();
    let words = starved_words(alloc, limit, needed).map_err(|_| Fault::Memory)?;
    Err(Failure::at(alloc, Fault::File, "open files", Whereabouts::Whole, &words))
}

/// Runs the member of a chain, as `run_file` says.
fn run_epochs<R: Machine>(
    rt: &R,
    host: &HostRuntime,
    order: ChainOrder<'_>,
    stay: bool,
) -> Result<u8, Failure> {
    if order.any_host {
        warn_of_strangers(host);
    }
    warn_of_files(host, most_files(host), order.settings.header.size().n());
    let settings = order.settings;
    // Another process would take the same journals.
    let _held = lock_folder(host, order.folder)?;
    let local = match &settings.desk_socket {
        Some(path) => Some(listen_locally(host, path.as_str())?),
        None => None,
    };
    let stopped = AtomicBool::new(false);
    let console = Console {
        host,
        settings,
        stay,
        blocked: blocks_signals(host),
        input: input_of(rt, host, stay),
        journal: Watched::new(host, order.folder),
        stopped: &stopped,
        trouble: None,
    };
    let ended = run_chain(rt, order, console, local);
    leave_socket(host, settings);
    ended
}

/// Runs the member of these settings, which is of no chain, as `run_file` says.
fn run_alone<'a, R: Machine, P: Premise + Send>(
    rt: &R,
    host: &'a HostRuntime,
    settings: &'a Settings,
    options: RunOptions,
    limits: FileLimits,
) -> Result<u8, Failure> {
    let header = &settings.header;
    refuse_forgotten(host, settings.journal.as_str(), header.me())?;
    let (disk, source) = open_good_disk::<P>(host, settings.journal.as_str(), Purpose::Run)?;
    let member = open_to_run(host, &source, disk, header)?;
    if options.any_host {
        warn_of_strangers(host);
    }
    warn_of_files(host, limits.files, header.size().n());
    let addresses = addresses_to_run(host, settings, options, limits)?;
    let opened = Opened {
        member,
        source,
        addresses,
    };
    run_opened(rt, host, settings, options, opened)
}

/// Returns the addresses of the member of these settings, with what listens at its own socket.
fn addresses_to_run(
    host: &HostRuntime,
    settings: &Settings,
    options: RunOptions,
    limits: FileLimits,
) -> Result<Addresses, Failure> {
    let addresses = addresses_of(
        host.alloc(),
        settings,
        options.any_host,
        limits.clients,
        limits.followers,
    )
    .map_err(|_| Fault::Memory)?;
    with_socket(host, addresses, settings)
}

/// The number of files that a process may open, and how many of them may be clients and followers.
#[derive(Clone, Copy)]
struct FileLimits {
    files: Option<u64>,
    clients: u8,
    followers: u16,
}

/// Says on the standard error that a link's sender is anybody's word.
fn warn_of_strangers(host: &HostRuntime) {
    let mut errors = host.stderr();
    let _unsaid = errors.write_all(
        b"bracha: --any-host is unsafe: any host may speak for any member\n",
    );
}

/// Runs a member that was just opened over its disk, to its end.
fn run_opened<'a, D: Disk + Drop + Send, R: Machine>(
    rt: &R,
    host: &'a HostRuntime,
    settings: &'a Settings,
    options: RunOptions,
    opened: Opened<'a, D>,
) -> Result<u8, Failure>
    requires sound { IsSound D.Disk opened.member }
    requires fresh { member_is_stopped opened.member ≡ false →
        MemberStandsFor opened.member (member_saved opened.member) [] }
    requires begun { HasItsFile D.Disk opened.member }
{
    let Opened {
        member,
        source,
        addresses,
    } = opened;
    let stopped = AtomicBool::new(false);
    let blocked = blocks_signals(host);
    let mut console = Console {
        host,
        settings,
        stay: options.stay,
        blocked,
        input: input_of(rt, host, options.stay),
        journal: Watched::new(host, source.path),
        stopped: &stopped,
        trouble: None,
    };
    let lines = Mutex::new(ErrorLog {
        clock: rt,
        alloc: host.alloc(),
        errors: host.stderr(),
        form: options.log,
        stopped: &stopped,
        first_error: source.shared_error(),
        epoch: None,
    });
    let start = Start {
        member,
        addresses,
        seed: settings.seed,
    };
    let run = match run_member(rt, host.alloc(), start, &mut console, Some(&lines)) {
        Ok(_) => Ok(()),
        Err(fault) => Err(fault),
    };
    leave_socket(host, settings);
    let told = console.trouble;
    let trouble = told_at_end(host, &run, &source, settings.header.me(), told);
    ended(run, trouble)
}

/// A member that was opened, the file of its journal, and where it is to listen.
#[derive(Drop)]
struct Opened<'a, D: Disk + Drop> {
    member: Member<D>,
    source: Source<'a>,
    addresses: Addresses,
}

/// A thread that reads the standard input, where a member would else wait for that input itself;
/// none where the system refuses it.
fn input_of<R: Machine>(rt: &R, host: &HostRuntime, stay: bool) -> Option<Arc<Input>> {
    if stay {
        None
    } else {
        read_aside(rt, host.alloc(), host.stdin())
    }
}

/// Returns what can be told of how a run ended: where the member was forgotten, of its journal,
/// which is put aside; where it is stopped what the console was told, or else why; else what the
/// console was told.
fn told_at_end(
    host: &HostRuntime,
    run: &Result<(), RunFault>,
    source: &Source<'_>,
    member: u8,
    told: Option<Trouble>,
) -> Option<Trouble>
    ensures stopped { run.now ≡ Err ends_of_run.Stopped → told ≡ None →
        IfSome result (λ trouble. string_bytes trouble.thing ≡ source.now.path.now) }
    ensures gone { run.now ≡ Err ends_of_run.Stopped → IsSome told → result ≡ told }
    ensures other { run.now ≢ Err ends_of_run.Stopped → run.now ≢ Err ends_of_run.Forgotten →
        result ≡ told }
{
    match run {
        Err(RunFault::Stopped) => told_of_stop(host.alloc(), source, told),
        Err(RunFault::Forgotten) => put_aside(host, source.path, member),
        Ok(()) => told,
        Err(RunFault::Listen | RunFault::Memory | RunFault::Stream | RunFault::Torn) => told,
    }
}

/// Returns how a run ended: with status 0, or a fault and what can be told of it.
fn ended(run: Result<(), RunFault>, trouble: Option<Trouble>) -> Result<u8, Failure>
    ensures ok { IfOk run (λ _. result ≡ Ok 0) }
    ensures fault { IfErr run
        (λ fault. result ≡ Err (record { fault = ends.Run fault; trouble = trouble })) }
{
    match run {
        Ok(()) => Ok(0),
        Err(fault) => {
            let fault = Fault::Run(fault);
            Err(Failure { fault, trouble })
        }
    }
}

/// Returns what can be told of a member that is stopped: what the console was told, or else why its
/// journal ended.
pub(crate) fn told_of_stop(
    alloc: Global,
    source: &Source<'_>,
    told: Option<Trouble>,
) -> Option<Trouble>
    ensures told { IsSome told → result ≡ told }
    ensures stopped { told ≡ None →
        IfSome result (λ trouble. string_bytes trouble.thing ≡ source.now.path.now) }
{
    match told {
        Some(told) => Some(told),
        None => trouble_of_stop(alloc, source),
    }
}

/// Returns what can be told of the journal of a member that is stopped.
fn trouble_of_stop(alloc: Global, source: &Source<'_>) -> Option<Trouble>
    ensures { IfSome result (λ trouble. string_bytes trouble.thing ≡ source.now.path.now) }
{
    match source.error() {
        Some(error) => trouble_of(alloc, source.path, Whereabouts::Whole, &error),
        None => {
            let words = "memory was refused, or it is full";
            trouble_of(alloc, source.path, Whereabouts::Whole, &words)
        }
    }
}

/// Opens the member of that header to run it. The mark of a sync that failed before the machine was
/// started is removed.
pub(crate) fn open_to_run<D: Disk + Drop>(
    host: &HostRuntime,
    source: &Source<'_>,
    disk: D,
    header: &Header,
) -> Result<Member<D>, Failure>
    ensures opened { IfOk result (λ member. IsOpened D.Disk disk header.now member) }
    ensures restart { IfOk result (λ member. IsARestart D.Disk disk header.now member) }
{
    remove_old_mark(host, source.path);
    match open_member(host, source, disk, header) {
        Ok(member) => Ok(member),
        Err((failure, _)) => Err(failure),
    }
}

/// Opens the member of that header on the disk of its journal. A fault hands the disk back beside
/// what is told of it: no byte of the file was changed, and a crash left nothing of it but what it
/// might have left before.
fn open_member<D: Disk>(
    host: &HostRuntime,
    source: &Source<'_>,
    disk: D,
    header: &Header,
) -> Result<Member<D>, (Failure, D)>
    ensures opened { IfOk result (λ member. IsOpened D.Disk disk header.now member) }
    ensures restart { IfOk result (λ member. IsARestart D.Disk disk header.now member) }
    ensures handed_back { IfErr result
        (λ refused. (why : JournalFault) × (refused.0.fault ≡ of_journal why)
        × IsNotOpened D.Disk disk header.now why refused.1) }
{
    match Member::adopt(host.alloc(), disk, header) {
        Ok(member) => Ok(member),
        Err((why, disk)) => {
            let failure = failure_for(host, source, Fault::from(why), why, Some(header));
            Err((failure, disk))
        }
    }
}
