//! Calls to all members of a cluster: each in a thread of its own, and all within one time.

ghost use Rattle.std.specs.Prelude.{◌≡◌, IfErr, IfOk, slice_get};
ghost use Rattle.asking.specs.Deadlines.{total_time};
ghost use Rattle.asking.specs.Times.{IsTotalOf};
ghost use Rattle.troubles.specs.declared.fault.Fault.TheVariants as ends;

use crate::board::{Board, News};
use crate::calls::{Errand, Manner, call};
use crate::clients::read_client;
use crate::desks::Deadline;
use machine::Machine;
use settings::{Address, ClientSettings};
use std::alloc::{AllocError, Global};
use std::sync::Arc;
use std::thread;
use std::time::Duration;
use troubles::{Failure, Fault, Whereabouts};

/// A runtime of which each thread may take a copy.
pub trait Caller: Machine + Copy + Send + 'static {}

impl<R: Machine + Copy + Send + 'static> Caller for R {}

/// A cluster, and how long it is spoken to.
#[derive(Clone, Copy, Debug, PartialEq, Eq)]
pub struct Cluster<'a> {
    /// The path of the client's settings.
    pub file: &'a str,
    /// The milliseconds in all, if they are told.
    pub timeout: Option<u32>,
}

impl<'a> Cluster<'a> {
    ghost use Rattle.std.specs.Prelude.{◌<◌, ◌≡◌, IfErr, IfOk, Some, unwrap_or};
    ghost use Rattle.asking.specs.Deadlines.{total_time};
    ghost use Rattle.asking.specs.Times.{IsTotalOf};
    ghost use Rattle.troubles.specs.Troubles.{IsNamed};

    /// The client's settings. [`Fault::Question`]: the cluster hasn't this question.
    pub fn read(&self, host: &HostRuntime, question: u16) -> Result<ClientSettings, Failure>
        ensures has { IfOk result (λ client. question < client.size.questions) }
        ensures named { IfErr result (IsNamed self.now.file.now) }
    {
        let client = read_client(host, self.file)?;
        let questions = client.size.questions();
        if question < questions {
            return Ok(client);
        }
        let Ok(words) = format!(in host.alloc();
            "has {questions} questions, from 0 on: there is no question {question}"
        ) else {
            return Err(Failure::from(Fault::Question));
        };
        let fault = Fault::Question;
        Err(Failure::at(host.alloc(), fault, self.file, Whereabouts::Whole, &words))
    }

    /// The end of a command that begins now: after the time that is told, or else after ten
    /// seconds.
    pub fn deadline(&self, host: &HostRuntime) -> Result<Deadline, Failure>
        ensures { IfOk result
            (λ deadline. IsTotalOf (Some (unwrap_or self.now.timeout 10000))
            (total_time deadline)) }
    {
        deadline_within(host, Some(self.timeout.unwrap_or(IN_ALL)))
    }
}

/// The milliseconds that a command over a cluster takes at most, where no time is told.
pub const IN_ALL: u32 = 10_000;

/// The seconds of a wait without an end, after which it begins anew.
const LONG: u64 = 3600;

/// The end of a command that begins now and takes so many milliseconds at most, if it has one.
pub fn deadline_within(host: &HostRuntime, limit: Option<u32>) -> Result<Deadline, Failure>
    ensures total { IfOk result (λ deadline. IsTotalOf limit (total_time deadline)) }
    ensures fault { IfErr result (λ failure. failure.fault ≡ ends.Memory) }
{
    match Deadline::new(host, limit) {
        Ok(deadline) => Ok(deadline),
        Err(_) => Err(Failure::from(Fault::Memory)),
    }
}

/// Lines for all members, and how they are spoken to.
#[derive(Drop)]
pub struct Lines {
    pub manner: Manner,
    /// The line that each member is sent first.
    pub first: String,
    /// The line that waits for the decision; empty where none does.
    pub wait: String,
}

/// A call to each member of a cluster.
#[derive(Drop)]
pub struct Calls {
    errand: Arc<Errand>,
    deadline: Deadline,
    /// An end before that one, once there is one.
    sooner: Option<Deadline>,
}

impl Calls {
    /// Calls each member of the cluster of these settings.
    pub fn start<R: Caller>(
        rt: &R,
        alloc: Global,
        client: &ClientSettings,
        lines: Lines,
        deadline: Deadline,
    ) -> Result<Calls, Failure> {
        let Lines {
            manner,
            first,
            wait,
        } = lines;
        let errand = Errand {
            alloc,
            manner,
            first,
            wait,
            deadline,
            board: Board::new(alloc),
        };
        let errand = Arc::new(alloc, errand).map_err(|_| Fault::Memory)?;
        for member in 0..client.size.n() {
            spawn(rt, &errand, client, member);
        }
        Ok(Calls {
            errand,
            deadline,
            sooner: None,
        })
    }

    /// Ends the calls after so many milliseconds, if they don't end before.
    pub fn end_soon(&mut self, host: &HostRuntime, limit: u32) {
        // Once the time is over it isn't made longer.
        let Some(left) = self.left(host) else {
            return;
        };
        if left <= Duration::from_millis(u64::from(limit)) {
            return;
        }
        if let Ok(sooner) = Deadline::new(host, Some(limit)) {
            self.sooner = Some(sooner);
        }
    }

    /// Returns what members said since the last call, once one said something; none where the time
    /// is over.
    pub fn next<R: Caller>(&self, rt: &R, host: &HostRuntime) -> Option<Vec<News>> {
        let limit = self.left(host)?;
        Some(self.errand.board.take(rt, limit))
    }

    /// The time that is left; none where it is over.
    fn left(&self, host: &HostRuntime) -> Option<Duration> {
        let Ok(left) = self.deadline.left(host, LONG) else {
            return None;
        };
        match self.sooner {
            None => Some(left),
            Some(sooner) => match sooner.left(host, LONG) {
                Ok(rest) => Some(rest.min(left)),
                Err(_) => None,
            },
        }
    }
}

/// Starts a thread that calls a member. If the system refuses it, the member counts as one that
/// doesn't answer.
fn spawn<R: Caller>(rt: &R, errand: &Arc<Errand>, client: &ClientSettings, member: u8) {
    let Some(desk) = desk_of(client, member) else {
        return;
    };
    let theirs: Result<Arc<Errand>, AllocError> = errand.clone();
    let Ok(theirs) = theirs else {
        return errand.board.leave(rt, member, None);
    };
    let own = *rt;
    match thread::spawn(rt, move || call(own, theirs, member, desk)) {
        Ok(_left) => {}
        Err(_) => errand.board.leave(rt, member, None),
    }
}

/// Returns the desk of the member of that number.
fn desk_of(client: &ClientSettings, member: u8) -> Option<Address>
    ensures { result ≡ slice_get client.now.desks.items member }
{
    match client.desks.get(usize::from(member)) {
        Some(desk) => Some(*desk),
        None => None,
    }
}
