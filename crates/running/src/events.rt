//! The events of a member that runs.

ghost use Rattle.std.specs.Prelude.{◌≡◌};
ghost use Rattle.running.specs.Events.{cause_text, fault_text, version_text};

use crate::dialling::dial_fault_text;
use crate::refusals::{Refusal, RefusalCount};
use links::LinkEnd;
use std::fmt;
use std::net::IpAddr;
use wire::{Version, WireFault};

/// An event of a member that runs. The text of each is its line in a log, without the line's end.
#[derive(Clone, Copy, Debug, PartialEq, Eq)]
pub enum LogEvent {
    /// This member listens.
    Ready(u8),
    /// A link from this member has greeted, with a session of that version, and is read from now
    /// on.
    LinkUp(u8, Version),
    /// The link isn't read any more, for this cause.
    LinkDown(u8, LinkEnd),
    /// A link to this member was welcomed, in a session of that version, and what this one says is
    /// written to it from now on.
    LinkUpTo(u8, Version),
    /// The same, and that member has heard so many statements more of this one than its journal
    /// holds: this is another journal than it was, or an old copy.
    LinkUpAhead(u8, u64, Version),
    /// A link to this member isn't written any more, for this cause.
    LinkDownTo(u8, LinkEnd),
    /// Connections to the links' address were closed before they became links, or links to a peer
    /// came to nothing.
    Refused(RefusalCount),
    /// A client was closed, because all places were taken, another waited for one, and it had been
    /// silent longest.
    ClientClosed {
        /// Its host, if the system knows it.
        host: Option<IpAddr>,
        /// Its place, 0 to 31.
        slot: u8,
        /// The seconds for which it was silent, more than ten.
        silent: u64,
    },
    /// A question was decided for this bit.
    Decided(u16, bool),
    /// The member is stopped from now on.
    Stopped,
    /// So many events aren't told, since too many were waiting to be.
    Missed(u64),
    /// The member has ended.
    End,
}

impl fmt::Display for LogEvent {
    ghost use Rattle.std.specs.Prelude.{Some};
    ghost use Rattle.running.specs.Events.{log_text};

    ghost output = { λ event. Some (log_text event) };

    fn fmt<W: fmt::Write>(&self, f: &mut fmt::Formatter<W>) -> fmt::Result {
        match *self {
            LogEvent::Ready(me) => write!(f, "ready member {me}"),
            LogEvent::LinkUp(peer, version) => {
                write!(f, "link-up from {peer}{}", version_text(version))
            }
            LogEvent::LinkDown(peer, end) => write!(f, "link-down from {peer} {}", cause_text(end)),
            LogEvent::LinkUpTo(peer, version) => {
                write!(f, "link-up to {peer}{}", version_text(version))
            }
            LogEvent::LinkUpAhead(peer, count, version) => {
                write!(
                    f,
                    "link-up to {peer} ahead {count}{}",
                    version_text(version)
                )
            }
            LogEvent::LinkDownTo(peer, end) => write!(f, "link-down to {peer} {}", cause_text(end)),
            LogEvent::Refused(refused) => write!(f, "{refused}"),
            LogEvent::ClientClosed { host, slot, silent } => {
                let closed = Closed { host, slot, silent };
                write!(f, "{closed}")
            }
            LogEvent::Decided(question, bit) => write!(f, "decided {question} {}", u8::from(bit)),
            LogEvent::Stopped => f.write_str("stopped"),
            LogEvent::Missed(count) => write!(f, "missed {count}"),
            LogEvent::End => f.write_str("end"),
        }
    }
}

/// Returns what the line of a link that comes up says of its version. Of the newer one it says
/// nothing.
fn version_text(version: Version) -> &'static str
    ensures { result.now ≡ version_text version }
{
    match version {
        Version::One => " version 1",
        Version::Two => "",
    }
}

/// A client that was closed for another.
#[derive(Clone, Copy)]
struct Closed {
    host: Option<IpAddr>,
    slot: u8,
    silent: u64,
}

impl fmt::Display for Closed {
    ghost use Rattle.std.specs.Prelude.{Some};
    ghost use Rattle.running.specs.Events.{closed_text};

    ghost output = { λ closed. Some (closed_text closed.host closed.slot closed.silent) };

    fn fmt<W: fmt::Write>(&self, f: &mut fmt::Formatter<W>) -> fmt::Result {
        let Closed { host, slot, silent } = *self;
        match host {
            Some(host) => write!(
                f,
                "client from {host} at place {slot} closed for another: silent for {silent} s"
            ),
            None => write!(
                f,
                "client at place {slot} closed for another: silent for {silent} s"
            ),
        }
    }
}

impl fmt::Display for RefusalCount {
    ghost use Rattle.std.specs.Prelude.{Some};
    ghost use Rattle.running.specs.Events.{refusal_text};

    ghost output = { λ refused. Some (refusal_text refused) };

    fn fmt<W: fmt::Write>(&self, f: &mut fmt::Formatter<W>) -> fmt::Result {
        let times = Times(self.count);
        match (self.refusal, self.caller) {
            (Refusal::From(host, end), Some(caller)) => {
                write!(f, "refused from {host} {}{caller}{times}", cause_text(end))
            }
            (Refusal::From(host, end), None) => {
                write!(f, "refused from {host} {}{times}", cause_text(end))
            }
            (Refusal::By(peer), _) => write!(f, "link-to {peer} refused{times}"),
            (Refusal::Unreachable(peer, fault), _) => {
                write!(
                    f,
                    "link-to {peer} unreachable: {}{times}",
                    dial_fault_text(fault)
                )
            }
            (Refusal::Unsteady(peer), _) => write!(f, "links of {peer} come and go{times}"),
            (Refusal::Threadless, _) => write!(f, "thread refused{times}"),
            (Refusal::Crowded, _) => write!(f, "follower refused: too many follow{times}"),
            (Refusal::Stalled(host), _) => {
                write!(
                    f,
                    "follower from {host} closed: took nothing for 10 s{times}"
                )
            }
        }
    }
}

/// The number of times that something came, as it stands after it; nothing if it came once.
#[derive(Clone, Copy)]
struct Times(u64);

impl fmt::Display for Times {
    ghost use Rattle.std.specs.Prelude.{Some};
    ghost use Rattle.running.specs.Events.{times_text};

    ghost output = { λ times. Some (times_text times.0) };

    fn fmt<W: fmt::Write>(&self, f: &mut fmt::Formatter<W>) -> fmt::Result {
        if self.0 > 1 {
            return write!(f, ", x{}", self.0);
        }
        Ok(())
    }
}

/// The word for what ended a link.
fn cause_text(end: LinkEnd) -> &'static str
    ensures { result.now ≡ cause_text end }
{
    match end {
        LinkEnd::Ended => "ended",
        LinkEnd::Lost => "lost",
        LinkEnd::Broken(fault) => fault_text(fault),
        LinkEnd::OutOfOrder => "out-of-order",
        LinkEnd::Stranger => "stranger",
        LinkEnd::Busy => "busy",
        LinkEnd::Stopped => "stopped",
        LinkEnd::Memory => "memory",
    }
}

/// The name of what is wrong with bytes that begin no frame.
fn fault_text(fault: WireFault) -> &'static str
    ensures { result.now ≡ fault_text fault }
{
    match fault {
        WireFault::BadLength => "broken BadLength",
        WireFault::BadType => "broken BadType",
        WireFault::BadKind => "broken BadKind",
        WireFault::BadPlace => "broken BadPlace",
        WireFault::BadValue => "broken BadValue",
        WireFault::BadHello => "broken BadHello",
        WireFault::BadCount => "broken BadCount",
    }
}
