//! The objects of a log: what happens to a member that runs, as JSON.

ghost use Rattle.std.specs.Prelude.{◌≡◌, ◌++◌, IfOk, Some, codes, option_map};
ghost use Rattle.running.specs.Dialling.{dial_fault_text};
ghost use Rattle.running.specs.Events.{bit_number, cause_text};
ghost use Rattle.running.specs.declared.callers.Difference.TheVariants.{Size};
ghost use Rattle.running.specs.declared.refusals.Refusal.TheVariants.{From};
ghost use Rattle.system.specs.Logs.{Adds, caller_fields, closed_fields, device_field, difference_fields, down_fields, event_fields, event_name, event_object, event_tokens, host_field, members_fields, number_field, place_fields, refusal_fields, refusal_name, refused_fields, size_fields, text_field, time_field, unreachable_fields, up_fields, version_field};

use json::Writer;
use links::LinkEnd;
use running::{Caller, DialFault, Difference, LogEvent, Refusal, RefusalCount};
use std::alloc::{AllocError, Global};
use std::net::IpAddr;
use wire::{Version, WireFault};

/// Returns the object of an event in a line: its time, its name, its fields, and what the system
/// said of the journal's file if that is known.
pub fn event_object(
    alloc: Global,
    time: Option<&str>,
    event: &LogEvent,
    device: Option<&str>,
) -> Result<Vec<u8>, AllocError>
    ensures { IfOk result
        (λ bytes. bytes.items ≡ event_object (option_map (λ text. text.now) time.entry) event.now
        (option_map (λ text. text.now) device.entry)) }
{
    let mut object = Writer::new(Vec::new(alloc));
    put_event(&mut object, alloc, time, event, device)?;
    let mut bytes = object.into_inner();
    bytes.extend_from_slice(b"\n")?;
    Ok(bytes)
}

/// Appends all of an event's object.
fn put_event(
    object: &mut Writer,
    alloc: Global,
    time: Option<&str>,
    event: &LogEvent,
    device: Option<&str>,
) -> Result<(), AllocError>
    ensures { Adds result object.old object.new
        (event_tokens (option_map (λ text. text.now) time.entry) event.now
        (option_map (λ text. text.now) device.entry)) }
{
    object.begin_object()?;
    put_time(object, time)?;
    put_text(object, "event", event_name(event))?;
    put_fields(object, alloc, event)?;
    put_device(object, device)?;
    object.end_object()
}

/// Appends the time, or null if the clock tells none.
fn put_time(object: &mut Writer, time: Option<&str>) -> Result<(), AllocError>
    ensures { Adds result object.old object.new
        (time_field (option_map (λ text. text.now) time.entry)) }
{
    match time {
        Some(text) => put_text(object, "time", text),
        None => {
            object.key("time")?;
            object.null()
        }
    }
}

/// Returns the name of an event.
fn event_name(event: &LogEvent) -> &'static str
    ensures { result.now ≡ event_name event.now }
{
    match *event {
        LogEvent::Ready(_) => "ready",
        LogEvent::LinkUp(_, _) => "link-up",
        LogEvent::LinkDown(_, _) => "link-down",
        LogEvent::LinkUpTo(_, _) => "link-up",
        LogEvent::LinkUpAhead(_, _, _) => "link-up",
        LogEvent::LinkDownTo(_, _) => "link-down",
        LogEvent::Refused(refused) => refusal_name(refused.refusal),
        LogEvent::ClientClosed { .. } => "client-closed",
        LogEvent::Decided(_, _) => "decided",
        LogEvent::Stopped => "stopped",
        LogEvent::Missed(_) => "missed",
        LogEvent::End => "end",
    }
}

/// Returns the name of a refusal.
fn refusal_name(refusal: Refusal) -> &'static str
    ensures { result.now ≡ refusal_name refusal }
{
    match refusal {
        Refusal::From(_, _) => "refused",
        Refusal::By(_) => "refused",
        Refusal::Unreachable(_, _) => "unreachable",
        Refusal::Unsteady(_) => "unsteady",
        Refusal::Threadless => "thread-refused",
        Refusal::Crowded => "follower-refused",
        Refusal::Stalled(_) => "follower-closed",
    }
}

/// Appends the fields of an event behind its name.
fn put_fields(object: &mut Writer, alloc: Global, event: &LogEvent) -> Result<(), AllocError>
    ensures { Adds result object.old object.new (event_fields event.now) }
{
    match *event {
        LogEvent::Ready(me) => put_number(object, "member", u64::from(me)),
        LogEvent::LinkUp(peer, version) => put_up(object, "from", peer, version),
        LogEvent::LinkDown(peer, end) => put_down(object, "from", peer, end),
        LogEvent::LinkUpTo(peer, version) => put_up(object, "to", peer, version),
        LogEvent::LinkUpAhead(peer, count, version) => put_ahead(object, peer, count, version),
        LogEvent::LinkDownTo(peer, end) => put_down(object, "to", peer, end),
        LogEvent::Refused(refused) => put_refused(object, alloc, &refused),
        LogEvent::ClientClosed { host, slot, silent } => {
            put_closed(object, alloc, host, slot, silent)
        }
        LogEvent::Decided(question, bit) => put_decision(object, question, bit),
        LogEvent::Stopped => Ok(()),
        LogEvent::Missed(count) => put_number(object, "count", count),
        LogEvent::End => Ok(()),
    }
}

/// Appends what is said of a link that came up, `from` or `to` a peer.
fn put_up(object: &mut Writer, side: &str, peer: u8, version: Version) -> Result<(), AllocError>
    ensures { Adds result object.old object.new (up_fields side.now peer version) }
{
    put_number(object, side, u64::from(peer))?;
    put_version(object, version)
}

/// Appends what is said of a link that went down, `from` or `to` a peer.
fn put_down(object: &mut Writer, side: &str, peer: u8, end: LinkEnd) -> Result<(), AllocError>
    ensures { Adds result object.old object.new (down_fields side.now peer end) }
{
    put_number(object, side, u64::from(peer))?;
    put_text(object, "cause", cause_text(end))
}

/// Appends what is said of a link that came up to a peer that has heard more than the journal
/// holds.
fn put_ahead(object: &mut Writer, peer: u8, count: u64, version: Version) -> Result<(), AllocError>
    ensures { Adds result object.old object.new
        (up_fields (codes "to") peer version ++ number_field (codes "ahead") count) }
{
    put_number(object, "to", u64::from(peer))?;
    put_version(object, version)?;
    put_number(object, "ahead", count)
}

/// Appends the version of a link.
fn put_version(object: &mut Writer, version: Version) -> Result<(), AllocError>
    ensures { Adds result object.old object.new (version_field version) }
{
    match version {
        Version::One => put_number(object, "version", 1),
        Version::Two => put_number(object, "version", 2),
    }
}

/// Appends what is said of a refusal, and how often it came.
fn put_refused(object: &mut Writer, alloc: Global, refused: &RefusalCount) -> Result<(), AllocError>
    ensures { Adds result object.old object.new (refused_fields refused.now) }
{
    put_refusal(object, alloc, refused)?;
    put_number(object, "count", refused.count)
}

/// Appends what is said of a refusal.
fn put_refusal(object: &mut Writer, alloc: Global, refused: &RefusalCount) -> Result<(), AllocError>
    ensures { Adds result object.old object.new
        (refusal_fields refused.now.refusal refused.now.caller) }
{
    match refused.refusal {
        Refusal::From(host, end) => put_host(object, alloc, host, end, refused.caller),
        Refusal::By(peer) => put_number(object, "by", u64::from(peer)),
        Refusal::Unreachable(peer, fault) => put_unreachable(object, peer, fault),
        Refusal::Unsteady(peer) => put_number(object, "member", u64::from(peer)),
        Refusal::Threadless => Ok(()),
        Refusal::Crowded => Ok(()),
        Refusal::Stalled(host) => put_address(object, alloc, host),
    }
}

/// Appends the host of a refused connection, why it was refused, and who it said it was.
fn put_host(
    object: &mut Writer,
    alloc: Global,
    host: IpAddr,
    end: LinkEnd,
    caller: Option<Caller>,
) -> Result<(), AllocError>
    ensures { Adds result object.old object.new (refusal_fields (From host end) caller) }
{
    let host = format!(in alloc; "{host}")?;
    put_text(object, "host", host.as_str())?;
    put_text(object, "cause", cause_text(end))?;
    put_said(object, caller)
}

/// Returns the word for what ended a link.
fn cause_text(end: LinkEnd) -> &'static str
    ensures { result.now ≡ cause_text end }
{
    match end {
        LinkEnd::Ended => "ended",
        LinkEnd::Lost => "lost",
        LinkEnd::Broken(WireFault::BadLength) => "broken BadLength",
        LinkEnd::Broken(WireFault::BadType) => "broken BadType",
        LinkEnd::Broken(WireFault::BadKind) => "broken BadKind",
        LinkEnd::Broken(WireFault::BadPlace) => "broken BadPlace",
        LinkEnd::Broken(WireFault::BadValue) => "broken BadValue",
        LinkEnd::Broken(WireFault::BadHello) => "broken BadHello",
        LinkEnd::Broken(WireFault::BadCount) => "broken BadCount",
        LinkEnd::OutOfOrder => "out-of-order",
        LinkEnd::Stranger => "stranger",
        LinkEnd::Busy => "busy",
        LinkEnd::Stopped => "stopped",
        LinkEnd::Memory => "memory",
    }
}

/// Appends who a refused connection said it was, if it said so.
fn put_said(object: &mut Writer, caller: Option<Caller>) -> Result<(), AllocError>
    ensures { Adds result object.old object.new (caller_fields caller) }
{
    match caller {
        Some(caller) => put_caller(object, caller),
        None => Ok(()),
    }
}

/// Appends who a refused connection said it was.
fn put_caller(object: &mut Writer, caller: Caller) -> Result<(), AllocError>
    ensures { Adds result object.old object.new (caller_fields (Some caller)) }
{
    put_number(object, "member", u64::from(caller.member))?;
    match caller.differs {
        Some(difference) => put_difference(object, difference),
        None => Ok(()),
    }
}

/// Appends the first thing in which a Hello isn't one for this member.
fn put_difference(object: &mut Writer, difference: Difference) -> Result<(), AllocError>
    ensures { Adds result object.old object.new (difference_fields difference) }
{
    match difference {
        Difference::Version(version) => {
            put_difference_number(object, "version", u64::from(version))
        }
        Difference::Cluster(cluster) => put_difference_number(object, "cluster", cluster),
        Difference::Size { n, t, questions } => put_size(object, n, t, questions),
        Difference::To(member) => put_difference_number(object, "to", u64::from(member)),
        Difference::Host => put_text(object, "differs", "host"),
    }
}

/// Appends in what a Hello differs, and a number that says how.
fn put_difference_number(object: &mut Writer, name: &str, number: u64) -> Result<(), AllocError>
    ensures { Adds result object.old object.new
        (text_field (codes "differs") name.now ++ number_field name.now number) }
{
    put_text(object, "differs", name)?;
    put_number(object, name, number)
}

/// Appends the size that a Hello says.
fn put_size(object: &mut Writer, n: u8, t: u8, questions: u16) -> Result<(), AllocError>
    ensures { Adds result object.old object.new (difference_fields (Size n t questions)) }
{
    put_text(object, "differs", "size")?;
    put_size_numbers(object, n, t, questions)
}

/// Appends the numbers of a size.
fn put_size_numbers(object: &mut Writer, n: u8, t: u8, questions: u16) -> Result<(), AllocError>
    ensures { Adds result object.old object.new (size_fields n t questions) }
{
    put_members(object, n, t)?;
    put_number(object, "questions", u64::from(questions))
}

/// Appends how many members there are, and how many may lie.
fn put_members(object: &mut Writer, n: u8, t: u8) -> Result<(), AllocError>
    ensures { Adds result object.old object.new (members_fields n t) }
{
    put_number(object, "n", u64::from(n))?;
    put_number(object, "t", u64::from(t))
}

/// Appends which member can't be reached, and why.
fn put_unreachable(object: &mut Writer, peer: u8, fault: DialFault) -> Result<(), AllocError>
    ensures { Adds result object.old object.new (unreachable_fields peer fault) }
{
    put_number(object, "to", u64::from(peer))?;
    put_text(object, "cause", dial_fault_text(fault))
}

/// Returns the words for why a member can't be reached.
fn dial_fault_text(fault: DialFault) -> &'static str
    ensures { result.now ≡ dial_fault_text fault }
{
    match fault {
        DialFault::Refused => "refused",
        DialFault::NoAnswer => "no answer",
        DialFault::NoRoute => "no route",
        DialFault::Failed => "failed",
    }
}

/// Appends what is said of a client that was closed for another.
fn put_closed(
    object: &mut Writer,
    alloc: Global,
    host: Option<IpAddr>,
    slot: u8,
    silent: u64,
) -> Result<(), AllocError>
    ensures { Adds result object.old object.new (closed_fields host slot silent) }
{
    put_known_host(object, alloc, host)?;
    put_place(object, slot, silent)
}

/// Appends a host, if it is known.
fn put_known_host(
    object: &mut Writer,
    alloc: Global,
    host: Option<IpAddr>,
) -> Result<(), AllocError>
    ensures { Adds result object.old object.new (host_field host) }
{
    match host {
        Some(host) => put_address(object, alloc, host),
        None => Ok(()),
    }
}

/// Appends a host.
fn put_address(object: &mut Writer, alloc: Global, host: IpAddr) -> Result<(), AllocError>
    ensures { Adds result object.old object.new (host_field (Some host)) }
{
    let host = format!(in alloc; "{host}")?;
    put_text(object, "host", host.as_str())
}

/// Appends the place of a client, and for how many seconds it was silent.
fn put_place(object: &mut Writer, slot: u8, silent: u64) -> Result<(), AllocError>
    ensures { Adds result object.old object.new (place_fields slot silent) }
{
    put_number(object, "place", u64::from(slot))?;
    put_number(object, "silent", silent)
}

/// Appends what is said of a decision.
fn put_decision(object: &mut Writer, question: u16, bit: bool) -> Result<(), AllocError>
    ensures { Adds result object.old object.new
        (number_field (codes "question") question ++ number_field (codes "bit") (bit_number bit)) }
{
    put_number(object, "question", u64::from(question))?;
    put_number(object, "bit", u64::from(bit))
}

/// Appends a field that has a number.
fn put_number(object: &mut Writer, name: &str, number: u64) -> Result<(), AllocError>
    ensures { Adds result object.old object.new (number_field name.now number) }
{
    object.key(name)?;
    object.u64(number)
}

/// Appends what the system said of the journal's file, if it is known.
fn put_device(object: &mut Writer, device: Option<&str>) -> Result<(), AllocError>
    ensures { Adds result object.old object.new
        (device_field (option_map (λ text. text.now) device.entry)) }
{
    match device {
        Some(text) => put_text(object, "device", text),
        None => Ok(()),
    }
}

/// Appends a field that has a text.
fn put_text(object: &mut Writer, name: &str, text: &str) -> Result<(), AllocError>
    ensures { Adds result object.old object.new (text_field name.now text.now) }
{
    object.key(name)?;
    object.string(text)
}
