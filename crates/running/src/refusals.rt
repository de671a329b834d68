//! Refusals and the like, which come again and again, and of which a log is told once a minute:
//! begin at `Refusals::count`, near the end.

ghost use Rattle.std.specs.Prelude.{ℕ, ◌≡◌, ◌+◌, ◌<◌, ◌↔◌, true, false, Some, None, slice_set, IfSome, IfNone, IsTrue};
ghost use Rattle.std.specs.Option.{option_to_list};
ghost use Rattle.running.specs.Refusals.{IsNoted, IsOldest, IsTable, KeepsAt, Lacks, after_due, counted, counted_by, due_of, dues, empty, events_of, held, is_due, is_older, left_of, place_at};
ghost use Rattle.running.specs.Queues.{HaveCome};
ghost use Rattle.running.specs.declared.refusals.KeptRefusal.{KeptRefusal};
ghost use Rattle.running.specs.declared.refusals.Refusal.TheVariants as kinds;

use crate::callers::Caller;
use crate::dialling::DialFault;
use crate::events::LogEvent;
use crate::log::Queue;
use crate::timing::MINUTE;
use links::LinkEnd;
use std::marker::Model;
use std::net::IpAddr;

/// The most refusals that are told apart: four of each of 63 others, such as that they can't be
/// reached, and four more.
const PLACES: usize = 256;

/// A refusal that may come again.
#[derive(Clone, Copy, Debug, PartialEq, Eq)]
pub enum Refusal {
    /// A connection from this host was closed for this cause, before it became a link.
    From(IpAddr, LinkEnd),
    /// This member closed a link to it, before it welcomed it.
    By(u8),
    /// No connection to this member could be made, for this cause.
    Unreachable(u8, DialFault),
    /// A link from this member or to it came up or went down, as too many have in this minute for a
    /// line of its own.
    Unsteady(u8),
    /// The system refused a thread for a session.
    Threadless,
    /// A client that asked to follow decisions was closed, because as many follow as may.
    Crowded,
    /// A client that follows decisions, from this host, was closed, because it took nothing of what
    /// it was owed.
    Stalled(IpAddr),
}

/// A line of a log about a refusal: how often it came, and who was refused last, if it said who it
/// was.
#[derive(Clone, Copy, Debug, PartialEq, Eq)]
pub struct RefusalCount {
    /// The refusal.
    pub refusal: Refusal,
    /// The last one that said that it is a member; none if it said nothing.
    pub caller: Option<Caller>,
    /// The number of times that it came since it was told before, at least one.
    pub count: u64,
}

/// A refusal that is kept.
#[derive(Clone, Copy, Drop)]
pub struct KeptRefusal {
    /// The refusal.
    pub refusal: Refusal,
    /// The last one that was refused.
    pub caller: Option<Caller>,
    /// The number of times that it came since its last line.
    pub held: u32,
    /// The second of its last line.
    pub told: u64,
}

impl KeptRefusal {
    /// Returns what is kept of it when it comes again, and what is told of it: nothing until it is
    /// due.
    fn come_again(&self, now: u64, caller: Option<Caller>) -> (KeptRefusal, Option<RefusalCount>)
        ensures soon { is_due now self.now ≡ false →
            (result.0 ≡ record self.now { caller = caller; held = self.now.held + 1 })
            × (result.1 ≡ None) }
        ensures due { is_due now self.now ≡ true →
            (result.0 ≡ record self.now { caller = caller; held = 0; told = now })
            × (result.1 ≡ Some (record {
              refusal = self.now.refusal;
              caller = caller;
              count = self.now.held + 1;
            })) }
    {
        if self.is_due(now) {
            let line = RefusalCount {
                refusal: self.refusal,
                caller,
                count: u64::from(self.held) + 1,
            };
            let after = KeptRefusal {
                caller,
                held: 0,
                told: now,
                ..*self
            };
            return (after, Some(line));
        }
        let after = KeptRefusal {
            caller,
            held: self.held + 1,
            ..*self
        };
        (after, None)
    }

    /// Returns `true` if a minute has passed since its last line, or as many are held back as can
    /// be counted.
    fn is_due(&self, now: u64) -> bool
        ensures { result ≡ is_due now self.now }
    {
        now.saturating_sub(self.told) >= MINUTE || self.held == u32::MAX
    }
}

/// The refusals that were told last, at most 256. Contracts see its places.
#[derive(Drop)]
pub struct Refusals {
    places: [Option<KeptRefusal>; PLACES],
}

impl Model for Refusals {
    ghost use Rattle.running.specs.Refusals.{IsTable, Table};

    ghost Value = { Table };

    ghost view = { λ refusals. refusals.places };

    ghost invariant = { λ refusals. IsTable refusals.places };
}

impl Refusals {
    /// Nothing was refused.
    pub fn new() -> Refusals
        ensures { result ≡ empty }
    {
        Refusals {
            places: [None; PLACES],
        }
    }

    /// A refusal came, at that second. What is to be told of it is nothing where its last line is
    /// of less than a minute ago, else how often it came since, this time included. Before that
    /// stands what is left to tell of the refusal that gave its place, if one did.
    pub fn count(
        &mut self,
        now: u64,
        refusal: Refusal,
        caller: Option<Caller>,
    ) -> (Option<RefusalCount>, Option<RefusalCount>)
        ensures { IsNoted now refusal caller self.old self.new result.0 result.1 }
    {
        match find(&self.places, refusal) {
            Some((at, kept)) => {
                let line = count_again(&mut self.places, at, &kept, now, caller);
                (None, line)
            }
            None => count_first(&mut self.places, now, refusal, caller),
        }
    }

    /// Has told what is due at that second: of each refusal that was held back and whose last line
    /// is a minute old, how often it came since.
    pub fn tell_due(&mut self, now: u64, queue: &mut Queue)
        ensures events { HaveCome queue.old (events_of (dues now self.old)) queue.new }
        ensures after { (at : ℕ) → at < 256 →
            place_at self.new at ≡ after_due now (place_at self.old at) }
        // No count is lost.
        ensures counts { held self.new + counted_by (dues now self.old) ≡ held self.old }
    {
        tell_all_due(&mut self.places, now, queue);
    }
}

/// Returns the place of a refusal, and what is kept of it.
fn find(places: &[Option<KeptRefusal>; PLACES], refusal: Refusal) -> Option<(usize, KeptRefusal)>
    ensures some { IfSome result
        (λ found. KeepsAt places.now found.0 found.1 × (found.1.refusal ≡ refusal)) }
    ensures within { IfSome result (λ found. found.0 < 256) }
    ensures none { IfNone result (Lacks places.now refusal) }
{
    for (at, kept) in places.iter().enumerate() {
        if let Some(kept) = kept {
            if is_same(kept.refusal, refusal) {
                return Some((at, *kept));
            }
        }
    }
    None
}

/// Returns `true` if these are one refusal.
fn is_same(one: Refusal, other: Refusal) -> bool
    ensures { IsTrue result ↔ (one ≡ other) }
{
    match other {
        Refusal::From(host, end) => is_from(one, host, end),
        Refusal::By(peer) => is_by(one, peer),
        Refusal::Unreachable(peer, fault) => is_unreachable(one, peer, fault),
        Refusal::Unsteady(peer) => is_unsteady(one, peer),
        Refusal::Threadless => is_threadless(one),
        Refusal::Crowded => is_crowded(one),
        Refusal::Stalled(host) => is_stalled(one, host),
    }
}

/// Returns `true` if it is the refusal of that host for this cause.
fn is_from(refusal: Refusal, host: IpAddr, end: LinkEnd) -> bool
    ensures { IsTrue result ↔ (refusal ≡ kinds.From host end) }
{
    match refusal {
        Refusal::From(other, cause) => other == host && cause == end,
        Refusal::By(_) => false,
        Refusal::Unreachable(_, _) => false,
        Refusal::Unsteady(_) => false,
        Refusal::Threadless => false,
        Refusal::Crowded => false,
        Refusal::Stalled(_) => false,
    }
}

/// Returns `true` if it is the refusal by that member.
fn is_by(refusal: Refusal, peer: u8) -> bool
    ensures { IsTrue result ↔ (refusal ≡ kinds.By peer) }
{
    match refusal {
        Refusal::From(_, _) => false,
        Refusal::By(other) => other == peer,
        Refusal::Unreachable(_, _) => false,
        Refusal::Unsteady(_) => false,
        Refusal::Threadless => false,
        Refusal::Crowded => false,
        Refusal::Stalled(_) => false,
    }
}

/// Returns `true` if it says that this member can't be reached, for that cause.
fn is_unreachable(refusal: Refusal, peer: u8, fault: DialFault) -> bool
    ensures { IsTrue result ↔ (refusal ≡ kinds.Unreachable peer fault) }
{
    match refusal {
        Refusal::From(_, _) => false,
        Refusal::By(_) => false,
        Refusal::Unreachable(other, cause) => other == peer && cause == fault,
        Refusal::Unsteady(_) => false,
        Refusal::Threadless => false,
        Refusal::Crowded => false,
        Refusal::Stalled(_) => false,
    }
}

/// Returns `true` if it says that the links of this member come and go.
fn is_unsteady(refusal: Refusal, peer: u8) -> bool
    ensures { IsTrue result ↔ (refusal ≡ kinds.Unsteady peer) }
{
    match refusal {
        Refusal::From(_, _) => false,
        Refusal::By(_) => false,
        Refusal::Unreachable(_, _) => false,
        Refusal::Unsteady(other) => other == peer,
        Refusal::Threadless => false,
        Refusal::Crowded => false,
        Refusal::Stalled(_) => false,
    }
}

/// Returns `true` if it says that a thread was refused.
fn is_threadless(refusal: Refusal) -> bool
    ensures { IsTrue result ↔ (refusal ≡ kinds.Threadless) }
{
    match refusal {
        Refusal::From(_, _) => false,
        Refusal::By(_) => false,
        Refusal::Unreachable(_, _) => false,
        Refusal::Unsteady(_) => false,
        Refusal::Threadless => true,
        Refusal::Crowded => false,
        Refusal::Stalled(_) => false,
    }
}

/// Returns `true` if it says that too many follow.
fn is_crowded(refusal: Refusal) -> bool
    ensures { IsTrue result ↔ (refusal ≡ kinds.Crowded) }
{
    match refusal {
        Refusal::From(_, _) => false,
        Refusal::By(_) => false,
        Refusal::Unreachable(_, _) => false,
        Refusal::Unsteady(_) => false,
        Refusal::Threadless => false,
        Refusal::Crowded => true,
        Refusal::Stalled(_) => false,
    }
}

/// Returns `true` if it says that a follower from that host took nothing.
fn is_stalled(refusal: Refusal, host: IpAddr) -> bool
    ensures { IsTrue result ↔ (refusal ≡ kinds.Stalled host) }
{
    match refusal {
        Refusal::From(_, _) => false,
        Refusal::By(_) => false,
        Refusal::Unreachable(_, _) => false,
        Refusal::Unsteady(_) => false,
        Refusal::Threadless => false,
        Refusal::Crowded => false,
        Refusal::Stalled(other) => other == host,
    }
}

/// A refusal that is kept at a place comes again.
fn count_again(
    places: &mut [Option<KeptRefusal>; PLACES],
    at: usize,
    kept: &KeptRefusal,
    now: u64,
    caller: Option<Caller>,
) -> Option<RefusalCount>
    requires table { IsTable places.old }
    requires kept { KeepsAt places.old at kept.now }
    requires within { at < 256 }
    ensures table { IsTable places.new }
    ensures noted { IsNoted now kept.now.refusal caller places.old places.new None result }
{
    let (after, line) = kept.come_again(now, caller);
    places[at] = Some(after);
    line
}

/// A refusal that isn't kept comes, and takes the place of the one whose last line is the oldest.
fn count_first(
    places: &mut [Option<KeptRefusal>; PLACES],
    now: u64,
    refusal: Refusal,
    caller: Option<Caller>,
) -> (Option<RefusalCount>, Option<RefusalCount>)
    requires table { IsTable places.old }
    requires lacks { Lacks places.old refusal }
    ensures table { IsTable places.new }
    ensures noted { IsNoted now refusal caller places.old places.new result.0 result.1 }
{
    let at = oldest(places);
    let left = left_of(&places[at]);
    places[at] = Some(KeptRefusal {
        refusal,
        caller,
        held: 0,
        told: now,
    });
    let line = RefusalCount {
        refusal,
        caller,
        count: 1,
    };
    (left, Some(line))
}

/// The place whose last line is the oldest, or one that is free.
fn oldest(places: &[Option<KeptRefusal>; PLACES]) -> usize
    ensures { IsOldest places.now result }
{
    let mut oldest = 0;
    for at in 1..PLACES {
        if is_older(&places[at], &places[oldest]) {
            oldest = at;
        }
    }
    oldest
}

/// Returns `true` if the last line of one is older than that of the other. A free place is older
/// than any.
fn is_older(one: &Option<KeptRefusal>, other: &Option<KeptRefusal>) -> bool
    ensures { result ≡ is_older one.now other.now }
{
    match (one, other) {
        (_, None) => false,
        (None, Some(_)) => true,
        (Some(one), Some(other)) => one.told < other.told,
    }
}

/// All that is due at that second is to be told.
fn tell_all_due(places: &mut [Option<KeptRefusal>; PLACES], now: u64, queue: &mut Queue)
    requires { IsTable places.old }
    ensures table { IsTable places.new }
    ensures events { HaveCome queue.old (events_of (dues now places.old)) queue.new }
    ensures after { (at : ℕ) → at < 256 →
        place_at places.new at ≡ after_due now (place_at places.old at) }
    ensures counts { held places.new + counted_by (dues now places.old) ≡ held places.old }
{
    for at in 0..PLACES {
        let line = due_at(places, at, now);
        put_line(queue, line);
    }
}

/// Returns what is due at that second of the refusal at a place.
fn due_at(places: &mut [Option<KeptRefusal>; PLACES], at: usize, now: u64) -> Option<RefusalCount>
    requires table { IsTable places.old }
    requires within { at < 256 }
    ensures table { IsTable places.new }
    ensures due { result ≡ due_of now (place_at places.old at) }
    ensures after { places.new ≡ slice_set places.old at (after_due now (place_at places.old at)) }
{
    let kept = places[at];
    places[at] = after_due(&kept, now);
    due_of(&kept, now)
}

/// Returns what is due of what is kept, at that second.
fn due_of(kept: &Option<KeptRefusal>, now: u64) -> Option<RefusalCount>
    ensures { result ≡ due_of now kept.now }
{
    match kept {
        Some(it) if it.is_due(now) => left_of(kept),
        _ => None,
    }
}

/// Returns what is left to tell of a refusal that gives its place.
fn left_of(kept: &Option<KeptRefusal>) -> Option<RefusalCount>
    ensures { result ≡ left_of kept.now }
{
    match kept {
        Some(kept) if kept.held > 0 => Some(RefusalCount {
            refusal: kept.refusal,
            caller: kept.caller,
            count: u64::from(kept.held),
        }),
        _ => None,
    }
}

/// Returns what is kept of it then.
fn after_due(kept: &Option<KeptRefusal>, now: u64) -> Option<KeptRefusal>
    ensures { result ≡ after_due now kept.now }
{
    match *kept {
        Some(it) if it.is_due(now) && it.held > 0 => Some(KeptRefusal {
            held: 0,
            told: now,
            ..it
        }),
        other => other,
    }
}

/// The line is to be told, if it is one.
pub(crate) fn put_line(queue: &mut Queue, line: Option<RefusalCount>)
    ensures { HaveCome queue.old (events_of (option_to_list line)) queue.new }
{
    if let Some(line) = line {
        queue.put(LogEvent::Refused(line));
    }
}
