//! The reader of a link: begin at `read_link`.
ghost use Rattle.std.specs.Prelude.{◌≡◌, ◌⊎◌, ◌<◌, ◌≤◌, ◌∷◌, ◌++◌, length, List, [], ℕ, true, false, IfOk, IfErr, IsErrOf, OnOk, OnErr};
ghost use Rattle.wire.specs.Reading.{AreBytes};
ghost use Rattle.node.specs.Groups.{said_in, heard_from};
ghost use Rattle.node.specs.Firsts.{IsLawfulSeat};
ghost use Rattle.node.specs.Lines.{WasHeard};
ghost use Rattle.links.specs.Groups.{RefusesGroup, end_of};
ghost use Rattle.links.specs.Tosses.{Draws, DrawsSome, tosses_in};
ghost use Rattle.links.specs.Tossed.{HandsPart, HandsTossed, HandsTossedSome, TossesLink};
ghost use Rattle.links.specs.Handing.{in_order, all_in_place, HandsInSome, HandsInFewer, HandsInAll, ReadsLink};
ghost use Rattle.links.specs.Turns.{Waits, ReadsOn, ReadsOff};

use crate::ends::LinkEnd;
use crate::stream::Stream;
use crate::writer::write_message;
use disk::Disk;
use member::MemberFault;
use node::{Hub, Naming, Seat};
use rounds::{Toss, Tosser};
use std::alloc::Global;
use std::sync::Wait;
use std::time::Clock;
use terms::{Memory, Statement};
use wire::{Fed, Feeder, Message, Version};

/// The most bytes of a read.
const PIECE: usize = 512;

/// The most statements of a group.
const GROUP: usize = 256;

/// A moment of a reader: round each group of statements that it hands in, while it doesn't hold the
/// book's lock. The statements that a read gave are a group; of more than 256 each 256 are one.
/// Where a read gave none there is no point.
#[derive(Clone, Copy, Debug, PartialEq, Eq)]
pub enum Point {
    /// Before a group of statements of that peer, a number below n, is handed in.
    Before(u8),
    /// After a group of that peer was handed in or refused.
    After(u8),
}

/// The points that a reader passes. It may hold the reader up in a test, and returns at once in a
/// program.
pub trait Gate {
    /// Passes a point.
    fn pass(&self, point: Point);
}

/// A gate that holds nobody up.
#[derive(Clone, Copy, Debug)]
pub struct OpenGate;

impl Gate for OpenGate {
    fn pass(&self, _point: Point) {}
}

/// A session of the link from the seat's peer, whose Hello was read: writes the Welcome with the
/// seat's next, and then hands in each statement that the stream gives, until the session ends. It
/// gives the seat back, and the stream is closed.
///
/// The statements of a read, which is of at most 512 bytes, are handed in as one group
/// ([`node::Hub::hand_in`]), or as groups of 256 where there are more. A draw of the tosser goes
/// with each statement, in order. The gate's points stand round each group, and it reads on once
/// the group was answered.
///
/// It ends:
///
/// - `Ended`, `Lost`: the input ended, also within a frame; a read or a write failed.
/// - `Broken`, `OutOfOrder`: behind what was handed in come bytes that begin no frame; a Hello or a
///   Welcome, and in a session of version 1 several statements of one frame.
/// - `Stopped`: the member, which is stopped, refused a group of what was read. The group and what
///   was read behind it weren't handed in.
/// - `Memory`: there was no memory, and a beginning of what was read was handed in, perhaps none of
///   it.
pub fn read_link<D: Disk, J: Naming, S: Stream, G: Gate, T: Tosser, R: Wait + Clock>(
    rt: &R,
    alloc: Global,
    hub: &Hub<D, J>,
    seat: Seat<J>,
    stream: &mut S,
    version: Version,
    gate: &G,
    tosser: &mut T,
) -> (Seat<J>, LinkEnd)
    // The number in its Welcome is that of statements which the account of the hub's book has of
    // this peer.
    ensures counted { IsLawfulSeat seat }
    // It hands in what it read.
    ensures reads { ReadsLink version hub.now.size (S.told stream.old)
        (S.told stream.new) seat result.0 result.1 }
    // The k-th statement that it hands in goes with the k-th toss that it draws, and the hub's book
    // hears it so.
    ensures tosses { TossesLink T.may_toss tosser.old tosser.new version hub.now.size
        (S.told stream.old) (S.told stream.new) seat result.0 result.1 }
    ensures closed { S.is_closed stream.new ≡ true }
{
    seat.recall();
    let reader = Reader {
        rt,
        alloc,
        hub,
        version,
        gate,
    };
    let (seat, why) = reader.read_session(seat, stream, tosser);
    stream.close();
    (seat, why)
}

/// A session of a reader: its hub, the gate round its groups, its version, and the runtime by which
/// it waits.
#[derive(Drop)]
struct Reader<'a, D: Disk, J: Naming, G, R> {
    rt: &'a R,
    alloc: Global,
    hub: &'a Hub<D, J>,
    version: Version,
    gate: &'a G,
}

impl<D: Disk, J: Naming, G: Gate, R: Wait + Clock> Reader<'_, D, J, G, R> {
    /// A session but for the closing of its stream.
    fn read_session<S: Stream, T: Tosser>(
        &self,
        mut seat: Seat<J>,
        stream: &mut S,
        tosser: &mut T,
    ) -> (Seat<J>, LinkEnd)
        ensures { TossesLink T.may_toss tosser.old tosser.new self.now.version self.now.hub.now.size
            (S.told stream.old) (S.told stream.new) seat result.0 result.1 }
    {
        seat.recall();
        let size = self.hub.header().size();
        size.recall();
        let welcome = Message::Welcome { next: seat.next() };
        match write_message(self.alloc, stream, &welcome) {
            Ok(()) => {}
            Err(why) => return (seat, why),
        }
        let mut feeder = Feeder::new(size);
        let mut messages = Vec::new(self.alloc);
        for _ in self.rt.forever() {
            if let Err(why) = self.turn(&mut seat, stream, &mut feeder, &mut messages, tosser) {
                return (seat, why);
            }
        }
        unreachable!()
    }

    /// Reads a piece, and hands in what it gives. The clause `on` is of a session that goes on,
    /// `off` of one that ended.
    fn turn<S: Stream, T: Tosser>(
        &self,
        seat: &mut Seat<J>,
        stream: &mut S,
        feeder: &mut Feeder,
        messages: &mut Vec<Message>,
        tosser: &mut T,
    ) -> Result<(), LinkEnd>
        ensures on { (rest : List ℕ) → Waits feeder.old rest →
            OnOk result (ReadsOn self.now.version
            (HandsTossed T.may_toss tosser.old tosser.new seat.old seat.new) (S.told stream.old)
            (S.told stream.new) feeder.old.size rest feeder.new seat.old seat.new) }
        ensures off { (rest : List ℕ) → Waits feeder.old rest →
            IfErr result (λ why. ReadsOff self.now.version
            (HandsTossedSome T.may_toss tosser.old tosser.new seat.old seat.new why)
            (S.told stream.old) (S.told stream.new) feeder.old.size rest seat.old seat.new why) }
    {
        seat.recall();
        let mut piece = [0u8; PIECE];
        let count = match stream.read(&mut piece) {
            Ok(0) => return Err(LinkEnd::Ended),
            Ok(count) => count,
            Err(_) => return Err(LinkEnd::Lost),
        };
        are_bytes(&piece[..count]);
        messages.clear();
        let fed = match feeder.feed(&piece[..count], messages) {
            Ok(fed) => fed,
            Err(_) => return Err(LinkEnd::Memory),
        };
        match self.hand_in(seat, messages, tosser) {
            Ok(()) => match fed {
                Fed::More => Ok(()),
                Fed::Broken(fault) => Err(LinkEnd::Broken(fault)),
            },
            Err(why) => Err(why),
        }
    }

    /// Hands in the statements of these messages, up to one that is out of place.
    fn hand_in<T: Tosser>(
        &self,
        seat: &mut Seat<J>,
        messages: &[Message],
        tosser: &mut T,
    ) -> Result<(), LinkEnd>
        ensures ok { OnOk result
            (HandsInAll seat.old seat.new (in_order self.now.version messages.now)) }
        ensures in_place { OnOk result (all_in_place self.now.version messages.now ≡ true) }
        ensures some { OnErr result
            (HandsInSome seat.old seat.new (in_order self.now.version messages.now)) }
        ensures refused { IsErrOf result LinkEnd.Stopped →
            HandsInFewer seat.old seat.new (in_order self.now.version messages.now) }
        ensures order { IsErrOf result LinkEnd.OutOfOrder →
            HandsInAll seat.old seat.new (in_order self.now.version messages.now) }
        ensures out_of_order { IsErrOf result LinkEnd.OutOfOrder →
            all_in_place self.now.version messages.now ≡ false }
        ensures tossed { OnOk result (HandsTossed T.may_toss tosser.old tosser.new seat.old seat.new
            (in_order self.now.version messages.now)) }
        ensures tossed_some { IfErr result
            (λ why. HandsTossedSome T.may_toss tosser.old tosser.new seat.old seat.new why
            (in_order self.now.version messages.now)) }
        ensures only { IfErr result (λ why.
            (why ≡ LinkEnd.OutOfOrder) ⊎ ((why ≡ LinkEnd.Stopped) ⊎ (why ≡ LinkEnd.Memory))) }
    {
        seat.recall();
        let Ok(events) = gather(self.alloc, self.version, messages, tosser) else {
            return Err(LinkEnd::Memory);
        };
        match self.hand_in_groups(seat, &events) {
            Ok(()) => {}
            Err(why) => return Err(why),
        }
        if !all_in_place(self.version, messages) {
            return Err(LinkEnd::OutOfOrder);
        }
        Ok(())
    }

    /// Hands in the statements, each with its toss, in groups of at most 256.
    fn hand_in_groups(
        &self,
        seat: &mut Seat<J>,
        events: &[(Statement, Toss)],
    ) -> Result<(), LinkEnd>
        ensures ok { OnOk result (HandsInAll seat.old seat.new (said_in events.now)) }
        ensures some { OnErr result (HandsInSome seat.old seat.new (said_in events.now)) }
        ensures refused { OnErr result (HandsInFewer seat.old seat.new (said_in events.now)) }
        ensures whole { OnOk result (HandsPart seat.old seat.new events.now []) }
        ensures front { (rest : List (Statement × Toss))
            × HandsPart seat.old seat.new events.now rest }
        ensures only { IfErr result (λ why. (why ≡ LinkEnd.Stopped) ⊎ (why ≡ LinkEnd.Memory)) }
    {
        seat.recall();
        let mut rest = events;
        while !rest.is_empty() {
            let (group, behind) = rest.split_at(rest.len().min(GROUP));
            match self.hand_in_group(seat, group) {
                Ok(()) => {}
                Err(why) => return Err(why),
            }
            rest = behind;
        }
        Ok(())
    }

    /// Hands in one group. When it returns the member has answered it, and what it says of it is on
    /// its way.
    fn hand_in_group(&self, seat: &mut Seat<J>, group: &[(Statement, Toss)]) -> Result<(), LinkEnd>
        requires { length group.now ≤ 256 }
        ensures heard { OnOk result
            (0 < length group.now → WasHeard (heard_from seat.old.peer group.now) seat.new.log) }
        ensures refused { IfErr result
            (RefusesGroup D self.now.hub.now.size (heard_from seat.old.peer group.now)) }
        ensures ok { OnOk result (HandsInAll seat.old seat.new (said_in group.now)) }
        ensures err { OnErr result (seat.new ≡ seat.old) }
        ensures only { IfErr result (λ why. (why ≡ LinkEnd.Stopped) ⊎ (why ≡ LinkEnd.Memory)) }
    {
        self.gate.pass(Point::Before(seat.peer()));
        let handed = self.hub.hand_in(self.rt, seat, group);
        self.gate.pass(Point::After(seat.peer()));
        match handed {
            Ok(()) => Ok(()),
            Err(fault) => Err(end_of(fault)),
        }
    }
}

/// Each of them is below 256. It does nothing.
fn are_bytes(bytes: &[u8])
    ensures { AreBytes bytes.now }
{}

/// Returns `true` if no message is out of place: a Hello or a Welcome, and in version 1 several
/// statements of one frame.
fn all_in_place(version: Version, messages: &[Message]) -> bool
    ensures { result ≡ all_in_place version messages.now }
{
    for message in messages {
        match message {
            Message::Statement(_) => {}
            Message::Idle => {}
            Message::Hello {
                version: _,
                cluster: _,
                size: _,
                from: _,
                to: _,
            } => return false,
            Message::Welcome { next: _ } => return false,
            Message::Statements(_) => match version {
                Version::One => return false,
                Version::Two => {}
            },
        }
    }
    true
}

/// The statements of these messages up to one that is out of place, each with a toss, which are
/// drawn in order.
fn gather<T: Tosser>(
    alloc: Global,
    version: Version,
    messages: &[Message],
    tosser: &mut T,
) -> Result<Vec<(Statement, Toss)>, Memory>
    ensures said { IfOk result (λ events. said_in events.items ≡ in_order version messages.now) }
    ensures tosses { IfOk result
        (λ events. Draws T.may_toss tosser.old (tosses_in events.items) tosser.new) }
    ensures spent { DrawsSome T.may_toss tosser.old tosser.new }
{
    let mut events = Vec::new(alloc);
    for message in messages {
        match message {
            Message::Statement(statement) => push_tossed(&mut events, *statement, tosser)?,
            Message::Idle => {}
            Message::Hello {
                version: _,
                cluster: _,
                size: _,
                from: _,
                to: _,
            } => return Ok(events),
            Message::Welcome { next: _ } => return Ok(events),
            Message::Statements(many) => match version {
                Version::One => return Ok(events),
                Version::Two => push_each(&mut events, many.as_slice(), tosser)?,
            },
        }
    }
    Ok(events)
}

/// Adds each of these statements with the toss that is drawn for it, in order.
fn push_each<T: Tosser>(
    events: &mut Vec<(Statement, Toss)>,
    statements: &[Statement],
    tosser: &mut T,
) -> Result<(), Memory>
    ensures said { OnOk result
        (said_in events.new.items ≡ said_in events.old.items ++ statements.now) }
    ensures toss { OnOk result
        ((begun : T) → Draws T.may_toss begun (tosses_in events.old.items) tosser.old →
        Draws T.may_toss begun (tosses_in events.new.items) tosser.new) }
    ensures spent { DrawsSome T.may_toss tosser.old tosser.new }
{
    for statement in statements {
        push_tossed(events, *statement, tosser)?;
    }
    Ok(())
}

/// Adds a statement with the toss that is drawn for it.
fn push_tossed<T: Tosser>(
    events: &mut Vec<(Statement, Toss)>,
    statement: Statement,
    tosser: &mut T,
) -> Result<(), Memory>
    ensures said { OnOk result
        (said_in events.new.items ≡ said_in events.old.items ++ statement ∷ []) }
    ensures toss { OnOk result
        ((begun : T) → Draws T.may_toss begun (tosses_in events.old.items) tosser.old →
        Draws T.may_toss begun (tosses_in events.new.items) tosser.new) }
    ensures spent { DrawsSome T.may_toss tosser.old tosser.new }
{
    let toss = tosser.toss();
    match events.push((statement, toss)) {
        Ok(()) => Ok(()),
        Err(_) => Err(Memory),
    }
}

/// Returns how a session ends where the member refuses a group.
fn end_of(fault: MemberFault) -> LinkEnd
    ensures is { result ≡ end_of fault }
    ensures only { (result ≡ LinkEnd.Stopped) ⊎ (result ≡ LinkEnd.Memory) }
{
    match fault {
        MemberFault::Memory => LinkEnd::Memory,
        MemberFault::Stopped => LinkEnd::Stopped,
        MemberFault::Device => LinkEnd::Stopped,
        MemberFault::JournalFull => LinkEnd::Stopped,
        MemberFault::NoSuchQuestion => LinkEnd::Stopped,
        MemberFault::NoSuchMember => LinkEnd::Stopped,
    }
}
