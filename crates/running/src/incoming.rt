//! A link that comes in: its stream, which keeps how it began, and the seat of its peer, which only
//! a sender gets whose host may speak for that peer. Begin at `Incoming`, and at `Seats`.

ghost use Rattle.std.specs.Prelude.{ℕ, ◌≡◌, ◌∷◌, ◌++◌, ◌≤◌, List, [], Some, take, IfSome};
ghost use Rattle.links.specs.Told.{nothing};
ghost use Rattle.links.specs.Net.{told_net, is_closed_net};
ghost use Rattle.running.specs.Callers.{claim_bytes, Fits};
ghost use Rattle.running.specs.Hosts.{MaySpeak};
ghost use Rattle.running.specs.declared.callers.Claim.{Claim};
ghost use Rattle.running.specs.declared.incoming.TheConstants.{HELLO};

use crate::callers::Claim;
use crate::hosts::Sender;
use crate::life::Life;
use crate::shared::Shared;
use crate::tossers::LifeTosser;
use disk::Disk;
use links::{LinkEnd, NetStream, OpenGate, Stream, StreamFault, read_link};
use machine::Machine;
use member::Sealed;
use node::{Rack, Seat};
use std::marker::Model;
use std::net::IpAddr;
use std::sync::Wait;
use wire::Version;

/// The length of a Hello.
pub(crate) const HELLO: usize = 18;

/// The first bytes that came, at most 18 of them. Contracts see these bytes.
#[derive(Drop)]
struct Opening {
    bytes: [u8; HELLO],
    length: usize,
    ghost within: { length ≤ HELLO },
}

impl Model for Opening {
    ghost use Rattle.std.specs.Prelude.{ℕ, List, take};

    ghost Value = { List ℕ };

    ghost view = { λ opening. take opening.length opening.bytes };
}

impl Opening {
    /// Nothing came.
    fn new() -> Opening
        ensures { result ≡ [] }
    {
        Opening {
            bytes: [0; HELLO],
            length: 0,
        }
    }

    /// These bytes came too.
    fn extend(&mut self, bytes: &[u8])
        ensures { (before : List ℕ) → self.old ≡ take 18 before →
            self.new ≡ take 18 (before ++ bytes.now) }
    {
        if self.length == HELLO {
            return;
        }
        for byte in bytes {
            self.push(*byte);
        }
    }

    /// A byte more came.
    fn push(&mut self, byte: u8)
        ensures { (before : List ℕ) → self.old ≡ take 18 before →
            self.new ≡ take 18 (before ++ byte ∷ []) }
    {
        if self.length < HELLO {
            self.bytes[self.length] = byte;
            self.length += 1;
        }
    }

    /// The bytes.
    fn bytes(&self) -> &[u8]
        ensures { result.now ≡ self.now }
    {
        &self.bytes[..self.length]
    }
}

/// The stream of a link that comes in. It keeps the first bytes that were read, so that it can be
/// told who was refused.
#[derive(Drop)]
pub(crate) struct Incoming {
    stream: NetStream,
    opening: Opening,
    ghost first: { opening ≡ take 18 (told_net stream).taken },
}

impl Incoming {
    /// A stream over this one, on which nothing happened yet, that keeps how it begins.
    pub(crate) fn new(stream: NetStream) -> Incoming
        requires { told_net stream ≡ nothing }
        ensures { result.stream ≡ stream }
    {
        Incoming {
            stream,
            opening: Opening::new(),
        }
    }

    /// Returns what the first 18 bytes say that were read, if they are a Hello, of whatever
    /// cluster.
    pub(crate) fn claim(&self) -> Option<Claim>
        ensures some { IfSome result
            (λ claim. take 18 (told_net self.now.stream).taken ≡ claim_bytes claim) }
        ensures exact { (claim : Claim) → Fits claim →
            take 18 (told_net self.now.stream).taken ≡ claim_bytes claim → result ≡ Some claim }
    {
        Claim::read(self.opening.bytes())
    }
}

impl Stream for Incoming {
    ghost told = { λ incoming. told_net incoming.stream };

    ghost is_closed = { λ incoming. is_closed_net incoming.stream };

    fn read(&mut self, buf: &mut [u8]) -> Result<usize, StreamFault> {
        match self.stream.read(buf) {
            Ok(count) => {
                self.opening.extend(&buf[..count]);
                Ok(count)
            }
            Err(fault) => Err(fault),
        }
    }

    fn write(&mut self, bytes: &[u8]) -> Result<usize, StreamFault> {
        self.stream.write(bytes)
    }

    fn note_sent(&mut self, items: &[Sealed]) {
        self.stream.note_sent(items);
    }

    fn close(&mut self) {
        self.stream.close();
    }
}

/// The seats of all members. Nothing but a sender gets one.
#[derive(Drop)]
pub(crate) struct Seats<J: Life> {
    rack: Rack<J>,
}

impl<J: Life> Seats<J> {
    /// The seats of a hub that was just opened.
    pub(crate) fn new(seats: Vec<Seat<J>>) -> Seats<J> {
        Seats {
            rack: Rack::new(seats),
        }
    }

    /// Takes the seat of the sender out; none where a session has it.
    pub(crate) fn take<R: Wait>(&self, rt: &R, sender: &Sender<J>) -> Option<Seated<J>>
        ensures peer { IfSome result (λ seated. seated.seat.peer ≡ sender.now.peer) }
        ensures host { IfSome result (λ seated. seated.host ≡ sender.now.host) }
    {
        let (peer, host) = (sender.peer(), sender.host());
        match self.rack.take(rt, peer) {
            Some(seat) => Some(Seated { seat, host }),
            None => None,
        }
    }

    /// All of them, once no thread has one.
    pub(crate) fn into_seats(self) -> Vec<Seat<J>> {
        self.rack.into_seats()
    }

    /// Puts the seat back that was taken out.
    pub(crate) fn put<R: Wait>(&self, rt: &R, seated: Seated<J>) {
        let Seated { seat, host: _ } = seated;
        self.rack.put(rt, seat);
    }
}

/// The seat of a member that has greeted from a host that may speak for it, by the peers that the
/// run was given.
#[derive(Drop)]
pub(crate) struct Seated<J: Life> {
    seat: Seat<J>,
    host: IpAddr,
    ghost may_speak: { MaySpeak J.addresses J.hosts seat.peer host },
}

impl<J: Life> Seated<J> {
    /// Returns the number of the member whose seat it is.
    pub(crate) fn peer(&self) -> u8
        ensures number { result ≡ self.now.seat.peer }
        ensures may_speak { MaySpeak J.addresses J.hosts result self.now.host }
    {
        self.seat.peer()
    }

    /// Reads the link of that member over the stream, with tosses of this life, and puts the seat
    /// back.
    pub(crate) fn read<D: Disk, R: Machine>(
        self,
        rt: &R,
        shared: &Shared<D, J>,
        stream: &mut Incoming,
        version: Version,
        tosser: &mut LifeTosser<J>,
    ) -> LinkEnd {
        let Seated { seat, host: _ } = self;
        let (seat, end) = read_link(
            rt,
            shared.alloc,
            &shared.hub,
            seat,
            stream,
            version,
            &OpenGate,
            tosser,
        );
        shared.seats.rack.put(rt, seat);
        end
    }
}
