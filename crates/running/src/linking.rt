//! The threads of links, and the stream of a link that is written, which tells when the link is up:
//! begin at `dial_on`, and at `accept_links`, below the methods, which starts `serve_guest`. What a
//! chain adds, `note_link` and `is_to_dial`, stands in `epoch.rt`.
//!
//! The socket of a session is in `sockets` from `enter_to` or `enter_to_greet` to `leave`, which
//! shuts it down. `dial_once` and `serve_guest` call that as their last step, however the session
//! ended. Its stream has a copy of the socket: `read_link` and `write_link` close it as soon as
//! they end, and `greet` as soon as it refuses, so that the peer learns of it before the rest is
//! done.

ghost use Rattle.std.specs.Prelude.{◌≡◌, take, true, IfOk, IfSome};
ghost use Rattle.links.specs.Greeting.{hello_from};
ghost use Rattle.links.specs.Net.{told_net, is_closed_net};
ghost use Rattle.links.specs.Told.{has_read, nothing};
ghost use Rattle.wire.specs.Texts.{frame_bytes};
ghost use Rattle.running.specs.Callers.{claim_bytes, Differs};
ghost use Rattle.running.specs.Hosts.{MaySpeak};
ghost use Rattle.running.specs.Standings.{after_read, after_written, has_come_up};
ghost use Rattle.running.specs.declared.callers.Claim.{Claim};

use crate::admission::Guest;
use crate::callers::Caller;
use crate::dialling::DialFault;
use crate::doors::Listener;
use crate::events::LogEvent;
use crate::hosts::Sender;
use crate::incoming::{Incoming, Seated};
use crate::life::Life;
use crate::refusals::Refusal;
use crate::shared::Shared;
use crate::timing::{DIAL_LIMIT, LINK_LIMIT, WELCOME_LIMIT};
use crate::tossers::LifeTosser;
use crate::versions::{Choice, Reception};
use disk::Disk;
use links::{LinkEnd, NetStream, OpenGate, Stream, StreamFault, greet, write_link};
use machine::Machine;
use member::Sealed;
use std::net::{IpAddr, SocketAddr, TcpStream};
use std::sync::Wait;
use std::thread;
use std::time::Duration;
use terms::Size;
use wire::{Feeder, Message, Version};

impl<D: Disk, J: Life> Shared<D, J> {
    /// The link to a peer: a session, of version 2 at first, and another once it has ended, until
    /// the end. It is dialled once a second at most, and once more where a link of the peer begins.
    pub(crate) fn dial_on<R: Machine>(&self, rt: &R, peer: u8, address: SocketAddr) {
        let mut choice = Choice::first();
        for _ in rt.forever() {
            if self.is_closing() {
                return;
            }
            let second = self.clock.second(rt);
            if self.is_to_dial(peer) {
                if let Some(reception) = self.dial_once(
                    rt,
                    (peer, address),
                    self.version_of(choice),
                    second,
                ) {
                    self.log_chain_refusal(rt, peer, reception, choice);
                    choice = choice.after(reception);
                }
            }
            self.clock.wait_to_dial(rt, &self.ending, peer, second);
        }
        unreachable!()
    }

    /// Returns the version of the next session. All members of a chain know version 2, and an
    /// epoch that doesn't run yet refuses a session whatever its version.
    fn version_of(&self, choice: Choice) -> Version {
        match &self.chain {
            Some(_) => Version::Two,
            None => choice.version,
        }
    }

    /// Tells that a peer of a chain refused a session, as it is told of one of version 1.
    fn log_chain_refusal<R: Machine>(
        &self,
        rt: &R,
        peer: u8,
        reception: Reception,
        choice: Choice,
    ) {
        if self.chain.is_some() && reception.is_told(choice.version) {
            self.log_refusal(rt, Refusal::By(peer), None);
        }
    }

    /// One session of that version of the link to a peer, which is dialled in this second of the
    /// run, and what came of it; none where nobody listens there.
    fn dial_once<R: Machine>(
        &self,
        rt: &R,
        (peer, address): (u8, SocketAddr),
        version: Version,
        second: u64,
    ) -> Option<Reception> {
        let dialled = self.dialled(rt, peer, address)?;
        let socket = self
            .admission
            .sockets
            .lock(rt)
            .enter_to(dialled, peer, second)?;
        let reception = self.write_over(rt, peer, socket, version);
        self.admission.sockets.lock(rt).leave(socket);
        reception
    }

    /// Returns a new connection to a peer's address; none where nobody listens there, which is
    /// told.
    fn dialled<R: Machine>(&self, rt: &R, peer: u8, address: SocketAddr) -> Option<TcpStream> {
        match TcpStream::connect_timeout(rt, &address, Duration::from_secs(DIAL_LIMIT)) {
            Ok(dialled) => Some(dialled),
            Err(error) => {
                let refusal = Refusal::Unreachable(peer, DialFault::of(error.kind()));
                self.log_refusal(rt, refusal, None);
                None
            }
        }
    }

    /// Writes the link to a peer over the socket of that number, and answers what came of it; none
    /// where that is gone.
    fn write_over<R: Machine>(
        &self,
        rt: &R,
        peer: u8,
        socket: usize,
        version: Version,
    ) -> Option<Reception> {
        let stream = self.stream_at(rt, socket, None)?;
        let limit = Duration::from_secs(WELCOME_LIMIT);
        self.admission.sockets.lock(rt).limit_reads(socket, limit);
        Some(self.write_told(rt, peer, stream, version))
    }

    /// Writes the link to a peer over the stream, and answers what came of it. That it comes up,
    /// and that it goes down again, is to be told, and that it was refused.
    fn write_told<R: Machine>(
        &self,
        rt: &R,
        peer: u8,
        stream: NetStream,
        version: Version,
    ) -> Reception {
        let said = self.hub.said();
        let to = Peer {
            number: peer,
            said,
            size: self.hub.header().size(),
            version,
        };
        let mut outgoing = Outgoing::new(rt, self, stream, to);
        let start = self.clock.second(rt);
        let (end, welcomed) = write_link(
            rt,
            self.alloc,
            &self.hub,
            peer,
            &mut outgoing,
            version,
            &OpenGate,
        );
        self.hub.set_outgoing(rt, peer, false);
        if outgoing.is_up() {
            self.log_of_peer(rt, peer, LogEvent::LinkDownTo(peer, end));
        }
        let waited = self.clock.second(rt).saturating_sub(start);
        let reception = Reception::of(end, welcomed, waited);
        if reception.is_told(version) {
            self.log_refusal(rt, Refusal::By(peer), None);
        }
        reception
    }

    /// Returns the address at which the member of that number listens; none once the own member
    /// ends, and for a number past the members.
    pub(crate) fn address_of(&self, peer: u8) -> Option<SocketAddr> {
        if self.is_closing() || peer >= self.hub.header().size().n() {
            return None;
        }
        self.peers.address_of(peer)
    }

    /// One session of a link from a peer.
    pub(crate) fn serve_guest<R: Machine>(&self, rt: &R, guest: Guest) {
        match self.stream_at(rt, guest.socket, guest.said) {
            Some(stream) => {
                let mut stream = Incoming::new(stream);
                if let Err(end) = self.read_from(rt, guest, &mut stream) {
                    let caller = self.caller_at(guest.host, &stream);
                    self.log_refusal(rt, Refusal::From(guest.host, end), caller);
                }
            }
            None => {
                self.admission.end_greeting(rt, guest.socket);
                self.log_refusal(rt, Refusal::From(guest.host, LinkEnd::Lost), None);
            }
        }
        self.admission.sockets.lock(rt).leave(guest.socket);
    }

    /// A stream over the socket of that number, whose reads give first what was read of it before.
    fn stream_at<R: Machine>(
        &self,
        rt: &R,
        socket: usize,
        said: Option<[u8; 18]>,
    ) -> Option<NetStream>
        ensures { IfSome result (λ stream. told_net stream ≡ nothing) }
    {
        let copy = self.admission.sockets.lock(rt).copy(socket)?;
        let limit = Duration::from_secs(LINK_LIMIT);
        let stream = match said {
            Some(said) => NetStream::behind(copy, said, limit),
            None => NetStream::with_limit(copy, limit),
        };
        match stream {
            Ok(stream) => Some(stream),
            Err(_) => None,
        }
    }

    /// Greets the peer on the stream, and reads its link to the end; or why the link was refused.
    /// Until it has its seat it takes one of the places of those that are to greet.
    fn read_from<R: Machine>(
        &self,
        rt: &R,
        guest: Guest,
        stream: &mut Incoming,
    ) -> Result<(), LinkEnd> {
        let seated = self.seated(rt, guest, stream);
        self.admission.end_greeting(rt, guest.socket);
        let (seated, version) = match seated {
            Ok(Some(seated)) => seated,
            Ok(None) => return Ok(()),
            Err(end) => return Err(end),
        };
        let Some(tosser) = self.tossers.links.get(usize::from(seated.peer())) else {
            self.seats.put(rt, seated);
            return Err(LinkEnd::Busy);
        };
        let mut tosser = tosser.lock(rt);
        self.read_seated(rt, (seated, version), stream, &mut tosser);
        Ok(())
    }

    /// Returns who greets on the stream, and with which version, and the seat of that member; none
    /// where the member is stopped, since it reads no link. That isn't told: each peer dials again
    /// once a second.
    fn seated<R: Machine>(
        &self,
        rt: &R,
        guest: Guest,
        stream: &mut Incoming,
    ) -> Result<Option<(Seated<J>, Version)>, LinkEnd>
        ensures hello { IfOk result
            (λ seated. IfSome seated (λ seated. told_net stream.new.stream
            ≡ has_read (told_net stream.old.stream)
            (frame_bytes (hello_from self.now.hub seated.1 seated.0.seat.peer)))) }
        ensures host { IfOk result
            (λ seated. IfSome seated (λ seated. seated.0.host ≡ guest.host)) }
    {
        let (sender, version) = match self.greeted(guest, stream) {
            Ok(greeted) => greeted,
            Err(end) => return Err(end),
        };
        if self.hub.lock(rt).is_stopped() {
            return Ok(None);
        }
        match self.take_seat(rt, &sender) {
            Some(seated) => Ok(Some((seated, version))),
            None => Err(LinkEnd::Busy),
        }
    }

    /// Returns who greets on the stream, from a host that may speak for that member, and with which
    /// version; else a stranger, to whom nothing is written.
    fn greeted(&self, guest: Guest, stream: &mut Incoming) -> Result<(Sender<J>, Version), LinkEnd>
        ensures hello { IfOk result
            (λ greeted. told_net stream.new.stream
            ≡ has_read (told_net stream.old.stream)
            (frame_bytes (hello_from self.now.hub greeted.1 greeted.0.peer))) }
        ensures host { IfOk result (λ greeted. greeted.0.host ≡ guest.host) }
    {
        match greet(self.alloc, stream, &self.hub.header()) {
            Ok((peer, version)) => match Sender::of(&self.peers, peer, guest.host) {
                Some(sender) => Ok((sender, version)),
                None => Err(LinkEnd::Stranger),
            },
            Err(end) => Err(end),
        }
    }

    /// Reads the link of a peer with its seat and its tosser, and gives the seat back. Where it
    /// begins and where it ends the own link to that peer is dialled anew, if it is of before.
    fn read_seated<R: Machine>(
        &self,
        rt: &R,
        visit: (Seated<J>, Version),
        stream: &mut Incoming,
        tosser: &mut LifeTosser<J>,
    ) {
        let (seated, version) = visit;
        let peer = seated.peer();
        self.note_link(rt, peer, true);
        self.log_of_peer(rt, peer, LogEvent::LinkUp(peer, version));
        self.renew_link_to(rt, peer);
        self.clock.call_dialler(rt, peer);
        let end = seated.read(rt, self, stream, version, tosser);
        self.note_link(rt, peer, false);
        self.log_of_peer(rt, peer, LogEvent::LinkDown(peer, end));
        self.renew_link_to(rt, peer);
    }

    /// Returns who dialled from that host, by the Hello that it said, if it said one.
    fn caller_at(&self, host: IpAddr, stream: &Incoming) -> Option<Caller>
        ensures { IfSome result
            (λ caller. (claim : Claim) × (take 18 (told_net stream.now.stream).taken
            ≡ claim_bytes claim) × (caller.member ≡ claim.from)
            × Differs claim self.now.hub (MaySpeak J.addresses J.hosts claim.from host)
            caller.differs) }
    {
        match stream.claim() {
            Some(claim) => Some(Caller::of(&claim, &self.hub.header(), &self.peers, host)),
            None => None,
        }
    }
}

/// Takes the links in that peers dial, each in a thread of its own, until the end.
pub(crate) fn accept_links<D: Disk + Send, J: Life + Send + Sync, R: Machine>(
    rt: &R,
    shared: &Shared<D, J>,
    listener: &Listener,
) {
    thread::scope(thread::scope_env(), rt, |scope| {
        for _ in 0..u64::MAX {
            let admit = |arrival| shared.admit_peer(rt, arrival);
            let Some(guest) = shared.next_admitted(rt, listener, admit) else {
                break;
            };
            if scope.spawn(move || shared.serve_guest(rt, guest)).is_err() {
                shared.turn_away(rt, guest.socket);
            }
        }
    });
}

/// The progress of a link that is written. Its writer says nothing after the Hello before the
/// Welcome was read, so the first write behind a read is one to a peer that has welcomed it.
#[derive(Clone, Copy, Debug, PartialEq, Eq)]
pub enum Standing {
    /// Nothing was read from the peer.
    Greeting,
    /// Something was read, and nothing written since.
    Answered,
    /// Something was written behind what was read.
    Up,
}

impl Standing {
    /// Returns the progress after a read gave bytes.
    pub fn read(self) -> Standing
        ensures { result ≡ after_read self }
    {
        match self {
            Standing::Greeting => Standing::Answered,
            other => other,
        }
    }

    /// Returns the progress after a write took bytes.
    pub fn written(self) -> Standing
        ensures { result ≡ after_written self }
    {
        match self {
            Standing::Answered => Standing::Up,
            other => other,
        }
    }

    /// Returns `true` if it comes up when a write takes bytes: it was answered, and is not up yet.
    pub fn comes_up(self) -> bool
        ensures { result ≡ has_come_up self (after_written self) }
    {
        self == Standing::Answered
    }
}

/// The peer of a link that is written: its number, how many statements this member had said before
/// it was dialled, and the version of the session.
#[derive(Clone, Copy, Drop)]
pub(crate) struct Peer {
    pub(crate) number: u8,
    pub(crate) said: u64,
    pub(crate) size: Size,
    pub(crate) version: Version,
}

/// The stream of a link that is written. The peer's Welcome is noted as soon as it was read, with
/// how much more the peer has heard of this member than it has said; and once the link is up its
/// event is to be told, if the member has a log.
#[derive(Drop)]
pub(crate) struct Outgoing<'a, D: Disk, J: Life, R> {
    rt: &'a R,
    shared: &'a Shared<D, J>,
    stream: NetStream,
    peer: Peer,
    standing: Standing,
    /// The reader of the Welcome as it passes.
    feeder: Feeder,
    read: Vec<Message>,
    /// The Welcome was noted.
    welcomed: bool,
}

impl<'a, D: Disk, J: Life, R: Wait> Outgoing<'a, D, J, R> {
    /// The stream of a link to this peer.
    pub(crate) fn new(
        rt: &'a R,
        shared: &'a Shared<D, J>,
        stream: NetStream,
        peer: Peer,
    ) -> Outgoing<'a, D, J, R> {
        Outgoing {
            rt,
            shared,
            stream,
            peer,
            standing: Standing::Greeting,
            feeder: Feeder::new(peer.size),
            read: Vec::new(shared.alloc),
            welcomed: false,
        }
    }

    /// Returns `true` if the link has come up.
    pub(crate) fn is_up(&self) -> bool {
        self.standing == Standing::Up
    }

    /// Bytes were read. Until the link is up they are those of the Welcome.
    fn stand_after_read(&mut self, bytes: &[u8])
        ensures { self.new.stream ≡ self.old.stream }
    {
        let _unread = self.feeder.feed(bytes, &mut self.read).is_err();
        self.standing = self.standing.read();
        self.note_welcome();
    }

    /// Notes the Welcome, once it was read.
    fn note_welcome(&mut self)
        ensures { self.new.stream ≡ self.old.stream }
    {
        if self.welcomed || !matches!(self.read.first(), Some(Message::Welcome { .. })) {
            return;
        }
        self.welcomed = true;
        self.shared
            .note_welcome(self.rt, self.peer.number, self.excess());
    }

    /// A write took bytes. Where the link is up by that its event is to be told.
    fn stand_after_write(&mut self)
        ensures { self.new ≡ record self.old { standing = after_written self.old.standing } }
    {
        if self.standing.comes_up() {
            self.log_up();
        }
        self.standing = self.standing.written();
    }

    /// The link is up: its event is to be told.
    fn log_up(&self) {
        let excess = self.excess();
        let event = if excess > 0 {
            LogEvent::LinkUpAhead(self.peer.number, excess, self.peer.version)
        } else {
            LogEvent::LinkUpTo(self.peer.number, self.peer.version)
        };
        self.shared.log_of_peer(self.rt, self.peer.number, event);
    }

    /// Returns how many statements more the peer has heard of this member than it had said when it
    /// was dialled: 0 where the Welcome names no more, or no memory was left to read it.
    fn excess(&self) -> u64 {
        match self.read.first() {
            Some(Message::Welcome { next }) => next.saturating_sub(self.peer.said),
            _ => 0,
        }
    }
}

impl<D: Disk, J: Life, R: Wait> Stream for Outgoing<'_, D, J, R> {
    ghost told = { λ outgoing. told_net outgoing.stream };

    ghost is_closed = { λ outgoing. is_closed_net outgoing.stream };

    fn read(&mut self, buf: &mut [u8]) -> Result<usize, StreamFault> {
        match self.stream.read(buf) {
            Ok(count) => {
                if let Some(bytes) = buf.get(..count) {
                    if count > 0 {
                        self.stand_after_read(bytes);
                    }
                }
                Ok(count)
            }
            Err(fault) => Err(fault),
        }
    }

    fn write(&mut self, bytes: &[u8]) -> Result<usize, StreamFault> {
        match self.stream.write(bytes) {
            Ok(count) => {
                if count > 0 {
                    self.stand_after_write();
                }
                Ok(count)
            }
            Err(fault) => Err(fault),
        }
    }

    fn note_sent(&mut self, items: &[Sealed]) {
        self.stream.note_sent(items);
    }

    fn close(&mut self) {
        self.stream.close();
    }
}
