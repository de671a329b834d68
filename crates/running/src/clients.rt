//! The threads of the desk.

ghost use Rattle.links.specs.Net.{told_net, is_closed_net};

use crate::admission::Chair;
use crate::doors::Listener;
use crate::epoch::InChain;
use crate::life::Life;
use crate::refusals::Refusal;
use crate::shared::Shared;
use crate::slot_follow::follow;
use crate::slot_stream::{Away, SlotStream};
use crate::sockets::{client_stream, host_of, limit_client};
use crate::timing::SLOT_LIMIT;
use desk::{Desk, DeskEnd, serve};
use disk::Disk;
use epochs::{Arrival, Said};
use links::{NetStream, Stream, StreamFault};
use machine::Machine;
use member::Sealed;
use node::Board;
use std::net::{IpAddr, Ipv4Addr};
use std::sync::Wait;
use std::thread;

/// The stream of a client in a slot. Each read that gives bytes is a hearing of it, and so is each
/// write that takes some.
#[derive(Drop)]
struct Client<'a, D: Disk, J: Life, R> {
    rt: &'a R,
    shared: &'a Shared<D, J>,
    stream: NetStream,
    slot: u8,
}

impl<D: Disk, J: Life, R: Wait> Client<'_, D, J, R> {
    /// Notes that the client was heard, if so many bytes came or went.
    fn note(&self, count: usize) {
        if count > 0 {
            self.shared.hear_client(self.rt, self.slot);
        }
    }
}

impl<D: Disk, J: Life, R: Wait> Stream for Client<'_, D, J, R> {
    ghost told = { λ client. told_net client.stream };

    ghost is_closed = { λ client. is_closed_net client.stream };

    fn read(&mut self, buf: &mut [u8]) -> Result<usize, StreamFault> {
        self.shared.admission.end_answering();
        let read = self.stream.read(buf);
        self.shared.admission.begin_answering();
        match read {
            Ok(count) => {
                self.note(count);
                Ok(count)
            }
            Err(fault) => Err(fault),
        }
    }

    fn write(&mut self, bytes: &[u8]) -> Result<usize, StreamFault> {
        match self.stream.write(bytes) {
            Ok(count) => {
                self.note(count);
                Ok(count)
            }
            Err(fault) => Err(fault),
        }
    }

    fn note_sent(&mut self, items: &[Sealed]) {
        self.stream.note_sent(items);
    }

    fn close(&mut self) {
        self.stream.close();
    }
}

impl<D: Disk, J: Life> Shared<D, J> {
    /// A session of the client in a chair. One that asks to follow decisions leaves the chair, and
    /// its session goes on elsewhere.
    pub(crate) fn answer_client<R: Machine>(&self, rt: &R, chair: Chair) {
        if let Some(chain) = &self.chain {
            self.answer_slots(rt, chain, chair);
            return;
        }
        match self.serve_chair(rt, chair) {
            Some(DeskEnd::Follows(number)) => self.hand_to_followers(rt, chair, number),
            _ => self.admission.leave_chair(rt, chair),
        }
    }

    /// A session of the client in a chair of a member of a chain.
    fn answer_slots<R: Machine>(&self, rt: &R, chain: &InChain, chair: Chair) {
        match self.serve_slots(rt, chain, &chair) {
            Some((Away::To(epoch), said)) => self.hand_over(rt, chain, chair, (Some(epoch), said)),
            Some((Away::ToNewest, said)) => self.hand_over(rt, chain, chair, (None, said)),
            Some((Away::Follows(number), _)) => match self.follow_in(rt, chain, &chair, number) {
                Some(onward) => self.hand_over(rt, chain, chair, onward),
                None => self.admission.leave_chair(rt, chair),
            },
            None => self.admission.leave_chair(rt, chair),
        }
    }

    /// Answers the client in a chair of a member of a chain, until it ends or leaves for another
    /// epoch; none where its socket can't be set up, or it only ended.
    fn serve_slots<R: Machine>(
        &self,
        rt: &R,
        chain: &InChain,
        chair: &Chair,
    ) -> Option<(Away, Said)> {
        let copy = self.admission.sockets.lock(rt).copy(chair.socket)?;
        if limit_client(&copy, SLOT_LIMIT).is_err() {
            return None;
        }
        let mut client = SlotStream::new(rt, self, chain, chair, copy);
        let _end = self.serve_over(rt, chair.slot.slot(), &mut client);
        client.leaves()
    }

    /// Hands the client in a chair to another epoch, or to the newest, with what was read of it.
    fn hand_over<R: Machine>(
        &self,
        rt: &R,
        chain: &InChain,
        chair: Chair,
        onward: (Option<u64>, Said),
    ) {
        let (epoch, said) = onward;
        let taken = self.admission.sockets.lock(rt).take(chair.socket);
        self.admission.leave_slot(rt, chair.slot.slot());
        if let Some(socket) = taken {
            let host = host_of(&socket).unwrap_or(IpAddr::V4(Ipv4Addr::new(127, 0, 0, 1)));
            chain
                .board
                .hand_client(rt, epoch, Arrival { socket, host, said });
        }
    }

    /// Tells the client in a chair decisions from that number on, and returns the line by which it
    /// goes on in another epoch.
    fn follow_in<R: Machine>(
        &self,
        rt: &R,
        chain: &InChain,
        chair: &Chair,
        number: u64,
    ) -> Option<(Option<u64>, Said)> {
        let mut socket = self.admission.sockets.lock(rt).copy(chair.socket)?;
        follow(rt, self, chain, &mut socket, number)
    }

    /// Answers the client in a chair; none where there is no memory for its pass, or its socket
    /// can't be set up.
    fn serve_chair<R: Machine>(&self, rt: &R, chair: Chair) -> Option<DeskEnd> {
        let copy = self.admission.sockets.lock(rt).copy(chair.socket)?;
        let Ok(stream) = client_stream(copy) else {
            return None;
        };
        let mut client = Client {
            rt,
            shared: self,
            stream,
            slot: chair.slot.slot(),
        };
        self.serve_over(rt, chair.slot.slot(), &mut client)
    }

    /// Answers the client in a chair over its stream; none where there is no memory for its pass.
    fn serve_over<S: Stream, R: Machine>(
        &self,
        rt: &R,
        slot: u8,
        stream: &mut S,
    ) -> Option<DeskEnd> {
        let tosser = self.tossers.desk.get(usize::from(slot))?;
        let board: &Board = self.hub.board();
        let Ok(mut pass) = board.pass() else {
            return None;
        };
        // Where another client is being closed for this one, its session has the tosser until it
        // ends.
        let mut tosser = tosser.lock(rt);
        let desk = Desk {
            hub: &self.hub,
            turns: &self.turns,
        };
        self.admission.begin_answering();
        let end = serve(rt, desk, &mut pass, &mut *tosser, stream);
        self.admission.end_answering();
        Some(end)
    }
}

/// Takes clients in, each in a thread of its own, until the end. If all places are taken, the next
/// client waits for one, and those behind it in the listener's queue.
pub(crate) fn accept_clients<D: Disk + Send, J: Life + Send + Sync, R: Machine>(
    rt: &R,
    shared: &Shared<D, J>,
    listener: &Listener,
) {
    thread::scope(thread::scope_env(), rt, |scope| {
        for _ in 0..u64::MAX {
            let admit = |arrival| shared.admit_client(rt, arrival);
            let Some(chair) = shared.next_admitted(rt, listener, admit) else {
                break;
            };
            if scope
                .spawn(move || shared.answer_client(rt, chair))
                .is_err()
            {
                shared.log_refusal(rt, Refusal::Threadless, None);
                shared.admission.leave_chair(rt, chair);
            }
        }
    });
}
