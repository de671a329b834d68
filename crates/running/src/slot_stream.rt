//! The stream of a client of a chain, whose lines name slots: begin at `SlotStream`.

ghost use Rattle.std.specs.Prelude.{◌≡◌, ◌≤◌, length};

use crate::admission::Chair;
use crate::epoch::InChain;
use crate::followers::is_passing;
use crate::life::Life;
use crate::shared::Shared;
use crate::sockets::shut;
use crate::timing::{CLIENT_SILENCE, EPOCH_LIMIT};
use disk::Disk;
use epochs::{
    Said, SlotLine, Stored, Verb, asks_epochs, asks_standing, epochs_reply, follow_line, slot_line,
};
use ghost_record::GhostRecord;
use links::{Stream, StreamCall, StreamFault, Trace};
use member::Sealed;
use std::io::{Read, Write};
use std::net::TcpStream;
use std::sync::Wait;

/// The most bytes of a read.
const PIECE: usize = 512;

/// The destination of a client that leaves its epoch.
#[derive(Clone, Copy, Debug, PartialEq, Eq)]
pub(crate) enum Away {
    /// To the epoch of the slot that its line names.
    To(u64),
    /// To the newest: its own epoch ends.
    ToNewest,
    /// Nowhere: it follows decisions from this number on.
    Follows(u64),
}

/// A reply that no desk of an epoch is asked for.
#[derive(Clone, Copy, Debug, PartialEq, Eq)]
enum Stock {
    Decided(bool),
    Undecided,
    Unproposed,
    Gone,
}

impl Stock {
    /// Returns its line.
    fn text(self) -> &'static str {
        match self {
            Stock::Decided(false) => "DECIDED 0\n",
            Stock::Decided(true) => "DECIDED 1\n",
            Stock::Undecided => "UNDECIDED\n",
            Stock::Unproposed => "UNPROPOSED\n",
            Stock::Gone => "ERR 5 gone\n",
        }
    }
}

/// The way of a line.
#[derive(Clone, Copy)]
enum Turn {
    /// The desk of this epoch answers it, and reads it so.
    Here(Said),
    /// The line is answered so.
    Reply(Stock),
    /// The line waits for a decision of an epoch that doesn't run yet.
    Waits,
    /// The line is for another epoch.
    Away(u64),
    /// The line asks for decisions from this number on.
    Follows(u64),
    /// The line asks which epochs are closed.
    Epochs,
}

/// The stream of a client of a chain. Each line that names a slot of this epoch is read with its
/// question in the slot's place. One on a slot of an epoch that doesn't run is answered by what is
/// known of it. At one of another epoch the stream ends, and the line is kept for that one's desk.
#[derive(Drop)]
pub(crate) struct SlotStream<'a, D: Disk, J: Life, R> {
    lines: SlotLines<'a, D, J, R>,
    closed: bool,
    trace: GhostRecord<Trace>,
}

impl<'a, D: Disk, J: Life, R: Wait> SlotStream<'a, D, J, R> {
    /// Returns the stream of the client in this chair, over a copy of its socket.
    pub(crate) fn new(
        rt: &'a R,
        shared: &'a Shared<D, J>,
        chain: &'a InChain,
        chair: &Chair,
        socket: TcpStream,
    ) -> SlotStream<'a, D, J, R> {
        SlotStream {
            lines: SlotLines {
                rt,
                shared,
                chain,
                slot: chair.slot.slot(),
                socket,
                said: chair.said,
                out: Said::nothing(),
                away: None,
                silent: 0,
                waits: None,
                is_long: false,
            },
            closed: false,
            trace: GhostRecord::new(),
        }
    }

    /// Returns where the client goes, if it leaves the epoch, and what was read of it.
    pub(crate) fn leaves(&self) -> Option<(Away, Said)> {
        match self.lines.away {
            Some(away) => Some((away, self.lines.said)),
            None => None,
        }
    }
}

impl<D: Disk, J: Life, R: Wait> Stream for SlotStream<'_, D, J, R> {
    ghost told = { λ stream. stream.trace.value };

    ghost is_closed = { λ stream. stream.closed };

    fn read(&mut self, buf: &mut [u8]) -> Result<usize, StreamFault> {
        if self.lines.advance().is_err() {
            self.trace = self.trace.then(&StreamCall::Failed);
            return Err(StreamFault);
        }
        let count = take_out(&mut self.lines.out, buf);
        if count == 0 {
            self.trace = self.trace.then(&StreamCall::Ended);
            return Ok(0);
        }
        self.trace = self.trace.then(&StreamCall::Read(&buf[..count]));
        Ok(count)
    }

    fn write(&mut self, bytes: &[u8]) -> Result<usize, StreamFault> {
        let Ok(count) = self.lines.socket.write(bytes) else {
            self.trace = self.trace.then(&StreamCall::Failed);
            return Err(StreamFault);
        };
        if count == 0 {
            self.trace = self.trace.then(&StreamCall::Failed);
            return Ok(0);
        }
        self.lines
            .shared
            .hear_client(self.lines.rt, self.lines.slot);
        self.trace = self.trace.then(&StreamCall::Wrote(&bytes[..count]));
        Ok(count)
    }

    fn note_sent(&mut self, items: &[Sealed]) {
        self.trace = self.trace.then(&StreamCall::Sent(items));
    }

    fn close(&mut self) {
        shut(&self.lines.socket);
        self.closed = true;
    }
}

/// The lines of such a client.
#[derive(Drop)]
struct SlotLines<'a, D: Disk, J: Life, R> {
    rt: &'a R,
    shared: &'a Shared<D, J>,
    chain: &'a InChain,
    slot: u8,
    socket: TcpStream,
    /// Bytes that were read and aren't answered.
    said: Said,
    /// Bytes that the desk reads next.
    out: Said,
    away: Option<Away>,
    /// The seconds that it has said nothing.
    silent: u64,
    /// The second in which the first line began to wait, if it does.
    waits: Option<u64>,
    /// The line that is read is longer than any that names a slot: the desk is given all of it.
    is_long: bool,
}

impl<D: Disk, J: Life, R: Wait> SlotLines<'_, D, J, R> {
    /// Goes on until the desk has bytes to read, or there are none to come. Once the epoch's member
    /// ends the client is to leave for the newest.
    fn advance(&mut self) -> Result<(), StreamFault> {
        for _ in self.rt.forever() {
            if !self.out.bytes().is_empty() && !self.has_another() {
                return Ok(());
            }
            if self.out.bytes().is_empty() && !self.is_long && self.is_ending() {
                self.away = Some(Away::ToNewest);
                return Ok(());
            }
            if !self.step()? {
                return Ok(());
            }
        }
        unreachable!()
    }

    /// Returns `true` if this epoch's member ends and the chain goes on.
    fn is_ending(&self) -> bool {
        self.shared.is_closing() && !self.chain.board.is_ended()
    }

    /// Returns `true` if the desk is to read the next line together with those that it reads next:
    /// it was read already, this epoch's desk answers it, and there is room.
    fn has_another(&self) -> bool {
        if self.is_long {
            return false;
        }
        let Some(length) = self.said.line_end() else {
            return false;
        };
        if length >= self.out.room() {
            return false;
        }
        match self.turn_line(length) {
            Turn::Here(_) => true,
            Turn::Reply(_) | Turn::Epochs | Turn::Waits | Turn::Away(_) | Turn::Follows(_) => false,
        }
    }

    /// Goes on until the desk has bytes to read: `false` if there are none to come.
    fn step(&mut self) -> Result<bool, StreamFault> {
        if self.is_long {
            return self.step_long();
        }
        match self.said.line_end() {
            Some(length) => self.step_line(length, b"\n"),
            None if self.said.room() == 0 => {
                self.is_long = true;
                Ok(true)
            }
            None => self.fill(),
        }
    }

    /// Hands on to the desk what was read of a long line.
    fn step_long(&mut self) -> Result<bool, StreamFault> {
        let kept = self.said.bytes().len();
        if kept == 0 {
            return self.fill();
        }
        let end = self.said.line_end();
        let count = match end {
            Some(length) => length.saturating_add(1).min(kept),
            None => kept,
        };
        self.out.extend(&self.said.bytes()[..count]);
        self.said.drop_front(count);
        self.is_long = end.is_none();
        Ok(true)
    }

    /// Reads more: `false` at the end of the input, or if the client is to leave.
    fn fill(&mut self) -> Result<bool, StreamFault> {
        let mut piece = [0u8; PIECE];
        let room = self.said.room().min(PIECE);
        self.shared.admission.end_answering();
        let read = self.socket.read(&mut piece[..room]);
        self.shared.admission.begin_answering();
        match read {
            Ok(0) => {
                let left = self.said.bytes().len();
                if left == 0 {
                    return Ok(false);
                }
                self.step_line(left, b"")
            }
            Ok(count) => {
                self.silent = 0;
                self.shared.hear_client(self.rt, self.slot);
                self.said.extend(&piece[..count.min(room)]);
                Ok(true)
            }
            Err(error) => {
                if is_passing(error.kind()) {
                    return self.note_silence();
                }
                Err(StreamFault)
            }
        }
    }

    /// Hands the line of so many bytes to the desk, answers it, or keeps it for another epoch.
    fn step_line(&mut self, length: usize, end: &[u8]) -> Result<bool, StreamFault> {
        match self.turn_line(length) {
            Turn::Here(text) => {
                self.out.extend(text.bytes());
                self.out.extend(end);
            }
            Turn::Reply(stock) => {
                if self.socket.write_all(stock.text().as_bytes()).is_err() {
                    return Err(StreamFault);
                }
            }
            Turn::Epochs => self.tell_epochs()?,
            Turn::Away(epoch) => {
                self.away = Some(Away::To(epoch));
                return Ok(false);
            }
            Turn::Waits => return self.wait_on(),
            Turn::Follows(number) => {
                self.away = Some(Away::Follows(number));
                self.said = Said::nothing();
                return Ok(false);
            }
        }
        self.waits = None;
        self.said.drop_front(length.saturating_add(end.len()));
        Ok(true)
    }

    /// Returns what becomes of the line of so many bytes that was read.
    fn turn_line(&self, length: usize) -> Turn {
        let bytes = self.said.bytes();
        let line = &bytes[..length.min(bytes.len())];
        if let Some(number) = follow_line(line) {
            return Turn::Follows(number);
        }
        match slot_line(line) {
            Some(line) => self.turn_slot(&line),
            None if asks_epochs(line) => Turn::Epochs,
            None if asks_standing(line) && self.is_behind() => {
                Turn::Away(self.chain.board.newest(self.rt))
            }
            None => {
                let mut plain = Said::nothing();
                plain.extend(line);
                Turn::Here(plain)
            }
        }
    }

    /// Returns `true` if this epoch isn't the newest.
    fn is_behind(&self) -> bool {
        self.chain.board.newest(self.rt) != self.chain.epoch
    }

    /// Returns what becomes of a line that names a slot.
    fn turn_slot(&self, line: &SlotLine<'_>) -> Turn {
        // The desk says what is wrong first of a line on a slot that there is not.
        let Some(number) = line.slot else {
            return Turn::Here(line.for_question(u16::MAX));
        };
        let slot = self.chain.board.chain().slot_of(number);
        if slot.epoch == self.chain.epoch {
            if line.proposes() {
                self.chain.board.note_proposal(self.rt, slot.epoch);
            }
            return Turn::Here(line.for_question(slot.question));
        }
        match self.chain.board.stored(self.rt, slot.epoch, slot.question) {
            Some(Stored::Far) if line.verb == Verb::Propose => {
                Turn::Here(line.for_question(u16::MAX))
            }
            Some(_) if !line.is_whole() => Turn::Here(line.for_question(0)),
            Some(stored) => {
                if stored == Stored::Ahead && line.verb == Verb::Propose {
                    self.chain.board.note_proposal(self.rt, slot.epoch);
                }
                stored_turn(stored, line.verb, slot.epoch)
            }
            None => Turn::Away(slot.epoch),
        }
    }

    /// Says the first epoch that isn't closed here, and the newest.
    fn tell_epochs(&mut self) -> Result<(), StreamFault> {
        let board = &self.chain.board;
        let reply = epochs_reply(board.first_open(self.rt), board.newest(self.rt));
        match self.socket.write_all(reply.bytes()) {
            Ok(()) => Ok(()),
            Err(_) => Err(StreamFault),
        }
    }

    /// Waits for a change, after which the line is looked at anew. After ten seconds it is
    /// answered, and also if this epoch ends: then the client is to leave for the newest.
    fn wait_on(&mut self) -> Result<bool, StreamFault> {
        let now = self.shared.hub.seconds();
        let begun = *self.waits.get_or_insert(now);
        let is_over = self.chain.board.is_over(self.rt, self.chain.epoch);
        if now.saturating_sub(begun) < EPOCH_LIMIT && !is_over {
            self.chain.board.await_change(self.rt);
            return Ok(true);
        }
        self.waits = None;
        if self.socket.write_all(b"UNDECIDED\n").is_err() {
            return Err(StreamFault);
        }
        self.shared.hear_client(self.rt, self.slot);
        let length = self.said.line_end().unwrap_or(self.said.bytes().len());
        self.said.drop_front(length.saturating_add(1));
        if is_over {
            self.away = Some(Away::ToNewest);
        }
        Ok(!is_over)
    }

    /// A second has passed in silence: `false` if the client is to leave.
    fn note_silence(&mut self) -> Result<bool, StreamFault> {
        self.silent = self.silent.saturating_add(1);
        if self.silent >= CLIENT_SILENCE {
            return Err(StreamFault);
        }
        if self.chain.board.is_over(self.rt, self.chain.epoch) {
            self.away = Some(Away::ToNewest);
            return Ok(false);
        }
        Ok(true)
    }
}

/// Returns what becomes of a line on a slot of an epoch that doesn't run.
fn stored_turn(stored: Stored, verb: Verb, epoch: u64) -> Turn {
    match (stored, verb) {
        (Stored::Gone, _) => Turn::Reply(Stock::Gone),
        (Stored::Decided(bit), Verb::Ask | Verb::Await | Verb::State) => {
            Turn::Reply(Stock::Decided(bit))
        }
        (Stored::Open | Stored::Ahead | Stored::Far, Verb::Ask) => Turn::Reply(Stock::Undecided),
        (Stored::Ahead | Stored::Far, Verb::Transcript) => Turn::Reply(Stock::Undecided),
        (Stored::Ahead | Stored::Far, Verb::State) => Turn::Reply(Stock::Unproposed),
        (Stored::Ahead | Stored::Far, Verb::Await) => Turn::Waits,
        (Stored::Decided(_), Verb::Propose | Verb::Transcript) => Turn::Away(epoch),
        (Stored::Ahead | Stored::Far, Verb::Propose) => Turn::Away(epoch),
        (Stored::Open, Verb::Propose | Verb::Await | Verb::Transcript | Verb::State) => {
            Turn::Away(epoch)
        }
    }
}

/// Copies the front of what the desk reads next into the buffer, and returns how many bytes.
fn take_out(out: &mut Said, buf: &mut [u8]) -> usize
    ensures { result ≤ length buf.new }
{
    let count = out.bytes().len().min(buf.len());
    buf[..count].copy_from_slice(&out.bytes()[..count]);
    out.drop_front(count);
    count
}
