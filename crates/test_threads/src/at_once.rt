//! Two links and an asker that run at once: begin at `links_and_an_asker_run_at_once`.
ghost use Rattle.std.specs.Prelude.{◌≡◌, ◌<◌, length, IfOk, []};
ghost use Rattle.terms_prelude.specs.Terms.{new_header, new_size};
ghost use Rattle.member.specs.Memory.{memory_disk};
ghost use Rattle.member.specs.Sound.{IsSound};
ghost use Rattle.member.specs.Readers.{member_header, member_saved, MemberStandsFor};

use crate::beginnings::at;
use disk::{Disk, MemDisk};
use journal::Journal;
use links::{Gate, LinkEnd, MemStream, Point, read_link};
use member::Member;
use node::{Board, Book, Entry, Hub, Naming, NewBoard, Rack, Seat, close};
use rounds::{Toss, Tosser};
use std::alloc::Global;
use std::marker::Brand;
use std::process::Abort;
use std::sync::Wait;
use std::sync::atomic::{AtomicBool, Ordering};
use std::test::Fail;
use std::thread;
use std::thread::{Threads, join};
use std::time::{Clock, Duration};
use terms::Kind::Echo;
use terms::{Header, Record, Size, Statement};
use wire::{Message, Version, encode};

/// A tosser that counts on from its last toss.
#[derive(Drop)]
struct Counting {
    last: u64,
}

impl Tosser for Counting {
    fn toss(&mut self) -> Toss {
        self.last = self.last.wrapping_add(1);
        Toss(self.last)
    }
}

/// Returns `true` if the book's history from a place on is these events, each once, with their
/// tosses.
fn goes_on_with<D: Disk, J: Naming>(book: &Book<D, J>, from: usize, events: &[Entry]) -> bool {
    for (at, event) in events.iter().enumerate() {
        if book.event(from.wrapping_add(at)) != Some(*event) {
            return false;
        }
    }
    book.events() == from.wrapping_add(events.len())
}

/// A statement that was heard, with its toss.
fn entry(from: u8, statement: Statement, toss: u64) -> Entry {
    Entry::Heard {
        from,
        statement,
        toss: Toss(toss),
    }
}

/// The Echo that each of the links has.
fn echo() -> Result<Statement, Fail> {
    Ok(at(0, Echo).ok_or("a statement")?)
}

/// The frame of a message.
fn frame(alloc: Global, message: &Message) -> Result<Vec<u8>, Fail> {
    let mut bytes = Vec::new(alloc);
    encode(message, &mut bytes)?;
    Ok(bytes)
}

/// The header of member 0 of the cluster 7, of four members of whom one may lie.
fn header() -> Result<Header, Fail>
    ensures { IfOk result (λ h. h ≡ new_header 7 (new_size 4 1 1) 0) }
{
    Ok(Header::new(7, Size::new(4, 1, 1)?, 0).ok_or("a header")?)
}

/// A member of this header, whose journal has a decision of question 0 for One.
fn start<D: Disk + Drop>(alloc: Global, disk: D, header: &Header) -> Result<Member<D>, Fail>
    requires { 0 < header.now.size.questions }
    ensures sound { IfOk result (λ m. IsSound D.Disk m) }
    ensures fresh { IfOk result (λ m. MemberStandsFor m (member_saved m) []) }
    ensures header { IfOk result (λ m. member_header m ≡ header.now) }
{
    let mut disk = disk;
    journal::create(&mut disk, header)?;
    let (mut journal, _) = Journal::open(alloc, disk, header)?;
    journal.append(&[Record::Decided {
        question: 0,
        round: 1,
        bit: true,
    }])?;
    Ok(Member::open(alloc, journal.into_disk(), header)?)
}

/// Member 0, which decided in an earlier life.
fn member(alloc: Global) -> Result<Member<MemDisk>, Fail>
    ensures sound { IfOk result (λ m. IsSound memory_disk m) }
    ensures fresh { IfOk result (λ m. MemberStandsFor m (member_saved m) []) }
    ensures header { IfOk result (λ m. member_header m ≡ new_header 7 (new_size 4 1 1) 0) }
{
    let header = header()?;
    start(alloc, MemDisk::new(alloc), &header)
}

/// A hub over the member, and its seats.
fn open<J: Naming>(
    alloc: Global,
    member: Member<MemDisk>,
    board: NewBoard,
) -> Result<(Hub<MemDisk, J>, Rack<J>), Fail>
    requires sound { IsSound memory_disk member }
    requires fresh { MemberStandsFor member (member_saved member) [] }
    requires header { member_header member ≡ J.header }
    requires opening { member_saved member ≡ J.opening }
    requires names { board ≡ J.names }
    requires cells { length board.cells ≡ (member_header member).size.questions }
{
    let (hub, seats) = Hub::<MemDisk, J>::open(alloc, member, board)?;
    Ok((hub, Rack::new(seats)))
}

/// The seat of a peer.
fn take<J: Naming, R: Wait>(rt: &R, rack: &Rack<J>, peer: u8) -> Result<Seat<J>, Fail> {
    Ok(rack.take(rt, peer).ok_or("a seat")?)
}

/// Returns `true` if what the seats heard is the history of the hub's book.
fn closes<D: Disk + Drop, J: Naming>(hub: Hub<D, J>, seats: Vec<Seat<J>>) -> bool {
    close(hub, seats).is_ok()
}

/// Holds link 1 up until link 2 has passed and the verdict was read.
#[derive(Drop)]
struct Turnstile<'a, R> {
    rt: &'a R,
    second_passed: AtomicBool,
    verdict_read: AtomicBool,
    gave_up: AtomicBool,
}

impl<R> Turnstile<'_, R> {
    fn new(rt: &R) -> Turnstile<'_, R> {
        Turnstile {
            rt,
            second_passed: AtomicBool::new(false),
            verdict_read: AtomicBool::new(false),
            gave_up: AtomicBool::new(false),
        }
    }
}

impl<R: Clock> Gate for Turnstile<'_, R> {
    fn pass(&self, point: Point) {
        match point {
            Point::Before(1) => {
                for _ in 0..10_000u32 {
                    if self.second_passed.load(Ordering::SeqCst)
                        && self.verdict_read.load(Ordering::SeqCst)
                    {
                        return;
                    }
                    thread::sleep(self.rt, Duration::from_millis(1));
                }
                self.gave_up.store(true, Ordering::SeqCst);
            }
            Point::After(2) => self.second_passed.store(true, Ordering::SeqCst),
            _ => {}
        }
    }
}

/// Asks without a lock until there is a verdict, and then once more.
fn asks<J: Naming, R: Clock>(
    rt: &R,
    hub: &Hub<MemDisk, J>,
    gate: &Turnstile<R>,
) -> Result<bool, terms::Memory> {
    let board: &Board = hub.board();
    let mut pass = board.pass()?;
    for _ in 0..10_000u32 {
        if board.ask(&mut pass, 0) == Some(true) {
            gate.verdict_read.store(true, Ordering::SeqCst);
            return Ok(board.ask(&mut pass, 0) == Some(true));
        }
        thread::sleep(rt, Duration::from_millis(1));
    }
    Ok(false)
}

/// A session of a reader, to which these bytes come.
fn reads<J: Naming, R: Wait + Clock + AllocGlobal>(
    rt: &R,
    hub: &Hub<MemDisk, J>,
    seat: Seat<J>,
    gate: &Turnstile<R>,
    bytes: &[u8],
) -> (Seat<J>, LinkEnd) {
    let mut stream = MemStream::new(rt.alloc());
    if stream.give(bytes).is_err() {
        return (seat, LinkEnd::Memory);
    }
    let mut tosser = Counting {
        last: u64::from(seat.peer()) * 100,
    };
    read_link(
        rt,
        rt.alloc(),
        hub,
        seat,
        &mut stream,
        Version::One,
        gate,
        &mut tosser,
    )
}

/// Two links and an asker run at once, each of the links with an Echo.
fn run_at_once<J: Naming + Send + Sync, R: Threads + Wait + Clock + Abort + AllocGlobal + Sync>(
    rt: &R,
    hub: &Hub<MemDisk, J>,
    rack: &Rack<J>,
) -> Result<(), Fail> {
    let sent = frame(rt.alloc(), &Message::Statement(echo()?))?;
    let bytes = sent.as_slice();
    let gate = Turnstile::new(rt);
    let first = take(rt, rack, 1)?;
    let second = take(rt, rack, 2)?;
    let ((first, first_end), ((second, second_end), asked)) = join(
        rt,
        || reads(rt, hub, first, &gate, bytes),
        || {
            join(
                rt,
                || reads(rt, hub, second, &gate, bytes),
                || asks(rt, hub, &gate),
            )
        },
    );
    assert!(rt; first_end == LinkEnd::Ended && second_end == LinkEnd::Ended);
    assert!(rt; first.next() == 1 && second.next() == 1);
    rack.put(rt, first);
    rack.put(rt, second);
    assert!(rt; asked?);
    assert!(rt; !gate.gave_up.load(Ordering::SeqCst));
    let noted = [entry(2, echo()?, 201), entry(1, echo()?, 101)];
    assert!(rt; goes_on_with(&*hub.lock(rt), 0, &noted));
    Ok(())
}

/// Runs two links of the member and an asker.
fn at_once<J: Naming + Send + Sync, R: Threads + Wait + Clock + Abort + AllocGlobal + Sync>(
    rt: &R,
    member: Member<MemDisk>,
    board: NewBoard,
) -> Result<(), Fail>
    requires sound { IsSound memory_disk member }
    requires fresh { MemberStandsFor member (member_saved member) [] }
    requires header { member_header member ≡ J.header }
    requires opening { member_saved member ≡ J.opening }
    requires names { board ≡ J.names }
    requires cells { length board.cells ≡ (member_header member).size.questions }
{
    let (hub, rack) = open::<J>(rt.alloc(), member, board)?;
    run_at_once(rt, &hub, &rack)?;
    assert!(rt; closes(hub, rack.into_seats()));
    Ok(())
}

#[test]
fn links_and_an_asker_run_at_once(rt: HostRuntime) -> Result<(), Fail> {
    let member = member(rt.alloc())?;
    let board = NewBoard::new(rt.alloc(), 1)?;
    at_once::<Brand, _>(&rt, member, board)
}
