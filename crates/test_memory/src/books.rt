//! A book under the lock of its hub, the board, and what a client asks of it.
ghost use Rattle.std.specs.Prelude.{◌≡◌, IfSome, [], length};
ghost use Rattle.member.specs.Sound.{IsSound};
ghost use Rattle.member.specs.Readers.{member_header, member_saved, MemberStandsFor};

use crate::ending::Ending;
use crate::members::{JOURNAL, are_of_group, says_just, start};
use crate::sessions;
use crate::subject::Subject;
use desk::{Command, Reply, answer};
use disk::{Disk, FileDisk, MemDisk};
use member::{Member, MemberFault};
use node::{Board, Book, Hub, Naming, NewBoard, Seat};
use rounds::Toss;
use std::alloc::Global;
use std::fs;
use std::marker::Brand;
use std::sync::Wait;
use std::time::Clock;

/// A call on a book, its board, or a link over it.
#[derive(Clone, Copy, Debug, PartialEq, Eq)]
pub(crate) enum BookCall {
    Apply,
    ApplyAll,
    Propose,
    Pull,
    Pass,
    Answer,
    ReadLink,
    WriteLink,
}

/// Does a call over a member on a new disk in memory.
pub(crate) fn at_a_book<R: Wait + Clock>(
    rt: &R,
    alloc: Global,
    of: &Subject,
    call: BookCall,
) -> Ending {
    let Some(member) = start(alloc, MemDisk::new(alloc), &of.header) else {
        return Ending::Before;
    };
    let Some(board) = board(alloc) else {
        return Ending::Before;
    };
    at_book::<MemDisk, Brand, R>(rt, alloc, of, member, board, call)
}

/// Does a call over a member that was just opened.
fn at_book<D: Disk + Drop, J: Naming, R: Wait + Clock>(
    rt: &R,
    alloc: Global,
    of: &Subject,
    member: Member<D>,
    board: NewBoard,
    call: BookCall,
) -> Ending
    requires sound { IsSound D.Disk member }
    requires fresh { MemberStandsFor member (member_saved member) [] }
    requires header { member_header member ≡ J.header }
    requires opening { member_saved member ≡ J.opening }
    requires board { board ≡ J.names }
    requires cells { length board.cells ≡ (member_header member).size.questions }
{
    let Some((hub, mut seats)) = open::<D, J>(alloc, member, board) else {
        return Ending::Before;
    };
    match call {
        BookCall::ReadLink => return sessions::reads(rt, alloc, hub, seats),
        BookCall::WriteLink => return sessions::writes(rt, alloc, &hub),
        _ => {}
    }
    match seats.get_mut(0) {
        Some(seat) => on_book(rt, of, &hub, seat, call),
        None => Ending::Wrong("no seat"),
    }
}

/// Does a call on the book of a hub that was just opened, with the seat of member 0.
fn on_book<D: Disk, J: Naming, R: Wait>(
    rt: &R,
    of: &Subject,
    hub: &Hub<D, J>,
    seat: &mut Seat<J>,
    call: BookCall,
) -> Ending {
    let mut book = hub.lock(rt);
    match call {
        BookCall::Apply => applies(&mut book, seat, of),
        BookCall::ApplyAll => applies_all(&mut book, seat, of),
        BookCall::Propose => proposes(&mut book, seat, of),
        BookCall::Pull => pulls(&mut book, of),
        BookCall::Pass => passes(hub.board()),
        BookCall::Answer => answers(&mut book, seat, of),
        BookCall::ReadLink | BookCall::WriteLink => Ending::Wrong("no call on a book"),
    }
}

/// A statement is handed in.
fn applies<D: Disk, J: Naming>(book: &mut Book<D, J>, seat: &mut Seat<J>, of: &Subject) -> Ending {
    match book.apply(seat, &of.initial, Toss(5)) {
        Ok(answer) => {
            let is_so = says_just(&answer, of.echo) && book.events() == 1 && seat.next() == 1;
            Ending::Ample.if_so(is_so, "another answer")
        }
        Err(fault) => refused(book, seat, of, fault),
    }
}

/// A group is handed in: an Initial and an Echo.
fn applies_all<D: Disk, J: Naming>(
    book: &mut Book<D, J>,
    seat: &mut Seat<J>,
    of: &Subject,
) -> Ending {
    match book.apply_all(seat, &[(of.initial, Toss(5)), (of.echo, Toss(6))]) {
        Ok(answers) => {
            let is_so = answers.len() == 2 && book.events() == 2 && seat.next() == 2;
            Ending::Ample.if_so(is_so && book.outbox().len() == 1, "other answers")
        }
        Err(fault) => refused(book, seat, of, fault),
    }
}

/// A client's proposal is answered.
fn answers<D: Disk, J: Naming>(book: &mut Book<D, J>, seat: &mut Seat<J>, of: &Subject) -> Ending {
    let command = Command::Propose {
        question: 0,
        bit: true,
    };
    match answer(book, &command, Toss(5)) {
        Reply::Taken => Ending::Ample.if_so(book.events() == 1, "no entry"),
        Reply::Memory => refused(book, seat, of, MemberFault::Memory),
        Reply::Stopped => refused(book, seat, of, MemberFault::Device),
        _ => Ending::Wrong("another reply"),
    }
}

/// A bit is proposed.
fn proposes<D: Disk, J: Naming>(book: &mut Book<D, J>, seat: &mut Seat<J>, of: &Subject) -> Ending {
    match book.propose(0, true, Toss(5)) {
        Ok(answer) => {
            let is_so = says_just(&answer, of.own) && book.events() == 1;
            Ending::Ample.if_so(is_so, "another answer")
        }
        Err(fault) => refused(book, seat, of, fault),
    }
}

/// The statements of the outbox are pulled.
fn pulls<D: Disk, J: Naming>(book: &mut Book<D, J>, of: &Subject) -> Ending {
    if book.propose(0, true, Toss(5)).is_err() {
        return Ending::Before;
    }
    let (ending, pulled) = match book.pull(0, 64) {
        Ok(pulled) => (Ending::Ample, pulled),
        Err(_) => match book.pull(0, 64) {
            Ok(pulled) => (Ending::Refused, pulled),
            Err(_) => return Ending::Wrong("refused again"),
        },
    };
    match pulled.as_slice() {
        [one] => ending.if_so(
            one.number() == 0 && one.statement() == of.own,
            "another statement",
        ),
        _ => Ending::Wrong("not one statement"),
    }
}

/// A pass of the board is made.
fn passes(board: &Board) -> Ending {
    match board.pass() {
        Ok(mut pass) => Ending::Ample.if_so(board.ask(&mut pass, 0).is_none(), "a verdict"),
        Err(_) => match board.pass() {
            Ok(mut pass) => Ending::Refused.if_so(board.ask(&mut pass, 0).is_none(), "a verdict"),
            Err(_) => Ending::Wrong("refused again"),
        },
    }
}

/// The file of the row that looks at its bytes.
const FILE: &str = "refused-memory.journal";

/// Returns how the call ended that the book refused so.
fn refused<D: Disk, J: Naming>(
    book: &mut Book<D, J>,
    seat: &mut Seat<J>,
    of: &Subject,
    fault: MemberFault,
) -> Ending {
    let ending = match fault {
        MemberFault::Memory => Ending::Refused,
        MemberFault::Device => Ending::Failed,
        _ => return Ending::Wrong("another fault"),
    };
    ending.if_so(is_stopped(book, seat, of), "not stopped, or not as before")
}

/// Returns `true` if the book is of a member that is stopped and has said nothing, and nothing
/// happened to it.
fn is_stopped<D: Disk, J: Naming>(book: &mut Book<D, J>, seat: &mut Seat<J>, of: &Subject) -> bool {
    let is_silent = book.is_stopped() && book.records().is_empty() && book.outbox().is_empty();
    let is_as_before = book.events() == 0 && seat.next() == 0;
    let hears = book.apply(seat, &of.initial, Toss(9));
    let refuses = matches!(hears, Err(MemberFault::Stopped));
    is_silent && is_as_before && refuses && book.events() == 0 && book.status().is_none()
}

/// A hub is opened over a member on a file, whose bytes are then those of its journal.
pub(crate) fn opens_over_a_file(host: &HostRuntime, of: &Subject) -> Ending {
    let alloc = host.alloc();
    let _old = fs::remove_file(host, FILE);
    let Ok(disk) = FileDisk::<Brand>::open(host, FILE, true) else {
        return Ending::Before;
    };
    let Some(member) = start(alloc, disk, &of.header) else {
        return Ending::Before;
    };
    let Some(board) = board(alloc) else {
        return Ending::Before;
    };
    let ending = opens::<FileDisk<Brand>, Brand>(alloc, member, board);
    match fs::read(host, FILE) {
        Ok(bytes) => ending.if_so(bytes.as_slice() == JOURNAL.as_slice(), "file changed"),
        Err(_) => Ending::Before,
    }
}

/// A hub is opened over a member on that file.
fn opens<D: Disk + Drop, J: Naming>(alloc: Global, member: Member<D>, board: NewBoard) -> Ending
    requires sound { IsSound D.Disk member }
    requires fresh { MemberStandsFor member (member_saved member) [] }
    requires header { member_header member ≡ J.header }
    requires opening { member_saved member ≡ J.opening }
    requires board { board ≡ J.names }
    requires cells { length board.cells ≡ (member_header member).size.questions }
{
    match open::<D, J>(alloc, member, board) {
        Some((_, seats)) => Ending::Ample.if_so(seats.len() == 4, "not four seats"),
        None => Ending::Refused,
    }
}

/// A hub over the member; none where memory is refused.
fn open<D: Disk + Drop, J: Naming>(
    alloc: Global,
    member: Member<D>,
    board: NewBoard,
) -> Option<(Hub<D, J>, Vec<Seat<J>>)>
    requires sound { IsSound D.Disk member }
    requires fresh { MemberStandsFor member (member_saved member) [] }
    requires header { member_header member ≡ J.header }
    requires opening { member_saved member ≡ J.opening }
    requires board { board ≡ J.names }
    requires cells { length board.cells ≡ (member_header member).size.questions }
{
    match Hub::<D, J>::open(alloc, member, board) {
        Ok(opened) => Some(opened),
        Err(_) => None,
    }
}

/// A board for one question; none where memory is refused.
fn board(alloc: Global) -> Option<NewBoard>
    ensures { IfSome result (λ b. length b.cells ≡ 1) }
{
    NewBoard::new(alloc, 1).ok()
}
