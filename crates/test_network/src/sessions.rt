//! Sessions of links and of clients over streams in memory: how each ends, what was handed in, what
//! was written, and where the next one goes on.
//!
//! `size N T QUESTIONS me M` is the member M of cluster 7, on a new disk that has its journal;
//! `passes CALLS` behind it lets so many calls of the disk pass once the member is open, and `file
//! DIGITS` is its journal. `give DIGITS` gives the next stream these bytes at once, `give DIGITS
//! TIMES` so many times over, `pieces COUNT DIGITS` in pieces of so many, and `line TEXT` a text
//! and the end of a line. `take COUNT` lets its writes take so many bytes at most, `fail CALL` lets
//! that call of it fail, counted from 0, and `fail from CALL` all from that one on; `none from
//! CALL` lets its writes take nothing from that call on.
//!
//! Then a session has it: `greet` answers the peer and the version, or the end; `read PEER VERSION`
//! the end, the number that the link's next session begins with, and what was written; `write PEER
//! VERSION` the end, whether it was welcomed, and what was written; `serve` the end and the
//! replies, with `|` for each end of a line. Behind the others stands how many bytes of the stream
//! weren't read, if any weren't. Whoever writes does so at a hub that is shut, and comes to an end.
//! The tosses of a link count on from a hundred times its peer's number, a client's from 9,000.
//!
//! `fill COUNT` is so many proposals, of 0 and 1 in turn on the questions from 0 on, and `hears
//! COUNT` has the member hear so much of what it said; `stop` stops the member. `status` are the
//! statements and decisions of the member, `records` its records, `history` its events, and `fits`
//! whether these are those of its seats; `lacks` is the same where a seat is missing. Rows of
//! `src/books.rt` and `src/followers.rt` are answered too. `tossers BYTE` are those of the member's
//! life, of a seed of that byte 32 times: how many there are of links, and the last one's first
//! toss, and the same of the desk.
//!
//! What prepares a stream is done once the session comes. Each other row is played behind all
//! before it, from `size` on, at a member of its own.
ghost use Rattle.std.specs.Prelude.{◌≡◌, IfSome, [], length};
ghost use Rattle.member.specs.Memory.{memory_disk};
ghost use Rattle.member.specs.Sound.{IsSound};
ghost use Rattle.member.specs.Readers.{member_header, member_saved, MemberStandsFor};

use crate::books::said_at;
use crate::streams::{Scant, prepare, prepares};
use crate::texts::{add, heard_text, lines_text, nothing, version_of};
use crate::{books, followers};
use desk::{Desk, DeskEnd, Turns, serve};
use disk::{Disk, MemDisk};
use links::{OpenGate, greet, read_link, write_link};
use member::Member;
use node::{Book, Entry, Hub, Naming, NewBoard, Rack, Seat, close};
use rounds::{ChaChaTosser, Toss, Tosser};
use running::tossers_of;
use std::alloc::Global;
use std::marker::Brand;
use std::sync::Wait;
use std::time::Clock;
use terms::Header;
use test_words::{bytes_of, header_of, records_text, words_of};
use wire::Version;

/// A member, and what happens to it.
#[derive(Drop)]
pub struct Sessions {
    alloc: Global,
    beginning: Option<Beginning>,
    file: Vec<u8>,
    rows: Vec<String>,
}

impl Sessions {
    /// Of no member yet.
    pub fn new(alloc: Global) -> Sessions {
        Sessions {
            alloc,
            beginning: None,
            file: Vec::new(alloc),
            rows: Vec::new(alloc),
        }
    }

    /// Plays a row.
    pub fn told<R: Wait + Clock>(&mut self, rt: &R, action: &str) -> Option<String> {
        let words = words_of(self.alloc, action)?;
        match words.as_slice() {
            ["size", rest @ ..] => self.size(rest),
            ["tossers", rest @ ..] => self.tossers(rest),
            _ => self.go_on(rt, action),
        }
    }

    /// Begins with another member, as the words say.
    fn size(&mut self, words: &[&str]) -> Option<String> {
        let [n, t, questions, "me", me, rest @ ..] = words else {
            return None;
        };
        let header = header_of(n, t, questions, me)?;
        match rest {
            [] => self.begin(header, None),
            ["passes", calls] => self.begin(header, Some(calls.parse().ok()?)),
            ["file", digits] => {
                self.begin(header, None);
                self.file = bytes_of(self.alloc, digits)?;
            }
            _ => return None,
        }
        nothing(self.alloc)
    }

    /// Begins with another member.
    fn begin(&mut self, header: Header, passes: Option<u64>) {
        self.beginning = Some(Beginning { header, passes });
        self.file.clear();
        self.rows.clear();
    }

    /// Returns the tossers of the member's life.
    fn tossers(&self, words: &[&str]) -> Option<String> {
        let [byte] = words else {
            return None;
        };
        let (beginning, byte) = (self.beginning?, byte.parse().ok()?);
        tossers_text(self.alloc, (&beginning, &self.file), byte)
    }

    /// Plays a row that isn't the first.
    fn go_on<R: Wait + Clock>(&mut self, rt: &R, action: &str) -> Option<String> {
        let alloc = self.alloc;
        let ending = ending_of(action);
        if matches!(ending, Ending::Told) {
            self.rows.push(action.to_string(alloc).ok()?).ok()?;
        }
        if prepares(alloc, action) {
            return nothing(alloc);
        }
        let beginning = self.beginning?;
        play_new(rt, alloc, (&beginning, &self.file), &self.rows, ending)
    }
}

/// Returns the tossers of a member's life: how many there are, and the first toss of the last one,
/// of links and of the desk.
fn tossers_text(alloc: Global, (beginning, file): (&Beginning, &[u8]), byte: u8) -> Option<String> {
    let member = start(alloc, beginning, file)?;
    match tossers_of(alloc, [byte; 32], &member) {
        Ok(mut tossers) => last_tosses(alloc, &mut tossers.links, &mut tossers.desk),
        Err(_) => None,
    }
}

/// Returns the number of tossers and the first toss of the last one, of links and of the desk.
fn last_tosses(
    alloc: Global,
    links: &mut [ChaChaTosser],
    desk: &mut [ChaChaTosser],
) -> Option<String> {
    let (link, slot) = (links.last_mut()?.toss(), desk.last_mut()?.toss());
    let (links, slots) = (links.len(), desk.len());
    format!(in alloc; "{links} {:016x} {slots} {:016x}", link.0, slot.0).ok()
}

/// The ending that a row asks for.
fn ending_of(action: &str) -> Ending {
    match action {
        "fits" => Ending::Fits,
        "lacks" => Ending::Lacks,
        _ => Ending::Told,
    }
}

/// Plays all rows at a member on a new disk.
fn play_new<R: Wait + Clock>(
    rt: &R,
    alloc: Global,
    (beginning, file): (&Beginning, &[u8]),
    rows: &[String],
    ending: Ending,
) -> Option<String> {
    let member = start(alloc, beginning, file)?;
    let board = board(alloc, beginning.header.size().questions())?;
    play_at::<Brand, R>(rt, alloc, member, board, rows, ending)
}

/// A member on a new disk. Opening it takes three calls.
fn start(alloc: Global, beginning: &Beginning, file: &[u8]) -> Option<Member<MemDisk>>
    ensures sound { IfSome result (λ m. IsSound memory_disk m) }
    ensures fresh { IfSome result (λ m. MemberStandsFor m (member_saved m) []) }
    ensures header { IfSome result (λ m. member_header m ≡ beginning.now.header) }
{
    let mut disk = MemDisk::new(alloc);
    if !is_prepared(&mut disk, &beginning.header, file) {
        return None;
    }
    disk.fuse(beginning.passes.map(|more| more.saturating_add(3)));
    match Member::open(alloc, disk, &beginning.header) {
        Ok(member) => Some(member),
        Err(_) => None,
    }
}

/// Whose journal is made, and how many calls of the disk pass once it is open.
#[derive(Clone, Copy, Drop)]
struct Beginning {
    header: Header,
    passes: Option<u64>,
}

/// Returns `true` if the disk has a journal then: that file, or a new one where it has no byte.
fn is_prepared(disk: &mut MemDisk, header: &Header, file: &[u8]) -> bool {
    if file.is_empty() {
        return journal::create(disk, header).is_ok();
    }
    disk.write_at(0, file).is_ok() && disk.sync().is_ok()
}

/// Plays all rows at a member that was just opened: what the last one answers, or whether its seats
/// fit then.
fn play_at<J: Naming, R: Wait + Clock>(
    rt: &R,
    alloc: Global,
    member: Member<MemDisk>,
    board: NewBoard,
    rows: &[String],
    ending: Ending,
) -> Option<String>
    requires sound { IsSound memory_disk member }
    requires fresh { MemberStandsFor member (member_saved member) [] }
    requires header { member_header member ≡ J.header }
    requires opening { member_saved member ≡ J.opening }
    requires board { board ≡ J.names }
    requires cells { length board.cells ≡ (member_header member).size.questions }
{
    let (hub, seats) = open::<J>(alloc, member, board)?;
    let rack = Rack::new(seats);
    let answer = play_all(rt, alloc, (&hub, &rack), rows)?;
    match ending {
        Ending::Told => Some(answer),
        Ending::Fits => fits_text(alloc, hub, rack.into_seats()),
        Ending::Lacks => lacks_text(alloc, hub, rack.into_seats()),
    }
}

/// Returns whether all seats fit but the last, which is missing.
fn lacks_text<J: Naming>(
    alloc: Global,
    hub: Hub<MemDisk, J>,
    mut seats: Vec<Seat<J>>,
) -> Option<String> {
    let _missing = seats.pop();
    fits_text(alloc, hub, seats)
}

/// Returns whether the seats fit.
fn fits_text<J: Naming>(
    alloc: Global,
    hub: Hub<MemDisk, J>,
    seats: Vec<Seat<J>>,
) -> Option<String> {
    let fits = close(hub, seats).is_ok();
    format!(in alloc; "{fits}").ok()
}

/// How the rows end.
#[derive(Clone, Copy)]
enum Ending {
    /// With what the last one answers.
    Told,
    /// With whether all seats fit.
    Fits,
    /// With whether all but one do.
    Lacks,
}

/// Plays all rows, and gives what the last one answers.
fn play_all<J: Naming, R: Wait + Clock>(
    rt: &R,
    alloc: Global,
    at: (&Hub<MemDisk, J>, &Rack<J>),
    rows: &[String],
) -> Option<String> {
    let mut stream = Scant::new(alloc);
    let mut answer = nothing(alloc)?;
    for row in rows {
        answer = play(rt, alloc, at, &mut stream, row.as_str())?;
    }
    Some(answer)
}

/// Plays a row.
fn play<J: Naming, R: Wait + Clock>(
    rt: &R,
    alloc: Global,
    at: (&Hub<MemDisk, J>, &Rack<J>),
    stream: &mut Scant,
    row: &str,
) -> Option<String> {
    if prepare(alloc, stream, row).is_some() {
        return nothing(alloc);
    }
    answer(rt, alloc, at, stream, &words_of(alloc, row)?)
}

/// Returns what a row answers that isn't of the next stream, which it takes if it is a session.
fn answer<J: Naming, R: Wait + Clock>(
    rt: &R,
    alloc: Global,
    (hub, rack): (&Hub<MemDisk, J>, &Rack<J>),
    stream: &mut Scant,
    words: &[&str],
) -> Option<String> {
    let (word, rest) = words.split_first()?;
    match *word {
        "greet" | "read" | "write" | "serve" => {
            let told = session(rt, alloc, (hub, rack), stream, words);
            *stream = Scant::new(alloc);
            told
        }
        "fill" => fills(rt, alloc, hub, rest),
        "hears" => hears(rt, alloc, (hub, rack), rest),
        "stop" => stop(rt, alloc, hub),
        "follows" => followers::told(rt, alloc, hub, rest),
        "status" | "records" | "history" => looks(rt, alloc, hub, word),
        _ => books::told(rt, alloc, (hub, rack), words),
    }
}

/// Plays a session over the stream.
fn session<J: Naming, R: Wait + Clock>(
    rt: &R,
    alloc: Global,
    (hub, rack): (&Hub<MemDisk, J>, &Rack<J>),
    stream: &mut Scant,
    words: &[&str],
) -> Option<String> {
    match words {
        ["greet"] => greets(alloc, &hub.header(), stream),
        ["read", link @ ..] => reads(rt, alloc, (hub, rack), stream, link_of(link)?),
        ["write", link @ ..] => writes(rt, alloc, hub, stream, link_of(link)?),
        ["serve"] => serves(rt, alloc, hub, stream),
        _ => None,
    }
}

/// Returns the peer of a link and its version.
fn link_of(words: &[&str]) -> Option<(u8, Version)> {
    let [peer, version] = words else {
        return None;
    };
    Some((peer.parse().ok()?, version_of(version)?))
}

/// Plays the session of a greeting.
fn greets(alloc: Global, header: &Header, stream: &mut Scant) -> Option<String> {
    let how = match greet(alloc, stream, header) {
        Ok((from, version)) => format!(in alloc; "{from} {}", version_number(version)),
        Err(end) => format!(in alloc; "{end}"),
    };
    ended(alloc, how.ok()?, stream)
}

/// Returns the number of a version.
fn version_number(version: Version) -> u8 {
    match version {
        Version::One => 1,
        Version::Two => 2,
    }
}

/// Plays the session of a link from a peer, whose seat is put back.
fn reads<J: Naming, R: Wait + Clock>(
    rt: &R,
    alloc: Global,
    (hub, rack): (&Hub<MemDisk, J>, &Rack<J>),
    stream: &mut Scant,
    (peer, version): (u8, Version),
) -> Option<String> {
    let seat = rack.take(rt, peer)?;
    let mut tosser = Counting {
        last: u64::from(peer) * 100,
    };
    let (seat, end) = read_link(
        rt,
        alloc,
        hub,
        seat,
        stream,
        version,
        &OpenGate,
        &mut tosser,
    );
    let next = seat.next();
    rack.put(rt, seat);
    ended(alloc, format!(in alloc; "{end} {next}").ok()?, stream)
}

/// Plays the session of a link to a peer.
fn writes<J: Naming, R: Wait>(
    rt: &R,
    alloc: Global,
    hub: &Hub<MemDisk, J>,
    stream: &mut Scant,
    (peer, version): (u8, Version),
) -> Option<String> {
    hub.shut(rt);
    let (end, is_welcome) = write_link(rt, alloc, hub, peer, stream, version, &OpenGate);
    ended(alloc, format!(in alloc; "{end} {is_welcome}").ok()?, stream)
}

/// Returns how a session ended and what comes with that, and behind it what was written, whether it
/// was left open, and how many bytes weren't read.
fn ended(alloc: Global, how: String, scant: &Scant) -> Option<String> {
    let stream = &scant.inner;
    let written = hex::encode(alloc, stream.output()).ok()?;
    let space = if written.is_empty() { "" } else { " " };
    let open = if stream.is_closed() { "" } else { " open" };
    let left = left_text(alloc, stream.left().len())?;
    format!(in alloc; "{how}{space}{written}{open}{left}").ok()
}

/// Returns how many bytes weren't read, if any weren't.
fn left_text(alloc: Global, left: usize) -> Option<String> {
    match left {
        0 => nothing(alloc),
        left => format!(in alloc; " left {left}").ok(),
    }
}

/// A hub over the member, and its seats.
fn open<J: Naming>(
    alloc: Global,
    member: Member<MemDisk>,
    board: NewBoard,
) -> Option<(Hub<MemDisk, J>, Vec<Seat<J>>)>
    requires sound { IsSound memory_disk member }
    requires fresh { MemberStandsFor member (member_saved member) [] }
    requires header { member_header member ≡ J.header }
    requires opening { member_saved member ≡ J.opening }
    requires board { board ≡ J.names }
    requires cells { length board.cells ≡ (member_header member).size.questions }
{
    match Hub::<MemDisk, J>::open(alloc, member, board) {
        Ok(opened) => Some(opened),
        Err(_) => None,
    }
}

/// Plays a client's session.
fn serves<J: Naming, R: Wait + Clock>(
    rt: &R,
    alloc: Global,
    hub: &Hub<MemDisk, J>,
    stream: &mut Scant,
) -> Option<String> {
    let end = serve_all(rt, hub, stream)?;
    let mut text = format!(in alloc; "{end:?}").ok()?;
    let replies = lines_text(alloc, stream.inner.output())?;
    add(&mut text, " ", replies.as_str())?;
    Some(text)
}

/// Serves a client, and returns why its session ended.
fn serve_all<J: Naming, R: Wait + Clock>(
    rt: &R,
    hub: &Hub<MemDisk, J>,
    stream: &mut Scant,
) -> Option<DeskEnd> {
    let mut pass = hub.board().pass().ok()?;
    let turns = Turns::new();
    let desk = Desk { hub, turns: &turns };
    Some(serve(rt, desk, &mut pass, &mut Counting { last: 9000 }, stream))
}

/// A board for so many questions.
fn board(alloc: Global, questions: u16) -> Option<NewBoard>
    ensures { IfSome result (λ b. length b.cells ≡ questions) }
{
    NewBoard::new(alloc, questions).ok()
}

/// A tosser that counts on from its last toss.
#[derive(Drop)]
struct Counting {
    last: u64,
}

impl Tosser for Counting {
    fn toss(&mut self) -> Toss {
        self.last = self.last.wrapping_add(1);
        Toss(self.last)
    }
}

/// Proposes 0 and 1 in turn on so many questions.
fn fills<J: Naming, R: Wait>(
    rt: &R,
    alloc: Global,
    hub: &Hub<MemDisk, J>,
    words: &[&str],
) -> Option<String> {
    let [count] = words else {
        return None;
    };
    fill(rt, hub, count.parse().ok()?)?;
    nothing(alloc)
}

/// Proposes 0 and 1 in turn on so many questions.
fn fill<J: Naming, R: Wait>(rt: &R, hub: &Hub<MemDisk, J>, count: u16) -> Option<()> {
    let mut book = hub.lock(rt);
    for question in 0..count {
        book.propose(question, question % 2 == 1, Toss(0)).ok()?;
    }
    hub.post(rt, &book);
    Some(())
}

/// The member hears so much of what it said.
fn hears<J: Naming, R: Wait>(
    rt: &R,
    alloc: Global,
    (hub, rack): (&Hub<MemDisk, J>, &Rack<J>),
    words: &[&str],
) -> Option<String> {
    let [count] = words else {
        return None;
    };
    let count = count.parse().ok()?;
    let mut seat = rack.take(rt, hub.header().me())?;
    hear(rt, hub, &mut seat, count)?;
    rack.put(rt, seat);
    nothing(alloc)
}

/// The member hears so much of what it said.
fn hear<J: Naming, R: Wait>(
    rt: &R,
    hub: &Hub<MemDisk, J>,
    seat: &mut Seat<J>,
    count: u64,
) -> Option<()> {
    for number in 0..count {
        if let Some(said) = said_at(rt, hub, number) {
            let mut book = hub.lock(rt);
            book.apply(seat, &said, Toss(0)).ok()?;
            hub.post(rt, &book);
        }
    }
    Some(())
}

/// Stops the member.
fn stop<J: Naming, R: Wait>(rt: &R, alloc: Global, hub: &Hub<MemDisk, J>) -> Option<String> {
    hub.stop(rt);
    nothing(alloc)
}

/// Returns what is answered of the member.
fn looks<J: Naming, R: Wait>(
    rt: &R,
    alloc: Global,
    hub: &Hub<MemDisk, J>,
    what: &str,
) -> Option<String> {
    let book = hub.lock(rt);
    match what {
        "status" => status_text(alloc, book.status()),
        "records" => records_text(alloc, "", book.records()).ok(),
        _ => history_text(alloc, &book),
    }
}

/// Returns how many statements and decisions there are, if the member isn't stopped.
fn status_text(alloc: Global, status: Option<(u64, u16)>) -> Option<String> {
    match status {
        Some((said, decided)) => format!(in alloc; "{said} {decided}").ok(),
        None => format!(in alloc; "stopped").ok(),
    }
}

/// Returns the texts of all events.
fn history_text<J: Naming>(alloc: Global, book: &Book<MemDisk, J>) -> Option<String> {
    let mut text = String::new(alloc);
    for at in 0..book.events() {
        let entry = entry_text(alloc, &book.event(at)?)?;
        add(&mut text, ", ", entry.as_str())?;
    }
    Some(text)
}

/// Returns the text of an event.
fn entry_text(alloc: Global, entry: &Entry) -> Option<String> {
    match entry {
        Entry::Heard {
            from,
            statement,
            toss,
        } => heard_text(alloc, *from, *statement, *toss),
        Entry::Proposed {
            question,
            bit,
            toss,
        } => format!(in alloc; "{question} {} {}", u8::from(*bit), toss.0).ok(),
    }
}
