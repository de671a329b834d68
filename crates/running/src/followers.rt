//! Those that follow decisions, whom one thread tells: begin at `Shared::follow_on`.

ghost use Rattle.std.specs.Prelude.{ℕ, List, ◌≡◌, ◌+◌, ◌-◌, ◌≤◌, ◌++◌, nat_lt, min, take};
ghost use Rattle.std.specs.Prelude.{length, if◌then◌else◌, IfOk, OnErr};

use crate::admission::Chair;
use crate::life::Life;
use crate::refusals::Refusal;
use crate::shared::Shared;
use crate::sockets::{host_of, shut};
use crate::timing::{FOLLOWER_PAUSE, ROUND_PAUSE, ROUND_TIMES};
use desk::{FollowEnd, Follower, Outlet, Telling};
use disk::Disk;
use ghost_record::{Change, GhostRecord, Recorded};
use links::StreamFault;
use machine::Machine;
use std::alloc::Global;
use std::io::{ErrorKind, Read, Write};
use std::marker::Model;
use std::net::{IpAddr, Ipv4Addr, TcpStream};
use std::thread;
use std::time::{Duration, Instant};

/// The most followers of a member.
pub(crate) const FOLLOWERS: u16 = 1024;

/// The number of followers, and the most that there may be. Contracts see both.
#[derive(Drop)]
pub struct Crowd {
    count: u16,
    most: u16,
}

impl Model for Crowd {
    ghost use Rattle.running.specs.Crowds.{CrowdView};

    ghost Value = { CrowdView };

    ghost view = { λ crowd. record { count = crowd.count; most = crowd.most } };
}

impl Crowd {
    /// Nobody follows, and `most` may, but no more than 1,024.
    pub fn new(most: u16) -> Crowd
        ensures { result ≡ record { count = 0; most = min 1024 most } }
    {
        Crowd {
            count: 0,
            most: FOLLOWERS.min(most),
        }
    }

    /// One more comes, and is told whether there is room. If there is none, nothing changes.
    pub fn enter(&mut self) -> bool
        ensures enters { result ≡ nat_lt self.old.count self.old.most }
        ensures count { self.new
            ≡ record self.old { count = if result then self.old.count + 1 else self.old.count } }
    {
        if self.count >= self.most {
            return false;
        }
        self.count += 1;
        true
    }

    /// One leaves. If nobody follows, nothing changes.
    pub fn leave(&mut self)
        ensures { self.new ≡ record self.old { count = self.old.count - 1 } }
    {
        self.count = self.count.saturating_sub(1);
    }
}

/// The bytes that a follower's socket took, to be recorded for clauses alone.
#[derive(Drop)]
pub(crate) struct Taken {}

impl Model for Taken {
    ghost use Rattle.std.specs.Prelude.{ℕ, List, []};

    ghost Value = { List ℕ };

    ghost view = { λ _. [] };
}

impl Recorded for Taken {
    ghost use Rattle.std.specs.Prelude.{[]};

    ghost begun = { [] };
}

/// A write that took these bytes.
#[derive(Clone, Copy, Drop)]
pub(crate) struct Took<'a>(&'a [u8]);

impl Change<Taken> for Took<'_> {
    ghost use Rattle.running.specs.Crowds.{taken_after};

    ghost after = { taken_after };
}

/// The socket of a follower, whose calls wait for nobody.
#[derive(Drop)]
pub(crate) struct FollowerSocket {
    socket: TcpStream,
    taken: GhostRecord<Taken>,
}

impl FollowerSocket {
    /// The socket, from which nothing was written yet; none if the system lets its calls wait.
    fn new(socket: TcpStream) -> Option<FollowerSocket> {
        if socket.set_nonblocking(true).is_err() {
            return None;
        }
        Some(FollowerSocket {
            socket,
            taken: GhostRecord::new(),
        })
    }
}

impl Outlet for FollowerSocket {
    ghost written = { λ socket. socket.taken.value };

    fn write(&mut self, bytes: &[u8]) -> Result<usize, StreamFault> {
        match write_now(&mut self.socket, bytes) {
            Ok(count) => {
                self.taken = self.taken.then(&Took(&bytes[..count]));
                Ok(count)
            }
            Err(fault) => Err(fault),
        }
    }

    fn has_ended(&mut self) -> bool {
        let mut said = [0u8; 512];
        match self.socket.read(&mut said) {
            Ok(count) => count == 0,
            Err(error) => !is_passing(error.kind()),
        }
    }
}

/// Writes some of the bytes at once, and returns how many.
fn write_now(socket: &mut TcpStream, bytes: &[u8]) -> Result<usize, StreamFault>
    ensures { IfOk result (λ count. count ≤ length bytes.now) }
{
    match socket.write(bytes) {
        Ok(count) => Ok(count),
        Err(error) => {
            if is_passing(error.kind()) {
                return Ok(0);
            }
            Err(StreamFault)
        }
    }
}

/// Returns `true` if a call that failed so may be made again.
pub(crate) fn is_passing(kind: ErrorKind) -> bool {
    matches!(kind, ErrorKind::WouldBlock | ErrorKind::Interrupted)
}

/// A follower with its socket.
#[derive(Drop)]
pub(crate) struct FollowerSeat {
    follower: Follower,
    socket: FollowerSocket,
}

impl FollowerSeat {
    /// Tells it what there is.
    fn tell<D: Disk, J: Life, R: Machine>(
        &mut self,
        rt: &R,
        shared: &Shared<D, J>,
    ) -> Result<Telling, FollowEnd> {
        self.follower.tell(rt, &shared.hub, &mut self.socket)
    }

    /// The host from which it comes; this one if the system names none, as for a client at a path.
    fn host(&self) -> IpAddr {
        match host_of(&self.socket.socket) {
            Some(host) => host,
            None => IpAddr::V4(Ipv4Addr::new(127, 0, 0, 1)),
        }
    }
}

/// The followers of a member: their number, and those that came and that the thread that tells them
/// hasn't taken over yet.
#[derive(Drop)]
pub(crate) struct Followers {
    crowd: Crowd,
    came: Vec<FollowerSeat>,
}

impl Followers {
    /// Nobody follows, and so many may.
    pub(crate) fn new(alloc: Global, most: u16) -> Followers {
        Followers {
            crowd: Crowd::new(most),
            came: Vec::new(alloc),
        }
    }

    /// One comes. It is gone if there is no memory.
    fn come(&mut self, seat: FollowerSeat) {
        if self.came.push(seat).is_err() {
            self.crowd.leave();
        }
    }

    /// Takes over those that came.
    fn take_over(&mut self, seats: &mut Vec<FollowerSeat>) {
        for _ in 0..self.came.len() {
            if let Some(seat) = self.came.pop() {
                if seats.push(seat).is_err() {
                    self.crowd.leave();
                }
            }
        }
    }
}

impl<D: Disk, J: Life> Shared<D, J> {
    /// Hands the client in a chair on, who follows decisions from that number on. The chair's place
    /// is free when this returns.
    pub(crate) fn hand_to_followers<R: Machine>(&self, rt: &R, chair: Chair, number: u64) {
        let taken = self.admission.sockets.lock(rt).take(chair.socket);
        if let Some(socket) = taken {
            if let Some(seat) = self.follower_at(rt, socket, number) {
                self.enlist(rt, seat);
            }
        }
        self.admission.leave_slot(rt, chair.slot.slot());
    }

    /// The seat of the client at this socket, which follows decisions from that number on. Where
    /// too many follow, which is to be told, it has none, and is closed.
    fn follower_at<R: Machine>(
        &self,
        rt: &R,
        socket: TcpStream,
        number: u64,
    ) -> Option<FollowerSeat> {
        let is_in = self.followers.lock(rt).crowd.enter();
        if !is_in {
            self.log_refusal(rt, Refusal::Crowded, None);
            shut(&socket);
            return None;
        }
        match FollowerSocket::new(socket) {
            Some(socket) => Some(FollowerSeat {
                follower: Follower::new(&self.hub, number),
                socket,
            }),
            None => {
                self.followers.lock(rt).crowd.leave();
                None
            }
        }
    }

    /// Hands one that came to the thread that tells followers, once it was told what there is.
    fn enlist<R: Machine>(&self, rt: &R, mut seat: FollowerSeat) {
        match self.catch_up(rt, &mut seat) {
            Ok(decided) => {
                self.followers.lock(rt).come(seat);
                self.followed.notify_all();
                // The thread may have told the others of a decision in between, and waits for the
                // next one.
                if self.hub.decided() != decided {
                    self.hub.ring(rt);
                }
            }
            Err(end) => self.end_following(rt, seat, end),
        }
    }

    /// Tells one that came all that there is, as far as it takes that at once, and returns how many
    /// decisions there were.
    fn catch_up<R: Machine>(&self, rt: &R, seat: &mut FollowerSeat) -> Result<u64, FollowEnd> {
        for _ in rt.forever() {
            let decided = self.hub.decided();
            match seat.tell(rt, self) {
                Ok(Telling::Lines) => {}
                Ok(_) => return Ok(decided),
                Err(end) => return Err(end),
            }
        }
        unreachable!()
    }

    /// Tells followers each decision that the member saves, round by round, until the end. Nobody
    /// waits for one of them.
    pub(crate) fn follow_on<R: Machine>(&self, rt: &R) {
        let mut seats = Vec::new(self.alloc);
        for _ in rt.forever() {
            if !self.take_over_followers(rt, &mut seats) {
                return;
            }
            let (began, decided) = (time_of(rt), self.hub.decided());
            let round = self.tell_followers(rt, &mut seats);
            if round.told {
                thread::sleep(rt, rest_behind(rt, began));
            } else if round.waits {
                thread::sleep(rt, Duration::from_millis(FOLLOWER_PAUSE));
            } else if !seats.is_empty() {
                self.hub.await_news(rt, decided);
            }
        }
        unreachable!()
    }

    /// Takes over those that came, and waits for one while nobody follows; false at the end.
    fn take_over_followers<R: Machine>(&self, rt: &R, seats: &mut Vec<FollowerSeat>) -> bool {
        let mut followers = self.followers.lock(rt);
        for _ in rt.forever() {
            if self.is_closing() {
                return false;
            }
            followers.take_over(seats);
            if !seats.is_empty() {
                return true;
            }
            followers = self.followed.wait(rt, followers);
        }
        unreachable!()
    }

    /// Tells each follower what there is.
    fn tell_followers<R: Machine>(&self, rt: &R, seats: &mut Vec<FollowerSeat>) -> Round {
        let mut round = Round {
            told: false,
            waits: false,
        };
        let mut at = 0usize;
        for _ in 0..seats.len() {
            if let Some(telling) = self.tell_follower(rt, seats, at) {
                round = round.with(telling);
                at = at.saturating_add(1);
            }
        }
        round
    }

    /// Tells the follower at a place what there is; none if its session ended: then another has the
    /// place.
    fn tell_follower<R: Machine>(
        &self,
        rt: &R,
        seats: &mut Vec<FollowerSeat>,
        at: usize,
    ) -> Option<Telling> {
        if at >= seats.len() {
            return None;
        }
        match seats[at].tell(rt, self) {
            Ok(telling) => Some(telling),
            Err(end) => {
                let seat = seats.swap_remove(at);
                self.end_following(rt, seat, end);
                None
            }
        }
    }

    /// Ends a follower's session. That it took nothing for long is to be told.
    fn end_following<R: Machine>(&self, rt: &R, seat: FollowerSeat, end: FollowEnd) {
        if end == FollowEnd::Stalled {
            self.log_refusal(rt, Refusal::Stalled(seat.host()), None);
        }
        shut(&seat.socket.socket);
        let mut followers = self.followers.lock(rt);
        followers.crowd.leave();
    }
}

/// The rest behind a round that began at that time and ends now: three times as long as it took, so
/// that followers take a quarter of a processor at most.
fn rest_behind<R: Machine>(rt: &R, began: Option<Instant>) -> Duration {
    let longest = Duration::from_millis(ROUND_PAUSE);
    let (Some(began), Some(ended)) = (began, time_of(rt)) else {
        return longest;
    };
    match ended
        .saturating_duration_since(began)
        .checked_mul(ROUND_TIMES)
    {
        Some(rest) => rest.min(longest),
        None => longest,
    }
}

/// The time, if the clock tells it.
fn time_of<R: Machine>(rt: &R) -> Option<Instant> {
    match Instant::now(rt) {
        Ok(now) => Some(now),
        Err(_) => None,
    }
}

/// The result of a round, in which each follower was told once.
#[derive(Clone, Copy, Drop)]
struct Round {
    /// Some were told something.
    told: bool,
    /// Some have to take lines first.
    waits: bool,
}

impl Round {
    /// The round with one follower more, which was told that.
    fn with(self, telling: Telling) -> Round {
        match telling {
            Telling::Nothing => self,
            Telling::Lines => Round { told: true, ..self },
            Telling::Part => Round {
                waits: true,
                ..self
            },
        }
    }
}
