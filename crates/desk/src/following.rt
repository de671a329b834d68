//! A client that follows decisions: begin at `Follower::tell`.

ghost use Rattle.std.specs.Prelude.{ℕ, List, [], ◌∷◌, ◌≡◌, ◌≢◌, ◌≤◌, ◌+◌, ◌++◌, drop, length, IfOk};
ghost use Rattle.arrayvec.specs.ArrayVec.{array_vec_len};
ghost use Rattle.node.specs.Standings.{IsDecisionOf};
ghost use Rattle.numerals.specs.Lines.{line};
ghost use Rattle.desk.specs.Following.{Tells, decision_text};
ghost use Rattle.desk.specs.declared.following.Telling.TheVariants as telling;

use crate::outlet::Outlet;
use arrayvec::ArrayVec;
use disk::Disk;
use itoa::Buffer;
use node::{Decision, Hub, Naming};
use std::marker::Model;
use std::sync::Wait;

/// The seconds after which a follower that was told nothing is told an empty line.
const SILENCE: u64 = 5;

/// The seconds for which a follower that takes nothing of what it is owed is waited for.
const PATIENCE: u64 = 10;

/// The room, in bytes, that a line of a decision may need.
const LINE: usize = 32;

/// The most decisions for which there is room.
const MOST: usize = 64;

/// Room for the lines that a follower is owed. It takes no memory.
type Lines = ArrayVec<u8, 1024>;

/// The result of telling a follower once, if it goes on.
#[derive(Clone, Copy, Debug, PartialEq, Eq)]
pub enum Telling {
    /// Nothing: it has been told all that there is.
    Nothing,
    /// Some lines. There may be more to tell.
    Lines,
    /// A part of what it is owed, or nothing of that: it has to take the rest first.
    Part,
}

/// The cause for which a follower's session ended.
#[derive(Clone, Copy, Debug, PartialEq, Eq)]
pub enum FollowEnd {
    /// The member was stopped or came to its end.
    Ended,
    /// The client closed its side.
    Left,
    /// A write failed.
    Lost,
    /// The client took nothing for ten seconds of what it was owed.
    Stalled,
}

/// A client that follows decisions. Contracts see the number of the decision that it is told next,
/// and the bytes that it is owed: those of lines that began, and that its stream didn't take yet.
#[derive(Drop)]
pub struct Follower {
    next: u64,
    owed: Lines,
    /// The second in which it was owed a line last.
    told: u64,
    /// The second in which it took something last, or was owed nothing.
    took: u64,
    /// The second in which its stream was last asked whether the client is there.
    looked: u64,
}

impl Model for Follower {
    ghost use Rattle.desk.specs.Following.{FollowerView};

    ghost Value = { FollowerView };

    ghost view = { λ follower. record { next = follower.next; owed = follower.owed.items } };
}

/// Puts the bytes behind those that are there.
fn put(lines: &mut Lines, bytes: &[u8])
    requires { array_vec_len lines.old + length bytes.now ≤ 1024 }
    ensures items { lines.new.items ≡ lines.old.items ++ bytes.now }
    ensures len { array_vec_len lines.new ≡ array_vec_len lines.old + length bytes.now }
{
    let _ = lines.try_extend_from_slice(bytes);
}

/// Puts the line of a decision behind those that are there.
fn put_decision(lines: &mut Lines, decision: Decision)
    requires { array_vec_len lines.old + 32 ≤ 1024 }
    ensures { lines.new.items ≡ lines.old.items ++ line (decision_text decision) }
{
    let mut digits = Buffer::new();
    put(lines, b"DECIDED ");
    put(lines, digits.format(decision.question).as_bytes());
    if decision.bit {
        put(lines, b" 1\n");
    } else {
        put(lines, b" 0\n");
    }
}

/// Returns the bytes behind the first `count`.
fn behind(lines: &Lines, count: usize) -> Lines
    requires { count ≤ length lines.now.items }
    ensures { result.items ≡ drop count lines.now.items }
{
    let bytes = lines.as_slice();
    let mut rest = Lines::new();
    let _ = rest.try_extend_from_slice(&bytes[count..]);
    rest
}

impl Follower {
    /// Creates the follower whose client said `FOLLOW number` to the hub's member. It was told
    /// nothing yet.
    pub fn new<D: Disk, J: Naming>(hub: &Hub<D, J>, number: u64) -> Follower
        ensures { result ≡ record { next = number; owed = [] } }
    {
        let now = hub.seconds();
        Follower {
            next: number,
            owed: Lines::new(),
            told: now,
            took: now,
            looked: now,
        }
    }

    /// Counts from that second on for how long it takes nothing, if it is owed nothing yet.
    fn begin(&mut self, now: u64)
        ensures { self.new ≡ self.old }
    {
        if !self.owed.is_empty() {
            return;
        }
        self.took = now;
    }

    /// Owes it the decision with its number, and returns `true`, if there is room for a line.
    fn owe<D: Disk, J: Naming>(&mut self, hub: &Hub<D, J>, decision: Decision) -> bool
        requires { IsDecisionOf D hub.now self.old.next decision }
        ensures { (from : ℕ) (old wrote : List ℕ) →
            Tells (IsDecisionOf D hub.now) from old self.old wrote →
            Tells (IsDecisionOf D hub.now) from old self.new wrote }
    {
        if self.owed.remaining_capacity() < LINE {
            return false;
        }
        let Some(next) = self.next.checked_add(1) else {
            return false;
        };
        put_decision(&mut self.owed, decision);
        self.next = next;
        self.told = hub.seconds();
        true
    }

    /// Owes it the decisions that it wasn't told, as many as there is room for.
    fn owe_decisions<D: Disk, J: Naming, R: Wait>(&mut self, rt: &R, hub: &Hub<D, J>)
        ensures { (from : ℕ) (old wrote : List ℕ) →
            Tells (IsDecisionOf D hub.now) from old self.old wrote →
            Tells (IsDecisionOf D hub.now) from old self.new wrote }
    {
        for _ in 0..MOST {
            if self.next >= hub.decided() {
                return;
            }
            let Some(decision) = hub.decision(rt, self.next) else {
                return;
            };
            if !self.owe(hub, decision) {
                return;
            }
        }
    }

    /// Owes it an empty line, if it is owed nothing and was told nothing for a while.
    fn owe_blank<D: Disk, J: Naming>(&mut self, hub: &Hub<D, J>)
        ensures { (from : ℕ) (old wrote : List ℕ) →
            Tells (IsDecisionOf D hub.now) from old self.old wrote →
            Tells (IsDecisionOf D hub.now) from old self.new wrote }
    {
        let now = hub.seconds();
        if !self.owed.is_empty() || now.wrapping_sub(self.told) < SILENCE {
            return;
        }
        put(&mut self.owed, b"\n");
        self.told = now;
    }

    /// Goes on with a follower that is owed nothing, unless the member is stopped or ends, or the
    /// client has left.
    fn rest<D: Disk, J: Naming, S: Outlet, R: Wait>(
        &mut self,
        rt: &R,
        hub: &Hub<D, J>,
        stream: &mut S,
    ) -> Result<Telling, FollowEnd>
        ensures same { self.new ≡ self.old }
        ensures written { S.written stream.new ≡ S.written stream.old }
    {
        let now = hub.seconds();
        if hub.is_shut() || hub.status(rt).is_none() {
            return Err(FollowEnd::Ended);
        }
        if self.looked == now {
            return Ok(Telling::Nothing);
        }
        self.looked = now;
        if stream.has_ended() {
            return Err(FollowEnd::Left);
        }
        Ok(Telling::Nothing)
    }

    /// Counts the bytes that the stream took of those that are owed.
    fn take(&mut self, count: usize, now: u64) -> Result<Telling, FollowEnd>
        requires { count ≤ length self.old.owed }
        ensures taken { self.new ≡ record self.old { owed = drop count self.old.owed } }
        ensures whole { IfOk result (λ told. told ≢ telling.Part → self.new.owed ≡ []) }
    {
        self.owed = behind(&self.owed, count);
        if count == 0 && now.wrapping_sub(self.took) >= PATIENCE {
            return Err(FollowEnd::Stalled);
        }
        if count > 0 {
            self.took = now;
        }
        if self.owed.is_empty() {
            Ok(Telling::Lines)
        } else {
            Ok(Telling::Part)
        }
    }

    /// Writes of what it is owed as much as its stream takes.
    fn write<D: Disk, J: Naming, S: Outlet>(
        &mut self,
        hub: &Hub<D, J>,
        stream: &mut S,
    ) -> Result<Telling, FollowEnd>
        ensures tells { (from : ℕ) (old : List ℕ) →
            Tells (IsDecisionOf D hub.now) from old self.old (S.written stream.old) →
            Tells (IsDecisionOf D hub.now) from old self.new (S.written stream.new) }
        ensures whole { IfOk result (λ told. told ≢ telling.Part → self.new.owed ≡ []) }
    {
        match stream.write(self.owed.as_slice()) {
            Ok(count) => self.take(count, hub.seconds()),
            Err(_) => Err(FollowEnd::Lost),
        }
    }

    /// Tells it as many of the decisions that the member has saved, from its number on and in the
    /// order of the journal, as its stream takes at once, by one write at most. An empty line comes
    /// if it was told nothing for five seconds.
    ///
    /// # Errors
    ///
    /// The follower's session has ended:
    ///
    /// - [`FollowEnd::Ended`] if it was told all, and the member is stopped or comes to its end;
    /// - [`FollowEnd::Left`] if it was told all, and its client closed its side, for which the
    ///   stream is asked once a second;
    /// - [`FollowEnd::Lost`] if the write failed;
    /// - [`FollowEnd::Stalled`] if its client took nothing for ten seconds of what it is owed.
    pub fn tell<D: Disk, J: Naming, S: Outlet, R: Wait>(
        &mut self,
        rt: &R,
        hub: &Hub<D, J>,
        stream: &mut S,
    ) -> Result<Telling, FollowEnd>
        // All that was written, by whatever calls, begins the lines of decisions with their
        // numbers, from the first one on.
        ensures tells { (from : ℕ) (old : List ℕ) →
            Tells (IsDecisionOf D hub.now) from old self.old (S.written stream.old) →
            Tells (IsDecisionOf D hub.now) from old self.new (S.written stream.new) }
        // Whole lines were written, unless it says that it was a part.
        ensures whole { IfOk result (λ told. told ≢ telling.Part → self.new.owed ≡ []) }
    {
        self.begin(hub.seconds());
        self.owe_decisions(rt, hub);
        self.owe_blank(hub);
        if self.owed.is_empty() {
            return self.rest(rt, hub, stream);
        }
        self.write(hub, stream)
    }
}
