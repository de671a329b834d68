//! When what waits in the line of member 1 of 16 is heard: behind a pause that goes on while
//! another thread has the book, or while a client proposes; and by a link that finds nobody serving
//! the line. And that the bell rings behind several groups. The clock by which a link pauses plays
//! what happens in its pauses.
ghost use Rattle.std.specs.Prelude.{◌≡◌, [], length};
ghost use Rattle.member.specs.Memory.{memory_disk};
ghost use Rattle.member.specs.Sound.{IsSound};
ghost use Rattle.member.specs.Readers.{member_header, member_saved, MemberStandsFor};

use crate::beginnings::{QUESTIONS, at, board, open, start};
use disk::MemDisk;
use member::Member;
use node::{Hub, Naming, NewBoard, Rack, Seat, close};
use rounds::Toss;
use std::marker::Brand;
use std::sync::Wait;
use std::sync::atomic::{AtomicU16, Ordering};
use std::test::Fail;
use std::thread::{Threads, join};
use std::time::{Clock, Duration};
use std::{io, thread};
use terms::Kind::{Echo, Initial};
use terms::Statement;

#[test]
fn a_link_pauses_while_a_client_proposes(rt: HostRuntime) -> Result<(), Fail> {
    let member = start(&rt)?;
    let board = board(&rt)?;
    assert!(&rt; play::<Brand, _>(&rt, member, board, Scene::Client)?);
    Ok(())
}

#[test]
fn a_link_pauses_while_another_has_the_book(rt: HostRuntime) -> Result<(), Fail> {
    let member = start(&rt)?;
    let board = board(&rt)?;
    assert!(&rt; play::<Brand, _>(&rt, member, board, Scene::Lent)?);
    Ok(())
}

#[test]
fn the_bell_rings_behind_what_a_group_leaves(rt: HostRuntime) -> Result<(), Fail> {
    let member = start(&rt)?;
    let board = board(&rt)?;
    assert!(&rt; play::<Brand, _>(&rt, member, board, Scene::Full)?);
    Ok(())
}

/// Has the member's hub opened and plays a scene. Whether it came out as it should, and the seats
/// fit what the member heard.
fn play<J: Naming + Send + Sync, R: Threads + Wait + Clock + AllocGlobal + Sync>(
    rt: &R,
    member: Member<MemDisk>,
    board: NewBoard,
    scene: Scene,
) -> Result<bool, Fail>
    requires sound { IsSound memory_disk member }
    requires fresh { MemberStandsFor member (member_saved member) [] }
    requires header { member_header member ≡ J.header }
    requires opening { member_saved member ≡ J.opening }
    requires names { board ≡ J.names }
    requires cells { length board.cells ≡ (member_header member).size.questions }
{
    let (hub, rack) = open::<J>(rt.alloc(), member, board)?;
    let played = play_seated(rt, &hub, &rack, scene);
    let fits = closes(hub, rack);
    Ok(played && fits)
}

/// Plays a scene with the seats of two links. Whether it came out as it should.
fn play_seated<J: Naming + Send + Sync, R: Threads + Wait + Clock + Sync>(
    rt: &R,
    hub: &Hub<MemDisk, J>,
    rack: &Rack<J>,
    scene: Scene,
) -> bool {
    let Some(mut one) = rack.take(rt, 0) else {
        return false;
    };
    let Some(mut other) = rack.take(rt, 2) else {
        return false;
    };
    let played = play_scene(rt, hub, scene, &mut one, &mut other);
    rack.put(rt, one);
    rack.put(rt, other);
    played
}

/// Has three threads play the scene. Whether all did what they should.
fn play_scene<J: Naming + Send + Sync, R: Threads + Wait + Clock + Sync>(
    rt: &R,
    hub: &Hub<MemDisk, J>,
    scene: Scene,
    one: &mut Seat<J>,
    other: &mut Seat<J>,
) -> bool {
    let seen = Seen::new();
    let (beside, handed) = join(
        rt,
        || act_beside(rt, hub, &seen, scene),
        || hand_in_both(rt, hub, &seen, scene, one, other),
    );
    beside && handed && came_out(scene, &seen, hub.said())
}

/// Does what happens beside the links.
fn act_beside<J: Naming, R: Wait + Clock>(
    rt: &R,
    hub: &Hub<MemDisk, J>,
    seen: &Seen,
    scene: Scene,
) -> bool {
    match scene {
        Scene::Client => {
            seen.begun.store(1, Ordering::SeqCst);
            true
        }
        Scene::Lent => lend(rt, hub, seen),
        Scene::Full => hear_the_bell(rt, hub, seen),
    }
}

/// Has the book until the first link has paused three times. Whether it did.
fn lend<J: Naming, R: Wait + Clock>(rt: &R, hub: &Hub<MemDisk, J>, seen: &Seen) -> bool {
    let _book = hub.lock(rt);
    seen.begun.store(1, Ordering::SeqCst);
    awaits(rt, &seen.first, 3)
}

/// Waits for the bell, as a writer. Whether it rang for something.
fn hear_the_bell<J: Naming, R: Wait>(rt: &R, hub: &Hub<MemDisk, J>, seen: &Seen) -> bool {
    seen.begun.store(1, Ordering::SeqCst);
    let is_rung = matches!(hub.await_items(rt, 0, 64), Ok(Some(told)) if !told.is_empty());
    seen.rung.store(u16::from(is_rung), Ordering::SeqCst);
    is_rung
}

/// Has the links hand in, and shuts the hub. Whether all was taken.
fn hand_in_both<J: Naming + Send + Sync, R: Threads + Wait + Clock + Sync>(
    rt: &R,
    hub: &Hub<MemDisk, J>,
    seen: &Seen,
    scene: Scene,
    one: &mut Seat<J>,
    other: &mut Seat<J>,
) -> bool {
    let (first, second) = join(
        rt,
        || hand_in_first(rt, hub, seen, scene, one),
        || hand_in_second(rt, hub, seen, scene, other),
    );
    hub.shut(rt);
    first && second
}

/// Has the first link hand in an Initial. Whether it was taken, and the writer heard of it.
fn hand_in_first<J: Naming, R: Wait + Clock>(
    rt: &R,
    hub: &Hub<MemDisk, J>,
    seen: &Seen,
    scene: Scene,
    seat: &mut Seat<J>,
) -> bool {
    let Some(said) = at(0, Initial) else {
        return false;
    };
    let stage = Stage {
        rt,
        hub,
        seen,
        scene,
        whose: Whose::First,
    };
    awaits(rt, &seen.begun, 1)
        && hand_in(&stage, seat, said)
        && match scene {
            Scene::Client | Scene::Lent => true,
            Scene::Full => awaits(rt, &seen.rung, 1),
        }
}

/// Has the second link hand in what the scene has it say, once the first one pauses. Whether it was
/// taken.
fn hand_in_second<J: Naming, R: Wait + Clock>(
    rt: &R,
    hub: &Hub<MemDisk, J>,
    seen: &Seen,
    scene: Scene,
    seat: &mut Seat<J>,
) -> bool {
    let kind = match scene {
        Scene::Client | Scene::Lent => Initial,
        Scene::Full => Echo,
    };
    let Some(said) = at(2, kind) else {
        return false;
    };
    let stage = Stage {
        rt,
        hub,
        seen,
        scene,
        whose: Whose::Second,
    };
    let paused = awaits(rt, &seen.first, 1);
    seen.enters.store(1, Ordering::SeqCst);
    hand_in(&stage, seat, said) && paused
}

/// Has a link hand in a statement by its clock: once, or 150 times, which don't fill a group, and
/// twice as many are more than one. Whether it was taken.
fn hand_in<J: Naming, R: Wait + Clock>(
    stage: &Stage<J, R>,
    seat: &mut Seat<J>,
    said: Statement,
) -> bool {
    let events = [(said, Toss(0)); 150];
    let group = match stage.scene {
        Scene::Client | Scene::Lent => &events[..1],
        Scene::Full => events.as_slice(),
    };
    stage.hub.hand_in(stage, seat, group).is_ok()
}

/// The clock of a link.
#[derive(Drop)]
struct Stage<'a, J: Naming, R> {
    rt: &'a R,
    hub: &'a Hub<MemDisk, J>,
    seen: &'a Seen,
    scene: Scene,
    whose: Whose,
}

impl<J: Naming, R: Wait> Wait for Stage<'_, J, R> {}

impl<J: Naming, R: Wait + Clock> Clock for Stage<'_, J, R> {
    fn monotonic(&self) -> io::Result<Duration> {
        self.rt.monotonic()
    }

    fn since_1970(&self) -> io::Result<Duration> {
        self.rt.since_1970()
    }

    fn sleep(&self, duration: Duration) {
        match self.whose {
            Whose::First => {
                let pause = self.seen.first.fetch_add(1, Ordering::SeqCst);
                self.act_in(pause);
                thread::sleep(self.rt, duration);
            }
            Whose::Second => {
                let _pause = self.seen.second.fetch_add(1, Ordering::SeqCst);
            }
        }
    }
}

impl<J: Naming, R: Wait + Clock> Stage<'_, J, R> {
    /// Does what happens in the pause of that number of the first link.
    fn act_in(&self, pause: u16) {
        if pause == 0 {
            await_second(self.rt, self.seen);
        }
        match self.scene {
            Scene::Client => propose(self.rt, self.hub, pause),
            Scene::Lent | Scene::Full => {}
        }
    }
}

/// The link whose clock it is.
#[derive(Clone, Copy)]
enum Whose {
    /// The first, whose first pause is over once the second waits in the line.
    First,
    /// The second.
    Second,
}

/// Waits until the second link is in the line.
fn await_second<R: Clock>(rt: &R, seen: &Seen) {
    let _enters = awaits(rt, &seen.enters, 1);
    thread::sleep(rt, Duration::from_millis(50));
}

/// Returns `true` once the count is that high, within 10,000 turns of a millisecond.
fn awaits<R: Clock>(rt: &R, count: &AtomicU16, least: u16) -> bool {
    for _ in 0..10_000u32 {
        if count.load(Ordering::SeqCst) >= least {
            return true;
        }
        thread::sleep(rt, Duration::from_millis(1));
    }
    false
}

/// Proposes on a question, if there is one of that number.
fn propose<J: Naming, R: Wait>(rt: &R, hub: &Hub<MemDisk, J>, question: u16) {
    if question < QUESTIONS {
        let mut book = hub.lock(rt);
        let _answer = book.propose(question, true, Toss(0));
        hub.post(rt, &book);
    }
}

/// Returns `true` if the first link has paused as often as it should, and the second was heard with
/// it, or by serving the line itself, and so many statements were said.
fn came_out(scene: Scene, seen: &Seen, said: u64) -> bool {
    let pauses = seen.first.load(Ordering::SeqCst);
    let is_with = seen.second.load(Ordering::SeqCst) == 0;
    match scene {
        Scene::Client => is_with && pauses == QUESTIONS + 1 && said == u64::from(QUESTIONS) + 2,
        Scene::Lent => is_with && said == 2,
        Scene::Full => !is_with && said == 1,
    }
}

/// What happens beside two links that hand in, of which the first serves the line.
#[derive(Clone, Copy)]
enum Scene {
    /// A client proposes on one question after the other, in the pauses of the first link.
    Client,
    /// A thread has the book until the first link has paused three times.
    Lent,
    /// A writer waits for the bell. The links hand in more than a group takes, and only what the
    /// first hands in makes the member say something.
    Full,
}

/// What the threads of a scene see of each other, each a count.
#[derive(Drop)]
struct Seen {
    /// 1 once the thread beside the links has begun.
    begun: AtomicU16,
    /// 1 once the second link is about to hand in.
    enters: AtomicU16,
    /// 1 once the writer has heard the bell.
    rung: AtomicU16,
    /// The number of pauses of the first link.
    first: AtomicU16,
    /// The number of pauses of the second link: it has none if the first has it heard.
    second: AtomicU16,
}

impl Seen {
    /// Nothing has happened yet.
    fn new() -> Seen {
        Seen {
            begun: AtomicU16::new(0),
            enters: AtomicU16::new(0),
            rung: AtomicU16::new(0),
            first: AtomicU16::new(0),
            second: AtomicU16::new(0),
        }
    }
}

/// Closes the hub. Whether the seats fit what the member heard.
fn closes<J: Naming>(hub: Hub<MemDisk, J>, rack: Rack<J>) -> bool {
    close(hub, rack.into_seats()).is_ok()
}
