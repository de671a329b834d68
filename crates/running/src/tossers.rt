//! The tossers of links and of the desk's places.

ghost use Rattle.std.specs.Prelude.{◌≡◌, ◌+◌, ◌*◌, ◌<◌, ◌^◌, length, IfOk};
ghost use Rattle.member.specs.Sound.{IsSound};
ghost use Rattle.member.specs.Readers.{member_header, member_saved};
ghost use Rattle.rounds.specs.Tossing.{stream_of};
ghost use Rattle.running.specs.Streams.{AreOfLife, IsOfLife, streams};

use crate::life::Life;
use disk::Disk;
use member::Member;
use rounds::{ChaChaTosser, Toss, Tosser};
use std::alloc::Global;
use std::marker::PhantomData;
use std::sync::Mutex;
use terms::Memory;

/// The place of the desk's first client among the streams.
const DESK: u8 = 128;

/// The number of clients for whom the desk has a place.
pub(crate) const CLIENTS: u8 = 32;

/// The tosses of a place, in a life that began with so many records in the journal: those of the
/// stream `records * 256 + place` of the seed. A journal has fewer than 2^55 records.
///
/// A link's place is its peer's number; the place of a client of the desk is 128 and the slot that
/// it has, 0 to 31. So two lives, two links, and two slots toss from streams of their own.
pub fn tosser_for(seed: [u8; 32], records: u64, place: u8) -> ChaChaTosser
    ensures { records < 2 ^ 55 → result ≡ stream_of seed (records * 256 + place) }
{
    ChaChaTosser::from_seed(
        seed,
        records.wrapping_mul(256).wrapping_add(u64::from(place)),
    )
}

/// The tossers of a member's life, which its links and its desk keep over all sessions.
#[derive(Drop)]
pub struct Tossers {
    /// Those of the links from each member, by the members' numbers.
    pub links: Vec<ChaChaTosser>,
    /// Those of the desk's 32 slots, by the slots' numbers.
    pub desk: Vec<ChaChaTosser>,
}

/// The tossers of the life of a member that was just opened. The records in its journal say which
/// streams of the seed they are.
///
/// # Errors
///
/// [`Memory`], where there is no room for them.
pub fn tossers_of<D: Disk>(
    alloc: Global,
    seed: [u8; 32],
    member: &Member<D>,
) -> Result<Tossers, Memory>
    requires { IsSound D.Disk member.now }
    ensures links { length (member_saved member.now) < 2 ^ 55 →
        IfOk result (λ tossers. tossers.links.items
        ≡ streams seed (length (member_saved member.now) * 256) (member_header member.now).size.n) }
    ensures desk { length (member_saved member.now) < 2 ^ 55 → IfOk result (λ tossers.
        tossers.desk.items ≡ streams seed (length (member_saved member.now) * 256 + 128) 32) }
    ensures life { length (member_saved member.now) < 2 ^ 55 → IfOk result (λ tossers.
        AreOfLife seed (length (member_saved member.now)) tossers.links.items
        × AreOfLife seed (length (member_saved member.now)) tossers.desk.items) }
{
    let records = member.records().len() as u64;
    let members = member.header().size().n();
    let links = tossers_from(alloc, seed, records, 0, members)?;
    let desk = tossers_from(alloc, seed, records, DESK, CLIENTS)?;
    Ok(Tossers { links, desk })
}

/// The tossers of so many places from this one on.
fn tossers_from(
    alloc: Global,
    seed: [u8; 32],
    records: u64,
    first: u8,
    count: u8,
) -> Result<Vec<ChaChaTosser>, Memory>
    requires { first + count < 2 ^ 8 }
    ensures streams { records < 2 ^ 55 →
        IfOk result (λ tossers. tossers.items ≡ streams seed (records * 256 + first) count) }
    ensures life { records < 2 ^ 55 →
        IfOk result (λ tossers. AreOfLife seed records tossers.items) }
{
    let mut tossers = Vec::new(alloc);
    for at in 0..count {
        tossers.push(tosser_for(seed, records, first + at))?;
    }
    Ok(tossers)
}

/// A tosser of this life: it tosses from a stream of the run's seed that no other life has. A
/// journal has fewer than 2^55 records.
#[derive(Drop)]
pub(crate) struct LifeTosser<J: Life> {
    tosser: ChaChaTosser,
    of: PhantomData<J>,
    ghost of_life: { length J.opening < 2 ^ 55 → IsOfLife J.seed (length J.opening) tosser },
}

impl<J: Life> LifeTosser<J> {
    /// The tosser of this stream.
    fn new(tosser: ChaChaTosser) -> LifeTosser<J>
        requires { length J.opening < 2 ^ 55 → IsOfLife J.seed (length J.opening) tosser }
    {
        LifeTosser {
            tosser,
            of: PhantomData,
        }
    }
}

impl<J: Life> Tosser for LifeTosser<J> {
    ghost use Rattle.rounds.specs.Tossing.{next_toss};

    ghost may_toss = { λ old word new. (word, new.tosser) ≡ next_toss old.tosser };

    fn toss(&mut self) -> Toss {
        self.tosser.toss()
    }
}

/// The tossers of a run, each behind a lock: those of its links, by the members' numbers, and those
/// of its desk, by the slots'.
#[derive(Drop)]
pub(crate) struct LockedTossers<J: Life> {
    pub(crate) links: Vec<Mutex<LifeTosser<J>>>,
    pub(crate) desk: Vec<Mutex<LifeTosser<J>>>,
}

/// The tossers of the run of a member that was just opened.
pub(crate) fn lock_tossers<D: Disk, J: Life>(
    alloc: Global,
    seed: [u8; 32],
    member: &Member<D>,
) -> Result<LockedTossers<J>, Memory>
    requires sound { IsSound D.Disk member.now }
    requires seed { seed ≡ J.seed }
    requires opening { member_saved member.now ≡ J.opening }
{
    let Tossers { links, desk } = tossers_of(alloc, seed, member)?;
    let links = locked(alloc, links)?;
    let desk = locked(alloc, desk)?;
    Ok(LockedTossers { links, desk })
}

/// Each tosser behind a lock of its own.
fn locked<J: Life>(
    alloc: Global,
    tossers: Vec<ChaChaTosser>,
) -> Result<Vec<Mutex<LifeTosser<J>>>, Memory>
    requires { length J.opening < 2 ^ 55 → AreOfLife J.seed (length J.opening) tossers.items }
{
    let mut locked = Vec::new(alloc);
    for tosser in tossers {
        locked.push(Mutex::new(LifeTosser::new(tosser)))?;
    }
    Ok(locked)
}
