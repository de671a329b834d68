//! A member over a disk in memory.
ghost use Rattle.std.specs.Prelude.{◌≡◌, IfSome, []};
ghost use Rattle.member.specs.Sound.{IsSound};
ghost use Rattle.member.specs.Readers.{member_header, member_saved, MemberStandsFor};

use crate::ending::Ending;
use crate::subject::Subject;
use disk::{Disk, MemDisk};
use member::{Member, MemberFault};
use questions::Answer;
use rounds::Toss;
use std::alloc::Global;
use terms::{Header, Record, Statement};

/// The journal of member 1 of the cluster 7, of four members and one question, with no record.
pub(crate) const JOURNAL: [u8; 25] = [
    0x42, 0x52, 0x41, 0x43, 0x48, 0x41, 0x4a, 0x32, 0, 0, 0, 0, 0, 0, 0, 7, 4, 1, 0, 1, 1, 0, 0, 0,
    0,
];

/// A member is proposed to.
pub(crate) fn proposes(alloc: Global, of: &Subject) -> Ending {
    let Some(mut member) = start(alloc, MemDisk::new(alloc), &of.header) else {
        return Ending::Before;
    };
    match member.propose(0, true, Toss(5)) {
        Ok(answer) => Ending::Ample.if_so(says_just(&answer, of.own), "another answer"),
        Err(fault) => refused(member, of, fault),
    }
}

/// A member hears an Initial and two Readys as one group.
pub(crate) fn hears_all(alloc: Global, of: &Subject) -> Ending {
    let Some(mut member) = start(alloc, MemDisk::new(alloc), &of.header) else {
        return Ending::Before;
    };
    let group = [
        (0, of.initial, Toss(5)),
        (2, of.ready, Toss(6)),
        (3, of.ready, Toss(7)),
    ];
    match member.hear_all(&group) {
        Ok(answers) => Ending::Ample.if_so(are_of_group(&answers, of), "other answers"),
        Err(fault) => refused(member, of, fault),
    }
}

/// A member hears an Initial.
pub(crate) fn hears(alloc: Global, of: &Subject) -> Ending {
    let Some(mut member) = start(alloc, MemDisk::new(alloc), &of.header) else {
        return Ending::Before;
    };
    match member.hear(0, &of.initial, Toss(5)) {
        Ok(answer) => Ending::Ample.if_so(says_just(&answer, of.echo), "another answer"),
        Err(fault) => refused(member, of, fault),
    }
}

/// Returns how the call ended that this member refused so.
fn refused<D: Disk + Drop>(mut member: Member<D>, of: &Subject, fault: MemberFault) -> Ending
    requires { IsSound D.Disk member }
{
    if !is_stopped(&mut member, of) {
        return Ending::Wrong("not stopped");
    }
    match fault {
        MemberFault::Memory => {
            Ending::Refused.if_so(has_bytes(&mut member.into_disk(), &JOURNAL), "disk changed")
        }
        MemberFault::Device => Ending::Failed,
        _ => Ending::Wrong("another fault"),
    }
}

/// Returns `true` if the member is stopped and has said nothing: it refuses what it is handed, and
/// its outbox is empty.
fn is_stopped<D: Disk>(member: &mut Member<D>, of: &Subject) -> bool
    requires { IsSound D.Disk member.old }
{
    let is_silent = member.is_stopped()
        && member.records().is_empty()
        && member.outbox().is_empty();
    let hears = member.hear(0, &of.initial, Toss(6));
    let refuses = matches!(hears, Err(MemberFault::Stopped));
    is_silent && refuses && member.verdict(0).is_none()
}

/// Returns `true` if the disk has just these bytes.
fn has_bytes<D: Disk>(disk: &mut D, bytes: &[u8; 25]) -> bool {
    let mut found = [0u8; 25];
    disk.len() == Ok(25) && disk.read_at(0, &mut found).is_ok() && found == *bytes
}

/// A member on a disk, whose journal is made; none where it isn't had.
pub(crate) fn start<D: Disk + Drop>(alloc: Global, disk: D, header: &Header) -> Option<Member<D>>
    ensures sound { IfSome result (λ m. IsSound D.Disk m) }
    ensures fresh { IfSome result (λ m. MemberStandsFor m (member_saved m) []) }
    ensures header { IfSome result (λ m. member_header m ≡ header.now) }
{
    let mut disk = disk;
    if journal::create(&mut disk, header).is_err() {
        return None;
    }
    match Member::open(alloc, disk, header) {
        Ok(member) => Some(member),
        Err(_) => None,
    }
}

/// Returns `true` if these are the answers to an Initial and two Readys: an Echo, nothing, a Ready.
pub(crate) fn are_of_group(answers: &[Answer], of: &Subject) -> bool {
    match answers {
        [first, second, third] => {
            says_just(first, of.echo) && says_nothing(second) && says_just(third, of.ready)
        }
        _ => false,
    }
}

/// Returns `true` if the answer has just this statement.
pub(crate) fn says_just(answer: &Answer, statement: Statement) -> bool {
    match answer {
        Answer::Taken(records) => records.as_slice() == [Record::Said(statement)].as_slice(),
        _ => false,
    }
}

/// Returns `true` if the answer is taken, and has no record.
pub(crate) fn says_nothing(answer: &Answer) -> bool {
    match answer {
        Answer::Taken(records) => records.is_empty(),
        _ => false,
    }
}
