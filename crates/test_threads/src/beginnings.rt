//! What the tests begin with: a member on a new disk, its board and its seats, and statements.
ghost use Rattle.std.specs.Prelude.{◌≡◌, length, IfOk, []};
ghost use Rattle.terms_prelude.specs.Terms.{new_header, new_size};
ghost use Rattle.member.specs.Memory.{memory_disk};
ghost use Rattle.member.specs.Sound.{IsSound};
ghost use Rattle.member.specs.Readers.{member_header, member_saved, MemberStandsFor};

use disk::MemDisk;
use member::Member;
use node::{Hub, Naming, NewBoard, Rack};
use std::alloc::Global;
use std::test::Fail;
use terms::{Header, Kind, Place, Size, Statement, Value};

/// The questions of the member, of which a client proposes on each.
pub(crate) const QUESTIONS: u16 = 40;

/// A member on a new disk.
pub(crate) fn start(rt: &impl AllocGlobal) -> Result<Member<MemDisk>, Fail>
    ensures sound { IfOk result (λ m. IsSound memory_disk m) }
    ensures fresh { IfOk result (λ m. MemberStandsFor m (member_saved m) []) }
    ensures header { IfOk result (λ m. member_header m ≡ new_header 7 (new_size 16 5 40) 1) }
{
    let header = header()?;
    let mut disk = MemDisk::new(rt.alloc());
    journal::create(&mut disk, &header)?;
    Ok(Member::open(rt.alloc(), disk, &header)?)
}

/// A hub over a member that was just opened, and its seats.
pub(crate) fn open<J: Naming>(
    alloc: Global,
    member: Member<MemDisk>,
    board: NewBoard,
) -> Result<(Hub<MemDisk, J>, Rack<J>), Fail>
    requires sound { IsSound memory_disk member }
    requires fresh { MemberStandsFor member (member_saved member) [] }
    requires header { member_header member ≡ J.header }
    requires opening { member_saved member ≡ J.opening }
    requires names { board ≡ J.names }
    requires cells { length board.cells ≡ (member_header member).size.questions }
{
    let (hub, seats) = Hub::<MemDisk, J>::open(alloc, member, board)?;
    Ok((hub, Rack::new(seats)))
}

/// The header of member 1 of the cluster 7, of 16 members of whom 5 may lie.
fn header() -> Result<Header, Fail>
    ensures { IfOk result (λ h. h ≡ new_header 7 (new_size 16 5 40) 1) }
{
    Ok(Header::new(7, Size::new(16, 5, QUESTIONS)?, 1).ok_or("a header")?)
}

/// A board for the questions of the member.
pub(crate) fn board(rt: &impl AllocGlobal) -> Result<NewBoard, Fail>
    ensures { IfOk result (λ b. length b.cells ≡ 40) }
{
    Ok(NewBoard::new(rt.alloc(), QUESTIONS)?)
}

/// A statement with the value One at question 0 and that origin, round 1 and step 1.
pub(crate) fn at(origin: u8, kind: Kind) -> Option<Statement> {
    let place = Place::new(0, origin, 1, 1)?;
    Statement::new(kind, place, Value::One)
}
