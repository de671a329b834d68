//! Laws of the model of a disk, each proved of the definitions that it names. A function here does
//! nothing: its contract is the law.

ghost use Rattle.disk.specs.Losses.{LeavesAnything, LeavesElsewhere, LeavesLonger, LeavesTorn, LeavesTornOnceFailed};
ghost use Rattle.disk.specs.Suppositions.{IsLostByFalse, MayBeSo};

/// The bytes that a crash, or a write that failed, may lose.
///
/// - `anything`: a crash may leave each file that is no shorter than at the last sync that
///   succeeded, and the same within that length outside the ranges that were written since. Past
///   that length it may be of any bytes, and of any length.
/// - `longer`: so a file that is all on the disk may be left with any bytes behind it.
/// - `torn`: after a write that succeeded a crash may leave each file that it might have left
///   before, and that file with any bytes in the write's range.
/// - `torn_once_failed`: so it may after a write that failed.
/// - `elsewhere`: of what is on the disk a write that failed leaves all as it was that is outside
///   its range.
pub fn losses()
    ensures anything { LeavesAnything }
    ensures longer { LeavesLonger }
    ensures torn { LeavesTorn }
    ensures torn_once_failed { LeavesTornOnceFailed }
    ensures elsewhere { LeavesElsewhere }
{}

/// Proves that a premise of a file says something.
///
/// - `may_be_so`: each premise may hold. It holds before the first call. While it holds, the next
///   call has an answer by which it holds: the file's length, its bytes, or that a write or a sync
///   succeeded.
/// - `lost`: a length that isn't the file's, and a read that gives other bytes, end it, whatever is
///   answered later.
pub fn suppositions()
    ensures may_be_so { MayBeSo }
    ensures lost { IsLostByFalse }
{}
