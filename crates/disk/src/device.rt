//! The calls of a disk, and what they make of its bytes.
ghost use Rattle.std.specs.Prelude.{◌≡◌, ◌⊎◌, ◌+◌, ◌≤◌, List, ℕ, length, take, drop, IfOk, OnOk, OnErr};
ghost use Rattle.disk.specs.Model.{State, MayLeave, FailedWrite, Elapses, CountsFailures, after_write, at_rest};

use thiserror::Error;

/// The disk has failed. What stands after it is said at each call of `Disk`.
#[derive(Clone, Copy, Debug, PartialEq, Eq, Error)]
#[error("device")]
pub struct DeviceFault;

/// One file, reached by calls that may fail. The program has a [`FileDisk`](crate::FileDisk) within
/// a `MarkedDisk` of `system`, simulations have a [`MemDisk`](crate::MemDisk).
///
/// A fault is answered just in a call in which the count of failures rose. That holds of every
/// disk. What a call says of bytes, moments and crashes holds if the disk kept the model until the
/// call's end.
pub trait Disk {
    /// So far the disk kept the model. This is a fact of the past: a call may end it, and once it
    /// is false it stays so.
    ghost keeps: { Self → Type 0 };

    /// The file with which the disk began, before its first call.
    ghost begun: { Self → List ℕ };

    /// The bytes that reads give, and those that a crash may leave.
    ghost state: { Self → State };

    /// The number of calls.
    ghost moment: { Self → ℕ };

    /// The files that a crash at some moment from that one on might have left, during a call or
    /// between two.
    ghost since: { Self → ℕ → List ℕ → Type 0 };

    /// The number of the disk's failures.
    ghost failures: { Self → ℕ };

    /// Returns how many bytes the file has. A fault changes nothing.
    fn len(&mut self) -> Result<usize, DeviceFault>
        ensures answer { keeps self.new → IfOk result (λ n. n ≡ length (state self.old).seen) }
        ensures same { keeps self.new → state self.new ≡ state self.old }
        ensures time { keeps self.new → Elapses (moment self.old) (moment self.new)
            (since self.old) (since self.new) (state self.old) (state self.new) result }
        ensures kept { keeps self.new → keeps self.old }
        ensures begun { begun self.new ≡ begun self.old }
        ensures cause { CountsFailures (failures self.old) (failures self.new) result };

    /// Fills the buffer with the bytes from `at` on. The caller keeps within the length. A fault
    /// changes nothing of the file, and may leave anything in the buffer.
    fn read_at(&mut self, at: usize, buf: &mut [u8]) -> Result<(), DeviceFault>
        requires { keeps self.old → at + length buf.old ≤ length (state self.old).seen }
        ensures answer { keeps self.new →
            OnOk result (buf.new ≡ take (length buf.old) (drop at (state self.old).seen)) }
        ensures same { keeps self.new → state self.new ≡ state self.old }
        ensures time { keeps self.new → Elapses (moment self.old) (moment self.new)
            (since self.old) (since self.new) (state self.old) (state self.new) result }
        ensures kept { keeps self.new → keeps self.old }
        ensures begun { begun self.new ≡ begun self.old }
        ensures cause { CountsFailures (failures self.old) (failures self.new) result };

    /// Writes the bytes at `at`, over what is there and past the end. The caller keeps `at` not
    /// past the length. Until a sync succeeds a crash may leave any bytes in the range, also where
    /// the write failed. After a fault reads may give other bytes there, and past the length of the
    /// last sync that succeeded.
    fn write_at(&mut self, at: usize, bytes: &[u8]) -> Result<(), DeviceFault>
        requires { keeps self.old → at ≤ length (state self.old).seen }
        ensures written { keeps self.new →
            OnOk result (state self.new ≡ after_write (state self.old) at bytes.now) }
        ensures torn { keeps self.new → OnErr result ((moment self.new ≡ moment self.old)
            ⊎ FailedWrite at (length bytes.now) (state self.old) (state self.new)) }
        ensures time { keeps self.new → Elapses (moment self.old) (moment self.new)
            (since self.old) (since self.new) (state self.old) (state self.new) result }
        ensures kept { keeps self.new → keeps self.old }
        ensures begun { begun self.new ≡ begun self.old }
        ensures cause { CountsFailures (failures self.old) (failures self.new) result };

    /// Puts on the disk what reads give. A fault changes nothing: a crash may leave what it might
    /// have left before.
    fn sync(&mut self) -> Result<(), DeviceFault>
        ensures synced { keeps self.new →
            OnOk result (state self.new ≡ at_rest (state self.old).seen) }
        ensures failed { keeps self.new → OnErr result (state self.new ≡ state self.old) }
        ensures time { keeps self.new → Elapses (moment self.old) (moment self.new)
            (since self.old) (since self.new) (state self.old) (state self.new) result }
        ensures kept { keeps self.new → keeps self.old }
        ensures begun { begun self.new ≡ begun self.old }
        ensures cause { CountsFailures (failures self.old) (failures self.new) result };

    /// This moment is one of those since an earlier one.
    ghost counts_now: { (disk : Self) (t : ℕ) (file : List ℕ) → keeps disk → t ≤ moment disk →
        MayLeave (state disk) file → since disk t file };

    /// Since this moment there is no other.
    ghost only_now: { (disk : Self) (file : List ℕ) → keeps disk →
        since disk (moment disk) file → MayLeave (state disk) file };

    /// A crash may leave what reads give.
    ghost may_leave_seen: { (disk : Self) → keeps disk → MayLeave (state disk) (state disk).seen };
}
