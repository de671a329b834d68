//! The stream to a client that follows decisions.

ghost use Rattle.std.specs.Prelude.{ℕ, List, ◌≡◌, ◌≤◌, ◌++◌, length, take, IfOk, OnErr};

use links::StreamFault;

/// A stream to a client that follows decisions. No call of it waits for the client. It tells, for
/// clauses alone, the bytes that its writes took so far.
pub trait Outlet {
    /// The bytes that its writes took so far.
    ghost written: { Self → List ℕ };

    /// Writes some bytes from the front of these, and returns their number: 0 if the client has to
    /// take others first.
    ///
    /// # Errors
    ///
    /// `StreamFault` if the client is gone. None of the bytes was written.
    fn write(&mut self, bytes: &[u8]) -> Result<usize, StreamFault>
        ensures within { IfOk result (λ count. count ≤ length bytes.now) }
        ensures put { IfOk result (λ count.
            written self.new ≡ written self.old ++ take count bytes.now) }
        ensures fault { OnErr result (written self.new ≡ written self.old) };

    /// Reads what the client has said meanwhile, which nobody answers, and returns `true` if that
    /// has come to its end.
    fn has_ended(&mut self) -> bool
        ensures { written self.new ≡ written self.old };
}
