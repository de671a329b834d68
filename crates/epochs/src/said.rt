//! Bytes that were read of a connection before it came to its epoch.

ghost use Rattle.std.specs.Prelude.{◌≤◌};
ghost use Rattle.epochs.specs.declared.said.TheConstants.{MOST};

/// The most bytes that are kept: more than the longest line that names a slot.
pub const MOST: usize = 1024;

/// Bytes that were read of a connection and not answered yet, at most 1,024.
#[derive(Clone, Copy)]
pub struct Said {
    bytes: [u8; MOST],
    length: usize,
    ghost within: { length ≤ MOST },
}

impl Said {
    ghost use Rattle.std.specs.Prelude.{◌≡◌, ◌+◌, ◌==◌, [], ◌∷◌, ◌++◌, drop, length, position, take};
    ghost use Rattle.epochs.specs.Lines.{said_bytes};
    ghost use Rattle.epochs.specs.declared.said.TheConstants.{MOST};

    /// Nothing was read.
    pub fn nothing() -> Said
        ensures { said_bytes result ≡ [] }
    {
        Said {
            bytes: [0; MOST],
            length: 0,
        }
    }

    /// Returns the bytes.
    pub fn bytes(&self) -> &[u8]
        ensures { result.now ≡ take self.now.length self.now.bytes }
    {
        &self.bytes[..self.length]
    }

    /// Returns how many more there is room for.
    pub fn room(&self) -> usize
        ensures { result + length (said_bytes self.now) ≡ MOST }
    {
        MOST - self.length
    }

    /// These were read too. Those for which there is no room are dropped.
    pub fn extend(&mut self, bytes: &[u8])
        ensures { said_bytes self.new ≡ take MOST (said_bytes self.old ++ bytes.now) }
    {
        for byte in bytes {
            self.push(*byte);
        }
    }

    /// This byte was read too. It is dropped if there is no room.
    fn push(&mut self, byte: u8)
        ensures { said_bytes self.new ≡ take MOST (said_bytes self.old ++ byte ∷ []) }
    {
        if self.length < MOST {
            self.bytes[self.length] = byte;
            self.length += 1;
        }
    }

    /// The first so many bytes are answered: they aren't kept any more.
    pub fn drop_front(&mut self, count: usize)
        ensures { said_bytes self.new ≡ drop count (said_bytes self.old) }
    {
        let mut rest = Said::nothing();
        rest.extend(&self.bytes()[count.min(self.length)..]);
        *self = rest;
    }

    /// Returns where the first line ends, by the byte 10 behind it. `None` if none ends.
    pub fn line_end(&self) -> Option<usize>
        ensures { result ≡ position (λ byte. byte == 10) (said_bytes self.now) }
    {
        self.bytes().iter().position(|byte| *byte == b'\n')
    }
}
