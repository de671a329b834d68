//! How a call ended.

/// How a call ended.
#[derive(Clone, Copy, Debug, PartialEq, Eq)]
pub(crate) enum Ending {
    /// With the answer of ample memory.
    Ample,
    /// With the answer for want of memory, and all that stands after it is what should.
    Refused,
    /// Memory was refused within the disk or the stream in memory that the call is over, which
    /// failed by that.
    Failed,
    /// Memory was refused before the call.
    Before,
    /// With another answer, or something else stands after it.
    Wrong(&'static str),
}

impl Ending {
    /// Its word.
    pub(crate) fn word(self) -> &'static str {
        match self {
            Ending::Ample => "ample",
            Ending::Refused => "refused",
            Ending::Failed => "failed",
            Ending::Before => "before",
            Ending::Wrong(what) => what,
        }
    }

    /// The status that says it.
    pub(crate) fn code(self) -> u8 {
        match self {
            Ending::Ample => 0,
            Ending::Refused => 3,
            Ending::Failed => 4,
            Ending::Before => 5,
            Ending::Wrong(_) => 6,
        }
    }

    /// The first, if what is asked of it holds.
    pub(crate) fn if_so(self, is_so: bool, what: &'static str) -> Ending {
        if is_so { self } else { Ending::Wrong(what) }
    }
}
