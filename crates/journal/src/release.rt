//! Letting go of a disk that nobody wants back.

/// A value that can be let go. A function that takes a disk and hands none back lets it go in this
/// way alone, so whoever lends the disk may ask in what state it has to be then.
///
/// Every value that is [`Drop`] may be let go, in any state.
pub trait Release {
    /// The condition on which it is let go.
    ghost may_go: { Self → Type 0 };

    /// Lets it go.
    fn release(self)
        requires { may_go self };
}

impl<D: Drop> Release for D {
    ghost may_go = { λ _. Unit {0} };

    fn release(self) {}
}
