//! Tosses as C holds it.

ghost use Rattle.std.specs.Prelude.{◌≡◌};
ghost use Rattle.std.specs.Borrow.{sem};
ghost use Rattle.engine.specs.declared.tosses.Tosses.{Tosses};

use crate::handle::Hidden;
use engine::Tosses;
use std::alloc::Global;
use std::marker::Model;

/// A handle, which owns what lies behind its pointer, as [`Handle`](crate::handle::Handle) does. C
/// has each from `bracha_toss_open`, gives it to one call at a time, and gives it up with
/// `bracha_toss_close`.
#[repr(C)]
pub struct TossHandle {
    at: *mut Hidden,
    alloc: Global,
    ghost tosses: { Tosses },
}

impl Model for TossHandle {
    ghost use Rattle.bracha_c.specs.Owns.{tosses_owns};

    ghost also_owns = { λ h. tosses_owns h.alloc h.at h.tosses };
}

impl TossHandle {
    ghost use Rattle.bracha_c.specs.Lends.{LendsTosses};

    /// The tosses behind the pointer, lent. Once the loan is over the handle has what they became.
    #[inline(always)]
    pub(crate) fn tosses(&mut self) -> &mut Tosses
        ensures* lent { sem 𝓛 (LendsTosses self.entry result) }
        ensures value { result.now ≡ self.old.tosses }
    {
        unsafe { &mut *(self.at as *mut Tosses) }
    }

    /// Its box again: the handle is given up.
    pub(crate) fn into_box(self) -> Box<Tosses>
        ensures { result.value ≡ self.tosses }
    {
        let TossHandle { at, alloc } = self;
        unsafe { Box::from_raw(alloc, at as *mut Tosses) }
    }
}

/// C may pass a handle to another thread, and orders that.
unsafe impl Send for TossHandle {}

/// The pointer that C is to keep in a handle.
pub(crate) fn hand_out(tosses: Box<Tosses>) -> *mut Hidden {
    Box::into_raw(tosses) as *mut Hidden
}
