//! A feeder as C holds it.

ghost use Rattle.std.specs.Prelude.{◌≡◌};
ghost use Rattle.std.specs.Borrow.{sem};
ghost use Rattle.engine.specs.declared.inbox.Inbox.{Inbox};

use crate::handle::Hidden;
use engine::Inbox;
use std::alloc::Global;
use std::marker::Model;

/// A handle, which owns what lies behind its pointer, as [`Handle`](crate::handle::Handle) does. C
/// has each from `bracha_feeder_open`, gives it to one call at a time, and gives it up with
/// `bracha_feeder_close`.
#[repr(C)]
pub struct FeederHandle {
    at: *mut Hidden,
    alloc: Global,
    ghost inbox: { Inbox },
}

impl Model for FeederHandle {
    ghost use Rattle.bracha_c.specs.Owns.{inbox_owns};

    ghost also_owns = { λ h. inbox_owns h.alloc h.at h.inbox };
}

impl FeederHandle {
    ghost use Rattle.bracha_c.specs.Lends.{LendsInbox};

    /// The inbox behind the pointer, lent. Once the loan is over the handle has what it became.
    #[inline(always)]
    pub(crate) fn inbox(&mut self) -> &mut Inbox
        ensures* lent { sem 𝓛 (LendsInbox self.entry result) }
        ensures value { result.now ≡ self.old.inbox }
    {
        unsafe { &mut *(self.at as *mut Inbox) }
    }

    /// Its box again: the handle is given up.
    pub(crate) fn into_box(self) -> Box<Inbox>
        ensures { result.value ≡ self.inbox }
    {
        let FeederHandle { at, alloc } = self;
        unsafe { Box::from_raw(alloc, at as *mut Inbox) }
    }
}

/// C may pass a handle to another thread, and orders that.
unsafe impl Send for FeederHandle {}

/// The pointer that C is to keep in a handle.
pub(crate) fn hand_out(inbox: Box<Inbox>) -> *mut Hidden {
    Box::into_raw(inbox) as *mut Hidden
}
