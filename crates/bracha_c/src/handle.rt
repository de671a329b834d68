//! A core as C holds it: a pointer to what C never reads or writes.
ghost use Rattle.std.specs.Prelude.{◌≡◌};
ghost use Rattle.std.specs.Borrow.{sem};
ghost use Rattle.engine.specs.declared.engine.Engine.{Engine};

use engine::Engine;
use std::alloc::Global;
use std::marker::Model;

/// The target of a handle's pointer, as C sees it. An export may name no type that holds a `Vec` or
/// a `Box`, not even behind a pointer, so the pointer's type is this one.
#[repr(C)]
#[derive(Drop)]
pub struct Hidden {
    pub hidden: u8,
}

/// A handle, which owns the engine behind its pointer: what a `Box` of it owns. In C it is one
/// pointer. C has each from `bracha_core_open`, gives it to one call at a time, and gives it up
/// with `bracha_core_close`.
#[repr(C)]
pub struct Handle {
    at: *mut Hidden,
    alloc: Global,
    ghost engine: { Engine },
}

impl Model for Handle {
    ghost use Rattle.bracha_c.specs.Owns.{engine_owns};

    ghost also_owns = { λ h. engine_owns h.alloc h.at h.engine };
}

impl Handle {
    ghost use Rattle.bracha_c.specs.Lends.{LendsEngine};

    /// The engine, lent. Once the loan is over the handle has what the engine became.
    #[inline(always)]
    pub(crate) fn engine(&mut self) -> &mut Engine
        ensures* lent { sem 𝓛 (LendsEngine self.entry result) }
        ensures value { result.now ≡ self.old.engine }
    {
        unsafe { &mut *(self.at as *mut Engine) }
    }

    /// The engine's box again: the handle is given up.
    pub(crate) fn into_box(self) -> Box<Engine>
        ensures { result.value ≡ self.engine }
    {
        let Handle { at, alloc } = self;
        unsafe { Box::from_raw(alloc, at as *mut Engine) }
    }
}

/// C may pass a handle to another thread, and orders that.
unsafe impl Send for Handle {}

/// The pointer that C is to keep in a handle.
pub(crate) fn hand_out(engine: Box<Engine>) -> *mut Hidden {
    Box::into_raw(engine) as *mut Hidden
}
