//! What C holds of a session: the address of its box, or nothing.
ghost use Rattle.std.specs.Prelude.{Option};
ghost use Rattle.std_heap.specs.declared.Global.{Global};
ghost use Rattle.fits_c.specs.declared.live.Live.{Live};

use crate::live::Live;
use std::alloc::Global;
use std::marker::Model;
use std::mem;
use std::ptr::null_mut;

/// The box of a session, or nothing. One that is let go is forgotten.
#[repr(C)]
#[derive(Drop)]
pub struct SessionHandle {
    at: *mut u8,
    ghost alloc: { Global },
    ghost live: { Option Live },
}

impl Model for SessionHandle {
    ghost use Rattle.fits_c.specs.Owned.{owned_if};

    ghost also_owns = { λ it. owned_if it.alloc it.at it.live };
}

impl SessionHandle {
    ghost use Rattle.std.specs.Prelude.{◌≡◌, IsSome, None, Some};

    /// The handle of a box.
    pub fn of(live: Box<Live>) -> SessionHandle
        ensures { result.live ≡ Some live.value }
    {
        let at = Box::into_raw(live) as *mut u8;
        SessionHandle { at }
    }

    /// The box. Then it holds nothing.
    pub fn take(&mut self, alloc: Global) -> Box<Live>
        requires { IsSome self.old.live }
        ensures given { self.old.live ≡ Some result.value }
        ensures left { self.new.live ≡ None }
    {
        mem::replace(self, SessionHandle::none()).into_box(alloc)
    }

    // One that holds nothing.
    fn none() -> SessionHandle
        ensures { result.live ≡ None }
    {
        SessionHandle { at: null_mut() }
    }

    // The box again.
    fn into_box(self, alloc: Global) -> Box<Live>
        requires { IsSome self.live }
        ensures { self.live ≡ Some result.value }
    {
        let SessionHandle { at } = self;
        unsafe { Box::from_raw(alloc, at as *mut Live) }
    }
}
