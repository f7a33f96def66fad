//! What C holds of an outcome: the address of its box, or nothing.
ghost use Rattle.std.specs.Prelude.{Option};
ghost use Rattle.std_heap.specs.declared.Global.{Global};
ghost use Rattle.fits_c.specs.declared.outcome.Outcome.{Outcome};

use crate::outcome::Outcome;
use std::alloc::Global;
use std::marker::Model;
use std::mem;
use std::ptr::null_mut;

/// The box of an outcome, or nothing. One that is let go is forgotten.
#[repr(C)]
#[derive(Drop)]
pub struct OutcomeHandle {
    at: *mut u8,
    ghost alloc: { Global },
    ghost outcome: { Option Outcome },
}

impl Model for OutcomeHandle {
    ghost use Rattle.fits_c.specs.Owned.{outcome_if};

    ghost also_owns = { λ it. outcome_if it.alloc it.at it.outcome };
}

impl OutcomeHandle {
    ghost use Rattle.std.specs.Prelude.{◌≡◌, IsSome, None, Some};

    /// The handle of a box.
    pub fn of(outcome: Box<Outcome>) -> OutcomeHandle
        ensures { result.outcome ≡ Some outcome.value }
    {
        let at = Box::into_raw(outcome) as *mut u8;
        OutcomeHandle { at }
    }

    /// The box. Then it holds nothing.
    pub fn take(&mut self, alloc: Global) -> Box<Outcome>
        requires { IsSome self.old.outcome }
        ensures given { self.old.outcome ≡ Some result.value }
        ensures left { self.new.outcome ≡ None }
    {
        mem::replace(self, OutcomeHandle::none()).into_box(alloc)
    }

    // One that holds nothing.
    fn none() -> OutcomeHandle
        ensures { result.outcome ≡ None }
    {
        OutcomeHandle { at: null_mut() }
    }

    // The box again.
    fn into_box(self, alloc: Global) -> Box<Outcome>
        requires { IsSome self.outcome }
        ensures { self.outcome ≡ Some result.value }
    {
        let OutcomeHandle { at } = self;
        unsafe { Box::from_raw(alloc, at as *mut Outcome) }
    }
}
