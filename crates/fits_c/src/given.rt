//! What C is given of an outcome.
ghost use Rattle.std.specs.Prelude.{◌≡◌, None};
ghost use Rattle.fits_c.specs.Given.{Gives, IsHandleOf};
ghost use Rattle.fits_c.specs.declared.outcome.Outcome.{Outcome};

use crate::bytes::Bytes;
use crate::outcome::Outcome;
use crate::outcome_handle::OutcomeHandle;
use std::alloc::Global;

/// What C is given of an outcome: its bytes may be read until it is freed.
#[repr(C)]
#[derive(Drop)]
pub struct Given {
    pub held: OutcomeHandle,
    pub answers: Bytes,
    pub saved: Bytes,
    pub message: Bytes,
}

/// Gives an outcome to C, and says its status. Where memory is refused nothing is given.
pub fn give(alloc: Global, outcome: Outcome, given: &mut Given) -> u8
    requires { given.old.held.outcome ≡ None }
    ensures { Gives (λ (it : Outcome). it ≡ outcome) result given.old given.new }
{
    if outcome.status == 3 {
        return 3;
    }
    let status = outcome.status;
    let answers = Bytes::of(&outcome.answers);
    let saved = Bytes::of(&outcome.saved);
    let message = Bytes::of(&outcome.message);
    let Ok(held) = Box::new(alloc, outcome) else {
        return 3;
    };
    *given = Given {
        held: OutcomeHandle::of(held),
        answers,
        saved,
        message,
    };
    status
}

/// Frees an outcome. Then C has none.
pub fn free(alloc: Global, given: &mut Given)
    requires { IsHandleOf given.old.held }
    ensures { given.new.held.outcome ≡ None }
{
    drop(given.held.take(alloc));
    given.answers = Bytes::none();
    given.saved = Bytes::none();
    given.message = Bytes::none();
}
