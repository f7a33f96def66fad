use fits_making::Refusal;
use std::alloc::AllocError;

/// Why a line of a script isn't accepted.
#[derive(Clone, Copy)]
pub(crate) enum Unmade {
    /// For a refusal, or since it says no edit.
    Refused(Option<Refusal>),
    /// Memory was refused.
    Memory,
}

impl From<AllocError> for Unmade {
    ghost use Rattle.fits_patch.specs.declared.unmade.Unmade.TheVariants.{Memory};
    ghost use Rattle.std.specs.Prelude.{◌≡◌};

    ghost from_gives = { λ _ fault. fault ≡ Memory };

    fn from(_: AllocError) -> Unmade {
        Unmade::Memory
    }
}
