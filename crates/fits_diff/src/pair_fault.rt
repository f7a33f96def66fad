use fits_passing::ReadHduFault;
use std::alloc::AllocError;

/// Why HDUs of two files weren't compared.
#[derive(Clone, Copy)]
pub(crate) enum PairFault {
    /// That of the first isn't had.
    First(ReadHduFault),
    /// That of the second isn't.
    Second(ReadHduFault),
    /// Memory was refused.
    Memory,
}

impl From<AllocError> for PairFault {
    ghost use Rattle.fits_diff.specs.declared.pair_fault.PairFault.TheVariants.{Memory};
    ghost use Rattle.std.specs.Prelude.{◌≡◌};

    ghost from_gives = { λ _ fault. fault ≡ Memory };

    fn from(_: AllocError) -> PairFault {
        PairFault::Memory
    }
}
