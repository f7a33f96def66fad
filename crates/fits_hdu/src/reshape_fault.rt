use std::alloc::AllocError;
use thiserror::Error;

/// Why an HDU isn't made another array: the first test that fails, in this order.
#[derive(Clone, Copy, Debug, Error)]
pub enum ReshapeFault {
    /// The HDU is no array of integers.
    #[error("no array of integers")]
    NotImage,
    /// The axes can't be such, its cards scale pixels otherwise, or they wouldn't describe the array.
    #[error("bad shape")]
    BadShape,
    /// A value that stays, less the offset, isn't a number that a pixel can store.
    #[error("value out of range")]
    OutOfRange,
    /// It would have too many bytes.
    #[error("too large")]
    TooLarge,
    /// Memory was refused.
    #[error("no memory")]
    Memory,
}

impl From<AllocError> for ReshapeFault {
    ghost use Rattle.fits_hdu.specs.declared.reshape_fault.ReshapeFault.TheVariants.{Memory};
    ghost use Rattle.std.specs.Prelude.{◌≡◌};

    ghost from_gives = { λ _ fault. fault ≡ Memory };

    fn from(_: AllocError) -> ReshapeFault {
        ReshapeFault::Memory
    }
}
