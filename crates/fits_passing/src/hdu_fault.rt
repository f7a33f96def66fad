//! Why no HDU was opened.

use std::alloc::AllocError;
use thiserror::Error;

/// Why bytes don't begin with an HDU.
#[derive(Clone, Copy, PartialEq, Eq, Debug, Error)]
pub enum HduFault {
    /// There is no END card, or its block isn't whole (FITS Standard 4.0, section 4.4.1).
    #[error("the header has no END, or its last block is not whole")]
    NoEnd,
    /// The first place, from 1, whose card breaks a rule of shapes or is missing (4.4.1.1, 4.4.1.2).
    #[error("card {0} breaks a rule of the mandatory keywords, or is missing")]
    BadShape(usize),
    /// Fewer bytes follow the header than its cards describe, with the fill of the last block
    /// (3.1).
    #[error("the data end before the header says")]
    ShortData,
    /// Memory was refused.
    #[error("out of memory")]
    Memory,
}

impl From<AllocError> for HduFault {
    ghost use Rattle.fits_passing.specs.declared.hdu_fault.HduFault.TheVariants.{Memory};
    ghost use Rattle.std.specs.Prelude.{◌≡◌};

    ghost from_gives = { λ _ fault. fault ≡ Memory };

    fn from(_: AllocError) -> HduFault {
        HduFault::Memory
    }
}
