use std::alloc::{AllocError, AllocFailed};
use thiserror::Error;

/// Why a file doesn't open. HDUs and places of cards count from 1.
#[derive(Clone, Copy, PartialEq, Eq, Debug, Error)]
pub enum OpenFault {
    /// The file doesn't begin with `SIMPLE` and two spaces (FITS Standard 4.0, section 4.4.1.1).
    #[error("O1 NotFits")]
    NotFits,
    /// The header of this HDU has no END, or its last block isn't whole (4.4.1).
    #[error("O2 NoEnd hdu {hdu}")]
    NoEnd { hdu: usize },
    /// The card at this place is the first that breaks a rule of shapes, or is missing (4.4.1.1,
    /// 4.4.1.2).
    #[error("O3 BadShape hdu {hdu} card {card}")]
    BadShape { hdu: usize, card: usize },
    /// Fewer bytes follow the header than it describes, with the fill of the last block (3.1).
    #[error("O4 ShortData hdu {hdu}")]
    ShortData { hdu: usize },
    /// The file is longer than a file may be, or an extension begins after as many HDUs as it may
    /// have.
    #[error("O5 TooLarge")]
    TooLarge,
    /// Memory was refused.
    #[error("O6 Memory")]
    Memory,
}

impl From<AllocError> for OpenFault {
    ghost use Rattle.fits_passing.specs.declared.open_fault.OpenFault.TheVariants.{Memory};
    ghost use Rattle.std.specs.Prelude.{◌≡◌};

    ghost from_gives = { λ _ fault. fault ≡ Memory };

    fn from(_: AllocError) -> OpenFault {
        OpenFault::Memory
    }
}

impl<T: Drop> From<AllocFailed<T>> for OpenFault {
    ghost use Rattle.fits_passing.specs.declared.open_fault.OpenFault.TheVariants.{Memory};
    ghost use Rattle.std.specs.Prelude.{◌≡◌};

    ghost from_gives = { λ _ fault. fault ≡ Memory };

    fn from(_: AllocFailed<T>) -> OpenFault {
        OpenFault::Memory
    }
}
