use std::alloc::AllocError;
use thiserror::Error;

/// Why a line is not a command.
#[derive(Clone, Copy, PartialEq, Eq, Debug, Error)]
pub enum LineFault {
    /// It has none of the forms, or is past the limit.
    #[error("not a command")]
    Bad,
    /// Memory was refused. Only a value that is set, the axes of a new
    /// image, corners and values of pixels ask for any.
    #[error("out of memory")]
    Memory,
}

impl From<AllocError> for LineFault {
    ghost use Rattle.fits_script.specs.declared.line_fault.LineFault.TheVariants.{Memory};
    ghost use Rattle.std.specs.Prelude.{◌≡◌};

    ghost from_gives = { λ _ fault. fault ≡ Memory };

    fn from(_: AllocError) -> LineFault {
        LineFault::Memory
    }
}
