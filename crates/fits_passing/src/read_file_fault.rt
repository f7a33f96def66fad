use crate::open_fault::OpenFault;
use fits_stream::ReadFault;
use std::alloc::{AllocError, AllocFailed};

/// Why no file was read from a source.
#[derive(Clone, Copy, PartialEq, Eq, Debug)]
pub enum ReadFileFault {
    /// Its bytes don't open, or memory was refused.
    Open(OpenFault),
    /// A call of the source failed.
    Failed,
}

impl From<AllocError> for ReadFileFault {
    ghost use Rattle.fits_passing.specs.declared.open_fault.OpenFault.TheVariants.{Memory};
    ghost use Rattle.fits_passing.specs.declared.read_file_fault.ReadFileFault.TheVariants.{Open};
    ghost use Rattle.std.specs.Prelude.{◌≡◌};

    ghost from_gives = { λ _ fault. fault ≡ Open Memory };

    fn from(_: AllocError) -> ReadFileFault {
        ReadFileFault::Open(OpenFault::Memory)
    }
}

impl<T: Drop> From<AllocFailed<T>> for ReadFileFault {
    ghost use Rattle.fits_passing.specs.declared.open_fault.OpenFault.TheVariants.{Memory};
    ghost use Rattle.fits_passing.specs.declared.read_file_fault.ReadFileFault.TheVariants.{Open};
    ghost use Rattle.std.specs.Prelude.{◌≡◌};

    ghost from_gives = { λ _ fault. fault ≡ Open Memory };

    fn from(_: AllocFailed<T>) -> ReadFileFault {
        ReadFileFault::Open(OpenFault::Memory)
    }
}

impl From<ReadFault> for ReadFileFault {
    ghost use Rattle.fits_passing.specs.Reading.{of_read};
    ghost use Rattle.std.specs.Prelude.{◌≡◌};

    ghost from_gives = { λ step fault. fault ≡ of_read step };

    fn from(fault: ReadFault) -> ReadFileFault {
        match fault {
            ReadFault::Memory => ReadFileFault::Open(OpenFault::Memory),
            ReadFault::Failed => ReadFileFault::Failed,
        }
    }
}
