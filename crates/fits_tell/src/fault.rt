ghost use Rattle.std.specs.Prelude.{◌≡◌};

use crate::reread::Reread;
use fits_passing::{OpenFault, ReadFileFault};
use fits_stream::ReadFault;
use fits_unit::{CopyFault, LoadFault};
use std::alloc::AllocError;
use thiserror::Error;

/// What ended a run before its end, as standard error tells it.
#[derive(Clone, Copy, Debug, Error)]
pub enum Fault {
    /// The file doesn't open.
    #[error("fitsed: open refused {0}")]
    Refused(OpenFault),
    #[error("fitsed: script too long")]
    ScriptTooLong,
    #[error("fitsed: no memory")]
    Memory,
    #[error("fitsed: read failed")]
    ReadFailed,
    #[error("fitsed: write failed")]
    WriteFailed,
    /// Data of the file were wanted, and weren't had; or it changed.
    #[error("fitsed: {0}")]
    Reread(Reread),
}

impl Fault {
    ghost use Rattle.std.specs.Prelude.{◌≡◌};
    ghost use Rattle.fits_tell.specs.Faults.{status_of_fault};

    /// The program's exit status: 2 for a file or a script that isn't taken, 3 for devices and
    /// memory.
    pub fn status(self) -> u8
        ensures { result ≡ status_of_fault self }
    {
        match self {
            Fault::Refused(_) | Fault::ScriptTooLong => 2,
            Fault::Memory | Fault::ReadFailed | Fault::WriteFailed | Fault::Reread(_) => 3,
        }
    }
}

impl From<AllocError> for Fault {
    ghost use Rattle.fits_tell.specs.declared.fault.Fault.TheVariants.{Memory};
    ghost use Rattle.std.specs.Prelude.{◌≡◌};

    ghost from_gives = { λ _ fault. fault ≡ Memory };

    fn from(_: AllocError) -> Fault {
        Fault::Memory
    }
}

impl From<ReadFault> for Fault {
    ghost use Rattle.fits_tell.specs.Faults.{fault_of_read};
    ghost use Rattle.std.specs.Prelude.{◌≡◌};

    ghost from_gives = { λ why fault. fault ≡ fault_of_read why };

    fn from(why: ReadFault) -> Fault {
        match why {
            ReadFault::Memory => Fault::Memory,
            ReadFault::Failed => Fault::ReadFailed,
        }
    }
}

impl From<OpenFault> for Fault {
    ghost use Rattle.fits_tell.specs.Faults.{fault_of_open};
    ghost use Rattle.std.specs.Prelude.{◌≡◌};

    ghost from_gives = { λ why fault. fault ≡ fault_of_open why };

    fn from(why: OpenFault) -> Fault {
        match why {
            OpenFault::Memory => Fault::Memory,
            _ => Fault::Refused(why),
        }
    }
}

impl From<ReadFileFault> for Fault {
    ghost use Rattle.fits_tell.specs.Faults.{fault_of_file};
    ghost use Rattle.std.specs.Prelude.{◌≡◌};

    ghost from_gives = { λ why fault. fault ≡ fault_of_file why };

    fn from(why: ReadFileFault) -> Fault {
        match why {
            ReadFileFault::Open(why) => Fault::from(why),
            ReadFileFault::Failed => Fault::ReadFailed,
        }
    }
}

impl From<LoadFault> for Fault {
    ghost use Rattle.fits_tell.specs.Faults.{fault_of_load};
    ghost use Rattle.std.specs.Prelude.{◌≡◌};

    ghost from_gives = { λ why fault. fault ≡ fault_of_load why };

    fn from(why: LoadFault) -> Fault {
        Fault::Reread(Reread::from(why))
    }
}

impl From<CopyFault> for Fault {
    ghost use Rattle.fits_tell.specs.Faults.{fault_of_copy};
    ghost use Rattle.std.specs.Prelude.{◌≡◌};

    ghost from_gives = { λ why fault. fault ≡ fault_of_copy why };

    fn from(why: CopyFault) -> Fault {
        match why {
            CopyFault::Failed => Fault::Reread(Reread::Failed),
            CopyFault::Changed => Fault::Reread(Reread::Changed),
            CopyFault::Write => Fault::WriteFailed,
        }
    }
}
