use fits_passing::ReadFileFault;
use fits_tell::Fault;
use std::alloc::AllocError;

/// What ended a comparison before its end.
#[derive(Clone, Copy)]
pub enum DiffFault {
    /// The first file isn't had.
    First(ReadFileFault),
    /// The second one isn't.
    Second(ReadFileFault),
    /// Memory was refused.
    Memory,
    /// What differs isn't written.
    WriteFailed,
}

impl DiffFault {
    ghost use Rattle.std.specs.Prelude.{◌≡◌};
    ghost use Rattle.fits_diff.specs.Diff.{told_fault};

    /// The fault, as standard error tells it.
    pub fn told(self) -> Fault
        ensures { result ≡ told_fault self }
    {
        match self {
            DiffFault::First(why) | DiffFault::Second(why) => Fault::from(why),
            DiffFault::Memory => Fault::Memory,
            DiffFault::WriteFailed => Fault::WriteFailed,
        }
    }
}

impl From<AllocError> for DiffFault {
    ghost use Rattle.fits_diff.specs.declared.diff_fault.DiffFault.TheVariants.{Memory};
    ghost use Rattle.std.specs.Prelude.{◌≡◌};

    ghost from_gives = { λ _ fault. fault ≡ Memory };

    fn from(_: AllocError) -> DiffFault {
        DiffFault::Memory
    }
}
