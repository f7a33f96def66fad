use fits_making::Refusal;
use fits_passing::ReadFileFault;
use fits_tell::Fault;
use std::alloc::AllocError;

/// What ended a run of `diff -s` before its end.
#[derive(Drop)]
pub enum PatchFault {
    /// The second file isn't had.
    Second(ReadFileFault),
    /// The files have other numbers of HDUs.
    OtherCount,
    /// A line isn't accepted.
    Unmade {
        /// The line, without its line feed.
        line: Vec<u8>,
        /// Its refusal, where it says an edit.
        why: Option<Refusal>,
    },
    /// All lines are accepted, and the cards are others.
    Unlike,
    /// Memory was refused.
    Memory,
    /// The script isn't written.
    WriteFailed,
}

impl PatchFault {
    ghost use Rattle.std.specs.Prelude.{◌≡◌};
    ghost use Rattle.fits_patch.specs.Ends.{status_of_patch};

    /// The program's exit status.
    pub fn status(&self) -> u8
        ensures { result ≡ status_of_patch self.now }
    {
        match self {
            PatchFault::Second(why) => Fault::from(*why).status(),
            PatchFault::OtherCount | PatchFault::Unmade { .. } | PatchFault::Unlike => 2,
            PatchFault::Memory | PatchFault::WriteFailed => 3,
        }
    }
}

impl From<AllocError> for PatchFault {
    ghost use Rattle.fits_patch.specs.declared.patch_fault.PatchFault.TheVariants.{Memory};
    ghost use Rattle.std.specs.Prelude.{◌≡◌};

    ghost from_gives = { λ _ fault. fault ≡ Memory };

    fn from(_: AllocError) -> PatchFault {
        PatchFault::Memory
    }
}
