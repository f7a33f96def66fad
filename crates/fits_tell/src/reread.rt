use fits_unit::LoadFault;
use thiserror::Error;

/// Why data that lie in a stored file weren't had.
#[derive(Clone, Copy, Debug, Error)]
pub enum Reread {
    #[error("no memory")]
    Memory,
    #[error("read failed")]
    Failed,
    /// They have another total than was known, or there are fewer; or the file isn't as it was when
    /// the run began.
    #[error("the file changed while it was read")]
    Changed,
}

impl From<LoadFault> for Reread {
    ghost use Rattle.std.specs.Prelude.{◌≡◌};
    ghost use Rattle.fits_tell.specs.Faults.{reread_of};

    ghost from_gives = { λ why fault. fault ≡ reread_of why };

    fn from(why: LoadFault) -> Reread {
        match why {
            LoadFault::Memory => Reread::Memory,
            LoadFault::Failed => Reread::Failed,
            LoadFault::Changed => Reread::Changed,
        }
    }
}
