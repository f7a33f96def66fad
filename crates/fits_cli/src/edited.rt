ghost use Rattle.std.specs.Prelude.{◌≡◌};
ghost use Rattle.fits_cli.specs.Ends.{end_of};

use fits_tell::{End, Fault};

/// How a run came to its end.
#[derive(Clone, Copy)]
pub enum Edited {
    /// Its result is saved, or none is wanted. The status is 1 where a line was refused or bad, else 0.
    Done(u8),
    /// So many lines weren't done, and every one was to be: nothing is saved.
    KeptBack(u64),
    /// So many errors and warnings are new, of those that count: nothing is saved.
    Unsound { errors: u64, warnings: u64 },
}

impl Edited {
    ghost use Rattle.std.specs.Prelude.{◌≡◌};
    ghost use Rattle.fits_cli.specs.Ends.{status_of_edited};

    /// The program's exit status: 1 where something kept the result from being saved.
    pub fn status(self) -> u8
        ensures { result ≡ status_of_edited self }
    {
        match self {
            Edited::Done(status) => status,
            Edited::KeptBack(_) | Edited::Unsound { .. } => 1,
        }
    }
}

/// How a run ended, whatever kept its result from being saved.
pub fn end_of(edited: Result<Edited, Fault>) -> End
    ensures { result ≡ end_of edited }
{
    match edited {
        Ok(it) => End {
            status: it.status(),
            fault: None,
        },
        Err(why) => End::from(why),
    }
}
