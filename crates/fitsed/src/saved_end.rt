//! How the run over a file that is edited ended, and its saving.
ghost use Rattle.std.specs.Prelude.{◌≡◌, None, Some, Err};
ghost use Rattle.fits_tell.specs.declared.fault.Fault.TheVariants.{WriteFailed};
ghost use Rattle.fitsed.specs.Saving.{is_saved};
ghost use Rattle.fitsed.specs.declared.saved_end.Told.TheVariants.{Nothing};

use crate::reporting::ends_all;
use fits_cli::{Edited, Fault};
use fits_save::SaveFault;

/// What standard error was told of a file already.
#[derive(Clone, Copy)]
pub enum Told {
    Nothing,
    /// Why it isn't edited.
    OfFile,
    /// Why no further file is either: it isn't this one alone that is to blame.
    OfAll,
}

/// How a run ended, and why its result wasn't saved, if that is why.
#[derive(Clone, Copy)]
pub struct SavedEnd {
    pub done: Result<Edited, Fault>,
    pub fault: Option<SaveFault>,
    /// How many names beside OUT were taken: the number of the new file's.
    pub met: u32,
    pub told: Told,
}

impl SavedEnd {
    /// The end of a run whose result isn't saved.
    pub fn refused(fault: SaveFault) -> SavedEnd
        ensures { result ≡ record { done = Err WriteFailed; fault = Some fault; met = 0; told = Nothing } }
    {
        SavedEnd {
            done: Err(Fault::WriteFailed),
            fault: Some(fault),
            met: 0,
            told: Told::Nothing,
        }
    }

    /// The end of a run that failed, of which standard error was told.
    pub fn told(told: Told) -> SavedEnd
        ensures { result ≡ record { done = Err WriteFailed; fault = None; met = 0; told = told } }
    {
        SavedEnd {
            done: Err(Fault::WriteFailed),
            fault: None,
            met: 0,
            told,
        }
    }

    /// The end of a run that came to this, and to no more.
    pub fn of(done: Result<Edited, Fault>) -> SavedEnd
        ensures { result ≡ record { done = done; fault = None; met = 0; told = Nothing } }
    {
        SavedEnd {
            done,
            fault: None,
            met: 0,
            told: Told::Nothing,
        }
    }

    /// Whether the result was saved.
    pub fn is_saved(&self) -> bool
        ensures { result ≡ is_saved self.now.done }
    {
        matches!(self.done, Ok(Edited::Done(_)))
    }

    /// Whether no further file is edited: it isn't the file alone that is to blame.
    pub fn ends_all(&self) -> bool {
        match (self.told, self.fault) {
            (Told::OfFile, _) => false,
            (Told::OfAll, _) => true,
            (Told::Nothing, Some(fault)) => matches!(
                fault,
                SaveFault::Failed(_) | SaveFault::InPart(_)
            ),
            (Told::Nothing, None) => matches!(self.done, Err(why) if ends_all(why)),
        }
    }
}

impl From<Fault> for SavedEnd {
    ghost from_gives = { λ why end. end ≡ record { done = Err why; fault = None; met = 0; told = Nothing } };

    fn from(why: Fault) -> SavedEnd {
        SavedEnd {
            done: Err(why),
            fault: None,
            met: 0,
            told: Told::Nothing,
        }
    }
}
