ghost use Rattle.std.specs.Prelude.{◌≡◌, if◌then◌else◌};

use crate::fault::Fault;

/// How a run ended.
#[derive(Clone, Copy)]
pub struct End {
    /// The program's exit status: 0 done, 1 a line was refused or bad, or a report has an error, else
    /// that of the fault.
    pub status: u8,
    /// What ended the run before its end.
    pub fault: Option<Fault>,
}

impl From<Fault> for End {
    ghost use Rattle.std.specs.Prelude.{◌≡◌, Some};
    ghost use Rattle.fits_tell.specs.Faults.{status_of_fault};

    ghost from_gives = { λ why end.
        (end.status ≡ status_of_fault why) × (end.fault ≡ Some why) };

    fn from(why: Fault) -> End {
        End {
            status: why.status(),
            fault: Some(why),
        }
    }
}

/// The status 1 where something is so, else 0.
pub fn one_if(is: bool) -> u8
    ensures { result ≡ (if is then 1 else 0) }
{
    if is { 1 } else { 0 }
}
