//! How many problems of a report are of each code.
ghost use Rattle.std.specs.Prelude.{◌≡◌, List};
ghost use Rattle.fits_cli.specs.NewErrors.{has_more, AreCounts};
ghost use Rattle.fits_passing.specs.declared.problem.Problem.{Problem};

use fits_codes::Code;
use fits_session::Problem;
use fits_tell::Level;

/// One more than the greatest number of a code.
pub(crate) const NUMBERS: usize = 27;

/// How many problems there are of each code, by its number.
pub(crate) fn counts_of(report: &[Problem]) -> [usize; NUMBERS]
    ensures { AreCounts report.now result }
{
    let mut counts = [0; NUMBERS];
    for it in report {
        counts[it.code.number() as usize] += 1;
    }
    counts
}

/// Whether a level lists a code, and there is more of it than there was.
pub(crate) fn has_more(
    level: Level,
    had: &[usize; NUMBERS],
    has: &[usize; NUMBERS],
    code: Code,
) -> bool
    ensures { (before after : List Problem) → AreCounts before had.now → AreCounts after has.now
        → result ≡ has_more level before after code }
{
    let number = code.number() as usize;
    level.lists(code) && had[number] < has[number]
}
