ghost use Rattle.std.specs.Prelude.{◌≡◌, ◌+◌};

use crate::counting::count_more;
use fits_codes::Code;

/// How many errors and warnings a report has.
#[derive(Clone, Copy, PartialEq, Eq, Debug)]
pub struct Counts {
    pub errors: u64,
    pub warnings: u64,
}

impl Counts {
    /// Nothing was found.
    pub(crate) const NONE: Counts = Counts {
        errors: 0,
        warnings: 0,
    };

    ghost use Rattle.std.specs.Prelude.{◌≡◌, ◌+◌, ◌<◌, ◌^◌, length};
    ghost use Rattle.fits_header.specs.Findings.{counts_of, summed};

    /// Those of these codes.
    pub fn of(codes: &[Code]) -> Counts
        ensures value { result ≡ counts_of codes.now }
        ensures sum { result.errors + result.warnings ≡ length codes.now }
    {
        count_more(Counts::NONE, codes)
    }

    /// These and others.
    pub fn plus(self, other: Counts) -> Counts
        requires errors { self.errors + other.errors < 2 ^ 64 }
        requires warnings { self.warnings + other.warnings < 2 ^ 64 }
        ensures { result ≡ summed self other }
    {
        Counts {
            errors: self.errors + other.errors,
            warnings: self.warnings + other.warnings,
        }
    }
}
