ghost use Rattle.std.specs.Prelude.{◌≡◌, ◌≤◌, ◌*ℤ◌, ◌+ℤ◌, ◌-ℤ◌, ◌-◌, ◌^◌, pos, unsigned_abs};
ghost use Rattle.fits_pixels.specs.Scan.{found_summary};

use crate::pixel_summary::PixelSummary;
use crate::value_summary::sum_with;

/// The summary of what a scan found.
pub(crate) fn found(defined: u64, blank: u64, least: i64, greatest: i64, sum: i128) -> PixelSummary
    ensures { result ≡ found_summary defined blank least greatest sum }
{
    let none = defined == 0;
    PixelSummary {
        defined,
        blank,
        least: if none { None } else { Some(least) },
        greatest: if none { None } else { Some(greatest) },
        sum,
    }
}

/// The summary of what a scan found, where the total has the blank numbers too.
pub(crate) fn found_beside(
    held: usize,
    blanks: u64,
    least: i64,
    greatest: i64,
    total: i128,
    blank: i64,
) -> PixelSummary
    requires few { blanks ≤ held }
    requires short { held ≤ 2880 }
    requires total { unsigned_abs total ≤ 2 ^ 125 }
    ensures { result ≡ found_summary (held - blanks) blanks least greatest
        (total +ℤ pos blanks *ℤ (pos 0 -ℤ blank)) }
{
    let sum = sum_with(total, blanks, 0 - i128::from(blank));
    found(held as u64 - blanks, blanks, least, greatest, sum)
}
