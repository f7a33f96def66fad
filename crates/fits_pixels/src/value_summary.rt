//! The statistics of pixel values, which are stored numbers with an offset.
ghost use Rattle.std.specs.Prelude.{◌≡◌, ◌≤◌, ◌+ℤ◌, ◌*ℤ◌, ◌^◌, pos, unsigned_abs};
ghost use Rattle.std.specs.Option.{option_map};
ghost use Rattle.fits_pixels.specs.Statistics.{summary_with};

use crate::pixel_summary::PixelSummary;

/// The statistics of pixel values (FITS Standard 4.0, sections 4.4.2.5 and 5.2.5).
#[derive(Clone, Copy, PartialEq, Eq, Debug)]
pub struct ValueSummary {
    /// How many pixels aren't blank.
    pub defined: u64,
    /// How many have the stored number that BLANK says.
    pub blank: u64,
    /// The least value of those defined.
    pub least: Option<i128>,
    /// The greatest.
    pub greatest: Option<i128>,
    /// The sum of all.
    pub sum: i128,
}

impl PixelSummary {
    /// The summary of the same numbers, each with an offset.
    pub fn with_offset(self, offset: i128) -> ValueSummary
        requires few { self.defined ≤ 2 ^ 62 }
        requires sum { unsigned_abs self.sum ≤ 2 ^ 125 }
        requires offset { unsigned_abs offset ≤ 2 ^ 63 }
        ensures { result ≡ summary_with offset self }
    {
        ValueSummary {
            defined: self.defined,
            blank: self.blank,
            least: value_of(self.least, offset),
            greatest: value_of(self.greatest, offset),
            sum: sum_with(self.sum, self.defined, offset),
        }
    }
}

/// The value of a stored number, where there is one.
fn value_of(stored: Option<i64>, offset: i128) -> Option<i128>
    requires { unsigned_abs offset ≤ 2 ^ 63 }
    ensures { result ≡ option_map (λ x. x +ℤ offset) stored }
{
    match stored {
        Some(number) => Some(number as i128 + offset),
        None => None,
    }
}

/// The sum of so many numbers, each with an offset.
pub(crate) fn sum_with(sum: i128, count: u64, offset: i128) -> i128
    requires few { count ≤ 2 ^ 62 }
    requires sum { unsigned_abs sum ≤ 2 ^ 125 }
    requires offset { unsigned_abs offset ≤ 2 ^ 63 }
    ensures { result ≡ sum +ℤ pos count *ℤ offset }
{
    sum + count as i128 * offset
}
