ghost use Rattle.std.specs.Prelude.{◌≡◌};
ghost use Rattle.fits_pixels.specs.Summary.{pixel_unit, pixels_joined, PixelFits, lesser, greater};
ghost use Rattle.fits_pixels.specs.SummaryLaws.{pixel_laws};

use crate::summary::Summary;

/// How many pixels are defined and how many blank, and the least, the greatest and the sum of the
/// stored numbers of those defined.
#[derive(Clone, Copy)]
pub struct PixelSummary {
    pub defined: u64,
    pub blank: u64,
    pub least: Option<i64>,
    pub greatest: Option<i64>,
    pub sum: i128,
}

impl Summary for PixelSummary {
    ghost empty = { pixel_unit };

    ghost joined = { pixels_joined };

    ghost fits = { PixelFits };

    ghost laws = { pixel_laws };

    fn unit() -> PixelSummary {
        PixelSummary {
            defined: 0,
            blank: 0,
            least: None,
            greatest: None,
            sum: 0,
        }
    }

    fn join(self, other: PixelSummary) -> PixelSummary {
        PixelSummary {
            defined: self.defined.wrapping_add(other.defined),
            blank: self.blank.wrapping_add(other.blank),
            least: lesser_of(self.least, other.least),
            greatest: greater_of(self.greatest, other.greatest),
            sum: self.sum.wrapping_add(other.sum),
        }
    }
}

fn lesser_of(a: Option<i64>, b: Option<i64>) -> Option<i64>
    ensures { result ≡ lesser a b }
{
    match (a, b) {
        (None, y) => y,
        (x, None) => x,
        (Some(x), Some(y)) => Some(x.min(y)),
    }
}

fn greater_of(a: Option<i64>, b: Option<i64>) -> Option<i64>
    ensures { result ≡ greater a b }
{
    match (a, b) {
        (None, y) => y,
        (x, None) => x,
        (Some(x), Some(y)) => Some(x.max(y)),
    }
}
