ghost use Rattle.fits_pixels.specs.Summary.{side_by_side, halves_joined, HalvesFit};
ghost use Rattle.fits_pixels.specs.SummaryLaws.{both_laws};

use crate::summary::Summary;

/// Two summaries of one part, side by side.
#[derive(Clone, Copy)]
pub struct Both<A, B> {
    pub first: A,
    pub second: B,
}

impl<A: Summary, B: Summary> Summary for Both<A, B> {
    ghost empty = { side_by_side A.empty B.empty };

    ghost joined = { halves_joined A.joined B.joined };

    ghost fits = { HalvesFit A.fits B.fits };

    ghost laws = { both_laws A.laws B.laws };

    fn unit() -> Both<A, B> {
        Both {
            first: A::unit(),
            second: B::unit(),
        }
    }

    fn join(self, other: Both<A, B>) -> Both<A, B> {
        Both {
            first: self.first.join(other.first),
            second: self.second.join(other.second),
        }
    }
}
