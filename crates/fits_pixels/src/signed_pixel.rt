ghost use Rattle.std.specs.Prelude.{◌≡◌, ◌≤◌, ◌*◌, ◌+◌, ◌+ℤ◌, ◌<ℤ◌, ℕ, ℤ, pos, if◌then◌else◌, length};
ghost use Rattle.std.specs.Int.{int_max, int_min};
ghost use Rattle.std.specs.Ordering.{int_cmp};
ghost use Rattle.fits_pixels.specs.Pixels.{pixel, IsSigned, greatest_stored, least_stored};

/// A type whose numbers are those that a pixel of some width can store, with a sign.
pub(crate) trait SignedPixel: Copy + Ord {
    /// How many bytes such a pixel has.
    ghost width: { ℕ };

    ghost number: { Self → ℤ };

    /// Stored pixel i.
    fn read(block: &[u8], i: usize) -> Self
        requires within { (i + 1) * width ≤ length block.now }
        ensures { number result ≡ pixel width block.now i };

    /// The nearest number that such a pixel can store.
    fn nearest(stored: i64) -> Self
        ensures { number result
            ≡ int_max (least_stored width) (int_min stored (greatest_stored width)) };

    /// The same number.
    fn wide(self) -> i64
        ensures { result ≡ number self };

    /// A count of pixels of a block, with one more where a test holds.
    fn with(self, test: bool) -> Self
        requires { number self <ℤ pos 1440 }
        ensures { number result ≡ number self +ℤ pos (if test then 1 else 0) };

    /// Its numbers have a sign.
    ghost signed: { IsSigned width };

    /// It is ordered by its numbers.
    ghost order: { (x y : Self) → Self.cmp x y ≡ int_cmp (number x) (number y) };
}
