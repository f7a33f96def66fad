ghost use Rattle.std.proofs.Common.{refl, inl, inr};

use crate::signed_pixel::SignedPixel;
use byteorder::{BigEndian, ByteOrder};

impl SignedPixel for i64 {
    ghost width = { 8 };

    ghost number = { λ x. x };

    fn read(block: &[u8], i: usize) -> i64 {
        BigEndian::read_i64(&block[8 * i..])
    }

    fn nearest(stored: i64) -> i64 {
        stored
    }

    fn wide(self) -> i64 {
        self
    }

    fn with(self, test: bool) -> i64 {
        self + i64::from(test)
    }

    ghost signed = { inr (inr refl) };

    ghost order = { λ x y. refl };
}
