ghost use Rattle.std.proofs.Common.{refl, inl, inr};

use crate::signed_pixel::SignedPixel;
use byteorder::{BigEndian, ByteOrder};

impl SignedPixel for i32 {
    ghost width = { 4 };

    ghost number = { λ x. x };

    fn read(block: &[u8], i: usize) -> i32 {
        BigEndian::read_i32(&block[4 * i..])
    }

    fn nearest(stored: i64) -> i32 {
        stored.min(i64::from(i32::MAX)).max(i64::from(i32::MIN)) as i32
    }

    fn wide(self) -> i64 {
        i64::from(self)
    }

    fn with(self, test: bool) -> i32 {
        self + i32::from(test)
    }

    ghost signed = { inr (inl refl) };

    ghost order = { λ x y. refl };
}
