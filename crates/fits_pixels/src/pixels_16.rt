ghost use Rattle.std.proofs.Common.{refl, inl};

use crate::signed_pixel::SignedPixel;
use byteorder::{BigEndian, ByteOrder};

impl SignedPixel for i16 {
    ghost width = { 2 };

    ghost number = { λ x. x };

    fn read(block: &[u8], i: usize) -> i16 {
        BigEndian::read_i16(&block[2 * i..])
    }

    fn nearest(stored: i64) -> i16 {
        stored.min(i64::from(i16::MAX)).max(i64::from(i16::MIN)) as i16
    }

    fn wide(self) -> i64 {
        i64::from(self)
    }

    fn with(self, test: bool) -> i16 {
        self + i16::from(test)
    }

    ghost signed = { inl refl };

    ghost order = { λ x y. refl };
}
