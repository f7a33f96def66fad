//! The 64-bit numbers of a block, added up by halves: the total of the words, and that of all pixels
//! of 64 bits, by one pass.
ghost use Rattle.std.specs.Prelude.{◌≡◌, ◌≤◌, ◌*◌, ◌+◌, ◌-◌, ◌/◌, ◌%◌, ◌^◌, length};
ghost use Rattle.fits_sum.specs.Words.{word_total};
ghost use Rattle.fits_pixels.specs.Scan.{unsigned_total};

use byteorder::{BigEndian, ByteOrder};

/// The totals of the high and of the low halves of 64-bit numbers.
#[derive(Clone, Copy)]
pub(crate) struct LongHalves {
    pub(crate) high: u64,
    pub(crate) low: u64,
}

impl LongHalves {
    /// The total of the numbers.
    pub(crate) fn long_total(self) -> u128
        ensures { result ≡ 2 ^ 32 * self.high + self.low }
    {
        u128::from(self.high) * 4_294_967_296 + u128::from(self.low)
    }
}

/// Adds up the 64-bit numbers of a block by halves, each a word of it.
pub(crate) fn long_halves_of(block: &[u8]) -> LongHalves
    requires whole { length block.now % 8 ≡ 0 }
    requires short { length block.now ≤ 2880 }
    ensures words { result.high + result.low ≡ word_total block.now }
    ensures eights { 2 ^ 32 * result.high + result.low
        ≡ unsigned_total 8 block.now 0 (length block.now / 8) }
    ensures high { result.high ≤ 360 * (2 ^ 32 - 1) }
    ensures low { result.low ≤ 360 * (2 ^ 32 - 1) }
{
    let mut high = 0u64;
    let mut low = 0u64;
    for i in 0..block.len() / 8 {
        let long = BigEndian::read_u64(&block[8 * i..]);
        high += long / 4_294_967_296;
        low += long % 4_294_967_296;
    }
    LongHalves { high, low }
}
